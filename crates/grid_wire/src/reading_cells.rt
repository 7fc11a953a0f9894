//! Positions and cells from the front of bytes.

ghost use Rattle.base_values.specs.Answers.{Answers, map_ok};
ghost use Rattle.grid_wire.specs.laws.CellReading.{cell_at, content_at, formula_at, position_at, sides_at};

use crate::reading_styles::style_at;
use base_decimal::Decimal;
use base_shared::Shared;
use base_styles::Style;
use base_tables::Error;
use base_values::{EditError, Position, Text};
use base_wire::read;
use cell_content::Content;
use formula_tree::Node;
use formula_wire::NodePart;
use sheet_grid::Cell;
use std::alloc::Global;

#[tactic(auto, unfolding(crate::specs::laws::CellReading::position_at))]
pub(crate) fn position_at(alloc: Global, bytes: &[u8]) -> Result<(Position, &[u8]), EditError>
    ensures { Answers (map_ok (λ x. (x.0, x.1.now)) result) (position_at bytes.now) }
{
    let (row, rest) = read::<i32>(alloc, &(), bytes)?;
    let (column, rest) = read::<i32>(alloc, &(), rest)?;
    Ok((Position { row, column }, rest))
}

/// An array with this tree, by its sides.
fn array_at(alloc: Global, tree: Shared<Node>, bytes: &[u8]) -> Result<(Content, &[u8]), EditError>
    ensures { Answers (map_ok (λ x. (x.0, x.1.now)) result) (sides_at tree bytes.now) }
{
    let (width, rest) = read::<i32>(alloc, &(), bytes)?;
    let (height, rest) = read::<i32>(alloc, &(), rest)?;
    let array = Content::Array {
        tree,
        width,
        height,
    };
    Ok((array, rest))
}

/// A formula of a kind: its tree, and behind that of an array the sides.
fn formula_at(alloc: Global, kind: u8, bytes: &[u8]) -> Result<(Content, &[u8]), EditError>
    ensures { Answers (map_ok (λ x. (x.0, x.1.now)) result) (formula_at kind bytes.now) }
{
    let (tree, rest) = read::<Shared<NodePart>>(alloc, &(), bytes)?;
    match kind {
        5 => Ok((Content::Formula(tree), rest)),
        6 => Ok((Content::Dynamic(tree), rest)),
        _ => array_at(alloc, tree, rest),
    }
}

#[tactic(auto, unfolding(crate::specs::laws::CellReading::content_at))]
fn content_at(alloc: Global, bytes: &[u8]) -> Result<(Content, &[u8]), EditError>
    ensures { Answers (map_ok (λ x. (x.0, x.1.now)) result) (content_at bytes.now) }
{
    let (kind, rest) = read::<u8>(alloc, &(), bytes)?;
    match kind {
        0 => Ok((Content::Empty, rest)),
        1 => {
            let (number, rest) = read::<Decimal>(alloc, &(), rest)?;
            Ok((Content::Number(number), rest))
        }
        2 => {
            let (value, rest) = read::<bool>(alloc, &(), rest)?;
            Ok((Content::Boolean(value), rest))
        }
        3 => {
            let (error, rest) = read::<Error>(alloc, &(), rest)?;
            Ok((Content::Error(error), rest))
        }
        4 => {
            let (text, rest) = read::<Text>(alloc, &(), rest)?;
            Ok((Content::Text(text), rest))
        }
        5 | 6 | 7 => formula_at(alloc, kind, rest),
        _ => Err(EditError::ParseDiffs),
    }
}

#[tactic(auto, unfolding(crate::specs::laws::CellReading::cell_at))]
pub(crate) fn cell_at<'a>(
    alloc: Global,
    plain: &Shared<Style>,
    bytes: &'a [u8],
) -> Result<(Shared<Cell>, &'a [u8]), EditError>
    ensures { Answers (map_ok (λ x. (x.0, x.1.now)) result) (cell_at bytes.now) }
{
    let (content, rest) = content_at(alloc, bytes)?;
    let (style, rest) = style_at(alloc, plain, rest)?;
    let cell = Shared::new(alloc, Cell { content, style })?;
    Ok((cell, rest))
}
