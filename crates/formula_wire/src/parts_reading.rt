//! Corners, arrays and parameters from the front of bytes.

ghost use Rattle.base_values.specs.Answers.{Answers, map_ok};
ghost use Rattle.formula_wire.specs.laws.Reading.{corner_at, item_at, parameter_at};

use base_decimal::Decimal;
use base_tables::Error;
use base_values::{EditError, Text};
use base_wire::read;
use formula_tree::{ArrayItem, Corner, Parameter};
use std::alloc::Global;

#[tactic(auto, unfolding(crate::specs::laws::Reading::corner_at))]
pub(crate) fn corner_at(alloc: Global, bytes: &[u8]) -> Result<(Corner, &[u8]), EditError>
    ensures { Answers (map_ok (λ x. (x.0, x.1.now)) result) (corner_at bytes.now) }
{
    let (absolute_row, rest) = read::<bool>(alloc, &(), bytes)?;
    let (row, rest) = read::<i32>(alloc, &(), rest)?;
    let (absolute_column, rest) = read::<bool>(alloc, &(), rest)?;
    let (column, rest) = read::<i32>(alloc, &(), rest)?;
    let corner = Corner {
        absolute_row,
        row,
        absolute_column,
        column,
    };
    Ok((corner, rest))
}

#[tactic(auto, unfolding(crate::specs::laws::Reading::item_at))]
pub(crate) fn item_at(alloc: Global, bytes: &[u8]) -> Result<(ArrayItem, &[u8]), EditError>
    ensures { Answers (map_ok (λ x. (x.0, x.1.now)) result) (item_at bytes.now) }
{
    let (kind, rest) = read::<u8>(alloc, &(), bytes)?;
    match kind {
        0 => {
            let (value, rest) = read::<bool>(alloc, &(), rest)?;
            Ok((ArrayItem::Boolean(value), rest))
        }
        1 => {
            let (number, rest) = read::<Decimal>(alloc, &(), rest)?;
            Ok((ArrayItem::Number(number), rest))
        }
        2 => {
            let (text, rest) = read::<Text>(alloc, &(), rest)?;
            Ok((ArrayItem::Text(text), rest))
        }
        3 => {
            let (error, rest) = read::<Error>(alloc, &(), rest)?;
            Ok((ArrayItem::Error(error), rest))
        }
        _ => Err(EditError::ParseDiffs),
    }
}

#[tactic(auto, unfolding(crate::specs::laws::Reading::parameter_at))]
pub(crate) fn parameter_at(alloc: Global, bytes: &[u8]) -> Result<(Parameter, &[u8]), EditError>
    ensures { Answers (map_ok (λ x. (x.0, x.1.now)) result) (parameter_at bytes.now) }
{
    let (name, rest) = read::<Text>(alloc, &(), bytes)?;
    let (optional, rest) = read::<bool>(alloc, &(), rest)?;
    Ok((Parameter { name, optional }, rest))
}
