//! Styles, positions and cells at the end of bytes. Those of Rust's own types fit, where their numbers are
//! canonical and their trees are at most 64 deep. Out of memory may leave some of their bytes there.

ghost use Rattle.std.specs.Prelude.{◌≡◌, ◌++◌, [], IfSome, IsTrue, OnOk};
ghost use Rattle.std.specs.Int.{w32};
ghost use Rattle.std.specs.Option.{option_map_or};
ghost use Rattle.base_wire.specs.Encoding.{encode_signed};
ghost use Rattle.cell_content.specs.Fitting.{is_shallow};
ghost use Rattle.cell_content.specs.Lens.{tree_of};
ghost use Rattle.cell_content.specs.CanonicalContent.{IsCanonicalContent};
ghost use Rattle.formula_wire.specs.Carried.{FitsNode};
ghost use Rattle.formula_wire.specs.NodeBytes.{encode_node};
ghost use Rattle.grid_wire.specs.StyleBytes.{encode_alignment, encode_border, encode_border_item, encode_color, encode_font, encode_style, FitsBorder, FitsBorderItem, FitsColor, FitsFont, FitsStyle};
ghost use Rattle.grid_wire.specs.CellBytes.{encode_cell, encode_content, encode_position, encode_rest, FitsCell, FitsContent, FitsPosition, FitsRest, FitsSides, IsKnownCell};

use crate::cell_parts::{AlignmentPart, BorderItemPart};
use crate::style_codes::{border_code, horizontal_code, kind_code, vertical_code};
use base_decimal::Decimal;
use base_styles::{Alignment, Border, BorderItem, Color, Font, Style};
use base_values::{Position, Text};
use base_wire::{Part, boolean_code};
use cell_content::{Content, tree_of};
use formula_wire::push_node;
use sheet_grid::Cell;
use std::alloc::AllocError;

pub(crate) fn put_color(out: &mut Vec<u8>, color: Color) -> Result<(), AllocError>
    ensures encoded { OnOk result (out.new.items ≡ out.old.items ++ encode_color color) }
    ensures fits { OnOk result (FitsColor color) }
{
    match color {
        Color::None => out.push(0)?,
        Color::Rgb { red, green, blue } => out.extend_from_slice(&[1, red, green, blue])?,
        Color::Theme(theme) => out.extend_from_slice(&[2, theme.code()])?,
    }
    Ok(())
}

fn put_font(out: &mut Vec<u8>, font: Font) -> Result<(), AllocError>
    ensures encoded { OnOk result (out.new.items ≡ out.old.items ++ encode_font font) }
    ensures fits { OnOk result (FitsFont font) }
{
    out.push(boolean_code(font.b))?;
    out.push(boolean_code(font.i))?;
    out.push(boolean_code(font.u))?;
    out.push(boolean_code(font.strike))?;
    out.extend_from_slice(&font.sz.to_be_bytes())?;
    put_color(out, font.color)
}

pub(crate) fn put_border_item(out: &mut Vec<u8>, item: BorderItem) -> Result<(), AllocError>
    ensures encoded { OnOk result (out.new.items ≡ out.old.items ++ encode_border_item item) }
    ensures fits { OnOk result (FitsBorderItem item) }
{
    out.push(border_code(item.style))?;
    put_color(out, item.color)
}

#[tactic(auto, using(crate::proofs::Known::any_option))]
fn put_border(out: &mut Vec<u8>, border: Border) -> Result<(), AllocError>
    ensures encoded { OnOk result (out.new.items ≡ out.old.items ++ encode_border border) }
    ensures fits { OnOk result (FitsBorder border) }
{
    Option::<BorderItemPart>::put(out, &border.left)?;
    Option::<BorderItemPart>::put(out, &border.right)?;
    Option::<BorderItemPart>::put(out, &border.top)?;
    Option::<BorderItemPart>::put(out, &border.bottom)
}

pub(crate) fn put_alignment(out: &mut Vec<u8>, alignment: Alignment) -> Result<(), AllocError>
    ensures { OnOk result (out.new.items ≡ out.old.items ++ encode_alignment alignment) }
{
    out.push(horizontal_code(alignment.horizontal))?;
    out.push(vertical_code(alignment.vertical))?;
    out.push(boolean_code(alignment.wrap_text))?;
    Ok(())
}

pub(crate) fn put_style(out: &mut Vec<u8>, style: &Style) -> Result<(), AllocError>
    ensures encoded { OnOk result (out.new.items ≡ out.old.items ++ encode_style style.now) }
    ensures fits { OnOk result (FitsStyle style.now) }
{
    put_font(out, style.font)?;
    put_color(out, style.fill)?;
    put_border(out, style.border)?;
    Text::put(out, &style.num_fmt)?;
    Option::<AlignmentPart>::put(out, &style.alignment)
}

#[tactic(auto, unfolding(crate::specs::CellBytes::encode_position))]
pub(crate) fn put_position(out: &mut Vec<u8>, place: Position) -> Result<(), AllocError>
    ensures encoded { OnOk result (out.new.items ≡ out.old.items ++ encode_position place) }
    ensures fits { OnOk result (FitsPosition place) }
{
    out.extend_from_slice(&place.row.to_be_bytes())?;
    out.extend_from_slice(&place.column.to_be_bytes())
}

fn put_sides(out: &mut Vec<u8>, width: i32, height: i32) -> Result<(), AllocError>
    ensures encoded { OnOk result (out.new.items ≡ out.old.items ++ (encode_signed w32 width ++ encode_signed w32 height)) }
    ensures fits { OnOk result (FitsSides width height) }
{
    out.extend_from_slice(&width.to_be_bytes())?;
    out.extend_from_slice(&height.to_be_bytes())
}

/// What a content holds besides a tree.
fn put_rest(out: &mut Vec<u8>, content: &Content) -> Result<(), AllocError>
    ensures encoded { OnOk result (out.new.items ≡ out.old.items ++ encode_rest content.now) }
    ensures fits { OnOk result (IsCanonicalContent content.now → FitsRest content.now) }
{
    match content {
        Content::Number(number) => Decimal::put(out, number),
        Content::Boolean(value) => Ok(out.push(boolean_code(*value))?),
        Content::Error(error) => Ok(out.push(error.code())?),
        Content::Text(text) => Text::put(out, text),
        Content::Array { width, height, .. } => put_sides(out, *width, *height),
        _ => Ok(()),
    }
}

fn put_tree(out: &mut Vec<u8>, content: &Content) -> Result<(), AllocError>
    ensures encoded { OnOk result (out.new.items ≡ out.old.items ++ option_map_or encode_node (tree_of content.now) []) }
    ensures fits { OnOk result (IsCanonicalContent content.now → IsTrue (is_shallow content.now) → IfSome (tree_of content.now) FitsNode) }
{
    match tree_of(content) {
        Some(tree) => push_node(out, tree.get()),
        None => Ok(()),
    }
}

fn put_content(out: &mut Vec<u8>, content: &Content) -> Result<(), AllocError>
    ensures encoded { OnOk result (out.new.items ≡ out.old.items ++ encode_content content.now) }
    ensures fits { OnOk result (IsCanonicalContent content.now → IsTrue (is_shallow content.now) → FitsContent content.now) }
{
    out.push(kind_code(content))?;
    put_tree(out, content)?;
    put_rest(out, content)
}

pub(crate) fn put_cell(out: &mut Vec<u8>, cell: &Cell) -> Result<(), AllocError>
    ensures encoded { OnOk result (out.new.items ≡ out.old.items ++ encode_cell cell.now) }
    ensures fits { OnOk result (IsKnownCell cell.now → FitsCell cell.now) }
{
    put_content(out, &cell.content)?;
    put_style(out, cell.style.get())?;
    Ok(())
}
