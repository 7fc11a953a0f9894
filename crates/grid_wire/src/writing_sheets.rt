//! Whole sheets at the end of bytes. Out of memory may leave some of their bytes there.

ghost use Rattle.std.specs.Prelude.{◌≡◌, ◌++◌, OnOk, FitsSigned};
ghost use Rattle.std.specs.Int.{w32};
ghost use Rattle.base_wire.specs.Encoding.{boolean_code, encode_code, encode_signed, encode_text, FitsText};
ghost use Rattle.grid_wire.specs.StyleBytes.{encode_color, FitsColor};
ghost use Rattle.grid_wire.specs.StateBytes.{state_code};
ghost use Rattle.grid_wire.specs.SheetBytes.{encode_entries, encode_fields, encode_sheet, FitsEntries, FitsFields, FitsSheet, IsKnownSheet};

use crate::keys::{put_axis_map, put_place_map};
use crate::lines::LinePart;
use crate::states::StatePart;
use crate::{CellPart, ColorPart, LinkPart, MergeListPart, RuleListPart};
use base_axis::{ColumnAxis, RowAxis};
use base_wire::{Part, boolean_code};
use sheet_grid::Worksheet;
use std::alloc::AllocError;

/// Adds the length of a text, and its bytes.
pub(crate) fn put_text(out: &mut Vec<u8>, text: &str) -> Result<(), AllocError>
    ensures encoded { OnOk result (out.new.items ≡ out.old.items ++ encode_text text.now) }
    ensures fits { OnOk result (FitsText text.now) }
{
    let bytes = text.as_bytes();
    out.extend_from_slice(&(bytes.len() as u64).to_be_bytes())?;
    out.extend_from_slice(bytes)
}

/// Adds whether grid lines are drawn, and how many rows and columns are frozen.
fn put_grid(out: &mut Vec<u8>, sheet: &Worksheet) -> Result<(), AllocError>
    ensures encoded { OnOk result (out.new.items ≡ out.old.items
        ++ (encode_code boolean_code sheet.now.show_grid_lines ++ (encode_signed w32 sheet.now.frozen_rows ++ encode_signed w32 sheet.now.frozen_columns))) }
    ensures rows { OnOk result (FitsSigned w32 sheet.now.frozen_rows) }
    ensures columns { OnOk result (FitsSigned w32 sheet.now.frozen_columns) }
{
    out.push(boolean_code(sheet.show_grid_lines()))?;
    i32::put(out, &sheet.frozen_rows())?;
    i32::put(out, &sheet.frozen_columns())?;
    Ok(())
}

/// Adds the state and the colour of a sheet.
fn put_tab(out: &mut Vec<u8>, sheet: &Worksheet) -> Result<(), AllocError>
    ensures encoded { OnOk result (out.new.items ≡ out.old.items ++ (encode_code state_code sheet.now.state ++ encode_color sheet.now.color)) }
    ensures fits { OnOk result (FitsColor sheet.now.color) }
{
    StatePart::put(out, &sheet.state())?;
    ColorPart::put(out, &sheet.color())?;
    Ok(())
}

#[tactic(auto, unfolding(crate::specs::SheetBytes::encode_fields))]
fn put_fields(out: &mut Vec<u8>, sheet: &Worksheet) -> Result<(), AllocError>
    ensures encoded { OnOk result (out.new.items ≡ out.old.items ++ encode_fields sheet.now) }
    ensures fits { OnOk result (FitsFields sheet.now) }
{
    u32::put(out, &sheet.get_sheet_id())?;
    put_text(out, sheet.get_name())?;
    put_tab(out, sheet)?;
    put_grid(out, sheet)?;
    Ok(())
}

/// Adds rows, columns, cells, links, merges and conditional rules.
#[tactic(auto, using(base_wire::specs::laws::MapFits::any_option), unfolding(crate::specs::SheetBytes::encode_entries))]
fn put_entries(out: &mut Vec<u8>, sheet: &Worksheet) -> Result<(), AllocError>
    ensures encoded { OnOk result (out.new.items ≡ out.old.items ++ encode_entries sheet.now) }
    ensures fits { OnOk result (IsKnownSheet sheet.now → FitsEntries sheet.now) }
{
    put_axis_map::<RowAxis, LinePart>(out, sheet.row_map())?;
    put_axis_map::<ColumnAxis, LinePart>(out, sheet.column_map())?;
    put_place_map::<CellPart>(out, sheet.cell_map())?;
    put_place_map::<LinkPart>(out, sheet.link_map())?;
    MergeListPart::put(out, sheet.merge_list())?;
    RuleListPart::put(out, sheet.conditional_formatting())?;
    Ok(())
}

#[tactic(auto, unfolding(crate::specs::SheetBytes::encode_sheet))]
pub(crate) fn put_sheet(out: &mut Vec<u8>, sheet: &Worksheet) -> Result<(), AllocError>
    ensures encoded { OnOk result (out.new.items ≡ out.old.items ++ encode_sheet sheet.now) }
    ensures fits { OnOk result (IsKnownSheet sheet.now → FitsSheet sheet.now) }
{
    put_fields(out, sheet)?;
    put_entries(out, sheet)
}
