//! The lines of a sheet's merges.

ghost use Rattle.std.specs.Prelude.{◌≡◌, ◌++◌, OnOk};
ghost use Rattle.std.specs.List.{flat_map};
ghost use Rattle.base_axis.specs.Rectangles.{last_place, IsInside};
ghost use Rattle.script_dump.specs.Dump.{area_text, merge_line};

use base_axis::{ColumnAxis, MergedCell, RowAxis};
use base_values::Position;
use script_lines::push_reference;
use sheet_grid::Worksheet;
use std::alloc::{AllocError, Global};

/// The last place of a rectangle that is inside the sheet.
fn last_place(area: MergedCell) -> Position
    requires { IsInside area }
    ensures { result ≡ last_place area }
{
    let (_, row) = area.lines::<RowAxis>();
    let (_, column) = area.lines::<ColumnAxis>();
    Position { row, column }
}

/// Writes the name of a rectangle of places.
pub(crate) fn push_area(
    alloc: Global,
    out: &mut Vec<u8>,
    area: MergedCell,
) -> Result<(), AllocError>
    ensures { OnOk result (out.new.items ≡ out.old.items ++ area_text area) }
{
    if !area.is_inside() {
        return out.extend_from_slice(b"#REF!");
    }
    push_reference(alloc, out, area.anchor_place())?;
    if area.has_many() {
        out.extend_from_slice(b":")?;
        push_reference(alloc, out, last_place(area))?;
    }
    Ok(())
}

fn push_merge(alloc: Global, out: &mut Vec<u8>, merge: MergedCell) -> Result<(), AllocError>
    ensures { OnOk result (out.new.items ≡ out.old.items ++ merge_line merge) }
{
    out.extend_from_slice(b"merge ")?;
    push_area(alloc, out, merge)?;
    out.push(b'\n')?;
    Ok(())
}

/// Writes the lines of a sheet's merges.
pub(crate) fn push_merges(
    alloc: Global,
    out: &mut Vec<u8>,
    sheet: &Worksheet,
) -> Result<(), AllocError>
    ensures { OnOk result (out.new.items ≡ out.old.items ++ flat_map merge_line sheet.now.merges) }
{
    for merge in sheet.merged_cells() {
        push_merge(alloc, out, *merge)?;
    }
    Ok(())
}
