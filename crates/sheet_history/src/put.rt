//! Entries of a workbook: a cell, a link, what a line has, the merges and a field of a sheet, put by the
//! id of their sheet.

ghost use Rattle.std.specs.Prelude.{◌≡◌, pos, IfOk, IfSome, IsOkUnless, IsTrue, OnOk};
ghost use Rattle.std.specs.Option.{option_map};
ghost use Rattle.base_values.specs.Answers.{Edits, map_ok};
ghost use Rattle.base_values.specs.Places.{line_of};
ghost use Rattle.base_values.specs.declared.EditError.TheVariants.{InvalidRow, InvalidColumn, NoMemory};
ghost use Rattle.sheet_grid.specs.Lines.{column_of_line, row_of_line};
ghost use Rattle.sheet_grid.specs.CanonicalCell.{IsCanonicalCell};
ghost use Rattle.sheet_lines.specs.Sheets.{IsPlacedBook};
ghost use Rattle.sheet_history.specs.Entries.{cell_stands_at, is_stored, with_sheet_entry};
ghost use Rattle.sheet_history.specs.Entries.EntryKey.{CellKey, LinkKey, MergesKey, FieldKey, AttrKey};
ghost use Rattle.sheet_history.specs.Entries.EntryValue.{CellValue, LinkValue, MergesValue, FieldValue, AttrValue};
ghost use Rattle.sheet_history.specs.Fields.{field_of, with_field};
ghost use Rattle.sheet_history.specs.Diffs.{put_in, sheet_put};
ghost use Rattle.sheet_history.specs.declared.diff.LineAxis.TheVariants.{Rows, Columns};

use crate::diff::LineAxis;
use crate::field::SheetField;
use base_axis::MergeList;
use base_shared::Shared;
use base_values::{EditError, Position, copy_of};
use book_sheets::{are_merges_inside, is_array_inside};
use cell_content::fits_at;
use sheet_grid::{Cell, ColumnAttr, LineAttr, Link, RowAttr, Workbook, Worksheet, sheet_index};

/// Whether what is put at a place, a cell or none, may stand there.
fn cell_stands_at(place: Position, entry: &Option<Shared<Cell>>) -> bool
    ensures { result ≡ cell_stands_at place entry.now }
{
    match entry {
        Some(cell) => { fits_at(place, &cell.get().content) && is_array_inside(place, cell.get()) }
        None => true,
    }
}

/// Puts a cell, or none, at a place of a sheet, where it may stand there.
#[tactic(auto, unfolding(base_values::specs::Places::place_of))]
fn put_cell_in(
    sheet: &mut Worksheet,
    place: Position,
    entry: &Option<Shared<Cell>>,
    at: u64,
) -> Result<(), EditError>
    requires { IfSome entry.now IsCanonicalCell }
    ensures { Edits result sheet.old sheet.new (sheet_put at (CellKey sheet.old.id place) (CellValue entry.now) sheet.old) }
{
    let refused = EditError::DiffRefused { entry: 0, diff: at };
    if !cell_stands_at(place, entry) {
        return Err(refused);
    }
    match sheet.put_shared_cell(place.row, place.column, copy_of(entry)?) {
        Ok(()) => Ok(()),
        Err(EditError::NoMemory) => Err(EditError::NoMemory),
        Err(_) => Err(refused),
    }
}

/// Puts a link, or none, at a place of a sheet.
#[tactic(auto, unfolding(base_values::specs::Places::place_of))]
fn put_link_in(
    sheet: &mut Worksheet,
    place: Position,
    entry: &Option<Link>,
    at: u64,
) -> Result<(), EditError>
    ensures { Edits result sheet.old sheet.new (sheet_put at (LinkKey sheet.old.id place) (LinkValue entry.now) sheet.old) }
{
    match sheet.put_link(place.row, place.column, copy_of(entry)?) {
        Ok(()) => Ok(()),
        Err(EditError::NoMemory) => Err(EditError::NoMemory),
        Err(_) => Err(EditError::DiffRefused { entry: 0, diff: at }),
    }
}

/// Puts merges in place of those of a sheet, where each is inside.
fn put_merges_in(sheet: &mut Worksheet, merges: &MergeList, at: u64) -> Result<(), EditError>
    ensures { Edits result sheet.old sheet.new (sheet_put at (MergesKey sheet.old.id) (MergesValue merges.now) sheet.old) }
{
    if !are_merges_inside(merges) {
        return Err(EditError::DiffRefused { entry: 0, diff: at });
    }
    sheet.set_merged_cells(copy_of(merges)?.into_items());
    Ok(())
}

/// Puts a value in its field of a sheet.
fn put_field_in(sheet: &mut Worksheet, value: SheetField)
    ensures { sheet.new ≡ with_field (field_of value) value sheet.old }
{
    match value {
        SheetField::State(state) => sheet.set_state(state),
        SheetField::Color(color) => sheet.set_color(&color),
        SheetField::GridLines(drawn) => sheet.set_show_grid_lines(drawn),
        SheetField::FrozenRows(count) => sheet.put_frozen(count, sheet.frozen_columns()),
        SheetField::FrozenColumns(count) => sheet.put_frozen(sheet.frozen_rows(), count),
    }
}

/// Whether what a line gets is something, or it is left with nothing.
fn is_stored(entry: &Option<LineAttr>) -> bool
    ensures { result ≡ is_stored entry.now }
{
    match entry {
        Some(attr) => !attr.is_plain(),
        None => true,
    }
}

/// What a row gets, as a row's. `NoMemory` alone is an error.
fn row_attr(entry: &Option<LineAttr>) -> Result<Option<RowAttr>, EditError>
    ensures output { IfOk result (λ attr. attr ≡ option_map row_of_line entry.now) }
    ensures only { IsOkUnless result NoMemory }
{
    Ok(copy_of(entry)?.map(LineAttr::into_row))
}

/// Puts what a row of a sheet has of its own, which is something.
fn put_row_in(sheet: &mut Worksheet, row: i32, entry: &Option<LineAttr>) -> Result<(), EditError>
    requires { IsTrue (is_stored entry.now) }
    ensures { Edits result sheet.old sheet.new (map_ok (λ line. with_sheet_entry (AttrKey sheet.old.id Rows line) (AttrValue entry.now) sheet.old) (line_of (pos 1048576) row InvalidRow)) }
{
    let attr = row_attr(entry)?;
    sheet.put_row(row, attr)
}

/// What a column gets, as a column's. `NoMemory` alone is an error.
fn column_attr(entry: &Option<LineAttr>) -> Result<Option<ColumnAttr>, EditError>
    ensures output { IfOk result (λ attr. attr ≡ option_map column_of_line entry.now) }
    ensures only { IsOkUnless result NoMemory }
{
    Ok(copy_of(entry)?.map(LineAttr::into_column))
}

/// Puts what a column of a sheet has of its own, which is something.
fn put_column_in(
    sheet: &mut Worksheet,
    column: i32,
    entry: &Option<LineAttr>,
) -> Result<(), EditError>
    requires { IsTrue (is_stored entry.now) }
    ensures { Edits result sheet.old sheet.new (map_ok (λ line. with_sheet_entry (AttrKey sheet.old.id Columns line) (AttrValue entry.now) sheet.old) (line_of (pos 16384) column InvalidColumn)) }
{
    let attr = column_attr(entry)?;
    sheet.put_column(column, attr)
}

/// Puts what a row of a sheet has of its own, where it is something and the row is inside.
#[tactic(auto, unfolding(base_values::specs::Places::line_of))]
fn put_row_attr(
    sheet: &mut Worksheet,
    row: i32,
    entry: &Option<LineAttr>,
    at: u64,
) -> Result<(), EditError>
    ensures { Edits result sheet.old sheet.new (sheet_put at (AttrKey sheet.old.id Rows row) (AttrValue entry.now) sheet.old) }
{
    let refused = EditError::DiffRefused { entry: 0, diff: at };
    if !is_stored(entry) {
        return Err(refused);
    }
    match put_row_in(sheet, row, entry) {
        Ok(()) => Ok(()),
        Err(EditError::NoMemory) => Err(EditError::NoMemory),
        Err(_) => Err(refused),
    }
}

/// Puts what a column of a sheet has of its own, where it is something and the column is inside.
#[tactic(auto, unfolding(base_values::specs::Places::line_of))]
fn put_column_attr(
    sheet: &mut Worksheet,
    column: i32,
    entry: &Option<LineAttr>,
    at: u64,
) -> Result<(), EditError>
    ensures { Edits result sheet.old sheet.new (sheet_put at (AttrKey sheet.old.id Columns column) (AttrValue entry.now) sheet.old) }
{
    let refused = EditError::DiffRefused { entry: 0, diff: at };
    if !is_stored(entry) {
        return Err(refused);
    }
    match put_column_in(sheet, column, entry) {
        Ok(()) => Ok(()),
        Err(EditError::NoMemory) => Err(EditError::NoMemory),
        Err(_) => Err(refused),
    }
}

/// Puts what a row or a column of a sheet has of its own.
fn put_attr_in(
    sheet: &mut Worksheet,
    axis: LineAxis,
    line: i32,
    entry: &Option<LineAttr>,
    at: u64,
) -> Result<(), EditError>
    ensures { Edits result sheet.old sheet.new (sheet_put at (AttrKey sheet.old.id axis line) (AttrValue entry.now) sheet.old) }
{
    match axis {
        LineAxis::Rows => put_row_attr(sheet, line, entry, at),
        LineAxis::Columns => put_column_attr(sheet, line, entry, at),
    }
}

/// Puts a cell, or none, at a place of the sheet of an id, where it may stand there. `at` is the
/// number of its diff.
pub(crate) fn put_cell(
    workbook: &mut Workbook,
    id: u32,
    place: Position,
    entry: &Option<Shared<Cell>>,
    at: u64,
) -> Result<(), EditError>
    requires canonical { IfSome entry.now IsCanonicalCell }
    requires placed { IsPlacedBook workbook.old }
    ensures edits { Edits result workbook.old workbook.new (put_in at workbook.old (CellKey id place) (CellValue entry.now)) }
    ensures placed { OnOk result (IsPlacedBook workbook.new) }
{
    let Some(index) = sheet_index(workbook, id)? else {
        return Err(EditError::DiffRefused { entry: 0, diff: at });
    };
    let sheet = workbook.worksheet_mut(index)?;
    put_cell_in(sheet, place, entry, at)
}

/// Puts a link, or none, at a place of the sheet of an id. `at` is the number of its diff.
pub(crate) fn put_link(
    workbook: &mut Workbook,
    id: u32,
    place: Position,
    entry: &Option<Link>,
    at: u64,
) -> Result<(), EditError>
    requires { IsPlacedBook workbook.old }
    ensures edits { Edits result workbook.old workbook.new (put_in at workbook.old (LinkKey id place) (LinkValue entry.now)) }
    ensures placed { OnOk result (IsPlacedBook workbook.new) }
{
    let Some(index) = sheet_index(workbook, id)? else {
        return Err(EditError::DiffRefused { entry: 0, diff: at });
    };
    let sheet = workbook.worksheet_mut(index)?;
    put_link_in(sheet, place, entry, at)
}

/// Puts merges in place of those of the sheet of an id, where each is inside. `at` is the number
/// of their diff.
pub(crate) fn put_merges(
    workbook: &mut Workbook,
    id: u32,
    merges: &MergeList,
    at: u64,
) -> Result<(), EditError>
    requires { IsPlacedBook workbook.old }
    ensures edits { Edits result workbook.old workbook.new (put_in at workbook.old (MergesKey id) (MergesValue merges.now)) }
    ensures placed { OnOk result (IsPlacedBook workbook.new) }
{
    let Some(index) = sheet_index(workbook, id)? else {
        return Err(EditError::DiffRefused { entry: 0, diff: at });
    };
    let sheet = workbook.worksheet_mut(index)?;
    put_merges_in(sheet, merges, at)
}

/// Puts a value in its field of the sheet of an id. `at` is the number of its diff.
pub(crate) fn put_field(
    workbook: &mut Workbook,
    id: u32,
    value: SheetField,
    at: u64,
) -> Result<(), EditError>
    requires { IsPlacedBook workbook.old }
    ensures edits { Edits result workbook.old workbook.new (put_in at workbook.old (FieldKey id (field_of value)) (FieldValue value)) }
    ensures placed { OnOk result (IsPlacedBook workbook.new) }
{
    let Some(index) = sheet_index(workbook, id)? else {
        return Err(EditError::DiffRefused { entry: 0, diff: at });
    };
    let sheet = workbook.worksheet_mut(index)?;
    put_field_in(sheet, value);
    Ok(())
}

/// Puts what a line of the sheet of an id has of its own, where it is something and the line is inside.
/// `at` is the number of its diff.
pub(crate) fn put_attr(
    workbook: &mut Workbook,
    id: u32,
    axis: LineAxis,
    line: i32,
    entry: &Option<LineAttr>,
    at: u64,
) -> Result<(), EditError>
    requires { IsPlacedBook workbook.old }
    ensures edits { Edits result workbook.old workbook.new (put_in at workbook.old (AttrKey id axis line) (AttrValue entry.now)) }
    ensures placed { OnOk result (IsPlacedBook workbook.new) }
{
    let Some(index) = sheet_index(workbook, id)? else {
        return Err(EditError::DiffRefused { entry: 0, diff: at });
    };
    let sheet = workbook.worksheet_mut(index)?;
    put_attr_in(sheet, axis, line, entry, at)
}
