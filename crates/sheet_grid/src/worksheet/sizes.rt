//! How high rows and how wide columns are, and whether they are shown.

ghost use Rattle.std.specs.Prelude.{◌≡◌, ◌≢◌, Ok, Err, OnOk, OnErr, IsOkUnless};
ghost use Rattle.std.specs.Option.{option_copied};
ghost use Rattle.std.specs.FinMap as fin;
ghost use Rattle.base_values.specs.Answers.{Returns, Changes};
ghost use Rattle.base_values.specs.Places.{IsLine};
ghost use Rattle.base_values.specs.declared.EditError.TheVariants.{NoMemory};
ghost use Rattle.sheet_grid.specs.Lines.{attr_of, usual_height, usual_width, is_hidden, actual_size, shown_size, size_of, with_size, with_hidden, own_width, height_set, width_set, hidden_set, with_change, SameBut};
ghost use Rattle.sheet_grid.specs.Sheet.{of_row, of_column, row_changed, column_changed};

use super::Worksheet;
use crate::line_attr::{LineAttr, USUAL_HEIGHT, USUAL_WIDTH};
use base_axis::{Axis, AxisMap};
use base_values::{EditError, LAST_COLUMN, LAST_ROW, copy_of, line_of};

fn is_hidden(own: Option<&LineAttr>) -> bool
    ensures { result ≡ is_hidden (option_copied own.entry) }
{
    match own {
        Some(attr) => attr.hidden,
        None => false,
    }
}

fn actual_size(usual: i32, own: Option<&LineAttr>) -> i32
    ensures { result ≡ actual_size usual (option_copied own.entry) }
{
    match own {
        Some(attr) => attr.size.unwrap_or(usual),
        None => usual,
    }
}

fn shown_size(usual: i32, own: Option<&LineAttr>) -> i32
    ensures { result ≡ shown_size usual (option_copied own.entry) }
{
    if is_hidden(own) {
        0
    } else {
        actual_size(usual, own)
    }
}

#[tactic(auto, unfolding(crate::specs::Lines::size_of))]
fn size_of(size: i32) -> Result<i32, EditError>
    ensures size { result ≡ size_of size }
    ensures sure { result ≢ Err NoMemory }
{
    if size >= 0 {
        Ok(size)
    } else {
        Err(EditError::NegativeSize)
    }
}

fn own_width(width: i32) -> Option<i32>
    ensures { result ≡ own_width width }
{
    if width == USUAL_WIDTH {
        None
    } else {
        Some(width)
    }
}

/// A copy of what a line has of its own, also where that is nothing.
pub(super) fn attr_of<A: Axis>(
    lines: &AxisMap<A, LineAttr>,
    line: i32,
) -> Result<LineAttr, EditError>
    ensures { Returns result (Ok (attr_of (fin.get lines.now line))) }
{
    match lines.get(line) {
        Some(attr) => copy_of(attr),
        None => Ok(LineAttr {
            size: None,
            style: None,
            hidden: false,
        }),
    }
}

/// Sets the size that a line of an axis has of its own. `NoMemory` leaves the lines as they were.
fn set_size<A: Axis>(
    lines: &mut AxisMap<A, LineAttr>,
    line: i32,
    size: Option<i32>,
) -> Result<(), EditError>
    requires { IsLine A.along.last line }
    ensures ok { OnOk result (lines.new ≡ with_change lines.old line (with_size size)) }
    ensures err { OnErr result (lines.new ≡ lines.old) }
    ensures only { IsOkUnless result NoMemory }
{
    let mut attr = attr_of(lines, line)?;
    attr.size = size;
    lines.put(line, LineAttr::kept(Some(attr)))
}

/// Hides a line of an axis, or shows it. `NoMemory` leaves the lines as they were.
fn set_hidden<A: Axis>(
    lines: &mut AxisMap<A, LineAttr>,
    line: i32,
    hidden: bool,
) -> Result<(), EditError>
    requires { IsLine A.along.last line }
    ensures ok { OnOk result (lines.new ≡ with_change lines.old line (with_hidden hidden)) }
    ensures err { OnErr result (lines.new ≡ lines.old) }
    ensures only { IsOkUnless result NoMemory }
{
    let mut attr = attr_of(lines, line)?;
    attr.hidden = hidden;
    lines.put(line, LineAttr::kept(Some(attr)))
}

impl Worksheet {
    /// The height of a row in half pixels: 0 where it is hidden, else its own, else 56. It takes no
    /// memory.
    ///
    /// `InvalidRow` where the row is outside the sheet.
    pub fn row_height(&self, row: i32) -> Result<i32, EditError>
        ensures { result ≡ of_row (shown_size usual_height) self.now row }
    {
        let line = line_of(LAST_ROW, row, EditError::InvalidRow)?;
        Ok(shown_size(USUAL_HEIGHT, self.rows.get(line)))
    }

    /// The width of a column in half pixels: 0 where it is hidden, else its own, else 250. It takes
    /// no memory.
    ///
    /// `InvalidColumn` where the column is outside the sheet.
    pub fn get_column_width(&self, column: i32) -> Result<i32, EditError>
        ensures { result ≡ of_column (shown_size usual_width) self.now column }
    {
        let line = line_of(LAST_COLUMN, column, EditError::InvalidColumn)?;
        Ok(shown_size(USUAL_WIDTH, self.columns.get(line)))
    }

    /// The width of a column in half pixels, also where it is hidden: its own, else 250. It takes no
    /// memory.
    ///
    /// `InvalidColumn` where the column is outside the sheet.
    pub fn get_actual_column_width(&self, column: i32) -> Result<i32, EditError>
        ensures { result ≡ of_column (actual_size usual_width) self.now column }
    {
        let line = line_of(LAST_COLUMN, column, EditError::InvalidColumn)?;
        Ok(actual_size(USUAL_WIDTH, self.columns.get(line)))
    }

    /// Whether a row is hidden. It takes no memory.
    ///
    /// `InvalidRow` where the row is outside the sheet.
    pub fn is_row_hidden(&self, row: i32) -> Result<bool, EditError>
        ensures { result ≡ of_row is_hidden self.now row }
    {
        let line = line_of(LAST_ROW, row, EditError::InvalidRow)?;
        Ok(is_hidden(self.rows.get(line)))
    }

    /// Whether a column is hidden. It takes no memory.
    ///
    /// `InvalidColumn` where the column is outside the sheet.
    pub fn is_column_hidden(&self, column: i32) -> Result<bool, EditError>
        ensures { result ≡ of_column is_hidden self.now column }
    {
        let line = line_of(LAST_COLUMN, column, EditError::InvalidColumn)?;
        Ok(is_hidden(self.columns.get(line)))
    }

    /// Sets the height of a row in half pixels. It is the row's own from then on, also where it is
    /// 56. The row stays hidden or shown as it is.
    ///
    /// `InvalidRow` where the row is outside the sheet, else `NegativeSize` where the height is
    /// below 0.
    pub fn set_row_height(&mut self, row: i32, height: i32) -> Result<(), EditError>
        ensures set { Changes result self.old self.new (row_changed self.old row (height_set height)) }
        ensures others { SameBut row self.old.rows self.new.rows }
    {
        let line = line_of(LAST_ROW, row, EditError::InvalidRow)?;
        let size = size_of(height)?;
        set_size(&mut self.rows, line, Some(size))
    }

    /// Sets the width of a column in half pixels. The width 250 takes the column's own away. The
    /// column stays hidden or shown as it is; one that is left with nothing of its own has no entry.
    ///
    /// `InvalidColumn` where the column is outside the sheet, else `NegativeSize` where the width is
    /// below 0.
    pub fn set_column_width(&mut self, column: i32, width: i32) -> Result<(), EditError>
        ensures set { Changes result self.old self.new (column_changed self.old column (width_set width)) }
        ensures others { SameBut column self.old.columns self.new.columns }
    {
        let line = line_of(LAST_COLUMN, column, EditError::InvalidColumn)?;
        let size = size_of(width)?;
        set_size(&mut self.columns, line, own_width(size))
    }

    /// Hides a row, or shows it. Its own height stays; a row that is left with nothing of its own has
    /// no entry.
    ///
    /// `InvalidRow` where the row is outside the sheet.
    pub fn set_row_hidden(&mut self, row: i32, hidden: bool) -> Result<(), EditError>
        ensures set { Changes result self.old self.new (row_changed self.old row (hidden_set hidden)) }
        ensures others { SameBut row self.old.rows self.new.rows }
    {
        let line = line_of(LAST_ROW, row, EditError::InvalidRow)?;
        set_hidden(&mut self.rows, line, hidden)
    }

    /// Hides a column, or shows it. Its own width stays; a column that is left with nothing of its own
    /// has no entry.
    ///
    /// `InvalidColumn` where the column is outside the sheet.
    pub fn set_column_hidden(&mut self, column: i32, hidden: bool) -> Result<(), EditError>
        ensures set { Changes result self.old self.new (column_changed self.old column (hidden_set hidden)) }
        ensures others { SameBut column self.old.columns self.new.columns }
    {
        let line = line_of(LAST_COLUMN, column, EditError::InvalidColumn)?;
        set_hidden(&mut self.columns, line, hidden)
    }
}
