//! The styles that rows, columns and cells have of their own.

ghost use Rattle.std.specs.Prelude.{◌≡◌, ◌<◌, pos, suc, None, Some, OnOk, OnErr, IfOk, IsOkUnless};
ghost use Rattle.std.specs.FinMap as fin;
ghost use Rattle.base_values.specs.Answers.{Changes, Returns};
ghost use Rattle.base_values.specs.Places.{IsLine};
ghost use Rattle.base_values.specs.declared.EditError.TheVariants.{NoMemory};
ghost use Rattle.sheet_grid.specs.Lines.{AllStyled, SameBut, own_line_style, own_row_style, row_style_set, style_set, with_change, with_style};
ghost use Rattle.sheet_grid.specs.Sheet.{column_changed, of_column, row_changed};

use super::Worksheet;
use super::sizes::attr_of;
use super::styles::own_line_style;
use crate::default_parts::is_default_style;
use crate::line_attr::LineAttr;
use base_axis::{Axis, AxisMap, ColumnAxis};
use base_shared::Shared;
use base_styles::Style;
use base_values::{EditError, LAST_COLUMN, LAST_ROW, copy_of, line_of};

/// Sets the style that a line of an axis has of its own, or takes it away. `NoMemory` leaves the lines
/// as they were.
fn set_line_style<A: Axis>(
    lines: &mut AxisMap<A, LineAttr>,
    line: i32,
    style: Option<Shared<Style>>,
) -> Result<(), EditError>
    requires { IsLine A.along.last line }
    ensures ok { OnOk result (lines.new ≡ with_change lines.old line (with_style style)) }
    ensures err { OnErr result (lines.new ≡ lines.old) }
    ensures only { IsOkUnless result NoMemory }
{
    let mut attr = attr_of(lines, line)?;
    attr.style = style;
    lines.put(line, LineAttr::kept(Some(attr)))
}

/// The style that a row has of its own once it is set to this one: none where it is the default one.
#[tactic(auto, unfolding(crate::specs::Lines::own_row_style))]
fn own_row_style(style: Shared<Style>) -> Option<Shared<Style>>
    ensures { result ≡ own_row_style style }
{
    if is_default_style(style.get()) {
        None
    } else {
        Some(style)
    }
}

/// The column at an index counted from 0.
fn column_at(index: u32) -> i32
    requires { index < 16384 }
    ensures { result ≡ pos (suc index) }
{
    index as i32 + 1
}

/// These columns, and every column of the axis has a style. `NoMemory` alone is an error.
fn all_styled(
    columns: &AxisMap<ColumnAxis, LineAttr>,
    style: &Shared<Style>,
) -> Result<AxisMap<ColumnAxis, LineAttr>, EditError>
    ensures styled { IfOk result (AllStyled (pos 16384) style.now columns.now) }
    ensures only { IsOkUnless result NoMemory }
{
    let mut styled = copy_of(columns)?;
    for index in 0..LAST_COLUMN.unsigned_abs() {
        let style = copy_of(style)?;
        set_line_style(&mut styled, column_at(index), Some(style))?;
    }
    Ok(styled)
}

impl Worksheet {
    /// Sets the style of every column. Widths stay, and hidden columns stay hidden; cells and rows keep
    /// their styles. It takes memory for all columns of the axis. `NoMemory` alone is an error, which
    /// leaves the sheet as it was.
    pub fn set_style(&mut self, style: &Style) -> Result<(), EditError>
        ensures columns { OnOk result (AllStyled (pos 16384) style.now self.old.columns self.new.columns) }
        ensures rest { self.new ≡ record self.old { columns = self.new.columns } }
        ensures err { OnErr result (self.new ≡ self.old) }
        ensures only { IsOkUnless result NoMemory }
    {
        let style = self.shared_style(style)?;
        self.columns = all_styled(&self.columns, &style)?;
        Ok(())
    }

    /// A copy of the style that a column has of its own, if it has one.
    ///
    /// `InvalidColumn` where the column is outside the sheet.
    pub fn get_column_style(&self, column: i32) -> Result<Option<Style>, EditError>
        ensures { Returns result (of_column own_line_style self.now column) }
    {
        let line = line_of(LAST_COLUMN, column, EditError::InvalidColumn)?;
        match own_line_style(self.columns.get(line)) {
            Some(style) => Ok(Some(copy_of(style.get())?)),
            None => Ok(None),
        }
    }

    /// Sets the style of a row, which has none of its own where that is the default one. Its height
    /// stays, and it stays hidden or shown; cells keep their styles.
    ///
    /// `InvalidRow` where the row is outside the sheet.
    pub fn set_row_style(&mut self, row: i32, style: &Style) -> Result<(), EditError>
        ensures set { Changes result self.old self.new (row_changed self.old row (row_style_set style.now)) }
        ensures others { SameBut row self.old.rows self.new.rows }
    {
        let line = line_of(LAST_ROW, row, EditError::InvalidRow)?;
        let style = self.shared_style(style)?;
        set_line_style(&mut self.rows, line, own_row_style(style))
    }

    /// Sets the style of one column, which is its own also where that is the default one. Its width
    /// stays, and it stays hidden or shown; cells keep their styles.
    ///
    /// `InvalidColumn` where the column is outside the sheet.
    pub fn set_column_style(&mut self, column: i32, style: &Style) -> Result<(), EditError>
        ensures set { Changes result self.old self.new (column_changed self.old column (style_set (Some style.now))) }
        ensures others { SameBut column self.old.columns self.new.columns }
    {
        let line = line_of(LAST_COLUMN, column, EditError::InvalidColumn)?;
        let style = self.shared_style(style)?;
        set_line_style(&mut self.columns, line, Some(style))
    }

    /// Takes the style of a row away. A row that is left with nothing of its own has no entry.
    ///
    /// `InvalidRow` where the row is outside the sheet.
    pub fn delete_row_style(&mut self, row: i32) -> Result<(), EditError>
        ensures set { Changes result self.old self.new (row_changed self.old row (style_set None)) }
        ensures others { SameBut row self.old.rows self.new.rows }
    {
        let line = line_of(LAST_ROW, row, EditError::InvalidRow)?;
        set_line_style(&mut self.rows, line, None)
    }

    /// Takes the style of a column away. A column that is left with nothing of its own has no entry.
    ///
    /// `InvalidColumn` where the column is outside the sheet.
    pub fn delete_column_style(&mut self, column: i32) -> Result<(), EditError>
        ensures set { Changes result self.old self.new (column_changed self.old column (style_set None)) }
        ensures others { SameBut column self.old.columns self.new.columns }
    {
        let line = line_of(LAST_COLUMN, column, EditError::InvalidColumn)?;
        set_line_style(&mut self.columns, line, None)
    }
}
