//! The name, the state, the colour, the grid lines and the frozen lines of a sheet, and copies that have another id and
//! another name.

ghost use Rattle.std.specs.Prelude.{◌≡◌, ◌≢◌, Ok, Err, IfOk, IsOkUnless};
ghost use Rattle.base_values.specs.Answers.{Changes};
ghost use Rattle.base_values.specs.declared.EditError.TheVariants.{NoMemory};
ghost use Rattle.sheet_grid.specs.Sheet.{frozen_count, rows_frozen, columns_frozen};

use super::Worksheet;
use crate::state::SheetState;
use base_styles::Color;
use base_values::{EditError, LAST_COLUMN, LAST_ROW, Text, copy_of};

#[tactic(auto, unfolding(crate::specs::Sheet::frozen_count))]
fn frozen_count(most: i32, count: i32) -> Result<i32, EditError>
    ensures count { result ≡ frozen_count most count }
    ensures sure { result ≢ Err NoMemory }
{
    if 0 <= count && count <= most {
        Ok(count)
    } else {
        Err(EditError::FrozenCount)
    }
}

impl Worksheet {
    /// A copy of the name of the sheet. `NoMemory` alone is an error.
    pub fn copied_name(&self) -> Result<Text, EditError>
        ensures name { IfOk result (λ name. name ≡ self.now.name) }
        ensures only { IsOkUnless result NoMemory }
    {
        copy_of(&self.name)
    }

    /// Names the sheet. The name may be any: it is not asked whether a sheet may have it. `NoMemory`
    /// alone is an error.
    pub fn set_name(&mut self, name: &str) -> Result<(), EditError>
        ensures { Changes result self.old self.new (Ok (record self.old { name = name.now })) }
    {
        let name = Text::new(String::from_str(self.name.allocator(), name)?);
        self.name = name;
        Ok(())
    }

    /// Sets whether the sheet is shown. It takes no memory.
    pub fn set_state(&mut self, state: SheetState)
        ensures { self.new ≡ record self.old { state = state } }
    {
        self.state = state;
    }

    /// Sets the colour of the sheet's tab. It takes no memory.
    pub fn set_color(&mut self, color: &Color)
        ensures { self.new ≡ record self.old { color = color.now } }
    {
        self.color = *color;
    }

    /// Sets whether grid lines are drawn. It takes no memory.
    pub fn set_show_grid_lines(&mut self, show: bool)
        ensures { self.new ≡ record self.old { show_grid_lines = show } }
    {
        self.show_grid_lines = show;
    }

    /// Sets how many rows at the top stay in sight. It takes no memory.
    ///
    /// `FrozenCount` where the count is below 0 or not less than the rows of the sheet.
    pub fn set_frozen_rows(&mut self, count: i32) -> Result<(), EditError>
        ensures set { Changes result self.old self.new (rows_frozen self.old count) }
        ensures sure { result ≢ Err NoMemory }
    {
        self.frozen_rows = frozen_count(LAST_ROW - 1, count)?;
        Ok(())
    }

    /// Sets how many columns at the left stay in sight. It takes no memory.
    ///
    /// `FrozenCount` where the count is below 0 or not less than the columns of the sheet.
    pub fn set_frozen_columns(&mut self, count: i32) -> Result<(), EditError>
        ensures set { Changes result self.old self.new (columns_frozen self.old count) }
        ensures sure { result ≢ Err NoMemory }
    {
        self.frozen_columns = frozen_count(LAST_COLUMN - 1, count)?;
        Ok(())
    }

    /// Sets how many rows at the top and how many columns at the left stay in sight. The counts may be
    /// any. It takes no memory.
    pub fn put_frozen(&mut self, rows: i32, columns: i32)
        ensures { self.new ≡ record self.old { frozen_rows = rows; frozen_columns = columns } }
    {
        self.frozen_rows = rows;
        self.frozen_columns = columns;
    }

    /// A copy of the sheet that has another id and another name. `NoMemory` alone is an error.
    pub fn copy_as(&self, id: u32, name: &str) -> Result<Worksheet, EditError>
        ensures copy { IfOk result (λ copy. copy ≡ record self.now { id = id; name = name.now }) }
        ensures only { IsOkUnless result NoMemory }
    {
        let mut copy = copy_of(self)?;
        copy.set_name(name)?;
        copy.id = id;
        Ok(copy)
    }
}
