ghost use Rattle.std.specs.Prelude.{◌≡◌, ◌++◌, OnOk, string_bytes};
ghost use Rattle.base_tables.specs.Column.{column_name};
ghost use Rattle.formula_print.specs.References.{some_text};

use base_tables::push_column;
use base_values::LAST_COLUMN;
use std::alloc::AllocError;

/// The letters of a column, where it is inside the sheet.
#[tactic(auto, unfolding(base_tables::specs::Column::column_name))]
pub(crate) fn push_column_name(column: i32, out: &mut String) -> Result<(), AllocError>
    ensures { OnOk result (string_bytes out.new ≡ string_bytes out.old ++ some_text (column_name column)) }
{
    if column < 1 || LAST_COLUMN < column {
        return Ok(());
    }
    push_column(out, column.unsigned_abs())
}
