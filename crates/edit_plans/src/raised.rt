//! The height of a row that holds a text.

ghost use Rattle.std.specs.Prelude.{◌≡◌, [], IfOk, IfSome, IsOkUnless, Ok};
ghost use Rattle.std.specs.List.{cons_option};
ghost use Rattle.std.specs.FinMap as fin;
ghost use Rattle.base_values.specs.declared.EditError.TheVariants.{NoMemory};
ghost use Rattle.line_sizes.specs.Heights.{raised_entry as raised};
ghost use Rattle.sheet_history.specs.Diffs.{IsCanonicalDiff};
ghost use Rattle.sheet_history.specs.declared.LineAxis.TheVariants.{Rows};
ghost use Rattle.edit_plans.specs.LineRecords.{attr_record};

use crate::list::attr_diff;
use base_values::EditError;
use line_sizes::{copied_entry, raised_entry};
use sheet_grid::Worksheet;
use sheet_history::{Diff, LineAxis};

/// The diff of a row where a text asks for a height, or none where the row stays.
pub fn raised_diff(sheet: &Worksheet, row: i32, needed: i32) -> Result<Option<Diff>, EditError>
    ensures output { IfOk result (λ diff. cons_option diff [] ≡ attr_record sheet.now.id Rows row (fin.get sheet.now.rows row) (raised needed (fin.get sheet.now.rows row))) }
    ensures canonical { IfOk result (λ diff. IfSome diff IsCanonicalDiff) }
    ensures only { IsOkUnless result NoMemory }
{
    let entry = sheet.row_map().get(row);
    let new = raised_entry(needed, entry)?;
    let old = copied_entry(entry)?;
    Ok(attr_diff(sheet.get_sheet_id(), LineAxis::Rows, row, old, new))
}
