//! The conditional rules of a workbook that the opposite renaming does not give back.

ghost use Rattle.std.specs.Prelude.{◌≡◌, IfOk, IsOkUnless};
ghost use Rattle.base_values.specs.declared.EditError.TheVariants.{NoMemory};
ghost use Rattle.line_map.specs.Canonical.{AreCanonicalKept};
ghost use Rattle.book_names.specs.Renaming.{AreCanonicalFormattings, own_formattings_kept, formattings_kept};

use crate::formattings::{BothWays, kept_of_rules};
use crate::reaching::SheetReach;
use crate::sheets::shared_name;
use base_maps::{IndexMap, SheetIndexMap};
use base_shared::Shared;
use base_values::{EditError, Text};
use format_rules::ConditionalFormatting;
use sheet_grid::Worksheet;
use std::alloc::Global;

/// What is kept of one sheet. The two renamings reach there what `reach_in` gives for its id.
fn kept_where_reached<T: SheetReach, B: SheetReach>(
    alloc: Global,
    sheet: &Worksheet,
    there: &T,
    back: &B,
    old: &Shared<Text>,
    new: &Shared<Text>,
) -> Result<IndexMap<ConditionalFormatting>, EditError>
    ensures kept { IfOk result (λ kept.
        kept ≡ own_formattings_kept (T.reached there.now sheet.now.id) (B.reached back.now sheet.now.id) old.now new.now sheet.now.formattings) }
    ensures numbers { IfOk result AreCanonicalKept }
    ensures only { IsOkUnless result NoMemory }
{
    let id = sheet.get_sheet_id();
    let ways = BothWays {
        there: there.reach_in(id),
        back: back.reach_in(id),
        old,
        new,
    };
    kept_of_rules(alloc, sheet.conditional_formatting(), &ways)
}

/// The same of all sheets, by id.
fn kept_of_sheets<T: SheetReach, B: SheetReach>(
    alloc: Global,
    sheets: &[Worksheet],
    there: &T,
    back: &B,
    old: &Shared<Text>,
    new: &Shared<Text>,
) -> Result<SheetIndexMap<ConditionalFormatting>, EditError>
    ensures kept { IfOk result (λ kept. kept ≡ formattings_kept (T.reached there.now) (B.reached back.now) old.now new.now sheets.now) }
    ensures numbers { IfOk result AreCanonicalFormattings }
    ensures only { IsOkUnless result NoMemory }
{
    let mut kept = SheetIndexMap::new(alloc);
    for sheet in sheets {
        let more = kept_where_reached(alloc, sheet, there, back, old, new)?;
        kept.put_under(sheet.get_sheet_id(), &more)?;
    }
    Ok(kept)
}

/// The rules that the opposite renaming does not give back, by the id of the sheet and the index.
/// `NoMemory` alone is an error.
pub fn kept_formattings<T: SheetReach, B: SheetReach>(
    alloc: Global,
    sheets: &[Worksheet],
    there: &T,
    back: &B,
    old: &str,
    new: &str,
) -> Result<SheetIndexMap<ConditionalFormatting>, EditError>
    ensures kept { IfOk result (λ kept. kept ≡ formattings_kept (T.reached there.now) (B.reached back.now) old.now new.now sheets.now) }
    ensures numbers { IfOk result AreCanonicalFormattings }
    ensures only { IsOkUnless result NoMemory }
{
    let old = shared_name(alloc, old)?;
    let new = shared_name(alloc, new)?;
    kept_of_sheets(alloc, sheets, there, back, &old, &new)
}
