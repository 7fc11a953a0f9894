//! What is kept of a deleted sheet, and whether it may come back.

ghost use Rattle.std.specs.Prelude.{◌≡◌, ◌<◌, ◌^◌, IfOk, IsOkUnless};
ghost use Rattle.base_values.specs.declared.EditError.TheVariants.{NoMemory};
ghost use Rattle.book_sheets.specs.SheetDiffs.{kept_of, IsCanonicalSheet, are_places, names_fit, may_come_back};

use crate::inside::{cells_fit, is_sheet_inside, rules_fit};
use base_maps::IndexMap;
use base_values::{EditError, Exact, Position, copy_of};
use cell_content::tree_fits_at;
use defined_names::{DefinedName, NameList};
use sheet_grid::Worksheet;
use std::alloc::Global;

/// A deleted sheet, and what went with it.
#[derive(Clone, PartialEq, Eq, Drop)]
pub struct KeptSheet {
    pub sheet: Worksheet,
    /// The defined names that were known in it alone, by their places in the list before.
    pub names: IndexMap<DefinedName>,
}

impl Exact for KeptSheet {
    ghost use Rattle.std.proofs.Common.{rules};
    ghost use Rattle.book_sheets.specs.laws.KeptSheetEquals.{kept_sheet_equals};

    ghost copies = { λ a b h. Prim.search rules };

    ghost equals = { kept_sheet_equals };
}

impl KeptSheet {
    /// A copy of a sheet, and of a workbook's names those that are known in it alone. `NoMemory` alone
    /// is an error.
    pub fn of(alloc: Global, sheet: &Worksheet, names: &NameList) -> Result<KeptSheet, EditError>
        ensures kept { IfOk result (λ kept. kept ≡ kept_of sheet.now names.now) }
        ensures numbers { IfOk result IsCanonicalSheet }
        ensures only { IsOkUnless result NoMemory }
    {
        let names = names.of_sheet(alloc, sheet.get_sheet_id())?;
        let sheet = copy_of(sheet)?;
        // For the proof alone.
        let _ = sheet.cell_map();
        let _ = sheet.conditional_formatting().as_slice();
        Ok(KeptSheet { sheet, names })
    }
}

/// Whether the places of kept names are ones of the list when they are back in it.
fn are_places(count: usize, names: &IndexMap<DefinedName>) -> bool
    requires { count < 2 ^ 63 }
    ensures { result ≡ are_places count names.now }
{
    let all = (count + names.len()) as u64;
    names.iter().all(|(place, _name)| *place < all)
}

/// Whether the trees of kept names may stand at A1.
fn names_fit(names: &IndexMap<DefinedName>) -> bool
    ensures { result ≡ names_fit names.now }
{
    let first = Position { row: 1, column: 1 };
    names
        .iter()
        .all(|(_place, name)| tree_fits_at(first, name.formula.get()))
}

/// Whether what is kept may come back where the workbook has so many names.
#[tactic(auto, unfolding(crate::specs::SheetDiffs::may_come_back))]
pub(crate) fn may_come_back(count: usize, kept: &KeptSheet) -> bool
    requires { count < 2 ^ 63 }
    ensures { result ≡ may_come_back count kept.now }
{
    is_sheet_inside(&kept.sheet)
        && cells_fit(&kept.sheet)
        && rules_fit(kept.sheet.conditional_formatting())
        && (are_places(count, &kept.names) && names_fit(&kept.names))
}
