//! The sheets of a workbook in which a defined name is renamed, or gets its old name back.

use crate::look_up::Finding;
use base_shared::Shared;
use base_values::{EditError, Text};
use book_names::{KeptTrees, SheetChange, SheetReach, with_formulas_back, with_formulas_renamed};
use sheet_grid::Worksheet;
use std::alloc::Global;

/// In the formulas of a sheet, those of its conditional rules too, the found name becomes the new one,
/// where they mean it.
#[derive(Drop)]
pub(crate) struct Updated<'n> {
    pub(crate) found: Finding<'n>,
    pub(crate) new: &'n Shared<Text>,
}

impl<'n> SheetChange for Updated<'n> {
    ghost use Rattle.std.specs.Prelude.{⊤};
    ghost use Rattle.name_edits.specs.NameChanges.{sheet_updated};

    ghost Asks = { λ _. ⊤ };

    ghost change = { λ self. sheet_updated self.found.place self.found.text.now self.new.now self.found.names.now };

    fn changed(&self, alloc: Global, sheet: &Worksheet) -> Result<Worksheet, EditError> {
        let reach = self.found.reach_in(sheet.get_sheet_id());
        with_formulas_renamed(alloc, sheet, reach, self.found.text, self.new)
    }
}

/// The trees and conditional rules of a sheet are the kept ones, or in them the found name becomes the
/// old one, where formulas mean it.
#[derive(Drop)]
pub(crate) struct Returned<'n> {
    pub(crate) found: Finding<'n>,
    pub(crate) old: &'n Shared<Text>,
    pub(crate) kept: &'n KeptTrees,
}

impl<'n> SheetChange for Returned<'n> {
    ghost use Rattle.book_names.specs.Renaming.{AreCanonicalTrees};
    ghost use Rattle.name_edits.specs.NameChanges.{sheet_returned};

    ghost Asks = { λ self. AreCanonicalTrees self.kept.now };

    ghost change = { λ self. sheet_returned self.found.place self.old.now self.found.text.now self.found.names.now self.kept.now };

    fn changed(&self, alloc: Global, sheet: &Worksheet) -> Result<Worksheet, EditError> {
        let reach = self.found.reach_in(sheet.get_sheet_id());
        with_formulas_back(alloc, sheet, reach, self.old, self.found.text, self.kept)
    }
}
