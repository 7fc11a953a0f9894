//! What the way back does not give of a workbook where a defined name changes.

ghost use Rattle.std.specs.Prelude.{◌≡◌, length, true, IfOk, IsOkUnless};
ghost use Rattle.base_values.specs.declared.EditError.TheVariants.{NoMemory};
ghost use Rattle.book_names.specs.Renaming.{AreCanonicalFormattings, AreCanonicalTrees};
ghost use Rattle.sheet_lines.specs.Back.{AreCanonicalFormulas};
ghost use Rattle.name_edits.specs.NameChanges.{IsCanonicalChange, formulas_lost, formattings_lost, trees_lost};
ghost use Rattle.name_edits.specs.NameDiffs.{has_place};

use crate::list::changed_list;
use crate::look_up::Finding;
use crate::name_change::NameChange;
use base_maps::{IndexMap, SheetIndexMap, SheetPlaceMap};
use base_shared::Shared;
use base_values::EditError;
use book_names::{KeptTrees, kept_formattings, kept_formulas};
use format_rules::ConditionalFormatting;
use formula_tree::Node;
use sheet_grid::Workbook;
use std::alloc::Global;

/// The trees of cells that renaming the other way does not give back.
fn formulas_lost(
    alloc: Global,
    workbook: &Workbook,
    change: &NameChange,
) -> Result<SheetPlaceMap<Shared<Node>>, EditError>
    requires place { has_place change.now (length workbook.now.names) ≡ true }
    requires numbers { IsCanonicalChange change.now }
    ensures kept { IfOk result (λ kept. kept ≡ formulas_lost change.now change.now.old change.now.new workbook.now) }
    ensures numbers { IfOk result AreCanonicalFormulas }
    ensures only { IsOkUnless result NoMemory }
{
    let (Some(old), Some(new)) = (&change.old, &change.new) else {
        return Ok(SheetPlaceMap::new(alloc));
    };
    let later = changed_list(alloc, workbook.name_list(), change)?;
    let (old, new) = (old.name.as_str(), new.name.as_str());
    let there = Finding {
        names: workbook.defined_names(),
        place: change.index,
        text: old,
    };
    let back = Finding {
        names: later.as_slice(),
        place: change.index,
        text: new,
    };
    kept_formulas(alloc, workbook.worksheets(), &there, &back, old, new)
}

/// The conditional rules that renaming the other way does not give back.
fn formattings_lost(
    alloc: Global,
    workbook: &Workbook,
    change: &NameChange,
) -> Result<SheetIndexMap<ConditionalFormatting>, EditError>
    requires place { has_place change.now (length workbook.now.names) ≡ true }
    requires numbers { IsCanonicalChange change.now }
    ensures kept { IfOk result (λ kept. kept ≡ formattings_lost change.now change.now.old change.now.new workbook.now) }
    ensures numbers { IfOk result AreCanonicalFormattings }
    ensures only { IsOkUnless result NoMemory }
{
    let (Some(old), Some(new)) = (&change.old, &change.new) else {
        return Ok(SheetIndexMap::new(alloc));
    };
    let later = changed_list(alloc, workbook.name_list(), change)?;
    let (old, new) = (old.name.as_str(), new.name.as_str());
    let there = Finding {
        names: workbook.defined_names(),
        place: change.index,
        text: old,
    };
    let back = Finding {
        names: later.as_slice(),
        place: change.index,
        text: new,
    };
    kept_formattings(alloc, workbook.worksheets(), &there, &back, old, new)
}

/// The trees and the conditional rules of a workbook that taking a change of its names back does not
/// give: those that renaming the other way does not, where a name stands in the place of another.
/// `NoMemory` alone is an error.
pub fn trees_lost(
    alloc: Global,
    workbook: &Workbook,
    change: &NameChange,
) -> Result<KeptTrees, EditError>
    requires place { has_place change.now (length workbook.now.names) ≡ true }
    requires numbers { IsCanonicalChange change.now }
    ensures kept { IfOk result (λ kept. kept ≡ trees_lost change.now workbook.now) }
    ensures numbers { IfOk result AreCanonicalTrees }
    ensures only { IsOkUnless result NoMemory }
{
    let formulas = formulas_lost(alloc, workbook, change)?;
    let formattings = formattings_lost(alloc, workbook, change)?;
    let names = IndexMap::new(alloc);
    Ok(KeptTrees {
        formulas,
        names,
        formattings,
    })
}
