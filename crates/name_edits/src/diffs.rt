//! Diffs of defined names: whether they can be made and taken back, and what they do.

ghost use Rattle.std.specs.Prelude.{◌≡◌, ◌<◌, ◌^◌, length, map, true, IfOk, IsOkUnless, IsTrue, OnOk};
ghost use Rattle.std.specs.FinMap.{get};
ghost use Rattle.base_values.specs.Answers.{Edits};
ghost use Rattle.base_values.specs.declared.EditError.TheVariants.{NoMemory};
ghost use Rattle.formula_names.specs.declared.Reach.TheVariants.{Nothing};
ghost use Rattle.sheet_lines.specs.Sheets.{IsPlacedBook};
ghost use Rattle.book_names.specs.Renaming.{AreCanonicalTrees, ArePlacedTrees, names_back};
ghost use Rattle.name_edits.specs.NameChanges.{IsCanonicalChange, name_made, name_unmade, opposite, sheet_returned, sheet_updated};
ghost use Rattle.name_edits.specs.NameDiffs.{comes_fitting, goes_back, goes_forward, has_place, is_change, is_replacement, keeps_nothing};
ghost use Rattle.name_edits.specs.NameDiffs.{name_back, name_forward};

use crate::list::changed_list;
use crate::look_up::Finding;
use crate::name_change::NameChange;
use crate::sheets::{Returned, Updated};
use base_values::{EditError, Position, copy_of};
use book_names::{
    KeptTrees, are_in_sheets, changed_sheets, list_back, may_stand, shared_name, with_lists,
};
use cell_content::tree_fits_at;
use defined_names::NameList;
use formula_names::Reach;
use sheet_grid::Workbook;
use std::alloc::Global;

/// Whether a name goes, or one comes.
fn is_change(change: &NameChange) -> bool
    ensures { result ≡ is_change change.now }
{
    change.old.is_some() || change.new.is_some()
}

/// Whether one name goes and another comes in its place.
fn is_replacement(change: &NameChange) -> bool
    ensures { result ≡ is_replacement change.now }
{
    change.old.is_some() && change.new.is_some()
}

/// Whether the index of a change is that of a name. Where no name goes, the number of the names is
/// allowed too.
fn has_place(change: &NameChange, count: usize) -> bool
    requires { count < 2 ^ 63 }
    ensures { result ≡ has_place change.now count }
{
    let count = count as u64;
    if change.old.is_some() {
        change.index < count
    } else {
        change.index <= count
    }
}

/// Whether the tree of the name that comes may stand at A1.
fn comes_fitting(change: &NameChange) -> bool
    ensures { result ≡ comes_fitting change.now }
{
    match &change.new {
        Some(name) => tree_fits_at(Position { row: 1, column: 1 }, name.formula.get()),
        None => true,
    }
}

fn keeps_nothing(kept: &KeptTrees) -> bool
    ensures { result ≡ keeps_nothing kept.now }
{
    kept.formulas.len() == 0 && kept.names.len() == 0 && kept.formattings.len() == 0
}

/// Whether a change can be made.
#[tactic(auto, unfolding(crate::specs::NameDiffs::goes_forward))]
fn goes_forward(workbook: &Workbook, change: &NameChange, kept: &KeptTrees) -> bool
    ensures value { result ≡ goes_forward change.now kept.now workbook.now }
    ensures place { IsTrue result → has_place change.now (length workbook.now.names) ≡ true }
{
    is_change(change)
        && has_place(change, workbook.defined_names().len())
        && comes_fitting(change)
        && (is_replacement(change) || keeps_nothing(kept))
        && are_in_sheets(kept)
}

/// The change that takes a change back.
fn opposite(change: &NameChange) -> Result<NameChange, EditError>
    ensures change { IfOk result (λ output. output ≡ opposite change.now) }
    ensures only { IsOkUnless result NoMemory }
{
    Ok(NameChange {
        index: change.index,
        old: copy_of(&change.new)?,
        new: copy_of(&change.old)?,
    })
}

/// A copy of a workbook that has these names in place of its own.
fn with_names(workbook: &Workbook, names: NameList) -> Result<Workbook, EditError>
    ensures book { IfOk result (λ output. output ≡ record workbook.now { names = names }) }
    ensures only { IsOkUnless result NoMemory }
{
    let mut output = copy_of(workbook)?;
    output.set_name_list(names);
    Ok(output)
}

/// A copy of a workbook that has these names in place of its own, and in whose formulas, those of its
/// conditional rules too, the name at an index becomes the new one, where they mean it by the old one.
fn with_updated_sheets(
    alloc: Global,
    workbook: &Workbook,
    names: NameList,
    index: u64,
    old: &str,
    new: &str,
) -> Result<Workbook, EditError>
    requires { IsPlacedBook workbook.now }
    ensures book { IfOk result (λ output. output ≡ record workbook.now {
      names = names;
      worksheets = map (sheet_updated index old.now new.now workbook.now.names) workbook.now.worksheets;
    }) }
    ensures placed { IfOk result IsPlacedBook }
    ensures only { IsOkUnless result NoMemory }
{
    let new = shared_name(alloc, new)?;
    let found = Finding {
        names: workbook.defined_names(),
        place: index,
        text: old,
    };
    let updated = Updated { found, new: &new };
    let sheets = changed_sheets(alloc, &updated, workbook.worksheets())?;
    with_lists(workbook, sheets, names)
}

/// The workbook after a change. `NoMemory` alone is an error.
fn name_made(alloc: Global, workbook: &Workbook, change: &NameChange) -> Result<Workbook, EditError>
    requires placed { IsPlacedBook workbook.now }
    requires place { has_place change.now (length workbook.now.names) ≡ true }
    requires numbers { IsCanonicalChange change.now }
    ensures book { IfOk result (λ output. output ≡ name_made change.now workbook.now) }
    ensures placed { IfOk result IsPlacedBook }
    ensures only { IsOkUnless result NoMemory }
{
    let names = changed_list(alloc, workbook.name_list(), change)?;
    let (Some(old), Some(new)) = (&change.old, &change.new) else {
        return with_names(workbook, names);
    };
    let (old, new) = (old.name.as_str(), new.name.as_str());
    with_updated_sheets(alloc, workbook, names, change.index, old, new)
}

/// A copy of a workbook that has these names in place of its own, and whose trees and conditional rules
/// are the kept ones, or stay; but in formulas the name at an index becomes the old one again, where they
/// mean it by the new one.
fn with_returned_sheets(
    alloc: Global,
    workbook: &Workbook,
    names: &NameList,
    index: u64,
    old: &str,
    new: &str,
    kept: &KeptTrees,
) -> Result<Workbook, EditError>
    requires placed { IsPlacedBook workbook.now }
    requires numbers { AreCanonicalTrees kept.now }
    requires trees { ArePlacedTrees kept.now }
    ensures book { IfOk result (λ output. output ≡ record workbook.now {
      names = names_back Nothing old.now new.now (get kept.now.names) names.now;
      worksheets = map (sheet_returned index old.now new.now workbook.now.names kept.now) workbook.now.worksheets;
    }) }
    ensures placed { IfOk result IsPlacedBook }
    ensures only { IsOkUnless result NoMemory }
{
    let old = shared_name(alloc, old)?;
    let found = Finding {
        names: workbook.defined_names(),
        place: index,
        text: new,
    };
    let returned = Returned {
        found,
        old: &old,
        kept,
    };
    let sheets = changed_sheets(alloc, &returned, workbook.worksheets())?;
    let laid = list_back(alloc, names, &kept.names, Reach::Nothing, &old, new)?;
    with_lists(workbook, sheets, laid)
}

/// The workbook before a change. `NoMemory` alone is an error.
fn name_unmade(
    alloc: Global,
    workbook: &Workbook,
    change: &NameChange,
    kept: &KeptTrees,
) -> Result<Workbook, EditError>
    requires placed { IsPlacedBook workbook.now }
    requires place { has_place (opposite change.now) (length workbook.now.names) ≡ true }
    requires numbers { IsCanonicalChange change.now }
    requires kept { AreCanonicalTrees kept.now }
    requires trees { ArePlacedTrees kept.now }
    ensures book { IfOk result (λ output. output ≡ name_unmade change.now kept.now workbook.now) }
    ensures placed { IfOk result IsPlacedBook }
    ensures only { IsOkUnless result NoMemory }
{
    let names = changed_list(alloc, workbook.name_list(), &opposite(change)?)?;
    let (Some(old), Some(new)) = (&change.old, &change.new) else {
        return with_names(workbook, names);
    };
    let (old, new) = (old.name.as_str(), new.name.as_str());
    with_returned_sheets(alloc, workbook, &names, change.index, old, new, kept)
}

/// Whether a change can be taken back: its opposite can be made, and what is kept may stand where it
/// stood. `NoMemory` alone is an error.
#[tactic(auto, unfolding(crate::specs::NameDiffs::goes_back))]
fn goes_back(workbook: &Workbook, change: &NameChange, kept: &KeptTrees) -> Result<bool, EditError>
    ensures value { IfOk result (λ goes. goes ≡ goes_back change.now kept.now workbook.now) }
    ensures place { IfOk result (λ goes. IsTrue goes → has_place (opposite change.now) (length workbook.now.names) ≡ true) }
    ensures trees { IfOk result (λ goes. IsTrue goes → ArePlacedTrees kept.now) }
    ensures only { IsOkUnless result NoMemory }
{
    let opposite = opposite(change)?;
    Ok(goes_forward(workbook, &opposite, kept) && may_stand(workbook, kept))
}

/// A defined name comes, goes or stands in the place of another. Where one does, formulas that mean the
/// old one name the new one afterwards, those of conditional rules too.
///
/// `DiffRefused` with the number `at` of its diff where neither a name goes nor one comes; where its index
/// is not that of a name, nor that behind the last one where none goes; where the tree of the name that
/// comes does not fit A1; where a tree or a conditional rule is kept and no name stands in the place of
/// another; where a kept tree stands at no place of a sheet; or where a kept conditional rule has no
/// part, or one outside the sheet.
#[tactic(auto, unfolding(crate::specs::NameDiffs::name_forward))]
pub fn name_forward(
    alloc: Global,
    workbook: &mut Workbook,
    change: &NameChange,
    kept: &KeptTrees,
    at: u64,
) -> Result<(), EditError>
    requires placed { IsPlacedBook workbook.old }
    requires numbers { IsCanonicalChange change.now }
    ensures edits { Edits result workbook.old workbook.new (name_forward at change.now kept.now workbook.old) }
    ensures placed { OnOk result (IsPlacedBook workbook.new) }
{
    if !goes_forward(workbook, change, kept) {
        return Err(EditError::DiffRefused { entry: 0, diff: at });
    }
    *workbook = name_made(alloc, workbook, change)?;
    Ok(())
}

/// A defined name goes, comes back or stands in its place again. Every tree and every conditional rule is
/// the kept one; without one, formulas that mean the new name name the old one.
///
/// `DiffRefused` with the number `at` of its diff where the opposite change cannot be made; where a kept
/// tree does not fit its place, or its sheet is not there or has no formula at the place; where the kept
/// tree of a defined name has no place in the list, or does not fit A1; or where a kept conditional rule
/// does not fit its parts, or its sheet is not there or has no rule at the place in its list.
#[tactic(auto, unfolding(crate::specs::NameDiffs::name_back))]
pub fn name_back(
    alloc: Global,
    workbook: &mut Workbook,
    change: &NameChange,
    kept: &KeptTrees,
    at: u64,
) -> Result<(), EditError>
    requires placed { IsPlacedBook workbook.old }
    requires numbers { IsCanonicalChange change.now }
    requires kept { AreCanonicalTrees kept.now }
    ensures edits { Edits result workbook.old workbook.new (name_back at change.now kept.now workbook.old) }
    ensures placed { OnOk result (IsPlacedBook workbook.new) }
{
    if !goes_back(workbook, change, kept)? {
        return Err(EditError::DiffRefused { entry: 0, diff: at });
    }
    *workbook = name_unmade(alloc, workbook, change, kept)?;
    Ok(())
}
