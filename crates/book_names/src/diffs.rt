//! Diffs of renamed sheets: whether they can be made and taken back, and what they do.

ghost use Rattle.std.specs.Prelude.{◌≡◌, ◌<◌, ◌^◌, IsTrue, OnOk, nat_lt};
ghost use Rattle.std.specs.Option.{option_copied};
ghost use Rattle.base_values.specs.Answers.{Edits};
ghost use Rattle.sheet_lines.specs.Sheets.{IsPlacedBook};
ghost use Rattle.book_names.specs.RenameDiffs.{stand_on_places, stand_on_parts, are_in_sheets, names_stand};
ghost use Rattle.book_names.specs.RenameDiffs.{formatting_stands, formattings_stand, may_stand, goes_forward, goes_back};
ghost use Rattle.book_names.specs.RenameDiffs.{rename_forward, rename_back};
ghost use Rattle.book_names.specs.Renaming.{AreCanonicalTrees, ArePlacedTrees};

use crate::kept_trees::KeptTrees;
use crate::sheets::{book_back, book_renamed};
use crate::standing::{OwnPlace, formulas_stand};
use base_maps::{IndexMap, SheetIndexMap, SheetPlaceMap};
use base_shared::Shared;
use base_values::{EditError, Position, is_place};
use cell_content::tree_fits_at;
use format_rules::{ConditionalFormatting, has_fitting_trees, has_parts};
use formula_tree::Node;
use sheet_grid::{Workbook, Worksheet};
use sheet_ids::{has_sheet, sheet_of};
use std::alloc::Global;

/// Whether each kept tree of a cell stands at a place of a sheet.
#[tactic(auto, unfolding(crate::specs::RenameDiffs::stand_on_places))]
pub fn stand_on_places(formulas: &SheetPlaceMap<Shared<Node>>) -> bool
    ensures { result ≡ stand_on_places formulas.now }
{
    formulas.iter().all(|(key, _tree)| is_place(key.place))
}

/// Whether each kept conditional rule has a part, and its parts are inside the sheet.
#[tactic(auto, unfolding(crate::specs::RenameDiffs::stand_on_parts))]
fn stand_on_parts(formattings: &SheetIndexMap<ConditionalFormatting>) -> bool
    ensures { result ≡ stand_on_parts formattings.now }
{
    formattings
        .iter()
        .all(|(_key, formatting)| has_parts(formatting))
}

/// Whether what is kept is inside its sheets: each tree of a cell stands at a place of a sheet, and
/// each conditional rule has a part, with all its parts inside.
pub fn are_in_sheets(kept: &KeptTrees) -> bool
    ensures { result ≡ are_in_sheets kept.now }
{
    stand_on_places(&kept.formulas) && stand_on_parts(&kept.formattings)
}

/// Whether each kept tree of a defined name fits A1, and its place is one of so many names.
#[tactic(auto, unfolding(crate::specs::RenameDiffs::names_stand))]
fn names_stand(names: &IndexMap<Shared<Node>>, count: usize) -> bool
    requires { count < 2 ^ 63 }
    ensures { result ≡ names_stand names.now count }
{
    let (all, first) = (count as u64, Position { row: 1, column: 1 });
    names.iter().all(|(place, tree)| *place < all && tree_fits_at(first, tree.get()))
}

/// Whether an index is below a count.
fn is_below(index: u64, count: usize) -> bool
    requires { count < 2 ^ 63 }
    ensures { result ≡ nat_lt index count }
{
    index < count as u64
}

/// Whether a kept conditional rule has its place in the list of the sheet, and may stand there.
#[tactic(auto, unfolding(crate::specs::RenameDiffs::formatting_stands))]
fn formatting_stands(
    sheet: Option<&Worksheet>,
    index: u64,
    formatting: &ConditionalFormatting,
) -> bool
    ensures { result ≡ formatting_stands (option_copied sheet.entry) index formatting.now }
{
    match sheet {
        Some(sheet) => {
            is_below(index, sheet.conditional_formatting().as_slice().len())
                && has_parts(formatting)
                && has_fitting_trees(formatting)
        }
        None => false,
    }
}

/// Whether each kept conditional rule does.
#[tactic(auto, unfolding(crate::specs::RenameDiffs::formattings_stand))]
fn formattings_stand(
    formattings: &SheetIndexMap<ConditionalFormatting>,
    workbook: &Workbook,
) -> bool
    ensures { result ≡ formattings_stand formattings.now workbook.now }
{
    formattings.iter().all(|(key, formatting)| formatting_stands(
        sheet_of(workbook, key.sheet),
        key.index,
        formatting,
    ))
}

fn goes_forward(workbook: &Workbook, id: u32, kept: &KeptTrees) -> bool
    ensures { result ≡ goes_forward id kept.now workbook.now }
{
    has_sheet(workbook, id) && are_in_sheets(kept)
}

fn all_stand(workbook: &Workbook, kept: &KeptTrees) -> bool
    ensures { result ≡ may_stand kept.now workbook.now }
{
    formulas_stand(&OwnPlace, &kept.formulas, workbook)
        && names_stand(&kept.names, workbook.defined_names().len())
        && formattings_stand(&kept.formattings, workbook)
}

/// Whether what is kept may stand where it stood: each tree of a cell fits its place, its sheet is there
/// and has a formula at the place; each tree of a defined name fits A1 and has a place in the list; and
/// each conditional rule fits its parts, which are inside the sheet, and its sheet is there and has a
/// rule at the place in its list.
pub fn may_stand(workbook: &Workbook, kept: &KeptTrees) -> bool
    ensures value { result ≡ may_stand kept.now workbook.now }
    ensures placed { IsTrue result → ArePlacedTrees kept.now }
{
    all_stand(workbook, kept)
}

fn goes_back(workbook: &Workbook, id: u32, kept: &KeptTrees) -> bool
    ensures value { result ≡ goes_back id kept.now workbook.now }
    ensures placed { IsTrue result → ArePlacedTrees kept.now }
{
    goes_forward(workbook, id, kept) && may_stand(workbook, kept)
}

/// The sheet of an id gets the new name, and every tree of a sheet, of a conditional rule or of a defined
/// name that names the old one names the new one.
///
/// `DiffRefused` with the number `at` of its diff where no sheet has the id; where a kept tree stands at no
/// place of a sheet; or where a kept conditional rule has no part, or one outside the sheet.
#[tactic(auto, unfolding(crate::specs::RenameDiffs::rename_forward))]
pub fn rename_forward(
    alloc: Global,
    workbook: &mut Workbook,
    id: u32,
    old: &str,
    new: &str,
    kept: &KeptTrees,
    at: u64,
) -> Result<(), EditError>
    requires { IsPlacedBook workbook.old }
    ensures edits { Edits result workbook.old workbook.new (rename_forward at id old.now new.now kept.now workbook.old) }
    ensures placed { OnOk result (IsPlacedBook workbook.new) }
{
    if !goes_forward(workbook, id, kept) {
        return Err(EditError::DiffRefused { entry: 0, diff: at });
    }
    *workbook = book_renamed(alloc, workbook, id, old, new)?;
    Ok(())
}

/// The sheet of an id gets its old name back, and every tree and every conditional rule is the kept one,
/// or renamed back without one.
///
/// `DiffRefused` with the number `at` of its diff where no sheet has the id; where a kept tree stands at
/// no place of a sheet, or does not fit there; where its sheet is not there or has no formula at the
/// place; where the kept tree of a defined name has no place in the list, or does not fit A1; where a
/// kept conditional rule has no part or one outside the sheet, or its formulas do not fit there; or where
/// its sheet is not there or has no rule at the place in its list.
#[tactic(auto, unfolding(crate::specs::RenameDiffs::rename_back))]
pub fn rename_back(
    alloc: Global,
    workbook: &mut Workbook,
    id: u32,
    old: &str,
    new: &str,
    kept: &KeptTrees,
    at: u64,
) -> Result<(), EditError>
    requires placed { IsPlacedBook workbook.old }
    requires canonical { AreCanonicalTrees kept.now }
    ensures edits { Edits result workbook.old workbook.new (rename_back at id old.now new.now kept.now workbook.old) }
    ensures placed { OnOk result (IsPlacedBook workbook.new) }
{
    if !goes_back(workbook, id, kept) {
        return Err(EditError::DiffRefused { entry: 0, diff: at });
    }
    *workbook = book_back(alloc, workbook, id, old, new, kept)?;
    Ok(())
}
