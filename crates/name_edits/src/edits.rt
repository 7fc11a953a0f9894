//! Edits of defined names: which change each makes, or why it is refused.

ghost use Rattle.std.specs.Prelude.{◌≡◌, ◌≢◌, ◌<◌, length, true, Err, IfOk};
ghost use Rattle.std.specs.List.{list_any, remove};
ghost use Rattle.base_values.specs.Answers.{Returns, map_ok};
ghost use Rattle.base_values.specs.declared.EditError.TheVariants.{NoMemory};
ghost use Rattle.formula_tree.specs.Numbers.{has_canonical_numbers};
ghost use Rattle.defined_names.specs.Names.{IsCanonicalName};
ghost use Rattle.name_edits.specs.LookUp.{is_named};
ghost use Rattle.name_edits.specs.NameChanges.{IsCanonicalChange};
ghost use Rattle.name_edits.specs.NameEdits.{free_name, is_name_formula, known_place, name_at, scope_id, with_formula};
ghost use Rattle.name_edits.specs.NameEdits.{name_added, name_goes, name_removed, name_updated, update_goes};

use crate::look_up::{has_name, place_of};
use crate::name_change::NameChange;
use base_shared::Shared;
use base_values::{EditError, Position, Text, copy_of};
use cell_content::tree_fits_at;
use defined_names::{DefinedName, is_defined_name};
use formula_tree::{Node, is_parse_error};
use sheet_grid::Workbook;
use std::alloc::Global;

/// The id of the sheet at an index, or none for the whole workbook.
fn scope_id(workbook: &Workbook, scope: Option<u32>) -> Result<Option<u32>, EditError>
    ensures id { result ≡ scope_id scope workbook.now }
    ensures sure { result ≢ Err NoMemory }
{
    match scope {
        None => Ok(None),
        Some(index) => {
            let sheet = workbook.worksheet(index)?;
            Ok(Some(sheet.get_sheet_id()))
        }
    }
}

/// The scope of a name, where it may be one and is not taken.
fn free_name(scope: Option<u32>, text: &str, taken: bool) -> Result<Option<u32>, EditError>
    ensures free { result ≡ free_name scope text.now taken }
    ensures sure { result ≢ Err NoMemory }
{
    if !is_defined_name(text) {
        return Err(EditError::BadName);
    }
    if taken {
        return Err(EditError::NameTaken);
    }
    Ok(scope)
}

/// Whether a name of that scope is equal to a text by folding, but for the one at a place.
fn is_other_name(names: &[DefinedName], place: usize, scope: Option<u32>, text: &str) -> bool
    requires { place < length names.now }
    ensures { result ≡ list_any (is_named scope text.now) (remove names.now place) }
{
    let before = has_name(&names[..place], scope, text);
    let behind = has_name(&names[place + 1..], scope, text);
    before || behind
}

/// The place of the name of a scope.
fn known_place(names: &[DefinedName], scope: Option<u32>, text: &str) -> Result<usize, EditError>
    ensures place { result ≡ known_place scope text.now names.now }
    ensures sure { result ≢ Err NoMemory }
    ensures within { IfOk result (λ place. place < length names.now) }
{
    match place_of(names, scope, text) {
        Some(place) => Ok(place),
        None => Err(EditError::UnknownName),
    }
}

/// Lends the name at a place.
fn name_at(names: &[DefinedName], place: usize) -> Result<&DefinedName, EditError>
    ensures { map_ok (λ lent. lent.now) result ≡ name_at place names.now }
{
    match names.get(place) {
        Some(name) => Ok(name),
        None => Err(EditError::UnknownName),
    }
}

/// Whether a tree may be that of a defined name: it is no text outside the grammar, and fits A1. It takes
/// no memory.
pub fn is_name_formula(tree: &Node) -> bool
    ensures { result ≡ is_name_formula tree.now }
{
    !is_parse_error(tree) && tree_fits_at(Position { row: 1, column: 1 }, tree)
}

/// The name of that scope and text with that formula.
fn with_formula(
    alloc: Global,
    scope: Option<u32>,
    text: &str,
    tree: &Shared<Node>,
) -> Result<DefinedName, EditError>
    requires { has_canonical_numbers tree.now ≡ true }
    ensures name { Returns result (with_formula scope text.now tree.now) }
    ensures numbers { IfOk result IsCanonicalName }
{
    if !is_name_formula(tree.get()) {
        return Err(EditError::BadFormula);
    }
    Ok(DefinedName {
        name: Text::new(String::from_str(alloc, text)?),
        scope,
        formula: copy_of(tree)?,
    })
}

/// The id of the scope of a new name, where such a name may come. A scope is the index of a sheet, or none
/// for the whole workbook. It takes no memory.
///
/// `InvalidSheet` where there is no sheet at the index, else `BadName` where the text may not be a name,
/// else `NameTaken` where a name of that scope is equal to it by simple case folding.
#[tactic(auto, unfolding(crate::specs::NameEdits::name_goes))]
pub fn name_goes(
    workbook: &Workbook,
    scope: Option<u32>,
    text: &str,
) -> Result<Option<u32>, EditError>
    ensures found { result ≡ name_goes scope text.now workbook.now }
    ensures sure { result ≢ Err NoMemory }
{
    let id = scope_id(workbook, scope)?;
    let taken = has_name(workbook.defined_names(), id, text);
    free_name(id, text, taken)
}

/// The place of a name, and the id of the scope of the one that it may become. Scopes are as in
/// `name_goes`. It takes no memory.
///
/// `InvalidSheet` where there is no sheet at one of the indexes, else `UnknownName` where the workbook has
/// no such name, else `BadName` where the new text may not be a name, else `NameTaken` where another name
/// of the new scope is equal to it by simple case folding.
#[tactic(auto, unfolding(crate::specs::NameEdits::update_goes))]
pub fn update_goes(
    workbook: &Workbook,
    scope: Option<u32>,
    text: &str,
    new_scope: Option<u32>,
    new_text: &str,
) -> Result<(usize, Option<u32>), EditError>
    ensures found { result ≡ update_goes scope text.now new_scope new_text.now workbook.now }
    ensures sure { result ≢ Err NoMemory }
{
    let id = scope_id(workbook, scope)?;
    let new_id = scope_id(workbook, new_scope)?;
    let names = workbook.defined_names();
    let place = known_place(names, id, text)?;
    let taken = is_other_name(names, place, new_id, new_text);
    let found = free_name(new_id, new_text, taken)?;
    Ok((place, found))
}

/// The change that a new name makes: it comes behind the others.
///
/// `InvalidSheet`, `BadName` and `NameTaken` as `name_goes` answers them, else `BadFormula` where the
/// formula may not be that of a name. Then `NoMemory` is possible.
#[tactic(auto, unfolding(crate::specs::NameEdits::name_added, crate::specs::NameEdits::valid_name))]
pub fn add_name(
    alloc: Global,
    workbook: &Workbook,
    scope: Option<u32>,
    text: &str,
    tree: &Shared<Node>,
) -> Result<NameChange, EditError>
    requires { has_canonical_numbers tree.now ≡ true }
    ensures change { Returns result (name_added scope text.now tree.now workbook.now) }
    ensures numbers { IfOk result IsCanonicalChange }
{
    let id = name_goes(workbook, scope, text)?;
    let name = with_formula(alloc, id, text, tree)?;
    Ok(NameChange {
        index: workbook.defined_names().len() as u64,
        old: None,
        new: Some(name),
    })
}

/// The change of a name that goes.
///
/// `InvalidSheet` where there is no sheet at the index, else `UnknownName` where the workbook has no such
/// name. Then `NoMemory` is possible.
#[tactic(auto, unfolding(crate::specs::NameEdits::name_removed))]
pub fn remove_name(
    workbook: &Workbook,
    scope: Option<u32>,
    text: &str,
) -> Result<NameChange, EditError>
    ensures change { Returns result (name_removed scope text.now workbook.now) }
    ensures numbers { IfOk result IsCanonicalChange }
{
    let id = scope_id(workbook, scope)?;
    let names = workbook.defined_names();
    let place = known_place(names, id, text)?;
    let old = copy_of(name_at(names, place)?)?;
    Ok(NameChange {
        index: place as u64,
        old: Some(old),
        new: None,
    })
}

/// The change of a name that gets another scope, text and formula, in its place.
///
/// `InvalidSheet`, `UnknownName`, `BadName` and `NameTaken` as `update_goes` answers them, else `BadFormula`
/// where the formula may not be that of a name. Then `NoMemory` is possible.
#[tactic(auto, unfolding(crate::specs::NameEdits::name_updated))]
pub fn update_name(
    alloc: Global,
    workbook: &Workbook,
    scope: Option<u32>,
    text: &str,
    new_scope: Option<u32>,
    new_text: &str,
    tree: &Shared<Node>,
) -> Result<NameChange, EditError>
    requires { has_canonical_numbers tree.now ≡ true }
    ensures change { Returns result (name_updated scope text.now new_scope new_text.now tree.now workbook.now) }
    ensures numbers { IfOk result IsCanonicalChange }
{
    let (place, new_id) = update_goes(workbook, scope, text, new_scope, new_text)?;
    let old = name_at(workbook.defined_names(), place)?;
    let new = with_formula(alloc, new_id, new_text, tree)?;
    Ok(NameChange {
        index: place as u64,
        old: Some(copy_of(old)?),
        new: Some(new),
    })
}
