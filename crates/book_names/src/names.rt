//! The defined names of a workbook, each with its tree renamed, kept or taken back.

ghost use Rattle.std.specs.Prelude.{◌≡◌, map, IfOk, IsOkUnless, OnOk};
ghost use Rattle.std.specs.Option.{option_copied};
ghost use Rattle.std.specs.FinMap.{get};
ghost use Rattle.base_values.specs.declared.EditError.TheVariants.{NoMemory};
ghost use Rattle.base_maps.specs.Carried.{settled};
ghost use Rattle.base_maps.specs.laws.Gathering.{with_made};
ghost use Rattle.base_maps.specs.ByIndex.{kept_at, restored_at};
ghost use Rattle.formula_names.specs.declared.Reach.TheVariants.{Sheets};
ghost use Rattle.formula_names.specs.Renamed.{tree_renamed};
ghost use Rattle.sheet_lines.specs.Back.{AreCanonicalFormulas};
ghost use Rattle.book_names.specs.Renaming.{defined_renamed, defined_kept, names_kept, with_kept_tree, names_back};

use crate::cells::stays;
use base_maps::IndexMap;
use base_shared::Shared;
use base_values::{EditError, Items, Text, copy_of};
use defined_names::{DefinedName, NameList};
use formula_names::{Reach, kept_tree, rename_in_node};
use formula_tree::Node;
use std::alloc::Global;

/// A tree that is renamed. One that stays the same is shared.
pub(crate) fn renamed_tree(
    alloc: Global,
    tree: &Shared<Node>,
    reach: Reach,
    old: &str,
    new: &Shared<Text>,
) -> Result<Shared<Node>, EditError>
    ensures tree { IfOk result (λ renamed. renamed ≡ tree_renamed reach old.now new.now tree.now) }
    ensures only { IsOkUnless result NoMemory }
{
    if stays(tree, reach, old, new) {
        return copy_of(tree);
    }
    let renamed = rename_in_node(alloc, tree.get(), reach, old, new)?;
    Ok(Shared::new(alloc, renamed)?)
}

/// A defined name with that tree in place of its own.
fn with_formula(name: &DefinedName, formula: Shared<Node>) -> Result<DefinedName, EditError>
    ensures name { IfOk result (λ output. output ≡ record name.now { formula = formula }) }
    ensures only { IsOkUnless result NoMemory }
{
    Ok(DefinedName {
        name: copy_of(&name.name)?,
        scope: name.scope,
        formula,
    })
}

fn renamed_name(
    alloc: Global,
    name: &DefinedName,
    reach: Reach,
    old: &str,
    new: &Shared<Text>,
) -> Result<DefinedName, EditError>
    ensures name { IfOk result (λ output. output ≡ defined_renamed reach old.now new.now name.now) }
    ensures only { IsOkUnless result NoMemory }
{
    let formula = renamed_tree(alloc, &name.formula, reach, old, new)?;
    with_formula(name, formula)
}

fn names_renamed(
    alloc: Global,
    names: &[DefinedName],
    old: &str,
    new: &Shared<Text>,
) -> Result<Items<DefinedName>, EditError>
    ensures names { IfOk result (λ output. output ≡ map (defined_renamed Sheets old.now new.now) names.now) }
    ensures only { IsOkUnless result NoMemory }
{
    let mut output = Items::empty(alloc);
    for name in names {
        let renamed = renamed_name(alloc, name, Reach::Sheets, old, new)?;
        output.push(renamed)?;
    }
    Ok(output)
}

/// A defined name with the tree that is kept of it, if there is one, else renamed back.
fn name_back(
    alloc: Global,
    name: &DefinedName,
    kept: Option<&Shared<Node>>,
    reach: Reach,
    old: &Shared<Text>,
    new: &str,
) -> Result<DefinedName, EditError>
    ensures name { IfOk result (λ back. back ≡ settled (defined_renamed reach new.now old.now) with_kept_tree (option_copied kept.entry) name.now) }
    ensures only { IsOkUnless result NoMemory }
{
    match kept {
        Some(own) => with_formula(name, copy_of(own)?),
        None => renamed_name(alloc, name, reach, new, old),
    }
}

/// The defined name at a place of the list, with the tree that is kept there, else renamed back.
fn name_at(
    alloc: Global,
    place: usize,
    name: &DefinedName,
    kept: &IndexMap<Shared<Node>>,
    reach: Reach,
    old: &Shared<Text>,
    new: &str,
) -> Result<DefinedName, EditError>
    ensures name { IfOk result (λ output. output ≡ restored_at (defined_renamed reach new.now old.now) with_kept_tree (get kept.now) (place, name.now)) }
    ensures only { IsOkUnless result NoMemory }
{
    name_back(alloc, name, kept.get(place as u64), reach, old, new)
}

fn names_back(
    alloc: Global,
    names: &[DefinedName],
    kept: &IndexMap<Shared<Node>>,
    reach: Reach,
    old: &Shared<Text>,
    new: &str,
) -> Result<Items<DefinedName>, EditError>
    ensures names { IfOk result (λ output. output ≡ names_back reach old.now new.now (get kept.now) names.now) }
    ensures only { IsOkUnless result NoMemory }
{
    let mut output = Items::empty(alloc);
    for (place, name) in names.iter().enumerate() {
        output.push(name_at(alloc, place, name, kept, reach, old, new)?)?;
    }
    Ok(output)
}

/// Keeps the tree of a defined name under its place in the list, where the opposite renaming does not
/// give it.
fn keep_name(
    kept: &mut IndexMap<Shared<Node>>,
    place: usize,
    name: &DefinedName,
    old: &str,
    new: &str,
) -> Result<(), EditError>
    ensures kept { OnOk result (kept.new ≡ with_made (kept_at (defined_kept old.now new.now) (place, name.now)) kept.old) }
    ensures only { IsOkUnless result NoMemory }
{
    if let Some(tree) = kept_tree(&name.formula, Reach::Sheets, Reach::Sheets, old, new)? {
        let _before = kept.insert(place as u64, tree)?;
    }
    Ok(())
}

/// The trees of defined names that the opposite renaming does not give, by their places in the list.
pub(crate) fn kept_names(
    alloc: Global,
    names: &[DefinedName],
    old: &str,
    new: &str,
) -> Result<IndexMap<Shared<Node>>, EditError>
    ensures names { IfOk result (λ kept. kept ≡ names_kept old.now new.now names.now) }
    ensures only { IsOkUnless result NoMemory }
{
    let mut kept = IndexMap::new(alloc);
    for (place, name) in names.iter().enumerate() {
        keep_name(&mut kept, place, name, old, new)?;
    }
    Ok(kept)
}

/// The defined names of a workbook, renamed.
pub(crate) fn renamed_list(
    alloc: Global,
    names: &NameList,
    old: &str,
    new: &Shared<Text>,
) -> Result<NameList, EditError>
    ensures names { IfOk result (λ output. output ≡ map (defined_renamed Sheets old.now new.now) names.now) }
    ensures only { IsOkUnless result NoMemory }
{
    let renamed = names_renamed(alloc, names.as_slice(), old, new)?;
    Ok(NameList::new(renamed))
}

/// The defined names of a workbook, with the trees that are kept of them, else renamed back as far as
/// the renaming reaches. `NoMemory` alone is an error.
pub fn list_back(
    alloc: Global,
    names: &NameList,
    kept: &IndexMap<Shared<Node>>,
    reach: Reach,
    old: &Shared<Text>,
    new: &str,
) -> Result<NameList, EditError>
    requires { AreCanonicalFormulas kept.now }
    ensures names { IfOk result (λ output. output ≡ names_back reach old.now new.now (get kept.now) names.now) }
    ensures only { IsOkUnless result NoMemory }
{
    let back = names_back(alloc, names.as_slice(), kept, reach, old, new)?;
    Ok(NameList::new(back))
}
