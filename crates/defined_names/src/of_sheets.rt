//! What becomes of the names of a sheet that goes, comes back or is copied.

ghost use Rattle.std.specs.Prelude.{◌≡◌, [], ◌∷◌, ◌++◌, not, IfOk, OnOk, IsOkUnless, if◌then◌else◌};
ghost use Rattle.std.specs.FinMap as fin;
ghost use Rattle.std.specs.List.{cons_option, filter_map, insert};
ghost use Rattle.base_values.specs.declared.EditError.TheVariants.{NoMemory};
ghost use Rattle.defined_names.specs.Names.{AreCanonicalPlaced, is_scoped_to, name_in, names_left, kept_names, names_restored, copied_name, names_copied};

use crate::defined_name::DefinedName;
use crate::name_list::NameList;
use base_maps::IndexMap;
use base_values::{EditError, Items, copy_of};
use std::alloc::Global;

/// Puts a copy of a name behind others, but for one of the sheet of an id.
fn push_left(
    names: &mut Items<DefinedName>,
    name: &DefinedName,
    sheet_id: u32,
) -> Result<(), EditError>
    ensures names { OnOk result (names.new ≡ names.old ++ (if not (is_scoped_to sheet_id name.now) then name.now ∷ [] else [])) }
    ensures only { IsOkUnless result NoMemory }
{
    if !name.is_scoped_to(sheet_id) {
        names.push(copy_of(name)?)?;
    }
    Ok(())
}

fn names_left(
    alloc: Global,
    names: &[DefinedName],
    sheet_id: u32,
) -> Result<Items<DefinedName>, EditError>
    ensures names { IfOk result (λ left. left ≡ names_left sheet_id names.now) }
    ensures only { IsOkUnless result NoMemory }
{
    let mut left = Items::empty(alloc);
    for name in names {
        push_left(&mut left, name, sheet_id)?;
    }
    Ok(left)
}

/// Keeps a copy of a name by its place, where it is one of the sheet of an id.
fn keep_name(
    kept: &mut IndexMap<DefinedName>,
    place: usize,
    name: &DefinedName,
    sheet_id: u32,
) -> Result<(), EditError>
    ensures kept { OnOk result (kept.new ≡ (if is_scoped_to sheet_id name.now then fin.insert kept.old place name.now else kept.old)) }
    ensures only { IsOkUnless result NoMemory }
{
    if name.is_scoped_to(sheet_id) {
        let _before = kept.insert(place as u64, copy_of(name)?)?;
    }
    Ok(())
}

fn kept_names(
    alloc: Global,
    names: &[DefinedName],
    sheet_id: u32,
) -> Result<IndexMap<DefinedName>, EditError>
    ensures names { IfOk result (λ kept. kept ≡ kept_names sheet_id names.now) }
    ensures only { IsOkUnless result NoMemory }
{
    let mut kept = IndexMap::new(alloc);
    for (place, name) in names.iter().enumerate() {
        keep_name(&mut kept, place, name, sheet_id)?;
    }
    Ok(kept)
}

/// The same name, known in the sheet of an id.
fn name_in(name: &DefinedName, sheet_id: u32) -> Result<DefinedName, EditError>
    ensures name { IfOk result (λ output. output ≡ name_in sheet_id name.now) }
    ensures only { IsOkUnless result NoMemory }
{
    Ok(DefinedName {
        name: copy_of(&name.name)?,
        scope: Some(sheet_id),
        formula: copy_of(&name.formula)?,
    })
}

/// The copy of a name for the sheet of an id, where the name is one of the source of that sheet.
fn copied_name(
    name: &DefinedName,
    source: u32,
    sheet_id: u32,
) -> Result<Option<DefinedName>, EditError>
    ensures name { IfOk result (λ copy. copy ≡ copied_name source sheet_id name.now) }
    ensures only { IsOkUnless result NoMemory }
{
    if name.is_scoped_to(source) {
        Ok(Some(name_in(name, sheet_id)?))
    } else {
        Ok(None)
    }
}

fn push_copied(
    names: &mut Items<DefinedName>,
    name: &DefinedName,
    source: u32,
    sheet_id: u32,
) -> Result<(), EditError>
    ensures names { OnOk result (names.new ≡ names.old ++ cons_option (copied_name source sheet_id name.now) []) }
    ensures only { IsOkUnless result NoMemory }
{
    if let Some(copy) = copied_name(name, source, sheet_id)? {
        names.push(copy)?;
    }
    Ok(())
}

fn names_copied(
    names: &[DefinedName],
    mut copied: Items<DefinedName>,
    source: u32,
    sheet_id: u32,
) -> Result<Items<DefinedName>, EditError>
    ensures names { IfOk result (λ all. all ≡ copied ++ filter_map (copied_name source sheet_id) names.now) }
    ensures only { IsOkUnless result NoMemory }
{
    for name in names {
        push_copied(&mut copied, name, source, sheet_id)?;
    }
    Ok(copied)
}

/// Puts a name at a place, or behind the others where they are fewer. `NoMemory` alone is an error.
pub fn put_name(
    names: &mut Vec<DefinedName>,
    place: u64,
    name: DefinedName,
) -> Result<(), EditError>
    ensures names { OnOk result (names.new.items ≡ insert names.old.items place name) }
    ensures only { IsOkUnless result NoMemory }
{
    let at = names.len().min(place as usize);
    names.insert(at, name)?;
    Ok(())
}

fn names_restored(
    mut names: Vec<DefinedName>,
    kept: &IndexMap<DefinedName>,
) -> Result<Vec<DefinedName>, EditError>
    ensures names { IfOk result (λ all. all.items ≡ names_restored kept.now names.items) }
    ensures only { IsOkUnless result NoMemory }
{
    for (place, name) in kept.iter() {
        put_name(&mut names, *place, copy_of(name)?)?;
    }
    Ok(names)
}

impl NameList {
    /// The names but for those of the sheet of an id. `NoMemory` alone is an error.
    pub fn without_sheet(&self, alloc: Global, sheet_id: u32) -> Result<NameList, EditError>
        ensures names { IfOk result (λ left. left ≡ names_left sheet_id self.now) }
        ensures only { IsOkUnless result NoMemory }
    {
        let left = names_left(alloc, self.as_slice(), sheet_id)?;
        Ok(NameList::new(left))
    }

    /// The names of the sheet of an id, by their places in the list. `NoMemory` alone is an error.
    pub fn of_sheet(&self, alloc: Global, sheet_id: u32) -> Result<IndexMap<DefinedName>, EditError>
        ensures names { IfOk result (λ kept. kept ≡ kept_names sheet_id self.now) }
        ensures numbers { IfOk result AreCanonicalPlaced }
        ensures only { IsOkUnless result NoMemory }
    {
        kept_names(alloc, self.as_slice(), sheet_id)
    }

    /// The names, and behind them those of a sheet once more, as names of the sheet of an id.
    /// `NoMemory` alone is an error.
    pub fn copied_to(&self, source: u32, sheet_id: u32) -> Result<NameList, EditError>
        ensures names { IfOk result (λ all. all ≡ names_copied source sheet_id self.now) }
        ensures only { IsOkUnless result NoMemory }
    {
        let names = copy_of(self.as_items())?;
        let all = names_copied(self.as_slice(), names, source, sheet_id)?;
        Ok(NameList::new(all))
    }

    /// The names with others put back, one after another, each at its place, or behind all of them
    /// where they are fewer. `NoMemory` alone is an error.
    pub fn restored(&self, kept: &IndexMap<DefinedName>) -> Result<NameList, EditError>
        requires { AreCanonicalPlaced kept.now }
        ensures names { IfOk result (λ all. all ≡ names_restored kept.now self.now) }
        ensures only { IsOkUnless result NoMemory }
    {
        let names = copy_of(self.as_items())?;
        let all = names_restored(names.into_vec(), kept)?;
        Ok(NameList::new(Items::new(all)))
    }
}
