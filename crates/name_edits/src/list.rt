//! The list of the defined names after a change.

ghost use Rattle.std.specs.Prelude.{◌≡◌, ◌<◌, length, true, IfOk, IfSome, IsOkUnless, OnOk};
ghost use Rattle.base_values.specs.declared.EditError.TheVariants.{NoMemory};
ghost use Rattle.name_edits.specs.NameChanges.{IsCanonicalChange, name_come, name_gone, names_changed};
ghost use Rattle.name_edits.specs.NameDiffs.{has_place};

use crate::name_change::NameChange;
use base_values::{EditError, Items, copy_of};
use defined_names::{DefinedName, NameList, put_name};
use std::alloc::Global;

fn copied(alloc: Global, names: &[DefinedName]) -> Result<Items<DefinedName>, EditError>
    ensures names { IfOk result (λ copies. copies ≡ names.now) }
    ensures only { IsOkUnless result NoMemory }
{
    let mut copies = Items::empty(alloc);
    for name in names {
        copies.push(copy_of(name)?)?;
    }
    Ok(copies)
}

/// The names without the one at an index, if one goes.
fn without_old(
    mut names: Vec<DefinedName>,
    index: u64,
    old: &Option<DefinedName>,
) -> Vec<DefinedName>
    requires { IfSome old.now (λ _. index < length names.items) }
    ensures { result.items ≡ name_gone index old.now names.items }
{
    if old.is_some() {
        let _gone = names.remove(index as usize);
    }
    names
}

/// The names with a copy of another one at an index, if one comes.
fn with_new(
    mut names: Vec<DefinedName>,
    index: u64,
    new: &Option<DefinedName>,
) -> Result<Vec<DefinedName>, EditError>
    ensures names { IfOk result (λ output. output.items ≡ name_come index new.now names.items) }
    ensures only { IsOkUnless result NoMemory }
{
    if let Some(name) = new {
        put_name(&mut names, index, copy_of(name)?)?;
    }
    Ok(names)
}

/// The names after a change.
fn changed_names(
    alloc: Global,
    names: &[DefinedName],
    change: &NameChange,
) -> Result<Items<DefinedName>, EditError>
    requires { has_place change.now (length names.now) ≡ true }
    ensures names { IfOk result (λ output. output ≡ names_changed change.now names.now) }
    ensures only { IsOkUnless result NoMemory }
{
    let before = copied(alloc, names)?.into_vec();
    let left = without_old(before, change.index, &change.old);
    let output = with_new(left, change.index, &change.new)?;
    Ok(Items::new(output))
}

/// The names after a change. `NoMemory` alone is an error.
pub(crate) fn changed_list(
    alloc: Global,
    names: &NameList,
    change: &NameChange,
) -> Result<NameList, EditError>
    requires place { has_place change.now (length names.now) ≡ true }
    requires numbers { IsCanonicalChange change.now }
    ensures names { IfOk result (λ output. output ≡ names_changed change.now names.now) }
    ensures only { IsOkUnless result NoMemory }
{
    let output = changed_names(alloc, names.as_slice(), change)?;
    Ok(NameList::new(output))
}
