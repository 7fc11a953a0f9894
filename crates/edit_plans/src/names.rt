//! Defined names that are added, removed and changed.

ghost use Rattle.std.specs.Prelude.{◌≡◌, [], ◌∷◌, length, true, IfOk, IsOkUnless};
ghost use Rattle.base_values.specs.declared.EditError.TheVariants.{NoMemory};
ghost use Rattle.formula_tree.specs.Numbers.{has_canonical_numbers};
ghost use Rattle.sheet_rules.specs.WellFormed.{IsWellFormed};
ghost use Rattle.name_edits.specs.NameChanges.{IsCanonicalChange};
ghost use Rattle.name_edits.specs.NameDiffs.{has_place};
ghost use Rattle.name_edits.specs.NameEdits.NameEdit.{Add, Remove, Update};
ghost use Rattle.sheet_history.specs.Diffs.{IsCanonicalList};
ghost use Rattle.edit_plans.specs.Edits.Edit.{ChangeNames};
ghost use Rattle.edit_plans.specs.NamedEdits.{name_diff};
ghost use Rattle.edit_plans.specs.Plans.{PlansSheets};

use crate::sheets::list_of_one;
use base_shared::Shared;
use base_values::EditError;
use formula_tree::Node;
use name_edits::{NameChange, add_name, remove_name, trees_lost, update_name};
use sheet_grid::Workbook;
use sheet_history::{Diff, DiffList};
use std::alloc::Global;

/// The record of a change of the names.
fn change_list(
    alloc: Global,
    workbook: &Workbook,
    change: NameChange,
) -> Result<DiffList, EditError>
    requires place { has_place change (length workbook.now.names) ≡ true }
    requires numbers { IsCanonicalChange change }
    ensures output { IfOk result (λ list. list ≡ name_diff workbook.now change ∷ []) }
    ensures canonical { IfOk result IsCanonicalList }
    ensures only { IsOkUnless result NoMemory }
{
    let kept = trees_lost(alloc, workbook, &change)?;
    let kept = Shared::new(alloc, kept)?;
    list_of_one(alloc, Diff::ChangeName { change, kept })
}

/// The record of a new defined name, which comes behind the others. A scope is the index of the sheet
/// where alone the name is known, or none for the whole workbook. Nothing is changed.
///
/// `InvalidSheet` where there is no such sheet, else `BadName` where the text may not be a name, else
/// `NameTaken` where a name of that scope is equal to it by simple case folding, else `BadFormula` where
/// the tree is no formula or does not fit A1. Then `NoMemory` is possible.
pub fn plan_new_name(
    alloc: Global,
    workbook: &Workbook,
    scope: Option<u32>,
    name: &str,
    formula: &Shared<Node>,
) -> Result<DiffList, EditError>
    requires rules { IsWellFormed workbook.now }
    requires numbers { has_canonical_numbers formula.now ≡ true }
    ensures planned { PlansSheets (ChangeNames (Add scope name.now formula.now)) result workbook.now }
{
    let change = add_name(alloc, workbook, scope, name, formula)?;
    change_list(alloc, workbook, change)
}

/// The record of a defined name that goes. Scopes are as in `plan_new_name`. Nothing is changed.
///
/// `InvalidSheet` where there is no such sheet, else `UnknownName` where no name of that scope is equal
/// to the text by simple case folding. Then `NoMemory` is possible.
pub fn plan_removed_name(
    alloc: Global,
    workbook: &Workbook,
    scope: Option<u32>,
    name: &str,
) -> Result<DiffList, EditError>
    requires rules { IsWellFormed workbook.now }
    ensures planned { PlansSheets (ChangeNames (Remove scope name.now)) result workbook.now }
{
    let change = remove_name(workbook, scope, name)?;
    change_list(alloc, workbook, change)
}

/// The record of a defined name that gets another scope, text and formula, in its place. In the formulas
/// that mean it by its old text the text becomes the new one. Scopes are as in `plan_new_name`. Nothing is
/// changed.
///
/// `InvalidSheet` where there is no sheet of one of the scopes, else `UnknownName` where no name of the old
/// scope is equal to the old text by simple case folding, else `BadName` where the new text may not be a
/// name, else `NameTaken` where another name of the new scope is equal to it so, else `BadFormula` where the
/// tree is no formula or does not fit A1. Then `NoMemory` is possible.
pub fn plan_changed_name(
    alloc: Global,
    workbook: &Workbook,
    scope: Option<u32>,
    name: &str,
    new_scope: Option<u32>,
    new_name: &str,
    formula: &Shared<Node>,
) -> Result<DiffList, EditError>
    requires rules { IsWellFormed workbook.now }
    requires numbers { has_canonical_numbers formula.now ≡ true }
    ensures planned { PlansSheets (ChangeNames (Update scope name.now new_scope new_name.now formula.now)) result workbook.now }
{
    let change = update_name(alloc, workbook, scope, name, new_scope, new_name, formula)?;
    change_list(alloc, workbook, change)
}
