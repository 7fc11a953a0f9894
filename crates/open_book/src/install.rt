ghost use Rattle.std.specs.Prelude.{◌≡◌, true, false, IfOk, IsOk, OnOk, OnErr, IsOkUnless};
ghost use Rattle.base_values.specs.Answers.{Answers, Edits};
ghost use Rattle.base_values.specs.declared.EditError.TheVariants.{NoMemory};
ghost use Rattle.sheet_rules.specs.WellFormed.{IsWellFormed};
ghost use Rattle.sheet_history.specs.Diffs.{IsCanonicalList, follow};
ghost use Rattle.open_book.specs.Untested.{follow_untested};
ghost use Rattle.open_book.specs.Values.{AreMade};
ghost use Rattle.open_book.specs.Views.{view_followed};

use crate::recalc::{Recalc, Results};
use base_values::EditError;
use sheet_grid::{Computed, Workbook};
use sheet_history::{
    DiffList, DiffType, back, back_in_place, follow_in_place, forward, forward_in_place,
    selection_followed,
};
use sheet_ids::{View, viewed, viewed_id};
use std::alloc::Global;

/// The well-formed workbook after a list, in its direction, or the refusal of the list.
fn followed(
    alloc: Global,
    workbook: &Workbook,
    kind: DiffType,
    list: &DiffList,
) -> Result<Workbook, EditError>
    requires canonical { IsCanonicalList list.now }
    requires rules { IsWellFormed workbook.now }
    ensures { Answers result (follow kind workbook.now list.now) }
{
    match kind {
        DiffType::Undo => back(alloc, workbook, list),
        DiffType::Redo => forward(alloc, workbook, list),
    }
}

/// Follows a list in the workbook itself, and does not test the result.
fn follow_untested(
    alloc: Global,
    workbook: &mut Workbook,
    kind: DiffType,
    list: &DiffList,
) -> Result<(), EditError>
    requires canonical { IsCanonicalList list.now }
    requires rules { IsWellFormed workbook.old }
    ensures { Edits result workbook.old workbook.new (follow_untested kind workbook.old list.now) }
{
    match kind {
        DiffType::Undo => back_in_place(alloc, workbook, list),
        DiffType::Redo => forward_in_place(alloc, workbook, list),
    }
}

/// Follows a list in the workbook itself, or refuses it. Where `known` is true, the list is known
/// not to be refused, and the result is not tested.
fn follow(
    alloc: Global,
    workbook: &mut Workbook,
    kind: DiffType,
    list: &DiffList,
    known: bool,
) -> Result<(), EditError>
    requires canonical { IsCanonicalList list.now }
    requires rules { IsWellFormed workbook.old }
    requires works { known ≡ true → IsOk (follow kind workbook.old list.now) }
    ensures { Edits result workbook.old workbook.new (follow kind workbook.old list.now) }
{
    if known {
        return follow_untested(alloc, workbook, kind, list);
    }
    follow_in_place(alloc, workbook, kind, list)
}

/// The values of a workbook, or none while they wait.
pub fn values_of<R: Recalc>(
    alloc: Global,
    workbook: &Workbook,
    paused: bool,
    recalc: &mut R,
) -> Result<Computed, EditError>
    ensures output { IfOk result (AreMade R.Fits paused workbook.now) }
    ensures only { IsOkUnless result NoMemory }
    ensures sure { (paused ≡ false → R.Sure) → IsOk result }
{
    if paused {
        return Ok(Computed::new(alloc));
    }
    recalc.compute(alloc, workbook)
}

/// Follows a list on a copy of the workbook, and makes the values of that. An error changes
/// nothing.
fn install_on_copy<R: Recalc>(
    alloc: Global,
    workbook: &mut Workbook,
    results: &mut Results,
    recalc: &mut R,
    kind: DiffType,
    list: &DiffList,
) -> Result<(), EditError>
    requires canonical { IsCanonicalList list.now }
    requires rules { IsWellFormed workbook.old }
    ensures installed { Edits result workbook.old workbook.new (follow kind workbook.old list.now) }
    ensures output { OnOk result (AreMade R.Fits results.new.paused workbook.new results.new.values) }
    ensures err { OnErr result (results.new ≡ results.old) }
    ensures paused { results.new.paused ≡ results.old.paused }
{
    let later = followed(alloc, workbook, kind, list)?;
    let values = values_of(alloc, &later, results.paused, recalc)?;
    results.values = values;
    *workbook = later;
    Ok(())
}

/// Follows a list in the workbook itself, and then makes its values, which must not be out of memory. An
/// error changes nothing.
fn install_in_place<R: Recalc>(
    alloc: Global,
    workbook: &mut Workbook,
    results: &mut Results,
    recalc: &mut R,
    kind: DiffType,
    list: &DiffList,
    known: bool,
) -> Result<(), EditError>
    requires canonical { IsCanonicalList list.now }
    requires rules { IsWellFormed workbook.old }
    requires works { known ≡ true → IsOk (follow kind workbook.old list.now) }
    requires sure { results.old.paused ≡ false → R.Sure }
    ensures installed { Edits result workbook.old workbook.new (follow kind workbook.old list.now) }
    ensures output { OnOk result (AreMade R.Fits results.new.paused workbook.new results.new.values) }
    ensures err { OnErr result (results.new ≡ results.old) }
    ensures paused { results.new.paused ≡ results.old.paused }
{
    follow(alloc, workbook, kind, list, known)?;
    match values_of(alloc, workbook, results.paused, recalc) {
        Ok(values) => {
            results.values = values;
            Ok(())
        }
        Err(_) => unreachable!(),
    }
}

/// Whether a list can be followed in the workbook itself: evaluation is paused, or computing never
/// returns `NoMemory`.
fn goes_in_place<R: Recalc>(paused: bool, recalc: &R) -> bool
    ensures { result ≡ true → paused ≡ false → R.Sure }
{
    paused || recalc.is_sure()
}

/// Makes the workbook after a list, in its direction, the present one, with its values, or refuses
/// the list. Where `known` is true, the list is known not to be refused. An error changes nothing.
pub fn install<R: Recalc>(
    alloc: Global,
    workbook: &mut Workbook,
    results: &mut Results,
    recalc: &mut R,
    kind: DiffType,
    list: &DiffList,
    known: bool,
) -> Result<(), EditError>
    requires canonical { IsCanonicalList list.now }
    requires rules { IsWellFormed workbook.old }
    requires works { known ≡ true → IsOk (follow kind workbook.old list.now) }
    ensures installed { Edits result workbook.old workbook.new (follow kind workbook.old list.now) }
    ensures output { OnOk result (AreMade R.Fits results.new.paused workbook.new results.new.values) }
    ensures err { OnErr result (results.new ≡ results.old) }
    ensures paused { results.new.paused ≡ results.old.paused }
{
    if goes_in_place(results.paused, recalc) {
        return install_in_place(alloc, workbook, results, recalc, kind, list, known);
    }
    install_on_copy(alloc, workbook, results, recalc, kind, list)
}

/// Follows a list as `install` does, and takes the view along with the sheets that it moves.
pub fn install_viewed<R: Recalc>(
    alloc: Global,
    workbook: &mut Workbook,
    view: &mut View,
    results: &mut Results,
    recalc: &mut R,
    kind: DiffType,
    list: &DiffList,
    known: bool,
) -> Result<(), EditError>
    requires canonical { IsCanonicalList list.now }
    requires rules { IsWellFormed workbook.old }
    requires works { known ≡ true → IsOk (follow kind workbook.old list.now) }
    ensures installed { Edits result workbook.old workbook.new (follow kind workbook.old list.now) }
    ensures seen { OnOk result (view.new ≡ view_followed kind list.now workbook.old workbook.new view.old) }
    ensures same { OnErr result (view.new ≡ view.old) }
    ensures output { OnOk result (AreMade R.Fits results.new.paused workbook.new results.new.values) }
    ensures err { OnErr result (results.new ≡ results.old) }
    ensures paused { results.new.paused ≡ results.old.paused }
{
    let diffs = list.get().as_slice();
    let selected = selection_followed(kind, workbook, diffs, view.sheet)?;
    let was = viewed_id(workbook.worksheets(), *view);
    install(alloc, workbook, results, recalc, kind, list, known)?;
    *view = viewed(was, workbook.worksheets(), selected as usize, *view);
    Ok(())
}
