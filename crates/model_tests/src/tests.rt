// A user model as its users call it, where no case of `script_rows` shows what it does. What stands where was worked out by
// hand from docs/MODEL.md.
use base_shared::Shared;
use base_styles::Style;
use base_tables::{Locale, Zone};
use base_values::EditError;
use formula_tree::{Node, has_canonical_numbers};
use sheet_actions::Model as PlainModel;
use sheet_grid::{Computed, Content, Workbook, Worksheet};
use std::alloc::Global;
use std::cell::Cell;
use std::process::Abort;
use std::test::Fail;
use user_model::{CellArrayStructure, ClearAll, Recalc, UserModel, View};

mod copies;
mod moves;
mod rules;
mod sheets;
mod styles;
mod values;

/// What is tested of a model without values. Each is a function that borrows the model.
#[derive(Clone, Copy)]
enum Case {
    NewWorkbook,
    EditedRules,
    RefusedRules,
    ChosenView,
    LastId,
    PastedStyles,
    HiddenLines,
}

fn run_case(
    rt: &impl Abort,
    alloc: Global,
    case: Case,
    model: &mut UserModel<ClearAll>,
) -> Result<(), EditError> {
    match case {
        Case::NewWorkbook => copies::is_new(rt, alloc, model),
        Case::EditedRules => rules::rules_are_edited(rt, alloc, model),
        Case::RefusedRules => rules::refusals_are_in_order(rt, alloc, model),
        Case::ChosenView => sheets::views_are_chosen(rt, model),
        Case::LastId => sheets::no_id_is_left(rt, model),
        Case::PastedStyles => styles::tiles_are_laid(rt, alloc, model),
        Case::HiddenLines => moves::moves_pass_hidden_lines(rt, model),
    }
}

/// Holds a model while a case runs. No test holds one itself, since each way out of a function that does is
/// proved, and that of a model is long.
fn run_on(
    rt: &impl Abort,
    alloc: Global,
    case: Case,
    model: UserModel<ClearAll>,
) -> Result<(), EditError> {
    let mut model = model;
    run_case(rt, alloc, case, &mut model)
}

/// Runs a case on a model of a new workbook.
fn run_on_new(rt: &impl Abort, alloc: Global, case: Case) -> Result<(), EditError> {
    run_on(rt, alloc, case, new_model(alloc)?)
}

fn new_model(alloc: Global) -> Result<UserModel<ClearAll>, EditError> {
    UserModel::new_empty(alloc, "book", "en", "UTC", "en", ClearAll)
}
