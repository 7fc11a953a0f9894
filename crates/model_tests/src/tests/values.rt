// When values are computed, and what stands of them.
use super::*;

/// Counts how often it is asked, and wants memory where it is told to. The first cell of the first
/// sheet has a value, as many columns wide as it was asked.
#[derive(Drop)]
pub(super) struct Counting<'a> {
    calls: &'a Cell<i32>,
    fails: &'a Cell<bool>,
}

impl<'a> Recalc for Counting<'a> {
    ghost Fits = { λ _ _. Unit {0} };

    fn compute(&mut self, alloc: Global, _workbook: &Workbook) -> Result<Computed, EditError> {
        let calls = self.calls.get().wrapping_add(1);
        self.calls.set(calls);
        if self.fails.get() {
            return Err(EditError::NoMemory);
        }
        let mut values = Computed::new(alloc);
        if calls > 0 {
            values.put(1, 1, 1, Content::Boolean(true), calls, 2)?;
        }
        Ok(values)
    }
}

fn link_and_send(model: &mut UserModel<ClearAll>) -> Result<Vec<u8>, EditError> {
    model.set_cell_link(0, 9, 9, "x")?;
    model.flush_send_queue()
}

/// The bytes of a link from another model, which is gone then.
fn link_sent(alloc: Global) -> Result<Vec<u8>, EditError> {
    let mut model = new_model(alloc)?;
    link_and_send(&mut model)
}

/// What is tested of a model whose values are counted.
#[derive(Clone, Copy)]
pub(super) enum Counted {
    EachChange,
    DynamicFormula,
    LastPriority,
}

fn run_counted_case(
    rt: &impl Abort,
    alloc: Global,
    case: Counted,
    model: &mut UserModel<Counting<'_>>,
    calls: &Cell<i32>,
    fails: &Cell<bool>,
) -> Result<(), EditError> {
    match case {
        Counted::EachChange => changes_are_counted(rt, alloc, model, calls, fails),
        Counted::DynamicFormula => values_fill_cells(rt, model),
        Counted::LastPriority => rules::no_priority_is_left(rt, alloc, model, fails),
    }
}

/// Holds a model whose values are counted while a case runs, as `run_on` does.
pub(super) fn run_counted(
    rt: &impl Abort,
    alloc: Global,
    case: Counted,
    model: UserModel<Counting<'_>>,
    calls: &Cell<i32>,
    fails: &Cell<bool>,
) -> Result<(), EditError> {
    let mut model = model;
    run_counted_case(rt, alloc, case, &mut model, calls, fails)
}

/// A new workbook whose values are counted.
fn counted_model<'a>(
    alloc: Global,
    calls: &'a Cell<i32>,
    fails: &'a Cell<bool>,
) -> Result<UserModel<Counting<'a>>, EditError> {
    let counting = Counting { calls, fails };
    UserModel::new_empty(alloc, "book", "en", "UTC", "en", counting)
}

/// A workbook whose values are counted.
pub(super) fn opened<'a>(
    alloc: Global,
    plain: PlainModel,
    calls: &'a Cell<i32>,
    fails: &'a Cell<bool>,
) -> Result<UserModel<Counting<'a>>, EditError> {
    UserModel::from_model(alloc, plain, Counting { calls, fails })
}

/// Each change asks once, and a refused one does not.
fn changes_ask(
    rt: &impl Abort,
    model: &mut UserModel<Counting<'_>>,
    calls: &Cell<i32>,
) -> Result<(), EditError> {
    assert_eq!(rt; calls.get(), 1);
    model.set_user_input(0, 1, 1, "7")?;
    assert_eq!(rt; calls.get(), 2);
    assert_eq!(rt; model.insert_rows(0, 0, 1), Err(EditError::InvalidRow));
    assert_eq!(rt;
        model.set_user_input(0, 1, 0, "7"),
        Err(EditError::InvalidColumn)
    );
    assert_eq!(rt; calls.get(), 2);
    Ok(())
}

/// What is asked while memory is short changes nothing.
fn short_memory_changes_nothing(
    rt: &impl Abort,
    model: &mut UserModel<Counting<'_>>,
    bytes: &[u8],
) -> Result<(), EditError> {
    let short = Err(EditError::NoMemory);
    assert_eq!(rt; model.insert_rows(0, 1, 1), short);
    assert_eq!(rt; model.set_user_input(0, 1, 1, "8"), short);
    assert_eq!(rt; model.undo(), short);
    assert_eq!(rt; model.apply_external_diffs(bytes), short);
    assert_eq!(rt; model.evaluate(), short);
    assert!(rt; model.can_undo());
    assert_eq!(rt; model.get_cell_content(0, 1, 1)?.as_str(), "7");
    Ok(())
}

/// Memory is short, with the bytes of a link to follow.
fn memory_is_short(
    rt: &impl Abort,
    alloc: Global,
    model: &mut UserModel<Counting<'_>>,
) -> Result<(), EditError> {
    let bytes = link_sent(alloc)?;
    short_memory_changes_nothing(rt, model, &bytes)
}

/// While values wait nobody is asked, but by `evaluate`.
fn values_wait(
    rt: &impl Abort,
    model: &mut UserModel<Counting<'_>>,
    calls: &Cell<i32>,
) -> Result<(), EditError> {
    calls.set(0);
    model.pause_evaluation();
    model.insert_rows(0, 1, 1)?;
    model.resume_evaluation();
    assert_eq!(rt; calls.get(), 0);
    model.pause_evaluation();
    model.evaluate()?;
    assert_eq!(rt; calls.get(), 1);
    model.resume_evaluation();
    model.undo()?;
    assert_eq!(rt; calls.get(), 2);
    assert_eq!(rt; model.get_cell_content(0, 1, 1)?.as_str(), "7");
    Ok(())
}

fn changes_are_counted(
    rt: &impl Abort,
    alloc: Global,
    model: &mut UserModel<Counting<'_>>,
    calls: &Cell<i32>,
    fails: &Cell<bool>,
) -> Result<(), EditError> {
    changes_ask(rt, model, calls)?;
    fails.set(true);
    memory_is_short(rt, alloc, model)?;
    fails.set(false);
    values_wait(rt, model, calls)
}

/// Each change asks for values once, a refused one does not, and one that finds no memory for them
/// changes nothing.
#[test]
fn values_are_made_with_each_change(rt: HostRuntime) -> Result<(), Fail> {
    let alloc = rt.alloc();
    let calls = Cell::new(0);
    let fails = Cell::new(false);
    let model = counted_model(alloc, &calls, &fails)?;
    Ok(run_counted(&rt, alloc, Counted::EachChange, model, &calls, &fails)?)
}

/// A workbook with a dynamic formula in its first cell.
fn dynamic_book(alloc: Global) -> Result<PlainModel, EditError> {
    let mut workbook = Workbook::new_empty(alloc, "book", Locale::En, Zone::Utc)?;
    let style = Style::new(alloc)?;
    let tree = Node::EmptyArgument;
    if has_canonical_numbers(&tree) {
        workbook
            .worksheet_mut(0)?
            .set_cell_with_dynamic_formula(1, 1, tree, &style)?;
    }
    PlainModel::from_workbook(alloc, workbook)
}

fn values_fill_cells(
    rt: &impl Abort,
    model: &mut UserModel<Counting<'_>>,
) -> Result<(), EditError> {
    for (row, structure) in [
        (1, CellArrayStructure::DynamicAnchor(3, 2)),
        (2, CellArrayStructure::DynamicChild(1, 1, 3, 2)),
        (3, CellArrayStructure::SingleCell),
    ] {
        assert_eq!(rt; model.get_cell_array_structure(0, row, 1), Ok(structure));
    }
    model.pause_evaluation();
    model.set_cell_link(0, 9, 9, "x")?;
    for (row, structure) in [
        (1, CellArrayStructure::DynamicAnchor(1, 1)),
        (2, CellArrayStructure::SingleCell),
    ] {
        assert_eq!(rt; model.get_cell_array_structure(0, row, 1), Ok(structure));
    }
    Ok(())
}

/// The values of a dynamic formula fill the cells, and none are left by a change while they wait.
#[test]
fn dynamic_formulas_fill_cells(rt: HostRuntime) -> Result<(), Fail> {
    let alloc = rt.alloc();
    let calls = Cell::new(2);
    let fails = Cell::new(false);
    let model = opened(alloc, dynamic_book(alloc)?, &calls, &fails)?;
    Ok(run_counted(&rt, alloc, Counted::DynamicFormula, model, &calls, &fails)?)
}
