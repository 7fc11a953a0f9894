ghost use Rattle.std.specs.Prelude.{◌≡◌, ◌≢◌, ◌||◌, length, true, Ok, Err, [], ◌∷◌, pos, take, int_lt, nat_lt, IfOk, IfErr, IfNone, IfSome, IsOk, IsTrue, OnOk, OnErr, IsOkUnless};
ghost use Rattle.std.specs.Ordering.{int_eq};
ghost use Rattle.base_values.specs.Answers.{Returns, Changes, Edits, map_ok};
ghost use Rattle.base_values.specs.declared.EditError.TheVariants.{NoMemory};
ghost use Rattle.sheet_rules.specs.WellFormed.{IsWellFormed};
ghost use Rattle.sheet_actions.specs.Planned.{lines_planned};
ghost use Rattle.sheet_history.specs.Diffs.{IsCanonicalDiff, IsCanonicalList, IsCanonicalQueue, book_after, of_entry};
ghost use Rattle.sheet_history.specs.Stacks.{undone, redone};
ghost use Rattle.sheet_history.specs.LineDiffs.{along_of};
ghost use Rattle.sheet_history.specs.declared.Diff.TheVariants.{Lines as LinesDiff};
ghost use Rattle.sheet_history.specs.declared.DiffType.TheVariants.{Redo};
ghost use Rattle.sheet_wire.specs.QueueBytes.{IsKnownDiff};
ghost use Rattle.edit_plans.specs.Edits.{Edit as AnyEdit, grown_move, is_silent as is_silent_edit};
ghost use Rattle.edit_plans.specs.HiddenLines.{grown};
ghost use Rattle.edit_plans.specs.Edits.Edit.{Lines, MoveLines};
ghost use Rattle.open_book.specs.Document.{recorded, sending, stale_after};
ghost use Rattle.open_book.specs.Far.{is_far};
ghost use Rattle.open_book.specs.Encodable.{AreEncodable};

use crate::install::{install, install_viewed, values_of};
use crate::recalc::{Recalc, Results};
use base_axis::Axis;
use base_shared::Shared;
use base_tables::Language;
use base_values::{EditError, Items, copy_of};
use edit_plans::grown_delta;
use line_map::{EditKind, LineEdit};
use sheet_actions::{plan_delete, plan_insert, plan_move};
use sheet_grid::{DefaultStyle, Workbook, Worksheet};
use sheet_history::{Diff, DiffList, DiffType, History, LineAxis, QueueDiffs};
use sheet_ids::{View, viewed, viewed_id};
use sheet_lines::{KeptLines, line_edit};
use std::alloc::Global;

/// A workbook with the records of its steps, and with what other copies have not had yet.
#[derive(Drop)]
pub struct OpenBook {
    pub alloc: Global,
    /// The default style, shared by all cells that have it.
    pub default_style: DefaultStyle,
    pub workbook: Workbook,
    pub history: History,
    /// How many lists of either stack, the oldest, are of steps that are no longer recorded.
    pub stale_undo: usize,
    pub stale_redo: usize,
    pub queue: Items<QueueDiffs>,
    pub language: Language,
    pub view: View,
}

/// A record of one diff.
fn list_of(alloc: Global, diff: Diff) -> Result<DiffList, EditError>
    requires canonical { IsCanonicalDiff diff }
    requires known { IsKnownDiff diff }
    ensures output { Returns result (Ok (diff ∷ [])) }
    ensures canonical { IfOk result IsCanonicalList }
    ensures encodable { IfOk result AreEncodable }
{
    let mut list = Items::with_room(alloc, 1)?;
    list.push(diff)?;
    Ok(Shared::new(alloc, list)?)
}

/// The record of an edit of lines: the edit, and what taking it back does not give.
fn lines_change(
    alloc: Global,
    sheet: u32,
    axis: LineAxis,
    edit: EditKind,
    kept: KeptLines,
) -> Result<DiffList, EditError>
    requires canonical { IsCanonicalDiff (LinesDiff sheet axis edit kept) }
    requires known { IsKnownDiff (LinesDiff sheet axis edit kept) }
    ensures output { Returns result (Ok (LinesDiff sheet axis edit kept ∷ [])) }
    ensures canonical { IfOk result IsCanonicalList }
    ensures encodable { IfOk result AreEncodable }
{
    let kept = Shared::new(alloc, kept)?;
    list_of(
        alloc,
        Diff::Lines {
            sheet,
            axis,
            edit,
            kept,
        },
    )
}

/// The edit of the lines of the sheet at an index, and the id of that sheet. It takes no memory.
fn plan_lines<A: Axis>(
    workbook: &Workbook,
    sheet: u32,
    kind: EditKind,
) -> Result<(u32, LineEdit<A>), EditError>
    ensures planned { map_ok (λ plan. (plan.0, plan.1.kind)) result ≡ lines_planned A.along kind sheet workbook.now }
    ensures sure { result ≢ Err NoMemory }
{
    match kind {
        EditKind::Insert { first, count } => plan_insert(workbook, sheet, first, count),
        EditKind::Delete { first, count } => plan_delete(workbook, sheet, first, count),
        EditKind::Move {
            first,
            count,
            delta,
        } => plan_move(workbook, sheet, first, count, delta),
    }
}

/// A distance as an `i32`, if it is one.
fn distance(delta: i64) -> Option<i32>
    ensures near { IfSome result (λ small. small ≡ delta) }
    ensures far { IfNone result (IsTrue (is_far delta)) }
{
    if delta < -2_147_483_648 || 2_147_483_647 < delta {
        return None;
    }
    Some(delta as i32)
}

/// The move of lines of a sheet past the hidden ones in the way, if an `i32` has its distance.
fn grown_kind<A: Axis>(sheet: &Worksheet, first: i32, count: i32, delta: i32) -> Option<EditKind>
    ensures near { IfSome result (λ kind. kind ≡ grown_move A.along first count delta sheet.now) }
    ensures far { IfNone result (IsTrue (is_far (grown A.along sheet.now first count delta))) }
{
    match distance(grown_delta::<A>(sheet, first, count, delta)) {
        Some(delta) => Some(EditKind::Move {
            first,
            count,
            delta,
        }),
        None => None,
    }
}

/// Whether a move is of no lines, or by none.
fn is_silent(count: i32, delta: i32) -> bool
    ensures { result ≡ (int_eq delta (pos 0) || int_lt count (pos 1)) }
{
    delta == 0 || count < 1
}

/// How many lists of a stack are stale after an undo or a redo: once a stale one was used, all are.
fn stale_after(is_recorded: bool, before: usize, count: usize) -> usize
    ensures { result ≡ stale_after is_recorded before count }
{
    if is_recorded { before } else { count }
}

/// Makes room for one list more on either stack.
fn make_room(history: &mut History) -> Result<(), EditError>
    ensures room { OnOk result (IsTrue history.new.has_room) }
    ensures undo { history.new.undo ≡ history.old.undo }
    ensures redo { history.new.redo ≡ history.old.redo }
    ensures only { IsOkUnless result NoMemory }
{
    history.reserve()
}

/// Puts a list in the queue. It holds the record together with others.
fn enqueue(queue: &mut Items<QueueDiffs>, kind: DiffType, list: &DiffList) -> Result<(), EditError>
    ensures sent { OnOk result (queue.new ≡ sending kind list.now queue.old) }
    ensures queue { OnErr result (queue.new ≡ queue.old) }
    ensures only { IsOkUnless result NoMemory }
{
    queue.push(QueueDiffs {
        kind,
        list: copy_of(list)?,
    })?;
    Ok(())
}

/// Makes room for a list on the stacks, and puts it in the queue as one that was made.
fn send(
    history: &mut History,
    queue: &mut Items<QueueDiffs>,
    list: &DiffList,
) -> Result<(), EditError>
    ensures sent { OnOk result (queue.new ≡ sending Redo list.now queue.old) }
    ensures room { OnOk result (IsTrue history.new.has_room) }
    ensures queue { OnErr result (queue.new ≡ queue.old) }
    ensures undo { history.new.undo ≡ history.old.undo }
    ensures redo { history.new.redo ≡ history.old.redo }
    ensures only { IsOkUnless result NoMemory }
{
    make_room(history)?;
    enqueue(queue, DiffType::Redo, list)
}

/// Whether the newest list to undo is one of a step that is recorded.
fn has_undo_step(history: &History, stale: usize) -> bool
    ensures { result ≡ nat_lt stale (length history.now.undo) }
{
    stale < history.undo_len()
}

/// Whether the newest list to redo is one of a step that is recorded.
fn has_redo_step(history: &History, stale: usize) -> bool
    ensures { result ≡ nat_lt stale (length history.now.redo) }
{
    stale < history.redo_len()
}

/// Moves the newest list of the undo stack to the redo stack, where there is room for it, and counts
/// the stale lists of both anew.
fn undo_counted(
    history: &mut History,
    stale_undo: usize,
    stale_redo: usize,
    is_recorded: bool,
) -> (usize, usize)
    requires room { IsTrue history.now.has_room }
    ensures undo { history.new.undo ≡ (undone history.old).undo }
    ensures redo { history.new.redo ≡ (undone history.old).redo }
    ensures stale_undo { result.0 ≡ stale_after is_recorded stale_undo (length (undone history.old).undo) }
    ensures stale_redo { result.1 ≡ stale_after is_recorded stale_redo (length (undone history.old).redo) }
{
    match history.undo() {
        Ok(_) => (
            stale_after(is_recorded, stale_undo, history.undo_len()),
            stale_after(is_recorded, stale_redo, history.redo_len()),
        ),
        Err(_) => unreachable!(),
    }
}

/// Moves the newest list of the redo stack to the undo stack, where there is room for it, and counts
/// the stale lists of both anew.
fn redo_counted(
    history: &mut History,
    stale_undo: usize,
    stale_redo: usize,
    is_recorded: bool,
) -> (usize, usize)
    requires room { IsTrue history.now.has_room }
    ensures undo { history.new.undo ≡ (redone history.old).undo }
    ensures redo { history.new.redo ≡ (redone history.old).redo }
    ensures stale_undo { result.0 ≡ stale_after is_recorded stale_undo (length (redone history.old).undo) }
    ensures stale_redo { result.1 ≡ stale_after is_recorded stale_redo (length (redone history.old).redo) }
{
    match history.redo() {
        Ok(_) => (
            stale_after(is_recorded, stale_undo, history.undo_len()),
            stale_after(is_recorded, stale_redo, history.redo_len()),
        ),
        Err(_) => unreachable!(),
    }
}

/// A refusal that names the entry that it comes from.
fn of_entry(at: u64, error: EditError) -> EditError
    ensures { result ≡ of_entry at error }
{
    match error {
        EditError::DiffRefused { entry: _, diff } => EditError::DiffRefused { entry: at, diff },
        other => other,
    }
}

impl OpenBook {
    ghost use Rattle.sheet_history.specs.Records.{IsLineEdit, line_record};
    ghost use Rattle.open_book.specs.Document.{document, list_recorded, lines_recorded, document_edit, document_undo, document_redo, document_received};
    ghost use Rattle.open_book.specs.Opened.{document_in, session_of};
    ghost use Rattle.open_book.specs.Sound.{IsSoundChange};
    ghost use Rattle.open_book.specs.Machine.{State, begun};
    ghost use Rattle.open_book.specs.Stands.{IsAnySeenPlan, IsReached, IsSeenPlan, Leaves, StandsFor};
    ghost use Rattle.open_book.specs.Values.{AreMade, IsMade, LeavesMade, Makes, is_none_left};

    /// A workbook with nothing to undo and nothing to send.
    pub fn new(alloc: Global, workbook: Workbook, language: Language) -> Result<OpenBook, EditError>
        ensures document { IfOk result (λ book. document_in book ≡ document (begun language workbook)) }
        ensures only { IsOkUnless result NoMemory }
    {
        Ok(OpenBook {
            alloc,
            default_style: DefaultStyle::new(alloc)?,
            workbook,
            history: History::new(alloc),
            stale_undo: 0,
            stale_redo: 0,
            queue: Items::empty(alloc),
            language,
            view: View::first(),
        })
    }

    /// Makes the changes of a list in the workbook, selects the sheet at an index, and puts the list
    /// on the undo stack and in the queue. `seen` is the view that is asked for of the sheet that was
    /// viewed. The list is known not to be refused. An error changes nothing.
    fn apply<R: Recalc>(
        &mut self,
        results: &mut Results,
        recalc: &mut R,
        list: DiffList,
        selected: usize,
        seen: View,
    ) -> Result<(), EditError>
        requires canonical { IsCanonicalList list }
        requires rules { IsWellFormed self.now.workbook }
        requires works { IsOk (book_after self.now.workbook list) }
        ensures document { Edits result (document_in self.old) (document_in self.new) (list_recorded list selected seen (document_in self.old)) }
        ensures output { OnOk result (AreMade R.Fits results.new.paused self.new.workbook results.new.values) }
        ensures err { OnErr result (results.new ≡ results.old) }
        ensures paused { results.new.paused ≡ results.old.paused }
        ensures only { IsOkUnless result NoMemory }
    {
        let length = self.queue.len();
        let was = viewed_id(self.workbook.worksheets(), seen);
        send(&mut self.history, &mut self.queue, &list)?;
        if let Err(error) = install(
            self.alloc,
            &mut self.workbook,
            results,
            recalc,
            DiffType::Redo,
            &list,
            true,
        ) {
            self.queue.truncate(length);
            return Err(error);
        }
        self.view = viewed(was, self.workbook.worksheets(), selected, seen);
        self.stale_redo = 0;
        match self.history.push(list) {
            Ok(()) => Ok(()),
            Err(_) => unreachable!(),
        }
    }

    /// Makes what the plan of an edit says, and records it, or refuses as the plan does: then nobody is
    /// asked for values. The edit selects the sheet at an index, and asks for a view of the sheet that
    /// was viewed.
    pub fn make<R: Recalc>(
        &mut self,
        results: &mut Results,
        recalc: &mut R,
        plan: Result<DiffList, EditError>,
        selected: usize,
        seen: View,
    ) -> Result<(), EditError>
        requires plan { IsAnySeenPlan plan selected seen (document_in self.now) }
        requires rules { IsWellFormed self.now.workbook }
        ensures document { (edit : AnyEdit) → IsSeenPlan edit plan selected seen (document_in self.old) → Changes result (document_in self.old) (document_in self.new) (document_edit edit (document_in self.old)) }
        ensures sound { (edit : AnyEdit) → IsSeenPlan edit plan selected seen (document_in self.old) → OnOk result (IsSoundChange edit self.old.workbook) }
        ensures output { OnOk result (IsMade R.Fits (session_of self.new results.new)) }
        ensures err { OnErr result (results.new ≡ results.old) }
        ensures paused { results.new.paused ≡ results.old.paused }
        ensures unasked { IfErr result (λ error. error ≢ NoMemory → recalc.new ≡ recalc.old) }
    {
        let list = plan?;
        self.apply(results, recalc, list, selected, seen)
    }

    /// Puts a workbook in place of this one, with its values, where the same index is selected, and
    /// the record of what leads there on the undo stack and in the queue. `NoMemory` is the only
    /// error, and changes nothing.
    fn put_later<R: Recalc>(
        &mut self,
        results: &mut Results,
        recalc: &mut R,
        later: Workbook,
        list: DiffList,
    ) -> Result<(), EditError>
        requires { IsCanonicalList list }
        ensures document { Edits result (document_in self.old) (document_in self.new) (Ok (recorded list self.old.view.sheet self.old.view (document_in self.old) later)) }
        ensures output { OnOk result (IsMade R.Fits (session_of self.new results.new)) }
        ensures err { OnErr result (results.new ≡ results.old) }
        ensures paused { results.new.paused ≡ results.old.paused }
    {
        let values = values_of(self.alloc, &later, results.paused, recalc)?;
        send(&mut self.history, &mut self.queue, &list)?;
        results.values = values;
        let was = viewed_id(self.workbook.worksheets(), self.view);
        let selected = self.view.sheet as usize;
        self.view = viewed(was, later.worksheets(), selected, self.view);
        self.workbook = later;
        self.stale_redo = 0;
        match self.history.push(list) {
            Ok(()) => Ok(()),
            Err(_) => unreachable!(),
        }
    }

    /// Inserts lines in the sheet of an id, deletes them or moves them, and puts the record on the
    /// undo stack and in the queue. `NoMemory` is the only error.
    fn make_lines<R: Recalc, A: Axis>(
        &mut self,
        results: &mut Results,
        recalc: &mut R,
        axis: LineAxis,
        id: u32,
        edit: &LineEdit<A>,
    ) -> Result<(), EditError>
        requires along { A.along ≡ along_of axis }
        requires edit { IsLineEdit axis edit.now.kind id self.now.workbook }
        ensures document { Edits result (document_in self.old) (document_in self.new) (Ok (lines_recorded axis edit.now.kind id (document_in self.old))) }
        ensures encodable { OnOk result (AreEncodable (line_record axis edit.now.kind id self.old.workbook)) }
        ensures output { OnOk result (IsMade R.Fits (session_of self.new results.new)) }
        ensures err { OnErr result (results.new ≡ results.old) }
        ensures paused { results.new.paused ≡ results.old.paused }
        ensures only { IsOkUnless result NoMemory }
    {
        let (later, kept) = line_edit(self.alloc, &self.workbook, id, edit)?;
        let list = lines_change(self.alloc, id, axis, edit.kind, kept)?;
        self.put_later(results, recalc, later, list)
    }

    /// Inserts lines in the sheet at an index, deletes them or moves them, and puts the record on
    /// the undo stack and in the queue. The refusals are those of the plan; then nobody is asked for
    /// values.
    pub fn edit_lines<R: Recalc, A: Axis>(
        &mut self,
        results: &mut Results,
        recalc: &mut R,
        sheet: u32,
        axis: LineAxis,
        kind: EditKind,
    ) -> Result<(), EditError>
        requires along { A.along ≡ along_of axis }
        requires rules { IsWellFormed self.now.workbook }
        ensures document { Changes result (document_in self.old) (document_in self.new) (document_edit (Lines sheet axis kind) (document_in self.old)) }
        ensures sound { OnOk result (IsSoundChange (Lines sheet axis kind) self.old.workbook) }
        ensures output { OnOk result (IsMade R.Fits (session_of self.new results.new)) }
        ensures err { OnErr result (results.new ≡ results.old) }
        ensures paused { results.new.paused ≡ results.old.paused }
        ensures unasked { IfErr result (λ error. error ≢ NoMemory → recalc.new ≡ recalc.old) }
    {
        let (id, edit) = plan_lines::<A>(&self.workbook, sheet, kind)?;
        self.make_lines(results, recalc, axis, id, &edit)
    }

    /// Moves lines in the sheet at an index, past the hidden ones in the way, and puts the record on
    /// the undo stack and in the queue. It does nothing where none moves, or by none. The refusals are
    /// those of `UserModel::move_rows_action`.
    pub fn move_lines<R: Recalc, A: Axis>(
        &mut self,
        results: &mut Results,
        recalc: &mut R,
        sheet: u32,
        axis: LineAxis,
        first: i32,
        count: i32,
        delta: i32,
    ) -> Result<(), EditError>
        requires along { A.along ≡ along_of axis }
        requires rules { IsWellFormed self.now.workbook }
        ensures document { Changes result (document_in self.old) (document_in self.new) (document_edit (MoveLines sheet axis first count delta) (document_in self.old)) }
        ensures sound { OnOk result (IsSoundChange (MoveLines sheet axis first count delta) self.old.workbook) }
        ensures output { OnOk result (Makes (is_silent_edit (MoveLines sheet axis first count delta) self.old.workbook) R.Fits (session_of self.old results.old) (session_of self.new results.new)) }
        ensures err { OnErr result (results.new ≡ results.old) }
        ensures paused { results.new.paused ≡ results.old.paused }
        ensures unasked { IfErr result (λ error. error ≢ NoMemory → recalc.new ≡ recalc.old) }
    {
        if is_silent(count, delta) {
            return Ok(());
        }
        let found = self.workbook.worksheet(sheet)?;
        match grown_kind::<A>(found, first, count, delta) {
            Some(kind) => self.edit_lines::<R, A>(results, recalc, sheet, axis, kind),
            None => Err(EditError::TargetOutOfBounds),
        }
    }

    /// Takes the newest list of the undo stack back in the workbook, and sends it. A stale list may be
    /// refused.
    pub fn undo<R: Recalc>(
        &mut self,
        results: &mut Results,
        recalc: &mut R,
    ) -> Result<(), EditError>
        requires { IsReached (document_in self.now) }
        ensures document { Edits result (document_in self.old) (document_in self.new) (document_undo (document_in self.old)) }
        ensures output { OnOk result (Makes (is_none_left self.old.history.undo) R.Fits (session_of self.old results.old) (session_of self.new results.new)) }
        ensures err { OnErr result (results.new ≡ results.old) }
        ensures paused { results.new.paused ≡ results.old.paused }
    {
        let is_recorded = has_undo_step(&self.history, self.stale_undo);
        make_room(&mut self.history)?;
        let Some(list) = self.history.last_undo() else {
            return Ok(());
        };
        let length = self.queue.len();
        enqueue(&mut self.queue, DiffType::Undo, list)?;
        if let Err(error) = install_viewed(
            self.alloc,
            &mut self.workbook,
            &mut self.view,
            results,
            recalc,
            DiffType::Undo,
            list,
            is_recorded,
        ) {
            self.queue.truncate(length);
            return Err(error);
        }
        let counts = undo_counted(
            &mut self.history,
            self.stale_undo,
            self.stale_redo,
            is_recorded,
        );
        self.stale_undo = counts.0;
        self.stale_redo = counts.1;
        Ok(())
    }

    /// Makes the changes of the newest list of the redo stack again, and sends it. A stale list may
    /// be refused.
    pub fn redo<R: Recalc>(
        &mut self,
        results: &mut Results,
        recalc: &mut R,
    ) -> Result<(), EditError>
        requires { IsReached (document_in self.now) }
        ensures document { Edits result (document_in self.old) (document_in self.new) (document_redo (document_in self.old)) }
        ensures output { OnOk result (Makes (is_none_left self.old.history.redo) R.Fits (session_of self.old results.old) (session_of self.new results.new)) }
        ensures err { OnErr result (results.new ≡ results.old) }
        ensures paused { results.new.paused ≡ results.old.paused }
    {
        let is_recorded = has_redo_step(&self.history, self.stale_redo);
        make_room(&mut self.history)?;
        let Some(list) = self.history.last_redo() else {
            return Ok(());
        };
        let length = self.queue.len();
        enqueue(&mut self.queue, DiffType::Redo, list)?;
        if let Err(error) = install_viewed(
            self.alloc,
            &mut self.workbook,
            &mut self.view,
            results,
            recalc,
            DiffType::Redo,
            list,
            is_recorded,
        ) {
            self.queue.truncate(length);
            return Err(error);
        }
        let counts = redo_counted(
            &mut self.history,
            self.stale_undo,
            self.stale_redo,
            is_recorded,
        );
        self.stale_undo = counts.0;
        self.stale_redo = counts.1;
        Ok(())
    }

    /// Follows the entry of a number of another copy's queue, and leaves the stacks and the queue. A
    /// refusal names the entry.
    fn receive<R: Recalc>(
        &mut self,
        results: &mut Results,
        recalc: &mut R,
        entry: &QueueDiffs,
        at: u64,
    ) -> Result<(), EditError>
        requires canonical { IsCanonicalList entry.now.list }
        requires rules { IsWellFormed self.now.workbook }
        ensures document { Edits result (document_in self.old) (document_in self.new) (document_received at entry.now (document_in self.old)) }
        ensures output { OnOk result (IsMade R.Fits (session_of self.new results.new)) }
        ensures err { OnErr result (results.new ≡ results.old) }
        ensures paused { results.new.paused ≡ results.old.paused }
    {
        if let Err(error) = install_viewed(
            self.alloc,
            &mut self.workbook,
            &mut self.view,
            results,
            recalc,
            entry.kind,
            &entry.list,
            false,
        ) {
            return Err(of_entry(at, error));
        }
        self.stale_undo = self.history.undo_len();
        self.stale_redo = self.history.redo_len();
        Ok(())
    }

    /// Follows the entries of another copy's queue one after another. Those before a refused one
    /// stand.
    pub fn receive_all<R: Recalc>(
        &mut self,
        results: &mut Results,
        recalc: &mut R,
        queue: &[QueueDiffs],
    ) -> Result<(), EditError>
        requires canonical { IsCanonicalQueue queue.now }
        requires reached { IsReached (document_in self.now) }
        ensures next { (state : State) → StandsFor (document_in self.old) state → Leaves result (document_in self.new) queue.now state }
        ensures output { LeavesMade result queue.now R.Fits (session_of self.old results.old) (session_of self.new results.new) }
        ensures paused { results.new.paused ≡ results.old.paused }
    {
        for (index, entry) in queue.iter().enumerate() {
            self.receive(results, recalc, entry, index as u64)?;
        }
        Ok(())
    }
}
