ghost use Rattle.std.specs.Prelude.{◌≡◌, true, false, None, Some, Ok, not, IfOk, IsTrue, OnOk, OnErr, IsOkUnless};
ghost use Rattle.std.specs.Prelude.{string_bytes};
ghost use Rattle.base_values.specs.Answers.{Edits, Returns, map_ok};
ghost use Rattle.base_axis.specs.Rectangles.{anchor_place};
ghost use Rattle.formula_tree.specs.Numbers.{has_canonical_numbers};
ghost use Rattle.cell_content.specs.declared.Content.TheVariants.{Array};
ghost use Rattle.cell_content.specs.Fitting.{fits_at};
ghost use Rattle.cell_content.specs.CanonicalContent.{IsCanonicalContent};
ghost use Rattle.base_values.specs.declared.EditError.TheVariants.{NoMemory};
ghost use Rattle.base_tables.specs.declared.Language.TheVariants.{En};
ghost use Rattle.sheet_rules.specs.WellFormed.{IsWellFormed};
ghost use Rattle.sheet_actions.specs.Shown.{book_of};
ghost use Rattle.edit_plans.specs.Edits.{Edit as AnyEdit};
ghost use Rattle.edit_plans.specs.Inputs.{IsInput};
ghost use Rattle.edit_plans.specs.Edits.Edit.{Input, ArrayInput, SetLink, Merge, Unmerge};
ghost use Rattle.user_model.specs.Beginning.{new_state};
ghost use Rattle.user_model.specs.Reading.{content_text, link_to, rectangle, rectangle_of};
ghost use Rattle.user_model.specs.Typing.{array_typed, text_typed};
ghost use Rattle.user_model.specs.Structure.{structure_at};
ghost use Rattle.open_book.specs.Machine.{State, begun, edit_of, undo_of, redo_of};
ghost use Rattle.open_book.specs.Stands.{StandsFor, IsReached, IsAnyPlan, IsPlanOf, IsSeenPlan, IsAnySeenPlan, Moves, OnStates, Opens, Steps, MovesOrNoMemory};
ghost use Rattle.open_book.specs.Values.{IsMade, Makes, is_none_left};

mod attributes;
mod cells;
mod fills;
mod lines;
mod names;
mod ranges;
mod rules;
mod settings;
mod sheets;
mod views;
mod wire;

use crate::reading::{
    content_text, find_array_place, find_input_place, find_place, link_to, read_at, read_tree_at,
    rectangle, rectangle_of,
};
use crate::structure::{CellArrayStructure, structure_at};
use base_axis::{Area, MergedCell};
use base_shared::Shared;
use base_tables::{Language, get_language, get_locale, get_zone};
use base_values::EditError;
use edit_plans::{plan_array, plan_input, plan_link, plan_merge, plan_unmerge};
use formula_tree::Node;
use line_sizes::line_feeds;
use open_book::{OpenBook, Recalc, Results};
use sheet_actions::Model as PlainModel;
use sheet_grid::{Content, Link, Workbook};
use sheet_history::DiffList;
use sheet_ids::View;
use std::alloc::Global;
use std::fmt;
use std::marker::Model;

/// A workbook as a user edits it: with undo, redo, a queue of what other copies have not had yet, and
/// computed values. It is one that the machine of whole workbooks reaches, so it is well-formed, and
/// each step can be taken back.
///
/// ```
/// let mut model = UserModel::new_empty(alloc, "budget", "en", "UTC", "en", ClearAll)?;
/// model.set_user_input(0, 1, 1, "=SUM(B1:B9)")?;
/// model.insert_rows(0, 3, 1)?;
/// model.undo()?;
/// let bytes = model.flush_send_queue()?;
/// ```
#[derive(Drop)]
pub struct UserModel<R> {
    book: OpenBook,
    results: Results,
    recalc: R,
}

impl<R> Model for UserModel<R> {
    ghost use Rattle.std.specs.Coded.{codes};
    ghost use Rattle.std.specs.FinMap as fin;
    ghost use Rattle.base_maps.specs.SheetPlaces.{coded_sheet_place};
    ghost use Rattle.formula_tree.specs.contracts.node.Node as node;
    ghost use Rattle.sheet_grid.specs.contracts.workbook.Workbook as workbook;
    ghost use Rattle.sheet_history.specs.contracts.diff.Diff as diff;
    ghost use Rattle.open_book.specs.Values.{Session};

    ghost Value = { Session };

    ghost coded = { Prim.hlevel (codes, coded_sheet_place, node.the_row.coded, workbook.the_row.coded, diff.the_row.coded, fin.code) };

    ghost use Rattle.open_book.specs.Opened.{document_in, session_of};
    ghost use Rattle.open_book.specs.Stands.{IsReached};

    ghost view = { λ model. session_of model.book model.results };

    ghost invariant = { λ model. IsReached (document_in model.book) };
}

/// Opens a workbook with nothing to undo, and makes its values.
fn open<R: Recalc + Drop>(
    alloc: Global,
    workbook: Workbook,
    language: Language,
    recalc: R,
) -> Result<UserModel<R>, EditError>
    requires rules { IsWellFormed workbook }
    ensures stands { IfOk result (λ model. StandsFor model.document (begun language workbook)) }
    ensures fits { IfOk result (λ model. R.Fits model.document.book model.values) }
    ensures paused { IfOk result (λ model. model.paused ≡ false) }
    ensures only { IsOkUnless result NoMemory }
{
    let mut recalc = recalc;
    let results = Results {
        values: recalc.compute(alloc, &workbook)?,
        paused: false,
    };
    let book = OpenBook::new(alloc, workbook, language)?;
    Ok(UserModel {
        book,
        results,
        recalc,
    })
}

impl<R> fmt::Debug for UserModel<R> {
    fn fmt<W: fmt::Write>(&self, f: &mut fmt::Formatter<W>) -> fmt::Result {
        f.write_str("UserModel")
    }
}

impl<R: Recalc + Drop> UserModel<R> {
    /// A new workbook with a name and one empty sheet, `Sheet1` of id 1, in a locale, a time zone and
    /// a display language that are given by their names. Its values are made.
    ///
    /// `LocaleName`, `ZoneName` and `LanguageName`, in this order, where there is none of that name,
    /// else `NoMemory` where there is not enough. docs/SCRIPT.md lists the names.
    ///
    /// ```
    /// let model = UserModel::new_empty(alloc, "budget", "de", "Europe/Berlin", "de", ClearAll)?;
    /// ```
    pub fn new_empty(
        alloc: Global,
        name: &str,
        locale: &str,
        zone: &str,
        language: &str,
        recalc: R,
    ) -> Result<UserModel<R>, EditError>
        ensures opens { Opens result (new_state name.now locale.now zone.now language.now) }
        ensures fits { IfOk result (λ model. R.Fits model.document.book model.values) }
        ensures paused { IfOk result (λ model. model.paused ≡ false) }
    {
        let locale = get_locale(locale)?;
        let zone = get_zone(zone)?;
        let language = get_language(language)?;
        let workbook = Workbook::new_empty(alloc, name, locale, zone)?;
        open(alloc, workbook, language, recalc)
    }

    /// A model of a plain model's workbook. Its display language is English, and its values are made.
    /// The only error is `NoMemory`.
    ///
    /// ```
    /// let model = UserModel::from_model(alloc, plain, ClearAll)?;
    /// ```
    pub fn from_model(
        alloc: Global,
        model: PlainModel,
        recalc: R,
    ) -> Result<UserModel<R>, EditError>
        ensures stands { IfOk result (λ opened. StandsFor opened.document (begun En (book_of model))) }
        ensures fits { IfOk result (λ opened. R.Fits opened.document.book opened.values) }
        ensures paused { IfOk result (λ opened. opened.paused ≡ false) }
        ensures only { IsOkUnless result NoMemory }
    {
        open(alloc, model.into_workbook(), Language::En, recalc)
    }

    /// The workbook as it is now. It takes no memory.
    ///
    /// ```
    /// let first = model.get_model().worksheet(0)?;
    /// ```
    pub fn get_model(&self) -> &Workbook
        ensures now { result.now ≡ self.now.document.book }
        ensures rules { IsWellFormed self.now.document.book }
        ensures reached { IsReached self.now.document }
    {
        &self.book.workbook
    }

    /// The name of the workbook. It takes no memory.
    ///
    /// ```
    /// let name = model.get_name();
    /// ```
    pub fn get_name(&self) -> &str
        ensures { result.now ≡ self.now.document.book.name }
    {
        self.book.workbook.name()
    }

    /// The text that the cell at a row and a column of the sheet at an index shows for editing. It is
    /// empty where there is no cell. A formula is printed without parentheses that it does not need.
    /// docs/SCRIPT.md says which contents the text reads back as.
    ///
    /// `InvalidSheet` where there is no such sheet, else `InvalidRow` where the row is outside the
    /// sheet, else `InvalidColumn` where the column is, else `NoMemory` where there is not enough.
    ///
    /// ```
    /// let text = model.get_cell_content(0, 2, 2)?;
    /// ```
    pub fn get_cell_content(&self, sheet: u32, row: i32, column: i32) -> Result<String, EditError>
        ensures { Returns (map_ok string_bytes result) (content_text sheet row column self.now.document.book self.now.document.language) }
    {
        let book = &self.book;
        content_text(
            book.alloc,
            &book.workbook,
            book.language,
            sheet,
            row,
            column,
        )
    }

    /// How the cell at a row and a column of the sheet at an index stands to the arrays of the sheet.
    /// Entered arrays come before dynamic formulas, and of either the first by position; a dynamic
    /// formula without a computed value fills one cell. It takes no memory.
    ///
    /// `InvalidSheet` where there is no such sheet, else `InvalidRow` where the row is outside the
    /// sheet, else `InvalidColumn` where the column is.
    ///
    /// ```
    /// let is_alone = model.get_cell_array_structure(0, 1, 1)? == CellArrayStructure::SingleCell;
    /// ```
    pub fn get_cell_array_structure(
        &self,
        sheet: u32,
        row: i32,
        column: i32,
    ) -> Result<CellArrayStructure, EditError>
        ensures { result ≡ structure_at sheet row column self.now.values self.now.document.book }
    {
        structure_at(
            &self.results.values,
            &self.book.workbook,
            sheet,
            row,
            column,
        )
    }

    /// Whether there is something to take back. It takes no memory.
    ///
    /// ```
    /// if model.can_undo() {
    ///     model.undo()?;
    /// }
    /// ```
    pub fn can_undo(&self) -> bool
        ensures { result ≡ not (is_none_left self.now.document.undo) }
    {
        self.book.history.last_undo().is_some()
    }

    /// Whether there is something to make again. It takes no memory.
    ///
    /// ```
    /// if model.can_redo() {
    ///     model.redo()?;
    /// }
    /// ```
    pub fn can_redo(&self) -> bool
        ensures { result ≡ not (is_none_left self.now.document.redo) }
    {
        self.book.history.last_redo().is_some()
    }

    /// From now on computed values wait: a change leaves none. It takes no memory.
    ///
    /// ```
    /// model.pause_evaluation();
    /// model.set_user_input(0, 1, 1, "3")?;
    /// model.resume_evaluation();
    /// model.evaluate()?;
    /// ```
    pub fn pause_evaluation(&mut self)
        ensures { self.new ≡ record self.old { paused = true } }
    {
        self.results.paused = true;
    }

    /// From now on values are made with each change. It computes nothing itself, and takes no memory.
    ///
    /// ```
    /// model.resume_evaluation();
    /// model.evaluate()?;
    /// ```
    pub fn resume_evaluation(&mut self)
        ensures { self.new ≡ record self.old { paused = false } }
    {
        self.results.paused = false;
    }

    /// Makes the values of the workbook, also while they wait. The only error is `NoMemory`, and
    /// nothing has changed then.
    ///
    /// ```
    /// model.evaluate()?;
    /// ```
    pub fn evaluate(&mut self) -> Result<(), EditError>
        ensures document { self.new.document ≡ self.old.document }
        ensures fits { OnOk result (R.Fits self.new.document.book self.new.values) }
        ensures only { IsOkUnless result NoMemory }
        ensures err { OnErr result (self.new ≡ self.old) }
        ensures paused { self.new.paused ≡ self.old.paused }
    {
        let values = self.recalc.compute(self.book.alloc, &self.book.workbook)?;
        self.results.values = values;
        Ok(())
    }

    /// Makes what a plan says, selects the sheet at an index, and records the edit, or refuses as the
    /// plan does.
    fn make(&mut self, plan: Result<DiffList, EditError>, selected: usize) -> Result<(), EditError>
        requires { IsAnyPlan plan selected self.now.document }
        ensures next { (edit : AnyEdit) (state : State) → IsPlanOf edit plan selected self.old.document → StandsFor self.old.document state → Moves result self.new.document (edit_of edit state) }
        ensures output { OnOk result (IsMade R.Fits self.new) }
        ensures err { OnErr result (self.new ≡ self.old) }
        ensures paused { self.new.paused ≡ self.old.paused }
    {
        let seen = self.book.view;
        self.make_seen(plan, selected, seen)
    }

    /// The same where the edit asks for another view of the sheet that was viewed.
    fn make_seen(
        &mut self,
        plan: Result<DiffList, EditError>,
        selected: usize,
        seen: View,
    ) -> Result<(), EditError>
        requires { IsAnySeenPlan plan selected seen self.now.document }
        ensures next { (edit : AnyEdit) (state : State) → IsSeenPlan edit plan selected seen self.old.document → StandsFor self.old.document state → Moves result self.new.document (edit_of edit state) }
        ensures output { OnOk result (IsMade R.Fits self.new) }
        ensures err { OnErr result (self.new ≡ self.old) }
        ensures paused { self.new.paused ≡ self.old.paused }
    {
        self.book
            .make(&mut self.results, &mut self.recalc, plan, selected, seen)
    }

    /// Puts a content, whose text has so many line feeds, at a row and a column of the sheet at an index,
    /// and records the change.
    fn set_content(
        &mut self,
        sheet: u32,
        row: i32,
        column: i32,
        content: Content,
        feeds: u64,
    ) -> Result<(), EditError>
        requires canonical { IsCanonicalContent content }
        requires input { IsInput row column content }
        ensures next { Steps result self.old.document self.new.document (edit_of (Input sheet row column content feeds)) }
        ensures output { OnOk result (IsMade R.Fits self.new) }
        ensures err { OnErr result (self.new ≡ self.old) }
        ensures paused { self.new.paused ≡ self.old.paused }
    {
        let book = &self.book;
        let plan = plan_input(
            book.alloc,
            &book.default_style,
            &book.workbook,
            sheet,
            row,
            column,
            content,
            feeds,
        );
        let selected = book.view.sheet as usize;
        self.make(plan, selected)
    }

    /// Reads a text as a user types it into the cell at a row and a column of the sheet at an index,
    /// in the workbook's locale and the display language, and records the change. Sheets are counted
    /// from 0, rows and columns from 1. What follows `=` is a formula, what follows `'` a text; a text
    /// that is no formula is kept as it is. The cell keeps its style; a new one has the style that its
    /// place showed. An empty text takes the content and the link away, and makes no cell. The row becomes
    /// as high as the lines of the text ask for in the size of that font, if it is less high; docs/MODEL.md
    /// has the rule.
    ///
    /// `InvalidSheet` where there is no such sheet, else `InvalidRow` where the row is outside the
    /// sheet, else `InvalidColumn` where the column is, else `CoveredCell` where a merge covers the
    /// cell, else `ArrayCell` where an array of more than one cell holds it, else `NoMemory` where
    /// there is not enough. An error changes nothing.
    ///
    /// ```
    /// model.set_user_input(0, 1, 1, "Rent")?;
    /// model.set_user_input(0, 1, 2, "1250.50")?;
    /// model.set_user_input(0, 2, 2, "=B1*12")?;
    /// ```
    pub fn set_user_input(
        &mut self,
        sheet: u32,
        row: i32,
        column: i32,
        value: &str,
    ) -> Result<(), EditError>
        ensures next { Steps result self.old.document self.new.document (text_typed sheet row column value.now) }
        ensures output { OnOk result (IsMade R.Fits self.new) }
        ensures err { OnErr result (self.new ≡ self.old) }
        ensures paused { self.new.paused ≡ self.old.paused }
    {
        let book = &self.book;
        let place = find_input_place(&book.workbook, sheet, row, column)?;
        let content = read_at(
            book.alloc,
            place,
            value,
            book.workbook.locale(),
            book.language,
        )?;
        self.set_content(sheet, row, column, content, line_feeds(value))
    }

    /// Puts an array formula in a rectangle of the sheet at an index.
    fn set_array(
        &mut self,
        sheet: u32,
        area: MergedCell,
        tree: Shared<Node>,
    ) -> Result<(), EditError>
        requires canonical { IsTrue (has_canonical_numbers tree) }
        requires fits { IsTrue (fits_at (anchor_place area) (Array tree area.width area.height)) }
        ensures next { Steps result self.old.document self.new.document (edit_of (ArrayInput sheet area tree)) }
        ensures output { OnOk result (IsMade R.Fits self.new) }
        ensures err { OnErr result (self.new ≡ self.old) }
        ensures paused { self.new.paused ≡ self.old.paused }
    {
        let book = &self.book;
        let plan = plan_array(
            book.alloc,
            &book.default_style,
            &book.workbook,
            sheet,
            area,
            tree,
        );
        let selected = book.view.sheet as usize;
        self.make(plan, selected)
    }

    /// Reads a text as an array formula, with or without its `=`, whose values fill a rectangle, and
    /// records the change. The rectangle is given by the row and the column of its first cell and by
    /// how many columns wide and rows high it is. The first cell keeps its style, or has the one that
    /// its place showed; the other cells lose their contents, and links stay.
    ///
    /// `InvalidSheet` where there is no such sheet, else `InvalidRow` where the row is outside the
    /// sheet, else `InvalidColumn` where the column is, else `InvalidArea` where the rectangle is
    /// empty or reaches outside, else `CoveredCell` where a merge meets it, or covers it where it is
    /// one cell, else `ArrayCell` where an array of more than one cell meets it, else `NoMemory` where
    /// there is not enough. An error changes nothing.
    ///
    /// ```
    /// model.set_user_array_formula(0, 1, 4, 1, 3, "=A1:A3*B1:B3")?;
    /// ```
    pub fn set_user_array_formula(
        &mut self,
        sheet: u32,
        row: i32,
        column: i32,
        width: i32,
        height: i32,
        formula: &str,
    ) -> Result<(), EditError>
        ensures next { Steps result self.old.document self.new.document (array_typed sheet (rectangle row column width height) formula.now) }
        ensures output { OnOk result (IsMade R.Fits self.new) }
        ensures err { OnErr result (self.new ≡ self.old) }
        ensures paused { self.new.paused ≡ self.old.paused }
    {
        let book = &self.book;
        let area = rectangle(row, column, width, height);
        let place = find_array_place(&book.workbook, sheet, area)?;
        let tree = read_tree_at(
            book.alloc,
            place,
            formula,
            book.workbook.locale(),
            book.language,
        )?;
        self.set_array(sheet, area, tree)
    }

    /// Puts a link at a row and a column of the sheet at an index, or takes the one there away, and
    /// records the change.
    fn put_link(
        &mut self,
        sheet: u32,
        row: i32,
        column: i32,
        link: Option<Link>,
    ) -> Result<(), EditError>
        ensures next { Steps result self.old.document self.new.document (edit_of (SetLink sheet row column link)) }
        ensures output { OnOk result (IsMade R.Fits self.new) }
        ensures err { OnErr result (self.new ≡ self.old) }
        ensures paused { self.new.paused ≡ self.old.paused }
    {
        let book = &self.book;
        let plan = plan_link(book.alloc, &book.workbook, sheet, row, column, link);
        let selected = book.view.sheet as usize;
        self.make(plan, selected)
    }

    /// Puts a link to a target at a row and a column of the sheet at an index, counted from 0, and
    /// records the change. Rows and columns are counted from 1.
    ///
    /// `InvalidSheet` where there is no such sheet, else `InvalidRow` where the row is outside the
    /// sheet, else `InvalidColumn` where the column is, else `NoMemory` where there is not enough. An
    /// error changes nothing.
    ///
    /// ```
    /// model.set_cell_link(0, 1, 1, "https://example.org/rent")?;
    /// ```
    pub fn set_cell_link(
        &mut self,
        sheet: u32,
        row: i32,
        column: i32,
        target: &str,
    ) -> Result<(), EditError>
        ensures next { Steps result self.old.document self.new.document (edit_of (SetLink sheet row column (Some (link_to target.now)))) }
        ensures output { OnOk result (IsMade R.Fits self.new) }
        ensures err { OnErr result (self.new ≡ self.old) }
        ensures paused { self.new.paused ≡ self.old.paused }
    {
        let book = &self.book;
        let _place = find_place(&book.workbook, sheet, row, column)?;
        let link = link_to(book.alloc, target)?;
        self.put_link(sheet, row, column, Some(link))
    }

    /// Takes the link at a row and a column of the sheet at an index away, and records the change.
    /// Where there is none nothing else is changed. The errors are those of `set_cell_link`.
    ///
    /// ```
    /// model.delete_cell_link(0, 1, 1)?;
    /// ```
    pub fn delete_cell_link(&mut self, sheet: u32, row: i32, column: i32) -> Result<(), EditError>
        ensures next { Steps result self.old.document self.new.document (edit_of (SetLink sheet row column None)) }
        ensures output { OnOk result (IsMade R.Fits self.new) }
        ensures err { OnErr result (self.new ≡ self.old) }
        ensures paused { self.new.paused ≡ self.old.paused }
    {
        self.put_link(sheet, row, column, None)
    }

    /// Merges the cells of a rectangle of a sheet, and records the change. The cells that the merge
    /// covers lose their contents.
    ///
    /// `InvalidSheet` where there is no such sheet, else `InvalidArea` where the rectangle has fewer
    /// than two cells or reaches outside the sheet, else `MergeOverlap` where it meets a merge, else
    /// `ArrayCell` where it meets an array of more than one cell, else `NoMemory` where there is not
    /// enough. An error changes nothing.
    ///
    /// ```
    /// model.merge_cells(&Area { sheet: 0, row: 1, column: 1, width: 3, height: 1 })?;
    /// ```
    pub fn merge_cells(&mut self, area: &Area) -> Result<(), EditError>
        ensures next { Steps result self.old.document self.new.document (edit_of (Merge area.now.sheet (rectangle_of area.now))) }
        ensures output { OnOk result (IsMade R.Fits self.new) }
        ensures err { OnErr result (self.new ≡ self.old) }
        ensures paused { self.new.paused ≡ self.old.paused }
    {
        self.merge(area.sheet, rectangle_of(area))
    }

    /// Merges the cells of a rectangle of the sheet at an index.
    fn merge(&mut self, sheet: u32, area: MergedCell) -> Result<(), EditError>
        ensures next { Steps result self.old.document self.new.document (edit_of (Merge sheet area)) }
        ensures output { OnOk result (IsMade R.Fits self.new) }
        ensures err { OnErr result (self.new ≡ self.old) }
        ensures paused { self.new.paused ≡ self.old.paused }
    {
        let book = &self.book;
        let plan = plan_merge(book.alloc, &book.workbook, sheet, area);
        let selected = book.view.sheet as usize;
        self.make(plan, selected)
    }

    /// Dissolves the merge that holds a row and a column of the sheet at an index, and records the
    /// change.
    ///
    /// `InvalidSheet` where there is no such sheet, else `InvalidRow` where the row is outside the
    /// sheet, else `InvalidColumn` where the column is, else `NoMerge` where no merge holds the cell,
    /// else `NoMemory` where there is not enough. An error changes nothing.
    ///
    /// ```
    /// model.unmerge_cells(0, 1, 2)?;
    /// ```
    pub fn unmerge_cells(&mut self, sheet: u32, row: i32, column: i32) -> Result<(), EditError>
        ensures next { Steps result self.old.document self.new.document (edit_of (Unmerge sheet row column)) }
        ensures output { OnOk result (IsMade R.Fits self.new) }
        ensures err { OnErr result (self.new ≡ self.old) }
        ensures paused { self.new.paused ≡ self.old.paused }
    {
        let book = &self.book;
        let plan = plan_unmerge(book.alloc, &book.workbook, sheet, row, column);
        let selected = book.view.sheet as usize;
        self.make(plan, selected)
    }

    /// Takes the newest step back. Without one nothing is done.
    ///
    /// `DiffRefused` where the record is stale (another copy's entries came after it) and no longer
    /// fits the workbook, else `NoMemory` where there is not enough. An error changes nothing.
    ///
    /// ```
    /// model.set_user_input(0, 1, 1, "3")?;
    /// model.undo()?;
    /// model.redo()?;
    /// ```
    pub fn undo(&mut self) -> Result<(), EditError>
        ensures next { OnStates self.old.document (λ state. MovesOrNoMemory result self.new.document (undo_of state)) }
        ensures output { OnOk result (Makes (is_none_left self.old.document.undo) R.Fits self.old self.new) }
        ensures err { OnErr result (self.new ≡ self.old) }
        ensures paused { self.new.paused ≡ self.old.paused }
    {
        self.book.undo(&mut self.results, &mut self.recalc)
    }

    /// Makes the newest undone step again. Without one nothing is done. The errors are those of
    /// `undo`, and change nothing.
    ///
    /// ```
    /// model.undo()?;
    /// model.redo()?;
    /// ```
    pub fn redo(&mut self) -> Result<(), EditError>
        ensures next { OnStates self.old.document (λ state. MovesOrNoMemory result self.new.document (redo_of state)) }
        ensures output { OnOk result (Makes (is_none_left self.old.document.redo) R.Fits self.old self.new) }
        ensures err { OnErr result (self.new ≡ self.old) }
        ensures paused { self.new.paused ≡ self.old.paused }
    {
        self.book.redo(&mut self.results, &mut self.recalc)
    }
}
