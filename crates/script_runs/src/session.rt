ghost use Rattle.std.specs.Prelude.{◌≡◌, ◌≢◌, ◌++◌, ◌+◌, ◌-◌, ◌^◌, ◌<◌, ◌≤◌, [], true, string_bytes, OnOk, OnErr, IfOk, IfErr, IsOkUnless};
ghost use Rattle.base_values.specs.Answers.{map_ok};
ghost use Rattle.base_values.specs.declared.EditError.TheVariants.{NoMemory};
ghost use Rattle.formula_tree.specs.Numbers as tree;
ghost use Rattle.format_rules.specs.Canonical.{has_canonical_numbers};
ghost use Rattle.script_runs.specs.Script.{refusal, outcome, plain_rule, reply_text, rule_typed, value_reply, start};
ghost use Rattle.script_runs.specs.Script.Reply.{Sent, Value};
ghost use Rattle.user_model.specs.Reading.{rectangle_of};
ghost use Rattle.open_book.specs.Stands.{OnStates, StandsFor, MovesOrNoMemory};

use crate::tally::{Tally, byte_at, push_made};
use base_axis::Area;
use base_shared::Shared;
use base_styles::{Style, Theme};
use base_values::EditError;
use format_rules::CfRule;
use formula_tree::Node;
use script_dump::{push_dump, push_hex, push_line};
use script_lines::{
    Command, NamedArea, NamedCell, NamedColor, NamedCount, NamedFill, NamedGrid, NamedLines,
    NamedMove, NamedRule, NamedRun, NamedSheetMove, NamedSize, NamedSpan, NamedSwap, drawn_command,
    push_escaped, read_command, split_first, without_return,
};
use std::alloc::Global;
use user_model::{ClearAll, UserModel};

/// A script's model, its second copy, which has the bytes of `sync` alone, and its answers so far.
#[derive(Drop)]
pub(crate) struct Session {
    pub(crate) alloc: Global,
    pub(crate) model: UserModel<ClearAll>,
    pub(crate) copy: UserModel<ClearAll>,
    pub(crate) out: Vec<u8>,
}

fn push_refusal(out: &mut Vec<u8>, error: EditError) -> Result<(), EditError>
    ensures text { OnOk result (out.new.items ≡ out.old.items ++ refusal error) }
    ensures memory { OnOk result (error ≢ NoMemory) }
    ensures only { IsOkUnless result NoMemory }
{
    if let EditError::NoMemory = error {
        return Err(EditError::NoMemory);
    }
    out.extend_from_slice(b"error ")?;
    push_line(out, error.name().as_bytes())?;
    Ok(())
}

/// Writes the answer to an edit. Being out of memory has none.
fn push_outcome(out: &mut Vec<u8>, done: Result<(), EditError>) -> Result<(), EditError>
    ensures text { OnOk result (out.new.items ≡ out.old.items ++ reply_text (outcome done)) }
    ensures memory { OnOk result (IfErr done (λ error. error ≢ NoMemory)) }
    ensures only { IsOkUnless result NoMemory }
{
    match done {
        Ok(()) => {
            push_line(out, b"ok")?;
            Ok(())
        }
        Err(error) => push_refusal(out, error),
    }
}

/// Writes the text of a content.
fn push_value(out: &mut Vec<u8>, text: &str) -> Result<(), EditError>
    ensures text { OnOk result (out.new.items ≡ out.old.items ++ reply_text (Value text.now)) }
    ensures only { IsOkUnless result NoMemory }
{
    out.extend_from_slice(b"value ")?;
    push_escaped(out, text.as_bytes())?;
    out.push(b'\n')?;
    Ok(())
}

/// Writes the answer to a question for a content. Being out of memory has none.
fn push_got(out: &mut Vec<u8>, found: Result<String, EditError>) -> Result<(), EditError>
    ensures text { OnOk result (out.new.items ≡ out.old.items ++ reply_text (value_reply (map_ok string_bytes found))) }
    ensures memory { OnOk result (IfErr found (λ error. error ≢ NoMemory)) }
    ensures only { IsOkUnless result NoMemory }
{
    match found {
        Ok(text) => push_value(out, text.as_str()),
        Err(error) => push_refusal(out, error),
    }
}

/// Writes the answer to a sync.
fn push_sync(out: &mut Vec<u8>, bytes: &[u8]) -> Result<(), EditError>
    ensures text { OnOk result (out.new.items ≡ out.old.items ++ reply_text (Sent bytes.now)) }
    ensures only { IsOkUnless result NoMemory }
{
    out.extend_from_slice(b"sync ")?;
    push_hex(out, bytes)?;
    out.push(b'\n')?;
    Ok(())
}

/// The area that a line names.
fn area_of(named: NamedArea) -> Area
    ensures sheet { result.sheet ≡ named.sheet }
    ensures rectangle { rectangle_of result ≡ named.area }
{
    Area {
        sheet: named.sheet,
        row: named.area.row,
        column: named.area.column,
        width: named.area.width,
        height: named.area.height,
    }
}

/// The area that a line fills from.
fn fill_source(named: NamedFill) -> Area
    ensures sheet { result.sheet ≡ named.sheet }
    ensures rectangle { rectangle_of result ≡ named.area }
{
    area_of(NamedArea {
        sheet: named.sheet,
        area: named.area,
    })
}

/// A rule that shows the default style where a formula holds, and stops no other rule.
fn plain_rule(alloc: Global, formula: Shared<Node>) -> Result<CfRule, EditError>
    requires { tree.has_canonical_numbers formula ≡ true }
    ensures value { IfOk result (λ rule. rule ≡ plain_rule formula) }
    ensures canonical { IfOk result (λ rule. has_canonical_numbers rule ≡ true) }
    ensures only { IsOkUnless result NoMemory }
{
    let style = Shared::new(alloc, Style::new(alloc)?)?;
    Ok(CfRule::Formula {
        formula,
        style,
        stop_if_true: false,
    })
}

/// Adds a rule of the formula that a text is read as, on the rectangle that a line names.
fn add_rule(
    alloc: Global,
    model: &mut UserModel<ClearAll>,
    named: NamedArea,
    text: &str,
) -> Result<(), EditError>
    ensures next { OnStates model.old.document (λ state. MovesOrNoMemory result model.new.document (rule_typed named text.now state)) }
    ensures err { OnErr result (model.new ≡ model.old) }
{
    let formula = model.read_rule_formula(named.sheet, named.area, text)?;
    let rule = plain_rule(alloc, formula)?;
    model.add_conditional_formatting(named.sheet, &[named.area], &rule)
}

/// A new workbook.
fn new_model(alloc: Global) -> Result<UserModel<ClearAll>, EditError>
    ensures stands { IfOk result (λ model. StandsFor model.document start) }
    ensures only { IsOkUnless result NoMemory }
{
    UserModel::new_empty(alloc, "workbook", "en", "UTC", "en", ClearAll)
}

impl Session {
    ghost use Rattle.script_lines.specs.Commands.{command_of};
    ghost use Rattle.script_lines.specs.declared.Command.TheVariants as command;
    ghost use Rattle.open_book.specs.Machine.{State};
    ghost use Rattle.script_runs.specs.Script.{line_reply, lines_of, commands_on, commands_of, replies, after};
    ghost use Rattle.script_runs.specs.Session.{SessionStands, HasNoStale, Runs, RunsPlain, RunsCommand, CountsCommand, SoundThrough};

    /// A new workbook, a second copy equal to it, and no answer yet.
    pub(crate) fn new(alloc: Global) -> Result<Session, EditError>
        ensures stands { IfOk result (λ session. SessionStands session start) }
        ensures out { IfOk result (λ session. session.out.items ≡ []) }
        ensures only { IsOkUnless result NoMemory }
    {
        Ok(Session {
            alloc,
            model: new_model(alloc)?,
            copy: new_model(alloc)?,
            out: Vec::new(alloc),
        })
    }

    fn set(&mut self, cell: NamedCell, text: &str) -> Result<(), EditError>
        ensures { RunsPlain (command.Set cell text.now) result self.old self.new }
    {
        let done = self
            .model
            .set_user_input(cell.sheet, cell.row, cell.column, text);
        push_outcome(&mut self.out, done)
    }

    fn array(&mut self, named: NamedArea, text: &str) -> Result<(), EditError>
        ensures { RunsPlain (command.Array named text.now) result self.old self.new }
    {
        let area = named.area;
        let done = self.model.set_user_array_formula(
            named.sheet,
            area.row,
            area.column,
            area.width,
            area.height,
            text,
        );
        push_outcome(&mut self.out, done)
    }

    fn get(&mut self, cell: NamedCell) -> Result<(), EditError>
        ensures { RunsPlain (command.Get cell) result self.old self.new }
    {
        let found = self
            .model
            .get_cell_content(cell.sheet, cell.row, cell.column);
        push_got(&mut self.out, found)
    }

    fn link(&mut self, cell: NamedCell, target: &str) -> Result<(), EditError>
        ensures { RunsPlain (command.Link cell target.now) result self.old self.new }
    {
        let done = self
            .model
            .set_cell_link(cell.sheet, cell.row, cell.column, target);
        push_outcome(&mut self.out, done)
    }

    fn unlink(&mut self, cell: NamedCell) -> Result<(), EditError>
        ensures { RunsPlain (command.Unlink cell) result self.old self.new }
    {
        let done = self
            .model
            .delete_cell_link(cell.sheet, cell.row, cell.column);
        push_outcome(&mut self.out, done)
    }

    fn merge(&mut self, named: NamedArea) -> Result<(), EditError>
        ensures { RunsPlain (command.Merge named) result self.old self.new }
    {
        let done = self.model.merge_cells(&area_of(named));
        push_outcome(&mut self.out, done)
    }

    fn unmerge(&mut self, cell: NamedCell) -> Result<(), EditError>
        ensures { RunsPlain (command.Unmerge cell) result self.old self.new }
    {
        let done = self.model.unmerge_cells(cell.sheet, cell.row, cell.column);
        push_outcome(&mut self.out, done)
    }

    fn insert_rows(&mut self, lines: NamedLines) -> Result<(), EditError>
        ensures { RunsPlain (command.InsertRows lines) result self.old self.new }
    {
        let done = self
            .model
            .insert_rows(lines.sheet, lines.first, lines.count);
        push_outcome(&mut self.out, done)
    }

    fn insert_columns(&mut self, lines: NamedLines) -> Result<(), EditError>
        ensures { RunsPlain (command.InsertColumns lines) result self.old self.new }
    {
        let done = self
            .model
            .insert_columns(lines.sheet, lines.first, lines.count);
        push_outcome(&mut self.out, done)
    }

    fn delete_rows(&mut self, lines: NamedLines) -> Result<(), EditError>
        ensures { RunsPlain (command.DeleteRows lines) result self.old self.new }
    {
        let done = self
            .model
            .delete_rows(lines.sheet, lines.first, lines.count);
        push_outcome(&mut self.out, done)
    }

    fn delete_columns(&mut self, lines: NamedLines) -> Result<(), EditError>
        ensures { RunsPlain (command.DeleteColumns lines) result self.old self.new }
    {
        let done = self
            .model
            .delete_columns(lines.sheet, lines.first, lines.count);
        push_outcome(&mut self.out, done)
    }

    fn move_rows(&mut self, moved: NamedMove) -> Result<(), EditError>
        ensures { RunsPlain (command.MoveRows moved) result self.old self.new }
    {
        let done = self
            .model
            .move_rows_action(moved.sheet, moved.first, moved.count, moved.delta);
        push_outcome(&mut self.out, done)
    }

    fn move_columns(&mut self, moved: NamedMove) -> Result<(), EditError>
        ensures { RunsPlain (command.MoveColumns moved) result self.old self.new }
    {
        let done = self
            .model
            .move_columns_action(moved.sheet, moved.first, moved.count, moved.delta);
        push_outcome(&mut self.out, done)
    }

    fn width(&mut self, named: NamedSize) -> Result<(), EditError>
        ensures { RunsPlain (command.Width named) result self.old self.new }
    {
        let done = self
            .model
            .set_columns_width(named.sheet, named.first, named.last, named.size);
        push_outcome(&mut self.out, done)
    }

    fn height(&mut self, named: NamedSize) -> Result<(), EditError>
        ensures { RunsPlain (command.Height named) result self.old self.new }
    {
        let done = self
            .model
            .set_rows_height(named.sheet, named.first, named.last, named.size);
        push_outcome(&mut self.out, done)
    }

    fn fill_rows(&mut self, named: NamedFill) -> Result<(), EditError>
        ensures { RunsPlain (command.FillRows named) result self.old self.new }
    {
        let source = fill_source(named);
        let done = self.model.auto_fill_rows(&source, named.to);
        push_outcome(&mut self.out, done)
    }

    fn fill_columns(&mut self, named: NamedFill) -> Result<(), EditError>
        ensures { RunsPlain (command.FillColumns named) result self.old self.new }
    {
        let source = fill_source(named);
        let done = self.model.auto_fill_columns(&source, named.to);
        push_outcome(&mut self.out, done)
    }

    fn hide_rows(&mut self, span: NamedSpan) -> Result<(), EditError>
        ensures { RunsPlain (command.HideRows span) result self.old self.new }
    {
        let done = self
            .model
            .set_rows_hidden(span.sheet, span.first, span.last, true);
        push_outcome(&mut self.out, done)
    }

    fn hide_columns(&mut self, span: NamedSpan) -> Result<(), EditError>
        ensures { RunsPlain (command.HideColumns span) result self.old self.new }
    {
        let done = self
            .model
            .set_columns_hidden(span.sheet, span.first, span.last, true);
        push_outcome(&mut self.out, done)
    }

    fn show_rows(&mut self, span: NamedSpan) -> Result<(), EditError>
        ensures { RunsPlain (command.ShowRows span) result self.old self.new }
    {
        let done = self
            .model
            .set_rows_hidden(span.sheet, span.first, span.last, false);
        push_outcome(&mut self.out, done)
    }

    fn show_columns(&mut self, span: NamedSpan) -> Result<(), EditError>
        ensures { RunsPlain (command.ShowColumns span) result self.old self.new }
    {
        let done = self
            .model
            .set_columns_hidden(span.sheet, span.first, span.last, false);
        push_outcome(&mut self.out, done)
    }

    fn freeze_rows(&mut self, named: NamedCount) -> Result<(), EditError>
        ensures { RunsPlain (command.FreezeRows named) result self.old self.new }
    {
        let done = self.model.set_frozen_rows_count(named.sheet, named.count);
        push_outcome(&mut self.out, done)
    }

    fn freeze_columns(&mut self, named: NamedCount) -> Result<(), EditError>
        ensures { RunsPlain (command.FreezeColumns named) result self.old self.new }
    {
        let done = self
            .model
            .set_frozen_columns_count(named.sheet, named.count);
        push_outcome(&mut self.out, done)
    }

    fn new_sheet(&mut self) -> Result<(), EditError>
        ensures { RunsPlain command.NewSheet result self.old self.new }
    {
        let done = self.model.new_sheet();
        push_outcome(&mut self.out, done)
    }

    fn duplicate_sheet(&mut self, sheet: u32) -> Result<(), EditError>
        ensures { RunsPlain (command.DuplicateSheet sheet) result self.old self.new }
    {
        let done = self.model.duplicate_sheet(sheet);
        push_outcome(&mut self.out, done)
    }

    fn delete_sheet(&mut self, sheet: u32) -> Result<(), EditError>
        ensures { RunsPlain (command.DeleteSheet sheet) result self.old self.new }
    {
        let done = self.model.delete_sheet(sheet);
        push_outcome(&mut self.out, done)
    }

    fn move_sheet(&mut self, moved: NamedSheetMove) -> Result<(), EditError>
        ensures { RunsPlain (command.MoveSheet moved) result self.old self.new }
    {
        let done = self.model.move_sheet(moved.from, moved.to);
        push_outcome(&mut self.out, done)
    }

    fn rename_sheet(&mut self, sheet: u32, name: &str) -> Result<(), EditError>
        ensures { RunsPlain (command.RenameSheet sheet name.now) result self.old self.new }
    {
        let done = self.model.rename_sheet(sheet, name);
        push_outcome(&mut self.out, done)
    }

    fn name(&mut self, scope: Option<u32>, name: &str, text: &str) -> Result<(), EditError>
        ensures { RunsPlain (command.Name (record { scope = scope; name = name.now }) text.now) result self.old self.new }
    {
        let done = self.model.new_defined_name(name, scope, text);
        push_outcome(&mut self.out, done)
    }

    fn name_update(
        &mut self,
        scope: Option<u32>,
        name: &str,
        new_scope: Option<u32>,
        new_name: &str,
        text: &str,
    ) -> Result<(), EditError>
        ensures { RunsPlain (command.NameUpdate (record {
          old = record { scope = scope; name = name.now };
          new = record { scope = new_scope; name = new_name.now };
        }) text.now) result self.old self.new }
    {
        let done = self
            .model
            .update_defined_name(name, scope, new_name, new_scope, text);
        push_outcome(&mut self.out, done)
    }

    fn name_delete(&mut self, scope: Option<u32>, name: &str) -> Result<(), EditError>
        ensures { RunsPlain (command.NameDelete (record { scope = scope; name = name.now })) result self.old self.new }
    {
        let done = self.model.delete_defined_name(name, scope);
        push_outcome(&mut self.out, done)
    }

    fn hide_sheet(&mut self, sheet: u32) -> Result<(), EditError>
        ensures { RunsPlain (command.HideSheet sheet) result self.old self.new }
    {
        let done = self.model.hide_sheet(sheet);
        push_outcome(&mut self.out, done)
    }

    fn unhide_sheet(&mut self, sheet: u32) -> Result<(), EditError>
        ensures { RunsPlain (command.UnhideSheet sheet) result self.old self.new }
    {
        let done = self.model.unhide_sheet(sheet);
        push_outcome(&mut self.out, done)
    }

    fn color(&mut self, named: NamedColor) -> Result<(), EditError>
        ensures { RunsPlain (command.SheetColor named) result self.old self.new }
    {
        let done = self.model.set_sheet_color(named.sheet, &named.color);
        push_outcome(&mut self.out, done)
    }

    fn grid(&mut self, named: NamedGrid) -> Result<(), EditError>
        ensures { RunsPlain (command.GridLines named) result self.old self.new }
    {
        let done = self.model.set_show_grid_lines(named.sheet, named.show);
        push_outcome(&mut self.out, done)
    }

    fn title(&mut self, name: &str) -> Result<(), EditError>
        ensures { RunsPlain (command.Title name.now) result self.old self.new }
    {
        let done = self.model.set_name(name);
        push_outcome(&mut self.out, done)
    }

    fn theme(&mut self, theme: Theme) -> Result<(), EditError>
        ensures { RunsPlain (command.ThemeColors theme) result self.old self.new }
    {
        let done = self.model.set_theme(&theme);
        push_outcome(&mut self.out, done)
    }

    fn locale(&mut self, name: &str) -> Result<(), EditError>
        ensures { RunsPlain (command.Locale name.now) result self.old self.new }
    {
        let done = self.model.set_locale(name);
        push_outcome(&mut self.out, done)
    }

    fn zone(&mut self, name: &str) -> Result<(), EditError>
        ensures { RunsPlain (command.Zone name.now) result self.old self.new }
    {
        let done = self.model.set_timezone(name);
        push_outcome(&mut self.out, done)
    }

    fn language(&mut self, name: &str) -> Result<(), EditError>
        ensures { RunsPlain (command.Language name.now) result self.old self.new }
    {
        let done = self.model.set_language(name);
        push_outcome(&mut self.out, done)
    }

    fn undo(&mut self) -> Result<(), EditError>
        ensures { RunsPlain command.Undo result self.old self.new }
    {
        let done = self.model.undo();
        push_outcome(&mut self.out, done)
    }

    fn redo(&mut self) -> Result<(), EditError>
        ensures { RunsPlain command.Redo result self.old self.new }
    {
        let done = self.model.redo();
        push_outcome(&mut self.out, done)
    }

    /// Writes the bytes of what was done since the last sync, and takes the second copy along them.
    fn sync(&mut self) -> Result<(), EditError>
        ensures { RunsPlain command.Sync result self.old self.new }
    {
        let bytes = self.model.flush_send_queue()?;
        push_sync(&mut self.out, &bytes)?;
        self.copy.apply_external_diffs(&bytes)
    }

    fn show(&mut self) -> Result<(), EditError>
        ensures { RunsPlain command.Show result self.old self.new }
    {
        push_dump(self.alloc, &mut self.out, self.model.get_model())
    }

    fn style(&mut self, named: NamedArea, path: &str, value: &str) -> Result<(), EditError>
        ensures { RunsPlain (command.Style (record { area = named; path = path.now }) value.now) result self.old self.new }
    {
        let done = self.model.update_range_style(&area_of(named), path, value);
        push_outcome(&mut self.out, done)
    }

    fn clear(&mut self, named: NamedArea) -> Result<(), EditError>
        ensures { RunsPlain (command.Clear named) result self.old self.new }
    {
        let done = self.model.range_clear_all(&area_of(named));
        push_outcome(&mut self.out, done)
    }

    fn clear_contents(&mut self, named: NamedArea) -> Result<(), EditError>
        ensures { RunsPlain (command.ClearContents named) result self.old self.new }
    {
        let done = self.model.range_clear_contents(&area_of(named));
        push_outcome(&mut self.out, done)
    }

    fn clear_formatting(&mut self, named: NamedArea) -> Result<(), EditError>
        ensures { RunsPlain (command.ClearFormatting named) result self.old self.new }
    {
        let done = self.model.range_clear_formatting(&area_of(named));
        push_outcome(&mut self.out, done)
    }

    fn rule(&mut self, named: NamedArea, text: &str) -> Result<(), EditError>
        ensures { RunsPlain (command.Rule named text.now) result self.old self.new }
    {
        let done = add_rule(self.alloc, &mut self.model, named, text);
        push_outcome(&mut self.out, done)
    }

    fn rule_delete(&mut self, named: NamedRule) -> Result<(), EditError>
        ensures { RunsPlain (command.RuleDelete named) result self.old self.new }
    {
        let done = self
            .model
            .delete_conditional_formatting(named.sheet, named.index as u64);
        push_outcome(&mut self.out, done)
    }

    fn rule_swap(&mut self, named: NamedSwap) -> Result<(), EditError>
        ensures { RunsPlain (command.RuleSwap named) result self.old self.new }
    {
        let done = self
            .model
            .swap_conditional_formatting_priority(
                named.sheet,
                named.index_a as u64,
                named.index_b as u64,
            );
        push_outcome(&mut self.out, done)
    }

    /// Runs a command that draws no others.
    fn run_plain(&mut self, command: Command) -> Result<(), EditError>
        ensures { RunsPlain command result self.old self.new }
    {
        match command {
            Command::Set(cell, text) => self.set(cell, text.as_str()),
            Command::Get(cell) => self.get(cell),
            Command::Array(named, text) => self.array(named, text.as_str()),
            Command::Link(cell, text) => self.link(cell, text.as_str()),
            Command::Unlink(cell) => self.unlink(cell),
            Command::Merge(named) => self.merge(named),
            Command::Unmerge(cell) => self.unmerge(cell),
            Command::InsertRows(lines) => self.insert_rows(lines),
            Command::InsertColumns(lines) => self.insert_columns(lines),
            Command::DeleteRows(lines) => self.delete_rows(lines),
            Command::DeleteColumns(lines) => self.delete_columns(lines),
            Command::MoveRows(moved) => self.move_rows(moved),
            Command::MoveColumns(moved) => self.move_columns(moved),
            Command::Width(named) => self.width(named),
            Command::Height(named) => self.height(named),
            Command::HideRows(span) => self.hide_rows(span),
            Command::ShowRows(span) => self.show_rows(span),
            Command::HideColumns(span) => self.hide_columns(span),
            Command::ShowColumns(span) => self.show_columns(span),
            Command::FreezeRows(named) => self.freeze_rows(named),
            Command::FreezeColumns(named) => self.freeze_columns(named),
            Command::FillRows(named) => self.fill_rows(named),
            Command::FillColumns(named) => self.fill_columns(named),
            Command::NewSheet => self.new_sheet(),
            Command::DuplicateSheet(sheet) => self.duplicate_sheet(sheet),
            Command::DeleteSheet(sheet) => self.delete_sheet(sheet),
            Command::MoveSheet(moved) => self.move_sheet(moved),
            Command::RenameSheet(sheet, text) => self.rename_sheet(sheet, text.as_str()),
            Command::Name(named, text) => {
                self.name(named.scope, named.name.as_str(), text.as_str())
            }
            Command::NameUpdate(named, text) => self.name_update(
                named.old.scope,
                named.old.name.as_str(),
                named.new.scope,
                named.new.name.as_str(),
                text.as_str(),
            ),
            Command::NameDelete(named) => self.name_delete(named.scope, named.name.as_str()),
            Command::HideSheet(sheet) => self.hide_sheet(sheet),
            Command::UnhideSheet(sheet) => self.unhide_sheet(sheet),
            Command::SheetColor(named) => self.color(named),
            Command::GridLines(named) => self.grid(named),
            Command::Title(text) => self.title(text.as_str()),
            Command::ThemeColors(theme) => self.theme(theme),
            Command::Locale(name) => self.locale(name.as_str()),
            Command::Zone(name) => self.zone(name.as_str()),
            Command::Language(name) => self.language(name.as_str()),
            Command::Undo => self.undo(),
            Command::Redo => self.redo(),
            Command::Sync => self.sync(),
            Command::Show => self.show(),
            Command::Style(named, text) => {
                self.style(named.area, named.path.as_str(), text.as_str())
            }
            Command::Clear(named) => self.clear(named),
            Command::ClearContents(named) => self.clear_contents(named),
            Command::ClearFormatting(named) => self.clear_formatting(named),
            Command::Rule(named, text) => self.rule(named, text.as_str()),
            Command::RuleDelete(named) => self.rule_delete(named),
            Command::RuleSwap(named) => self.rule_swap(named),
            Command::Make(_) => Ok(()),
        }
    }

    /// Runs a command that draws no others, counts its answer, and takes the answer back.
    fn count_command(&mut self, command: Command, tally: &mut Tally) -> Result<(), EditError>
        requires { tally.old.ok + tally.old.error + tally.old.sync < 2 ^ 32 - 1 }
        ensures counts { CountsCommand command result self.old self.new tally.old tally.new }
        ensures more { OnOk result (tally.new.ok + tally.new.error + tally.new.sync ≤ tally.old.ok + tally.old.error + tally.old.sync + 1) }
    {
        let before = self.out.as_slice().len();
        self.run_plain(command)?;
        tally.count(byte_at(&self.out, before));
        self.out.truncate(before);
        Ok(())
    }

    /// Runs the commands that are drawn from a seed, and answers how their answers count.
    fn make(&mut self, run: NamedRun) -> Result<(), EditError>
        ensures { RunsCommand (command.Make run) result self.old self.new }
    {
        let mut tally = Tally::none();
        let mut seed = run.seed;
        let mut left = run.count;
        'draws: while left > 0 {
            let (command, next) = drawn_command(self.alloc, seed)?;
            self.count_command(command, &mut tally)?;
            seed = next;
            left -= 1;
        }
        push_made(self.alloc, &mut self.out, run.count, tally)?;
        Ok(())
    }

    fn run_command(&mut self, command: Command) -> Result<(), EditError>
        ensures { RunsCommand command result self.old self.new }
    {
        if let Command::Make(run) = command {
            return self.make(run);
        }
        self.run_plain(command)
    }

    fn run_line(&mut self, line: &[u8]) -> Result<(), EditError>
        ensures { (state : State) → SessionStands self.old state → HasNoStale state →
            Runs result self.old self.new (line_reply line.now state) (after (commands_on line.now) state) (OnOk result (SoundThrough (commands_on line.now) state)) }
    {
        if line.is_empty() {
            return Ok(());
        }
        match read_command(self.alloc, line)? {
            Some(command) => self.run_command(command),
            None => {
                push_line(&mut self.out, b"error BadLine")?;
                Ok(())
            }
        }
    }

    /// Runs all lines of a script.
    pub(crate) fn run_lines(&mut self, script: &[u8]) -> Result<(), EditError>
        ensures { (state : State) → SessionStands self.old state → HasNoStale state →
            Runs result self.old self.new (replies (lines_of script.now) state) (after (commands_of (lines_of script.now)) state)
            (OnOk result (SoundThrough (commands_of (lines_of script.now)) state)) }
    {
        let mut rest = Some(script);
        'lines: while let Some(bytes) = rest {
            let (line, behind) = split_first(bytes, b'\n');
            self.run_line(without_return(line))?;
            rest = behind;
        }
        Ok(())
    }
}
