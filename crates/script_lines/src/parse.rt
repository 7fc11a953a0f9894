ghost use Rattle.std.specs.Prelude.{◌≡◌, ◌∷◌, IfOk, IfSome, IsOkUnless};
ghost use Rattle.std.specs.Option.{option_copied};
ghost use Rattle.base_values.specs.declared.error.EditError.TheVariants.{NoMemory};
ghost use Rattle.script_lines.specs.Parts.{parts_at, parts_after};
ghost use Rattle.script_lines.specs.CommandFits.{CommandFits};
ghost use Rattle.script_lines.specs.Commands as spec;

use crate::command::{Command, NamedArea, NamedCell, NamedCount, NamedFill, NamedLines, NamedMove};
use crate::escape::unescape;
use crate::parts::{split_word, text_of};
use crate::readers::{
    alone, area_words, cell_words, color_words, count_words, ended, fill_words, grid_words,
    lines_words, move_words, name_words, path_words, rule_words, run_words, sheet_move_words,
    sheet_word, size_of, span_of, swap_words, text_word, theme_words, update_words, with_text,
};
use base_values::EditError;
use std::alloc::Global;
use std::str;

/// The command on a cell, where the word begins such a one.
#[tactic(auto, unfolding(crate::specs::Commands::cell_command))]
fn cell_command(word: &str, cell: NamedCell) -> Option<Command>
    ensures { result ≡ spec.cell_command word.now cell }
{
    match word {
        "get" => Some(Command::Get(cell)),
        "unlink" => Some(Command::Unlink(cell)),
        "unmerge" => Some(Command::Unmerge(cell)),
        _ => None,
    }
}

/// The command on a rectangle, where the word begins such a one.
#[tactic(auto, unfolding(crate::specs::Commands::area_command))]
fn area_command(word: &str, area: NamedArea) -> Option<Command>
    ensures { result ≡ spec.area_command word.now area }
{
    match word {
        "merge" => Some(Command::Merge(area)),
        "clear" => Some(Command::Clear(area)),
        "clear-contents" => Some(Command::ClearContents(area)),
        "clear-formatting" => Some(Command::ClearFormatting(area)),
        _ => None,
    }
}

/// The command on a rectangle and a line, where the word begins such a one.
#[tactic(auto, unfolding(crate::specs::Commands::fill_command))]
fn fill_command(word: &str, fill: NamedFill) -> Option<Command>
    ensures { result ≡ spec.fill_command word.now fill }
{
    match word {
        "fill-rows" => Some(Command::FillRows(fill)),
        "fill-columns" => Some(Command::FillColumns(fill)),
        _ => None,
    }
}

/// The command on rows or columns, where the word begins such a one.
#[tactic(auto, unfolding(crate::specs::Commands::lines_command))]
fn lines_command(word: &str, lines: NamedLines) -> Option<Command>
    ensures { result ≡ spec.lines_command word.now lines }
{
    match word {
        "insert-rows" => Some(Command::InsertRows(lines)),
        "insert-columns" => Some(Command::InsertColumns(lines)),
        "delete-rows" => Some(Command::DeleteRows(lines)),
        "delete-columns" => Some(Command::DeleteColumns(lines)),
        "hide-rows" => Some(Command::HideRows(span_of(lines))),
        "show-rows" => Some(Command::ShowRows(span_of(lines))),
        "hide-columns" => Some(Command::HideColumns(span_of(lines))),
        "show-columns" => Some(Command::ShowColumns(span_of(lines))),
        _ => None,
    }
}

/// The command on rows or columns and a number, where the word begins such a one.
#[tactic(auto, unfolding(crate::specs::Commands::move_command))]
fn move_command(word: &str, moved: NamedMove) -> Option<Command>
    ensures { result ≡ spec.move_command word.now moved }
{
    match word {
        "move-rows" => Some(Command::MoveRows(moved)),
        "move-columns" => Some(Command::MoveColumns(moved)),
        "width" => Some(Command::Width(size_of(moved))),
        "height" => Some(Command::Height(size_of(moved))),
        _ => None,
    }
}

/// The command on how many lines of a sheet, where the word begins such a one.
#[tactic(auto, unfolding(crate::specs::Commands::count_command))]
fn count_command(word: &str, count: NamedCount) -> Option<Command>
    ensures { result ≡ spec.count_command word.now count }
{
    match word {
        "freeze-rows" => Some(Command::FreezeRows(count)),
        "freeze-columns" => Some(Command::FreezeColumns(count)),
        _ => None,
    }
}

/// The command on a sheet, where the word begins such a one.
#[tactic(auto, unfolding(crate::specs::Commands::sheet_command))]
fn sheet_command(word: &str, sheet: u32) -> Option<Command>
    ensures { result ≡ spec.sheet_command word.now sheet }
{
    match word {
        "duplicate-sheet" => Some(Command::DuplicateSheet(sheet)),
        "delete-sheet" => Some(Command::DeleteSheet(sheet)),
        "hide-sheet" => Some(Command::HideSheet(sheet)),
        "unhide-sheet" => Some(Command::UnhideSheet(sheet)),
        _ => None,
    }
}

/// The command on a cell that words are: the first, and the others.
fn read_cell(word: &str, words: Option<&str>) -> Option<Command>
    ensures { result ≡ spec.exactly spec.cell_words spec.cell_command word.now (parts_after 32 (option_copied words.entry)) }
{
    match ended(cell_words(words)) {
        Some(found) => cell_command(word, found),
        None => None,
    }
}

/// The command on a rectangle that words are: the first, and the others.
fn read_rectangle(word: &str, words: Option<&str>) -> Option<Command>
    ensures { result ≡ spec.exactly spec.area_words spec.area_command word.now (parts_after 32 (option_copied words.entry)) }
{
    match ended(area_words(words)) {
        Some(found) => area_command(word, found),
        None => None,
    }
}

/// The command on a rectangle and a line that words are: the first, and the others.
fn read_fill(word: &str, words: Option<&str>) -> Option<Command>
    ensures { result ≡ spec.exactly spec.fill_words spec.fill_command word.now (parts_after 32 (option_copied words.entry)) }
{
    match ended(fill_words(words)) {
        Some(found) => fill_command(word, found),
        None => None,
    }
}

/// The command on rows or columns that words are: the first, and the others.
fn read_lines(word: &str, words: Option<&str>) -> Option<Command>
    ensures { result ≡ spec.exactly spec.lines_words spec.lines_command word.now (parts_after 32 (option_copied words.entry)) }
{
    match ended(lines_words(words)) {
        Some(found) => lines_command(word, found),
        None => None,
    }
}

/// The command on rows or columns and a number that words are: the first, and the others.
fn read_move(word: &str, words: Option<&str>) -> Option<Command>
    ensures { result ≡ spec.exactly spec.move_words spec.move_command word.now (parts_after 32 (option_copied words.entry)) }
{
    match ended(move_words(words)) {
        Some(found) => move_command(word, found),
        None => None,
    }
}

/// The command on how many lines of a sheet that words are: the first, and the others.
fn read_count(word: &str, words: Option<&str>) -> Option<Command>
    ensures { result ≡ spec.exactly spec.count_words spec.count_command word.now (parts_after 32 (option_copied words.entry)) }
{
    match ended(count_words(words)) {
        Some(found) => count_command(word, found),
        None => None,
    }
}

/// The command on a sheet that words are: the first, and the others.
fn read_sheet(word: &str, words: Option<&str>) -> Option<Command>
    ensures { result ≡ spec.exactly spec.sheet_word spec.sheet_command word.now (parts_after 32 (option_copied words.entry)) }
{
    match ended(sheet_word(words)) {
        Some(found) => sheet_command(word, found),
        None => None,
    }
}

/// The command on cells or rectangles that words are: the first, and the others.
#[tactic(auto, unfolding(crate::specs::Commands::place_command))]
fn read_place_words(word: &str, words: Option<&str>) -> Option<Command>
    ensures { result ≡ spec.place_command word.now (parts_after 32 (option_copied words.entry)) }
{
    match read_cell(word, words) {
        Some(command) => Some(command),
        None => match read_rectangle(word, words) {
            Some(command) => Some(command),
            None => read_fill(word, words),
        },
    }
}

/// The command on rows or columns that words are: the first, and the others.
#[tactic(auto, unfolding(crate::specs::Commands::line_command))]
fn read_line_words(word: &str, words: Option<&str>) -> Option<Command>
    ensures { result ≡ spec.line_command word.now (parts_after 32 (option_copied words.entry)) }
{
    match read_lines(word, words) {
        Some(command) => Some(command),
        None => match read_move(word, words) {
            Some(command) => Some(command),
            None => read_count(word, words),
        },
    }
}

/// The command of its own form that words are: the first, and the others.
#[tactic(auto, unfolding(crate::specs::Commands::single_command))]
fn read_single_words(word: &str, words: Option<&str>) -> Option<Command>
    ensures { result ≡ spec.single_command word.now (parts_after 32 (option_copied words.entry)) }
{
    match word {
        "new-sheet" => alone(Command::NewSheet, words),
        "undo" => alone(Command::Undo, words),
        "redo" => alone(Command::Redo, words),
        "sync" => alone(Command::Sync, words),
        "show" => alone(Command::Show, words),
        "move-sheet" => ended(sheet_move_words(words)).map(Command::MoveSheet),
        "rule-delete" => ended(rule_words(words)).map(Command::RuleDelete),
        "rule-swap" => ended(swap_words(words)).map(Command::RuleSwap),
        "color" => ended(color_words(words)).map(Command::SheetColor),
        "grid" => ended(grid_words(words)).map(Command::GridLines),
        "theme" => ended(theme_words(words)).map(Command::ThemeColors),
        "make" => ended(run_words(words)).map(Command::Make),
        _ => None,
    }
}

/// The command with a text that words are: the first, and the others.
#[tactic(auto, unfolding(crate::specs::Commands::text_command))]
fn read_text_words(
    alloc: Global,
    word: &str,
    words: Option<&str>,
) -> Result<Option<Command>, EditError>
    ensures value { IfOk result
        (λ found. found ≡ spec.text_command word.now (parts_after 32 (option_copied words.entry))) }
    ensures err { IsOkUnless result NoMemory }
{
    match word {
        "set" => Ok(with_text(alloc, cell_words(words))?.map(|(found, text)| Command::Set(
            found, text,
        ))),
        "link" => Ok(with_text(alloc, cell_words(words))?.map(|(found, text)| Command::Link(
            found, text,
        ))),
        "array" => Ok(with_text(alloc, area_words(words))?.map(|(found, text)| Command::Array(
            found, text,
        ))),
        "rule" => Ok(with_text(alloc, area_words(words))?.map(|(found, text)| Command::Rule(
            found, text,
        ))),
        "style" => Ok(with_text(alloc, path_words(alloc, words)?)?.map(|(
            found,
            text,
        )| Command::Style(found, text))),
        "rename-sheet" => Ok(with_text(alloc, sheet_word(words))?.map(|(
            found,
            text,
        )| Command::RenameSheet(found, text))),
        "name" => Ok(with_text(alloc, name_words(alloc, words)?)?.map(|(found, text)| Command::Name(
            found, text,
        ))),
        "name-update" => Ok(with_text(alloc, update_words(alloc, words)?)?.map(|(
            found,
            text,
        )| Command::NameUpdate(found, text))),
        "title" => Ok(unescape(alloc, text_of(words))?.map(Command::Title)),
        _ => Ok(None),
    }
}

/// The command with a name or a word that the workbook keeps that words are: the first, and the others.
#[tactic(auto, unfolding(crate::specs::Commands::word_command))]
fn read_named_words(
    alloc: Global,
    word: &str,
    words: Option<&str>,
) -> Result<Option<Command>, EditError>
    ensures value { IfOk result
        (λ found. found ≡ spec.word_command word.now (parts_after 32 (option_copied words.entry))) }
    ensures err { IsOkUnless result NoMemory }
{
    match word {
        "name-delete" => Ok(ended(name_words(alloc, words)?).map(Command::NameDelete)),
        "locale" => Ok(ended(text_word(alloc, words)?).map(Command::Locale)),
        "zone" => Ok(ended(text_word(alloc, words)?).map(Command::Zone)),
        "language" => Ok(ended(text_word(alloc, words)?).map(Command::Language)),
        _ => Ok(None),
    }
}

/// The command that words are: the first, and the others.
fn read_words(alloc: Global, word: &str, words: Option<&str>) -> Result<Option<Command>, EditError>
    ensures value { IfOk result
        (λ found. found ≡ spec.from_words (word.now ∷ parts_after 32 (option_copied words.entry))) }
    ensures err { IsOkUnless result NoMemory }
{
    if let Some(command) = read_text_words(alloc, word, words)? {
        return Ok(Some(command));
    }
    if let Some(command) = read_place_words(word, words) {
        return Ok(Some(command));
    }
    if let Some(command) = read_line_words(word, words) {
        return Ok(Some(command));
    }
    if let Some(command) = read_sheet(word, words) {
        return Ok(Some(command));
    }
    if let Some(command) = read_single_words(word, words) {
        return Ok(Some(command));
    }
    read_named_words(alloc, word, words)
}

fn read_text(alloc: Global, line: &str) -> Result<Option<Command>, EditError>
    ensures value { IfOk result (λ found. found ≡ spec.from_words (parts_at 32 line.now)) }
    ensures err { IsOkUnless result NoMemory }
{
    let (word, words) = split_word(line);
    read_words(alloc, word, words)
}

/// The command that a line is, or None where the tables of commands have no such line. A line that
/// is no UTF-8 is none, whatever else it holds. The only error is `NoMemory`.
pub fn read_command(alloc: Global, line: &[u8]) -> Result<Option<Command>, EditError>
    ensures value { IfOk result (λ found. found ≡ spec.command_of line.now) }
    ensures fits { IfOk result (λ found. IfSome found CommandFits) }
    ensures err { IsOkUnless result NoMemory }
{
    match str::from_utf8(line) {
        Ok(line) => read_text(alloc, line),
        Err(_) => Ok(None),
    }
}
