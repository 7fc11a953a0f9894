ghost use Rattle.std.specs.Prelude.{◌≡◌, ◌^◌, IfOk, IsOkUnless};
ghost use Rattle.std.specs.Option.{option_and_then, option_copied, option_map};
ghost use Rattle.base_values.specs.declared.error.EditError.TheVariants.{NoMemory};
ghost use Rattle.script_lines.specs.Parts.{parts_after};
ghost use Rattle.script_lines.specs.Number.{number_below, signed_number};
ghost use Rattle.script_lines.specs.Colors.{parts_of};
ghost use Rattle.script_lines.specs.Commands as spec;

use crate::color::{color_of, parts_of};
use crate::command::{
    Command, NamedArea, NamedCell, NamedColor, NamedCount, NamedFill, NamedGrid, NamedLines,
    NamedMove, NamedName, NamedPath, NamedRule, NamedRun, NamedSheetMove, NamedSize, NamedSpan,
    NamedSwap, NamedUpdate,
};
use crate::escape::unescape;
use crate::number::{read_drawn, read_i32, read_u32, read_u64};
use crate::parts::{split_word, text_of};
use crate::reference::{read_area, read_reference};
use base_styles::{RgbColor, Theme};
use base_values::{EditError, Text};
use std::alloc::Global;

/// A sheet's index, and the words behind it.
pub(crate) fn sheet_word(words: Option<&str>) -> Option<(u32, Option<&str>)>
    ensures { option_map (λ found. (found.0, parts_after 32 (option_copied found.1))) result ≡ spec.sheet_word (parts_after 32 (option_copied words.entry)) }
{
    let Some(words) = words else {
        return None;
    };
    let (word, words) = split_word(words);
    match read_u32(word.as_bytes()) {
        Some(sheet) => Some((sheet, words)),
        None => None,
    }
}

/// A number, and the words behind it.
fn number_word(words: Option<&str>) -> Option<(i32, Option<&str>)>
    ensures { option_map (λ found. (found.0, parts_after 32 (option_copied found.1))) result ≡ spec.word signed_number (parts_after 32 (option_copied words.entry)) }
{
    let Some(words) = words else {
        return None;
    };
    let (word, words) = split_word(words);
    match read_i32(word.as_bytes()) {
        Some(number) => Some((number, words)),
        None => None,
    }
}

/// `S REF`, and the words behind it.
pub(crate) fn cell_words(words: Option<&str>) -> Option<(NamedCell, Option<&str>)>
    ensures { option_map (λ found. (found.0, parts_after 32 (option_copied found.1))) result ≡ spec.cell_words (parts_after 32 (option_copied words.entry)) }
{
    let Some((sheet, words)) = sheet_word(words) else {
        return None;
    };
    let Some(words) = words else {
        return None;
    };
    let (word, words) = split_word(words);
    let Some(place) = read_reference(word.as_bytes()) else {
        return None;
    };
    let cell = NamedCell {
        sheet,
        row: place.row,
        column: place.column,
    };
    Some((cell, words))
}

/// `S AREA`, and the words behind it.
pub(crate) fn area_words(words: Option<&str>) -> Option<(NamedArea, Option<&str>)>
    ensures { option_map (λ found. (found.0, parts_after 32 (option_copied found.1))) result ≡ spec.area_words (parts_after 32 (option_copied words.entry)) }
{
    let Some((sheet, words)) = sheet_word(words) else {
        return None;
    };
    let Some(words) = words else {
        return None;
    };
    let (word, words) = split_word(words);
    let Some(area) = read_area(word.as_bytes()) else {
        return None;
    };
    Some((NamedArea { sheet, area }, words))
}

/// `S N N`, and the words behind it.
pub(crate) fn lines_words(words: Option<&str>) -> Option<(NamedLines, Option<&str>)>
    ensures { option_map (λ found. (found.0, parts_after 32 (option_copied found.1))) result ≡ spec.lines_words (parts_after 32 (option_copied words.entry)) }
{
    let Some((sheet, words)) = sheet_word(words) else {
        return None;
    };
    let Some((first, words)) = number_word(words) else {
        return None;
    };
    let Some((count, words)) = number_word(words) else {
        return None;
    };
    let lines = NamedLines {
        sheet,
        first,
        count,
    };
    Some((lines, words))
}

/// `S N N N`, and the words behind it.
pub(crate) fn move_words(words: Option<&str>) -> Option<(NamedMove, Option<&str>)>
    ensures { option_map (λ found. (found.0, parts_after 32 (option_copied found.1))) result ≡ spec.move_words (parts_after 32 (option_copied words.entry)) }
{
    let Some((lines, words)) = lines_words(words) else {
        return None;
    };
    let Some((delta, words)) = number_word(words) else {
        return None;
    };
    let moved = NamedMove {
        sheet: lines.sheet,
        first: lines.first,
        count: lines.count,
        delta,
    };
    Some((moved, words))
}

/// `S N N` as a first line and a last one.
pub(crate) fn span_of(lines: NamedLines) -> NamedSpan
    ensures { result ≡ spec.span_of lines }
{
    NamedSpan {
        sheet: lines.sheet,
        first: lines.first,
        last: lines.count,
    }
}

/// `S N N N` as a first line, a last one, and a size.
pub(crate) fn size_of(moved: NamedMove) -> NamedSize
    ensures { result ≡ spec.size_of moved }
{
    NamedSize {
        sheet: moved.sheet,
        first: moved.first,
        last: moved.count,
        size: moved.delta,
    }
}

/// `S AREA N`, and the words behind it.
pub(crate) fn fill_words(words: Option<&str>) -> Option<(NamedFill, Option<&str>)>
    ensures { option_map (λ found. (found.0, parts_after 32 (option_copied found.1))) result ≡ spec.fill_words (parts_after 32 (option_copied words.entry)) }
{
    let Some((named, words)) = area_words(words) else {
        return None;
    };
    let Some((to, words)) = number_word(words) else {
        return None;
    };
    let fill = NamedFill {
        sheet: named.sheet,
        area: named.area,
        to,
    };
    Some((fill, words))
}

/// `S N`, and the words behind it.
pub(crate) fn count_words(words: Option<&str>) -> Option<(NamedCount, Option<&str>)>
    ensures { option_map (λ found. (found.0, parts_after 32 (option_copied found.1))) result ≡ spec.count_words (parts_after 32 (option_copied words.entry)) }
{
    let Some((sheet, words)) = sheet_word(words) else {
        return None;
    };
    let Some((count, words)) = number_word(words) else {
        return None;
    };
    Some((NamedCount { sheet, count }, words))
}

/// `S S`, and the words behind it.
pub(crate) fn sheet_move_words(words: Option<&str>) -> Option<(NamedSheetMove, Option<&str>)>
    ensures { option_map (λ found. (found.0, parts_after 32 (option_copied found.1))) result ≡ spec.sheet_move_words (parts_after 32 (option_copied words.entry)) }
{
    let Some((from, words)) = sheet_word(words) else {
        return None;
    };
    let Some((to, words)) = sheet_word(words) else {
        return None;
    };
    Some((NamedSheetMove { from, to }, words))
}

/// `S INDEX`, and the words behind it.
pub(crate) fn rule_words(words: Option<&str>) -> Option<(NamedRule, Option<&str>)>
    ensures { option_map (λ found. (found.0, parts_after 32 (option_copied found.1))) result ≡ spec.rule_words (parts_after 32 (option_copied words.entry)) }
{
    let Some((sheet, words)) = sheet_word(words) else {
        return None;
    };
    let Some((index, words)) = sheet_word(words) else {
        return None;
    };
    Some((NamedRule { sheet, index }, words))
}

/// `S INDEX INDEX`, and the words behind it.
pub(crate) fn swap_words(words: Option<&str>) -> Option<(NamedSwap, Option<&str>)>
    ensures { option_map (λ found. (found.0, parts_after 32 (option_copied found.1))) result ≡ spec.swap_words (parts_after 32 (option_copied words.entry)) }
{
    let Some((sheet, words)) = sheet_word(words) else {
        return None;
    };
    let Some((index_a, words)) = sheet_word(words) else {
        return None;
    };
    let Some((index_b, words)) = sheet_word(words) else {
        return None;
    };
    let swap = NamedSwap {
        sheet,
        index_a,
        index_b,
    };
    Some((swap, words))
}

/// A seed, and the words behind it.
fn seed_word(words: Option<&str>) -> Option<(u64, Option<&str>)>
    ensures { option_map (λ found. (found.0, parts_after 32 (option_copied found.1))) result ≡ spec.word (number_below (2 ^ 64)) (parts_after 32 (option_copied words.entry)) }
{
    let Some(words) = words else {
        return None;
    };
    let (word, words) = split_word(words);
    match read_u64(word.as_bytes()) {
        Some(seed) => Some((seed, words)),
        None => None,
    }
}

/// How many commands are drawn, and the words behind it.
fn drawn_word(words: Option<&str>) -> Option<(u32, Option<&str>)>
    ensures { option_map (λ found. (found.0, parts_after 32 (option_copied found.1))) result ≡ spec.word (number_below 100001) (parts_after 32 (option_copied words.entry)) }
{
    let Some(words) = words else {
        return None;
    };
    let (word, words) = split_word(words);
    match read_drawn(word.as_bytes()) {
        Some(count) => Some((count, words)),
        None => None,
    }
}

/// `SEED COUNT`, and the words behind it.
pub(crate) fn run_words(words: Option<&str>) -> Option<(NamedRun, Option<&str>)>
    ensures { option_map (λ found. (found.0, parts_after 32 (option_copied found.1))) result ≡ spec.run_words (parts_after 32 (option_copied words.entry)) }
{
    let Some((seed, words)) = seed_word(words) else {
        return None;
    };
    let Some((count, words)) = drawn_word(words) else {
        return None;
    };
    Some((NamedRun { seed, count }, words))
}

/// `S COLOUR`, and the words behind it.
pub(crate) fn color_words(words: Option<&str>) -> Option<(NamedColor, Option<&str>)>
    ensures { option_map (λ found. (found.0, parts_after 32 (option_copied found.1))) result ≡ spec.color_words (parts_after 32 (option_copied words.entry)) }
{
    let Some((sheet, words)) = sheet_word(words) else {
        return None;
    };
    let Some(words) = words else {
        return None;
    };
    let (word, words) = split_word(words);
    let Some(color) = color_of(word) else {
        return None;
    };
    Some((NamedColor { sheet, color }, words))
}

/// Whether a word is 1, where it is 0 or 1.
fn read_bit(bytes: &[u8]) -> Option<bool>
    ensures { result ≡ spec.bit_of bytes.now }
{
    match bytes {
        [b'0'] => Some(false),
        [b'1'] => Some(true),
        _ => None,
    }
}

/// `S 0` or `S 1`, and the words behind it.
pub(crate) fn grid_words(words: Option<&str>) -> Option<(NamedGrid, Option<&str>)>
    ensures { option_map (λ found. (found.0, parts_after 32 (option_copied found.1))) result ≡ spec.grid_words (parts_after 32 (option_copied words.entry)) }
{
    let Some((sheet, words)) = sheet_word(words) else {
        return None;
    };
    let Some(words) = words else {
        return None;
    };
    let (word, words) = split_word(words);
    let Some(show) = read_bit(word.as_bytes()) else {
        return None;
    };
    Some((NamedGrid { sheet, show }, words))
}

/// SCOPE: a dash for the whole workbook, or the index of a sheet.
fn scope_of(word: &str) -> Option<Option<u32>>
    ensures { result ≡ spec.scope_of word.now }
{
    if word == "-" {
        return Some(None);
    }
    read_u32(word.as_bytes()).map(Some)
}

/// SCOPE, and the words behind it.
fn scope_word(words: Option<&str>) -> Option<(Option<u32>, Option<&str>)>
    ensures { option_map (λ found. (found.0, parts_after 32 (option_copied found.1))) result ≡ spec.word spec.scope_of (parts_after 32 (option_copied words.entry)) }
{
    let Some(words) = words else {
        return None;
    };
    let (word, words) = split_word(words);
    match scope_of(word) {
        Some(scope) => Some((scope, words)),
        None => None,
    }
}

/// NAME, and the words behind it.
fn name_word(words: Option<&str>) -> Option<(&str, Option<&str>)>
    ensures { option_map (λ found. (found.0.now, parts_after 32 (option_copied found.1))) result ≡ spec.word spec.name_of (parts_after 32 (option_copied words.entry)) }
{
    let Some(words) = words else {
        return None;
    };
    let (word, words) = split_word(words);
    if word.is_empty() {
        return None;
    }
    Some((word, words))
}

/// `SCOPE NAME`, and the words behind it.
pub(crate) fn name_words(
    alloc: Global,
    words: Option<&str>,
) -> Result<Option<(NamedName, Option<&str>)>, EditError>
    ensures value { IfOk result (λ found. option_map (λ found. (found.0, parts_after 32 (option_copied found.1))) found ≡ spec.name_words (parts_after 32 (option_copied words.entry))) }
    ensures err { IsOkUnless result NoMemory }
{
    let Some((scope, words)) = scope_word(words) else {
        return Ok(None);
    };
    let Some((name, words)) = name_word(words) else {
        return Ok(None);
    };
    let name = Text::new(String::from_str(alloc, name)?);
    Ok(Some((NamedName { scope, name }, words)))
}

/// `SCOPE NAME SCOPE NAME`, and the words behind it.
pub(crate) fn update_words(
    alloc: Global,
    words: Option<&str>,
) -> Result<Option<(NamedUpdate, Option<&str>)>, EditError>
    ensures value { IfOk result (λ found. option_map (λ found. (found.0, parts_after 32 (option_copied found.1))) found ≡ spec.update_words (parts_after 32 (option_copied words.entry))) }
    ensures err { IsOkUnless result NoMemory }
{
    let Some((old, words)) = name_words(alloc, words)? else {
        return Ok(None);
    };
    let Some((new, words)) = name_words(alloc, words)? else {
        return Ok(None);
    };
    Ok(Some((NamedUpdate { old, new }, words)))
}

/// `S AREA PATH`, and the words behind it.
pub(crate) fn path_words(
    alloc: Global,
    words: Option<&str>,
) -> Result<Option<(NamedPath, Option<&str>)>, EditError>
    ensures value { IfOk result (λ found. option_map (λ found. (found.0, parts_after 32 (option_copied found.1))) found ≡ spec.path_words (parts_after 32 (option_copied words.entry))) }
    ensures err { IsOkUnless result NoMemory }
{
    let Some((area, words)) = area_words(words) else {
        return Ok(None);
    };
    let Some((path, words)) = name_word(words) else {
        return Ok(None);
    };
    let path = Text::new(String::from_str(alloc, path)?);
    Ok(Some((NamedPath { area, path }, words)))
}

/// WORD, and the words behind it.
pub(crate) fn text_word(
    alloc: Global,
    words: Option<&str>,
) -> Result<Option<(Text, Option<&str>)>, EditError>
    ensures value { IfOk result (λ found. option_map (λ found. (found.0, parts_after 32 (option_copied found.1))) found ≡ spec.word spec.name_of (parts_after 32 (option_copied words.entry))) }
    ensures err { IsOkUnless result NoMemory }
{
    let Some((word, words)) = name_word(words) else {
        return Ok(None);
    };
    let word = Text::new(String::from_str(alloc, word)?);
    Ok(Some((word, words)))
}

/// `#RRGGBB`, and the words behind it.
fn parts_word(words: Option<&str>) -> Option<(RgbColor, Option<&str>)>
    ensures { option_map (λ found. (found.0, parts_after 32 (option_copied found.1))) result ≡ spec.word parts_of (parts_after 32 (option_copied words.entry)) }
{
    let Some(words) = words else {
        return None;
    };
    let (word, words) = split_word(words);
    match parts_of(word) {
        Some(parts) => Some((parts, words)),
        None => None,
    }
}

/// Two `#RRGGBB`, and the words behind them.
fn two_parts(words: Option<&str>) -> Option<((RgbColor, RgbColor), Option<&str>)>
    ensures { option_map (λ found. (found.0, parts_after 32 (option_copied found.1))) result ≡ spec.two_parts (parts_after 32 (option_copied words.entry)) }
{
    let Some((one, words)) = parts_word(words) else {
        return None;
    };
    match parts_word(words) {
        Some((other, words)) => Some(((one, other), words)),
        None => None,
    }
}

/// Twelve `#RRGGBB`, and the words behind them.
pub(crate) fn theme_words(words: Option<&str>) -> Option<(Theme, Option<&str>)>
    ensures { option_map (λ found. (found.0, parts_after 32 (option_copied found.1))) result ≡ spec.theme_words (parts_after 32 (option_copied words.entry)) }
{
    let Some(((light1, dark1), words)) = two_parts(words) else {
        return None;
    };
    let Some(((light2, dark2), words)) = two_parts(words) else {
        return None;
    };
    let Some(((accent1, accent2), words)) = two_parts(words) else {
        return None;
    };
    let Some(((accent3, accent4), words)) = two_parts(words) else {
        return None;
    };
    let Some(((accent5, accent6), words)) = two_parts(words) else {
        return None;
    };
    let Some(((hyperlink, followed_hyperlink), words)) = two_parts(words) else {
        return None;
    };
    let theme = Theme {
        light1,
        dark1,
        light2,
        dark2,
        accent1,
        accent2,
        accent3,
        accent4,
        accent5,
        accent6,
        hyperlink,
        followed_hyperlink,
    };
    Some((theme, words))
}

/// What was found, where no word is behind it.
#[tactic(auto, using(crate::proofs::Words::never_ended))]
pub(crate) fn ended<T: Drop>(found: Option<(T, Option<&str>)>) -> Option<T>
    ensures { result ≡ option_and_then spec.ended (option_map (λ found. (found.0, parts_after 32 (option_copied found.1))) found.entry) }
{
    match found {
        Some((value, None)) => Some(value),
        Some((_, Some(_))) => None,
        None => None,
    }
}

/// What was found, with what is left of the line as a text.
pub(crate) fn with_text<T: Drop>(
    alloc: Global,
    found: Option<(T, Option<&str>)>,
) -> Result<Option<(T, Text)>, EditError>
    ensures value { IfOk result (λ read. read
        ≡ option_and_then spec.with_text (option_map (λ found. (found.0, parts_after 32 (option_copied found.1))) found.entry)) }
    ensures err { IsOkUnless result NoMemory }
{
    let Some((value, words)) = found else {
        return Ok(None);
    };
    match unescape(alloc, text_of(words))? {
        Some(text) => Ok(Some((value, text))),
        None => Ok(None),
    }
}

/// A command that takes no words.
#[tactic(auto, using(crate::proofs::Words::never_ended))]
pub(crate) fn alone(command: Command, words: Option<&str>) -> Option<Command>
    ensures { result ≡ spec.alone command (parts_after 32 (option_copied words.entry)) }
{
    match words {
        None => Some(command),
        Some(_) => None,
    }
}
