//! The names of new sheets and of copies.

ghost use Rattle.std.specs.Prelude.{◌≡◌, ◌<◌, ◌≤◌, IfOk, IsOkUnless, length, take};
ghost use Rattle.std.specs.Str.{chars, encode_utf8_all};
ghost use Rattle.std.specs.String.{string_bytes};
ghost use Rattle.base_values.specs.declared.EditError.TheVariants.{NoMemory};
ghost use Rattle.sheet_grid.specs.Book.{names_of};
ghost use Rattle.sheet_naming.specs.FreeNames.{is_taken, sheet_text, free_text, new_name, copy_name, copy_ending, copy_text};
ghost use Rattle.sheet_naming.specs.Texts.{text_of};

use base_tables::same_by_folding;
use base_values::{EditError, Text};
use sheet_grid::Worksheet;
use std::alloc::Global;

/// The name of a new sheet with a number.
fn sheet_text(alloc: Global, n: usize) -> Result<String, EditError>
    ensures text { IfOk result (λ text. string_bytes text ≡ sheet_text n) }
    ensures only { IsOkUnless result NoMemory }
{
    Ok(format!(in alloc; "Sheet{n}")?)
}

/// How the name of a copy ends.
fn copy_ending(alloc: Global, n: usize) -> Result<String, EditError>
    ensures text { IfOk result (λ text. string_bytes text ≡ copy_ending n) }
    ensures only { IsOkUnless result NoMemory }
{
    Ok(format!(in alloc; " ({n})")?)
}

/// The first characters of a name, as many as there is room for before an ending.
fn cut(alloc: Global, name: &str, room: usize) -> Result<String, EditError>
    ensures text { IfOk result (λ text. string_bytes text ≡ encode_utf8_all (take room (chars name.now))) }
    ensures only { IsOkUnless result NoMemory }
{
    let mut text = String::new(alloc);
    let mut characters = name.chars();
    for _ in 0..room {
        let Some(c) = characters.next() else {
            break;
        };
        text.push(c)?;
    }
    Ok(text)
}

/// The name of a copy with a number, which has at most 31 characters.
fn copy_text(alloc: Global, name: &str, n: usize) -> Result<String, EditError>
    ensures text { IfOk result (λ text. string_bytes text ≡ copy_text name.now n) }
    ensures only { IsOkUnless result NoMemory }
{
    let ending = copy_ending(alloc, n)?;
    let mut text = cut(alloc, name, 31 - ending.len())?;
    text.push_str(ending.as_str())?;
    Ok(text)
}

/// Whether a sheet's name is equal to a text by folding.
fn is_taken(sheets: &[Worksheet], text: &str) -> bool
    ensures { result ≡ is_taken (names_of sheets.now) text.now }
{
    sheets
        .iter()
        .any(|sheet| same_by_folding(text, sheet.get_name()))
}

/// Texts that differ by a number.
#[derive(Clone, Copy)]
enum Numbered<'a> {
    /// The names of new sheets.
    Sheet,
    /// The names of copies of a sheet that has that name.
    Copy(&'a str),
}

fn text_of(alloc: Global, texts: Numbered, n: usize) -> Result<String, EditError>
    ensures text { IfOk result (λ text. string_bytes text ≡ text_of texts.entry n) }
    ensures only { IsOkUnless result NoMemory }
{
    match texts {
        Numbered::Sheet => sheet_text(alloc, n),
        Numbered::Copy(name) => copy_text(alloc, name, n),
    }
}

/// The first of the texts, of those of the numbers from one on, that is no sheet's name.
fn free_text(
    alloc: Global,
    sheets: &[Worksheet],
    texts: Numbered,
    first: usize,
) -> Result<Text, EditError>
    requires { first ≤ 2 }
    ensures text { IfOk result (λ text. text ≡ free_text (text_of texts.entry) first (names_of sheets.now)) }
    ensures only { IsOkUnless result NoMemory }
{
    let mut n = first;
    let mut text = text_of(alloc, texts, n)?;
    for _ in 0..sheets.len() {
        if !is_taken(sheets, text.as_str()) {
            break;
        }
        n += 1;
        text = text_of(alloc, texts, n)?;
    }
    Ok(Text::new(text))
}

/// The name of a new sheet: `Sheet` and the least number from 1 with which it is no other sheet's
/// name, by case folding. `NoMemory` alone is an error.
pub fn new_name(alloc: Global, sheets: &[Worksheet]) -> Result<Text, EditError>
    ensures name { IfOk result (λ name. name ≡ new_name (names_of sheets.now)) }
    ensures only { IsOkUnless result NoMemory }
{
    free_text(alloc, sheets, Numbered::Sheet, 1)
}

/// The name of the copy of a sheet: the name of the sheet, and behind it the least number from 2, in
/// parentheses, with which it is no other sheet's name, by case folding. The name of the sheet is cut
/// so that the whole has at most 31 characters. `NoMemory` alone is an error.
pub fn copy_name(alloc: Global, sheets: &[Worksheet], name: &str) -> Result<Text, EditError>
    ensures name { IfOk result (λ copy. copy ≡ copy_name (names_of sheets.now) name.now) }
    ensures only { IsOkUnless result NoMemory }
{
    free_text(alloc, sheets, Numbered::Copy(name), 2)
}
