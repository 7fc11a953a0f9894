//! Workbooks from their bytes.

ghost use Rattle.std.specs.Prelude.{◌≡◌, Err};
ghost use Rattle.base_values.specs.Answers.{Answers, map_ok};
ghost use Rattle.base_values.specs.declared.EditError.TheVariants.{ParseDiffs, ParseWorkbook};
ghost use Rattle.base_wire.specs.Reads.{HasNoFront, ReadsWhole};
ghost use Rattle.base_wire.specs.laws.Reading.{◌⊗◌, list_at, rest_after};
ghost use Rattle.grid_wire.specs.BookBytes.{book_magic, IsBook};
ghost use Rattle.grid_wire.specs.laws.BookLaws.{book_at, book_made, book_of, names_at, settings_at, workbook_refusal};
ghost use Rattle.grid_wire.specs.laws.Reading.{sheet_at};

use crate::names_list::NameListPart;
use crate::setting_parts::{LocalePart, ThemePart, ZonePart};
use crate::sheets::SheetPart;
use base_shared::Shared;
use base_styles::{Style, Theme};
use base_tables::{Locale, Zone};
use base_values::{EditError, Items, Text};
use base_wire::{counted_after, read};
use defined_names::NameList;
use sheet_grid::{DefaultStyle, Workbook, Worksheet};
use std::alloc::Global;

/// The name, the locale, the time zone and the theme.
type Settings = (Text, (Locale, (Zone, Theme)));

/// The defined names and the sheets.
type Contents = (NameList, Items<Worksheet>);

fn settings_at(alloc: Global, bytes: &[u8]) -> Result<(Settings, &[u8]), EditError>
    ensures { Answers (map_ok (λ x. (x.0, x.1.now)) result) (settings_at bytes.now) }
{
    let (name, rest) = read::<Text>(alloc, &(), bytes)?;
    let (locale, rest) = read::<LocalePart>(alloc, &(), rest)?;
    let (zone, rest) = read::<ZonePart>(alloc, &(), rest)?;
    let (theme, rest) = read::<ThemePart>(alloc, &(), rest)?;
    Ok(((name, (locale, (zone, theme))), rest))
}

fn contents_at<'a>(
    alloc: Global,
    plain: &Shared<Style>,
    bytes: &'a [u8],
) -> Result<(Contents, &'a [u8]), EditError>
    ensures { Answers (map_ok (λ x. (x.0, x.1.now)) result) ((names_at ⊗ list_at sheet_at) bytes.now) }
{
    let (names, rest) = read::<NameListPart>(alloc, &(), bytes)?;
    let (sheets, rest) = read::<Items<SheetPart>>(alloc, plain, rest)?;
    Ok(((names, sheets), rest))
}

/// The workbook of these settings, names and sheets. `NoMemory` alone is an error.
fn workbook_of(alloc: Global, settings: Settings, contents: Contents) -> Result<Workbook, EditError>
    ensures { Answers result (Ok (book_made (settings, contents))) }
{
    let (name, (locale, (zone, theme))) = settings;
    let (names, sheets) = contents;
    let mut bare = Workbook::new_empty(alloc, name.as_str(), locale, zone)?;
    bare.set_theme(&theme);
    let mut workbook = bare.with_worksheets(sheets)?;
    workbook.set_name_list(names);
    Ok(workbook)
}

fn book_at<'a>(
    alloc: Global,
    plain: &Shared<Style>,
    bytes: &'a [u8],
) -> Result<(Workbook, &'a [u8]), EditError>
    ensures { Answers (map_ok (λ x. (x.0, x.1.now)) result) (book_at bytes.now) }
{
    let (settings, rest) = settings_at(alloc, bytes)?;
    let (contents, rest) = contents_at(alloc, plain, rest)?;
    let workbook = workbook_of(alloc, settings, contents)?;
    Ok((workbook, rest))
}

/// What stands after the bytes that every workbook begins with.
fn after_magic(bytes: &[u8]) -> Result<&[u8], EditError>
    ensures { map_ok (λ x. x.now) result ≡ rest_after book_magic bytes.now }
{
    match bytes.strip_prefix(b"ICW1".as_slice()) {
        Some(rest) => Ok(rest),
        None => Err(EditError::ParseDiffs),
    }
}

#[tactic(auto, unfolding(crate::specs::laws::BookLaws::book_of))]
fn read_book(alloc: Global, plain: &Shared<Style>, bytes: &[u8]) -> Result<Workbook, EditError>
    ensures { Answers result (book_of bytes.now) }
{
    let rest = after_magic(bytes)?;
    let (workbook, rest) = book_at(alloc, plain, rest)?;
    if !rest.is_empty() {
        return Err(EditError::ParseDiffs);
    }
    Ok(workbook)
}

/// The same, where the first bytes are tested before any memory is taken.
fn read_workbook(alloc: Global, bytes: &[u8]) -> Result<Workbook, EditError>
    ensures read { Answers result (book_of bytes.now) }
    ensures early { HasNoFront book_magic bytes.now → result ≡ Err ParseDiffs }
{
    counted_after(b"ICW1", bytes)?;
    let plain = DefaultStyle::new(alloc)?;
    read_book(alloc, plain.shared(), bytes)
}

/// What is no workbook's is refused with `ParseWorkbook`.
fn workbook_refusal(error: EditError) -> EditError
    ensures { result ≡ workbook_refusal error }
{
    match error {
        EditError::NoMemory => EditError::NoMemory,
        _ => EditError::ParseWorkbook,
    }
}

/// The workbook that all of these bytes encode (docs/FORMATS.md, "Bytes"), whether it meets the rules or
/// not. The keys of its sheets' maps are inside the sheet.
///
/// `ParseWorkbook` where they are the encoding of no workbook: where they are cut short or go on, begin
/// otherwise, or where a code, a count, a decimal, a text or a key in them is not one. Else refuses with
/// `NoMemory` alone, and not where they begin otherwise or their first length is too great.
pub fn decode_workbook(alloc: Global, bytes: &[u8]) -> Result<Workbook, EditError>
    ensures read { ReadsWhole IsBook ParseWorkbook bytes.now result }
    ensures early { HasNoFront book_magic bytes.now → result ≡ Err ParseWorkbook }
{
    match read_workbook(alloc, bytes) {
        Ok(workbook) => Ok(workbook),
        Err(error) => Err(workbook_refusal(error)),
    }
}
