//! The height that a text asks for.

ghost use Rattle.std.specs.Prelude.{◌≡◌, Ok};
ghost use Rattle.std.specs.Option.{option_copied};
ghost use Rattle.base_values.specs.Answers.{Returns};
ghost use Rattle.sheet_grid.specs.Lines.{actual_size, usual_height};
ghost use Rattle.line_sizes.specs.Heights.{full_height, line_feeds, needed_height, raised_entry};

use crate::change::{LineChange, changed_entry};
use base_values::{EditError, copy_of};
use sheet_grid::{LineAttr, USUAL_HEIGHT};

/// How many line feeds a text has.
pub fn line_feeds(text: &str) -> u64
    ensures { result ≡ line_feeds text.now }
{
    text.as_bytes()
        .iter()
        .filter(|byte| **byte == b'\n')
        .count() as u64
}

/// The height that a text of so many line feeds asks for in a font of a size.
fn full_height(feeds: u64, size: u32) -> u128
    ensures { result ≡ full_height feeds size }
{
    (3 * u128::from(feeds) + 2) * u128::from(size) + 16
}

/// The height in half pixels that a text asks for by its line feeds, in a font of a size: three times
/// the size for each of them, twice the size for the last line, and 16; at most 2,147,483,647.
pub fn needed_height(feeds: u64, size: i32) -> i32
    ensures { result ≡ needed_height feeds size }
{
    full_height(feeds, size.unsigned_abs()).min(2_147_483_647) as i32
}

/// The height of a row in half pixels, also where it is hidden.
fn own_height(entry: Option<&LineAttr>) -> i32
    ensures { result ≡ actual_size usual_height (option_copied entry.entry) }
{
    match entry {
        Some(attr) => attr.size.unwrap_or(USUAL_HEIGHT),
        None => USUAL_HEIGHT,
    }
}

/// A copy of what a line has, if it has something. `NoMemory` alone is an error.
pub fn copied_entry(entry: Option<&LineAttr>) -> Result<Option<LineAttr>, EditError>
    ensures { Returns result (Ok (option_copied entry.entry)) }
{
    match entry {
        Some(attr) => Ok(Some(copy_of(attr)?)),
        None => Ok(None),
    }
}

/// What a row has where a text asks for a height: that height where it is greater than the row's, hiding
/// aside, else what it had. `NoMemory` alone is an error.
pub fn raised_entry(needed: i32, entry: Option<&LineAttr>) -> Result<Option<LineAttr>, EditError>
    ensures { Returns result (Ok (raised_entry needed (option_copied entry.entry))) }
{
    if own_height(entry) < needed {
        changed_entry(LineChange::Size(Some(needed)), entry)
    } else {
        copied_entry(entry)
    }
}
