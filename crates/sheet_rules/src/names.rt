//! Which names the sheets of a workbook may have.

ghost use Rattle.std.specs.Prelude.{◌≡◌, not, length, slice_get, None};
ghost use Rattle.std.specs.List.{list_all, list_any, last_or};
ghost use Rattle.std.specs.Str.{chars};
ghost use Rattle.base_tables.specs.Folding.{same_folded};
ghost use Rattle.sheet_rules.specs.SheetNames.{is_apostrophe, is_forbidden, has_length, has_outer_apostrophe, is_sheet_name};
ghost use Rattle.sheet_rules.specs.WellFormed.{are_distinct, names_of};

use base_tables::same_by_folding;
use sheet_grid::Worksheet;

/// Whether a character may stand in no name.
fn is_forbidden(c: char) -> bool
    ensures { result ≡ is_forbidden c }
{
    matches!(c, ':' | '\\' | '/' | '?' | '*' | '[' | ']')
}

fn has_no_forbidden(name: &str) -> bool
    ensures { result ≡ list_all (λ c. not (is_forbidden c)) (chars name.now) }
{
    name.chars().all(|c| !is_forbidden(c))
}

fn count_of(name: &str) -> usize
    ensures { result ≡ length (chars name.now) }
{
    name.chars().count()
}

fn has_length(name: &str) -> bool
    ensures { result ≡ has_length (chars name.now) }
{
    let count = count_of(name);
    1 <= count && count <= 31
}

fn last_char(name: &str) -> Option<char>
    ensures { result ≡ last_or None (chars name.now) }
{
    name.chars().last()
}

fn first_char(name: &str) -> Option<char>
    ensures { result ≡ slice_get (chars name.now) 0 }
{
    name.chars().next()
}

fn is_apostrophe(c: Option<char>) -> bool
    ensures { result ≡ is_apostrophe c }
{
    match c {
        Some(c) => c == '\'',
        None => false,
    }
}

fn has_outer_apostrophe(name: &str) -> bool
    ensures { result ≡ has_outer_apostrophe (chars name.now) }
{
    is_apostrophe(first_char(name)) || is_apostrophe(last_char(name))
}

/// Whether a text may be the name of a sheet: 1 to 31 characters, none of them one of
/// `: \ / ? * [ ]`, and no apostrophe at an end. docs/MODEL.md has the rule.
#[tactic(auto, unfolding(crate::specs::SheetNames::is_sheet_name))]
pub fn is_sheet_name(name: &str) -> bool
    ensures { result ≡ is_sheet_name name.now }
{
    has_length(name) && has_no_forbidden(name) && !has_outer_apostrophe(name)
}

/// Whether each sheet's name may be one.
pub(crate) fn have_names(sheets: &[Worksheet]) -> bool
    ensures { result ≡ list_all is_sheet_name (names_of sheets.now) }
{
    sheets.iter().all(|sheet| is_sheet_name(sheet.get_name()))
}

fn is_taken(name: &str, sheets: &[Worksheet]) -> bool
    ensures { result ≡ list_any (same_folded name.now) (names_of sheets.now) }
{
    sheets
        .iter()
        .any(|sheet| same_by_folding(name, sheet.get_name()))
}

/// Whether no two sheets have names that are equal by case folding.
pub(crate) fn have_distinct_names(sheets: &[Worksheet]) -> bool
    ensures { result ≡ are_distinct same_folded (names_of sheets.now) }
{
    let mut rest = sheets;
    while let Some((first, others)) = rest.split_first() {
        if is_taken(first.get_name(), others) {
            return false;
        }
        rest = others;
    }
    true
}
