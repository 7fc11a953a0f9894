//! Which texts may be defined names.

ghost use Rattle.std.specs.Prelude.{◌≡◌, length};
ghost use Rattle.std.specs.Str.{chars};
ghost use Rattle.defined_names.specs.Legal.{is_boolean, is_any_boolean, is_short, is_defined_name};

use base_tables::{Language, needs_quotes, read_boolean};

/// The greatest number of characters of a name.
const MOST_CHARACTERS: usize = 255;

fn count_of(text: &str) -> usize
    ensures { result ≡ length (chars text.now) }
{
    text.chars().count()
}

fn is_short(text: &str) -> bool
    ensures { result ≡ is_short text.now }
{
    count_of(text) <= MOST_CHARACTERS
}

fn is_boolean(text: &str, language: Language) -> bool
    ensures { result ≡ is_boolean text.now language }
{
    read_boolean(text, language).is_some()
}

fn is_any_boolean(text: &str) -> bool
    ensures { result ≡ is_any_boolean text.now }
{
    is_boolean(text, Language::En)
        || is_boolean(text, Language::De)
        || is_boolean(text, Language::Fr)
        || is_boolean(text, Language::Es)
}

/// Whether a text may be a defined name: a word of at most 255 characters that reads as no cell, in
/// either form, and is the word for true or false in no language. docs/MODEL.md has the rule.
#[tactic(auto, unfolding(crate::specs::Legal::is_defined_name))]
pub fn is_defined_name(text: &str) -> bool
    ensures { result ≡ is_defined_name text.now }
{
    !needs_quotes(text) && is_short(text) && !is_any_boolean(text)
}
