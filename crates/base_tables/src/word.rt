ghost use Rattle.std.specs.Prelude.{◌≡◌};
ghost use Rattle.std.specs.List.{list_all};
ghost use Rattle.std.specs.Str.{chars};
ghost use Rattle.base_tables.specs.Word.{starts_word, goes_on_word, begins_word, is_word};

fn starts_word(c: char) -> bool
    ensures { result ≡ starts_word c }
{
    c.is_alphabetic() || c == '_'
}

fn goes_on_word(c: char) -> bool
    ensures { result ≡ goes_on_word c }
{
    c.is_alphabetic() || c.is_ascii_digit() || c == '_' || c == '.'
}

fn begins_word(text: &str) -> bool
    ensures { result ≡ begins_word (chars text.now) }
{
    match text.chars().next() {
        Some(c) => starts_word(c),
        None => false,
    }
}

fn all_go_on(text: &str) -> bool
    ensures { result ≡ list_all goes_on_word (chars text.now) }
{
    text.chars().all(goes_on_word)
}

/// Whether the text is a word: an alphabetic character or `_`, and then alphabetic characters, ASCII
/// digits, `_` and `.`.
#[tactic(auto, unfolding(crate::specs::Word::is_word))]
pub fn is_word(text: &str) -> bool
    ensures { result ≡ is_word (chars text.now) }
{
    begins_word(text) && all_go_on(text)
}
