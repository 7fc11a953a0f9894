ghost use Rattle.std.specs.Prelude.{◌≡◌, ◌<◌, ◌==◌, ◌++◌, length, IfSome, encode_utf8};
ghost use Rattle.std.specs.Str.{chars};
ghost use Rattle.base_tables.specs.Column.{is_letter};
ghost use Rattle.base_tables.specs.Word.{is_digit, starts_word, goes_on_word};
ghost use Rattle.base_decimal.specs.Digits.{span, stops};
ghost use Rattle.formula_read.specs.Characters.{is_blank, goes_on_place};
ghost use Rattle.formula_read.specs.laws.Lex as spec;
ghost use Rattle.formula_read.specs.laws.Lex.{dollar_at};
ghost use Rattle.formula_read.specs.laws.Classes.{passes};
ghost use Rattle.formula_read.specs.laws.Outcome.{Cuts, left, seen};

/// The kinds of characters of which a run is taken.
#[derive(Clone, Copy)]
pub enum Class {
    Blank,
    Letter,
    Digit,
    Word,
}

fn is_blank(c: char) -> bool
    ensures { result ≡ is_blank c }
{
    c == ' ' || c == '\n'
}

pub fn is_letter(c: char) -> bool
    ensures { result ≡ is_letter c }
{
    ('A' <= c && c <= 'Z') || ('a' <= c && c <= 'z')
}

pub fn is_digit(c: char) -> bool
    ensures { result ≡ is_digit c }
{
    '0' <= c && c <= '9'
}

pub fn starts_word(c: char) -> bool
    ensures { result ≡ starts_word c }
{
    c.is_alphabetic() || c == '_'
}

pub fn goes_on_word(c: char) -> bool
    ensures { result ≡ goes_on_word c }
{
    c.is_alphabetic() || is_digit(c) || c == '_' || c == '.'
}

fn passes(class: Class, c: char) -> bool
    ensures { result ≡ passes class c }
{
    match class {
        Class::Blank => is_blank(c),
        Class::Letter => is_letter(c),
        Class::Digit => is_digit(c),
        Class::Word => goes_on_word(c),
    }
}

/// The first character, and what follows it.
#[tactic(auto, using(crate::proofs::Lexing::first_character))]
pub fn first(text: &str) -> Option<(char, &str)>
    ensures value { seen result ≡ spec.first (chars text.now) }
    ensures bytes { IfSome result (λ p. text.now ≡ encode_utf8 p.0 ++ p.1.now) }
    ensures shorter { IfSome result (λ p. length p.1.now < length text.now) }
{
    let mut characters = text.chars();
    let c = characters.next()?;
    Some((c, characters.as_str()))
}

/// The length in bytes of the longest front of these characters.
fn run_len(class: Class, text: &str) -> usize
    ensures { Cuts text.now result (span (passes class) (chars text.now)) }
{
    let mut rest = text;
    while let Some((c, more)) = first(rest) {
        if !passes(class, c) {
            return text.len() - rest.len();
        }
        rest = more;
    }
    text.len() - rest.len()
}

/// The longest front of these characters, and what follows it.
pub fn run(class: Class, text: &str) -> (&str, &str)
    ensures front { chars result.0.now ≡ (span (passes class) (chars text.now)).0 }
    ensures rest { chars result.1.now ≡ (span (passes class) (chars text.now)).1 }
{
    text.split_at(run_len(class, text))
}

/// Whether a dollar stands at the front, and what follows it.
pub fn dollar(text: &str) -> (bool, &str)
    ensures mark { result.0 ≡ (dollar_at (chars text.now)).0 }
    ensures rest { chars result.1.now ≡ (dollar_at (chars text.now)).1 }
{
    match past('$', text) {
        Some(rest) => (true, rest),
        None => (false, text),
    }
}

/// Whether a cell or a range may end before the text.
pub fn ends_place(text: &str) -> bool
    ensures { result ≡ stops goes_on_place (chars text.now) }
{
    match first(text) {
        Some((c, _)) => !(goes_on_word(c) || c == '$' || c == '!' || c == '('),
        None => true,
    }
}

/// Whether the text does not begin with the character.
pub fn ends_before(mark: char, text: &str) -> bool
    ensures { result ≡ stops (λ c. c == mark) (chars text.now) }
{
    match first(text) {
        Some((c, _)) => c != mark,
        None => true,
    }
}

/// What follows this character, if it stands at the front.
pub fn past(mark: char, text: &str) -> Option<&str>
    ensures value { left result ≡ spec.past mark (chars text.now) }
    ensures shorter { IfSome result (λ rest. length rest.now < length text.now) }
{
    match first(text) {
        Some((c, rest)) if c == mark => Some(rest),
        _ => None,
    }
}
