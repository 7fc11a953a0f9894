ghost use Rattle.std.specs.Prelude.{◌≡◌};
ghost use Rattle.std.specs.Str.{chars};
ghost use Rattle.base_tables.specs.Error.{error_text};
ghost use Rattle.formula_read.specs.laws.Lex as spec;
ghost use Rattle.formula_read.specs.laws.Outcome.{left, seen};

use base_tables::{Error, Language};

/// What follows the name, if it stands at the front of the text.
#[tactic(auto, using(crate::proofs::Lexing::stripped))]
fn strip<'a>(name: &str, text: &'a str) -> Option<&'a str>
    ensures { left result ≡ spec.strip (chars name.now) (chars text.now) }
{
    text.strip_prefix(name)
}

/// What follows the language's own text for a lost reference.
#[tactic(auto, using(crate::proofs::Lexing::own_texts))]
fn own_error(language: Language, text: &str) -> Option<&str>
    ensures { left result ≡ spec.own_error language (chars text.now) }
{
    match language {
        Language::De => strip("#BEZUG!", text),
        Language::Es => strip("#¡REF!", text),
        Language::En | Language::Fr => None,
    }
}

/// What follows the error's English text.
#[tactic(auto, using(crate::proofs::Lexing::error_characters))]
fn after_error(error: Error, text: &str) -> Option<&str>
    ensures { left result ≡ spec.strip (error_text error) (chars text.now) }
{
    strip(error.text(), text)
}

/// The first of the errors whose English text stands at the front, and what follows that.
fn english_error<'a>(errors: &[Error], text: &'a str) -> Option<(Error, &'a str)>
    ensures { seen result ≡ spec.english_error errors.now (chars text.now) }
{
    for error in errors {
        if let Some(rest) = after_error(*error, text) {
            return Some((*error, rest));
        }
    }
    None
}

/// The error whose text stands at the front, and what follows it.
#[tactic(auto, unfolding(crate::specs::laws::Lex::error_at))]
pub fn error(language: Language, text: &str) -> Option<(Error, &str)>
    ensures { seen result ≡ spec.error_at language (chars text.now) }
{
    match own_error(language, text) {
        Some(rest) => Some((Error::Ref, rest)),
        None => english_error(&Error::ALL, text),
    }
}
