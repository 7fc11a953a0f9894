ghost use Rattle.std.specs.Prelude.{◌≡◌, IfSome};
ghost use Rattle.base_tables.specs.Tables.{entry_named};
ghost use Rattle.base_tables.specs.Error.{all_errors, error_code, error_of_code, error_text, error_of_text, is_own_reference_error};

use crate::language::Language;
use base_values::Exact;

/// An error value of a cell or a formula.
#[derive(Clone, Copy, Debug, PartialEq, Eq)]
pub enum Error {
    /// `#REF!`
    Ref,
    /// `#NAME?`
    Name,
    /// `#VALUE!`
    Value,
    /// `#DIV/0!`
    DivisionByZero,
    /// `#N/A`
    NotAvailable,
    /// `#NUM!`
    Number,
    /// `#ERROR!`
    General,
    /// `#N/IMPL!`
    NotImplemented,
    /// `#SPILL!`
    Spill,
    /// `#CALC!`
    Calc,
    /// `#CIRC!`
    Circular,
    /// `#NULL!`
    Null,
}

impl Error {
    /// All errors, in the order of their codes.
    pub const ALL: [Error; 12] = [
        Error::Ref,
        Error::Name,
        Error::Value,
        Error::DivisionByZero,
        Error::NotAvailable,
        Error::Number,
        Error::General,
        Error::NotImplemented,
        Error::Spill,
        Error::Calc,
        Error::Circular,
        Error::Null,
    ];

    /// The number of the error in bytes, from 0.
    pub fn code(self) -> u8
        ensures value { result ≡ error_code self }
        ensures back { error_of_code result ≡ Some self }
    {
        match self {
            Error::Ref => 0,
            Error::Name => 1,
            Error::Value => 2,
            Error::DivisionByZero => 3,
            Error::NotAvailable => 4,
            Error::Number => 5,
            Error::General => 6,
            Error::NotImplemented => 7,
            Error::Spill => 8,
            Error::Calc => 9,
            Error::Circular => 10,
            Error::Null => 11,
        }
    }

    /// The error with that number, or `None` where no error has it.
    pub fn from_code(code: u8) -> Option<Error>
        ensures value { result ≡ error_of_code code }
        ensures back { IfSome result (λ error. error_code error ≡ code) }
    {
        Error::ALL.get(usize::from(code)).copied()
    }

    /// The English text, which every language prints and reads.
    pub fn text(self) -> &'static str
        ensures { result.now ≡ error_text self }
    {
        match self {
            Error::Ref => "#REF!",
            Error::Name => "#NAME?",
            Error::Value => "#VALUE!",
            Error::DivisionByZero => "#DIV/0!",
            Error::NotAvailable => "#N/A",
            Error::Number => "#NUM!",
            Error::General => "#ERROR!",
            Error::NotImplemented => "#N/IMPL!",
            Error::Spill => "#SPILL!",
            Error::Calc => "#CALC!",
            Error::Circular => "#CIRC!",
            Error::Null => "#NULL!",
        }
    }
}

/// The language's own text for a lost reference, which is read and never printed.
fn is_own_reference_error(text: &str, language: Language) -> bool
    ensures { result ≡ is_own_reference_error language text.now }
{
    match language {
        Language::De => text == "#BEZUG!",
        Language::Es => text == "#¡REF!",
        Language::En | Language::Fr => false,
    }
}

fn english_error(text: &str) -> Option<Error>
    ensures { result ≡ entry_named error_text all_errors text.now }
{
    Error::ALL
        .iter()
        .copied()
        .find(|error| error.text() == text)
}

/// The error that the text is read as: an English text in every language, and further `#BEZUG!` in
/// German and `#¡REF!` in Spanish. The spelling is exact.
#[tactic(auto, using(crate::specs::laws::Error::read_back))]
pub fn read_error(text: &str, language: Language) -> Option<Error>
    ensures value { result ≡ error_of_text language text.now }
    // What an error prints is read as that error.
    ensures back { (error : Error) → error_text error ≡ text.now → result ≡ Some error }
{
    if is_own_reference_error(text, language) {
        return Some(Error::Ref);
    }
    english_error(text)
}

impl Exact for Error {
    ghost use Rattle.std.proofs.Common.{rules};
    ghost use Rattle.base_tables.specs.laws.ErrorEquals.{error_equals};

    ghost copies = { λ a b h. Prim.search rules };

    ghost equals = { error_equals };
}
