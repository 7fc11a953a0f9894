ghost use Rattle.std.specs.Prelude.{◌≡◌, ◌++◌, ◌<◌, map, OnOk, string_bytes, encode_utf8_all};
ghost use Rattle.sheet_progress.specs.Names.{raised, lowered, plain, letter};

use std::alloc::AllocError;

/// What becomes of the letters of a text.
#[derive(Clone, Copy)]
pub enum Letters {
    /// The letters of names become capitals.
    Raised,
    /// The letters of names become small ones.
    Lowered,
    /// A to Z become small ones, and those with accents lose them.
    Plain,
    /// All stay as they are.
    AsWritten,
}

/// The letters a to z, á, ä, é and û as capitals.
pub fn raised(c: char) -> char
    ensures { result ≡ raised c }
{
    match c {
        'á' => 'Á',
        'ä' => 'Ä',
        'é' => 'É',
        'û' => 'Û',
        _ => c.to_ascii_uppercase(),
    }
}

/// The letters A to Z, Á, Ä, É and Û as small ones.
fn lowered(c: char) -> char
    ensures { result ≡ lowered c }
{
    match c {
        'Á' => 'á',
        'Ä' => 'ä',
        'É' => 'é',
        'Û' => 'û',
        _ => c.to_ascii_lowercase(),
    }
}

/// A to Z as small letters, and the letters with accents without them.
fn plain(c: char) -> char
    ensures { result ≡ plain c }
{
    match c {
        'á' | 'Á' | 'ä' | 'Ä' => 'a',
        'é' | 'É' => 'e',
        'ì' | 'Ì' => 'i',
        'û' | 'Û' => 'u',
        _ => c.to_ascii_lowercase(),
    }
}

impl Letters {
    fn letter(self, c: char) -> char
        ensures { result ≡ letter self c }
    {
        match self {
            Letters::Raised => raised(c),
            Letters::Lowered => lowered(c),
            Letters::Plain => plain(c),
            Letters::AsWritten => c,
        }
    }
}

/// Writes characters, each by what becomes of it.
#[tactic(auto, using(crate::proofs::Mapped::mapped_turn))]
pub fn push_letters(text: &[char], letters: Letters, out: &mut String) -> Result<(), AllocError>
    ensures { OnOk result (string_bytes out.new ≡ string_bytes out.old ++ encode_utf8_all (map (letter letters) text.now)) }
{
    for c in text {
        out.push(letters.letter(*c))?;
    }
    Ok(())
}
