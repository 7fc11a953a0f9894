ghost use Rattle.std.specs.Prelude.{◌≡◌, ◌==◌, ◌<◌, ◌∷◌, length, IfSome};
ghost use Rattle.std.specs.List.{position};
ghost use Rattle.std.specs.Option.{option_copied};
ghost use Rattle.script_lines.specs.Parts.{parts_at, parts_after, without_return, text_of};

fn first_place(bytes: &[u8], separator: u8) -> Option<usize>
    ensures { result ≡ position (λ byte. byte == separator) bytes.now }
{
    bytes.iter().position(|byte| *byte == separator)
}

/// What stands before the first separator, and what behind it if there is one.
pub fn split_first(bytes: &[u8], separator: u8) -> (&[u8], Option<&[u8]>)
    ensures parts { parts_at separator bytes.now
        ≡ result.0.now ∷ parts_after separator (option_copied result.1) }
    ensures shorter { IfSome result.1 (λ rest. length rest.now < length bytes.now) }
{
    match first_place(bytes, separator) {
        Some(at) => (&bytes[..at], Some(&bytes[at + 1..])),
        None => (bytes, None),
    }
}

/// A line without the carriage return at its end, if it has one there.
pub fn without_return(line: &[u8]) -> &[u8]
    ensures { result.now ≡ without_return line.now }
{
    match line.last() {
        Some(b'\r') => &line[..line.len() - 1],
        _ => line,
    }
}

/// The first word of a text, and what stands behind the space that ends it.
pub(crate) fn split_word(text: &str) -> (&str, Option<&str>)
    ensures { parts_at 32 text.now ≡ result.0.now ∷ parts_after 32 (option_copied result.1) }
{
    match text.split_once(' ') {
        Some((word, words)) => (word, Some(words)),
        None => (text, None),
    }
}

/// All that is left of a line, with the spaces in it.
pub(crate) fn text_of<'a>(words: Option<&'a str>) -> &'a str
    ensures { result.now ≡ text_of (parts_after 32 (option_copied words.entry)) }
{
    match words {
        Some(text) => text,
        None => "",
    }
}
