ghost use Rattle.std.specs.Prelude.{◌≡◌, ◌<◌, ◌≤◌, length, slice_index, IsTrue};
ghost use Rattle.base_tables.specs.Word.{is_digit};
ghost use Rattle.sheet_progress.specs.Suffixes.{suffix_start, prefix_of, suffix_of};

fn is_digit(byte: u8) -> bool
    ensures value { result ≡ is_digit byte }
    ensures ascii { IsTrue result → byte < 128 }
{
    byte.is_ascii_digit()
}

fn suffix_start(text: &[u8]) -> usize
    ensures start { result ≡ suffix_start text.now }
    ensures within { result ≤ length text.now }
    ensures ascii { result < length text.now → slice_index text.now result < 128 }
{
    let mut start = text.len();
    while start > 0 && is_digit(text[start - 1]) {
        start -= 1;
    }
    start
}

/// A text without the ASCII digits at its end, and these digits.
pub fn split_suffix(text: &str) -> (&str, &str)
    ensures prefix { result.0.now ≡ prefix_of text.now }
    ensures suffix { result.1.now ≡ suffix_of text.now }
{
    text.split_at(suffix_start(text.as_bytes()))
}
