ghost use Rattle.std.specs.Prelude.{◌≡◌, ◌-◌, ◌≤◌, length};
ghost use Rattle.std.specs.List.{prefix_len, suffix_len};
ghost use Rattle.sheet_progress.specs.Names.{is_filler, trimmed_end, trimmed};

fn is_filler(c: char) -> bool
    ensures { result ≡ is_filler c }
{
    c == '.' || c == ' '
}

fn filler_len(text: &[char]) -> usize
    ensures value { result ≡ prefix_len is_filler text.now }
    ensures within { result ≤ length text.now }
{
    for (at, c) in text.iter().enumerate() {
        if !is_filler(*c) {
            return at;
        }
    }
    text.len()
}

fn trimmed_end(text: &[char]) -> &[char]
    ensures { result.now ≡ trimmed_end text.now }
{
    let mut end = text.len();
    while end > 0 && is_filler(text[end - 1]) {
        end -= 1;
    }
    &text[..end]
}

/// The characters without the dots and spaces at both ends.
pub fn trimmed(text: &[char]) -> &[char]
    ensures { result.now ≡ trimmed text.now }
{
    trimmed_end(&text[filler_len(text)..])
}
