ghost use Rattle.std.specs.Prelude.{◌≡◌, ◌<◌, ◌≤◌, ◌^◌, length, min, true};
ghost use Rattle.std.specs.List.{list_all, prefix_len};
ghost use Rattle.base_tables.specs.Word.{is_digit, number_after};

/// Whether the byte is an ASCII digit.
pub fn is_digit(c: u8) -> bool
    ensures { result ≡ is_digit c }
{
    b'0' <= c && c <= b'9'
}

/// How many digits stand at the front of a text.
pub fn digits_len(text: &[u8]) -> usize
    ensures value { result ≡ prefix_len is_digit text.now }
    ensures within { result ≤ length text.now }
{
    for (at, c) in text.iter().enumerate() {
        if !is_digit(*c) {
            return at;
        }
    }
    text.len()
}

/// The number that these digits write after those of `start`, or `cap` where it is larger.
pub fn capped_number(start: u128, digits: &[u8], cap: u128) -> u128
    requires start { start ≤ cap }
    requires bounded { cap < 2 ^ 120 }
    requires digits { list_all is_digit digits.now ≡ true }
    ensures number { result ≡ min (number_after start digits.now) cap }
    ensures bounded { result ≤ cap }
{
    let mut number = start;
    for c in digits {
        number = (number * 10 + u128::from(*c - b'0')).min(cap);
    }
    number
}
