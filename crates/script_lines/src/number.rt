ghost use Rattle.std.specs.Prelude.{◌≡◌, ◌^◌, ◌≤◌, ◌<◌, true, neg_ℤ, pos, IfSome};
ghost use Rattle.script_lines.specs.Number.{are_digits, value_below, number_below, signed_number};

fn are_digits(bytes: &[u8]) -> bool
    ensures { result ≡ are_digits bytes.now }
{
    bytes.iter().all(|byte| *byte >= 48 && *byte < 58)
}

fn value_of(digits: &[u8], limit: u128) -> Option<u64>
    requires digits { are_digits digits.now ≡ true }
    requires low { 1 ≤ limit }
    requires high { limit ≤ 2 ^ 64 }
    ensures { result ≡ value_below limit digits.now }
{
    let mut value = 0u128;
    for byte in digits {
        value = value * 10 + u128::from(*byte - 48);
        if value >= limit {
            return None;
        }
    }
    Some(value as u64)
}

/// The number that the digits spell, below a limit. There may be any number of zeros before it.
fn read_below(bytes: &[u8], limit: u128) -> Option<u64>
    requires low { 1 ≤ limit }
    requires high { limit ≤ 2 ^ 64 }
    ensures value { result ≡ number_below limit bytes.now }
    ensures below { IfSome result (λ value. value < limit) }
{
    if bytes.is_empty() || !are_digits(bytes) {
        return None;
    }
    value_of(bytes, limit)
}

/// The number that the digits spell, below 2^64.
pub(crate) fn read_u64(bytes: &[u8]) -> Option<u64>
    ensures { result ≡ number_below (2 ^ 64) bytes.now }
{
    read_below(bytes, 0x1_0000_0000_0000_0000)
}

fn short(number: u64) -> u32
    requires { number < 2 ^ 32 }
    ensures { result ≡ number }
{
    number as u32
}

/// The number that the digits spell, below 2^32.
pub(crate) fn read_u32(bytes: &[u8]) -> Option<u32>
    ensures { result ≡ number_below (2 ^ 32) bytes.now }
{
    read_below(bytes, 0x1_0000_0000).map(short)
}

/// How many commands are drawn: the number that the digits spell, at most 100,000.
pub(crate) fn read_drawn(bytes: &[u8]) -> Option<u32>
    ensures { result ≡ number_below 100001 bytes.now }
{
    read_below(bytes, 100_001).map(short)
}

fn positive(number: u64) -> i32
    requires { number < 2 ^ 31 }
    ensures { result ≡ pos number }
{
    number as i32
}

fn negative(number: u64) -> i32
    requires { number ≤ 2 ^ 31 }
    ensures { result ≡ neg_ℤ (pos number) }
{
    (-(number as i64)) as i32
}

/// The number from -2^31 to 2^31 - 1 that the digits spell, behind a minus sign or without one.
pub(crate) fn read_i32(bytes: &[u8]) -> Option<i32>
    ensures { result ≡ signed_number bytes.now }
{
    match bytes {
        [b'-', digits @ ..] => read_below(digits, 0x8000_0001).map(negative),
        _ => read_below(bytes, 0x8000_0000).map(positive),
    }
}
