//! Numbers, booleans, error values, decimals and texts from the front of bytes (docs/FORMATS.md,
//! "Bytes"). Each reader answers the value and the bytes after it. It refuses with `ParseDiffs` bytes
//! that are cut short or encode no such value.

ghost use Rattle.std.specs.Prelude.{◌≡◌, IsErrAnd, if◌then◌else◌};
ghost use Rattle.base_values.specs.declared.EditError.TheVariants.{ParseDiffs};
ghost use Rattle.std.specs.Int.{w32, w64, w128};
ghost use Rattle.std.specs.Str.{is_utf8};
ghost use Rattle.base_values.specs.Answers.{Answers, map_ok};
ghost use Rattle.base_wire.specs.Reads.{HasNoCount};
ghost use Rattle.base_wire.specs.laws.Reading.{byte_at, bytes_at, count_at, number_at, signed_at, sized_at, text_at, boolean_at, decimal_at, error_at};

use crate::codes::boolean_of;
use base_decimal::Decimal;
use base_tables::Error;
use base_values::{EditError, Text};
use std::alloc::Global;

/// The first byte.
pub(crate) fn byte_at(bytes: &[u8]) -> Result<(u8, &[u8]), EditError>
    ensures { Answers (map_ok (λ x. (x.0, x.1.now)) result) (byte_at bytes.now) }
{
    match bytes {
        [] => Err(EditError::ParseDiffs),
        [byte, rest @ ..] => Ok((*byte, rest)),
    }
}

/// Four bytes as a number, the highest first.
pub(crate) fn u32_at(bytes: &[u8]) -> Result<(u32, &[u8]), EditError>
    ensures { Answers (map_ok (λ x. (x.0, x.1.now)) result) (number_at w32 bytes.now) }
{
    if bytes.len() < 4 {
        return Err(EditError::ParseDiffs);
    }
    let (front, rest) = bytes.split_at(4);
    let number = u32::from_be_bytes([front[0], front[1], front[2], front[3]]);
    Ok((number, rest))
}

/// Eight bytes as a number, the highest first.
pub(crate) fn u64_at(bytes: &[u8]) -> Result<(u64, &[u8]), EditError>
    ensures read { Answers (map_ok (λ x. (x.0, x.1.now)) result) (number_at w64 bytes.now) }
    ensures exact { map_ok (λ x. (x.0, x.1.now)) result ≡ number_at w64 bytes.now }
{
    if bytes.len() < 8 {
        return Err(EditError::ParseDiffs);
    }
    let (front, rest) = bytes.split_at(8);
    let number = u64::from_be_bytes([
        front[0], front[1], front[2], front[3], front[4], front[5], front[6], front[7],
    ]);
    Ok((number, rest))
}

/// Four bytes as a signed number in two's complement.
pub(crate) fn i32_at(bytes: &[u8]) -> Result<(i32, &[u8]), EditError>
    ensures { Answers (map_ok (λ x. (x.0, x.1.now)) result) (signed_at w32 bytes.now) }
{
    let (number, rest) = u32_at(bytes)?;
    Ok((number.cast_signed(), rest))
}

fn i128_at(bytes: &[u8]) -> Result<(i128, &[u8]), EditError>
    ensures { Answers (map_ok (λ x. (x.0, x.1.now)) result) (signed_at w128 bytes.now) }
{
    if bytes.len() < 16 {
        return Err(EditError::ParseDiffs);
    }
    let (front, rest) = bytes.split_at(16);
    let number = i128::from_be_bytes([
        front[0], front[1], front[2], front[3], front[4], front[5], front[6], front[7], front[8],
        front[9], front[10], front[11], front[12], front[13], front[14], front[15],
    ]);
    Ok((number, rest))
}

/// A byte that is 0 or 1.
pub(crate) fn boolean_at(bytes: &[u8]) -> Result<(bool, &[u8]), EditError>
    ensures { Answers (map_ok (λ x. (x.0, x.1.now)) result) (boolean_at bytes.now) }
{
    let (code, rest) = byte_at(bytes)?;
    let value = boolean_of(code)?;
    Ok((value, rest))
}

fn bytes_at(count: u64, bytes: &[u8]) -> Result<(&[u8], &[u8]), EditError>
    ensures { map_ok (λ x. (x.0.now, x.1.now)) result ≡ bytes_at count bytes.now }
{
    if (bytes.len() as u64) < count {
        return Err(EditError::ParseDiffs);
    }
    Ok(bytes.split_at(count as usize))
}

/// The bytes as UTF-8.
fn utf8_of(bytes: &[u8]) -> Result<&str, EditError>
    ensures { Answers (map_ok (λ x. x.now) result) (if is_utf8 bytes.now then Ok bytes.now else Err ParseDiffs) }
{
    match str::from_utf8(bytes) {
        Ok(text) => Ok(text),
        Err(_) => Err(EditError::ParseDiffs),
    }
}

/// The byte of an error value: 0 to 11.
pub(crate) fn error_at(bytes: &[u8]) -> Result<(Error, &[u8]), EditError>
    ensures { Answers (map_ok (λ x. (x.0, x.1.now)) result) (error_at bytes.now) }
{
    let (code, rest) = byte_at(bytes)?;
    match Error::from_code(code) {
        Some(error) => Ok((error, rest)),
        None => Err(EditError::ParseDiffs),
    }
}

/// A canonical decimal.
#[tactic(auto, unfolding(crate::specs::laws::Reading::decimal_at))]
pub(crate) fn decimal_at(bytes: &[u8]) -> Result<(Decimal, &[u8]), EditError>
    ensures { Answers (map_ok (λ x. (x.0, x.1.now)) result) (decimal_at bytes.now) }
{
    let (mantissa, rest) = i128_at(bytes)?;
    let (places, rest) = byte_at(rest)?;
    let number = Decimal { mantissa, places };
    if !number.is_canonical() {
        return Err(EditError::ParseDiffs);
    }
    Ok((number, rest))
}

/// A count of items, which is no greater than the number of the bytes after it: each item takes one
/// at least. Takes no memory.
///
/// Refuses with `ParseDiffs` where there are fewer than eight bytes, or the count is greater.
pub fn count_at(bytes: &[u8]) -> Result<(u64, &[u8]), EditError>
    ensures { map_ok (λ x. (x.0, x.1.now)) result ≡ count_at bytes.now }
{
    let (count, rest) = u64_at(bytes)?;
    if (rest.len() as u64) < count {
        return Err(EditError::ParseDiffs);
    }
    Ok((count, rest))
}

/// A length, and so many bytes.
fn sized_at(bytes: &[u8]) -> Result<(&[u8], &[u8]), EditError>
    ensures { map_ok (λ x. (x.0.now, x.1.now)) result ≡ sized_at bytes.now }
{
    let (count, rest) = u64_at(bytes)?;
    bytes_at(count, rest)
}

/// A length, and so many bytes of UTF-8. Also refuses with `NoMemory`, but not where fewer bytes are left.
#[tactic(auto, unfolding(crate::specs::laws::Reading::text_at))]
pub(crate) fn text_at(alloc: Global, bytes: &[u8]) -> Result<(Text, &[u8]), EditError>
    ensures read { Answers (map_ok (λ x. (x.0, x.1.now)) result) (text_at bytes.now) }
    ensures early { HasNoCount bytes.now → IsErrAnd result (λ e. e ≡ ParseDiffs) }
{
    let (front, rest) = sized_at(bytes)?;
    let text = utf8_of(front)?;
    Ok((Text::new(String::from_str(alloc, text)?), rest))
}
