//! The first bytes of a format.

ghost use Rattle.std.specs.Prelude.{◌≡◌};
ghost use Rattle.base_values.specs.Answers.{map_ok};
ghost use Rattle.base_wire.specs.laws.Reading.{counted_after, rest_after};

use crate::reading::count_at;
use base_values::EditError;

/// What stands after the bytes that a format begins with.
fn rest_after<'a>(front: &[u8], bytes: &'a [u8]) -> Result<&'a [u8], EditError>
    ensures { map_ok (λ x. x.now) result ≡ rest_after front.now bytes.now }
{
    match bytes.strip_prefix(front) {
        Some(rest) => Ok(rest),
        None => Err(EditError::ParseDiffs),
    }
}

/// The same, where it begins with a count of what follows it, such as that of a list or the length of a
/// text. Takes no memory.
///
/// Refuses with `ParseDiffs` where bytes begin otherwise, or the count is greater than the number of
/// the bytes after it.
pub fn counted_after<'a>(front: &[u8], bytes: &'a [u8]) -> Result<&'a [u8], EditError>
    ensures { map_ok (λ x. x.now) result ≡ counted_after front.now bytes.now }
{
    let rest = rest_after(front, bytes)?;
    count_at(rest)?;
    Ok(rest)
}
