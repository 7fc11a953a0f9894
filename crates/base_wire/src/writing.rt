//! Texts and decimals at the end of bytes. Out of memory may leave some of them there.

ghost use Rattle.std.specs.Prelude.{◌≡◌, ◌++◌, OnOk};
ghost use Rattle.base_wire.specs.Encoding.{encode_text, FitsText};
ghost use Rattle.base_wire.specs.Parts.{encode_decimal};

use base_decimal::Decimal;
use base_values::Text;
use std::alloc::AllocError;

/// Adds the length of a text in eight bytes, and its UTF-8 (docs/FORMATS.md, "Bytes").
pub(crate) fn push_text(out: &mut Vec<u8>, text: &Text) -> Result<(), AllocError>
    ensures encoded { OnOk result (out.new.items ≡ out.old.items ++ encode_text text.now) }
    ensures fits { OnOk result (FitsText text.now) }
{
    let bytes = text.as_str().as_bytes();
    out.extend_from_slice(&(bytes.len() as u64).to_be_bytes())?;
    out.extend_from_slice(bytes)
}

/// Adds the mantissa of a decimal in sixteen bytes, and its places (docs/FORMATS.md, "Bytes").
#[tactic(auto, unfolding(crate::specs::Parts::encode_decimal))]
pub(crate) fn push_decimal(out: &mut Vec<u8>, number: Decimal) -> Result<(), AllocError>
    ensures { OnOk result (out.new.items ≡ out.old.items ++ encode_decimal number) }
{
    out.extend_from_slice(&number.mantissa.to_be_bytes())?;
    out.push(number.places)?;
    Ok(())
}
