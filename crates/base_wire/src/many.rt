//! Options and lists of any part.

ghost use Rattle.std.specs.Prelude.{◌≡◌, ◌++◌, IsErrAnd, OnOk};
ghost use Rattle.std.specs.List.{AllByRecursion};
ghost use Rattle.base_values.specs.Answers.{Answers, map_ok};
ghost use Rattle.base_values.specs.declared.EditError.TheVariants.{ParseDiffs};
ghost use Rattle.base_wire.specs.Reads.{HasNoCount};
ghost use Rattle.base_wire.specs.laws.Reading.{list_at, many_at, option_at};
ghost use Rattle.base_wire.specs.Encoding.{encode_list, FitsItems};

use crate::part::{Part, read};
use crate::reading::{byte_at, count_at};
use base_values::{EditError, Items};
use std::alloc::{AllocError, Global};

/// 0 for nothing, or 1 and the value.
fn option_at<'a, P: Part>(
    alloc: Global,
    context: &P::Context,
    bytes: &'a [u8],
) -> Result<(Option<P::Value>, &'a [u8]), EditError>
    ensures { Answers (map_ok (λ x. (x.0, x.1.now)) result) (option_at P.reading bytes.now) }
{
    let (flag, rest) = byte_at(bytes)?;
    match flag {
        0 => Ok((None, rest)),
        1 => {
            let (value, rest) = read::<P>(alloc, context, rest)?;
            Ok((Some(value), rest))
        }
        _ => Err(EditError::ParseDiffs),
    }
}

/// So many items, one after the other.
fn many_at<'a, P: Part>(
    alloc: Global,
    context: &P::Context,
    count: u64,
    bytes: &'a [u8],
) -> Result<(Vec<P::Value>, &'a [u8]), EditError>
    ensures { Answers (map_ok (λ x. (x.0.items, x.1.now)) result) (many_at P.reading count bytes.now) }
{
    let mut items = Vec::new(alloc);
    let mut rest = bytes;
    'reads: for _ in 0..count {
        let (item, after) = read::<P>(alloc, context, rest)?;
        items.push(item)?;
        rest = after;
    }
    Ok((items, rest))
}

/// A count, and so many items.
fn list_at<'a, P: Part>(
    alloc: Global,
    context: &P::Context,
    bytes: &'a [u8],
) -> Result<(Items<P::Value>, &'a [u8]), EditError>
    ensures read { Answers (map_ok (λ x. (x.0, x.1.now)) result) (list_at P.reading bytes.now) }
    ensures early { HasNoCount bytes.now → IsErrAnd result (λ e. e ≡ ParseDiffs) }
{
    let (count, rest) = count_at(bytes)?;
    let (items, rest) = many_at::<P>(alloc, context, count, rest)?;
    Ok((Items::new(items), rest))
}

/// Adds how many items there are, in eight bytes, and each of them (docs/FORMATS.md, "Bytes"). Out of
/// memory may leave some of them there.
pub fn put_items<P: Part>(out: &mut Vec<u8>, items: &[P::Value]) -> Result<(), AllocError>
    ensures encoded { OnOk result (out.new.items ≡ out.old.items ++ encode_list P.encoding items.now) }
    ensures fits { OnOk result (AllByRecursion P.Known items.now → FitsItems P.Fits items.now) }
{
    out.extend_from_slice(&(items.len() as u64).to_be_bytes())?;
    for item in items {
        P::put(out, item)?;
    }
    Ok(())
}

impl<P: Part> Part for Option<P> {
    ghost use Rattle.std.specs.Prelude.{IfSome};
    ghost use Rattle.base_wire.specs.laws.Reading.{option_at};
    ghost use Rattle.base_wire.specs.Encoding.{encode_option};
    ghost use Rattle.base_wire.specs.laws.Format.{option_format};
    ghost use Rattle.base_wire.specs.laws.Parts.{option_some};

    type Value = Option<P::Value>;

    type Context = P::Context;

    ghost Known = { λ o. IfSome o P.Known };

    ghost Fits = { λ o. IfSome o P.Fits };

    ghost encoding = { encode_option P.encoding };

    ghost reading = { option_at P.reading };

    fn put(out: &mut Vec<u8>, value: &Option<P::Value>) -> Result<(), AllocError> {
        match value {
            None => out.push(0)?,
            Some(value) => {
                out.push(1)?;
                P::put(out, value)?;
            }
        }
        Ok(())
    }

    fn take<'a>(
        alloc: Global,
        context: &P::Context,
        bytes: &'a [u8],
    ) -> Result<(Option<P::Value>, &'a [u8]), EditError> {
        option_at::<P>(alloc, context, bytes)
    }

    ghost format = { option_format P.format };

    ghost some = { option_some P.encoding };
}

impl<P: Part> Part for Items<P> {
    ghost use Rattle.std.proofs.Common.{arith};
    ghost use Rattle.std.specs.List.{AllByRecursion};
    ghost use Rattle.base_wire.specs.laws.Reading.{list_at};
    ghost use Rattle.base_wire.specs.Encoding.{encode_list, FitsItems};
    ghost use Rattle.base_wire.specs.laws.Format.{list_format};

    type Value = Items<P::Value>;

    type Context = P::Context;

    ghost Known = { AllByRecursion P.Known };

    ghost Fits = { FitsItems P.Fits };

    ghost encoding = { encode_list P.encoding };

    ghost reading = { list_at P.reading };

    fn put(out: &mut Vec<u8>, value: &Items<P::Value>) -> Result<(), AllocError> {
        put_items::<P>(out, value.as_slice())
    }

    fn take<'a>(
        alloc: Global,
        context: &P::Context,
        bytes: &'a [u8],
    ) -> Result<(Items<P::Value>, &'a [u8]), EditError> {
        list_at::<P>(alloc, context, bytes)
    }

    ghost format = { list_format P.format P.some };

    ghost some = { λ x. Prim.omega arith };
}
