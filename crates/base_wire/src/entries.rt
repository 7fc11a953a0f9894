//! Entries of maps as parts of formats: a key, and its value.

ghost use Rattle.base_values.specs.Answers.{Answers, map_ok};
ghost use Rattle.base_wire.specs.laws.Reading.{◌⊗◌};

use crate::{Part, read};
use base_values::EditError;
use std::alloc::{AllocError, Global};
use std::marker::PhantomData;

fn entry_at<'a, K: Part<Context = ()>, P: Part>(
    alloc: Global,
    context: &P::Context,
    bytes: &'a [u8],
) -> Result<((K::Value, P::Value), &'a [u8]), EditError>
    ensures { Answers (map_ok (λ x. (x.0, x.1.now)) result) ((K.reading ⊗ P.reading) bytes.now) }
{
    let (key, rest) = read::<K>(alloc, &(), bytes)?;
    let (value, rest) = read::<P>(alloc, context, rest)?;
    Ok(((key, value), rest))
}

/// An entry of a map.
pub(crate) struct EntryPart<K: Part<Context = ()>, P: Part> {
    key: PhantomData<K>,
    value: PhantomData<P>,
}

impl<K: Part<Context = ()>, P: Part> Part for EntryPart<K, P> {
    ghost use Rattle.base_wire.specs.laws.Reading.{◌⊗◌};
    ghost use Rattle.base_wire.specs.Encoding.{Both, encode_both};
    ghost use Rattle.base_wire.specs.laws.Formats.{both_format};
    ghost use Rattle.base_wire.specs.laws.MapLaws.{entry_some};

    type Value = (K::Value, P::Value);

    type Context = P::Context;

    ghost Known = { Both K.Known P.Known };

    ghost Fits = { Both K.Fits P.Fits };

    ghost encoding = { encode_both K.encoding P.encoding };

    ghost reading = { K.reading ⊗ P.reading };

    fn put(out: &mut Vec<u8>, value: &(K::Value, P::Value)) -> Result<(), AllocError> {
        K::put(out, &value.0)?;
        P::put(out, &value.1)
    }

    fn take<'a>(
        alloc: Global,
        context: &P::Context,
        bytes: &'a [u8],
    ) -> Result<((K::Value, P::Value), &'a [u8]), EditError> {
        entry_at::<K, P>(alloc, context, bytes)
    }

    ghost format = { both_format K.format P.format };

    ghost some = { entry_some K.encoding K.some P.encoding };
}
