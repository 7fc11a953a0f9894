//! Shared values as parts of formats: each is written as the value, and read as a value with one owner.

ghost use Rattle.base_values.specs.Answers.{Answers, map_ok};

use crate::part::{Part, read};
use base_shared::Shared;
use base_values::EditError;
use std::alloc::{AllocError, Global};

fn shared_at<'a, P: Part>(
    alloc: Global,
    context: &P::Context,
    bytes: &'a [u8],
) -> Result<(Shared<P::Value>, &'a [u8]), EditError>
    ensures { Answers (map_ok (λ x. (x.0, x.1.now)) result) (P.reading bytes.now) }
{
    let (value, rest) = read::<P>(alloc, context, bytes)?;
    Ok((Shared::new(alloc, value)?, rest))
}

impl<P: Part> Part for Shared<P> {
    type Value = Shared<P::Value>;

    type Context = P::Context;

    ghost Known = { P.Known };

    ghost Fits = { P.Fits };

    ghost encoding = { P.encoding };

    ghost reading = { P.reading };

    fn put(out: &mut Vec<u8>, value: &Shared<P::Value>) -> Result<(), AllocError> {
        P::put(out, value.get())
    }

    fn take<'a>(
        alloc: Global,
        context: &P::Context,
        bytes: &'a [u8],
    ) -> Result<(Shared<P::Value>, &'a [u8]), EditError> {
        shared_at::<P>(alloc, context, bytes)
    }

    ghost format = { P.format };

    ghost some = { P.some };
}
