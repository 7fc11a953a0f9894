//! What every part of a format is: a type whose values have an encoding (docs/FORMATS.md).

ghost use Rattle.std.specs.Prelude.{◌≡◌, ◌++◌, ◌≤◌, OnOk, List, ℕ, length};
ghost use Rattle.base_values.specs.Answers.{Answers, map_ok};
ghost use Rattle.base_wire.specs.Reads.{Reads};
ghost use Rattle.base_wire.specs.laws.Reading.{Reader};
ghost use Rattle.base_wire.specs.laws.Format.{Format};

use base_values::EditError;
use std::alloc::{AllocError, Global};

/// A part of a format: how the values of a type are written as bytes and read from them. A type of this
/// crate's own imports is its own part; for others a crate declares a type that stands for the part.
pub trait Part {
    /// The type whose values are written.
    type Value: Drop;

    /// What reading shares among the values that it makes.
    type Context;

    /// What writing asks of a value of Rust's own types, such as that its numbers are canonical.
    ghost Known: { Self.Value → Type 0 };

    /// Bytes can carry the value.
    ghost Fits: { Self.Value → Type 0 };

    /// The bytes of a value.
    ghost encoding: { Self.Value → List ℕ };

    /// Serves proofs alone: the steps of a reader as a function.
    ghost reading: { Reader Self.Value };

    /// Adds the bytes of the value. Out of memory may leave some of them there.
    fn put(out: &mut Vec<u8>, value: &Self::Value) -> Result<(), AllocError>
        ensures encoded { OnOk result (out.new.items ≡ out.old.items ++ encoding value.now) }
        ensures fits { OnOk result (Known value.now → Fits value.now) };

    /// The value at the front of bytes, and the bytes after it.
    ///
    /// Refuses with `ParseDiffs` bytes that begin with the encoding of no value, and with `NoMemory`.
    fn take<'a>(
        alloc: Global,
        context: &Self::Context,
        bytes: &'a [u8],
    ) -> Result<(Self::Value, &'a [u8]), EditError>
        ensures { Reads Fits encoding bytes.now (map_ok (λ x. (x.0, x.1.now)) result) };

    /// The laws that tie the encoding to the reader's steps.
    ghost format: { Format Fits encoding reading };

    /// Each value takes a byte at least.
    ghost some: { (x : Self.Value) → 1 ≤ length (encoding x) };
}

/// The value at the front of bytes, and the bytes after it, as `Part::take` reads them: what it answers
/// by the steps of the reader, which the proofs of other parts follow.
///
/// Refuses with `ParseDiffs` bytes that begin with the encoding of no value, and with `NoMemory`.
pub fn read<'a, P: Part>(
    alloc: Global,
    context: &P::Context,
    bytes: &'a [u8],
) -> Result<(P::Value, &'a [u8]), EditError>
    ensures { Answers (map_ok (λ x. (x.0, x.1.now)) result) (P.reading bytes.now) }
{
    P::take(alloc, context, bytes)
}
