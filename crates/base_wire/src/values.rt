//! Numbers, booleans, error values, decimals and texts as parts of formats.

use crate::codes::boolean_code;
use crate::part::Part;
use crate::reading::{boolean_at, byte_at, decimal_at, error_at, i32_at, text_at, u32_at, u64_at};
use crate::writing::{push_decimal, push_text};
use base_decimal::Decimal;
use base_tables::Error;
use base_values::{EditError, Text};
use std::alloc::{AllocError, Global};

impl Part for u8 {
    ghost use Rattle.std.specs.Prelude.{◌<◌, ◌^◌, [], ◌∷◌};
    ghost use Rattle.std.proofs.Common.{arith};
    ghost use Rattle.base_wire.specs.Encoding.{Any};
    ghost use Rattle.base_wire.specs.laws.Reading.{byte_at};
    ghost use Rattle.base_wire.specs.laws.Parts.{byte_format};

    type Value = u8;

    type Context = ();

    ghost Known = { Any };

    ghost Fits = { λ b. b < 2 ^ 8 };

    ghost encoding = { λ b. b ∷ [] };

    ghost reading = { byte_at };

    fn put(out: &mut Vec<u8>, value: &u8) -> Result<(), AllocError> {
        out.push(*value)?;
        Ok(())
    }

    fn take<'a>(
        _alloc: Global,
        _context: &(),
        bytes: &'a [u8],
    ) -> Result<(u8, &'a [u8]), EditError> {
        byte_at(bytes)
    }

    ghost format = { byte_format };

    ghost some = { λ x. Prim.omega arith };
}

impl Part for u32 {
    ghost use Rattle.std.specs.Prelude.{◌<◌, ◌^◌};
    ghost use Rattle.std.specs.Int.{w32, to_be_bytes};
    ghost use Rattle.std.proofs.Common.{arith};
    ghost use Rattle.base_wire.specs.Encoding.{Any};
    ghost use Rattle.base_wire.specs.laws.Reading.{number_at};
    ghost use Rattle.base_wire.specs.laws.Parts.{short_format};

    type Value = u32;

    type Context = ();

    ghost Known = { Any };

    ghost Fits = { λ n. n < 2 ^ 32 };

    ghost encoding = { to_be_bytes w32 };

    ghost reading = { number_at w32 };

    fn put(out: &mut Vec<u8>, value: &u32) -> Result<(), AllocError> {
        out.extend_from_slice(&value.to_be_bytes())
    }

    fn take<'a>(
        _alloc: Global,
        _context: &(),
        bytes: &'a [u8],
    ) -> Result<(u32, &'a [u8]), EditError> {
        u32_at(bytes)
    }

    ghost format = { short_format };

    ghost some = { λ x. Prim.omega arith };
}

impl Part for u64 {
    ghost use Rattle.std.specs.Prelude.{◌<◌, ◌^◌};
    ghost use Rattle.std.specs.Int.{w64, to_be_bytes};
    ghost use Rattle.std.proofs.Common.{arith};
    ghost use Rattle.base_wire.specs.Encoding.{Any};
    ghost use Rattle.base_wire.specs.laws.Reading.{number_at};
    ghost use Rattle.base_wire.specs.laws.Parts.{long_format};

    type Value = u64;

    type Context = ();

    ghost Known = { Any };

    ghost Fits = { λ n. n < 2 ^ 64 };

    ghost encoding = { to_be_bytes w64 };

    ghost reading = { number_at w64 };

    fn put(out: &mut Vec<u8>, value: &u64) -> Result<(), AllocError> {
        out.extend_from_slice(&value.to_be_bytes())
    }

    fn take<'a>(
        _alloc: Global,
        _context: &(),
        bytes: &'a [u8],
    ) -> Result<(u64, &'a [u8]), EditError> {
        u64_at(bytes)
    }

    ghost format = { long_format };

    ghost some = { λ x. Prim.omega arith };
}

impl Part for i32 {
    ghost use Rattle.std.specs.Prelude.{FitsSigned};
    ghost use Rattle.std.specs.Int.{w32};
    ghost use Rattle.std.proofs.Common.{arith};
    ghost use Rattle.base_wire.specs.Encoding.{encode_signed, Any};
    ghost use Rattle.base_wire.specs.laws.Reading.{signed_at};
    ghost use Rattle.base_wire.specs.laws.Parts.{signed_format};

    type Value = i32;

    type Context = ();

    ghost Known = { Any };

    ghost Fits = { FitsSigned w32 };

    ghost encoding = { encode_signed w32 };

    ghost reading = { signed_at w32 };

    fn put(out: &mut Vec<u8>, value: &i32) -> Result<(), AllocError> {
        out.extend_from_slice(&value.to_be_bytes())
    }

    fn take<'a>(
        _alloc: Global,
        _context: &(),
        bytes: &'a [u8],
    ) -> Result<(i32, &'a [u8]), EditError> {
        i32_at(bytes)
    }

    ghost format = { signed_format };

    ghost some = { λ x. Prim.omega arith };
}

impl Part for bool {
    ghost use Rattle.std.proofs.Common.{arith};
    ghost use Rattle.base_wire.specs.Encoding.{boolean_code, encode_code, Any};
    ghost use Rattle.base_wire.specs.laws.Reading.{boolean_at};
    ghost use Rattle.base_wire.specs.laws.Parts.{boolean_format};

    type Value = bool;

    type Context = ();

    ghost Known = { Any };

    ghost Fits = { Any };

    ghost encoding = { encode_code boolean_code };

    ghost reading = { boolean_at };

    fn put(out: &mut Vec<u8>, value: &bool) -> Result<(), AllocError> {
        out.push(boolean_code(*value))?;
        Ok(())
    }

    fn take<'a>(
        _alloc: Global,
        _context: &(),
        bytes: &'a [u8],
    ) -> Result<(bool, &'a [u8]), EditError> {
        boolean_at(bytes)
    }

    ghost format = { boolean_format };

    ghost some = { λ x. Prim.omega arith };
}

impl Part for Error {
    ghost use Rattle.std.proofs.Common.{arith};
    ghost use Rattle.base_tables.specs.Error.{error_code};
    ghost use Rattle.base_wire.specs.Encoding.{encode_code, Any};
    ghost use Rattle.base_wire.specs.laws.Reading.{error_at};
    ghost use Rattle.base_wire.specs.laws.Parts.{error_format};

    type Value = Error;

    type Context = ();

    ghost Known = { Any };

    ghost Fits = { Any };

    ghost encoding = { encode_code error_code };

    ghost reading = { error_at };

    fn put(out: &mut Vec<u8>, value: &Error) -> Result<(), AllocError> {
        out.push(value.code())?;
        Ok(())
    }

    fn take<'a>(
        _alloc: Global,
        _context: &(),
        bytes: &'a [u8],
    ) -> Result<(Error, &'a [u8]), EditError> {
        error_at(bytes)
    }

    ghost format = { error_format };

    ghost some = { λ x. Prim.omega arith };
}

impl Part for Decimal {
    ghost use Rattle.base_decimal.specs.Canonical.{IsCanonical};
    ghost use Rattle.base_wire.specs.Parts.{encode_decimal};
    ghost use Rattle.base_wire.specs.laws.Reading.{decimal_at};
    ghost use Rattle.base_wire.specs.laws.Parts.{decimal_format, decimal_some};

    type Value = Decimal;

    type Context = ();

    ghost Known = { IsCanonical };

    ghost Fits = { IsCanonical };

    ghost encoding = { encode_decimal };

    ghost reading = { decimal_at };

    fn put(out: &mut Vec<u8>, value: &Decimal) -> Result<(), AllocError> {
        push_decimal(out, *value)
    }

    fn take<'a>(
        _alloc: Global,
        _context: &(),
        bytes: &'a [u8],
    ) -> Result<(Decimal, &'a [u8]), EditError> {
        decimal_at(bytes)
    }

    ghost format = { decimal_format };

    ghost some = { decimal_some };
}

impl Part for Text {
    ghost use Rattle.std.proofs.Common.{arith};
    ghost use Rattle.base_wire.specs.Encoding.{encode_text, Any, FitsText};
    ghost use Rattle.base_wire.specs.laws.Reading.{text_at};
    ghost use Rattle.base_wire.specs.laws.Parts.{text_format};

    type Value = Text;

    type Context = ();

    ghost Known = { Any };

    ghost Fits = { FitsText };

    ghost encoding = { encode_text };

    ghost reading = { text_at };

    fn put(out: &mut Vec<u8>, value: &Text) -> Result<(), AllocError> {
        push_text(out, value)
    }

    fn take<'a>(
        alloc: Global,
        _context: &(),
        bytes: &'a [u8],
    ) -> Result<(Text, &'a [u8]), EditError> {
        text_at(alloc, bytes)
    }

    ghost format = { text_format };

    ghost some = { λ x. Prim.omega arith };
}
