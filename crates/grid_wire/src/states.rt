//! The states of sheets as parts of formats.

ghost use Rattle.std.specs.Prelude.{◌≡◌};
ghost use Rattle.base_values.specs.Answers.{Answers, map_ok, ok_or};
ghost use Rattle.base_values.specs.declared.EditError.TheVariants.{ParseDiffs};
ghost use Rattle.base_wire.specs.laws.Reading.{code_at, decoded};
ghost use Rattle.grid_wire.specs.StateBytes.{state_code};
ghost use Rattle.grid_wire.specs.laws.Reading.{states};

use base_values::EditError;
use base_wire::{Part, read};
use sheet_grid::SheetState;
use std::alloc::{AllocError, Global};

fn state_code(state: SheetState) -> u8
    ensures { result ≡ state_code state }
{
    match state {
        SheetState::Visible => 0,
        SheetState::Hidden => 1,
        SheetState::VeryHidden => 2,
    }
}

fn state_of(code: u8) -> Result<SheetState, EditError>
    ensures { result ≡ ok_or ParseDiffs (decoded state_code states code) }
{
    match code {
        0 => Ok(SheetState::Visible),
        1 => Ok(SheetState::Hidden),
        2 => Ok(SheetState::VeryHidden),
        _ => Err(EditError::ParseDiffs),
    }
}

fn state_at(alloc: Global, bytes: &[u8]) -> Result<(SheetState, &[u8]), EditError>
    ensures { Answers (map_ok (λ x. (x.0, x.1.now)) result) (code_at state_code states bytes.now) }
{
    let (code, rest) = read::<u8>(alloc, &(), bytes)?;
    let state = state_of(code)?;
    Ok((state, rest))
}

/// Whether a sheet is shown: 0 where it is visible, 1 hidden, 2 very hidden (docs/FORMATS.md, "Bytes").
pub struct StatePart;

impl Part for StatePart {
    ghost use Rattle.std.proofs.Common.{arith};
    ghost use Rattle.base_wire.specs.laws.Reading.{code_at};
    ghost use Rattle.base_wire.specs.Encoding.{Any, encode_code};
    ghost use Rattle.grid_wire.specs.StateBytes.{state_code};
    ghost use Rattle.grid_wire.specs.laws.Reading.{states};
    ghost use Rattle.grid_wire.specs.laws.StateLaws.{state_format};

    type Value = SheetState;

    type Context = ();

    ghost Known = { Any };

    ghost Fits = { Any };

    ghost encoding = { encode_code state_code };

    ghost reading = { code_at state_code states };

    fn put(out: &mut Vec<u8>, value: &SheetState) -> Result<(), AllocError> {
        out.push(state_code(*value))?;
        Ok(())
    }

    fn take<'a>(
        alloc: Global,
        _context: &(),
        bytes: &'a [u8],
    ) -> Result<(SheetState, &'a [u8]), EditError> {
        state_at(alloc, bytes)
    }

    ghost format = { state_format };

    ghost some = { λ x. Prim.omega arith };
}
