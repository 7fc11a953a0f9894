//! Maps from positions and from lines of a sheet, whose keys are inside it.

ghost use Rattle.std.specs.Prelude.{◌≡◌, ℤ, ◌++◌, OnOk, IfSome};
ghost use Rattle.std.specs.FinMap.{get};
ghost use Rattle.std.specs.Int.{w32};
ghost use Rattle.base_values.specs.Answers.{Answers, map_ok};
ghost use Rattle.base_values.specs.Places.{IsLine, IsPlace};
ghost use Rattle.base_values.specs.declared.Position.{Position};
ghost use Rattle.base_wire.specs.Encoding.{encode_signed};
ghost use Rattle.grid_wire.specs.CellBytes.{encode_position};
ghost use Rattle.base_wire.specs.MapBytes.{encode_map, FitsMap};
ghost use Rattle.grid_wire.specs.laws.Reading.{axis_line_at, axis_map_at, place_at, place_map_at};

use crate::PositionPart;
use base_axis::{Axis, AxisMap, LineKeys};
use base_values::{EditError, PlaceKeys, PlaceMap, Position, is_line, is_place};
use base_wire::{Part, map_at, put_map, read};
use std::alloc::{AllocError, Global};
use std::marker::PhantomData;

#[tactic(auto, unfolding(crate::specs::laws::Reading::place_at))]
fn place_at(alloc: Global, bytes: &[u8]) -> Result<(Position, &[u8]), EditError>
    ensures { Answers (map_ok (λ x. (x.0, x.1.now)) result) (place_at bytes.now) }
{
    let (place, rest) = read::<PositionPart>(alloc, &(), bytes)?;
    if !is_place(place) {
        return Err(EditError::ParseDiffs);
    }
    Ok((place, rest))
}

#[tactic(auto, unfolding(crate::specs::laws::Reading::axis_line_at))]
fn axis_line_at<A: Axis>(alloc: Global, bytes: &[u8]) -> Result<(i32, &[u8]), EditError>
    ensures { Answers (map_ok (λ x. (x.0, x.1.now)) result) (axis_line_at A.along.last bytes.now) }
{
    let (line, rest) = read::<i32>(alloc, &(), bytes)?;
    if !is_line(A::LAST, line as i64) {
        return Err(EditError::ParseDiffs);
    }
    Ok((line, rest))
}

/// A position of the sheet.
struct PlacePart;

/// A line of an axis.
struct AxisLinePart<A: Axis> {
    axis: PhantomData<A>,
}

impl Part for PlacePart {
    ghost use Rattle.base_values.specs.Places.{IsPlace};
    ghost use Rattle.grid_wire.specs.CellBytes.{encode_position};
    ghost use Rattle.grid_wire.specs.laws.CellFormats.{position_some};
    ghost use Rattle.grid_wire.specs.laws.Reading.{place_at};
    ghost use Rattle.grid_wire.specs.laws.KeyLaws.{place_format};

    type Value = Position;

    type Context = ();

    ghost Known = { IsPlace };

    ghost Fits = { IsPlace };

    ghost encoding = { encode_position };

    ghost reading = { place_at };

    fn put(out: &mut Vec<u8>, value: &Position) -> Result<(), AllocError> {
        PositionPart::put(out, value)
    }

    fn take<'a>(
        alloc: Global,
        _context: &(),
        bytes: &'a [u8],
    ) -> Result<(Position, &'a [u8]), EditError> {
        place_at(alloc, bytes)
    }

    ghost format = { place_format };

    ghost some = { position_some };
}

impl<A: Axis> Part for AxisLinePart<A> {
    ghost use Rattle.std.proofs.Common.{arith};
    ghost use Rattle.std.specs.Int.{w32};
    ghost use Rattle.base_values.specs.Places.{IsLine};
    ghost use Rattle.base_wire.specs.Encoding.{encode_signed};
    ghost use Rattle.grid_wire.specs.laws.Reading.{axis_line_at};
    ghost use Rattle.grid_wire.specs.laws.KeyLaws.{axis_line_format};

    type Value = i32;

    type Context = ();

    ghost Known = { IsLine A.along.last };

    ghost Fits = { IsLine A.along.last };

    ghost encoding = { encode_signed w32 };

    ghost reading = { axis_line_at A.along.last };

    fn put(out: &mut Vec<u8>, value: &i32) -> Result<(), AllocError> {
        i32::put(out, value)
    }

    fn take<'a>(
        alloc: Global,
        _context: &(),
        bytes: &'a [u8],
    ) -> Result<(i32, &'a [u8]), EditError> {
        axis_line_at::<A>(alloc, bytes)
    }

    ghost format = { axis_line_format A.along.last A.lawful.last_high };

    ghost some = { λ x. Prim.omega arith };
}

/// A map from positions of the sheet.
#[tactic(auto, unfolding(crate::specs::laws::Reading::place_map_at))]
pub(crate) fn place_map_at<'a, P: Part>(
    alloc: Global,
    context: &P::Context,
    bytes: &'a [u8],
) -> Result<(PlaceMap<P::Value>, &'a [u8]), EditError>
    ensures { Answers (map_ok (λ x. (x.0, x.1.now)) result) (place_map_at P.reading bytes.now) }
{
    map_at::<PlaceKeys<P::Value>, PlacePart, P>(alloc, context, bytes)
}

/// A map from lines of an axis.
#[tactic(auto, unfolding(crate::specs::laws::Reading::axis_map_at))]
pub(crate) fn axis_map_at<'a, A: Axis, P: Part>(
    alloc: Global,
    context: &P::Context,
    bytes: &'a [u8],
) -> Result<(AxisMap<A, P::Value>, &'a [u8]), EditError>
    ensures { Answers (map_ok (λ x. (x.0, x.1.now)) result) (axis_map_at A.along.last P.reading bytes.now) }
{
    map_at::<LineKeys<A, P::Value>, AxisLinePart<A>, P>(alloc, context, bytes)
}

/// Adds a map from positions of the sheet.
pub(crate) fn put_place_map<P: Part>(
    out: &mut Vec<u8>,
    map: &PlaceMap<P::Value>,
) -> Result<(), AllocError>
    ensures encoded { OnOk result (out.new.items ≡ out.old.items ++ encode_map encode_position P.encoding map.now) }
    ensures fits { OnOk result (((place : Position) → IfSome (get map.now place) P.Known) → FitsMap IsPlace P.Fits map.now) }
{
    put_map::<PlaceKeys<P::Value>, PlacePart, P>(out, map)?;
    Ok(())
}

/// Adds a map from lines of an axis.
pub(crate) fn put_axis_map<A: Axis, P: Part>(
    out: &mut Vec<u8>,
    map: &AxisMap<A, P::Value>,
) -> Result<(), AllocError>
    ensures encoded { OnOk result (out.new.items ≡ out.old.items ++ encode_map (encode_signed w32) P.encoding map.now) }
    ensures fits { OnOk result (((line : ℤ) → IfSome (get map.now line) P.Known) → FitsMap (IsLine A.along.last) P.Fits map.now) }
{
    put_map::<LineKeys<A, P::Value>, AxisLinePart<A>, P>(out, map)?;
    Ok(())
}
