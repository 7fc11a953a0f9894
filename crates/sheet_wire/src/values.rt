//! Places of a workbook, and indexes of lists of its sheets, as parts of formats.

ghost use Rattle.base_values.specs.Answers.{Answers, map_ok};
ghost use Rattle.sheet_wire.specs.laws.LinesReading.{sheet_index_at, sheet_place_at};

use base_maps::{SheetIndex, SheetPlace};
use base_values::EditError;
use base_wire::{Part, read};
use grid_wire::PositionPart;
use std::alloc::{AllocError, Global};

#[tactic(auto, unfolding(crate::specs::laws::LinesReading::sheet_place_at))]
fn sheet_place_at(alloc: Global, bytes: &[u8]) -> Result<(SheetPlace, &[u8]), EditError>
    ensures { Answers (map_ok (λ x. (x.0, x.1.now)) result) (sheet_place_at bytes.now) }
{
    let (sheet, rest) = read::<u32>(alloc, &(), bytes)?;
    let (place, rest) = read::<PositionPart>(alloc, &(), rest)?;
    Ok((SheetPlace { sheet, place }, rest))
}

/// The id of a sheet, and a position, inside the sheet or not.
pub struct SheetPlacePart;

impl Part for SheetPlacePart {
    ghost use Rattle.base_wire.specs.Encoding.{Any};
    ghost use Rattle.sheet_wire.specs.PartBytes.{encode_sheet_place, FitsSheetPlace};
    ghost use Rattle.sheet_wire.specs.laws.LinesReading.{sheet_place_at};
    ghost use Rattle.sheet_wire.specs.laws.PartLaws.{sheet_place_format, sheet_place_some};

    type Value = SheetPlace;

    type Context = ();

    ghost Known = { Any };

    ghost Fits = { FitsSheetPlace };

    ghost encoding = { encode_sheet_place };

    ghost reading = { sheet_place_at };

    fn put(out: &mut Vec<u8>, value: &SheetPlace) -> Result<(), AllocError> {
        out.extend_from_slice(&value.sheet.to_be_bytes())?;
        PositionPart::put(out, &value.place)?;
        Ok(())
    }

    fn take<'a>(
        alloc: Global,
        _context: &(),
        bytes: &'a [u8],
    ) -> Result<(SheetPlace, &'a [u8]), EditError> {
        sheet_place_at(alloc, bytes)
    }

    ghost format = { sheet_place_format };

    ghost some = { sheet_place_some };
}

#[tactic(auto, unfolding(crate::specs::laws::LinesReading::sheet_index_at))]
fn sheet_index_at(alloc: Global, bytes: &[u8]) -> Result<(SheetIndex, &[u8]), EditError>
    ensures { Answers (map_ok (λ x. (x.0, x.1.now)) result) (sheet_index_at bytes.now) }
{
    let (sheet, rest) = read::<u32>(alloc, &(), bytes)?;
    let (index, rest) = read::<u64>(alloc, &(), rest)?;
    Ok((SheetIndex { sheet, index }, rest))
}

/// The id of a sheet, and an index of its list of rules, of a rule or not.
pub struct SheetIndexPart;

impl Part for SheetIndexPart {
    ghost use Rattle.base_wire.specs.Encoding.{Any};
    ghost use Rattle.sheet_wire.specs.PartBytes.{encode_sheet_index, FitsSheetIndex};
    ghost use Rattle.sheet_wire.specs.laws.LinesReading.{sheet_index_at};
    ghost use Rattle.sheet_wire.specs.laws.PartLaws.{sheet_index_format, sheet_index_some};

    type Value = SheetIndex;

    type Context = ();

    ghost Known = { Any };

    ghost Fits = { FitsSheetIndex };

    ghost encoding = { encode_sheet_index };

    ghost reading = { sheet_index_at };

    fn put(out: &mut Vec<u8>, value: &SheetIndex) -> Result<(), AllocError> {
        out.extend_from_slice(&value.sheet.to_be_bytes())?;
        out.extend_from_slice(&value.index.to_be_bytes())
    }

    fn take<'a>(
        alloc: Global,
        _context: &(),
        bytes: &'a [u8],
    ) -> Result<(SheetIndex, &'a [u8]), EditError> {
        sheet_index_at(alloc, bytes)
    }

    ghost format = { sheet_index_format };

    ghost some = { sheet_index_some };
}
