//! Whole sheets as parts of formats.

use crate::reading_sheets::sheet_at;
use crate::writing_sheets::put_sheet;
use base_shared::Shared;
use base_styles::Style;
use base_values::EditError;
use base_wire::Part;
use sheet_grid::Worksheet;
use std::alloc::{AllocError, Global};

/// A whole sheet: its id, its name, its state, its colour, whether grid lines are drawn, the counts of
/// its frozen rows and columns, its rows, columns, cells, links, merges and conditional rules
/// (docs/FORMATS.md, "Bytes").
///
/// Bytes encode none where a key lies outside the sheet, where a map's keys don't rise strictly, or where
/// a row or a column has nothing of its own. Each style that is read and equal to that of the context
/// shares it.
pub struct SheetPart;

impl Part for SheetPart {
    ghost use Rattle.grid_wire.specs.SheetBytes.{encode_sheet, FitsSheet, IsKnownSheet};
    ghost use Rattle.grid_wire.specs.laws.Reading.{sheet_at};
    ghost use Rattle.grid_wire.specs.laws.SheetLaws.{sheet_format, sheet_some};

    type Value = Worksheet;

    type Context = Shared<Style>;

    ghost Known = { IsKnownSheet };

    ghost Fits = { FitsSheet };

    ghost encoding = { encode_sheet };

    ghost reading = { sheet_at };

    fn put(out: &mut Vec<u8>, value: &Worksheet) -> Result<(), AllocError> {
        put_sheet(out, value)
    }

    fn take<'a>(
        alloc: Global,
        plain: &Shared<Style>,
        bytes: &'a [u8],
    ) -> Result<(Worksheet, &'a [u8]), EditError> {
        sheet_at(alloc, plain, bytes)
    }

    ghost format = { sheet_format };

    ghost some = { sheet_some };
}
