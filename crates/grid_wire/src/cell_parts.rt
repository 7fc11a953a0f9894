//! Colours, border sides, alignments, styles, positions and cells as parts of formats.

use crate::reading_cells::{cell_at, position_at};
use crate::reading_styles::{alignment_at, border_item_at, color_at, style_at};
use crate::writing_cells::{
    put_alignment, put_border_item, put_cell, put_color, put_position, put_style,
};
use base_shared::Shared;
use base_styles::{Alignment, BorderItem, Color, Style};
use base_values::{EditError, Position};
use base_wire::Part;
use sheet_grid::Cell;
use std::alloc::{AllocError, Global};

/// A colour: 0 for none, 1 and its red, green and blue parts, or 2 and the code of a theme colour
/// (docs/FORMATS.md, "Bytes").
pub struct ColorPart;

impl Part for ColorPart {
    ghost use Rattle.base_wire.specs.Encoding.{Any};
    ghost use Rattle.grid_wire.specs.StyleBytes.{encode_color, FitsColor};
    ghost use Rattle.grid_wire.specs.laws.CellReading.{color_at};
    ghost use Rattle.grid_wire.specs.laws.CellFormats.{color_format, color_some};

    type Value = Color;

    type Context = ();

    ghost Known = { Any };

    ghost Fits = { FitsColor };

    ghost encoding = { encode_color };

    ghost reading = { color_at };

    fn put(out: &mut Vec<u8>, value: &Color) -> Result<(), AllocError> {
        put_color(out, *value)
    }

    fn take<'a>(
        alloc: Global,
        _context: &(),
        bytes: &'a [u8],
    ) -> Result<(Color, &'a [u8]), EditError> {
        color_at(alloc, bytes)
    }

    ghost format = { color_format };

    ghost some = { color_some };
}

/// A side of a border.
pub(crate) struct BorderItemPart;

impl Part for BorderItemPart {
    ghost use Rattle.std.proofs.Common.{arith};
    ghost use Rattle.base_wire.specs.Encoding.{Any};
    ghost use Rattle.grid_wire.specs.StyleBytes.{encode_border_item, FitsBorderItem};
    ghost use Rattle.grid_wire.specs.laws.CellReading.{border_item_at};
    ghost use Rattle.grid_wire.specs.laws.CellFormats.{border_item_format};

    type Value = BorderItem;

    type Context = ();

    ghost Known = { Any };

    ghost Fits = { FitsBorderItem };

    ghost encoding = { encode_border_item };

    ghost reading = { border_item_at };

    fn put(out: &mut Vec<u8>, value: &BorderItem) -> Result<(), AllocError> {
        put_border_item(out, *value)
    }

    fn take<'a>(
        alloc: Global,
        _context: &(),
        bytes: &'a [u8],
    ) -> Result<(BorderItem, &'a [u8]), EditError> {
        border_item_at(alloc, bytes)
    }

    ghost format = { border_item_format };

    ghost some = { λ x. Prim.omega arith };
}

/// How a cell is aligned.
pub(crate) struct AlignmentPart;

impl Part for AlignmentPart {
    ghost use Rattle.std.proofs.Common.{arith};
    ghost use Rattle.base_wire.specs.Encoding.{Any};
    ghost use Rattle.grid_wire.specs.StyleBytes.{encode_alignment};
    ghost use Rattle.grid_wire.specs.laws.CellReading.{alignment_at};
    ghost use Rattle.grid_wire.specs.laws.CellFormats.{alignment_format};

    type Value = Alignment;

    type Context = ();

    ghost Known = { Any };

    ghost Fits = { Any };

    ghost encoding = { encode_alignment };

    ghost reading = { alignment_at };

    fn put(out: &mut Vec<u8>, value: &Alignment) -> Result<(), AllocError> {
        put_alignment(out, *value)
    }

    fn take<'a>(
        alloc: Global,
        _context: &(),
        bytes: &'a [u8],
    ) -> Result<(Alignment, &'a [u8]), EditError> {
        alignment_at(alloc, bytes)
    }

    ghost format = { alignment_format };

    ghost some = { λ x. Prim.omega arith };
}

/// A row and a column, inside the sheet or not (docs/FORMATS.md, "Bytes").
pub struct PositionPart;

impl Part for PositionPart {
    ghost use Rattle.base_wire.specs.Encoding.{Any};
    ghost use Rattle.grid_wire.specs.CellBytes.{encode_position, FitsPosition};
    ghost use Rattle.grid_wire.specs.laws.CellReading.{position_at};
    ghost use Rattle.grid_wire.specs.laws.CellFormats.{position_format, position_some};

    type Value = Position;

    type Context = ();

    ghost Known = { Any };

    ghost Fits = { FitsPosition };

    ghost encoding = { encode_position };

    ghost reading = { position_at };

    fn put(out: &mut Vec<u8>, value: &Position) -> Result<(), AllocError> {
        put_position(out, *value)
    }

    fn take<'a>(
        alloc: Global,
        _context: &(),
        bytes: &'a [u8],
    ) -> Result<(Position, &'a [u8]), EditError> {
        position_at(alloc, bytes)
    }

    ghost format = { position_format };

    ghost some = { position_some };
}

/// A style (docs/FORMATS.md, "Bytes"). Each one that is read and equal to the style of the context shares it.
pub struct StylePart;

impl Part for StylePart {
    ghost use Rattle.std.proofs.Common.{arith};
    ghost use Rattle.base_wire.specs.Encoding.{Any};
    ghost use Rattle.grid_wire.specs.StyleBytes.{encode_style, FitsStyle};
    ghost use Rattle.grid_wire.specs.laws.CellReading.{style_at};
    ghost use Rattle.grid_wire.specs.laws.CellFormats.{style_format};

    type Value = Shared<Style>;

    type Context = Shared<Style>;

    ghost Known = { Any };

    ghost Fits = { FitsStyle };

    ghost encoding = { encode_style };

    ghost reading = { style_at };

    fn put(out: &mut Vec<u8>, value: &Shared<Style>) -> Result<(), AllocError> {
        put_style(out, value.get())
    }

    fn take<'a>(
        alloc: Global,
        plain: &Shared<Style>,
        bytes: &'a [u8],
    ) -> Result<(Shared<Style>, &'a [u8]), EditError> {
        style_at(alloc, plain, bytes)
    }

    ghost format = { style_format };

    ghost some = { λ x. Prim.omega arith };
}

/// A cell: its content, and its style (docs/FORMATS.md, "Bytes"), which shares that of the context where it is equal to it.
pub struct CellPart;

impl Part for CellPart {
    ghost use Rattle.grid_wire.specs.CellBytes.{encode_cell, FitsCell, IsKnownCell};
    ghost use Rattle.grid_wire.specs.laws.CellReading.{cell_at};
    ghost use Rattle.grid_wire.specs.laws.CellFormats.{cell_format, cell_some};

    type Value = Shared<Cell>;

    type Context = Shared<Style>;

    ghost Known = { IsKnownCell };

    ghost Fits = { FitsCell };

    ghost encoding = { encode_cell };

    ghost reading = { cell_at };

    fn put(out: &mut Vec<u8>, value: &Shared<Cell>) -> Result<(), AllocError> {
        put_cell(out, value.get())
    }

    fn take<'a>(
        alloc: Global,
        plain: &Shared<Style>,
        bytes: &'a [u8],
    ) -> Result<(Shared<Cell>, &'a [u8]), EditError> {
        cell_at(alloc, plain, bytes)
    }

    ghost format = { cell_format };

    ghost some = { cell_some };
}
