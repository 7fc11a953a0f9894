//! Whole sheets from the front of bytes.

ghost use Rattle.std.specs.Prelude.{IfOk};
ghost use Rattle.base_values.specs.Answers.{Answers, map_ok};
ghost use Rattle.sheet_grid.specs.CanonicalCell.{CanonicalCells};
ghost use Rattle.grid_wire.specs.laws.CellReading.{merges_at};
ghost use Rattle.grid_wire.specs.laws.RuleReading.{formattings_at};
ghost use Rattle.base_wire.specs.laws.Reading.{◌⊗◌};
ghost use Rattle.grid_wire.specs.laws.Reading.{cells_at, columns_at, fields_at, links_at, rows_at, sheet_at};

use crate::keys::{axis_map_at, place_map_at};
use crate::lines::LinePart;
use crate::states::StatePart;
use crate::{CellPart, ColorPart, LinkPart, MergeListPart, RuleListPart};
use base_axis::{AxisMap, ColumnAxis, MergeList, RowAxis};
use base_shared::Shared;
use base_styles::Style;
use base_values::{EditError, PlaceMap, Text};
use base_wire::read;
use format_rules::RuleList;
use sheet_grid::{Cell, LineAttr, Link, SheetEntries, Worksheet};
use std::alloc::Global;

/// A sheet that has the fields at the front of bytes, and nothing else.
#[tactic(auto, unfolding(crate::specs::laws::Reading::fields_at))]
fn fields_at(alloc: Global, bytes: &[u8]) -> Result<(Worksheet, &[u8]), EditError>
    ensures { Answers (map_ok (λ x. (x.0, x.1.now)) result) (fields_at bytes.now) }
{
    let (id, rest) = read::<u32>(alloc, &(), bytes)?;
    let (name, rest) = read::<Text>(alloc, &(), rest)?;
    let (state, rest) = read::<StatePart>(alloc, &(), rest)?;
    let (color, rest) = read::<ColorPart>(alloc, &(), rest)?;
    let (show_grid_lines, rest) = read::<bool>(alloc, &(), rest)?;
    let (frozen_rows, rest) = read::<i32>(alloc, &(), rest)?;
    let (frozen_columns, rest) = read::<i32>(alloc, &(), rest)?;
    let mut sheet = Worksheet::new(alloc, id, name.as_str())?;
    sheet.set_state(state);
    sheet.set_color(&color);
    sheet.set_show_grid_lines(show_grid_lines);
    sheet.put_frozen(frozen_rows, frozen_columns);
    Ok((sheet, rest))
}

/// The cells of a sheet, whose numbers are canonical.
#[tactic(auto, unfolding(crate::specs::laws::Reading::cells_at))]
fn cells_at<'a>(
    alloc: Global,
    plain: &Shared<Style>,
    bytes: &'a [u8],
) -> Result<(PlaceMap<Shared<Cell>>, &'a [u8]), EditError>
    ensures { Answers (map_ok (λ x. (x.0, x.1.now)) result) (cells_at bytes.now) }
{
    place_map_at::<CellPart>(alloc, plain, bytes)
}

/// The same, and the numbers of the cells are canonical.
fn kept_cells_at<'a>(
    alloc: Global,
    plain: &Shared<Style>,
    bytes: &'a [u8],
) -> Result<(PlaceMap<Shared<Cell>>, &'a [u8]), EditError>
    ensures read { Answers (map_ok (λ x. (x.0, x.1.now)) result) (cells_at bytes.now) }
    ensures canonical { IfOk result (λ x. CanonicalCells x.0) }
{
    cells_at(alloc, plain, bytes)
}

/// The merges and the conditional rules of a sheet.
type Lists = (MergeList, RuleList);

/// Its cells and links, and its lists.
type Places = (PlaceMap<Shared<Cell>>, (PlaceMap<Link>, Lists));

/// Its rows and columns, and what stands at its places.
type Entries = (
    AxisMap<RowAxis, LineAttr>,
    (AxisMap<ColumnAxis, LineAttr>, Places),
);

// What is read is handed on in pairs, so that few values are alive where a reader refuses: each such
// way out drops them all, and is proved.

fn lists_at<'a>(
    alloc: Global,
    plain: &Shared<Style>,
    bytes: &'a [u8],
) -> Result<(Lists, &'a [u8]), EditError>
    ensures { Answers (map_ok (λ x. (x.0, x.1.now)) result) ((merges_at ⊗ formattings_at) bytes.now) }
{
    let (merges, rest) = read::<MergeListPart>(alloc, &(), bytes)?;
    let (formattings, rest) = read::<RuleListPart>(alloc, plain, rest)?;
    Ok(((merges, formattings), rest))
}

#[tactic(auto, unfolding(crate::specs::laws::Reading::links_at))]
fn places_at<'a>(
    alloc: Global,
    plain: &Shared<Style>,
    bytes: &'a [u8],
) -> Result<(Places, &'a [u8]), EditError>
    ensures read { Answers (map_ok (λ x. (x.0, x.1.now)) result) ((cells_at ⊗ links_at ⊗ merges_at ⊗ formattings_at) bytes.now) }
    ensures canonical { IfOk result (λ x. CanonicalCells x.0.0) }
{
    let (cells, rest) = kept_cells_at(alloc, plain, bytes)?;
    let (links, rest) = place_map_at::<LinkPart>(alloc, &(), rest)?;
    let (lists, rest) = lists_at(alloc, plain, rest)?;
    Ok(((cells, (links, lists)), rest))
}

#[tactic(auto, unfolding(crate::specs::laws::Reading::rows_at, crate::specs::laws::Reading::columns_at))]
fn entries_at<'a>(
    alloc: Global,
    plain: &Shared<Style>,
    bytes: &'a [u8],
) -> Result<(Entries, &'a [u8]), EditError>
    ensures read { Answers (map_ok (λ x. (x.0, x.1.now)) result)
        ((rows_at ⊗ columns_at ⊗ cells_at ⊗ links_at ⊗ merges_at ⊗ formattings_at) bytes.now) }
    ensures canonical { IfOk result (λ x. CanonicalCells x.0.1.1.0) }
{
    let (rows, rest) = axis_map_at::<RowAxis, LinePart>(alloc, plain, bytes)?;
    let (columns, rest) = axis_map_at::<ColumnAxis, LinePart>(alloc, plain, rest)?;
    let (places, rest) = places_at(alloc, plain, rest)?;
    Ok(((rows, (columns, places)), rest))
}

#[tactic(auto, unfolding(crate::specs::laws::Reading::sheet_at))]
pub(crate) fn sheet_at<'a>(
    alloc: Global,
    plain: &Shared<Style>,
    bytes: &'a [u8],
) -> Result<(Worksheet, &'a [u8]), EditError>
    ensures { Answers (map_ok (λ x. (x.0, x.1.now)) result) (sheet_at bytes.now) }
{
    let (bare, rest) = fields_at(alloc, bytes)?;
    let ((rows, (columns, (cells, (links, (merges, formattings))))), rest) = entries_at(
        alloc, plain, rest,
    )?;
    let entries = SheetEntries {
        cells,
        links,
        rows,
        columns,
        merges,
        formattings,
    };
    let sheet = bare.with_entries(entries)?;
    Ok((sheet, rest))
}
