//! Styles that are pasted.

ghost use Rattle.std.specs.Prelude.{◌≡◌, ◌≢◌, false, true, ◌==◌, ◌<ℤ◌, ◌+ℤ◌, ◌-ℤ◌, pos, length, map, IfOk, IfSome, IsOkUnless, None, Ok, Err, if◌then◌else◌};
ghost use Rattle.std.specs.List.{list_all};
ghost use Rattle.base_axis.specs.Rectangles.{IsInside, anchor_place, is_inside};
ghost use Rattle.base_values.specs.declared.EditError.TheVariants.{NoMemory, StyleValue, StylesShape};
ghost use Rattle.base_values.specs.Answers.{Returns};
ghost use Rattle.sheet_grid.specs.Book.{sheet_edit};
ghost use Rattle.sheet_rules.specs.WellFormed.{IsWellFormed, has_font};
ghost use Rattle.range_styles.specs.CanonicalPlans.{CanonicalCellPlan};
ghost use Rattle.range_styles.specs.Styled.{planned_styles};
ghost use Rattle.range_styles.specs.Tiles.{tiles};
ghost use Rattle.edit_plans.specs.Plans.{Plans};
ghost use Rattle.edit_plans.specs.RangeEdits.{greater, is_tile, pasted_area, pasted_by, pasted_in, styles_pasted, tile_width, tiled_range};

use crate::plan_list;
use crate::styles::inside_area;
use base_axis::MergedCell;
use base_shared::Shared;
use base_styles::Style;
use base_values::{EditError, Items, copy_of};
use range_styles::{AreaKind, SheetPlan, StyleRange, StyleTiles, style_plan};
use sheet_grid::{DefaultStyle, Workbook, Worksheet};
use sheet_history::DiffList;
use std::alloc::Global;

fn has_font(style: &Style) -> bool
    ensures { result ≡ has_font style.now }
{
    style.font.sz >= 1
}

fn have_fonts(row: &[Style]) -> bool
    ensures { result ≡ list_all has_font row.now }
{
    row.iter().all(|style| has_font(style))
}

/// How many columns rows of styles take.
fn tile_width(styles: &[Vec<Style>]) -> usize
    ensures { result ≡ tile_width (map (λ row. row.items) styles.now) }
{
    match styles.first() {
        Some(row) => row.len(),
        None => 0,
    }
}

/// Whether all rows have so many styles.
fn are_even(styles: &[Vec<Style>], width: usize) -> bool
    ensures { result ≡ list_all (λ row. length row == width) (map (λ row. row.items) styles.now) }
{
    for row in styles {
        if row.len() != width {
            return false;
        }
    }
    true
}

/// Whether each font of rows has a size of 1 or more.
fn all_have_fonts(styles: &[Vec<Style>]) -> bool
    ensures { result ≡ list_all (λ row. list_all has_font row) (map (λ row. row.items) styles.now) }
{
    for row in styles {
        if !have_fonts(row.as_slice()) {
            return false;
        }
    }
    true
}

/// Rows of styles, if they may be laid over places as a tile. It takes no memory.
///
/// `StylesShape` where there is no row, the first one is empty, the rows differ in length, or a
/// font has a size below 1.
pub fn test_tile(styles: &[Vec<Style>]) -> Result<(), EditError>
    ensures tested { result ≡ (if is_tile (map (λ row. row.items) styles.now) then Ok tt else Err StylesShape) }
    ensures sure { result ≢ Err NoMemory }
{
    let width = tile_width(styles);
    if 0 < width && are_even(styles, width) && all_have_fonts(styles) {
        Ok(())
    } else {
        Err(EditError::StylesShape)
    }
}

/// A copy of a style, to be shared.
fn shared_copy(alloc: Global, style: &Style) -> Result<Shared<Style>, EditError>
    ensures style { IfOk result (λ shared. shared ≡ style.now) }
    ensures only { IsOkUnless result NoMemory }
{
    Ok(Shared::new(alloc, copy_of(style)?)?)
}

/// One row of styles, to be shared by the cells that get them.
fn shared_row(alloc: Global, row: &[Style]) -> Result<Items<Shared<Style>>, EditError>
    ensures row { IfOk result (λ shared. shared ≡ row.now) }
    ensures only { IsOkUnless result NoMemory }
{
    let mut shared = Items::empty(alloc);
    for style in row {
        let one = shared_copy(alloc, style)?;
        shared.push(one)?;
    }
    Ok(shared)
}

/// The same of all rows.
fn shared_rows(
    alloc: Global,
    styles: &[Vec<Style>],
) -> Result<Items<Items<Shared<Style>>>, EditError>
    ensures rows { IfOk result (λ shared. shared ≡ map (λ row. row.items) styles.now) }
    ensures only { IsOkUnless result NoMemory }
{
    let mut rows = Items::empty(alloc);
    for row in styles {
        let shared = shared_row(alloc, row.as_slice())?;
        rows.push(shared)?;
    }
    Ok(rows)
}

/// The greater of two counts of lines; none where no sheet has so many.
fn greater_count(own: i64, count: usize) -> Option<i32>
    ensures grown { IfSome result (λ grown. grown ≡ greater own (pos count)) }
    ensures far { result ≡ None → pos 1048576 <ℤ greater own (pos count) }
{
    if count > 1_048_576 {
        return None;
    }
    if own > 1_048_576 {
        return None;
    }
    if own <= count as i64 {
        Some(count as i32)
    } else {
        Some(own as i32)
    }
}

/// How many lines a rectangle takes that has those from a first to a last, and so many at least;
/// none where no sheet has so many.
fn grown_count(first: i32, last: i32, count: usize) -> Option<i32>
    ensures grown { IfSome result (λ grown. grown ≡ greater ((last -ℤ first) +ℤ pos 1) (pos count)) }
    ensures far { result ≡ None → pos 1048576 <ℤ greater ((last -ℤ first) +ℤ pos 1) (pos count) }
{
    greater_count(i64::from(last) - i64::from(first) + 1, count)
}

/// The rectangle from the first place of one that has these lines, as wide and as high as that one
/// and the styles. None where no sheet is so large; it reaches outside then.
fn grown_area(
    styles: &[Vec<Style>],
    first_row: i32,
    first_column: i32,
    last_row: i32,
    last_column: i32,
) -> Option<MergedCell>
    ensures area { IfSome result (λ area. area ≡ pasted_area (map (λ row. row.items) styles.now) first_row first_column last_row last_column) }
    ensures far { result ≡ None → is_inside (pasted_area (map (λ row. row.items) styles.now) first_row first_column last_row last_column) ≡ false }
{
    let width = grown_count(first_column, last_column, tile_width(styles))?;
    let height = grown_count(first_row, last_row, styles.len())?;
    Some(MergedCell {
        row: first_row,
        column: first_column,
        width,
        height,
    })
}

/// The rectangle that gets styles, which may lie outside the sheet: from the first place of one
/// that is viewed, as wide and as high as that one and the styles. None where no sheet is so large;
/// it reaches outside then.
pub fn pasted_area(styles: &[Vec<Style>], range: [i32; 4]) -> Option<MergedCell>
    ensures area { IfSome result (λ area. area ≡ pasted_by (map (λ row. row.items) styles.now) range) }
    ensures far { result ≡ None → is_inside (pasted_by (map (λ row. row.items) styles.now) range) ≡ false }
{
    let [first_row, first_column, last_row, last_column] = range;
    grown_area(styles, first_row, first_column, last_row, last_column)
}

/// The plan that lays styles over a rectangle as tiles. `NoMemory` alone is an error.
fn tile_plan(
    alloc: Global,
    default: &DefaultStyle,
    found: &Worksheet,
    area: MergedCell,
    styles: &[Vec<Style>],
) -> Result<SheetPlan, EditError>
    requires { IsInside area }
    ensures plan { Returns result (planned_styles (tiled_range area)
        (tiles (map (λ row. row.items) styles.now) (anchor_place area)) (λ place style. true) StyleValue found.now) }
    ensures canonical { IfOk result (λ plan. CanonicalCellPlan plan.cells) }
{
    let range = StyleRange {
        area,
        kind: AreaKind::OtherPlaces,
        clears: false,
    };
    let rows = shared_rows(alloc, styles)?;
    let first = area.anchor_place();
    let tiles = StyleTiles { rows, first };
    style_plan(alloc, found, default, range, &tiles)
}

/// Lays styles, which may be laid so, over the places of a rectangle of the sheet at an index as
/// tiles: the record of the change. Its refusals are those of `plan_pasted` behind the first one.
fn plan_tiles(
    alloc: Global,
    default: &DefaultStyle,
    workbook: &Workbook,
    sheet: u32,
    area: MergedCell,
    styles: &[Vec<Style>],
) -> Result<DiffList, EditError>
    requires rules { IsWellFormed workbook.now }
    ensures planned { Plans result workbook.now (sheet_edit workbook.now sheet (pasted_in area (map (λ row. row.items) styles.now))) }
{
    let found = workbook.worksheet(sheet)?;
    let area = inside_area(area)?;
    let plan = tile_plan(alloc, default, found, area, styles)?;
    plan_list(alloc, found, &plan)
}

/// Gives the places of a rectangle of the sheet at an index styles, which are laid over it as
/// tiles: the record of the change. A place that had no cell gets an empty one. The workbook is as
/// it was.
///
/// `StylesShape` as of `test_tile`, else `InvalidSheet` where there is no such sheet, else
/// `InvalidArea` where the rectangle is empty or reaches outside the sheet. They take no memory,
/// and the record takes some.
pub fn plan_pasted(
    alloc: Global,
    default: &DefaultStyle,
    workbook: &Workbook,
    sheet: u32,
    area: MergedCell,
    styles: &[Vec<Style>],
) -> Result<DiffList, EditError>
    requires rules { IsWellFormed workbook.now }
    ensures planned { Plans result workbook.now (styles_pasted sheet area (map (λ row. row.items) styles.now) workbook.now) }
{
    test_tile(styles)?;
    plan_tiles(alloc, default, workbook, sheet, area, styles)
}
