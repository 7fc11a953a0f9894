//! The cells of a range with other styles.

ghost use Rattle.std.specs.Prelude.{◌≡◌, IfOk, IsOkUnless, Ok, OnOk, false, if◌then◌else◌};
ghost use Rattle.std.specs.FinMap.{empty};
ghost use Rattle.std.specs.Option.{option_copied};
ghost use Rattle.base_axis.specs.Rectangles.{IsInside};
ghost use Rattle.base_values.specs.Answers.{Returns};
ghost use Rattle.base_values.specs.Places.{IsLine};
ghost use Rattle.base_values.specs.declared.EditError.TheVariants.{NoMemory};
ghost use Rattle.planned_maps.specs.Planned.{planned_places};
ghost use Rattle.planned_maps.specs.laws.PlanWalks.{chosen_put, line_done};
ghost use Rattle.range_styles.specs.CanonicalPlans.{CanonicalCellPlan};
ghost use Rattle.range_styles.specs.StyleRanges.{has_own_style};
ghost use Rattle.range_styles.specs.StyleWalks.{reaches_all};
ghost use Rattle.range_styles.specs.laws.StoredWalks.{columns_walked};
ghost use Rattle.range_styles.specs.Styled.{place_styled, styled_cell};
ghost use Rattle.sheet_grid.specs.Sheet.{content_of};

use crate::change::StyleChange;
use crate::range::{StyleRange, is_small, reaches_all, reaches_columns, reaches_rows};
use crate::shown::{has_own_style, touches};
use crate::walk::{PlaceEdit, plan_places, put_entries, put_own_line};
use base_axis::{Axis, AxisMap, MergedCell};
use base_shared::Shared;
use base_styles::Style;
use base_values::{EditError, PlaceMap, Position, copy_of};
use sheet_grid::{Cell, Content, DefaultStyle, LineAttr, Worksheet};
use std::alloc::Global;

type PlannedCells = PlaceMap<Option<Shared<Cell>>>;

/// The content of a cell. A place without a cell has none.
fn content_of(entry: Option<&Shared<Cell>>) -> Result<Content, EditError>
    ensures { Returns result (Ok (content_of (option_copied entry.entry))) }
{
    match entry {
        Some(cell) => copy_of(&cell.get().content),
        None => Ok(Content::Empty),
    }
}

/// A cell with another style. A place without a cell gets one without a content.
fn styled_cell(
    alloc: Global,
    entry: Option<&Shared<Cell>>,
    style: Shared<Style>,
) -> Result<Shared<Cell>, EditError>
    ensures { Returns result (Ok (styled_cell (option_copied entry.entry) style)) }
{
    let content = content_of(entry)?;
    Ok(Shared::new(alloc, Cell { content, style })?)
}

/// A change of the styles of a range.
#[derive(Drop)]
struct Styling<'a, C: StyleChange> {
    alloc: Global,
    sheet: &'a Worksheet,
    default: &'a DefaultStyle,
    range: StyleRange,
    change: &'a C,
}

impl<'a, C: StyleChange> PlaceEdit<Option<Shared<Cell>>> for Styling<'a, C> {
    ghost use Rattle.range_styles.specs.Styled.{place_styled};
    ghost use Rattle.range_styles.specs.laws.RangeLaws.{styled_here};

    ghost make = { λ edit. place_styled edit.range (C.made_of edit.change.now) edit.sheet.now };

    ghost area_of = { λ edit. edit.range.area };

    fn area(&self) -> MergedCell {
        self.range.area
    }

    fn entry_at(&self, place: Position) -> Result<Option<Option<Shared<Cell>>>, EditError> {
        if !touches(self.range, self.sheet, self.default, place) {
            return Ok(None);
        }
        let style = self.sheet.shown_style_at(place, self.default);
        let style = self.change.style_at(place, style)?;
        let entry = self.sheet.cell_map().get(place);
        Ok(Some(Some(styled_cell(self.alloc, entry, style)?)))
    }

    ghost inside = { λ edit place x is. styled_here edit.range (C.made_of edit.change.now) edit.sheet.now place x is };
}

/// Plans what the places of a line get, if the line has a style.
fn put_styled<A: Axis, E: PlaceEdit<Option<Shared<Cell>>>>(
    edit: &E,
    line: i32,
    attr: &LineAttr,
    cells: &mut PlannedCells,
) -> Result<(), EditError>
    requires area { IsInside (E.area_of edit.now) }
    requires line { IsLine A.along.last line }
    ensures put { OnOk result (cells.new ≡
        (if has_own_style attr.now then line_done (E.make edit.now) A.along (E.area_of edit.now) line cells.old else cells.old)) }
    ensures only { IsOkUnless result NoMemory }
{
    if has_own_style(attr) {
        put_own_line::<A, Option<Shared<Cell>>, E>(edit, line, cells)?;
    }
    Ok(())
}

/// Plans what the places of the lines get that have a style.
fn put_styled_lines<A: Axis, E: PlaceEdit<Option<Shared<Cell>>>>(
    edit: &E,
    lines: &AxisMap<A, LineAttr>,
    cells: &mut PlannedCells,
) -> Result<(), EditError>
    requires { IsInside (E.area_of edit.now) }
    ensures put { OnOk result (cells.new ≡
        chosen_put (E.make edit.now) has_own_style A.along (E.area_of edit.now) cells.old lines.now) }
    ensures only { IsOkUnless result NoMemory }
{
    for (line, attr) in lines.iter() {
        put_styled::<A, E>(edit, *line, attr, cells)?;
    }
    Ok(())
}

/// Plans what the places of the lines get that have a style, if these are to be gone over.
fn put_reached<A: Axis, E: PlaceEdit<Option<Shared<Cell>>>>(
    edit: &E,
    reached: bool,
    lines: &AxisMap<A, LineAttr>,
    cells: &mut PlannedCells,
) -> Result<(), EditError>
    requires { IsInside (E.area_of edit.now) }
    ensures put { OnOk result (cells.new ≡
        (if reached then chosen_put (E.make edit.now) has_own_style A.along (E.area_of edit.now) cells.old lines.now else cells.old)) }
    ensures only { IsOkUnless result NoMemory }
{
    if reached {
        put_styled_lines(edit, lines, cells)?;
    }
    Ok(())
}

/// Plans what the places get that have a cell, and those of rows and columns that have a style, as
/// far as a range may touch them.
fn put_stored<C: StyleChange>(
    edit: &Styling<'_, C>,
    there: &PlaceMap<Shared<Cell>>,
    cells: &mut PlannedCells,
) -> Result<(), EditError>
    requires area { IsInside edit.now.range.area }
    requires there { there.now ≡ edit.now.sheet.now.cells }
    requires new { cells.old ≡ empty }
    ensures put { OnOk result (cells.new ≡
        columns_walked (place_styled edit.now.range (C.made_of edit.now.change.now) edit.now.sheet.now) edit.now.range edit.now.sheet.now) }
    ensures only { IsOkUnless result NoMemory }
{
    put_entries(edit, there, cells)?;
    put_reached(edit, reaches_rows(edit.range), edit.sheet.row_map(), cells)?;
    put_reached(
        edit,
        reaches_columns(edit.range),
        edit.sheet.column_map(),
        cells,
    )
}

/// What the places of a range get that it touches, where these are places that are stored.
#[tactic(auto, using(crate::specs::laws::RangeLaws::stored_planned))]
fn plan_stored<C: StyleChange>(
    edit: &Styling<'_, C>,
    there: &PlaceMap<Shared<Cell>>,
) -> Result<PlannedCells, EditError>
    requires area { IsInside edit.now.range.area }
    requires part { reaches_all edit.now.range.kind edit.now.range.clears ≡ false }
    requires there { there.now ≡ edit.now.sheet.now.cells }
    ensures output { IfOk result (λ cells. cells ≡
        planned_places (place_styled edit.now.range (C.made_of edit.now.change.now) edit.now.sheet.now) edit.now.range.area) }
    ensures only { IsOkUnless result NoMemory }
{
    let mut cells = PlaceMap::new(edit.alloc);
    put_stored(edit, there, &mut cells)?;
    Ok(cells)
}

/// What the places of a range get that it touches. It goes over all places of the range where each
/// is touched, or where they are fewer than what the sheet stores, and else over what it stores.
fn plan_range<C: StyleChange>(
    edit: &Styling<'_, C>,
    there: &PlaceMap<Shared<Cell>>,
) -> Result<PlannedCells, EditError>
    requires area { IsInside edit.now.range.area }
    requires there { there.now ≡ edit.now.sheet.now.cells }
    ensures output { IfOk result (λ cells. cells ≡
        planned_places (place_styled edit.now.range (C.made_of edit.now.change.now) edit.now.sheet.now) edit.now.range.area) }
    ensures only { IsOkUnless result NoMemory }
{
    if reaches_all(edit.range) {
        return plan_places(edit.alloc, edit);
    }
    if is_small(edit.range.area, edit.sheet) {
        return plan_places(edit.alloc, edit);
    }
    plan_stored(edit, there)
}

/// What the places of a range get that it touches. `NoMemory` alone is an error.
pub(crate) fn styled_cells<C: StyleChange>(
    alloc: Global,
    sheet: &Worksheet,
    default: &DefaultStyle,
    range: StyleRange,
    change: &C,
) -> Result<PlannedCells, EditError>
    requires { IsInside range.area }
    ensures output { IfOk result (λ cells. cells ≡
        planned_places (place_styled range (C.made_of change.now) sheet.now) range.area) }
    ensures canonical { IfOk result CanonicalCellPlan }
    ensures only { IsOkUnless result NoMemory }
{
    let there = sheet.cell_map();
    let edit = Styling {
        alloc,
        sheet,
        default,
        range,
        change,
    };
    plan_range(&edit, there)
}
