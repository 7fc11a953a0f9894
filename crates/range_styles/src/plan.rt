//! Plans of edits of a sheet.

ghost use Rattle.std.specs.Prelude.{IfOk};
ghost use Rattle.base_axis.specs.Rectangles.{IsInside};
ghost use Rattle.base_values.specs.Answers.{Returns};
ghost use Rattle.range_styles.specs.CanonicalPlans.{CanonicalCellPlan};
ghost use Rattle.range_styles.specs.Styled.{planned_styles};

use crate::accept::all_accept;
use crate::cells::styled_cells;
use crate::change::StyleChange;
use crate::lines::styled_lines;
use crate::range::StyleRange;
use base_axis::{AxisMap, ColumnAxis, RowAxis};
use base_shared::Shared;
use base_values::{EditError, PlaceMap};
use sheet_grid::{Cell, DefaultStyle, LineAttr, Link, Worksheet};
use std::alloc::Global;

/// What an edit makes of a sheet: what places and lines get that it names. They may get nothing: a
/// cell, a link or what a line has of its own then goes.
#[derive(Drop)]
pub struct SheetPlan {
    pub cells: PlaceMap<Option<Shared<Cell>>>,
    pub links: PlaceMap<Option<Link>>,
    pub columns: AxisMap<ColumnAxis, Option<LineAttr>>,
    pub rows: AxisMap<RowAxis, Option<LineAttr>>,
}

/// The plan of a change of the styles of a range. Of full columns each column's style is changed, or
/// the default one where it has none, and the style of each place that has a cell or whose row has a
/// style; of full rows likewise; of other areas that of each place. A place that had no cell gets one
/// without a content.
///
/// Where styles are taken away: of full columns and full rows those of the lines, and the default
/// style goes to the cells; of full columns also to the places whose row has a style; of other areas
/// also to the places that show another style.
///
/// The refusal of the change where it may not be made of one of these styles. That takes no memory.
#[tactic(auto, unfolding(crate::specs::Styled::planned_styles))]
pub fn style_plan<C: StyleChange>(
    alloc: Global,
    sheet: &Worksheet,
    default: &DefaultStyle,
    range: StyleRange,
    change: &C,
) -> Result<SheetPlan, EditError>
    requires { IsInside range.area }
    ensures plan { Returns result (planned_styles range (C.made_of change.now) (C.takes change.now) (C.refusal_of change.now) sheet.now) }
    ensures canonical { IfOk result (λ plan. CanonicalCellPlan plan.cells) }
{
    if !all_accept(sheet, default, range, change) {
        return Err(change.refusal());
    }
    Ok(SheetPlan {
        cells: styled_cells(alloc, sheet, default, range, change)?,
        links: PlaceMap::new(alloc),
        columns: styled_lines(alloc, sheet.column_map(), default, range, change)?,
        rows: styled_lines(alloc, sheet.row_map(), default, range, change)?,
    })
}
