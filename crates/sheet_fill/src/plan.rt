//! The plan of a fill.

ghost use Rattle.std.specs.Prelude.{◌≡◌, IfOk, IsOkUnless};
ghost use Rattle.base_values.specs.Answers.{Returns};
ghost use Rattle.base_values.specs.declared.EditError.TheVariants.{NoMemory};
ghost use Rattle.sheet_fill.specs.FillRanges.{IsRange};
ghost use Rattle.sheet_fill.specs.Plans.{CanonicalFill, fill_planned, plan_of};

use crate::cross_line::{Fill, fill_places};
use crate::range::{fill_range, source_of};
use crate::refusals::test_range;
use crate::tiles::merges_filled;
use base_axis::{Area, Axis, MergedCell};
use base_shared::Shared;
use base_tables::Language;
use base_values::{EditError, Items, PlaceMap};
use sheet_grid::{Cell, DefaultStyle, Link, Workbook};
use std::alloc::Global;

/// What a fill makes of a sheet. As in every plan, a place of which nothing is said keeps what it has.
#[derive(Clone, PartialEq, Eq, Drop)]
pub struct FillPlan {
    /// The cell of each place of the target.
    pub cells: PlaceMap<Option<Shared<Cell>>>,
    /// The link of each, or that it has none.
    pub links: PlaceMap<Option<Link>>,
    /// The merges of the sheet afterwards.
    pub merges: Items<MergedCell>,
}

/// The plan of a fill that is not refused.
fn plan_of<A: Axis>(fill: &Fill<'_>) -> Result<FillPlan, EditError>
    requires { IsRange fill.now.range }
    ensures plan { IfOk result (λ plan. plan ≡ plan_of A.along fill.now.locale fill.now.language fill.now.sheet.now fill.now.range) }
    ensures canonical { IfOk result (λ plan. CanonicalFill plan.cells) }
    ensures only { IsOkUnless result NoMemory }
{
    let mut cells = PlaceMap::new(fill.alloc);
    let mut links = PlaceMap::new(fill.alloc);
    fill_places::<A>(fill, &mut cells, &mut links)?;
    let merges = merges_filled::<A>(fill.alloc, fill.range, fill.sheet.merged_cells())?;
    Ok(FillPlan {
        cells,
        links,
        merges,
    })
}

/// The plan of a fill, which goes on from an area, the source, to a line of the axis: what each place
/// from the source on to that line gets, on the cross lines of the source, and the merges of the sheet
/// afterwards. Nothing is changed.
///
/// Behind the source its lines repeat from the first one onwards, and before it from the last one going
/// back. Each cross line is filled by itself: where the texts of its cells have a progression, the
/// places get what comes next in it, read in the language, else each gets the content of the cell that
/// it repeats, where a formula's relative corners move along. Each place gets the style that shows
/// there and the link. docs/MODEL.md has the rules.
///
/// `InvalidSheet` where there is no such sheet, else `InvalidArea` where the area is empty or reaches
/// outside the sheet, else `InvalidRow` or `InvalidColumn`, by the axis, where the line is outside it,
/// else `NothingToFill` where the line is one of the area's, else `PartialMerge` where a merge meets
/// the source or the target and is wholly in neither, else `CutMerge` where the target ends within a
/// repetition of a merge of the source, else `PartialArray` where an array of more than one cell meets
/// the target and reaches out of it. They take no memory, and the plan takes some.
pub fn plan_fill<A: Axis>(
    alloc: Global,
    workbook: &Workbook,
    area: &Area,
    to: i32,
    language: Language,
) -> Result<FillPlan, EditError>
    ensures planned { Returns result (fill_planned A.along area.now to language workbook.now) }
    ensures canonical { IfOk result (λ plan. CanonicalFill plan.cells) }
{
    let sheet = workbook.worksheet(area.sheet)?;
    let wanted = fill_range::<A>(source_of(area), to)?;
    let range = test_range::<A>(wanted, sheet)?;
    let default = DefaultStyle::new(alloc)?;
    let fill = Fill {
        alloc,
        default: &default,
        sheet,
        range,
        locale: workbook.locale(),
        language,
    };
    plan_of::<A>(&fill)
}
