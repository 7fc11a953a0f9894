//! Ranges of styles that are changed or taken away.

ghost use Rattle.std.specs.Prelude.{◌≡◌, ◌≢◌, IfOk, Ok, Err};
ghost use Rattle.base_axis.specs.Rectangles.{IsInside};
ghost use Rattle.base_values.specs.declared.EditError.TheVariants.{NoMemory};
ghost use Rattle.sheet_rules.specs.WellFormed.{IsWellFormed};
ghost use Rattle.edit_plans.specs.Plans.{Plans};
ghost use Rattle.edit_plans.specs.RangeEdits.{formats_cleared, inside_area, styles_set};

use crate::plan_list;
use base_axis::MergedCell;
use base_shared::Shared;
use base_styles::Style;
use base_values::{EditError, Position, copy_of};
use range_styles::{StyleChange, StyleRange, kind_of, style_plan};
use sheet_grid::{DefaultStyle, Workbook};
use sheet_history::DiffList;
use std::alloc::Global;
use style_edits::{test_update, update_style};

/// A value that goes to one attribute of styles, which a path names.
#[derive(Drop)]
struct StyleUpdate<'a> {
    default: &'a DefaultStyle,
    path: &'a str,
    value: &'a str,
}

impl<'a> StyleChange for StyleUpdate<'a> {
    ghost use Rattle.edit_plans.specs.RangeEdits.{may_update, update_refusal, updates};
    ghost use Rattle.edit_plans.specs.laws.UpdateLaws.{refusal_sure, update_sized};

    ghost made_of = { λ change. updates change.path.now change.value.now };

    ghost takes = { λ change. may_update change.path.now change.value.now };

    ghost refusal_of = { λ change. update_refusal change.path.now change.value.now };

    fn accepts(&self, _place: Position, style: &Style) -> bool {
        test_update(style, self.path, self.value).is_ok()
    }

    fn style_at(
        &self,
        _place: Position,
        style: &Shared<Style>,
    ) -> Result<Shared<Style>, EditError> {
        match update_style(style.get(), self.path, self.value) {
            Ok(changed) => Ok(Shared::new(style.get().num_fmt.allocator(), changed)?),
            Err(EditError::NoMemory) => Err(EditError::NoMemory),
            Err(_) => copy_of(style),
        }
    }

    fn refusal(&self) -> EditError {
        match test_update(self.default.shared().get(), self.path, self.value) {
            Ok(()) => EditError::StyleValue,
            Err(error) => error,
        }
    }

    ghost sure = { λ change. refusal_sure change.path.now change.value.now };

    ghost sized = { λ change place style. update_sized change.path.now change.value.now style };
}

/// A rectangle, if it has a place and all its places are of the sheet. It takes no memory.
///
/// `InvalidArea` where not.
pub(crate) fn inside_area(area: MergedCell) -> Result<MergedCell, EditError>
    ensures area { result ≡ inside_area area }
    ensures inside { IfOk result IsInside }
    ensures same { IfOk result (λ free. free ≡ area) }
    ensures sure { result ≢ Err NoMemory }
{
    if area.is_inside() {
        Ok(area)
    } else {
        Err(EditError::InvalidArea)
    }
}

/// Gives a value to one attribute of the styles of a rectangle of the sheet at an index: the record of
/// the change. Of full columns, which begin at row 1 and have all rows, each column's style gets it, and
/// the style of each place that has a cell or whose row has a style; of full rows likewise; of other
/// rectangles that of each place. A place that had no cell gets an empty one. The workbook is as it was.
///
/// `InvalidSheet` where there is no such sheet, else `InvalidArea` where the rectangle is empty or
/// reaches outside the sheet, else `StylePath` where no attribute has the path, else `StyleValue` where
/// the value is none of the attribute for one of these styles. They take no memory, and the record
/// takes some.
pub fn plan_styles(
    alloc: Global,
    default: &DefaultStyle,
    workbook: &Workbook,
    sheet: u32,
    area: MergedCell,
    path: &str,
    value: &str,
) -> Result<DiffList, EditError>
    requires rules { IsWellFormed workbook.now }
    ensures planned { Plans result workbook.now (styles_set sheet area path.now value.now workbook.now) }
{
    let found = workbook.worksheet(sheet)?;
    let area = inside_area(area)?;
    let kind = kind_of(area);
    let range = StyleRange {
        area,
        kind,
        clears: false,
    };
    let change = StyleUpdate {
        default,
        path,
        value,
    };
    let plan = style_plan(alloc, found, default, range, &change)?;
    plan_list(alloc, found, &plan)
}

/// Takes the styles of a rectangle of the sheet at an index away: the record of the change. Of full
/// columns and full rows the styles of the lines go, and their cells get the default style, of full
/// columns also the places whose row has a style; of other rectangles the cells get it, and the places
/// that show another style. The workbook is as it was.
///
/// `InvalidSheet` where there is no such sheet, else `InvalidArea` where the rectangle is empty or
/// reaches outside the sheet. They take no memory, and the record takes some.
pub fn plan_clear_formatting(
    alloc: Global,
    default: &DefaultStyle,
    workbook: &Workbook,
    sheet: u32,
    area: MergedCell,
) -> Result<DiffList, EditError>
    requires rules { IsWellFormed workbook.now }
    ensures planned { Plans result workbook.now (formats_cleared sheet area workbook.now) }
{
    let found = workbook.worksheet(sheet)?;
    let area = inside_area(area)?;
    let kind = kind_of(area);
    let range = StyleRange {
        area,
        kind,
        clears: true,
    };
    let plan = style_plan(alloc, found, default, range, default)?;
    plan_list(alloc, found, &plan)
}
