//! Records of plans that are carried out.

ghost use Rattle.std.specs.Prelude.{◌≡◌, ◌++◌, IfOk, IsOkUnless, Ok, OnOk};
ghost use Rattle.std.specs.Option.{option_copied};
ghost use Rattle.base_values.specs.Answers.{Returns};
ghost use Rattle.base_values.specs.declared.EditError.TheVariants.{NoMemory};
ghost use Rattle.sheet_grid.specs.CanonicalCell.{CanonicalCells};
ghost use Rattle.range_styles.specs.CanonicalPlans.{CanonicalCellPlan};
ghost use Rattle.sheet_history.specs.Diffs.{IsCanonicalList};
ghost use Rattle.edit_plans.specs.SheetPlans.{attr_diffs, cell_diffs, link_diffs, plan_diffs};

use crate::list::{attr_diff, cell_diff, link_diff, list_of, push_diff};
use base_axis::{Axis, AxisMap};
use base_shared::Shared;
use base_values::{EditError, Exact, Items, PlaceMap, copy_of};
use range_styles::SheetPlan;
use sheet_grid::{Cell, LineAttr, Link, Worksheet};
use sheet_history::{Diff, DiffList, LineAxis};
use std::alloc::Global;

/// A copy of what stands at a place, if something does. `NoMemory` alone is an error.
fn copied<V: Exact>(entry: Option<&V>) -> Result<Option<V>, EditError>
    ensures { Returns result (Ok (option_copied entry.entry)) }
{
    match entry {
        Some(value) => Ok(Some(copy_of(value)?)),
        None => Ok(None),
    }
}

/// Puts the changes of the planned cells behind others.
fn push_cells(
    id: u32,
    cells: &PlaceMap<Shared<Cell>>,
    plan: &PlaceMap<Option<Shared<Cell>>>,
    list: &mut Items<Diff>,
) -> Result<(), EditError>
    requires cells { CanonicalCells cells.now }
    requires plan { CanonicalCellPlan plan.now }
    requires list { IsCanonicalList list.old }
    ensures output { OnOk result (list.new ≡ list.old ++ cell_diffs id plan.now cells.now) }
    ensures canonical { OnOk result (IsCanonicalList list.new) }
    ensures only { IsOkUnless result NoMemory }
{
    for (place, new) in plan.iter() {
        let old = copied(cells.get(*place))?;
        let planned = copy_of(new)?;
        let diff = cell_diff(id, *place, old, planned);
        push_diff(list, diff)?;
    }
    Ok(())
}

/// Puts the changes of the planned links behind others.
fn push_links(
    id: u32,
    links: &PlaceMap<Link>,
    plan: &PlaceMap<Option<Link>>,
    list: &mut Items<Diff>,
) -> Result<(), EditError>
    requires { IsCanonicalList list.old }
    ensures output { OnOk result (list.new ≡ list.old ++ link_diffs id plan.now links.now) }
    ensures canonical { OnOk result (IsCanonicalList list.new) }
    ensures only { IsOkUnless result NoMemory }
{
    for (place, new) in plan.iter() {
        let old = copied(links.get(*place))?;
        let planned = copy_of(new)?;
        let diff = link_diff(id, *place, old, planned);
        push_diff(list, diff)?;
    }
    Ok(())
}

/// Puts the changes of what the planned lines have of their own behind others.
fn push_attrs<A: Axis>(
    id: u32,
    axis: LineAxis,
    lines: &AxisMap<A, LineAttr>,
    plan: &AxisMap<A, Option<LineAttr>>,
    list: &mut Items<Diff>,
) -> Result<(), EditError>
    requires { IsCanonicalList list.old }
    ensures output { OnOk result (list.new ≡ list.old ++ attr_diffs id axis plan.now lines.now) }
    ensures canonical { OnOk result (IsCanonicalList list.new) }
    ensures only { IsOkUnless result NoMemory }
{
    for (line, new) in plan.iter() {
        let old = copied(lines.get(*line))?;
        let planned = copy_of(new)?;
        let diff = attr_diff(id, axis, *line, old, planned);
        push_diff(list, diff)?;
    }
    Ok(())
}

/// The record of a plan that is carried out on a sheet: the changes of cells, links, columns and rows,
/// in this order and in that of their keys, where they do not stay. `NoMemory` alone is an error.
pub fn plan_list(alloc: Global, sheet: &Worksheet, plan: &SheetPlan) -> Result<DiffList, EditError>
    requires { CanonicalCellPlan plan.now.cells }
    ensures output { IfOk result (λ list. list ≡ plan_diffs plan.now sheet.now) }
    ensures canonical { IfOk result IsCanonicalList }
    ensures only { IsOkUnless result NoMemory }
{
    let id = sheet.get_sheet_id();
    let mut diffs = Items::empty(alloc);
    push_cells(id, sheet.cell_map(), &plan.cells, &mut diffs)?;
    push_links(id, sheet.link_map(), &plan.links, &mut diffs)?;
    push_attrs(
        id,
        LineAxis::Columns,
        sheet.column_map(),
        &plan.columns,
        &mut diffs,
    )?;
    push_attrs(id, LineAxis::Rows, sheet.row_map(), &plan.rows, &mut diffs)?;
    list_of(alloc, diffs)
}
