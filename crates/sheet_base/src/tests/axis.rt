use super::is_copied;
use base_axis::{Axis, AxisMap, ColumnAxis, MergeList, MergedCell, RowAxis};
use base_values::{EditError, Items, Position};
use std::alloc::Global;
use std::process::Abort;
use std::test::Fail;

/// A place of the third row and second column, asked along an axis.
fn moved_to_seven<A: Axis>() -> (i32, Position, bool) {
    let place = Position { row: 3, column: 2 };
    (A::line(place), A::with_line(place, 7), A::of(true, false))
}

/// Each axis once through its bound.
#[test]
fn along_both_axes(rt: HostRuntime) -> Result<(), Fail> {
    let (row, below, of_rows) = moved_to_seven::<RowAxis>();
    assert_eq!(rt; row, 3);
    assert!(rt; below == Position { row: 7, column: 2 });
    assert!(rt; of_rows);
    let (column, right, of_columns) = moved_to_seven::<ColumnAxis>();
    assert_eq!(rt; column, 2);
    assert!(rt; right == Position { row: 3, column: 7 });
    assert!(rt; !of_columns);
    Ok(())
}

fn lines_go(
    rt: &impl Abort,
    alloc: Global,
    map: &mut AxisMap<ColumnAxis, bool>,
) -> Result<(), EditError> {
    assert!(rt; map.insert(2, true)?.is_none());
    map.put(3, Some(false))?;
    assert_eq!(rt; map.keys(alloc)?.len(), 2);
    assert!(rt; is_copied(&*map)?);
    assert_eq!(rt; map.iter().count(), 2);
    map.put(3, None)?;
    assert!(rt; map.get(3).is_none());
    Ok(())
}

/// Each call on a map that may find no memory, once where there is enough.
#[test]
fn with_ample_memory(rt: HostRuntime) -> Result<(), Fail> {
    let mut map = AxisMap::new(rt.alloc());
    Ok(lines_go(&rt, rt.alloc(), &mut map)?)
}

/// From the second row and third column, four columns wide and five rows high.
const BLOCK: MergedCell = MergedCell {
    row: 2,
    column: 3,
    width: 4,
    height: 5,
};

fn lines_of_block<A: Axis>() -> (i32, i64, i32) {
    let across = BLOCK.across::<A>();
    (BLOCK.first_line::<A>(), BLOCK.last_line::<A>(), across)
}

#[test]
fn rectangles_along_both_axes(rt: HostRuntime) -> Result<(), Fail> {
    assert!(rt; lines_of_block::<RowAxis>() == (2, 6, 4));
    assert!(rt; lines_of_block::<ColumnAxis>() == (3, 6, 5));
    let row = BLOCK.with_lines::<RowAxis>(7, 7);
    assert!(rt; (row.row, row.column, row.width, row.height) == (7, 3, 4, 1));
    let column = BLOCK.with_lines::<ColumnAxis>(7, 7);
    assert!(rt; (column.row, column.column, column.width, column.height) == (2, 7, 1, 5));
    Ok(())
}

fn block_list(alloc: Global) -> Result<MergeList, EditError> {
    let mut items = Items::empty(alloc);
    items.push(BLOCK)?;
    Ok(MergeList::new(items))
}

/// Whether a list is copied and differs from an empty one.
fn is_list(alloc: Global, merges: &MergeList) -> Result<bool, EditError> {
    let is_same = is_copied(merges)?;
    let empty = MergeList::empty(alloc);
    Ok(is_same && *merges != empty)
}

#[test]
fn lists_of_merges(rt: HostRuntime) -> Result<(), Fail> {
    let merges = block_list(rt.alloc())?;
    assert!(rt; is_list(rt.alloc(), &merges)?);
    assert_eq!(rt; merges.into_items().len(), 1);
    Ok(())
}
