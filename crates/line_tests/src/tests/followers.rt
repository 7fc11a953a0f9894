// What follows an edit by itself: where it goes, and that it comes back with what was kept. What follows with a workbook is in the cases
// of `script_rows`.
ghost use Rattle.std.specs.Prelude.{pos, IfOk};
ghost use Rattle.base_values.specs.Places.{IsPlace};
ghost use Rattle.line_edits.specs.Edit.{IsValid};

use base_axis::{Axis, MergedCell, RowAxis};
use base_values::{EditError, Text, place_of};
use formula_tree::{Corner, Node, is_placed};
use line_map::{EditKind, Follow, LineEdit, TreeAt, there_and_back};
use std::alloc::Global;
use std::test::Fail;

/// Whether a value goes there, and comes back.
fn goes<A: Axis, F: Follow<A> + PartialEq>(
    alloc: Global,
    edit: &LineEdit<A>,
    value: &F,
    there: &F,
) -> Result<bool, EditError>
    requires valid { IsValid A.along.last edit.now.kind }
    requires lies { F.Inside edit.now.kind value.now }
{
    let followed = value.follow(alloc, edit)?;
    let back = there_and_back(alloc, value, edit)?;
    Ok(followed == *there && back == *value)
}

fn square(row: i32) -> MergedCell {
    MergedCell {
        row,
        column: 2,
        width: 2,
        height: 2,
    }
}

/// Whether an area goes from a row to another one.
fn area_goes(alloc: Global, edit: &LineEdit<RowAxis>, from: i32, to: i32) -> Result<bool, EditError>
    requires { IsValid (pos 1048576) edit.now.kind }
{
    let area = square(from);
    if area.is_inside() {
        goes(alloc, edit, &area, &square(to))
    } else {
        Ok(false)
    }
}

/// The cell so many rows away in the same column.
fn away(rows: i32) -> Node {
    let corner = Corner {
        absolute_row: false,
        row: rows,
        absolute_column: false,
        column: 0,
    };
    Node::Reference(None, corner)
}

/// A formula in the first column of a row, on the edited sheet.
fn tree_at(alloc: Global, row: i32, rows: i32) -> Result<TreeAt, EditError>
    ensures { IfOk result (λ tree. IsPlace tree.place) }
{
    Ok(TreeAt {
        node: away(rows),
        sheet: Text::new(String::from_str(alloc, "one")?),
        place: place_of(row, 1)?,
        edited: Text::new(String::from_str(alloc, "ONE")?),
    })
}

/// Whether a formula goes from a row to another one, by how many rows away its reference leads.
fn tree_goes(
    alloc: Global,
    edit: &LineEdit<RowAxis>,
    from: (i32, i32),
    to: (i32, i32),
) -> Result<bool, EditError>
    requires { IsValid (pos 1048576) edit.now.kind }
{
    let tree = tree_at(alloc, from.0, from.1)?;
    if is_placed(&tree.node, tree.place) {
        goes(alloc, edit, &tree, &tree_at(alloc, to.0, to.1)?)
    } else {
        Ok(false)
    }
}

/// Two rows come before row 3.
fn all_go_on(alloc: Global) -> Result<bool, EditError> {
    let edit = LineEdit::<RowAxis>::new(EditKind::Insert { first: 3, count: 2 });
    if !edit.is_valid() {
        return Ok(false);
    }
    Ok(area_goes(alloc, &edit, 4, 6)? && tree_goes(alloc, &edit, (4, -3), (6, -5))?)
}

/// Row 4 goes: what has a corner there stays, and so does a formula there.
fn all_stay(alloc: Global) -> Result<bool, EditError> {
    let edit = LineEdit::<RowAxis>::new(EditKind::Delete { first: 4, count: 1 });
    if !edit.is_valid() {
        return Ok(false);
    }
    Ok(area_goes(alloc, &edit, 4, 4)? && tree_goes(alloc, &edit, (4, -3), (4, -3))?)
}

#[test]
fn values_follow_by_themselves(rt: HostRuntime) -> Result<(), Fail> {
    assert_eq!(rt; all_go_on(rt.alloc()), Ok(true));
    assert_eq!(rt; all_stay(rt.alloc()), Ok(true));
    Ok(())
}
