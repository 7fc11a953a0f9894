// Lists and maps follow an edit by themselves too. With entries they follow with a workbook, in the cases of `script_rows`.
ghost use Rattle.std.specs.Prelude.{pos};
ghost use Rattle.line_edits.specs.Edit.{IsValid};

use base_axis::{Axis, AxisMap, MergeList, MergedCell, RowAxis};
use base_values::{EditError, Items, PlaceMap, Text};
use line_map::{EditKind, EditedRules, Follow, LineEdit, there_and_back};
use sheet_grid::{LineAttr, Link};
use std::alloc::Global;
use std::test::Fail;

/// Whether a value stays, and comes back.
fn stays<A: Axis, F: Follow<A> + PartialEq>(
    alloc: Global,
    edit: &LineEdit<A>,
    value: &F,
) -> Result<bool, EditError>
    requires valid { IsValid A.along.last edit.now.kind }
    requires lies { F.Inside edit.now.kind value.now }
{
    let followed = value.follow(alloc, edit)?;
    let back = there_and_back(alloc, value, edit)?;
    Ok(followed == *value && back == *value)
}

fn merges_stay(alloc: Global, edit: &LineEdit<RowAxis>) -> Result<bool, EditError>
    requires { IsValid (pos 1048576) edit.now.kind }
{
    stays(alloc, edit, &MergeList::empty(alloc))
}

fn rules_stay(alloc: Global, edit: &LineEdit<RowAxis>) -> Result<bool, EditError>
    requires { IsValid (pos 1048576) edit.now.kind }
{
    let rules = EditedRules {
        rules: Items::empty(alloc),
        edited: Text::new(String::from_str(alloc, "one")?),
    };
    stays(alloc, edit, &rules)
}

fn lists_stay(alloc: Global, edit: &LineEdit<RowAxis>) -> Result<bool, EditError>
    requires { IsValid (pos 1048576) edit.now.kind }
{
    let lists = Items::<Items<MergedCell>>::empty(alloc);
    stays(alloc, edit, &lists)
}

fn links_stay(alloc: Global, edit: &LineEdit<RowAxis>) -> Result<bool, EditError>
    requires { IsValid (pos 1048576) edit.now.kind }
{
    let links = PlaceMap::<Link>::new(alloc);
    stays(alloc, edit, &links)
}

fn rows_stay(alloc: Global, edit: &LineEdit<RowAxis>) -> Result<bool, EditError>
    requires { IsValid (pos 1048576) edit.now.kind }
{
    let rows = AxisMap::<RowAxis, LineAttr>::new(alloc);
    stays(alloc, edit, &rows)
}

fn all_stay(alloc: Global) -> Result<bool, EditError> {
    let edit = LineEdit::<RowAxis>::new(EditKind::Insert { first: 3, count: 2 });
    if !edit.is_valid() {
        return Ok(false);
    }
    Ok(
        merges_stay(alloc, &edit)?
            && rules_stay(alloc, &edit)?
            && lists_stay(alloc, &edit)?
            && links_stay(alloc, &edit)?
            && rows_stay(alloc, &edit)?,
    )
}

#[test]
fn empty_values_follow(rt: HostRuntime) -> Result<(), Fail> {
    assert_eq!(rt; all_stay(rt.alloc()), Ok(true));
    Ok(())
}
