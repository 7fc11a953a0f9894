use base_values::{EditError, Items};
use sheet_grid::{SheetState, Worksheet};
use sheet_ids::{
    View, next_visible, selected_after_delete, selected_sheet_after_move, viewed, viewed_id,
};
use std::alloc::Global;
use std::test::Fail;

/// The selected sheet stays selected, wherever sheets are taken.
#[test]
fn moves(rt: HostRuntime) -> Result<(), Fail> {
    for (selected, from, to, is) in [
        (2, 0, 2, 1),
        (0, 0, 2, 2),
        (1, 2, 0, 2),
        (0, 1, 2, 0),
        (3, 1, 2, 3),
        (2, 3, 2, 3),
        (4294967295, 4294967294, 0, 4294967295),
    ] {
        assert_eq!(rt; selected_sheet_after_move(selected, from, to), is);
    }
    Ok(())
}

#[test]
fn deletions(rt: HostRuntime) -> Result<(), Fail> {
    assert_eq!(rt; selected_after_delete(3, 2, 0), 1);
    assert_eq!(rt; selected_after_delete(3, 1, 2), 2);
    assert_eq!(rt; selected_after_delete(1, 0, 0), 0);
    Ok(())
}

fn push_three(alloc: Global, sheets: &mut Items<Worksheet>) -> Result<(), EditError> {
    for (id, name, state) in [
        (1, "One", SheetState::Visible),
        (2, "Two", SheetState::Hidden),
        (3, "Three", SheetState::Visible),
    ] {
        let mut sheet = Worksheet::new(alloc, id, name)?;
        sheet.set_state(state);
        sheets.push(sheet)?;
    }
    Ok(())
}

/// The next visible sheet behind each of three sheets, and behind the first one of two.
fn next_ones(sheets: &[Worksheet]) -> [Option<usize>; 4] {
    if sheets.len() == 3 {
        [
            next_visible(sheets, 0),
            next_visible(sheets, 1),
            next_visible(sheets, 2),
            next_visible(&sheets[..2], 0),
        ]
    } else {
        [None; 4]
    }
}

/// The id that a view shows, and what it becomes at index 0 and at index 9.
fn views_at(sheets: &[Worksheet], view: View) -> (Option<u32>, View, View) {
    let was = viewed_id(sheets, view);
    let same = viewed(was, sheets, 0, view);
    let other = viewed(was, sheets, 9, view);
    (was, same, other)
}

/// Both of three sheets, of which the second one is hidden.
fn found(
    alloc: Global,
    view: View,
) -> Result<([Option<usize>; 4], (Option<u32>, View, View)), EditError> {
    let mut sheets = Items::empty(alloc);
    push_three(alloc, &mut sheets)?;
    let sheets = sheets.as_slice();
    Ok((next_ones(sheets), views_at(sheets, view)))
}

/// The next visible sheet is found behind the one that is hidden, and then from the front on. A view keeps
/// its rectangle on the same sheet alone, and an index behind the last one is the last.
#[test]
fn visible_and_viewed(rt: HostRuntime) -> Result<(), Fail> {
    let view = View::first().with_range(2, 3, 4, 5)?;
    assert!(rt; view.with_range(3, 1, 2, 1).is_err());
    assert!(rt; view.with_range(1, 1, 1, 16385).is_err());
    let (visible, (was, same, other)) = found(rt.alloc(), view)?;
    assert_eq!(rt; visible, [Some(2), Some(2), Some(0), None]);
    assert_eq!(rt; was, Some(1));
    assert_eq!(rt; same, view);
    assert_eq!(rt; other.sheet, 2);
    assert_eq!(rt; other.range, [1, 1, 1, 1]);
    Ok(())
}
