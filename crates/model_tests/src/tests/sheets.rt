// What is chosen of a new model, and ids that end. What is selected of sheets that come, go, move and hide, and what becomes
// of the sheets themselves, is in the cases of `script_rows`.
use super::*;

/// A new model shows its first sheet at A1. What is chosen is no edit, and what cannot be is refused.
pub(super) fn views_are_chosen(
    rt: &impl Abort,
    model: &mut UserModel<ClearAll>,
) -> Result<(), EditError> {
    assert!(rt;
        model.get_view()
            == View {
                sheet: 0,
                range: [1, 1, 1, 1]
            }
    );
    model.set_user_input(0, 1, 1, "a")?;
    model.undo()?;
    model.set_selected_range(2, 1, 3, 4)?;
    assert_eq!(rt; model.set_selected_sheet(1), Err(EditError::InvalidSheet));
    assert_eq!(rt;
        model.set_selected_range(3, 1, 2, 4),
        Err(EditError::InvalidArea)
    );
    assert_eq!(rt;
        model.set_selected_range(1, 1, 1048577, 1),
        Err(EditError::InvalidArea)
    );
    model.set_selected_sheet(0)?;
    assert!(rt;
        model.get_view()
            == View {
                sheet: 0,
                range: [2, 1, 3, 4]
            }
    );
    assert!(rt; model.can_redo() && !model.can_undo());
    Ok(())
}

#[test]
fn a_view_is_chosen(rt: HostRuntime) -> Result<(), Fail> {
    Ok(run_on_new(&rt, rt.alloc(), Case::ChosenView)?)
}

/// A workbook whose sheets have the ids 1 and 4294967295.
fn last_id(alloc: Global) -> Result<UserModel<ClearAll>, EditError> {
    let mut workbook = Workbook::new_empty(alloc, "book", Locale::En, Zone::Utc)?;
    workbook.insert_worksheet(1, Worksheet::new(alloc, 4294967295, "Last")?)?;
    UserModel::from_model(alloc, PlainModel::from_workbook(alloc, workbook)?, ClearAll)
}

pub(super) fn no_id_is_left(
    rt: &impl Abort,
    model: &mut UserModel<ClearAll>,
) -> Result<(), EditError> {
    assert_eq!(rt; model.new_sheet(), Err(EditError::SheetIds));
    assert_eq!(rt; model.duplicate_sheet(2), Err(EditError::InvalidSheet));
    assert_eq!(rt; model.duplicate_sheet(0), Err(EditError::SheetIds));
    assert!(rt; !model.can_undo());
    model.delete_sheet(1)?;
    model.new_sheet()?;
    let list = model.get_worksheets_properties()?;
    assert_eq!(rt; list.len(), 2);
    assert_eq!(rt; list.as_slice()[1].sheet_id, 2);
    Ok(())
}

/// No id is left behind the last one.
#[test]
fn no_further_id(rt: HostRuntime) -> Result<(), Fail> {
    let alloc = rt.alloc();
    Ok(run_on(&rt, alloc, Case::LastId, last_id(alloc)?)?)
}
