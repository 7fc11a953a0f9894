// Styles that are pasted. How they are changed and cleared is in the cases of `script_rows`.
use super::*;

/// A style whose font has this size.
fn sized(alloc: Global, size: i32) -> Result<Style, EditError> {
    let mut style = Style::new(alloc)?;
    style.font.sz = size;
    Ok(style)
}

/// The size of the font that a place of the first sheet shows.
fn shown_size(model: &UserModel<ClearAll>, row: i32, column: i32) -> Result<i32, EditError> {
    let sheet = model.get_model().worksheet(0)?;
    Ok(sheet.get_style(row, column)?.font.sz)
}

/// One row of two styles of these sizes.
fn tile(alloc: Global, left: i32, right: i32) -> Result<Vec<Vec<Style>>, EditError> {
    let mut row = Vec::new(alloc);
    row.push(sized(alloc, left)?)?;
    row.push(sized(alloc, right)?)?;
    let mut rows = Vec::new(alloc);
    rows.push(row)?;
    Ok(rows)
}

/// Styles are repeated over the selected rectangle, which grows to their size.
fn styles_are_laid(
    rt: &impl Abort,
    model: &mut UserModel<ClearAll>,
    styles: &[Vec<Style>],
    flat: &[Vec<Style>],
) -> Result<(), EditError> {
    model.set_selected_range(2, 2, 4, 2)?;
    model.on_paste_styles(styles)?;
    assert_eq!(rt; shown_size(model, 2, 2), Ok(20));
    assert_eq!(rt; shown_size(model, 4, 3), Ok(21));
    assert_eq!(rt; shown_size(model, 5, 2), Ok(13));
    assert_eq!(rt; model.get_view().range, [2, 2, 4, 3]);
    model.set_selected_range(1048576, 16384, 1048576, 16384)?;
    assert_eq!(rt; model.on_paste_styles(styles), Err(EditError::InvalidArea));
    assert_eq!(rt; model.on_paste_styles(&[]), Err(EditError::StylesShape));
    assert_eq!(rt; model.on_paste_styles(flat), Err(EditError::StylesShape));
    Ok(())
}

pub(super) fn tiles_are_laid(
    rt: &impl Abort,
    alloc: Global,
    model: &mut UserModel<ClearAll>,
) -> Result<(), EditError> {
    let styles = tile(alloc, 20, 21)?;
    let flat = tile(alloc, 1, 0)?;
    styles_are_laid(rt, model, styles.as_slice(), flat.as_slice())
}

#[test]
fn styles_are_pasted(rt: HostRuntime) -> Result<(), Fail> {
    Ok(run_on_new(&rt, rt.alloc(), Case::PastedStyles)?)
}
