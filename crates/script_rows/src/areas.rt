use crate::words::Words;
use base_values::EditError;
use user_model::{Area, ClearAll, UserModel};

type Model = UserModel<ClearAll>;

/// The area that the next words name: a sheet, a row, a column, a width and a height.
fn area_of(words: &mut Words) -> Area {
    Area {
        sheet: words.sheet(),
        row: words.number(),
        column: words.number(),
        width: words.number(),
        height: words.number(),
    }
}

/// Edits of areas. None where the call is another one.
pub(crate) fn edit_areas(
    model: &mut Model,
    call: &str,
    words: &mut Words,
) -> Option<Result<(), EditError>> {
    let area = area_of(words);
    let done = match call {
        "merge_cells" => model.merge_cells(&area),
        "update_range_style" => model.update_range_style(&area, words.word(), words.text()),
        "range_clear_all" => model.range_clear_all(&area),
        "range_clear_contents" => model.range_clear_contents(&area),
        "range_clear_formatting" => model.range_clear_formatting(&area),
        "auto_fill_rows" => model.auto_fill_rows(&area, words.number()),
        "auto_fill_columns" => model.auto_fill_columns(&area, words.number()),
        _ => return None,
    };
    Some(done)
}
