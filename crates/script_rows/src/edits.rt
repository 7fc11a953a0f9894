use crate::answers::push_outcome;
use crate::areas::edit_areas;
use crate::hex::bytes_of;
use crate::rules::edit_rules;
use crate::words::Words;
use base_styles::Color;
use base_values::EditError;
use std::alloc::Global;
use style_edits::read_color;
use user_model::{ClearAll, UserModel};

type Model = UserModel<ClearAll>;

/// Edits of the list of sheets and of the fields of one. None where the call is another one.
fn edit_sheets(model: &mut Model, call: &str, words: &mut Words) -> Option<Result<(), EditError>> {
    let done = match call {
        "new_sheet" => model.new_sheet(),
        "duplicate_sheet" => model.duplicate_sheet(words.sheet()),
        "delete_sheet" => model.delete_sheet(words.sheet()),
        "move_sheet" => model.move_sheet(words.sheet(), words.sheet()),
        "hide_sheet" => model.hide_sheet(words.sheet()),
        "unhide_sheet" => model.unhide_sheet(words.sheet()),
        "rename_sheet" => model.rename_sheet(words.sheet(), words.text()),
        "set_show_grid_lines" => {
            model.set_show_grid_lines(words.sheet(), words.word() == "true")
        }
        "set_sheet_color" => {
            let sheet = words.sheet();
            let color = read_color(words.word()).unwrap_or(Color::None);
            model.set_sheet_color(sheet, &color)
        }
        _ => return None,
    };
    Some(done)
}

/// Lines that come, go and move.
fn shift_lines(model: &mut Model, call: &str, words: &mut Words) -> Option<Result<(), EditError>> {
    let (sheet, first, count) = (words.sheet(), words.number(), words.number());
    let done = match call {
        "insert_rows" => model.insert_rows(sheet, first, count),
        "insert_columns" => model.insert_columns(sheet, first, count),
        "delete_rows" => model.delete_rows(sheet, first, count),
        "delete_columns" => model.delete_columns(sheet, first, count),
        "move_rows_action" => model.move_rows_action(sheet, first, count, words.number()),
        "move_columns_action" => model.move_columns_action(sheet, first, count, words.number()),
        _ => return None,
    };
    Some(done)
}

/// Sizes of lines, and which are hidden or frozen.
fn edit_lines(model: &mut Model, call: &str, words: &mut Words) -> Option<Result<(), EditError>> {
    let sheet = words.sheet();
    let first = words.number();
    let done = match call {
        "set_frozen_rows_count" => model.set_frozen_rows_count(sheet, first),
        "set_frozen_columns_count" => model.set_frozen_columns_count(sheet, first),
        "set_rows_height" => { model.set_rows_height(sheet, first, words.number(), words.number()) }
        "set_columns_width" => {
            model.set_columns_width(sheet, first, words.number(), words.number())
        }
        "set_rows_hidden" => {
            model.set_rows_hidden(sheet, first, words.number(), words.word() == "true")
        }
        "set_columns_hidden" => {
            model.set_columns_hidden(sheet, first, words.number(), words.word() == "true")
        }
        _ => return None,
    };
    Some(done)
}

fn put_array(model: &mut Model, words: &mut Words) -> Result<(), EditError> {
    model.set_user_array_formula(
        words.sheet(),
        words.number(),
        words.number(),
        words.number(),
        words.number(),
        words.text(),
    )
}

/// Edits of cells.
fn edit_cells(model: &mut Model, call: &str, words: &mut Words) -> Option<Result<(), EditError>> {
    let done = match call {
        "set_user_input" => {
            model.set_user_input(words.sheet(), words.number(), words.number(), words.text())
        }
        "set_user_array_formula" => put_array(model, words),
        "set_cell_link" => {
            model.set_cell_link(words.sheet(), words.number(), words.number(), words.text())
        }
        "delete_cell_link" => {
            model.delete_cell_link(words.sheet(), words.number(), words.number())
        }
        "unmerge_cells" => model.unmerge_cells(words.sheet(), words.number(), words.number()),
        "undo" => model.undo(),
        "redo" => model.redo(),
        _ => return None,
    };
    Some(done)
}

fn update_name(model: &mut Model, words: &mut Words) -> Result<(), EditError> {
    model.update_defined_name(
        words.word(),
        words.scope(),
        words.word(),
        words.scope(),
        words.text(),
    )
}

/// Edits of the workbook as a whole, and what is selected.
fn edit_book(model: &mut Model, call: &str, words: &mut Words) -> Option<Result<(), EditError>> {
    let done = match call {
        "set_name" => model.set_name(words.text()),
        "set_language" => model.set_language(words.word()),
        "set_locale" => model.set_locale(words.word()),
        "set_timezone" => model.set_timezone(words.word()),
        "new_defined_name" => { model.new_defined_name(words.word(), words.scope(), words.text()) }
        "delete_defined_name" => model.delete_defined_name(words.word(), words.scope()),
        "update_defined_name" => update_name(model, words),
        "set_selected_sheet" => model.set_selected_sheet(words.sheet()),
        "set_selected_range" => model.set_selected_range(
            words.number(),
            words.number(),
            words.number(),
            words.number(),
        ),
        _ => return None,
    };
    Some(done)
}

fn edit_part(model: &mut Model, call: &str, text: &str) -> Option<Result<(), EditError>> {
    if let Some(done) = edit_sheets(model, call, &mut Words::new(text)) {
        return Some(done);
    }
    if let Some(done) = shift_lines(model, call, &mut Words::new(text)) {
        return Some(done);
    }
    if let Some(done) = edit_lines(model, call, &mut Words::new(text)) {
        return Some(done);
    }
    if let Some(done) = edit_cells(model, call, &mut Words::new(text)) {
        return Some(done);
    }
    if let Some(done) = edit_areas(model, call, &mut Words::new(text)) {
        return Some(done);
    }
    edit_book(model, call, &mut Words::new(text))
}

/// Follows the bytes of another copy.
pub(crate) fn follow(alloc: Global, model: &mut Model, hex: &str) -> Result<(), EditError> {
    match bytes_of(alloc, hex)? {
        Some(bytes) => model.apply_external_diffs(&bytes),
        None => Err(EditError::ParseDiffs),
    }
}

/// Sends what was done. The bytes are let go.
fn send(model: &mut Model) -> Result<(), EditError> {
    match model.flush_send_queue() {
        Ok(_) => Ok(()),
        Err(error) => Err(error),
    }
}

/// Makes an edit. None where the call is none.
pub(crate) fn edit(
    alloc: Global,
    model: &mut Model,
    call: &str,
    text: &str,
) -> Option<Result<(), EditError>> {
    match call {
        "apply" => Some(follow(alloc, model, Words::new(text).word())),
        "flush_send_queue" => Some(send(model)),
        _ => match edit_part(model, call, text) {
            Some(done) => Some(done),
            None => edit_rules(alloc, model, call, &mut Words::new(text)),
        },
    }
}

/// Makes an edit and writes how it went. Says whether the call is one.
pub(crate) fn answer_edit(
    alloc: Global,
    out: &mut Vec<u8>,
    model: &mut Model,
    call: &str,
    text: &str,
) -> Result<bool, EditError> {
    match edit(alloc, model, call, text) {
        Some(done) => {
            push_outcome(alloc, out, done)?;
            Ok(true)
        }
        None => Ok(false),
    }
}
