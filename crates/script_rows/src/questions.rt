use crate::words::Words;
use base_styles::{Border, Color};
use base_values::{EditError, Items};
use sheet_naming::DefinedNames;
use std::alloc::{AllocError, Global};
use std::fmt::Debug;
use style_edits::read_color;
use user_model::{ClearAll, ScopedName, UserModel};

type Model = UserModel<ClearAll>;

fn shown<T: Debug + Drop>(
    alloc: Global,
    found: Result<T, EditError>,
) -> Result<Option<String>, EditError> {
    let found = found?;
    Ok(Some(format!(in alloc; "{found:?}")?))
}

fn border_of(model: &Model, sheet: u32, row: i32, column: i32) -> Result<Border, EditError> {
    let style = model.get_cell_style(sheet, row, column)?;
    Ok(style.border)
}

/// Questions for cells. None where the call is another one.
fn ask_cells(
    alloc: Global,
    model: &Model,
    call: &str,
    words: &mut Words,
) -> Result<Option<String>, EditError> {
    let (sheet, row, column) = (words.sheet(), words.number(), words.number());
    match call {
        "get_cell_content" => Ok(Some(model.get_cell_content(sheet, row, column)?)),
        "get_cell_type" => shown(alloc, model.get_cell_type(sheet, row, column)),
        "get_cell_array_structure" => {
            shown(alloc, model.get_cell_array_structure(sheet, row, column))
        }
        "get_cell_border" => shown(alloc, border_of(model, sheet, row, column)),
        "get_last_non_empty_in_row_before_column" => {
            shown(
                alloc,
                model.get_last_non_empty_in_row_before_column(sheet, row, column),
            )
        }
        "get_first_non_empty_in_row_after_column" => {
            shown(
                alloc,
                model.get_first_non_empty_in_row_after_column(sheet, row, column),
            )
        }
        _ => Ok(None),
    }
}

/// Questions for lines.
fn ask_lines(
    alloc: Global,
    model: &Model,
    call: &str,
    words: &mut Words,
) -> Result<Option<String>, EditError> {
    let (sheet, line) = (words.sheet(), words.number());
    match call {
        "get_row_height" => shown(alloc, model.get_row_height(sheet, line)),
        "get_column_width" => shown(alloc, model.get_column_width(sheet, line)),
        "get_frozen_rows_count" => shown(alloc, model.get_frozen_rows_count(sheet)),
        "get_frozen_columns_count" => shown(alloc, model.get_frozen_columns_count(sheet)),
        "get_show_grid_lines" => shown(alloc, model.get_show_grid_lines(sheet)),
        _ => Ok(None),
    }
}

fn push_names(
    alloc: Global,
    told: &mut String,
    names: &Items<ScopedName>,
) -> Result<(), AllocError> {
    for named in names.as_slice() {
        let (name, scope, formula) = (named.name.as_str(), named.scope, named.formula.as_str());
        told.push_str(format!(in alloc; "{name} {scope:?} {formula};")?.as_str())?;
    }
    Ok(())
}

fn names_told(alloc: Global, names: &Items<ScopedName>) -> Result<Option<String>, EditError> {
    let mut told = String::new(alloc);
    push_names(alloc, &mut told, names)?;
    Ok(Some(told))
}

fn sheets_told(alloc: Global, model: &Model) -> Result<Option<String>, EditError> {
    let mut told = String::new(alloc);
    for sheet in model.get_worksheets_properties()?.as_slice() {
        let (id, state, name) = (sheet.sheet_id, sheet.state, sheet.name.as_str());
        let color = model.resolve_color(&sheet.color)?;
        told.push_str(format!(in alloc; "{id} {state:?} {color} {name};")?.as_str())?;
    }
    Ok(Some(told))
}

fn flag_told(alloc: Global, flag: bool) -> Result<Option<String>, EditError> {
    Ok(Some(flag.to_string(alloc)?))
}

fn text_told(alloc: Global, text: &str) -> Result<Option<String>, EditError> {
    Ok(Some(String::from_str(alloc, text)?))
}

/// Questions for the sheets and the names of the workbook.
fn ask_lists(
    alloc: Global,
    model: &Model,
    call: &str,
    words: &mut Words,
) -> Result<Option<String>, EditError> {
    match call {
        "get_worksheets_properties" => sheets_told(alloc, model),
        "get_defined_name_list" => names_told(alloc, &model.get_defined_name_list()?),
        "get_defined_names_with_scope" => {
            names_told(
                alloc,
                &model.get_model().get_defined_names_with_scope(alloc)?,
            )
        }
        "is_valid_defined_name" => {
            let (name, scope) = (words.word(), words.scope());
            shown(
                alloc,
                model.is_valid_defined_name(name, scope, words.text()),
            )
        }
        _ => Ok(None),
    }
}

/// Questions for the workbook as a whole.
fn ask_book(
    alloc: Global,
    model: &Model,
    call: &str,
    words: &mut Words,
) -> Result<Option<String>, EditError> {
    match call {
        "get_name" => text_told(alloc, model.get_name()),
        "get_language" => text_told(alloc, model.get_language()),
        "get_locale" => text_told(alloc, model.get_locale()),
        "get_timezone" => text_told(alloc, model.get_timezone()),
        "can_undo" => flag_told(alloc, model.can_undo()),
        "can_redo" => flag_told(alloc, model.can_redo()),
        "get_view" => shown(alloc, Ok(model.get_view())),
        "resolve_color" => {
            let color = read_color(words.word()).unwrap_or(Color::None);
            Ok(Some(model.resolve_color(&color)?))
        }
        _ => ask_lists(alloc, model, call, words),
    }
}

/// What is told of a model. None where the call is no question.
pub(crate) fn ask(
    alloc: Global,
    model: &Model,
    call: &str,
    text: &str,
) -> Result<Option<String>, EditError> {
    if let Some(told) = ask_cells(alloc, model, call, &mut Words::new(text))? {
        return Ok(Some(told));
    }
    if let Some(told) = ask_lines(alloc, model, call, &mut Words::new(text))? {
        return Ok(Some(told));
    }
    ask_book(alloc, model, call, &mut Words::new(text))
}
