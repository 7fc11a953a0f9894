use crate::words::Words;
use base_shared::Shared;
use base_styles::{Color, RgbColor, Style};
use base_values::EditError;
use format_rules::has_canonical_numbers;
use std::alloc::Global;
use style_edits::read_color;
use user_model::{CfRule, ClearAll, MergedCell, UserModel};

type Model = UserModel<ClearAll>;

/// The rectangle that the next words name: a row, a column, a width and a height.
fn rectangle_of(words: &mut Words) -> MergedCell {
    MergedCell {
        row: words.number(),
        column: words.number(),
        width: words.number(),
        height: words.number(),
    }
}

/// A rule of the formula that a text is read as on a rectangle. It shows the default style.
fn rule_of(
    alloc: Global,
    model: &Model,
    sheet: u32,
    part: MergedCell,
    text: &str,
) -> Result<CfRule, EditError> {
    Ok(CfRule::Formula {
        formula: model.read_rule_formula(sheet, part, text)?,
        style: Shared::new(alloc, Style::new(alloc)?)?,
        stop_if_true: false,
    })
}

fn add_rule(alloc: Global, model: &mut Model, words: &mut Words) -> Result<(), EditError> {
    let (sheet, part) = (words.sheet(), rectangle_of(words));
    let rule = rule_of(alloc, model, sheet, part, words.text())?;
    if has_canonical_numbers(&rule) {
        return model.add_conditional_formatting(sheet, &[part], &rule);
    }
    Ok(())
}

fn update_rule(alloc: Global, model: &mut Model, words: &mut Words) -> Result<(), EditError> {
    let (sheet, index, part) = (words.sheet(), words.index(), rectangle_of(words));
    let rule = rule_of(alloc, model, sheet, part, words.text())?;
    if has_canonical_numbers(&rule) {
        return model.update_conditional_formatting(sheet, index, &[part], &rule);
    }
    Ok(())
}

/// Pastes the style of a cell, and no style where no sheet is named.
fn paste_style(alloc: Global, model: &mut Model, words: &mut Words) -> Result<(), EditError> {
    let Some(sheet) = words.scope() else {
        return model.on_paste_styles(&[]);
    };
    let style = model.get_cell_style(sheet, words.number(), words.number())?;
    let mut row = Vec::new(alloc);
    row.push(style)?;
    let mut rows = Vec::new(alloc);
    rows.push(row)?;
    model.on_paste_styles(rows.as_slice())
}

/// Gives the theme another first accent.
fn set_accent(model: &mut Model, words: &mut Words) -> Result<(), EditError> {
    let mut theme = model.get_theme();
    if let Some(Color::Rgb { red, green, blue }) = read_color(words.word()) {
        theme.accent1 = RgbColor::new(red, green, blue);
    }
    model.set_theme(&theme)
}

/// Edits of conditional rules, pasted styles and the theme. None where the call is another one.
pub(crate) fn edit_rules(
    alloc: Global,
    model: &mut Model,
    call: &str,
    words: &mut Words,
) -> Option<Result<(), EditError>> {
    let done = match call {
        "add_conditional_formatting" => add_rule(alloc, model, words),
        "update_conditional_formatting" => update_rule(alloc, model, words),
        "delete_conditional_formatting" => {
            model.delete_conditional_formatting(words.sheet(), words.index())
        }
        "swap_conditional_formatting_priority" => {
            model.swap_conditional_formatting_priority(words.sheet(), words.index(), words.index())
        }
        "on_paste_styles" => paste_style(alloc, model, words),
        "set_theme" => set_accent(model, words),
        _ => return None,
    };
    Some(done)
}
