use crate::row::Row;
use crate::words::{copied, word, yes_or_no};
use base_styles::{BorderItem, BorderStyle, Color, Theme};
use base_values::EditError;
use std::alloc::Global;
use style_edits::{is_max_border, read_color};

fn border_style(word: &str) -> Option<BorderStyle> {
    match word {
        "dotted" => Some(BorderStyle::Dotted),
        "thin" => Some(BorderStyle::Thin),
        "medium" => Some(BorderStyle::Medium),
        "thick" => Some(BorderStyle::Thick),
        "double" => Some(BorderStyle::Double),
        _ => None,
    }
}

/// The border that words tell, its style and its colour; none where no style has that name.
fn border(words: &str) -> Option<BorderItem> {
    let style = border_style(word(words, 0))?;
    let color = read_color(word(words, 1)).unwrap_or(Color::None);
    Some(BorderItem { style, color })
}

/// Whether, of two borders on one line, the second shows.
pub(crate) fn shows(alloc: Global, row: &Row) -> Result<String, EditError> {
    let (first, second) = (border(row.argument(0)), border(row.argument(1)));
    let answer = is_max_border(first.as_ref(), second.as_ref(), &Theme::default());
    yes_or_no(alloc, answer)
}

/// The colour that a text means, in the first theme.
pub(crate) fn color(alloc: Global, row: &Row) -> Result<String, EditError> {
    let Some(color) = read_color(row.argument(0)) else {
        return copied(alloc, "none");
    };
    match Theme::default().resolve(color) {
        Some(color) => Ok(color.text(alloc)?),
        None => copied(alloc, "none"),
    }
}
