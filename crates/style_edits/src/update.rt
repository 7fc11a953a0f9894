ghost use Rattle.std.specs.Prelude.{◌≡◌, ◌≢◌, Err};
ghost use Rattle.std.specs.Option.{option_map};
ghost use Rattle.base_values.specs.Answers.{Returns, map_ok};
ghost use Rattle.base_values.specs.declared.error.EditError.TheVariants.{NoMemory};
ghost use Rattle.style_edits.specs.Changes.{with_change};
ghost use Rattle.style_edits.specs.Updates.{font_after, alignment_after, alignment_of, style_after, updated_style};

use crate::change::{Change, with_change};
use crate::path::{AlignmentPath, FontPath, StylePath};
use crate::values::{boolean, color, grown_size, horizontal, size, vertical};
use base_styles::{Alignment, Font, Style};
use base_values::EditError;

/// The font with another attribute, if the value is one of this attribute.
fn font_after(path: FontPath, font: Font, value: &str) -> Option<Font>
    ensures { result ≡ font_after path font value.now }
{
    let mut font = font;
    match path {
        FontPath::Bold => font.b = boolean(value)?,
        FontPath::Italic => font.i = boolean(value)?,
        FontPath::Underline => font.u = boolean(value)?,
        FontPath::Strike => font.strike = boolean(value)?,
        FontPath::Color => font.color = color(value)?,
        FontPath::Size => font.sz = size(value)?,
        FontPath::SizeDelta => font.sz = grown_size(font.sz, value)?,
    }
    Some(font)
}

/// The alignment with another attribute, if the value is one of this attribute.
fn alignment_after(path: AlignmentPath, alignment: Alignment, value: &str) -> Option<Alignment>
    ensures { result ≡ alignment_after path alignment value.now }
{
    let mut alignment = alignment;
    match path {
        AlignmentPath::Horizontal => alignment.horizontal = horizontal(value)?,
        AlignmentPath::Vertical => alignment.vertical = vertical(value)?,
        AlignmentPath::WrapText => alignment.wrap_text = boolean(value)?,
    }
    Some(alignment)
}

/// The alignment of a style, or the usual one where it has none.
fn alignment_of(style: &Style) -> Alignment
    ensures { result ≡ alignment_of style.now }
{
    style.alignment.unwrap_or(Alignment::default())
}

/// What the value at the path changes, if it is one of this path.
fn change_at(path: StylePath, style: &Style, value: &str) -> Option<Change>
    ensures { option_map (with_change style.now value.now) result ≡ style_after path style.now value.now }
{
    match path {
        StylePath::Font(path) => Some(Change::Font(font_after(path, style.font, value)?)),
        StylePath::Fill(_) => Some(Change::Fill(color(value)?)),
        StylePath::NumberFormat => Some(Change::NumberFormat),
        StylePath::Alignment if value.is_empty() => Some(Change::Alignment(None)),
        StylePath::Alignment => None,
        StylePath::AlignmentPart(path) => Some(Change::Alignment(Some(alignment_after(
            path,
            alignment_of(style),
            value,
        )?))),
    }
}

/// What the value changes at the path of this name.
fn tested_change(style: &Style, path: &str, value: &str) -> Result<Change, EditError>
    ensures tested { map_ok (with_change style.now value.now) result ≡ updated_style style.now path.now value.now }
    ensures sure { result ≢ Err NoMemory }
{
    match StylePath::by_name(path) {
        Some(path) => match change_at(path, style, value) {
            Some(change) => Ok(change),
            None => Err(EditError::StyleValue),
        },
        None => Err(EditError::StylePath),
    }
}

/// Whether [update_style] gives a style, as far as it does not run out of memory. It takes none
/// itself.
///
/// `StylePath` and then `StyleValue`, where `update_style` has them.
pub fn test_update(style: &Style, path: &str, value: &str) -> Result<(), EditError>
    ensures tested { result ≡ map_ok (λ changed. tt) (updated_style style.now path.now value.now) }
    ensures sure { result ≢ Err NoMemory }
{
    match tested_change(style, path, value) {
        Ok(_) => Ok(()),
        Err(error) => Err(error),
    }
}

/// The style with one attribute changed: the one that the path names gets the value that the text
/// writes.
///
/// `StylePath` where no attribute has the path. Then `StyleValue` where the text writes no value of
/// this attribute, or a font would be smaller than 1 or greater than 2,147,483,647. Then `NoMemory`
/// where there is no room for the style. The paths and their values stand in docs/STYLES.md.
pub fn update_style(style: &Style, path: &str, value: &str) -> Result<Style, EditError>
    ensures { Returns result (updated_style style.now path.now value.now) }
{
    let change = tested_change(style, path, value)?;
    with_change(style, value, change)
}
