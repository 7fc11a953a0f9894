ghost use Rattle.base_values.specs.Answers.{Returns};
ghost use Rattle.style_edits.specs.Changes.{with_change};

use base_styles::{Alignment, Color, Font, Style};
use base_values::{EditError, Text, copy_of};

/// What of a style changes.
#[derive(Clone, Copy)]
pub(crate) enum Change {
    Font(Font),
    Fill(Color),
    /// The value, as it stands, is the number format.
    NumberFormat,
    Alignment(Option<Alignment>),
}

/// The style with another font.
fn with_font(style: &Style, font: Font) -> Result<Style, EditError>
    ensures { Returns result (Ok (record style.now { font = font })) }
{
    let mut changed = copy_of(style)?;
    changed.font = font;
    Ok(changed)
}

/// The style with another colour behind the text.
fn with_fill(style: &Style, fill: Color) -> Result<Style, EditError>
    ensures { Returns result (Ok (record style.now { fill = fill })) }
{
    let mut changed = copy_of(style)?;
    changed.fill = fill;
    Ok(changed)
}

/// The style with another alignment, or with none.
fn with_alignment(style: &Style, alignment: Option<Alignment>) -> Result<Style, EditError>
    ensures { Returns result (Ok (record style.now { alignment = alignment })) }
{
    let mut changed = copy_of(style)?;
    changed.alignment = alignment;
    Ok(changed)
}

/// The style with another number format.
fn with_number_format(style: &Style, value: &str) -> Result<Style, EditError>
    ensures { Returns result (Ok (record style.now { num_fmt = value.now })) }
{
    Ok(Style {
        font: style.font,
        fill: style.fill,
        border: style.border,
        num_fmt: Text::new(String::from_str(style.num_fmt.allocator(), value)?),
        alignment: style.alignment,
    })
}

/// The style with the change, which the value gives.
pub(crate) fn with_change(style: &Style, value: &str, change: Change) -> Result<Style, EditError>
    ensures { Returns result (Ok (with_change style.now value.now change)) }
{
    match change {
        Change::Font(font) => with_font(style, font),
        Change::Fill(fill) => with_fill(style, fill),
        Change::NumberFormat => with_number_format(style, value),
        Change::Alignment(alignment) => with_alignment(style, alignment),
    }
}
