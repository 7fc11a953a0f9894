ghost use Rattle.std.specs.Prelude.{◌≡◌, ◌+ℤ◌};
ghost use Rattle.style_edits.specs.Values.{boolean_of, color_of, horizontal_of, vertical_of, whole_number, font_size, size_of, grown_size};

use crate::color::read_color;
use base_styles::{Color, HorizontalAlignment, VerticalAlignment};

/// `true` or `false`.
pub(crate) fn boolean(value: &str) -> Option<bool>
    ensures { result ≡ boolean_of value.now }
{
    match value {
        "true" => Some(true),
        "false" => Some(false),
        _ => None,
    }
}

/// A colour in words, or none for the empty text.
pub(crate) fn color(value: &str) -> Option<Color>
    ensures { result ≡ color_of value.now }
{
    if value.is_empty() {
        Some(Color::None)
    } else {
        read_color(value)
    }
}

/// The horizontal alignment of that name.
pub(crate) fn horizontal(value: &str) -> Option<HorizontalAlignment>
    ensures { result ≡ horizontal_of value.now }
{
    HorizontalAlignment::ALL
        .iter()
        .copied()
        .find(|alignment| alignment.name() == value)
}

/// The vertical alignment of that name.
pub(crate) fn vertical(value: &str) -> Option<VerticalAlignment>
    ensures { result ≡ vertical_of value.now }
{
    VerticalAlignment::ALL
        .iter()
        .copied()
        .find(|alignment| alignment.name() == value)
}

/// The number of 32 bits that digits write, behind a sign or without one.
fn whole_number(value: &str) -> Option<i32>
    ensures { result ≡ whole_number value.now }
{
    value.parse::<i32>().ok()
}

/// The number as the size of a font, which is at least 1.
fn font_size(size: i64) -> Option<i32>
    ensures { result ≡ font_size size }
{
    if 1 <= size && size <= 2_147_483_647 {
        Some(size as i32)
    } else {
        None
    }
}

/// The size that the value writes.
pub(crate) fn size(value: &str) -> Option<i32>
    ensures { result ≡ size_of value.now }
{
    font_size(i64::from(whole_number(value)?))
}

fn sum(size: i32, delta: i32) -> i64
    ensures { result ≡ (size +ℤ delta) }
{
    i64::from(size) + i64::from(delta)
}

/// The size with the number that the value writes added to it.
pub(crate) fn grown_size(size: i32, value: &str) -> Option<i32>
    ensures { result ≡ grown_size size value.now }
{
    let delta = whole_number(value)?;
    font_size(sum(size, delta))
}
