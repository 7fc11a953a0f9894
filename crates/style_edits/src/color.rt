ghost use Rattle.std.specs.Prelude.{◌≡◌};
ghost use Rattle.style_edits.specs.Colors.{color_written, digit_color, color_of_digits, color_of_pairs, pair_value, hex_value};

use base_styles::{Color, ThemeColor};

/// The value of a hexadecimal digit of either case.
fn hex_value(byte: u8) -> Option<u32>
    ensures { result ≡ hex_value byte }
{
    char::from(byte).to_digit(16)
}

/// The byte of two digits.
#[tactic(auto, unfolding(crate::specs::Colors::pair_value))]
fn pair_value(high: u8, low: u8) -> Option<u8>
    ensures { result ≡ pair_value high low }
{
    let (high, low) = (hex_value(high)?, hex_value(low)?);
    Some((high * 16 + low) as u8)
}

/// The colour of two digits each for red, green and blue.
#[tactic(auto, unfolding(crate::specs::Colors::color_of_pairs))]
fn color_of_pairs(red: Option<u8>, green: Option<u8>, blue: Option<u8>) -> Option<Color>
    ensures { result ≡ color_of_pairs red green blue }
{
    Some(Color::Rgb {
        red: red?,
        green: green?,
        blue: blue?,
    })
}

/// The colour of three digits or of six.
fn color_of_digits(digits: &[u8]) -> Option<Color>
    ensures { result ≡ color_of_digits digits.now }
{
    match digits {
        [r, g, b] => color_of_pairs(pair_value(*r, *r), pair_value(*g, *g), pair_value(*b, *b)),
        [r, s, g, h, b, c] => {
            color_of_pairs(pair_value(*r, *s), pair_value(*g, *h), pair_value(*b, *c))
        }
        _ => None,
    }
}

/// The colour of digits behind a number sign.
fn digit_color(bytes: &[u8]) -> Option<Color>
    ensures { result ≡ digit_color bytes.now }
{
    match bytes {
        [b'#', digits @ ..] => color_of_digits(digits),
        _ => None,
    }
}

/// The colour that a text writes: `#RRGGBB`, `#RGB` with each digit doubled, or `theme:` and a
/// number from 0 to 11. Digits from A on may be capitals or small letters. `None` where the text is
/// none of these, as the empty one.
pub fn read_color(text: &str) -> Option<Color>
    ensures { result ≡ color_written text.now }
{
    match ThemeColor::from_name(text) {
        Some(color) => Some(Color::Theme(color)),
        None => digit_color(text.as_bytes()),
    }
}
