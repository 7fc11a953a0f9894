//! The parts of a colour as a text.

ghost use Rattle.std.specs.Prelude.{◌≡◌, ◌<◌, ◌++◌, ◌∷◌, [], IfOk, OnOk, string_bytes};
ghost use Rattle.base_styles.specs.RgbTexts.{hex_byte, hex_digit, rgb_text};

use crate::theme::RgbColor;
use std::alloc::{AllocError, Global};

/// A digit to base 16, in capital letters.
fn hex_digit(value: u8) -> u8
    requires { value < 16 }
    ensures { result ≡ hex_digit value }
{
    if value < 10 {
        b'0' + value
    } else {
        b'A' + (value - 10)
    }
}

fn push_digit(text: &mut String, value: u8) -> Result<(), AllocError>
    requires { value < 16 }
    ensures { OnOk result (string_bytes text.new ≡ string_bytes text.old ++ hex_digit value ∷ []) }
{
    text.push(char::from(hex_digit(value)))
}

/// Adds a byte in two digits.
fn push_byte(text: &mut String, byte: u8) -> Result<(), AllocError>
    ensures { OnOk result (string_bytes text.new ≡ string_bytes text.old ++ hex_byte byte) }
{
    push_digit(text, byte / 16)?;
    push_digit(text, byte % 16)
}

impl RgbColor {
    /// The colour as `#RRGGBB`, in hexadecimal with capital letters. `AllocError` is the only error.
    pub fn text(self, alloc: Global) -> Result<String, AllocError>
        ensures { IfOk result (λ text. string_bytes text ≡ rgb_text self) }
    {
        let mut text = String::new(alloc);
        text.push('#')?;
        push_byte(&mut text, self.red)?;
        push_byte(&mut text, self.green)?;
        push_byte(&mut text, self.blue)?;
        Ok(text)
    }
}
