//! Styles of cells, compared by value.
#![tactic(auto)]

mod alignment;
mod border;
mod border_area;
mod color;
mod rgb_text;
mod style;
mod theme;

pub use alignment::{Alignment, HorizontalAlignment, VerticalAlignment};
pub use border::{Border, BorderItem, BorderStyle};
pub use border_area::{BorderArea, BorderType};
pub use color::{Color, ThemeColor};
pub use style::{Font, Style};
pub use theme::{RgbColor, Theme};
