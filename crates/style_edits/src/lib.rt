//! One attribute of a style changed by a path and a value, colours in words, and which of two
//! borders shows.
#![tactic(auto)]

mod border_order;
mod change;
mod color;
mod path;
mod update;
mod values;

pub use border_order::is_max_border;
pub use color::read_color;
pub use update::{test_update, update_style};
