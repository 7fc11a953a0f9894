//! Maps on the lines of an axis: where lines go, and where they came from.
//!
//! A `LineMap` takes each line to at most one other; a `LineEdit` is one.
#![tactic(auto)]

mod edit;
mod laws;
mod line_map;
mod merged;
mod places;

pub use edit::{Block, EditKind, LineEdit};
pub use laws::{image_of_opposite, move_by_single_lines};
pub use line_map::LineMap;
pub use places::place_image;
