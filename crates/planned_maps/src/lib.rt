//! Plans: finite maps from places and lines to what an edit makes of them, and the places of a
//! rectangle line by line.
//!
//! The layers above make a plan by going over some places, in any order, and see it as the map of what
//! is made of each place.
#![tactic(auto)]

mod walk;

pub use walk::{count_across, count_lines, line_in, place_across, row_at};
