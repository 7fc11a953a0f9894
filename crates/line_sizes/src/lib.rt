//! Sizes and hiding of many rows or columns at once, the height that a text asks for, and the line
//! that is selected where lines are hidden.
//!
//! The layers above see each as a function of the lines that a sheet has.
#![tactic(auto)]

mod change;
mod height;
mod shown;

pub use change::{
    LineChange, changed_entry, has_lines, height_change, line_at, line_count, width_change,
};
pub use height::{copied_entry, line_feeds, needed_height, raised_entry};
pub use shown::next_shown;
