//! Ranges of styles, contents and links: what an edit of a rectangle makes of the places and lines
//! that it touches.
//!
//! The layers above see it as a plan: finite maps from places, rows and columns to what each gets.
//! What a plan does not name stays. To make a plan, the places of its rectangle are gone over, or
//! what the sheet stores, whichever is less; a change that touches each place goes over each.
#![tactic(auto)]

mod accept;
mod cells;
mod change;
mod clear;
mod lines;
mod plan;
mod range;
mod shown;
mod tiles;
mod walk;

pub use change::StyleChange;
pub use clear::{Clearing, clear_area, clear_plan};
pub use plan::{SheetPlan, style_plan};
pub use range::{AreaKind, StyleRange, kind_of};
pub use tiles::StyleTiles;
