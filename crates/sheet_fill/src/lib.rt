//! Fills: a source of rows goes on up or down, one of columns to the left or to the right.
//!
//! The layers above see a fill as a function on places: which place of the source each place of the
//! target repeats, and what it gets. The plan holds the cells and links that the target's places get,
//! and the merges of the sheet afterwards; it changes nothing.
#![tactic(auto)]

mod content;
mod cross_line;
mod plan;
mod range;
mod refusals;
mod tiles;

pub use plan::{FillPlan, plan_fill};
pub use range::FillRange;
