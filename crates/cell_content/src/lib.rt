//! What cells hold, formulas among it, and whether a formula may stand at a place.
//!
//! The layers above see a content as its kinds, and as a shape and maybe a tree. A formula may be
//! kept anywhere as long as its numbers are canonical; whether it fits its place is a
//! test of its own (`fits_at`).
#![tactic(auto)]

mod content;
mod fitting;
mod lens;

pub use content::Content;
pub use fitting::{fits_at, tree_fits_at};
pub use lens::{tree_of, with_tree};
