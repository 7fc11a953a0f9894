//! That the text of a formula, as it is printed, reads back as its tree.
#![tactic(auto)]

mod round;

pub use round::{normal_contents_read_back, normal_trees_read_back};
