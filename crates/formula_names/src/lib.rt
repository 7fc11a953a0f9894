//! Names in formulas: a tree after a sheet or a defined name was renamed, and which trees the opposite
//! renaming does not give back.
//!
//! The layers above see a renamed tree by one definition, for what a renaming reaches, and what is kept
//! of a tree by trying. The code tells both from the names in the tree, without memory.
#![tactic(auto)]

mod laws;
mod reach;
mod rename;
mod told;

pub use laws::renamed_trees_fit;
pub use reach::Reach;
pub use rename::{rename_defined_name_in_node, rename_in_node, rename_sheet_in_node};
pub use told::{comes_back, is_unchanged, kept_tree};
