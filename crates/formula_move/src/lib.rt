//! Formulas whose references are displaced while the formula stays in its cell: as trees and as
//! texts. The layers above see both by one definition, a mapping of the tree's corners.
#![tactic(auto)]

mod displace;
mod displace_data;
mod displacement;
mod images;
mod lines;

pub use displace::{displace_node, to_string_displaced};
pub use displace_data::{DisplaceData, equality_is_of_values};
