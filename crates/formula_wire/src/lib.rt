//! Trees of formulas as bytes, in both directions.
//!
//! The layers above see an encoding, `encode_node`, which is a function of the tree: a tree that bytes can
//! carry is read again from its encoding whatever follows, and what is read was encoded so. What
//! bytes can carry is every tree of Rust's own types that is at most 64 deep and whose numbers are
//! canonical.
#![tactic(auto)]

mod codes;
mod node_part;
mod parts;
mod parts_reading;
mod parts_writing;
mod reading;
mod writing;

pub use node_part::{NodePart, node_at};
pub use writing::push_node;
