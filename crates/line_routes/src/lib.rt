//! What goes along maps on the lines of an axis: places, rectangles, merges and formulas.
//!
//! A `Route` says how a map on the lines of one sheet meets a sheet of the workbook, and so where a
//! place goes. Rectangles and formulas go along it by their corners, merges by their lines. Each of
//! these has a function that carries it along, and one that tells what has to be kept of it because
//! the way back does not give it.
#![tactic(auto)]

mod edit;
mod keeping;
mod laws;
mod list;
mod merges;
mod rectangle;
mod route;
mod tree;
mod tree_at;
mod ways;

pub use edit::edit_route;
pub use keeping::must_keep;
pub use laws::{followed_is_placed, kept_by_corners, moves_keep_whole_ranges};
pub use list::put_last;
pub use merges::{carried_merges, merges_part};
pub use rectangle::{carried_rectangle, rectangle_part};
pub use route::Route;
pub use tree::{carried_node, carried_tree, stays, tree_part};
pub use tree_at::{TreeAt, carried_tree_at, tree_at_part};
