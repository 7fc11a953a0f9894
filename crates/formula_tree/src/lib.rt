//! Formulas as trees: the kinds of nodes, corners of references, equality and copies by value; and the
//! one table of operators that the printer and the grammar share.
//! The layers above see a tree as its kinds, and fold over it with the definitions of `specs/`.
#![tactic(auto)]

mod array_item;
mod context;
mod copies;
mod corner;
mod depth;
mod infix;
mod level;
mod moved;
mod node;
mod numbers;
mod on_sheet;
mod operator;
mod parameter;
mod parse_error;
mod placed;
mod postfix;
mod prefix;
mod rebase;
mod sameness;

pub use array_item::ArrayItem;
pub use context::CellReferenceRC;
pub use corner::{
    Corner, are_in_order, corner_at, corner_column, corner_row, corner_to, is_inside,
    is_whole_columns, is_whole_rows, order_corners,
};
pub use depth::{MAX_DEPTH, is_at_most_deep};
pub use infix::Infix;
pub use level::{LEVELS, tighter};
pub use moved::{CornerMap, move_node};
pub use node::Node;
pub use numbers::{has_canonical_numbers, has_no_negative_number};
pub use on_sheet::is_on_sheet;
pub use operator::{CompareKind, ProductKind, SumKind, UnaryKind};
pub use parameter::Parameter;
pub use parse_error::is_parse_error;
pub use placed::is_placed;
pub use postfix::Postfix;
pub use prefix::Prefix;
pub use rebase::rebase_node;
