//! Queues of diffs as bytes, in both directions, and with what `grid_wire` has, workbooks, styles and
//! rules.
//!
//! The layers above see an encoding, which is a function of the value. Each value that bytes can carry has
//! one encoding, which is read again as that value, and what is read was encoded so. What bytes can
//! carry is every value of Rust's own types whose numbers are canonical and whose trees are at most
//! 64 deep.
#![tactic(auto)]

mod attributes;
mod codes;
mod decode;
mod decode_sheets;
mod edits;
mod encode;
mod encode_sheets;
mod kept_lines;
mod parts;
mod rule_changes;
mod settings;
mod sheets;
mod trees;
mod values;

pub use decode::{decode_queue, decode_queue_sharing};
pub use edits::EditPart;
pub use encode::encode_queue;
pub use grid_wire::{decode_workbook, encode_rule, encode_style, encode_workbook};
pub use kept_lines::{FormulasPart, KeptLinesPart};
pub use parts::DiffPart;
pub use values::{SheetIndexPart, SheetPlacePart};
