//! Diffs of a workbook, what they do forward and back, and the stacks of undo and redo.
//!
//! The layers above see a list of diffs as a function on workbooks in either direction, and a
//! history as two lists of lists of diffs, the newest first.
#![tactic(auto)]

mod apply;
mod diff;
mod field;
mod follow;
mod history;
mod laws;
mod line_diffs;
mod put;
mod rule_diffs;
mod selection;
mod setting;

pub use apply::{back, back_in_place, forward, forward_in_place};
pub use diff::{Diff, DiffList, DiffType, LineAxis, QueueDiffs};
pub use field::{FieldChange, SheetField};
pub use follow::follow_in_place;
pub use history::History;
pub use laws::{
    line_records_go_both_ways, records_are_computed, records_are_unique, records_go_both_ways,
};
pub use selection::selection_followed;
pub use setting::{Setting, SettingChange};
