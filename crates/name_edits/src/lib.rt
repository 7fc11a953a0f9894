//! Defined names that come, go and change: which change each edit makes and when it is refused; the
//! change as a diff, made and taken back; and which name a formula means.
//!
//! A changed name is renamed in the formulas that mean it, those of conditional rules too. The layers above see the later workbook, what
//! the way back does not give, and that the diff leads both ways. A refusal leaves the workbook as it
//! was, and so does a call that is out of memory.
#![tactic(auto)]

mod diffs;
mod edits;
mod kept;
mod laws;
mod list;
mod look_up;
mod name_change;
mod sheets;

pub use diffs::{name_back, name_forward};
pub use edits::{add_name, is_name_formula, name_goes, remove_name, update_goes, update_name};
pub use kept::trees_lost;
pub use laws::{changed_names_lead_both_ways, changed_workbooks_are_well_formed};
pub use look_up::looked_up;
pub use name_change::NameChange;
