//! Conditional rules of a sheet that come, go and change: which changes each edit makes and when it is
//! refused, and a change made and taken back.
//!
//! The layers above see the later list of rules, that a change can be made, and that its opposite gives
//! the earlier list. A list that a call reads stays as it was.
#![tactic(auto)]

mod change;
mod edits;
mod goes;
mod laws;
mod list;

pub use change::RuleChange;
pub use edits::{add_rule, remove_rule, swap_rules, update_rule};
pub use goes::{goes_back, goes_forward};
pub use laws::{changed_rules_come_back, edited_rules_stand};
pub use list::{rules_back, rules_forward};
