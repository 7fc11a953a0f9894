//! Whether a workbook is well-formed.
//!
//! The layers above see the first rule that a workbook breaks, that it breaks none, and at which
//! places no content may stand.
#![tactic(auto)]

mod attributes;
mod defined;
mod formattings;
mod ids;
mod names;
mod occupied;
mod rules;

pub use names::is_sheet_name;
pub use occupied::{array_over, is_hidden_place};
pub use rules::{broken_rule, is_well_formed};
