//! Edits of the lines of a workbook that keeps the rules of a well-formed one.
//!
//! `plan_insert`, `plan_delete` and `plan_move` say which line edit a call asks for, or why it is
//! refused; `Model` makes such edits.
#![tactic(auto)]

mod laws;
mod model;
mod plan;

pub use laws::{edit_keeps_rules, formulas_are_kept, ranges_denote};
pub use model::Model;
pub use plan::{plan_delete, plan_insert, plan_move};
pub use sheet_lines::{KeptLines, line_back, line_edit};
pub use sheet_rules::{broken_rule, is_well_formed};
