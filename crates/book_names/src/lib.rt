//! A sheet that gets another name: the workbook afterwards, in which every formula, every conditional
//! rule and every defined name that named the sheet names it anew; what the opposite renaming does not
//! give back; and the workbook taken back with that.
//!
//! Formulas and conditional rules that are renamed, kept and taken back serve the renaming of defined
//! names too, each sheet as far as the renaming reaches there.
//!
//! The layer above sees this as a diff that can be made and taken back. A refusal leaves the workbook
//! as it was, and so does a call that is out of memory.
#![tactic(auto)]

mod by_sheet;
mod cells;
mod diffs;
mod formattings;
mod kept;
mod kept_rules;
mod kept_trees;
mod laws;
mod names;
mod naming;
mod reaching;
mod sheets;
mod standing;

pub use by_sheet::{SheetChange, changed_sheets};
pub use diffs::{are_in_sheets, may_stand, rename_back, rename_forward, stand_on_places};
pub use kept::kept_formulas;
pub use kept_rules::kept_formattings;
pub use kept_trees::KeptTrees;
pub use laws::{renamed_workbooks_are_well_formed, renaming_leads_both_ways};
pub use names::list_back;
pub use naming::may_be_named;
pub use reaching::SheetReach;
pub use sheets::{shared_name, with_formulas_back, with_formulas_renamed, with_lists};
pub use standing::{FormulaPlace, formulas_stand};
