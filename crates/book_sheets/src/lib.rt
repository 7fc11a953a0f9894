//! Changes of the list of a workbook's sheets: a sheet comes, as a new one, as a copy of another or
//! back from a deletion; it goes; or it is taken to another index.
//!
//! The layer above sees each as a diff that can be made and taken back. A refusal leaves the workbook
//! as it was, and so does a call that is out of memory.
#![tactic(auto)]

mod coming;
mod going;
mod inside;
mod kept_sheet;
mod laws;
mod moving;

pub use coming::{copy_forward, deletion_back, new_forward};
pub use going::{copy_back, deletion_forward, new_back};
pub use inside::{are_arrays_inside, are_merges_inside, each_fits, is_array_inside};
pub use kept_sheet::KeptSheet;
pub use laws::{later_workbooks_are_well_formed, sheet_diffs_lead_both_ways};
pub use moving::sheet_moves;
