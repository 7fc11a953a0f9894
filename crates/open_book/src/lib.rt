//! A workbook with the records of its steps, and with what other copies have not had yet: the plan of
//! an edit is made and recorded, undone and redone, and the entries of another copy are followed.
//!
//! It keeps diffs. The layer above sees the machine that keeps whole earlier and later workbooks.
#![tactic(auto)]

mod install;
mod laws;
mod open_book;
mod recalc;

pub use laws::edits_go_both_ways;
pub use open_book::OpenBook;
pub use recalc::{ClearAll, Recalc, Results};
