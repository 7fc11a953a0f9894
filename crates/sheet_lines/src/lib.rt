//! Line edits of a workbook: the lines of one sheet are inserted, deleted or moved, and the
//! formulas of all sheets follow.
//!
//! A sheet is composed from followers, and a workbook, a follower itself (`SheetsById`), from its sheets.
//! `line_edit` returns the workbook afterwards and what going back does not give; `line_back` takes
//! the lines back with it.
#![tactic(auto)]

mod back;
mod edit;
mod followed;
mod inside;
mod kept;
mod laws;
mod part;
mod parts;
mod sheets;
mod workbook;

pub use back::line_back;
pub use edit::line_edit;
pub use followed::followed_book;
pub use inside::places_inside;
pub use kept::KeptLines;
pub use laws::{edit_and_back, entries_of_sheets};
pub use workbook::SheetsById;
