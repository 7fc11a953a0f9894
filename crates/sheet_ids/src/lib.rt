//! The sheets of a workbook by their ids, and views: which sheet and which rectangle of it a user has
//! selected, and what is selected after an edit of the sheets.
//!
//! The layers above look up a sheet, or its name, by the id that stays with it when sheets are moved.
//! They see which index an edit selects, and the view of the later sheets where an index is selected.
//! Views take no memory.
#![tactic(auto)]

mod chosen;
mod find;
mod moved;
mod view;

pub use chosen::{next_visible, selected_after_delete, viewed, viewed_id};
pub use find::{has_sheet, name_of, sheet_of};
pub use moved::selected_sheet_after_move;
pub use view::View;
