//! Defined names: names of formulas, each known in a whole workbook or in one of its sheets alone.
//!
//! The layers above see a name as its text, the id of the sheet where it is known, and its tree; and
//! a list of names as a list, of which they see what is left, and what is made, where a sheet goes,
//! comes back or is copied.
#![tactic(auto)]

mod defined_name;
mod legal;
mod name_list;
mod of_sheets;

pub use defined_name::DefinedName;
pub use legal::is_defined_name;
pub use name_list::NameList;
pub use of_sheets::put_name;
