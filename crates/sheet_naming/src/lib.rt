//! The ids and the names of new sheets and of copies, and defined names as they are listed: each with
//! the index of the sheet where alone it is known, and with the text of its formula.
//!
//! The layers above see the id of the next sheet, the name of a new sheet and that of a copy, and that
//! each of them is no other sheet's.
#![tactic(auto)]

mod ids;
mod listing;
mod names;

pub use ids::next_id;
pub use listing::{DefinedNames, ScopedName, listed_names};
pub use names::{copy_name, new_name};
