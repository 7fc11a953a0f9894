//! Navigation on a sheet: from a place to the next edge of a run of cells, and the nearest cell of a
//! row that has a content.
//!
//! A walk goes place by place from a start to the sheet's edge; the answer is the first or the last
//! place of it with a property. It takes no memory.
#![tactic(auto)]

mod direction;
mod navigate;
mod searches;
mod walk;

pub use direction::NavigationDirection;
pub use navigate::Navigate;
pub use searches::RowSearch;
