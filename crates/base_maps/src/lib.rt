//! Maps with plain keys: positions, numbers of lines and places of a workbook, whether or not they
//! are inside a sheet, and indexes of lists.
//!
//! The maps of several sheets may be put into one, whose keys hold the id of a sheet (`put_under`).
#![tactic(auto)]

mod index_map;
mod number_map;
mod position_map;
mod sheet_index;
mod sheet_index_map;
mod sheet_place;
mod sheet_place_map;

pub use index_map::{IndexKeys, IndexMap};
pub use number_map::{NumberKeys, NumberMap};
pub use position_map::{PositionKeys, PositionMap};
pub use sheet_index::SheetIndex;
pub use sheet_index_map::{SheetIndexKeys, SheetIndexMap};
pub use sheet_place::SheetPlace;
pub use sheet_place_map::{SheetPlaceKeys, SheetPlaceMap};
