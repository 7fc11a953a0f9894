//! The values that all layers share: texts, lists and maps that contracts see as their contents,
//! places of a sheet, errors, and the words in which contracts say what a call answers.
#![tactic(auto)]

mod boxed;
mod error;
mod exact;
mod items;
mod key_map;
mod place_map;
mod position;
mod text;

pub use boxed::Boxed;
pub use error::EditError;
pub use exact::{Exact, copy_of, same};
pub use items::Items;
pub use key_map::{KeyMap, MapKey, SheetKey};
pub use place_map::{PlaceKeys, PlaceMap};
pub use position::{
    LAST_COLUMN, LAST_ROW, Position, as_line, is_line, is_place, line_of, place_of,
};
pub use text::Text;
