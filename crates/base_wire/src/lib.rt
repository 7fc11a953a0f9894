//! The parts of which every format of bytes is made: numbers, booleans, error values, decimals,
//! texts, options, lists and maps.
//!
//! A [`Part`] is a type whose values have an encoding. The layers above see of it the encoding, which is
//! a function of the value, and what bytes can carry: a value that they can carry is read again from
//! its encoding, whatever follows, what is read was encoded so, and all else is refused with
//! `ParseDiffs`. `specs/laws/Reading.antt` has the steps of each reader as a function, which serves proofs
//! alone; `specs/laws/` ties them to the encodings.
//!
//! A [`MapPart`] is the format of a map, made of those of its keys and of its values: how many entries it
//! has, and its entries in the one order of their keys. Its keys are of one of the types with
//! [`PlainKey`], which the map takes without a condition.
#![tactic(auto)]

mod codes;
mod entries;
mod front;
mod many;
mod map_reading;
mod map_writing;
mod maps;
mod part;
mod plain_key;
mod reading;
mod shared;
mod values;
mod writing;

pub use codes::boolean_code;
pub use front::counted_after;
pub use many::put_items;
pub use map_reading::map_at;
pub use map_writing::put_map;
pub use maps::MapPart;
pub use part::{Part, read};
pub use plain_key::PlainKey;
pub use reading::count_at;
