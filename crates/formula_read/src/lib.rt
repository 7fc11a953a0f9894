//! From the text of a formula to its tree: its tokens, and the one tree that they derive. The layer
//! above sees `read_formula`.
#![tactic(auto)]

mod characters;
mod errors;
mod front;
mod lex;
mod place;
mod read;

pub use lex::{lex_text, text_spells_one_list};
pub use read::{read_formula, text_has_one_tree, without_equals};
