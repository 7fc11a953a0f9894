//! From the tokens of a formula to its tree: the grammar as derivations, apart from the code, and
//! the reader that finds the one tree which the tokens derive. The layer above sees `Token`,
//! `Profile` and `read_tokens`.
#![tactic(auto)]

mod after_item;
mod arrays;
mod cursor;
mod fault;
mod found;
mod operator;
mod parameters;
mod profile;
mod read;
mod rules;
mod separators;
mod token;
mod words;

pub use profile::Profile;
pub use read::{read_tokens, tokens_derive_one_tree};
pub use token::{CellMark, Token};
