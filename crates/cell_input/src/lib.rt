//! Contents of cells as the texts that a user enters and sees, in a locale and a language.
//!
//! The layer above reads a text with `read_input`, which is `input_of`, and prints a content with
//! `push_content` at the end of a text, or with `print_content` as a text of its own, which is
//! `input_text`. What is printed of a content without a formula is read as the content again
//! (`contents_read_again`).
#![tactic(auto)]

mod input;
mod print;

pub use input::read_input;
pub use print::{contents_read_again, print_content, push_content};
