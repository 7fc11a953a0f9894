//! A workbook in printed form: a line for its settings, and lines for its sheets and what they
//! hold.
//!
//! The layer above writes a workbook with `push_dump`, which is `dump`, and lines, numbers and bytes
//! of its own with `push_line`, `push_unsigned` and `push_hex`. It reads contents with
//! `english_input` and formulas with `english_formula`, and prints contents with `push_english`.
#![tactic(auto)]

mod dump;
mod english;
mod lines;
mod merges;
mod names;
mod rules;
mod text;
mod theme;

pub use dump::push_dump;
pub use english::{english_formula, english_input, push_english};
pub use text::{push_hex, push_line, push_unsigned};
