//! Tests of sheets, models and refused diffs, whose own checks are long. What edits of lines make of a
//! workbook is in the cases of `script_rows`, and where single lines go in the rows of `formula_rows`.
#![tactic(auto)]

pub use sheet_history::DiffList;

#[cfg(test)]
mod tests;
