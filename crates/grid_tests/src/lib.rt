//! Tests of rules, conditional rules, ids, views, styles of lines and navigation, by the calls of
//! their crates.
#![tactic(auto)]

pub use sheet_rules::is_well_formed;

#[cfg(test)]
mod tests;
