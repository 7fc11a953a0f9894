//! Tests of a script's ends and of printed workbooks.
#![tactic(auto)]

pub use script_dump::push_dump;

#[cfg(test)]
mod tests;
