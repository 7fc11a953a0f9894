//! Tests of user models, whose own check is long. What scripts and calls with texts show of them is in the cases of `script_rows`.
#![tactic(auto)]

pub use user_model::UserModel;

#[cfg(test)]
mod tests;
