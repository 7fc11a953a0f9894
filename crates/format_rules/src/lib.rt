//! Conditional rules: which places they stand on, their kinds with what each holds, and their
//! formulas.
//!
//! The layers above see a rule as its kinds, and by its formulas: whether each passes a test
//! (`each_tree`), and the rule with each of them changed (`change_trees`). A rule may be kept anywhere;
//! whether its parts and its formulas may stand on a sheet are tests of their own.
#![tactic(auto)]

mod canonical;
mod changing;
mod fitting;
mod formatting;
mod operator;
mod rule;
mod rule_list;
mod testing;
mod threshold;

pub use canonical::has_canonical_numbers;
pub use changing::{TreeChange, change_trees};
pub use fitting::{has_fitting_trees, has_parts, place_of};
pub use formatting::ConditionalFormatting;
pub use operator::CfOperator;
pub use rule::CfRule;
pub use rule_list::RuleList;
pub use testing::{TreeTest, each_tree};
pub use threshold::{Cfvo, ColorThreshold, IconThreshold};
