//! What follows maps on the lines of an axis.
//!
//! What implements `Follower` is carried along a `LineMap` by a `Route`, and what is kept of it is
//! what the way back does not give. `Follow` is the same for an edit by itself.
//!
//! Conditional rules go along too: on the edited sheet each part of a rule goes with its corners, and the
//! rule's formulas go with the first place of its first part. Rules of other sheets stay. What the way
//! back does not give of a rule is the whole rule, kept under its place in the list. The layers above
//! carry a sheet's list along a `Route` (`carried_rules`), keep what the way back does not give
//! (`kept_rules`), and bring the list back with it (`restored_rules`); `rules_follow` says what becomes of
//! each rule.
#![tactic(auto)]

mod carried;
mod contents;
mod edited_rules;
mod follow;
mod follower;
mod formatting;
mod indexes;
mod kept;
mod key_map;
mod laws;
mod line_keys;
mod list;
mod merge_list;
mod merged_cell;
mod place_keys;
mod restored;
mod route_keys;
mod rule_laws;
mod rules;
mod trees;

pub use carried::carried_with_kept;
pub use contents::{Nothing, Stays};
pub use edited_rules::EditedRules;
pub use follow::{Follow, there_and_back};
pub use follower::{Follower, regained};
pub use indexes::are_there;
pub use kept::{KeptMap, Parts, PartsOf};
pub use laws::entries_of_maps;
pub use line_edits::{Block, EditKind, LineEdit, LineMap, image_of_opposite, move_by_single_lines};
pub use line_keys::goes_along;
pub use line_routes::{
    Route, TreeAt, followed_is_placed, kept_by_corners, moves_keep_whole_ranges, must_keep,
};
pub use restored::restored_map;
pub use route_keys::RouteKeys;
pub use rule_laws::rules_follow;
pub use rules::{carried_rules, kept_rules, restored_rules};
