//! Edits of a workbook as plans: each tests its refusals in their order and returns the record of
//! its change, and changes nothing. `specs/Edits.antt` has what each edit changes. Records are made
//! entry by entry, in the order of their keys.
#![tactic(auto)]

mod array;
mod blanked;
mod clear;
mod field;
mod fill;
mod hidden;
mod input;
mod laws;
mod line_records;
mod lines;
mod link;
mod list;
mod merge;
mod names;
mod paste;
mod plan;
mod raised;
mod rules;
mod settings;
mod sheets;
mod styles;
mod unmerge;
mod view;

pub use array::{free_area, plan_array};
pub use clear::plan_clear;
pub use field::plan_field;
pub use fill::plan_auto_fill;
pub use hidden::grown_delta;
pub use input::{free_place, plan_input};
pub use laws::{edits_have_records, rule_changes_are_exact, sheet_edits_go_both_ways};
pub use line_records::{axis_end, line_list, size_change};
pub use lines::{plan_hidden, plan_size};
pub use link::plan_link;
pub use list::{cell_diff, link_diff, list_of, list_of_three, list_of_two, merges_diff, push_diff};
pub use merge::plan_merge;
pub use names::{plan_changed_name, plan_new_name, plan_removed_name};
pub use paste::{pasted_area, plan_pasted, test_tile};
pub use plan::plan_list;
pub use raised::raised_diff;
pub use rules::{plan_changed_rule, plan_new_rule, plan_removed_rule, plan_swapped_rules};
pub use settings::{plan_setting, plan_title};
pub use sheets::{
    plan_copied_sheet, plan_deleted_sheet, plan_moved_sheet, plan_new_sheet, plan_renamed_sheet,
};
pub use styles::{plan_clear_formatting, plan_styles};
pub use unmerge::plan_unmerge;
pub use view::{
    range_by_hiding, selected_by_copy, selected_by_deletion, selected_by_field, selected_by_move,
    selected_by_new,
};
