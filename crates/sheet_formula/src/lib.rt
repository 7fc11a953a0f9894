//! Formulas in one crate: trees, their texts both ways, references that move, and what cells hold.
//!
//! It passes on what `formula_tree`, `formula_print`, `formula_read`, `formula_move`, `formula_names`,
//! `cell_content`, `cell_input`, `formula_round` and `format_rules` hold; their contracts stand there.
#![tactic(auto)]

pub use cell_content::{Content, fits_at};
pub use cell_input::{contents_read_again, print_content, push_content, read_input};
pub use format_rules::{CfRule, Cfvo, ConditionalFormatting};
pub use formula_move::{DisplaceData, displace_node, to_string_displaced};
pub use formula_names::{rename_defined_name_in_node, rename_sheet_in_node};
pub use formula_print::{
    push_localized_string, push_number, to_english_string, to_excel_array_formula_string,
    to_excel_string, to_localized_string, to_rc_format,
};
pub use formula_read::{read_formula, text_has_one_tree};
pub use formula_round::{normal_contents_read_back, normal_trees_read_back};
pub use formula_tree::{
    ArrayItem, CellReferenceRC, CompareKind, Corner, CornerMap, MAX_DEPTH, Node, Parameter,
    ProductKind, SumKind, UnaryKind, corner_at, has_canonical_numbers, has_no_negative_number,
    is_at_most_deep, is_parse_error, is_placed, move_node, rebase_node,
};

#[cfg(test)]
mod tests;
