//! What stands in a workbook as bytes, in both directions: themes, locales and time zones, styles,
//! cells, links and merges, conditional rules, defined names, what lines have of their own, and whole
//! sheets.
//!
//! The layers above see of each an encoding, which is a function of the value: what bytes can carry is
//! read again from its encoding whatever follows, what is read was encoded so, and all else is refused
//! with `ParseDiffs`. The keys of a sheet's maps are inside the sheet.
#![tactic(auto)]

mod cell_parts;
mod decode;
mod encode;
mod formattings;
mod keys;
mod lines;
mod merges;
mod names;
mod names_list;
mod reading_cells;
mod reading_rules;
mod reading_settings;
mod reading_sheets;
mod reading_styles;
mod rule_codes;
mod rules;
mod setting_parts;
mod sheets;
mod states;
mod style_codes;
mod thresholds;
mod writing_cells;
mod writing_rules;
mod writing_settings;
mod writing_sheets;

pub use cell_parts::{CellPart, ColorPart, PositionPart, StylePart};
pub use decode::decode_workbook;
pub use encode::{encode_rule, encode_style, encode_workbook};
pub use formattings::{FormattingPart, RuleListPart};
pub use lines::LinePart;
pub use merges::{LinkPart, MergeListPart};
pub use names::NamePart;
pub use rules::RulePart;
pub use setting_parts::{LocalePart, ThemePart, ZonePart};
pub use sheets::SheetPart;
pub use states::StatePart;
