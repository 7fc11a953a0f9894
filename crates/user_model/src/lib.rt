//! A workbook as a user of a spreadsheet edits it: with undo, redo, a queue for other copies and
//! computed values.
//!
//! It keeps diffs. The layer above sees the machine that keeps whole earlier and later workbooks:
//! each call takes every state of the machine that the model stands for to the machine's next one.
#![tactic(auto)]

mod cell_style;
mod cell_type;
mod laws;
mod properties;
mod reading;
mod structure;
mod user_model;
mod view_steps;

pub use base_axis::{Area, MergedCell};
pub use base_styles::{
    Alignment, Border, BorderArea, BorderItem, BorderStyle, BorderType, Color, Font,
    HorizontalAlignment, RgbColor, Style, Theme, ThemeColor, VerticalAlignment,
};
pub use base_values::{EditError, Items, Position, Text};
pub use cell_type::CellType;
pub use format_rules::{
    CfOperator, CfRule, Cfvo, ColorThreshold, ConditionalFormatting, IconThreshold,
};
pub use grid_wire::{encode_rule, encode_style};
pub use laws::opened_again;
pub use open_book::{ClearAll, Recalc, edits_go_both_ways};
pub use properties::SheetProperties;
pub use sheet_actions::Model;
pub use sheet_grid::{
    Cell, Computed, ComputedValue, Content, Link, SheetState, Workbook, Worksheet,
};
pub use sheet_ids::{View, selected_sheet_after_move};
pub use sheet_naming::{DefinedNames, ScopedName};
pub use sheet_navigation::{Navigate, NavigationDirection, RowSearch};
pub use structure::CellArrayStructure;
pub use user_model::UserModel;
