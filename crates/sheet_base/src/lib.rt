//! The base of the spreadsheet layers in one crate: values, styles, decimals and tables.
//!
//! It passes on what `base_values`, `base_shared`, `base_axis`, `base_maps`, `base_styles`, `base_decimal`,
//! `base_tables` and `style_edits` hold; their contracts stand there.
#![tactic(auto)]

pub use base_axis::{Area, Axis, AxisMap, ColumnAxis, MergeList, MergedCell, RowAxis};
pub use base_decimal::Decimal;
pub use base_maps::{IndexMap, NumberMap, PositionMap, SheetPlace, SheetPlaceMap};
pub use base_shared::Shared;
pub use base_styles::{
    Alignment, Border, BorderArea, BorderItem, BorderStyle, BorderType, Color, Font,
    HorizontalAlignment, RgbColor, Style, Theme, ThemeColor, VerticalAlignment,
};
pub use base_tables::{
    Error, Function, Language, Locale, Zone, column_to_number, function_by_name, get_language,
    get_locale, get_zone, is_word, needs_quotes, number_to_column, quote_name, read_boolean,
    read_error, reads_as_cell, reads_as_row_column, same_by_folding,
};
pub use base_values::{
    Boxed, EditError, Exact, Items, LAST_COLUMN, LAST_ROW, PlaceMap, Position, Text, copy_of,
    line_of, place_of, same,
};
pub use style_edits::{is_max_border, read_color, test_update, update_style};

#[cfg(test)]
mod tests;
