//! Sheets and workbooks.
//!
//! The layers above see a sheet as a record of its fields, of finite maps of its cells, links, rows
//! and columns, and of the lists of its merges and of its conditional rules, and a workbook as a record of its fields and
//! of the list of its sheets. A setter changes the named entry and nothing else.
#![tactic(auto)]

mod arrays;
mod cell;
mod cell_map;
mod column_attr;
mod computed;
mod default_parts;
mod default_style;
mod dimension;
mod index;
mod line_attr;
mod link;
mod row_attr;
mod sheet_entries;
mod state;
mod workbook;
mod worksheet;

pub use arrays::{array_at, large_array_at};
pub use cell::Cell;
pub use cell_content::Content;
pub use column_attr::ColumnAttr;
pub use computed::{Computed, ComputedValue};
pub use default_parts::is_default_style;
pub use default_style::DefaultStyle;
pub use dimension::WorksheetDimension;
pub use index::{sheet_at, sheet_index};
pub use line_attr::{LineAttr, USUAL_HEIGHT, USUAL_WIDTH};
pub use link::Link;
pub use row_attr::RowAttr;
pub use sheet_entries::SheetEntries;
pub use state::SheetState;
pub use workbook::Workbook;
pub use worksheet::{Worksheet, own_line_style};
