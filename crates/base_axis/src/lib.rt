//! The two directions of a sheet, so that what is done to rows and to columns is written once, maps
//! from their lines, and rectangles of places.
#![tactic(auto)]

mod area;
mod axis;
mod axis_map;
mod merge_list;
mod merged_cell;

pub use area::Area;
pub use axis::{Axis, ColumnAxis, RowAxis, outside};
pub use axis_map::{AxisMap, LineKeys};
pub use merge_list::MergeList;
pub use merged_cell::{MergedCell, last_of};
