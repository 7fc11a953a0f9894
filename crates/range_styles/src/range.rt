//! Ranges of places whose styles are changed or taken away.

ghost use Rattle.std.specs.Prelude.{◌≡◌};
ghost use Rattle.range_styles.specs.StyleRanges.{kind_of};
ghost use Rattle.range_styles.specs.StyleWalks.{is_small, reaches_all, reaches_columns, reaches_rows};

use crate::walk::has_fewer;
use base_axis::MergedCell;
use base_values::{LAST_COLUMN, LAST_ROW};
use sheet_grid::Worksheet;

/// What a rectangle consists of.
#[derive(Clone, Copy, Debug, PartialEq, Eq)]
pub enum AreaKind {
    /// Of full columns: it begins at row 1 and has all rows.
    FullColumns,
    /// Of full rows: it begins at column 1, has all columns, and is not one of full columns.
    FullRows,
    /// Of places alone.
    OtherPlaces,
}

/// A rectangle of places whose styles are changed, and how: of full columns and full rows the lines
/// have styles of their own.
#[derive(Clone, Copy, Debug, PartialEq, Eq)]
pub struct StyleRange {
    pub area: MergedCell,
    pub kind: AreaKind,
    /// Whether styles are taken away, so that the default one shows.
    pub clears: bool,
}

/// What a rectangle consists of. It takes no memory.
pub fn kind_of(area: MergedCell) -> AreaKind
    ensures { result ≡ kind_of area }
{
    if area.row == 1 && area.height == LAST_ROW {
        AreaKind::FullColumns
    } else if area.column == 1 && area.width == LAST_COLUMN {
        AreaKind::FullRows
    } else {
        AreaKind::OtherPlaces
    }
}

/// Whether a range touches each of its places.
pub(crate) fn reaches_all(range: StyleRange) -> bool
    ensures { result ≡ reaches_all range.kind range.clears }
{
    matches!(range.kind, AreaKind::OtherPlaces) && !range.clears
}

/// Whether else the places of rows that have a style are gone over.
pub(crate) fn reaches_rows(range: StyleRange) -> bool
    ensures { result ≡ reaches_rows range.kind range.clears }
{
    match range.kind {
        AreaKind::FullColumns => true,
        AreaKind::FullRows => false,
        AreaKind::OtherPlaces => range.clears,
    }
}

/// Whether the places of columns that have one are.
pub(crate) fn reaches_columns(range: StyleRange) -> bool
    ensures { result ≡ reaches_columns range.kind range.clears }
{
    match range.kind {
        AreaKind::FullColumns => false,
        AreaKind::FullRows => !range.clears,
        AreaKind::OtherPlaces => range.clears,
    }
}

/// Whether a rectangle has fewer places than a sheet has cells, rows with something of their own,
/// or such columns.
pub(crate) fn is_small(area: MergedCell, sheet: &Worksheet) -> bool
    ensures { result ≡ is_small area sheet.now }
{
    has_fewer(area, sheet.cell_map().iter().len())
        || has_fewer(area, sheet.row_map().iter().len())
        || has_fewer(area, sheet.column_map().iter().len())
}
