//! Merges, the places that they cover, and places where nothing stands.

ghost use Rattle.std.specs.Prelude.{◌≡◌};
ghost use Rattle.std.specs.Option.{option_copied};
ghost use Rattle.sheet_grid.specs.Merges.{merge_holding, is_covered, anchor_of, is_empty, is_blank_entry, blank_at};

use super::Worksheet;
use crate::cell::Cell;
use base_axis::{MergeList, MergedCell};
use base_shared::Shared;
use base_values::{EditError, Items, Position, place_of};
use cell_content::Content;

/// The first merge of a list that holds a place.
fn merge_holding(merges: &[MergedCell], place: Position) -> Option<MergedCell>
    ensures { result ≡ merge_holding merges.now place }
{
    merges.iter().copied().find(|merge| merge.holds(place))
}

fn is_empty(content: &Content) -> bool
    ensures { result ≡ is_empty content.now }
{
    matches!(content, Content::Empty)
}

fn is_blank_entry(entry: Option<&Shared<Cell>>) -> bool
    ensures { result ≡ is_blank_entry (option_copied entry.entry) }
{
    match entry {
        Some(cell) => is_empty(&cell.get().content),
        None => true,
    }
}

impl Worksheet {
    /// The merges, in the order in which they were made.
    pub fn merged_cells(&self) -> &[MergedCell]
        ensures { result.now ≡ self.now.merges }
    {
        self.merges.as_slice()
    }

    /// The merges, as the sheet holds them.
    pub fn merge_list(&self) -> &MergeList
        ensures { result.now ≡ self.now.merges }
    {
        &self.merges
    }

    /// Puts these merges in place of the sheet's own. They may be any: it is not asked whether they
    /// are inside the sheet or meet. It takes no memory.
    pub fn set_merged_cells(&mut self, merges: Items<MergedCell>)
        ensures { self.new ≡ record self.old { merges = merges } }
    {
        self.merges = MergeList::new(merges);
    }

    /// The first merge that holds the place at a row and a column, which may be any numbers. It takes
    /// no memory.
    pub fn merged_cell_containing(&self, row: i32, column: i32) -> Option<MergedCell>
        ensures { result ≡ merge_holding self.now.merges (record { row = row; column = column }) }
    {
        merge_holding(self.merges.as_slice(), Position { row, column })
    }

    /// Whether a merge hides the place at a row and a column: the merge that holds it, if one does,
    /// begins elsewhere. The numbers may be any. It takes no memory.
    pub fn is_covered_cell(&self, row: i32, column: i32) -> bool
        ensures { result ≡ is_covered self.now.merges (record { row = row; column = column }) }
    {
        match self.merged_cell_containing(row, column) {
            Some(merge) => !(merge.row == row && merge.column == column),
            None => false,
        }
    }

    /// The row and the column of the place whose cell shows at a row and a column: the first place of
    /// the merge that holds it, else the place itself. The numbers may be any. It takes no memory.
    pub fn merge_anchor(&self, row: i32, column: i32) -> (i32, i32)
        ensures row { result.0 ≡ (anchor_of self.now.merges (record { row = row; column = column })).row }
        ensures column { result.1 ≡ (anchor_of self.now.merges (record { row = row; column = column })).column }
    {
        match self.merged_cell_containing(row, column) {
            Some(merge) => (merge.row, merge.column),
            None => (row, column),
        }
    }

    /// Whether nothing stands at a row and a column: no cell, or one without a content. It takes no
    /// memory.
    ///
    /// `InvalidRow` where the row is outside the sheet, else `InvalidColumn` where the column is.
    pub fn is_empty_cell(&self, row: i32, column: i32) -> Result<bool, EditError>
        ensures { result ≡ blank_at self.now row column }
    {
        let place = place_of(row, column)?;
        Ok(is_blank_entry(self.cells.as_map().get(place)))
    }
}
