//! The refusals of a fill by what stands on its sheet.

ghost use Rattle.std.specs.Prelude.{◌≡◌, ◌≢◌, Err, IfOk, map};
ghost use Rattle.std.specs.List.{list_any};
ghost use Rattle.base_values.specs.declared.EditError.TheVariants.{NoMemory};
ghost use Rattle.sheet_grid.specs.Arrays.{large_arrays_of};
ghost use Rattle.sheet_fill.specs.FillRanges.{IsRange};
ghost use Rattle.sheet_fill.specs.Tiles.{cuts_tile, is_cut, is_partial, range_tested};

use crate::range::FillRange;
use crate::tiles::{cuts_tile, is_cut};
use base_axis::{Axis, MergedCell};
use base_values::{EditError, Position};
use sheet_grid::Worksheet;
use std::collections::btree_map::Iter;

/// Whether a merge meets the source or the target, and is wholly in neither.
fn is_partial(range: FillRange, merge: MergedCell) -> bool
    ensures { result ≡ is_partial range merge }
{
    (merge.meets(range.source) || merge.meets(range.target))
        && !(merge.is_inside_of(range.source) || merge.is_inside_of(range.target))
}

fn has_partial_merge(range: FillRange, merges: &[MergedCell]) -> bool
    ensures { result ≡ list_any (is_partial range) merges.now }
{
    merges.iter().any(|merge| is_partial(range, *merge))
}

fn cuts_a_tile<A: Axis>(range: FillRange, merges: &[MergedCell]) -> bool
    requires { IsRange range }
    ensures { result ≡ list_any (cuts_tile A.along range) merges.now }
{
    merges.iter().any(|merge| cuts_tile::<A>(range, *merge))
}

/// Whether one of some arrays, as a sheet lists them, reaches out of the target.
fn one_is_cut(arrays: Iter<'_, Position, MergedCell>, range: FillRange) -> bool
    ensures { result ≡ list_any (is_cut range) (map (λ array. array.1) arrays.entry) }
{
    arrays
        .map(|(_, array)| *array)
        .any(|array| is_cut(range, array))
}

/// What is filled of a sheet, if what stands there allows it. It takes no memory.
///
/// `PartialMerge` where a merge meets the source or the target and is wholly in neither, else
/// `CutMerge` where the target cuts a repetition of a merge of the source, else `PartialArray` where
/// an array of more than one cell meets the target and reaches out of it.
#[tactic(auto, unfolding(crate::specs::Tiles::range_tested))]
pub fn test_range<A: Axis>(range: FillRange, sheet: &Worksheet) -> Result<FillRange, EditError>
    requires { IsRange range }
    ensures tested { result ≡ range_tested A.along range sheet.now }
    ensures inside { IfOk result IsRange }
    ensures sure { result ≢ Err NoMemory }
{
    let merges = sheet.merged_cells();
    if has_partial_merge(range, merges) {
        return Err(EditError::PartialMerge);
    }
    if cuts_a_tile::<A>(range, merges) {
        return Err(EditError::CutMerge);
    }
    if one_is_cut(sheet.large_arrays(), range) {
        return Err(EditError::PartialArray);
    }
    Ok(range)
}
