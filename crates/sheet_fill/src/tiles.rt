//! Tiles: the repetitions of the source's merges in the target.

ghost use Rattle.std.specs.Prelude.{◌≡◌, ◌<◌, ◌≤ℤ◌, ◌-ℤ◌, ◌||◌, ◌++◌, [], pos, not, All, IfOk, OnOk, IsOkUnless, IsTrue};
ghost use Rattle.std.specs.List.{cons_option, filter, filter_map};
ghost use Rattle.base_axis.specs.Rectangles.{meets};
ghost use Rattle.base_values.specs.declared.EditError.TheVariants.{NoMemory};
ghost use Rattle.sheet_fill.specs.FillRanges.{IsRange};
ghost use Rattle.sheet_fill.specs.Tiles.{cuts_some, cuts_tile, is_cut, is_repeated, merges_filled, offset, repetitions, shifted, tile, tile_in, tiles};

use crate::range::{FillRange, lines};
use base_axis::{Axis, MergedCell};
use base_values::{EditError, Items};
use std::alloc::{AllocError, Global};

/// Whether a rectangle meets the target, and is not wholly in it.
pub fn is_cut(range: FillRange, rectangle: MergedCell) -> bool
    ensures { result ≡ is_cut range rectangle }
{
    rectangle.meets(range.target) && !rectangle.is_inside_of(range.target)
}

/// Whether a merge is one of the source's.
fn is_repeated(range: FillRange, merge: MergedCell) -> bool
    ensures { result ≡ is_repeated range merge }
{
    merge.meets(range.source) && merge.is_inside_of(range.source)
}

/// How many repetitions of the source begin in the target.
fn repetitions<A: Axis>(range: FillRange) -> u32
    requires { IsRange range }
    ensures { result ≡ repetitions A.along range }
{
    let period = lines::<A>(range.source);
    (lines::<A>(range.target) + (period - 1)) / period
}

/// By how many lines a repetition lies behind the source.
fn offset<A: Axis>(range: FillRange, index: u32) -> i32
    requires range { IsRange range }
    requires index { index < repetitions A.along range }
    ensures offset { result ≡ offset A.along range index }
    ensures low { (pos 0 -ℤ pos 2097152) ≤ℤ result }
    ensures high { result ≤ℤ pos 2097152 }
{
    let count = (lines::<A>(range.source) * (index + 1)) as i32;
    if range.is_behind { count } else { 0 - count }
}

/// A merge of the source so many lines behind where it is.
fn shifted<A: Axis>(range: FillRange, by: i32, merge: MergedCell) -> MergedCell
    requires range { IsRange range }
    requires low { (pos 0 -ℤ pos 2097152) ≤ℤ by }
    requires high { by ≤ℤ pos 2097152 }
    requires repeated { IsTrue (is_repeated range merge) }
    ensures { result ≡ shifted A.along by merge }
{
    MergedCell {
        row: merge.row + A::count_of(by, 0),
        column: merge.column + A::count_of(0, by),
        width: merge.width,
        height: merge.height,
    }
}

/// A merge of the source in a repetition.
fn tile<A: Axis>(range: FillRange, index: u32, merge: MergedCell) -> MergedCell
    requires range { IsRange range }
    requires index { index < repetitions A.along range }
    requires repeated { IsTrue (is_repeated range merge) }
    ensures { result ≡ tile A.along range index merge }
{
    shifted::<A>(range, offset::<A>(range, index), merge)
}

fn either(first: bool, second: bool) -> bool
    ensures { result ≡ first || second }
{
    first || second
}

/// Whether the target cuts a tile of a merge of the source.
fn cuts_some<A: Axis>(range: FillRange, merge: MergedCell) -> bool
    requires range { IsRange range }
    requires repeated { IsTrue (is_repeated range merge) }
    ensures { result ≡ cuts_some A.along range merge (repetitions A.along range) }
{
    let mut is_any = false;
    for index in 0..repetitions::<A>(range) {
        is_any = either(is_any, is_cut(range, tile::<A>(range, index, merge)));
    }
    is_any
}

/// Whether a merge is one of the source's, and the target cuts a tile of it.
pub fn cuts_tile<A: Axis>(range: FillRange, merge: MergedCell) -> bool
    requires { IsRange range }
    ensures { result ≡ cuts_tile A.along range merge }
{
    if !is_repeated(range, merge) {
        return false;
    }
    cuts_some::<A>(range, merge)
}

/// The tile of a merge of the source in a repetition, if it meets the target.
fn tile_in<A: Axis>(range: FillRange, index: u32, merge: MergedCell) -> Option<MergedCell>
    requires range { IsRange range }
    requires index { index < repetitions A.along range }
    requires repeated { IsTrue (is_repeated range merge) }
    ensures { result ≡ tile_in A.along range index merge }
{
    let tile = tile::<A>(range, index, merge);
    if tile.meets(range.target) {
        Some(tile)
    } else {
        None
    }
}

/// Puts the tile of a merge of the source in a repetition, if it meets the target, behind others.
fn push_tile<A: Axis>(
    range: FillRange,
    index: u32,
    merge: &MergedCell,
    list: &mut Items<MergedCell>,
) -> Result<(), AllocError>
    requires range { IsRange range }
    requires index { index < repetitions A.along range }
    requires repeated { IsTrue (is_repeated range merge.now) }
    ensures { OnOk result (list.new ≡ list.old ++ cons_option (tile_in A.along range index merge.now) []) }
{
    if let Some(tile) = tile_in::<A>(range, index, *merge) {
        list.push(tile)?;
    }
    Ok(())
}

/// Puts the tiles of a repetition behind others.
fn push_tiles<A: Axis>(
    range: FillRange,
    index: u32,
    merges: &[MergedCell],
    list: &mut Items<MergedCell>,
) -> Result<(), AllocError>
    requires range { IsRange range }
    requires index { index < repetitions A.along range }
    requires repeated { All (λ merge. IsTrue (is_repeated range merge)) merges.now }
    ensures { OnOk result (list.new ≡ list.old ++ filter_map (tile_in A.along range index) merges.now) }
{
    for merge in merges {
        push_tile::<A>(range, index, merge, list)?;
    }
    Ok(())
}

/// The merges of the source, in their order.
fn repeated(
    alloc: Global,
    range: FillRange,
    merges: &[MergedCell],
) -> Result<Vec<MergedCell>, AllocError>
    ensures { IfOk result (λ found. found.items ≡ filter (is_repeated range) merges.now) }
{
    let found: Vec<MergedCell> = merges
        .iter()
        .copied()
        .filter(|merge| is_repeated(range, *merge))
        .collect(alloc)?;
    Ok(found)
}

/// The merges that are not of the target, in their order.
fn kept(
    alloc: Global,
    range: FillRange,
    merges: &[MergedCell],
) -> Result<Items<MergedCell>, AllocError>
    ensures { IfOk result (λ kept. kept ≡ filter (λ merge. not (meets merge range.target)) merges.now) }
{
    let kept: Vec<MergedCell> = merges
        .iter()
        .copied()
        .filter(|merge| !merge.meets(range.target))
        .collect(alloc)?;
    Ok(Items::new(kept))
}

/// Puts the tiles of some merges of the source behind others, repetition by repetition away from it.
fn push_all_tiles<A: Axis>(
    range: FillRange,
    merges: &[MergedCell],
    list: &mut Items<MergedCell>,
) -> Result<(), AllocError>
    requires range { IsRange range }
    requires repeated { All (λ merge. IsTrue (is_repeated range merge)) merges.now }
    ensures { OnOk result (list.new ≡ list.old ++ tiles A.along range merges.now (repetitions A.along range)) }
{
    for index in 0..repetitions::<A>(range) {
        push_tiles::<A>(range, index, merges, list)?;
    }
    Ok(())
}

/// The merges of a sheet after a fill: those of the target are gone, and the tiles stand behind the
/// others. `NoMemory` alone is an error.
pub fn merges_filled<A: Axis>(
    alloc: Global,
    range: FillRange,
    merges: &[MergedCell],
) -> Result<Items<MergedCell>, EditError>
    requires { IsRange range }
    ensures output { IfOk result (λ filled. filled ≡ merges_filled A.along range merges.now) }
    ensures only { IsOkUnless result NoMemory }
{
    let repeated = repeated(alloc, range, merges)?;
    let mut list = kept(alloc, range, merges)?;
    push_all_tiles::<A>(range, &repeated, &mut list)?;
    list.fit();
    Ok(list)
}
