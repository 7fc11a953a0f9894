//! What the places of a target get, cross line by cross line.

ghost use Rattle.std.specs.Prelude.{◌≡◌, ◌<◌, ◌≤◌, ◌+◌, ◌++◌, ◌∷◌, [], IfOk, OnOk, IsOkUnless, IsTrue, map, string_bytes, Ok, if◌then◌else◌};
ghost use Rattle.std.specs.Option.{option_copied};
ghost use Rattle.std.specs.FinMap as fin;
ghost use Rattle.base_values.specs.declared.EditError.TheVariants.{NoMemory};
ghost use Rattle.base_values.specs.Places.{IsPlace, place_of};
ghost use Rattle.base_axis.specs.Rectangles.{first_line, holds};
ghost use Rattle.cell_content.specs.CanonicalContent.{IsCanonicalContent};
ghost use Rattle.planned_maps.specs.laws.PlanWalks.{put_one};
ghost use Rattle.planned_maps.specs.Walks.{count_across};
ghost use Rattle.sheet_grid.specs.CanonicalCell.{IsCanonicalCell};
ghost use Rattle.sheet_grid.specs.Sheet.{shown_style};
ghost use Rattle.sheet_fill.specs.FillRanges.{IsRange, lines, source_place, target_place};
ghost use Rattle.sheet_fill.specs.laws.FillWalks.{across_put, targets_put};
ghost use Rattle.sheet_fill.specs.Plans.{CanonicalFill, cells_filled, links_filled};
ghost use Rattle.sheet_fill.specs.Targets.{cell_with, content_with, covered_among, source_covered, open_content, open_count, place_filled, place_linked, progression_on, text_at, texts};

use crate::content::{continued, entry_text, filled_entry};
use crate::range::{FillRange, lines, source_place, target_place};
use base_axis::Axis;
use base_shared::Shared;
use base_styles::Style;
use base_tables::{Language, Locale};
use base_values::{EditError, PlaceMap, Position, copy_of};
use cell_content::Content;
use planned_maps::{count_across, place_across};
use sheet_grid::{Cell, DefaultStyle, Link, Worksheet};
use sheet_progress::{Progression, detect_progression};
use std::alloc::Global;

type FilledCells = PlaceMap<Option<Shared<Cell>>>;

type FilledLinks = PlaceMap<Option<Link>>;

/// What a fill reads.
#[derive(Clone, Copy)]
pub struct Fill<'a> {
    pub alloc: Global,
    pub default: &'a DefaultStyle,
    pub sheet: &'a Worksheet,
    pub range: FillRange,
    pub locale: Locale,
    pub language: Language,
}

/// The text of a cell at a place.
fn text_at(fill: &Fill<'_>, place: Position) -> Result<String, EditError>
    ensures text { IfOk result (λ text. string_bytes text ≡ text_at fill.now.locale fill.now.language fill.now.sheet.now place) }
    ensures only { IsOkUnless result NoMemory }
{
    let entry = fill.sheet.cell_map().get(place);
    entry_text(fill.alloc, entry, place, fill.locale, fill.language)
}

/// Whether a merge covers the place that a target repeats.
fn source_covered<A: Axis>(fill: &Fill<'_>, at: Position, index: u32) -> bool
    requires range { IsRange fill.now.range }
    requires place { IsPlace at }
    ensures { result ≡ source_covered A.along fill.now.range fill.now.sheet.now at index }
{
    let place = source_place::<A>(fill.range, at, index);
    fill.sheet.is_covered_cell(place.row, place.column)
}

/// Of each place of the source on a cross line, away from it, whether a merge covers it.
fn covered_places<A: Axis>(fill: &Fill<'_>, at: Position) -> Result<Vec<bool>, EditError>
    requires range { IsRange fill.now.range }
    requires place { IsPlace at }
    ensures hidden { IfOk result (λ hidden. hidden.items ≡ covered_among A.along fill.now.range fill.now.sheet.now at (lines A.along fill.now.range.source)) }
    ensures only { IsOkUnless result NoMemory }
{
    let mut hidden = Vec::new(fill.alloc);
    for index in 0..lines::<A>(fill.range.source) {
        hidden.push(source_covered::<A>(fill, at, index))?;
    }
    Ok(hidden)
}

/// Whether a target repeats a covered place, as was found of the source.
#[tactic(auto, using(crate::proofs::CoveredPlaces::hidden_len, crate::proofs::CoveredPlaces::hidden_again))]
fn repeats_covered<A: Axis>(fill: &Fill<'_>, at: Position, hidden: &[bool], index: u32) -> bool
    requires range { IsRange fill.now.range }
    requires hidden { hidden.now ≡ covered_among A.along fill.now.range fill.now.sheet.now at (lines A.along fill.now.range.source) }
    ensures { result ≡ source_covered A.along fill.now.range fill.now.sheet.now at index }
{
    let turn = index % lines::<A>(fill.range.source);
    hidden[turn as usize]
}

/// Puts the text that a target repeats behind others, where it is not covered.
fn push_text<A: Axis>(
    fill: &Fill<'_>,
    at: Position,
    index: u32,
    texts: &mut Vec<String>,
) -> Result<(), EditError>
    requires range { IsRange fill.now.range }
    requires place { IsPlace at }
    ensures texts { OnOk result (map string_bytes texts.new.items ≡
        map string_bytes texts.old.items ++
        (if source_covered A.along fill.now.range fill.now.sheet.now at index then [] else text_at fill.now.locale fill.now.language
        fill.now.sheet.now (source_place A.along fill.now.range at index) ∷ [])) }
    ensures only { IsOkUnless result NoMemory }
{
    if source_covered::<A>(fill, at, index) {
        return Ok(());
    }
    let text = text_at(fill, source_place::<A>(fill.range, at, index))?;
    texts.push(text)?;
    Ok(())
}

/// The texts of the source on a cross line, away from it, but for covered ones.
fn source_texts<A: Axis>(fill: &Fill<'_>, at: Position) -> Result<Vec<String>, EditError>
    requires range { IsRange fill.now.range }
    requires place { IsPlace at }
    ensures texts { IfOk result (λ found. map string_bytes found.items ≡
        texts A.along fill.now.range fill.now.locale fill.now.language fill.now.sheet.now at (lines A.along fill.now.range.source)) }
    ensures only { IsOkUnless result NoMemory }
{
    let mut texts = Vec::new(fill.alloc);
    for index in 0..lines::<A>(fill.range.source) {
        push_text::<A>(fill, at, index, &mut texts)?;
    }
    Ok(texts)
}

/// The progression that the texts of the source on a cross line have.
fn progression_on<A: Axis>(fill: &Fill<'_>, at: Position) -> Result<Option<Progression>, EditError>
    requires range { IsRange fill.now.range }
    requires place { IsPlace at }
    ensures progression { IfOk result (λ found. found ≡ progression_on A.along fill.now.range fill.now.locale fill.now.language fill.now.sheet.now at) }
    ensures only { IsOkUnless result NoMemory }
{
    let texts = source_texts::<A>(fill, at)?;
    let first = A::with_line(at, fill.range.source.first_line::<A>());
    let seed = text_at(fill, first)?;
    detect_progression(fill.alloc, &texts, fill.locale, seed.as_str())
}

/// The content of a target that is not covered, with the count of uncovered targets nearer the
/// source.
fn open_content(
    fill: &Fill<'_>,
    progression: &Option<Progression>,
    number: u32,
    source: Position,
    place: Position,
) -> Result<Content, EditError>
    requires number { number ≤ 1048575 }
    requires place { IsPlace place }
    ensures content { IfOk result (λ content. content ≡ open_content fill.now.locale fill.now.language fill.now.sheet.now progression.now number source place) }
    ensures canonical { IfOk result IsCanonicalContent }
    ensures only { IsOkUnless result NoMemory }
{
    match progression {
        Some(progression) => continued(
            fill.alloc,
            progression,
            number,
            place,
            fill.locale,
            fill.language,
        ),
        None => filled_entry(fill.alloc, fill.sheet.cell_map().get(source), place),
    }
}

/// The content of a target, with the count of uncovered targets nearer the source.
fn content_with<A: Axis>(
    fill: &Fill<'_>,
    progression: &Option<Progression>,
    at: Position,
    index: u32,
    hidden: bool,
    number: u32,
) -> Result<Content, EditError>
    requires range { IsRange fill.now.range }
    requires place { IsPlace at }
    requires index { index < lines A.along fill.now.range.target }
    requires hidden { hidden ≡ source_covered A.along fill.now.range fill.now.sheet.now at index }
    requires number { number ≡ open_count A.along fill.now.range fill.now.sheet.now at index }
    requires few { number ≤ index }
    ensures content { IfOk result
        (λ content. content ≡ content_with A.along fill.now.range fill.now.locale fill.now.language fill.now.sheet.now progression.now at index) }
    ensures canonical { IfOk result IsCanonicalContent }
    ensures only { IsOkUnless result NoMemory }
{
    if hidden {
        return Ok(Content::Empty);
    }
    let source = source_place::<A>(fill.range, at, index);
    let place = target_place::<A>(fill.range, at, index);
    open_content(fill, progression, number, source, place)
}

/// The style that a place shows, shared with the sheet.
fn style_at(fill: &Fill<'_>, place: Position) -> Result<Shared<Style>, EditError>
    requires { place_of place.row place.column ≡ Ok place }
    ensures style { IfOk result (λ style. style ≡ shown_style fill.now.sheet.now place) }
    ensures only { IsOkUnless result NoMemory }
{
    let style = fill
        .sheet
        .shown_style(place.row, place.column, fill.default)?;
    copy_of(style)
}

/// A copy of the link at a place.
fn link_at(fill: &Fill<'_>, place: Position) -> Result<Option<Link>, EditError>
    ensures link { IfOk result (λ link. link ≡ fin.get fill.now.sheet.now.links place) }
    ensures only { IsOkUnless result NoMemory }
{
    match fill.sheet.link_map().get(place) {
        Some(link) => Ok(Some(copy_of(link)?)),
        None => Ok(None),
    }
}

/// The cell of a target, with the count of uncovered targets nearer the source.
fn cell_with<A: Axis>(
    fill: &Fill<'_>,
    progression: &Option<Progression>,
    at: Position,
    index: u32,
    hidden: bool,
    number: u32,
) -> Result<Shared<Cell>, EditError>
    requires range { IsRange fill.now.range }
    requires place { IsPlace at }
    requires index { index < lines A.along fill.now.range.target }
    requires hidden { hidden ≡ source_covered A.along fill.now.range fill.now.sheet.now at index }
    requires number { number ≡ open_count A.along fill.now.range fill.now.sheet.now at index }
    requires few { number ≤ index }
    ensures cell { IfOk result (λ cell. cell ≡ cell_with A.along fill.now.range fill.now.locale fill.now.language fill.now.sheet.now progression.now at index) }
    ensures canonical { IfOk result IsCanonicalCell }
    ensures only { IsOkUnless result NoMemory }
{
    let content = content_with::<A>(fill, progression, at, index, hidden, number)?;
    let style = style_at(fill, source_place::<A>(fill.range, at, index))?;
    Ok(Shared::new(fill.alloc, Cell { content, style })?)
}

/// One more where a target is not covered.
fn counted(hidden: bool, number: u32) -> u32
    requires { number ≤ 1048575 }
    ensures { result ≡ number + (if hidden then 0 else 1) }
{
    if hidden { number } else { number + 1 }
}

/// Plans the cell of a target and its link.
fn put_target<A: Axis>(
    fill: &Fill<'_>,
    at: Position,
    index: u32,
    cell: Shared<Cell>,
    cells: &mut FilledCells,
    links: &mut FilledLinks,
) -> Result<(), EditError>
    requires range { IsRange fill.now.range }
    requires place { IsPlace at }
    requires held { IsTrue (holds fill.now.range.target at) }
    requires index { index < lines A.along fill.now.range.target }
    requires cell { cell ≡ cell_with A.along fill.now.range fill.now.locale fill.now.language fill.now.sheet.now
        (progression_on A.along fill.now.range fill.now.locale fill.now.language fill.now.sheet.now at) at index }
    requires kept { IsCanonicalCell cell }
    requires canonical { CanonicalFill cells.old }
    ensures cells { OnOk result (cells.new ≡ put_one
        (place_filled A.along fill.now.range fill.now.locale fill.now.language fill.now.sheet.now) cells.old
        (target_place A.along fill.now.range at index)) }
    ensures links { OnOk result (links.new ≡ put_one (place_linked A.along fill.now.range fill.now.sheet.now) links.old
        (target_place A.along fill.now.range at index)) }
    ensures canonical { OnOk result (CanonicalFill cells.new) }
    ensures only { IsOkUnless result NoMemory }
{
    let link = link_at(fill, source_place::<A>(fill.range, at, index))?;
    let place = target_place::<A>(fill.range, at, index);
    let _no_cell = cells.insert(place, Some(cell))?;
    let _no_link = links.insert(place, link)?;
    Ok(())
}

/// Plans the targets of a cross line, away from the source.
fn put_targets<A: Axis>(
    fill: &Fill<'_>,
    progression: &Option<Progression>,
    at: Position,
    hidden: &[bool],
    cells: &mut FilledCells,
    links: &mut FilledLinks,
) -> Result<(), EditError>
    requires range { IsRange fill.now.range }
    requires place { IsPlace at }
    requires held { IsTrue (holds fill.now.range.target at) }
    requires progression { progression.now ≡ progression_on A.along fill.now.range fill.now.locale fill.now.language fill.now.sheet.now at }
    requires hidden { hidden.now ≡ covered_among A.along fill.now.range fill.now.sheet.now at (lines A.along fill.now.range.source) }
    requires canonical { CanonicalFill cells.old }
    ensures cells { OnOk result (cells.new ≡ targets_put
        (place_filled A.along fill.now.range fill.now.locale fill.now.language fill.now.sheet.now) A.along fill.now.range cells.old at
        (lines A.along fill.now.range.target)) }
    ensures links { OnOk result (links.new ≡ targets_put
        (place_linked A.along fill.now.range fill.now.sheet.now) A.along fill.now.range links.old at (lines A.along fill.now.range.target)) }
    ensures canonical { OnOk result (CanonicalFill cells.new) }
    ensures only { IsOkUnless result NoMemory }
{
    let mut number = 0;
    for index in 0..lines::<A>(fill.range.target) {
        let is_covered = repeats_covered::<A>(fill, at, hidden, index);
        let cell = cell_with::<A>(fill, progression, at, index, is_covered, number)?;
        put_target::<A>(fill, at, index, cell, cells, links)?;
        number = counted(is_covered, number);
    }
    Ok(())
}

/// Plans the targets of a cross line: what the progression of its source gives, if it has one.
fn put_line<A: Axis>(
    fill: &Fill<'_>,
    at: Position,
    cells: &mut FilledCells,
    links: &mut FilledLinks,
) -> Result<(), EditError>
    requires range { IsRange fill.now.range }
    requires place { IsPlace at }
    requires held { IsTrue (holds fill.now.range.target at) }
    requires canonical { CanonicalFill cells.old }
    ensures cells { OnOk result (cells.new ≡ targets_put
        (place_filled A.along fill.now.range fill.now.locale fill.now.language fill.now.sheet.now) A.along fill.now.range cells.old at
        (lines A.along fill.now.range.target)) }
    ensures links { OnOk result (links.new ≡ targets_put
        (place_linked A.along fill.now.range fill.now.sheet.now) A.along fill.now.range links.old at (lines A.along fill.now.range.target)) }
    ensures canonical { OnOk result (CanonicalFill cells.new) }
    ensures only { IsOkUnless result NoMemory }
{
    let progression = progression_on::<A>(fill, at)?;
    let hidden = covered_places::<A>(fill, at)?;
    put_targets::<A>(fill, &progression, at, &hidden, cells, links)
}

/// Plans the targets of all cross lines.
#[tactic(auto, using(crate::specs::laws::LineCounts::cross_held))]
fn put_lines<A: Axis>(
    fill: &Fill<'_>,
    cells: &mut FilledCells,
    links: &mut FilledLinks,
) -> Result<(), EditError>
    requires range { IsRange fill.now.range }
    requires cells { cells.old ≡ fin.empty }
    requires links { links.old ≡ fin.empty }
    requires canonical { CanonicalFill cells.old }
    ensures cells { OnOk result (cells.new ≡ across_put
        (place_filled A.along fill.now.range fill.now.locale fill.now.language fill.now.sheet.now) A.along fill.now.range
        (count_across A.along fill.now.range.target)) }
    ensures links { OnOk result (links.new ≡ across_put (place_linked A.along fill.now.range fill.now.sheet.now) A.along fill.now.range
        (count_across A.along fill.now.range.target)) }
    ensures canonical { OnOk result (CanonicalFill cells.new) }
    ensures only { IsOkUnless result NoMemory }
{
    let first = fill.range.target.first_line::<A>();
    for index in 0..count_across::<A>(fill.range.target) {
        let at = place_across::<A>(fill.range.target, first, index);
        put_line::<A>(fill, at, cells, links)?;
    }
    Ok(())
}

/// Plans what a fill puts at each place of its target, in empty plans. `NoMemory` alone is an error.
#[tactic(auto, using(crate::specs::laws::FillWalkLaws::cells_walked, crate::specs::laws::FillWalkLaws::links_walked))]
pub fn fill_places<A: Axis>(
    fill: &Fill<'_>,
    cells: &mut FilledCells,
    links: &mut FilledLinks,
) -> Result<(), EditError>
    requires range { IsRange fill.now.range }
    requires cells { cells.old ≡ fin.empty }
    requires links { links.old ≡ fin.empty }
    ensures cells { OnOk result (cells.new ≡ cells_filled A.along fill.now.range fill.now.locale fill.now.language fill.now.sheet.now) }
    ensures links { OnOk result (links.new ≡ links_filled A.along fill.now.range fill.now.sheet.now) }
    ensures canonical { OnOk result (CanonicalFill cells.new) }
    ensures only { IsOkUnless result NoMemory }
{
    put_lines::<A>(fill, cells, links)
}
