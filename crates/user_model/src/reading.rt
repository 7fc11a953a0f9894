ghost use Rattle.std.specs.Prelude.{◌≡◌, ◌≢◌, true, string_bytes, Err, IfOk, IsOkUnless};
ghost use Rattle.base_values.specs.Answers.{Returns, map_ok};
ghost use Rattle.base_values.specs.Places.{IsPlace};
ghost use Rattle.base_values.specs.declared.EditError.TheVariants.{NoMemory};
ghost use Rattle.base_axis.specs.Rectangles.{anchor_place};
ghost use Rattle.formula_read.specs.Formula.{formula_of, without_equals};
ghost use Rattle.formula_tree.specs.Context.{context_place};
ghost use Rattle.formula_tree.specs.Numbers.{has_canonical_numbers};
ghost use Rattle.cell_content.specs.Fitting.{fits_at, tree_fits_at};
ghost use Rattle.cell_content.specs.CanonicalContent.{IsCanonicalContent};
ghost use Rattle.cell_input.specs.Inputs.{input_of};
ghost use Rattle.user_model.specs.Places.{array_goes, input_goes, link_goes, rule_goes};
ghost use Rattle.user_model.specs.Reading.{content_text, link_to, profile_at, rectangle, rectangle_of};

use base_axis::{Area, MergedCell};
use base_shared::Shared;
use base_tables::{Language, Locale};
use base_values::{EditError, Position, Text, place_of};
use cell_input::{print_content, read_input};
use edit_plans::{free_area, free_place};
use formula_read::{read_formula, without_equals};
use formula_tree::{CellReferenceRC, Node};
use sheet_grid::{Content, Link, Workbook};
use std::alloc::Global;

/// The place at a row and a column of the sheet at an index, where an input may go. It takes no
/// memory.
pub(crate) fn find_input_place(
    workbook: &Workbook,
    sheet: u32,
    row: i32,
    column: i32,
) -> Result<Position, EditError>
    ensures found { result ≡ input_goes sheet row column workbook.now }
    ensures inside { IfOk result IsPlace }
    ensures here { IfOk result (λ place. place ≡ record { row = row; column = column }) }
    ensures sure { result ≢ Err NoMemory }
{
    let found = workbook.worksheet(sheet)?;
    let place = place_of(row, column)?;
    free_place(found, place)
}

/// The place at a row and a column of the sheet at an index. It takes no memory.
pub(crate) fn find_place(
    workbook: &Workbook,
    sheet: u32,
    row: i32,
    column: i32,
) -> Result<Position, EditError>
    ensures found { result ≡ link_goes sheet row column workbook.now }
    ensures sure { result ≢ Err NoMemory }
{
    let _found = workbook.worksheet(sheet)?;
    place_of(row, column)
}

/// The cell at a place, as formulas are read and printed in it.
pub(crate) fn context_at(alloc: Global, place: Position) -> CellReferenceRC
    ensures { context_place result ≡ place }
{
    CellReferenceRC {
        sheet: Text::new(String::new(alloc)),
        row: place.row,
        column: place.column,
    }
}

/// The text that the cell at a row and a column of the sheet at an index shows for editing.
pub(crate) fn content_text(
    alloc: Global,
    workbook: &Workbook,
    language: Language,
    sheet: u32,
    row: i32,
    column: i32,
) -> Result<String, EditError>
    ensures { Returns (map_ok string_bytes result) (content_text sheet row column workbook.now language) }
{
    let found = workbook.worksheet(sheet)?;
    let cell = found.shared_cell(row, column)?;
    let context = context_at(alloc, Position { row, column });
    match cell {
        Some(cell) => print_content(
            alloc,
            &cell.get().content,
            &context,
            workbook.locale(),
            language,
        ),
        None => Ok(String::new(alloc)),
    }
}

/// The content that a text is read as in the cell at a place inside the sheet. `NoMemory` alone is
/// an error.
pub(crate) fn read_at(
    alloc: Global,
    place: Position,
    text: &str,
    locale: Locale,
    language: Language,
) -> Result<Content, EditError>
    requires place { IsPlace place }
    ensures value { IfOk result (λ content. content ≡ input_of (profile_at place locale language) text.now) }
    ensures canonical { IfOk result IsCanonicalContent }
    ensures fits { IfOk result (λ content. fits_at place content ≡ true) }
    ensures memory { IsOkUnless result NoMemory }
{
    read_input(alloc, text, &context_at(alloc, place), locale, language)
}

/// The rectangle of an area, whatever its sheet.
pub(crate) fn rectangle_of(area: &Area) -> MergedCell
    ensures { result ≡ rectangle_of area.now }
{
    MergedCell {
        row: area.row,
        column: area.column,
        width: area.width,
        height: area.height,
    }
}

/// A link to a target.
pub(crate) fn link_to(alloc: Global, target: &str) -> Result<Link, EditError>
    ensures output { IfOk result (λ link. link ≡ link_to target.now) }
    ensures only { IsOkUnless result NoMemory }
{
    Ok(Link {
        target: Text::new(String::from_str(alloc, target)?),
    })
}

/// The rectangle of a first row and column, a width and a height.
pub(crate) fn rectangle(row: i32, column: i32, width: i32, height: i32) -> MergedCell
    ensures { result ≡ rectangle row column width height }
{
    MergedCell {
        row,
        column,
        width,
        height,
    }
}

/// The first place of a rectangle of the sheet at an index where an array may go. It takes no memory.
pub(crate) fn find_array_place(
    workbook: &Workbook,
    sheet: u32,
    area: MergedCell,
) -> Result<Position, EditError>
    ensures found { map_ok (λ _. area) result ≡ array_goes sheet area workbook.now }
    ensures inside { IfOk result IsPlace }
    ensures here { IfOk result (λ place. place ≡ anchor_place area) }
    ensures sure { result ≢ Err NoMemory }
{
    let found = workbook.worksheet(sheet)?;
    let place = place_of(area.row, area.column)?;
    free_area(found, area)?;
    Ok(place)
}

/// The first place of a rectangle of the sheet at an index, where the formulas of a conditional rule stand
/// whose first part that is. It takes no memory.
pub(crate) fn find_rule_place(
    workbook: &Workbook,
    sheet: u32,
    area: MergedCell,
) -> Result<Position, EditError>
    ensures found { result ≡ rule_goes sheet area workbook.now }
    ensures inside { IfOk result IsPlace }
    ensures sure { result ≢ Err NoMemory }
{
    let _found = workbook.worksheet(sheet)?;
    if area.is_inside() {
        Ok(area.anchor_place())
    } else {
        Err(EditError::InvalidArea)
    }
}

/// The formula that a text is read as in the cell at a place inside the sheet. `NoMemory` alone is an
/// error.
#[tactic(auto, unfolding(cell_content::specs::Fitting::tree_fits_at, formula_tree::specs::Depth::is_within))]
pub(crate) fn read_tree_at(
    alloc: Global,
    place: Position,
    text: &str,
    locale: Locale,
    language: Language,
) -> Result<Shared<Node>, EditError>
    requires place { IsPlace place }
    ensures value { IfOk result (λ tree. tree ≡ formula_of (profile_at place locale language) (without_equals text.now)) }
    ensures canonical { IfOk result (λ tree. has_canonical_numbers tree ≡ true) }
    ensures fits { IfOk result (λ tree. tree_fits_at place tree ≡ true) }
    ensures memory { IsOkUnless result NoMemory }
{
    let context = context_at(alloc, place);
    let tree = read_formula(alloc, without_equals(text), &context, locale, language)?;
    Ok(Shared::new(alloc, tree)?)
}
