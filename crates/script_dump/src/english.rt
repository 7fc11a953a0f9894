//! Contents in English, as a script reads and prints them.

ghost use Rattle.std.specs.Prelude.{◌≡◌, ◌++◌, true, IfOk, OnOk, IsOkUnless};
ghost use Rattle.base_values.specs.Places.{IsPlace};
ghost use Rattle.base_values.specs.declared.error.EditError.TheVariants.{NoMemory};
ghost use Rattle.formula_tree.specs.Context.{context_place};
ghost use Rattle.formula_tree.specs.Numbers.{has_canonical_numbers};
ghost use Rattle.cell_content.specs.Fitting.{fits_at, tree_fits_at};
ghost use Rattle.cell_content.specs.CanonicalContent.{IsCanonicalContent};
ghost use Rattle.cell_input.specs.Inputs.{input_of, input_text};
ghost use Rattle.script_lines.specs.Escapes.{escaped};
ghost use Rattle.script_dump.specs.English.{english, english_tree};

use base_tables::{Language, Locale};
use base_values::{EditError, Position, Text};
use cell_input::{push_content, read_input};
use formula_read::{read_formula, without_equals};
use formula_tree::{CellReferenceRC, Node};
use script_lines::push_escaped;
use sheet_grid::Content;
use std::alloc::Global;

/// The cell at a place, as formulas are read and printed in it.
fn cell_at(alloc: Global, place: Position) -> CellReferenceRC
    ensures { context_place result ≡ place }
{
    CellReferenceRC {
        sheet: Text::new(String::new(alloc)),
        row: place.row,
        column: place.column,
    }
}

/// Writes the text of the content of the cell at a place, in English and escaped, at the end. It is
/// first made in `scratch`, whose room serves again and whose text is lost.
///
/// `NoMemory` alone is an error. A front of the text may then have been written.
pub fn push_english(
    out: &mut Vec<u8>,
    scratch: &mut String,
    place: Position,
    content: &Content,
) -> Result<(), EditError>
    ensures text { OnOk result (out.new.items ≡ out.old.items ++ escaped (input_text (english place) content.now)) }
    ensures memory { IsOkUnless result NoMemory }
{
    let context = cell_at(*scratch.allocator(), place);
    scratch.clear();
    push_content(scratch, content, &context, Locale::En, Language::En)?;
    push_escaped(out, scratch.as_bytes())?;
    Ok(())
}

/// The content that an English text is read as in the cell at a place inside the sheet.
///
/// `NoMemory` alone is an error.
pub fn english_input(alloc: Global, place: Position, text: &str) -> Result<Content, EditError>
    requires place { IsPlace place }
    ensures value { IfOk result (λ content. content ≡ input_of (english place) text.now) }
    ensures canonical { IfOk result IsCanonicalContent }
    ensures fits { IfOk result (λ content. fits_at place content ≡ true) }
    ensures memory { IsOkUnless result NoMemory }
{
    read_input(
        alloc,
        text,
        &cell_at(alloc, place),
        Locale::En,
        Language::En,
    )
}

/// The tree of an English formula's text in the cell at a place inside the sheet. An equals sign may
/// lead the text. A text that is no formula is a parse-error node of what stands behind that sign.
///
/// `NoMemory` alone is an error.
#[tactic(auto, unfolding(cell_content::specs::Fitting::tree_fits_at, formula_tree::specs::Depth::is_within))]
pub fn english_formula(alloc: Global, place: Position, text: &str) -> Result<Node, EditError>
    requires place { IsPlace place }
    ensures value { IfOk result (λ tree. tree ≡ english_tree place text.now) }
    ensures canonical { IfOk result (λ tree. has_canonical_numbers tree ≡ true) }
    ensures fits { IfOk result (λ tree. tree_fits_at place tree ≡ true) }
    ensures memory { IsOkUnless result NoMemory }
{
    read_formula(
        alloc,
        without_equals(text),
        &cell_at(alloc, place),
        Locale::En,
        Language::En,
    )
}
