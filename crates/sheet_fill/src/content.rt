//! What becomes of a content that a fill takes to another place.

ghost use Rattle.std.specs.Prelude.{◌≡◌, ◌≤◌, pos, IfOk, IfSome, IsOkUnless, IsTrue, string_bytes};
ghost use Rattle.std.specs.Option.{option_copied};
ghost use Rattle.base_values.specs.declared.EditError.TheVariants.{NoMemory};
ghost use Rattle.base_values.specs.Places.{IsPlace};
ghost use Rattle.cell_content.specs.CanonicalContent.{IsCanonicalContent};
ghost use Rattle.cell_input.specs.Inputs.{input_of};
ghost use Rattle.formula_tree.specs.Context.{context_place};
ghost use Rattle.formula_tree.specs.Numbers.{has_canonical_numbers};
ghost use Rattle.formula_tree.specs.Rebase.{rebased};
ghost use Rattle.sheet_grid.specs.CanonicalCell.{IsCanonicalCell};
ghost use Rattle.sheet_progress.specs.Progressions.{next_text};
ghost use Rattle.sheet_fill.specs.Targets.{entry_text, filled, filled_entry, fitting, profile_at};

use base_shared::Shared;
use base_tables::{Language, Locale};
use base_values::{EditError, Position, Text, copy_of};
use cell_content::{Content, tree_of, with_tree};
use cell_input::{print_content, read_input};
use formula_tree::{CellReferenceRC, Node, rebase_node};
use sheet_grid::Cell;
use sheet_progress::Progression;
use std::alloc::Global;

/// The cell at a place, as formulas are read and printed in it.
fn context_at(alloc: Global, place: Position) -> CellReferenceRC
    ensures { context_place result ≡ place }
{
    CellReferenceRC {
        sheet: Text::new(String::new(alloc)),
        row: place.row,
        column: place.column,
    }
}

/// The text of a cell at a place, which is empty where there is none. `NoMemory` alone is an error.
pub fn entry_text(
    alloc: Global,
    entry: Option<&Shared<Cell>>,
    place: Position,
    locale: Locale,
    language: Language,
) -> Result<String, EditError>
    ensures text { IfOk result (λ text. string_bytes text ≡ entry_text (profile_at locale language place) (option_copied entry.entry)) }
    ensures only { IsOkUnless result NoMemory }
{
    match entry {
        Some(cell) => print_content(
            alloc,
            &cell.get().content,
            &context_at(alloc, place),
            locale,
            language,
        ),
        None => Ok(String::new(alloc)),
    }
}

fn rebased(alloc: Global, tree: &Node, place: Position) -> Result<Shared<Node>, EditError>
    requires { IsTrue (has_canonical_numbers tree.now) }
    ensures tree { IfOk result (λ output. output ≡ rebased place tree.now) }
    ensures canonical { IfOk result (λ output. IsTrue (has_canonical_numbers output)) }
    ensures only { IsOkUnless result NoMemory }
{
    Ok(Shared::new(alloc, rebase_node(alloc, tree, place)?)?)
}

/// What a content becomes at another place: a formula's relative corners move along, and an array
/// becomes a plain formula. `NoMemory` alone is an error.
fn filled(alloc: Global, content: &Content, place: Position) -> Result<Content, EditError>
    requires { IsCanonicalContent content.now }
    ensures content { IfOk result (λ output. output ≡ filled place content.now) }
    ensures canonical { IfOk result IsCanonicalContent }
    ensures only { IsOkUnless result NoMemory }
{
    let Some(tree) = tree_of(content) else {
        return copy_of(content);
    };
    let tree = rebased(alloc, tree.get(), place)?;
    match content {
        Content::Array { .. } => Ok(Content::Formula(tree)),
        _ => with_tree(content, tree),
    }
}

/// What becomes of a cell's content there. No cell gives no content. `NoMemory` alone is an error.
pub fn filled_entry(
    alloc: Global,
    entry: Option<&Shared<Cell>>,
    place: Position,
) -> Result<Content, EditError>
    requires { IfSome (option_copied entry) IsCanonicalCell }
    ensures content { IfOk result (λ output. output ≡ filled_entry place (option_copied entry.entry)) }
    ensures canonical { IfOk result IsCanonicalContent }
    ensures only { IsOkUnless result NoMemory }
{
    match entry {
        Some(cell) => filled(alloc, &cell.get().content, place),
        None => Ok(Content::Empty),
    }
}

/// The content that the text of a progression is read as at a place. `NoMemory` alone is an error.
pub fn continued(
    alloc: Global,
    progression: &Progression,
    number: u32,
    place: Position,
    locale: Locale,
    language: Language,
) -> Result<Content, EditError>
    requires number { number ≤ 1048575 }
    requires place { IsPlace place }
    ensures content { IfOk result (λ output. output ≡ fitting place (input_of (profile_at locale language place) (next_text progression.now (pos number)))) }
    ensures canonical { IfOk result IsCanonicalContent }
    ensures only { IsOkUnless result NoMemory }
{
    let text = progression.next(alloc, number as i32)?;
    read_input(
        alloc,
        text.as_str(),
        &context_at(alloc, place),
        locale,
        language,
    )
}
