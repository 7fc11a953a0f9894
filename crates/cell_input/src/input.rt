ghost use Rattle.std.specs.Prelude.{◌≡◌, true, IfOk, IfSome, IsOkUnless};
ghost use Rattle.base_values.specs.declared.error.EditError.TheVariants.{NoMemory};
ghost use Rattle.base_values.specs.declared.Position.{Position as AnyPosition};
ghost use Rattle.base_values.specs.Places.{IsPlace};
ghost use Rattle.formula_tree.specs.Context.{context_place};
ghost use Rattle.cell_content.specs.CanonicalContent.{IsCanonicalContent};
ghost use Rattle.cell_content.specs.Fitting.{fits_at};
ghost use Rattle.cell_content.specs.declared.Content.TheVariants.{Text as TextContent, Formula as FormulaContent};
ghost use Rattle.formula_read.specs.Formula.{formula_of, profile_of};
ghost use Rattle.cell_input.specs.Inputs.{value_of_text, input_of};

use base_decimal::Decimal;
use base_shared::Shared;
use base_tables::{Language, Locale, read_boolean, read_error};
use base_values::{EditError, Text};
use cell_content::Content;
use formula_read::read_formula;
use formula_tree::CellReferenceRC;
use std::alloc::Global;

/// The boolean, error or number that a text is read as. It takes no memory.
#[tactic(auto, unfolding(crate::specs::Inputs::value_of_text))]
fn read_value(text: &str, locale: Locale, language: Language) -> Option<Content>
    ensures value { result ≡ value_of_text locale language text.now }
    ensures canonical { IfSome result IsCanonicalContent }
    ensures fits { (place : AnyPosition) → IfSome result (λ content. fits_at place content ≡ true) }
{
    if let Some(value) = read_boolean(text, language) {
        return Some(Content::Boolean(value));
    }
    if let Some(error) = read_error(text, language) {
        return Some(Content::Error(error));
    }
    Decimal::read(text, locale).map(Content::Number)
}

fn text_content(alloc: Global, text: &str) -> Result<Content, EditError>
    ensures value { IfOk result (λ content. content ≡ TextContent text.now) }
    ensures memory { IsOkUnless result NoMemory }
{
    Ok(Content::Text(Text::new(String::from_str(alloc, text)?)))
}

/// The formula whose text, without its equals sign, is given.
#[tactic(auto, unfolding(cell_content::specs::Fitting::tree_fits_at, formula_tree::specs::Depth::is_within))]
fn cell_content(
    alloc: Global,
    text: &str,
    context: &CellReferenceRC,
    locale: Locale,
    language: Language,
) -> Result<Content, EditError>
    requires place { IsPlace (context_place context.now) }
    ensures value { IfOk result (λ content. content ≡ FormulaContent (formula_of (profile_of context.now locale language) text.now)) }
    ensures canonical { IfOk result IsCanonicalContent }
    ensures fits { IfOk result (λ content. fits_at (context_place context.now) content ≡ true) }
    ensures memory { IsOkUnless result NoMemory }
{
    let tree = read_formula(alloc, text, context, locale, language)?;
    Ok(Content::Formula(Shared::new(alloc, tree)?))
}

/// The content that a text is read as in a cell inside the sheet: nothing where it is empty; what
/// follows a leading apostrophe as a text; what follows a leading equals sign as a formula, which is
/// a parse-error node where the text is none; a boolean word of the language, with A to Z of either
/// case; an error text; a number, maybe after a minus; and anything else as a text.
///
/// `NoMemory` is the only error. docs/SCRIPT.md has the rules.
pub fn read_input(
    alloc: Global,
    text: &str,
    context: &CellReferenceRC,
    locale: Locale,
    language: Language,
) -> Result<Content, EditError>
    requires place { IsPlace (context_place context.now) }
    ensures value { IfOk result (λ content. content ≡ input_of (profile_of context.now locale language) text.now) }
    ensures canonical { IfOk result IsCanonicalContent }
    ensures fits { IfOk result (λ content. fits_at (context_place context.now) content ≡ true) }
    ensures memory { IsOkUnless result NoMemory }
{
    if text.is_empty() {
        return Ok(Content::Empty);
    }
    if let Some(rest) = text.strip_prefix("'") {
        return text_content(alloc, rest);
    }
    if let Some(rest) = text.strip_prefix("=") {
        return cell_content(alloc, rest, context, locale, language);
    }
    match read_value(text, locale, language) {
        Some(value) => Ok(value),
        None => text_content(alloc, text),
    }
}
