ghost use Rattle.std.specs.Prelude.{◌≡◌, ◌∷◌, ◌++◌, IfOk, OnOk, IsOkUnless, is_some};
ghost use Rattle.std.specs.String.{string_bytes};
ghost use Rattle.base_values.specs.declared.error.EditError.TheVariants.{NoMemory};
ghost use Rattle.formula_read.specs.Formula.{profile_of};
ghost use Rattle.cell_input.specs.Inputs.{value_of_text, has_lead, reads_as_text, marked_text, formula_text, value_text, input_text, IsReadAgain};

use base_decimal::Decimal;
use base_tables::{Language, Locale, read_boolean, read_error};
use base_values::EditError;
use cell_content::{Content, tree_of};
use formula_print::{push_localized_string, push_number};
use formula_tree::{CellReferenceRC, Node};
use std::alloc::{AllocError, Global};

/// Whether the text is a boolean, an error or a number. It takes no memory.
#[tactic(auto, using(crate::proofs::Texts::some_value))]
fn is_value(text: &str, locale: Locale, language: Language) -> bool
    ensures { result ≡ is_some (value_of_text locale language text.now) }
{
    read_boolean(text, language).is_some()
        || read_error(text, language).is_some()
        || Decimal::read(text, locale).is_some()
}

/// Whether the text begins with a sign that leads a text or a formula.
fn has_lead(text: &str) -> bool
    ensures { result ≡ has_lead text.now }
{
    let first = text.as_bytes().first();
    first == Some(&b'\'') || first == Some(&b'=')
}

/// Whether the text is read as itself. It takes no memory.
#[tactic(auto, using(crate::proofs::Texts::marked_reads, crate::proofs::Texts::plain_reads))]
fn reads_as_text(text: &str, context: &CellReferenceRC, locale: Locale, language: Language) -> bool
    ensures { result ≡ reads_as_text (profile_of context.now locale language) text.now }
{
    if text.is_empty() || has_lead(text) {
        return false;
    }
    !is_value(text, locale, language)
}

/// Writes a text as it is printed at the end: with an apostrophe where it would be read as anything
/// else.
fn push_text(
    out: &mut String,
    text: &str,
    context: &CellReferenceRC,
    locale: Locale,
    language: Language,
) -> Result<(), AllocError>
    ensures { OnOk result (string_bytes out.new ≡ string_bytes out.old ++ marked_text (profile_of context.now locale language) text.now) }
{
    if !reads_as_text(text, context, locale, language) {
        out.push_str("'")?;
    }
    out.push_str(text)
}

/// Writes a formula's text behind an equals sign at the end.
fn push_formula(
    out: &mut String,
    tree: &Node,
    context: &CellReferenceRC,
    locale: Locale,
    language: Language,
) -> Result<(), EditError>
    ensures value { OnOk result (string_bytes out.new ≡ string_bytes out.old ++ formula_text (profile_of context.now locale language) tree.now) }
    ensures memory { IsOkUnless result NoMemory }
{
    out.push_str("=")?;
    push_localized_string(out, tree, context, locale, language)
}

/// Writes the text of a content without a formula at the end: of an empty one nothing.
fn push_value(
    out: &mut String,
    content: &Content,
    context: &CellReferenceRC,
    locale: Locale,
    language: Language,
) -> Result<(), AllocError>
    ensures { OnOk result (string_bytes out.new ≡ string_bytes out.old ++ value_text (profile_of context.now locale language) content.now) }
{
    match content {
        Content::Number(number) => push_number(out, number, locale),
        Content::Boolean(value) => out.push_str(language.boolean(*value)),
        Content::Error(error) => out.push_str(error.text()),
        Content::Text(text) => push_text(out, text.as_str(), context, locale, language),
        _ => Ok(()),
    }
}

/// Writes the text of the content of a cell at the end: nothing where it is empty, a number in plain
/// digits, a boolean's word in the language, the English text of an error, a text as it is, and a
/// formula behind an equals sign. An apostrophe leads a text that would be read as anything else.
///
/// `NoMemory` is the only error. A front of the text may then have been written. docs/SCRIPT.md has
/// the rules.
pub fn push_content(
    out: &mut String,
    content: &Content,
    context: &CellReferenceRC,
    locale: Locale,
    language: Language,
) -> Result<(), EditError>
    ensures value { OnOk result (string_bytes out.new ≡ string_bytes out.old ++ input_text (profile_of context.now locale language) content.now) }
    ensures memory { IsOkUnless result NoMemory }
{
    match tree_of(content) {
        Some(tree) => push_formula(out, tree.get(), context, locale, language),
        None => Ok(push_value(out, content, context, locale, language)?),
    }
}

/// The text that `push_content` writes.
///
/// `NoMemory` is the only error.
pub fn print_content(
    alloc: Global,
    content: &Content,
    context: &CellReferenceRC,
    locale: Locale,
    language: Language,
) -> Result<String, EditError>
    ensures value { IfOk result (λ text. string_bytes text ≡ input_text (profile_of context.now locale language) content.now) }
    ensures memory { IsOkUnless result NoMemory }
{
    let mut text = String::new(alloc);
    push_content(&mut text, content, context, locale, language)?;
    Ok(text)
}

/// The law of contents: what is printed of a content without a formula is read as that content, at
/// any place, in any locale and language. A number is canonical.
pub fn contents_read_again()
    ensures { IsReadAgain }
{}
