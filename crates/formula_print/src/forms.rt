ghost use Rattle.std.specs.Prelude.{◌≡◌, ◌++◌, IfOk, OnOk, IsOkUnless, string_bytes};
ghost use Rattle.base_values.specs.declared.EditError.TheVariants.{NoMemory};
ghost use Rattle.formula_print.specs.Forms.{localized_style, row_column_style, excel_style, excel_text, localized_text, english_text, row_column_text};
ghost use Rattle.formula_print.specs.Print.{text_of};
ghost use Rattle.formula_tree.specs.Context.{context_place};

use crate::print::print_node;
use crate::scope::Scope;
use crate::store::stored;
use crate::style::{Corners, Dialect, Style};
use base_tables::{Language, Locale};
use base_values::EditError;
use formula_tree::{CellReferenceRC, Node};
use std::alloc::{AllocError, Global};

fn localized_style(context: &CellReferenceRC, locale: Locale, language: Language) -> Style
    ensures { result ≡ localized_style (context_place context.now) locale language }
{
    Style {
        corners: Corners::Letters(context.place()),
        locale,
        language,
        dialect: Dialect::Plain,
    }
}

fn row_column_style() -> Style
    ensures { result ≡ row_column_style }
{
    Style {
        corners: Corners::Numbers,
        locale: Locale::En,
        language: Language::En,
        dialect: Dialect::Plain,
    }
}

fn text_in(alloc: Global, style: Style, node: &Node) -> Result<String, AllocError>
    ensures { IfOk result (λ text. string_bytes text ≡ text_of style node.now) }
{
    let mut text = String::new(alloc);
    print_node(style, node, &mut text)?;
    Ok(text)
}

/// Writes the text of a formula that stands in the cell `context` at the end, in a locale's signs and
/// a language's words.
///
/// No blanks are printed, and parentheses only where an operand needs them. A reference that lies
/// outside the sheet is `#REF!`, and a range that does so in part is `:` of what is left. Errors are
/// printed in English. `NoMemory` is the only error. A front of the text may then have been written.
#[tactic(auto, unfolding(crate::specs::Forms::localized_text))]
pub fn push_localized_string(
    out: &mut String,
    node: &Node,
    context: &CellReferenceRC,
    locale: Locale,
    language: Language,
) -> Result<(), EditError>
    ensures text { OnOk result (string_bytes out.new ≡ string_bytes out.old ++ localized_text (context_place context.now) locale language node.now) }
    ensures only { IsOkUnless result NoMemory }
{
    Ok(print_node(localized_style(context, locale, language), node, out)?)
}

/// The text that `push_localized_string` writes.
///
/// `NoMemory` is the only error.
pub fn to_localized_string(
    alloc: Global,
    node: &Node,
    context: &CellReferenceRC,
    locale: Locale,
    language: Language,
) -> Result<String, EditError>
    ensures text { IfOk result (λ text. string_bytes text ≡ localized_text (context_place context.now) locale language node.now) }
    ensures only { IsOkUnless result NoMemory }
{
    let mut text = String::new(alloc);
    push_localized_string(&mut text, node, context, locale, language)?;
    Ok(text)
}

/// The text of a formula that stands in the cell `context`, with English words and signs.
///
/// `NoMemory` is the only error.
#[tactic(auto, unfolding(crate::specs::Forms::english_text))]
pub fn to_english_string(
    alloc: Global,
    node: &Node,
    context: &CellReferenceRC,
) -> Result<String, EditError>
    ensures text { IfOk result (λ text. string_bytes text ≡ english_text (context_place context.now) node.now) }
    ensures only { IsOkUnless result NoMemory }
{
    Ok(text_in(
        alloc,
        localized_style(context, Locale::En, Language::En),
        node,
    )?)
}

/// The text of a formula with its corners by numbers, as `R3C4`, and in brackets how far a relative
/// one lies from the formula's cell, as `R[2]C[0]`. Words and signs are English, and no range is
/// shortened.
///
/// `NoMemory` is the only error.
#[tactic(auto, unfolding(crate::specs::Forms::row_column_text))]
pub fn to_rc_format(alloc: Global, node: &Node) -> Result<String, EditError>
    ensures text { IfOk result (λ text. string_bytes text ≡ row_column_text node.now) }
    ensures only { IsOkUnless result NoMemory }
{
    Ok(text_in(alloc, row_column_style(), node)?)
}

/// As in English, with what older programs don't know as calls of `_xlfn.` functions.
fn excel_style(context: &CellReferenceRC) -> Style
    ensures { result ≡ excel_style (context_place context.now) }
{
    Style {
        corners: Corners::Letters(context.place()),
        locale: Locale::En,
        language: Language::En,
        dialect: Dialect::Excel,
    }
}

#[tactic(auto, unfolding(crate::specs::Forms::excel_text))]
fn excel_text(alloc: Global, node: &Node, context: &CellReferenceRC) -> Result<String, AllocError>
    ensures { IfOk result (λ text. string_bytes text ≡ excel_text (context_place context.now) node.now) }
{
    let mut scope = Scope::outermost(alloc);
    let tree = stored(node, &mut scope)?;
    text_in(alloc, excel_style(context), &tree)
}

/// The text of a formula that stands in the cell `context`, as a file of Excel stores it: English
/// words and signs, `_xlfn.` before `LET` and `LAMBDA`, `_xlfn.ANCHORARRAY(x)` for `x#`,
/// `_xlfn.SINGLE(x)` for `@x`, and `_xlpm.` before the names that `LET` and `LAMBDA` bind, or
/// `_xlop.` where an optional parameter is declared.
///
/// `NoMemory` is the only error.
pub fn to_excel_string(
    alloc: Global,
    node: &Node,
    context: &CellReferenceRC,
) -> Result<String, EditError>
    ensures text { IfOk result (λ text. string_bytes text ≡ excel_text (context_place context.now) node.now) }
    ensures only { IsOkUnless result NoMemory }
{
    Ok(excel_text(alloc, node, context)?)
}

/// The same text, of a formula that was entered as an array.
///
/// `NoMemory` is the only error.
pub fn to_excel_array_formula_string(
    alloc: Global,
    node: &Node,
    context: &CellReferenceRC,
) -> Result<String, EditError>
    ensures text { IfOk result (λ text. string_bytes text ≡ excel_text (context_place context.now) node.now) }
    ensures only { IsOkUnless result NoMemory }
{
    Ok(excel_text(alloc, node, context)?)
}
