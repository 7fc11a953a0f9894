ghost use Rattle.std.specs.Prelude.{◌≡◌, ◌≤◌, true, false, Some, IfOk, IfSome, IsOkUnless, List, ℕ};
ghost use Rattle.base_values.specs.Places.{IsPlace};
ghost use Rattle.base_values.specs.declared.EditError.TheVariants.{NoMemory};
ghost use Rattle.formula_tree.specs.declared.Node.{Node as Tree};
ghost use Rattle.formula_tree.specs.declared.Node.TheVariants.{ParseError};
ghost use Rattle.formula_tree.specs.Depth.{depth_of};
ghost use Rattle.formula_tree.specs.Numbers.{has_canonical_numbers, has_no_negative_number};
ghost use Rattle.formula_tree.specs.ParseError.{is_parse_error};
ghost use Rattle.formula_tree.specs.Placed.{is_placed};
ghost use Rattle.formula_grammar.specs.declared.Profile.{Profile as AnyProfile};
ghost use Rattle.formula_tree.specs.Context.{context_place};
ghost use Rattle.formula_read.specs.Formula.{IsFormula, IsRead, found_tree, formula_of, profile_of, without_equals};

use crate::{lex_text, text_spells_one_list};
use base_tables::{Language, Locale};
use base_values::{EditError, Text};
use formula_grammar::{Profile, read_tokens, tokens_derive_one_tree};
use formula_tree::{CellReferenceRC, Node};
use std::alloc::Global;

/// A formula's text without an equals sign that leads it.
pub fn without_equals(text: &str) -> &str
    ensures { result.now ≡ without_equals text.now }
{
    match text.strip_prefix("=") {
        Some(rest) => rest,
        None => text,
    }
}

/// The tree of a formula's text, if it is one.
fn tree_of(alloc: Global, text: &str, profile: Profile) -> Result<Option<Node>, EditError>
    requires place { IsPlace profile.place }
    ensures value { IfOk result (λ o. o ≡ found_tree profile text.now) }
    ensures found { IfOk result (λ o. IfSome o (λ tree. IsFormula profile text.now tree)) }
    ensures only { IfOk result (λ o. (tree : Tree) → IsFormula profile text.now tree → o ≡ Some tree) }
    ensures formula { IfOk result (λ o. IfSome o (λ tree. is_parse_error tree ≡ false)) }
    ensures placed { IfOk result (λ o. IfSome o (λ tree. is_placed profile.place tree ≡ true)) }
    ensures shallow { IfOk result (λ o. IfSome o (λ tree. depth_of tree ≤ 64)) }
    ensures canonical { IfOk result (λ o. IfSome o (λ tree. has_canonical_numbers tree ≡ true)) }
    ensures positive { IfOk result (λ o. IfSome o (λ tree. has_no_negative_number tree ≡ true)) }
    ensures memory { IsOkUnless result NoMemory }
{
    // For the proof alone: two laws.
    text_spells_one_list();
    tokens_derive_one_tree();
    match lex_text(alloc, text, profile)? {
        Some(tokens) => read_tokens(alloc, tokens.as_slice(), profile),
        None => Ok(None),
    }
}

/// The node of a text that is no formula.
fn parse_error(alloc: Global, text: &str) -> Result<Node, EditError>
    ensures node { IfOk result (λ tree. tree ≡ ParseError text.now) }
    ensures memory { IsOkUnless result NoMemory }
{
    Ok(Node::ParseError(Text::new(String::from_str(alloc, text)?)))
}

/// What a text is read as at a place.
#[tactic(auto, unfolding(crate::specs::Formula::formula_of))]
fn formula_in(alloc: Global, text: &str, profile: Profile) -> Result<Node, EditError>
    requires place { IsPlace profile.place }
    ensures value { IfOk result (λ tree. tree ≡ formula_of profile text.now) }
    ensures found { IfOk result (λ tree. is_parse_error tree ≡ false → IsFormula profile text.now tree) }
    ensures only { IfOk result (λ tree. (other : Tree) → IsFormula profile text.now other → tree ≡ other) }
    ensures outside { IfOk result (λ tree. is_parse_error tree ≡ true → tree ≡ ParseError text.now) }
    ensures placed { IfOk result (λ tree. is_placed profile.place tree ≡ true) }
    ensures shallow { IfOk result (λ tree. depth_of tree ≤ 64) }
    ensures canonical { IfOk result (λ tree. has_canonical_numbers tree ≡ true) }
    ensures positive { IfOk result (λ tree. has_no_negative_number tree ≡ true) }
    ensures memory { IsOkUnless result NoMemory }
{
    match tree_of(alloc, text, profile)? {
        Some(tree) => Ok(tree),
        None => parse_error(alloc, text),
    }
}

/// What the reading of a formula in a cell depends on.
fn profile_of(context: &CellReferenceRC, locale: Locale, language: Language) -> Profile
    ensures { result ≡ profile_of context.now locale language }
{
    Profile {
        place: context.place(),
        locale,
        language,
    }
}

/// The tree of a formula's text without its `=`, in a cell inside the sheet, with the separators
/// and the decimal sign of the locale and with functions and booleans in the language. A text that
/// is no formula is a parse-error node of that text. docs/MODEL.md has the grammar.
///
/// `NoMemory` where memory runs out.
pub fn read_formula(
    alloc: Global,
    text: &str,
    context: &CellReferenceRC,
    locale: Locale,
    language: Language,
) -> Result<Node, EditError>
    requires place { IsPlace (context_place context.now) }
    ensures value { IfOk result (λ tree. tree ≡ formula_of (profile_of context.now locale language) text.now) }
    ensures found { IfOk result (λ tree. is_parse_error tree ≡ false → IsFormula (profile_of context.now locale language) text.now tree) }
    ensures only { IfOk result (λ tree. (other : Tree) → IsFormula (profile_of context.now locale language) text.now other → tree ≡ other) }
    ensures outside { IfOk result (λ tree. is_parse_error tree ≡ true → tree ≡ ParseError text.now) }
    ensures placed { IfOk result (λ tree. is_placed (context_place context.now) tree ≡ true) }
    ensures shallow { IfOk result (λ tree. depth_of tree ≤ 64) }
    ensures canonical { IfOk result (λ tree. has_canonical_numbers tree ≡ true) }
    ensures positive { IfOk result (λ tree. has_no_negative_number tree ≡ true) }
    ensures memory { IsOkUnless result NoMemory }
{
    formula_in(alloc, text, profile_of(context, locale, language))
}

/// A text is a formula with at most one tree, which is no parse-error node; and what `read_formula`
/// answers is that tree, or the node of a text that is no formula.
pub fn text_has_one_tree()
    ensures one { (profile : AnyProfile) (text : List ℕ) (a b : Tree) → IsFormula profile text a → IsFormula profile text b → a ≡ b }
    ensures formula { (profile : AnyProfile) (text : List ℕ) (tree : Tree) → IsFormula profile text tree → is_parse_error tree ≡ false }
    ensures read { (profile : AnyProfile) (text : List ℕ) → IsRead profile text (formula_of profile text) }
{
    // For the proof alone: two laws.
    text_spells_one_list();
    tokens_derive_one_tree();
}
