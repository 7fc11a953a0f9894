ghost use Rattle.std.specs.Prelude.{◌≡◌, Some, IfOk, IfSome, IsOkUnless, List, ℕ};
ghost use Rattle.std.specs.Str.{chars};
ghost use Rattle.std.specs.Option.{option_map};
ghost use Rattle.base_values.specs.declared.EditError.TheVariants.{NoMemory};
ghost use Rattle.base_tables.specs.declared.Language.{Language as AnyLanguage};
ghost use Rattle.base_tables.specs.declared.Locale.{Locale as AnyLocale};
ghost use Rattle.formula_grammar.specs.declared.Token.{Token as AnyToken};
ghost use Rattle.formula_read.specs.Lexicon.{IsTokens};
ghost use Rattle.formula_read.specs.laws.Lex.{tokens_of, behind_blanks};
ghost use Rattle.formula_read.specs.laws.Outcome.{left};

use crate::characters::{Class, first, run};
use crate::front::token;
use base_values::EditError;
use formula_grammar::{Profile, Token};
use std::alloc::{AllocError, Global};

/// What stands behind the blanks at the front of the text, if anything does.
#[tactic(auto, unfolding(crate::specs::laws::Lex::behind_blanks))]
fn behind_blanks(text: &str) -> Option<&str>
    ensures { left result ≡ behind_blanks (chars text.now) }
{
    let (_, rest) = run(Class::Blank, text);
    first(rest)?;
    Some(rest)
}

#[tactic(auto, using(crate::proofs::Tokens::turns))]
fn tokens(alloc: Global, profile: Profile, text: &str) -> Result<Option<Vec<Token>>, AllocError>
    ensures { IfOk result (λ found. option_map (λ tokens. tokens.items) found ≡ tokens_of profile.locale profile.language (chars text.now)) }
{
    let mut tokens = Vec::new(alloc);
    let mut rest = text;
    while let Some(more) = behind_blanks(rest) {
        match token(alloc, profile, more) {
            Ok(Some((token, more))) => {
                tokens.push(token)?;
                rest = more;
            }
            Ok(None) => return Ok(None),
            Err(error) => return Err(error),
        }
    }
    Ok(Some(tokens))
}

/// The one list of tokens that a formula's text is, in the locale and language of the profile.
/// `None` where it is none. Blanks, which are spaces and line feeds, may stand before, between and
/// after tokens.
///
/// `NoMemory` where memory runs out.
#[tactic(auto, using(crate::proofs::Tokens::laws))]
pub fn lex_text(
    alloc: Global,
    text: &str,
    profile: Profile,
) -> Result<Option<Vec<Token>>, EditError>
    ensures found { IfOk result (λ o. IfSome o (λ tokens. IsTokens profile.locale profile.language (chars text.now) tokens.items)) }
    ensures only { IfOk result (λ o. (tokens : List AnyToken)
        → IsTokens profile.locale profile.language (chars text.now) tokens
        → option_map (λ found. found.items) o ≡ Some tokens) }
    ensures memory { IsOkUnless result NoMemory }
{
    Ok(tokens(alloc, profile, text)?)
}

/// A text is at most one list of tokens. The definition `tokens_of`, which computes, answers that list.
#[tactic(auto, using(crate::proofs::Tokens::laws))]
pub fn text_spells_one_list()
    ensures one { (locale : AnyLocale) (language : AnyLanguage) (text : List ℕ) (a b : List AnyToken)
        → IsTokens locale language text a → IsTokens locale language text b → a ≡ b }
    ensures read { (locale : AnyLocale) (language : AnyLanguage) (text : List ℕ) (tokens : List AnyToken)
        → tokens_of locale language text ≡ Some tokens → IsTokens locale language text tokens }
    ensures spelled { (locale : AnyLocale) (language : AnyLanguage) (text : List ℕ) (tokens : List AnyToken)
        → IsTokens locale language text tokens → tokens_of locale language text ≡ Some tokens }
{}
