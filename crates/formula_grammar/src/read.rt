ghost use Rattle.std.specs.Prelude.{◌≡◌, ◌≤◌, true, false, Some, IfOk, IfSome, IsOkUnless, List};
ghost use Rattle.base_values.specs.Places.{IsPlace};
ghost use Rattle.base_values.specs.declared.error.EditError.TheVariants.{NoMemory};
ghost use Rattle.formula_tree.specs.declared.node.Node.{Node as Tree};
ghost use Rattle.formula_tree.specs.declared.numbers.NumberRule.{NumberRule};
ghost use Rattle.formula_tree.specs.Depth.{depth_of};
ghost use Rattle.formula_tree.specs.Numbers.{numbers_follow};
ghost use Rattle.formula_tree.specs.ParseError.{is_parse_error};
ghost use Rattle.formula_tree.specs.Placed.{is_placed};
ghost use Rattle.formula_grammar.specs.declared.profile.Profile.{Profile as AnyProfile};
ghost use Rattle.formula_grammar.specs.declared.token.Token.{Token as AnyToken};
ghost use Rattle.formula_grammar.specs.Grammar.{Derives};
ghost use Rattle.formula_grammar.specs.Numbers.{tokens_follow};
ghost use Rattle.formula_grammar.specs.laws.Reading as spec;

use crate::cursor::Cursor;
use crate::fault::Fault;
use crate::profile::Profile;
use crate::rules::whole;
use crate::token::Token;
use base_values::EditError;
use formula_tree::Node;
use std::alloc::Global;

/// How many parentheses that are no call's may be open at once.
const MAX_OPEN: u64 = 64;

/// How deep calls and parentheses may nest together: each call makes the tree deeper.
const MAX_NESTING: u64 = 128;

#[tactic(auto, unfolding(crate::specs::laws::Reading::tree_of))]
fn tree_of(alloc: Global, profile: Profile, tokens: &[Token]) -> Result<Option<Node>, EditError>
    requires { IsPlace profile.place }
    ensures tree { IfOk result (λ tree. tree ≡ spec.tree_of profile tokens.now) }
    ensures memory { IsOkUnless result NoMemory }
{
    let mut cursor = Cursor { rest: tokens };
    match whole(alloc, profile, &mut cursor, MAX_NESTING, MAX_OPEN) {
        Ok(found) => {
            if cursor.rest.is_empty() {
                Ok(Some(found.into_node()))
            } else {
                drop(found);
                Ok(None)
            }
        }
        Err(Fault::Outside) => Ok(None),
        Err(Fault::Memory) => Err(EditError::NoMemory),
    }
}

/// The one tree that the tokens derive in a formula at the profile's place, which is inside the
/// sheet. `None` where they derive none.
///
/// `NoMemory` where memory runs out.
pub fn read_tokens(
    alloc: Global,
    tokens: &[Token],
    profile: Profile,
) -> Result<Option<Node>, EditError>
    requires place { IsPlace profile.place }
    ensures found { IfOk result (λ o. IfSome o (λ tree. Derives profile tokens.now tree)) }
    ensures only { IfOk result (λ o. (tree : Tree) → Derives profile tokens.now tree → o ≡ Some tree) }

    ensures formula { IfOk result (λ o. IfSome o (λ tree. is_parse_error tree ≡ false)) }

    // Each of its corners is inside the sheet, and those of each range are in order.
    ensures placed { IfOk result (λ o. IfSome o (λ tree. is_placed profile.place tree ≡ true)) }
    ensures shallow { IfOk result (λ o. IfSome o (λ tree. depth_of tree ≤ 64)) }

    // Its numbers are canonical where those of the tokens are, and none is negative where none of them is.
    ensures numbers { (rule : NumberRule) → tokens_follow rule tokens.now ≡ true
        → IfOk result (λ o. IfSome o (λ tree. numbers_follow rule tree ≡ true)) }
    ensures memory { IsOkUnless result NoMemory }
{
    tree_of(alloc, profile, tokens)
}

/// Tokens derive at most one tree, which is no text outside of the grammar. The definition `tree_of`,
/// which computes, answers that tree.
pub fn tokens_derive_one_tree()
    ensures one { (profile : AnyProfile) (tokens : List AnyToken) (a b : Tree) → Derives profile tokens a → Derives profile tokens b → a ≡ b }
    ensures formula { (profile : AnyProfile) (tokens : List AnyToken) (tree : Tree) → Derives profile tokens tree → is_parse_error tree ≡ false }
    ensures read { (profile : AnyProfile) (tokens : List AnyToken) (tree : Tree) → spec.tree_of profile tokens ≡ Some tree → Derives profile tokens tree }
    ensures derived { (profile : AnyProfile) (tokens : List AnyToken) (tree : Tree) → Derives profile tokens tree → spec.tree_of profile tokens ≡ Some tree }
{}
