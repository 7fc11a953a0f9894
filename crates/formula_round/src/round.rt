ghost use Rattle.std.specs.Prelude.{◌≡◌, true};
ghost use Rattle.std.specs.Str.{chars};
ghost use Rattle.formula_tree.specs.declared.Node.{Node as Tree};
ghost use Rattle.cell_content.specs.declared.Content.{Content as AnyContent};
ghost use Rattle.cell_content.specs.CanonicalContent.{IsCanonicalContent};
ghost use Rattle.formula_grammar.specs.declared.Profile.{Profile as AnyProfile};
ghost use Rattle.formula_grammar.specs.Grammar.{Derives};
ghost use Rattle.formula_grammar.specs.Normal.{is_normal};
ghost use Rattle.formula_read.specs.Lexicon.{IsTokens};
ghost use Rattle.formula_read.specs.Formula.{IsFormula, formula_of};
ghost use Rattle.cell_input.specs.Inputs.{input_of, input_text};
ghost use Rattle.formula_round.specs.Back.{IsCanonicalNormal, is_normal_content, text_at};
ghost use Rattle.formula_round.specs.Tokens.{tokens_of};

use cell_input::contents_read_again;
use formula_read::text_has_one_tree;

/// The law of formulas: the text that is printed of a normal tree whose numbers are canonical is
/// a formula with that tree, and is read as it, in the same cell, locale and language. Its tokens are
/// those of the tree.
pub fn normal_trees_read_back()
    ensures derived { (p : AnyProfile) (tree : Tree) → is_normal p.place p.language tree ≡ true → Derives p (tokens_of p tree) tree }
    ensures spelled { (p : AnyProfile) (tree : Tree) → IsCanonicalNormal p tree → IsTokens p.locale p.language (chars (text_at p tree)) (tokens_of p tree) }
    ensures formula { (p : AnyProfile) (tree : Tree) → IsCanonicalNormal p tree → IsFormula p (text_at p tree) tree }
    ensures read { (p : AnyProfile) (tree : Tree) → IsCanonicalNormal p tree → formula_of p (text_at p tree) ≡ tree }
{
    // For the proof alone.
    text_has_one_tree();
}

/// The law of contents: what is printed of a content that is no formula, or a formula with a normal
/// tree, is read as that content in the same cell, locale and language. Its numbers are canonical.
pub fn normal_contents_read_back()
    ensures { (p : AnyProfile) (content : AnyContent) → is_normal_content p content ≡ true → IsCanonicalContent content → input_of p (input_text p content) ≡ content }
{
    // For the proof alone: two laws.
    contents_read_again();
    normal_trees_read_back();
}
