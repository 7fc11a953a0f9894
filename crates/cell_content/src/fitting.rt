ghost use Rattle.std.specs.Prelude.{◌≡◌};
ghost use Rattle.formula_tree.specs.Depth.{is_within};
ghost use Rattle.cell_content.specs.Fitting.{fits_at, tree_fits_at};

use crate::content::Content;
use crate::lens::tree_of;
use base_values::Position;
use formula_tree::{MAX_DEPTH, Node, has_no_negative_number, is_at_most_deep, is_placed};

#[tactic(auto, using(std::proofs::lemmas::Bool::Decides::nat_tests), unfolding(formula_tree::specs::Depth::is_within))]
fn is_shallow(tree: &Node) -> bool
    ensures { result ≡ is_within 64 tree.now }
{
    is_at_most_deep(tree, MAX_DEPTH)
}

/// Whether a tree may stand at a place: each corner is inside the sheet, the corners of each range
/// are in order, no number is negative, and it is at most 64 deep.
#[tactic(auto, unfolding(crate::specs::Fitting::tree_fits_at))]
pub fn tree_fits_at(place: Position, tree: &Node) -> bool
    ensures { result ≡ tree_fits_at place tree.now }
{
    is_placed(tree, place) && is_shallow(tree) && has_no_negative_number(tree)
}

/// Whether a content may stand at a place: the tree of a formula may. Any other content fits
/// everywhere.
pub fn fits_at(place: Position, content: &Content) -> bool
    ensures { result ≡ fits_at place content.now }
{
    match tree_of(content) {
        Some(tree) => tree_fits_at(place, tree.get()),
        None => true,
    }
}
