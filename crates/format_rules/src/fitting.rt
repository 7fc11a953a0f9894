ghost use Rattle.std.specs.Prelude.{◌≡◌};
ghost use Rattle.std.specs.List.{list_all};
ghost use Rattle.base_axis.specs.Rectangles.{is_inside};
ghost use Rattle.formula_tree.specs.Depth.{is_within};
ghost use Rattle.format_rules.specs.Fitting.{place_of, tree_fits, has_parts, has_fitting_trees};

use crate::formatting::ConditionalFormatting;
use crate::testing::{TreeTest, each_tree};
use base_axis::MergedCell;
use base_values::Position;
use cell_content::tree_fits_at;
use formula_tree::{MAX_DEPTH, Node, has_no_negative_number, is_at_most_deep};

/// The place of a rule's formulas: the first place of the first of its parts. `None` where it has
/// no part.
pub fn place_of(parts: &[MergedCell]) -> Option<Position>
    ensures { result ≡ place_of parts.now }
{
    match parts {
        [] => None,
        [first, ..] => Some(first.anchor_place()),
    }
}

fn are_inside(parts: &[MergedCell]) -> bool
    ensures { result ≡ list_all is_inside parts.now }
{
    parts.iter().all(|part| part.is_inside())
}

/// Whether a rule stands on a part of the sheet at least, and all its parts are inside the sheet.
#[tactic(auto, unfolding(crate::specs::Fitting::has_parts))]
pub fn has_parts(formatting: &ConditionalFormatting) -> bool
    ensures { result ≡ has_parts formatting.now }
{
    let parts = formatting.parts.as_slice();
    !parts.is_empty() && are_inside(parts)
}

#[tactic(auto, using(std::proofs::lemmas::Bool::Decides::nat_tests), unfolding(formula_tree::specs::Depth::is_within))]
fn is_shallow(tree: &Node) -> bool
    ensures { result ≡ is_within 64 tree.now }
{
    is_at_most_deep(tree, MAX_DEPTH)
}

/// Whether a formula may stand at a place. Without a place neither its corners are asked, nor the
/// order of its ranges.
#[tactic(auto, unfolding(crate::specs::Fitting::tree_fits))]
fn tree_fits(place: Option<Position>, tree: &Node) -> bool
    ensures { result ≡ tree_fits place tree.now }
{
    match place {
        Some(place) => tree_fits_at(place, tree),
        None => is_shallow(tree) && has_no_negative_number(tree),
    }
}

/// The test of a tree at the place of a rule.
#[derive(Drop)]
struct FitsAt {
    place: Option<Position>,
}

impl TreeTest for FitsAt {
    ghost use Rattle.format_rules.specs.Fitting.{tree_fits};

    ghost tests = { λ self. tree_fits self.place };

    fn test(&self, tree: &Node) -> bool {
        tree_fits(self.place, tree)
    }
}

/// Whether each formula of a rule may stand at the rule's place: its corners are inside the sheet,
/// those of each range are in order, no number is negative, and it is at most 64 deep. A rule
/// without parts has no place: corners and ranges are not asked.
pub fn has_fitting_trees(formatting: &ConditionalFormatting) -> bool
    ensures { result ≡ has_fitting_trees formatting.now }
{
    let place = place_of(formatting.parts.as_slice());
    each_tree(&formatting.rule, &FitsAt { place })
}
