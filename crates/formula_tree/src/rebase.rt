ghost use Rattle.std.specs.Prelude.{◌≡◌, IfOk, IsOkUnless};
ghost use Rattle.base_values.specs.declared.EditError.TheVariants.{NoMemory};
ghost use Rattle.formula_tree.specs.Rebase.{same_corner, filling, rebased};

use crate::corner::{Corner, is_inside};
use crate::moved::{CornerMap, move_node};
use crate::node::Node;
use base_shared::Shared;
use base_values::{EditError, Position, Text};
use std::alloc::Global;

#[tactic(auto, unfolding(crate::specs::Rebase::same_corner))]
fn same_corner(to: Position, corner: Corner) -> Option<Corner>
    ensures { result ≡ same_corner to corner }
{
    if is_inside(to, corner) {
        Some(corner)
    } else {
        None
    }
}

/// Corners keep their numbers where a formula is filled to this place.
#[derive(Clone, Copy)]
struct Filling {
    to: Position,
}

impl CornerMap for Filling {
    ghost mapping = { λ self. filling self.to };

    fn reference(&self, _sheet: &Option<Shared<Text>>, corner: Corner) -> Option<Corner> {
        same_corner(self.to, corner)
    }

    fn range(
        &self,
        _sheet: &Option<Shared<Text>>,
        first: Corner,
        second: Corner,
    ) -> (Option<Corner>, Option<Corner>) {
        (same_corner(self.to, first), same_corner(self.to, second))
    }
}

/// The tree of a formula that is filled to another place. Relative corners keep their offsets and
/// so move along; a range's corners are put in order where they stand now. A corner that comes to
/// lie outside the sheet is lost: a reference becomes `#REF!`, and a range becomes `:` of what is
/// left of its corners. Only `NoMemory` is refused.
#[tactic(auto, unfolding(crate::specs::Rebase::rebased))]
pub fn rebase_node(alloc: Global, node: &Node, to: Position) -> Result<Node, EditError>
    ensures tree { IfOk result (λ tree. tree ≡ rebased to node.now) }
    ensures only { IsOkUnless result NoMemory }
{
    Ok(move_node(alloc, node, to, &Filling { to })?)
}
