ghost use Rattle.std.specs.Prelude.{◌≡◌, IfOk, IsOkUnless, Some};
ghost use Rattle.base_values.specs.declared.EditError.TheVariants.{NoMemory};
ghost use Rattle.cell_content.specs.Lens.{tree_of};
ghost use Rattle.line_map.specs.Contents.{cell_carried, cell_part};
ghost use Rattle.line_routes.specs.Trees.{TreeInside};
ghost use Rattle.line_routes.specs.RouteModel.{route_model};

use crate::follower::Follower;
use base_axis::Axis;
use base_shared::Shared;
use base_values::{EditError, Exact, copy_of};
use cell_content::{Content, tree_of, with_tree};
use formula_tree::Node;
use line_edits::LineMap;
use line_routes::{Route, carried_node, stays};
use sheet_grid::{Cell, LineAttr, Link};
use std::alloc::Global;

/// Of a content the tree follows; one without a tree stays.
impl<A: Axis> Follower<A> for Content {
    ghost use Rattle.std.specs.Prelude.{⊤};
    ghost use Rattle.cell_content.specs.Lens.{with_tree};
    ghost use Rattle.line_map.specs.Contents.{ContentInside, content_carried, content_part};
    ghost use Rattle.line_map.specs.laws.ContentLaws.{content_stays, content_comes_back, content_restores};

    type Part = Shared<Node>;

    ghost Inside = { ContentInside };

    ghost carry_of = { content_carried };

    ghost part_of = { content_part };

    ghost Fits = { λ _ _. ⊤ };

    ghost restore_of = { λ _ content tree. with_tree content tree };

    fn carry<M: LineMap<A>>(
        &self,
        alloc: Global,
        route: &Route<'_, A, M>,
    ) -> Result<Content, EditError> {
        match tree_of(self) {
            Some(tree) => with_tree(self, tree.carry(alloc, route)?),
            None => copy_of(self),
        }
    }

    fn part<M: LineMap<A>>(
        &self,
        alloc: Global,
        route: &Route<'_, A, M>,
    ) -> Result<Option<Shared<Node>>, EditError> {
        match tree_of(self) {
            Some(tree) => tree.part(alloc, route),
            None => Ok(None),
        }
    }

    fn restore<M: LineMap<A>>(
        &self,
        _alloc: Global,
        _route: &Route<'_, A, M>,
        part: &Shared<Node>,
    ) -> Result<Content, EditError> {
        with_tree(self, copy_of(part)?)
    }

    ghost stays = { content_stays };

    ghost part_fits = { λ w is v lies k kept. tt };

    ghost comes_back = { λ w is v lies h. content_comes_back w v h };

    ghost restores = { λ w is v lies k h. content_restores w v k h };
}

/// A cell with another content.
fn with_content(
    alloc: Global,
    cell: &Shared<Cell>,
    content: Content,
) -> Result<Shared<Cell>, EditError>
    ensures cell { IfOk result (λ changed. changed ≡ record cell.now { content = content }) }
    ensures only { IsOkUnless result NoMemory }
{
    let style = copy_of(&cell.get().style)?;
    Ok(Shared::new(alloc, Cell { content, style })?)
}

/// A cell whose formula has this tree, with the tree carried along.
fn moved_cell<A: Axis, M: LineMap<A>>(
    alloc: Global,
    route: &Route<'_, A, M>,
    cell: &Shared<Cell>,
    tree: &Node,
) -> Result<Shared<Cell>, EditError>
    requires { tree_of cell.now.content ≡ Some tree.now }
    ensures cell { IfOk result (λ carried. carried ≡ cell_carried (route_model route.now) cell.now) }
    ensures only { IsOkUnless result NoMemory }
{
    let tree = Shared::new(alloc, carried_node(alloc, route, tree)?)?;
    with_content(alloc, cell, with_tree(&cell.get().content, tree)?)
}

/// A cell whose formula has this tree, carried along. One that stays the same is shared.
fn carried_cell<A: Axis, M: LineMap<A>>(
    alloc: Global,
    route: &Route<'_, A, M>,
    cell: &Shared<Cell>,
    tree: &Node,
) -> Result<Shared<Cell>, EditError>
    requires { tree_of cell.now.content ≡ Some tree.now }
    ensures cell { IfOk result (λ carried. carried ≡ cell_carried (route_model route.now) cell.now) }
    ensures only { IsOkUnless result NoMemory }
{
    if stays(route, tree) {
        return copy_of(cell);
    }
    moved_cell(alloc, route, cell, tree)
}

/// A cell whose formula has this tree, carried along, and the tree where it has to be kept. One that
/// stays the same is shared, and its tree has not to be kept.
fn carried_cell_with_part<A: Axis, M: LineMap<A>>(
    alloc: Global,
    route: &Route<'_, A, M>,
    cell: &Shared<Cell>,
    tree: &Shared<Node>,
) -> Result<(Shared<Cell>, Option<Shared<Node>>), EditError>
    requires tree { tree_of cell.now.content ≡ Some tree.now }
    requires lies { TreeInside (route_model route.now) tree.now }
    ensures cell { IfOk result (λ both. both.0 ≡ cell_carried (route_model route.now) cell.now) }
    ensures part { IfOk result (λ both. both.1 ≡ cell_part (route_model route.now) cell.now) }
    ensures only { IsOkUnless result NoMemory }
{
    // For the proof: the route goes one to one.
    route.is_route();
    if stays(route, tree.get()) {
        return Ok((copy_of(cell)?, None));
    }
    let part = tree.part(alloc, route)?;
    Ok((moved_cell(alloc, route, cell, tree.get())?, part))
}

/// Of a cell the content follows, and the style stays. A cell that stays the same is shared.
impl<A: Axis> Follower<A> for Shared<Cell> {
    ghost use Rattle.std.specs.Prelude.{⊤};
    ghost use Rattle.line_map.specs.Contents.{CellInside, cell_carried, cell_part, cell_restored};
    ghost use Rattle.line_map.specs.laws.ContentLaws.{cell_stays, cell_comes_back, cell_restores};

    type Part = Shared<Node>;

    ghost Inside = { CellInside };

    ghost carry_of = { cell_carried };

    ghost part_of = { cell_part };

    ghost Fits = { λ _ _. ⊤ };

    ghost restore_of = { λ _ cell tree. cell_restored cell tree };

    fn carry<M: LineMap<A>>(
        &self,
        alloc: Global,
        route: &Route<'_, A, M>,
    ) -> Result<Shared<Cell>, EditError> {
        match tree_of(&self.get().content) {
            Some(tree) => carried_cell(alloc, route, self, tree.get()),
            None => copy_of(self),
        }
    }

    fn part<M: LineMap<A>>(
        &self,
        alloc: Global,
        route: &Route<'_, A, M>,
    ) -> Result<Option<Shared<Node>>, EditError> {
        self.get().content.part(alloc, route)
    }

    fn carry_with_part<M: LineMap<A>>(
        &self,
        alloc: Global,
        route: &Route<'_, A, M>,
    ) -> Result<(Shared<Cell>, Option<Shared<Node>>), EditError> {
        match tree_of(&self.get().content) {
            Some(tree) => carried_cell_with_part(alloc, route, self, tree),
            None => Ok((copy_of(self)?, None)),
        }
    }

    fn restore<M: LineMap<A>>(
        &self,
        alloc: Global,
        _route: &Route<'_, A, M>,
        part: &Shared<Node>,
    ) -> Result<Shared<Cell>, EditError> {
        with_content(alloc, self, with_tree(&self.get().content, copy_of(part)?)?)
    }

    ghost stays = { cell_stays };

    ghost part_fits = { λ w is v lies k kept. tt };

    ghost comes_back = { λ w is v lies h. cell_comes_back w v h };

    ghost restores = { λ w is v lies k h. cell_restores w v k h };
}

/// What is kept of what stays as it is.
#[derive(Clone, Copy, Debug, PartialEq, Eq)]
pub struct Nothing;

impl Exact for Nothing {
    ghost use Rattle.line_map.specs.laws.Equals.{nothing_equals};

    ghost copies = { λ a b h. h };

    ghost equals = { nothing_equals };
}

/// What stays as it is.
pub trait Stays: Exact + Drop {}

impl Stays for Link {}

impl Stays for LineAttr {}

impl<A: Axis, F: Stays> Follower<A> for F {
    ghost use Rattle.std.specs.Prelude.{⊤, None, refl};

    type Part = Nothing;

    ghost Inside = { λ _ _. ⊤ };

    ghost carry_of = { λ _ value. value };

    ghost part_of = { λ _ _. None };

    ghost Fits = { λ _ _. ⊤ };

    ghost restore_of = { λ _ value _. value };

    fn carry<M: LineMap<A>>(
        &self,
        _alloc: Global,
        _route: &Route<'_, A, M>,
    ) -> Result<F, EditError> {
        copy_of(self)
    }

    fn part<M: LineMap<A>>(
        &self,
        _alloc: Global,
        _route: &Route<'_, A, M>,
    ) -> Result<Option<Nothing>, EditError> {
        Ok(None)
    }

    fn restore<M: LineMap<A>>(
        &self,
        _alloc: Global,
        _route: &Route<'_, A, M>,
        _part: &Nothing,
    ) -> Result<F, EditError> {
        copy_of(self)
    }

    ghost stays = { λ w is v lies. tt };

    ghost part_fits = { λ w is v lies k kept. tt };

    ghost comes_back = { λ w is v lies h. refl };

    ghost restores = { λ w is v lies k h. refl };
}
