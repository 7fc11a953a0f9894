ghost use Rattle.std.specs.Prelude.{◌≡◌, ◌++◌, ◌∷◌, [], IfOk, ◌≤◌, map};
ghost use Rattle.formula_tree.specs.Depth.{depth_of, greatest};
ghost use Rattle.formula_tree.specs.Levels as table;
ghost use Rattle.formula_grammar.specs.laws.Outcome.{Makes};

use crate::fault::Fault;
use base_shared::Shared;
use base_tables::Function;
use base_values::{Items, Text};
use formula_tree::{Infix, MAX_DEPTH, Node, Parameter, Postfix, Prefix, UnaryKind};
use std::alloc::{AllocError, Global};
use std::marker::Model;

/// A tree that is not too deep, with its depth beside it.
#[derive(Drop)]
pub struct Found {
    node: Node,
    depth: u64,
}

impl Model for Found {
    ghost use Rattle.std.specs.Prelude.{◌≡◌, ◌≤◌};
    ghost use Rattle.formula_tree.specs.declared.node.Node.{Node};
    ghost use Rattle.formula_tree.specs.contracts.node.Node as contract;
    ghost use Rattle.formula_tree.specs.Depth.{depth_of};

    ghost Value = { Node };

    ghost coded = { contract.the_row.coded };

    ghost view = { λ f. f.node };

    ghost invariant = { λ f. (f.depth ≡ depth_of f.node) × (f.depth ≤ 64) };
}

impl Found {
    /// A node without children.
    pub fn leaf(node: Node) -> Found
        requires { depth_of node ≡ 1 }
        ensures { result ≡ node }
    {
        Found { node, depth: 1 }
    }

    /// A range.
    pub fn range(node: Node) -> Found
        requires { depth_of node ≡ 2 }
        ensures { result ≡ node }
    {
        Found { node, depth: 2 }
    }

    pub fn into_node(self) -> Node
        ensures { result ≡ self }
    {
        let Found { node, depth: _ } = self;
        node
    }

    /// The tree, of which this is the depth, if it is not too deep.
    #[tactic(auto, using(crate::proofs::Depths::depths))]
    fn above(node: Node, depth: u64) -> Result<Found, Fault>
        requires { depth_of node ≡ depth }
        ensures { Makes node result }
    {
        if depth > MAX_DEPTH {
            drop(node);
            return Err(Fault::Outside);
        }
        Ok(Found { node, depth })
    }

    /// What an infix operator makes of two trees.
    #[tactic(auto, using(crate::proofs::Depths::depths))]
    pub fn joined(alloc: Global, operator: Infix, left: Found, right: Found) -> Result<Found, Fault>
        ensures { Makes (table.infix_node operator left right) result }
    {
        let depth = left.depth.max(right.depth) + 1;
        match Shared::new(alloc, left.into_node()) {
            Ok(left) => {
                let right = Shared::new(alloc, right.into_node())?;
                Found::above(operator.node(left, right), depth)
            }
            Err(error) => {
                drop(right);
                Err(error.into())
            }
        }
    }

    /// What a postfix operator makes of a tree.
    #[tactic(auto, using(crate::proofs::Depths::depths))]
    pub fn followed(alloc: Global, operator: Postfix, operand: Found) -> Result<Found, Fault>
        ensures { Makes (table.postfix_node operator operand) result }
    {
        let depth = operand.depth + 1;
        let operand = Shared::new(alloc, operand.into_node())?;
        Found::above(operator.node(operand), depth)
    }

    /// What a sign makes of a tree.
    #[tactic(auto, using(crate::proofs::Depths::depths))]
    pub fn signed(alloc: Global, sign: Prefix, operand: Found) -> Result<Found, Fault>
        ensures { Makes (table.prefix_node sign operand) result }
    {
        let depth = operand.depth + 1;
        match sign {
            Prefix::Plus => Ok(operand),
            Prefix::Minus => {
                let operand = Shared::new(alloc, operand.into_node())?;
                Found::above(Node::Unary(UnaryKind::Minus, operand), depth)
            }
            Prefix::At => {
                let operand = Shared::new(alloc, operand.into_node())?;
                Found::above(Node::ImplicitIntersection(operand), depth)
            }
        }
    }

    #[tactic(auto, using(crate::proofs::Depths::depths))]
    pub fn call(function: Function, arguments: FoundAll) -> Result<Found, Fault>
        ensures { Makes (Node.Call function arguments) result }
    {
        let depth = arguments.depth + 1;
        Found::above(Node::Call(function, arguments.into_nodes()), depth)
    }

    #[tactic(auto, using(crate::proofs::Depths::depths))]
    pub fn named_call(name: Text, arguments: FoundAll) -> Result<Found, Fault>
        ensures { Makes (Node.NamedCall name arguments) result }
    {
        let depth = arguments.depth + 1;
        Found::above(Node::NamedCall(name, arguments.into_nodes()), depth)
    }

    #[tactic(auto, using(crate::proofs::Depths::depths))]
    pub fn lambda(alloc: Global, parameters: Items<Parameter>, body: Found) -> Result<Found, Fault>
        ensures { Makes (Node.Lambda parameters body) result }
    {
        let depth = body.depth + 1;
        let body = Shared::new(alloc, body.into_node())?;
        Found::above(Node::Lambda(parameters, body), depth)
    }

    #[tactic(auto, using(crate::proofs::Depths::depths))]
    pub fn lambda_call(alloc: Global, callee: Found, arguments: FoundAll) -> Result<Found, Fault>
        ensures { Makes (Node.LambdaCall callee arguments) result }
    {
        let depth = callee.depth.max(arguments.depth) + 1;
        let callee = Shared::new(alloc, callee.into_node())?;
        Found::above(Node::LambdaCall(callee, arguments.into_nodes()), depth)
    }
}

/// Trees that are not too deep, with their greatest depth.
#[derive(Drop)]
pub struct FoundAll {
    nodes: Items<Node>,
    depth: u64,
}

impl Model for FoundAll {
    ghost use Rattle.std.specs.Prelude.{List, ◌≡◌, ◌≤◌, map};
    ghost use Rattle.std.specs.Coded.{coded_list};
    ghost use Rattle.formula_tree.specs.declared.node.Node.{Node};
    ghost use Rattle.formula_tree.specs.contracts.node.Node as contract;
    ghost use Rattle.formula_tree.specs.Depth.{depth_of, greatest};

    ghost Value = { List Node };

    ghost coded = { coded_list contract.the_row.coded };

    ghost view = { λ f. f.nodes };

    ghost invariant = { λ f. (f.depth ≡ greatest (map depth_of f.nodes)) × (f.depth ≤ 64) };
}

impl FoundAll {
    pub fn empty(alloc: Global) -> FoundAll
        ensures { result ≡ [] }
    {
        FoundAll {
            nodes: Items::empty(alloc),
            depth: 0,
        }
    }

    /// The trees, in exact room.
    pub fn into_nodes(self) -> Items<Node>
        ensures { result ≡ self }
    {
        let FoundAll {
            mut nodes,
            depth: _,
        } = self;
        nodes.fit();
        nodes
    }

    /// The trees, and one more after them.
    #[tactic(auto, using(crate::proofs::Depths::greatest_push))]
    pub fn push(self, found: Found) -> Result<FoundAll, AllocError>
        ensures { IfOk result (λ all. all ≡ self ++ found ∷ []) }
    {
        let FoundAll { mut nodes, depth } = self;
        let depth = depth.max(found.depth);
        nodes.push(found.into_node())?;
        Ok(FoundAll { nodes, depth })
    }
}
