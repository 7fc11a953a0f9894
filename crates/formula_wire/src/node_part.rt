//! Trees as parts of formats.

ghost use Rattle.base_values.specs.Answers.{map_ok};
ghost use Rattle.base_wire.specs.Reads.{Reads};
ghost use Rattle.formula_wire.specs.Carried.{FitsNode};
ghost use Rattle.formula_wire.specs.NodeBytes.{encode_node};

use crate::reading::read_node;
use crate::writing::push_node;
use base_values::EditError;
use base_wire::Part;
use formula_tree::Node;
use std::alloc::{AllocError, Global};

/// The tree at the front of bytes, and the bytes after it (docs/FORMATS.md, "Bytes").
///
/// Refuses with `ParseDiffs` bytes that are cut short, that encode no tree or one that is more than
/// 64 deep, and with `NoMemory`.
pub fn node_at(alloc: Global, bytes: &[u8]) -> Result<(Node, &[u8]), EditError>
    ensures { Reads FitsNode encode_node bytes.now (map_ok (λ x. (x.0, x.1.now)) result) }
{
    NodePart::take(alloc, &(), bytes)
}

/// A tree of a formula.
pub struct NodePart;

impl Part for NodePart {
    ghost use Rattle.formula_wire.specs.Carried.{FitsNode, IsKnownNode};
    ghost use Rattle.formula_wire.specs.NodeBytes.{encode_node};
    ghost use Rattle.formula_wire.specs.laws.Reading.{node_at};
    ghost use Rattle.formula_wire.specs.laws.NodeLaws.{node_format, some_byte};

    type Value = Node;

    type Context = ();

    ghost Known = { IsKnownNode };

    ghost Fits = { FitsNode };

    ghost encoding = { encode_node };

    ghost reading = { node_at };

    fn put(out: &mut Vec<u8>, value: &Node) -> Result<(), AllocError> {
        push_node(out, value)
    }

    fn take<'a>(
        alloc: Global,
        _context: &(),
        bytes: &'a [u8],
    ) -> Result<(Node, &'a [u8]), EditError> {
        read_node(alloc, bytes)
    }

    ghost format = { node_format };

    ghost some = { some_byte };
}
