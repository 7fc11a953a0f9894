// How deep a formula may be that stands in a cell, and what a tree is put into.
use base_decimal::Decimal;
use base_shared::Shared;
use base_values::{EditError, Position};
use cell_content::{Content, fits_at, with_tree};
use formula_tree::{Node, UnaryKind};
use std::alloc::{AllocError, Global};
use std::test::Fail;

const C3: Position = Position { row: 3, column: 3 };

fn number(mantissa: i128) -> Node {
    let places = 0;
    Node::Number(Decimal { mantissa, places })
}

fn minus(alloc: Global, child: Node) -> Result<Node, AllocError> {
    Ok(Node::Unary(UnaryKind::Minus, Shared::new(alloc, child)?))
}

/// So many minus signs before a number.
fn minus_signs(alloc: Global, count: u64) -> Result<Node, AllocError> {
    let mut node = number(1);
    for _ in 0..count {
        node = minus(alloc, node)?;
    }
    Ok(node)
}

/// Whether so many minus signs before a number fit.
fn minus_signs_fit(alloc: Global, count: u64) -> Result<bool, AllocError> {
    let content = Content::Formula(Shared::new(alloc, minus_signs(alloc, count)?)?);
    Ok(fits_at(C3, &content))
}

#[test]
fn depth(rt: HostRuntime) -> Result<(), Fail> {
    assert!(rt; minus_signs_fit(rt.alloc(), 63)?);
    assert!(rt; !minus_signs_fit(rt.alloc(), 64)?);
    Ok(())
}

/// What a content is once the number 2 is put in as its tree.
fn with_two(alloc: Global, content: &Content) -> Result<Content, EditError> {
    with_tree(content, Shared::new(alloc, number(2))?)
}

#[test]
fn trees_are_put_in(rt: HostRuntime) -> Result<(), Fail> {
    let alloc = rt.alloc();
    let (one, two) = (
        Shared::new(alloc, number(1))?,
        Shared::new(alloc, number(2))?,
    );
    assert!(rt; with_two(alloc, &Content::Dynamic(one))? == Content::Dynamic(two));
    assert!(rt; with_two(alloc, &Content::Boolean(true))? == Content::Boolean(true));
    let (width, height) = (2, 3);
    let tree = Shared::new(alloc, number(1))?;
    let array = Content::Array {
        tree,
        width,
        height,
    };
    let tree = Shared::new(alloc, number(2))?;
    let changed = Content::Array {
        tree,
        width,
        height,
    };
    assert!(rt; with_two(alloc, &array)? == changed);
    Ok(())
}
