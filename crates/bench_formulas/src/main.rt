//! Prints a call of many arguments in each form, and a `LET` of many names in the form of Excel,
//! again and again, to be timed from outside.
//!
//! A line of the input tells how many arguments the call has, and the next one how often it is
//! printed; two more lines tell the same of the names. The lengths of the texts are written.
#![tactic(auto)]

use anyhow::{Context, Result};
use base_decimal::Decimal;
use base_tables::{Function, Language, Locale};
use base_values::{EditError, Items, Text};
use formula_print::{
    to_english_string, to_excel_array_formula_string, to_excel_string, to_localized_string,
    to_rc_format,
};
use formula_tree::{CellReferenceRC, Node};
use std::alloc::{AllocError, Global};

fn one() -> Node {
    Node::Number(Decimal {
        mantissa: 1,
        places: 0,
    })
}

/// `SUM(1,1,..)`
fn sum_of_ones(alloc: Global, count: usize) -> Result<Node, AllocError> {
    let mut arguments = Items::empty(alloc);
    for _ in 0..count {
        arguments.push(one())?;
    }
    Ok(Node::Call(Function::Sum, arguments))
}

fn name(alloc: Global, number: usize) -> Result<Node, AllocError> {
    Ok(Node::Name(Text::new(format!(in alloc; "n{number}")?)))
}

/// `LET(n1,1,n2,n1,n3,n2,..)`, in which each name is used once
fn let_of_names(alloc: Global, count: usize) -> Result<Node, AllocError> {
    let mut arguments = Items::empty(alloc);
    let mut value = one();
    for number in 1..=count {
        arguments.push(name(alloc, number)?)?;
        arguments.push(value)?;
        value = name(alloc, number)?;
    }
    arguments.push(value)?;
    Ok(Node::Call(Function::Let, arguments))
}

fn context(alloc: Global) -> CellReferenceRC {
    CellReferenceRC {
        sheet: Text::new(String::new(alloc)),
        row: 1,
        column: 1,
    }
}

fn lengths(alloc: Global, node: &Node, context: &CellReferenceRC) -> Result<[usize; 5], EditError> {
    Ok([
        to_localized_string(alloc, node, context, Locale::De, Language::De)?.len(),
        to_english_string(alloc, node, context)?.len(),
        to_rc_format(alloc, node)?.len(),
        to_excel_string(alloc, node, context)?.len(),
        to_excel_array_formula_string(alloc, node, context)?.len(),
    ])
}

fn lengths_of_rounds(alloc: Global, count: usize, rounds: usize) -> Result<[usize; 5], EditError> {
    let node = sum_of_ones(alloc, count)?;
    let context = context(alloc);
    let mut last = [0; 5];
    for _ in 0..rounds {
        last = lengths(alloc, &node, &context)?;
    }
    Ok(last)
}

fn length_of_rounds(alloc: Global, count: usize, rounds: usize) -> Result<usize, EditError> {
    let node = let_of_names(alloc, count)?;
    let context = context(alloc);
    let mut last = 0;
    for _ in 0..rounds {
        last = to_excel_string(alloc, &node, &context)?.len();
    }
    Ok(last)
}

fn read_number(rt: &HostRuntime) -> Result<usize> {
    let mut line = String::new(rt.alloc());
    rt.read_line(&mut line)?;
    line.as_str()
        .trim()
        .parse::<usize>()
        .context("a line of digits is wanted")
}

fn main(rt: HostRuntime) -> Result<()> {
    let count = read_number(&rt)?;
    let rounds = read_number(&rt)?;
    for length in lengths_of_rounds(rt.alloc(), count, rounds)? {
        println!(rt; "{length}")?;
    }
    let names = read_number(&rt)?;
    let rounds = read_number(&rt)?;
    let length = length_of_rounds(rt.alloc(), names, rounds)?;
    println!(rt; "{length}")?;
    Ok(())
}
