ghost use Rattle.std.specs.Prelude.{◌≡◌, [], ◌++◌, if◌then◌else◌, encode_utf8, map, nat_lt, OnOk, string_bytes};
ghost use Rattle.base_tables.specs.Locale.{argument_separator};
ghost use Rattle.formula_print.specs.declared.style.Style.{Style as AnyStyle};
ghost use Rattle.base_tables.specs.Tables.{lowered};
ghost use Rattle.formula_print.specs.Kinds.{right_need};
ghost use Rattle.formula_print.specs.Pieces.{function_word};
ghost use Rattle.formula_print.specs.Print as spec;

use crate::kind::{Kind, Need, left_need, right_need};
use crate::number::push_number;
use crate::pieces::{
    function_word, infix_sign, lambda_word, push_array, push_lowered, push_parameters, push_text,
    single_word, spill_word,
};
use crate::reference::{is_cell_first, is_range_cell_first, push_range, push_reference};
use crate::style::{Dialect, Style};
use base_tables::{Function, Locale};
use formula_tree::{Infix, Node, Parameter, Postfix, Prefix, UnaryKind};
use std::alloc::AllocError;

fn unary_kind(kind: UnaryKind) -> Kind
    ensures { result ≡ spec.unary_kind kind }
{
    match kind {
        UnaryKind::Minus => Kind::Prefix(Prefix::Minus),
        UnaryKind::Percent => Kind::Postfix(Postfix::Percent),
    }
}

/// What the rules of parentheses see of the tree.
#[tactic(auto, using(crate::specs::laws::PrintEquations::prints))]
fn kind_of(node: &Node) -> Kind
    ensures { (style : AnyStyle) → result ≡ (spec.printed style node.now).kind }
{
    match node {
        Node::Boolean(_) => Kind::Value,
        Node::Number(_) => Kind::Number,
        Node::Text(_) => Kind::Value,
        Node::Reference(_, _) => Kind::Reference,
        Node::Range(..) => Kind::Value,
        Node::Colon(_, _) => Kind::Infix(Infix::Colon),
        Node::Concatenate(_, _) => Kind::Infix(Infix::Concatenate),
        Node::Compare(kind, _, _) => Kind::Infix(Infix::Compare(*kind)),
        Node::Sum(kind, _, _) => Kind::Infix(Infix::Sum(*kind)),
        Node::Product(kind, _, _) => Kind::Infix(Infix::Product(*kind)),
        Node::Power(_, _) => Kind::Infix(Infix::Power),
        Node::Unary(kind, _) => unary_kind(*kind),
        Node::Call(_, _) => Kind::Other,
        Node::NamedCall(_, _) => Kind::Other,
        Node::Array(_) => Kind::Other,
        Node::Name(_) => Kind::Name,
        Node::Error(_) => Kind::Other,
        Node::ParseError(_) => Kind::Other,
        Node::EmptyArgument => Kind::Other,
        Node::Spill(_) => Kind::Postfix(Postfix::Spill),
        Node::Lambda(_, _) => Kind::Lambda,
        Node::LambdaCall(_, _) => Kind::Lambda,
        Node::ImplicitIntersection(_) => Kind::Prefix(Prefix::At),
    }
}

/// Whether the text begins with a cell without a sheet, where the tree stands on the right of `:`.
#[cycle(first)]
#[tactic(auto, using(crate::specs::laws::PrintEquations::prints))]
fn begins_with_cell(style: Style, node: &Node) -> bool
    ensures { result ≡ (spec.printed style node.now).cell_first }
{
    match node {
        Node::Reference(sheet, corner) => is_cell_first(style.corners, sheet, *corner),
        Node::Range(sheet, a, b) => is_range_cell_first(style.corners, sheet, *a, *b),
        Node::Spill(a) => begins_spill_with_cell(style, a.get()),
        Node::Boolean(_) => false,
        Node::Number(_) => false,
        Node::Text(_) => false,
        Node::Colon(_, _) => false,
        Node::Concatenate(_, _) => false,
        Node::Compare(..) => false,
        Node::Sum(..) => false,
        Node::Product(..) => false,
        Node::Power(_, _) => false,
        Node::Unary(_, _) => false,
        Node::Call(_, _) => false,
        Node::NamedCall(_, _) => false,
        Node::Array(_) => false,
        Node::Name(_) => false,
        Node::Error(_) => false,
        Node::ParseError(_) => false,
        Node::EmptyArgument => false,
        Node::Lambda(_, _) => false,
        Node::LambdaCall(_, _) => false,
        Node::ImplicitIntersection(_) => false,
    }
}

#[cycle(first)]
fn begins_spill_with_cell(style: Style, node: &Node) -> bool
    ensures { result ≡ spec.spill_cell_first style.dialect (spec.printed style node.now).cell_first }
{
    match style.dialect {
        Dialect::Plain => begins_with_cell(style, node),
        Dialect::Excel => false,
    }
}

/// Writes an operator between its operands. It is no function, since the recursion ends where each
/// call goes from a tree to a part of it, and no tree holds just these two.
macro_rules! print_infix {
    ($style:ident, $operator:expr, $left:ident, $right:ident, $out:ident) => {{
        print_left($style, $operator, $left.get(), $out)?;
        print_right($style, $operator, $right.get(), $out)
    }};
}

/// Writes the text of a tree at the end.
#[cycle(print)]
#[tactic(auto, using(crate::specs::laws::PrintEquations::prints, crate::proofs::Joins::nothing_added, crate::proofs::Joins::pieces))]
pub(crate) fn print_node(style: Style, node: &Node, out: &mut String) -> Result<(), AllocError>
    ensures { OnOk result (string_bytes out.new ≡ string_bytes out.old ++ spec.text_of style node.now) }
{
    match node {
        Node::Boolean(value) => out.push_str(style.language.boolean(*value)),
        Node::Number(number) => push_number(out, number, style.locale),
        Node::Text(text) => push_text(text.as_str(), out),
        Node::Reference(sheet, corner) => push_reference(style.corners, sheet, *corner, out),
        Node::Range(sheet, a, b) => push_range(style.corners, sheet, *a, *b, out),
        Node::Colon(a, b) => {
            print_first(style, begins_with_cell(style, b.get()), a.get(), out)?;
            print_right(style, Infix::Colon, b.get(), out)
        }
        Node::Concatenate(a, b) => print_infix!(style, Infix::Concatenate, a, b, out),
        Node::Compare(kind, a, b) => print_infix!(style, Infix::Compare(*kind), a, b, out),
        Node::Sum(kind, a, b) => print_infix!(style, Infix::Sum(*kind), a, b, out),
        Node::Product(kind, a, b) => print_infix!(style, Infix::Product(*kind), a, b, out),
        Node::Power(a, b) => print_infix!(style, Infix::Power, a, b, out),
        Node::Unary(kind, a) => print_unary(style, *kind, a.get(), out),
        Node::Call(function, all) => print_call(style, *function, all.as_slice(), out),
        Node::NamedCall(name, all) => print_named_call(style, name.as_str(), all.as_slice(), out),
        Node::Array(lines) => push_array(style, lines.as_slice(), out),
        Node::Name(name) => out.push_str(name.as_str()),
        Node::Error(error) => out.push_str(error.text()),
        Node::ParseError(text) => out.push_str(text.as_str()),
        Node::EmptyArgument => Ok(()),
        Node::Spill(a) => print_spill(style, a.get(), out),
        Node::Lambda(parameters, a) => print_lambda(style, parameters.as_slice(), a.get(), out),
        Node::LambdaCall(a, all) => {
            print_operand(style, Need::Callee, a.get(), out)?;
            print_arguments(style, all.as_slice(), out)
        }
        Node::ImplicitIntersection(a) => print_intersection(style, a.get(), out),
    }
}

#[cycle(print)]
fn print_in_parentheses(style: Style, node: &Node, out: &mut String) -> Result<(), AllocError>
    ensures { OnOk result (string_bytes out.new ≡ string_bytes out.old ++ spec.in_parentheses (spec.text_of style node.now)) }
{
    out.push_str("(")?;
    print_node(style, node, out)?;
    out.push_str(")")
}

/// An operand, in parentheses where it needs them.
#[cycle(print)]
fn print_operand(style: Style, need: Need, node: &Node, out: &mut String) -> Result<(), AllocError>
    ensures { OnOk result (string_bytes out.new ≡ string_bytes out.old ++ spec.operand need (spec.printed style node.now)) }
{
    if kind_of(node).fits(need) {
        print_node(style, node, out)
    } else {
        print_in_parentheses(style, node, out)
    }
}

/// The left operand and the sign.
#[cycle(print)]
fn print_left(
    style: Style,
    operator: Infix,
    node: &Node,
    out: &mut String,
) -> Result<(), AllocError>
    ensures { OnOk result (string_bytes out.new ≡ string_bytes out.old ++ spec.left_text operator (spec.printed style node.now)) }
{
    print_operand(style, left_need(operator), node, out)?;
    out.push_str(infix_sign(operator))
}

/// The right operand.
#[cycle(print)]
fn print_right(
    style: Style,
    operator: Infix,
    node: &Node,
    out: &mut String,
) -> Result<(), AllocError>
    ensures { OnOk result (string_bytes out.new ≡ string_bytes out.old ++ spec.operand (right_need operator) (spec.printed style node.now)) }
{
    print_operand(style, right_need(operator), node, out)
}

/// The left operand of `:`, and the sign.
#[cycle(print)]
fn print_first(
    style: Style,
    cell_follows: bool,
    node: &Node,
    out: &mut String,
) -> Result<(), AllocError>
    ensures { OnOk result (string_bytes out.new ≡ string_bytes out.old ++ spec.first_text cell_follows (spec.printed style node.now)) }
{
    print_operand(style, Need::LeftOfColon { cell_follows }, node, out)?;
    out.push_str(":")
}

#[cycle(print)]
fn print_unary(
    style: Style,
    kind: UnaryKind,
    node: &Node,
    out: &mut String,
) -> Result<(), AllocError>
    ensures { OnOk result (string_bytes out.new ≡ string_bytes out.old ++ spec.unary_text kind (spec.printed style node.now)) }
{
    match kind {
        UnaryKind::Minus => {
            out.push_str("-")?;
            print_operand(style, Need::Negated, node, out)
        }
        UnaryKind::Percent => {
            print_operand(style, Need::Level(Postfix::Percent.level()), node, out)?;
            out.push_str("%")
        }
    }
}

/// An operand as the one argument of a call.
#[cycle(print)]
fn print_as_call(style: Style, word: &str, node: &Node, out: &mut String) -> Result<(), AllocError>
    ensures { OnOk result (string_bytes out.new ≡ string_bytes out.old ++ spec.one_argument_call word.now (spec.printed style node.now)) }
{
    out.push_str(word)?;
    print_in_parentheses(style, node, out)
}

#[cycle(print)]
fn print_spill(style: Style, node: &Node, out: &mut String) -> Result<(), AllocError>
    ensures { OnOk result (string_bytes out.new ≡ string_bytes out.old ++ spec.spill_text style.dialect (spec.printed style node.now)) }
{
    match style.dialect {
        Dialect::Plain => {
            print_operand(style, Need::Level(Postfix::Spill.level()), node, out)?;
            out.push_str("#")
        }
        Dialect::Excel => print_as_call(style, spill_word(), node, out),
    }
}

#[cycle(print)]
fn print_intersection(style: Style, node: &Node, out: &mut String) -> Result<(), AllocError>
    ensures { OnOk result (string_bytes out.new ≡ string_bytes out.old ++ spec.intersection_text style.dialect (spec.printed style node.now)) }
{
    match style.dialect {
        Dialect::Plain => {
            out.push_str("@")?;
            print_operand(style, Need::Level(Prefix::At.level()), node, out)
        }
        Dialect::Excel => print_as_call(style, single_word(), node, out),
    }
}

/// The separator of arguments, but not before the first one.
fn push_separator(locale: Locale, at: usize, out: &mut String) -> Result<(), AllocError>
    ensures { OnOk result (string_bytes out.new ≡ string_bytes out.old ++ (if nat_lt 0 at then encode_utf8 (argument_separator locale) else [])) }
{
    if at > 0 {
        out.push(locale.argument_separator())?;
    }
    Ok(())
}

#[cycle(print)]
#[tactic(auto, using(crate::proofs::Joins::arguments))]
fn print_separated(style: Style, nodes: &[Node], out: &mut String) -> Result<(), AllocError>
    ensures { OnOk result (string_bytes out.new ≡ string_bytes out.old ++ spec.arguments_text style (map (spec.printed style) nodes.now)) }
{
    for (at, node) in nodes.iter().enumerate() {
        push_separator(style.locale, at, out)?;
        print_node(style, node, out)?;
    }
    Ok(())
}

#[cycle(print)]
fn print_arguments(style: Style, nodes: &[Node], out: &mut String) -> Result<(), AllocError>
    ensures { OnOk result (string_bytes out.new ≡ string_bytes out.old ++ spec.in_parentheses (spec.arguments_text style (map (spec.printed style) nodes.now))) }
{
    out.push_str("(")?;
    print_separated(style, nodes, out)?;
    out.push_str(")")
}

#[cycle(print)]
fn print_call(
    style: Style,
    function: Function,
    nodes: &[Node],
    out: &mut String,
) -> Result<(), AllocError>
    ensures { OnOk result (string_bytes out.new ≡ string_bytes out.old ++ spec.call_text style (function_word style function) (map (spec.printed style) nodes.now)) }
{
    out.push_str(function_word(style, function))?;
    print_arguments(style, nodes, out)
}

#[cycle(print)]
fn print_named_call(
    style: Style,
    name: &str,
    nodes: &[Node],
    out: &mut String,
) -> Result<(), AllocError>
    ensures { OnOk result (string_bytes out.new ≡ string_bytes out.old ++ spec.call_text style (lowered name.now) (map (spec.printed style) nodes.now)) }
{
    push_lowered(name, out)?;
    print_arguments(style, nodes, out)
}

#[cycle(print)]
fn print_lambda(
    style: Style,
    parameters: &[Parameter],
    body: &Node,
    out: &mut String,
) -> Result<(), AllocError>
    ensures { OnOk result (string_bytes out.new ≡ string_bytes out.old ++ spec.lambda_text style parameters.now (spec.printed style body.now)) }
{
    out.push_str(lambda_word(style.dialect))?;
    out.push_str("(")?;
    push_parameters(style.locale, parameters, out)?;
    print_node(style, body, out)?;
    out.push_str(")")
}
