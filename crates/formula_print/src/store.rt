ghost use Rattle.std.specs.Prelude.{◌≡◌, ◌<◌, ◌+◌, ◌&&◌, nat_lt, map, true, IfOk, OnOk};
ghost use Rattle.formula_print.specs.Scope as spec;

use crate::scope::Scope;
use base_shared::Shared;
use base_tables::Function;
use base_values::Items;
use formula_tree::{Node, Parameter};
use std::alloc::AllocError;

/// Whether a `LET` of so many arguments binds names: an odd count of at least 3.
fn binds_names(count: usize) -> bool
    ensures { result ≡ spec.binds_names count }
{
    3 <= count && count % 2 == 1
}

/// Whether the argument at `at` is in the place of a name: in its turn, and not the last one.
fn is_name_place(is_turn: bool, at: usize, count: usize) -> bool
    requires { at < count }
    ensures { result ≡ (is_turn && nat_lt (at + 1) count) }
{
    is_turn && at + 1 < count
}

/// A tree as Excel stores it, with the marks of bound names.
#[cycle(store)]
#[tactic(auto, using(crate::specs::laws::ScopeEquations::stores))]
pub(crate) fn stored(node: &Node, scope: &mut Scope) -> Result<Node, AllocError>
    ensures tree { IfOk result (λ tree. tree ≡ spec.stored scope.old node.now) }
    ensures scope { OnOk result (scope.new ≡ scope.old) }
{
    match node {
        Node::Boolean(value) => Ok(Node::Boolean(*value)),
        Node::Number(value) => Ok(Node::Number(*value)),
        Node::Text(text) => Ok(Node::Text(text.clone()?)),
        Node::Reference(sheet, corner) => Ok(Node::Reference(sheet.clone()?, *corner)),
        Node::Range(sheet, a, b) => Ok(Node::Range(sheet.clone()?, *a, *b)),
        Node::Colon(a, b) => Ok(Node::Colon(child(a, scope)?, child(b, scope)?)),
        Node::Concatenate(a, b) => Ok(Node::Concatenate(child(a, scope)?, child(b, scope)?)),
        Node::Compare(kind, a, b) => Ok(Node::Compare(*kind, child(a, scope)?, child(b, scope)?)),
        Node::Sum(kind, a, b) => Ok(Node::Sum(*kind, child(a, scope)?, child(b, scope)?)),
        Node::Product(kind, a, b) => Ok(Node::Product(*kind, child(a, scope)?, child(b, scope)?)),
        Node::Power(a, b) => Ok(Node::Power(child(a, scope)?, child(b, scope)?)),
        Node::Unary(kind, a) => Ok(Node::Unary(*kind, child(a, scope)?)),
        Node::Call(function, all) => Ok(Node::Call(*function, arguments(*function, all, scope)?)),
        Node::NamedCall(name, all) => Ok(Node::NamedCall(
            scope.used_name(name)?,
            stored_all(all, scope)?,
        )),
        Node::Array(lines) => Ok(Node::Array(lines.clone()?)),
        Node::Name(name) => Ok(Node::Name(scope.used_name(name)?)),
        Node::Error(error) => Ok(Node::Error(*error)),
        Node::ParseError(text) => Ok(Node::ParseError(text.clone()?)),
        Node::EmptyArgument => Ok(Node::EmptyArgument),
        Node::Spill(a) => Ok(Node::Spill(child(a, scope)?)),
        Node::Lambda(parameters, a) => lambda(parameters, a, scope),
        Node::LambdaCall(a, all) => Ok(Node::LambdaCall(child(a, scope)?, stored_all(all, scope)?)),
        Node::ImplicitIntersection(a) => Ok(Node::ImplicitIntersection(child(a, scope)?)),
    }
}

#[cycle(store)]
fn child(node: &Shared<Node>, scope: &mut Scope) -> Result<Shared<Node>, AllocError>
    ensures tree { IfOk result (λ tree. tree ≡ spec.stored scope.old node.now) }
    ensures scope { OnOk result (scope.new ≡ scope.old) }
{
    let inner = stored(node.get(), scope)?;
    Shared::new(scope.names.allocator(), inner)
}

#[cycle(store)]
#[tactic(auto, using(crate::proofs::Stores::forgets))]
fn lambda(
    parameters: &Items<Parameter>,
    body: &Shared<Node>,
    scope: &mut Scope,
) -> Result<Node, AllocError>
    ensures tree { IfOk result (λ tree. tree ≡ Node.Lambda (map spec.stored_parameter parameters.now) (spec.stored (spec.bind_parameters scope.old parameters.now) body.now)) }
    ensures scope { OnOk result (scope.new ≡ scope.old) }
{
    let outer = scope.names.len();
    scope.bind_parameters(parameters.as_slice())?;
    let body = child(body, scope)?;
    scope.forget(outer);
    Ok(Node::Lambda(scope.stored_parameters(parameters.as_slice())?, body))
}

/// The arguments of a call.
#[cycle(store)]
fn arguments(
    function: Function,
    nodes: &Items<Node>,
    scope: &mut Scope,
) -> Result<Items<Node>, AllocError>
    ensures tree { IfOk result (λ trees. trees ≡ spec.call_arguments function scope.old (map spec.scoped nodes.now)) }
    ensures scope { OnOk result (scope.new ≡ scope.old) }
{
    match function {
        Function::Let => let_arguments(nodes, scope),
        _ => stored_all(nodes, scope),
    }
}

#[cycle(store)]
#[tactic(auto, using(crate::proofs::Stores::counted))]
fn let_arguments(nodes: &Items<Node>, scope: &mut Scope) -> Result<Items<Node>, AllocError>
    ensures tree { IfOk result (λ trees. trees ≡ spec.call_arguments Function.Let scope.old (map spec.scoped nodes.now)) }
    ensures scope { OnOk result (scope.new ≡ scope.old) }
{
    if binds_names(nodes.len()) {
        bound_arguments(nodes, scope)
    } else {
        stored_all(nodes, scope)
    }
}

/// An argument of `LET`, in the place of a name or not.
#[cycle(store)]
fn argument(is_place: bool, node: &Node, scope: &mut Scope) -> Result<Node, AllocError>
    ensures tree { IfOk result (λ tree. tree ≡ spec.argument is_place scope.old (spec.declares node.now) (λ inner. spec.stored inner node.now)) }
    ensures scope { OnOk result (scope.new ≡ spec.bind_argument is_place scope.old (spec.declares node.now)) }
{
    if is_place {
        place(node, scope)
    } else {
        stored(node, scope)
    }
}

/// The arguments of a `LET` that binds names. The first, third and so on but the last are in the
/// place of a name.
#[cycle(store)]
#[tactic(auto, using(crate::proofs::Stores::turns))]
fn bound_arguments(nodes: &Items<Node>, scope: &mut Scope) -> Result<Items<Node>, AllocError>
    ensures tree { IfOk result (λ trees. trees ≡ spec.let_arguments scope.old (map spec.scoped nodes.now)) }
    ensures scope { OnOk result (scope.new ≡ scope.old) }
{
    let items = nodes.as_slice();
    let outer = scope.names.len();
    let mut trees = Items::with_room(scope.names.allocator(), items.len())?;
    let mut is_place = true;
    for (at, node) in items.iter().enumerate() {
        let binds = is_name_place(is_place, at, items.len());
        trees.push(argument(binds, node, scope)?)?;
        is_place = !is_place;
    }
    scope.forget(outer);
    Ok(trees)
}

#[cycle(store)]
#[tactic(auto, using(crate::proofs::Stores::all_stored))]
fn stored_all(nodes: &Items<Node>, scope: &mut Scope) -> Result<Items<Node>, AllocError>
    ensures tree { IfOk result (λ trees. trees ≡ spec.all_within scope.old (map spec.scoped nodes.now)) }
    ensures scope { OnOk result (scope.new ≡ scope.old) }
{
    let mut trees = Items::with_room(scope.names.allocator(), nodes.len())?;
    for node in nodes.as_slice() {
        trees.push(stored(node, scope)?)?;
    }
    Ok(trees)
}

/// What stands in the place of a name of `LET`; a name is bound from there on.
#[cycle(store)]
#[tactic(auto, using(crate::specs::laws::ScopeEquations::declarations))]
fn place(node: &Node, scope: &mut Scope) -> Result<Node, AllocError>
    ensures tree { IfOk result (λ tree. tree ≡ spec.place_of scope.old (spec.declares node.now) (λ inner. spec.stored inner node.now)) }
    ensures scope { OnOk result (scope.new ≡ spec.bind_place scope.old (spec.declares node.now)) }
{
    match node {
        Node::Name(name) => {
            scope.bind(name)?;
            Ok(Node::Name(scope.declared_name(name)?))
        }
        Node::Boolean(_) => unmarked(node, scope),
        Node::Number(_) => unmarked(node, scope),
        Node::Text(_) => unmarked(node, scope),
        Node::Reference(_, _) => unmarked(node, scope),
        Node::Range(..) => unmarked(node, scope),
        Node::Colon(_, _) => unmarked(node, scope),
        Node::Concatenate(_, _) => unmarked(node, scope),
        Node::Compare(..) => unmarked(node, scope),
        Node::Sum(..) => unmarked(node, scope),
        Node::Product(..) => unmarked(node, scope),
        Node::Power(_, _) => unmarked(node, scope),
        Node::Unary(_, _) => unmarked(node, scope),
        Node::Call(_, _) => unmarked(node, scope),
        Node::NamedCall(_, _) => unmarked(node, scope),
        Node::Array(_) => unmarked(node, scope),
        Node::Error(_) => unmarked(node, scope),
        Node::ParseError(_) => unmarked(node, scope),
        Node::EmptyArgument => unmarked(node, scope),
        Node::Spill(_) => unmarked(node, scope),
        Node::Lambda(_, _) => unmarked(node, scope),
        Node::LambdaCall(_, _) => unmarked(node, scope),
        Node::ImplicitIntersection(_) => unmarked(node, scope),
    }
}

/// A tree in which no name is marked.
#[cycle(store)]
fn unmarked(node: &Node, scope: &mut Scope) -> Result<Node, AllocError>
    ensures tree { IfOk result (λ tree. tree ≡ spec.stored (spec.unmarked scope.old) node.now) }
    ensures scope { OnOk result (scope.new ≡ scope.old) }
{
    let marks = scope.marks;
    scope.marks = false;
    let tree = stored(node, scope)?;
    scope.marks = marks;
    Ok(tree)
}
