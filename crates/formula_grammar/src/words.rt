ghost use Rattle.std.specs.Prelude.{◌≡◌, IfOk};
ghost use Rattle.base_values.specs.Places.{IsPlace};
ghost use Rattle.formula_grammar.specs.Words.{is_lambda, called, worded, mark_place};
ghost use Rattle.formula_grammar.specs.laws.Reading as spec;
ghost use Rattle.formula_grammar.specs.laws.Outcome.{Gives, Makes};

use crate::fault::Fault;
use crate::found::{Found, FoundAll};
use crate::token::CellMark;
use base_shared::Shared;
use base_tables::{Language, function_by_name, read_boolean};
use base_values::{Position, Text, place_of};
use formula_tree::{Node, corner_to, order_corners};
use std::alloc::AllocError;

/// Whether the word before a parenthesis begins a lambda.
#[tactic(auto, unfolding(crate::specs::Words::is_lambda))]
pub fn is_lambda(word: &Text) -> bool
    ensures { result ≡ is_lambda word.now }
{
    "LAMBDA".eq_ignore_ascii_case(word.as_str())
}

/// A call of the function that has the name in the language, or of the name.
pub fn called(language: Language, word: &Text, arguments: FoundAll) -> Result<Found, Fault>
    ensures { Makes (called language word.now arguments) result }
{
    match function_by_name(word.as_str(), language) {
        Some(function) => Found::call(function, arguments),
        None => Found::named_call(word.clone()?, arguments),
    }
}

/// A word alone: a boolean of the language, or a name.
#[tactic(auto, using(crate::proofs::Depths::depths))]
pub fn worded(language: Language, word: &Text) -> Result<Found, AllocError>
    ensures { IfOk result (λ tree. tree ≡ worded language word.now) }
{
    match read_boolean(word.as_str(), language) {
        Some(value) => Ok(Found::leaf(Node::Boolean(value))),
        None => Ok(Found::leaf(Node::Name(word.clone()?))),
    }
}

/// A cell, as a formula at `place` sees it. Outside where the cell lies outside the sheet.
#[tactic(auto, using(crate::proofs::Depths::depths))]
pub fn reference(
    place: Position,
    sheet: &Option<Shared<Text>>,
    mark: CellMark,
) -> Result<Found, Fault>
    requires { IsPlace place }
    ensures { Gives (spec.reference_at place sheet.now mark (mark_place mark)) result }
{
    let Ok(at) = place_of(mark.row, mark.column) else {
        return Err(Fault::Outside);
    };
    let corner = corner_to(place, mark.absolute_row, mark.absolute_column, at);
    Ok(Found::leaf(Node::Reference(sheet.clone()?, corner)))
}

/// A range, its corners in order. Outside where one of them lies outside the sheet.
#[tactic(auto, using(crate::proofs::Depths::depths))]
pub fn range(
    place: Position,
    sheet: &Option<Shared<Text>>,
    first: CellMark,
    second: CellMark,
) -> Result<Found, Fault>
    requires { IsPlace place }
    ensures { Gives (spec.range_at place sheet.now first second (mark_place first) (mark_place second)) result }
{
    let Ok(start) = place_of(first.row, first.column) else {
        return Err(Fault::Outside);
    };
    let Ok(stop) = place_of(second.row, second.column) else {
        return Err(Fault::Outside);
    };
    let start = corner_to(place, first.absolute_row, first.absolute_column, start);
    let stop = corner_to(place, second.absolute_row, second.absolute_column, stop);
    let (lower, higher) = order_corners(place, start, stop);
    Ok(Found::range(Node::Range(sheet.clone()?, lower, higher)))
}
