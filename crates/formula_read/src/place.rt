ghost use Rattle.std.specs.Prelude.{◌≡◌, true};
ghost use Rattle.std.specs.List.{list_all};
ghost use Rattle.std.specs.Str.{chars};
ghost use Rattle.base_tables.specs.Word.{is_digit};
ghost use Rattle.formula_read.specs.Lexicon.{row_of_name};
ghost use Rattle.formula_read.specs.laws.Lex as spec;
ghost use Rattle.formula_read.specs.laws.Outcome.{seen};

use crate::characters::{Class, dollar, ends_place, past, run};
use base_tables::{capped_number, column_to_number};
use base_values::{LAST_COLUMN, LAST_ROW};
use formula_grammar::CellMark;

/// A column or a row as a text names it: its number, counted from 1, and whether a `$` stands before it.
#[derive(Clone, Copy)]
pub struct Line {
    pub absolute: bool,
    pub number: i32,
}

/// What stands on one side of a range: a cell, a column or a row.
#[derive(Clone, Copy)]
pub enum Side {
    Cell(CellMark),
    Column(Line),
    Row(Line),
}

/// What stands at the front of a text, with its corners as written. Of whole columns the rows are the
/// absolute first and last one, of whole rows the columns.
#[derive(Clone, Copy)]
pub enum Spot {
    Cell(CellMark),
    Range(CellMark, CellMark),
}

/// The row that digits name.
#[tactic(auto, unfolding(base_tables::specs::Word::is_count, base_tables::specs::Word::digits_number))]
fn row_of(digits: &[u8]) -> Option<i32>
    requires { list_all is_digit digits.now ≡ true }
    ensures { result ≡ row_of_name digits.now }
{
    match digits {
        [] | [b'0', ..] => return None,
        _ => {}
    }
    let number = capped_number(0, digits, 1_048_577) as i32;
    if number <= LAST_ROW {
        Some(number)
    } else {
        None
    }
}

/// A column at the front of the text, and what follows it.
#[tactic(auto, unfolding(crate::specs::laws::Lex::line_at), using(crate::proofs::Places::letter_bytes))]
fn column(text: &str) -> Option<(Line, &str)>
    ensures { seen result ≡ spec.column_at (chars text.now) }
{
    let (absolute, rest) = dollar(text);
    let (letters, rest) = run(Class::Letter, rest);
    let number = column_to_number(letters)?;
    Some((Line { absolute, number }, rest))
}

/// A row at the front of the text, and what follows it.
#[tactic(auto, unfolding(crate::specs::laws::Lex::line_at), using(crate::proofs::Places::digits))]
fn row(text: &str) -> Option<(Line, &str)>
    ensures { seen result ≡ spec.row_at (chars text.now) }
{
    let (absolute, rest) = dollar(text);
    let (digits, rest) = run(Class::Digit, rest);
    let number = row_of(digits.as_bytes())?;
    Some((Line { absolute, number }, rest))
}

fn mark(column: Line, row: Line) -> CellMark
    ensures { result ≡ spec.mark_of column row }
{
    CellMark {
        absolute_row: row.absolute,
        row: row.number,
        absolute_column: column.absolute,
        column: column.number,
    }
}

fn absolute_line(number: i32) -> Line
    ensures { result ≡ spec.absolute_line number }
{
    Line {
        absolute: true,
        number,
    }
}

/// A cell, or else a column or a row alone, at the front of the text.
#[tactic(auto, unfolding(crate::specs::laws::Lex::corner_at))]
fn corner(text: &str) -> Option<(Side, &str)>
    ensures { seen result ≡ spec.corner_at (chars text.now) }
{
    let Some((column, rest)) = column(text) else {
        let (row, rest) = row(text)?;
        return Some((Side::Row(row), rest));
    };
    match row(rest) {
        Some((row, rest)) => Some((Side::Cell(mark(column, row)), rest)),
        None => Some((Side::Column(column), rest)),
    }
}

/// The corners of the range between two sides of one kind.
fn between(first: Side, second: Side) -> Option<(CellMark, CellMark)>
    ensures { result ≡ spec.between first second }
{
    match (first, second) {
        (Side::Cell(first), Side::Cell(second)) => Some((first, second)),
        (Side::Column(first), Side::Column(second)) => Some((
            mark(first, absolute_line(1)),
            mark(second, absolute_line(LAST_ROW)),
        )),
        (Side::Row(first), Side::Row(second)) => Some((
            mark(absolute_line(1), first),
            mark(absolute_line(LAST_COLUMN), second),
        )),
        _ => None,
    }
}

/// The corners of a range from this side, behind which the text stands.
#[tactic(auto, unfolding(crate::specs::laws::Lex::range_behind))]
fn range(first: Side, text: &str) -> Option<((CellMark, CellMark), &str)>
    ensures { seen result ≡ spec.range_behind first (chars text.now) }
{
    let (second, rest) = corner(past(':', text)?)?;
    if !ends_place(rest) {
        return None;
    }
    Some((between(first, second)?, rest))
}

/// This side by itself, behind which the text stands, where it is a cell.
fn cell(side: Side, text: &str) -> Option<(Spot, &str)>
    ensures { seen result ≡ spec.cell_alone side (chars text.now) }
{
    match side {
        Side::Cell(mark) if ends_place(text) => Some((Spot::Cell(mark), text)),
        _ => None,
    }
}

/// A range, or else a cell, at the front of the text, and what follows it. Each line is read once.
#[tactic(auto, unfolding(crate::specs::laws::Lex::spot_at))]
pub fn place(text: &str) -> Option<(Spot, &str)>
    ensures { seen result ≡ spec.spot_at (chars text.now) }
{
    let (first, rest) = corner(text)?;
    match range(first, rest) {
        Some(((first, second), rest)) => Some((Spot::Range(first, second), rest)),
        None => cell(first, rest),
    }
}
