ghost use Rattle.std.specs.Prelude.{◌≡◌, ◌≤◌, ◌≤ℤ◌, ◌<◌, ◌^◌, ◌++◌, ◌∷◌, [], true, decimal, length, pos, IfSome, OnOk};
ghost use Rattle.base_tables.specs.Column.{is_letter, column_letters};
ghost use Rattle.std.specs.List.{list_all, prefix_len};
ghost use Rattle.base_values.specs.Places.{IsPlace};
ghost use Rattle.script_lines.specs.CommandFits.{IsNamed};
ghost use Rattle.script_lines.specs.References as spec;

use crate::number::read_u32;
use crate::parts::split_first;
use base_axis::MergedCell;
use base_tables::{column_text, is_letter, letters_number};
use base_values::Position;
use std::alloc::{AllocError, Global};

/// The row and column that a reference names, which may lie outside every sheet.
#[derive(Clone, Copy, Debug)]
pub(crate) struct Reference {
    pub row: i32,
    pub column: i32,
}

/// How many letters stand at the front.
fn letters_len(bytes: &[u8]) -> usize
    ensures value { result ≡ prefix_len is_letter bytes.now }
    ensures within { result ≤ length bytes.now }
{
    for (at, byte) in bytes.iter().enumerate() {
        if !is_letter(*byte) {
            return at;
        }
    }
    bytes.len()
}

/// The column that one to three letters name.
fn column_of(letters: &[u8]) -> Option<u32>
    requires { list_all is_letter letters.now ≡ true }
    ensures value { result ≡ spec.read_column letters.now }
    ensures small { IfSome result (λ column. column < 2 ^ 31) }
{
    if letters.is_empty() || letters.len() > 3 {
        return None;
    }
    Some(letters_number(letters))
}

/// The row that one to seven digits name.
fn row_of(digits: &[u8]) -> Option<u32>
    ensures value { result ≡ spec.read_row digits.now }
    ensures small { IfSome result (λ row. row < 10000000) }
{
    if digits.is_empty() || digits.len() > 7 {
        return None;
    }
    read_u32(digits)
}

/// A number as a line that may lie outside a sheet.
fn signed(number: u32) -> i32
    requires { number < 2 ^ 31 }
    ensures { result ≡ pos number }
{
    number as i32
}

/// The row and column that letters and then digits name.
fn reference_of(bytes: &[u8]) -> Option<Reference>
    ensures { result ≡ spec.reference_of bytes.now }
{
    let (letters, digits) = bytes.split_at(letters_len(bytes));
    let Some(column) = column_of(letters) else {
        return None;
    };
    let Some(row) = row_of(digits) else {
        return None;
    };
    Some(Reference {
        row: signed(row),
        column: signed(column),
    })
}

/// The row and column that the bytes name: letters, and then digits.
pub(crate) fn read_reference(bytes: &[u8]) -> Option<Reference>
    ensures value { result ≡ spec.reference_of bytes.now }
    ensures named { IfSome result (λ place. IsNamed place.row place.column) }
{
    reference_of(bytes)
}

/// The lines from one to another, in any order: the first of them, and how many they are.
fn lines_between(a: i32, b: i32) -> (i32, i32)
    requires low { pos 0 ≤ℤ a }
    requires high { a ≤ℤ pos 9999999 }
    requires other_low { pos 0 ≤ℤ b }
    requires other_high { b ≤ℤ pos 9999999 }
    ensures first { result.0 ≡ spec.first_between a b }
    ensures count { result.1 ≡ spec.count_between a b }
{
    if a <= b {
        (a, b - a + 1)
    } else {
        (b, a - b + 1)
    }
}

fn area_at(place: Reference) -> MergedCell
    ensures { result ≡ spec.area_at place }
{
    MergedCell {
        row: place.row,
        column: place.column,
        width: 1,
        height: 1,
    }
}

fn area_between(a: Reference, b: Reference) -> MergedCell
    requires one { IsNamed a.row a.column }
    requires other { IsNamed b.row b.column }
    ensures { result ≡ spec.area_between a b }
{
    let (row, height) = lines_between(a.row, b.row);
    let (column, width) = lines_between(a.column, b.column);
    MergedCell {
        row,
        column,
        width,
        height,
    }
}

/// The area that two references name.
fn read_corners(one: &[u8], other: &[u8]) -> Option<MergedCell>
    ensures { result ≡ spec.area_of_parts (one.now ∷ other.now ∷ []) }
{
    let Some(a) = read_reference(one) else {
        return None;
    };
    let Some(b) = read_reference(other) else {
        return None;
    };
    Some(area_between(a, b))
}

/// The area that the bytes name: one place, or two opposite corners with a colon between them.
pub(crate) fn read_area(bytes: &[u8]) -> Option<MergedCell>
    ensures { result ≡ spec.area_of bytes.now }
{
    let (one, rest) = split_first(bytes, b':');
    let Some(rest) = rest else {
        return read_reference(one).map(area_at);
    };
    let (other, more) = split_first(rest, b':');
    match more {
        None => read_corners(one, other),
        Some(_) => None,
    }
}

/// A line of a sheet as a number without a sign.
fn unsigned(line: i32) -> u32
    requires { pos 1 ≤ℤ line }
    ensures { line ≡ pos result }
{
    line as u32
}

fn push_letters(alloc: Global, out: &mut Vec<u8>, column: u32) -> Result<(), AllocError>
    requires low { 1 ≤ column }
    requires high { column ≤ 16384 }
    ensures { OnOk result (out.new.items ≡ out.old.items ++ column_letters column) }
{
    let text = column_text(alloc, column)?;
    out.extend_from_slice(text.as_bytes())
}

fn push_decimal(alloc: Global, out: &mut Vec<u8>, number: u32) -> Result<(), AllocError>
    ensures { OnOk result (out.new.items ≡ out.old.items ++ decimal number) }
{
    let text = number.to_string(alloc)?;
    out.extend_from_slice(text.as_bytes())
}

/// Writes the name of a place at the end: the letters of its column in capitals, then its row.
/// Where memory ends, a front of it may have been written.
pub fn push_reference(alloc: Global, out: &mut Vec<u8>, place: Position) -> Result<(), AllocError>
    requires { IsPlace place }
    ensures { OnOk result (out.new.items ≡ out.old.items ++ spec.reference_text place) }
{
    push_letters(alloc, out, unsigned(place.column))?;
    push_decimal(alloc, out, unsigned(place.row))
}

/// The law of the names of places: the name of a place names that place.
pub fn references_read_again()
    ensures { spec.IsReadAgain }
{}
