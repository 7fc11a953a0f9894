//! Which line is selected where lines are hidden.

ghost use Rattle.std.specs.Prelude.{◌≡◌, ◌≤ℤ◌, ◌+ℤ◌, ◌-ℤ◌, pos};
ghost use Rattle.std.specs.Option.{option_copied};
ghost use Rattle.sheet_grid.specs.Lines.{is_hidden};
ghost use Rattle.line_sizes.specs.LineChanges.{line_count};
ghost use Rattle.line_sizes.specs.ShownLines.{shown_from, shown_before, next_shown};

use crate::change::{count_between, line_at};
use base_axis::{Axis, AxisMap};
use sheet_grid::LineAttr;

fn is_hidden(entry: Option<&LineAttr>) -> bool
    ensures { result ≡ is_hidden (option_copied entry.entry) }
{
    match entry {
        Some(attr) => attr.hidden,
        None => false,
    }
}

/// The first line that is shown of so many from one on.
fn shown_from<A: Axis>(lines: &AxisMap<A, LineAttr>, first: i32, count: u32) -> Option<i32>
    requires low { pos 1 ≤ℤ first }
    requires high { (first +ℤ pos count) ≤ℤ pos 1048577 }
    ensures { result ≡ shown_from lines.now first count }
{
    for index in 0..count {
        let line = line_at(first, index);
        if !is_hidden(lines.get(line)) {
            return Some(line);
        }
    }
    None
}

/// The line that stands so many lines before another one.
fn line_before(line: i32, index: u32) -> i32
    requires low { pos index ≤ℤ line }
    requires high { line ≤ℤ pos 1048576 }
    ensures { result ≡ line -ℤ pos index }
{
    line - index as i32
}

/// The nearest line that is shown of so many up to one.
fn shown_before<A: Axis>(lines: &AxisMap<A, LineAttr>, line: i32, count: u32) -> Option<i32>
    requires low { pos count ≤ℤ line }
    requires high { line ≤ℤ pos 1048576 }
    ensures { result ≡ shown_before lines.now line count }
{
    for index in 0..count {
        let before = line_before(line, index);
        if !is_hidden(lines.get(before)) {
            return Some(before);
        }
    }
    None
}

/// The first line that is shown behind one.
fn shown_behind<A: Axis>(lines: &AxisMap<A, LineAttr>, last: i32) -> Option<i32>
    requires low { pos 1 ≤ℤ last }
    requires high { last ≤ℤ A.along.last }
    ensures { result ≡ shown_from lines.now (last +ℤ pos 1) (line_count (last +ℤ pos 1) A.along.last) }
{
    shown_from(lines, last + 1, count_between(last + 1, A::LAST))
}

/// The nearest line that is shown before one.
fn shown_ahead<A: Axis>(lines: &AxisMap<A, LineAttr>, first: i32) -> Option<i32>
    requires low { pos 1 ≤ℤ first }
    requires high { first ≤ℤ pos 1048576 }
    ensures { result ≡ shown_before lines.now (first -ℤ pos 1) (line_count (pos 1) (first -ℤ pos 1)) }
{
    let line = first - 1;
    shown_before(lines, line, count_between(1, line))
}

/// The next line that is shown behind those from a first to a last, else the nearest one before them,
/// else line 1. It takes no memory.
pub fn next_shown<A: Axis>(lines: &AxisMap<A, LineAttr>, first: i32, last: i32) -> i32
    requires low { pos 1 ≤ℤ first }
    requires order { first ≤ℤ last }
    requires high { last ≤ℤ A.along.last }
    ensures { result ≡ next_shown A.along.last lines.now first last }
{
    match shown_behind(lines, last) {
        Some(line) => line,
        None => shown_ahead(lines, first).unwrap_or(1),
    }
}
