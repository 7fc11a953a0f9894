//! Changes of what lines have of their own.

ghost use Rattle.std.specs.Prelude.{◌≡◌, ◌≢◌, ◌≤ℤ◌, ◌+ℤ◌, ◌-ℤ◌, pos, Ok, Err, IfOk, OnOk};
ghost use Rattle.std.specs.Option.{option_copied};
ghost use Rattle.base_values.specs.Answers.{Returns};
ghost use Rattle.base_values.specs.declared.EditError.TheVariants.{NoMemory};
ghost use Rattle.sheet_grid.specs.Lines.{attr_of, stored_line, own_width, size_of};
ghost use Rattle.line_sizes.specs.LineChanges.{after_change, changed_entry, has_lines, height_change, width_change, line_count, lines_from};

use base_values::{EditError, Exact, copy_of};
use sheet_grid::{LineAttr, USUAL_WIDTH};

/// A change of what a line has of its own.
#[derive(Clone, Copy, Debug, PartialEq, Eq)]
pub enum LineChange {
    /// The line gets a size of its own, in half pixels, or loses it.
    Size(Option<i32>),
    /// The line is hidden, or shown.
    Hidden(bool),
}

impl Exact for LineChange {
    ghost use Rattle.std.proofs.Common.{rules};
    ghost use Rattle.line_sizes.specs.laws.ChangeEquals.{line_change_equals};

    ghost copies = { λ a b h. Prim.search rules };

    ghost equals = { line_change_equals };
}

#[tactic(auto, unfolding(sheet_grid::specs::Lines::size_of))]
fn size_of(size: i32) -> Result<i32, EditError>
    ensures size { result ≡ size_of size }
    ensures sure { result ≢ Err NoMemory }
{
    if size >= 0 {
        Ok(size)
    } else {
        Err(EditError::NegativeSize)
    }
}

fn own_width(width: i32) -> Option<i32>
    ensures { result ≡ own_width width }
{
    if width == USUAL_WIDTH {
        None
    } else {
        Some(width)
    }
}

/// The change of rows to a height in half pixels, which is their own from then on, also where it is
/// 56. It takes no memory.
///
/// `NegativeSize` where the height is below 0.
pub fn height_change(height: i32) -> Result<LineChange, EditError>
    ensures change { result ≡ height_change height }
    ensures sure { result ≢ Err NoMemory }
{
    let size = size_of(height)?;
    Ok(LineChange::Size(Some(size)))
}

/// The change of columns to a width in half pixels. The width 250 takes their own away. It takes no
/// memory.
///
/// `NegativeSize` where the width is below 0.
pub fn width_change(width: i32) -> Result<LineChange, EditError>
    ensures change { result ≡ width_change width }
    ensures sure { result ≢ Err NoMemory }
{
    let size = size_of(width)?;
    Ok(LineChange::Size(own_width(size)))
}

/// A copy of what a line has, also where that is nothing.
fn attr_of(entry: Option<&LineAttr>) -> Result<LineAttr, EditError>
    ensures { Returns result (Ok (attr_of (option_copied entry.entry))) }
{
    match entry {
        Some(attr) => copy_of(attr),
        None => Ok(LineAttr {
            size: None,
            style: None,
            hidden: false,
        }),
    }
}

/// What a sheet stores of a line: nothing where it has nothing of its own.
fn stored_line(attr: LineAttr) -> Option<LineAttr>
    ensures { result ≡ stored_line (Some attr) }
{
    if attr.is_plain() { None } else { Some(attr) }
}

fn after_change(change: LineChange, attr: LineAttr) -> LineAttr
    ensures { result ≡ after_change change attr }
{
    match change {
        LineChange::Size(size) => LineAttr {
            size,
            style: attr.style,
            hidden: attr.hidden,
        },
        LineChange::Hidden(hidden) => LineAttr {
            size: attr.size,
            style: attr.style,
            hidden,
        },
    }
}

/// What a line has after a change, if it has something. The style stays. `NoMemory` alone is an
/// error.
pub fn changed_entry(
    change: LineChange,
    entry: Option<&LineAttr>,
) -> Result<Option<LineAttr>, EditError>
    ensures { Returns result (Ok (changed_entry change (option_copied entry.entry))) }
{
    let attr = attr_of(entry)?;
    Ok(stored_line(after_change(change, attr)))
}

/// Whether two lines are of an axis that ends with a line, the second one not before the first. It takes
/// no memory.
pub fn has_lines(end: i32, first: i32, last: i32) -> bool
    ensures { result ≡ has_lines end first last }
{
    1 <= first && first <= last && last <= end
}

/// How many lines there are from a first to a last, where the last one may be just before the first.
pub(crate) fn count_between(first: i32, last: i32) -> u32
    requires low { pos 1 ≤ℤ first }
    requires order { first ≤ℤ (last +ℤ pos 1) }
    requires high { last ≤ℤ pos 1048576 }
    ensures count { result ≡ line_count first last }
    ensures exact { pos result ≡ ((last -ℤ first) +ℤ pos 1) }
{
    (last - first + 1).unsigned_abs()
}

/// How many lines there are from a first to a last, if these are lines of an axis that ends with a
/// line, and the last one is not before the first. It takes no memory.
///
/// `InvalidArea` where they are not.
#[tactic(auto, unfolding(crate::specs::LineChanges::lines_from))]
pub fn line_count(end: i32, first: i32, last: i32) -> Result<u32, EditError>
    requires { end ≤ℤ pos 1048576 }
    ensures count { result ≡ lines_from end first last }
    ensures low { OnOk result (pos 1 ≤ℤ first) }
    ensures high { IfOk result (λ count. (first +ℤ pos count) ≤ℤ pos 1048577) }
    ensures sure { result ≢ Err NoMemory }
{
    if has_lines(end, first, last) {
        Ok(count_between(first, last))
    } else {
        Err(EditError::InvalidArea)
    }
}

/// The line that stands so many lines behind another one.
pub fn line_at(first: i32, index: u32) -> i32
    requires low { pos 1 ≤ℤ first }
    requires high { (first +ℤ pos index) ≤ℤ pos 1048576 }
    ensures { result ≡ first +ℤ pos index }
{
    first + index as i32
}
