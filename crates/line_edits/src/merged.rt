//! What an edit makes of merges, and what it splits.

ghost use Rattle.std.specs.Prelude.{◌≡◌, ◌&&◌, ◌||◌, not, ◌+ℤ◌, ◌-ℤ◌, ◌≤ℤ◌, pos, Some, IfSome, FitsSigned};
ghost use Rattle.std.specs.Int.{w64};
ghost use Rattle.base_values.specs.Places.{IsLine};
ghost use Rattle.line_edits.specs.declared.edit.EditKind.TheVariants.{Insert, Delete, Move};
ghost use Rattle.line_edits.specs.Edit.{moved_by, IsValid};
ghost use Rattle.line_edits.specs.Merged.{AreLines, pushed_on, cut_to, fallen_to, if_merge, merged_by};
ghost use Rattle.line_edits.specs.Splits.{meets_block, is_in_whole, passed_from, passed_count, splits};

use crate::edit::{EditKind, passed};

/// Whether what stands from a first to a last line has a line of a block: of so many lines from
/// the first of them on.
fn meets_block(start: i64, count: i64, first: i32, last: i32) -> bool
    requires { FitsSigned w64 (start +ℤ count) }
    ensures { result ≡ meets_block start count first last }
{
    i64::from(first) < start + count && start <= i64::from(last)
}

/// Whether all its lines are of a block.
fn is_in_whole(start: i64, count: i64, first: i32, last: i32) -> bool
    requires { FitsSigned w64 (start +ℤ count) }
    ensures { result ≡ is_in_whole start count first last }
{
    start <= i64::from(first) && i64::from(last) < start + count
}

/// The first of the lines that a block passes which moves.
fn passed_from(start: i32, count: i32, delta: i32) -> i64
    ensures value { result ≡ passed_from start count delta }
    ensures low { (pos 0 -ℤ pos 4294967296) ≤ℤ result }
    ensures high { result ≤ℤ pos 4294967296 }
{
    if delta < 0 {
        i64::from(start) + i64::from(delta)
    } else {
        i64::from(start) + i64::from(count)
    }
}

/// How many lines it passes.
fn passed_count(delta: i32) -> i64
    ensures value { result ≡ passed_count delta }
    ensures low { pos 0 ≤ℤ result }
    ensures high { result ≤ℤ pos 2147483648 }
{
    if delta < 0 {
        0 - i64::from(delta)
    } else {
        i64::from(delta)
    }
}

/// Whether an insertion comes between its lines.
#[tactic(auto, unfolding(crate::specs::Splits::splits))]
fn is_split_by_insertion(start: i32, count: i32, first: i32, last: i32) -> bool
    ensures { result ≡ splits (EditKind.Insert start count) first last }
{
    first < start && start <= last
}

/// Whether a deletion takes some of its lines and leaves others.
#[tactic(auto, unfolding(crate::specs::Splits::splits))]
fn is_split_by_deletion(start: i32, count: i32, first: i32, last: i32) -> bool
    ensures { result ≡ splits (EditKind.Delete start count) first last }
{
    let (start, count) = (i64::from(start), i64::from(count));
    meets_block(start, count, first, last) && !is_in_whole(start, count, first, last)
}

/// Whether it has lines of one block or of another one, and not all its lines are of one of them.
fn is_split(of_one: bool, of_other: bool, whole_of_one: bool, whole_of_other: bool) -> bool
    ensures { result ≡ ((of_one || of_other) && not (whole_of_one || whole_of_other)) }
{
    (of_one || of_other) && !(whole_of_one || whole_of_other)
}

/// Whether a move takes some of its lines along, and it does not go as a whole.
fn is_split_by_move(start: i32, count: i32, delta: i32, first: i32, last: i32) -> bool
    ensures { result ≡ splits (EditKind.Move start count delta) first last }
{
    let (passed, passed_count) = (passed_from(start, count, delta), passed_count(delta));
    let (start, count) = (i64::from(start), i64::from(count));
    is_split(
        meets_block(start, count, first, last),
        meets_block(passed, passed_count, first, last),
        is_in_whole(start, count, first, last),
        is_in_whole(passed, passed_count, first, last),
    )
}

/// Where a line comes to stand when lines come.
fn pushed_on(start: i32, count: i32, line: i32) -> i64
    requires count { pos 1 ≤ℤ count }
    requires line { pos 1 ≤ℤ line }
    ensures value { result ≡ pushed_on start count line }
    ensures low { pos 1 ≤ℤ result }
    ensures high { result ≤ℤ pos 4294967296 }
{
    if line < start {
        i64::from(line)
    } else {
        i64::from(line) + i64::from(count)
    }
}

/// The line, or the last one of the axis where it is past it.
fn cut_to(last: i32, line: i64) -> i64
    requires last { pos 1 ≤ℤ last }
    requires line { pos 1 ≤ℤ line }
    ensures value { result ≡ cut_to last line }
    ensures low { pos 1 ≤ℤ result }
    ensures high { result ≤ℤ last }
{
    if i64::from(last) < line {
        i64::from(last)
    } else {
        line
    }
}

/// Where the first or the last line of a merge comes to stand when the lines of a block go: one of
/// these stands there.
fn fallen_to(start: i32, count: i32, there: i64, line: i32) -> i64
    requires low { pos 0 ≤ℤ there }
    requires high { there ≤ℤ start }
    requires count { pos 1 ≤ℤ count }
    requires line { pos 1 ≤ℤ line }
    ensures value { result ≡ fallen_to start count there line }
    ensures low { pos 0 ≤ℤ result }
    ensures high { result ≤ℤ line }
{
    if line < start {
        return i64::from(line);
    }
    if i64::from(line) < i64::from(start) + i64::from(count) {
        return there;
    }
    i64::from(line) - i64::from(count)
}

/// These lines of a merge, so many cross lines wide. `None` where there is none, or one cell.
#[tactic(auto, unfolding(crate::specs::Merged::if_merge))]
fn if_merge(axis_last: i32, across: i32, first: i64, last: i64) -> Option<(i32, i32)>
    requires first { pos 0 ≤ℤ first }
    requires last { last ≤ℤ axis_last }
    ensures { result ≡ if_merge across first last }
{
    if last < first || first == last && across == 1 {
        return None;
    }
    Some((first as i32, last as i32))
}

/// Where a line of the axis goes when a block of lines moves.
fn moved_line(last: i32, start: i32, count: i32, delta: i32, line: i32) -> i32
    requires valid { IsValid last (EditKind.Move start count delta) }
    requires line { IsLine last line }
    ensures { result ≡ line +ℤ moved_by start count delta line }
{
    match passed(last, start, count, delta, line) {
        Some(there) => there,
        None => line,
    }
}

/// What an insertion makes of a merge.
#[tactic(auto, unfolding(crate::specs::Edit::is_valid))]
fn inserted(
    axis_last: i32,
    start: i32,
    count: i32,
    lines: (i32, i32),
    across: i32,
) -> Option<(i32, i32)>
    requires valid { IsValid axis_last (EditKind.Insert start count) }
    requires lines { AreLines axis_last lines.0 lines.1 }
    ensures { result ≡ merged_by axis_last (EditKind.Insert start count) lines.0 lines.1 across }
{
    let (first, last) = lines;
    let last = cut_to(axis_last, pushed_on(start, count, last));
    if_merge(axis_last, across, pushed_on(start, count, first), last)
}

/// What a deletion makes of a merge.
#[tactic(auto, unfolding(crate::specs::Edit::is_valid))]
fn deleted(
    axis_last: i32,
    start: i32,
    count: i32,
    lines: (i32, i32),
    across: i32,
) -> Option<(i32, i32)>
    requires valid { IsValid axis_last (EditKind.Delete start count) }
    requires lines { AreLines axis_last lines.0 lines.1 }
    ensures { result ≡ merged_by axis_last (EditKind.Delete start count) lines.0 lines.1 across }
{
    let (first, last) = lines;
    let first = fallen_to(start, count, i64::from(start), first);
    let last = fallen_to(start, count, i64::from(start) - 1, last);
    if_merge(axis_last, across, first, last)
}

/// What a move makes of a merge: what it splits stays.
#[tactic(auto, unfolding(crate::specs::Merged::merged_by))]
fn moved(
    axis_last: i32,
    start: i32,
    count: i32,
    delta: i32,
    lines: (i32, i32),
    across: i32,
) -> (i32, i32)
    requires valid { IsValid axis_last (EditKind.Move start count delta) }
    requires lines { AreLines axis_last lines.0 lines.1 }
    ensures { Some result ≡ merged_by axis_last (EditKind.Move start count delta) lines.0 lines.1 across }
{
    let (first, last) = lines;
    if is_split_by_move(start, count, delta, first, last) {
        return lines;
    }
    let first = moved_line(axis_last, start, count, delta, first);
    (first, moved_line(axis_last, start, count, delta, last))
}

impl EditKind {
    /// Whether it splits what stands from a first to a last line.
    pub(crate) fn splits(self, first: i32, last: i32) -> bool
        ensures { result ≡ splits self first last }
    {
        match self {
            EditKind::Insert {
                first: start,
                count,
            } => is_split_by_insertion(start, count, first, last),
            EditKind::Delete {
                first: start,
                count,
            } => is_split_by_deletion(start, count, first, last),
            EditKind::Move {
                first: start,
                count,
                delta,
            } => is_split_by_move(start, count, delta, first, last),
        }
    }

    /// What it makes of a merge, which stands on these lines of the axis.
    pub(crate) fn merged(self, axis_last: i32, lines: (i32, i32), across: i32) -> Option<(i32, i32)>
        requires valid { IsValid axis_last self }
        requires lines { AreLines axis_last lines.0 lines.1 }
        ensures { result ≡ merged_by axis_last self lines.0 lines.1 across }
    {
        match self {
            EditKind::Insert { first, count } => inserted(axis_last, first, count, lines, across),
            EditKind::Delete { first, count } => deleted(axis_last, first, count, lines, across),
            EditKind::Move {
                first,
                count,
                delta,
            } => Some(moved(axis_last, first, count, delta, lines, across)),
        }
    }
}
