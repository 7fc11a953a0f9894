ghost use Rattle.std.specs.Prelude.{◌≡◌, ◌&&◌, ◌≤ℤ◌, ◌+ℤ◌, ◌-ℤ◌, ℤ, pos, Bool, Some, IfSome, FitsSigned};
ghost use Rattle.std.specs.Int.{w64};
ghost use Rattle.base_values.specs.Places.{IsLine, as_line};
ghost use Rattle.line_edits.specs.Edit.{image_at, goes_to, is_in_block, opposite_of, begins_inside, is_valid, IsValid};
ghost use Rattle.line_edits.specs.Lost.{pushed_from, lost_from, lost_to, beside_lost};
ghost use Rattle.line_edits.specs.Moves.{inserted_by, edit_moves};
ghost use Rattle.line_edits.specs.Splits.{splits};

use crate::line_map::LineMap;
use base_axis::{Axis, last_of};
use base_values::{EditError, Exact, as_line, is_line};
use std::alloc::Global;
use std::marker::PhantomData;

/// Lines of an axis: the first of them, and how many.
#[derive(Clone, Copy, Debug, PartialEq, Eq)]
pub struct Block {
    pub first: i32,
    pub count: i32,
}

impl Exact for Block {
    ghost use Rattle.line_edits.specs.laws.Equals.{block_equals};

    ghost copies = { λ a b h. h };

    ghost equals = { block_equals };
}

/// What an edit does to the lines of an axis.
#[derive(Clone, Copy, Debug, PartialEq, Eq)]
pub enum EditKind {
    /// `count` empty lines come to stand at `first` and after it.
    Insert { first: i32, count: i32 },
    /// The lines from `first` on go, `count` of them.
    Delete { first: i32, count: i32 },
    /// `count` lines from `first` on go on by `delta` lines, or back where it is below 0. The lines
    /// that they pass go by `count` the other way.
    Move { first: i32, count: i32, delta: i32 },
}

impl Exact for EditKind {
    ghost use Rattle.line_edits.specs.laws.Equals.{kind_equals};

    ghost copies = { λ a b h. h };

    ghost equals = { kind_equals };
}

/// An edit of whole lines along an axis. docs/MODEL.md says where each line goes.
#[derive_where(Clone, Copy, PartialEq, Eq)]
pub struct LineEdit<A: Axis> {
    pub kind: EditKind,
    pub axis: PhantomData<A>,
}

impl<A: Axis> Exact for LineEdit<A> {
    ghost use Rattle.std.proofs.Common.{rules, refl, ap};
    ghost use Rattle.std.proofs.lemmas.Bool.Decides.{Decides-like, Decides-and};
    ghost use Rattle.line_edits.specs.laws.Equals.{kind_equals, own_value};

    ghost copies = { λ a b h. Prim.search rules };

    ghost equals = { λ a b. Decides-like _ (λ p i. record { kind = p.0 i; axis = a.axis }) (λ e. (ap (λ x. x.kind) e, refl)) (Decides-and _ _ (kind_equals a.kind b.kind) (own_value a.axis)) };
}

/// Where a line of the axis goes when lines come.
#[tactic(auto, unfolding(crate::specs::Edit::goes_to))]
fn inserted(last: i32, first: i32, count: i32, line: i32) -> Option<i32>
    requires { IsLine last line }
    ensures value { result ≡ goes_to last (EditKind.Insert first count) line }
    ensures inside { IfSome result (IsLine last) }
{
    if line < first {
        return Some(line);
    }
    as_line(last, i64::from(line) + i64::from(count))
}

/// Where a line of the axis goes when the lines from `gone` on go.
#[tactic(auto, unfolding(crate::specs::Edit::goes_to))]
fn deleted(last: i32, gone: i32, count: i32, line: i32) -> Option<i32>
    requires { IsLine last line }
    ensures value { result ≡ goes_to last (EditKind.Delete gone count) line }
    ensures inside { IfSome result (IsLine last) }
{
    if line < gone {
        return Some(line);
    }
    if i64::from(line) < i64::from(gone) + i64::from(count) {
        return None;
    }
    as_line(last, i64::from(line) - i64::from(count))
}

/// Whether a line is one of so many from the first of them on.
#[tactic(auto, unfolding(crate::specs::Edit::is_in_block))]
fn is_in_block(first: i64, count: i64, line: i32) -> bool
    requires { FitsSigned w64 (first +ℤ count) }
    ensures { result ≡ is_in_block first count line }
{
    first <= i64::from(line) && i64::from(line) < first + count
}

/// Whether a line is one that a block passes on its way down.
#[tactic(auto, using(crate::proofs::Casts::casts))]
fn is_passed_down(first: i32, count: i32, delta: i32, line: i32) -> bool
    ensures { result ≡ is_in_block (first +ℤ count) delta line }
{
    is_in_block(i64::from(first) + i64::from(count), i64::from(delta), line)
}

/// Whether a line is one that a block passes on its way up.
#[tactic(auto, using(crate::proofs::Casts::casts))]
fn is_passed_up(first: i32, delta: i32, line: i32) -> bool
    ensures { result ≡ is_in_block (first +ℤ delta) (pos 0 -ℤ delta) line }
{
    is_in_block(
        i64::from(first) + i64::from(delta),
        0 - i64::from(delta),
        line,
    )
}

/// Where a line of the axis goes when a block of lines moves.
#[tactic(auto, using(crate::proofs::Casts::casts), unfolding(crate::specs::Edit::goes_to, crate::specs::Edit::moved_by))]
pub(crate) fn passed(last: i32, first: i32, count: i32, delta: i32, line: i32) -> Option<i32>
    ensures value { result ≡ goes_to last (EditKind.Move first count delta) line }
    ensures inside { IfSome result (IsLine last) }
{
    if is_in_block(i64::from(first), i64::from(count), line) {
        return as_line(last, i64::from(line) + i64::from(delta));
    }
    if is_passed_down(first, count, delta, line) {
        return as_line(last, i64::from(line) + (0 - i64::from(count)));
    }
    if is_passed_up(first, delta, line) {
        return as_line(last, i64::from(line) + i64::from(count));
    }
    as_line(last, i64::from(line))
}

/// Whether lines begin on a line of the axis, and are 1 to all lines.
fn begins_inside(last: i32, first: i32, count: i32) -> bool
    ensures { result ≡ begins_inside last first count }
{
    is_line(last, i64::from(first)) && is_line(last, i64::from(count))
}

fn are_all(a: bool, b: bool, c: bool, d: bool) -> bool
    ensures { result ≡ ((a && b) && (c && d)) }
{
    (a && b) && (c && d)
}

/// Whether a block of lines lies on the axis, and also where it goes.
fn is_valid_move(last: i32, first: i32, count: i32, delta: i32) -> bool
    ensures { result ≡ is_valid last (EditKind.Move first count delta) }
{
    let (start, end) = (i64::from(first), i64::from(first) + i64::from(count));
    let (last_end, distance) = (i64::from(last) + 1, i64::from(delta));
    let target_ends = end + distance <= last_end;
    are_all(
        begins_inside(last, first, count),
        end <= last_end,
        1 <= start + distance,
        target_ends,
    )
}

/// Where a line of the axis goes.
fn goes_to(last: i32, kind: EditKind, line: i32) -> Option<i32>
    requires { IsLine last line }
    ensures value { result ≡ goes_to last kind line }
    ensures inside { IfSome result (IsLine last) }
{
    match kind {
        EditKind::Insert { first, count } => inserted(last, first, count, line),
        EditKind::Delete { first, count } => deleted(last, first, count, line),
        EditKind::Move {
            first,
            count,
            delta,
        } => passed(last, first, count, delta, line),
    }
}

/// The move that takes the lines of a move back.
#[tactic(auto, unfolding(crate::specs::Edit::is_valid, crate::specs::Edit::opposite_of))]
fn moved_back(last: i32, first: i32, count: i32, delta: i32) -> EditKind
    requires last { last ≤ℤ pos 1048576 }
    requires valid { IsValid last (EditKind.Move first count delta) }
    ensures { result ≡ opposite_of (EditKind.Move first count delta) }
{
    EditKind::Move {
        first: first + delta,
        count,
        delta: 0 - delta,
    }
}

/// The first line that an insertion pushes past the end.
fn pushed_from(last: i32, first: i32, count: i32) -> i64
    ensures { result ≡ pushed_from last first count }
{
    let (first, pushed) = (i64::from(first), i64::from(last) - i64::from(count) + 1);
    if first < pushed { pushed } else { first }
}

fn widened(line: i32) -> i64
    ensures { result ≡ line }
{
    i64::from(line)
}

/// Of the lines from one towards another the first that is not one of those lost, which are the
/// lines from `low` to `high`.
#[tactic(auto, unfolding(crate::specs::Lost::beside_lost))]
fn beside_lost(low: i64, high: i64, line: i32, towards: i32) -> Option<i32>
    ensures { result ≡ beside_lost low high line towards }
{
    let (here, there) = (i64::from(line), i64::from(towards));
    if here < low || high < here {
        return Some(line);
    }
    if high < there {
        return Some((high + 1) as i32);
    }
    if there < low {
        return Some((low - 1) as i32);
    }
    None
}

impl EditKind {
    /// The edit that takes the lines back, of an edit of an axis.
    #[tactic(auto, unfolding(crate::specs::Edit::opposite_of))]
    fn opposite(self, last: i32) -> EditKind
        requires last { last ≤ℤ pos 1048576 }
        requires valid { IsValid last self }
        ensures { result ≡ opposite_of self }
    {
        match self {
            EditKind::Insert { first, count } => EditKind::Delete { first, count },
            EditKind::Delete { first, count } => EditKind::Insert { first, count },
            EditKind::Move {
                first,
                count,
                delta,
            } => moved_back(last, first, count, delta),
        }
    }

    /// Whether its numbers are those of an edit of the axis.
    #[tactic(auto, unfolding(crate::specs::Edit::is_valid))]
    fn is_valid(self, last: i32) -> bool
        ensures { result ≡ is_valid last self }
    {
        match self {
            EditKind::Insert { first, count } => begins_inside(last, first, count),
            EditKind::Delete { first, count } => begins_inside(last, first, count),
            EditKind::Move {
                first,
                count,
                delta,
            } => is_valid_move(last, first, count, delta),
        }
    }

    /// The first line of an axis that it loses.
    fn lost_from(self, last: i32) -> i64
        ensures { result ≡ lost_from last self }
    {
        match self {
            EditKind::Insert { first, count } => pushed_from(last, first, count),
            EditKind::Delete { first, count: _ } => widened(first),
            EditKind::Move {
                first: _,
                count: _,
                delta: _,
            } => 1,
        }
    }

    /// The last line of an axis that it loses.
    fn lost_to(self, last: i32) -> i64
        ensures { result ≡ lost_to last self }
    {
        match self {
            EditKind::Insert { first: _, count: _ } => widened(last),
            EditKind::Delete { first, count } => last_of(first, count),
            EditKind::Move {
                first: _,
                count: _,
                delta: _,
            } => 0,
        }
    }

    /// The lines that it brings in.
    fn inserted(self) -> Option<Block>
        ensures { result ≡ inserted_by self }
    {
        match self {
            EditKind::Insert { first, count } => Some(Block { first, count }),
            EditKind::Delete { first: _, count: _ } => None,
            EditKind::Move {
                first: _,
                count: _,
                delta: _,
            } => None,
        }
    }
}

impl<A: Axis> LineEdit<A> {
    /// An edit along the axis.
    pub fn new(kind: EditKind) -> LineEdit<A>
        ensures { result.kind ≡ kind }
    {
        LineEdit {
            kind,
            axis: PhantomData,
        }
    }

    /// Whether it begins on a line of the axis and is of 1 to all lines; a block that moves, and
    /// where it goes, lie on the axis.
    pub fn is_valid(&self) -> bool
        ensures { result ≡ is_valid A.along.last self.now.kind }
    {
        self.kind.is_valid(A::LAST)
    }

    /// Where a line goes. `None` for a line that is lost, that is pushed past the end, or that is
    /// not of the axis.
    #[tactic(auto, unfolding(crate::specs::Edit::image_at))]
    pub fn image(&self, line: i32) -> Option<i32>
        ensures value { result ≡ image_at A.along.last self.now.kind line }
        ensures inside { IfSome result (IsLine A.along.last) }
    {
        if !is_line(A::LAST, i64::from(line)) {
            return None;
        }
        goes_to(A::LAST, self.kind, line)
    }

    /// Whether it splits what stands from a first to a last line: an insertion between them; a
    /// deletion of some of these lines; a move of some of them, or past some, but not of all.
    pub fn splits(&self, first: i32, last: i32) -> bool
        ensures { result ≡ splits self.now.kind first last }
    {
        self.kind.splits(first, last)
    }

    /// The edit that takes the lines back. It takes no memory.
    pub fn opposite(&self) -> LineEdit<A>
        requires { IsValid A.along.last self.now.kind }
        ensures kind { result.kind ≡ opposite_of self.now.kind }
        ensures valid { IsValid A.along.last result.kind }
    {
        LineEdit::new(self.kind.opposite(A::LAST))
    }
}

impl<A: Axis> LineMap<A> for LineEdit<A> {
    ghost use Rattle.line_edits.specs.laws.OneToOne.{edit_one_to_one};

    ghost is_valid = { λ e. is_valid A.along.last e.kind };

    ghost moves = { λ e. edit_moves A.along.last e.kind };

    fn image(&self, line: i32) -> Option<i32> {
        LineEdit::image(self, line)
    }

    fn inserted(&self) -> Option<Block> {
        self.kind.inserted()
    }

    fn first_image(&self, line: i32, towards: i32) -> Option<i32> {
        let (low, high) = (self.kind.lost_from(A::LAST), self.kind.lost_to(A::LAST));
        beside_lost(low, high, line, towards)
    }

    fn merged(&self, first: i32, last: i32, across: i32) -> Option<(i32, i32)> {
        self.kind.merged(A::LAST, (first, last), across)
    }

    fn opposite(&self, _alloc: Global) -> Result<LineEdit<A>, EditError> {
        Ok(LineEdit::opposite(self))
    }

    ghost one_to_one = { λ e valid. edit_one_to_one A.along.last e.kind valid };
}
