//! What holds of edits of lines.

ghost use Rattle.std.specs.Prelude.{◌≡◌, ℤ, Some};
ghost use Rattle.base_values.specs.Places.{IsLine};
ghost use Rattle.line_edits.specs.declared.edit.EditKind.TheVariants.{Move};
ghost use Rattle.line_edits.specs.Edit.{image_at, opposite_of, IsValid};
ghost use Rattle.line_edits.specs.Singles.{line_by_line};

use crate::edit::LineEdit;
use base_axis::Axis;

/// The law of lines: the opposite of a valid edit takes each line that has an image back.
pub fn image_of_opposite<A: Axis>(edit: &LineEdit<A>)
    requires { IsValid A.along.last edit.now.kind }
    ensures { (n m : ℤ) → image_at A.along.last edit.now.kind n ≡ Some m → image_at A.along.last (opposite_of edit.now.kind) m ≡ Some n }
{
    // A law does no work.
    let _ = edit;
}

/// A move of a block of lines takes each line of the axis where the moves of its lines one by one
/// take it: the last of them first where the block goes on, and the first of them first where it
/// goes back.
pub fn move_by_single_lines<A: Axis>(first: i32, count: i32, delta: i32)
    requires { IsValid A.along.last (Move first count delta) }
    ensures { (n : ℤ) → IsLine A.along.last n → image_at A.along.last (Move first count delta) n ≡ line_by_line A.along.last first count delta n }
{
    // A law does no work.
    let _ = (first, count, delta);
}
