ghost use Rattle.std.specs.Prelude.{◌≡◌, IfSome};
ghost use Rattle.base_values.specs.Places.{IsLine, as_line};
ghost use Rattle.formula_move.specs.Lines.{goes_on, steps, shifted, stepped};

use base_values::as_line;

/// Where a line of the axis goes when the lines from `first` on go on by `delta`.
#[tactic(auto, unfolding(crate::specs::Lines::goes_on))]
fn goes_on(last: i32, first: i32, delta: i32, line: i32) -> Option<i32>
    requires { IsLine last line }
    ensures line { result ≡ goes_on last first delta line }
    ensures inside { IfSome result (IsLine last) }
{
    let (from, first, delta) = (i64::from(line), i64::from(first), i64::from(delta));
    if from < first {
        Some(line)
    } else if from < first - delta {
        None
    } else {
        as_line(last, from + delta)
    }
}

/// Where a line of the axis goes when the line `moved` goes on by `delta`.
fn steps(last: i32, moved: i32, delta: i32, line: i32) -> Option<i32>
    requires { IsLine last line }
    ensures line { result ≡ steps last moved delta line }
    ensures inside { IfSome result (IsLine last) }
{
    let (from, moved, delta) = (i64::from(line), i64::from(moved), i64::from(delta));
    let target = moved + delta;
    if from == moved {
        return as_line(last, target);
    }
    if moved < from {
        if from <= target {
            return as_line(last, from - 1);
        }
        return Some(line);
    }
    if target <= from {
        return as_line(last, from + 1);
    }
    Some(line)
}

/// Where a line goes when the lines of the axis from `first` on go on by `delta`. Where that is less
/// than 0, the lines from `first` to `first - delta - 1` are lost. `None` for a line that is lost or
/// leaves the axis, and for a number that is no line of it.
pub fn shifted(last: i32, first: i32, delta: i32, line: i64) -> Option<i32>
    ensures line { result ≡ shifted last first delta line }
    ensures inside { IfSome result (IsLine last) }
{
    goes_on(last, first, delta, as_line(last, line)?)
}

/// Where a line goes when the line `moved` goes on by `delta`: each line that it passes goes one line
/// the other way. `None` for a line that leaves the axis, and for a number that is no line of it.
pub fn stepped(last: i32, moved: i32, delta: i32, line: i64) -> Option<i32>
    ensures line { result ≡ stepped last moved delta line }
    ensures inside { IfSome result (IsLine last) }
{
    steps(last, moved, delta, as_line(last, line)?)
}
