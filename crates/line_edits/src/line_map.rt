ghost use Rattle.std.specs.Prelude.{◌≡◌, Bool, true, IfOk, IfSome, IsOkUnless};
ghost use Rattle.base_values.specs.Places.{IsLine};
ghost use Rattle.base_values.specs.declared.EditError.TheVariants.{NoMemory};
ghost use Rattle.line_edits.specs.Merged.{AreLines};
ghost use Rattle.line_edits.specs.Moves.{LineMoves, IsOneToOne, IsFirstImage};

use crate::edit::Block;
use base_axis::Axis;
use base_values::EditError;
use std::alloc::Global;

/// A partial one-to-one map on the lines of an axis. docs/MODEL.md has the rules.
pub trait LineMap<A: Axis>: Sized {
    /// It is such a map.
    ghost is_valid: { Self → Bool };

    /// Where lines go, where they came from, and which lines it brings in.
    ghost moves: { Self → LineMoves };

    /// Where a line goes. `None` for a line that is lost, and for one that is not of the axis.
    fn image(&self, line: i32) -> Option<i32>
        ensures value { result ≡ (moves self.now).to line }
        ensures inside { IfSome result (IsLine A.along.last) };

    /// The lines that it brings in, which come from nowhere.
    fn inserted(&self) -> Option<Block>
        ensures { result ≡ (moves self.now).inserted };

    /// Of the lines from one towards another, both counted, the first with an image.
    fn first_image(&self, line: i32, towards: i32) -> Option<i32>
        requires valid { is_valid self.now ≡ true }
        requires line { IsLine A.along.last line }
        requires towards { IsLine A.along.last towards }
        ensures { IsFirstImage (moves self.now).to line towards result };

    /// From which to which line a merge stands afterwards, that stands from a first to a last line
    /// and is so many cross lines wide. `None` where it is dropped.
    fn merged(&self, first: i32, last: i32, across: i32) -> Option<(i32, i32)>
        requires valid { is_valid self.now ≡ true }
        requires lines { AreLines A.along.last first last }
        ensures value { result ≡ (moves self.now).merged first last across }
        ensures inside { IfSome result (λ lines. AreLines A.along.last lines.0 lines.1) };

    /// The map that takes the lines back. `NoMemory` is the only error.
    fn opposite(&self, alloc: Global) -> Result<Self, EditError>
        requires { is_valid self.now ≡ true }
        ensures valid { IfOk result (λ opposite. is_valid opposite ≡ true) }
        ensures to { IfOk result (λ opposite. (moves opposite).to ≡ (moves self.now).from) }
        ensures from { IfOk result (λ opposite. (moves opposite).from ≡ (moves self.now).to) }
        ensures merged { IfOk result (λ opposite. (moves opposite).merged ≡ (moves self.now).merged_back) }
        ensures merged_back { IfOk result (λ opposite. (moves opposite).merged_back ≡ (moves self.now).merged) }
        ensures only { IsOkUnless result NoMemory };

    ghost one_to_one: { (m : Self) → is_valid m ≡ true → IsOneToOne A.along.last (moves m) };
}
