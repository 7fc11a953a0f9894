ghost use Rattle.std.specs.Prelude.{ℕ, List};
ghost use Rattle.std.specs.declared.option.Option.{Option};
ghost use Rattle.script_lines.specs.Faults.{HasCause};
ghost use Rattle.script_lines.specs.Known.{Takes};

use crate::Failed;

/// Where bytes come from.
pub trait Source {
    /// The bytes that are left, where the source tells them.
    ghost left: { Self → Option (List ℕ) };

    /// How often the source has failed. The count never falls, and stands still at the greatest `u64`.
    ghost faults: { Self → ℕ };

    /// Moves bytes from the front of what is left to the front of the buffer, and returns how many:
    /// none for a buffer with room exactly at the end. `Failed` comes only with a fault counted, and
    /// takes none.
    fn read(&mut self, into: &mut [u8]) -> Result<usize, Failed>
        ensures bytes { Takes (left self.old) (left self.new) result into.new }
        ensures cause { HasCause (faults self.old) (faults self.new) result };
}
