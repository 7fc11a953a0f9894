ghost use Rattle.std.specs.Prelude.{◌≡◌, ◌≤◌, ℕ, List, length, OnOk, OnErr, IsOkUnless};
ghost use Rattle.std.specs.declared.option.Option.{Option};
ghost use Rattle.script_lines.specs.Faults.{HasCause};
ghost use Rattle.script_lines.specs.Known.{Adds, UsesRoom};

use crate::Failed;
use base_values::EditError;

/// Where bytes go.
pub trait Sink {
    /// The bytes taken so far, where the sink tells them.
    ghost taken: { Self → Option (List ℕ) };

    /// How often the sink has failed. The count never falls, and stands still at the greatest `u64`.
    ghost faults: { Self → ℕ };

    /// For how many further bytes there is room.
    ghost spare: { Self → ℕ };

    /// Makes room for so many further bytes. The only error is `NoMemory`, and nothing has changed
    /// then.
    fn reserve(&mut self, more: usize) -> Result<(), EditError>
        ensures only { IsOkUnless result EditError.NoMemory }
        ensures room { OnOk result (more ≤ spare self.new) }
        ensures refused { OnErr result (spare self.new ≡ spare self.old) }
        ensures taken { taken self.new ≡ taken self.old }
        ensures faults { faults self.new ≡ faults self.old };

    /// Takes first bytes of the piece, for all of which there must be room, and returns how many: at
    /// least one where there is one. It takes no memory. `Failed` comes only with a fault counted,
    /// and takes none.
    fn write(&mut self, from: &[u8]) -> Result<usize, Failed>
        requires { length from.now ≤ spare self.old }
        ensures bytes { Adds (taken self.old) (taken self.new) result from.now }
        ensures room { UsesRoom (spare self.old) (spare self.new) result }
        ensures cause { HasCause (faults self.old) (faults self.new) result };
}
