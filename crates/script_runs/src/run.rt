ghost use Rattle.std.specs.Prelude.{◌≡◌, ◌≢◌, ◌↔◌, ◌+◌, ◌≤◌, [], length, IfSome, OnOk, OnErr};
ghost use Rattle.std.specs.Io.KnownBytes.{append_known};
ghost use Rattle.script_lines.specs.Faults.{Rose};
ghost use Rattle.script_lines.specs.Took.{TookAtMost, AddedFront};
ghost use Rattle.script_runs.specs.Script.{commands_of, lines_of, output_of, start};
ghost use Rattle.script_runs.specs.Session.{SoundThrough};
ghost use Rattle.script_runs.specs.Run.{Ran};

use crate::output::output_text;
use script_lines::{MOST_BYTES, RunError, Sink, Source, SureSink, SureSource, read_all, write_all};
use std::alloc::Global;

/// Reads a script to its end, runs its lines over a new workbook, and writes its output: one answer
/// for each line, then `copy` and the second copy, which has had the bytes of `sync` alone. The
/// script is docs/SCRIPT.md's.
///
/// - `ReadFault`: the source failed. Nothing was run or written.
/// - `TooLong`: more than 16,777,216 bytes came. Nothing was run or written.
/// - `NoMemory`: there was not enough memory. Nothing was written.
/// - `WriteFault`: the sink failed. What it took is a front of the output.
pub fn run_script<S: Source, K: Sink>(
    alloc: Global,
    input: &mut S,
    output: &mut K,
) -> Result<(), RunError>
    // Over ends that tell their bytes: all was read, and the sink holds the output after what it held.
    ensures ok { OnOk result (IfSome (S.left input.old) (λ script. (S.left input.new ≡ Some [])
        × (K.taken output.new ≡ append_known (K.taken output.old) (output_of script)))) }
    // Over any ends.
    ensures ran { OnOk result (Ran MOST_BYTES (S.left input.old) (S.left input.new) (K.taken output.old) (K.taken output.new)) }
    // In every state that the commands of the lines go through, those that are drawn among them, undo and
    // redo lead to the kept workbooks, no command is refused as a diff is, and the bytes of what was sent
    // since the last sync carry the workbook at that sync to the present one. What a sync sends is a
    // queue that bytes can encode, so decoding them gives it again.
    ensures sound { OnOk result (IfSome (S.left input.old) (λ script. SoundThrough (commands_of (lines_of script)) start)) }

    ensures read_fault { result ≡ Err RunError.ReadFault → Rose (S.faults input.old) (S.faults input.new) }
    ensures write_fault { result ≡ Err RunError.WriteFault → Rose (K.faults output.old) (K.faults output.new) }
    ensures written { result ≡ Err RunError.WriteFault → IfSome (S.left input.old) (λ script.
        AddedFront (output_of script) (K.taken output.old) (K.taken output.new)) }
    ensures unwritten { OnErr result (result ≢ Err RunError.WriteFault → K.taken output.new ≡ K.taken output.old) }

    // TooLong exactly where one byte more than a script may have was taken.
    ensures front { TookAtMost (MOST_BYTES + 1) (S.left input.old) (S.left input.new) }
    ensures too_long { IfSome (S.left input.old) (λ script. IfSome (S.left input.new) (λ rest.
        (result ≡ Err RunError.TooLong) ↔ (length script ≡ length rest + MOST_BYTES + 1))) }

    // Where nothing fails, a script that is not too long is run, or the call returns `NoMemory`.
    ensures complete { IfSome (S.left input.old) (λ script. length script ≤ MOST_BYTES
        → ¬ (Rose (S.faults input.old) (S.faults input.new)) → ¬ (Rose (K.faults output.old) (K.faults output.new))
        → OnErr result (result ≡ Err RunError.NoMemory)) }

    // The counts do not fall.
    ensures faults { S.faults input.old ≤ S.faults input.new }
    ensures sink_faults { K.faults output.old ≤ K.faults output.new }
{
    let script = read_all(alloc, input)?;
    let Ok(text) = output_text(alloc, &script) else {
        return Err(RunError::NoMemory);
    };
    if output.reserve(text.len()).is_err() {
        return Err(RunError::NoMemory);
    }
    write_all(output, &text)?;
    Ok(())
}

/// Runs a script as `run_script` does, over ends that never fail: neither fault is answered, so the
/// script runs unless it is too long or the call returns `NoMemory`.
pub fn run_script_surely(
    alloc: Global,
    input: &mut SureSource,
    output: &mut SureSink,
) -> Result<(), RunError>
    // All was read, and the sink holds the output after what it held.
    ensures ok { OnOk result (IfSome (⟦<SureSource as Source>⟧.left input.old) (λ script. (⟦<SureSource as Source>⟧.left input.new ≡ Some [])
        × (⟦<SureSink as Sink>⟧.taken output.new ≡ append_known (⟦<SureSink as Sink>⟧.taken output.old) (output_of script)))) }
    ensures ran { OnOk result (Ran MOST_BYTES (⟦<SureSource as Source>⟧.left input.old) (⟦<SureSource as Source>⟧.left input.new)
        (⟦<SureSink as Sink>⟧.taken output.old) (⟦<SureSink as Sink>⟧.taken output.new)) }
    ensures sound { OnOk result (IfSome (⟦<SureSource as Source>⟧.left input.old) (λ script. SoundThrough (commands_of (lines_of script)) start)) }

    ensures no_read_fault { result ≢ Err RunError.ReadFault }
    ensures no_write_fault { result ≢ Err RunError.WriteFault }
    ensures unwritten { OnErr result (⟦<SureSink as Sink>⟧.taken output.new ≡ ⟦<SureSink as Sink>⟧.taken output.old) }

    // TooLong exactly where one byte more than a script may have was taken.
    ensures front { TookAtMost (MOST_BYTES + 1) (⟦<SureSource as Source>⟧.left input.old) (⟦<SureSource as Source>⟧.left input.new) }
    ensures too_long { IfSome (⟦<SureSource as Source>⟧.left input.old) (λ script. IfSome (⟦<SureSource as Source>⟧.left input.new) (λ rest.
        (result ≡ Err RunError.TooLong) ↔ (length script ≡ length rest + MOST_BYTES + 1))) }

    // A script that is not too long is run, or the call returns `NoMemory`.
    ensures complete { IfSome (⟦<SureSource as Source>⟧.left input.old) (λ script. length script ≤ MOST_BYTES
        → OnErr result (result ≡ Err RunError.NoMemory)) }
{
    run_script(alloc, input, output)
}
