ghost use Rattle.std.specs.Prelude.{◌≡◌, ◌≢◌, ◌+◌, ◌≤◌, length, IfOk, OnOk, OnErr, IsOkUnless};
ghost use Rattle.std.specs.Io.KnownBytes.{prepend_known, append_known, IsAtEnd};
ghost use Rattle.script_lines.specs.Faults.{Rose};
ghost use Rattle.script_lines.specs.Took.{TookAtMost, TookJust, AddedFront};

use crate::{RunError, Sink, Source};
use std::alloc::Global;

/// How many bytes a script may have.
pub const MOST_BYTES: usize = 16_777_216;

const CHUNK: usize = 4096;

/// Reads a source to its end, as far as a script may have bytes. One byte more is `TooLong`, found
/// before memory is asked for it. `ReadFault` comes only where the source's count of faults rose or
/// stands at its last value.
pub fn read_all<S: Source>(alloc: Global, input: &mut S) -> Result<Vec<u8>, RunError>
    ensures ok { IfOk result (λ all. S.left input.old ≡ prepend_known all.items (S.left input.new)) }
    ensures ended { OnOk result (IsAtEnd (S.left input.new)) }
    ensures within { IfOk result (λ all. length all.items ≤ MOST_BYTES) }

    ensures read_fault { result ≡ Err RunError.ReadFault → Rose (S.faults input.old) (S.faults input.new) }
    ensures no_write_fault { result ≢ Err RunError.WriteFault }
    ensures too_long { result ≡ Err RunError.TooLong → TookJust (MOST_BYTES + 1) (S.left input.old) (S.left input.new) }
    ensures else_within { result ≢ Err RunError.TooLong → TookAtMost MOST_BYTES (S.left input.old) (S.left input.new) }

    ensures count { S.faults input.old ≤ S.faults input.new }
{
    let mut bytes = Vec::new(alloc);
    let mut chunk = [0u8; CHUNK];
    'reads: loop {
        let room = (MOST_BYTES + 1 - bytes.len()).min(CHUNK);
        let Ok(count) = input.read(&mut chunk[..room]) else {
            return Err(RunError::ReadFault);
        };
        if count == 0 {
            return Ok(bytes);
        }
        let is_too_long = bytes.len() + count > MOST_BYTES;
        if is_too_long {
            return Err(RunError::TooLong);
        }
        bytes.extend_from_slice(&chunk[..count])?;
    }
}

/// Writes a whole text, for which there must be room. It takes no memory. The only error is
/// `WriteFault`, where the sink's count of faults rose or stands at its last value; a front of the
/// text was taken then.
pub fn write_all<K: Sink>(output: &mut K, text: &[u8]) -> Result<(), RunError>
    requires { length text.now ≤ K.spare output.old }
    ensures ok { OnOk result (K.taken output.new ≡ append_known (K.taken output.old) text.now) }

    ensures only { IsOkUnless result RunError.WriteFault }
    ensures write_fault { OnErr result (Rose (K.faults output.old) (K.faults output.new)) }
    ensures front { OnErr result (AddedFront text.now (K.taken output.old) (K.taken output.new)) }

    ensures count { K.faults output.old ≤ K.faults output.new }
{
    let mut at = 0;
    'writes: while at < text.len() {
        let Ok(count) = output.write(&text[at..]) else {
            return Err(RunError::WriteFault);
        };
        at += count;
    }
    Ok(())
}
