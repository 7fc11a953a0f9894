ghost use Rattle.std.specs.Prelude.{◌≡◌, ◌≤◌, ◌<◌, ◌+◌, ◌-◌, ◌^◌, ◌++◌, slice_get, OnOk};
ghost use Rattle.script_runs.specs.Script.{no_answers, number_text, reply_text};
ghost use Rattle.script_runs.specs.Script.Reply.{Made};
ghost use Rattle.script_runs.specs.Tallies.{counted_by};

use script_dump::push_unsigned;
use std::alloc::{AllocError, Global};

/// How many answers were `ok`, how many were refusals, and how many were those to syncs.
#[derive(Clone, Copy, Debug)]
pub(crate) struct Tally {
    pub(crate) ok: u32,
    pub(crate) error: u32,
    pub(crate) sync: u32,
}

impl Tally {
    /// Of no answers.
    pub(crate) fn none() -> Tally
        ensures { result ≡ no_answers }
    {
        Tally {
            ok: 0,
            error: 0,
            sync: 0,
        }
    }

    /// Counts an answer by its first byte.
    pub(crate) fn count(&mut self, first: Option<u8>)
        requires { self.old.ok + self.old.error + self.old.sync < 2 ^ 32 - 1 }
        ensures counts { self.new ≡ counted_by first self.old }
        ensures more { self.new.ok + self.new.error + self.new.sync ≤ self.old.ok + self.old.error + self.old.sync + 1 }
    {
        match first {
            Some(b'o') => self.ok += 1,
            Some(b'e') => self.error += 1,
            Some(b's') => self.sync += 1,
            _ => {}
        }
    }
}

/// The byte at a place, if there is one.
pub(crate) fn byte_at(bytes: &[u8], at: usize) -> Option<u8>
    ensures { result ≡ slice_get bytes.now at }
{
    bytes.get(at).copied()
}

fn push_number(alloc: Global, out: &mut Vec<u8>, word: &[u8], number: u32) -> Result<(), AllocError>
    ensures { OnOk result (out.new.items ≡ out.old.items ++ number_text word.now number) }
{
    out.extend_from_slice(word)?;
    push_unsigned(alloc, out, number)
}

/// Writes how many commands were drawn, and how their answers count.
pub(crate) fn push_made(
    alloc: Global,
    out: &mut Vec<u8>,
    count: u32,
    tally: Tally,
) -> Result<(), AllocError>
    ensures { OnOk result (out.new.items ≡ out.old.items ++ reply_text (Made count tally)) }
{
    push_number(alloc, out, b"made ", count)?;
    push_number(alloc, out, b" ok ", tally.ok)?;
    push_number(alloc, out, b" error ", tally.error)?;
    push_number(alloc, out, b" sync ", tally.sync)?;
    out.push(b'\n')?;
    Ok(())
}
