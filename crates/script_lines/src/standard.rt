ghost use Rattle.std.specs.Prelude.{◌≡◌, ◌≤◌, ◌^◌, length, OnOk, OnErr};
ghost use Rattle.std.specs.declared.option.Option.TheVariants.{None};
ghost use Rattle.script_lines.specs.Faults.{HasCause, next_count};
ghost use Rattle.script_lines.specs.Known.{Takes, Adds, UsesRoom};

use crate::{Failed, Sink, Source};
use base_values::EditError;
use std::io::{Read, Write};

/// Standard input, or another reader. It tells nothing of its bytes, and counts its faults.
#[derive(Drop)]
pub struct StdSource<R> {
    reader: R,
    faults: u64,
}

impl<R: Read> StdSource<R> {
    /// A source over this reader, as `rt.reader()` for standard input.
    pub fn new(reader: R) -> Self
        ensures { ⟦<StdSource<R> as Source>⟧.faults result ≡ 0 }
    {
        StdSource { reader, faults: 0 }
    }
}

impl<R: Read> Source for StdSource<R> {
    ghost left = { λ _. None };

    ghost faults = { λ s. s.faults };

    fn read(&mut self, into: &mut [u8]) -> Result<usize, Failed>
        ensures bytes { Takes None None result into.new }
        ensures cause { HasCause self.old.faults self.new.faults result }

        ensures counted { OnErr result (self.new.faults ≡ next_count self.old.faults) }
        ensures not_counted { OnOk result (self.new.faults ≡ self.old.faults) }
    {
        match self.reader.read(into) {
            Ok(count) => Ok(count),
            Err(_) => {
                self.faults = self.faults.saturating_add(1);
                Err(Failed)
            }
        }
    }
}

/// Standard output, or another writer, flushed after each write. It tells nothing of its bytes, and
/// counts its faults: a write or a flush that fails, and a write that takes nothing of a piece.
#[derive(Drop)]
pub struct StdSink<W> {
    writer: W,
    faults: u64,
}

impl<W: Write> StdSink<W> {
    /// A sink over this writer, as `io::writer(&rt)` for standard output.
    pub fn new(writer: W) -> Self
        ensures { ⟦<StdSink<W> as Sink>⟧.faults result ≡ 0 }
    {
        StdSink { writer, faults: 0 }
    }
}

impl<W: Write> Sink for StdSink<W> {
    ghost taken = { λ _. None };

    ghost faults = { λ s. s.faults };

    // The system keeps the bytes, so there is room for every piece.
    ghost spare = { λ _. 2 ^ 64 };

    fn reserve(&mut self, _more: usize) -> Result<(), EditError> {
        Ok(())
    }

    fn write(&mut self, from: &[u8]) -> Result<usize, Failed>
        requires { length from.now ≤ 2 ^ 64 }
        ensures bytes { Adds None None result from.now }
        ensures room { UsesRoom (2 ^ 64) (2 ^ 64) result }
        ensures cause { HasCause self.old.faults self.new.faults result }

        ensures counted { OnErr result (self.new.faults ≡ next_count self.old.faults) }
        ensures not_counted { OnOk result (self.new.faults ≡ self.old.faults) }
    {
        if let Ok(count) = self.writer.write(from) {
            if (count > 0 || from.is_empty()) && self.writer.flush().is_ok() {
                return Ok(count);
            }
        }
        self.faults = self.faults.saturating_add(1);
        Err(Failed)
    }
}
