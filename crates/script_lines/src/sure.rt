ghost use Rattle.std.specs.Prelude.{◌≡◌, ◌≤◌, length, take, min, IsOk, OnOk, vec_len};
ghost use Rattle.std.specs.declared.option.Option.TheVariants.{Some};
ghost use Rattle.script_lines.specs.Faults.{HasCause};
ghost use Rattle.script_lines.specs.Known.{Takes, Adds, UsesRoom};

use crate::{Failed, Sink, Source};
use base_values::EditError;

/// A source in memory that never fails.
#[derive(Drop)]
pub struct SureSource {
    bytes: Vec<u8>,
    at: usize,
    ghost within: { at ≤ vec_len bytes },
}

/// Copies as many first bytes as fit, and says how many.
fn copy_front(from: &[u8], into: &mut [u8]) -> usize
    ensures count { result ≡ min (length from.now) (length into.old) }
    ensures bytes { take result into.new ≡ take result from.now }
{
    let count = from.len().min(into.len());
    into[..count].copy_from_slice(&from[..count]);
    count
}

impl SureSource {
    /// A source of these bytes.
    pub fn new(bytes: Vec<u8>) -> Self
        ensures left { ⟦<SureSource as Source>⟧.left result ≡ Some bytes.items }
        ensures faults { ⟦<SureSource as Source>⟧.faults result ≡ 0 }
    {
        SureSource { bytes, at: 0 }
    }
}

impl Source for SureSource {
    ghost use Rattle.script_lines.specs.Memory.{no_fault, sure_left};

    ghost left = { sure_left };

    ghost faults = { no_fault };

    fn read(&mut self, into: &mut [u8]) -> Result<usize, Failed>
        ensures bytes { Takes (sure_left self.old) (sure_left self.new) result into.new }
        ensures cause { HasCause (no_fault self.old) (no_fault self.new) result }
        ensures sure { IsOk result }
        ensures not_counted { OnOk result (no_fault self.new ≡ no_fault self.old) }
    {
        let count = copy_front(&self.bytes[self.at..], into);
        self.at += count;
        Ok(count)
    }
}

/// A sink in memory that never fails.
#[derive(Drop)]
pub struct SureSink {
    bytes: Vec<u8>,
}

impl SureSink {
    /// A sink that has taken these bytes.
    pub fn new(bytes: Vec<u8>) -> Self
        ensures taken { ⟦<SureSink as Sink>⟧.taken result ≡ Some bytes.items }
        ensures faults { ⟦<SureSink as Sink>⟧.faults result ≡ 0 }
    {
        SureSink { bytes }
    }

    /// The bytes that it has taken.
    pub fn bytes(&self) -> &[u8]
        ensures { ⟦<SureSink as Sink>⟧.taken self.now ≡ Some result.now }
    {
        &self.bytes
    }
}

impl Sink for SureSink {
    ghost use Rattle.script_lines.specs.Memory.{no_fault, sure_taken, sure_spare};

    ghost taken = { sure_taken };

    ghost faults = { no_fault };

    ghost spare = { sure_spare };

    fn reserve(&mut self, more: usize) -> Result<(), EditError> {
        self.bytes.reserve(more)?;
        Ok(())
    }

    fn write(&mut self, from: &[u8]) -> Result<usize, Failed>
        requires { length from.now ≤ sure_spare self.old }
        ensures bytes { Adds (sure_taken self.old) (sure_taken self.new) result from.now }
        ensures room { UsesRoom (sure_spare self.old) (sure_spare self.new) result }
        ensures cause { HasCause (no_fault self.old) (no_fault self.new) result }
        ensures sure { IsOk result }
        ensures not_counted { OnOk result (no_fault self.new ≡ no_fault self.old) }
    {
        match self.bytes.extend_from_slice(from) {
            Ok(()) => Ok(from.len()),
            Err(_) => unreachable!(),
        }
    }
}
