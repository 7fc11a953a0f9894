ghost use Rattle.std.specs.Prelude.{◌≡◌, ◌↔◌, ◌≤◌, length, Contains, IsErr, OnOk, OnErr, IsOkUnless};
ghost use Rattle.std.specs.declared.option.Option.TheVariants.{Some};
ghost use Rattle.script_lines.specs.Faults.{HasCause, next_count};
ghost use Rattle.script_lines.specs.Known.{Takes, Adds, UsesRoom};

use crate::{Failed, Sink, Source, SureSink, SureSource};
use base_values::EditError;

/// A source in memory, of which the listed reads fail, the first read being 0. With no read listed
/// none fails. The number of reads stands still at the greatest `u64`.
#[derive(Drop)]
pub struct MemorySource {
    bytes: SureSource,
    reads: u64,
    failing: Vec<u64>,
    faults: u64,
}

impl MemorySource {
    ghost use Rattle.script_lines.specs.Memory.{reads, failing_reads};

    /// A source of these bytes, and the numbers of the reads that fail.
    pub fn new(bytes: Vec<u8>, failing: Vec<u64>) -> Self
        ensures left { ⟦<MemorySource as Source>⟧.left result ≡ Some bytes.items }
        ensures faults { ⟦<MemorySource as Source>⟧.faults result ≡ 0 }
        ensures reads { reads result ≡ 0 }
        ensures failing { failing_reads result ≡ failing.items }
    {
        MemorySource {
            bytes: SureSource::new(bytes),
            reads: 0,
            failing,
            faults: 0,
        }
    }
}

impl Source for MemorySource {
    ghost use Rattle.script_lines.specs.Memory.{source_left, source_faults, reads, failing_reads};

    ghost left = { source_left };

    ghost faults = { source_faults };

    fn read(&mut self, into: &mut [u8]) -> Result<usize, Failed>
        ensures bytes { Takes (source_left self.old) (source_left self.new) result into.new }
        ensures cause { HasCause (source_faults self.old) (source_faults self.new) result }

        ensures listed { IsErr result ↔ Contains (failing_reads self.old) (reads self.old) }
        ensures counted { OnErr result (source_faults self.new ≡ next_count (source_faults self.old)) }
        ensures not_counted { OnOk result (source_faults self.new ≡ source_faults self.old) }

        ensures reads { reads self.new ≡ next_count (reads self.old) }
        ensures failing { failing_reads self.new ≡ failing_reads self.old }
    {
        let number = self.reads;
        self.reads = number.saturating_add(1);
        if self.failing.contains(&number) {
            self.faults = self.faults.saturating_add(1);
            return Err(Failed);
        }
        self.bytes.read(into)
    }
}

/// A sink in memory, of which the listed writes fail, the first write being 0. With no write listed
/// none fails. The number of writes stands still at the greatest `u64`.
#[derive(Drop)]
pub struct MemorySink {
    bytes: SureSink,
    writes: u64,
    failing: Vec<u64>,
    faults: u64,
}

impl MemorySink {
    ghost use Rattle.script_lines.specs.Memory.{writes, failing_writes};

    /// A sink that has taken these bytes, and the numbers of the writes that fail.
    pub fn new(bytes: Vec<u8>, failing: Vec<u64>) -> Self
        ensures taken { ⟦<MemorySink as Sink>⟧.taken result ≡ Some bytes.items }
        ensures faults { ⟦<MemorySink as Sink>⟧.faults result ≡ 0 }
        ensures writes { writes result ≡ 0 }
        ensures failing { failing_writes result ≡ failing.items }
    {
        MemorySink {
            bytes: SureSink::new(bytes),
            writes: 0,
            failing,
            faults: 0,
        }
    }

    /// The bytes that it has taken.
    pub fn bytes(&self) -> &[u8]
        ensures { ⟦<MemorySink as Sink>⟧.taken self.now ≡ Some result.now }
    {
        self.bytes.bytes()
    }
}

impl Sink for MemorySink {
    ghost use Rattle.script_lines.specs.Memory.{sink_taken, sink_faults, sink_spare, writes, failing_writes};

    ghost taken = { sink_taken };

    ghost faults = { sink_faults };

    ghost spare = { sink_spare };

    fn reserve(&mut self, more: usize) -> Result<(), EditError>
        ensures only { IsOkUnless result EditError.NoMemory }
        ensures room { OnOk result (more ≤ sink_spare self.new) }
        ensures refused { OnErr result (sink_spare self.new ≡ sink_spare self.old) }
        ensures taken { sink_taken self.new ≡ sink_taken self.old }
        ensures faults { sink_faults self.new ≡ sink_faults self.old }

        ensures writes { writes self.new ≡ writes self.old }
        ensures failing { failing_writes self.new ≡ failing_writes self.old }
    {
        self.bytes.reserve(more)
    }

    fn write(&mut self, from: &[u8]) -> Result<usize, Failed>
        requires { length from.now ≤ sink_spare self.old }
        ensures bytes { Adds (sink_taken self.old) (sink_taken self.new) result from.now }
        ensures room { UsesRoom (sink_spare self.old) (sink_spare self.new) result }
        ensures cause { HasCause (sink_faults self.old) (sink_faults self.new) result }

        ensures listed { IsErr result ↔ Contains (failing_writes self.old) (writes self.old) }
        ensures counted { OnErr result (sink_faults self.new ≡ next_count (sink_faults self.old)) }
        ensures not_counted { OnOk result (sink_faults self.new ≡ sink_faults self.old) }

        ensures writes { writes self.new ≡ next_count (writes self.old) }
        ensures failing { failing_writes self.new ≡ failing_writes self.old }
    {
        let number = self.writes;
        self.writes = number.saturating_add(1);
        if self.failing.contains(&number) {
            self.faults = self.faults.saturating_add(1);
            return Err(Failed);
        }
        self.bytes.write(from)
    }
}
