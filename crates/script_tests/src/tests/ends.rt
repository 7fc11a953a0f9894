// What no clause says: that calls succeed with ample memory, and that each end stands under the
// calls that are generic over ends.
use script_lines::{
    Failed, MemorySink, MemorySource, RunError, Sink, Source, StdSink, StdSource, SureSink,
    SureSource, read_all, write_all,
};
use std::alloc::Global;
use std::io::{self, ErrorKind, Write};
use std::process::Abort;
use std::test::Fail;

/// A writer that takes everything, and of which the first flush fails.
#[derive(Drop)]
struct Unflushed {
    flushes: u8,
}

impl Write for Unflushed {
    fn write(&mut self, buf: &[u8]) -> io::Result<usize> {
        Ok(buf.len())
    }

    fn flush(&mut self) -> io::Result<()> {
        self.flushes = self.flushes.saturating_add(1);
        if self.flushes != 2 {
            return Err(ErrorKind::BrokenPipe.into());
        }
        Ok(())
    }
}

#[test]
fn each_write_is_flushed(rt: HostRuntime) -> Result<(), Fail> {
    let mut sink = StdSink::new(Unflushed { flushes: 0 });
    assert_eq!(rt; sink.write(b"ab"), Err(Failed));
    assert_eq!(rt; sink.write(b"ab"), Ok(2));
    assert_eq!(rt; sink.write(b"ab"), Err(Failed));
    Ok(())
}

/// Whether this is all that a source has left.
fn has_left<S: Source>(alloc: Global, source: &mut S, expected: &[u8]) -> Result<bool, Fail> {
    let rest = read_all(alloc, source)?;
    Ok(rest.as_slice() == expected)
}

fn goes_on_reading(rt: &impl Abort, alloc: Global, source: &mut MemorySource) -> Result<(), Fail> {
    let mut buffer = [0u8; 4];
    assert_eq!(rt; source.read(&mut buffer), Ok(4));
    assert_eq!(rt; buffer, *b"abcd");
    assert_eq!(rt; read_all(alloc, source).err(), Some(RunError::ReadFault));
    assert!(rt; has_left(alloc, source, b"ef")?);
    Ok(())
}

#[test]
fn a_source_goes_on_after_a_failing_read(rt: HostRuntime) -> Result<(), Fail> {
    let alloc = rt.alloc();
    let mut source = MemorySource::new(b"abcdef".to_vec(alloc)?, [1u64].to_vec(alloc)?);
    goes_on_reading(&rt, alloc, &mut source)
}

fn goes_on_writing(rt: &impl Abort, sink: &mut MemorySink) -> Result<(), Fail> {
    for (piece, outcome) in [
        (b"ab".as_slice(), Ok(())),
        (b"cd".as_slice(), Err(RunError::WriteFault)),
        (b"ef".as_slice(), Ok(())),
    ] {
        sink.reserve(piece.len())?;
        assert_eq!(rt; write_all(sink, piece), outcome);
    }
    assert_eq!(rt; sink.bytes(), b"abef".as_slice());
    Ok(())
}

#[test]
fn a_sink_goes_on_after_a_failing_write(rt: HostRuntime) -> Result<(), Fail> {
    let alloc = rt.alloc();
    let mut sink = MemorySink::new(Vec::new(alloc), [1u64].to_vec(alloc)?);
    goes_on_writing(&rt, &mut sink)
}

#[test]
fn sure_ends_never_fail(rt: HostRuntime) -> Result<(), Fail> {
    let alloc = rt.alloc();
    let mut source = SureSource::new(b"abcdef".to_vec(alloc)?);
    let text = read_all(alloc, &mut source)?;
    let mut sink = SureSink::new(Vec::new(alloc));
    sink.reserve(text.len())?;
    assert_eq!(rt; write_all(&mut sink, &text), Ok(()));
    assert_eq!(rt; sink.bytes(), b"abcdef".as_slice());
    Ok(())
}

#[test]
fn standard_ends_carry_bytes(rt: HostRuntime) -> Result<(), Fail> {
    let alloc = rt.alloc();
    let text = read_all(alloc, &mut StdSource::new(b"abcdef".as_slice()))?;
    let mut written = [0u8; 6];
    let mut sink = StdSink::new(written.as_mut_slice());
    sink.reserve(text.len())?;
    assert_eq!(rt; write_all(&mut sink, &text), Ok(()));
    // The writer is full, and takes nothing of a further piece.
    assert_eq!(rt; sink.write(b"g"), Err(Failed));
    assert_eq!(rt; written, *b"abcdef");
    Ok(())
}
