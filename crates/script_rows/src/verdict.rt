use crate::calls::run_calls;
use crate::case::Case;
use crate::compare::{Apart, first_apart};
use script_dump::push_line;
use script_lines::{MemorySink, MemorySource, SureSink, SureSource, status_of};
use script_runs::{run_script, run_script_surely};
use std::alloc::{AllocError, Global};

fn push_apart(alloc: Global, out: &mut Vec<u8>, apart: Apart) -> Result<(), AllocError> {
    let number = apart.number;
    let text = format!(in alloc; "wrong from line {number}: ")?;
    out.extend_from_slice(text.as_bytes())?;
    push_line(out, apart.line)
}

fn push_status(alloc: Global, out: &mut Vec<u8>, status: u8) -> Result<(), AllocError> {
    let text = format!(in alloc; "status {status}")?;
    push_line(out, text.as_bytes())
}

/// Writes whether a run ended and wrote as is wanted.
fn push_compared(
    alloc: Global,
    out: &mut Vec<u8>,
    wanted: &[u8],
    wanted_status: u64,
    output: &[u8],
    status: u8,
) -> Result<(), AllocError> {
    if u64::from(status) != wanted_status {
        return push_status(alloc, out, status);
    }
    match first_apart(status, output, wanted) {
        Some(apart) => push_apart(alloc, out, apart),
        None => push_line(out, b"ok"),
    }
}

/// Runs a script over ends that never fail.
fn run_surely(
    alloc: Global,
    out: &mut Vec<u8>,
    script: Vec<u8>,
    wanted: &[u8],
    wanted_status: u64,
) -> Result<(), AllocError> {
    let mut input = SureSource::new(script);
    let mut output = SureSink::new(Vec::new(alloc));
    let outcome = run_script_surely(alloc, &mut input, &mut output);
    let status = status_of(&outcome);
    push_compared(alloc, out, wanted, wanted_status, output.bytes(), status)
}

/// Runs a script over ends whose listed calls fail.
fn run_failing(
    alloc: Global,
    out: &mut Vec<u8>,
    mut input: MemorySource,
    writes: Vec<u64>,
    wanted: &[u8],
    wanted_status: u64,
) -> Result<(), AllocError> {
    let mut output = MemorySink::new(Vec::new(alloc), writes);
    let outcome = run_script(alloc, &mut input, &mut output);
    let status = status_of(&outcome);
    push_compared(alloc, out, wanted, wanted_status, output.bytes(), status)
}

/// Makes calls.
fn run_answered(
    alloc: Global,
    out: &mut Vec<u8>,
    calls: &[u8],
    wanted: &[u8],
) -> Result<(), AllocError> {
    let Ok(calls) = str::from_utf8(calls) else {
        return push_line(out, b"misread");
    };
    match run_calls(alloc, calls) {
        Ok(answers) => push_compared(alloc, out, wanted, 0, &answers, 0),
        Err(_) => push_status(alloc, out, 5),
    }
}

fn push_verdict(alloc: Global, out: &mut Vec<u8>, case: Case) -> Result<(), AllocError> {
    let Case {
        name: _,
        script,
        calls,
        is_unended: _,
        reads,
        writes,
        status,
        wanted,
        has_copy: _,
        is_misread,
    } = case;
    if is_misread || !(calls.is_empty() || script.is_empty()) {
        push_line(out, b"misread")
    } else if !calls.is_empty() {
        run_answered(alloc, out, &calls, &wanted)
    } else if reads.is_empty() && writes.is_empty() {
        run_surely(alloc, out, script, &wanted, status)
    } else {
        let input = MemorySource::new(script, reads);
        run_failing(alloc, out, input, writes, &wanted, status)
    }
}

/// Runs a case whose rows are all taken, and writes a line that begins with its name.
pub(crate) fn judge(alloc: Global, out: &mut Vec<u8>, mut case: Case) -> Result<(), AllocError> {
    case.complete()?;
    out.extend_from_slice(case.name.as_bytes())?;
    out.extend_from_slice(b": ")?;
    push_verdict(alloc, out, case)
}
