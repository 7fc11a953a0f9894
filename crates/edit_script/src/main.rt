//! Runs a script of edits from standard input, and writes its output to standard output
//! (docs/SCRIPT.md). `script_runs` has the call.
#![tactic(auto)]

use script_runs::{StdSink, StdSource, run_script, status_of};
use std::io;
use std::process::ExitCode;

fn main(rt: HostRuntime) -> ExitCode {
    let mut input = StdSource::new(rt.reader());
    let mut output = StdSink::new(io::writer(&rt));
    let outcome = run_script(rt.alloc(), &mut input, &mut output);
    ExitCode::from(status_of(&outcome))
}
