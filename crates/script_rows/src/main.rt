//! Runs cases from standard input, each a script with the output that it must have, and writes whether each has it
//! (docs/CONTRIBUTING.md, "Cases").
#![tactic(auto)]

mod answers;
mod areas;
mod bytes;
mod calls;
mod case;
mod compare;
mod edits;
mod hex;
mod questions;
mod rows;
mod rules;
mod saved;
mod twins;
mod verdict;
mod words;

use crate::rows::write_verdicts;
use script_lines::{StdSink, StdSource, status_of};
use std::io;
use std::process::ExitCode;

fn main(rt: HostRuntime) -> ExitCode {
    let mut input = StdSource::new(rt.reader());
    let mut output = StdSink::new(io::writer(&rt));
    let outcome = write_verdicts(rt.alloc(), &mut input, &mut output);
    ExitCode::from(status_of(&outcome))
}
