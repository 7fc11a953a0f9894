//! Runs a script of edits over one workbook, and writes one answer for each line and, last, the
//! second copy.
//!
//! `run_script` is the top call: what it writes is the output of the machine that keeps whole
//! earlier and later workbooks.
#![tactic(auto)]

mod output;
mod run;
mod session;
mod tally;

pub use run::{run_script, run_script_surely};
pub use script_lines::{
    Failed, MemorySink, MemorySource, RunError, Sink, Source, StdSink, StdSource, SureSink,
    SureSource, status_of,
};
