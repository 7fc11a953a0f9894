//! Checks rows of calls on formulas, tables, numbers, progressions and edits of lines.
//!
//! Standard input has a row on each line: the name of a call, what it is given, and what it must
//! answer, parted by tabs. Each wrong row is written, and last how many rows there were and how many
//! of them are wrong. docs/CONTRIBUTING.md has the calls.
#![tactic(auto)]

mod at;
mod borders;
mod bytes;
mod calls;
mod contents;
mod forms;
mod lines;
mod moved;
mod progress;
mod report;
mod row;
mod tables;
mod words;

use anyhow::Result;
use report::checked;
use std::io;

fn main(rt: HostRuntime) -> Result<()> {
    let rows = io::read_to_string(rt.alloc(), rt.reader())?;
    let report = checked(rt.alloc(), &rows)?;
    println!(rt; "{report}")?;
    Ok(())
}
