//! A script, line by line: where it comes from and where its output goes, where its lines end, and which
//! command a line is.
//!
//! The layer above takes a script's lines with `split_first` and `without_return`, reads each with
//! `read_command`, and writes texts and places as answers print them with `push_escaped` and
//! `push_reference`. It sees commands by `command_of`, the tables of commands, and knows of each that
//! `CommandFits`. It sees sources and sinks of bytes that say what they have left or took and count
//! their faults, six ends, `read_all`, `write_all` and the errors of a run.
#![tactic(auto)]

mod color;
mod command;
mod draws;
mod error;
mod escape;
mod memory;
mod number;
mod parse;
mod parts;
mod readers;
mod reference;
mod sink;
mod source;
mod standard;
mod stream;
mod sure;

pub use command::{
    Command, NamedArea, NamedCell, NamedColor, NamedCount, NamedFill, NamedGrid, NamedLines,
    NamedMove, NamedName, NamedPath, NamedRule, NamedRun, NamedSheetMove, NamedSize, NamedSpan,
    NamedSwap, NamedUpdate,
};
pub use draws::drawn_command;
pub use error::{Failed, RunError, status_of};
pub use escape::{escapes_read_back, push_escaped};
pub use memory::{MemorySink, MemorySource};
pub use parse::read_command;
pub use parts::{split_first, without_return};
pub use reference::{push_reference, references_read_again};
pub use sink::Sink;
pub use source::Source;
pub use standard::{StdSink, StdSource};
pub use stream::{MOST_BYTES, read_all, write_all};
pub use sure::{SureSink, SureSource};
