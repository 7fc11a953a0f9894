//! Writes and reads the bytes of workbooks again and again, to be timed from outside, and reads bytes
//! that another program made up, to see which are taken.
//!
//! Each line of the input is a word and what it is given, parted by blanks, and is answered by a line:
//!
//! - `encode-numbers COUNT ROUNDS`, `encode-formulas COUNT ROUNDS`: how many bytes a workbook of so many
//!   cells has, which are written so often; 0 where they are not written.
//! - `decode-numbers COUNT ROUNDS`, `decode-formulas COUNT ROUNDS`: the same, where the bytes are written
//!   once and opened so often.
//! - `reset`: there is one new workbook, which follows queues. `reset BYTES`: it is that of these bytes.
//! - `queue BYTES`: whether the workbook follows them (`accepted`, or `refused` and the error), whether it is
//!   another one afterwards (`changed` or `same`), and whether the queue that they encode has these bytes
//!   (`again` or `other`, and `none` where they encode none).
//! - `workbook BYTES`: whether they are opened, and whether the workbook that they encode has these bytes.
//! - `saved`: the bytes of the workbook that follows.
//!
//! A workbook of so many cells has whole rows of a hundred. Bytes are written in hexadecimal.
#![tactic(auto)]

mod bench;
mod kept;
mod opened;
mod queues;

use crate::bench::measured;
use crate::kept::Kept;
use crate::opened::try_workbook;
use anyhow::Result;
use std::alloc::Global;
use std::io;
use user_model::EditError;

/// The bytes that hexadecimal digits write, and none where they write none.
fn bytes_of(alloc: Global, digits: &str) -> Vec<u8> {
    hex::decode(alloc, digits).unwrap_or(Vec::new(alloc))
}

/// The answer to a word and what it is given.
fn answer(alloc: Global, kept: &mut Kept, word: &str, given: &str) -> Result<String, EditError> {
    match word {
        "reset" => kept.reset(alloc, &bytes_of(alloc, given)),
        "queue" => kept.try_queue(alloc, &bytes_of(alloc, given)),
        "workbook" => try_workbook(alloc, &bytes_of(alloc, given)),
        "saved" => Ok(hex::encode(alloc, kept.bytes())?),
        _ => measured(alloc, word, given),
    }
}

fn main(rt: HostRuntime) -> Result<()> {
    let lines = io::read_to_string(rt.alloc(), rt.reader())?;
    let mut kept = Kept::new(rt.alloc())?;
    for line in lines.lines() {
        let (word, given) = line.split_once(' ').unwrap_or((line, ""));
        let told = answer(rt.alloc(), &mut kept, word, given)?;
        println!(rt; "{told}")?;
    }
    Ok(())
}
