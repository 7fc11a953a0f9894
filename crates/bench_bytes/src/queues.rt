//! Queues that are read and written again, part by part.

use base_values::EditError;
use base_wire::{Part, put_items};
use sheet_history::{DiffType, QueueDiffs};
use sheet_wire::{DiffPart, decode_queue};
use std::alloc::{AllocError, Global};

fn put_entry(out: &mut Vec<u8>, entry: &QueueDiffs) -> Result<(), AllocError> {
    let code = match entry.kind {
        DiffType::Undo => 0,
        DiffType::Redo => 1,
    };
    out.push(code)?;
    put_items::<DiffPart>(out, entry.list.get().as_slice())
}

/// The bytes of a queue (docs/FORMATS.md).
fn written(alloc: Global, queue: &[QueueDiffs]) -> Result<Vec<u8>, AllocError> {
    let mut out = Vec::from_slice(alloc, b"ICQ1")?;
    out.extend_from_slice(&(queue.len() as u64).to_be_bytes())?;
    for entry in queue {
        put_entry(&mut out, entry)?;
    }
    Ok(out)
}

/// `again` where bytes are written as they were read, else `other`.
pub(crate) fn comparison(are_equal: bool) -> &'static str {
    if are_equal { "again" } else { "other" }
}

/// Whether the queue that bytes encode has these bytes, and `none` where they encode none.
pub(crate) fn queue_again(alloc: Global, bytes: &[u8]) -> Result<&'static str, EditError> {
    match decode_queue(alloc, bytes) {
        Ok(queue) => {
            let written = written(alloc, queue.as_slice())?;
            Ok(comparison(written.as_slice() == bytes))
        }
        Err(EditError::NoMemory) => Err(EditError::NoMemory),
        Err(_) => Ok("none"),
    }
}
