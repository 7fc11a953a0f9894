//! A workbook that follows the bytes of queues.

use crate::queues::queue_again;
use std::alloc::{AllocError, Global};
use user_model::{ClearAll, EditError, UserModel};

pub(crate) type Model = UserModel<ClearAll>;

/// The bytes of a queue without entries.
const EMPTY_QUEUE: &[u8] = b"ICQ1\0\0\0\0\0\0\0\0";

pub(crate) fn new_model(alloc: Global) -> Result<Model, EditError> {
    UserModel::new_empty(alloc, "workbook", "en", "UTC", "en", ClearAll)
}

pub(crate) fn opened(alloc: Global, bytes: &[u8]) -> Result<Model, EditError> {
    UserModel::from_bytes(alloc, bytes, "en", ClearAll)
}

/// `accepted`, or `refused` and the name of the error, behind it the entry that does not fit or the rule that
/// is broken.
pub(crate) fn outcome(alloc: Global, done: Result<(), EditError>) -> Result<String, AllocError> {
    match done {
        Ok(()) => String::from_str(alloc, "accepted"),
        Err(EditError::DiffRefused { entry, diff: _ }) => {
            format!(in alloc; "refused DiffRefused {entry}")
        }
        Err(EditError::IllFormed { rule }) => format!(in alloc; "refused IllFormed {rule}"),
        Err(error) => {
            let name = error.name();
            format!(in alloc; "refused {name}")
        }
    }
}

/// A model that follows queues, and the bytes of its workbook.
#[derive(Drop)]
pub(crate) struct Kept {
    model: Model,
    bytes: Vec<u8>,
}

impl Kept {
    pub(crate) fn new(alloc: Global) -> Result<Kept, EditError> {
        Kept::of(new_model(alloc)?)
    }

    fn of(model: Model) -> Result<Kept, EditError> {
        let bytes = model.to_bytes()?;
        Ok(Kept { model, bytes })
    }

    /// The bytes of the workbook.
    pub(crate) fn bytes(&self) -> &[u8] {
        &self.bytes
    }

    fn begin(&mut self, begun: Result<Model, EditError>) -> Result<(), EditError> {
        *self = Kept::of(begun?)?;
        Ok(())
    }

    /// Begins with a new workbook, or with the one that bytes encode.
    pub(crate) fn reset(&mut self, alloc: Global, bytes: &[u8]) -> Result<String, EditError> {
        let begun = if bytes.is_empty() {
            new_model(alloc)
        } else {
            opened(alloc, bytes)
        };
        let done = self.begin(begun);
        Ok(outcome(alloc, done)?)
    }

    /// Whether the workbook is another one than before, or there is something to send or to take back.
    fn has_changed(&mut self) -> Result<bool, EditError> {
        let queue = self.model.flush_send_queue()?;
        let bytes = self.model.to_bytes()?;
        let is_same = bytes == self.bytes && queue.as_slice() == EMPTY_QUEUE;
        self.bytes = bytes;
        Ok(!is_same || self.model.can_undo() || self.model.can_redo())
    }

    /// Follows bytes, and tells how that went.
    pub(crate) fn try_queue(&mut self, alloc: Global, bytes: &[u8]) -> Result<String, EditError> {
        let done = self.model.apply_external_diffs(bytes);
        let told = outcome(alloc, done)?;
        let change = if self.has_changed()? {
            "changed"
        } else {
            "same"
        };
        let again = queue_again(alloc, bytes)?;
        Ok(format!(in alloc; "{told} {change} {again}")?)
    }
}
