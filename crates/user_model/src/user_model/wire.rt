//! The bytes that a model sends, receives and is kept as.

ghost use Rattle.std.specs.Prelude.{◌≡◌, ◌⊎◌, Err, IfOk, IsOkUnless, Ok, OnErr, OnOk, false};
ghost use Rattle.base_values.specs.Answers.{Edits};
ghost use Rattle.base_values.specs.declared.EditError.TheVariants.{NoMemory, ParseDiffs, ParseWorkbook};
ghost use Rattle.grid_wire.specs.BookBytes.{IsBook};
ghost use Rattle.sheet_grid.specs.Book.{Book};
ghost use Rattle.sheet_actions.specs.Checked.{checked};
ghost use Rattle.sheet_wire.specs.QueueBytes.{FitsQueue, IsNoQueue};
ghost use Rattle.open_book.specs.Machine.{sync_bytes, synced_of};
ghost use Rattle.open_book.specs.Sound.{CarriesOn, WhereCarried, WhereEncoded};
ghost use Rattle.open_book.specs.Stands.{Leaves, OnStates, OpensOrNoMemory, Steps};
ghost use Rattle.open_book.specs.Values.{IsMade, LeavesMade};
ghost use Rattle.user_model.specs.Beginning.{book_state};

use super::{UserModel, open};
use base_tables::get_language;
use base_values::{EditError, Items};
use open_book::Recalc;
use sheet_actions::Model as PlainModel;
use sheet_wire::{decode_queue_sharing, decode_workbook, encode_queue, encode_workbook};
use std::alloc::Global;

impl<R: Recalc + Drop> UserModel<R> {
    /// A model of the workbook that all of these bytes encode, in a display language that is given by
    /// its name. There is nothing to undo and nothing to send, and its values are made
    /// (docs/FORMATS.md, "Bytes").
    ///
    /// `LanguageName` where there is no language of that name, else `ParseWorkbook` where the bytes are
    /// no workbook's, else `IllFormed` with the first rule that the workbook breaks. `NoMemory` may come
    /// in place of each.
    ///
    /// ```
    /// let bytes = model.to_bytes()?;
    /// let again = UserModel::from_bytes(alloc, &bytes, "en", ClearAll)?;
    /// ```
    pub fn from_bytes(
        alloc: Global,
        bytes: &[u8],
        language: &str,
        recalc: R,
    ) -> Result<UserModel<R>, EditError>
        ensures opens { (book : Book) → IsBook bytes.now book → OpensOrNoMemory result (book_state language.now (checked book)) }
        ensures none { ((book : Book) → IsBook bytes.now book → ⊥) → OpensOrNoMemory result (book_state language.now (Err ParseWorkbook)) }
        ensures fits { IfOk result (λ model. R.Fits model.document.book model.values) }
        ensures paused { IfOk result (λ model. model.paused ≡ false) }
    {
        let language = get_language(language)?;
        let workbook = decode_workbook(alloc, bytes)?;
        let model = PlainModel::from_workbook(alloc, workbook)?;
        open(alloc, model.into_workbook(), language, recalc)
    }

    /// The bytes of the workbook as it is now, from which `from_bytes` makes a model again: to keep it
    /// in a file, or for a copy that joins late (docs/FORMATS.md, "Bytes"). The only error is `NoMemory`.
    ///
    /// ```
    /// let bytes = model.to_bytes()?;
    /// ```
    pub fn to_bytes(&self) -> Result<Vec<u8>, EditError>
        ensures encoded { IfOk result (λ bytes. IsBook bytes.items self.now.document.book) }
        ensures only { IsOkUnless result NoMemory }
    {
        encode_workbook(self.book.alloc, &self.book.workbook)
    }

    /// The bytes of all records since the last flush. The queue is empty then. The only error is
    /// `NoMemory`, and nothing has changed then.
    ///
    /// The bytes carry the workbook at the flush before, and any equal to it, to the present one.
    ///
    /// ```
    /// let bytes = model.flush_send_queue()?;
    /// other.apply_external_diffs(&bytes)?;
    /// ```
    pub fn flush_send_queue(&mut self) -> Result<Vec<u8>, EditError>
        ensures bytes { OnStates self.old.document (λ state. IfOk result (λ bytes. bytes.items ≡ sync_bytes state)) }
        ensures carries { OnStates self.old.document (λ state. IfOk result (λ bytes. CarriesOn bytes.items state)) }
        ensures fits { OnStates self.old.document (λ state. OnOk result (FitsQueue state.sent)) }
        ensures next { Steps result self.old.document self.new.document (λ state. Ok (synced_of state)) }
        ensures values { self.new.values ≡ self.old.values }
        ensures err { OnErr result (self.new ≡ self.old) }
        ensures paused { self.new.paused ≡ self.old.paused }
    {
        let bytes = encode_queue(self.book.alloc, self.book.queue.as_slice())?;
        self.book.queue = Items::empty(self.book.alloc);
        Ok(bytes)
    }

    /// Follows the entries that the bytes of another copy's queue encode, one by one. The stacks and
    /// the queue stay.
    ///
    /// `ParseDiffs` exactly where the bytes are no queue's, and nothing has changed then. `DiffRefused`
    /// with the numbers of the first entry and diff that do not fit; exactly the entries before it
    /// stand. After `NoMemory` some first entries stand. Bytes of `flush_send_queue` that carry this
    /// workbook to a later one lead there, and `NoMemory` is then the only error.
    ///
    /// ```
    /// let bytes = first.flush_send_queue()?;
    /// second.apply_external_diffs(&bytes)?;
    /// ```
    pub fn apply_external_diffs(&mut self, bytes: &[u8]) -> Result<(), EditError>
        ensures next { OnStates self.old.document (λ state. WhereEncoded bytes.now (λ entries. Leaves result self.new.document entries state)) }
        ensures led { WhereCarried bytes.now self.old.document.book (λ later. OnOk result (self.new.document.book ≡ later)) }
        ensures carried { WhereCarried bytes.now self.old.document.book (λ later. IsOkUnless result NoMemory) }
        ensures unencoded { IsNoQueue bytes.now → Edits result self.old self.new (Err ParseDiffs) }
        ensures parsed { result ≡ Err ParseDiffs → IsNoQueue bytes.now }
        ensures output { WhereEncoded bytes.now (λ entries. LeavesMade result entries R.Fits self.old self.new) }
        ensures made_or_same { IsMade R.Fits self.new ⊎ (self.new ≡ self.old) }
        ensures paused { self.new.paused ≡ self.old.paused }
    {
        let queue = decode_queue_sharing(self.book.alloc, self.book.default_style.shared(), bytes)?;
        self.book
            .receive_all(&mut self.results, &mut self.recalc, queue.as_slice())
    }
}
