ghost use Rattle.std.specs.Prelude.{◌≡◌, ◌∷◌, [], length, IsOk, IsTrue, true, OnOk, OnErr, IfOk, IfSome, IsOkUnless, MatchOption, Ok};
ghost use Rattle.base_values.specs.Answers.{Changes};
ghost use Rattle.base_values.specs.declared.EditError.TheVariants.{NoMemory};
ghost use Rattle.sheet_history.specs.Diffs.{IsCanonicalList};
ghost use Rattle.sheet_history.specs.Stacks.{empty_stacks, moved_from, pushed, undone, redone};

use crate::diff::DiffList;
use base_values::{EditError, Exact};
use std::alloc::{AllocError, Global};
use std::marker::Model;

/// The stacks of undo and redo, of lists of diffs whose numbers are canonical.
#[derive(Drop)]
pub struct History {
    undo: Vec<DiffList>,
    redo: Vec<DiffList>,
    has_room: bool,
}

impl Model for History {
    ghost use Rattle.std.specs.Prelude.{◌≡◌, ◌-◌, ◌≤◌, IsTrue, All, reverse, vec_capacity, vec_len};
    ghost use Rattle.sheet_history.specs.Diffs.{IsCanonicalList};
    ghost use Rattle.sheet_history.specs.Stacks.{Stacks};
    ghost use Rattle.sheet_history.specs.contracts.diff.Diff as diff;
    ghost use Rattle.std.specs.Coded.{codes};

    ghost Value = { Stacks };

    ghost coded = { Prim.hlevel (codes, diff.the_row.coded) };

    ghost view = { λ h. record { undo = reverse h.undo.items; redo = reverse h.redo.items; has_room = h.has_room } };

    ghost invariant = { λ h.
        All IsCanonicalList h.undo.items × All IsCanonicalList h.redo.items
        × (IsTrue h.has_room → 1 ≤ vec_capacity h.undo - vec_len h.undo)
        × (IsTrue h.has_room → 1 ≤ vec_capacity h.redo - vec_len h.redo) };
}

impl History {
    /// Two empty stacks. It takes no memory.
    pub fn new(alloc: Global) -> History
        ensures { result ≡ empty_stacks }
    {
        History {
            undo: Vec::new(alloc),
            redo: Vec::new(alloc),
            has_room: false,
        }
    }

    /// How many lists there are to undo. It takes no memory.
    pub fn undo_len(&self) -> usize
        ensures { result ≡ length self.now.undo }
    {
        self.undo.len()
    }

    /// How many lists there are to redo. It takes no memory.
    pub fn redo_len(&self) -> usize
        ensures { result ≡ length self.now.redo }
    {
        self.redo.len()
    }

    /// Makes room for one list more on either stack, so that the next `push`, `undo` or `redo`
    /// takes no memory. `NoMemory` leaves the history as it was.
    pub fn reserve(&mut self) -> Result<(), EditError>
        ensures room { Changes result self.old self.new (Ok (record self.old { has_room = true })) }
    {
        self.undo.reserve(1)?;
        self.redo.reserve(1)?;
        self.has_room = true;
        Ok(())
    }

    /// Puts a list on the undo stack and empties the redo stack. `NoMemory` leaves the history as
    /// it was.
    pub fn push(&mut self, list: DiffList) -> Result<(), EditError>
        requires { IsCanonicalList list }
        ensures next { Changes result self.old self.new (Ok (pushed list self.old)) }
        ensures sure { IsTrue self.old.has_room → IsOk result }
    {
        self.undo.push(list)?;
        self.redo.clear();
        self.has_room = false;
        Ok(())
    }

    /// The newest list to undo.
    pub fn last_undo(&self) -> Option<&DiffList>
        ensures canonical { IfSome result (λ list. IsCanonicalList list.now) }
        ensures newest { MatchOption result (self.now.undo ≡ []) (λ list. (older : _) × (self.now.undo ≡ list.now ∷ older)) }
    {
        self.undo.last()
    }

    /// The newest list to redo.
    pub fn last_redo(&self) -> Option<&DiffList>
        ensures canonical { IfSome result (λ list. IsCanonicalList list.now) }
        ensures newest { MatchOption result (self.now.redo ≡ []) (λ list. (older : _) × (self.now.redo ≡ list.now ∷ older)) }
    {
        self.redo.last()
    }

    /// Moves the newest list to undo to the redo stack. It answers `None` exactly where there is no such
    /// list. `NoMemory` leaves the history as it was.
    pub fn undo(&mut self) -> Result<Option<()>, EditError>
        ensures next { OnOk result (self.new ≡ undone self.old) }
        ensures moved { IfOk result (λ moved. moved ≡ moved_from self.old.undo) }
        ensures err { OnErr result (self.new ≡ self.old) }
        ensures only { IsOkUnless result NoMemory }
        ensures sure { IsTrue self.old.has_room → IsOk result }
    {
        self.redo.reserve(1)?;
        let Some(list) = self.undo.pop() else {
            return Ok(None);
        };
        self.has_room = false;
        match self.redo.push(list) {
            Ok(()) => Ok(Some(())),
            Err(_) => unreachable!(),
        }
    }

    /// Moves the newest list to redo to the undo stack. It answers `None` exactly where there is no such
    /// list. `NoMemory` leaves the history as it was.
    pub fn redo(&mut self) -> Result<Option<()>, EditError>
        ensures next { OnOk result (self.new ≡ redone self.old) }
        ensures moved { IfOk result (λ moved. moved ≡ moved_from self.old.redo) }
        ensures err { OnErr result (self.new ≡ self.old) }
        ensures only { IsOkUnless result NoMemory }
        ensures sure { IsTrue self.old.has_room → IsOk result }
    {
        self.undo.reserve(1)?;
        let Some(list) = self.redo.pop() else {
            return Ok(None);
        };
        self.has_room = false;
        match self.undo.push(list) {
            Ok(()) => Ok(Some(())),
            Err(_) => unreachable!(),
        }
    }
}

impl Clone for History {
    ghost is_clone = { λ s r. r ≡ s };

    fn clone(&self) -> Result<History, AllocError> {
        let mut undo = self.undo.clone()?;
        let mut redo = self.redo.clone()?;
        if self.has_room {
            undo.reserve(1)?;
            redo.reserve(1)?;
        }
        Ok(History {
            undo,
            redo,
            has_room: self.has_room,
        })
    }
}

/// Two histories are equal where their lists are, and both or neither have room.
impl PartialEq for History {
    ghost use Rattle.base_values.specs.CodedEq.{same_value};
    ghost use Rattle.base_values.specs.laws.CodedEq.{same_value_laws};
    ghost use Rattle.sheet_history.specs.contracts.history.History.{the_row};

    ghost eq = { same_value the_row.coded };

    ghost laws = { same_value_laws the_row.coded };

    fn eq(&self, other: &History) -> bool {
        self.undo == other.undo && self.redo == other.redo && self.has_room == other.has_room
    }
}

impl Eq for History {
    ghost use Rattle.base_values.specs.laws.CodedEq.{same_value_equiv};
    ghost use Rattle.sheet_history.specs.contracts.history.History.{the_row};

    ghost laws = { same_value_equiv the_row.coded };
}

impl Exact for History {
    ghost use Rattle.base_values.specs.laws.CodedEq.{same_value_decides};
    ghost use Rattle.sheet_history.specs.contracts.history.History.{the_row};

    ghost copies = { λ a b h. h };

    ghost equals = { same_value_decides the_row.coded };
}
