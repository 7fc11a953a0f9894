ghost use Rattle.std.specs.Prelude.{◌≡◌, []};
ghost use Rattle.std.specs.Cmp.{partial_equiv_from_equiv};
ghost use Rattle.std.specs.Cmp.Lexicographic.{pointwise, lists_per, lists_equiv};
ghost use Rattle.base_axis.specs.contracts.merged_cell.MergedCellPartialEq.TheImpl as merged;
ghost use Rattle.base_axis.specs.laws.MergedEquals.{merged_equiv};

use crate::merged_cell::MergedCell;
use base_values::{Exact, Items};
use std::alloc::{AllocError, Global};
use std::marker::Model;

/// The merges of a sheet, in the order in which they were made.
#[derive(Debug, Drop)]
pub struct MergeList {
    items: Items<MergedCell>,
}

impl Model for MergeList {
    ghost use Rattle.std.specs.Prelude.{List};
    ghost use Rattle.std.specs.Coded.{codes};
    ghost use Rattle.base_axis.specs.declared.merged_cell.MergedCell.{MergedCell};

    ghost Value = { List MergedCell };

    ghost coded = { Prim.hlevel codes };

    ghost view = { λ merges. merges.items };
}

impl MergeList {
    /// These merges. It takes no memory.
    pub fn new(items: Items<MergedCell>) -> MergeList
        ensures { result ≡ items }
    {
        MergeList { items }
    }

    /// No merge. It takes no memory.
    pub fn empty(alloc: Global) -> MergeList
        ensures { result ≡ [] }
    {
        MergeList {
            items: Items::empty(alloc),
        }
    }

    /// Lends the merges.
    pub fn as_slice(&self) -> &[MergedCell]
        ensures { result.now ≡ self.now }
    {
        self.items.as_slice()
    }

    /// The merges as a list that can be changed. It takes no memory.
    pub fn into_items(self) -> Items<MergedCell>
        ensures { result ≡ self }
    {
        self.items
    }
}

impl Clone for MergeList {
    ghost is_clone = { λ s r. r ≡ s };

    fn clone(&self) -> Result<MergeList, AllocError> {
        Ok(MergeList {
            items: self.items.clone()?,
        })
    }
}

impl PartialEq for MergeList {
    ghost eq = { pointwise merged.ghosts.eq };

    ghost laws = { lists_per (partial_equiv_from_equiv merged_equiv) };

    fn eq(&self, other: &MergeList) -> bool {
        self.items == other.items
    }
}

impl Eq for MergeList {
    ghost laws = { lists_equiv merged_equiv };
}

impl Exact for MergeList {
    ghost use Rattle.std.specs.Cmp.Lexicographic.{pointwise_decides};
    ghost use Rattle.base_axis.specs.laws.MergedEquals.{merged_equals};

    ghost copies = { λ a b h. h };

    ghost equals = { pointwise_decides merged_equals };
}
