//! The defined names of a workbook as a part of formats.

use crate::names::NamePart;
use base_values::{EditError, Items};
use base_wire::{Part, put_items};
use defined_names::NameList;
use std::alloc::{AllocError, Global};

/// The defined names of a workbook, in their order (docs/FORMATS.md, "Bytes").
pub(crate) struct NameListPart;

impl Part for NameListPart {
    ghost use Rattle.std.proofs.Common.{arith};
    ghost use Rattle.grid_wire.specs.NameBytes.{encode_names, FitsNames, AreKnownNames};
    ghost use Rattle.grid_wire.specs.laws.BookLaws.{names_at, names_format};

    type Value = NameList;

    type Context = ();

    ghost Known = { AreKnownNames };

    ghost Fits = { FitsNames };

    ghost encoding = { encode_names };

    ghost reading = { names_at };

    #[tactic(auto, using(crate::specs::laws::KnownLaws::names_known))]
    fn put(out: &mut Vec<u8>, value: &NameList) -> Result<(), AllocError> {
        put_items::<NamePart>(out, value.as_slice())
    }

    fn take<'a>(
        alloc: Global,
        _context: &(),
        bytes: &'a [u8],
    ) -> Result<(NameList, &'a [u8]), EditError> {
        let (items, rest) = Items::<NamePart>::take(alloc, &(), bytes)?;
        Ok((NameList::new(items), rest))
    }

    ghost format = { names_format };

    ghost some = { λ x. Prim.omega arith };
}
