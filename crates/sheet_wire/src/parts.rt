//! Diffs and entries of queues as parts of formats.

use crate::decode::{diff_at, entry_at};
use crate::encode::{put_diff, put_entry};
use base_shared::Shared;
use base_styles::Style;
use base_values::EditError;
use base_wire::Part;
use sheet_history::{Diff, QueueDiffs};
use std::alloc::{AllocError, Global};

/// One change: its tag, and then its fields (docs/FORMATS.md).
pub struct DiffPart;

/// What is sent of one edit: its direction, and its diffs.
pub(crate) struct EntryPart;

impl Part for DiffPart {
    ghost use Rattle.sheet_wire.specs.QueueBytes.{encode_diff, FitsDiff, IsKnownDiff};
    ghost use Rattle.sheet_wire.specs.laws.Reading.{diff_at};
    ghost use Rattle.sheet_wire.specs.laws.QueueFormats.{diff_format, diff_some};

    type Value = Diff;

    type Context = Shared<Style>;

    ghost Known = { IsKnownDiff };

    ghost Fits = { FitsDiff };

    ghost encoding = { encode_diff };

    ghost reading = { diff_at };

    fn put(out: &mut Vec<u8>, value: &Diff) -> Result<(), AllocError> {
        put_diff(out, value)
    }

    fn take<'a>(
        alloc: Global,
        plain: &Shared<Style>,
        bytes: &'a [u8],
    ) -> Result<(Diff, &'a [u8]), EditError> {
        diff_at(alloc, plain, bytes)
    }

    ghost format = { diff_format };

    ghost some = { diff_some };
}

impl Part for EntryPart {
    ghost use Rattle.std.proofs.Common.{arith};
    ghost use Rattle.sheet_wire.specs.QueueBytes.{encode_entry, FitsEntry, IsKnownEntry};
    ghost use Rattle.sheet_wire.specs.laws.Reading.{entry_at};
    ghost use Rattle.sheet_wire.specs.laws.QueueFormats.{entry_format};

    type Value = QueueDiffs;

    type Context = Shared<Style>;

    ghost Known = { IsKnownEntry };

    ghost Fits = { FitsEntry };

    ghost encoding = { encode_entry };

    ghost reading = { entry_at };

    fn put(out: &mut Vec<u8>, value: &QueueDiffs) -> Result<(), AllocError> {
        put_entry(out, value)
    }

    fn take<'a>(
        alloc: Global,
        plain: &Shared<Style>,
        bytes: &'a [u8],
    ) -> Result<(QueueDiffs, &'a [u8]), EditError> {
        entry_at(alloc, plain, bytes)
    }

    ghost format = { entry_format };

    ghost some = { λ x. Prim.omega arith };
}
