//! Kept sheets as parts of formats.

ghost use Rattle.std.specs.Prelude.{◌≡◌, ◌++◌, OnOk};
ghost use Rattle.base_values.specs.Answers.{Answers, map_ok};
ghost use Rattle.sheet_wire.specs.SheetsBytes.{encode_kept_sheet, FitsKeptSheet, IsKnownKeptSheet};
ghost use Rattle.sheet_wire.specs.laws.Reading.{kept_sheet_at};

use base_maps::IndexKeys;
use base_shared::Shared;
use base_styles::Style;
use base_values::EditError;
use base_wire::{MapPart, Part, read};
use book_sheets::KeptSheet;
use defined_names::DefinedName;
use grid_wire::{NamePart, SheetPart};
use std::alloc::{AllocError, Global};

type PlacedNamesPart = MapPart<IndexKeys<DefinedName>, u64, NamePart>;

#[tactic(auto, unfolding(crate::specs::laws::Reading::kept_sheet_at, crate::specs::laws::Reading::placed_names_at))]
fn kept_sheet_at<'a>(
    alloc: Global,
    plain: &Shared<Style>,
    bytes: &'a [u8],
) -> Result<(KeptSheet, &'a [u8]), EditError>
    ensures { Answers (map_ok (λ x. (x.0, x.1.now)) result) (kept_sheet_at bytes.now) }
{
    let (sheet, rest) = read::<SheetPart>(alloc, plain, bytes)?;
    let (names, rest) = read::<PlacedNamesPart>(alloc, &(), rest)?;
    Ok((KeptSheet { sheet, names }, rest))
}

#[tactic(auto, unfolding(crate::specs::SheetsBytes::encode_kept_sheet))]
fn put_kept_sheet(out: &mut Vec<u8>, kept: &KeptSheet) -> Result<(), AllocError>
    ensures encoded { OnOk result (out.new.items ≡ out.old.items ++ encode_kept_sheet kept.now) }
    ensures fits { OnOk result (IsKnownKeptSheet kept.now → FitsKeptSheet kept.now) }
{
    SheetPart::put(out, &kept.sheet)?;
    PlacedNamesPart::put(out, &kept.names)?;
    Ok(())
}

/// A deleted sheet, with the names of its scope by their places.
pub(crate) struct KeptSheetPart;

impl Part for KeptSheetPart {
    ghost use Rattle.sheet_wire.specs.SheetsBytes.{encode_kept_sheet, FitsKeptSheet, IsKnownKeptSheet};
    ghost use Rattle.sheet_wire.specs.laws.Reading.{kept_sheet_at};
    ghost use Rattle.sheet_wire.specs.laws.SheetsFormats.{kept_sheet_format, kept_sheet_some};

    type Value = KeptSheet;

    type Context = Shared<Style>;

    ghost Known = { IsKnownKeptSheet };

    ghost Fits = { FitsKeptSheet };

    ghost encoding = { encode_kept_sheet };

    ghost reading = { kept_sheet_at };

    fn put(out: &mut Vec<u8>, value: &KeptSheet) -> Result<(), AllocError> {
        put_kept_sheet(out, value)
    }

    fn take<'a>(
        alloc: Global,
        plain: &Shared<Style>,
        bytes: &'a [u8],
    ) -> Result<(KeptSheet, &'a [u8]), EditError> {
        kept_sheet_at(alloc, plain, bytes)
    }

    ghost format = { kept_sheet_format };

    ghost some = { kept_sheet_some };
}
