//! Changes of what rows and columns have of their own, from their bytes and as bytes.

ghost use Rattle.std.specs.Prelude.{◌≡◌, ◌++◌, IfSome, OnOk};
ghost use Rattle.base_values.specs.Answers.{Answers, map_ok};
ghost use Rattle.grid_wire.specs.LineBytes.{IsKnownLine};
ghost use Rattle.sheet_history.specs.Entries.{line_tag};
ghost use Rattle.sheet_wire.specs.AttrBytes.{encode_attr_change, FitsAttrChange};
ghost use Rattle.sheet_wire.specs.laws.Reading.{attr_diff_at};

use base_shared::Shared;
use base_styles::Style;
use base_values::EditError;
use base_wire::{Part, read};
use grid_wire::LinePart;
use sheet_grid::LineAttr;
use sheet_history::{Diff, LineAxis};
use std::alloc::{AllocError, Global};

/// The tag of a change of what a line of an axis has.
pub(crate) fn line_tag(axis: LineAxis) -> u8
    ensures { result ≡ line_tag axis }
{
    match axis {
        LineAxis::Columns => 3,
        LineAxis::Rows => 4,
    }
}

#[tactic(auto, unfolding(crate::specs::laws::Reading::attr_diff_at, crate::specs::laws::Reading::own_at))]
pub(crate) fn attr_diff_at<'a>(
    alloc: Global,
    plain: &Shared<Style>,
    axis: LineAxis,
    bytes: &'a [u8],
) -> Result<(Diff, &'a [u8]), EditError>
    ensures { Answers (map_ok (λ x. (x.0, x.1.now)) result) (attr_diff_at axis bytes.now) }
{
    let (sheet, rest) = read::<u32>(alloc, &(), bytes)?;
    let (line, rest) = read::<i32>(alloc, &(), rest)?;
    let (old, rest) = read::<Option<LinePart>>(alloc, plain, rest)?;
    let (new, rest) = read::<Option<LinePart>>(alloc, plain, rest)?;
    let diff = Diff::Attributes {
        sheet,
        axis,
        line,
        old,
        new,
    };
    Ok((diff, rest))
}

/// Adds the id of a sheet, a line, and what it has before and after.
pub(crate) fn put_attr_change(
    out: &mut Vec<u8>,
    sheet: u32,
    line: i32,
    old: &Option<LineAttr>,
    new: &Option<LineAttr>,
) -> Result<(), AllocError>
    ensures encoded { OnOk result (out.new.items ≡ out.old.items ++ encode_attr_change sheet line old.now new.now) }
    ensures fits { OnOk result (IfSome old.now IsKnownLine → IfSome new.now IsKnownLine → FitsAttrChange sheet line old.now new.now) }
{
    out.extend_from_slice(&sheet.to_be_bytes())?;
    out.extend_from_slice(&line.to_be_bytes())?;
    Option::<LinePart>::put(out, old)?;
    Option::<LinePart>::put(out, new)
}
