//! What rows and columns have of their own as parts of formats.

ghost use Rattle.base_values.specs.Answers.{Answers, map_ok};
ghost use Rattle.grid_wire.specs.laws.Reading.{line_at};

use crate::StylePart;
use base_shared::Shared;
use base_styles::Style;
use base_values::EditError;
use base_wire::{Part, read};
use sheet_grid::LineAttr;
use std::alloc::{AllocError, Global};

/// A line that has something of its own.
#[tactic(auto, unfolding(crate::specs::laws::Reading::line_at, crate::specs::laws::Reading::size_at, crate::specs::laws::Reading::own_style_at))]
fn line_at<'a>(
    alloc: Global,
    plain: &Shared<Style>,
    bytes: &'a [u8],
) -> Result<(LineAttr, &'a [u8]), EditError>
    ensures { Answers (map_ok (λ x. (x.0, x.1.now)) result) (line_at bytes.now) }
{
    let (size, rest) = read::<Option<i32>>(alloc, &(), bytes)?;
    let (style, rest) = read::<Option<StylePart>>(alloc, plain, rest)?;
    let (hidden, rest) = read::<bool>(alloc, &(), rest)?;
    let attr = LineAttr {
        size,
        style,
        hidden,
    };
    if attr.is_plain() {
        return Err(EditError::ParseDiffs);
    }
    Ok((attr, rest))
}

/// What a row or a column has of its own (docs/FORMATS.md, "Bytes"). Bytes encode none that has nothing.
/// Each style that is read and equal to that of the context shares it.
pub struct LinePart;

impl Part for LinePart {
    ghost use Rattle.grid_wire.specs.LineBytes.{encode_line, FitsLine, IsKnownLine};
    ghost use Rattle.grid_wire.specs.laws.Reading.{line_at};
    ghost use Rattle.grid_wire.specs.laws.LineLaws.{line_format, line_some};

    type Value = LineAttr;

    type Context = Shared<Style>;

    ghost Known = { IsKnownLine };

    ghost Fits = { FitsLine };

    ghost encoding = { encode_line };

    ghost reading = { line_at };

    #[tactic(auto, using(base_wire::specs::laws::MapFits::any_option))]
    fn put(out: &mut Vec<u8>, value: &LineAttr) -> Result<(), AllocError> {
        Option::<i32>::put(out, &value.size)?;
        Option::<StylePart>::put(out, &value.style)?;
        bool::put(out, &value.hidden)?;
        Ok(())
    }

    fn take<'a>(
        alloc: Global,
        plain: &Shared<Style>,
        bytes: &'a [u8],
    ) -> Result<(LineAttr, &'a [u8]), EditError> {
        line_at(alloc, plain, bytes)
    }

    ghost format = { line_format };

    ghost some = { line_some };
}
