//! The bytes of directions and of axes.

ghost use Rattle.std.specs.Prelude.{◌≡◌};
ghost use Rattle.base_values.specs.Answers.{ok_or};
ghost use Rattle.base_values.specs.declared.EditError.TheVariants.{ParseDiffs};
ghost use Rattle.base_wire.specs.laws.Reading.{decoded};
ghost use Rattle.sheet_wire.specs.LinesBytes.{axis_code};
ghost use Rattle.sheet_wire.specs.laws.Reading.{axes, directions};
ghost use Rattle.sheet_wire.specs.QueueBytes.{direction_code};

use base_values::EditError;
use sheet_history::{DiffType, LineAxis};

pub(crate) fn direction_code(kind: DiffType) -> u8
    ensures { result ≡ direction_code kind }
{
    match kind {
        DiffType::Undo => 0,
        DiffType::Redo => 1,
    }
}

pub(crate) fn direction_of(code: u8) -> Result<DiffType, EditError>
    ensures { result ≡ ok_or ParseDiffs (decoded direction_code directions code) }
{
    match code {
        0 => Ok(DiffType::Undo),
        1 => Ok(DiffType::Redo),
        _ => Err(EditError::ParseDiffs),
    }
}

pub(crate) fn axis_code(axis: LineAxis) -> u8
    ensures { result ≡ axis_code axis }
{
    match axis {
        LineAxis::Rows => 0,
        LineAxis::Columns => 1,
    }
}

pub(crate) fn axis_of(code: u8) -> Result<LineAxis, EditError>
    ensures { result ≡ ok_or ParseDiffs (decoded axis_code axes code) }
{
    match code {
        0 => Ok(LineAxis::Rows),
        1 => Ok(LineAxis::Columns),
        _ => Err(EditError::ParseDiffs),
    }
}
