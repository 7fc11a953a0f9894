ghost use Rattle.std.specs.Prelude.{◌≡◌};
ghost use Rattle.base_values.specs.Answers.{ok_or};
ghost use Rattle.base_values.specs.declared.EditError.TheVariants.{ParseDiffs};
ghost use Rattle.base_wire.specs.laws.Reading.{decoded, booleans};
ghost use Rattle.base_wire.specs.Encoding.{boolean_code};

use base_values::EditError;

/// The byte of a boolean: 0 or 1 (docs/FORMATS.md, "Bytes").
pub fn boolean_code(value: bool) -> u8
    ensures { result ≡ boolean_code value }
{
    match value {
        false => 0,
        true => 1,
    }
}

pub(crate) fn boolean_of(code: u8) -> Result<bool, EditError>
    ensures { result ≡ ok_or ParseDiffs (decoded boolean_code booleans code) }
{
    match code {
        0 => Ok(false),
        1 => Ok(true),
        _ => Err(EditError::ParseDiffs),
    }
}
