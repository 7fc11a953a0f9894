//! The codes of operators.

ghost use Rattle.std.specs.Prelude.{◌≡◌};
ghost use Rattle.base_values.specs.Answers.{Answers, map_ok, ok_or};
ghost use Rattle.base_values.specs.declared.EditError.TheVariants.{ParseDiffs};
ghost use Rattle.base_wire.specs.laws.Reading.{decoded};
ghost use Rattle.grid_wire.specs.RuleBytes.{operator_code};
ghost use Rattle.grid_wire.specs.laws.RuleReading.{operator_at, operators};

use base_values::EditError;
use base_wire::read;
use format_rules::CfOperator;
use std::alloc::Global;

pub(crate) fn operator_code(operator: CfOperator) -> u8
    ensures { result ≡ operator_code operator }
{
    match operator {
        CfOperator::Equal => 0,
        CfOperator::NotEqual => 1,
        CfOperator::Less => 2,
        CfOperator::LessOrEqual => 3,
        CfOperator::Greater => 4,
        CfOperator::GreaterOrEqual => 5,
        CfOperator::Between => 6,
        CfOperator::NotBetween => 7,
    }
}

fn operator_of(code: u8) -> Result<CfOperator, EditError>
    ensures { result ≡ ok_or ParseDiffs (decoded operator_code operators code) }
{
    match code {
        0 => Ok(CfOperator::Equal),
        1 => Ok(CfOperator::NotEqual),
        2 => Ok(CfOperator::Less),
        3 => Ok(CfOperator::LessOrEqual),
        4 => Ok(CfOperator::Greater),
        5 => Ok(CfOperator::GreaterOrEqual),
        6 => Ok(CfOperator::Between),
        7 => Ok(CfOperator::NotBetween),
        _ => Err(EditError::ParseDiffs),
    }
}

pub(crate) fn operator_at(alloc: Global, bytes: &[u8]) -> Result<(CfOperator, &[u8]), EditError>
    ensures { Answers (map_ok (λ x. (x.0, x.1.now)) result) (operator_at bytes.now) }
{
    let (code, rest) = read::<u8>(alloc, &(), bytes)?;
    let operator = operator_of(code)?;
    Ok((operator, rest))
}
