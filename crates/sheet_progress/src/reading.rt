ghost use Rattle.std.specs.Prelude.{◌≡◌, ℕ, ℤ, List, ◌^◌, All, IfOk, IfSome, IsOkUnless};
ghost use Rattle.std.specs.Option.{option_map};
ghost use Rattle.std.specs.declared.option.Option.{Option};
ghost use Rattle.base_values.specs.declared.EditError.TheVariants.{NoMemory};
ghost use Rattle.sheet_progress.specs.Steps.{IsWithin};
ghost use Rattle.sheet_progress.specs.Texts.{texts, each, steps_in};

use crate::steps::{Steps, steps_of};
use base_values::EditError;
use std::alloc::Global;

/// What finds a number in a text.
pub trait FindNumber {
    /// The number of a text, if it has one.
    ghost number_of: { Self → List ℕ → Option ℤ };

    /// The number of a text, or `None` where it has none. `NoMemory` is the only error.
    fn number(&self, alloc: Global, text: &str) -> Result<Option<i128>, EditError>
        ensures value { IfOk result (λ number. number ≡ number_of self.now text.now) }
        ensures within { IfOk result (λ number. IfSome number (IsWithin (10 ^ 30))) }
        ensures only { IsOkUnless result NoMemory };
}

fn numbers<F: FindNumber>(
    alloc: Global,
    find: &F,
    values: &[String],
) -> Result<Option<Vec<i128>>, EditError>
    ensures value { IfOk result (λ found. option_map (λ numbers. numbers.items) found ≡ each (F.number_of find.now) (texts values.now)) }
    ensures within { IfOk result (λ found. IfSome found (λ numbers. All (IsWithin (10 ^ 30)) numbers.items)) }
    ensures only { IsOkUnless result NoMemory }
{
    let mut numbers = Vec::new(alloc);
    for value in values {
        match find.number(alloc, value.as_str())? {
            Some(number) => numbers.push(number)?,
            None => return Ok(None),
        }
    }
    Ok(Some(numbers))
}

/// The steps of the numbers that texts have, if all have one and they have steps.
#[tactic(auto, unfolding(crate::specs::Texts::steps_in))]
pub fn steps_in<F: FindNumber>(
    alloc: Global,
    find: &F,
    values: &[String],
) -> Result<Option<Steps>, EditError>
    ensures value { IfOk result (λ steps. steps ≡ steps_in (F.number_of find.now) (texts values.now)) }
    ensures only { IsOkUnless result NoMemory }
{
    match numbers(alloc, find, values)? {
        Some(numbers) => Ok(steps_of(&numbers)),
        None => Ok(None),
    }
}
