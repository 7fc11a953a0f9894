ghost use Rattle.std.specs.Prelude.{◌≡◌, ℤ, pos, ◌-ℤ◌, ◌*◌, ◌^◌, ◌≤ℤ◌, All};
ghost use Rattle.sheet_progress.specs.Steps.{number_at, are_even, steps_of, IsWithin};

use base_values::Exact;
use std::marker::Model;

/// Whole numbers that go on by the same step: the last one, and how far each lies from the one
/// before it.
#[derive(Clone, Copy, PartialEq, Eq)]
pub struct Steps {
    last: i128,
    step: i128,
}

impl Model for Steps {
    ghost use Rattle.std.specs.Prelude.{◌*◌, ◌^◌};
    ghost use Rattle.std.specs.Coded.{codes};
    ghost use Rattle.sheet_progress.specs.Steps.{Steps, IsWithin};

    ghost Value = { Steps };

    ghost coded = { Prim.hlevel (codes) };

    ghost view = { λ s. record { last = s.last; step = s.step } };

    ghost inverse = { λ s. record { last = s.last; step = s.step } };

    ghost invariant = { λ s. IsWithin (10 ^ 30) s.last × IsWithin (2 * 10 ^ 30) s.step };
}

impl Exact for Steps {
    ghost use Rattle.std.proofs.Common.{rules};
    ghost use Rattle.sheet_progress.specs.laws.ProgressionEquals.{steps_equals};

    ghost copies = { λ a b h. Prim.search rules };

    ghost equals = { steps_equals };
}

impl Steps {
    /// The number at an index, where the first one after the last has index 0.
    #[tactic(auto, using(crate::proofs::Bounds::bounds))]
    pub fn at(&self, index: i32) -> i128
        requires from { pos 0 ≤ℤ index }
        requires to { index ≤ℤ pos 1048575 }
        ensures { result ≡ number_at self.now index }
    {
        self.last + self.step * (i128::from(index) + 1)
    }
}

/// How far the second number lies from the first.
#[tactic(auto, using(crate::proofs::Bounds::bounds))]
fn difference(a: &i128, b: &i128) -> i128
    requires first { IsWithin (10 ^ 30) a.now }
    requires second { IsWithin (10 ^ 30) b.now }
    ensures value { result ≡ b.now -ℤ a.now }
    ensures within { IsWithin (2 * 10 ^ 30) result }
{
    *b - *a
}

/// Whether each number lies one step from the one before it.
fn are_even(numbers: &[i128], step: &i128) -> bool
    requires { All (IsWithin (10 ^ 30)) numbers.now }
    ensures { result ≡ are_even step.now numbers.now }
{
    let mut rest = numbers;
    while let [a, b, ..] = rest {
        if difference(a, b) != *step {
            return false;
        }
        rest = &rest[1..];
    }
    true
}

/// The step of at least two numbers, if all steps between them are equal and not zero.
#[tactic(auto, unfolding(crate::specs::Steps::steps_of))]
pub fn steps_of(numbers: &[i128]) -> Option<Steps>
    requires { All (IsWithin (10 ^ 30)) numbers.now }
    ensures { result ≡ steps_of numbers.now }
{
    let [a, b, ..] = numbers else {
        return None;
    };
    let step = difference(a, b);
    if step == 0 || !are_even(numbers, &step) {
        return None;
    }
    Some(Steps {
        last: numbers[numbers.len() - 1],
        step,
    })
}
