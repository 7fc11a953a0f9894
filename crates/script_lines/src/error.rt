ghost use Rattle.std.specs.Prelude.{◌≡◌};
ghost use Rattle.script_lines.specs.declared.error.RunError.TheVariants.{NoMemory};
ghost use Rattle.script_lines.specs.Status.{status_number};

use base_values::Exact;
use std::alloc::AllocError;
use thiserror::Error;

/// A source or a sink failed. It counts this as a fault.
#[derive(Clone, Copy, Debug, PartialEq, Eq, Error)]
#[error("the source or sink failed")]
pub struct Failed;

impl Exact for Failed {
    ghost use Rattle.script_lines.specs.laws.ErrorEquals.{failed_equals};

    ghost copies = { λ a b h. h };

    ghost equals = { failed_equals };
}

/// Why a script's run did not end well.
#[derive(Clone, Copy, Debug, PartialEq, Eq, Error)]
pub enum RunError {
    #[error("the script could not be read")]
    ReadFault,
    #[error("the output could not be written")]
    WriteFault,
    #[error("the script has more than 16777216 bytes")]
    TooLong,
    #[error("there is not enough memory")]
    NoMemory,
}

impl Exact for RunError {
    ghost use Rattle.std.proofs.Common.{rules};
    ghost use Rattle.script_lines.specs.laws.ErrorEquals.{run_error_equals};

    ghost copies = { λ a b h. Prim.search rules };

    ghost equals = { run_error_equals };
}

impl From<AllocError> for RunError {
    ghost from_gives = { λ _ e. e ≡ NoMemory };

    fn from(_refused: AllocError) -> RunError {
        RunError::NoMemory
    }
}

/// The status with which a program ends: 0, or for the errors in their order 2, 3, 4 and 5.
/// It takes no memory.
pub fn status_of(outcome: &Result<(), RunError>) -> u8
    ensures { result ≡ status_number outcome.now }
{
    match outcome {
        Ok(()) => 0,
        Err(RunError::ReadFault) => 2,
        Err(RunError::WriteFault) => 3,
        Err(RunError::TooLong) => 4,
        Err(RunError::NoMemory) => 5,
    }
}
