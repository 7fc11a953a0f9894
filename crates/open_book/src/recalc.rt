ghost use Rattle.std.specs.Prelude.{◌≡◌, true, IfOk, IsOk, IsOkUnless};
ghost use Rattle.base_values.specs.declared.EditError.TheVariants.{NoMemory};
ghost use Rattle.sheet_grid.specs.Book.{Book};
ghost use Rattle.sheet_grid.specs.Computed.{Values};

use base_values::EditError;
use sheet_grid::{Computed, Workbook};
use std::alloc::Global;

/// Whoever computes the values of a workbook. A user model asks it with each change.
///
/// The values fit the workbook; the implementor defines `Fits`. An implementor writes `compute`
/// alone; one that is never out of memory also says so by `Sure` and `is_sure`.
///
/// ```
/// impl Recalc for Ones {
///     ghost Fits = { λ _ _. Unit {0} };
///
///     fn compute(&mut self, alloc: Global, _workbook: &Workbook) -> Result<Computed, EditError> {
///         let mut values = Computed::new(alloc);
///         values.put(1, 1, 1, Content::Boolean(true), 1, 1)?;
///         Ok(values)
///     }
/// }
/// ```
pub trait Recalc {
    /// Which values fit a workbook.
    ghost Fits: { Book → Values → Type 0 };

    /// `compute` never returns `NoMemory`.
    ghost Sure: { Type 0 } = { ⊥ };

    /// The values of a workbook. The only error is `NoMemory`.
    fn compute(&mut self, alloc: Global, workbook: &Workbook) -> Result<Computed, EditError>
        ensures fits { IfOk result (λ values. Fits workbook.now values) }
        ensures only { IsOkUnless result NoMemory }
        ensures sure { Sure → IsOk result };

    /// Whether it is never out of memory. Changes are then made in the workbook itself, and else on a
    /// copy of it.
    fn is_sure(&self) -> bool
        ensures { result ≡ true → Sure }
    {
        false
    }
}

/// Computes nothing: formulas are kept and followed, and have no values.
///
/// ```
/// let model = UserModel::new_empty(alloc, "budget", "en", "UTC", "en", ClearAll)?;
/// ```
#[derive(Clone, Copy, Debug, PartialEq, Eq)]
pub struct ClearAll;

impl Recalc for ClearAll {
    ghost use Rattle.std.specs.Prelude.{◌≡◌};
    ghost use Rattle.sheet_grid.specs.Computed.{no_values};

    ghost Fits = { λ _ values. values ≡ no_values };

    ghost Sure = { Unit {0} };

    fn compute(&mut self, alloc: Global, _workbook: &Workbook) -> Result<Computed, EditError> {
        Ok(Computed::new(alloc))
    }

    fn is_sure(&self) -> bool {
        true
    }
}

/// What was computed last, and whether that waits.
#[derive(Drop)]
pub struct Results {
    pub values: Computed,
    pub paused: bool,
}
