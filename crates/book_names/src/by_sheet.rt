//! The sheets of a workbook, each changed.

ghost use Rattle.std.specs.Prelude.{◌≡◌, map, IfOk, IsOkUnless};
ghost use Rattle.base_values.specs.declared.EditError.TheVariants.{NoMemory};
ghost use Rattle.sheet_grid.specs.Sheet.{Sheet};

use base_values::{EditError, Items};
use sheet_grid::Worksheet;
use std::alloc::Global;

/// A change of sheets.
pub trait SheetChange {
    /// What it asks for.
    ghost Asks: { Self → Type 0 };

    /// The change as definitions speak of it.
    ghost change: { Self → Sheet → Sheet };

    /// What a sheet becomes. `NoMemory` is the only error.
    fn changed(&self, alloc: Global, sheet: &Worksheet) -> Result<Worksheet, EditError>
        requires { Asks self.now }
        ensures sheet { IfOk result (λ changed. changed ≡ change self.now sheet.now) }
        ensures only { IsOkUnless result NoMemory };
}

/// The sheets of a workbook, each changed. `NoMemory` is the only error.
pub fn changed_sheets<C: SheetChange>(
    alloc: Global,
    change: &C,
    sheets: &[Worksheet],
) -> Result<Items<Worksheet>, EditError>
    requires { C.Asks change.now }
    ensures sheets { IfOk result (λ output. output ≡ map (C.change change.now) sheets.now) }
    ensures only { IsOkUnless result NoMemory }
{
    let mut output = Items::empty(alloc);
    for sheet in sheets {
        output.push(change.changed(alloc, sheet)?)?;
    }
    Ok(output)
}
