ghost use Rattle.std.specs.Prelude.{◌≡◌, ◌++◌, [], IsOkUnless, OnOk};
ghost use Rattle.std.specs.List.{cons_option};
ghost use Rattle.base_values.specs.declared.EditError.TheVariants.{NoMemory};

use base_values::{EditError, Items};

/// Puts an item behind the others, if there is one.
pub fn put_last<T: Drop>(item: Option<T>, items: &mut Items<T>) -> Result<(), EditError>
    ensures items { OnOk result (items.new ≡ items.old ++ cons_option item []) }
    ensures only { IsOkUnless result NoMemory }
{
    if let Some(item) = item {
        items.push(item)?;
    }
    Ok(())
}
