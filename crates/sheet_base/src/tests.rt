// What rows can say is in `formula_rows`.
use crate::{EditError, Exact, copy_of, same};

mod axis;
mod decimal;
mod maps;
mod shared;
mod styles;
mod values;

/// Whether a copy is the same as its value.
fn is_copied<T: Exact + Drop>(value: &T) -> Result<bool, EditError> {
    let copy = copy_of(value)?;
    Ok(same(&copy, value))
}
