//! Bytes that are opened as a workbook and written again.

use crate::kept::{opened, outcome};
use crate::queues::comparison;
use base_values::EditError;
use base_wire::put_items;
use grid_wire::{NamePart, SheetPart, decode_workbook};
use sheet_grid::Workbook;
use std::alloc::{AllocError, Global};

/// The bytes of the names and sheets of a workbook, with which its own bytes end (docs/FORMATS.md).
fn end_of(alloc: Global, workbook: &Workbook) -> Result<Vec<u8>, AllocError> {
    let mut out = Vec::new(alloc);
    put_items::<NamePart>(&mut out, workbook.defined_names())?;
    put_items::<SheetPart>(&mut out, workbook.worksheets())?;
    Ok(out)
}

/// Whether names and sheets that bytes encode have these bytes, and `none` where they encode none.
fn end_again(alloc: Global, bytes: &[u8]) -> Result<&'static str, EditError> {
    match decode_workbook(alloc, bytes) {
        Ok(workbook) => {
            let end = end_of(alloc, &workbook)?;
            Ok(comparison(bytes.ends_with(&end)))
        }
        Err(EditError::NoMemory) => Err(EditError::NoMemory),
        Err(_) => Ok("none"),
    }
}

/// Opens bytes, and tells how that went. Those of a workbook that breaks a rule are refused, and written
/// again from the names on.
pub(crate) fn try_workbook(alloc: Global, bytes: &[u8]) -> Result<String, EditError> {
    match opened(alloc, bytes) {
        Ok(model) => {
            let again = comparison(model.to_bytes()?.as_slice() == bytes);
            Ok(format!(in alloc; "accepted {again}")?)
        }
        Err(error) => {
            let told = outcome(alloc, Err(error))?;
            let again = end_again(alloc, bytes)?;
            Ok(format!(in alloc; "{told} {again}")?)
        }
    }
}
