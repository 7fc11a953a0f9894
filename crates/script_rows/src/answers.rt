use base_values::EditError;
use script_dump::push_line;
use std::alloc::Global;

/// Writes the name of a refusal, with its numbers if it has some.
pub(crate) fn push_name(
    alloc: Global,
    out: &mut Vec<u8>,
    error: EditError,
) -> Result<(), EditError> {
    match error {
        EditError::DiffRefused { entry, diff } => push_refused_diff(alloc, out, entry, diff),
        EditError::IllFormed { rule } => push_broken_rule(alloc, out, rule),
        other => Ok(push_line(out, other.name().as_bytes())?),
    }
}

fn push_refused_diff(
    alloc: Global,
    out: &mut Vec<u8>,
    entry: u64,
    diff: u64,
) -> Result<(), EditError> {
    let text = format!(in alloc; "DiffRefused {entry} {diff}")?;
    Ok(push_line(out, text.as_bytes())?)
}

fn push_broken_rule(alloc: Global, out: &mut Vec<u8>, rule: u8) -> Result<(), EditError> {
    let text = format!(in alloc; "IllFormed {rule}")?;
    Ok(push_line(out, text.as_bytes())?)
}

/// Writes that a call was refused, and how. Being out of memory is no refusal.
pub(crate) fn push_error(
    alloc: Global,
    out: &mut Vec<u8>,
    error: EditError,
) -> Result<(), EditError> {
    if let EditError::NoMemory = error {
        return Err(EditError::NoMemory);
    }
    out.extend_from_slice(b"error ")?;
    push_name(alloc, out, error)
}

/// Writes `ok`, or the refusal.
pub(crate) fn push_outcome(
    alloc: Global,
    out: &mut Vec<u8>,
    done: Result<(), EditError>,
) -> Result<(), EditError> {
    match done {
        Ok(()) => Ok(push_line(out, b"ok")?),
        Err(error) => push_error(alloc, out, error),
    }
}

pub(crate) fn push_number(
    alloc: Global,
    out: &mut Vec<u8>,
    number: usize,
) -> Result<(), EditError> {
    Ok(push_line(out, number.to_string(alloc)?.as_bytes())?)
}

/// Writes a text, or the refusal.
pub(crate) fn push_text(
    alloc: Global,
    out: &mut Vec<u8>,
    found: Result<String, EditError>,
) -> Result<(), EditError> {
    match found {
        Ok(text) => Ok(push_line(out, text.as_bytes())?),
        Err(error) => push_error(alloc, out, error),
    }
}
