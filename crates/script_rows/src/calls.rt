use crate::answers::push_error;
use crate::bytes::answer_bytes;
use crate::edits::answer_edit;
use crate::questions::ask;
use crate::saved::{answer_opened, push_saved};
use crate::twins::{answer_tried, repeat};
use base_values::EditError;
use script_dump::push_line;
use std::alloc::Global;
use user_model::{ClearAll, UserModel};

type Model = UserModel<ClearAll>;

/// Answers a question, or a call that asks of bytes.
fn answer_question(
    alloc: Global,
    out: &mut Vec<u8>,
    model: &Model,
    call: &str,
    text: &str,
) -> Result<(), EditError> {
    match call {
        "read" | "cut" | "queue" => answer_bytes(alloc, out, call, text),
        "to_bytes" => push_saved(out, model),
        "from_bytes" => answer_opened(alloc, out, text),
        _ => match ask(alloc, model, call, text) {
            Ok(Some(told)) => Ok(push_line(out, told.as_bytes())?),
            Ok(None) => Ok(push_line(out, b"no call")?),
            Err(error) => push_error(alloc, out, error),
        },
    }
}

/// Makes a call on a model and on its twin, and answers it. What is asked is asked of the model alone.
fn answer(
    alloc: Global,
    out: &mut Vec<u8>,
    model: &mut Model,
    twin: &mut Model,
    line: &str,
) -> Result<(), EditError> {
    let (call, text) = line.split_once(' ').unwrap_or((line, ""));
    if answer_edit(alloc, out, model, call, text)? {
        return repeat(alloc, twin, call, text);
    }
    answer_question(alloc, out, model, call, text)
}

fn answer_all(
    alloc: Global,
    out: &mut Vec<u8>,
    model: &mut Model,
    twin: &mut Model,
    calls: &str,
) -> Result<(), EditError> {
    for line in calls.lines() {
        match line.strip_prefix("! ") {
            Some(tried) => answer_tried(alloc, out, model, twin, tried)?,
            None => answer(alloc, out, model, twin, line)?,
        }
    }
    Ok(())
}

fn new_model(alloc: Global) -> Result<Model, EditError> {
    UserModel::new_empty(alloc, "workbook", "en", "UTC", "en", ClearAll)
}

fn answer_with_twin(
    alloc: Global,
    out: &mut Vec<u8>,
    model: &mut Model,
    calls: &str,
) -> Result<(), EditError> {
    let mut twin = new_model(alloc)?;
    match answer_all(alloc, out, model, &mut twin, calls) {
        Ok(()) => Ok(()),
        Err(error) => Err(error),
    }
}

/// What a new model answers to calls, a line each. A line that begins with `! ` is a call on it alone, and
/// the others are made on a second model too.
pub(crate) fn run_calls(alloc: Global, calls: &str) -> Result<Vec<u8>, EditError> {
    let mut out = Vec::new(alloc);
    let mut model = new_model(alloc)?;
    match answer_with_twin(alloc, &mut out, &mut model, calls) {
        Ok(()) => Ok(out),
        Err(error) => Err(error),
    }
}
