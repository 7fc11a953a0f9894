//! Calls that are made on one of two models which went through the same calls before, and whether
//! both are still alike.

use crate::answers::{push_name, push_outcome};
use crate::edits::{edit, follow};
use base_values::EditError;
use script_dump::{push_dump, push_hex, push_line};
use std::alloc::Global;
use user_model::{ClearAll, UserModel};

type Model = UserModel<ClearAll>;

/// As many steps are taken back, and made again.
const MOST_STEPS: usize = 1000;

/// As many requests for memory may be refused one after another.
const MOST_REFUSALS: usize = 16;

/// What two models must have alike.
#[derive(Clone, Copy)]
enum Part {
    /// The workbook, what is selected, the language, and whether there are steps to take back or to make
    /// again.
    Shown,
    /// The bytes of what was not sent yet.
    Sent,
    /// What is shown after each step that is taken back, and after each that is made again.
    Steps,
}

#[derive(Clone, Copy)]
enum Way {
    Back,
    Forth,
}

fn push_shown(alloc: Global, out: &mut Vec<u8>, model: &Model) -> Result<(), EditError> {
    let (undo, redo) = (model.can_undo(), model.can_redo());
    let (view, language) = (model.get_view(), model.get_language());
    let text = format!(in alloc; "{undo} {redo} {view:?} {language}")?;
    push_line(out, text.as_bytes())?;
    push_dump(alloc, out, model.get_model())
}

fn push_sent(out: &mut Vec<u8>, model: &mut Model) -> Result<(), EditError> {
    let bytes = model.flush_send_queue()?;
    Ok(push_hex(out, &bytes)?)
}

fn has_step(model: &Model, way: Way) -> bool {
    match way {
        Way::Back => model.can_undo(),
        Way::Forth => model.can_redo(),
    }
}

fn take_step(model: &mut Model, way: Way) -> Result<(), EditError> {
    match way {
        Way::Back => model.undo(),
        Way::Forth => model.redo(),
    }
}

/// Goes one way as far as it leads, or to the first step that is refused.
fn push_steps(
    alloc: Global,
    out: &mut Vec<u8>,
    model: &mut Model,
    way: Way,
) -> Result<(), EditError> {
    for _ in 0..MOST_STEPS {
        if !has_step(model, way) {
            return Ok(());
        }
        let done = take_step(model, way);
        let is_refused = done.is_err();
        push_outcome(alloc, out, done)?;
        push_shown(alloc, out, model)?;
        if is_refused {
            return Ok(());
        }
    }
    Ok(())
}

fn push_part(
    alloc: Global,
    out: &mut Vec<u8>,
    model: &mut Model,
    part: Part,
) -> Result<(), EditError> {
    match part {
        Part::Shown => push_shown(alloc, out, model),
        Part::Sent => push_sent(out, model),
        Part::Steps => {
            push_steps(alloc, out, model, Way::Back)?;
            push_steps(alloc, out, model, Way::Forth)
        }
    }
}

fn are_alike(
    alloc: Global,
    model: &mut Model,
    twin: &mut Model,
    part: Part,
) -> Result<bool, EditError> {
    let mut told = Vec::new(alloc);
    push_part(alloc, &mut told, model, part)?;
    let mut told_by_twin = Vec::new(alloc);
    push_part(alloc, &mut told_by_twin, twin, part)?;
    Ok(told.as_slice() == told_by_twin.as_slice())
}

/// The first part in which two models differ.
fn part_apart(
    alloc: Global,
    model: &mut Model,
    twin: &mut Model,
) -> Result<Option<&'static str>, EditError> {
    for (part, name) in [
        (Part::Shown, "shown"),
        (Part::Sent, "sent"),
        (Part::Steps, "steps"),
    ] {
        if !are_alike(alloc, model, twin, part)? {
            return Ok(Some(name));
        }
    }
    Ok(None)
}

/// Makes a call on the twin, which the model has answered.
pub(crate) fn repeat(
    alloc: Global,
    twin: &mut Model,
    call: &str,
    text: &str,
) -> Result<(), EditError> {
    match edit(alloc, twin, call, text) {
        Some(Err(EditError::NoMemory)) => Err(EditError::NoMemory),
        _ => Ok(()),
    }
}

/// Lets the twin follow pieces of bytes until it shows what the model shows, and counts them.
fn follow_pieces(
    alloc: Global,
    model: &mut Model,
    twin: &mut Model,
    pieces: &str,
) -> Result<u64, EditError> {
    let mut count: u64 = 0;
    for piece in pieces.split(' ') {
        if piece.is_empty() || are_alike(alloc, model, twin, Part::Shown)? {
            return Ok(count);
        }
        if let Err(EditError::NoMemory) = follow(alloc, twin, piece) {
            return Err(EditError::NoMemory);
        }
        count = count.saturating_add(1);
    }
    Ok(count)
}

/// Asks for memory until some comes. A test outside refuses it a few times in a row, so that a call which is
/// refused finds none to take its change back.
fn wait_for_memory(alloc: Global) {
    for _ in 0..MOST_REFUSALS {
        let mut asked = Vec::new(alloc);
        if asked.push(0u8).is_ok() {
            return;
        }
    }
}

/// Writes how a call was refused, and after how many pieces of its bytes.
fn push_refused(
    alloc: Global,
    out: &mut Vec<u8>,
    count: u64,
    error: EditError,
) -> Result<(), EditError> {
    let text = match count {
        0 => format!(in alloc; "same ")?,
        _ => format!(in alloc; "after {count} ")?,
    };
    out.extend_from_slice(text.as_bytes())?;
    push_name(alloc, out, error)
}

fn push_apart(out: &mut Vec<u8>, part: &str) -> Result<(), EditError> {
    out.extend_from_slice(b"differs ")?;
    Ok(push_line(out, part.as_bytes())?)
}

/// Answers a call that was made on the model and on the twin.
fn answer_done(
    alloc: Global,
    out: &mut Vec<u8>,
    model: &mut Model,
    twin: &mut Model,
) -> Result<(), EditError> {
    match part_apart(alloc, model, twin)? {
        Some(part) => push_apart(out, part),
        None => Ok(push_line(out, b"done")?),
    }
}

/// Answers a call that the model refused.
fn answer_refused(
    alloc: Global,
    out: &mut Vec<u8>,
    model: &mut Model,
    twin: &mut Model,
    pieces: &str,
    error: EditError,
) -> Result<(), EditError> {
    let count = follow_pieces(alloc, model, twin, pieces)?;
    match part_apart(alloc, model, twin)? {
        Some(part) => push_apart(out, part),
        None => push_refused(alloc, out, count, error),
    }
}

/// Makes an edit on the model, and on the twin where it is not refused: `done` where both are alike
/// then, `same` and the refusal where they are alike without it, `after` and a number where they are
/// alike once the twin followed so many first pieces of the bytes, and else `differs`.
pub(crate) fn answer_tried(
    alloc: Global,
    out: &mut Vec<u8>,
    model: &mut Model,
    twin: &mut Model,
    line: &str,
) -> Result<(), EditError> {
    let (call, text) = line.split_once(' ').unwrap_or((line, ""));
    match edit(alloc, model, call, text) {
        Some(Ok(())) => {
            repeat(alloc, twin, call, text)?;
            answer_done(alloc, out, model, twin)
        }
        Some(Err(error)) => {
            wait_for_memory(alloc);
            let pieces = pieces_of(call, text);
            answer_refused(alloc, out, model, twin, pieces, error)
        }
        None => Ok(push_line(out, b"no call")?),
    }
}

/// The pieces of the bytes that a call follows: behind them, each the bytes of a first part.
fn pieces_of<'a>(call: &str, text: &'a str) -> &'a str {
    match text.split_once(' ') {
        Some((_, pieces)) if call == "apply" => pieces,
        _ => "",
    }
}
