use crate::answers::{push_error, push_number};
use crate::hex::bytes_of;
use base_decimal::Decimal;
use base_maps::IndexKeys;
use base_shared::Shared;
use base_styles::Style;
use base_tables::Error;
use base_values::{EditError, Text};
use base_wire::{MapPart, Part};
use grid_wire::{NamePart, RulePart, SheetPart};
use script_dump::{push_hex, push_line};
use sheet_wire::{DiffPart, EditPart, KeptLinesPart, decode_queue};
use std::alloc::Global;

type NumbersPart = MapPart<IndexKeys<u8>, u64, u8>;

/// What is asked of bytes.
#[derive(Clone, Copy)]
enum Question {
    /// How they are written when they were read as a part, and what is left behind it.
    Again,
    /// How many bytes the shortest front has that begins with a part; all, where none has.
    Front,
}

fn push_written(out: &mut Vec<u8>, written: &[u8], rest: &[u8]) -> Result<(), EditError> {
    push_hex(out, written)?;
    if !rest.is_empty() {
        out.extend_from_slice(b" and ")?;
        push_hex(out, rest)?;
    }
    Ok(out.push(b'\n')?)
}

fn push_again<P: Part>(
    alloc: Global,
    out: &mut Vec<u8>,
    context: &P::Context,
    bytes: &[u8],
) -> Result<(), EditError> {
    match P::take(alloc, context, bytes) {
        Ok((value, rest)) => {
            let mut written = Vec::new(alloc);
            P::put(&mut written, &value)?;
            push_written(out, &written, rest)
        }
        Err(error) => push_error(alloc, out, error),
    }
}

fn shortest_front<P: Part>(alloc: Global, context: &P::Context, bytes: &[u8]) -> usize {
    for count in 0..bytes.len() {
        if P::take(alloc, context, &bytes[..count]).is_ok() {
            return count;
        }
    }
    bytes.len()
}

fn push_part<P: Part>(
    alloc: Global,
    out: &mut Vec<u8>,
    context: &P::Context,
    question: Question,
    bytes: &[u8],
) -> Result<(), EditError> {
    match question {
        Question::Again => push_again::<P>(alloc, out, context, bytes),
        Question::Front => push_number(alloc, out, shortest_front::<P>(alloc, context, bytes)),
    }
}

/// Asks of bytes as a part whose values share the default style, or as another one.
fn push_named(
    alloc: Global,
    out: &mut Vec<u8>,
    plain: &Shared<Style>,
    question: Question,
    part: &str,
    bytes: &[u8],
) -> Result<(), EditError> {
    match part {
        "diff" => push_part::<DiffPart>(alloc, out, plain, question, bytes),
        "kept-lines" => push_part::<KeptLinesPart>(alloc, out, plain, question, bytes),
        "rule" => push_part::<RulePart>(alloc, out, plain, question, bytes),
        "sheet" => push_part::<SheetPart>(alloc, out, plain, question, bytes),
        "name" => push_part::<NamePart>(alloc, out, &(), question, bytes),
        "edit" => push_part::<EditPart>(alloc, out, &(), question, bytes),
        other => push_plain(alloc, out, question, other, bytes),
    }
}

fn push_plain(
    alloc: Global,
    out: &mut Vec<u8>,
    question: Question,
    part: &str,
    bytes: &[u8],
) -> Result<(), EditError> {
    match part {
        "numbers" => push_part::<NumbersPart>(alloc, out, &(), question, bytes),
        "boolean" => push_part::<bool>(alloc, out, &(), question, bytes),
        "error" => push_part::<Error>(alloc, out, &(), question, bytes),
        "decimal" => push_part::<Decimal>(alloc, out, &(), question, bytes),
        "text" => push_part::<Text>(alloc, out, &(), question, bytes),
        _ => Ok(push_line(out, b"no part")?),
    }
}

fn push_queue(alloc: Global, out: &mut Vec<u8>, bytes: &[u8]) -> Result<(), EditError> {
    match decode_queue(alloc, bytes) {
        Ok(queue) => push_number(alloc, out, queue.len()),
        Err(error) => push_error(alloc, out, error),
    }
}

/// Asks of bytes behind the word that tells how.
fn answer_with(
    alloc: Global,
    out: &mut Vec<u8>,
    question: &str,
    part: &str,
    bytes: &[u8],
) -> Result<(), EditError> {
    let plain = Shared::new(alloc, Style::new(alloc)?)?;
    match question {
        "read" => push_named(alloc, out, &plain, Question::Again, part, bytes),
        "cut" => push_named(alloc, out, &plain, Question::Front, part, bytes),
        _ => push_queue(alloc, out, bytes),
    }
}

/// Answers `read PART BYTES`, `cut PART BYTES` or `queue BYTES`, with bytes in hexadecimal.
pub(crate) fn answer_bytes(
    alloc: Global,
    out: &mut Vec<u8>,
    question: &str,
    text: &str,
) -> Result<(), EditError> {
    let (part, hex) = text.split_once(' ').unwrap_or(("", text));
    match bytes_of(alloc, hex)? {
        Some(bytes) => answer_with(alloc, out, question, part, &bytes),
        None => Ok(push_line(out, b"no bytes")?),
    }
}
