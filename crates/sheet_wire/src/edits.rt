//! What edits do to lines, as bytes and from them.

ghost use Rattle.std.specs.Prelude.{◌≡◌, ◌++◌, OnOk, FitsSigned};
ghost use Rattle.std.specs.Int.{w32};
ghost use Rattle.base_values.specs.Answers.{Answers, map_ok};
ghost use Rattle.sheet_wire.specs.EditBytes.{encode_block, encode_edit, encode_number, FitsBlock, FitsEdit};
ghost use Rattle.sheet_wire.specs.laws.LinesReading.{block_at, edit_at};

use base_values::EditError;
use base_wire::{Part, read};
use line_map::EditKind;
use std::alloc::{AllocError, Global};

#[tactic(auto, unfolding(crate::specs::EditBytes::encode_number))]
fn put_number(out: &mut Vec<u8>, number: i32) -> Result<(), AllocError>
    ensures encoded { OnOk result (out.new.items ≡ out.old.items ++ encode_number number) }
    ensures fits { OnOk result (FitsSigned w32 number) }
{
    out.extend_from_slice(&number.to_be_bytes())?;
    Ok(())
}

/// Adds a first line, and how many.
fn put_block(out: &mut Vec<u8>, first: i32, count: i32) -> Result<(), AllocError>
    ensures encoded { OnOk result (out.new.items ≡ out.old.items ++ encode_block (first, count)) }
    ensures fits { OnOk result (FitsBlock first count) }
{
    put_number(out, first)?;
    put_number(out, count)
}

fn put_edit(out: &mut Vec<u8>, edit: EditKind) -> Result<(), AllocError>
    ensures encoded { OnOk result (out.new.items ≡ out.old.items ++ encode_edit edit) }
    ensures fits { OnOk result (FitsEdit edit) }
{
    match edit {
        EditKind::Insert { first, count } => {
            out.push(0)?;
            put_block(out, first, count)?;
        }
        EditKind::Delete { first, count } => {
            out.push(1)?;
            put_block(out, first, count)?;
        }
        EditKind::Move {
            first,
            count,
            delta,
        } => {
            out.push(2)?;
            put_block(out, first, count)?;
            put_number(out, delta)?;
        }
    }
    Ok(())
}

/// The first line of an edit, and how many.
fn block_at(alloc: Global, bytes: &[u8]) -> Result<((i32, i32), &[u8]), EditError>
    ensures { Answers (map_ok (λ x. (x.0, x.1.now)) result) (block_at bytes.now) }
{
    let (first, rest) = read::<i32>(alloc, &(), bytes)?;
    let (count, rest) = read::<i32>(alloc, &(), rest)?;
    Ok(((first, count), rest))
}

#[tactic(auto, unfolding(crate::specs::laws::LinesReading::edit_at))]
fn edit_at(alloc: Global, bytes: &[u8]) -> Result<(EditKind, &[u8]), EditError>
    ensures { Answers (map_ok (λ x. (x.0, x.1.now)) result) (edit_at bytes.now) }
{
    let (kind, rest) = read::<u8>(alloc, &(), bytes)?;
    match kind {
        0 => {
            let ((first, count), rest) = block_at(alloc, rest)?;
            Ok((EditKind::Insert { first, count }, rest))
        }
        1 => {
            let ((first, count), rest) = block_at(alloc, rest)?;
            Ok((EditKind::Delete { first, count }, rest))
        }
        2 => {
            let ((first, count), rest) = block_at(alloc, rest)?;
            let (delta, rest) = read::<i32>(alloc, &(), rest)?;
            let edit = EditKind::Move {
                first,
                count,
                delta,
            };
            Ok((edit, rest))
        }
        _ => Err(EditError::ParseDiffs),
    }
}

/// What an edit does to lines: whether they come, go or move, and where (docs/FORMATS.md, "Bytes").
pub struct EditPart;

impl Part for EditPart {
    ghost use Rattle.base_wire.specs.Encoding.{Any};
    ghost use Rattle.sheet_wire.specs.EditBytes.{encode_edit, FitsEdit};
    ghost use Rattle.sheet_wire.specs.laws.LinesReading.{edit_at};
    ghost use Rattle.sheet_wire.specs.laws.EditLaws.{edit_format, edit_some};

    type Value = EditKind;

    type Context = ();

    ghost Known = { Any };

    ghost Fits = { FitsEdit };

    ghost encoding = { encode_edit };

    ghost reading = { edit_at };

    fn put(out: &mut Vec<u8>, value: &EditKind) -> Result<(), AllocError> {
        put_edit(out, *value)?;
        Ok(())
    }

    fn take<'a>(
        alloc: Global,
        _context: &(),
        bytes: &'a [u8],
    ) -> Result<(EditKind, &'a [u8]), EditError> {
        edit_at(alloc, bytes)
    }

    ghost format = { edit_format };

    ghost some = { edit_some };
}
