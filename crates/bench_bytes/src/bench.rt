//! Workbooks of many cells, written and opened again and again.

use crate::kept::{Model, new_model, opened};
use std::alloc::{AllocError, Global};
use user_model::EditError;

/// What stands in the cells of a workbook.
#[derive(Clone, Copy)]
enum Filling {
    Numbers,
    Formulas,
}

/// What is done with the bytes of a workbook.
#[derive(Clone, Copy)]
enum Way {
    Encode,
    Decode,
}

fn task_named(word: &str) -> Option<(Way, Filling)> {
    match word {
        "encode-numbers" => Some((Way::Encode, Filling::Numbers)),
        "encode-formulas" => Some((Way::Encode, Filling::Formulas)),
        "decode-numbers" => Some((Way::Decode, Filling::Numbers)),
        "decode-formulas" => Some((Way::Decode, Filling::Formulas)),
        _ => None,
    }
}

fn content(alloc: Global, filling: Filling, row: i32, column: i32) -> Result<String, AllocError> {
    match filling {
        Filling::Numbers => format!(in alloc; "{row}.{column}"),
        Filling::Formulas => String::from_str(alloc, "=A1+$B$2*SUM(C3:D9)"),
    }
}

/// Fills the first hundred columns of a row.
fn fill_row(alloc: Global, model: &mut Model, filling: Filling, row: i32) -> Result<(), EditError> {
    for column in 1..=100 {
        let text = content(alloc, filling, row, column)?;
        model.set_user_input(0, row, column, text.as_str())?;
    }
    Ok(())
}

fn filled(alloc: Global, filling: Filling, rows: i32) -> Result<Model, EditError> {
    let mut model = new_model(alloc)?;
    for row in 1..=rows {
        fill_row(alloc, &mut model, filling, row)?;
    }
    Ok(model)
}

/// How many bytes were written the last time.
fn encoded(model: &Model, rounds: i32) -> Result<usize, EditError> {
    let mut length = 0;
    for _ in 0..rounds {
        length = model.to_bytes()?.len();
    }
    Ok(length)
}

/// How many bytes were opened each time.
fn decoded(alloc: Global, model: &Model, rounds: i32) -> Result<usize, EditError> {
    let bytes = model.to_bytes()?;
    for _ in 0..rounds {
        opened(alloc, &bytes)?;
    }
    Ok(bytes.len())
}

fn number(word: &str) -> i32 {
    word.parse::<i32>().unwrap_or(0)
}

/// What a word of the bench answers, and `no word` where it is none.
pub(crate) fn measured(alloc: Global, word: &str, given: &str) -> Result<String, EditError> {
    let Some((way, filling)) = task_named(word) else {
        return Ok(String::from_str(alloc, "no word")?);
    };
    let (count, rounds) = given.split_once(' ').unwrap_or((given, ""));
    let model = filled(alloc, filling, number(count) / 100)?;
    let length = match way {
        Way::Encode => encoded(&model, number(rounds))?,
        Way::Decode => decoded(alloc, &model, number(rounds))?,
    };
    Ok(length.to_string(alloc)?)
}
