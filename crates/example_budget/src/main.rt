//! Fills a household budget as a program fills a template: rows of names and amounts with a total, one
//! more row in the middle, that row taken back, and all of it sent to a second copy. Then it saves the
//! copy in a file and opens it again.
#![tactic(auto)]

use anyhow::Result;
use std::alloc::Global;
use std::fs;
use user_model::{ClearAll, EditError, UserModel};

type Budget = UserModel<ClearAll>;

/// What the template is filled with: a row, what stands in its first column, and what in its second.
const LINES: [(i32, &str, &str); 5] = [
    (1, "Expense", "A month"),
    (2, "Rent", "1250"),
    (3, "Food", "430.5"),
    (4, "Travel", "95"),
    (5, "Total", "=SUM(B2:B4)"),
];

/// A new workbook in English, whose formulas are kept and not computed.
fn new_budget(alloc: Global) -> Result<Budget, EditError> {
    UserModel::new_empty(alloc, "budget", "en", "UTC", "en", ClearAll)
}

fn put_line(model: &mut Budget, row: i32, name: &str, amount: &str) -> Result<(), EditError> {
    model.set_user_input(0, row, 1, name)?;
    model.set_user_input(0, row, 2, amount)
}

fn fill(model: &mut Budget) -> Result<(), EditError> {
    for (row, name, amount) in LINES {
        put_line(model, row, name, amount)?;
    }
    Ok(())
}

/// One more expense above the one in the third row. The total follows.
fn insert_power(model: &mut Budget) -> Result<(), EditError> {
    model.insert_rows(0, 3, 1)?;
    put_line(model, 3, "Power", "75")
}

/// The row and its two texts are three steps.
fn take_power_back(model: &mut Budget) -> Result<(), EditError> {
    model.undo()?;
    model.undo()?;
    model.undo()
}

/// Sends what was done to a copy.
fn send(from: &mut Budget, to: &mut Budget) -> Result<(), EditError> {
    let bytes = from.flush_send_queue()?;
    to.apply_external_diffs(&bytes)
}

/// A title, and below it the first rows of the workbook as a user would type them.
fn show(text: &mut String, title: &str, model: &Budget, rows: i32) -> Result<(), EditError> {
    text.push_str(title)?;
    for row in 1..=rows {
        text.push_str(model.get_cell_content(0, row, 1)?.as_str())?;
        text.push('\t')?;
        text.push_str(model.get_cell_content(0, row, 2)?.as_str())?;
        text.push('\n')?;
    }
    Ok(text.push('\n')?)
}

/// Fills the first copy, takes a row in and back, sends all to the second, and shows both.
fn tell(text: &mut String, first: &mut Budget, second: &mut Budget) -> Result<(), EditError> {
    fill(first)?;
    insert_power(first)?;
    show(text, "With one more row:\n", first, 6)?;
    take_power_back(first)?;
    send(first, second)?;
    show(text, "Without it:\n", first, 5)?;
    show(text, "The second copy:\n", second, 5)
}

/// The second copy, and what there is to tell of both.
fn report(alloc: Global) -> Result<(String, Budget), EditError> {
    let mut text = String::new(alloc);
    let mut first = new_budget(alloc)?;
    let mut second = new_budget(alloc)?;
    tell(&mut text, &mut first, &mut second)?;
    Ok((text, second))
}

/// Writes the workbook to a file.
fn save(rt: &HostRuntime, model: &Budget, path: &str) -> Result<()> {
    let bytes = model.to_bytes()?;
    fs::write(rt, path, bytes)?;
    Ok(())
}

/// The workbook of a file, with nothing to undo.
fn open(rt: &HostRuntime, path: &str) -> Result<Budget> {
    let bytes = fs::read(rt, path)?;
    Ok(UserModel::from_bytes(rt.alloc(), &bytes, "en", ClearAll)?)
}

/// Saves a workbook, opens it again, and shows what was opened. The file goes.
fn tell_saved(rt: &HostRuntime, text: &mut String, model: &Budget) -> Result<()> {
    save(rt, model, "budget.icw")?;
    let opened = open(rt, "budget.icw")?;
    show(text, "Saved and opened again:\n", &opened, 5)?;
    fs::remove_file(rt, "budget.icw")?;
    Ok(())
}

fn main(rt: HostRuntime) -> Result<()> {
    let (mut text, copy) = report(rt.alloc())?;
    tell_saved(&rt, &mut text, &copy)?;
    print!(rt; "{}", text.as_str())?;
    Ok(())
}
