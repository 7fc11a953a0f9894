use crate::at::At;
use crate::calls::answer;
use crate::row::Row;
use base_values::EditError;
use std::alloc::{AllocError, Global};

/// What is known of the rows so far.
#[derive(Drop)]
struct Report {
    line: usize,
    rows: usize,
    wrong: usize,
    text: String,
}

impl Report {
    fn new(alloc: Global) -> Report {
        Report {
            line: 0,
            rows: 0,
            wrong: 0,
            text: String::new(alloc),
        }
    }

    /// Adds a wrong row: what came and what was wanted.
    fn add_wrong(&mut self, found: &str, wanted: &str) -> Result<(), AllocError> {
        self.wrong = self.wrong.saturating_add(1);
        let line = self.line;
        writeln!(self.text, "line {line}: {found}, and wanted is {wanted}")
    }

    /// Adds a row that was answered.
    fn add(&mut self, found: &str, wanted: &str) -> Result<(), AllocError> {
        self.rows = self.rows.saturating_add(1);
        if found == wanted {
            return Ok(());
        }
        self.add_wrong(found, wanted)
    }
}

/// Takes a row that sets where the next ones are read.
fn set(alloc: Global, at: &mut At, row: &Row, report: &mut Report) -> Result<(), EditError> {
    match At::read(alloc, row) {
        Ok(next) => {
            *at = next;
            Ok(())
        }
        Err(error) => Ok(report.add_wrong(
            error.name(),
            "a cell, a locale, a language and a sheet",
        )?),
    }
}

/// Takes a line: nothing of an empty one and of one that begins with `#`.
fn take(alloc: Global, at: &mut At, line: &str, report: &mut Report) -> Result<(), EditError> {
    report.line = report.line.saturating_add(1);
    if line.is_empty() || line.starts_with('#') {
        return Ok(());
    }
    let row = Row::read(alloc, line)?;
    if row.call() == "at" {
        return set(alloc, at, &row, report);
    }
    let found = answer(alloc, &*at, &row)?;
    Ok(report.add(found.as_str(), row.wanted())?)
}

/// What is written of all rows.
pub(crate) fn checked(alloc: Global, rows: &str) -> Result<String, EditError> {
    let mut at = At::first(alloc)?;
    let mut report = Report::new(alloc);
    for line in rows.lines() {
        take(alloc, &mut at, line, &mut report)?;
    }
    let Report {
        line: _,
        rows,
        wrong,
        mut text,
    } = report;
    write!(text, "{rows} rows, {wrong} wrong")?;
    Ok(text)
}
