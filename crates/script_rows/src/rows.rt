use crate::case::Case;
use crate::verdict::judge;
use script_lines::{RunError, Sink, Source, read_all, write_all};
use std::alloc::{AllocError, Global};

/// The case whose rows are taken, and the verdicts on those before it.
#[derive(Drop)]
struct Report<'a> {
    alloc: Global,
    open: Option<Case<'a>>,
    out: Vec<u8>,
}

/// The case of a header, and one that is misread where it is no text.
fn case_of<'a>(alloc: Global, header: &'a [u8]) -> Result<Case<'a>, AllocError> {
    match str::from_utf8(header) {
        Ok(header) => Case::begin(alloc, header),
        Err(_) => {
            let mut case = Case::new(alloc, "");
            case.is_misread = true;
            Ok(case)
        }
    }
}

impl<'a> Report<'a> {
    fn close(&mut self) -> Result<(), AllocError> {
        match self.open.take() {
            Some(case) => judge(self.alloc, &mut self.out, case),
            None => Ok(()),
        }
    }

    /// Takes a row. What stands before the first header is passed over.
    fn take(&mut self, row: &'a [u8]) -> Result<(), AllocError> {
        if let [b'=', b' ', header @ ..] = row {
            self.close()?;
            self.open = Some(case_of(self.alloc, header)?);
            return Ok(());
        }
        match &mut self.open {
            Some(case) => case.take(row),
            None => Ok(()),
        }
    }
}

/// The verdicts on the cases of these rows, a line each.
fn verdicts(alloc: Global, rows: &[u8]) -> Result<Vec<u8>, AllocError> {
    let mut report = Report {
        alloc,
        open: None,
        out: Vec::new(alloc),
    };
    for row in rows.split(|byte| *byte == b'\n') {
        report.take(row)?;
    }
    report.close()?;
    let Report {
        alloc: _,
        open: _,
        out,
    } = report;
    Ok(out)
}

/// Reads cases to the end of the source, and writes the verdicts on them.
pub(crate) fn write_verdicts<S: Source, K: Sink>(
    alloc: Global,
    input: &mut S,
    output: &mut K,
) -> Result<(), RunError> {
    let rows = read_all(alloc, input)?;
    let text = verdicts(alloc, &rows)?;
    if output.reserve(text.len()).is_err() {
        return Err(RunError::NoMemory);
    }
    write_all(output, &text)
}
