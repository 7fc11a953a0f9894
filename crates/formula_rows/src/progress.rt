use crate::at::At;
use crate::row::Row;
use crate::words::copied;
use base_values::EditError;
use sheet_progress::{
    DateProgressionDetector, NumericProgressionDetector, Progression, SequenceDetector,
    SuffixedNumberDetector, detect_progression,
};
use std::alloc::{AllocError, Global};

/// The texts that bars part.
fn texts(alloc: Global, parted: &str) -> Result<Vec<String>, AllocError> {
    let mut texts = Vec::new(alloc);
    for text in parted.split('|') {
        texts.push(String::from_str(alloc, text)?)?;
    }
    Ok(texts)
}

/// The text at an index of a progression.
fn shown(alloc: Global, found: Option<Progression>, index: &str) -> Result<String, EditError> {
    match found {
        Some(progression) => progression.next(alloc, i32::from(index.parse::<u8>().unwrap_or(0))),
        None => copied(alloc, "none"),
    }
}

/// How texts go on.
pub(crate) fn detected(alloc: Global, at: &At, row: &Row) -> Result<String, EditError> {
    let texts = texts(alloc, row.argument(2))?;
    let found = detect_progression(alloc, &texts, at.locale, row.argument(0))?;
    shown(alloc, found, row.argument(1))
}

/// How texts go on as names of days and months.
pub(crate) fn dates(alloc: Global, at: &At, row: &Row) -> Result<String, EditError> {
    let texts = texts(alloc, row.argument(2))?;
    let detector = DateProgressionDetector {
        locale: at.locale,
        case_seed: row.argument(0),
    };
    let found = detector.detect(alloc, &texts)?;
    shown(alloc, found, row.argument(1))
}

/// How texts go on as numbers.
pub(crate) fn numeric(alloc: Global, at: &At, row: &Row) -> Result<String, EditError> {
    let texts = texts(alloc, row.argument(1))?;
    let detector = NumericProgressionDetector { locale: at.locale };
    let found = detector.detect(alloc, &texts)?;
    shown(alloc, found, row.argument(0))
}

/// How texts go on that end in numbers.
pub(crate) fn suffixed(alloc: Global, at: &At, row: &Row) -> Result<String, EditError> {
    let texts = texts(alloc, row.argument(1))?;
    let detector = SuffixedNumberDetector { locale: at.locale };
    let found = detector.detect(alloc, &texts)?;
    shown(alloc, found, row.argument(0))
}
