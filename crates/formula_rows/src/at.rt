ghost use Rattle.std.specs.Prelude.{IfOk};
ghost use Rattle.base_values.specs.Places.{IsPlace};
ghost use Rattle.formula_tree.specs.Context.{context_place};

use crate::row::Row;
use crate::words::number;
use base_tables::{Language, Locale, column_to_number, get_language, get_locale};
use base_values::{EditError, Position, Text, place_of};
use formula_tree::CellReferenceRC;
use std::alloc::Global;

/// Where the texts of rows are read and printed: the cell, the signs, the words and the cell's sheet.
#[derive(Drop)]
pub(crate) struct At {
    pub(crate) place: Position,
    pub(crate) locale: Locale,
    pub(crate) language: Language,
    pub(crate) sheet: Text,
    ghost inside: { IsPlace place },
}

/// The place that letters and digits name, as `T20`.
pub(crate) fn read_place(text: &str) -> Result<Position, EditError>
    ensures { IfOk result IsPlace }
{
    let letters = text.trim_end_matches(|c: char| c.is_ascii_digit());
    let digits = text.strip_prefix(letters).unwrap_or("");
    place_of(number(digits), column_to_number(letters).unwrap_or(0))
}

/// A cell of a sheet.
pub(crate) fn cell(
    alloc: Global,
    place: Position,
    sheet: &str,
) -> Result<CellReferenceRC, EditError>
    requires { IsPlace place }
    ensures { IfOk result (λ context. IsPlace (context_place context)) }
{
    Ok(CellReferenceRC {
        sheet: Text::new(String::from_str(alloc, sheet)?),
        row: place.row,
        column: place.column,
    })
}

impl At {
    /// A1 of Sheet1, in English.
    pub(crate) fn first(alloc: Global) -> Result<At, EditError> {
        Ok(At {
            place: Position { row: 1, column: 1 },
            locale: Locale::En,
            language: Language::En,
            sheet: Text::new(String::from_str(alloc, "Sheet1")?),
        })
    }

    /// What a row `at` sets: the place, the locale, the language and the sheet.
    pub(crate) fn read(alloc: Global, row: &Row) -> Result<At, EditError> {
        let place = read_place(row.argument(0))?;
        let locale = get_locale(row.argument(1))?;
        let language = get_language(row.argument(2))?;
        let sheet = Text::new(String::from_str(alloc, row.wanted())?);
        Ok(At {
            place,
            locale,
            language,
            sheet,
        })
    }

    /// The cell.
    pub(crate) fn context(&self, alloc: Global) -> Result<CellReferenceRC, EditError>
        ensures { IfOk result (λ context. IsPlace (context_place context)) }
    {
        cell(alloc, self.place, self.sheet.as_str())
    }
}
