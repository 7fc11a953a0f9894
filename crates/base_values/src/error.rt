ghost use Rattle.std.specs.Prelude.{◌≡◌, ◌↔◌, IsTrue};
ghost use Rattle.base_values.specs.declared.error.EditError.TheVariants.{NoMemory};
ghost use Rattle.base_values.specs.contracts.error.EditError.{the_row};

use crate::exact::Exact;
use std::alloc::{AllocError, AllocFailed};
use thiserror::Error;

/// Why an edit, or a question about a workbook, is refused. Each call says what stays after a refusal.
#[derive(Clone, Copy, Debug, Error)]
pub enum EditError {
    #[error("there is not enough memory")]
    NoMemory,
    #[error("no sheet has that index")]
    InvalidSheet,
    #[error("the row is outside the sheet")]
    InvalidRow,
    #[error("the column is outside the sheet")]
    InvalidColumn,
    #[error("the area is empty, reaches outside the sheet, or is one cell where more are needed")]
    InvalidArea,
    #[error("the count of lines is below 1")]
    BadCount,
    #[error("the last line in use and the count together exceed the last line of the sheet")]
    OverEdge,
    #[error("the lines or their target reach outside the sheet")]
    TargetOutOfBounds,
    #[error("an array would be split")]
    SplitsArray,
    #[error("a merge would be split")]
    SplitsMerge,
    #[error("a merge is partly inside")]
    PartialMerge,
    #[error("a repeated merge would be cut")]
    CutMerge,
    #[error("an array is partly inside")]
    PartialArray,
    #[error("the target is inside the source")]
    NothingToFill,
    #[error("the cell is covered by a merge")]
    CoveredCell,
    #[error("the place belongs to an entered array")]
    ArrayCell,
    #[error("the area meets a merge")]
    MergeOverlap,
    #[error("no merge is there")]
    NoMerge,
    #[error("the sheet name is not legal or is taken")]
    SheetName,
    #[error("the only sheet cannot go")]
    OnlySheet,
    #[error("no sheet id is left")]
    SheetIds,
    #[error("no defined name is equal to it in that scope")]
    UnknownName,
    #[error("a defined name of that scope is equal to it")]
    NameTaken,
    #[error("the defined name is not legal")]
    BadName,
    #[error("the formula is not legal")]
    BadFormula,
    #[error("no part of a style has that path")]
    StylePath,
    #[error("the part of the style cannot have that value")]
    StyleValue,
    #[error("the count of frozen lines is outside the sheet")]
    FrozenCount,
    #[error("the size is below 0")]
    NegativeSize,
    #[error("no locale has that name")]
    LocaleName,
    #[error("no language has that name")]
    LanguageName,
    #[error("no time zone has that name")]
    ZoneName,
    #[error("the rows of styles are empty, of several lengths, or have a font size below 1")]
    StylesShape,
    #[error("no rule has that index")]
    RuleIndex,
    #[error("no rule priority is left")]
    RuleNumbers,
    #[error("the bytes are no queue of diffs")]
    ParseDiffs,
    #[error("the bytes are no workbook")]
    ParseWorkbook,
    #[error("diff {diff} of entry {entry} does not fit the workbook")]
    DiffRefused { entry: u64, diff: u64 },
    #[error("the workbook breaks rule {rule} of well-formed workbooks")]
    IllFormed { rule: u8 },
    #[error("the order of the lines has not each of them once")]
    BadOrder,
    #[error("no snapshot stands at that position")]
    NoSnapshot,
    #[error("the log does not reach to that position")]
    OutOfLog,
    #[error("no position is left in the log")]
    LogFull,
}

impl EditError {
    ghost use Rattle.base_values.specs.ErrorNames.{name_of};

    /// The name of the variant, as answers to script lines print it.
    pub fn name(&self) -> &'static str
        ensures { result.now ≡ name_of self.now }
    {
        match self {
            EditError::NoMemory => "NoMemory",
            EditError::InvalidSheet => "InvalidSheet",
            EditError::InvalidRow => "InvalidRow",
            EditError::InvalidColumn => "InvalidColumn",
            EditError::InvalidArea => "InvalidArea",
            EditError::BadCount => "BadCount",
            EditError::OverEdge => "OverEdge",
            EditError::TargetOutOfBounds => "TargetOutOfBounds",
            EditError::SplitsArray => "SplitsArray",
            EditError::SplitsMerge => "SplitsMerge",
            EditError::PartialMerge => "PartialMerge",
            EditError::CutMerge => "CutMerge",
            EditError::PartialArray => "PartialArray",
            EditError::NothingToFill => "NothingToFill",
            EditError::CoveredCell => "CoveredCell",
            EditError::ArrayCell => "ArrayCell",
            EditError::MergeOverlap => "MergeOverlap",
            EditError::NoMerge => "NoMerge",
            EditError::SheetName => "SheetName",
            EditError::OnlySheet => "OnlySheet",
            EditError::SheetIds => "SheetIds",
            EditError::UnknownName => "UnknownName",
            EditError::NameTaken => "NameTaken",
            EditError::BadName => "BadName",
            EditError::BadFormula => "BadFormula",
            EditError::StylePath => "StylePath",
            EditError::StyleValue => "StyleValue",
            EditError::FrozenCount => "FrozenCount",
            EditError::NegativeSize => "NegativeSize",
            EditError::LocaleName => "LocaleName",
            EditError::LanguageName => "LanguageName",
            EditError::ZoneName => "ZoneName",
            EditError::StylesShape => "StylesShape",
            EditError::RuleIndex => "RuleIndex",
            EditError::RuleNumbers => "RuleNumbers",
            EditError::ParseDiffs => "ParseDiffs",
            EditError::ParseWorkbook => "ParseWorkbook",
            EditError::DiffRefused { entry: _, diff: _ } => "DiffRefused",
            EditError::IllFormed { rule: _ } => "IllFormed",
            EditError::BadOrder => "BadOrder",
            EditError::NoSnapshot => "NoSnapshot",
            EditError::OutOfLog => "OutOfLog",
            EditError::LogFull => "LogFull",
        }
    }
}

impl EditError {
    ghost use Rattle.base_values.specs.laws.ErrorEquals.{first_number, second_number};

    /// The numbers of an error, or 0 where it has none.
    fn numbers(&self) -> (u64, u64)
        ensures first { result.0 ≡ first_number self.now }
        ensures second { result.1 ≡ second_number self.now }
    {
        match self {
            EditError::DiffRefused { entry, diff } => (*entry, *diff),
            EditError::IllFormed { rule } => (u64::from(*rule), 0),
            _ => (0, 0),
        }
    }
}

fn same_name(a: &str, b: &str) -> bool
    ensures { IsTrue result ↔ (a.now ≡ b.now) }
{
    a == b
}

#[tactic(auto, using(crate::specs::laws::ErrorEquals::told_by_name))]
fn same_error(a: &EditError, b: &EditError) -> bool
    ensures { IsTrue result ↔ (a.now ≡ b.now) }
{
    let (a_first, a_second) = a.numbers();
    let (b_first, b_second) = b.numbers();
    a_first == b_first && a_second == b_second && same_name(a.name(), b.name())
}

impl PartialEq for EditError {
    ghost use Rattle.base_values.specs.CodedEq.{same_value};
    ghost use Rattle.base_values.specs.laws.CodedEq.{same_value_laws};

    ghost eq = { same_value the_row.coded };

    ghost laws = { same_value_laws the_row.coded };

    fn eq(&self, other: &EditError) -> bool {
        same_error(self, other)
    }
}

impl Eq for EditError {
    ghost use Rattle.base_values.specs.laws.CodedEq.{same_value_equiv};

    ghost laws = { same_value_equiv the_row.coded };
}

impl Exact for EditError {
    ghost use Rattle.std.proofs.Common.{rules};
    ghost use Rattle.base_values.specs.laws.CodedEq.{same_value_decides};

    ghost copies = { λ a b h. Prim.search rules };

    ghost equals = { same_value_decides the_row.coded };
}

impl From<AllocError> for EditError {
    ghost from_gives = { λ _ e. e ≡ NoMemory };

    fn from(_refused: AllocError) -> EditError {
        EditError::NoMemory
    }
}

impl<T: Drop> From<AllocFailed<T>> for EditError {
    ghost from_gives = { λ _ e. e ≡ NoMemory };

    fn from(_refused: AllocFailed<T>) -> EditError {
        EditError::NoMemory
    }
}
