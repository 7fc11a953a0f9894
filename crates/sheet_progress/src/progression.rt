ghost use Rattle.std.specs.Prelude.{◌≡◌, ℕ, pos, ◌<◌, ◌++◌, ◌≤ℤ◌, length, map, IfOk, OnOk, IsOkUnless, string_bytes};
ghost use Rattle.base_values.specs.declared.EditError.TheVariants.{NoMemory};
ghost use Rattle.sheet_progress.specs.Names.{names, name_at, cased};
ghost use Rattle.sheet_progress.specs.Steps.{number_at};
ghost use Rattle.sheet_progress.specs.Progressions.{numeric_text, next_text};

use crate::case::{CaseStyle, cased};
use crate::names::NameList;
use crate::number::number_text;
use crate::steps::Steps;
use base_tables::Locale;
use base_values::{EditError, Exact, Text};
use std::alloc::{AllocError, Global};

/// Numbers that go on by the same step. They are counted in units of the fifteenth place.
#[derive(Clone, Copy, PartialEq, Eq)]
pub struct NumericProgression {
    pub(crate) steps: Steps,
    pub(crate) locale: Locale,
}

impl Exact for NumericProgression {
    ghost use Rattle.std.proofs.Common.{rules};
    ghost use Rattle.sheet_progress.specs.laws.ProgressionEquals.{numeric_equals};

    ghost copies = { λ a b h. Prim.search rules };

    ghost equals = { numeric_equals };
}

/// Texts that are a prefix and numbers that go on by the same step.
#[derive(Clone, PartialEq, Eq, Drop)]
pub struct SuffixedProgression {
    pub(crate) prefix: Text,
    pub(crate) numbers: NumericProgression,
}

impl Exact for SuffixedProgression {
    ghost use Rattle.std.proofs.Common.{rules};
    ghost use Rattle.sheet_progress.specs.laws.ProgressionEquals.{suffixed_equals};

    ghost copies = { λ a b h. Prim.search rules };

    ghost equals = { suffixed_equals };
}

/// Names of a list, whose places go on by the same step.
#[derive(Clone, Copy, PartialEq, Eq)]
pub struct DateProgression {
    pub(crate) places: Steps,
    pub(crate) list: NameList,
    pub(crate) locale: Locale,
    pub(crate) style: CaseStyle,
}

impl Exact for DateProgression {
    ghost use Rattle.std.proofs.Common.{rules};
    ghost use Rattle.sheet_progress.specs.laws.ProgressionEquals.{date_equals};

    ghost copies = { λ a b h. Prim.search rules };

    ghost equals = { date_equals };
}

/// How a list of texts goes on.
#[derive(Clone, PartialEq, Eq, Drop)]
pub enum Progression {
    /// As numbers.
    Numeric(NumericProgression),
    /// As texts that end in numbers.
    SuffixedNumber(SuffixedProgression),
    /// As names of days or months.
    Date(DateProgression),
}

impl Exact for Progression {
    ghost use Rattle.std.proofs.Common.{rules};
    ghost use Rattle.sheet_progress.specs.laws.ProgressionEquals.{progression_equals};

    ghost copies = { λ a b h. Prim.search rules };

    ghost equals = { progression_equals };
}

impl NumericProgression {
    fn next(&self, alloc: Global, i: i32) -> Result<String, EditError>
        requires from { pos 0 ≤ℤ i }
        requires to { i ≤ℤ pos 1048575 }
        ensures text { IfOk result (λ text. string_bytes text ≡ numeric_text self.now i) }
        ensures only { IsOkUnless result NoMemory }
    {
        number_text(alloc, self.steps.at(i), self.locale)
    }
}

fn both(alloc: Global, prefix: &str, suffix: &str) -> Result<String, AllocError>
    ensures { IfOk result (λ text. string_bytes text ≡ prefix.now ++ suffix.now) }
{
    let mut text = String::from_str(alloc, prefix)?;
    text.push_str(suffix)?;
    Ok(text)
}

impl SuffixedProgression {
    fn next(&self, alloc: Global, i: i32) -> Result<String, EditError>
        requires from { pos 0 ≤ℤ i }
        requires to { i ≤ℤ pos 1048575 }
        ensures text { IfOk result (λ text. string_bytes text ≡ self.now.prefix ++ numeric_text self.now.numbers i) }
        ensures only { IsOkUnless result NoMemory }
    {
        let number = self.numbers.next(alloc, i)?;
        Ok(both(alloc, self.prefix.as_str(), number.as_str())?)
    }
}

fn name_at(names: &'static [&'static str], index: i128) -> &'static str
    requires some { 0 < length names.now }
    ensures { result.now ≡ name_at (map (λ name. name.now) names.now) index }
{
    names[index.rem_euclid(names.len() as i128) as usize]
}

impl DateProgression {
    fn next(&self, alloc: Global, i: i32) -> Result<String, EditError>
        requires from { pos 0 ≤ℤ i }
        requires to { i ≤ℤ pos 1048575 }
        ensures text { IfOk result (λ text. string_bytes text ≡ cased self.now.style (name_at (names self.now.list self.now.locale) (number_at self.now.places i))) }
        ensures only { IsOkUnless result NoMemory }
    {
        let name = name_at(self.list.names(self.locale), self.places.at(i));
        Ok(cased(alloc, name, self.style)?)
    }
}

impl Progression {
    /// The text at an index from 0, which is the one after the last, to 1048575: a number rounded
    /// to 15 digits, in plain digits with the locale's decimal sign; the prefix and such a number;
    /// or the name at the place that is counted on, where the list begins again behind its end.
    /// `NoMemory` is the only error. docs/MODEL.md has the rules.
    pub fn next(&self, alloc: Global, i: i32) -> Result<String, EditError>
        requires from { pos 0 ≤ℤ i }
        requires to { i ≤ℤ pos 1048575 }
        ensures text { IfOk result (λ text. string_bytes text ≡ next_text self.now i) }
        ensures only { IsOkUnless result NoMemory }
    {
        match self {
            Progression::Numeric(numeric) => numeric.next(alloc, i),
            Progression::SuffixedNumber(suffixed) => suffixed.next(alloc, i),
            Progression::Date(date) => date.next(alloc, i),
        }
    }
}
