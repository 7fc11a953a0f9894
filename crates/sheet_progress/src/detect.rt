ghost use Rattle.std.specs.Prelude.{◌≡◌, ℕ, List, map, IfOk, IsOkUnless};
ghost use Rattle.std.specs.declared.option.Option.{Option};
ghost use Rattle.base_values.specs.declared.EditError.TheVariants.{NoMemory};
ghost use Rattle.sheet_progress.specs.declared.progression.Progression.{Progression as AnyProgression};
ghost use Rattle.sheet_progress.specs.declared.progression.Progression.TheVariants.{SuffixedNumber};
ghost use Rattle.sheet_progress.specs.Detectors.{TellsSameDetectors};
ghost use Rattle.sheet_progress.specs.Names.{normal_form, names, all_lists, place_among};
ghost use Rattle.sheet_progress.specs.Progressions.{numeric_steps, numeric_of, suffixed_of, named_in, first_of, named_of, progression_of};
ghost use Rattle.sheet_progress.specs.Texts.{texts, steps_in};

use crate::case::{CaseStyle, case_style};
use crate::find::{NamePlace, SuffixNumber, WholeNumber};
use crate::names::{NameList, normal_forms};
use crate::progression::{DateProgression, NumericProgression, Progression, SuffixedProgression};
use crate::reading::{FindNumber, steps_in};
use crate::steps::Steps;
use crate::suffix::split_suffix;
use base_tables::Locale;
use base_values::{EditError, Exact, Text};
use std::alloc::{AllocError, Global};

/// What finds one kind of progression in a list of texts.
pub trait SequenceDetector {
    /// The progression that texts have, if they have one of the kind.
    ghost detected: { Self → List (List ℕ) → Option AnyProgression };

    /// The progression that the texts have, or `None` where they have none of the kind. `NoMemory`
    /// is the only error.
    fn detect(&self, alloc: Global, values: &[String]) -> Result<Option<Progression>, EditError>
        ensures value { IfOk result (λ progression. progression ≡ detected self.now (texts values.now)) }
        ensures only { IsOkUnless result NoMemory };
}

/// Finds numbers with the same step.
#[derive(Clone, Copy, Debug, PartialEq, Eq)]
pub struct NumericProgressionDetector {
    pub locale: Locale,
}

impl Exact for NumericProgressionDetector {
    ghost use Rattle.std.proofs.Common.{rules};
    ghost use Rattle.sheet_progress.specs.laws.DetectorEquals.{numeric_detector_equals};

    ghost copies = { λ a b h. Prim.search rules };

    ghost equals = { numeric_detector_equals };
}

/// Finds texts that end in numbers with the same step, behind the same prefix.
#[derive(Clone, Copy, Debug, PartialEq, Eq)]
pub struct SuffixedNumberDetector {
    pub locale: Locale,
}

impl Exact for SuffixedNumberDetector {
    ghost use Rattle.std.proofs.Common.{rules};
    ghost use Rattle.sheet_progress.specs.laws.DetectorEquals.{suffixed_detector_equals};

    ghost copies = { λ a b h. Prim.search rules };

    ghost equals = { suffixed_detector_equals };
}

/// Finds names of days or months whose places in their list have the same step.
#[derive(Clone, Copy, Debug, PartialEq, Eq)]
pub struct DateProgressionDetector<'a> {
    pub locale: Locale,
    /// The text by whose case the names go on.
    pub case_seed: &'a str,
}

/// The law of equality: two detectors of names are equal where they have one locale and seeds of one
/// text.
#[tactic(auto, using(crate::specs::laws::DetectorEquals::date_detector_equals))]
pub fn detector_equality_is_of_values()
    ensures { TellsSameDetectors }
{
    // A law does no work.
}

fn numeric_steps<F: FindNumber>(
    alloc: Global,
    find: &F,
    locale: Locale,
    values: &[String],
) -> Result<Option<NumericProgression>, EditError>
    ensures value { IfOk result (λ numbers. numbers ≡ numeric_steps locale (steps_in (F.number_of find.now) (texts values.now))) }
    ensures only { IsOkUnless result NoMemory }
{
    match steps_in(alloc, find, values)? {
        Some(steps) => Ok(Some(NumericProgression { steps, locale })),
        None => Ok(None),
    }
}

impl SequenceDetector for NumericProgressionDetector {
    ghost detected = { λ detector. numeric_of detector.locale };

    #[tactic(auto, unfolding(crate::specs::Progressions::numeric_of))]
    fn detect(&self, alloc: Global, values: &[String]) -> Result<Option<Progression>, EditError> {
        let find = WholeNumber {
            locale: self.locale,
        };
        match numeric_steps(alloc, &find, self.locale, values)? {
            Some(numbers) => Ok(Some(Progression::Numeric(numbers))),
            None => Ok(None),
        }
    }
}

fn suffixed(
    alloc: Global,
    prefix: &str,
    numbers: NumericProgression,
) -> Result<Progression, AllocError>
    ensures { IfOk result (λ progression. progression ≡ SuffixedNumber (record { prefix = prefix.now; numbers = numbers })) }
{
    Ok(Progression::SuffixedNumber(SuffixedProgression {
        prefix: Text::new(String::from_str(alloc, prefix)?),
        numbers,
    }))
}

impl SequenceDetector for SuffixedNumberDetector {
    ghost detected = { λ detector. suffixed_of detector.locale };

    #[tactic(auto, unfolding(crate::specs::Progressions::suffixed_of))]
    fn detect(&self, alloc: Global, values: &[String]) -> Result<Option<Progression>, EditError> {
        let [first, ..] = values else {
            return Ok(None);
        };
        let (prefix, _) = split_suffix(first.as_str());
        let find = SuffixNumber {
            locale: self.locale,
            prefix,
        };
        match numeric_steps(alloc, &find, self.locale, values)? {
            Some(numbers) => Ok(Some(suffixed(alloc, prefix, numbers)?)),
            None => Ok(None),
        }
    }
}

fn places_in(
    alloc: Global,
    list: NameList,
    locale: Locale,
    values: &[String],
) -> Result<Option<Steps>, EditError>
    ensures value { IfOk result (λ places. places ≡ steps_in (place_among (map normal_form (names list locale))) (texts values.now)) }
    ensures only { IsOkUnless result NoMemory }
{
    let forms = normal_forms(alloc, list.names(locale))?;
    let find = NamePlace { forms: &forms };
    steps_in(alloc, &find, values)
}

#[tactic(auto, unfolding(crate::specs::Progressions::named_in))]
fn named_in(
    alloc: Global,
    locale: Locale,
    style: CaseStyle,
    values: &[String],
    list: NameList,
) -> Result<Option<Progression>, EditError>
    ensures value { IfOk result (λ progression. progression ≡ named_in locale style (texts values.now) list) }
    ensures only { IsOkUnless result NoMemory }
{
    match places_in(alloc, list, locale, values)? {
        Some(places) => Ok(Some(Progression::Date(DateProgression {
            places,
            list,
            locale,
            style,
        }))),
        None => Ok(None),
    }
}

fn first_named(
    alloc: Global,
    locale: Locale,
    style: CaseStyle,
    values: &[String],
) -> Result<Option<Progression>, EditError>
    ensures value { IfOk result (λ progression. progression ≡ first_of (named_in locale style (texts values.now)) all_lists) }
    ensures only { IsOkUnless result NoMemory }
{
    for list in NameList::ALL {
        if let Some(progression) = named_in(alloc, locale, style, values, list)? {
            return Ok(Some(progression));
        }
    }
    Ok(None)
}

impl<'a> SequenceDetector for DateProgressionDetector<'a> {
    ghost detected = { λ detector. named_of detector.locale detector.case_seed.now };

    #[tactic(auto, unfolding(crate::specs::Progressions::named_of))]
    fn detect(&self, alloc: Global, values: &[String]) -> Result<Option<Progression>, EditError> {
        let style = case_style(alloc, self.case_seed)?;
        first_named(alloc, self.locale, style, values)
    }
}

/// How texts go on: as numbers, else as texts that end in numbers, else as names, which go on in
/// the case of the seed. `None` where they don't. `NoMemory` is the only error. docs/MODEL.md has
/// the rules.
#[tactic(auto, unfolding(crate::specs::Progressions::progression_of))]
pub fn detect_progression(
    alloc: Global,
    values: &[String],
    locale: Locale,
    case_seed: &str,
) -> Result<Option<Progression>, EditError>
    ensures value { IfOk result (λ progression. progression ≡ progression_of locale case_seed.now (texts values.now)) }
    ensures only { IsOkUnless result NoMemory }
{
    let numeric = NumericProgressionDetector { locale };
    if let Some(progression) = numeric.detect(alloc, values)? {
        return Ok(Some(progression));
    }
    let suffixed = SuffixedNumberDetector { locale };
    if let Some(progression) = suffixed.detect(alloc, values)? {
        return Ok(Some(progression));
    }
    let names = DateProgressionDetector { locale, case_seed };
    names.detect(alloc, values)
}
