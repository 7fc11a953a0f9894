ghost use Rattle.std.specs.Prelude.{◌≡◌, ◌^◌, position, IfOk, IfSome, IsOkUnless};
ghost use Rattle.base_tables.specs.Tables.{same_text};
ghost use Rattle.base_values.specs.declared.EditError.TheVariants.{NoMemory};
ghost use Rattle.sheet_progress.specs.Names.{place_among};
ghost use Rattle.sheet_progress.specs.Numbers.{number_in};
ghost use Rattle.sheet_progress.specs.Steps.{IsWithin};
ghost use Rattle.sheet_progress.specs.Suffixes.{suffix_number};

use crate::names::normal_form;
use crate::number::number_in;
use crate::reading::FindNumber;
use crate::suffix::split_suffix;
use base_tables::Locale;
use base_values::{EditError, Text};
use std::alloc::Global;

/// A text is a number.
#[derive(Clone, Copy)]
pub struct WholeNumber {
    pub locale: Locale,
}

impl FindNumber for WholeNumber {
    ghost number_of = { λ find. number_in find.locale };

    fn number(&self, alloc: Global, text: &str) -> Result<Option<i128>, EditError> {
        number_in(alloc, text, self.locale)
    }
}

/// A text ends in a number, behind a prefix.
#[derive(Clone, Copy)]
pub struct SuffixNumber<'a> {
    pub locale: Locale,
    pub prefix: &'a str,
}

impl<'a> FindNumber for SuffixNumber<'a> {
    ghost number_of = { λ find. suffix_number find.locale find.prefix.now };

    #[tactic(auto, unfolding(crate::specs::Suffixes::suffix_number))]
    fn number(&self, alloc: Global, text: &str) -> Result<Option<i128>, EditError> {
        let (prefix, suffix) = split_suffix(text);
        if self.prefix.is_empty() || prefix != self.prefix {
            return Ok(None);
        }
        number_in(alloc, suffix, self.locale)
    }
}

/// A text is one of several names, and its number is the place of the name.
#[derive(Clone, Copy)]
pub struct NamePlace<'a> {
    /// The normal forms of the names.
    pub forms: &'a [Text],
}

impl<'a> FindNumber for NamePlace<'a> {
    ghost number_of = { λ find. place_among find.forms.now };

    fn number(&self, alloc: Global, text: &str) -> Result<Option<i128>, EditError> {
        let form = normal_form(alloc, text)?;
        match place_of(self.forms, &form) {
            Some(place) => Ok(Some(place as i128)),
            None => Ok(None),
        }
    }
}

fn place_of(forms: &[Text], wanted: &Text) -> Option<usize>
    ensures { result ≡ position (λ form. same_text form wanted.now) forms.now }
{
    forms.iter().position(|form| form == wanted)
}
