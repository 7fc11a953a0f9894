ghost use Rattle.std.specs.Prelude.{◌≡◌, ◌<◌, map, length, position, pos, IfOk, IfSome, string_bytes};
ghost use Rattle.sheet_progress.specs.Names.{names, all_lists, normal_form, name_at};

use crate::characters::characters;
use crate::letters::{Letters, push_letters};
use crate::trim::trimmed;
use base_tables::Locale;
use base_values::{Exact, Text};
use std::alloc::{AllocError, Global};

/// A list of names that a locale has.
#[derive(Clone, Copy, Debug, PartialEq, Eq)]
pub enum NameList {
    /// The days of the week, from Sunday.
    Days,
    /// The short names of the days of the week, from Sunday.
    ShortDays,
    /// The months, from January.
    Months,
    /// The short names of the months.
    ShortMonths,
}

impl Exact for NameList {
    ghost use Rattle.std.proofs.Common.{rules};
    ghost use Rattle.sheet_progress.specs.laws.ProgressionEquals.{name_list_equals};

    ghost copies = { λ a b h. Prim.search rules };

    ghost equals = { name_list_equals };
}

impl NameList {
    /// All lists, in the order in which they are tried.
    pub const ALL: [NameList; 4] = [
        NameList::Days,
        NameList::ShortDays,
        NameList::Months,
        NameList::ShortMonths,
    ];

    /// The names of the list.
    pub fn names(self, locale: Locale) -> &'static [&'static str]
        ensures names { map (λ name. name.now) result.now ≡ names self locale }
        ensures some { 0 < length result.now }
    {
        match self {
            NameList::Days => locale.days(),
            NameList::ShortDays => locale.short_days(),
            NameList::Months => locale.months(),
            NameList::ShortMonths => locale.short_months(),
        }
    }
}

/// The normal form of a text, by which names are compared: without dots and spaces at its ends,
/// in small letters, without accents.
#[tactic(auto, unfolding(crate::specs::Names::normal_form))]
pub fn normal_form(alloc: Global, text: &str) -> Result<Text, AllocError>
    ensures { IfOk result (λ form. form ≡ normal_form text.now) }
{
    let characters = characters(alloc, text)?;
    let mut form = String::new(alloc);
    push_letters(trimmed(&characters), Letters::Plain, &mut form)?;
    Ok(Text::new(form))
}

/// The normal forms of names.
pub fn normal_forms(alloc: Global, names: &[&str]) -> Result<Vec<Text>, AllocError>
    ensures { IfOk result (λ forms. forms.items ≡ map normal_form (map (λ name. name.now) names.now)) }
{
    let mut forms = Vec::new(alloc);
    for name in names {
        forms.push(normal_form(alloc, name)?)?;
    }
    Ok(forms)
}
