//! Which defined name a formula means.

ghost use Rattle.std.specs.Prelude.{◌≡◌};
ghost use Rattle.std.specs.List.{list_any};
ghost use Rattle.name_edits.specs.LookUp.{is_named, place_of, looked_up, is_found};

use base_tables::same_by_folding;
use book_names::SheetReach;
use defined_names::DefinedName;
use formula_names::Reach;

/// Whether a name is known in the sheet of an id, or without an id in the whole workbook, and is equal to
/// a text by simple case folding.
fn is_named(name: &DefinedName, scope: Option<u32>, text: &str) -> bool
    ensures { result ≡ is_named scope text.now name.now }
{
    scope == name.scope && same_by_folding(text, name.name.as_str())
}

/// Whether the list has a name of that scope and text.
pub(crate) fn has_name(names: &[DefinedName], scope: Option<u32>, text: &str) -> bool
    ensures { result ≡ list_any (is_named scope text.now) names.now }
{
    names.iter().any(|name| is_named(name, scope, text))
}

/// The index of the first such name.
#[tactic(auto, unfolding(crate::specs::LookUp::place_of))]
pub(crate) fn place_of(names: &[DefinedName], scope: Option<u32>, text: &str) -> Option<usize>
    ensures { result ≡ place_of scope text.now names.now }
{
    names.iter().position(|name| is_named(name, scope, text))
}

/// The place of the name that a formula of the sheet of an id means by a text: the sheet's own name comes
/// before that of the whole workbook. It takes no memory.
#[tactic(auto, unfolding(crate::specs::LookUp::looked_up))]
pub fn looked_up(names: &[DefinedName], sheet_id: u32, text: &str) -> Option<usize>
    ensures { result ≡ looked_up sheet_id text.now names.now }
{
    match place_of(names, Some(sheet_id), text) {
        Some(place) => Some(place),
        None => place_of(names, None, text),
    }
}

/// The sheets whose formulas mean the name at a place by a text.
#[derive(Drop)]
pub(crate) struct Finding<'n> {
    pub(crate) names: &'n [DefinedName],
    pub(crate) place: u64,
    pub(crate) text: &'n str,
}

impl<'n> Finding<'n> {
    fn finds(&self, sheet_id: u32) -> bool
        ensures { result ≡ is_found self.now.place self.now.text.now self.now.names.now sheet_id }
    {
        looked_up(self.names, sheet_id, self.text) == Some(self.place as usize)
    }
}

impl<'n> SheetReach for Finding<'n> {
    ghost use Rattle.name_edits.specs.LookUp.{reach_at};

    ghost reached = { λ self. reach_at self.place self.text.now self.names.now };

    fn reach_in(&self, sheet_id: u32) -> Reach {
        if self.finds(sheet_id) {
            Reach::Names
        } else {
            Reach::Nothing
        }
    }
}
