ghost use Rattle.std.specs.Prelude.{◌≡◌, ◌++◌, ◌∷◌, ◌-◌, [], length, take, nat_eq, Some, OnOk, OnErr};
ghost use Rattle.std.specs.List.{list_any};
ghost use Rattle.std.specs.Option.{option_eq};
ghost use Rattle.std.specs.BTreeMap.{get_by_text};
ghost use Rattle.base_tables.specs.Tables.{same_text};
ghost use Rattle.formula_print.specs.FirstPlaces.{NotesPlace, DropsPlace, KeepsPlaces};

use base_values::Text;
use std::alloc::{AllocError, Global};
use std::collections::BTreeMap;
use std::marker::Model;

/// The place of each name in a list, or of its first one.
type FirstPlaces = BTreeMap<String, usize>;

/// Names in the order in which they are bound, with repeats. Whether one is among them takes a
/// time that hardly grows with their number.
#[derive(Drop)]
pub(crate) struct BoundNames {
    names: Vec<Text>,
    first_places: FirstPlaces,
}

impl Model for BoundNames {
    ghost use Rattle.std.specs.Prelude.{List, ℕ};
    ghost use Rattle.formula_print.specs.FirstPlaces.{HoldsFirstPlaces};

    ghost Value = { List (List ℕ) };

    ghost view = { λ a. a.names.items };

    ghost invariant = { λ a. HoldsFirstPlaces a.first_places a.names.items };
}

/// Notes that a name stands at `at`, unless it stands before.
fn note_place(places: &mut FirstPlaces, name: &Text, at: usize) -> Result<(), AllocError>
    ensures ok { OnOk result (NotesPlace places.old places.new name.now at) }
    ensures err { OnErr result (KeepsPlaces places.old places.new) }
{
    if !places.contains_key(name.as_str()) {
        places.insert(String::from_str(name.allocator(), name.as_str())?, at)?;
    }
    Ok(())
}

fn stands_first(places: &FirstPlaces, name: &Text, at: usize) -> bool
    ensures { result ≡ option_eq nat_eq (get_by_text places.now name.now) (Some at) }
{
    match places.get(name.as_str()) {
        Some(first) => *first == at,
        None => false,
    }
}

/// Notes that a name no longer stands at `at`, after which none stands.
fn drop_place(places: &mut FirstPlaces, name: &Text, at: usize)
    ensures { DropsPlace places.old places.new name.now at }
{
    if stands_first(places, name, at) {
        places.remove(name.as_str());
    }
}

impl BoundNames {
    pub(crate) fn empty(alloc: Global) -> BoundNames
        ensures { result ≡ [] }
    {
        BoundNames {
            names: Vec::new(alloc),
            first_places: BTreeMap::new(alloc),
        }
    }

    pub(crate) fn allocator(&self) -> Global {
        *self.names.allocator()
    }

    pub(crate) fn len(&self) -> usize
        ensures { result ≡ length self.now }
    {
        self.names.len()
    }

    pub(crate) fn contains(&self, name: &Text) -> bool
        ensures { result ≡ list_any (same_text name.now) self.now }
    {
        self.first_places.contains_key(name.as_str())
    }

    /// Adds a name at the end.
    pub(crate) fn push(&mut self, name: &Text) -> Result<(), AllocError>
        ensures ok { OnOk result (self.new ≡ self.old ++ name.now ∷ []) }
        ensures err { OnErr result (self.new ≡ self.old) }
    {
        let at = self.names.len();
        self.names.push(name.clone()?)?;
        match note_place(&mut self.first_places, name, at) {
            Ok(()) => Ok(()),
            Err(error) => {
                self.names.truncate(at);
                Err(error)
            }
        }
    }

    fn pop(&mut self)
        ensures { self.new ≡ take (length self.old - 1) self.old }
    {
        if let Some(name) = self.names.pop() {
            drop_place(&mut self.first_places, &name, self.names.len());
        }
    }

    /// Keeps the first names alone.
    pub(crate) fn truncate(&mut self, len: usize)
        ensures { self.new ≡ take len self.old }
    {
        while self.names.len() > len {
            self.pop();
        }
    }
}
