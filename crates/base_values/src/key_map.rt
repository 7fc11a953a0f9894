ghost use Rattle.std.specs.Prelude.{◌≡◌, ◌≢◌, ◌<◌, ◌^◌, ◌↔◌, ℕ, IsTrue, OnOk, OnErr, IfOk, IsOk, IsOkUnless, All};
ghost use Rattle.std.specs.Option.{option_copied, option_map};
ghost use Rattle.std.specs.FinMap as fin;
ghost use Rattle.std.specs.Cmp.{on_per, on_equiv};
ghost use Rattle.std.specs.declared.cmp.Ordering.{Ordering};
ghost use Rattle.base_values.specs.KeyMap.{with_entry, with_entries, put_under, same_entries, from_key, IsFirstFrom, IsLastUpTo};
ghost use Rattle.base_values.specs.laws.KeyMap.{same_entries_laws, same_entries_equiv};
ghost use Rattle.base_values.specs.declared.error.EditError.TheVariants.{NoMemory};

use crate::error::EditError;
use crate::exact::{Exact, copy_of};
use crate::items::Items;
use std::alloc::{AllocError, Global};
use std::collections::BTreeMap;
use std::collections::btree_map::{Iter, Range};
use std::marker::{Model, PhantomData};

/// What the keys of a map are, and what each of them fulfils.
///
/// A type with this trait stands for the finite map that contracts see. No program makes a value of
/// it: it is a type of its own because the value that contracts see of a generic map can name a type,
/// and no order of keys.
pub trait MapKey<V> {
    /// The type of the keys.
    type Key: Exact + Ord + Copy;

    /// The order of the keys.
    ghost order: { Self.Key → Self.Key → Ordering };

    /// What each key of a map fulfils.
    ghost fits: { Self.Key → Type 0 };

    /// What stands for a finite map.
    ghost model: { fin.FinMap order V → Self };

    /// And back.
    ghost seen: { Self → fin.FinMap order V };

    ghost seen_model: { (m : fin.FinMap order V) → seen (model m) ≡ m };

    ghost model_seen: { (map : Self) → model (seen map) ≡ map };

    ghost ordered: { Self.Key.cmp ≡ order };
}

/// Keys that hold the id of a sheet, and beside it a key of a map that each sheet has.
pub trait SheetKey<V>: MapKey<V> {
    /// The keys of the map of one sheet.
    type Own: MapKey<V>;

    ghost under: { ℕ → Self.Own.Key → Self.Key };

    /// The key of a sheet's map under the id of that sheet.
    fn under(sheet: u32, key: <Self::Own as MapKey<V>>::Key) -> Self::Key
        ensures { result ≡ under sheet key };

    ghost under_fits: { (sheet : ℕ) (key : Self.Own.Key) → Self.fits (under sheet key) };
}

/// A map in the order of its keys. Contracts see it as the finite map of its entries.
#[derive(Drop)]
pub struct KeyMap<K: MapKey<V>, V> {
    map: BTreeMap<K::Key, V>,
    keys: PhantomData<K>,
}

impl<K: MapKey<V>, V> Model for KeyMap<K, V> {
    ghost use Rattle.std.specs.FinMap as fin;
    ghost use Rattle.base_values.specs.KeyMap.{IsInside};

    ghost Value = { K };

    ghost coded = { K.code };

    ghost view = { λ a. K.model (fin.from_entries a.map.entries) };

    ghost invariant = { λ a. IsInside K.order K.fits a.map };
}

impl<K: MapKey<V>, V> KeyMap<K, V> {
    /// A map without an entry. It takes no memory.
    pub fn new(alloc: Global) -> KeyMap<K, V>
        ensures { K.seen result ≡ fin.empty }
    {
        KeyMap {
            map: BTreeMap::new(alloc),
            keys: PhantomData,
        }
    }

    /// How many entries there are.
    pub fn len(&self) -> usize
        ensures count { result ≡ fin.len (K.seen self.now) }
        ensures small { result < 2 ^ 63 }
    {
        self.map.len()
    }

    /// Whether there is no entry.
    pub fn is_empty(&self) -> bool
        ensures { IsTrue result ↔ (K.seen self.now ≡ fin.empty) }
    {
        self.len() == 0
    }

    /// Lends the entry of a key, if it has one.
    pub fn get(&self, key: K::Key) -> Option<&V>
        ensures { option_copied result ≡ fin.get (K.seen self.now) key }
    {
        self.map.get(&key)
    }

    /// The first entry from a key on. It takes no memory.
    pub fn first_from(&self, key: K::Key) -> Option<(K::Key, &V)>
        ensures { IsFirstFrom (K.seen self.now) key (option_map (λ e. (e.0, e.1.now)) result) }
    {
        match self.map.range(key..).next() {
            Some((first, value)) => Some((*first, value)),
            None => None,
        }
    }

    /// The last entry up to a key. It takes no memory.
    pub fn last_up_to(&self, key: K::Key) -> Option<(K::Key, &V)>
        ensures { IsLastUpTo (K.seen self.now) key (option_map (λ e. (e.0, e.1.now)) result) }
    {
        match self.map.range(..=key).next_back() {
            Some((last, value)) => Some((*last, value)),
            None => None,
        }
    }

    /// The entries from a key on, in ascending order.
    pub fn entries_from(&self, key: K::Key) -> Range<'_, K::Key, V>
        ensures entries { result ≡ from_key K.order key (fin.entries (K.seen self.now)) }
        ensures inside { All (λ entry. K.fits entry.0) result }
    {
        self.map.range(key..)
    }

    /// The entries in ascending order.
    pub fn iter(&self) -> Iter<'_, K::Key, V>
        ensures entries { result ≡ fin.entries (K.seen self.now) }
        ensures inside { All (λ entry. K.fits entry.0) result }
    {
        self.map.iter()
    }

    /// The keys that have an entry, in ascending order. Returns `NoMemory` where there is no
    /// room for the list.
    pub fn keys(&self, alloc: Global) -> Result<Items<K::Key>, EditError>
        ensures keys { IfOk result (λ keys. keys ≡ fin.keys (K.seen self.now)) }
        ensures inside { IfOk result (All K.fits) }
        ensures only { IsOkUnless result NoMemory }
    {
        let keys: Vec<K::Key> = self.map.keys().copied().collect(alloc)?;
        Ok(Items::new(keys))
    }
}

impl<K: MapKey<V>, V: Drop> KeyMap<K, V> {
    /// The map of these entries. Of several entries of a key the last one stands. It is made at
    /// once, without a search where the keys ascend.
    pub fn of_entries(alloc: Global, entries: Items<(K::Key, V)>) -> Result<KeyMap<K, V>, EditError>
        requires inside { All (λ entry. K.fits entry.0) entries }
        ensures map { IfOk result (λ map. K.seen map ≡ with_entries fin.empty entries) }
        ensures only { IsOkUnless result NoMemory }
    {
        let map: BTreeMap<K::Key, V> = entries.into_vec().into_iter().collect(alloc)?;
        Ok(KeyMap {
            map,
            keys: PhantomData,
        })
    }

    /// Sets the entry of a key, and returns the one before. `NoMemory` leaves the map as it was;
    /// it comes only at a key that has no entry.
    pub fn insert(&mut self, key: K::Key, value: V) -> Result<Option<V>, EditError>
        requires { K.fits key }
        ensures before { IfOk result (λ before. before ≡ fin.get (K.seen self.old) key) }
        ensures ok { OnOk result (K.seen self.new ≡ fin.insert (K.seen self.old) key value) }
        ensures there { fin.get (K.seen self.old) key ≢ None → IsOk result }
        ensures err { OnErr result (self.new ≡ self.old) }
        ensures only { IsOkUnless result NoMemory }
    {
        Ok(self.map.insert(key, value)?)
    }

    /// Takes the entry of a key away, and returns it. It takes no memory.
    pub fn remove(&mut self, key: K::Key) -> Option<V>
        ensures before { result ≡ fin.get (K.seen self.old) key }
        ensures removed { K.seen self.new ≡ fin.remove (K.seen self.old) key }
    {
        self.map.remove(&key)
    }

    /// Sets the entry of a key, or takes it away, which takes no memory. `NoMemory` leaves the map
    /// as it was.
    pub fn put(&mut self, key: K::Key, entry: Option<V>) -> Result<(), EditError>
        requires { K.fits key }
        ensures ok { OnOk result (K.seen self.new ≡ with_entry (K.seen self.old) key entry) }
        ensures away { entry ≡ None → result ≡ Ok tt }
        ensures err { OnErr result (self.new ≡ self.old) }
        ensures only { IsOkUnless result NoMemory }
    {
        match entry {
            Some(value) => {
                let _before = self.insert(key, value)?;
            }
            None => {
                let _before = self.remove(key);
            }
        }
        Ok(())
    }
}

impl<K: SheetKey<V>, V: Exact + Drop> KeyMap<K, V> {
    /// Puts copies of the entries of a map under the id of a sheet. After `NoMemory` some of them
    /// may stand.
    pub fn put_under(&mut self, sheet: u32, map: &KeyMap<K::Own, V>) -> Result<(), EditError>
        ensures ok { OnOk result (K.seen self.new ≡ put_under K.under sheet (K.Own.seen map.now) (K.seen self.old)) }
        ensures only { IsOkUnless result NoMemory }
    {
        for (key, value) in map.iter() {
            let _before = self.insert(K::under(sheet, *key), copy_of(value)?)?;
        }
        Ok(())
    }
}

impl<K: MapKey<V>, V: Exact> Clone for KeyMap<K, V> {
    ghost is_clone = { λ s r. r ≡ s };

    fn clone(&self) -> Result<KeyMap<K, V>, AllocError> {
        Ok(KeyMap {
            map: self.map.clone()?,
            keys: PhantomData,
        })
    }
}

impl<K: MapKey<V>, V: PartialEq> PartialEq for KeyMap<K, V> {
    ghost eq = { λ a b. same_entries K.Key.eq V.eq (K.seen a) (K.seen b) };

    ghost laws = { on_per K.seen (same_entries_laws K.Key.PartialEq.laws V.laws) };

    fn eq(&self, other: &KeyMap<K, V>) -> bool {
        self.map == other.map
    }
}

impl<K: MapKey<V>, V: Eq> Eq for KeyMap<K, V> {
    ghost laws = { on_equiv K.seen (same_entries_equiv K.Key.Eq.laws V.Eq.laws) };
}

impl<K: MapKey<V>, V: Exact> Exact for KeyMap<K, V> {
    ghost use Rattle.base_values.specs.laws.KeyMap.{same_seen_decides};

    ghost copies = { λ a b h. h };

    ghost equals = { same_seen_decides K.model K.seen K.model_seen K.Key.equals V.equals };
}
