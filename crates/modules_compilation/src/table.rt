//! Tables by key.
ghost use Rattle.std.specs.Prelude.{◌≡◌, ◌+◌, ◌≤◌, ◌∷◌, ◌↔◌, [], length, IsTrue, IsSome, IfErr, IfNone, IfOk, IfSome, OnErr, OnOk, Some, is_some};
ghost use Rattle.std.specs.Iterator.Adapters.{zip_first, zip_second};
ghost use Rattle.std.specs.List.{insert, zip};
ghost use Rattle.std.specs.Map.{keys_of, values_of};
ghost use Rattle.std.specs.Option.{option_copied, option_copied_mut};
ghost use Rattle.std.specs.Slice.Iter.{iter_rest};
ghost use Rattle.std.specs.Vec.Iter.{into_iter_items};
ghost use Rattle.modules_compilation.specs.Tables.{IsAscending, at, by_text, of_entries, text_cmp, texts, with_entry};
ghost use Rattle.just_value.specs.Searches.{IsPlace, digits};

use just_value::Steps;
use std::alloc::{AllocError, AllocFailed, Global};
use std::cmp::Ordering;
use std::iter::Zip;
use std::marker::Model;
use std::ops::Index;
use std::{mem, slice, vec};

/// Values by key, in byte order of keys. The value of a key stands at the key's place.
#[derive(Drop)]
pub struct Table<'key, V> {
    keys: Vec<&'key str>,
    values: Vec<V>,
}

impl<'key, V> Model for Table<'key, V> {
    ghost use Rattle.std.specs.Prelude.{◌≡◌, List, ℕ, length};
    ghost use Rattle.std.specs.List.{zip};
    ghost use Rattle.std.specs.List.Sorted.{IsStrictlySortedBy};
    ghost use Rattle.modules_compilation.specs.Tables.{text_cmp, texts};

    ghost Value = { List (List ℕ × V) };

    ghost view = { λ t. zip (texts t.keys.items) t.values.items };

    ghost invariant = { λ t. (length t.values.items ≡ length t.keys.items) × IsStrictlySortedBy text_cmp (texts t.keys.items) };
}

impl<'key, V: Drop> Table<'key, V> {
    /// No entry. Takes no memory.
    pub fn new(alloc: Global) -> Table<'key, V>
        ensures { result ≡ [] }
    {
        Table {
            keys: Vec::new(alloc),
            values: Vec::new(alloc),
        }
    }

    /// A table of these pairs; of equal keys the last wins.
    pub fn from_iter(
        alloc: Global,
        pairs: Vec<(&'key str, V)>,
    ) -> Result<Table<'key, V>, AllocError>
        ensures { IfOk result (λ table. table ≡ of_entries (by_text pairs.entry.items)) }
    {
        let mut table = Table::new(alloc);
        for (key, value) in pairs {
            table.insert(key, value)?;
        }
        Ok(table)
    }

    /// Puts the value at the key, and answers the one that stood there. A refused growth changes
    /// nothing and gives both back.
    pub fn insert(
        &mut self,
        key: &'key str,
        value: V,
    ) -> Result<Option<V>, AllocFailed<(&'key str, V)>>
        ensures earlier { IfOk result (λ earlier. earlier ≡ at self.old key.now) }
        ensures put { OnOk result (self.new ≡ with_entry self.old key.now value) }
        ensures refused { OnErr result (self.new ≡ self.old) }
        ensures returned { IfErr result (λ e. e.value ≡ (key.entry, value)) }
        ensures ascending { IsAscending self.new }
    {
        let mut steps = Steps { taken: 0 };
        match self.position(key, &mut steps) {
            Ok(place) => Ok(Some(mem::replace(&mut self.values[place], value))),
            Err(place) => {
                insert_both(&mut self.keys, &mut self.values, place, key, value)?;
                Ok(None)
            }
        }
    }
}

impl<'key, V> Table<'key, V> {
    /// The value at the key, if there is one.
    pub fn get(&self, key: &str) -> Option<&V>
        ensures { option_copied result ≡ at self.now key.now }
    {
        let mut steps = Steps { taken: 0 };
        match self.position(key, &mut steps) {
            Ok(place) => Some(&self.values[place]),
            Err(_) => None,
        }
    }

    /// The value at the key, if there is one, to be changed.
    pub fn get_mut(&mut self, key: &str) -> Option<&mut V>
        ensures value { option_copied_mut result ≡ at self.old key.now }
    {
        let mut steps = Steps { taken: 0 };
        match self.position(key, &mut steps) {
            Ok(place) => Some(&mut self.values[place]),
            Err(_) => None,
        }
    }

    /// Whether a value stands at the key.
    pub fn contains_key(&self, key: &str) -> bool
        ensures { result ≡ is_some (at self.now key.now) }
    {
        self.get(key).is_some()
    }

    /// The place of the key among all in byte order, or else the place where it would go. Takes no
    /// memory, and at most as many comparisons as the count of entries has binary digits.
    pub fn position(&self, key: &str, steps: &mut Steps) -> Result<usize, usize>
        ensures place { IsPlace text_cmp (keys_of self.now) key.now result }
        ensures counted { steps.new.taken ≤ steps.old.taken + digits (length self.now) }
    {
        let mut low = 0;
        let mut high = self.keys.len();
        while low < high {
            let middle = low + (high - low) / 2;
            match steps.compare(&key, &self.keys[middle]) {
                Ordering::Less => high = middle,
                Ordering::Equal => return Ok(middle),
                Ordering::Greater => low = middle + 1,
            }
        }
        Err(low)
    }

    /// Takes out the entry of the least key, if there is one.
    pub fn pop(&mut self) -> Option<(&'key str, V)>
        ensures first { IfSome result (λ entry. self.old ≡ (entry.0.now, entry.1) ∷ self.new) }
        ensures empty { IfNone result (self.old ≡ []) }
        ensures unchanged { IfNone result (self.new ≡ self.old) }
        ensures ascending { IsAscending self.new }
    {
        if self.keys.is_empty() {
            return None;
        }
        Some((self.keys.remove(0), self.values.remove(0)))
    }

    /// How many entries there are.
    pub fn len(&self) -> usize
        ensures { result ≡ length self.now }
    {
        self.keys.len()
    }

    /// Whether there is no entry.
    pub fn is_empty(&self) -> bool
        ensures { IsTrue result ↔ (self.now ≡ []) }
    {
        self.len() == 0
    }

    /// The keys in byte order.
    pub fn keys(&self) -> slice::Iter<'_, &'key str>
        ensures all { texts (iter_rest result) ≡ keys_of self.now }
        ensures ascending { IsAscending self.now }
    {
        self.keys.iter()
    }

    /// The values in byte order of their keys.
    pub fn values(&self) -> slice::Iter<'_, V>
        ensures all { iter_rest result ≡ values_of self.now }
        ensures ascending { IsAscending self.now }
    {
        self.values.iter()
    }

    /// The values in byte order of their keys, to be changed.
    pub fn values_mut(&mut self) -> slice::IterMut<'_, V> {
        self.values.iter_mut()
    }

    /// The entries in byte order of keys.
    pub fn iter(&self) -> Zip<slice::Iter<'_, &'key str>, slice::Iter<'_, V>>
        ensures all { zip (texts (iter_rest (zip_first result))) (iter_rest (zip_second result)) ≡ self.now }
        ensures ascending { IsAscending self.now }
    {
        self.keys.iter().zip(self.values.iter())
    }
}

/// Puts the key and the value in at the place. A refused growth changes nothing and gives both back.
fn insert_both<'key, V>(
    keys: &mut Vec<&'key str>,
    values: &mut Vec<V>,
    place: usize,
    key: &'key str,
    value: V,
) -> Result<(), AllocFailed<(&'key str, V)>>
    requires keys_inside { place ≤ length keys.old.items }
    requires values_inside { place ≤ length values.old.items }
    ensures put { OnOk result ((keys.new.items ≡ insert keys.old.items place key.entry) × (values.new.items ≡ insert values.old.items place value)) }
    ensures refused { OnErr result ((keys.new.items ≡ keys.old.items) × (values.new.items ≡ values.old.items)) }
    ensures returned { IfErr result (λ e. e.value ≡ (key.entry, value)) }
{
    if keys.try_reserve(1).is_err() {
        return Err(AllocFailed {
            value: (key, value),
        });
    }
    match values.insert(place, value) {
        Ok(()) => {
            let _fits = keys.insert(place, key);
            Ok(())
        }
        Err(refused) => Err(AllocFailed {
            value: (key, refused.value),
        }),
    }
}

/// The value at a key that is there.
impl<'key, 'query, V> Index<&'query str> for Table<'key, V> {
    type Output = V;

    ghost can_index = { λ table key. IsSome (at table key.now) };

    ghost index_gives = { λ table key value. at table key.now ≡ Some value };

    fn index(&self, key: &'query str) -> &V {
        self.get(key).unwrap()
    }
}

/// The entries in byte order of keys.
impl<'key, V: Drop> IntoIterator for Table<'key, V> {
    type Item = (&'key str, V);

    type IntoIter = Zip<vec::IntoIter<&'key str>, vec::IntoIter<V>>;

    ghost into_iter_gives = { λ table left. (zip (texts (into_iter_items (zip_first left))) (into_iter_items (zip_second left)) ≡ table) × IsAscending table };

    fn into_iter(self) -> Zip<vec::IntoIter<&'key str>, vec::IntoIter<V>> {
        self.keys.into_iter().zip(self.values)
    }
}

/// The entries in byte order of keys.
impl<'a, 'key, V> IntoIterator for &'a Table<'key, V> {
    type Item = (&'a &'key str, &'a V);

    type IntoIter = Zip<slice::Iter<'a, &'key str>, slice::Iter<'a, V>>;

    ghost into_iter_gives = { λ table left. (zip (texts (iter_rest (zip_first left))) (iter_rest (zip_second left)) ≡ table.now) × IsAscending table.now };

    fn into_iter(self) -> Zip<slice::Iter<'a, &'key str>, slice::Iter<'a, V>> {
        self.iter()
    }
}
