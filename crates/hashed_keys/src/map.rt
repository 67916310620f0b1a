//! A map in which an entry is found by its key's digest.
ghost use Rattle.std.specs.Prelude.{◌≡◌, ◌↔◌, ◌<◌, ◌≤◌, ◌+◌, [], length, slice_get, IsTrue, IfOk, IfErr, IfSome, OnOk, OnErr, map, remove, filter, is_some, slice_set, slice_index_or};
ghost use Rattle.std.specs.List.{list_any};
ghost use Rattle.std.specs.Option.{option_copied};
ghost use Rattle.std.specs.FinMap.Entries.{find, put};
ghost use Rattle.std.specs.List.Sorted.{IsStrictlySortedBy};
ghost use Rattle.sorted_keys.specs.Keys.{by_key, without_key, updated};

mod places;

use crate::hints::Hints;
use crate::map::places::{located, searched};
use digests::Digest;
use slab::Slab;
use sorted_keys::{Duplicate, EntryTest, Exact, Probe, Same, ValueChange};
use std::alloc::{AllocError, Global};
use std::marker::Model;

/// A map from keys to values. An entry stays at its place, which is found by the digest of its key; the places are kept in the order
/// of the keys beside. Where no hint leads to a key, it is searched in that order.
#[derive(Drop)]
pub struct HashedMap<K: Ord, V> {
    entries: Slab<(K, V)>,
    order: Vec<usize>,
    hints: Hints,
}

impl<K: Ord, V> Model for HashedMap<K, V> {
    ghost use Rattle.std.specs.Prelude.{◌-◌, min, vec_len, vec_capacity};
    ghost use Rattle.slab.specs.Slab.{slab_len};
    ghost use Rattle.sorted_keys.specs.Row.{Row};
    ghost use Rattle.hashed_keys.specs.Listed.{listed, IsListed};

    ghost Value = { Row (K × V) };

    ghost view = { λ m. record { content = listed m.entries m.order.items; room = min (m.entries.capacity - slab_len m.entries) (vec_capacity m.order - vec_len m.order) } };

    ghost invariant = { λ m. IsListed K.cmp m.entries m.order.items };
}

/// A change of each value, which wants no memory.
pub trait EachChange<V> {
    /// What becomes of a value.
    ghost changed: { Self → V → V };

    /// Makes the change.
    fn change(&self, value: &mut V)
        ensures { value.new ≡ changed self.now value.old };
}

impl<K: Ord + Digest + Drop, V: Drop> HashedMap<K, V> {
    /// The empty map, which takes no memory.
    pub fn new(alloc: Global) -> Self
        ensures { result.content ≡ [] }
    {
        HashedMap {
            entries: Slab::new(alloc),
            order: Vec::new(alloc),
            hints: Hints::none(alloc),
        }
    }

    /// How many entries there are.
    #[inline(always)]
    pub fn len(&self) -> usize
        ensures { result ≡ length self.now.content }
    {
        self.order.len()
    }

    /// The entry at a place in the order of the keys.
    #[inline(always)]
    pub fn at(&self, place: usize) -> Option<&(K, V)>
        ensures { option_copied result ≡ slice_get self.now.content place }
    {
        if place < self.order.len() {
            self.entries.get(self.order[place])
        } else {
            None
        }
    }

    /// The value at a key.
    #[inline(always)]
    pub fn get<P: Probe<K> + Digest>(&self, probe: &P) -> Option<&V>
        ensures { option_copied result ≡ find K.cmp (P.sought probe.now) self.now.content }
    {
        match located(&self.entries, &self.order, &self.hints, probe) {
            Ok(place) => match self.entries.get(place) {
                Some(entry) => Some(&entry.1),
                None => None,
            },
            Err(_) => None,
        }
    }

    /// The value at a key that is looked for at a place in the order of the keys, and elsewhere only where it does not stand there.
    #[inline(always)]
    pub fn get_near<P: Probe<K> + Digest>(&self, place: usize, probe: &P) -> Option<&V>
        ensures { option_copied result ≡ find K.cmp (P.sought probe.now) self.now.content }
    {
        self.invariants();
        match self.at(place) {
            Some(entry) if probe.compare(&entry.0).is_eq() => Some(&entry.1),
            _ => self.get(probe),
        }
    }

    /// Whether there is an entry at the key.
    #[inline(always)]
    pub fn contains<P: Probe<K> + Digest>(&self, probe: &P) -> bool
        ensures { result ≡ is_some (find K.cmp (P.sought probe.now) self.now.content) }
    {
        self.get(probe).is_some()
    }

    /// The keys are in order, each once.
    pub fn invariants(&self)
        ensures { IsStrictlySortedBy (by_key K.cmp) self.now.content }
    {
        let _order = &self.order;
    }

    // Makes the table of hints large enough for the entries that there is room for, but not for many times those that are there: room is
    // often made for more than come.
    fn renew_hints(&mut self) -> Result<(), AllocError>
        ensures content { self.new.content ≡ self.old.content }
        ensures room { self.new.room ≡ self.old.room }
    {
        let soon = self.order.len().saturating_mul(4).saturating_add(8);
        let keys = self.entries.capacity().min(soon);
        if self.hints.has_room_for(keys) {
            return Ok(());
        }
        let mut hints = Hints::with_room_for(*self.order.allocator(), keys)?;
        for place in &self.order {
            if let Some(entry) = self.entries.get(*place) {
                hints.note(entry.0.digest(), *place);
            }
        }
        self.hints = hints;
        Ok(())
    }

    /// Makes room for so many more entries.
    ///
    /// # Errors
    /// `AllocError` where the map has less room and gets no memory. Its entries are as before.
    pub fn reserve(&mut self, more: usize) -> Result<(), AllocError>
        ensures content { self.new.content ≡ self.old.content }
        ensures room { OnOk result (more ≤ self.new.room) }
    {
        self.entries.reserve(more)?;
        self.order.reserve(more)?;
        self.renew_hints()
    }

    /// Gives a key a value where there is room.
    #[inline(always)]
    pub fn put(&mut self, key: K, value: V)
        requires { 0 < self.old.room }
        ensures content { self.new.content ≡ put K.cmp key value self.old.content }
        ensures room { self.old.room ≤ self.new.room + 1 }
    {
        match located(&self.entries, &self.order, &self.hints, &key) {
            Ok(place) => self.entries[place].1 = value,
            Err(at) => {
                let digest = key.digest();
                let place = self.entries.insert_reserved((key, value));
                self.order.insert(at, place).unwrap();
                self.hints.note(digest, place);
            }
        }
    }

    /// Gives a key a value.
    ///
    /// # Errors
    /// `AllocError` where the key is new, the map has no room and gets no memory. Its entries are as before.
    pub fn insert(&mut self, key: K, value: V) -> Result<(), AllocError>
        ensures put { OnOk result (self.new.content ≡ put K.cmp key value self.old.content) }
        ensures unchanged { OnErr result (self.new.content ≡ self.old.content) }
    {
        self.reserve(1)?;
        self.put(key, value);
        Ok(())
    }

    /// Changes the value at a key, where there is one.
    ///
    /// # Errors
    /// What the change of the value that is found refuses with. The entries are as before.
    pub fn update<P: Probe<K> + Digest, C: ValueChange<V> + Drop>(
        &mut self,
        probe: &P,
        change: C,
    ) -> Result<(), C::Fault>
        ensures updated { OnOk result (self.new.content ≡ updated K.cmp (P.sought probe.now) (C.changed change) self.old.content) }
        ensures unchanged { OnErr result (self.new.content ≡ self.old.content) }
        ensures room { self.old.room ≤ self.new.room }
    {
        match located(&self.entries, &self.order, &self.hints, probe) {
            Ok(place) => change.change(&mut self.entries[place].1),
            Err(_) => Ok(()),
        }
    }

    // Takes out the entry at a place in the order of the keys.
    fn take_at(&mut self, at: usize)
        requires { at < length self.old.content }
        ensures content { self.new.content ≡ remove self.old.content at }
        ensures room { self.old.room ≤ self.new.room }
    {
        let place = self.order.remove(at);
        let entry = self.entries.remove(place);
        self.hints.forget(entry.0.digest(), place);
    }

    /// Takes a key out with its value.
    pub fn remove<P: Probe<K> + Digest>(&mut self, probe: &P)
        ensures content { self.new.content ≡ without_key K.cmp (P.sought probe.now) self.old.content }
        ensures room { self.old.room ≤ self.new.room }
    {
        if let Ok(at) = searched(&self.entries, &self.order, probe) {
            self.take_at(at);
        }
    }

    // The entry at a place in the order of the keys.
    #[inline(always)]
    fn entry_at(&self, at: usize) -> &(K, V)
        requires { at < length self.now.content }
        ensures { (d : K × V) → result.now ≡ slice_index_or self.now.content at d }
    {
        &self.entries[self.order[at]]
    }

    // Whether the entry at a place in the order of the keys passes a test.
    fn passes_at<T: EntryTest<K, V>>(&self, at: usize, test: &T) -> bool
        requires { at < length self.now.content }
        ensures { (d : K × V) → result ≡ T.passes test.now (slice_index_or self.now.content at d).0 (slice_index_or self.now.content at d).1 }
    {
        let entry = self.entry_at(at);
        test.test(&entry.0, &entry.1)
    }

    /// Whether some entry passes a test.
    pub fn any<T: EntryTest<K, V>>(&self, test: &T) -> bool
        ensures { result ≡ list_any (λ e. T.passes test.now e.0 e.1) self.now.content }
    {
        for at in 0..self.len() {
            if self.passes_at(at, test) {
                return true;
            }
        }
        false
    }

    // Changes the value at a place in the order of the keys.
    fn change_at<C: EachChange<V>>(&mut self, at: usize, change: &C)
        requires { at < length self.old.content }
        ensures content { (d : K × V) → self.new.content ≡ slice_set self.old.content at ((slice_index_or self.old.content at d).0, C.changed change.now (slice_index_or self.old.content at d).1) }
        ensures room { self.old.room ≤ self.new.room }
    {
        let place = self.order[at];
        change.change(&mut self.entries[place].1);
    }

    /// Changes each value in its place.
    pub fn change_each<C: EachChange<V>>(&mut self, change: &C)
        ensures content { self.new.content ≡ map (λ e. (e.0, C.changed change.now e.1)) self.old.content }
        ensures room { self.old.room ≤ self.new.room }
    {
        for at in 0..self.len() {
            self.change_at(at, change);
        }
    }

    /// Keeps the entries that pass the test.
    pub fn retain<T: EntryTest<K, V>>(&mut self, test: &T)
        ensures content { self.new.content ≡ filter (λ e. T.passes test.now e.0 e.1) self.old.content }
        ensures room { self.old.room ≤ self.new.room }
    {
        let mut at = self.len();
        while at > 0 {
            at -= 1;
            if !self.passes_at(at, test) {
                self.take_at(at);
            }
        }
    }
}

impl<K: Ord + Digest + Drop + Duplicate, V: Drop + Duplicate> HashedMap<K, V> {
    /// A map of equal entries.
    ///
    /// # Errors
    /// `AllocError` where the copy gets no memory.
    pub fn copy(&self) -> Result<Self, AllocError>
        ensures { IfOk result (λ copy. copy.content ≡ self.now.content) }
    {
        let mut copy = HashedMap::new(*self.order.allocator());
        copy.reserve(self.len())?;
        for at in 0..self.len() {
            let entry = self.entry_at(at);
            copy.insert(entry.0.duplicate()?, entry.1.duplicate()?)?;
        }
        Ok(copy)
    }

    /// The entries in the order of their keys, copied.
    ///
    /// # Errors
    /// `AllocError` where the copy gets no memory.
    pub fn entries(&self, alloc: Global) -> Result<Vec<(K, V)>, AllocError>
        ensures { IfOk result (λ entries. entries.items ≡ self.now.content) }
    {
        let mut entries = Vec::with_capacity(alloc, self.len())?;
        for at in 0..self.len() {
            entries.push(self.entry_at(at).duplicate()?)?;
        }
        Ok(entries)
    }
}

impl<K: Exact + Digest + Drop, V: Same + Drop> HashedMap<K, V> {
    /// Whether both maps have the same entries.
    pub fn same(&self, other: &Self) -> bool
        ensures { IsTrue result ↔ (self.now.content ≡ other.now.content) }
    {
        if self.len() != other.len() {
            return false;
        }
        for at in 0..self.len() {
            if !same_entry(self.entry_at(at), other.entry_at(at)) {
                return false;
            }
        }
        true
    }
}

// Whether both entries are equal.
fn same_entry<K: Exact, V: Same>(entry: &(K, V), other: &(K, V)) -> bool
    ensures { IsTrue result ↔ (entry.now ≡ other.now) }
{
    entry.0.cmp(&other.0).is_eq() && entry.1.same(&other.1)
}
