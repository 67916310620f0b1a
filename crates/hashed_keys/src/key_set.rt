//! A set as the list of its keys.
ghost use Rattle.std.specs.Prelude.{◌≡◌, ◌↔◌, ◌∷◌, [], IsTrue, IfOk, OnOk, OnErr, filter};
ghost use Rattle.std.specs.List.Sorted.{IsStrictlySortedBy};
ghost use Rattle.sorted_keys.specs.Keys.{has, with_key, without};
ghost use Rattle.hashed_keys.specs.Pairs.{is_filled};

use sorted_keys::{Duplicate, Exact, KeyTest, Probe, Same, SortedSet};
use std::alloc::{AllocError, Global};
use std::marker::Model;

/// A set of keys. A contract sees the list of its keys, sorted and without repeats, and not for how many more there is room.
#[derive(Drop)]
pub struct KeySet<K: Ord> {
    keys: SortedSet<K>,
}

impl<K: Ord> Model for KeySet<K> {
    ghost use Rattle.std.specs.Prelude.{List};

    ghost Value = { List K };

    ghost view = { λ set. set.keys.content };
}

impl<K: Ord + Drop> KeySet<K> {
    /// The empty set, which takes no memory.
    pub fn new(alloc: Global) -> Self
        ensures { result ≡ [] }
    {
        KeySet {
            keys: SortedSet::new(alloc),
        }
    }

    /// The keys in order.
    #[inline(always)]
    pub fn keys(&self) -> &[K]
        ensures keys { result.now ≡ self.now }
        ensures in_order { IsStrictlySortedBy K.cmp self.now }
    {
        self.keys.keys()
    }

    /// Whether there is a key.
    pub fn is_filled(&self) -> bool
        ensures { result ≡ is_filled self.now }
    {
        match self.keys.keys() {
            [] => false,
            _ => true,
        }
    }

    /// Whether the key is in the set.
    #[inline(always)]
    pub fn contains<P: Probe<K>>(&self, probe: &P) -> bool
        ensures { result ≡ has K.cmp (P.sought probe.now) self.now }
    {
        self.keys.contains(probe)
    }

    /// Adds a key. Where it is there, nothing changes.
    ///
    /// # Errors
    /// `AllocError` where there is no memory for it. Nothing has changed.
    pub fn insert(&mut self, key: K) -> Result<(), AllocError>
        ensures added { OnOk result (self.new ≡ with_key K.cmp key self.old) }
        ensures unchanged { OnErr result (self.new ≡ self.old) }
    {
        self.keys.insert(key)
    }

    /// Takes a key out. Where it is not there, nothing changes.
    pub fn remove<P: Probe<K>>(&mut self, probe: &P)
        ensures { self.new ≡ without K.cmp (P.sought probe.now) self.old }
    {
        self.keys.remove(probe);
    }

    /// Keeps the keys that pass the test.
    pub fn retain<T: KeyTest<K>>(&mut self, test: &T)
        ensures { self.new ≡ filter (T.passes test.now) self.old }
    {
        self.keys.retain(test);
    }
}

impl<K: Ord + Drop + Duplicate> KeySet<K> {
    /// The set of one key, copied.
    ///
    /// # Errors
    /// `AllocError` where there is no memory for it.
    pub fn of_one(alloc: Global, key: &K) -> Result<Self, AllocError>
        ensures { IfOk result (λ set. set ≡ key.now ∷ []) }
    {
        let mut keys = SortedSet::new(alloc);
        keys.insert_copy(key)?;
        Ok(KeySet { keys })
    }

    /// A set of these keys and one more.
    ///
    /// # Errors
    /// `AllocError` where there is no memory for it.
    pub fn copy_with(&self, key: &K) -> Result<Self, AllocError>
        ensures { IfOk result (λ copy. copy ≡ with_key K.cmp key.now self.now) }
    {
        Ok(KeySet {
            keys: self.keys.copy_with(key)?,
        })
    }
}

impl<K: Ord + Drop + Duplicate> Duplicate for KeySet<K> {
    fn duplicate(&self) -> Result<KeySet<K>, AllocError> {
        Ok(KeySet {
            keys: self.keys.copy()?,
        })
    }
}

impl<K: Exact> Same for KeySet<K> {
    fn same(&self, other: &KeySet<K>) -> bool {
        self.keys.same(&other.keys)
    }
}
