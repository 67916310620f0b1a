//! Pairs of which those that begin alike are found by the digest of their first half.
ghost use Rattle.std.specs.Prelude.{◌≡◌, ◌↔◌, ◌<◌, ◌≤◌, ◌+◌, [], IsTrue, IfOk, OnOk, OnErr, filter, map, not, false, ◌++◌};
ghost use Rattle.std.specs.Option.{option_copied, option_map_or};
ghost use Rattle.std.specs.FinMap.Entries.{find};
ghost use Rattle.std.specs.List.Sorted.{IsStrictlySortedBy};
ghost use Rattle.sorted_keys.specs.Keys.{has, with_key, without};
ghost use Rattle.hashed_keys.specs.Pairs.{pairs_of, by_pair, found, seconds, replaced, is_filled};

use crate::key_set::KeySet;
use crate::map::{EachChange, HashedMap};
use digests::Digest;
use sorted_keys::{Duplicate, EntryTest, Exact, KeyTest, Probe, Same, ValueChange};
use std::alloc::{AllocError, Global};
use std::convert::Infallible;
use std::marker::Model;

/// A set of pairs. Those with one first half are kept as the set of their second ones.
#[derive(Drop)]
pub struct HashedPairs<A: Ord, B: Ord> {
    sets: HashedMap<A, KeySet<B>>,
}

impl<A: Ord, B: Ord> Model for HashedPairs<A, B> {
    ghost use Rattle.sorted_keys.specs.Row.{Row};
    ghost use Rattle.hashed_keys.specs.Pairs.{pairs_of, IsPaired};

    ghost Value = { Row (A × B) };

    ghost view = { λ p. record { content = pairs_of p.sets.content; room = p.sets.room } };

    ghost invariant = { λ p. IsPaired A.cmp B.cmp p.sets.content };
}

// A set with one key more.
#[derive(Drop)]
struct WithOne<B> {
    key: B,
}

impl<B: Ord + Drop> ValueChange<KeySet<B>> for WithOne<B> {
    type Fault = AllocError;

    ghost changed = { λ more set. with_key B.cmp more.key set };

    fn change(self, set: &mut KeySet<B>) -> Result<(), AllocError> {
        set.insert(self.key)
    }
}

// A set with one key less.
#[derive(Drop)]
struct WithoutOne<'a, Q> {
    probe: &'a Q,
}

impl<B: Ord + Drop, Q: Probe<B>> ValueChange<KeySet<B>> for WithoutOne<'_, Q> {
    type Fault = Infallible;

    ghost changed = { λ less set. without B.cmp (Q.sought less.probe.now) set };

    fn change(self, set: &mut KeySet<B>) -> Result<(), Infallible> {
        set.remove(self.probe);
        Ok(())
    }
}

// A set with the keys that pass a test.
#[derive(Drop)]
struct Kept<'a, T> {
    test: &'a T,
}

impl<B: Ord + Drop, T: KeyTest<B>> EachChange<KeySet<B>> for Kept<'_, T> {
    ghost changed = { λ kept set. filter (T.passes kept.test.now) set };

    fn change(&self, set: &mut KeySet<B>) {
        set.retain(self.test);
    }
}

// The sets that have a key.
#[derive(Drop)]
struct Filled;

impl<A, B: Ord + Drop> EntryTest<A, KeySet<B>> for Filled {
    ghost passes = { λ _ _ set. is_filled set };

    fn test(&self, _first: &A, set: &KeySet<B>) -> bool {
        set.is_filled()
    }
}

// Whether a first half has a set without a key.
fn is_emptied<A: Ord + Digest + Drop, B: Ord + Drop, P: Probe<A> + Digest>(
    sets: &HashedMap<A, KeySet<B>>,
    first: &P,
) -> bool
    ensures { result ≡ option_map_or (λ set. not (is_filled set)) (find A.cmp (P.sought first.now) sets.now.content) false }
{
    match sets.get(first) {
        Some(set) => !set.is_filled(),
        None => false,
    }
}

impl<A: Exact + Digest + Drop, B: Exact + Drop> HashedPairs<A, B> {
    /// No pairs.
    pub fn new(alloc: Global) -> Self
        ensures { result.content ≡ [] }
    {
        HashedPairs {
            sets: HashedMap::new(alloc),
        }
    }

    /// The set of second halves that stand behind a first one, where there are such.
    #[inline(always)]
    pub fn set<P: Probe<A> + Digest>(&self, first: &P) -> Option<&KeySet<B>>
        ensures { found (option_copied result) ≡ seconds A.cmp (P.sought first.now) self.now.content }
    {
        self.sets.get(first)
    }

    /// The second halves that stand behind a first one, in order.
    #[inline(always)]
    pub fn seconds<P: Probe<A> + Digest>(&self, first: &P) -> &[B]
        ensures { result.now ≡ seconds A.cmp (P.sought first.now) self.now.content }
    {
        match self.set(first) {
            Some(set) => set.keys(),
            None => &[],
        }
    }

    /// The second halves that stand behind a first one, in order. It is looked for at a place in the order of the first ones, and
    /// elsewhere only where it does not stand there.
    #[inline(always)]
    pub fn seconds_near<P: Probe<A> + Digest>(&self, place: usize, first: &P) -> &[B]
        ensures { result.now ≡ seconds A.cmp (P.sought first.now) self.now.content }
    {
        match self.sets.get_near(place, first) {
            Some(set) => set.keys(),
            None => &[],
        }
    }

    /// Whether it is one of the pairs.
    pub fn contains<P: Probe<A> + Digest, Q: Probe<B>>(&self, first: &P, second: &Q) -> bool
        ensures { result ≡ has (by_pair A.cmp B.cmp) (P.sought first.now, Q.sought second.now) self.now.content }
    {
        match self.sets.get(first) {
            Some(set) => set.contains(second),
            None => false,
        }
    }

    /// The pairs are in order, each once.
    pub fn invariants(&self)
        ensures { IsStrictlySortedBy (by_pair A.cmp B.cmp) self.now.content }
    {
        let _sets = &self.sets;
    }

    /// Makes room for the pairs of so many more first halves.
    ///
    /// # Errors
    /// `AllocError` where there is less room and no memory for it. The pairs are as before.
    pub fn reserve(&mut self, more: usize) -> Result<(), AllocError>
        ensures content { self.new.content ≡ self.old.content }
        ensures room { OnOk result (more ≤ self.new.room) }
    {
        self.sets.reserve(more)
    }

    /// Gives a first half these second ones in place of those that it has, where there is room.
    pub fn put(&mut self, first: A, set: KeySet<B>)
        requires { 0 < self.old.room }
        ensures content { self.new.content ≡ replaced A.cmp B.cmp first set self.old.content }
        ensures room { self.old.room ≤ self.new.room + 1 }
    {
        let _keys = set.keys();
        if set.is_filled() {
            self.sets.put(first, set);
        } else {
            self.sets.remove(&first);
        }
    }

    /// Adds a pair.
    ///
    /// # Errors
    /// `AllocError` where the pair is new and there is no memory for it. The pairs are as before.
    pub fn insert(&mut self, alloc: Global, first: A, second: B) -> Result<(), AllocError>
        ensures added { OnOk result (self.new.content ≡ with_key (by_pair A.cmp B.cmp) (first, second) self.old.content) }
        ensures unchanged { OnErr result (self.new.content ≡ self.old.content) }
    {
        if self.sets.contains(&first) {
            return self.sets.update(&first, WithOne { key: second });
        }
        let mut set = KeySet::new(alloc);
        set.insert(second)?;
        self.sets.insert(first, set)
    }

    /// Takes a pair out.
    pub fn remove<P: Probe<A> + Digest, Q: Probe<B>>(&mut self, first: &P, second: &Q)
        ensures content { self.new.content ≡ without (by_pair A.cmp B.cmp) (P.sought first.now, Q.sought second.now) self.old.content }
        ensures room { self.old.room ≤ self.new.room }
    {
        let Ok(()) = self.sets.update(first, WithoutOne { probe: second });
        if is_emptied(&self.sets, first) {
            self.sets.remove(first);
        }
    }

    /// Keeps the pairs whose second half passes the test.
    pub fn retain<T: KeyTest<B>>(&mut self, test: &T)
        ensures content { self.new.content ≡ filter (λ p. T.passes test.now p.1) self.old.content }
        ensures room { self.old.room ≤ self.new.room }
    {
        self.sets.change_each(&Kept { test });
        self.sets.retain(&Filled);
    }
}

// Adds the pairs of a first half with each of these second ones.
fn add_pairs<A: Drop + Duplicate, B: Drop + Duplicate>(
    pairs: &mut Vec<(A, B)>,
    first: &A,
    seconds: &[B],
) -> Result<(), AllocError>
    ensures { OnOk result (pairs.new.items ≡ pairs.old.items ++ map (λ b. (first.now, b)) seconds.now) }
{
    for second in seconds {
        let first = first.duplicate()?;
        let second = second.duplicate()?;
        pairs.push((first, second))?;
    }
    Ok(())
}

// The pairs of a map of sets, in order.
fn all_pairs<A: Ord + Digest + Drop + Duplicate, B: Ord + Drop + Duplicate>(
    alloc: Global,
    sets: &HashedMap<A, KeySet<B>>,
) -> Result<Vec<(A, B)>, AllocError>
    ensures { IfOk result (λ pairs. pairs.items ≡ pairs_of sets.now.content) }
{
    let mut pairs = Vec::new(alloc);
    for place in 0..sets.len() {
        if let Some(entry) = sets.at(place) {
            add_pairs(&mut pairs, &entry.0, entry.1.keys())?;
        }
    }
    Ok(pairs)
}

impl<A: Exact + Digest + Drop + Duplicate, B: Exact + Drop + Duplicate> HashedPairs<A, B> {
    /// Equal pairs.
    ///
    /// # Errors
    /// `AllocError` where there is no memory for it.
    pub fn copy(&self) -> Result<Self, AllocError>
        ensures { IfOk result (λ copy. copy.content ≡ self.now.content) }
    {
        Ok(HashedPairs {
            sets: self.sets.copy()?,
        })
    }

    /// The pairs in order, copied.
    ///
    /// # Errors
    /// `AllocError` where there is no memory for it.
    pub fn pairs(&self, alloc: Global) -> Result<Vec<(A, B)>, AllocError>
        ensures { IfOk result (λ pairs. pairs.items ≡ self.now.content) }
    {
        all_pairs(alloc, &self.sets)
    }
}

impl<A: Exact + Digest + Drop, B: Exact + Drop> HashedPairs<A, B> {
    /// Whether both have the same pairs.
    pub fn same(&self, other: &Self) -> bool
        ensures { IsTrue result ↔ (self.now.content ≡ other.now.content) }
    {
        self.sets.same(&other.sets)
    }
}
