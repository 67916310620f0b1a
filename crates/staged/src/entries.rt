//! Maps that are changed by plans.
ghost use Rattle.std.specs.Prelude.{◌≡◌, ◌<◌, ◌≤◌, ◌+◌, Bool, List, Option, IfOk, if◌then◌else◌};
ghost use Rattle.std.specs.Option.{option_copied, option_or};
ghost use Rattle.std.specs.FinMap.Entries.{find};
ghost use Rattle.staged.specs.Entries.{after_entries, with_entry};

use crate::entry_map::EntryMap;
use crate::plan::Plan;
use crate::staged::Staged;
use crate::steps::Steps;
use digests::Digest;
use hashed_keys::HashedMap;
use sorted_keys::SortedMap;
use std::alloc::{AllocError, Global};

/// A change of what stands at one key of a map.
pub trait EntryChange<K, V> {
    /// The key.
    ghost key: { Self → K };

    /// The value after the change, by the value before it. Where it gives none, nothing changes.
    ghost becomes: { Self → Option V → Option V };

    /// The key, with memory of its own.
    ///
    /// # Errors
    /// `AllocError` where the key gets no memory.
    fn key(&self) -> Result<K, AllocError>
        ensures { IfOk result (λ own. own ≡ key self.now) };

    /// The value after the change, with memory of its own. It asks for the value before it only where it wants it.
    ///
    /// # Errors
    /// `AllocError` where the value gets no memory.
    fn value<F: Found<V>>(&self, alloc: Global, before: &F) -> Result<Option<V>, AllocError>
        ensures { IfOk result (λ value. value ≡ becomes self.now (F.found before.now)) };
}

/// What stands at a key, looked up where it is asked for.
pub trait Found<V> {
    /// What stands there.
    ghost found: { Self → Option V };

    /// What stands there, lent.
    fn find(&self) -> Option<&V>
        ensures { option_copied result ≡ found self.now };
}

// The newer of two values, where it is at the key that is asked for.
fn newer<'a, V>(is_here: bool, value: &'a Option<V>, found: Option<&'a V>) -> Option<&'a V>
    ensures { option_copied result ≡ (if is_here then option_or value.now (option_copied found.entry) else option_copied found.entry) }
{
    if !is_here {
        return found;
    }
    match value {
        Some(newer) => Some(newer),
        None => found,
    }
}

// What stands at the key after a step, by what stood there before it.
fn found_next<'a, K: Ord + Drop, V: Drop>(
    found: Option<&'a V>,
    step: &'a (K, Option<V>),
    key: &K,
) -> Option<&'a V>
    ensures { (before : List (K × V)) → option_copied found.entry ≡ find K.cmp key.now before → option_copied result ≡ find K.cmp key.now (with_entry K.cmp step.now.0 step.now.1 before) }
{
    newer(key.cmp(&step.0).is_eq(), &step.1, found)
}

// What stands at the key after these steps, by what stood there before them.
fn found_later<'a, K: Ord + Drop, V: Drop>(
    found: Option<&'a V>,
    steps: &'a [(K, Option<V>)],
    key: &K,
) -> Option<&'a V>
    ensures { (before : List (K × V)) → option_copied found.entry ≡ find K.cmp key.now before → option_copied result ≡ find K.cmp key.now (after_entries K.cmp steps.now before) }
{
    let mut found = found;
    for step in steps {
        found = found_next(found, step, key);
    }
    found
}

// What stands at the key after the steps of this plan.
fn found_after<'a, K: Ord + Drop, V: Drop, M: EntryMap<K, V>>(
    map: &'a M,
    plan: &'a Plan<(K, Option<V>)>,
    key: &K,
) -> Option<&'a V>
    ensures { option_copied result ≡ find K.cmp key.now (after_entries K.cmp plan.now (M.content map.now)) }
{
    let found = map.value_at(key);
    match plan.steps() {
        Steps::Empty => found,
        Steps::One(step) => found_next(found, step, key),
        Steps::Several(steps) => found_later(found, steps, key),
    }
}

// What stands at a key after the steps of a plan.
#[derive(Drop)]
struct FoundAfter<'a, K, V, M> {
    map: &'a M,
    plan: &'a Plan<(K, Option<V>)>,
    key: &'a K,
}

impl<K: Ord + Drop, V: Drop, M: EntryMap<K, V>> Found<V> for FoundAfter<'_, K, V, M> {
    ghost found = { λ f. find K.cmp f.key.now (after_entries K.cmp f.plan.now (M.content f.map.now)) };

    fn find(&self) -> Option<&V> {
        found_after(self.map, self.plan, self.key)
    }
}

// The key and the value that a change gives it, after these steps.
#[inline(always)]
fn entry_step<K: Ord + Drop, V: Drop, M: EntryMap<K, V>, C: EntryChange<K, V>>(
    alloc: Global,
    map: &M,
    before: &Plan<(K, Option<V>)>,
    change: &C,
) -> Result<(K, Option<V>), AllocError>
    ensures { let key = C.key change.now in let reached = after_entries K.cmp before.now (M.content map.now) in IfOk result (λ step. step ≡ (key, C.becomes change.now (find K.cmp key reached))) }
{
    let key = change.key()?;
    let found = FoundAfter {
        map,
        plan: before,
        key: &key,
    };
    let value = change.value(alloc, &found)?;
    Ok((key, value))
}

// Makes a step.
#[inline(always)]
fn put_step<K: Ord + Drop, V: Drop, M: EntryMap<K, V>>(map: &mut M, step: (K, Option<V>))
    requires { 0 < M.room map.old }
    ensures content { M.content map.new ≡ with_entry K.cmp step.0 step.1 (M.content map.old) }
    ensures room { M.room map.old ≤ M.room map.new + 1 }
{
    let (key, value) = step;
    if let Some(value) = value {
        map.put_at(key, value);
    }
}

impl<K: Ord + Drop, V: Drop, C: EntryChange<K, V>> Staged<C> for SortedMap<K, V> {
    type Step = (K, Option<V>);

    ghost Content = { List (K × V) };

    ghost content = { λ m. m.content };

    ghost room = { λ m. m.room };

    ghost changed = { λ change es. with_entry K.cmp (C.key change) (C.becomes change (find K.cmp (C.key change) es)) es };

    ghost made = { λ step es. with_entry K.cmp step.0 step.1 es };

    #[inline(always)]
    fn prepare(
        &self,
        alloc: Global,
        before: &Plan<(K, Option<V>)>,
        change: &C,
    ) -> Result<(K, Option<V>), AllocError> {
        entry_step(alloc, self, before, change)
    }

    #[inline(always)]
    fn make_room(&mut self, _alloc: Global, more: usize) -> Result<(), AllocError> {
        self.reserve(more)
    }

    #[inline(always)]
    fn make(&mut self, step: (K, Option<V>)) {
        put_step(self, step);
    }
}

impl<K: Ord + Digest + Drop, V: Drop, C: EntryChange<K, V>> Staged<C> for HashedMap<K, V> {
    type Step = (K, Option<V>);

    ghost Content = { List (K × V) };

    ghost content = { λ m. m.content };

    ghost room = { λ m. m.room };

    ghost changed = { λ change es. with_entry K.cmp (C.key change) (C.becomes change (find K.cmp (C.key change) es)) es };

    ghost made = { λ step es. with_entry K.cmp step.0 step.1 es };

    #[inline(always)]
    fn prepare(
        &self,
        alloc: Global,
        before: &Plan<(K, Option<V>)>,
        change: &C,
    ) -> Result<(K, Option<V>), AllocError> {
        entry_step(alloc, self, before, change)
    }

    #[inline(always)]
    fn make_room(&mut self, _alloc: Global, more: usize) -> Result<(), AllocError> {
        self.reserve(more)
    }

    #[inline(always)]
    fn make(&mut self, step: (K, Option<V>)) {
        put_step(self, step);
    }
}
