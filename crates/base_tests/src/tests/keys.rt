//! Each call of `sorted_keys` once, with ample memory.
ghost use Rattle.std.specs.Prelude.{nat_lt};

use sorted_keys::{
    Duplicate, KeyTest, PairProbe, RepeatedKey, Same, SortedMap, SortedSet, ValueChange,
};
use std::alloc::{AllocError, Global};
use std::convert::Infallible;
use std::process::Abort;

// The keys below a limit.
#[derive(Drop)]
struct BelowLimit(u64);

impl KeyTest<u64> for BelowLimit {
    ghost passes = { λ limit key. nat_lt key limit.0 };

    fn test(&self, key: &u64) -> bool {
        *key < self.0
    }
}

// Another value in place of what was there.
#[derive(Drop)]
struct Becomes(u64);

impl ValueChange<u64> for Becomes {
    type Fault = Infallible;

    ghost changed = { λ becomes _. becomes.0 };

    fn change(self, value: &mut u64) -> Result<(), Infallible> {
        *value = self.0;
        Ok(())
    }
}

// A change for which there is never memory.
#[derive(Drop)]
struct NeverMade;

impl ValueChange<u64> for NeverMade {
    type Fault = AllocError;

    ghost changed = { λ _ value. value };

    fn change(self, _value: &mut u64) -> Result<(), AllocError> {
        Err(AllocError)
    }
}

fn insert(rt: &impl Abort, set: &mut SortedSet<u64>, key: u64) {
    set.insert(key).expect(rt, "memory");
}

fn set_of(rt: &impl Abort, alloc: Global, keys: &[u64]) -> SortedSet<u64> {
    let mut set = SortedSet::new(alloc);
    for key in keys {
        insert(rt, &mut set, *key);
    }
    set
}

fn pairs_of(rt: &impl Abort, alloc: Global, keys: &[(u64, u64)]) -> SortedSet<(u64, u64)> {
    let mut set = SortedSet::new(alloc);
    for key in keys {
        set.insert(*key).expect(rt, "memory");
    }
    set
}

fn map_of(rt: &impl Abort, alloc: Global, entries: &[(u64, u64)]) -> SortedMap<u64, u64> {
    let mut map = SortedMap::new(alloc);
    for (key, value) in entries {
        map.insert(*key, *value).expect(rt, "memory");
    }
    map
}

fn expect_keys(rt: &impl Abort, set: &SortedSet<u64>, wanted: &[u64]) {
    assert_eq!(rt; set.keys(), wanted);
}

fn expect_entries(rt: &impl Abort, map: &SortedMap<u64, u64>, wanted: &[(u64, u64)]) {
    assert_eq!(rt; map.entries(), wanted);
}

fn expect_beginning(
    rt: &impl Abort,
    pairs: &SortedSet<(u64, u64)>,
    first: u64,
    wanted: &[(u64, u64)],
) {
    assert_eq!(rt; pairs.beginning_with(&first), wanted);
}

#[test]
fn a_set_keeps_its_keys_in_order(rt: HostRuntime) {
    let set = set_of(&rt, rt.alloc(), &[5, 3, 9, 5]);
    assert_eq!(rt; set.len(), 3);
    assert!(rt; !set.is_empty());
    assert!(rt; set.contains(&3));
    assert!(rt; !set.contains(&4));
    expect_keys(&rt, &set, &[3, 5, 9]);
    drop(set);
}

#[test]
fn keys_are_taken_out(rt: HostRuntime) {
    let mut set = set_of(&rt, rt.alloc(), &[5, 3, 9]);
    set.remove(&5);
    set.remove(&4);
    expect_keys(&rt, &set, &[3, 9]);
    set.retain(&BelowLimit(9));
    expect_keys(&rt, &set, &[3]);
    drop(set);
}

#[test]
fn a_set_with_room_takes_keys(rt: HostRuntime) {
    let mut set = SortedSet::new(rt.alloc());
    assert!(rt; set.is_empty());
    set.reserve(2).expect(&rt, "memory");
    set.put(1u64);
    set.put(2);
    expect_keys(&rt, &set, &[1, 2]);
    drop(set);
}

#[test]
fn a_copy_is_the_same(rt: HostRuntime) {
    let set = pairs_of(&rt, rt.alloc(), &[(2, 7), (1, 8)]);
    let mut copy = set.copy().expect(&rt, "memory");
    assert!(rt; copy.same(&set));
    copy.insert((1, 9)).expect(&rt, "memory");
    assert!(rt; !copy.same(&set));
    drop(copy);
    drop(set);
}

fn expect_copy_with(rt: &impl Abort, set: &SortedSet<u64>, key: u64, wanted: &[u64]) {
    let copied = set.copy_with(&key);
    let copy = copied.expect(rt, "memory");
    expect_keys(rt, &copy, wanted);
    drop(copy);
}

#[test]
fn a_copy_has_one_key_more(rt: HostRuntime) {
    let mut set = SortedSet::new(rt.alloc());
    for key in [5u64, 3] {
        set.insert_copy(&key).expect(&rt, "memory");
    }
    expect_copy_with(&rt, &set, 4, &[3, 4, 5]);
    expect_copy_with(&rt, &set, 3, &[3, 5]);
    expect_keys(&rt, &set, &[3, 5]);
    drop(set);
}

#[test]
fn copies_of_keys_are_added(rt: HostRuntime) {
    let mut set = SortedSet::new(rt.alloc());
    for key in [5u64, 3, 9, 5] {
        set.insert_copy(&key).expect(&rt, "memory");
    }
    expect_keys(&rt, &set, &[3, 5, 9]);
    drop(set);
}

#[test]
fn keys_that_pass_are_copied(rt: HostRuntime) {
    let set = set_of(&rt, rt.alloc(), &[5, 3, 9, 4]);
    let copied = set.copy_where(rt.alloc(), &BelowLimit(5));
    let copy = copied.expect(&rt, "memory");
    expect_keys(&rt, &copy, &[3, 4]);
    assert_eq!(rt; set.len(), 4);
    drop(copy);
    drop(set);
}

fn expect_paired(
    rt: &impl Abort,
    alloc: Global,
    set: &SortedSet<u64>,
    pairs: &[(u64, u64)],
    wanted: &[u64],
) {
    let pairs = pairs_of(rt, alloc, pairs);
    let copied = set.copy_paired(alloc, &pairs, &BelowLimit(5));
    let copy = copied.expect(rt, "memory");
    expect_keys(rt, &copy, wanted);
    drop(copy);
    drop(pairs);
}

#[test]
fn keys_of_which_a_pair_passes_are_copied(rt: HostRuntime) {
    let alloc = rt.alloc();
    let set = set_of(&rt, alloc, &[5, 3, 9, 4]);
    // Two pairs of 3 pass, of 4 none, of 5 there is none, 1 and 6 are no keys, and of 9 the first passes.
    let pairs = [(3, 4), (9, 8), (1, 2), (9, 2), (3, 0), (6, 1), (4, 5)];
    expect_paired(&rt, alloc, &set, &pairs, &[3, 9]);
    expect_paired(&rt, alloc, &set, &[(10, 1), (9, 4), (9, 5)], &[9]);
    expect_paired(&rt, alloc, &set, &[], &[]);
    drop(set);
}

fn keys_of(rt: &impl Abort, alloc: Global, keys: &[u64]) -> Vec<u64> {
    Vec::from_slice(alloc, keys).expect(rt, "memory")
}

fn expect_set(rt: &impl Abort, alloc: Global, keys: &[u64], wanted: &[u64]) {
    let set = SortedSet::from_vec(keys_of(rt, alloc, keys)).expect(rt, "a set");
    expect_keys(rt, &set, wanted);
    drop(set);
}

fn is_repeated(rt: &impl Abort, alloc: Global, keys: &[u64]) -> bool {
    let refused = SortedSet::from_vec(keys_of(rt, alloc, keys));
    matches!(refused, Err(RepeatedKey))
}

#[test]
fn a_list_becomes_a_set(rt: HostRuntime) {
    expect_set(&rt, rt.alloc(), &[5, 3, 9], &[3, 5, 9]);
    expect_set(&rt, rt.alloc(), &[], &[]);
    assert!(rt; is_repeated(&rt, rt.alloc(), &[5, 3, 5]));
    assert!(rt; is_repeated(&rt, rt.alloc(), &[4, 4, 1]));
    assert!(rt; is_repeated(&rt, rt.alloc(), &[7, 7, 7]));
}

#[test]
fn a_list_of_pairs_becomes_a_set(rt: HostRuntime) {
    let pairs = Vec::from_slice(rt.alloc(), &[(2u64, 1usize), (1, 2)]);
    let set = SortedSet::from_vec(pairs.expect(&rt, "memory"));
    let set = set.expect(&rt, "a set");
    assert_eq!(rt; set.keys(), [(1, 2), (2, 1)].as_slice());
    drop(set);
}

fn contains_pair(pairs: &SortedSet<(u64, u64)>, first: &u64, second: &u64) -> bool {
    pairs.contains(&PairProbe { first, second })
}

fn contains_triple(
    triples: &SortedSet<((u64, u64), u64)>,
    first: &u64,
    second: &u64,
    third: &u64,
) -> bool {
    let first = PairProbe { first, second };
    triples.contains(&PairProbe {
        first: &first,
        second: third,
    })
}

#[test]
fn parts_stand_for_a_pair(rt: HostRuntime) {
    let mut pairs = pairs_of(&rt, rt.alloc(), &[(2, 1)]);
    assert!(rt; !contains_pair(&pairs, &1, &2));
    pairs.insert((1, 2)).expect(&rt, "memory");
    assert!(rt; contains_pair(&pairs, &1, &2));
    drop(pairs);
}

#[test]
fn parts_stand_for_a_triple(rt: HostRuntime) {
    let mut triples = SortedSet::new(rt.alloc());
    triples.insert(((1u64, 2u64), 4u64)).expect(&rt, "memory");
    assert!(rt; !contains_triple(&triples, &1, &2, &3));
    triples.insert(((1, 2), 3)).expect(&rt, "memory");
    assert!(rt; contains_triple(&triples, &1, &2, &3));
    drop(triples);
}

#[test]
fn a_map_finds_its_values(rt: HostRuntime) {
    let map = map_of(&rt, rt.alloc(), &[(5, 50), (3, 30), (9, 9), (5, 51)]);
    assert_eq!(rt; map.len(), 3);
    assert_eq!(rt; map.get(&5), Some(&51));
    assert_eq!(rt; map.get(&4), None);
    assert!(rt; map.contains(&3));
    assert!(rt; !map.contains(&4));
    expect_entries(&rt, &map, &[(3, 30), (5, 51), (9, 9)]);
    drop(map);
}

#[test]
fn entries_are_taken_out(rt: HostRuntime) {
    let mut map = map_of(&rt, rt.alloc(), &[(5, 51), (3, 30), (9, 9)]);
    let copy = map.copy().expect(&rt, "memory");
    map.remove(&9);
    map.remove(&3);
    map.remove(&4);
    expect_entries(&rt, &map, &[(5, 51)]);
    assert_eq!(rt; copy.len(), 3);
    drop(copy);
    drop(map);
}

#[test]
fn a_map_with_room_takes_values(rt: HostRuntime) {
    let (one, two) = (1, 2);
    let pair = PairProbe {
        first: &one,
        second: &two,
    };
    let mut map = SortedMap::new(rt.alloc());
    assert!(rt; map.is_empty());
    map.reserve(2).expect(&rt, "memory");
    map.put((1u64, 2u64), 12u64);
    map.put((1, 2), 13);
    assert_eq!(rt; map.get(&pair), Some(&13));
    map.remove(&pair);
    assert!(rt; map.is_empty());
    drop(map);
}

#[test]
fn a_pair_is_copied(rt: HostRuntime) {
    let copy = (1u64, 2usize).duplicate().expect(&rt, "memory");
    assert_eq!(rt; copy, (1, 2));
}

#[test]
fn a_value_is_changed_in_its_place(rt: HostRuntime) {
    let mut map = map_of(&rt, rt.alloc(), &[(5, 50), (3, 30)]);
    assert!(rt; map.update(&5, Becomes(7)).is_ok());
    assert!(rt; map.update(&4, Becomes(8)).is_ok());
    expect_entries(&rt, &map, &[(3, 30), (5, 7)]);
    assert!(rt; map.update(&3, NeverMade).is_err());
    assert!(rt; map.update(&4, NeverMade).is_ok());
    expect_entries(&rt, &map, &[(3, 30), (5, 7)]);
    drop(map);
}

type Pairs = SortedMap<u64, (u64, usize)>;

fn put_pair(rt: &impl Abort, map: &mut Pairs, key: u64, value: (u64, usize)) {
    map.insert(key, value).expect(rt, "memory");
}

#[test]
fn maps_of_the_same_entries_are_the_same(rt: HostRuntime) {
    let mut map = SortedMap::new(rt.alloc());
    put_pair(&rt, &mut map, 1, (2, 3));
    let mut copy = map.copy().expect(&rt, "memory");
    assert!(rt; copy.same(&map));
    put_pair(&rt, &mut copy, 1, (2, 4));
    assert!(rt; !copy.same(&map));
    put_pair(&rt, &mut map, 1, (2, 4));
    assert!(rt; copy.same(&map));
    put_pair(&rt, &mut map, 2, (2, 4));
    assert!(rt; !copy.same(&map));
    drop(copy);
    drop(map);
}

#[test]
fn pairs_are_the_same_by_both_halves(rt: HostRuntime) {
    assert!(rt; (1u64, 2usize).same(&(1, 2)));
    assert!(rt; !(1u64, 2usize).same(&(1, 3)));
    assert!(rt; !(1u64, 2usize).same(&(2, 2)));
}

#[test]
fn pairs_that_begin_alike_stand_together(rt: HostRuntime) {
    let none: SortedSet<(u64, u64)> = SortedSet::new(rt.alloc());
    assert!(rt; none.beginning_with(&2).is_empty());
    let pairs = pairs_of(&rt, rt.alloc(), &[(2, 7), (1, 8), (2, 5), (3, 5)]);
    expect_beginning(&rt, &pairs, 1, &[(1, 8)]);
    expect_beginning(&rt, &pairs, 2, &[(2, 5), (2, 7)]);
    expect_beginning(&rt, &pairs, 3, &[(3, 5)]);
    expect_beginning(&rt, &pairs, 0, &[]);
    expect_beginning(&rt, &pairs, 4, &[]);
    drop(pairs);
}

// Adds the pairs of a first half with the numbers below a count.
fn add_pairs(rt: &impl Abort, pairs: &mut SortedSet<(u64, u64)>, first: u64, count: u64) {
    for second in 0..count {
        pairs.insert((first, second)).expect(rt, "memory");
    }
}

#[test]
fn many_pairs_that_begin_alike_stand_together(rt: HostRuntime) {
    let mut pairs = SortedSet::new(rt.alloc());
    for (first, count) in [(1, 8), (2, 9), (3, 7), (4, 100)] {
        add_pairs(&rt, &mut pairs, first, count);
    }
    assert_eq!(rt; pairs.beginning_with(&1).len(), 8);
    assert_eq!(rt; pairs.beginning_with(&2).len(), 9);
    assert_eq!(rt; pairs.beginning_with(&3).len(), 7);
    assert_eq!(rt; pairs.beginning_with(&4).len(), 100);
    assert!(rt; pairs.beginning_with(&2).last() == Some(&(2, 8)));
    drop(pairs);
}
