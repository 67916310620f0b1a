//! Each call of `hashed_keys` once, with ample memory; keys of one digest, and more of them than hints.
ghost use Rattle.std.specs.Prelude.{nat_lt};

use digests::Digest;
use hashed_keys::{EachChange, HashedMap, HashedPairs, KeySet};
use rbac_terms::Name;
use sorted_keys::{EntryTest, KeyTest, ValueChange};
use std::alloc::Global;
use std::convert::Infallible;
use std::process::Abort;

// The entries whose value is below a limit.
#[derive(Drop)]
struct BelowLimit(u64);

impl EntryTest<Name, u64> for BelowLimit {
    ghost passes = { λ limit _ value. nat_lt value limit.0 };

    fn test(&self, _name: &Name, value: &u64) -> bool {
        *value < self.0
    }
}

impl KeyTest<u64> for BelowLimit {
    ghost passes = { λ limit key. nat_lt key limit.0 };

    fn test(&self, key: &u64) -> bool {
        *key < self.0
    }
}

// Another value in place of what was there.
#[derive(Drop)]
struct Becomes(u64);

impl ValueChange<u64> for Becomes {
    type Fault = Infallible;

    ghost changed = { λ becomes _. becomes.0 };

    fn change(self, value: &mut u64) -> Result<(), Infallible> {
        *value = self.0;
        Ok(())
    }
}

impl EachChange<u64> for Becomes {
    ghost changed = { λ becomes _. becomes.0 };

    fn change(&self, value: &mut u64) {
        *value = self.0;
    }
}

fn name(rt: &impl Abort, alloc: Global, text: &str) -> Name {
    Name::read(alloc, text.as_bytes()).expect(rt, "a name")
}

fn insert(rt: &impl Abort, alloc: Global, map: &mut HashedMap<Name, u64>, key: &str, value: u64) {
    map.insert(name(rt, alloc, key), value).expect(rt, "memory");
}

fn value_at(rt: &impl Abort, alloc: Global, map: &HashedMap<Name, u64>, key: &str) -> Option<u64> {
    map.get(&name(rt, alloc, key)).copied()
}

// Whether these are the entries, in the order of their keys.
fn has_entries(map: &HashedMap<Name, u64>, keys: &[&str], values: &[u64]) -> bool {
    if map.len() != keys.len() || keys.len() != values.len() {
        return false;
    }
    for place in 0..keys.len() {
        match map.at(place) {
            Some(entry) => {
                if entry.0.as_bytes() != keys[place].as_bytes() || entry.1 != values[place] {
                    return false;
                }
            }
            None => return false,
        }
    }
    true
}

fn three(rt: &impl Abort, alloc: Global) -> HashedMap<Name, u64> {
    let mut map = HashedMap::new(alloc);
    insert(rt, alloc, &mut map, "read", 5);
    insert(rt, alloc, &mut map, "approve", 3);
    insert(rt, alloc, &mut map, "session-0001", 9);
    insert(rt, alloc, &mut map, "read", 6);
    map
}

#[test]
fn a_hashed_map_finds_its_values(rt: HostRuntime) {
    let alloc = rt.alloc();
    let map = three(&rt, alloc);
    assert!(rt; value_at(&rt, alloc, &map, "read") == Some(6));
    assert!(rt; value_at(&rt, alloc, &map, "session-0001") == Some(9));
    assert!(rt; value_at(&rt, alloc, &map, "session-0002").is_none());
    assert!(rt; map.contains(&name(&rt, alloc, "approve")));
    assert!(rt; has_entries(&map, &["approve", "read", "session-0001"], &[3, 6, 9]));
    assert!(rt; map.at(3).is_none());
    drop(map);
}

fn has_listed(rt: &impl Abort, alloc: Global, map: &HashedMap<Name, u64>, values: &[u64]) -> bool {
    let entries = map.entries(alloc).expect(rt, "memory");
    let listed = entries
        .iter()
        .map(|entry| entry.1)
        .eq(values.iter().copied());
    drop(entries);
    listed
}

#[test]
fn entries_are_changed_and_taken_out(rt: HostRuntime) {
    let alloc = rt.alloc();
    let mut map = three(&rt, alloc);
    let copy = map.copy().expect(&rt, "memory");
    assert!(rt; copy.same(&map));
    assert!(rt; map.any(&BelowLimit(4)));
    assert!(rt; !map.any(&BelowLimit(3)));
    map.remove(&name(&rt, alloc, "approve"));
    map.remove(&name(&rt, alloc, "pay"));
    assert!(rt; !copy.same(&map));
    let Ok(()) = map.update(&name(&rt, alloc, "read"), Becomes(7));
    assert!(rt; has_listed(&rt, alloc, &map, &[7, 9]));
    map.retain(&BelowLimit(8));
    assert!(rt; has_entries(&map, &["read"], &[7]));
    map.change_each(&Becomes(1));
    assert!(rt; has_entries(&map, &["read"], &[1]));
    assert!(rt; has_listed(&rt, alloc, &copy, &[3, 6, 9]));
    drop(copy);
    drop(map);
}

#[test]
fn a_hashed_map_with_room_takes_values(rt: HostRuntime) {
    let alloc = rt.alloc();
    let mut map = HashedMap::new(alloc);
    map.reserve(2).expect(&rt, "memory");
    map.put(name(&rt, alloc, "b"), 2);
    map.put(name(&rt, alloc, "a"), 1);
    assert!(rt; has_entries(&map, &["a", "b"], &[1, 2]));
    drop(map);
}

// A name with a number in its middle: all of them have one digest.
fn alike(rt: &impl Abort, alloc: Global, number: u64) -> Name {
    let mut bytes = Vec::from_slice(alloc, b"begin-alike-").expect(rt, "memory");
    bytes
        .push(b'a' + (number / 8 % 8) as u8)
        .expect(rt, "memory");
    bytes.push(b'a' + (number % 8) as u8).expect(rt, "memory");
    bytes.extend_from_slice(b"-end-alike").expect(rt, "memory");
    let name = Name::read(alloc, &bytes).expect(rt, "a name");
    drop(bytes);
    name
}

#[test]
fn keys_of_one_digest_are_found(rt: HostRuntime) {
    let alloc = rt.alloc();
    let mut map = HashedMap::new(alloc);
    for number in 0..40u64 {
        let key = alike(&rt, alloc, number * 7 % 40);
        assert!(rt; key.digest() == alike(&rt, alloc, 0).digest());
        map.insert(key, number).expect(&rt, "memory");
    }
    for number in 0..20u64 {
        map.remove(&alike(&rt, alloc, number));
    }
    assert!(rt; map.len() == 20);
    for number in 0..40u64 {
        let found = map.get(&alike(&rt, alloc, number * 7 % 40)).copied();
        let wanted = if number * 7 % 40 < 20 {
            None
        } else {
            Some(number)
        };
        assert!(rt; found == wanted);
    }
    drop(map);
}

fn add(rt: &impl Abort, alloc: Global, pairs: &mut HashedPairs<Name, u64>, key: &str, second: u64) {
    pairs
        .insert(alloc, name(rt, alloc, key), second)
        .expect(rt, "memory");
}

fn has_seconds(
    rt: &impl Abort,
    alloc: Global,
    pairs: &HashedPairs<Name, u64>,
    key: &str,
    wanted: &[u64],
) -> bool {
    pairs.seconds(&name(rt, alloc, key)) == wanted
}

// Whether a first half has these second ones, wherever it is looked for first.
fn has_seconds_near(
    rt: &impl Abort,
    alloc: Global,
    pairs: &HashedPairs<Name, u64>,
    key: &str,
    wanted: &[u64],
) -> bool {
    let key = name(rt, alloc, key);
    pairs.seconds_near(0, &key) == wanted
        && pairs.seconds_near(1, &key) == wanted
        && pairs.seconds_near(2, &key) == wanted
}

fn pair_count(rt: &impl Abort, alloc: Global, pairs: &HashedPairs<Name, u64>) -> usize {
    let listed = pairs.pairs(alloc).expect(rt, "memory");
    let count = listed.len();
    drop(listed);
    count
}

// Whether the pair stands there.
fn has_pair(
    rt: &impl Abort,
    alloc: Global,
    pairs: &HashedPairs<Name, u64>,
    first: &str,
    second: u64,
) -> bool {
    let first = name(rt, alloc, first);
    pairs.contains(&first, &second)
}

// Read with 3 and 5, and pay with 4.
fn three_pairs(rt: &impl Abort, alloc: Global) -> HashedPairs<Name, u64> {
    let mut pairs = HashedPairs::new(alloc);
    add(rt, alloc, &mut pairs, "read", 5);
    add(rt, alloc, &mut pairs, "pay", 4);
    add(rt, alloc, &mut pairs, "read", 3);
    add(rt, alloc, &mut pairs, "read", 5);
    pairs
}

#[test]
fn pairs_are_found_by_their_first_half(rt: HostRuntime) {
    let alloc = rt.alloc();
    let pairs = three_pairs(&rt, alloc);
    assert!(rt; has_seconds_near(&rt, alloc, &pairs, "read", &[3, 5]));
    assert!(rt; has_seconds_near(&rt, alloc, &pairs, "pay", &[4]));
    assert!(rt; has_seconds_near(&rt, alloc, &pairs, "approve", &[]));
    assert!(rt; has_seconds(&rt, alloc, &pairs, "read", &[3, 5]));
    assert!(rt; has_seconds(&rt, alloc, &pairs, "approve", &[]));
    assert!(rt; has_pair(&rt, alloc, &pairs, "pay", 4));
    assert!(rt; pair_count(&rt, alloc, &pairs) == 3);
    drop(pairs);
}

#[test]
fn pairs_are_taken_out(rt: HostRuntime) {
    let alloc = rt.alloc();
    let mut pairs = three_pairs(&rt, alloc);
    let copy = pairs.copy().expect(&rt, "memory");
    assert!(rt; copy.same(&pairs));
    take_out(&rt, alloc, &mut pairs, "pay", 4);
    assert!(rt; !has_pair(&rt, alloc, &pairs, "pay", 4));
    take_out(&rt, alloc, &mut pairs, "read", 5);
    assert!(rt; has_seconds(&rt, alloc, &pairs, "read", &[3]));
    assert!(rt; !copy.same(&pairs));
    assert!(rt; pair_count(&rt, alloc, &copy) == 3);
    drop(copy);
    drop(pairs);
}

fn take_out(
    rt: &impl Abort,
    alloc: Global,
    pairs: &mut HashedPairs<Name, u64>,
    first: &str,
    second: u64,
) {
    let first = name(rt, alloc, first);
    pairs.remove(&first, &second);
}

#[test]
fn pairs_that_pass_are_kept(rt: HostRuntime) {
    let alloc = rt.alloc();
    let mut pairs = three_pairs(&rt, alloc);
    pairs.retain(&BelowLimit(4));
    assert!(rt; has_seconds(&rt, alloc, &pairs, "read", &[3]));
    assert!(rt; has_seconds(&rt, alloc, &pairs, "pay", &[]));
    drop(pairs);
}

#[test]
fn pairs_with_room_take_a_set(rt: HostRuntime) {
    let alloc = rt.alloc();
    let mut pairs = HashedPairs::new(alloc);
    pairs.reserve(1).expect(&rt, "memory");
    let set = KeySet::of_one(alloc, &2u64).expect(&rt, "memory");
    let more = set.copy_with(&1).expect(&rt, "memory");
    pairs.put(name(&rt, alloc, "read"), more);
    assert!(rt; has_seconds(&rt, alloc, &pairs, "read", &[1, 2]));
    drop(set);
    drop(pairs);
}
