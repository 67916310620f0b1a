//! Plans of `staged`: a row of numbers and a map that are changed by them.
ghost use Rattle.std.specs.Prelude.{◌++◌, ◌∷◌, ◌-◌, [], List, ℕ, vec_len, vec_capacity};
ghost use Rattle.std.specs.Option.{option_map};

use sorted_keys::SortedMap;
use staged::{EntryChange, Found, Plan, Staged, commit, make_plan};
use std::alloc::{AllocError, Global};
use std::process::Abort;

// Numbers, the last of which is the newest.
#[derive(Drop)]
struct Numbers {
    numbers: Vec<u32>,
}

// One number more.
#[derive(Clone, Copy)]
struct OneMore {
    number: u32,
}

impl Staged<OneMore> for Numbers {
    type Step = u32;

    ghost Content = { List ℕ };

    ghost content = { λ n. n.numbers.items };

    ghost room = { λ n. vec_capacity n.numbers - vec_len n.numbers };

    ghost changed = { λ change numbers. numbers ++ change.number ∷ [] };

    ghost made = { λ step numbers. numbers ++ step ∷ [] };

    fn prepare(
        &self,
        _alloc: Global,
        _before: &Plan<u32>,
        change: &OneMore,
    ) -> Result<u32, AllocError> {
        Ok(change.number)
    }

    fn make_room(&mut self, _alloc: Global, more: usize) -> Result<(), AllocError> {
        self.numbers.reserve(more)
    }

    fn make(&mut self, step: u32) {
        self.numbers.push(step).unwrap();
    }
}

#[test]
fn plans_change_nothing_and_commits_do(rt: HostRuntime) {
    let alloc = rt.alloc();
    let mut row = Numbers {
        numbers: Vec::new(alloc),
    };
    let changes = [OneMore { number: 3 }, OneMore { number: 5 }];
    let planned = make_plan(alloc, &mut row, &changes).expect(&rt, "memory");
    assert_eq!(rt; row.numbers.len(), 0);
    commit::<OneMore, Numbers>(&mut row, planned);
    assert_eq!(rt; row.numbers.as_slice(), [3, 5].as_slice());
}

#[test]
fn a_plan_lends_its_steps_in_order(rt: HostRuntime) {
    let alloc = rt.alloc();
    let mut row = Numbers {
        numbers: Vec::new(alloc),
    };
    let changes = [OneMore { number: 3 }, OneMore { number: 5 }];
    let planned = make_plan(alloc, &mut row, &changes).expect(&rt, "memory");
    assert_eq!(rt; planned.len(), 2);
    assert_eq!(rt; planned.get(1).copied(), Some(5));
    assert_eq!(rt; planned.get(2).copied(), None);
}

// Another number at a key, where there is one.
#[derive(Clone, Copy)]
struct Replacement {
    at: u64,
    number: u64,
}

impl EntryChange<u64, u64> for Replacement {
    ghost key = { λ replacement. replacement.at };

    ghost becomes = { λ replacement found. option_map (λ _. replacement.number) found };

    fn key(&self) -> Result<u64, AllocError> {
        Ok(self.at)
    }

    fn value<F: Found<u64>>(&self, _alloc: Global, before: &F) -> Result<Option<u64>, AllocError> {
        match before.find() {
            Some(_) => Ok(Some(self.number)),
            None => Ok(None),
        }
    }
}

fn expect_at(rt: &impl Abort, map: &SortedMap<u64, u64>, at: u64, wanted: Option<u64>) {
    let found = match map.get(&at) {
        Some(number) => Some(*number),
        None => None,
    };
    assert!(rt; found == wanted);
}

#[test]
fn a_map_is_changed_where_there_is_an_entry(rt: HostRuntime) {
    let alloc = rt.alloc();
    let mut map = SortedMap::new(alloc);
    map.insert(3, 1).expect(&rt, "memory");
    let changes = [
        Replacement { at: 3, number: 5 },
        Replacement { at: 4, number: 6 },
        Replacement { at: 3, number: 7 },
    ];
    let planned = make_plan(alloc, &mut map, &changes).expect(&rt, "memory");
    expect_at(&rt, &map, 3, Some(1));
    commit::<Replacement, SortedMap<u64, u64>>(&mut map, planned);
    expect_at(&rt, &map, 3, Some(7));
    expect_at(&rt, &map, 4, None);
    drop(map);
}
