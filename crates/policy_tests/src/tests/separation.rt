//! Each public call of `rbac_separation` with ample memory. What is expected was written by hand.
ghost use Rattle.std.specs.Prelude.{◌≤◌, length};
ghost use Rattle.rbac_separation.specs.Counts.{ArePlaced};

use super::named::{assert_names, name, name_set};
use rbac_separation::{CountPlan, Counts, Numbering, RoleSet, Row, SetChange, SetPlan, SetTable};
use rbac_terms::Name;
use sorted_keys::{Duplicate, Same};
use std::alloc::Global;
use std::process::Abort;
use std::slice::from_ref;

fn create(rt: &impl Abort, alloc: Global, sets: &mut SetTable, set: &str, texts: &[&str]) {
    let set = name(rt, alloc, set);
    let roles = name_set(rt, alloc, texts);
    sets.create(set, roles, 2).expect(rt, "memory");
}

fn add(rt: &impl Abort, alloc: Global, sets: &mut SetTable, set: &str, role: &str) {
    let set = name(rt, alloc, set);
    let role = name(rt, alloc, role);
    sets.add_member(&set, role).expect(rt, "memory");
}

// The set d of two of a, b and c.
fn one_set(rt: &impl Abort, alloc: Global) -> SetTable {
    let mut sets = SetTable::empty(alloc);
    create(rt, alloc, &mut sets, "d", &["a", "b"]);
    add(rt, alloc, &mut sets, "d", "c");
    sets
}

// d as it is above, and e of two of a and c.
fn two_sets(rt: &impl Abort, alloc: Global) -> SetTable {
    let mut sets = one_set(rt, alloc);
    create(rt, alloc, &mut sets, "e", &["c", "a"]);
    sets
}

fn assert_roles(rt: &impl Abort, alloc: Global, sets: &SetTable, set: &str, texts: &[&str]) {
    let set = name(rt, alloc, set);
    assert_names(rt, sets.roles(&set).expect(rt, "a set"), texts);
}

fn assert_cardinality(rt: &impl Abort, alloc: Global, sets: &SetTable, set: &str, number: u32) {
    let set = name(rt, alloc, set);
    assert_eq!(rt; sets.cardinality(&set).expect(rt, "a set"), number);
}

fn assert_contains(rt: &impl Abort, alloc: Global, sets: &SetTable, set: &str, is: bool) {
    assert_eq!(rt; sets.contains(&name(rt, alloc, set)), is);
}

fn assert_over(rt: &impl Abort, alloc: Global, sets: &SetTable, texts: &[&str], set: &str) {
    let roles = name_set(rt, alloc, texts);
    let over = sets.over(&roles).expect(rt, "a set");
    assert_eq!(rt; over.as_bytes(), set.as_bytes());
}

fn assert_none_over(rt: &impl Abort, alloc: Global, sets: &SetTable, texts: &[&str]) {
    let roles = name_set(rt, alloc, texts);
    assert!(rt; sets.over(&roles).is_none());
}

fn assert_holds(rt: &impl Abort, alloc: Global, sets: &SetTable, role: &str, is: bool) {
    assert_eq!(rt; sets.holds_role(&name(rt, alloc, role)), is);
}

#[test]
fn an_empty_table_has_no_sets(rt: HostRuntime) {
    let alloc = rt.alloc();
    let sets = SetTable::empty(alloc);
    assert_eq!(rt; sets.len(), 0);
    assert_contains(&rt, alloc, &sets, "d", false);
    assert_none_over(&rt, alloc, &sets, &["a", "b"]);
    drop(sets);
}

#[test]
fn a_set_has_its_roles_and_its_number(rt: HostRuntime) {
    let alloc = rt.alloc();
    let sets = two_sets(&rt, alloc);
    assert_eq!(rt; sets.len(), 2);
    assert_contains(&rt, alloc, &sets, "e", true);
    assert_roles(&rt, alloc, &sets, "d", &["a", "b", "c"]);
    assert_roles(&rt, alloc, &sets, "e", &["a", "c"]);
    assert_cardinality(&rt, alloc, &sets, "d", 2);
    drop(sets);
}

#[test]
fn a_set_is_lent(rt: HostRuntime) {
    let alloc = rt.alloc();
    let sets = two_sets(&rt, alloc);
    let set = sets.get(&name(&rt, alloc, "e")).expect(&rt, "a set");
    assert_eq!(rt; set.cardinality, 2);
    assert_names(&rt, &set.roles, &["a", "c"]);
    assert!(rt; sets.get(&name(&rt, alloc, "a")).is_none());
    drop(sets);
}

#[test]
fn a_set_that_is_not_there_has_neither(rt: HostRuntime) {
    let alloc = rt.alloc();
    let sets = two_sets(&rt, alloc);
    let other = name(&rt, alloc, "f");
    assert!(rt; !sets.contains(&other));
    assert!(rt; sets.roles(&other).is_none());
    assert!(rt; sets.cardinality(&other).is_none());
    drop(sets);
}

#[test]
fn the_names_come_in_order(rt: HostRuntime) {
    let alloc = rt.alloc();
    let mut sets = two_sets(&rt, alloc);
    create(&rt, alloc, &mut sets, "c", &["a"]);
    assert_names(
        &rt,
        &sets.names(alloc).expect(&rt, "memory"),
        &["c", "d", "e"],
    );
    drop(sets);
}

#[test]
fn as_many_roles_as_the_number_are_over(rt: HostRuntime) {
    let alloc = rt.alloc();
    let sets = one_set(&rt, alloc);
    assert_over(&rt, alloc, &sets, &["a", "c"], "d");
    assert_over(&rt, alloc, &sets, &["a", "b", "c"], "d");
    assert_none_over(&rt, alloc, &sets, &["a"]);
    assert_none_over(&rt, alloc, &sets, &["a", "y", "z"]);
    drop(sets);
}

#[test]
fn the_first_set_by_name_is_told(rt: HostRuntime) {
    let alloc = rt.alloc();
    let mut sets = two_sets(&rt, alloc);
    assert_over(&rt, alloc, &sets, &["a", "c"], "d");
    sets.delete(&name(&rt, alloc, "d"));
    assert_over(&rt, alloc, &sets, &["a", "c"], "e");
    assert_none_over(&rt, alloc, &sets, &["a", "b"]);
    drop(sets);
}

#[test]
fn a_greater_number_lets_more_roles_come_together(rt: HostRuntime) {
    let alloc = rt.alloc();
    let mut sets = one_set(&rt, alloc);
    assert_over(&rt, alloc, &sets, &["a", "b"], "d");
    sets.set_cardinality(&name(&rt, alloc, "d"), 3);
    assert_cardinality(&rt, alloc, &sets, "d", 3);
    assert_none_over(&rt, alloc, &sets, &["a", "b"]);
    assert_over(&rt, alloc, &sets, &["a", "b", "c"], "d");
    drop(sets);
}

#[test]
fn a_role_of_any_set_is_held(rt: HostRuntime) {
    let alloc = rt.alloc();
    let mut sets = two_sets(&rt, alloc);
    add(&rt, alloc, &mut sets, "e", "g");
    for (role, is) in [("a", true), ("g", true), ("z", false)] {
        assert_holds(&rt, alloc, &sets, role, is);
    }
    drop(sets);
}

#[test]
fn a_role_is_taken_out(rt: HostRuntime) {
    let alloc = rt.alloc();
    let mut sets = two_sets(&rt, alloc);
    sets.remove_member(&name(&rt, alloc, "d"), &name(&rt, alloc, "c"));
    assert_roles(&rt, alloc, &sets, "d", &["a", "b"]);
    assert_roles(&rt, alloc, &sets, "e", &["a", "c"]);
    assert_over(&rt, alloc, &sets, &["a", "c"], "e");
    drop(sets);
}

#[test]
fn a_set_of_the_same_name_is_replaced(rt: HostRuntime) {
    let alloc = rt.alloc();
    let mut sets = two_sets(&rt, alloc);
    let roles = name_set(&rt, alloc, &["z", "y"]);
    let created = sets.create(name(&rt, alloc, "d"), roles, 5);
    created.expect(&rt, "memory");
    assert_eq!(rt; sets.len(), 2);
    assert_cardinality(&rt, alloc, &sets, "d", 5);
    assert_roles(&rt, alloc, &sets, "d", &["y", "z"]);
    drop(sets);
}

#[test]
fn a_change_of_a_set_that_is_not_there_changes_nothing(rt: HostRuntime) {
    let alloc = rt.alloc();
    let sets = two_sets(&rt, alloc);
    let mut copy = sets.copy().expect(&rt, "memory");
    let other = name(&rt, alloc, "f");
    add(&rt, alloc, &mut copy, "f", "a");
    copy.remove_member(&other, &name(&rt, alloc, "a"));
    copy.set_cardinality(&other, 3);
    copy.delete(&other);
    assert!(rt; copy.same(&sets));
    drop(copy);
    drop(sets);
}

#[test]
fn a_copy_is_the_same_until_a_number_changes(rt: HostRuntime) {
    let sets = two_sets(&rt, rt.alloc());
    let mut copy = sets.copy().expect(&rt, "memory");
    assert!(rt; copy.same(&sets));
    copy.set_cardinality(&name(&rt, rt.alloc(), "e"), 3);
    assert!(rt; !copy.same(&sets));
    drop(copy);
    drop(sets);
}

#[test]
fn a_copy_is_the_same_until_roles_change(rt: HostRuntime) {
    let alloc = rt.alloc();
    let sets = two_sets(&rt, alloc);
    let mut copy = sets.copy().expect(&rt, "memory");
    add(&rt, alloc, &mut copy, "e", "b");
    assert!(rt; !copy.same(&sets));
    drop(copy);
    drop(sets);
}

#[test]
fn one_set_is_copied_and_compared(rt: HostRuntime) {
    let alloc = rt.alloc();
    let set = RoleSet {
        roles: name_set(&rt, alloc, &["a", "b"]),
        cardinality: 2,
    };
    let mut copy = set.duplicate().expect(&rt, "memory");
    assert!(rt; copy.same(&set));
    copy.cardinality = 3;
    assert!(rt; !copy.same(&set));
    drop(copy);
    drop(set);
}

// Plans another number of a set and a user.
fn plan_pair(
    rt: &impl Abort,
    alloc: Global,
    counts: &mut Counts,
    set: &str,
    user: &str,
) -> CountPlan
    ensures { ArePlaced result.sets.items result.users.items counts.new }
{
    let (set, user) = (name(rt, alloc, set), name(rt, alloc, user));
    counts
        .plan(alloc, from_ref(&set), from_ref(&user))
        .expect(rt, "memory")
}

fn row(rt: &impl Abort, alloc: Global, numbers: &[u32]) -> Row {
    let mut row = Row::with_room(alloc, numbers.len()).expect(rt, "memory");
    for number in numbers {
        row.push(*number).expect(rt, "memory");
    }
    row
}

fn put(rt: &impl Abort, alloc: Global, counts: &mut Counts, set: &str, user: &str, number: u32) {
    let set = name(rt, alloc, set);
    let user = name(rt, alloc, user);
    counts.put(alloc, &set, &user, number).expect(rt, "memory");
    drop(set);
    drop(user);
}

// Ann has 1 of d and 1 of e, and bob 2 of d.
fn some_counts(rt: &impl Abort, alloc: Global) -> Counts {
    let mut counts = Counts::empty(alloc);
    put(rt, alloc, &mut counts, "d", "ann", 1);
    put(rt, alloc, &mut counts, "e", "ann", 1);
    put(rt, alloc, &mut counts, "d", "bob", 2);
    counts
}

fn number(rt: &impl Abort, alloc: Global, counts: &Counts, set: &str, user: &str) -> u32 {
    let set = name(rt, alloc, set);
    let user = name(rt, alloc, user);
    let number = counts.get(&set, &user);
    drop(set);
    drop(user);
    number
}

// The numbers of d and e with ann, and of d with bob.
fn assert_numbers(rt: &impl Abort, alloc: Global, counts: &Counts, wanted: (u32, u32, u32)) {
    assert_eq!(rt; number(rt, alloc, counts, "d", "ann"), wanted.0);
    assert_eq!(rt; number(rt, alloc, counts, "e", "ann"), wanted.1);
    assert_eq!(rt; number(rt, alloc, counts, "d", "bob"), wanted.2);
}

#[test]
fn a_number_is_that_of_a_set_and_a_user(rt: HostRuntime) {
    let alloc = rt.alloc();
    let empty = Counts::empty(alloc);
    assert_numbers(&rt, alloc, &empty, (0, 0, 0));
    drop(empty);
    let counts = some_counts(&rt, alloc);
    assert_numbers(&rt, alloc, &counts, (1, 1, 2));
    assert_eq!(rt; number(&rt, alloc, &counts, "e", "bob"), 0);
    drop(counts);
}

#[test]
fn a_set_or_a_user_is_forgotten(rt: HostRuntime) {
    let alloc = rt.alloc();
    let mut counts = some_counts(&rt, alloc);
    let mut copy = counts.copy().expect(&rt, "memory");
    counts.forget_set(&name(&rt, alloc, "d"));
    assert_numbers(&rt, alloc, &counts, (0, 1, 0));
    copy.forget_user(&name(&rt, alloc, "ann"));
    assert_numbers(&rt, alloc, &copy, (0, 0, 2));
    drop(copy);
    drop(counts);
}

#[test]
fn another_number_takes_its_place_and_0_takes_it_out(rt: HostRuntime) {
    let alloc = rt.alloc();
    let mut counts = some_counts(&rt, alloc);
    put(&rt, alloc, &mut counts, "d", "ann", 3);
    put(&rt, alloc, &mut counts, "d", "bob", 0);
    put(&rt, alloc, &mut counts, "e", "bob", 0);
    assert_numbers(&rt, alloc, &counts, (3, 1, 0));
    drop(counts);
}

// Whether the first set of which the user would have too many roles, with these besides, is this one: "" where there is none.
fn is_over_with(
    rt: &impl Abort,
    alloc: Global,
    counts: &Counts,
    sets: &SetTable,
    user: &str,
    fresh: &[&str],
    wanted: &str,
) -> bool {
    let user = name(rt, alloc, user);
    let fresh = name_set(rt, alloc, fresh);
    let is = match counts.over_with(sets, &user, &fresh) {
        Some(set) => set.as_bytes() == wanted.as_bytes(),
        None => wanted.is_empty(),
    };
    drop(fresh);
    drop(user);
    is
}

#[test]
fn a_number_and_fresh_roles_come_to_a_sets_own(rt: HostRuntime) {
    let alloc = rt.alloc();
    let set = RoleSet {
        roles: name_set(&rt, alloc, &["a", "b", "c"]),
        cardinality: 2,
    };
    let fresh = name_set(&rt, alloc, &["b", "z"]);
    assert!(rt; set.is_over(1, &fresh));
    assert!(rt; !set.is_over(0, &fresh));
    drop(fresh);
    drop(set);
}

#[test]
fn fresh_roles_are_counted_besides(rt: HostRuntime) {
    let alloc = rt.alloc();
    let sets = two_sets(&rt, alloc);
    let mut counts = Counts::empty(alloc);
    put(&rt, alloc, &mut counts, "e", "ann", 1);
    assert!(rt; is_over_with(&rt, alloc, &counts, &sets, "ann", &["a"], "e"));
    assert!(rt; is_over_with(&rt, alloc, &counts, &sets, "ann", &["a", "b"], "d"));
    assert!(rt; is_over_with(&rt, alloc, &counts, &sets, "ann", &["b", "z"], ""));
    assert!(rt; is_over_with(&rt, alloc, &counts, &sets, "bob", &["a"], ""));
    drop(counts);
    drop(sets);
}

// Plans the set e of two of a and b, to which c then comes.
fn plan_a_set(rt: &impl Abort, alloc: Global, sets: &mut SetTable) -> SetPlan
    ensures { length result ≤ sets.new.room }
{
    let (set, role) = (name(rt, alloc, "e"), name(rt, alloc, "c"));
    let roles = name_set(rt, alloc, &["a", "b"]);
    let changes = [
        SetChange::Create {
            set: &set,
            roles: &roles,
            cardinality: 2,
        },
        SetChange::AddMember {
            set: &set,
            role: &role,
        },
    ];
    sets.plan(alloc, &changes).expect(rt, "memory")
}

#[test]
fn a_plan_of_sets_changes_nothing_until_its_commit(rt: HostRuntime) {
    let alloc = rt.alloc();
    let mut sets = one_set(&rt, alloc);
    let plan = plan_a_set(&rt, alloc, &mut sets);
    assert_contains(&rt, alloc, &sets, "e", false);
    sets.commit(plan);
    assert_roles(&rt, alloc, &sets, "e", &["a", "b", "c"]);
    assert_cardinality(&rt, alloc, &sets, "e", 2);
    drop(sets);
}

// The same number for all.
#[derive(Drop)]
struct OneNumber {
    number: u32,
}

impl Numbering for OneNumber {
    ghost use Rattle.std.specs.Prelude.{true};

    ghost number = { λ one _ _. one.number };

    ghost is_numbered = { λ _ _ _. true };

    fn number(&self, _set: &Name, _user: &Name) -> u32 {
        self.number
    }
}

// Plans the numbers of d and e, each with ann and with bob.
fn plan_numbers(rt: &impl Abort, alloc: Global, counts: &mut Counts) -> CountPlan
    ensures { ArePlaced result.sets.items result.users.items counts.new }
{
    let sets = name_set(rt, alloc, &["d", "e"]);
    let users = name_set(rt, alloc, &["ann", "bob"]);
    counts
        .plan(alloc, sets.names(), users.names())
        .expect(rt, "memory")
}

// The numbers of d and e with ann, and of d with bob, with whom e has none.
fn rows(rt: &impl Abort, alloc: Global, wanted: (u32, u32, u32)) -> [Row; 2] {
    [
        row(rt, alloc, &[wanted.0, wanted.1]),
        row(rt, alloc, &[wanted.2, 0]),
    ]
}

fn number_of_ann(rt: &impl Abort, alloc: Global, counts: &Counts) -> u32 {
    counts.get(&name(rt, alloc, "d"), &name(rt, alloc, "ann"))
}

#[test]
fn a_plan_of_numbers_changes_nothing_until_its_commit(rt: HostRuntime) {
    let alloc = rt.alloc();
    let mut counts = Counts::empty(alloc);
    let plan = plan_pair(&rt, alloc, &mut counts, "d", "ann");
    assert_eq!(rt; number_of_ann(&rt, alloc, &counts), 0);
    let number = row(&rt, alloc, &[2]);
    counts.commit(plan, from_ref(&number));
    drop(number);
    assert_eq!(rt; number_of_ann(&rt, alloc, &counts), 2);
    put(&rt, alloc, &mut counts, "d", "ann", 0);
    assert_eq!(rt; number_of_ann(&rt, alloc, &counts), 0);
    drop(counts);
}

#[test]
fn a_plan_of_new_names_commits_to_just_its_numbers(rt: HostRuntime) {
    let alloc = rt.alloc();
    let mut counts = Counts::empty(alloc);
    let plan = plan_numbers(&rt, alloc, &mut counts);
    assert_numbers(&rt, alloc, &counts, (0, 0, 0));
    counts.commit(plan, &rows(&rt, alloc, (3, 0, 2)));
    assert_numbers(&rt, alloc, &counts, (3, 0, 2));
    assert_eq!(rt; number(&rt, alloc, &counts, "e", "bob"), 0);
    drop(counts);
}

#[test]
fn a_plan_that_is_dropped_changes_no_number(rt: HostRuntime) {
    let alloc = rt.alloc();
    let mut counts = some_counts(&rt, alloc);
    drop(plan_numbers(&rt, alloc, &mut counts));
    assert_numbers(&rt, alloc, &counts, (1, 1, 2));
    drop(counts);
}

#[test]
fn two_plans_are_committed_one_after_the_other(rt: HostRuntime) {
    let alloc = rt.alloc();
    let mut counts = Counts::empty(alloc);
    let plan = plan_numbers(&rt, alloc, &mut counts);
    counts.commit(plan, &rows(&rt, alloc, (1, 1, 2)));
    let plan = plan_numbers(&rt, alloc, &mut counts);
    counts.commit(plan, &rows(&rt, alloc, (3, 0, 2)));
    assert_numbers(&rt, alloc, &counts, (3, 0, 2));
    drop(counts);
}

#[test]
fn numbers_are_taken_anew_at_the_commit_of_their_plan(rt: HostRuntime) {
    let alloc = rt.alloc();
    let mut counts = Counts::empty(alloc);
    let plan = plan_pair(&rt, alloc, &mut counts, "d", "ann");
    assert_eq!(rt; number_of_ann(&rt, alloc, &counts), 0);
    counts.renumber(plan, &OneNumber { number: 2 });
    assert_eq!(rt; number_of_ann(&rt, alloc, &counts), 2);
    let plan = plan_pair(&rt, alloc, &mut counts, "d", "ann");
    counts.renumber(plan, &OneNumber { number: 0 });
    assert_eq!(rt; number_of_ann(&rt, alloc, &counts), 0);
    drop(counts);
}
