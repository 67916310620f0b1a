//! Each public call of `rbac_hierarchy` with ample memory. What is expected was written by hand.
ghost use Rattle.std.specs.Prelude.{◌≤◌, length};

use super::named::{After, assert_found, assert_names, name};
use rbac_hierarchy::laws::run_order;
use rbac_hierarchy::{BitOrder, Change, ListOrder, Plan, RoleOrder};
use rbac_terms::{Name, NameSet};
use std::alloc::{AllocError, Global};
use std::process::Abort;
use std::test::Fail;

// Declares the pair, where need be between new roles.
fn add_pair<O: RoleOrder>(
    alloc: Global,
    hierarchy: &mut O,
    ascendant: &Name,
    descendant: &Name,
) -> Result<(), AllocError> {
    hierarchy.add_role(alloc, ascendant)?;
    hierarchy.add_role(alloc, descendant)?;
    hierarchy.declare(alloc, ascendant, descendant)
}

fn hierarchy_of<O: RoleOrder + Drop>(rt: &impl Abort, alloc: Global, pairs: &[(&str, &str)]) -> O {
    let mut hierarchy = O::empty(alloc);
    for (ascendant, descendant) in pairs {
        let (ascendant, descendant) = (name(rt, alloc, ascendant), name(rt, alloc, descendant));
        add_pair(alloc, &mut hierarchy, &ascendant, &descendant).expect(rt, "memory");
    }
    hierarchy
}

fn retract<O: RoleOrder>(
    rt: &impl Abort,
    alloc: Global,
    hierarchy: &mut O,
    ascendant: &str,
    descendant: &str,
) {
    let (ascendant, descendant) = (name(rt, alloc, ascendant), name(rt, alloc, descendant));
    hierarchy
        .retract(alloc, &ascendant, &descendant)
        .expect(rt, "memory");
}

fn add_role<O: RoleOrder>(rt: &impl Abort, alloc: Global, hierarchy: &mut O, role: &str) {
    hierarchy
        .add_role(alloc, &name(rt, alloc, role))
        .expect(rt, "memory");
}

fn remove_role<O: RoleOrder>(rt: &impl Abort, alloc: Global, hierarchy: &mut O, role: &str) {
    hierarchy
        .remove_role(alloc, &name(rt, alloc, role))
        .expect(rt, "memory");
}

// How two roles stand to each other.
#[derive(Clone, Copy)]
enum Link {
    // The pair is declared, and so the first one inherits the second.
    Declared,
    // The first one inherits the second, and the pair is not declared.
    Inherited,
    Absent,
}

// Compares how the roles of each pair stand to each other.
fn assert_links<O: RoleOrder>(
    rt: &impl Abort,
    alloc: Global,
    hierarchy: &O,
    rows: &[(&str, &str, Link)],
) {
    for (senior, junior, link) in rows {
        let (senior, junior) = (name(rt, alloc, senior), name(rt, alloc, junior));
        let is_declared = matches!(link, Link::Declared);
        let is_inherited = is_declared || matches!(link, Link::Inherited);
        assert_eq!(rt; hierarchy.declared(&senior, &junior), is_declared);
        assert_eq!(rt; hierarchy.inherits(&senior, &junior), is_inherited);
    }
}

// Compares what a role inherits, and what inherits it.
fn assert_around<O: RoleOrder>(
    rt: &impl Abort,
    alloc: Global,
    hierarchy: &O,
    role: &str,
    juniors: &[&str],
    seniors: &[&str],
) {
    let role = name(rt, alloc, role);
    assert_found(rt, hierarchy.juniors(alloc, &role), juniors);
    assert_found(rt, hierarchy.seniors(alloc, &role), seniors);
}

fn copy_of<O: RoleOrder>(rt: &impl Abort, alloc: Global, hierarchy: &O) -> O {
    hierarchy.copy().expect(rt, "memory")
}

// Two paths lead from a to c.
const TWO_PATHS: [(&str, &str); 3] = [("b", "c"), ("a", "c"), ("a", "b")];

fn among_no_roles_nothing_is_inherited<O: RoleOrder + Drop>(rt: &impl Abort, alloc: Global) {
    let hierarchy = O::empty(alloc);
    assert_links(rt, alloc, &hierarchy, &[("a", "a", Link::Absent)]);
    assert_around(rt, alloc, &hierarchy, "a", &[], &[]);
    drop(hierarchy);
}

fn a_role_inherits_itself_and_what_pairs_lead_to<O: RoleOrder + Drop>(
    rt: &impl Abort,
    alloc: Global,
) {
    let hierarchy: O = hierarchy_of(rt, alloc, &[("b", "c"), ("a", "b")]);
    let rows = [
        ("a", "a", Link::Inherited),
        ("a", "b", Link::Declared),
        ("a", "c", Link::Inherited),
        ("b", "c", Link::Declared),
        ("c", "a", Link::Absent),
        ("b", "a", Link::Absent),
        ("z", "z", Link::Absent),
        ("a", "z", Link::Absent),
        ("z", "a", Link::Absent),
    ];
    assert_links(rt, alloc, &hierarchy, &rows);
    drop(hierarchy);
}

fn a_pair_is_declared_as_it_stands<O: RoleOrder + Drop>(rt: &impl Abort, alloc: Global) {
    let hierarchy: O = hierarchy_of(rt, alloc, &[("b", "c"), ("a", "b")]);
    let up = ("b", "a", Link::Absent);
    let rows = [("a", "b", Link::Declared), up, ("a", "c", Link::Inherited)];
    assert_links(rt, alloc, &hierarchy, &rows);
    drop(hierarchy);
}

// Compares which roles are the ascendant of a declared pair.
fn assert_ascendants<O: RoleOrder>(
    rt: &impl Abort,
    alloc: Global,
    hierarchy: &O,
    rows: &[(&str, bool)],
) {
    for (role, wanted) in rows {
        let found = hierarchy.has_descendant(&name(rt, alloc, role));
        assert_eq!(rt; found, *wanted, "{role}");
    }
}

fn an_ascendant_has_a_descendant<O: RoleOrder + Drop>(rt: &impl Abort, alloc: Global) {
    let mut hierarchy: O = hierarchy_of(rt, alloc, &TWO_PATHS);
    let rows = [("a", true), ("b", true), ("c", false), ("z", false)];
    assert_ascendants(rt, alloc, &hierarchy, &rows);
    // One of two pairs of a goes, and the one of b.
    retract(rt, alloc, &mut hierarchy, "a", "c");
    retract(rt, alloc, &mut hierarchy, "b", "c");
    let rows = [("a", true), ("b", false), ("c", false)];
    assert_ascendants(rt, alloc, &hierarchy, &rows);
    remove_role(rt, alloc, &mut hierarchy, "b");
    assert_ascendants(rt, alloc, &hierarchy, &[("a", false), ("b", false)]);
    drop(hierarchy);
}

fn a_second_path_still_gives_what_one_gave<O: RoleOrder + Drop>(rt: &impl Abort, alloc: Global) {
    let mut hierarchy: O = hierarchy_of(rt, alloc, &TWO_PATHS);
    for (ascendant, descendant, c_of_a, c_of_b, b_of_a) in [
        ("b", "c", Link::Declared, Link::Absent, Link::Declared),
        ("a", "c", Link::Absent, Link::Absent, Link::Declared),
        ("a", "b", Link::Absent, Link::Absent, Link::Absent),
    ] {
        retract(rt, alloc, &mut hierarchy, ascendant, descendant);
        let rows = [("a", "c", c_of_a), ("b", "c", c_of_b), ("a", "b", b_of_a)];
        assert_links(rt, alloc, &hierarchy, &rows);
    }
    assert_links(rt, alloc, &hierarchy, &[("a", "a", Link::Inherited)]);
    drop(hierarchy);
}

fn juniors_and_seniors_are_listed<O: RoleOrder + Drop>(rt: &impl Abort, alloc: Global) {
    let hierarchy: O = hierarchy_of(rt, alloc, &[("b", "c"), ("a", "b"), ("d", "c")]);
    for (role, juniors, seniors) in [
        ("a", ["a", "b", "c"].as_slice(), ["a"].as_slice()),
        ("c", &["c"], &["a", "b", "c", "d"]),
        ("z", &[], &[]),
    ] {
        assert_around(rt, alloc, &hierarchy, role, juniors, seniors);
    }
    drop(hierarchy);
}

fn juniors_are_added_to_names<O: RoleOrder + Drop>(rt: &impl Abort, alloc: Global) {
    let hierarchy: O = hierarchy_of(rt, alloc, &[("b", "c"), ("a", "b"), ("d", "c")]);
    let names = hierarchy
        .juniors(alloc, &name(rt, alloc, "d"))
        .expect(rt, "memory");
    let names = hierarchy
        .with_juniors(names, &name(rt, alloc, "b"))
        .expect(rt, "memory");
    assert_names(rt, &names, &["b", "c", "d"]);
    let names = hierarchy
        .with_juniors(names, &name(rt, alloc, "z"))
        .expect(rt, "memory");
    assert_names(rt, &names, &["b", "c", "d"]);
    drop(hierarchy);
}

fn juniors_of_several_roles_are_gathered<O: RoleOrder + Drop>(rt: &impl Abort, alloc: Global) {
    let hierarchy: O = hierarchy_of(rt, alloc, &[("b", "c"), ("a", "b"), ("d", "c")]);
    let (ann, b, d) = (
        name(rt, alloc, "ann"),
        name(rt, alloc, "b"),
        name(rt, alloc, "d"),
    );
    let none = NameSet::new(alloc);
    let gathered = hierarchy
        .juniors_of_all(alloc, &[b.copy().expect(rt, "memory"), d])
        .expect(rt, "memory");
    assert_names(rt, &gathered, &["b", "c", "d"]);
    let added = hierarchy
        .with_juniors_of_assigned(none, &[(ann, b)])
        .expect(rt, "memory");
    assert_names(rt, &added, &["b", "c"]);
    drop(hierarchy);
}

fn roles_that_pass_are_listed<O: RoleOrder + Drop>(rt: &impl Abort, alloc: Global) {
    let hierarchy: O = hierarchy_of(rt, alloc, &[("b", "c"), ("a", "b"), ("d", "c")]);
    hierarchy.invariants();
    let after = After {
        name: name(rt, alloc, "b"),
    };
    let roles = hierarchy.roles_where(alloc, &after).expect(rt, "memory");
    assert_names(rt, &roles, &["c", "d"]);
    drop(hierarchy);
}

fn roles_in_a_circle_inherit_one_another<O: RoleOrder + Drop>(rt: &impl Abort, alloc: Global) {
    let hierarchy: O = hierarchy_of(rt, alloc, &[("a", "b"), ("b", "c"), ("c", "a")]);
    let all = ["a", "b", "c"];
    assert_around(rt, alloc, &hierarchy, "b", &all, &all);
    drop(hierarchy);
}

fn a_role_is_removed_with_its_pairs<O: RoleOrder + Drop>(rt: &impl Abort, alloc: Global) {
    let mut hierarchy: O = hierarchy_of(rt, alloc, &[("b", "c"), ("a", "b"), ("a", "d")]);
    remove_role(rt, alloc, &mut hierarchy, "z");
    remove_role(rt, alloc, &mut hierarchy, "b");
    let gone = [("a", "b", Link::Absent), ("b", "c", Link::Absent)];
    assert_links(rt, alloc, &hierarchy, &gone);
    assert_links(rt, alloc, &hierarchy, &[("a", "d", Link::Declared)]);
    assert_around(rt, alloc, &hierarchy, "a", &["a", "d"], &["a"]);
    assert_around(rt, alloc, &hierarchy, "b", &[], &[]);
    assert_around(rt, alloc, &hierarchy, "c", &["c"], &["c"]);
    drop(hierarchy);
}

fn a_role_that_is_there_is_not_added<O: RoleOrder + Drop>(rt: &impl Abort, alloc: Global) {
    let mut hierarchy: O = hierarchy_of(rt, alloc, &TWO_PATHS);
    let before = copy_of(rt, alloc, &hierarchy);
    add_role(rt, alloc, &mut hierarchy, "a");
    assert!(rt; hierarchy.same(&before));
    add_role(rt, alloc, &mut hierarchy, "d");
    assert!(rt; !hierarchy.same(&before));
    assert_around(rt, alloc, &hierarchy, "d", &["d"], &["d"]);
    drop(hierarchy);
    drop(before);
}

// Adds both, and the first one with the pair that puts it above the second.
fn add_above<O: RoleOrder>(
    hierarchy: &mut O,
    alloc: Global,
    role: &Name,
    junior: &Name,
) -> Result<(), AllocError> {
    hierarchy.add_role(alloc, junior)?;
    hierarchy.add_role_with_pair(alloc, role, role, junior)
}

fn a_role_is_added_with_a_pair<O: RoleOrder + Drop>(rt: &impl Abort, alloc: Global) {
    let mut hierarchy: O = hierarchy_of(rt, alloc, &[("b", "c")]);
    let (a, b) = (name(rt, alloc, "a"), name(rt, alloc, "b"));
    add_above(&mut hierarchy, alloc, &a, &b).expect(rt, "memory");
    let declared = [("a", "b", Link::Declared), ("b", "c", Link::Declared)];
    assert_links(rt, alloc, &hierarchy, &declared);
    assert_links(rt, alloc, &hierarchy, &[("a", "c", Link::Inherited)]);
    assert_around(rt, alloc, &hierarchy, "a", &["a", "b", "c"], &["a"]);
    drop(hierarchy);
}

fn a_pair_that_is_not_declared_is_not_retracted<O: RoleOrder + Drop>(
    rt: &impl Abort,
    alloc: Global,
) {
    let mut hierarchy: O = hierarchy_of(rt, alloc, &[("b", "c"), ("a", "b")]);
    let before = copy_of(rt, alloc, &hierarchy);
    retract(rt, alloc, &mut hierarchy, "a", "c");
    retract(rt, alloc, &mut hierarchy, "b", "a");
    assert!(rt; hierarchy.same(&before));
    drop(hierarchy);
    drop(before);
}

fn a_copy_is_the_same_until_its_pairs_change<O: RoleOrder + Drop>(rt: &impl Abort, alloc: Global) {
    let hierarchy: O = hierarchy_of(rt, alloc, &TWO_PATHS);
    let mut copy = copy_of(rt, alloc, &hierarchy);
    assert!(rt; copy.same(&hierarchy));
    // What is inherited stays as it was.
    retract(rt, alloc, &mut copy, "a", "c");
    assert!(rt; !copy.same(&hierarchy));
    drop(hierarchy);
    drop(copy);
}

fn the_last_role_takes_the_place_of_a_removed_one<O: RoleOrder + Drop>(
    rt: &impl Abort,
    alloc: Global,
) {
    let mut hierarchy: O = hierarchy_of(rt, alloc, &[("b", "c"), ("a", "b"), ("d", "c")]);
    remove_role(rt, alloc, &mut hierarchy, "b");
    let kept = [("d", "c", Link::Declared), ("a", "c", Link::Absent)];
    assert_links(rt, alloc, &hierarchy, &kept);
    assert_around(rt, alloc, &hierarchy, "c", &["c"], &["c", "d"]);
    remove_role(rt, alloc, &mut hierarchy, "d");
    add_role(rt, alloc, &mut hierarchy, "d");
    assert_around(rt, alloc, &hierarchy, "d", &["d"], &["d"]);
    drop(hierarchy);
}

// A change, with the names of its roles.
#[derive(Clone, Copy)]
enum Ask {
    Add(&'static str),
    Remove(&'static str),
    Declare(&'static str, &'static str),
    Retract(&'static str, &'static str),
}

// The names of the roles of a change.
fn roles_of(ask: Ask) -> (&'static str, &'static str) {
    match ask {
        Ask::Add(role) | Ask::Remove(role) => (role, role),
        Ask::Declare(ascendant, descendant) | Ask::Retract(ascendant, descendant) => {
            (ascendant, descendant)
        }
    }
}

fn change_of<'a>(ask: Ask, first: &'a Name, second: &'a Name) -> Change<'a> {
    match ask {
        Ask::Add(_) => Change::AddRole { role: first },
        Ask::Remove(_) => Change::RemoveRole { role: first },
        Ask::Declare(_, _) => Change::Declare {
            ascendant: first,
            descendant: second,
        },
        Ask::Retract(_, _) => Change::Retract {
            ascendant: first,
            descendant: second,
        },
    }
}

// Makes one change.
fn run<O: RoleOrder>(rt: &impl Abort, alloc: Global, hierarchy: &mut O, ask: Ask) {
    let (first, second) = roles_of(ask);
    let (first, second) = (name(rt, alloc, first), name(rt, alloc, second));
    let changes = [change_of(ask, &first, &second)];
    run_order(alloc, hierarchy, &changes).expect(rt, "memory");
}

// Four roles, and two ways from a to d.
fn run_two_ways<O: RoleOrder>(rt: &impl Abort, alloc: Global, hierarchy: &mut O) {
    for role in ["a", "b", "c", "d"] {
        run(rt, alloc, hierarchy, Ask::Add(role));
    }
    for (ascendant, descendant) in [("a", "b"), ("a", "c"), ("b", "d"), ("c", "d")] {
        run(rt, alloc, hierarchy, Ask::Declare(ascendant, descendant));
    }
}

fn changes_are_made_in_order<O: RoleOrder + Drop>(rt: &impl Abort, alloc: Global) {
    let mut hierarchy = O::empty(alloc);
    run_two_ways(rt, alloc, &mut hierarchy);
    for (ask, b_of_a, d_of_a) in [
        (Ask::Retract("b", "d"), Link::Declared, Link::Inherited),
        (Ask::Remove("b"), Link::Absent, Link::Inherited),
        (Ask::Retract("c", "d"), Link::Absent, Link::Absent),
    ] {
        run(rt, alloc, &mut hierarchy, ask);
        let rows = [("a", "b", b_of_a), ("a", "d", d_of_a)];
        assert_links(rt, alloc, &hierarchy, &rows);
        assert_links(rt, alloc, &hierarchy, &[("b", "d", Link::Absent)]);
    }
    assert_links(rt, alloc, &hierarchy, &[("d", "d", Link::Inherited)]);
    drop(hierarchy);
}

fn changes_that_do_not_hold_are_passed_over<O: RoleOrder + Drop>(rt: &impl Abort, alloc: Global) {
    let mut hierarchy: O = hierarchy_of(rt, alloc, &TWO_PATHS);
    let before = copy_of(rt, alloc, &hierarchy);
    for ask in [
        Ask::Declare("c", "a"),
        Ask::Declare("a", "z"),
        Ask::Add("a"),
        Ask::Remove("z"),
        Ask::Retract("c", "a"),
    ] {
        run(rt, alloc, &mut hierarchy, ask);
    }
    assert!(rt; hierarchy.same(&before));
    drop(hierarchy);
    drop(before);
}

// Each rule, on one form of a hierarchy.
fn rules_of<O: RoleOrder + Drop>(rt: &impl Abort, alloc: Global) {
    among_no_roles_nothing_is_inherited::<O>(rt, alloc);
    a_role_inherits_itself_and_what_pairs_lead_to::<O>(rt, alloc);
    a_pair_is_declared_as_it_stands::<O>(rt, alloc);
    an_ascendant_has_a_descendant::<O>(rt, alloc);
    a_second_path_still_gives_what_one_gave::<O>(rt, alloc);
    juniors_and_seniors_are_listed::<O>(rt, alloc);
    juniors_are_added_to_names::<O>(rt, alloc);
    juniors_of_several_roles_are_gathered::<O>(rt, alloc);
    roles_that_pass_are_listed::<O>(rt, alloc);
    roles_in_a_circle_inherit_one_another::<O>(rt, alloc);
    a_role_is_removed_with_its_pairs::<O>(rt, alloc);
    a_role_that_is_there_is_not_added::<O>(rt, alloc);
    a_role_is_added_with_a_pair::<O>(rt, alloc);
    a_pair_that_is_not_declared_is_not_retracted::<O>(rt, alloc);
    a_copy_is_the_same_until_its_pairs_change::<O>(rt, alloc);
    the_last_role_takes_the_place_of_a_removed_one::<O>(rt, alloc);
    changes_are_made_in_order::<O>(rt, alloc);
    changes_that_do_not_hold_are_passed_over::<O>(rt, alloc);
}

#[test]
fn rules_of_rows_of_bits(rt: HostRuntime) -> Result<(), Fail> {
    rules_of::<BitOrder>(&rt, rt.alloc());
    Ok(())
}

#[test]
fn rules_of_lists(rt: HostRuntime) -> Result<(), Fail> {
    rules_of::<ListOrder>(&rt, rt.alloc());
    Ok(())
}

// Plans that the path from a to c that leads past b goes past d.
fn plan_a_way<'a>(
    rt: &impl Abort,
    alloc: Global,
    hierarchy: &mut BitOrder,
    a: &'a Name,
    b: &'a Name,
    c: &'a Name,
    d: &'a Name,
) -> Plan<'a>
    ensures { length result ≤ hierarchy.new.room }
{
    let changes = [
        Change::AddRole { role: d },
        Change::Declare {
            ascendant: a,
            descendant: d,
        },
        Change::Declare {
            ascendant: d,
            descendant: c,
        },
        Change::Declare {
            ascendant: c,
            descendant: a,
        },
        Change::Retract {
            ascendant: a,
            descendant: c,
        },
        Change::RemoveRole { role: b },
    ];
    hierarchy.plan(alloc, &changes).expect(rt, "memory")
}

// Plans it, and makes the changes where that is wanted.
fn go_past_d(rt: &impl Abort, alloc: Global, hierarchy: &mut BitOrder, is_made: bool) {
    let (a, b) = (name(rt, alloc, "a"), name(rt, alloc, "b"));
    let (c, d) = (name(rt, alloc, "c"), name(rt, alloc, "d"));
    let plan = plan_a_way(rt, alloc, hierarchy, &a, &b, &c, &d);
    if is_made {
        hierarchy.commit(plan);
    }
}

#[test]
fn a_plan_that_is_dropped_changes_nothing(rt: HostRuntime) {
    let alloc = rt.alloc();
    let mut hierarchy: BitOrder = hierarchy_of(&rt, alloc, &TWO_PATHS);
    let before = copy_of(&rt, alloc, &hierarchy);
    go_past_d(&rt, alloc, &mut hierarchy, false);
    assert!(rt; hierarchy.same(&before));
    drop(hierarchy);
    drop(before);
}

#[test]
fn planned_changes_are_made_in_order(rt: HostRuntime) {
    let alloc = rt.alloc();
    let mut hierarchy: BitOrder = hierarchy_of(&rt, alloc, &TWO_PATHS);
    go_past_d(&rt, alloc, &mut hierarchy, true);
    let rows = [
        ("a", "d", Link::Declared),
        ("d", "c", Link::Declared),
        // A pair that would close a circle is passed over, and the second path still gives what one gave.
        ("c", "a", Link::Absent),
        ("a", "c", Link::Inherited),
        ("a", "b", Link::Absent),
    ];
    assert_links(&rt, alloc, &hierarchy, &rows);
    assert_around(&rt, alloc, &hierarchy, "a", &["a", "c", "d"], &["a"]);
    drop(hierarchy);
}

// Seventy roles: their rows take more than one word.
fn add_seventy(rt: &impl Abort, alloc: Global, hierarchy: &mut BitOrder) {
    for at in 0..70u8 {
        let role = Name::read(alloc, &[b'r', b'0' + at / 10, b'0' + at % 10]).expect(rt, "a name");
        hierarchy.add_role(alloc, &role).expect(rt, "memory");
    }
}

#[test]
fn rows_grow_past_a_word(rt: HostRuntime) -> Result<(), Fail> {
    let alloc = rt.alloc();
    let mut hierarchy = BitOrder::empty(alloc);
    add_seventy(&rt, alloc, &mut hierarchy);
    for ask in [Ask::Declare("r00", "r69"), Ask::Declare("r69", "r63")] {
        run(&rt, alloc, &mut hierarchy, ask);
    }
    let rows = [
        ("r00", "r63", Link::Inherited),
        ("r63", "r00", Link::Absent),
        ("r64", "r69", Link::Absent),
    ];
    assert_links(&rt, alloc, &hierarchy, &rows);
    let row = ["r00", "r63", "r69"];
    assert_around(&rt, alloc, &hierarchy, "r63", &["r63"], &row);
    run(&rt, alloc, &mut hierarchy, Ask::Remove("r01"));
    assert_around(&rt, alloc, &hierarchy, "r00", &row, &["r00"]);
    drop(hierarchy);
    Ok(())
}
