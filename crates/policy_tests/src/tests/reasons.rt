//! Why access is granted and commands are denied, of small policies. What is expected was written by hand.

use super::dump::a_policy_of_each_thing;
use super::named::{assert_called, assert_found, name};
use super::policy::{add_role, add_user, assign, founded, grant, inherit, open_session};
use rbac_decide::{Hindrance, Named, Obstacle, Policy};
use rbac_reasons::{
    Explanation, Reason, assignments_of, declarations_of, hindrance, juniors, permissions_of,
    reason, seniors,
};
use rbac_terms::{Command, Denial, Separation};
use std::alloc::Global;
use std::process::Abort;

// Ann is a head, each head is a boss, each boss a clerk, and clerks may read ledgers. A head is active in s1, no role in s2.
fn a_line_of_roles(rt: &impl Abort, alloc: Global) -> Policy {
    let mut policy = founded(rt, alloc);
    add_user(rt, alloc, &mut policy, "ann");
    add_role(rt, alloc, &mut policy, "head");
    add_role(rt, alloc, &mut policy, "boss");
    add_role(rt, alloc, &mut policy, "clerk");
    assign(rt, alloc, &mut policy, "ann", "head");
    inherit(rt, alloc, &mut policy, "head", "boss");
    inherit(rt, alloc, &mut policy, "boss", "clerk");
    grant(rt, alloc, &mut policy, "clerk");
    open_session(rt, alloc, &mut policy, "s1", &["head"]);
    open_session(rt, alloc, &mut policy, "s2", &[]);
    policy
}

// Why a ledger may be read in the session.
fn reason_to_read(
    rt: &impl Abort,
    alloc: Global,
    policy: &Policy,
    session: &str,
) -> Option<Reason> {
    let (operation, object) = (name(rt, alloc, "read"), name(rt, alloc, "ledger"));
    let session = name(rt, alloc, session);
    reason(alloc, policy, &session, &operation, &object).expect(rt, "memory")
}

fn expect_no_reason(rt: &impl Abort, alloc: Global, policy: &Policy, session: &str) {
    let found = reason_to_read(rt, alloc, policy, session);
    assert!(rt; found.is_none());
    drop(found);
}

fn expect_reason(rt: &impl Abort, found: &Reason) {
    assert_eq!(rt; found.active.as_bytes(), "head".as_bytes());
    assert_called(rt, found.inherited.as_slice(), &["boss", "clerk"]);
    assert_eq!(rt; found.granted.as_bytes(), "clerk".as_bytes());
}

#[test]
fn the_roles_by_which_access_is_granted_are_told(rt: HostRuntime) {
    let policy = a_line_of_roles(&rt, rt.alloc());
    let found = reason_to_read(&rt, rt.alloc(), &policy, "s1").expect(&rt, "a reason");
    expect_reason(&rt, &found);
    drop(found);
    expect_no_reason(&rt, rt.alloc(), &policy, "s2");
    expect_no_reason(&rt, rt.alloc(), &policy, "zz");
    drop(policy);
}

// Compares the juniors and the seniors of a role, and how many permissions it is granted itself.
fn expect_around(
    rt: &impl Abort,
    alloc: Global,
    policy: &Policy,
    role: &str,
    wanted: (&[&str], &[&str], usize),
) {
    let role = name(rt, alloc, role);
    assert_found(rt, juniors(alloc, policy, &role), wanted.0);
    assert_found(rt, seniors(alloc, policy, &role), wanted.1);
    let own = permissions_of(alloc, policy, &role).expect(rt, "memory");
    assert_eq!(rt; own.permissions().len(), wanted.2);
    drop(own);
    drop(role);
}

// Compares how many roles a user is assigned, and how many one is declared above.
fn expect_lent(rt: &impl Abort, alloc: Global, policy: &Policy, user: &str, role: &str) {
    let (user, role) = (name(rt, alloc, user), name(rt, alloc, role));
    assert_eq!(rt; assignments_of(policy, &user).len(), 1);
    assert_eq!(rt; declarations_of(policy, &role).len(), 1);
    drop(user);
    drop(role);
}

#[test]
fn what_a_policy_holds_of_a_role_is_told(rt: HostRuntime) {
    let policy = a_line_of_roles(&rt, rt.alloc());
    let all = ["boss", "clerk", "head"];
    expect_around(&rt, rt.alloc(), &policy, "head", (&all, &["head"], 0));
    expect_around(
        &rt,
        rt.alloc(),
        &policy,
        "boss",
        (&["boss", "clerk"], &["boss", "head"], 0),
    );
    expect_around(&rt, rt.alloc(), &policy, "clerk", (&["clerk"], &all, 1));
    expect_around(&rt, rt.alloc(), &policy, "zz", (&[], &[], 0));
    expect_lent(&rt, rt.alloc(), &policy, "ann", "head");
    drop(policy);
}

// The name that is told first; of a pair that would close a cycle the descendant.
fn first_name<'a>(denial: Denial, named: Named<'a>) -> &'a [u8] {
    match named {
        Named::User { user } => user.as_bytes(),
        Named::Role { role } => role.as_bytes(),
        Named::Session { session } => session.as_bytes(),
        Named::Operation { operation } => operation.as_bytes(),
        Named::Object { object } => object.as_bytes(),
        Named::Permission { operation, .. } => operation.as_bytes(),
        Named::Grant { operation, .. } => operation.as_bytes(),
        Named::Assignment { user, .. } => user.as_bytes(),
        Named::Activation { session, .. } => session.as_bytes(),
        Named::Pair {
            ascendant,
            descendant,
        } => {
            if denial == Denial::Cycle {
                descendant.as_bytes()
            } else {
                ascendant.as_bytes()
            }
        }
        Named::Set { set, .. } => set.as_bytes(),
        Named::Member { set, .. } => set.as_bytes(),
        Named::Breach { holder, .. } => holder.as_bytes(),
        Named::Count { .. } => "".as_bytes(),
    }
}

// Compares the denial and the name that are told first.
fn expect_told(rt: &impl Abort, found: Hindrance<'_>, wanted: (&str, &str)) {
    assert_eq!(rt; found.denial.word(), wanted.0);
    assert_eq!(rt; first_name(found.denial, found.named), wanted.1.as_bytes());
}

// Decides a command, and compares the denial and the name that are told first: none where they are empty.
fn expect_decision(
    rt: &impl Abort,
    alloc: Global,
    policy: &Policy,
    command: &Command,
    wanted: (&str, &str),
) {
    match policy.decide(alloc, command) {
        Ok(_) => assert_eq!(rt; "", wanted.0),
        Err(Obstacle::Denied(found)) => expect_told(rt, found, wanted),
        Err(Obstacle::NoMemory) => assert_eq!(rt; "memory", wanted.0),
    }
}

// Asks what stands in the way of a command, and compares the denial and the name that are told first: none where they are empty.
// Answers what is told besides: two numbers of a breach and of a set that is badly sized, and of a cycle how many roles there are.
fn expect_hindrance(
    rt: &impl Abort,
    alloc: Global,
    policy: &Policy,
    command: &Command,
    wanted: (&str, &str),
) -> (usize, u32) {
    expect_decision(rt, alloc, policy, command, wanted);
    match hindrance(alloc, policy, command).expect(rt, "memory") {
        Some(found) => {
            expect_told(rt, found.hindrance, wanted);
            numbers(&found.explanation)
        }
        None => {
            assert_eq!(rt; "", wanted.0);
            (0, 0)
        }
    }
}

fn numbers(explanation: &Explanation) -> (usize, u32) {
    match explanation {
        Explanation::Nothing => (0, 0),
        Explanation::Breach { roles, number } => (roles.len(), *number),
        Explanation::Cycle { chain } => (chain.rest.len() + 1, 0),
        Explanation::Size { size, number } => (*size, *number),
    }
}

// The same of a command of which nothing is told besides.
fn expect_names(
    rt: &impl Abort,
    alloc: Global,
    policy: &Policy,
    command: Command,
    wanted: (&str, &str),
) {
    let besides = expect_hindrance(rt, alloc, policy, &command, wanted);
    assert!(rt; besides == (0, 0));
    drop(command);
}

// The same of a command of which numbers are told besides.
fn expect_numbers(
    rt: &impl Abort,
    alloc: Global,
    policy: &Policy,
    command: Command,
    wanted: (&str, &str, usize, u32),
) {
    let (denial, holder, count, number) = wanted;
    let besides = expect_hindrance(rt, alloc, policy, &command, (denial, holder));
    assert!(rt; besides == (count, number));
    drop(command);
}

// Ann and bob, two sessions of ann, and what else `a_policy_of_each_thing` holds.
fn a_policy_of_two(rt: &impl Abort, alloc: Global) -> Policy {
    let mut policy = a_policy_of_each_thing(rt, alloc);
    add_user(rt, alloc, &mut policy, "bob");
    policy
}

fn assign_command(rt: &impl Abort, alloc: Global, user: &str, role: &str) -> Command {
    let (user, role) = (name(rt, alloc, user), name(rt, alloc, role));
    Command::AssignUser { user, role }
}

fn pair_command(rt: &impl Abort, alloc: Global, ascendant: &str, descendant: &str) -> Command {
    Command::AddInheritance {
        ascendant: name(rt, alloc, ascendant),
        descendant: name(rt, alloc, descendant),
    }
}

fn active_command(rt: &impl Abort, alloc: Global, user: &str, role: &str) -> Command {
    Command::AddActiveRole {
        user: name(rt, alloc, user),
        session: name(rt, alloc, "s1"),
        role: name(rt, alloc, role),
    }
}

fn member_command(rt: &impl Abort, alloc: Global, set: &str, role: &str) -> Command {
    Command::AddRoleMember {
        kind: Separation::Static,
        set: name(rt, alloc, set),
        role: name(rt, alloc, role),
    }
}

fn check_command(rt: &impl Abort, alloc: Global, words: [&str; 3]) -> Command {
    Command::CheckAccess {
        session: name(rt, alloc, words[0]),
        operation: name(rt, alloc, words[1]),
        object: name(rt, alloc, words[2]),
    }
}

#[test]
fn what_is_missing_is_named(rt: HostRuntime) {
    let policy = a_policy_of_two(&rt, rt.alloc());
    for (user, role, wanted) in [
        ("eve", "a", ("NoUser", "eve")),
        ("bob", "z", ("NoRole", "z")),
        ("ann", "a", ("Assigned", "ann")),
        ("bob", "b", ("", "")),
    ] {
        let command = assign_command(&rt, rt.alloc(), user, role);
        expect_names(&rt, rt.alloc(), &policy, command, wanted);
    }
    for (words, wanted) in [
        (["zz", "read", "ledger"], ("NoSession", "zz")),
        (["s1", "fly", "ledger"], ("NoOperation", "fly")),
        (["s1", "read", "moon"], ("NoObject", "moon")),
        (["s1", "read", "ledger"], ("", "")),
    ] {
        let command = check_command(&rt, rt.alloc(), words);
        expect_names(&rt, rt.alloc(), &policy, command, wanted);
    }
    drop(policy);
}

#[test]
fn who_would_break_separation_is_named(rt: HostRuntime) {
    let policy = a_policy_of_two(&rt, rt.alloc());
    let command = assign_command(&rt, rt.alloc(), "ann", "c");
    let wanted = ("SsdViolated", "ann", 3, 3);
    expect_numbers(&rt, rt.alloc(), &policy, command, wanted);
    let command = pair_command(&rt, rt.alloc(), "b", "c");
    expect_numbers(&rt, rt.alloc(), &policy, command, wanted);
    let command = active_command(&rt, rt.alloc(), "ann", "a");
    let wanted = ("DsdViolated", "s1", 2, 2);
    expect_numbers(&rt, rt.alloc(), &policy, command, wanted);
    drop(policy);
}

#[test]
fn pairs_sets_and_sessions_that_hinder_are_named(rt: HostRuntime) {
    let policy = a_policy_of_two(&rt, rt.alloc());
    for (ascendant, descendant, wanted) in [
        ("a", "b", ("Inherits", "a")),
        ("z", "a", ("NoRole", "z")),
    ] {
        let command = pair_command(&rt, rt.alloc(), ascendant, descendant);
        expect_names(&rt, rt.alloc(), &policy, command, wanted);
    }
    let command = pair_command(&rt, rt.alloc(), "b", "a");
    expect_numbers(&rt, rt.alloc(), &policy, command, ("Cycle", "a", 2, 0));
    for (user, role, wanted) in [
        ("bob", "a", ("NotOwner", "ann")),
        ("ann", "c", ("NotAuthorized", "c")),
        ("ann", "b", ("RoleActive", "s1")),
    ] {
        let command = active_command(&rt, rt.alloc(), user, role);
        expect_names(&rt, rt.alloc(), &policy, command, wanted);
    }
    for (set, role, wanted) in [("zz", "a", ("NoSet", "zz")), ("d", "a", ("InSet", "d"))] {
        let command = member_command(&rt, rt.alloc(), set, role);
        expect_names(&rt, rt.alloc(), &policy, command, wanted);
    }
    let role = name(&rt, rt.alloc(), "a");
    let command = Command::DeleteRole { role };
    expect_names(&rt, rt.alloc(), &policy, command, ("RoleConstrained", "d"));
    drop(policy);
}
