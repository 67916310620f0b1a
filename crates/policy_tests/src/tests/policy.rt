//! Each public call of `rbac_decide` with ample memory, and the limits of roles and sets. What commands answer is played by the goldens.

use super::named::{assert_called, assert_found, name, name_set, names};
use rbac_decide::{Policy, Session, Subjects};
use rbac_terms::{
    Answer, Command, Denial, HierarchyKind, LentName, Name, Review, Separation, Vocabulary,
};
use std::alloc::Global;
use std::process::Abort;

// The words of a policy that may read ledgers, and nothing else.
fn words(rt: &impl Abort, alloc: Global) -> Vocabulary {
    let mut permissions = Vec::new(alloc);
    let read = (name(rt, alloc, "read"), name(rt, alloc, "ledger"));
    permissions.push(read).expect(rt, "memory");
    Vocabulary::build(
        names(rt, alloc, &["pay", "read"]),
        names(rt, alloc, &["ledger"]),
        permissions,
    )
    .expect(rt, "a vocabulary")
}

pub(super) fn founded(rt: &impl Abort, alloc: Global) -> Policy {
    Policy::found(alloc, words(rt, alloc))
}

// Applies a command, and compares its answer.
fn expect_answer(
    rt: &impl Abort,
    alloc: Global,
    policy: &mut Policy,
    command: Command,
    wanted: Answer,
) {
    let answer = policy.apply(alloc, &command).expect(rt, "memory");
    drop(command);
    assert!(rt; answer.same(&wanted));
    drop(answer);
    drop(wanted);
}

pub(super) fn expect_done(rt: &impl Abort, alloc: Global, policy: &mut Policy, command: Command) {
    expect_answer(rt, alloc, policy, command, Answer::Done);
}

pub(super) fn add_user(rt: &impl Abort, alloc: Global, policy: &mut Policy, user: &str) {
    let user = name(rt, alloc, user);
    expect_done(rt, alloc, policy, Command::AddUser { user });
}

pub(super) fn add_role(rt: &impl Abort, alloc: Global, policy: &mut Policy, role: &str) {
    let role = name(rt, alloc, role);
    expect_done(rt, alloc, policy, Command::AddRole { role });
}

pub(super) fn assign(rt: &impl Abort, alloc: Global, policy: &mut Policy, user: &str, role: &str) {
    let (user, role) = (name(rt, alloc, user), name(rt, alloc, role));
    expect_done(rt, alloc, policy, Command::AssignUser { user, role });
}

pub(super) fn grant(rt: &impl Abort, alloc: Global, policy: &mut Policy, role: &str) {
    let command = Command::GrantPermission {
        operation: name(rt, alloc, "read"),
        object: name(rt, alloc, "ledger"),
        role: name(rt, alloc, role),
    };
    expect_done(rt, alloc, policy, command);
}

pub(super) fn open_session(
    rt: &impl Abort,
    alloc: Global,
    policy: &mut Policy,
    session: &str,
    roles: &[&str],
) {
    let command = Command::CreateSession {
        user: name(rt, alloc, "ann"),
        session: name(rt, alloc, session),
        roles: name_set(rt, alloc, roles),
    };
    expect_done(rt, alloc, policy, command);
}

// Ann, a clerk, may read ledgers in her session s1, and not in s2.
fn a_clerk(rt: &impl Abort, alloc: Global) -> Policy {
    let mut policy = founded(rt, alloc);
    add_user(rt, alloc, &mut policy, "ann");
    add_role(rt, alloc, &mut policy, "clerk");
    assign(rt, alloc, &mut policy, "ann", "clerk");
    grant(rt, alloc, &mut policy, "clerk");
    open_session(rt, alloc, &mut policy, "s1", &["clerk"]);
    open_session(rt, alloc, &mut policy, "s2", &[]);
    policy
}

fn expect_access(
    rt: &impl Abort,
    alloc: Global,
    policy: &mut Policy,
    session: &str,
    wanted: Answer,
) {
    let command = Command::CheckAccess {
        session: name(rt, alloc, session),
        operation: name(rt, alloc, "read"),
        object: name(rt, alloc, "ledger"),
    };
    expect_answer(rt, alloc, policy, command, wanted);
}

#[test]
fn applies_changes_and_checks(rt: HostRuntime) {
    let mut policy = a_clerk(&rt, rt.alloc());
    policy.invariants();
    expect_access(&rt, rt.alloc(), &mut policy, "s1", Answer::Granted);
    expect_access(&rt, rt.alloc(), &mut policy, "s2", Answer::Refused);
    let denied = Answer::Denied(Denial::NoSession);
    expect_access(&rt, rt.alloc(), &mut policy, "zz", denied);
    drop(policy);
}

fn expect_review(
    rt: &impl Abort,
    alloc: Global,
    policy: &mut Policy,
    review: Review,
    wanted: Answer,
) {
    expect_answer(rt, alloc, policy, Command::Review(review), wanted);
}

// The users that are assigned clerks.
fn expect_clerks(rt: &impl Abort, alloc: Global, policy: &mut Policy, users: &[&str]) {
    let role = name(rt, alloc, "clerk");
    let wanted = Answer::Names(name_set(rt, alloc, users));
    expect_review(rt, alloc, policy, Review::AssignedUsers { role }, wanted);
}

#[test]
fn applies_reviews(rt: HostRuntime) {
    let mut policy = a_clerk(&rt, rt.alloc());
    expect_clerks(&rt, rt.alloc(), &mut policy, &["ann"]);
    let review = Review::RoleSetCardinality {
        kind: Separation::Static,
        set: name(&rt, rt.alloc(), "d"),
    };
    let denied = Answer::Denied(Denial::NoSet);
    expect_review(&rt, rt.alloc(), &mut policy, review, denied);
    drop(policy);
}

// Whether a check is answered so: granted or not, or the denial's number.
fn is_answered(answer: Result<bool, Denial>, wanted: Result<bool, u32>) -> bool {
    match (answer, wanted) {
        (Ok(granted), Ok(is_wanted)) => granted == is_wanted,
        (Err(denial), Err(number)) => denial.number() == number,
        _ => false,
    }
}

fn lent<'a>(rt: &impl Abort, text: &'a str) -> LentName<'a> {
    LentName::read(text.as_bytes()).expect(rt, "a name")
}

// By names, and by names whose bytes are lent.
fn expect_check(
    rt: &impl Abort,
    alloc: Global,
    policy: &Policy,
    words: [&str; 3],
    wanted: Result<bool, u32>,
) {
    let session = name(rt, alloc, words[0]);
    let operation = name(rt, alloc, words[1]);
    let object = name(rt, alloc, words[2]);
    let answer = policy.check(&session, &operation, &object);
    assert!(rt; is_answered(answer, wanted));
    let [session, operation, object] = words;
    let (session, operation) = (lent(rt, session), lent(rt, operation));
    let answer = policy.check(&session, &operation, &lent(rt, object));
    assert!(rt; is_answered(answer, wanted));
}

#[test]
fn checks_without_a_command(rt: HostRuntime) {
    let policy = a_clerk(&rt, rt.alloc());
    let copy = policy.copy().expect(&rt, "memory");
    for (words, wanted) in [
        (["s1", "read", "ledger"], Ok(true)),
        (["s2", "read", "ledger"], Ok(false)),
        (["zz", "fly", "moon"], Err(10)),
        (["s1", "fly", "moon"], Err(27)),
        (["s1", "read", "moon"], Err(28)),
    ] {
        expect_check(&rt, rt.alloc(), &policy, words, wanted);
        expect_check(&rt, rt.alloc(), &copy, words, wanted);
    }
    drop(policy);
    drop(copy);
}

// Compares the users and the sessions that may perform an operation on ledgers.
fn expect_subjects(
    rt: &impl Abort,
    alloc: Global,
    policy: &Policy,
    operation: &str,
    users: &[&str],
    sessions: &[&str],
) {
    let (operation, object) = (name(rt, alloc, operation), name(rt, alloc, "ledger"));
    let found = policy.subjects(alloc, &operation, &object);
    let found = found.expect(rt, "memory");
    let Subjects {
        users: told,
        sessions: others,
    } = found;
    assert_found(rt, Ok(told), users);
    assert_found(rt, Ok(others), sessions);
}

#[test]
fn who_may_is_listed_without_a_command(rt: HostRuntime) {
    let alloc = rt.alloc();
    let mut policy = a_clerk(&rt, alloc);
    expect_subjects(&rt, alloc, &policy, "read", &["ann"], &["s1"]);
    expect_subjects(&rt, alloc, &policy, "pay", &[], &[]);
    expect_subjects(&rt, alloc, &policy, "fly", &[], &[]);
    declare_boss(&rt, alloc, &mut policy);
    add_user(&rt, alloc, &mut policy, "bob");
    assign(&rt, alloc, &mut policy, "bob", "boss");
    expect_subjects(&rt, alloc, &policy, "read", &["ann", "bob"], &["s1"]);
    drop(policy);
}

fn declare_boss(rt: &impl Abort, alloc: Global, policy: &mut Policy) {
    let command = Command::AddAscendant {
        ascendant: name(rt, alloc, "boss"),
        descendant: name(rt, alloc, "clerk"),
    };
    expect_done(rt, alloc, policy, command);
}

fn expect_pairs(rt: &impl Abort, pairs: &[(Name, Name)], wanted: (&str, &str)) {
    assert_eq!(rt; pairs.len(), 1);
    for (first, second) in pairs {
        assert_eq!(rt; first.as_bytes(), wanted.0.as_bytes());
        assert_eq!(rt; second.as_bytes(), wanted.1.as_bytes());
    }
}

// The one grant, to clerks.
fn expect_grant(rt: &impl Abort, grants: &[((Name, Name), Name)]) {
    assert_eq!(rt; grants.len(), 1);
    for ((operation, object), role) in grants {
        assert_eq!(rt; operation.as_bytes(), "read".as_bytes());
        assert_eq!(rt; object.as_bytes(), "ledger".as_bytes());
        assert_eq!(rt; role.as_bytes(), "clerk".as_bytes());
    }
}

// Reading the ledger is granted to clerks, and not to bosses; paying it to nobody.
fn expect_granted(rt: &impl Abort, alloc: Global, policy: &Policy) {
    let (read, pay, ledger) = (
        name(rt, alloc, "read"),
        name(rt, alloc, "pay"),
        name(rt, alloc, "ledger"),
    );
    assert_called(rt, policy.granted_roles(&read, &ledger), &["clerk"]);
    assert_called(rt, policy.granted_roles(&pay, &ledger), &[]);
    let (clerk, boss) = (name(rt, alloc, "clerk"), name(rt, alloc, "boss"));
    assert!(rt; policy.is_granted(&read, &ledger, &clerk));
    assert!(rt; !policy.is_granted(&read, &ledger, &boss));
}

// The names of the sessions, and the roles that are active in the first.
fn expect_sessions(rt: &impl Abort, sessions: &[(Name, Session)]) {
    assert_eq!(rt; sessions.len(), 2);
    for ((session, state), wanted) in sessions.iter().zip([("s1", 1), ("s2", 0)]) {
        assert_eq!(rt; session.as_bytes(), wanted.0.as_bytes());
        assert_eq!(rt; state.owner.as_bytes(), "ann".as_bytes());
        assert_eq!(rt; state.active.len(), wanted.1);
    }
}

// The second session is lent by its place, and there is none behind it.
fn expect_second_session(rt: &impl Abort, policy: &Policy) {
    let entry = policy.session_at(1).expect(rt, "a session");
    assert_eq!(rt; entry.0.as_bytes(), "s2".as_bytes());
    assert_eq!(rt; entry.1.active.len(), 0);
    assert!(rt; policy.session_at(2).is_none());
}

#[test]
fn lends_what_it_holds(rt: HostRuntime) {
    let mut policy = a_clerk(&rt, rt.alloc());
    declare_boss(&rt, rt.alloc(), &mut policy);
    assert_called(&rt, policy.users(), &["ann"]);
    assert_called(&rt, policy.roles(), &["boss", "clerk"]);
    expect_pairs(&rt, policy.assignments(), ("ann", "clerk"));
    expect_pairs(&rt, policy.declarations(), ("boss", "clerk"));
    let grants = policy.grants(rt.alloc()).expect(&rt, "memory");
    expect_grant(&rt, &grants);
    drop(grants);
    expect_granted(&rt, rt.alloc(), &policy);
    let sessions = policy.sessions(rt.alloc()).expect(&rt, "memory");
    expect_sessions(&rt, &sessions);
    drop(sessions);
    expect_second_session(&rt, &policy);
    assert_eq!(rt; policy.session_count(), 2);
    let found = policy.session(&lent(&rt, "s1")).expect(&rt, "a session");
    assert_eq!(rt; found.owner.as_bytes(), "ann".as_bytes());
    let read = lent(&rt, "read");
    assert!(rt; policy.vocabulary().has_operation(&read));
    assert_eq!(rt; policy.separation_sets(Separation::Static).len(), 0);
    drop(policy);
}

#[test]
fn lends_sets_of_each_kind(rt: HostRuntime) {
    let mut policy = a_clerk(&rt, rt.alloc());
    declare_boss(&rt, rt.alloc(), &mut policy);
    let command = Command::CreateSet {
        kind: Separation::Dynamic,
        set: name(&rt, rt.alloc(), "d"),
        roles: name_set(&rt, rt.alloc(), &["boss", "clerk"]),
        n: 2,
    };
    expect_done(&rt, rt.alloc(), &mut policy, command);
    assert_eq!(rt; policy.separation_sets(Separation::Static).len(), 0);
    let sets = policy.separation_sets(Separation::Dynamic);
    assert_eq!(rt; sets.len(), 1);
    for (set, roles) in sets {
        assert_eq!(rt; set.as_bytes(), "d".as_bytes());
        assert_called(&rt, roles.roles.names(), &["boss", "clerk"]);
        assert_eq!(rt; roles.cardinality, 2);
    }
    drop(policy);
}

#[test]
fn tells_equal_policies(rt: HostRuntime) {
    let mut policy = a_clerk(&rt, rt.alloc());
    let copy = policy.copy().expect(&rt, "memory");
    assert!(rt; policy.same(&copy));
    open_session(&rt, rt.alloc(), &mut policy, "s3", &[]);
    assert!(rt; !policy.same(&copy));
    drop(policy);
    drop(copy);
}

fn add_numbered_role(rt: &impl Abort, alloc: Global, policy: &mut Policy, number: u32) {
    let role = format!(in alloc; "r{number}").expect(rt, "memory");
    add_role(rt, alloc, policy, role.as_str());
    drop(role);
}

#[test]
fn stops_at_the_limit_of_roles(rt: HostRuntime) {
    let mut policy = founded(&rt, rt.alloc());
    for number in 0..1024 {
        add_numbered_role(&rt, rt.alloc(), &mut policy, number);
    }
    let role = name(&rt, rt.alloc(), "r1024");
    let limit = Answer::Denied(Denial::Limit);
    expect_answer(
        &rt,
        rt.alloc(),
        &mut policy,
        Command::AddRole { role },
        limit,
    );
    drop(policy);
}

// The command that makes the set of this kind and number, of the roles a and b.
fn set_command(rt: &impl Abort, alloc: Global, kind: Separation, number: u32) -> Command {
    let set_name = format!(in alloc; "d{number}").expect(rt, "memory");
    Command::CreateSet {
        kind,
        set: name(rt, alloc, set_name.as_str()),
        roles: name_set(rt, alloc, &["a", "b"]),
        n: 2,
    }
}

// Makes as many sets of a kind as there may be, and one more.
fn expect_limit_of_sets(rt: &impl Abort, alloc: Global, policy: &mut Policy, kind: Separation) {
    for number in 0..256 {
        let command = set_command(rt, alloc, kind, number);
        expect_done(rt, alloc, policy, command);
    }
    let command = set_command(rt, alloc, kind, 256);
    let limit = Answer::Denied(Denial::Limit);
    expect_answer(rt, alloc, policy, command, limit);
}

#[test]
fn stops_at_the_limit_of_sets_of_each_kind(rt: HostRuntime) {
    let mut policy = founded(&rt, rt.alloc());
    add_role(&rt, rt.alloc(), &mut policy, "a");
    add_role(&rt, rt.alloc(), &mut policy, "b");
    expect_limit_of_sets(&rt, rt.alloc(), &mut policy, Separation::Static);
    expect_limit_of_sets(&rt, rt.alloc(), &mut policy, Separation::Dynamic);
    drop(policy);
}

// The static set d of three of a, b and c, and ann, who is assigned a.
pub(super) fn a_static_set(rt: &impl Abort, alloc: Global) -> Policy {
    let mut policy = founded(rt, alloc);
    add_user(rt, alloc, &mut policy, "ann");
    add_role(rt, alloc, &mut policy, "a");
    add_role(rt, alloc, &mut policy, "b");
    add_role(rt, alloc, &mut policy, "c");
    assign(rt, alloc, &mut policy, "ann", "a");
    let command = Command::CreateSet {
        kind: Separation::Static,
        set: name(rt, alloc, "d"),
        roles: name_set(rt, alloc, &["a", "b", "c"]),
        n: 3,
    };
    expect_done(rt, alloc, &mut policy, command);
    policy
}

pub(super) fn inherit(
    rt: &impl Abort,
    alloc: Global,
    policy: &mut Policy,
    ascendant: &str,
    descendant: &str,
) {
    let command = Command::AddInheritance {
        ascendant: name(rt, alloc, ascendant),
        descendant: name(rt, alloc, descendant),
    };
    expect_done(rt, alloc, policy, command);
}

fn deassign(rt: &impl Abort, alloc: Global, policy: &mut Policy, user: &str, role: &str) {
    let (user, role) = (name(rt, alloc, user), name(rt, alloc, role));
    expect_done(rt, alloc, policy, Command::DeassignUser { user, role });
}

// How many roles of d are counted for ann.
fn count(rt: &impl Abort, alloc: Global, policy: &Policy) -> u32 {
    let (set, user) = (name(rt, alloc, "d"), name(rt, alloc, "ann"));
    let number = policy.static_counts().get(&set, &user);
    drop(set);
    drop(user);
    number
}

#[test]
fn counts_of_static_sets_are_kept(rt: HostRuntime) {
    let alloc = rt.alloc();
    let mut policy = a_static_set(&rt, alloc);
    assert_eq!(rt; count(&rt, alloc, &policy), 1);
    inherit(&rt, alloc, &mut policy, "a", "b");
    assert_eq!(rt; count(&rt, alloc, &policy), 2);
    assign(&rt, alloc, &mut policy, "ann", "b");
    assert_eq!(rt; count(&rt, alloc, &policy), 2);
    deassign(&rt, alloc, &mut policy, "ann", "a");
    assert_eq!(rt; count(&rt, alloc, &policy), 1);
    drop(policy);
}

#[test]
fn what_a_pair_gives_is_counted_for_its_users(rt: HostRuntime) {
    let alloc = rt.alloc();
    let mut policy = a_static_set(&rt, alloc);
    inherit(&rt, alloc, &mut policy, "a", "b");
    let command = Command::AddInheritance {
        ascendant: name(&rt, alloc, "b"),
        descendant: name(&rt, alloc, "c"),
    };
    let denied = Answer::Denied(Denial::SsdViolated);
    expect_answer(&rt, alloc, &mut policy, command, denied);
    assert_eq!(rt; count(&rt, alloc, &policy), 2);
    drop(policy);
}

// Declares the pair of two roles, and compares the answer.
fn expect_pair(
    rt: &impl Abort,
    alloc: Global,
    policy: &mut Policy,
    pair: (&str, &str),
    wanted: Answer,
) {
    let (ascendant, descendant) = (name(rt, alloc, pair.0), name(rt, alloc, pair.1));
    let command = Command::AddInheritance {
        ascendant,
        descendant,
    };
    expect_answer(rt, alloc, policy, command, wanted);
}

// Roles a, b and c, and the pair of a and b.
fn three_roles(rt: &impl Abort, alloc: Global, kind: HierarchyKind) -> Policy {
    let mut policy = Policy::found(alloc, words(rt, alloc).with_hierarchy(kind));
    for role in ["a", "b", "c"] {
        add_role(rt, alloc, &mut policy, role);
    }
    expect_pair(rt, alloc, &mut policy, ("a", "b"), Answer::Done);
    policy
}

#[test]
fn a_limited_hierarchy_has_one_descendant_a_role(rt: HostRuntime) {
    let mut policy = three_roles(&rt, rt.alloc(), HierarchyKind::Limited);
    for (pair, wanted) in [
        (("a", "c"), Answer::Denied(Denial::Limited)),
        (("a", "b"), Answer::Denied(Denial::Inherits)),
        (("b", "a"), Answer::Denied(Denial::Cycle)),
        (("c", "b"), Answer::Done),
        (("a", "z"), Answer::Denied(Denial::NoRole)),
    ] {
        expect_pair(&rt, rt.alloc(), &mut policy, pair, wanted);
    }
    policy.invariants();
    drop(policy);
}

#[test]
fn a_general_hierarchy_has_any_number(rt: HostRuntime) {
    let mut policy = three_roles(&rt, rt.alloc(), HierarchyKind::General);
    expect_pair(&rt, rt.alloc(), &mut policy, ("a", "c"), Answer::Done);
    drop(policy);
}

#[test]
fn a_new_descendant_is_limited_and_a_new_ascendant_is_not(rt: HostRuntime) {
    let alloc = rt.alloc();
    let mut policy = three_roles(&rt, alloc, HierarchyKind::Limited);
    let command = Command::AddDescendant {
        ascendant: name(&rt, alloc, "a"),
        descendant: name(&rt, alloc, "d"),
    };
    let limited = Answer::Denied(Denial::Limited);
    expect_answer(&rt, alloc, &mut policy, command, limited);
    let command = Command::AddAscendant {
        ascendant: name(&rt, alloc, "e"),
        descendant: name(&rt, alloc, "a"),
    };
    expect_done(&rt, alloc, &mut policy, command);
    drop(policy);
}

#[test]
fn a_pair_that_went_makes_room_for_another(rt: HostRuntime) {
    let alloc = rt.alloc();
    let mut policy = three_roles(&rt, alloc, HierarchyKind::Limited);
    let command = Command::DeleteInheritance {
        ascendant: name(&rt, alloc, "a"),
        descendant: name(&rt, alloc, "b"),
    };
    expect_done(&rt, alloc, &mut policy, command);
    expect_pair(&rt, alloc, &mut policy, ("a", "c"), Answer::Done);
    drop(policy);
}
