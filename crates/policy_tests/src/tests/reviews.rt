//! Each review of `rbac_review` with ample memory. What is expected was written by hand.
use super::named::{assert_found, name, name_set, names};
use rbac_hierarchy::{Hierarchy, RoleOrder};
use rbac_review::{Parts, Subjects};
use rbac_rolesets::RoleSets;
use rbac_separation::SetTable;
use rbac_sessions::Sessions;
use rbac_terms::{PermissionSet, Separation, Vocabulary};
use std::alloc::{AllocError, Global};
use std::process::Abort;

fn assert_permissions(
    rt: &impl Abort,
    found: Result<PermissionSet, AllocError>,
    texts: &[(&str, &str)],
) {
    let permissions = found.expect(rt, "memory");
    assert_eq!(rt; permissions.permissions().len(), texts.len());
    for (permission, (operation, object)) in permissions.permissions().iter().zip(texts) {
        assert_eq!(rt; permission.0.as_bytes(), operation.as_bytes());
        assert_eq!(rt; permission.1.as_bytes(), object.as_bytes());
    }
    drop(permissions);
}

// What an office consists of, for its parts to be lent.
#[derive(Drop)]
struct Office {
    alloc: Global,
    sets: RoleSets,
    hierarchy: Hierarchy,
    static_sets: SetTable,
    dynamic_sets: SetTable,
    sessions: Sessions,
    vocabulary: Vocabulary,
}

fn parts(office: &Office) -> Parts<'_> {
    Parts {
        sets: &office.sets,
        hierarchy: &office.hierarchy,
        static_sets: &office.static_sets,
        dynamic_sets: &office.dynamic_sets,
        sessions: &office.sessions,
        vocabulary: &office.vocabulary,
    }
}

fn office_vocabulary(rt: &impl Abort, alloc: Global) -> Vocabulary {
    let mut permissions = Vec::new(alloc);
    for (operation, object) in [
        ("read", "ledger"),
        ("pay", "invoice"),
        ("approve", "invoice"),
    ] {
        permissions
            .push((name(rt, alloc, operation), name(rt, alloc, object)))
            .expect(rt, "memory");
    }
    Vocabulary::build(
        names(rt, alloc, &["read", "pay", "approve"]),
        names(rt, alloc, &["ledger", "invoice"]),
        permissions,
    )
    .expect(rt, "a vocabulary")
}

// boss is above payer and clerk, and Auditor stands alone.
fn office_hierarchy(rt: &impl Abort, alloc: Global) -> Hierarchy {
    let mut hierarchy = Hierarchy::empty(alloc);
    let auditor = name(rt, alloc, "Auditor");
    hierarchy.add_role(alloc, &auditor).expect(rt, "memory");
    let boss = name(rt, alloc, "boss");
    for junior in ["payer", "clerk"] {
        let junior = name(rt, alloc, junior);
        hierarchy.add_role(alloc, &boss).expect(rt, "memory");
        hierarchy.add_role(alloc, &junior).expect(rt, "memory");
        hierarchy
            .declare(alloc, &boss, &junior)
            .expect(rt, "memory");
    }
    hierarchy
}

fn grant(rt: &impl Abort, alloc: Global, sets: &mut RoleSets, texts: (&str, &str, &str)) {
    let granted = sets.grant(
        alloc,
        name(rt, alloc, texts.0),
        name(rt, alloc, texts.1),
        name(rt, alloc, texts.2),
    );
    granted.expect(rt, "memory");
}

fn assign(rt: &impl Abort, alloc: Global, sets: &mut RoleSets, user: &str, role: &str) {
    let assigned = sets.assign(name(rt, alloc, user), name(rt, alloc, role));
    assigned.expect(rt, "memory");
}

// ann is a boss, bob and Zed are clerks.
fn office_sets(rt: &impl Abort, alloc: Global) -> RoleSets {
    let mut sets = RoleSets::empty(alloc);
    for (user, role) in [("bob", "clerk"), ("ann", "boss"), ("Zed", "clerk")] {
        sets.add_user(name(rt, alloc, user)).expect(rt, "memory");
        assign(rt, alloc, &mut sets, user, role);
    }
    for texts in [
        ("read", "ledger", "clerk"),
        ("read", "ledger", "Auditor"),
        ("pay", "invoice", "payer"),
        ("approve", "invoice", "boss"),
    ] {
        grant(rt, alloc, &mut sets, texts);
    }
    sets
}

fn add_set(
    rt: &impl Abort,
    alloc: Global,
    sets: &mut SetTable,
    text: &str,
    roles: &[&str],
    n: u32,
) {
    let created = sets.create(name(rt, alloc, text), name_set(rt, alloc, roles), n);
    created.expect(rt, "memory");
}

fn office_static_sets(rt: &impl Abort, alloc: Global) -> SetTable {
    let mut sets = SetTable::empty(alloc);
    add_set(
        rt,
        alloc,
        &mut sets,
        "late",
        &["Auditor", "payer", "boss"],
        3,
    );
    add_set(rt, alloc, &mut sets, "duty", &["payer", "Auditor"], 2);
    sets
}

fn office_dynamic_sets(rt: &impl Abort, alloc: Global) -> SetTable {
    let mut sets = SetTable::empty(alloc);
    add_set(rt, alloc, &mut sets, "duty", &["payer", "clerk"], 2);
    sets
}

// In the session s1 of ann payer is active.
fn office_sessions(rt: &impl Abort, alloc: Global) -> Sessions {
    let mut sessions = Sessions::empty(alloc);
    let created = sessions.create(
        name(rt, alloc, "s1"),
        name(rt, alloc, "ann"),
        name_set(rt, alloc, &["payer"]),
    );
    created.expect(rt, "memory");
    sessions
}

fn small_office(rt: &impl Abort, alloc: Global) -> Office {
    Office {
        alloc,
        sets: office_sets(rt, alloc),
        hierarchy: office_hierarchy(rt, alloc),
        static_sets: office_static_sets(rt, alloc),
        dynamic_sets: office_dynamic_sets(rt, alloc),
        sessions: office_sessions(rt, alloc),
        vocabulary: office_vocabulary(rt, alloc),
    }
}

// What an office is asked of a user or of a role.
#[derive(Clone, Copy)]
enum Asked {
    AssignedUsers,
    AssignedRoles,
    AuthorizedUsers,
    AuthorizedRoles,
}

// Compares what is answered of the name.
fn expect_answer(rt: &impl Abort, office: &Office, asked: Asked, text: &str, wanted: &[&str]) {
    let parts = parts(office);
    let name = name(rt, office.alloc, text);
    let found = match asked {
        Asked::AssignedUsers => parts.assigned_users(office.alloc, &name),
        Asked::AssignedRoles => parts.assigned_roles(office.alloc, &name),
        Asked::AuthorizedUsers => parts.authorized_users(office.alloc, &name),
        Asked::AuthorizedRoles => parts.authorized_roles(office.alloc, &name),
    };
    assert_found(rt, found, wanted);
}

#[test]
fn assigned_users_and_roles_are_listed(rt: HostRuntime) {
    let office = small_office(&rt, rt.alloc());
    for (asked, text, wanted) in [
        (Asked::AssignedUsers, "clerk", ["Zed", "bob"].as_slice()),
        (Asked::AssignedUsers, "payer", &[]),
        (Asked::AssignedRoles, "ann", &["boss"]),
        (Asked::AssignedRoles, "zz", &[]),
    ] {
        expect_answer(&rt, &office, asked, text, wanted);
    }
    drop(office);
}

#[test]
fn authorized_users_and_roles_are_listed(rt: HostRuntime) {
    let office = small_office(&rt, rt.alloc());
    for (asked, text, wanted) in [
        (Asked::AuthorizedUsers, "payer", ["ann"].as_slice()),
        (Asked::AuthorizedUsers, "clerk", &["Zed", "ann", "bob"]),
        (Asked::AuthorizedRoles, "ann", &["boss", "clerk", "payer"]),
        (Asked::AuthorizedRoles, "bob", &["clerk"]),
    ] {
        expect_answer(&rt, &office, asked, text, wanted);
    }
    drop(office);
}

const ALL: [(&str, &str); 3] = [
    ("approve", "invoice"),
    ("pay", "invoice"),
    ("read", "ledger"),
];

fn expect_role_permissions(rt: &impl Abort, office: &Office, role: &str, texts: &[(&str, &str)]) {
    let role = name(rt, office.alloc, role);
    let found = parts(office).role_permissions(office.alloc, &role);
    assert_permissions(rt, found, texts);
}

fn expect_user_permissions(rt: &impl Abort, office: &Office, user: &str, texts: &[(&str, &str)]) {
    let user = name(rt, office.alloc, user);
    let found = parts(office).user_permissions(office.alloc, &user);
    assert_permissions(rt, found, texts);
}

#[test]
fn permissions_are_listed_with_inherited_ones(rt: HostRuntime) {
    let office = small_office(&rt, rt.alloc());
    expect_role_permissions(&rt, &office, "boss", &ALL);
    expect_role_permissions(&rt, &office, "payer", &[("pay", "invoice")]);
    expect_user_permissions(&rt, &office, "ann", &ALL);
    expect_user_permissions(&rt, &office, "bob", &[("read", "ledger")]);
    drop(office);
}

// Compares the roles that are active in a session, and its permissions.
fn expect_session(
    rt: &impl Abort,
    office: &Office,
    session: &str,
    roles: &[&str],
    texts: &[(&str, &str)],
) {
    let session = name(rt, office.alloc, session);
    assert_found(
        rt,
        parts(office).session_roles(office.alloc, &session),
        roles,
    );
    let permissions = parts(office).session_permissions(office.alloc, &session);
    assert_permissions(rt, permissions, texts);
}

#[test]
fn sessions_are_reviewed(rt: HostRuntime) {
    let office = small_office(&rt, rt.alloc());
    expect_session(&rt, &office, "s1", &["payer"], &[("pay", "invoice")]);
    expect_session(&rt, &office, "zz", &[], &[]);
    drop(office);
}

// Compares the operations on an object that a role has.
fn expect_role_operations(rt: &impl Abort, office: &Office, texts: (&str, &str), wanted: &[&str]) {
    let role = name(rt, office.alloc, texts.0);
    let object = name(rt, office.alloc, texts.1);
    let found = parts(office).role_operations_on_object(office.alloc, &role, &object);
    assert_found(rt, found, wanted);
}

fn expect_user_operations(rt: &impl Abort, office: &Office, texts: (&str, &str), wanted: &[&str]) {
    let user = name(rt, office.alloc, texts.0);
    let object = name(rt, office.alloc, texts.1);
    let found = parts(office).user_operations_on_object(office.alloc, &user, &object);
    assert_found(rt, found, wanted);
}

#[test]
fn operations_on_an_object_are_listed(rt: HostRuntime) {
    let office = small_office(&rt, rt.alloc());
    let both = ["approve", "pay"];
    expect_role_operations(&rt, &office, ("boss", "invoice"), &both);
    expect_role_operations(&rt, &office, ("payer", "ledger"), &[]);
    expect_user_operations(&rt, &office, ("ann", "ledger"), &["read"]);
    expect_user_operations(&rt, &office, ("bob", "invoice"), &[]);
    drop(office);
}

// Compares the users and the sessions that may perform an operation on an object.
fn expect_subjects(
    rt: &impl Abort,
    office: &Office,
    texts: (&str, &str),
    users: &[&str],
    sessions: &[&str],
) {
    let operation = name(rt, office.alloc, texts.0);
    let object = name(rt, office.alloc, texts.1);
    let found = parts(office).subjects(office.alloc, &operation, &object);
    let Subjects {
        users: may,
        sessions: may_in,
    } = found.expect(rt, "memory");
    assert_found(rt, Ok(may), users);
    assert_found(rt, Ok(may_in), sessions);
}

#[test]
fn who_may_is_listed(rt: HostRuntime) {
    let office = small_office(&rt, rt.alloc());
    let readers = ["Zed", "ann", "bob"];
    expect_subjects(&rt, &office, ("read", "ledger"), &readers, &[]);
    expect_subjects(&rt, &office, ("pay", "invoice"), &["ann"], &["s1"]);
    expect_subjects(&rt, &office, ("approve", "invoice"), &["ann"], &[]);
    expect_subjects(&rt, &office, ("read", "invoice"), &[], &[]);
    drop(office);
}

// Compares the roles of a set, and how many of them are too many.
fn expect_set(
    rt: &impl Abort,
    office: &Office,
    (kind, text): (Separation, &str),
    roles: &[&str],
    n: u32,
) {
    let set = name(rt, office.alloc, text);
    let listed = parts(office).role_set_roles(office.alloc, kind, &set);
    assert_found(rt, listed, roles);
    assert_eq!(rt; parts(office).role_set_cardinality(kind, &set), n);
}

fn expect_sets(rt: &impl Abort, office: &Office, kind: Separation, texts: &[&str]) {
    assert_found(rt, parts(office).role_sets(office.alloc, kind), texts);
}

#[test]
fn sets_of_separation_are_reviewed(rt: HostRuntime) {
    let office = small_office(&rt, rt.alloc());
    expect_sets(&rt, &office, Separation::Static, &["duty", "late"]);
    expect_sets(&rt, &office, Separation::Dynamic, &["duty"]);
    for (set, roles, n) in [
        (
            (Separation::Static, "duty"),
            ["Auditor", "payer"].as_slice(),
            2,
        ),
        (
            (Separation::Static, "late"),
            &["Auditor", "boss", "payer"],
            3,
        ),
        ((Separation::Dynamic, "late"), &[], 0),
    ] {
        expect_set(&rt, &office, set, roles, n);
    }
    drop(office);
}
