//! Each public call of `rbac_rolesets` with ample memory. What is expected was written by hand.
ghost use Rattle.std.specs.Prelude.{◌≤◌, length};

use super::named::{After, assert_called, assert_found, name, names};
use rbac_rolesets::{Change, Plan, RoleSets};
use rbac_terms::{Name, Vocabulary};
use std::alloc::Global;
use std::process::Abort;

fn assign(rt: &impl Abort, alloc: Global, sets: &mut RoleSets, user: &str, role: &str) {
    let (user, role) = (name(rt, alloc, user), name(rt, alloc, role));
    sets.assign(user, role).expect(rt, "memory");
}

fn grant(rt: &impl Abort, alloc: Global, sets: &mut RoleSets, texts: [&str; 3]) {
    let (operation, object) = (name(rt, alloc, texts[0]), name(rt, alloc, texts[1]));
    let role = name(rt, alloc, texts[2]);
    sets.grant(alloc, operation, object, role)
        .expect(rt, "memory");
}

fn deassign(rt: &impl Abort, alloc: Global, sets: &mut RoleSets, user: &str, role: &str) {
    sets.deassign(&name(rt, alloc, user), &name(rt, alloc, role));
}

fn revoke(rt: &impl Abort, alloc: Global, sets: &mut RoleSets, texts: [&str; 3]) {
    let (operation, object) = (name(rt, alloc, texts[0]), name(rt, alloc, texts[1]));
    sets.revoke(&operation, &object, &name(rt, alloc, texts[2]));
}

fn remove_user(rt: &impl Abort, alloc: Global, sets: &mut RoleSets, user: &str) {
    sets.remove_user(&name(rt, alloc, user));
}

fn remove_role(rt: &impl Abort, alloc: Global, sets: &mut RoleSets, role: &str) {
    sets.remove_role(&name(rt, alloc, role));
}

fn fill(rt: &impl Abort, alloc: Global, sets: &mut RoleSets) {
    for user in ["bob", "alice"] {
        sets.add_user(name(rt, alloc, user)).expect(rt, "memory");
    }
    for role in ["payer", "clerk", "payer"] {
        sets.add_role(name(rt, alloc, role)).expect(rt, "memory");
    }
    for (user, role) in [("bob", "payer"), ("alice", "clerk"), ("bob", "clerk")] {
        assign(rt, alloc, sets, user, role);
    }
}

// alice is a clerk, bob a clerk and a payer. Clerks read the ledger, and payers pay invoices.
fn small_office(rt: &impl Abort, alloc: Global) -> RoleSets {
    let mut sets = RoleSets::empty(alloc);
    fill(rt, alloc, &mut sets);
    grant(rt, alloc, &mut sets, ["pay", "invoice", "payer"]);
    grant(rt, alloc, &mut sets, ["read", "ledger", "clerk"]);
    sets
}

// Plans that cleo becomes an auditor, who reads the ledger.
fn plan_an_auditor(rt: &impl Abort, alloc: Global, sets: &mut RoleSets) -> Plan
    ensures { length result ≤ sets.new.room }
{
    let (cleo, auditor) = (name(rt, alloc, "cleo"), name(rt, alloc, "auditor"));
    let (read, ledger) = (name(rt, alloc, "read"), name(rt, alloc, "ledger"));
    let changes = [
        Change::AddUser { user: &cleo },
        Change::AddRole { role: &auditor },
        Change::Assign {
            user: &cleo,
            role: &auditor,
        },
        Change::Grant {
            operation: &read,
            object: &ledger,
            role: &auditor,
        },
    ];
    sets.plan(alloc, &changes).expect(rt, "memory")
}

// The roles of users of the small office, and of one that it does not have.
const ASSIGNED: [(&str, &[&str]); 3] = [
    ("bob", &["clerk", "payer"]),
    ("alice", &["clerk"]),
    ("clerk", &[]),
];

fn is_user(rt: &impl Abort, alloc: Global, sets: &RoleSets, user: &str) -> bool {
    sets.has_user(&name(rt, alloc, user))
}

fn is_role(rt: &impl Abort, alloc: Global, sets: &RoleSets, role: &str) -> bool {
    sets.has_role(&name(rt, alloc, role))
}

fn is_assigned(rt: &impl Abort, alloc: Global, sets: &RoleSets, user: &str, role: &str) -> bool {
    sets.assigned(&name(rt, alloc, user), &name(rt, alloc, role))
}

// Whether reading the ledger is granted to the role.
fn reads(rt: &impl Abort, alloc: Global, sets: &RoleSets, role: &str) -> bool {
    let (read, ledger) = (name(rt, alloc, "read"), name(rt, alloc, "ledger"));
    sets.granted(&read, &ledger, &name(rt, alloc, role))
}

// The second names of pairs.
fn assert_seconds<T>(rt: &impl Abort, pairs: &[(T, Name)], texts: &[&str]) {
    assert_eq!(rt; pairs.len(), texts.len());
    for (pair, text) in pairs.iter().zip(texts) {
        assert_eq!(rt; pair.1.as_bytes(), text.as_bytes());
    }
}

fn assert_users(rt: &impl Abort, alloc: Global, sets: &RoleSets, role: &str, texts: &[&str]) {
    assert_found(rt, sets.users_of(alloc, &name(rt, alloc, role)), texts);
}

fn assert_roles(rt: &impl Abort, alloc: Global, sets: &RoleSets, user: &str, texts: &[&str]) {
    let user = name(rt, alloc, user);
    assert_seconds(rt, sets.assignments_of(&user), texts);
    assert_found(rt, sets.roles_of(alloc, &user), texts);
    drop(user);
}

fn assert_users_after(
    rt: &impl Abort,
    alloc: Global,
    sets: &RoleSets,
    before: &str,
    texts: &[&str],
) {
    let after = After {
        name: name(rt, alloc, before),
    };
    assert_found(rt, sets.users_where(alloc, &after), texts);
}

#[test]
fn users_and_roles_are_there(rt: HostRuntime) {
    let alloc = rt.alloc();
    let sets = small_office(&rt, alloc);
    assert_eq!(rt; sets.user_count(), 2);
    assert_called(&rt, sets.users(), &["alice", "bob"]);
    assert_eq!(rt; sets.role_count(), 2);
    assert!(rt; is_user(&rt, alloc, &sets, "bob"));
    assert!(rt; !is_user(&rt, alloc, &sets, "clerk"));
    assert!(rt; is_role(&rt, alloc, &sets, "clerk"));
    assert!(rt; !is_role(&rt, alloc, &sets, "bob"));
    drop(sets);
}

#[test]
fn roles_are_assigned(rt: HostRuntime) {
    let alloc = rt.alloc();
    let mut sets = small_office(&rt, alloc);
    assert!(rt; is_assigned(&rt, alloc, &sets, "bob", "payer"));
    assert!(rt; !is_assigned(&rt, alloc, &sets, "alice", "payer"));
    assert!(rt; !is_assigned(&rt, alloc, &sets, "payer", "bob"));
    deassign(&rt, alloc, &mut sets, "bob", "payer");
    assert!(rt; !is_assigned(&rt, alloc, &sets, "bob", "payer"));
    assert!(rt; is_assigned(&rt, alloc, &sets, "bob", "clerk"));
    drop(sets);
}

#[test]
fn permissions_are_granted(rt: HostRuntime) {
    let alloc = rt.alloc();
    let mut sets = small_office(&rt, alloc);
    assert!(rt; reads(&rt, alloc, &sets, "clerk"));
    assert!(rt; !reads(&rt, alloc, &sets, "payer"));
    revoke(&rt, alloc, &mut sets, ["ledger", "read", "clerk"]);
    assert!(rt; reads(&rt, alloc, &sets, "clerk"));
    revoke(&rt, alloc, &mut sets, ["read", "ledger", "clerk"]);
    assert!(rt; !reads(&rt, alloc, &sets, "clerk"));
    drop(sets);
}

#[test]
fn users_and_roles_are_gathered(rt: HostRuntime) {
    let alloc = rt.alloc();
    let sets = small_office(&rt, alloc);
    assert_users(&rt, alloc, &sets, "clerk", &["alice", "bob"]);
    assert_users(&rt, alloc, &sets, "payer", &["bob"]);
    assert_users(&rt, alloc, &sets, "bob", &[]);
    for (user, roles) in ASSIGNED {
        assert_roles(&rt, alloc, &sets, user, roles);
    }
    drop(sets);
}

// The users that a role after this one is assigned to.
fn assert_users_of_roles_after(
    rt: &impl Abort,
    alloc: Global,
    sets: &RoleSets,
    before: &str,
    texts: &[&str],
) {
    let after = After {
        name: name(rt, alloc, before),
    };
    assert_found(rt, sets.users_assigned(alloc, &after), texts);
}

#[test]
fn users_of_roles_that_pass_are_gathered(rt: HostRuntime) {
    let alloc = rt.alloc();
    let sets = small_office(&rt, alloc);
    assert_users_of_roles_after(&rt, alloc, &sets, "clerk", &["bob"]);
    assert_users_of_roles_after(&rt, alloc, &sets, "c", &["alice", "bob"]);
    assert_users_of_roles_after(&rt, alloc, &sets, "payer", &[]);
    drop(sets);
}

// Paying invoices and reading invoices, and no ledger.
fn invoice_vocabulary(rt: &impl Abort, alloc: Global) -> Vocabulary {
    let mut permissions = Vec::new(alloc);
    for operation in ["pay", "read"] {
        let permission = (name(rt, alloc, operation), name(rt, alloc, "invoice"));
        permissions.push(permission).expect(rt, "memory");
    }
    let operations = names(rt, alloc, &["pay", "read"]);
    let objects = names(rt, alloc, &["invoice"]);
    Vocabulary::build(operations, objects, permissions).expect(rt, "a vocabulary")
}

// What is granted to a role after this one.
fn assert_granted_after(
    rt: &impl Abort,
    alloc: Global,
    sets: &RoleSets,
    before: &str,
    operations: &[&str],
) {
    let vocabulary = invoice_vocabulary(rt, alloc);
    let after = After {
        name: name(rt, alloc, before),
    };
    let listed = sets.permissions_granted(alloc, &vocabulary, &after);
    let permissions = listed.expect(rt, "memory");
    assert_eq!(rt; permissions.permissions().len(), operations.len());
    for (permission, text) in permissions.permissions().iter().zip(operations) {
        assert_eq!(rt; permission.0.as_bytes(), text.as_bytes());
    }
    drop(permissions);
    drop(vocabulary);
}

#[test]
fn permissions_of_roles_that_pass_are_gathered(rt: HostRuntime) {
    let alloc = rt.alloc();
    let sets = small_office(&rt, alloc);
    assert_granted_after(&rt, alloc, &sets, "clerk", &["pay"]);
    assert_granted_after(&rt, alloc, &sets, "c", &["pay"]);
    assert_granted_after(&rt, alloc, &sets, "payer", &[]);
    drop(sets);
}

#[test]
fn users_that_pass_are_gathered(rt: HostRuntime) {
    let alloc = rt.alloc();
    let sets = small_office(&rt, alloc);
    assert_users_after(&rt, alloc, &sets, "alice", &["bob"]);
    assert_users_after(&rt, alloc, &sets, "aaron", &["alice", "bob"]);
    drop(sets);
}

fn assert_assignments(rt: &impl Abort, alloc: Global, sets: &RoleSets, user: &str, roles: &[&str]) {
    let name = name(rt, alloc, user);
    let pairs = sets.assignments_of(&name);
    for (assigned, _) in pairs {
        assert_eq!(rt; assigned.as_bytes(), user.as_bytes());
    }
    assert_seconds(rt, pairs, roles);
}

#[test]
fn assignments_are_lent(rt: HostRuntime) {
    let alloc = rt.alloc();
    let sets = small_office(&rt, alloc);
    for (user, roles) in ASSIGNED {
        assert_assignments(&rt, alloc, &sets, user, roles);
    }
    drop(sets);
}

fn assert_grants(
    rt: &impl Abort,
    alloc: Global,
    sets: &RoleSets,
    operation: &str,
    object: &str,
    roles: &[&str],
) {
    let (operation, object) = (name(rt, alloc, operation), name(rt, alloc, object));
    assert_called(rt, sets.grants_of(&operation, &object), roles);
}

#[test]
fn grants_are_lent(rt: HostRuntime) {
    let alloc = rt.alloc();
    let mut sets = small_office(&rt, alloc);
    grant(&rt, alloc, &mut sets, ["read", "ledger", "auditor"]);
    assert_grants(&rt, alloc, &sets, "read", "ledger", &["auditor", "clerk"]);
    assert_grants(&rt, alloc, &sets, "pay", "invoice", &["payer"]);
    assert_grants(&rt, alloc, &sets, "ledger", "read", &[]);
    drop(sets);
}

#[test]
fn a_user_is_removed_with_its_roles(rt: HostRuntime) {
    let alloc = rt.alloc();
    let mut sets = small_office(&rt, alloc);
    for user in ["bob", "clerk"] {
        remove_user(&rt, alloc, &mut sets, user);
    }
    assert_eq!(rt; sets.user_count(), 1);
    assert_roles(&rt, alloc, &sets, "bob", &[]);
    assert_roles(&rt, alloc, &sets, "alice", &["clerk"]);
    drop(sets);
}

#[test]
fn a_role_is_removed_with_its_users_and_permissions(rt: HostRuntime) {
    let alloc = rt.alloc();
    let mut sets = small_office(&rt, alloc);
    remove_role(&rt, alloc, &mut sets, "clerk");
    remove_role(&rt, alloc, &mut sets, "bob");
    assert_eq!(rt; sets.role_count(), 1);
    assert!(rt; !reads(&rt, alloc, &sets, "clerk"));
    assert_roles(&rt, alloc, &sets, "bob", &["payer"]);
    assert_users(&rt, alloc, &sets, "clerk", &[]);
    drop(sets);
}

#[test]
fn a_plan_changes_nothing_until_its_commit(rt: HostRuntime) {
    let alloc = rt.alloc();
    let mut sets = small_office(&rt, alloc);
    let plan = plan_an_auditor(&rt, alloc, &mut sets);
    assert_eq!(rt; (sets.user_count(), sets.role_count()), (2, 2));
    sets.commit(plan);
    assert_called(&rt, sets.users(), &["alice", "bob", "cleo"]);
    assert!(rt; is_role(&rt, alloc, &sets, "auditor"));
    assert!(rt; is_assigned(&rt, alloc, &sets, "cleo", "auditor"));
    assert!(rt; reads(&rt, alloc, &sets, "auditor"));
    drop(sets);
}

#[test]
fn a_copy_is_the_same_until_it_is_changed(rt: HostRuntime) {
    let alloc = rt.alloc();
    let sets = small_office(&rt, alloc);
    let mut copy = sets.copy().expect(&rt, "memory");
    assert!(rt; copy.same(&sets));
    let added = copy.add_user(name(&rt, alloc, "carol"));
    assert!(rt; added.is_ok());
    assert!(rt; !copy.same(&sets));
    drop(copy);
    drop(sets);
}

// Plans that two roles more read the ledger.
fn plan_two_grants(rt: &impl Abort, alloc: Global, sets: &mut RoleSets) -> Plan
    ensures { length result ≤ sets.new.room }
{
    let (read, ledger) = (name(rt, alloc, "read"), name(rt, alloc, "ledger"));
    let (payer, auditor) = (name(rt, alloc, "payer"), name(rt, alloc, "auditor"));
    let changes = [
        Change::Grant {
            operation: &read,
            object: &ledger,
            role: &payer,
        },
        Change::Grant {
            operation: &read,
            object: &ledger,
            role: &auditor,
        },
    ];
    sets.plan(alloc, &changes).expect(rt, "memory")
}

#[test]
fn a_plan_may_grant_a_permission_twice(rt: HostRuntime) {
    let alloc = rt.alloc();
    let mut sets = small_office(&rt, alloc);
    let plan = plan_two_grants(&rt, alloc, &mut sets);
    sets.commit(plan);
    let readers = ["auditor", "clerk", "payer"];
    assert_grants(&rt, alloc, &sets, "read", "ledger", &readers);
    drop(sets);
}
