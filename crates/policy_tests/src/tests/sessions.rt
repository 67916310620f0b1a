//! Each public call of `rbac_sessions` with ample memory. What is expected was written by hand.
ghost use Rattle.std.specs.Prelude.{◌≤◌, length};
ghost use Rattle.std.specs.Ordering.{eq_by_cmp};
ghost use Rattle.rbac_terms.specs.Name.{name_cmp};

use super::named::{assert_names, name, name_set};
use rbac_sessions::{Change, Plan, Session, SessionTest, Sessions};
use rbac_terms::{Name, NameSet};
use sorted_keys::{Duplicate, Same};
use std::alloc::Global;
use std::process::Abort;

// The sessions of one owner.
#[derive(Drop)]
struct OwnedBy {
    owner: Name,
}

impl SessionTest for OwnedBy {
    ghost passes = { λ test _ owner _. eq_by_cmp name_cmp test.owner owner };

    fn test(&self, _session: &Name, owner: &Name, _roles: &NameSet) -> bool {
        self.owner.cmp(owner).is_eq()
    }
}

fn open(
    rt: &impl Abort,
    alloc: Global,
    sessions: &mut Sessions,
    session: &str,
    user: &str,
    roles: &[&str],
) {
    let session = name(rt, alloc, session);
    let user = name(rt, alloc, user);
    let roles = name_set(rt, alloc, roles);
    sessions.create(session, user, roles).expect(rt, "memory");
}

// s1 of alice as clerk, and s2 of bob as clerk and payer.
fn two_sessions(rt: &impl Abort, alloc: Global) -> Sessions {
    let mut sessions = Sessions::empty(alloc);
    open(rt, alloc, &mut sessions, "s2", "bob", &["payer", "clerk"]);
    open(rt, alloc, &mut sessions, "s1", "alice", &["clerk"]);
    sessions
}

fn assert_roles(
    rt: &impl Abort,
    alloc: Global,
    sessions: &Sessions,
    session: &str,
    roles: &[&str],
) {
    let session = name(rt, alloc, session);
    let active = sessions.roles(&session).expect(rt, "a session");
    assert_names(rt, active, roles);
}

fn assert_contains(rt: &impl Abort, alloc: Global, sessions: &Sessions, session: &str, is: bool) {
    assert_eq!(rt; sessions.contains(&name(rt, alloc, session)), is);
}

fn activating<'a>(session: &'a Name, role: &'a Name) -> Change<'a> {
    Change::Activate { session, role }
}

// Plans s3 of cleo as auditor, who then is a clerk too, as bob in s2 is an auditor.
fn plan_an_auditor(rt: &impl Abort, alloc: Global, sessions: &mut Sessions) -> Plan
    ensures { length result ≤ sessions.new.room }
{
    let (second, third) = (name(rt, alloc, "s2"), name(rt, alloc, "s3"));
    let (cleo, clerk) = (name(rt, alloc, "cleo"), name(rt, alloc, "clerk"));
    let (auditor, roles) = (
        name(rt, alloc, "auditor"),
        name_set(rt, alloc, &["auditor"]),
    );
    let changes = [
        Change::Create {
            session: &third,
            user: &cleo,
            roles: &roles,
        },
        activating(&third, &clerk),
        activating(&second, &auditor),
    ];
    sessions.plan(alloc, &changes).expect(rt, "memory")
}

#[test]
fn a_session_has_its_owner_and_its_roles(rt: HostRuntime) {
    let alloc = rt.alloc();
    let sessions = two_sessions(&rt, alloc);
    assert_contains(&rt, alloc, &sessions, "s1", true);
    assert_contains(&rt, alloc, &sessions, "s3", false);
    assert_roles(&rt, alloc, &sessions, "s1", &["clerk"]);
    assert_roles(&rt, alloc, &sessions, "s2", &["clerk", "payer"]);
    assert_eq!(rt; sessions.len(), 2);
    drop(sessions);
}

#[test]
fn a_session_is_got_by_its_name(rt: HostRuntime) {
    let alloc = rt.alloc();
    let sessions = two_sessions(&rt, alloc);
    let (second, third) = (name(&rt, alloc, "s2"), name(&rt, alloc, "s3"));
    let owner = sessions.owner(&second).expect(&rt, "a session");
    assert_eq!(rt; owner.as_bytes(), b"bob".as_slice());
    assert!(rt; sessions.owner(&third).is_none());
    assert!(rt; sessions.roles(&third).is_none());
    let session = sessions.get(&second).expect(&rt, "a session");
    assert_eq!(rt; session.active.len(), 2);
    assert!(rt; sessions.get(&third).is_none());
    drop(sessions);
}

#[test]
fn a_deleted_session_is_gone(rt: HostRuntime) {
    let alloc = rt.alloc();
    let mut sessions = two_sessions(&rt, alloc);
    sessions.delete(&name(&rt, alloc, "s3"));
    assert_eq!(rt; sessions.len(), 2);
    sessions.delete(&name(&rt, alloc, "s1"));
    assert_contains(&rt, alloc, &sessions, "s1", false);
    assert_contains(&rt, alloc, &sessions, "s2", true);
    drop(sessions);
}

#[test]
fn a_role_is_activated(rt: HostRuntime) {
    let alloc = rt.alloc();
    let mut sessions = two_sessions(&rt, alloc);
    for session in ["s1", "s3"] {
        let auditor = name(&rt, alloc, "auditor");
        let activated = sessions.activate(&name(&rt, alloc, session), auditor);
        activated.expect(&rt, "memory");
    }
    assert_eq!(rt; sessions.len(), 2);
    assert_roles(&rt, alloc, &sessions, "s1", &["auditor", "clerk"]);
    assert_roles(&rt, alloc, &sessions, "s2", &["clerk", "payer"]);
    drop(sessions);
}

#[test]
fn a_role_is_dropped(rt: HostRuntime) {
    let alloc = rt.alloc();
    let mut sessions = two_sessions(&rt, alloc);
    let clerk = name(&rt, alloc, "clerk");
    sessions.drop_role(&name(&rt, alloc, "s2"), &clerk);
    sessions.drop_role(&name(&rt, alloc, "s3"), &clerk);
    assert_eq!(rt; sessions.len(), 2);
    assert_roles(&rt, alloc, &sessions, "s1", &["clerk"]);
    assert_roles(&rt, alloc, &sessions, "s2", &["payer"]);
    drop(sessions);
}

#[test]
fn some_session_passes_a_test(rt: HostRuntime) {
    let alloc = rt.alloc();
    let sessions = two_sessions(&rt, alloc);
    for (owner, is) in [("alice", true), ("bob", true), ("clerk", false)] {
        let owner = name(&rt, alloc, owner);
        assert_eq!(rt; sessions.any(&OwnedBy { owner }), is);
    }
    drop(sessions);
}

#[test]
fn the_sessions_that_pass_a_test_are_deleted(rt: HostRuntime) {
    let alloc = rt.alloc();
    let mut sessions = two_sessions(&rt, alloc);
    sessions.delete_where(&OwnedBy {
        owner: name(&rt, alloc, "alice"),
    });
    assert_contains(&rt, alloc, &sessions, "s1", false);
    assert_contains(&rt, alloc, &sessions, "s2", true);
    drop(sessions);
}

#[test]
fn a_copy_is_the_same_until_it_is_changed(rt: HostRuntime) {
    let alloc = rt.alloc();
    let (second, clerk) = (name(&rt, alloc, "s2"), name(&rt, alloc, "clerk"));
    let sessions = two_sessions(&rt, alloc);
    let mut copy = sessions.copy().expect(&rt, "memory");
    assert!(rt; copy.same(&sessions));
    copy.drop_role(&second, &clerk);
    assert!(rt; !copy.same(&sessions));
    drop(copy);
    drop(sessions);
}

#[test]
fn one_session_is_copied_and_compared(rt: HostRuntime) {
    let alloc = rt.alloc();
    let session = Session {
        owner: name(&rt, alloc, "alice"),
        active: name_set(&rt, alloc, &["clerk"]),
    };
    let mut copy = session.duplicate().expect(&rt, "memory");
    assert!(rt; copy.same(&session));
    copy.active.remove(&name(&rt, alloc, "clerk"));
    assert!(rt; !copy.same(&session));
    drop(copy);
    drop(session);
}

#[test]
fn a_plan_changes_nothing_until_its_commit(rt: HostRuntime) {
    let alloc = rt.alloc();
    let mut sessions = two_sessions(&rt, alloc);
    let plan = plan_an_auditor(&rt, alloc, &mut sessions);
    assert_eq!(rt; sessions.len(), 2);
    assert_roles(&rt, alloc, &sessions, "s2", &["clerk", "payer"]);
    sessions.commit(plan);
    assert_roles(&rt, alloc, &sessions, "s2", &["auditor", "clerk", "payer"]);
    assert_roles(&rt, alloc, &sessions, "s3", &["auditor", "clerk"]);
    drop(sessions);
}
