//! A policy's commands, asked for again where a growth is refused: one of each section, and what a refusal leaves. With ample memory each
//! goes well at once; `bench/hostile/refuse_each_growth` runs these tests with each growth refused in turn.

use rbac_decide::Policy;
use rbac_dump::commands_of;
use rbac_terms::{
    Answer, Command, Denial, Name, NameSet, Review, Separation, Vocabulary, VocabularyRefusal,
};
use std::alloc::Global;
use std::process::Abort;

fn name(rt: &impl Abort, alloc: Global, text: &str) -> Name {
    match Name::read(alloc, text.as_bytes()) {
        Ok(name) => name,
        Err(_) => Name::read(alloc, text.as_bytes()).expect(rt, "a name"),
    }
}

fn name_set(rt: &impl Abort, alloc: Global, texts: &[&str]) -> NameSet {
    let mut set = NameSet::new(alloc);
    for text in texts {
        if set.add(name(rt, alloc, text)).is_err() {
            let again = name(rt, alloc, text);
            set.add(again).expect(rt, "memory");
        }
    }
    set
}

// The vector of one name.
fn only(rt: &impl Abort, alloc: Global, text: &str) -> Vec<Name> {
    let mut names = match Vec::with_capacity(alloc, 1) {
        Ok(names) => names,
        Err(_) => Vec::with_capacity(alloc, 1).expect(rt, "memory"),
    };
    names.push(name(rt, alloc, text)).expect(rt, "room");
    names
}

// The vector of one permission.
fn only_permission(rt: &impl Abort, alloc: Global) -> Vec<(Name, Name)> {
    let mut pairs = match Vec::with_capacity(alloc, 1) {
        Ok(pairs) => pairs,
        Err(_) => Vec::with_capacity(alloc, 1).expect(rt, "memory"),
    };
    let permission = (name(rt, alloc, "read"), name(rt, alloc, "ledger"));
    pairs.push(permission).expect(rt, "room");
    pairs
}

fn vocabulary(rt: &impl Abort, alloc: Global) -> Result<Vocabulary, VocabularyRefusal> {
    let operations = only(rt, alloc, "read");
    let objects = only(rt, alloc, "ledger");
    Vocabulary::build(operations, objects, only_permission(rt, alloc))
}

// The policy that may read ledgers, and nothing else.
fn founded(rt: &impl Abort, alloc: Global) -> Policy {
    Policy::found(alloc, vocabulary(rt, alloc).expect(rt, "a vocabulary"))
}

fn copied(rt: &impl Abort, policy: &Policy) -> Policy {
    match policy.copy() {
        Ok(copy) => copy,
        Err(_) => policy.copy().expect(rt, "memory"),
    }
}

// Applies a command, again where a growth is refused, which leaves the policy as it was before.
fn applied(
    rt: &impl Abort,
    alloc: Global,
    policy: &mut Policy,
    before: &Policy,
    command: &Command,
) -> Answer {
    match policy.apply(alloc, command) {
        Ok(answer) => answer,
        Err(_) => {
            assert!(rt; policy.same(before));
            policy.apply(alloc, command).expect(rt, "memory")
        }
    }
}

// Applies a command, and compares its answer.
fn expect_answer(
    rt: &impl Abort,
    alloc: Global,
    policy: &mut Policy,
    command: Command,
    wanted: Answer,
) {
    let before = copied(rt, policy);
    let answer = applied(rt, alloc, policy, &before, &command);
    drop(before);
    drop(command);
    assert!(rt; answer.same(&wanted));
    drop(answer);
    drop(wanted);
}

fn expect_done(rt: &impl Abort, alloc: Global, policy: &mut Policy, command: Command) {
    expect_answer(rt, alloc, policy, command, Answer::Done);
}

fn add_user(rt: &impl Abort, alloc: Global, policy: &mut Policy) {
    let user = name(rt, alloc, "ann");
    expect_done(rt, alloc, policy, Command::AddUser { user });
}

fn add_role(rt: &impl Abort, alloc: Global, policy: &mut Policy, role: &str) {
    let role = name(rt, alloc, role);
    expect_done(rt, alloc, policy, Command::AddRole { role });
}

fn assign(rt: &impl Abort, alloc: Global, policy: &mut Policy, role: &str, wanted: Answer) {
    let (user, role) = (name(rt, alloc, "ann"), name(rt, alloc, role));
    let command = Command::AssignUser { user, role };
    expect_answer(rt, alloc, policy, command, wanted);
}

fn grant(rt: &impl Abort, alloc: Global, policy: &mut Policy, role: &str) {
    let command = Command::GrantPermission {
        operation: name(rt, alloc, "read"),
        object: name(rt, alloc, "ledger"),
        role: name(rt, alloc, role),
    };
    expect_done(rt, alloc, policy, command);
}

// Ann is a clerk, who may read ledgers.
fn a_clerk(rt: &impl Abort, alloc: Global) -> Policy {
    let mut policy = founded(rt, alloc);
    add_user(rt, alloc, &mut policy);
    add_role(rt, alloc, &mut policy, "clerk");
    assign(rt, alloc, &mut policy, "clerk", Answer::Done);
    grant(rt, alloc, &mut policy, "clerk");
    policy
}

fn deassign(rt: &impl Abort, alloc: Global, policy: &mut Policy) {
    let (user, role) = (name(rt, alloc, "ann"), name(rt, alloc, "clerk"));
    expect_done(rt, alloc, policy, Command::DeassignUser { user, role });
}

fn revoke(rt: &impl Abort, alloc: Global, policy: &mut Policy) {
    let command = Command::RevokePermission {
        operation: name(rt, alloc, "read"),
        object: name(rt, alloc, "ledger"),
        role: name(rt, alloc, "clerk"),
    };
    expect_done(rt, alloc, policy, command);
}

#[test]
fn users_roles_and_permissions(rt: HostRuntime) {
    let alloc = rt.alloc();
    let mut policy = a_clerk(&rt, alloc);
    deassign(&rt, alloc, &mut policy);
    revoke(&rt, alloc, &mut policy);
    let role = name(&rt, alloc, "clerk");
    expect_done(&rt, alloc, &mut policy, Command::DeleteRole { role });
    let user = name(&rt, alloc, "ann");
    expect_done(&rt, alloc, &mut policy, Command::DeleteUser { user });
    let empty = founded(&rt, alloc);
    assert!(rt; policy.same(&empty));
    drop(empty);
    drop(policy);
}

// The most bytes of a command's text that can be read.
const ROOM: usize = 65_536;

fn dumped(rt: &impl Abort, alloc: Global, policy: &Policy) -> Vec<Command> {
    match commands_of(alloc, policy, ROOM) {
        Ok(commands) => commands,
        Err(_) => commands_of(alloc, policy, ROOM).expect(rt, "memory"),
    }
}

#[test]
fn dumps(rt: HostRuntime) {
    let alloc = rt.alloc();
    let policy = a_clerk(&rt, alloc);
    let commands = dumped(&rt, alloc, &policy);
    assert_eq!(rt; commands.len(), 4);
    drop(commands);
    drop(policy);
}

fn declare(rt: &impl Abort, alloc: Global, policy: &mut Policy, ascendant: &str, descendant: &str) {
    let command = Command::AddInheritance {
        ascendant: name(rt, alloc, ascendant),
        descendant: name(rt, alloc, descendant),
    };
    expect_done(rt, alloc, policy, command);
}

fn take_back(
    rt: &impl Abort,
    alloc: Global,
    policy: &mut Policy,
    ascendant: &str,
    descendant: &str,
) {
    let command = Command::DeleteInheritance {
        ascendant: name(rt, alloc, ascendant),
        descendant: name(rt, alloc, descendant),
    };
    expect_done(rt, alloc, policy, command);
}

// A new role above clerks, and one below them.
fn add_above_and_below(rt: &impl Abort, alloc: Global, policy: &mut Policy) {
    let command = Command::AddAscendant {
        ascendant: name(rt, alloc, "head"),
        descendant: name(rt, alloc, "clerk"),
    };
    expect_done(rt, alloc, policy, command);
    let command = Command::AddDescendant {
        ascendant: name(rt, alloc, "clerk"),
        descendant: name(rt, alloc, "guest"),
    };
    expect_done(rt, alloc, policy, command);
}

fn expect_review(
    rt: &impl Abort,
    alloc: Global,
    policy: &mut Policy,
    review: Review,
    wanted: Answer,
) {
    expect_answer(rt, alloc, policy, Command::Review(review), wanted);
}

// The roles that ann is authorized for.
fn expect_authorized(rt: &impl Abort, alloc: Global, policy: &mut Policy, roles: &[&str]) {
    let user = name(rt, alloc, "ann");
    let wanted = Answer::Names(name_set(rt, alloc, roles));
    expect_review(rt, alloc, policy, Review::AuthorizedRoles { user }, wanted);
}

#[test]
fn the_hierarchy(rt: HostRuntime) {
    let alloc = rt.alloc();
    let mut policy = a_clerk(&rt, alloc);
    add_above_and_below(&rt, alloc, &mut policy);
    add_role(&rt, alloc, &mut policy, "intern");
    declare(&rt, alloc, &mut policy, "guest", "intern");
    expect_authorized(&rt, alloc, &mut policy, &["clerk", "guest", "intern"]);
    take_back(&rt, alloc, &mut policy, "clerk", "guest");
    expect_authorized(&rt, alloc, &mut policy, &["clerk"]);
    drop(policy);
}

// A set of clerks and cashiers, of whom a user may be one.
fn create_set(rt: &impl Abort, alloc: Global, policy: &mut Policy, kind: Separation) {
    let command = Command::CreateSet {
        kind,
        set: name(rt, alloc, "duty"),
        roles: name_set(rt, alloc, &["cashier", "clerk"]),
        n: 2,
    };
    expect_done(rt, alloc, policy, command);
}

fn join_set(rt: &impl Abort, alloc: Global, policy: &mut Policy, kind: Separation) {
    let command = Command::AddRoleMember {
        kind,
        set: name(rt, alloc, "duty"),
        role: name(rt, alloc, "auditor"),
    };
    expect_done(rt, alloc, policy, command);
}

fn leave_set(rt: &impl Abort, alloc: Global, policy: &mut Policy, kind: Separation) {
    let command = Command::DeleteRoleMember {
        kind,
        set: name(rt, alloc, "duty"),
        role: name(rt, alloc, "auditor"),
    };
    expect_done(rt, alloc, policy, command);
}

fn set_cardinality(rt: &impl Abort, alloc: Global, policy: &mut Policy, kind: Separation, n: u32) {
    let set = name(rt, alloc, "duty");
    let command = Command::SetCardinality { kind, set, n };
    expect_done(rt, alloc, policy, command);
}

fn delete_set(rt: &impl Abort, alloc: Global, policy: &mut Policy, kind: Separation) {
    let set = name(rt, alloc, "duty");
    expect_done(rt, alloc, policy, Command::DeleteSet { kind, set });
}

// Ann is a clerk, and there are cashiers and auditors.
fn an_office(rt: &impl Abort, alloc: Global) -> Policy {
    let mut policy = a_clerk(rt, alloc);
    add_role(rt, alloc, &mut policy, "cashier");
    add_role(rt, alloc, &mut policy, "auditor");
    policy
}

#[test]
fn static_sets(rt: HostRuntime) {
    let alloc = rt.alloc();
    let kind = Separation::Static;
    let mut policy = an_office(&rt, alloc);
    create_set(&rt, alloc, &mut policy, kind);
    join_set(&rt, alloc, &mut policy, kind);
    set_cardinality(&rt, alloc, &mut policy, kind, 3);
    assign(&rt, alloc, &mut policy, "cashier", Answer::Done);
    let denied = Answer::Denied(Denial::SsdViolated);
    assign(&rt, alloc, &mut policy, "auditor", denied);
    delete_set(&rt, alloc, &mut policy, kind);
    assign(&rt, alloc, &mut policy, "auditor", Answer::Done);
    drop(policy);
}

#[test]
fn static_sets_that_shrink(rt: HostRuntime) {
    let alloc = rt.alloc();
    let kind = Separation::Static;
    let mut policy = an_office(&rt, alloc);
    create_set(&rt, alloc, &mut policy, kind);
    join_set(&rt, alloc, &mut policy, kind);
    let denied = Answer::Denied(Denial::SsdViolated);
    assign(&rt, alloc, &mut policy, "auditor", denied);
    leave_set(&rt, alloc, &mut policy, kind);
    assign(&rt, alloc, &mut policy, "auditor", Answer::Done);
    drop(policy);
}

fn open_session(rt: &impl Abort, alloc: Global, policy: &mut Policy, roles: &[&str]) {
    let command = Command::CreateSession {
        user: name(rt, alloc, "ann"),
        session: name(rt, alloc, "s1"),
        roles: name_set(rt, alloc, roles),
    };
    expect_done(rt, alloc, policy, command);
}

fn activate(rt: &impl Abort, alloc: Global, policy: &mut Policy, role: &str, wanted: Answer) {
    let command = Command::AddActiveRole {
        user: name(rt, alloc, "ann"),
        session: name(rt, alloc, "s1"),
        role: name(rt, alloc, role),
    };
    expect_answer(rt, alloc, policy, command, wanted);
}

#[test]
fn dynamic_sets(rt: HostRuntime) {
    let alloc = rt.alloc();
    let kind = Separation::Dynamic;
    let mut policy = an_office(&rt, alloc);
    assign(&rt, alloc, &mut policy, "cashier", Answer::Done);
    create_set(&rt, alloc, &mut policy, kind);
    join_set(&rt, alloc, &mut policy, kind);
    open_session(&rt, alloc, &mut policy, &["clerk"]);
    let denied = Answer::Denied(Denial::DsdViolated);
    activate(&rt, alloc, &mut policy, "cashier", denied);
    leave_set(&rt, alloc, &mut policy, kind);
    delete_set(&rt, alloc, &mut policy, kind);
    activate(&rt, alloc, &mut policy, "cashier", Answer::Done);
    drop(policy);
}

fn deactivate(rt: &impl Abort, alloc: Global, policy: &mut Policy) {
    let command = Command::DropActiveRole {
        user: name(rt, alloc, "ann"),
        session: name(rt, alloc, "s1"),
        role: name(rt, alloc, "clerk"),
    };
    expect_done(rt, alloc, policy, command);
}

fn close_session(rt: &impl Abort, alloc: Global, policy: &mut Policy) {
    let (user, session) = (name(rt, alloc, "ann"), name(rt, alloc, "s1"));
    expect_done(rt, alloc, policy, Command::DeleteSession { user, session });
}

fn expect_access(rt: &impl Abort, alloc: Global, policy: &mut Policy, wanted: Answer) {
    let command = Command::CheckAccess {
        session: name(rt, alloc, "s1"),
        operation: name(rt, alloc, "read"),
        object: name(rt, alloc, "ledger"),
    };
    expect_answer(rt, alloc, policy, command, wanted);
}

#[test]
fn sessions_and_checks(rt: HostRuntime) {
    let alloc = rt.alloc();
    let mut policy = a_clerk(&rt, alloc);
    open_session(&rt, alloc, &mut policy, &[]);
    expect_access(&rt, alloc, &mut policy, Answer::Refused);
    activate(&rt, alloc, &mut policy, "clerk", Answer::Done);
    expect_access(&rt, alloc, &mut policy, Answer::Granted);
    deactivate(&rt, alloc, &mut policy);
    expect_access(&rt, alloc, &mut policy, Answer::Refused);
    close_session(&rt, alloc, &mut policy);
    let denied = Answer::Denied(Denial::NoSession);
    expect_access(&rt, alloc, &mut policy, denied);
    drop(policy);
}

// Who is a clerk, and what operations ann has on ledgers.
fn expect_users_and_operations(rt: &impl Abort, alloc: Global, policy: &mut Policy) {
    let role = name(rt, alloc, "clerk");
    let wanted = Answer::Names(name_set(rt, alloc, &["ann"]));
    expect_review(rt, alloc, policy, Review::AuthorizedUsers { role }, wanted);
    let (user, object) = (name(rt, alloc, "ann"), name(rt, alloc, "ledger"));
    let review = Review::UserOperationsOnObject { user, object };
    let wanted = Answer::Names(name_set(rt, alloc, &["read"]));
    expect_review(rt, alloc, policy, review, wanted);
}

// What a session has active, and how many roles of the set.
fn expect_session_and_set(rt: &impl Abort, alloc: Global, policy: &mut Policy) {
    let session = name(rt, alloc, "s1");
    let wanted = Answer::Names(name_set(rt, alloc, &["clerk"]));
    expect_review(rt, alloc, policy, Review::SessionRoles { session }, wanted);
    let kind = Separation::Static;
    let set = name(rt, alloc, "duty");
    let review = Review::RoleSetCardinality { kind, set };
    expect_review(rt, alloc, policy, review, Answer::Count(2));
}

#[test]
fn reviews(rt: HostRuntime) {
    let alloc = rt.alloc();
    let mut policy = an_office(&rt, alloc);
    create_set(&rt, alloc, &mut policy, Separation::Static);
    open_session(&rt, alloc, &mut policy, &["clerk"]);
    expect_users_and_operations(&rt, alloc, &mut policy);
    expect_session_and_set(&rt, alloc, &mut policy);
    drop(policy);
}
