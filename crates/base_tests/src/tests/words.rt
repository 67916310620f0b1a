//! Each public call of `rbac_terms` with ample memory, but for copies of commands and reviews, which stand beside those of records
//! and messages (`group_tests`). What is expected was written by hand.
ghost use Rattle.std.specs.Prelude.{◌≡◌};
ghost use Rattle.std.specs.Ordering.{eq_by_cmp};
ghost use Rattle.rbac_terms.specs.Name.{name_cmp};

use rbac_terms::{
    Command, Denial, HierarchyKind, LentName, Name, NameRefusal, NameSet, PermissionSet,
    Vocabulary, VocabularyRefusal,
};
use sorted_keys::{KeyTest, Probe, Same};
use std::alloc::Global;
use std::process::Abort;

mod answers;

fn name(rt: &impl Abort, alloc: Global, text: &str) -> Name {
    Name::read(alloc, text.as_bytes()).expect(rt, "a name")
}

fn names(rt: &impl Abort, alloc: Global, texts: &[&str]) -> Vec<Name> {
    let mut names = Vec::new(alloc);
    for text in texts {
        names.push(name(rt, alloc, text)).expect(rt, "memory");
    }
    names
}

fn pairs(rt: &impl Abort, alloc: Global, texts: &[(&str, &str)]) -> Vec<(Name, Name)> {
    let mut pairs = Vec::new(alloc);
    for (first, second) in texts {
        pairs
            .push((name(rt, alloc, first), name(rt, alloc, second)))
            .expect(rt, "memory");
    }
    pairs
}

fn set(rt: &impl Abort, alloc: Global, texts: &[&str]) -> NameSet {
    let mut set = NameSet::new(alloc);
    for text in texts {
        set.add(name(rt, alloc, text)).expect(rt, "memory");
    }
    set
}

fn has(rt: &impl Abort, alloc: Global, set: &NameSet, text: &str) -> bool {
    set.contains(&name(rt, alloc, text))
}

fn remove(rt: &impl Abort, alloc: Global, set: &mut NameSet, text: &str) {
    set.remove(&name(rt, alloc, text));
}

fn assert_called(rt: &impl Abort, name: &Name, text: &str) {
    assert_eq!(rt; name.as_bytes(), text.as_bytes());
}

fn assert_names(rt: &impl Abort, names: &[Name], texts: &[&str]) {
    assert_eq!(rt; names.len(), texts.len());
    for (name, text) in names.iter().zip(texts) {
        assert_called(rt, name, text);
    }
}

fn expect_read(rt: &impl Abort, alloc: Global, good: &[u8]) {
    let name = Name::read(alloc, good).expect(rt, "a name");
    assert_eq!(rt; name.as_bytes(), good);
    let copy = name.copy().expect(rt, "memory");
    assert!(rt; copy == name);
}

// Neither a name of its own nor one that is lent.
fn is_bad(alloc: Global, bad: &[u8]) -> bool {
    matches!(Name::read(alloc, bad), Err(NameRefusal::BadName)) && LentName::read(bad).is_none()
}

// How a name stands to another, and to the lent bytes of the other.
fn expect_order(rt: &impl Abort, name: &Name, other: &Name) {
    let lent = LentName::read(other.as_bytes()).expect(rt, "a name");
    assert_eq!(rt; lent.compare(name), name.cmp(other));
}

#[test]
fn names_are_read(rt: HostRuntime) {
    for good in [b"a".as_slice(), b"Z", b"0", b"AZaz09_-.", &[b'x'; 64]] {
        expect_read(&rt, rt.alloc(), good);
    }
}

#[test]
fn names_of_no_or_too_many_bytes_are_refused(rt: HostRuntime) {
    assert!(rt; is_bad(rt.alloc(), b""));
    assert!(rt; is_bad(rt.alloc(), &[b'x'; 65]));
}

#[test]
fn names_with_other_bytes_are_refused(rt: HostRuntime) {
    for byte in [
        0, b'\t', b'\n', b' ', b',', b'/', b':', b'@', b'[', b'^', b'`', b'{', 127, 128, 255,
    ] {
        assert!(rt; is_bad(rt.alloc(), &[byte, b'a']), "byte {byte}");
        assert!(rt; is_bad(rt.alloc(), &[b'a', byte]), "byte {byte}");
    }
}

#[test]
fn names_are_ordered_by_bytes(rt: HostRuntime) {
    let alloc = rt.alloc();
    let rising = names(
        &rt,
        alloc,
        &[
            "-",
            ".",
            "0",
            "A",
            "B",
            "_",
            "a",
            "a-",
            "aa",
            "abcdefg",
            "abcdefg-",
            "abcdefgh",
            "abcdefgh-",
            "abcdefgha",
            "b",
        ],
    );
    for (first, second) in rising.iter().zip(rising.iter().skip(1)) {
        assert!(rt; first < second && first != second);
        expect_order(&rt, first, second);
        expect_order(&rt, second, first);
        expect_order(&rt, first, first);
    }
    drop(rising);
}

fn expect_with(rt: &impl Abort, alloc: Global, set: &NameSet, text: &str, wanted: &[&str]) {
    let copied = set.copy_with(&name(rt, alloc, text));
    let more = copied.expect(rt, "memory");
    assert_names(rt, more.names(), wanted);
    drop(more);
}

#[test]
fn a_set_of_names(rt: HostRuntime) {
    let alloc = rt.alloc();
    let mut set = set(&rt, alloc, &["clerk", "Boss", "auditor", "clerk"]);
    assert!(rt; !set.is_empty());
    assert_eq!(rt; set.len(), 3);
    assert!(rt; has(&rt, alloc, &set, "auditor"));
    assert!(rt; !has(&rt, alloc, &set, "boss"));
    assert_names(&rt, set.names(), &["Boss", "auditor", "clerk"]);
    let copy = set.copy().expect(&rt, "memory");
    expect_with(&rt, alloc, &set, "b", &["Boss", "auditor", "b", "clerk"]);
    remove(&rt, alloc, &mut set, "auditor");
    remove(&rt, alloc, &mut set, "boss");
    assert_names(&rt, set.names(), &["Boss", "clerk"]);
    assert_names(&rt, copy.names(), &["Boss", "auditor", "clerk"]);
    drop(copy);
    drop(set);
}

fn expect_denial(rt: &impl Abort, denial: Denial, number: u32, word: &str) {
    assert_eq!(rt; denial.number(), number);
    assert_eq!(rt; denial.word(), word);
}

#[test]
fn a_new_set_has_no_names(rt: HostRuntime) {
    assert!(rt; NameSet::new(rt.alloc()).is_empty());
}

#[test]
fn denials_have_numbers_and_words(rt: HostRuntime) {
    for (denial, number, word) in [
        (Denial::UserExists, 1, "UserExists"),
        (Denial::NoUser, 2, "NoUser"),
        (Denial::RoleExists, 3, "RoleExists"),
        (Denial::NoRole, 4, "NoRole"),
        (Denial::Assigned, 5, "Assigned"),
        (Denial::NotAssigned, 6, "NotAssigned"),
        (Denial::NoPermission, 7, "NoPermission"),
        (Denial::NotGranted, 8, "NotGranted"),
        (Denial::SessionExists, 9, "SessionExists"),
        (Denial::NoSession, 10, "NoSession"),
        (Denial::NotOwner, 11, "NotOwner"),
        (Denial::NotAuthorized, 12, "NotAuthorized"),
        (Denial::RoleActive, 13, "RoleActive"),
        (Denial::RoleNotActive, 14, "RoleNotActive"),
        (Denial::Inherits, 15, "Inherits"),
        (Denial::NoInheritance, 16, "NoInheritance"),
        (Denial::Cycle, 17, "Cycle"),
        (Denial::SsdViolated, 18, "SsdViolated"),
        (Denial::DsdViolated, 19, "DsdViolated"),
        (Denial::SetExists, 20, "SetExists"),
        (Denial::NoSet, 21, "NoSet"),
        (Denial::BadCardinality, 22, "BadCardinality"),
        (Denial::InSet, 23, "InSet"),
        (Denial::NotInSet, 24, "NotInSet"),
        (Denial::RoleConstrained, 25, "RoleConstrained"),
        (Denial::Limit, 26, "Limit"),
        (Denial::NoOperation, 27, "NoOperation"),
        (Denial::NoObject, 28, "NoObject"),
        (Denial::Limited, 29, "Limited"),
    ] {
        expect_denial(&rt, denial, number, word);
    }
}

const LETTERS: [u8; 64] = *b"0123456789ABCDEFGHIJKLMNOPQRSTUVWXYZ_-abcdefghijklmnopqrstuvwxyz";

// A name for each number below 262,144.
fn numbered(rt: &impl Abort, alloc: Global, number: usize) -> Name {
    let bytes = [
        LETTERS[number / 4_096 % 64],
        LETTERS[number / 64 % 64],
        LETTERS[number % 64],
    ];
    Name::read(alloc, &bytes).expect(rt, "a name")
}

fn many_names(rt: &impl Abort, alloc: Global, count: usize) -> Vec<Name> {
    let mut names = Vec::new(alloc);
    for number in 0..count {
        names.push(numbered(rt, alloc, number)).expect(rt, "memory");
    }
    names
}

fn many_pairs(rt: &impl Abort, alloc: Global, count: usize) -> Vec<(Name, Name)> {
    let mut pairs = Vec::new(alloc);
    for number in 0..count {
        let pair = (
            numbered(rt, alloc, number % 256),
            numbered(rt, alloc, number / 256),
        );
        pairs.push(pair).expect(rt, "memory");
    }
    pairs
}

// Why a vocabulary of so many operations, objects and permissions is refused.
fn refusal_of_many(
    rt: &impl Abort,
    alloc: Global,
    counts: [usize; 3],
) -> Option<VocabularyRefusal> {
    let operations = many_names(rt, alloc, counts[0]);
    let objects = many_names(rt, alloc, counts[1]);
    let permissions = many_pairs(rt, alloc, counts[2]);
    Vocabulary::build(operations, objects, permissions).err()
}

#[test]
fn vocabularies_are_within_limits(rt: HostRuntime) {
    let alloc = rt.alloc();
    for (counts, refusal) in [
        ([0, 0, 0], None),
        ([256, 4_096, 16_384], None),
        ([257, 0, 0], Some(VocabularyRefusal::TooMany)),
        ([0, 4_097, 0], Some(VocabularyRefusal::TooMany)),
        ([256, 4_096, 16_385], Some(VocabularyRefusal::TooMany)),
        ([255, 64, 16_384], Some(VocabularyRefusal::UnknownName)),
        ([256, 63, 16_384], Some(VocabularyRefusal::UnknownName)),
        ([1, 1, 16_385], Some(VocabularyRefusal::TooMany)),
    ] {
        assert_eq!(rt; refusal_of_many(&rt, alloc, counts), refusal);
    }
}

fn refusal_of(
    rt: &impl Abort,
    alloc: Global,
    operations: &[&str],
    objects: &[&str],
    permissions: &[(&str, &str)],
) -> Option<VocabularyRefusal> {
    Vocabulary::build(
        names(rt, alloc, operations),
        names(rt, alloc, objects),
        pairs(rt, alloc, permissions),
    )
    .err()
}

#[test]
fn vocabularies_are_refused_in_order(rt: HostRuntime) {
    let alloc = rt.alloc();
    let read = ("read", "ledger");
    let repeated = Some(VocabularyRefusal::Repeated);
    let unknown = Some(VocabularyRefusal::UnknownName);
    for (operations, objects, permissions, refusal) in [
        (
            ["pay", "read"].as_slice(),
            ["ledger"].as_slice(),
            [read].as_slice(),
            None,
        ),
        (&["read", "pay", "read"], &["ledger"], &[], repeated),
        (&["read"], &["ledger", "ledger"], &[], repeated),
        (&["read"], &["ledger"], &[read, read], repeated),
        (&["pay"], &["ledger"], &[read], unknown),
        (&["read"], &["invoice"], &[read], unknown),
        (&["ledger"], &["read"], &[read], unknown),
        (&["pay"], &["ledger"], &[read, read], repeated),
    ] {
        let answer = refusal_of(&rt, alloc, operations, objects, permissions);
        assert!(rt; answer == refusal);
    }
}

#[test]
fn too_many_is_tried_first(rt: HostRuntime) {
    let alloc = rt.alloc();
    let many = Vocabulary::build(
        names(&rt, alloc, &["read", "read"]),
        many_names(&rt, alloc, 4_097),
        pairs(&rt, alloc, &[("read", "ledger")]),
    );
    assert_eq!(rt; many.err(), Some(VocabularyRefusal::TooMany));
}

// Whether the names are an operation, an object, and a permission of both.
fn expect_known(
    rt: &impl Abort,
    alloc: Global,
    vocabulary: &Vocabulary,
    (operation, object): (&str, &str),
    wanted: (bool, bool, bool),
) {
    let (operation, object) = (name(rt, alloc, operation), name(rt, alloc, object));
    let has_operation = vocabulary.has_operation(&operation);
    let has_object = vocabulary.has_object(&object);
    let has_permission = vocabulary.has_permission(&operation, &object);
    assert_eq!(rt; (has_operation, has_object, has_permission), wanted);
}

fn expect_small(rt: &impl Abort, alloc: Global, vocabulary: &Vocabulary) {
    for (pair, wanted) in [
        (("read", "ledger"), (true, true, true)),
        (("pay", "invoice"), (true, true, true)),
        (("read", "invoice"), (true, true, false)),
        (("ledger", "read"), (false, false, false)),
        (("pay", "pay"), (true, false, false)),
    ] {
        expect_known(rt, alloc, vocabulary, pair, wanted);
    }
}

#[test]
fn a_vocabulary_and_its_copy(rt: HostRuntime) {
    let vocabulary = small_vocabulary(&rt, rt.alloc(), &TWO_PERMISSIONS);
    vocabulary.invariants();
    expect_small(&rt, rt.alloc(), &vocabulary);
    let copy = vocabulary.copy().expect(&rt, "memory");
    expect_small(&rt, rt.alloc(), &copy);
    drop(copy);
    drop(vocabulary);
}

#[test]
fn a_hierarchy_is_general_until_it_is_limited(rt: HostRuntime) {
    let vocabulary = small_vocabulary(&rt, rt.alloc(), &TWO_PERMISSIONS);
    assert_eq!(rt; vocabulary.hierarchy(), HierarchyKind::General);
    let limited = vocabulary.with_hierarchy(HierarchyKind::Limited);
    assert_eq!(rt; limited.hierarchy(), HierarchyKind::Limited);
    expect_small(&rt, rt.alloc(), &limited);
    let copy = limited.copy().expect(&rt, "memory");
    assert_eq!(rt; copy.hierarchy(), HierarchyKind::Limited);
    assert!(rt; copy.same(&limited));
    let general = copy.with_hierarchy(HierarchyKind::General);
    assert!(rt; !general.same(&limited));
    drop(general);
    drop(limited);
}

#[test]
fn a_limited_hierarchy_is_limited(rt: HostRuntime) {
    assert!(rt; HierarchyKind::Limited.is_limited());
    assert!(rt; !HierarchyKind::General.is_limited());
}

// Whether a copy of the name is the same.
fn is_copied(rt: &impl Abort, name: &Name) -> bool {
    let copy = name.copy().expect(rt, "memory");
    name.same(&copy)
}

fn are_same_names(rt: &impl Abort, alloc: Global, first: &str, second: &str) -> bool {
    name(rt, alloc, first).same(&name(rt, alloc, second))
}

fn are_same_sets(rt: &impl Abort, alloc: Global, first: &[&str], second: &[&str]) -> bool {
    set(rt, alloc, first).same(&set(rt, alloc, second))
}

#[test]
fn names_of_a_set_are_counted_in_another(rt: HostRuntime) {
    let alloc = rt.alloc();
    let first = set(&rt, alloc, &["boss", "clerk", "payer", "writer"]);
    let second = set(&rt, alloc, &["payer", "auditor", "boss"]);
    assert_eq!(rt; first.count_in(&second), 2);
    assert_eq!(rt; second.count_in(&first), 2);
    assert_eq!(rt; first.count_in(&first), 4);
    assert_eq!(rt; first.count_in(&NameSet::new(alloc)), 0);
    drop(second);
    drop(first);
}

// Whether the two commands are equal. They end here: the drop of a command is a case for each of them.
fn are_equal(first: Command, second: Command) -> bool {
    let equal = first == second;
    drop(second);
    drop(first);
    equal
}

fn session_of(rt: &impl Abort, alloc: Global, roles: &[&str]) -> Command {
    Command::CreateSession {
        user: name(rt, alloc, "ann"),
        session: name(rt, alloc, "s1"),
        roles: set(rt, alloc, roles),
    }
}

fn user_added(rt: &impl Abort, alloc: Global, user: &str) -> Command {
    Command::AddUser {
        user: name(rt, alloc, user),
    }
}

fn user_deleted(rt: &impl Abort, alloc: Global, user: &str) -> Command {
    Command::DeleteUser {
        user: name(rt, alloc, user),
    }
}

#[test]
fn commands_are_equal_where_all_they_name_is(rt: HostRuntime) {
    let alloc = rt.alloc();
    let session = |roles: &[&str]| session_of(&rt, alloc, roles);
    assert!(rt; are_equal(session(&["boss", "clerk"]), session(&["clerk", "boss"])));
    assert!(rt; !are_equal(session(&["boss", "clerk"]), session(&["boss"])));
    let added = |user: &str| user_added(&rt, alloc, user);
    assert!(rt; are_equal(added("ann"), added("ann")));
    assert!(rt; !are_equal(added("ann"), added("bob")));
    assert!(rt; !are_equal(added("ann"), user_deleted(&rt, alloc, "ann")));
}

#[test]
fn equal_names_are_the_same(rt: HostRuntime) {
    let alloc = rt.alloc();
    assert!(rt; is_copied(&rt, &name(&rt, alloc, "clerk")));
    assert!(rt; !are_same_names(&rt, alloc, "clerk", "clerks"));
    let roles = ["clerk", "payer"];
    assert!(rt; are_same_sets(&rt, alloc, &roles, &["payer", "clerk"]));
    assert!(rt; !are_same_sets(&rt, alloc, &roles, &["clerk"]));
}

fn small_vocabulary(rt: &impl Abort, alloc: Global, permissions: &[(&str, &str)]) -> Vocabulary {
    let operations = names(rt, alloc, &["read", "pay"]);
    let objects = names(rt, alloc, &["ledger", "invoice"]);
    let permissions = pairs(rt, alloc, permissions);
    Vocabulary::build(operations, objects, permissions).expect(rt, "a vocabulary")
}

// The one name that equals this.
#[derive(Drop)]
struct Only<'a>(&'a Name);

impl KeyTest<Name> for Only<'_> {
    ghost passes = { λ only name. eq_by_cmp name_cmp only.0.now name };

    fn test(&self, name: &Name) -> bool {
        self.0.cmp(name).is_eq()
    }
}

// The permissions on an object.
#[derive(Drop)]
struct On<'a>(&'a Name);

impl KeyTest<(Name, Name)> for On<'_> {
    ghost passes = { λ on permission. eq_by_cmp name_cmp on.0.now permission.1 };

    fn test(&self, permission: &(Name, Name)) -> bool {
        self.0.cmp(&permission.1).is_eq()
    }
}

const TWO_PERMISSIONS: [(&str, &str); 2] = [("read", "ledger"), ("pay", "invoice")];

#[test]
fn operations_of_a_vocabulary_are_copied(rt: HostRuntime) {
    let alloc = rt.alloc();
    let vocabulary = small_vocabulary(&rt, alloc, &TWO_PERMISSIONS);
    let pay = name(&rt, alloc, "pay");
    let copied = vocabulary.operations_where(alloc, &Only(&pay));
    let operations = copied.expect(&rt, "memory");
    assert_names(&rt, operations.names(), &["pay"]);
    drop(operations);
    drop(vocabulary);
}

// The permissions on the ledger.
fn on_the_ledger(rt: &impl Abort, alloc: Global, vocabulary: &Vocabulary) -> PermissionSet {
    let ledger = name(rt, alloc, "ledger");
    let copied = vocabulary.permissions_where(alloc, &On(&ledger));
    copied.expect(rt, "memory")
}

#[test]
fn permissions_of_a_vocabulary_are_copied(rt: HostRuntime) {
    let vocabulary = small_vocabulary(&rt, rt.alloc(), &TWO_PERMISSIONS);
    let permissions = on_the_ledger(&rt, rt.alloc(), &vocabulary);
    assert_eq!(rt; permissions.permissions().len(), 1);
    assert_called(&rt, &permissions.permissions()[0].1, "ledger");
    drop(permissions);
    drop(vocabulary);
}

#[test]
fn names_of_a_set_pass_its_test(rt: HostRuntime) {
    let alloc = rt.alloc();
    let mut set = NameSet::new(alloc);
    set.add(name(&rt, alloc, "clerk")).expect(&rt, "memory");
    assert!(rt; set.test(&name(&rt, alloc, "clerk")));
    assert!(rt; !set.test(&name(&rt, alloc, "clerks")));
    drop(set);
}

#[test]
fn equal_vocabularies_are_the_same(rt: HostRuntime) {
    let alloc = rt.alloc();
    let vocabulary = small_vocabulary(&rt, alloc, &[("read", "ledger")]);
    let copy = vocabulary.copy().expect(&rt, "memory");
    assert!(rt; vocabulary.same(&copy));
    drop(copy);
    let other = small_vocabulary(&rt, alloc, &[("pay", "ledger")]);
    assert!(rt; !vocabulary.same(&other));
    drop(other);
    drop(vocabulary);
}
