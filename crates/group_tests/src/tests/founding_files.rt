//! What `rbac_founding` reads founding files as, and of refused ones by files that the next check would refuse too.

use crate::tests::failing::FailingReader;
use rbac_founding::{
    Founding, FoundingRefusal, StreamRefusal, read_founding, read_founding_from, sample_founding,
};
use rbac_words::{HierarchyKind, Name, Vocabulary, VocabularyRefusal};
use std::alloc::{AllocError, Global};
use std::io::Read;
use std::process::Abort;

const SAMPLE: &str = r#"
version = 1
members = 1
operations = ["approve", "pay", "read"]
objects = ["invoice", "ledger"]
permissions = [["approve", "invoice"], ["pay", "invoice"], ["read", "ledger"]]
"#;

fn refusal_of(alloc: Global, file: &[u8]) -> Option<FoundingRefusal> {
    read_founding(alloc, file).err()
}

fn permits(
    alloc: Global,
    vocabulary: &Vocabulary,
    operation: &[u8],
    object: &[u8],
) -> Option<bool> {
    let operation = Name::read(alloc, operation).ok()?;
    let object = Name::read(alloc, object).ok()?;
    Some(vocabulary.has_permission(&operation, &object))
}

/// The numbers of the group are these, and reading the ledger is permitted, reading an invoice not.
fn expect_sample(rt: &impl Abort, alloc: Global, founding: Founding, clock: u64, sent_limit: u32) {
    let Founding { group, vocabulary } = founding;
    assert_eq!(rt;
        (group.members(), group.clock(), group.sent_limit()),
        (1, clock, sent_limit)
    );
    assert_eq!(rt; permits(alloc, &vocabulary, b"read", b"ledger"), Some(true));
    assert_eq!(rt;
        permits(alloc, &vocabulary, b"read", b"invoice"),
        Some(false)
    );
    drop(vocabulary);
}

#[test]
fn the_sample(rt: HostRuntime) -> Result<(), AllocError> {
    let alloc = rt.alloc();
    expect_sample(&rt, alloc, sample_founding(alloc)?, 0, 65_536);
    let Ok(read) = read_founding(alloc, SAMPLE.as_bytes()) else {
        panic!(rt);
    };
    expect_sample(&rt, alloc, read, 0, 65_536);
    let file = format!(in alloc; "clock = 9_007_199_254_740_991\nsent_limit = 0x1\n{SAMPLE}")?;
    let Ok(read) = read_founding(alloc, file.as_bytes()) else {
        panic!(rt);
    };
    expect_sample(&rt, alloc, read, 9_007_199_254_740_991, 1);
    Ok(())
}

/// How many members the group of a file has.
fn members_of(alloc: Global, file: &[u8]) -> Option<u32> {
    match read_founding(alloc, file) {
        Ok(founding) => Some(founding.group.members()),
        Err(_) => None,
    }
}

#[test]
fn groups_of_three_and_of_eight(rt: HostRuntime) -> Result<(), AllocError> {
    for members in [3, 8] {
        let file = format!(in rt.alloc();
            "version = 1\nmembers = {members}\noperations = []\nobjects = []\npermissions = []"
        )?;
        assert_eq!(rt; members_of(rt.alloc(), file.as_bytes()), Some(members));
    }
    Ok(())
}

#[test]
fn a_file_has_1048576_bytes_at_most(rt: HostRuntime) -> Result<(), AllocError> {
    let mut file = Vec::from_slice(rt.alloc(), SAMPLE.as_bytes())?;
    file.resize(1_048_576, b' ')?;
    assert_eq!(rt; refusal_of(rt.alloc(), &file), None);
    file.push(b' ')?;
    assert_eq!(rt;
        refusal_of(rt.alloc(), &file),
        Some(FoundingRefusal::TooLong)
    );
    assert_eq!(rt;
        refusal_of_stream(rt.alloc(), file.as_slice()),
        Some(StreamRefusal::Founding(FoundingRefusal::TooLong))
    );
    Ok(())
}

fn refusal_of_stream<R: Read + Drop>(alloc: Global, reader: R) -> Option<StreamRefusal> {
    read_founding_from(alloc, reader).err()
}

#[test]
fn a_file_is_read_of_a_stream(rt: HostRuntime) {
    let alloc = rt.alloc();
    let Ok(read) = read_founding_from(alloc, SAMPLE.as_bytes()) else {
        panic!(rt);
    };
    expect_sample(&rt, alloc, read, 0, 65_536);
    assert_eq!(rt;
        refusal_of_stream(alloc, b"nothing".as_slice()),
        Some(StreamRefusal::Founding(FoundingRefusal::NotToml))
    );
    assert_eq!(rt;
        refusal_of_stream(alloc, FailingReader::of(SAMPLE.as_bytes(), 2)),
        Some(StreamRefusal::Unread)
    );
}

#[test]
fn what_is_no_toml(rt: HostRuntime) -> Result<(), AllocError> {
    for file in [
        b"version = 3\nnothing".as_slice(),
        b"version = 3\nversion = 1",
        b"version = 3\n[version]",
        b"version = 99999999999999999999",
        b"version = 3\n# \xff",
    ] {
        assert_eq!(rt;
            refusal_of(rt.alloc(), file),
            Some(FoundingRefusal::NotToml)
        );
    }
    let mut nested = Vec::from_slice(rt.alloc(), b"version = 3\nother = ")?;
    nested.resize(1_000, b'[')?;
    nested.resize(2_000, b']')?;
    assert_eq!(rt;
        refusal_of(rt.alloc(), &nested),
        Some(FoundingRefusal::NotToml)
    );
    Ok(())
}

/// A file of these two parts is refused so.
fn expect_refused(
    rt: &impl Abort,
    alloc: Global,
    first: &str,
    second: &str,
    refusal: FoundingRefusal,
) {
    let file = format!(in alloc; "{first}\n{second}").expect(rt, "memory");
    let refused = refusal_of(alloc, file.as_bytes());
    assert_eq!(rt; refused, Some(refusal), "{first}\n{second}");
}

// The kind of hierarchy that a file founds.
fn hierarchy_of(alloc: Global, file: &[u8]) -> Option<HierarchyKind> {
    match read_founding(alloc, file) {
        Ok(founding) => Some(founding.vocabulary.hierarchy()),
        Err(_) => None,
    }
}

#[test]
fn a_file_names_its_hierarchy_in_version_two(rt: HostRuntime) -> Result<(), AllocError> {
    let alloc = rt.alloc();
    let general = Some(HierarchyKind::General);
    assert_eq!(rt; hierarchy_of(alloc, SAMPLE.as_bytes()), general);
    for (word, kind) in [
        ("general", general),
        ("limited", Some(HierarchyKind::Limited)),
    ] {
        let file = format!(in alloc;
            "version = 2\nhierarchy = '{word}'\nmembers = 1\noperations = []\nobjects = []\npermissions = []"
        )?;
        assert_eq!(rt; hierarchy_of(alloc, file.as_bytes()), kind);
    }
    Ok(())
}

#[test]
fn a_file_that_is_too_long_and_no_toml(rt: HostRuntime) {
    let mut file = Vec::new(rt.alloc());
    file.resize(1_048_577, b'[').expect(&rt, "memory");
    let long = Some(FoundingRefusal::TooLong);
    assert_eq!(rt; refusal_of(rt.alloc(), &file), long);
    file.truncate(1_048_576);
    let none = Some(FoundingRefusal::NotToml);
    assert_eq!(rt; refusal_of(rt.alloc(), &file), none);
    drop(file);
}

// Each row is the word of a refusal and a file, with semicolons between its lines. Most files would be refused by the next check too; some are
// the sample with one thing changed.
const REFUSED: &str =
    r#"BadVersion: version = 3; other = 1; operations = []; objects = []; permissions = []
BadVersion: version = 1.0; other = 1; operations = []; objects = []; permissions = []
UnknownKey: version = 1; other = 1; operations = []; objects = []; permissions = []
MissingKey: version = 1; clock = "1"; operations = []; objects = []; permissions = []
WrongKind: version = 1; members = "1"; clock = -1; operations = []; objects = []; permissions = []
WrongKind: version = 1; members = 9; clock = 1.0; operations = []; objects = []; permissions = []
OutOfRange: version = 1; members = 0; operations = []; objects = []; permissions = []
OutOfRange: version = 1; members = 9; operations = []; objects = []; permissions = []
OutOfRange: version = 1; members = -1; operations = []; objects = []; permissions = []
OutOfRange: version = 1; members = 1; clock = 9007199254740992; operations = []; objects = []; permissions = []
OutOfRange: version = 1; members = 1; sent_limit = 65537; operations = []; objects = []; permissions = []
WrongKind: version = 1; members = 1; clock = -1; operations = ["", 1]; objects = []; permissions = []
WrongKind: version = 1; members = 1; clock = -1; operations = []; objects = []; permissions = [["a", "b", "c"]]
OutOfRange: version = 1; members = 1; clock = -1; operations = [""]; objects = []; permissions = []
BadName: version = 1; members = 1; operations = ["a", "a"]; objects = ["no name"]; permissions = []
Repeated: version = 1; members = 1; operations = ["a", "a"]; objects = []; permissions = [["a", "b"]]
UnknownName: version = 1; members = 1; operations = ["a"]; objects = []; permissions = [["a", "b"]]
BadVersion: version = 3; hierarchy = "limited"; members = 1; other = 1; operations = ["a", "a"]; objects = []; permissions = []
BadVersion: version = 0; hierarchy = "limited"; members = 1; operations = ["a", "a"]; objects = []; permissions = []
UnknownKey: version = 1; hierarchy = "limited"; operations = ["a", "a"]; objects = []; permissions = []
UnknownKey: version = 1; hierarchy = 1; members = 1; operations = ["a", "a"]; objects = []; permissions = []
UnknownKey: version = 2; other = "limited"; members = 1; operations = ["a", "a"]; objects = []; permissions = []
MissingKey: version = 2; members = "1"; operations = ["a", "a"]; objects = []; permissions = []
MissingKey: version = 2; hierarchy = "other"; clock = 1.0; operations = ["a", "a"]; objects = []; permissions = []
WrongKind: version = 2; hierarchy = 1; members = 9; operations = ["a", "a"]; objects = []; permissions = []
WrongKind: version = 2; hierarchy = ["limited"]; members = 1; operations = ["a", "a"]; objects = []; permissions = []
OutOfRange: version = 2; hierarchy = "other"; members = 1; operations = ["a", "a"]; objects = []; permissions = []
OutOfRange: version = 2; hierarchy = "Limited"; members = 1; operations = ["a", "a"]; objects = []; permissions = []
OutOfRange: version = 2; hierarchy = "limited"; members = 0; operations = ["a", "a"]; objects = []; permissions = []
Repeated: version = 2; hierarchy = "limited"; members = 1; operations = ["a", "a"]; objects = []; permissions = []
MissingKey: version = 1; operations = []; objects = []; permissions = 1
MissingKey: version = 1; members = "1"; objects = []; permissions = []
MissingKey: version = 1; members = "1"; operations = []; permissions = []
MissingKey: version = 1; members = "1"; operations = []; objects = []
WrongKind: version = 1; members = 9; operations = ""; objects = []; permissions = []
WrongKind: version = 1; members = 9; operations = []; objects = {}; permissions = []
WrongKind: version = 1; members = 9; operations = []; objects = []; permissions = ["read", "ledger"]
WrongKind: version = 1; members = 9; operations = []; objects = []; permissions = [["read"]]
WrongKind: version = 1; members = 9; operations = []; objects = []; permissions = [["read", 1]]
OutOfRange: version = 1; members = 0; operations = [""]; objects = []; permissions = []
OutOfRange: version = 1; members = 9; operations = [""]; objects = []; permissions = []
OutOfRange: version = 1; members = 1; clock = -1; operations = [""]; objects = []; permissions = []
OutOfRange: version = 1; members = 1; clock = 9007199254740992; operations = [""]; objects = []; permissions = []
OutOfRange: version = 1; members = 1; sent_limit = 0; operations = [""]; objects = []; permissions = []
OutOfRange: version = 1; members = 1; sent_limit = 65537; operations = [""]; objects = []; permissions = []
BadName: version = 1; members = 1; operations = ["a b", "a b"]; objects = []; permissions = []
BadName: version = 1; members = 1; operations = ["a", "a"]; objects = [""]; permissions = []
BadName: version = 1; members = 1; operations = ["a", "a"]; objects = []; permissions = [["a", "a b"]]
Repeated: version = 1; members = 1; operations = ["a", "a"]; objects = []; permissions = [["a", "b"]]
Repeated: version = 1; members = 1; operations = []; objects = ["a", "a"]; permissions = [["a", "b"]]
Repeated: version = 1; members = 1; operations = []; objects = []; permissions = [["a", "b"], ["a", "b"]]
MissingKey: version = 2; members = 1; operations = ["approve", "pay", "read"]; objects = ["invoice", "ledger"]; permissions = [["approve", "invoice"], ["pay", "invoice"], ["read", "ledger"]]
BadVersion: version = 3; members = 1; operations = ["approve", "pay", "read"]; objects = ["invoice", "ledger"]; permissions = [["approve", "invoice"], ["pay", "invoice"], ["read", "ledger"]]
WrongKind: version = 1; members = "1"; operations = ["approve", "pay", "read"]; objects = ["invoice", "ledger"]; permissions = [["approve", "invoice"], ["pay", "invoice"], ["read", "ledger"]]
OutOfRange: version = 1; members = 9; operations = ["approve", "pay", "read"]; objects = ["invoice", "ledger"]; permissions = [["approve", "invoice"], ["pay", "invoice"], ["read", "ledger"]]
UnknownName: version = 1; members = 1; operations = ["approve", "pay", "read"]; objects = ["invoice", "ledger"]; permissions = [["approve", "invoice"], ["pay", "invoice"], ["read", "ledger"], ["read", "moon"]]
UnknownName: version = 1; members = 1; operations = ["approve", "pay", "read"]; objects = ["invoice", "ledger"]; permissions = [["approve", "invoice"], ["fly", "ledger"]]"#;

// The file of a row.
fn file_of(rt: &impl Abort, alloc: Global, lines: &str) -> String {
    let mut file = String::new(alloc);
    for line in lines.split("; ") {
        file.push_str(line).expect(rt, "memory");
        file.push('\n').expect(rt, "memory");
    }
    file
}

// The file of a row is refused by the row's word.
fn expect_row(rt: &impl Abort, alloc: Global, row: &str) {
    let (word, lines) = row.split_once(": ").expect(rt, "a row");
    let file = file_of(rt, alloc, lines);
    let refusal = refusal_of(alloc, file.as_bytes()).expect(rt, "a refusal");
    assert_eq!(rt; refusal.word(), word, "{row}");
    drop(file);
}

#[test]
fn the_first_refusal_of_each_file(rt: HostRuntime) {
    for row in REFUSED.lines() {
        expect_row(&rt, rt.alloc(), row);
    }
}

// So many copies of a text, which is no name and stands more than once.
fn copies(rt: &impl Abort, alloc: Global, text: &str, count: usize) -> String {
    let mut copies = String::new(alloc);
    for _ in 0..count {
        copies.push_str(text).expect(rt, "memory");
    }
    copies
}

// A file with so many operations, objects and permissions, which have bad names, is refused so.
fn expect_long_lists(
    rt: &impl Abort,
    alloc: Global,
    (operations, objects, permissions): (usize, usize, usize),
    refusal: FoundingRefusal,
) {
    let operations = copies(rt, alloc, "\"\",", operations);
    let objects = copies(rt, alloc, "\"\",", objects);
    let pairs = copies(rt, alloc, "[\"\",\"\"],", permissions);
    let lists = format!(in alloc;
        "operations = [{operations}]\nobjects = [{objects}]\npermissions = [{pairs}]"
    );
    let numbers = "version = 1\nmembers = 8";
    let lists = lists.expect(rt, "memory");
    expect_refused(rt, alloc, numbers, lists.as_str(), refusal);
    drop(lists);
}

#[test]
fn operations_have_a_limit(rt: HostRuntime) {
    let alloc = rt.alloc();
    expect_long_lists(&rt, alloc, (256, 0, 0), FoundingRefusal::BadName);
    expect_long_lists(&rt, alloc, (257, 0, 0), FoundingRefusal::OutOfRange);
}

#[test]
fn objects_have_a_limit(rt: HostRuntime) {
    let outside = FoundingRefusal::OutOfRange;
    expect_long_lists(&rt, rt.alloc(), (0, 4_097, 0), outside);
}

#[test]
fn permissions_have_a_limit(rt: HostRuntime) {
    let outside = FoundingRefusal::OutOfRange;
    expect_long_lists(&rt, rt.alloc(), (0, 0, 16_385), outside);
}

fn names(rt: &impl Abort, alloc: Global, texts: &[&str]) -> Vec<Name> {
    let mut names = Vec::new(alloc);
    for text in texts {
        let name = Name::read(alloc, text.as_bytes()).expect(rt, "a name");
        names.push(name).expect(rt, "memory");
    }
    names
}

fn pairs(rt: &impl Abort, alloc: Global, texts: &[(&str, &str)]) -> Vec<(Name, Name)> {
    let mut pairs = Vec::new(alloc);
    for (operation, object) in texts {
        let operation = Name::read(alloc, operation.as_bytes()).expect(rt, "a name");
        let object = Name::read(alloc, object.as_bytes()).expect(rt, "a name");
        pairs.push((operation, object)).expect(rt, "memory");
    }
    pairs
}

// Why the sample's names and permissions, with reading this object besides, make no vocabulary.
fn refusal_with(rt: &impl Abort, alloc: Global, object: &str) -> Option<VocabularyRefusal> {
    let operations = names(rt, alloc, &["approve", "pay", "read"]);
    let objects = names(rt, alloc, &["invoice", "ledger"]);
    let permissions = pairs(
        rt,
        alloc,
        &[
            ("approve", "invoice"),
            ("pay", "invoice"),
            ("read", "ledger"),
            ("read", object),
        ],
    );
    Vocabulary::build(operations, objects, permissions).err()
}

#[test]
fn a_vocabulary_with_a_permission_of_an_unknown_object(rt: HostRuntime) {
    let unknown = Some(VocabularyRefusal::UnknownName);
    assert_eq!(rt; refusal_with(&rt, rt.alloc(), "moon"), unknown);
    assert_eq!(rt; refusal_with(&rt, rt.alloc(), "invoice"), None);
    let repeated = Some(VocabularyRefusal::Repeated);
    assert_eq!(rt; refusal_with(&rt, rt.alloc(), "ledger"), repeated);
}
