//! Reading a founding file.
ghost use Rattle.std.specs.Prelude.{◌≡◌, ◌≢◌, ◌≤◌, IfOk, IfErr, Ok, Err, IsTrue, OnOk, length};
ghost use Rattle.rbac_founding.specs.FoundingFile.{Reads, are_few, founding_of, group_of, in_range, kind_of, vocabulary_of};
ghost use Rattle.rbac_founding.specs.FoundingEntries.{entries_view};

use crate::document::{document_of, right_keys};
use crate::entries::entries_of;
use crate::founding::Founding;
use crate::names::{names_of, permissions_of};
use crate::refusal::FoundingRefusal;
use crate::values::Entries;
use rbac_terms::limits::{MOST_OBJECTS, MOST_OPERATIONS, MOST_PERMISSIONS};
use rbac_words::limits::{LAST_CLOCK, MOST_MEMBERS, MOST_SENT};
use rbac_words::{Group, HierarchyKind, Vocabulary, VocabularyRefusal};
use std::alloc::Global;

/// Reads a founding file, of version 1 or 2. It is refused for the first of these, each over the whole file: it is too long,
/// it is no TOML; its version is another one, it has a key too much, it has one too little; a value is of another kind; a
/// number is out of range, a list too long, or the word for the hierarchy none; a text is no name, something stands twice, a
/// permission speaks of what is not listed.
///
/// # Errors
/// The first refusal in the order of `FoundingRefusal`, and `NoMemory` where memory ends at any of the checks.
#[tactic(auto, unfolding(crate::specs::FoundingFile::founding_of))]
pub fn read_founding(alloc: Global, file: &[u8]) -> Result<Founding, FoundingRefusal>
    ensures founding_read { IfOk result (λ founding. founding_of file.now ≡ Ok founding) }
    ensures first_refusal { IfErr result (λ refusal. refusal ≢ FoundingRefusal.NoMemory → founding_of file.now ≡ Err refusal) }
{
    let document = document_of(alloc, file)?;
    right_keys(&document)?;
    let entries = entries_of(&document)?;
    let group = group_of(&entries)?;
    let kind = kind_of(entries.hierarchy)?;
    let vocabulary = vocabulary_of(alloc, &entries, kind)?;
    Ok(Founding { group, vocabulary })
}

/// The number, if it is one of these.
fn in_range(number: i64, least: u64, most: u64) -> Result<u64, FoundingRefusal>
    ensures number { result ≡ in_range least most number }
    ensures within { IfOk result (λ natural. (least ≤ natural) × (natural ≤ most)) }
{
    match u64::try_from(number) {
        Ok(natural) if least <= natural && natural <= most => Ok(natural),
        _ => Err(FoundingRefusal::OutOfRange),
    }
}

fn are_few(entries: &Entries) -> bool
    ensures { result ≡ are_few (entries_view entries.now) }
{
    entries.operations.len() <= MOST_OPERATIONS
        && entries.objects.len() <= MOST_OBJECTS
        && entries.permissions.len() <= MOST_PERMISSIONS
}

/// The group, where all numbers and all lists are in range.
fn group_of(entries: &Entries) -> Result<Group, FoundingRefusal>
    ensures group { result ≡ group_of (entries_view entries.now) }
    ensures few { OnOk result (IsTrue (are_few (entries_view entries.now))) }
{
    let members = in_range(entries.members, 1, u64::from(MOST_MEMBERS))?;
    let clock = in_range(entries.clock, 0, LAST_CLOCK)?;
    let sent_limit = in_range(entries.sent_limit, 1, u64::from(MOST_SENT))?;
    if !are_few(entries) {
        return Err(FoundingRefusal::OutOfRange);
    }
    let Ok(group) = Group::build(members as u32, clock, sent_limit as u32) else {
        unreachable!()
    };
    Ok(group)
}

/// The kind of hierarchy that a word stands for.
fn kind_of(word: &str) -> Result<HierarchyKind, FoundingRefusal>
    ensures { result ≡ kind_of word.now }
{
    if word == "general" {
        return Ok(HierarchyKind::General);
    }
    if word == "limited" {
        return Ok(HierarchyKind::Limited);
    }
    Err(FoundingRefusal::OutOfRange)
}

/// The vocabulary of lists that are within their limits, with this kind of hierarchy.
fn vocabulary_of(
    alloc: Global,
    entries: &Entries,
    kind: HierarchyKind,
) -> Result<Vocabulary, FoundingRefusal>
    requires { IsTrue (are_few (entries_view entries.now)) }
    ensures { Reads (vocabulary_of kind (entries_view entries.now)) result }
{
    let operations = names_of(alloc, entries.operations)?;
    let objects = names_of(alloc, entries.objects)?;
    let permissions = permissions_of(alloc, entries.permissions, &operations, &objects)?;
    match Vocabulary::build(operations, objects, permissions) {
        Ok(vocabulary) => Ok(vocabulary.with_hierarchy(kind)),
        Err(VocabularyRefusal::TooMany) => unreachable!(),
        Err(VocabularyRefusal::Repeated) => Err(FoundingRefusal::Repeated),
        Err(VocabularyRefusal::UnknownName) => Err(FoundingRefusal::UnknownName),
        Err(VocabularyRefusal::NoMemory) => Err(FoundingRefusal::NoMemory),
    }
}
