//! What is wrong with a founding file.
ghost use Rattle.std.specs.Prelude.{◌≡◌, ◌≢◌, [], IfOk, IsOk, OnOk};
ghost use Rattle.rbac_founding.specs.FoundingFile.{founding_of};

use crate::expected::nearest;
use crate::finding::{BEGIN, Finding, at_least, fault, warn};
use crate::places::{MARK, place_at, place_of_key, place_of_word};
use crate::toml_values::{kind_words, pair_of, texts_of};
use rbac_founding::{FoundingRefusal, read_founding};
use rbac_terms::{Name, NameRefusal};
use std::alloc::{AllocError, Global};
use toml::{Table, Value};

/// The most bytes of a founding file.
const MOST_BYTES: usize = 1_048_576;

/// The last value of a clock.
const LAST_CLOCK: i64 = 9_007_199_254_740_991;

/// A clock that is nearer to its end is warned of: a group that sends a thousand messages a second gets so far in nine hours.
const NEAR_THE_END: i64 = 33_554_432;

/// A smaller number of messages is warned of: each member sends no more, checks and acknowledgements included.
const FEW_MESSAGES: i64 = 256;

/// The keys that a founding file may have.
const KEYS: &[&str] = &[
    "version",
    "members",
    "clock",
    "sent_limit",
    "hierarchy",
    "operations",
    "objects",
    "permissions",
];

/// The keys that each founding file has.
const NEEDED: &[&str] = &["members", "operations", "objects", "permissions"];

// The faults that stand in the way of a document.
fn no_document(
    alloc: Global,
    file: &[u8],
    findings: &mut Vec<Finding>,
) -> Result<Option<Table>, AllocError> {
    if MOST_BYTES < file.len() {
        fault(
            alloc,
            findings,
            BEGIN,
            "TooLong: the file has more than 1048576 bytes",
        )?;
        return Ok(None);
    }
    if file.starts_with(MARK) {
        fault(
            alloc,
            findings,
            BEGIN,
            "NotToml: the file begins with a byte order mark",
        )?;
    }
    match toml::table_from_slice(alloc, file) {
        Ok(document) => Ok(Some(document)),
        Err(error) if error.is_memory() => Err(AllocError),
        Err(error) => {
            let place = match error.span() {
                Some(span) => place_at(file, span.start),
                None => BEGIN,
            };
            fault(
                alloc,
                findings,
                place,
                format_args!("NotToml: {}", error.message()),
            )?;
            Ok(None)
        }
    }
}

// The version: 1 or 2.
fn lint_version(
    alloc: Global,
    file: &[u8],
    document: &Table,
    findings: &mut Vec<Finding>,
) -> Result<Option<i64>, AllocError> {
    match document.get("version") {
        Some(Value::Integer(version)) if *version == 1 || *version == 2 => Ok(Some(*version)),
        Some(_) => {
            let place = place_of_key(file, b"version");
            fault(
                alloc,
                findings,
                place,
                "BadVersion: version is the whole number 1 or 2",
            )?;
            Ok(None)
        }
        None => {
            fault(
                alloc,
                findings,
                BEGIN,
                "BadVersion: the key version is missing; it is 1 or 2",
            )?;
            Ok(None)
        }
    }
}

// Keys that do not belong there, and keys that are missing.
fn lint_keys(
    alloc: Global,
    file: &[u8],
    document: &Table,
    version: Option<i64>,
    findings: &mut Vec<Finding>,
) -> Result<(), AllocError> {
    for key in document.keys() {
        let key = key.as_str();
        if !KEYS.contains(&key) {
            lint_unknown_key(alloc, file, key, findings)?;
        }
    }
    for key in NEEDED {
        if document.get(*key).is_none() {
            let text = format_args!("MissingKey: the key {key} is missing");
            fault(alloc, findings, BEGIN, text)?;
        }
    }
    let has_hierarchy = document.get("hierarchy").is_some();
    if version == Some(1) && has_hierarchy {
        let place = place_of_key(file, b"hierarchy");
        fault(
            alloc,
            findings,
            place,
            "UnknownKey: hierarchy belongs to version 2; version 1 is general",
        )?;
    }
    if version == Some(2) && !has_hierarchy {
        fault(
            alloc,
            findings,
            BEGIN,
            "MissingKey: version 2 has the key hierarchy, \"general\" or \"limited\"",
        )?;
    }
    Ok(())
}

// A key that is not known, and the known one that is nearest.
fn lint_unknown_key(
    alloc: Global,
    file: &[u8],
    key: &str,
    findings: &mut Vec<Finding>,
) -> Result<(), AllocError> {
    let place = place_of_key(file, key.as_bytes());
    match nearest(alloc, key, KEYS)? {
        Some(known) => {
            let text = format_args!("UnknownKey: {key} is no key; did you mean {known}?");
            fault(alloc, findings, place, text)
        }
        None => fault(
            alloc,
            findings,
            place,
            format_args!("UnknownKey: {key} is no key"),
        ),
    }
}

// A whole number within a range, where the key is there.
fn lint_number(
    alloc: Global,
    file: &[u8],
    document: &Table,
    key: &str,
    least: i64,
    most: i64,
    findings: &mut Vec<Finding>,
) -> Result<(), AllocError> {
    let place = place_of_key(file, key.as_bytes());
    match document.get(key) {
        None => Ok(()),
        Some(Value::Integer(number)) if least <= *number && *number <= most => Ok(()),
        Some(Value::Integer(number)) => {
            let text = format_args!("OutOfRange: {key} is {number}; it is {least} to {most}");
            fault(alloc, findings, place, text)
        }
        Some(other) => {
            let found = kind_words(other);
            let text = format_args!("WrongKind: {key} is {found}; a whole number is expected");
            fault(alloc, findings, place, text)
        }
    }
}

// The word of the hierarchy, where it is there.
fn lint_hierarchy(
    alloc: Global,
    file: &[u8],
    document: &Table,
    findings: &mut Vec<Finding>,
) -> Result<(), AllocError> {
    let place = place_of_key(file, b"hierarchy");
    match document.get("hierarchy") {
        None => Ok(()),
        Some(value) => match value.as_str() {
            Some("general" | "limited") => Ok(()),
            Some(word) => {
                let text = format_args!(
                    "OutOfRange: hierarchy is \"{word}\"; it is \"general\" or \"limited\""
                );
                fault(alloc, findings, place, text)
            }
            None => {
                let found = kind_words(value);
                let text = format_args!("WrongKind: hierarchy is {found}; a text is expected");
                fault(alloc, findings, place, text)
            }
        },
    }
}

/// Whether a text is a name.
pub(crate) fn is_name(alloc: Global, text: &str) -> Result<bool, AllocError> {
    match Name::read(alloc, text.as_bytes()) {
        Ok(name) => {
            drop(name);
            Ok(true)
        }
        Err(NameRefusal::BadName) => Ok(false),
        Err(NameRefusal::NoMemory) => Err(AllocError),
    }
}

// The array at a key, if it is one and has not too many elements.
fn array_at<'d>(
    alloc: Global,
    file: &[u8],
    document: &'d Table,
    key: &str,
    most: usize,
    findings: &mut Vec<Finding>,
) -> Result<&'d [Value], AllocError> {
    let place = place_of_key(file, key.as_bytes());
    match document.get(key) {
        None => Ok(&[]),
        Some(Value::Array(array)) if array.len() <= most => Ok(array.as_slice()),
        Some(Value::Array(array)) => {
            let count = array.len();
            let text = format_args!(
                "OutOfRange: {key} has {count} elements; at most {most} are taken"
            );
            fault(alloc, findings, place, text)?;
            Ok(&[])
        }
        Some(other) => {
            let found = kind_words(other);
            let text = format_args!("WrongKind: {key} is {found}; an array is expected");
            fault(alloc, findings, place, text)?;
            Ok(&[])
        }
    }
}

// A text that is to be a name.
fn lint_name(
    alloc: Global,
    file: &[u8],
    key: &str,
    text: &str,
    findings: &mut Vec<Finding>,
) -> Result<(), AllocError> {
    if is_name(alloc, text)? {
        return Ok(());
    }
    let place = place_of_word(file, key.as_bytes(), text.as_bytes());
    let told = format_args!(
        "BadName: \"{text}\" in {key} is no name: 1 to 64 bytes of A-Z a-z 0-9 _ - and the full stop"
    );
    fault(alloc, findings, place, told)
}

// The names at a key: operations, or objects.
fn lint_names(
    alloc: Global,
    file: &[u8],
    document: &Table,
    key: &str,
    most: usize,
    findings: &mut Vec<Finding>,
) -> Result<(), AllocError> {
    let array = array_at(alloc, file, document, key, most, findings)?;
    let mut seen: Vec<&str> = Vec::new(alloc);
    for value in array {
        let Some(text) = value.as_str() else {
            let place = place_of_key(file, key.as_bytes());
            let found = kind_words(value);
            let told = format_args!("WrongKind: {key} has {found}; a text is expected");
            fault(alloc, findings, place, told)?;
            continue;
        };
        lint_name(alloc, file, key, text, findings)?;
        seen.push(text)?;
    }
    seen.sort()?;
    for pair in seen.windows(2) {
        if let [first, second] = pair {
            if first == second {
                let place = place_of_word(file, key.as_bytes(), first.as_bytes());
                let told = format_args!("Repeated: \"{first}\" stands twice in {key}");
                fault(alloc, findings, place, told)?;
            }
        }
    }
    Ok(())
}

// A name of a permission, which has to be listed.
fn lint_listed(
    alloc: Global,
    file: &[u8],
    text: &str,
    key: &str,
    listed: &[&str],
    findings: &mut Vec<Finding>,
) -> Result<(), AllocError> {
    lint_name(alloc, file, "permissions", text, findings)?;
    if listed.contains(&text) {
        return Ok(());
    }
    let place = place_of_word(file, b"permissions", text.as_bytes());
    match nearest(alloc, text, listed)? {
        Some(known) => {
            let told = format_args!(
                "UnknownName: \"{text}\" of a permission is not among {key}; did you mean \"{known}\"?"
            );
            fault(alloc, findings, place, told)
        }
        None => {
            let told = format_args!("UnknownName: \"{text}\" of a permission is not among {key}");
            fault(alloc, findings, place, told)
        }
    }
}

// The permissions: pairs of listed names, each once.
fn lint_permissions(
    alloc: Global,
    file: &[u8],
    document: &Table,
    findings: &mut Vec<Finding>,
) -> Result<(), AllocError> {
    let array = array_at(alloc, file, document, "permissions", 16_384, findings)?;
    let operations = texts_of(alloc, document, "operations")?;
    let objects = texts_of(alloc, document, "objects")?;
    let mut seen: Vec<(&str, &str)> = Vec::new(alloc);
    for value in array {
        let Some((operation, object)) = pair_of(value) else {
            let place = place_of_key(file, b"permissions");
            let told =
                "WrongKind: a permission is an array of two texts, an operation and an object";
            fault(alloc, findings, place, told)?;
            continue;
        };
        lint_listed(alloc, file, operation, "operations", &operations, findings)?;
        lint_listed(alloc, file, object, "objects", &objects, findings)?;
        seen.push((operation, object))?;
    }
    seen.sort()?;
    for pair in seen.windows(2) {
        if let [first, second] = pair {
            if first == second {
                let (operation, object) = *first;
                let place = place_of_key(file, b"permissions");
                let told = format_args!(
                    "Repeated: the permission \"{operation}\" on \"{object}\" stands twice"
                );
                fault(alloc, findings, place, told)?;
            }
        }
    }
    Ok(())
}

// Numbers that let a group stand still soon.
fn lint_ends(
    alloc: Global,
    file: &[u8],
    document: &Table,
    findings: &mut Vec<Finding>,
) -> Result<(), AllocError> {
    if let Some(Value::Integer(clock)) = document.get("clock") {
        if LAST_CLOCK - NEAR_THE_END < *clock && *clock <= LAST_CLOCK {
            let left = LAST_CLOCK - *clock;
            let place = place_of_key(file, b"clock");
            let told = format_args!("clock leaves {left} steps, and then the group stands still");
            warn(alloc, findings, place, told)?;
        }
    }
    if let Some(Value::Integer(limit)) = document.get("sent_limit") {
        if 1 <= *limit && *limit < FEW_MESSAGES {
            let place = place_of_key(file, b"sent_limit");
            let told = format_args!(
                "each member sends at most {limit} messages, checks and acknowledgements included, and then the group stands still"
            );
            warn(alloc, findings, place, told)?;
        }
    }
    Ok(())
}

// All that is wrong with a document.
fn lint_document(
    alloc: Global,
    file: &[u8],
    document: &Table,
    findings: &mut Vec<Finding>,
) -> Result<(), AllocError> {
    let version = lint_version(alloc, file, document, findings)?;
    lint_keys(alloc, file, document, version, findings)?;
    lint_number(alloc, file, document, "members", 1, 8, findings)?;
    lint_number(alloc, file, document, "clock", 0, LAST_CLOCK, findings)?;
    lint_number(alloc, file, document, "sent_limit", 1, 65_536, findings)?;
    lint_hierarchy(alloc, file, document, findings)?;
    lint_names(alloc, file, document, "operations", 256, findings)?;
    lint_names(alloc, file, document, "objects", 4_096, findings)?;
    lint_permissions(alloc, file, document, findings)?;
    lint_ends(alloc, file, document, findings)
}

// All that is wrong with a file.
fn lint_file(alloc: Global, file: &[u8], findings: &mut Vec<Finding>) -> Result<(), AllocError> {
    match no_document(alloc, file, findings)? {
        Some(document) => {
            let done = lint_document(alloc, file, &document, findings);
            drop(document);
            done
        }
        None => Ok(()),
    }
}

/// What is wrong with a founding file: each fault at its place, and warnings of numbers that let a group stand still soon. Where
/// nothing is found, the file is read as a founding; where it is not, something is found.
///
/// # Errors
/// `AllocError` where there is no memory for it.
pub fn lint_founding(alloc: Global, file: &[u8]) -> Result<Vec<Finding>, AllocError>
    ensures { IfOk result (λ findings. findings.items ≡ [] → IsOk (founding_of file.now)) }
{
    let mut findings = Vec::new(alloc);
    lint_file(alloc, file, &mut findings)?;
    match read_founding(alloc, file) {
        Ok(founding) => drop(founding),
        Err(FoundingRefusal::NoMemory) => return Err(AllocError),
        Err(refusal) => {
            let word = refusal.word();
            let told = format_args!("{word}: the file is refused");
            at_least(alloc, &mut findings, BEGIN, told)?;
        }
    }
    Ok(findings)
}
