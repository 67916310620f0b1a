//! A founding file as a document, and the keys of that.
ghost use Rattle.std.specs.Prelude.{◌≡◌, ◌≢◌, IfOk, IfErr, Ok, Err, is_some, option_map, option_and_then, unwrap_or, pos, map, string_bytes};
ghost use Rattle.std.specs.BTreeMap.{keys as entry_keys};
ghost use Rattle.std.specs.List.{list_all, list_any};
ghost use Rattle.std.specs.Str.{bytes_eq};
ghost use Rattle.toml.specs.Data.{as_integer, get_member};
ghost use Rattle.toml.specs.View.{view, table_view};
ghost use Rattle.rbac_founding.specs.FoundingFile.{document_of, has_all, has_only, keys_within, right_keys, version_of};
ghost use Rattle.rbac_text.specs.Steps.{provided};
ghost use Rattle.rbac_founding.specs.declared.refusal.FoundingRefusal.TheVariants.{UnknownKey};

use crate::limits::LONGEST_FILE;
use crate::refusal::FoundingRefusal;
use crate::version::Version;
use rbac_text::keys::is_one_of;
use std::alloc::Global;
use toml::{Table, Value};

/// The document of a file. Bytes that are not UTF-8 are no TOML.
pub(crate) fn document_of(alloc: Global, file: &[u8]) -> Result<Table, FoundingRefusal>
    ensures document_read { IfOk result (λ document. document_of file.now ≡ Ok (table_view document)) }
    ensures first_refusal { IfErr result (λ refusal. refusal ≢ FoundingRefusal.NoMemory → document_of file.now ≡ Err refusal) }
{
    if LONGEST_FILE < file.len() {
        return Err(FoundingRefusal::TooLong);
    }
    match toml::table_from_slice(alloc, file) {
        Ok(document) => Ok(document),
        Err(error) if error.is_memory() => Err(FoundingRefusal::NoMemory),
        Err(_) => Err(FoundingRefusal::NotToml),
    }
}

/// The value at a key.
pub(crate) fn value_at<'d>(document: &'d Table, key: &str) -> Option<&'d Value>
    ensures { option_map (λ value. view value.now) result ≡ get_member key.now (table_view document.now) }
{
    document.get(key)
}

/// The whole number at a key.
pub(crate) fn integer_at(document: &Table, key: &str) -> Option<i64>
    ensures { result ≡ option_and_then as_integer (get_member key.now (table_view document.now)) }
{
    let value = value_at(document, key)?;
    value.as_integer()
}

/// The version of a document.
fn version_of(document: &Table) -> Result<Version, FoundingRefusal>
    ensures { result ≡ version_of (table_view document.now) }
{
    match integer_at(document, "version") {
        Some(1) => Ok(Version::First),
        Some(2) => Ok(Version::Second),
        _ => Err(FoundingRefusal::BadVersion),
    }
}

fn has_only(document: &Table, keys: &[&str]) -> bool
    ensures { result ≡ list_all (λ key. list_any (λ known. bytes_eq (string_bytes key) known.now) keys.now) (entry_keys document.now) }
{
    document.keys().all(|key| is_one_of(keys, key.as_str()))
}

/// Refuses a document that has a key besides these.
fn only_keys(document: &Table, keys: &[&str]) -> Result<(), FoundingRefusal>
    ensures { result ≡ provided (has_only (map (λ key. key.now) keys.now) (table_view document.now)) UnknownKey }
{
    if !has_only(document, keys) {
        return Err(FoundingRefusal::UnknownKey);
    }
    Ok(())
}

fn has_key(document: &Table, key: &str) -> bool
    ensures { result ≡ is_some (get_member key.now (table_view document.now)) }
{
    value_at(document, key).is_some()
}

fn has_all(document: &Table, keys: &[&str]) -> bool
    ensures { result ≡ list_all (λ key. is_some (get_member key.now (table_view document.now))) keys.now }
{
    keys.iter().all(|key| has_key(document, *key))
}

/// Refuses a document that has a key besides the known ones, or lacks a needed one.
fn check_keys(document: &Table, known: &[&str], needed: &[&str]) -> Result<(), FoundingRefusal>
    ensures { result ≡ keys_within (map (λ key. key.now) known.now) (map (λ key. key.now) needed.now) (table_view document.now) }
{
    only_keys(document, known)?;
    if !has_all(document, needed) {
        return Err(FoundingRefusal::MissingKey);
    }
    Ok(())
}

/// Refuses a document of another version, and one with a key too much or too little.
pub(crate) fn right_keys(document: &Table) -> Result<(), FoundingRefusal>
    ensures { result ≡ right_keys (table_view document.now) }
{
    match version_of(document)? {
        Version::First => check_keys(
            document,
            &[
                "version",
                "clock",
                "sent_limit",
                "members",
                "operations",
                "objects",
                "permissions",
            ],
            &["members", "operations", "objects", "permissions"],
        ),
        Version::Second => check_keys(
            document,
            &[
                "version",
                "clock",
                "sent_limit",
                "hierarchy",
                "members",
                "operations",
                "objects",
                "permissions",
            ],
            &[
                "hierarchy",
                "members",
                "operations",
                "objects",
                "permissions",
            ],
        ),
    }
}
