//! The names of a founding file.
ghost use Rattle.std.specs.Prelude.{◌≡◌, ◌&&◌, Bool, map, if◌then◌else◌, IfOk, Ok, Err};
ghost use Rattle.std.specs.List.{list_all};
ghost use Rattle.rbac_terms.specs.Name.{is_name};
ghost use Rattle.rbac_text.specs.Steps.{seen};
ghost use Rattle.rbac_founding.specs.FoundingFile.{Reads};
ghost use Rattle.rbac_founding.specs.FoundingEntries.{name_of, names_of, pair_of, permissions_of, text_of};

use crate::entries::pair_of;
use crate::refusal::FoundingRefusal;
use rbac_text::names::name_or;
use rbac_words::Name;
use sorted_keys::Same;
use sorted_keys::duplicate::duplicate_all;
use std::alloc::{AllocError, Global};
use toml::Value;

fn name_of(alloc: Global, text: &str) -> Result<Name, FoundingRefusal>
    ensures { Reads (name_of text.now) result }
{
    name_or(
        alloc,
        text,
        FoundingRefusal::BadName,
        FoundingRefusal::NoMemory,
    )
}

fn text_of(value: &Value) -> &str
    ensures { result.now ≡ text_of value.now }
{
    value.as_str().unwrap_or("")
}

/// What the values of an array are read as.
trait Element {
    ghost use Rattle.toml.specs.declared.value.Value.{Value};

    /// The element that a value shows, if it is well formed.
    ghost shown: { Value → Self };

    ghost is_formed: { Self → Bool };

    /// The element that a value is.
    ///
    /// # Errors
    /// `BadName` where it is not well formed, `NoMemory` where memory ends.
    fn element_of(alloc: Global, value: &Value) -> Result<Self, FoundingRefusal>
        ensures { Reads (if is_formed (shown value.now) then Ok (shown value.now) else Err FoundingRefusal.BadName) result };
}

impl Element for Name {
    ghost shown = { text_of };

    ghost is_formed = { is_name };

    fn element_of(alloc: Global, value: &Value) -> Result<Name, FoundingRefusal> {
        name_of(alloc, text_of(value))
    }
}

/// The permission that a pair of texts is.
impl Element for (Name, Name) {
    ghost shown = { pair_of };

    ghost is_formed = { λ pair. is_name pair.0 && is_name pair.1 };

    fn element_of(alloc: Global, value: &Value) -> Result<(Name, Name), FoundingRefusal> {
        let (operation, object) = pair_of(value).unwrap_or(("", ""));
        let operation = name_of(alloc, operation)?;
        let object = name_of(alloc, object)?;
        Ok((operation, object))
    }
}

fn elements_of<E: Element + Drop>(
    alloc: Global,
    values: &[Value],
) -> Result<Vec<E>, FoundingRefusal>
    ensures { Reads (if list_all E.is_formed (map E.shown values.now) then Ok (map E.shown values.now) else Err FoundingRefusal.BadName) (seen (λ elements. elements.items) result) }
{
    let mut elements = Vec::new(alloc);
    for value in values {
        let element = E::element_of(alloc, value)?;
        if elements.push(element).is_err() {
            return Err(FoundingRefusal::NoMemory);
        }
    }
    Ok(elements)
}

/// The names that texts are.
pub(crate) fn names_of(alloc: Global, texts: &[Value]) -> Result<Vec<Name>, FoundingRefusal>
    ensures { Reads (names_of (map text_of texts.now)) (seen (λ names. names.items) result) }
{
    elements_of(alloc, texts)
}

// These names in order, for equal ones to be found among them.
fn in_order(alloc: Global, names: &[Name]) -> Result<Vec<Name>, AllocError> {
    let mut sorted = duplicate_all(alloc, names)?;
    sorted.sort_unstable();
    Ok(sorted)
}

// A copy of the name, by the bytes of the equal one among these where there is one.
fn shared_name(name: &Name, sorted: &[Name]) -> Result<Name, AllocError>
    ensures { IfOk result (λ shared. shared ≡ name.now) }
{
    match sorted.binary_search(name) {
        Ok(at) if sorted[at].same(name) => sorted[at].copy(),
        _ => name.copy(),
    }
}

// The same permissions, by the bytes of these names: a list of permissions then reads few bytes again and again.
fn with_shared_names(
    alloc: Global,
    permissions: &[(Name, Name)],
    operations: &[Name],
    objects: &[Name],
) -> Result<Vec<(Name, Name)>, AllocError>
    ensures { IfOk result (λ shared. shared.items ≡ permissions.now) }
{
    let operations = in_order(alloc, operations)?;
    let objects = in_order(alloc, objects)?;
    let mut shared = Vec::with_capacity(alloc, permissions.len())?;
    for permission in permissions {
        let operation = shared_name(&permission.0, &operations)?;
        let object = shared_name(&permission.1, &objects)?;
        shared.push((operation, object))?;
    }
    Ok(shared)
}

/// The permissions that pairs of texts are, by the bytes of these operations and objects.
pub(crate) fn permissions_of(
    alloc: Global,
    pairs: &[Value],
    operations: &[Name],
    objects: &[Name],
) -> Result<Vec<(Name, Name)>, FoundingRefusal>
    ensures { Reads (permissions_of (map pair_of pairs.now)) (seen (λ permissions. permissions.items) result) }
{
    let permissions: Vec<(Name, Name)> = elements_of(alloc, pairs)?;
    match with_shared_names(alloc, &permissions, operations, objects) {
        Ok(shared) => Ok(shared),
        Err(AllocError) => Err(FoundingRefusal::NoMemory),
    }
}
