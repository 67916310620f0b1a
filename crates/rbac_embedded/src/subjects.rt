//! Who may perform an operation on an object.
ghost use Rattle.std.specs.Prelude.{◌≡◌, ◌≢◌, IfOk, IfErr, Ok, Err};
ghost use Rattle.rbac_terms.specs.Subjects.{subjects_denial};
ghost use Rattle.rbac_embedded.specs.Status.{no_memory, status_number};
ghost use Rattle.rbac_embedded.specs.Subjects.{listed_text, listed_unless, name_of, subjects};

use crate::status::Status;
use crate::verdict::Verdict;
use rbac_decide::Policy;
use rbac_terms::{Denial, Name, NameRefusal};
use rbac_text::put_subjects;
use std::alloc::{AllocError, Global};

// The name that a text is.
fn name_of(alloc: Global, text: &[u8]) -> Result<Name, Status>
    ensures read { IfOk result (λ name. name_of text.now ≡ Ok name) }
    ensures refused { IfErr result (λ status. status_number status ≢ no_memory → name_of text.now ≡ Err status) }
{
    match Name::read(alloc, text) {
        Ok(name) => Ok(name),
        Err(NameRefusal::BadName) => Err(Status::Checked(Verdict::BadName)),
        Err(NameRefusal::NoMemory) => Err(Status::NoMemory),
    }
}

// Why nobody is listed.
fn denial_of(policy: &Policy, operation: &Name, object: &Name) -> Option<Denial>
    ensures { result ≡ subjects_denial operation.now object.now policy.now }
{
    let vocabulary = policy.vocabulary();
    if !vocabulary.has_operation(operation) {
        return Some(Denial::NoOperation);
    }
    if !vocabulary.has_object(object) {
        return Some(Denial::NoObject);
    }
    None
}

// The text of those who may.
fn listed_text(
    alloc: Global,
    policy: &Policy,
    operation: &Name,
    object: &Name,
) -> Result<Vec<u8>, AllocError>
    ensures { IfOk result (λ text. text.items ≡ listed_text policy.now (operation.now, object.now)) }
{
    let subjects = policy.subjects(alloc, operation, object)?;
    let mut text = Vec::new(alloc);
    put_subjects(&mut text, subjects.sessions.names(), subjects.users.names())?;
    Ok(text)
}

// The text of those who may, or why it is not told.
fn told(alloc: Global, policy: &Policy, operation: &Name, object: &Name) -> Result<Vec<u8>, Status>
    ensures text { let s = policy.now in IfOk result (λ text. listed_unless (subjects_denial operation.now object.now s) (listed_text s (operation.now, object.now)) ≡ Ok text.items) }
    ensures none { let s = policy.now in IfErr result (λ status. status_number status ≢ no_memory → listed_unless (subjects_denial operation.now object.now s) (listed_text s (operation.now, object.now)) ≡ Err status) }
{
    match denial_of(policy, operation, object) {
        Some(denial) => Err(Status::Checked(Verdict::Denied(denial))),
        None => match listed_text(alloc, policy, operation, object) {
            Ok(text) => Ok(text),
            Err(AllocError) => Err(Status::NoMemory),
        },
    }
}

/// The text of who may perform the operation on the object by this policy: `{"sessions":[..],"users":[..]}`, each list sorted by bytes.
///
/// # Errors
/// The first that applies: that one of the texts is no name; that there is no such operation, no such object. `NoMemory` where memory
/// ends.
pub fn subjects_text(
    alloc: Global,
    policy: &Policy,
    operation: &[u8],
    object: &[u8],
) -> Result<Vec<u8>, Status>
    ensures text { IfOk result (λ text. subjects operation.now object.now policy.now ≡ Ok text.items) }
    ensures none { IfErr result (λ status. status_number status ≢ no_memory → subjects operation.now object.now policy.now ≡ Err status) }
{
    let operation = name_of(alloc, operation)?;
    let object = name_of(alloc, object)?;
    told(alloc, policy, &operation, &object)
}
