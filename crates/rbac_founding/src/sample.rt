//! The founding of a world that is given none.
ghost use Rattle.std.specs.Prelude.{◌≡◌, IfOk, IsTrue, ◌∷◌, [], ◌++◌};
ghost use Rattle.rbac_terms.specs.Name.{is_name};
ghost use Rattle.rbac_founding.specs.Sample.{sample_group, sample_vocabulary};

use crate::founding::Founding;
use rbac_words::limits::MOST_SENT;
use rbac_words::{Group, Name, NameRefusal, Vocabulary};
use std::alloc::{AllocError, Global};

// A name that is known to be one.
fn known_name(alloc: Global, text: &[u8]) -> Result<Name, AllocError>
    requires { IsTrue (is_name text.now) }
    ensures { IfOk result (λ name. name ≡ text.now) }
{
    match Name::read(alloc, text) {
        Ok(name) => Ok(name),
        Err(NameRefusal::BadName) => unreachable!(),
        Err(NameRefusal::NoMemory) => Err(AllocError),
    }
}

fn sample_operations(alloc: Global) -> Result<Vec<Name>, AllocError>
    ensures { IfOk result (λ names. names.items ≡ sample_vocabulary.operations) }
{
    let mut operations = Vec::new(alloc);
    operations.push(known_name(alloc, b"approve")?)?;
    operations.push(known_name(alloc, b"pay")?)?;
    operations.push(known_name(alloc, b"read")?)?;
    Ok(operations)
}

fn sample_objects(alloc: Global) -> Result<Vec<Name>, AllocError>
    ensures { IfOk result (λ names. names.items ≡ sample_vocabulary.objects) }
{
    let mut objects = Vec::new(alloc);
    objects.push(known_name(alloc, b"invoice")?)?;
    objects.push(known_name(alloc, b"ledger")?)?;
    Ok(objects)
}

fn known_permission(
    alloc: Global,
    operation: &[u8],
    object: &[u8],
) -> Result<(Name, Name), AllocError>
    requires operation { IsTrue (is_name operation.now) }
    requires object { IsTrue (is_name object.now) }
    ensures { IfOk result (λ permission. permission ≡ (operation.now, object.now)) }
{
    Ok((known_name(alloc, operation)?, known_name(alloc, object)?))
}

fn sample_permissions(alloc: Global) -> Result<Vec<(Name, Name)>, AllocError>
    ensures { IfOk result (λ permissions. permissions.items ≡ sample_vocabulary.permissions) }
{
    let mut permissions = Vec::new(alloc);
    permissions.push(known_permission(alloc, b"approve", b"invoice")?)?;
    permissions.push(known_permission(alloc, b"pay", b"invoice")?)?;
    permissions.push(known_permission(alloc, b"read", b"ledger")?)?;
    Ok(permissions)
}

/// The founding that the program plays on where it is given none: one member, operations `approve`, `pay` and `read`,
/// objects `invoice` and `ledger`, and the permissions to approve and pay invoices and to read ledgers.
///
/// # Errors
/// `AllocError` where memory ends.
pub fn sample_founding(alloc: Global) -> Result<Founding, AllocError>
    ensures group { IfOk result (λ founding. founding.group ≡ sample_group) }
    ensures vocabulary { IfOk result (λ founding. founding.vocabulary ≡ sample_vocabulary) }
{
    let operations = sample_operations(alloc)?;
    let objects = sample_objects(alloc)?;
    let permissions = sample_permissions(alloc)?;
    let (Ok(group), Ok(vocabulary)) = (
        Group::build(1, 0, MOST_SENT),
        Vocabulary::build(operations, objects, permissions),
    ) else {
        unreachable!()
    };
    Ok(Founding { group, vocabulary })
}
