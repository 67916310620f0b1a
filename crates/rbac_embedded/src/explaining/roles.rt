//! Roles as an array.
ghost use Rattle.std.specs.Prelude.{◌≡◌, ◌++◌, ◌∷◌, OnOk};
ghost use Rattle.std.specs.List.{flat_map};
ghost use Rattle.rbac_text.specs.Pieces.{array_text, in_quotes};
ghost use Rattle.rbac_embedded.specs.Explaining.{next_role};

use rbac_terms::Name;
use rbac_text::pieces::put_piece;
use std::alloc::AllocError;

// A role behind what stands before it.
fn put_role(text: &mut Vec<u8>, before: &str, role: &Name) -> Result<(), AllocError>
    ensures { OnOk result (text.new.items ≡ text.old.items ++ before.now ++ in_quotes role.now) }
{
    put_piece(text, before)?;
    put_piece(text, "\"")?;
    text.extend_from_slice(role.as_bytes())?;
    put_piece(text, "\"")
}

// The roles behind the first one.
fn put_others(text: &mut Vec<u8>, roles: &[Name]) -> Result<(), AllocError>
    ensures { OnOk result (text.new.items ≡ text.old.items ++ flat_map next_role roles.now) }
{
    for role in roles {
        put_role(text, ",", role)?;
    }
    Ok(())
}

/// A role and others as one array, behind what stands before it.
///
/// # Errors
/// `AllocError` where there is no memory for it.
pub(crate) fn put_chain(
    text: &mut Vec<u8>,
    before: &str,
    first: &Name,
    others: &[Name],
) -> Result<(), AllocError>
    ensures { OnOk result (text.new.items ≡ text.old.items ++ before.now ++ array_text in_quotes (first.now ∷ others.now)) }
{
    put_piece(text, before)?;
    put_role(text, "[", first)?;
    put_others(text, others)?;
    put_piece(text, "]")
}

/// Roles as an array, behind what stands before it.
///
/// # Errors
/// `AllocError` where there is no memory for it.
pub(crate) fn put_roles(text: &mut Vec<u8>, before: &str, roles: &[Name]) -> Result<(), AllocError>
    ensures { OnOk result (text.new.items ≡ text.old.items ++ before.now ++ array_text in_quotes roles.now) }
{
    match roles {
        [] => {
            put_piece(text, before)?;
            put_piece(text, "[]")
        }
        [first, others @ ..] => put_chain(text, before, first, others),
    }
}
