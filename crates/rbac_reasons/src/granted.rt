//! Why access is granted.
ghost use Rattle.std.specs.Prelude.{◌≡◌, ◌↔◌, true, IsTrue, IfOk, IfSome, IsSome};
ghost use Rattle.std.specs.List.Sorted.{IsStrictlySortedBy};
ghost use Rattle.std.specs.Option.{option_copied};
ghost use Rattle.std.specs.FinMap.Entries.{find};
ghost use Rattle.sorted_keys.specs.Keys.{has};
ghost use Rattle.rbac_terms.specs.Name.{Name as NameValue, name_cmp, grant_cmp};
ghost use Rattle.rbac_terms.specs.Effect.{reply, session_holds};
ghost use Rattle.rbac_terms.specs.declared.answer.Answer.TheVariants.{Granted};
ghost use Rattle.rbac_terms.specs.declared.command.Command.TheVariants.{CheckAccess};
ghost use Rattle.rbac_reasons.specs.Reason.{IsReason};

use crate::told::Reason;
use crate::walk::find_chain;
use rbac_decide::Policy;
use rbac_terms::{Name, NameSet};
use std::alloc::{AllocError, Global};

// Whether a check is answered Granted.
fn is_granted(policy: &Policy, session: &Name, operation: &Name, object: &Name) -> bool
    ensures granted { IsTrue result ↔ (reply (CheckAccess session.now operation.now object.now) policy.now ≡ Granted) }
    ensures held { result ≡ true → session_holds (find name_cmp session.now policy.now.sessions) policy.now (operation.now, object.now) ≡ true }
{
    policy.check(session, operation, object).unwrap_or(false)
}

// The roles that are granted the permission.
fn goals_of(
    alloc: Global,
    policy: &Policy,
    operation: &Name,
    object: &Name,
) -> Result<NameSet, AllocError>
    ensures { IfOk result (λ goals. (role : NameValue) → has name_cmp role goals ≡ has grant_cmp ((operation.now, object.now), role) policy.now.granted) }
{
    let roles = policy.granted_roles(operation, object);
    let mut goals = NameSet::new(alloc);
    for role in roles {
        goals.add_copy(role)?;
    }
    Ok(goals)
}

/// Why a check of access is granted: a role that is active in the session, and the roles from it down the declared pairs to one
/// that is granted the permission; or none where the check is not answered Granted.
///
/// # Errors
/// `AllocError` where there is no memory for it.
pub fn reason(
    alloc: Global,
    policy: &Policy,
    session: &Name,
    operation: &Name,
    object: &Name,
) -> Result<Option<Reason>, AllocError>
    ensures reason { IfOk result (λ found. IfSome found (IsReason policy.now session.now (operation.now, object.now))) }
    ensures granted { IfOk result (λ found. IsSome found ↔ (reply (CheckAccess session.now operation.now object.now) policy.now ≡ Granted)) }
{
    policy.invariants();
    if !is_granted(policy, session, operation, object) {
        return Ok(None);
    }
    let Some(found) = policy.session(session) else {
        return Ok(None);
    };
    let goals = goals_of(alloc, policy, operation, object)?;
    match find_chain(alloc, policy.declarations(), &found.active, &goals)? {
        Some(chain) => Ok(Some(Reason {
            active: chain.first,
            inherited: chain.rest,
            granted: chain.last,
        })),
        None => Ok(None),
    }
}
