//! Grants that are planned: the roles of a permission after earlier changes of a plan, and one more.
ghost use Rattle.std.specs.Prelude.{◌≡◌, IfOk};
ghost use Rattle.std.specs.List.Sorted.{IsStrictlySortedBy};
ghost use Rattle.std.specs.Option.{option_copied};
ghost use Rattle.staged.specs.Made.{made_all};
ghost use Rattle.sorted_keys.specs.Keys.{with_key};
ghost use Rattle.hashed_keys.specs.Pairs.{found, seconds, replaced};
ghost use Rattle.rbac_terms.specs.Name.{name_cmp, pair_cmp, grant_cmp};
ghost use Rattle.rbac_rolesets.specs.Changes.{made};
ghost use Rattle.rbac_rolesets.specs.Sets.{Sets};

use crate::change::Step;
use crate::role_sets::RoleSets;
use hashed_keys::KeySet;
use rbac_terms::Name;
use staged::Plan;
use std::alloc::{AllocError, Global};

// These roles, where they are of the permission that is asked for, or the earlier ones.
fn newer<'a>(
    roles: &'a KeySet<Name>,
    permission: &(Name, Name),
    earlier: Option<&'a KeySet<Name>>,
    asked: &(Name, Name),
) -> Option<&'a KeySet<Name>>
    ensures { (before : Sets) → IsStrictlySortedBy grant_cmp before.granted → found (option_copied earlier.entry) ≡ seconds pair_cmp asked.now before.granted → found (option_copied result) ≡ seconds pair_cmp asked.now (replaced pair_cmp name_cmp permission.now roles.now before.granted) }
{
    let _roles = roles.keys();
    if asked.cmp(permission).is_eq() {
        Some(roles)
    } else {
        earlier
    }
}

// The roles of a permission after a step, by those before it.
fn roles_next<'a>(
    earlier: Option<&'a KeySet<Name>>,
    step: &'a Step,
    asked: &(Name, Name),
) -> Option<&'a KeySet<Name>>
    ensures { (before : Sets) → IsStrictlySortedBy grant_cmp before.granted → found (option_copied earlier.entry) ≡ seconds pair_cmp asked.now before.granted → found (option_copied result) ≡ seconds pair_cmp asked.now (made step.now before).granted }
{
    match step {
        Step::AddUser { .. } | Step::AddRole { .. } | Step::Assign { .. } => earlier,
        Step::Grant { permission, roles } => newer(roles, permission, earlier, asked),
    }
}

// The roles of a permission after the steps of this plan.
fn roles_after<'a>(
    sets: &'a RoleSets,
    plan: &'a Plan<Step>,
    asked: &(Name, Name),
) -> Option<&'a KeySet<Name>>
    ensures { found (option_copied result) ≡ seconds pair_cmp asked.now (made_all made plan.now sets.now.content).granted }
{
    sets.invariants();
    let mut roles = sets.grant_set(asked);
    for place in 0..plan.len() {
        if let Some(step) = plan.get(place) {
            roles = roles_next(roles, step, asked);
        }
    }
    roles
}

// These roles and one more.
fn with_role(
    alloc: Global,
    roles: Option<&KeySet<Name>>,
    role: &Name,
) -> Result<KeySet<Name>, AllocError>
    ensures { IfOk result (λ more. more ≡ with_key name_cmp role.now (found (option_copied roles.entry))) }
{
    match roles {
        Some(roles) => roles.copy_with(role),
        None => KeySet::of_one(alloc, role),
    }
}

// The step that grants an operation on an object to a role after these steps.
pub(crate) fn grant_step(
    alloc: Global,
    sets: &RoleSets,
    before: &Plan<Step>,
    operation: &Name,
    object: &Name,
    role: &Name,
) -> Result<Step, AllocError>
    ensures { let reached = made_all made before.now sets.now.content in IfOk result (λ step. made step reached ≡ record reached { granted = with_key grant_cmp ((operation.now, object.now), role.now) reached.granted }) }
{
    sets.invariants();
    let permission = (operation.copy()?, object.copy()?);
    let roles = with_role(alloc, roles_after(sets, before, &permission), role)?;
    Ok(Step::Grant { permission, roles })
}
