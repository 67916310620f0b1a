//! What a policy holds of one user or of one role.
ghost use Rattle.std.specs.Prelude.{◌≡◌, ◌∷◌, [], if◌then◌else◌, filter, map, IfOk};
ghost use Rattle.std.specs.List.Sorted.{IsStrictlySortedBy};
ghost use Rattle.std.specs.Ordering.{eq_by_cmp};
ghost use Rattle.sorted_keys.specs.Keys.{has};
ghost use Rattle.rbac_terms.specs.Name.{Name as NameValue, Permission, name_cmp, pair_cmp, grant_cmp};
ghost use Rattle.rbac_terms.specs.Inheritance.{juniors, seniors};
ghost use Rattle.rbac_reasons.specs.Lists.{turned, granted_to};

use crate::after::lone;
use crate::pairs::beginning_with;
use crate::walk::reached;
use rbac_decide::Policy;
use rbac_terms::{Name, NameSet, PermissionSet};
use sorted_keys::{KeyTest, SortedSet};
use std::alloc::{AllocError, Global};

/// The assignments of a user, sorted by role.
pub fn assignments_of<'p>(policy: &'p Policy, user: &Name) -> &'p [(Name, Name)]
    ensures { result.now ≡ filter (λ pair. eq_by_cmp name_cmp user.now pair.0) policy.now.assigned }
{
    policy.invariants();
    beginning_with(policy.assignments(), user)
}

/// The declared pairs of which a role is the ascendant, sorted by descendant.
pub fn declarations_of<'p>(policy: &'p Policy, role: &Name) -> &'p [(Name, Name)]
    ensures { result.now ≡ filter (λ pair. eq_by_cmp name_cmp role.now pair.0) policy.now.declared }
{
    policy.invariants();
    beginning_with(policy.declarations(), role)
}

// Whether it is one of the roles.
fn has_role(policy: &Policy, role: &Name) -> bool
    ensures { result ≡ has name_cmp role.now policy.now.roles }
{
    policy.roles().iter().any(|other| role.cmp(other).is_eq())
}

// The role alone, if it is one.
fn alone(alloc: Global, policy: &Policy, role: &Name) -> Result<NameSet, AllocError>
    ensures { IfOk result (λ names. names ≡ (if has name_cmp role.now policy.now.roles then role.now ∷ [] else [])) }
{
    match has_role(policy, role) {
        true => lone(alloc, role),
        false => Ok(NameSet::new(alloc)),
    }
}

/// The roles that a role inherits, itself among them; none where it is no role.
///
/// # Errors
/// `AllocError` where there is no memory for it.
pub fn juniors(alloc: Global, policy: &Policy, role: &Name) -> Result<NameSet, AllocError>
    ensures { IfOk result (λ names. names ≡ juniors policy.now.roles policy.now.declared role.now) }
{
    policy.invariants();
    let starts = alone(alloc, policy, role)?;
    let names = reached(alloc, policy.declarations(), &starts)?;
    let _in_order = names.names();
    Ok(names)
}

// Pairs turned round, in the order of the pairs.
fn turned_pairs(alloc: Global, pairs: &[(Name, Name)]) -> Result<Vec<(Name, Name)>, AllocError>
    ensures { IfOk result (λ others. others.items ≡ map turned pairs.now) }
{
    let mut others = Vec::new(alloc);
    for pair in pairs {
        others.push((pair.1.copy()?, pair.0.copy()?))?;
    }
    Ok(others)
}

// The declared pairs turned round, a descendant and an ascendant each, as a set.
fn turned_set(
    alloc: Global,
    declared: &[(Name, Name)],
) -> Result<SortedSet<(Name, Name)>, AllocError>
    requires { IsStrictlySortedBy pair_cmp declared.now }
    ensures { IfOk result (λ set. (pair : NameValue × NameValue) → has pair_cmp pair set.content ≡ has pair_cmp (turned pair) declared.now) }
{
    match SortedSet::from_vec(turned_pairs(alloc, declared)?) {
        Ok(set) => Ok(set),
        Err(_) => unreachable!(),
    }
}

/// The roles that inherit a role, itself among them; none where it is no role.
///
/// # Errors
/// `AllocError` where there is no memory for it.
pub fn seniors(alloc: Global, policy: &Policy, role: &Name) -> Result<NameSet, AllocError>
    ensures { IfOk result (λ names. names ≡ seniors policy.now.roles policy.now.declared role.now) }
{
    policy.invariants();
    let pairs = turned_set(alloc, policy.declarations())?;
    let starts = alone(alloc, policy, role)?;
    let names = reached(alloc, pairs.keys(), &starts)?;
    let _in_order = names.names();
    Ok(names)
}

// A permission that is granted to the role itself.
#[derive(Drop)]
struct GrantedTo<'a> {
    policy: &'a Policy,
    role: &'a Name,
}

impl KeyTest<(Name, Name)> for GrantedTo<'_> {
    ghost passes = { λ t permission. has grant_cmp (permission, t.role.now) t.policy.now.granted };

    fn test(&self, permission: &(Name, Name)) -> bool {
        self.policy
            .is_granted(&permission.0, &permission.1, self.role)
    }
}

/// The permissions that are granted to a role itself, and not by one that it inherits.
///
/// # Errors
/// `AllocError` where there is no memory for it.
pub fn permissions_of(
    alloc: Global,
    policy: &Policy,
    role: &Name,
) -> Result<PermissionSet, AllocError>
    ensures listed { IfOk result (λ permissions. permissions ≡ granted_to policy.now role.now) }
    ensures granted { IfOk result (λ permissions. (permission : Permission) → has pair_cmp permission permissions ≡ has grant_cmp (permission, role.now) policy.now.granted) }
{
    policy.invariants();
    let granted = GrantedTo { policy, role };
    policy.vocabulary().permissions_where(alloc, &granted)
}
