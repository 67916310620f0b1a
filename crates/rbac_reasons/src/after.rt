//! What a command would make of a set of separation, and of the roles that a user or a session has.
ghost use Rattle.std.specs.Prelude.{◌≡◌, ◌∷◌, [], IfOk};
ghost use Rattle.std.specs.FinMap.Entries.{find};
ghost use Rattle.std.specs.Option.{option_copied};
ghost use Rattle.sorted_keys.specs.Keys.{has};
ghost use Rattle.rbac_terms.specs.Name.{Name as NameValue, name_cmp};
ghost use Rattle.rbac_terms.specs.Constraints.{sets_of};
ghost use Rattle.rbac_terms.specs.Reviews.{active_roles};
ghost use Rattle.rbac_reasons.specs.Explanation.{holds};
ghost use Rattle.rbac_reasons.specs.After.{changed, changed_set, gained};

use crate::authorized::authorized_roles;
use crate::lists::juniors;
use rbac_decide::{Policy, RoleSet};
use rbac_terms::{Command, Name, NameSet, Separation};
use std::alloc::{AllocError, Global};

// The set of this name.
fn set_called<'a>(sets: &'a [(Name, RoleSet)], set: &Name) -> Option<&'a RoleSet>
    ensures { option_copied result ≡ find name_cmp set.now sets.now }
{
    for entry in sets {
        if set.cmp(&entry.0).is_eq() {
            return Some(&entry.1);
        }
    }
    None
}

// A set as a command would change it.
fn changed(command: &Command, set: &RoleSet) -> Result<RoleSet, AllocError>
    ensures { IfOk result (λ new. new ≡ changed command.now set.now) }
{
    let cardinality = set.cardinality;
    match command {
        Command::AddRoleMember { role, .. } => Ok(RoleSet {
            roles: set.roles.copy_with(role)?,
            cardinality,
        }),
        Command::DeleteRoleMember { role, .. } => {
            let mut roles = set.roles.copy()?;
            roles.remove(role);
            Ok(RoleSet { roles, cardinality })
        }
        Command::SetCardinality { n, .. } => Ok(RoleSet {
            roles: set.roles.copy()?,
            cardinality: *n,
        }),
        _ => Ok(RoleSet {
            roles: set.roles.copy()?,
            cardinality,
        }),
    }
}

/// The set of this name of a kind as the command would create or change it, if it is its set.
pub(crate) fn set_after(
    policy: &Policy,
    command: &Command,
    kind: Separation,
    set: &Name,
) -> Result<Option<RoleSet>, AllocError>
    ensures { IfOk result (λ new. new ≡ changed_set command.now (find name_cmp set.now (sets_of kind policy.now))) }
{
    match (command, set_called(policy.separation_sets(kind), set)) {
        (Command::CreateSet { roles, n, .. }, _) => Ok(Some(RoleSet {
            roles: roles.copy()?,
            cardinality: *n,
        })),
        (_, Some(found)) => Ok(Some(changed(command, found)?)),
        (_, None) => Ok(None),
    }
}

/// The set of this name alone.
pub(crate) fn lone(alloc: Global, name: &Name) -> Result<NameSet, AllocError>
    ensures { IfOk result (λ names. names ≡ name.now ∷ []) }
{
    let mut names = NameSet::new(alloc);
    names.add_copy(name)?;
    Ok(names)
}

// The roles that are active in a session.
fn active_roles(alloc: Global, policy: &Policy, session: &Name) -> Result<NameSet, AllocError>
    ensures { IfOk result (λ roles. roles ≡ active_roles policy.now session.now) }
{
    match policy.session(session) {
        Some(found) => found.active.copy(),
        None => Ok(NameSet::new(alloc)),
    }
}

/// The roles that a user is authorized for, or that are active in a session.
pub(crate) fn held(
    alloc: Global,
    policy: &Policy,
    kind: Separation,
    holder: &Name,
) -> Result<NameSet, AllocError>
    ensures { IfOk result (λ roles. (role : NameValue) → has name_cmp role roles ≡ holds kind policy.now holder.now role) }
{
    match kind {
        Separation::Static => authorized_roles(alloc, policy, holder),
        Separation::Dynamic => active_roles(alloc, policy, holder),
    }
}

/// The roles that a command would give a user, or make active in a session.
pub(crate) fn gained(
    alloc: Global,
    policy: &Policy,
    command: &Command,
) -> Result<NameSet, AllocError>
    ensures { IfOk result (λ roles. roles ≡ gained command.now policy.now) }
{
    match command {
        Command::AssignUser { role, .. } => juniors(alloc, policy, role),
        Command::AddInheritance { descendant, .. } => juniors(alloc, policy, descendant),
        Command::CreateSession { roles, .. } => roles.copy(),
        Command::AddActiveRole { role, .. } => lone(alloc, role),
        _ => Ok(NameSet::new(alloc)),
    }
}
