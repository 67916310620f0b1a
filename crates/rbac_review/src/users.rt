//! The users of a role, and the roles of a user.
ghost use Rattle.std.specs.Prelude.{◌≡◌, ◌||◌, ◌&&◌, IfOk, filter};
ghost use Rattle.std.specs.Ordering.{eq_by_cmp};
ghost use Rattle.sorted_keys.specs.Keys.{has};
ghost use Rattle.rbac_terms.specs.Name.{Name as NameValue, name_cmp};
ghost use Rattle.rbac_terms.specs.Relations.{users_of, roles_of};
ghost use Rattle.rbac_terms.specs.Reviews.{authorized_users, authorized_roles};
ghost use Rattle.rbac_review.specs.Among.{is_assigned_one};

use crate::parts::Parts;
use rbac_hierarchy::{Hierarchy, RoleOrder};
use rbac_rolesets::RoleSets;
use rbac_terms::{Name, NameSet};
use std::alloc::{AllocError, Global};

// The users that are assigned one of the roles.
fn users_assigned_one(
    alloc: Global,
    sets: &RoleSets,
    roles: &NameSet,
) -> Result<NameSet, AllocError>
    ensures { let s = sets.now.content in IfOk result (λ users. users ≡ filter (is_assigned_one roles.now s.assigned) s.users) }
{
    sets.users_assigned(alloc, roles)
}

// Whether it is a role of the hierarchy: a role inherits itself, and what is no role inherits nothing.
fn is_role(hierarchy: &Hierarchy, role: &Name) -> bool
    ensures { result ≡ has name_cmp role.now hierarchy.now.content.roles }
{
    hierarchy.inherits(role, role)
}

// The names, and this one where it is a role of the hierarchy.
fn with_role(hierarchy: &Hierarchy, names: NameSet, role: &Name) -> Result<NameSet, AllocError>
    ensures { IfOk result (λ more. (r : NameValue) → has name_cmp r more ≡ (has name_cmp r names || (eq_by_cmp name_cmp r role.now && has name_cmp role.now hierarchy.now.content.roles))) }
{
    let mut more = names;
    if is_role(hierarchy, role) {
        more.add_copy(role)?;
    }
    Ok(more)
}

// The roles of the hierarchy that are assigned to the user. No other role is looked at.
fn roles_assigned(
    alloc: Global,
    hierarchy: &Hierarchy,
    sets: &RoleSets,
    user: &Name,
) -> Result<NameSet, AllocError>
    ensures { IfOk result (λ roles. roles ≡ roles_of user.now hierarchy.now.content.roles sets.now.content.assigned) }
{
    hierarchy.invariants();
    let mut roles = NameSet::new(alloc);
    let assignments = sets.assignments_of(user);
    for pair in assignments {
        roles = with_role(hierarchy, roles, &pair.1)?;
    }
    let _in_order = roles.names();
    Ok(roles)
}

impl Parts<'_> {
    ghost use Rattle.rbac_review.specs.Parts.{state_of};

    /// The users that the role is assigned to (ANSI INCITS 359-2004, 6.1.3: AssignedUsers).
    ///
    /// # Errors
    /// `AllocError` where there is no memory for it.
    pub fn assigned_users(&self, alloc: Global, role: &Name) -> Result<NameSet, AllocError>
        ensures { let s = state_of self.now in IfOk result (λ users. users ≡ users_of role.now s.users s.assigned) }
    {
        self.sets.users_of(alloc, role)
    }

    /// The roles that are assigned to the user (6.1.3: AssignedRoles).
    ///
    /// # Errors
    /// `AllocError` where there is no memory for it.
    pub fn assigned_roles(&self, alloc: Global, user: &Name) -> Result<NameSet, AllocError>
        ensures { let s = state_of self.now in IfOk result (λ roles. roles ≡ roles_of user.now s.roles s.assigned) }
    {
        roles_assigned(alloc, self.hierarchy, self.sets, user)
    }

    /// The users that are authorized for the role, inherited roles counted (6.2: AuthorizedUsers).
    ///
    /// # Errors
    /// `AllocError` where there is no memory for it.
    pub fn authorized_users(&self, alloc: Global, role: &Name) -> Result<NameSet, AllocError>
        ensures { IfOk result (λ users. users ≡ authorized_users (state_of self.now) role.now) }
    {
        let seniors = self.hierarchy.seniors(alloc, role)?;
        users_assigned_one(alloc, self.sets, &seniors)
    }

    /// The roles that the user is authorized for, inherited ones counted (6.2: AuthorizedRoles).
    ///
    /// # Errors
    /// `AllocError` where there is no memory for it.
    pub fn authorized_roles(&self, alloc: Global, user: &Name) -> Result<NameSet, AllocError>
        ensures { IfOk result (λ roles. roles ≡ authorized_roles (state_of self.now) user.now) }
    {
        self.hierarchy.invariants();
        let none = NameSet::new(alloc);
        let assignments = self.sets.assignments_of(user);
        let roles = self.hierarchy.with_juniors_of_assigned(none, assignments)?;
        let _in_order = roles.names();
        Ok(roles)
    }
}
