//! The permissions of a role, of a user and of a session.
ghost use Rattle.std.specs.Prelude.{◌≡◌, IfOk, filter};
ghost use Rattle.std.specs.List.{list_any};
ghost use Rattle.sorted_keys.specs.Keys.{has};
ghost use Rattle.rbac_terms.specs.Name.{Name as NameValue, name_cmp};
ghost use Rattle.rbac_terms.specs.Authorization.{inherits_in};
ghost use Rattle.rbac_terms.specs.Reviews.{active_roles, role_permissions, user_permissions, session_permissions};
ghost use Rattle.rbac_review.specs.Among.{is_granted_to_one};

use crate::hashed::HashedNames;
use crate::parts::Parts;
use rbac_hierarchy::RoleOrder;
use rbac_rolesets::RoleSets;
use rbac_terms::{Name, NameSet, PermissionSet, Vocabulary};
use std::alloc::{AllocError, Global};

// Whether one of the roles that something is granted to is among these.
fn is_to_one(grants: &[Name], roles: &NameSet) -> bool
    ensures { result ≡ list_any (λ role. has name_cmp role roles.now) grants.now }
{
    grants.iter().any(|role| roles.contains(role))
}

/// Whether the operation on the object is granted to one of the roles.
pub(crate) fn is_granted_to_one(
    sets: &RoleSets,
    roles: &NameSet,
    operation: &Name,
    object: &Name,
) -> bool
    ensures { result ≡ is_granted_to_one roles.now sets.now.content.granted (operation.now, object.now) }
{
    is_to_one(sets.grants_of(operation, object), roles)
}

// The permissions that are granted to one of the roles. Each grant's role is sought among them, by its hash.
fn granted_to_one(
    alloc: Global,
    vocabulary: &Vocabulary,
    sets: &RoleSets,
    roles: &NameSet,
) -> Result<PermissionSet, AllocError>
    ensures { IfOk result (λ permissions. permissions ≡ filter (is_granted_to_one roles.now sets.now.content.granted) vocabulary.now.permissions) }
{
    let roles = HashedNames::of(alloc, roles)?;
    sets.permissions_granted(alloc, vocabulary, &roles)
}

impl Parts<'_> {
    ghost use Rattle.rbac_review.specs.Parts.{state_of};

    /// The permissions of the role, inherited ones included (ANSI INCITS 359-2004, 6.1.4 and 6.2: RolePermissions).
    ///
    /// # Errors
    /// `AllocError` where there is no memory for it.
    pub fn role_permissions(&self, alloc: Global, role: &Name) -> Result<PermissionSet, AllocError>
        ensures { IfOk result (λ permissions. permissions ≡ role_permissions (state_of self.now) role.now) }
    {
        let juniors = self.hierarchy.juniors(alloc, role)?;
        granted_to_one(alloc, self.vocabulary, self.sets, &juniors)
    }

    /// The permissions of the roles that the user is authorized for (6.1.4 and 6.2: UserPermissions).
    ///
    /// # Errors
    /// `AllocError` where there is no memory for it.
    pub fn user_permissions(&self, alloc: Global, user: &Name) -> Result<PermissionSet, AllocError>
        ensures { IfOk result (λ permissions. permissions ≡ user_permissions (state_of self.now) user.now) }
    {
        let roles = self.authorized_roles(alloc, user)?;
        granted_to_one(alloc, self.vocabulary, self.sets, &roles)
    }

    // The roles that an active role of the session inherits, each active role among them.
    fn roles_at_work(&self, alloc: Global, session: &Name) -> Result<NameSet, AllocError>
        ensures { let s = state_of self.now in IfOk result (λ roles. (r : NameValue) → has name_cmp r roles ≡ list_any (λ role. inherits_in s role r) (active_roles s session.now)) }
    {
        match self.sessions.roles(session) {
            Some(active) => self.hierarchy.juniors_of_all(alloc, active.names()),
            None => Ok(NameSet::new(alloc)),
        }
    }

    /// The permissions of the roles that are active in the session (6.1.4: SessionPermissions).
    ///
    /// # Errors
    /// `AllocError` where there is no memory for it.
    pub fn session_permissions(
        &self,
        alloc: Global,
        session: &Name,
    ) -> Result<PermissionSet, AllocError>
        ensures { IfOk result (λ permissions. permissions ≡ session_permissions (state_of self.now) session.now) }
    {
        let roles = self.roles_at_work(alloc, session)?;
        granted_to_one(alloc, self.vocabulary, self.sets, &roles)
    }
}
