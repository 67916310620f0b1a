//! Which sessions a deletion ends.
ghost use Rattle.std.specs.Prelude.{◌≡◌, ◌&&◌, ◌||◌, not};
ghost use Rattle.rbac_decide.specs.Words.{list_any, eq_by_cmp, has, is_entitled as is_entitled_in, inherits, name_cmp};
ghost use Rattle.rbac_decide.specs.Tables.{state_of_roles};

use crate::authorization::{inherits_one_of, is_entitled};
use rbac_hierarchy::Hierarchy;
use rbac_rolesets::RoleSets;
use rbac_sessions::SessionTest;
use rbac_terms::{Name, NameSet};

/// The sessions of a user.
#[derive(Drop)]
pub(crate) struct OwnedBy<'a> {
    pub user: &'a Name,
}

impl SessionTest for OwnedBy<'_> {
    ghost passes = { λ owned _ owner _. eq_by_cmp name_cmp owned.user.now owner };

    fn test(&self, _session: &Name, owner: &Name, _roles: &NameSet) -> bool {
        self.user.cmp(owner).is_eq()
    }
}

/// The sessions in which a role is active, or one that the owner is not authorized for.
#[derive(Drop)]
pub(crate) struct ActiveOrUnentitled<'a> {
    pub sets: &'a RoleSets,
    pub hierarchy: &'a Hierarchy,
    pub role: &'a Name,
}

impl SessionTest for ActiveOrUnentitled<'_> {
    ghost passes = { λ t _ owner roles. has name_cmp t.role.now roles || not (is_entitled_in (state_of_roles t.sets.now.content t.hierarchy.now.content) (record { owner = owner; active = roles })) };

    fn test(&self, _session: &Name, owner: &Name, roles: &NameSet) -> bool {
        roles.contains(self.role) || !is_entitled(self.sets, self.hierarchy, owner, roles)
    }
}

/// The sessions of a user in which a role is active, or one that the user is not authorized for.
#[derive(Drop)]
pub(crate) struct OwnedUnentitled<'a> {
    pub sets: &'a RoleSets,
    pub hierarchy: &'a Hierarchy,
    pub user: &'a Name,
    pub role: &'a Name,
}

impl SessionTest for OwnedUnentitled<'_> {
    ghost passes = { λ t _ owner roles. eq_by_cmp name_cmp t.user.now owner && (has name_cmp t.role.now roles || not (is_entitled_in (state_of_roles t.sets.now.content t.hierarchy.now.content) (record { owner = owner; active = roles }))) };

    fn test(&self, _session: &Name, owner: &Name, roles: &NameSet) -> bool {
        self.user.cmp(owner).is_eq()
            && (roles.contains(self.role) || !is_entitled(self.sets, self.hierarchy, owner, roles))
    }
}

/// The sessions with an active role that a role inherits, and with one that the owner is not authorized for.
#[derive(Drop)]
pub(crate) struct BelowUnentitled<'a> {
    pub sets: &'a RoleSets,
    pub hierarchy: &'a Hierarchy,
    pub senior: &'a Name,
}

impl SessionTest for BelowUnentitled<'_> {
    ghost passes = { λ t _ owner roles. list_any (λ role. inherits t.hierarchy.now.content.roles t.hierarchy.now.content.declared t.senior.now role) roles && not (is_entitled_in (state_of_roles t.sets.now.content t.hierarchy.now.content) (record { owner = owner; active = roles })) };

    fn test(&self, _session: &Name, owner: &Name, roles: &NameSet) -> bool {
        inherits_one_of(self.hierarchy, self.senior, roles.names())
            && !is_entitled(self.sets, self.hierarchy, owner, roles)
    }
}
