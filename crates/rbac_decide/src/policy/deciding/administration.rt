//! The first failing precondition of each command about users, roles, assignments and permissions (ANSI INCITS 359-2004, 6.1.1).
ghost use Rattle.std.specs.Prelude.{◌≡◌, ◌||◌, OnOk};
ghost use Rattle.rbac_decide.specs.Words.{first_where, option_copied, has, change, is_violated, name_cmp, is_constrained, AddUser, DeleteUser, AddRole};
ghost use Rattle.rbac_decide.specs.Words.{DeleteRole, AssignUser, DeassignUser, GrantPermission, RevokePermission, Static};
ghost use Rattle.rbac_decide.specs.Counting.{TellsAfter};
ghost use Rattle.rbac_decide.specs.Gains.{changes_gathered};
ghost use Rattle.rbac_decide.specs.Hindrance.{Decides, DecidesUnless, Denies, Tells, constraint_of, static_breach};

use crate::gathered::Ground;
use crate::hindrance::{Hindrance, Obstacle, deny_for, deny_if};
use crate::named::{Counted, Named};
use crate::policy::Policy;
use rbac_separation::RoleSet;
use rbac_terms::limits::MOST_USERS;
use rbac_terms::{Denial, Name, Separation};
use std::alloc::Global;

// The first set that has the role.
fn set_with<'a>(sets: &'a [(Name, RoleSet)], role: &Name) -> Option<&'a (Name, RoleSet)>
    ensures { option_copied result ≡ first_where (λ e. has name_cmp role.now e.1.roles) sets.now }
{
    sets.iter().find(|entry| entry.1.roles.contains(role))
}

impl Policy {
    pub(crate) fn may_add_user<'a>(&'a self, user: &'a Name) -> Result<(), Hindrance<'a>>
        ensures { Decides (AddUser user.now) self.now result }
    {
        let known = self.tables.sets.has_user(user);
        deny_if(known, Denial::UserExists, Named::User { user })?;
        let counted = Counted::Users;
        let full = self.tables.sets.user_count() >= MOST_USERS;
        deny_if(full, Denial::Limit, Named::Count { counted })
    }

    pub(crate) fn may_delete_user<'a>(&'a self, user: &'a Name) -> Result<(), Hindrance<'a>>
        ensures { Decides (DeleteUser user.now) self.now result }
    {
        self.deny_no_user(user)
    }

    pub(crate) fn may_add_role<'a>(&'a self, role: &'a Name) -> Result<(), Hindrance<'a>>
        ensures { Decides (AddRole role.now) self.now result }
    {
        self.deny_role(role)?;
        self.deny_full_roles()
    }

    // The first static set that has the role, or else the first dynamic one.
    fn constraint<'a>(&'a self, role: &Name) -> Option<Named<'a>>
        ensures { let s = self.now in Tells (is_constrained role.now s.static_sets || is_constrained role.now s.dynamic_sets) (constraint_of role.now s) result }
    {
        let kind = Separation::Static;
        if let Some(entry) = set_with(self.separation_sets(kind), role) {
            let set = &entry.0;
            return Some(Named::Set { kind, set });
        }
        let kind = Separation::Dynamic;
        if let Some(entry) = set_with(self.separation_sets(kind), role) {
            let set = &entry.0;
            return Some(Named::Set { kind, set });
        }
        None
    }

    // Denies where some set has the role.
    fn deny_constrained<'a>(&'a self, role: &Name) -> Result<(), Hindrance<'a>>
        ensures { let s = self.now in Denies (is_constrained role.now s.static_sets || is_constrained role.now s.dynamic_sets) (record { denial = Denial.RoleConstrained; named = constraint_of role.now s }) result }
    {
        deny_for(self.constraint(role), Denial::RoleConstrained)
    }

    // Denies where the assignment breaks a static set.
    fn deny_assignment<'a>(
        &'a self,
        user: &Name,
        role: &Name,
        breach: Option<Named<'a>>,
    ) -> Result<(), Hindrance<'a>>
        requires { let after = change (AssignUser user.now role.now) self.now in Tells (is_violated Static after) (static_breach after) breach }
        ensures { let after = change (AssignUser user.now role.now) self.now in Denies (is_violated Static after) (record { denial = Denial.SsdViolated; named = static_breach after }) result }
    {
        deny_for(breach, Denial::SsdViolated)
    }

    pub(crate) fn may_delete_role<'a>(&'a self, role: &'a Name) -> Result<(), Hindrance<'a>>
        ensures { Decides (DeleteRole role.now) self.now result }
    {
        self.deny_no_role(role)?;
        self.deny_constrained(role)
    }

    pub(crate) fn may_assign_user<'a>(
        &'a self,
        alloc: Global,
        user: &'a Name,
        role: &'a Name,
        gathered: &mut Ground,
    ) -> Result<(), Obstacle<'a>>
        ensures hindrance { DecidesUnless (AssignUser user.now role.now) self.now result }
        ensures gathered { OnOk result (TellsAfter (AssignUser user.now role.now) (changes_gathered gathered.new) self.now) }
    {
        self.deny_no_user(user)?;
        self.deny_no_role(role)?;
        let assigned = self.tables.sets.assigned(user, role);
        deny_if(assigned, Denial::Assigned, Named::Assignment { user, role })?;
        let breach = self.assignment_breach(alloc, user, role, gathered)?;
        self.deny_assignment(user, role, breach)?;
        Ok(())
    }

    pub(crate) fn may_deassign_user<'a>(
        &'a self,
        user: &'a Name,
        role: &'a Name,
    ) -> Result<(), Hindrance<'a>>
        ensures { Decides (DeassignUser user.now role.now) self.now result }
    {
        self.deny_no_user(user)?;
        self.deny_no_role(role)?;
        let assigned = self.tables.sets.assigned(user, role);
        let named = Named::Assignment { user, role };
        deny_if(!assigned, Denial::NotAssigned, named)
    }

    pub(crate) fn may_grant_permission<'a>(
        &'a self,
        operation: &'a Name,
        object: &'a Name,
        role: &'a Name,
    ) -> Result<(), Hindrance<'a>>
        ensures { Decides (GrantPermission operation.now object.now role.now) self.now result }
    {
        self.deny_no_permission(operation, object)?;
        self.deny_no_role(role)
    }

    pub(crate) fn may_revoke_permission<'a>(
        &'a self,
        operation: &'a Name,
        object: &'a Name,
        role: &'a Name,
    ) -> Result<(), Hindrance<'a>>
        ensures { Decides (RevokePermission operation.now object.now role.now) self.now result }
    {
        self.deny_no_permission(operation, object)?;
        self.deny_no_role(role)?;
        let granted = self.tables.sets.granted(operation, object, role);
        let named = Named::Grant {
            operation,
            object,
            role,
        };
        deny_if(!granted, Denial::NotGranted, named)
    }
}
