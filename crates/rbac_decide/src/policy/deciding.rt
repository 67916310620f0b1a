//! What is decided of each command: the table of its preconditions.
ghost use Rattle.std.specs.Prelude.{IfOk, OnOk};
ghost use Rattle.rbac_decide.specs.Words.{first_denial};
ghost use Rattle.rbac_decide.specs.Ground.{IsGround};
ghost use Rattle.rbac_decide.specs.Hindrance.{DecidesUnless, DeniesUnless};

mod administration;
mod hierarchy;
mod known;
mod reviews;
mod separation;
mod sessions;

use crate::gathered::Ground;
use crate::hindrance::Obstacle;
use crate::policy::Policy;
use rbac_terms::Command;
use std::alloc::Global;

impl Policy {
    /// Decides a command: whether no precondition of it fails, or the first that does, with the names that make it fail.
    ///
    /// # Errors
    /// `Denied` with the hindrance; `NoMemory` where there is no memory to try a precondition. Each command but AssignUser,
    /// AddInheritance, AddRoleMember and AddActiveRole is decided without memory.
    pub fn decide<'a>(&'a self, alloc: Global, command: &'a Command) -> Result<Ground, Obstacle<'a>>
        ensures hindrance { DecidesUnless command.now self.now result }
        ensures denial { DeniesUnless (first_denial command.now self.now) result }
        ensures gathered { IfOk result (IsGround command.now self.now) }
    {
        let mut gathered = Ground::nothing(alloc);
        self.try_all(alloc, command, &mut gathered)?;
        Ok(gathered)
    }

    // The preconditions of each command, one table. What a command gathers takes the place of what was there.
    fn try_all<'a>(
        &'a self,
        alloc: Global,
        command: &'a Command,
        gathered: &mut Ground,
    ) -> Result<(), Obstacle<'a>>
        ensures hindrance { DecidesUnless command.now self.now result }
        ensures gathered { OnOk result (IsGround command.now self.now gathered.new) }
    {
        match command {
            Command::AddUser { user } => Ok(self.may_add_user(user)?),
            Command::DeleteUser { user } => Ok(self.may_delete_user(user)?),
            Command::AddRole { role } => Ok(self.may_add_role(role)?),
            Command::DeleteRole { role } => Ok(self.may_delete_role(role)?),
            Command::AssignUser { user, role } => {
                self.may_assign_user(alloc, user, role, gathered)
            }
            Command::DeassignUser { user, role } => Ok(self.may_deassign_user(user, role)?),
            Command::GrantPermission {
                operation,
                object,
                role,
            } => Ok(self.may_grant_permission(operation, object, role)?),
            Command::RevokePermission {
                operation,
                object,
                role,
            } => Ok(self.may_revoke_permission(operation, object, role)?),
            Command::AddInheritance {
                ascendant,
                descendant,
            } => self.may_add_inheritance(alloc, ascendant, descendant, gathered),
            Command::DeleteInheritance {
                ascendant,
                descendant,
            } => Ok(self.may_delete_inheritance(ascendant, descendant)?),
            Command::AddAscendant {
                ascendant,
                descendant,
            } => Ok(self.may_add_ascendant(ascendant, descendant)?),
            Command::AddDescendant {
                ascendant,
                descendant,
            } => Ok(self.may_add_descendant(ascendant, descendant)?),
            Command::CreateSet {
                kind,
                set,
                roles,
                n,
            } => Ok(self.may_create_set(*kind, set, roles, *n)?),
            Command::DeleteSet { kind, set } => Ok(self.may_delete_set(*kind, set)?),
            Command::AddRoleMember { kind, set, role } => {
                self.may_add_role_member(*kind, set, role)
            }
            Command::DeleteRoleMember { kind, set, role } => {
                Ok(self.may_delete_role_member(*kind, set, role)?)
            }
            Command::SetCardinality { kind, set, n } => {
                Ok(self.may_set_cardinality(*kind, set, *n)?)
            }
            Command::CreateSession {
                user,
                session,
                roles,
            } => Ok(self.may_create_session(user, session, roles)?),
            Command::DeleteSession { user, session } => {
                Ok(self.may_delete_session(user, session)?)
            }
            Command::AddActiveRole {
                user,
                session,
                role,
            } => self.may_add_active_role(user, session, role),
            Command::DropActiveRole {
                user,
                session,
                role,
            } => Ok(self.may_drop_active_role(user, session, role)?),
            Command::CheckAccess {
                session,
                operation,
                object,
            } => Ok(self.may_check_access(session, operation, object)?),
            Command::Review(review) => Ok(self.may_review(review)?),
        }
    }
}
