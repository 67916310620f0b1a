//! What a command names has to be there.
ghost use Rattle.std.specs.Prelude.{◌≡◌, not, nat_le, length, IfOk};
ghost use Rattle.rbac_decide.specs.Words.{find, eq_by_cmp, has, name_cmp, pair_cmp, is_session, is_set};
ghost use Rattle.rbac_terms.specs.Limits.{most_roles};
ghost use Rattle.rbac_decide.specs.Hindrance.{Denies};
ghost use Rattle.rbac_decide.specs.Hindrance.Named.{a_user, a_role, a_session, a_permission, a_set, a_count};

use crate::hindrance::{Hindrance, deny_if};
use crate::named::{Counted, Named};
use crate::policy::Policy;
use rbac_sessions::Session;
use rbac_terms::limits::MOST_ROLES;
use rbac_terms::{Denial, Name, Separation};

/// Denies where the session is not the user's.
pub(crate) fn deny_stranger<'a>(session: &'a Session, user: &Name) -> Result<(), Hindrance<'a>>
    ensures { Denies (not (eq_by_cmp name_cmp user.now session.now.owner)) (record { denial = Denial.NotOwner; named = a_user session.now.owner }) result }
{
    let owner = Named::User {
        user: &session.owner,
    };
    deny_if(!user.cmp(&session.owner).is_eq(), Denial::NotOwner, owner)
}

impl Policy {
    /// Denies where there is no such user.
    pub(crate) fn deny_no_user<'a>(&'a self, user: &'a Name) -> Result<(), Hindrance<'a>>
        ensures { Denies (not (has name_cmp user.now self.now.users)) (record { denial = Denial.NoUser; named = a_user user.now }) result }
    {
        let known = self.tables.sets.has_user(user);
        deny_if(!known, Denial::NoUser, Named::User { user })
    }

    /// Denies where there is no such role.
    pub(crate) fn deny_no_role<'a>(&'a self, role: &'a Name) -> Result<(), Hindrance<'a>>
        ensures { Denies (not (has name_cmp role.now self.now.roles)) (record { denial = Denial.NoRole; named = a_role role.now }) result }
    {
        deny_if(!self.has_role(role), Denial::NoRole, Named::Role { role })
    }

    /// Denies where there is such a role.
    pub(crate) fn deny_role<'a>(&'a self, role: &'a Name) -> Result<(), Hindrance<'a>>
        ensures { Denies (has name_cmp role.now self.now.roles) (record { denial = Denial.RoleExists; named = a_role role.now }) result }
    {
        let known = self.has_role(role);
        deny_if(known, Denial::RoleExists, Named::Role { role })
    }

    /// Denies where there may be no role more.
    pub(crate) fn deny_full_roles(&self) -> Result<(), Hindrance<'_>>
        ensures { Denies (nat_le most_roles (length self.now.roles)) (record { denial = Denial.Limit; named = a_count Counted.Roles }) result }
    {
        let counted = Counted::Roles;
        let full = self.role_count() >= MOST_ROLES;
        deny_if(full, Denial::Limit, Named::Count { counted })
    }

    /// Denies where there is no such permission.
    pub(crate) fn deny_no_permission<'a>(
        &'a self,
        operation: &'a Name,
        object: &'a Name,
    ) -> Result<(), Hindrance<'a>>
        ensures { Denies (not (has pair_cmp (operation.now, object.now) self.now.vocabulary.permissions)) (record { denial = Denial.NoPermission; named = a_permission operation.now object.now }) result }
    {
        let known = self.vocabulary.has_permission(operation, object);
        let named = Named::Permission { operation, object };
        deny_if(!known, Denial::NoPermission, named)
    }

    /// Denies where there is no such set of the kind.
    pub(crate) fn deny_no_set<'a>(
        &'a self,
        kind: Separation,
        set: &'a Name,
    ) -> Result<(), Hindrance<'a>>
        ensures { Denies (not (is_set kind self.now set.now)) (record { denial = Denial.NoSet; named = a_set kind set.now }) result }
    {
        let known = self.is_set(kind, set);
        deny_if(!known, Denial::NoSet, Named::Set { kind, set })
    }

    /// The session of this name; denies where there is none.
    pub(crate) fn known_session<'a>(
        &'a self,
        session: &'a Name,
    ) -> Result<&'a Session, Hindrance<'a>>
        ensures known { Denies (not (is_session self.now session.now)) (record { denial = Denial.NoSession; named = a_session session.now }) result }
        ensures found { IfOk result (λ found. find name_cmp session.now self.now.sessions ≡ Some found.now) }
    {
        match self.session(session) {
            Some(found) => Ok(found),
            None => Err(Hindrance {
                denial: Denial::NoSession,
                named: Named::Session { session },
            }),
        }
    }
}
