//! The first failing precondition of each command about sessions, and of a check (ANSI INCITS 359-2004, 6.1.2).
ghost use Rattle.std.specs.Prelude.{◌≡◌, IfErr, IfOk, OnOk, Ok, Err, Some, None, not, if◌then◌else◌, map, filter};
ghost use Rattle.rbac_decide.specs.Words.{find, list_all, eq_by_cmp, has, is_authorized, change, is_violated, name_cmp, pair_cmp, first_denial, CreateSession};
ghost use Rattle.rbac_decide.specs.Words.{DeleteSession, AddActiveRole, DropActiveRole, CheckAccess, Dynamic};
ghost use Rattle.rbac_decide.specs.Hindrance.{Decides, DecidesUnless, Denies, Tells, dynamic_breach, first_name};
ghost use Rattle.rbac_decide.specs.Hindrance.Named.{a_role};

use crate::hindrance::{Hindrance, Obstacle, deny_for, deny_if};
use crate::named::{Counted, Named};
use crate::policy::Policy;
use crate::policy::deciding::known::deny_stranger;
use digests::Digest;
use rbac_sessions::Session;
use rbac_terms::limits::MOST_SESSIONS;
use rbac_terms::{Denial, Name, NameSet};
use sorted_keys::Probe;

// Denies where a test of names alone fails.
fn deny_plainly(fails: bool, denial: Denial) -> Result<(), Denial>
    ensures { result ≡ (if fails then Err denial else Ok tt) }
{
    if fails { Err(denial) } else { Ok(()) }
}

impl Policy {
    // Denies where the user is not authorized for each of the roles.
    fn deny_unauthorized<'a>(&'a self, user: &Name, roles: &'a NameSet) -> Result<(), Hindrance<'a>>
        ensures { Denies (not (list_all (is_authorized self.now user.now) roles.now)) (record { denial = Denial.NotAuthorized; named = a_role (first_name (λ role. not (is_authorized self.now user.now role)) roles.now) }) result }
    {
        match self.first_unauthorized(user, roles.names()) {
            Some(role) => Err(Hindrance {
                denial: Denial::NotAuthorized,
                named: Named::Role { role },
            }),
            None => Ok(()),
        }
    }

    // Denies where the session breaks a dynamic set.
    fn deny_session<'a>(
        &'a self,
        user: &Name,
        session: &'a Name,
        roles: &NameSet,
    ) -> Result<(), Hindrance<'a>>
        ensures { let after = change (CreateSession user.now session.now roles.now) self.now in Denies (is_violated Dynamic after) (record { denial = Denial.DsdViolated; named = dynamic_breach after }) result }
    {
        let breach = self.session_breach(user, session, roles);
        deny_for(breach, Denial::DsdViolated)
    }

    // Denies where the session breaks a dynamic set with the role active besides.
    fn deny_activation<'a>(
        &'a self,
        user: &Name,
        session: &Name,
        role: &Name,
        breach: Option<Named<'a>>,
    ) -> Result<(), Hindrance<'a>>
        requires { let after = change (AddActiveRole user.now session.now role.now) self.now in Tells (is_violated Dynamic after) (dynamic_breach after) breach }
        ensures { let after = change (AddActiveRole user.now session.now role.now) self.now in Denies (is_violated Dynamic after) (record { denial = Denial.DsdViolated; named = dynamic_breach after }) result }
    {
        deny_for(breach, Denial::DsdViolated)
    }

    pub(crate) fn may_create_session<'a>(
        &'a self,
        user: &'a Name,
        session: &'a Name,
        roles: &'a NameSet,
    ) -> Result<(), Hindrance<'a>>
        ensures { Decides (CreateSession user.now session.now roles.now) self.now result }
    {
        self.deny_no_user(user)?;
        let taken = self.tables.sessions.contains(session);
        deny_if(taken, Denial::SessionExists, Named::Session { session })?;
        self.deny_unauthorized(user, roles)?;
        self.deny_session(user, session, roles)?;
        let counted = Counted::Sessions;
        let full = self.tables.sessions.len() >= MOST_SESSIONS;
        deny_if(full, Denial::Limit, Named::Count { counted })
    }

    pub(crate) fn may_delete_session<'a>(
        &'a self,
        user: &'a Name,
        session: &'a Name,
    ) -> Result<(), Hindrance<'a>>
        ensures { Decides (DeleteSession user.now session.now) self.now result }
    {
        self.deny_no_user(user)?;
        let found = self.known_session(session)?;
        deny_stranger(found, user)
    }

    pub(crate) fn may_add_active_role<'a>(
        &'a self,
        user: &'a Name,
        session: &'a Name,
        role: &'a Name,
    ) -> Result<(), Obstacle<'a>>
        ensures { DecidesUnless (AddActiveRole user.now session.now role.now) self.now result }
    {
        self.deny_no_user(user)?;
        let found = self.known_session(session)?;
        self.deny_no_role(role)?;
        deny_stranger(found, user)?;
        let authorized = self.is_authorized(user, role);
        deny_if(!authorized, Denial::NotAuthorized, Named::Role { role })?;
        let active = found.active.contains(role);
        let named = Named::Activation { session, role };
        deny_if(active, Denial::RoleActive, named)?;
        let breach = self.activation_breach(user, session, found, role)?;
        self.deny_activation(user, session, role, breach)?;
        Ok(())
    }

    pub(crate) fn may_drop_active_role<'a>(
        &'a self,
        user: &'a Name,
        session: &'a Name,
        role: &'a Name,
    ) -> Result<(), Hindrance<'a>>
        ensures { Decides (DropActiveRole user.now session.now role.now) self.now result }
    {
        self.deny_no_user(user)?;
        let found = self.known_session(session)?;
        self.deny_no_role(role)?;
        deny_stranger(found, user)?;
        let active = found.active.contains(role);
        let named = Named::Activation { session, role };
        deny_if(!active, Denial::RoleNotActive, named)
    }

    // Denies where the operation or the object is not known. Both are where something is granted of them, since what is granted is a
    // permission: then neither is looked up.
    fn deny_unknown<O: Probe<Name>, B: Probe<Name>>(
        &self,
        operation: &O,
        object: &B,
        grants: &[Name],
    ) -> Result<(), Denial>
        requires { grants.now ≡ map (λ grant. grant.1) (filter (λ grant. eq_by_cmp pair_cmp (O.sought operation.now, B.sought object.now) grant.0) self.now.granted) }
        ensures { result ≡ (if not (has name_cmp (O.sought operation.now) self.now.vocabulary.operations) then Err Denial.NoOperation else if not (has name_cmp (B.sought object.now) self.now.vocabulary.objects) then Err Denial.NoObject else Ok tt) }
    {
        if !grants.is_empty() {
            self.invariants();
            return Ok(());
        }
        deny_plainly(
            !self.vocabulary.has_operation(operation),
            Denial::NoOperation,
        )?;
        deny_plainly(!self.vocabulary.has_object(object), Denial::NoObject)
    }

    /// The session that a check asks of, or the check's first failing precondition. It takes the roles that the operation on the object is granted to.
    pub(crate) fn checked_session<S: Probe<Name> + Digest, O: Probe<Name>, B: Probe<Name>>(
        &self,
        session: &S,
        operation: &O,
        object: &B,
        grants: &[Name],
    ) -> Result<&Session, Denial>
        requires { grants.now ≡ map (λ grant. grant.1) (filter (λ grant. eq_by_cmp pair_cmp (O.sought operation.now, B.sought object.now) grant.0) self.now.granted) }
        ensures denied { IfErr result (λ denial. first_denial (CheckAccess (S.sought session.now) (O.sought operation.now) (B.sought object.now)) self.now ≡ Some denial) }
        ensures allowed { OnOk result (first_denial (CheckAccess (S.sought session.now) (O.sought operation.now) (B.sought object.now)) self.now ≡ None) }
        ensures found { IfOk result (λ found. find name_cmp (S.sought session.now) self.now.sessions ≡ Some found.now) }
    {
        let Some(found) = self.session(session) else {
            return Err(Denial::NoSession);
        };
        self.deny_unknown(operation, object, grants)?;
        Ok(found)
    }

    pub(crate) fn may_check_access<'a>(
        &'a self,
        session: &'a Name,
        operation: &'a Name,
        object: &'a Name,
    ) -> Result<(), Hindrance<'a>>
        ensures { Decides (CheckAccess session.now operation.now object.now) self.now result }
    {
        self.known_session(session)?;
        let known = self.vocabulary.has_operation(operation);
        deny_if(!known, Denial::NoOperation, Named::Operation { operation })?;
        let known = self.vocabulary.has_object(object);
        deny_if(!known, Denial::NoObject, Named::Object { object })
    }
}
