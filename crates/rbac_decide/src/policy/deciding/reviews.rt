//! The preconditions of each review (ANSI INCITS 359-2004, 6.1.3, 6.1.4 and the review functions of 6.2 to 6.4).
ghost use Rattle.rbac_decide.specs.Words.{ReviewCommand};
ghost use Rattle.rbac_decide.specs.Hindrance.{Decides};

use crate::hindrance::{Hindrance, deny_if};
use crate::named::Named;
use crate::policy::Policy;
use rbac_terms::{Denial, Review};

impl Policy {
    pub(crate) fn may_review<'a>(&'a self, review: &'a Review) -> Result<(), Hindrance<'a>>
        ensures { Decides (ReviewCommand review.now) self.now result }
    {
        match review {
            Review::AssignedUsers { role }
            | Review::AuthorizedUsers { role }
            | Review::RolePermissions { role } => self.deny_no_role(role),
            Review::AssignedRoles { user }
            | Review::AuthorizedRoles { user }
            | Review::UserPermissions { user } => self.deny_no_user(user),
            Review::SessionRoles { session } | Review::SessionPermissions { session } => {
                let there = self.tables.sessions.contains(session);
                deny_if(!there, Denial::NoSession, Named::Session { session })
            }
            Review::RoleOperationsOnObject { role, object } => {
                self.deny_no_role(role)?;
                let known = self.vocabulary.has_object(object);
                deny_if(!known, Denial::NoObject, Named::Object { object })
            }
            Review::UserOperationsOnObject { user, object } => {
                self.deny_no_user(user)?;
                let known = self.vocabulary.has_object(object);
                deny_if(!known, Denial::NoObject, Named::Object { object })
            }
            Review::RoleSets { .. } => Ok(()),
            Review::RoleSetRoles { kind, set } | Review::RoleSetCardinality { kind, set } => {
                self.deny_no_set(*kind, set)
            }
        }
    }
}
