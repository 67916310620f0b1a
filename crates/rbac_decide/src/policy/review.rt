//! The answers to reviews.
ghost use Rattle.std.specs.Prelude.{◌≡◌, IfOk};
ghost use Rattle.rbac_decide.specs.Words.{reply, review_answer, ReviewCommand};
ghost use Rattle.rbac_review.specs.Parts.{state_of as state_of_parts};

use crate::policy::Policy;
use rbac_review::Parts;
use rbac_terms::{Answer, Review};
use std::alloc::{AllocError, Global};

impl Policy {
    /// The parts that reviews look at.
    pub(crate) fn parts(&self) -> Parts<'_>
        ensures { state_of_parts result ≡ self.now }
    {
        Parts {
            sets: &self.tables.sets,
            hierarchy: &self.tables.hierarchy,
            static_sets: &self.tables.static_sets,
            dynamic_sets: &self.tables.dynamic_sets,
            sessions: &self.tables.sessions,
            vocabulary: &self.vocabulary,
        }
    }

    // The answer to a review that is not denied.
    fn review(&self, alloc: Global, review: &Review) -> Result<Answer, AllocError>
        ensures { IfOk result (λ answer. answer ≡ review_answer review.now self.now) }
    {
        let parts = self.parts();
        match review {
            Review::AssignedUsers { role } => {
                Ok(Answer::Names(parts.assigned_users(alloc, role)?))
            }
            Review::AssignedRoles { user } => {
                Ok(Answer::Names(parts.assigned_roles(alloc, user)?))
            }
            Review::AuthorizedUsers { role } => {
                Ok(Answer::Names(parts.authorized_users(alloc, role)?))
            }
            Review::AuthorizedRoles { user } => {
                Ok(Answer::Names(parts.authorized_roles(alloc, user)?))
            }
            Review::RolePermissions { role } => {
                Ok(Answer::Permissions(parts.role_permissions(alloc, role)?))
            }
            Review::UserPermissions { user } => {
                Ok(Answer::Permissions(parts.user_permissions(alloc, user)?))
            }
            Review::SessionRoles { session } => {
                Ok(Answer::Names(parts.session_roles(alloc, session)?))
            }
            Review::SessionPermissions { session } => Ok(Answer::Permissions(
                parts.session_permissions(alloc, session)?,
            )),
            Review::RoleOperationsOnObject { role, object } => Ok(Answer::Names(
                parts.role_operations_on_object(alloc, role, object)?,
            )),
            Review::UserOperationsOnObject { user, object } => Ok(Answer::Names(
                parts.user_operations_on_object(alloc, user, object)?,
            )),
            Review::RoleSets { kind } => Ok(Answer::Names(parts.role_sets(alloc, *kind)?)),
            Review::RoleSetRoles { kind, set } => {
                Ok(Answer::Names(parts.role_set_roles(alloc, *kind, set)?))
            }
            Review::RoleSetCardinality { kind, set } => {
                Ok(Answer::Count(parts.role_set_cardinality(*kind, set)))
            }
        }
    }

    /// The answer to a review.
    pub(crate) fn answer_review(&self, alloc: Global, review: &Review) -> Result<Answer, AllocError>
        ensures { IfOk result (λ answer. answer ≡ reply (ReviewCommand review.now) self.now) }
    {
        match self.may_review(review) {
            Ok(()) => self.review(alloc, review),
            Err(hindrance) => Ok(Answer::Denied(hindrance.denial)),
        }
    }
}
