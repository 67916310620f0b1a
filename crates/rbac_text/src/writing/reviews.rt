//! The name and the fields of a review.
ghost use Rattle.std.specs.Prelude.{◌≡◌, ◌++◌, OnOk};
ghost use Rattle.std.specs.List.{flat_map};
ghost use Rattle.rbac_text.specs.Command.{review_word, review_fields};
ghost use Rattle.rbac_text.specs.CommandText.{field_text, AreFields};

use crate::writing::by_kind::by_kind;
use crate::writing::fields::{put_name, put_two};
use rbac_terms::Review;
use std::alloc::AllocError;

/// The name of a review, as LINES has it.
pub(crate) fn review_word(review: &Review) -> &'static str
    ensures { result.now ≡ review_word review.now }
{
    match review {
        Review::AssignedUsers { .. } => "AssignedUsers",
        Review::AssignedRoles { .. } => "AssignedRoles",
        Review::AuthorizedUsers { .. } => "AuthorizedUsers",
        Review::AuthorizedRoles { .. } => "AuthorizedRoles",
        Review::RolePermissions { .. } => "RolePermissions",
        Review::UserPermissions { .. } => "UserPermissions",
        Review::SessionRoles { .. } => "SessionRoles",
        Review::SessionPermissions { .. } => "SessionPermissions",
        Review::RoleOperationsOnObject { .. } => "RoleOperationsOnObject",
        Review::UserOperationsOnObject { .. } => "UserOperationsOnObject",
        Review::RoleSets { kind } => by_kind(*kind, "SsdRoleSets", "DsdRoleSets"),
        Review::RoleSetRoles { kind, .. } => by_kind(*kind, "SsdRoleSetRoles", "DsdRoleSetRoles"),
        Review::RoleSetCardinality { kind, .. } => {
            by_kind(*kind, "SsdRoleSetCardinality", "DsdRoleSetCardinality")
        }
    }
}

/// The fields of a review.
pub(crate) fn put_review_fields(text: &mut Vec<u8>, review: &Review) -> Result<(), AllocError>
    ensures text { OnOk result (text.new.items ≡ text.old.items ++ flat_map field_text (review_fields review.now)) }
    ensures fit { OnOk result (AreFields (review_fields review.now)) }
{
    match review {
        Review::AssignedUsers { role }
        | Review::AuthorizedUsers { role }
        | Review::RolePermissions { role } => put_name(text, "role", role),
        Review::AssignedRoles { user }
        | Review::AuthorizedRoles { user }
        | Review::UserPermissions { user } => put_name(text, "user", user),
        Review::SessionRoles { session } | Review::SessionPermissions { session } => {
            put_name(text, "session", session)
        }
        Review::RoleOperationsOnObject { role, object } => {
            put_two(text, "role", role, "object", object)
        }
        Review::UserOperationsOnObject { user, object } => {
            put_two(text, "user", user, "object", object)
        }
        Review::RoleSets { .. } => Ok(()),
        Review::RoleSetRoles { set, .. } | Review::RoleSetCardinality { set, .. } => {
            put_name(text, "set", set)
        }
    }
}
