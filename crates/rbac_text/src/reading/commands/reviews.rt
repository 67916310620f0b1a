//! The reviews. Those about sets of separation serve both kinds.
ghost use Rattle.lent_json.specs.Data.{members};
ghost use Rattle.rbac_text.specs.Fields.{Reads};
ghost use Rattle.rbac_text.specs.Command.{by_row, of_row, review_command, review_rows, role_set_cardinality, role_set_roles, role_sets, set_review};

use crate::reading::commands::{one_name, one_role, one_user, two_names};
use crate::reading::fields::{Object, Reading, only_keys};
use crate::refusal::LineRefusal;
use rbac_terms::{Command, Review, Separation};
use std::alloc::Global;

/// Reads a command object of this name, where it is a review.
#[tactic(auto, unfolding(crate::specs::Command::review_command))]
pub(crate) fn review_command(alloc: Global, fields: &Object<'_>, name: &str) -> Reading<Command>
    ensures { Reads (review_command name.now (members fields.now)) result }
{
    let review = review_of(alloc, fields, name)?;
    Ok(Command::Review(review))
}

#[tactic(auto, unfolding(crate::specs::Command::set_review))]
fn review_of(alloc: Global, fields: &Object<'_>, name: &str) -> Reading<Review>
    ensures { Reads (by_row review_rows set_review name.now (members fields.now)) result }
{
    match name {
        "AssignedUsers" => one_role(alloc, fields).map(|role| Review::AssignedUsers { role }),
        "AssignedRoles" => one_user(alloc, fields).map(|user| Review::AssignedRoles { user }),
        "AuthorizedUsers" => one_role(alloc, fields).map(|role| Review::AuthorizedUsers { role }),
        "AuthorizedRoles" => one_user(alloc, fields).map(|user| Review::AuthorizedRoles { user }),
        "RolePermissions" => one_role(alloc, fields).map(|role| Review::RolePermissions { role }),
        "UserPermissions" => one_user(alloc, fields).map(|user| Review::UserPermissions { user }),
        "SessionRoles" => one_name(alloc, fields, "session").map(|session| Review::SessionRoles {
            session,
        }),
        "SessionPermissions" => one_name(alloc, fields, "session").map(
            |session| Review::SessionPermissions { session },
        ),
        "RoleOperationsOnObject" => {
            let (role, object) = two_names(alloc, fields, "role", "object")?;
            Ok(Review::RoleOperationsOnObject { role, object })
        }
        "UserOperationsOnObject" => {
            let (user, object) = two_names(alloc, fields, "user", "object")?;
            Ok(Review::UserOperationsOnObject { user, object })
        }
        "SsdRoleSets" => role_sets(fields, Separation::Static),
        "SsdRoleSetRoles" => role_set_roles(alloc, fields, Separation::Static),
        "SsdRoleSetCardinality" => role_set_cardinality(alloc, fields, Separation::Static),
        "DsdRoleSets" => role_sets(fields, Separation::Dynamic),
        "DsdRoleSetRoles" => role_set_roles(alloc, fields, Separation::Dynamic),
        "DsdRoleSetCardinality" => role_set_cardinality(alloc, fields, Separation::Dynamic),
        _ => Err(LineRefusal::UnknownWord),
    }
}

fn role_sets(fields: &Object<'_>, kind: Separation) -> Reading<Review>
    ensures { Reads (of_row (role_sets kind) (members fields.now)) result }
{
    only_keys(fields, &["name"])?;
    Ok(Review::RoleSets { kind })
}

fn role_set_roles(alloc: Global, fields: &Object<'_>, kind: Separation) -> Reading<Review>
    ensures { Reads (of_row (role_set_roles kind) (members fields.now)) result }
{
    one_name(alloc, fields, "set").map(|set| Review::RoleSetRoles { kind, set })
}

fn role_set_cardinality(alloc: Global, fields: &Object<'_>, kind: Separation) -> Reading<Review>
    ensures { Reads (of_row (role_set_cardinality kind) (members fields.now)) result }
{
    one_name(alloc, fields, "set").map(|set| Review::RoleSetCardinality { kind, set })
}
