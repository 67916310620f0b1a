//! The commands about sessions.
ghost use Rattle.lent_json.specs.Data.{members};
ghost use Rattle.rbac_text.specs.Fields.{Reads};
ghost use Rattle.rbac_text.specs.Command.{check_access, create_session, of_row, session_command};

use crate::reading::commands::separation::separation_command;
use crate::reading::commands::{three_names, two_names};
use crate::reading::fields::{Object, Reading, name_in, names_in, only_keys};
use rbac_terms::Command;
use std::alloc::Global;

/// Reads a command object of this name, where it is about sessions or one of those that follow.
#[tactic(auto, unfolding(crate::specs::Command::session_command))]
pub(crate) fn session_command(alloc: Global, fields: &Object<'_>, name: &str) -> Reading<Command>
    ensures { Reads (session_command name.now (members fields.now)) result }
{
    match name {
        "CreateSession" => create_session(alloc, fields),
        "DeleteSession" => {
            let (user, session) = two_names(alloc, fields, "user", "session")?;
            Ok(Command::DeleteSession { user, session })
        }
        "AddActiveRole" => {
            let (user, session, role) = three_names(alloc, fields, "user", "session", "role")?;
            Ok(Command::AddActiveRole {
                user,
                session,
                role,
            })
        }
        "DropActiveRole" => {
            let (user, session, role) = three_names(alloc, fields, "user", "session", "role")?;
            Ok(Command::DropActiveRole {
                user,
                session,
                role,
            })
        }
        "CheckAccess" => check_access(alloc, fields),
        name => separation_command(alloc, fields, name),
    }
}

fn create_session(alloc: Global, fields: &Object<'_>) -> Reading<Command>
    ensures { Reads (of_row create_session (members fields.now)) result }
{
    let user = name_in(alloc, fields, "user")?;
    let session = name_in(alloc, fields, "session")?;
    let roles = names_in(alloc, fields, "roles")?;
    only_keys(fields, &["name", "user", "session", "roles"])?;
    Ok(Command::CreateSession {
        user,
        session,
        roles,
    })
}

fn check_access(alloc: Global, fields: &Object<'_>) -> Reading<Command>
    ensures { Reads (of_row check_access (members fields.now)) result }
{
    let (session, operation, object) = three_names(
        alloc,
        fields,
        "session",
        "operation",
        "object",
    )?;
    Ok(Command::CheckAccess {
        session,
        operation,
        object,
    })
}
