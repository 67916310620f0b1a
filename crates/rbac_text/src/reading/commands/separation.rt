//! The commands about sets of separation, each for both kinds.
ghost use Rattle.lent_json.specs.Data.{members};
ghost use Rattle.rbac_text.specs.Fields.{Reads};
ghost use Rattle.rbac_text.specs.Command.{add_role_member, create_set, delete_role_member, delete_set, of_row, separation_command, set_cardinality};

use crate::reading::commands::reviews::review_command;
use crate::reading::commands::{one_name, two_names};
use crate::reading::fields::{Object, Reading, name_in, names_in, only_keys, whole_in};
use rbac_terms::{Command, Separation};
use std::alloc::Global;

/// Reads a command object of this name, where it changes a set of separation or is a review.
#[tactic(auto, unfolding(crate::specs::Command::separation_command))]
pub(crate) fn separation_command(alloc: Global, fields: &Object<'_>, name: &str) -> Reading<Command>
    ensures { Reads (separation_command name.now (members fields.now)) result }
{
    match name {
        "CreateSsdSet" => create_set(alloc, fields, Separation::Static),
        "DeleteSsdSet" => delete_set(alloc, fields, Separation::Static),
        "AddSsdRoleMember" => add_role_member(alloc, fields, Separation::Static),
        "DeleteSsdRoleMember" => delete_role_member(alloc, fields, Separation::Static),
        "SetSsdSetCardinality" => set_cardinality(alloc, fields, Separation::Static),
        "CreateDsdSet" => create_set(alloc, fields, Separation::Dynamic),
        "DeleteDsdSet" => delete_set(alloc, fields, Separation::Dynamic),
        "AddDsdRoleMember" => add_role_member(alloc, fields, Separation::Dynamic),
        "DeleteDsdRoleMember" => delete_role_member(alloc, fields, Separation::Dynamic),
        "SetDsdSetCardinality" => set_cardinality(alloc, fields, Separation::Dynamic),
        name => review_command(alloc, fields, name),
    }
}

fn create_set(alloc: Global, fields: &Object<'_>, kind: Separation) -> Reading<Command>
    ensures { Reads (of_row (create_set kind) (members fields.now)) result }
{
    let set = name_in(alloc, fields, "set")?;
    let roles = names_in(alloc, fields, "roles")?;
    let n = whole_in(fields, "n")?;
    only_keys(fields, &["name", "set", "roles", "n"])?;
    Ok(Command::CreateSet {
        kind,
        set,
        roles,
        n,
    })
}

fn delete_set(alloc: Global, fields: &Object<'_>, kind: Separation) -> Reading<Command>
    ensures { Reads (of_row (delete_set kind) (members fields.now)) result }
{
    one_name(alloc, fields, "set").map(|set| Command::DeleteSet { kind, set })
}

fn add_role_member(alloc: Global, fields: &Object<'_>, kind: Separation) -> Reading<Command>
    ensures { Reads (of_row (add_role_member kind) (members fields.now)) result }
{
    let (set, role) = two_names(alloc, fields, "set", "role")?;
    Ok(Command::AddRoleMember { kind, set, role })
}

fn delete_role_member(alloc: Global, fields: &Object<'_>, kind: Separation) -> Reading<Command>
    ensures { Reads (of_row (delete_role_member kind) (members fields.now)) result }
{
    let (set, role) = two_names(alloc, fields, "set", "role")?;
    Ok(Command::DeleteRoleMember { kind, set, role })
}

fn set_cardinality(alloc: Global, fields: &Object<'_>, kind: Separation) -> Reading<Command>
    ensures { Reads (of_row (set_cardinality kind) (members fields.now)) result }
{
    let set = name_in(alloc, fields, "set")?;
    let n = whole_in(fields, "n")?;
    only_keys(fields, &["name", "set", "n"])?;
    Ok(Command::SetCardinality { kind, set, n })
}
