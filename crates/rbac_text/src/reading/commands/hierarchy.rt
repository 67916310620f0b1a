//! The commands about the role hierarchy.
ghost use Rattle.std.specs.Prelude.{◌∷◌, []};
ghost use Rattle.lent_json.specs.Data.{members};
ghost use Rattle.rbac_text.specs.Steps.{seen};
ghost use Rattle.rbac_text.specs.Fields.{Reads};
ghost use Rattle.rbac_text.specs.Command.{ascendant_key, descendant_key, hierarchy_command, whole_of};

use crate::reading::commands::sessions::session_command;
use crate::reading::commands::two_names;
use crate::reading::fields::{Object, Reading};
use rbac_terms::{Command, Name};
use std::alloc::Global;

/// Reads a command object of this name, where it is about the hierarchy or one of those that follow.
#[tactic(auto, unfolding(crate::specs::Command::hierarchy_command))]
pub(crate) fn hierarchy_command(alloc: Global, fields: &Object<'_>, name: &str) -> Reading<Command>
    ensures { Reads (hierarchy_command name.now (members fields.now)) result }
{
    match name {
        "AddInheritance" => {
            let (ascendant, descendant) = two_roles(alloc, fields)?;
            Ok(Command::AddInheritance {
                ascendant,
                descendant,
            })
        }
        "DeleteInheritance" => {
            let (ascendant, descendant) = two_roles(alloc, fields)?;
            Ok(Command::DeleteInheritance {
                ascendant,
                descendant,
            })
        }
        "AddAscendant" => {
            let (ascendant, descendant) = two_roles(alloc, fields)?;
            Ok(Command::AddAscendant {
                ascendant,
                descendant,
            })
        }
        "AddDescendant" => {
            let (ascendant, descendant) = two_roles(alloc, fields)?;
            Ok(Command::AddDescendant {
                ascendant,
                descendant,
            })
        }
        name => session_command(alloc, fields, name),
    }
}

/// An ascendant and a descendant, and no other key.
fn two_roles(alloc: Global, fields: &Object<'_>) -> Reading<(Name, Name)>
    ensures { Reads (whole_of (ascendant_key ∷ descendant_key ∷ []) (members fields.now)) (seen (λ names. (names.0, (names.1, tt))) result) }
{
    two_names(alloc, fields, "ascendant", "descendant")
}
