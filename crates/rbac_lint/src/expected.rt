//! Which fields are expected where.

use std::alloc::{AllocError, Global};
use strsim::levenshtein;

/// What stands at a key.
#[derive(Clone, Copy, Debug, PartialEq, Eq, Drop)]
pub(crate) enum Kind {
    /// A whole number from 0 to 4294967295.
    Whole,
    /// A text of any bytes.
    Text,
    Name,
    /// An array of names.
    Names,
    /// The object of a command.
    Command,
    /// An array of objects of commands.
    Commands,
}

impl Kind {
    /// What is expected, as a person says it.
    pub(crate) fn words(self) -> &'static str {
        match self {
            Kind::Whole => "a whole number from 0 to 4294967295",
            Kind::Text => "a text",
            Kind::Name => "a name: 1 to 64 bytes of A-Z a-z 0-9 _ - and the full stop",
            Kind::Names => "an array of names",
            Kind::Command => "an object, the command",
            Kind::Commands => "an array of 1 to 64 objects, the commands",
        }
    }
}

/// A key and what stands there.
pub(crate) type Field = (&'static str, Kind);

/// The fields of a client line.
pub(crate) const CLIENT: &[Field] = &[("at", Kind::Whole), ("command", Kind::Command)];

/// The words of a schedule's lines.
pub(crate) const WORDS: &[&str] = &["submit", "batch", "receive", "deliver"];

/// The fields of a schedule's line with this word.
pub(crate) fn line_fields(word: &str) -> Option<&'static [Field]> {
    match word {
        "submit" => Some(&[
            ("do", Kind::Text),
            ("at", Kind::Whole),
            ("caller", Kind::Whole),
            ("serial", Kind::Whole),
            ("command", Kind::Command),
        ]),
        "batch" => Some(&[
            ("do", Kind::Text),
            ("at", Kind::Whole),
            ("caller", Kind::Whole),
            ("serial", Kind::Whole),
            ("commands", Kind::Commands),
        ]),
        "receive" => Some(&[
            ("do", Kind::Text),
            ("at", Kind::Whole),
            ("from", Kind::Whole),
            ("number", Kind::Whole),
        ]),
        "deliver" => Some(&[("do", Kind::Text), ("at", Kind::Whole)]),
        _ => None,
    }
}

/// The names of the commands.
pub(crate) const COMMANDS: &[&str] = &[
    "AddUser",
    "DeleteUser",
    "AddRole",
    "DeleteRole",
    "AssignUser",
    "DeassignUser",
    "GrantPermission",
    "RevokePermission",
    "AddInheritance",
    "DeleteInheritance",
    "AddAscendant",
    "AddDescendant",
    "CreateSession",
    "DeleteSession",
    "AddActiveRole",
    "DropActiveRole",
    "CheckAccess",
    "CreateSsdSet",
    "DeleteSsdSet",
    "AddSsdRoleMember",
    "DeleteSsdRoleMember",
    "SetSsdSetCardinality",
    "CreateDsdSet",
    "DeleteDsdSet",
    "AddDsdRoleMember",
    "DeleteDsdRoleMember",
    "SetDsdSetCardinality",
    "AssignedUsers",
    "AssignedRoles",
    "AuthorizedUsers",
    "AuthorizedRoles",
    "RolePermissions",
    "UserPermissions",
    "SessionRoles",
    "SessionPermissions",
    "RoleOperationsOnObject",
    "UserOperationsOnObject",
    "SsdRoleSets",
    "SsdRoleSetRoles",
    "SsdRoleSetCardinality",
    "DsdRoleSets",
    "DsdRoleSetRoles",
    "DsdRoleSetCardinality",
];

/// The fields of the command of this name, the name itself among them.
pub(crate) fn command_fields(name: &str) -> Option<&'static [Field]> {
    match name {
        "AddUser" | "DeleteUser" | "AssignedRoles" | "AuthorizedRoles" | "UserPermissions" => {
            Some(&[("name", Kind::Text), ("user", Kind::Name)])
        }
        "AddRole" | "DeleteRole" | "AssignedUsers" | "AuthorizedUsers" | "RolePermissions" => {
            Some(&[("name", Kind::Text), ("role", Kind::Name)])
        }
        "AssignUser" | "DeassignUser" => Some(&[
            ("name", Kind::Text),
            ("user", Kind::Name),
            ("role", Kind::Name),
        ]),
        "GrantPermission" | "RevokePermission" => Some(&[
            ("name", Kind::Text),
            ("operation", Kind::Name),
            ("object", Kind::Name),
            ("role", Kind::Name),
        ]),
        "AddInheritance" | "DeleteInheritance" | "AddAscendant" | "AddDescendant" => Some(&[
            ("name", Kind::Text),
            ("ascendant", Kind::Name),
            ("descendant", Kind::Name),
        ]),
        _ => session_fields(name),
    }
}

// The fields of a command about sessions, or about sets.
fn session_fields(name: &str) -> Option<&'static [Field]> {
    match name {
        "CreateSession" => Some(&[
            ("name", Kind::Text),
            ("user", Kind::Name),
            ("session", Kind::Name),
            ("roles", Kind::Names),
        ]),
        "DeleteSession" => Some(&[
            ("name", Kind::Text),
            ("user", Kind::Name),
            ("session", Kind::Name),
        ]),
        "AddActiveRole" | "DropActiveRole" => Some(&[
            ("name", Kind::Text),
            ("user", Kind::Name),
            ("session", Kind::Name),
            ("role", Kind::Name),
        ]),
        "CheckAccess" => Some(&[
            ("name", Kind::Text),
            ("session", Kind::Name),
            ("operation", Kind::Name),
            ("object", Kind::Name),
        ]),
        "SessionRoles" | "SessionPermissions" => {
            Some(&[("name", Kind::Text), ("session", Kind::Name)])
        }
        "RoleOperationsOnObject" => Some(&[
            ("name", Kind::Text),
            ("role", Kind::Name),
            ("object", Kind::Name),
        ]),
        "UserOperationsOnObject" => Some(&[
            ("name", Kind::Text),
            ("user", Kind::Name),
            ("object", Kind::Name),
        ]),
        _ => set_fields(name),
    }
}

// The fields of a command about sets of separation.
fn set_fields(name: &str) -> Option<&'static [Field]> {
    match name {
        "CreateSsdSet" | "CreateDsdSet" => Some(&[
            ("name", Kind::Text),
            ("set", Kind::Name),
            ("roles", Kind::Names),
            ("n", Kind::Whole),
        ]),
        "AddSsdRoleMember" | "AddDsdRoleMember" | "DeleteSsdRoleMember" | "DeleteDsdRoleMember" => {
            Some(&[
                ("name", Kind::Text),
                ("set", Kind::Name),
                ("role", Kind::Name),
            ])
        }
        "SetSsdSetCardinality" | "SetDsdSetCardinality" => Some(&[
            ("name", Kind::Text),
            ("set", Kind::Name),
            ("n", Kind::Whole),
        ]),
        "DeleteSsdSet"
        | "DeleteDsdSet"
        | "SsdRoleSetRoles"
        | "DsdRoleSetRoles"
        | "SsdRoleSetCardinality"
        | "DsdRoleSetCardinality" => Some(&[("name", Kind::Text), ("set", Kind::Name)]),
        "SsdRoleSets" | "DsdRoleSets" => Some(&[("name", Kind::Text)]),
        _ => None,
    }
}

/// The known word that is nearest to one, where few letters differ: at most a third of them, and two at least.
pub(crate) fn nearest<'k>(
    alloc: Global,
    word: &str,
    known: &[&'k str],
) -> Result<Option<&'k str>, AllocError> {
    let most = (word.len() / 3).max(2);
    let mut found = None;
    let mut least = most;
    for other in known {
        let distance = levenshtein(alloc, word, other)?;
        if distance < least || (distance == least && found.is_none()) {
            least = distance;
            found = Some(*other);
        }
    }
    Ok(found)
}
