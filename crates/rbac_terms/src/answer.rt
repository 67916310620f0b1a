//! What a command is answered, and why a command is denied.
ghost use Rattle.std.specs.Prelude.{◌≡◌, ◌↔◌, IsTrue, IfOk};
ghost use Rattle.rbac_terms.specs.Denials.{denial_number, denial_word};

use crate::name_set::NameSet;
use crate::permission_set::PermissionSet;
use sorted_keys::Same;
use std::alloc::AllocError;

/// Why a command is denied: the first failing precondition of its row.
#[derive(Clone, Copy, Debug, PartialEq, Eq, Drop)]
pub enum Denial {
    UserExists,
    NoUser,
    RoleExists,
    NoRole,
    Assigned,
    NotAssigned,
    NoPermission,
    NotGranted,
    SessionExists,
    NoSession,
    NotOwner,
    NotAuthorized,
    RoleActive,
    RoleNotActive,
    Inherits,
    NoInheritance,
    Cycle,
    SsdViolated,
    DsdViolated,
    SetExists,
    NoSet,
    BadCardinality,
    InSet,
    NotInSet,
    RoleConstrained,
    Limit,
    NoOperation,
    NoObject,
    Limited,
}

/// The answer to a command: that it is done, whether access is granted, what a review lists, or why it is denied.
#[derive(Clone, Drop)]
pub enum Answer {
    Done,
    Granted,
    Refused,
    Names(NameSet),
    Permissions(PermissionSet),
    Count(u32),
    Denied(Denial),
}

impl Answer {
    /// An equal answer.
    ///
    /// # Errors
    /// `AllocError` where there is no memory for it.
    pub fn copy(&self) -> Result<Answer, AllocError>
        ensures { IfOk result (λ copy. copy ≡ self.now) }
    {
        self.clone()
    }

    /// Whether both are equal.
    pub fn same(&self, other: &Answer) -> bool
        ensures { IsTrue result ↔ (self.now ≡ other.now) }
    {
        match (self, other) {
            (Answer::Done, Answer::Done) => true,
            (Answer::Granted, Answer::Granted) => true,
            (Answer::Refused, Answer::Refused) => true,
            (Answer::Names(names), Answer::Names(others)) => names.same(others),
            (Answer::Permissions(permissions), Answer::Permissions(others)) => {
                permissions.same(others)
            }
            (Answer::Count(count), Answer::Count(other)) => count == other,
            (Answer::Denied(denial), Answer::Denied(other)) => denial == other,
            _ => false,
        }
    }
}

impl Denial {
    /// The number that a text shows beside the word. Numbers play no part in the order of preconditions.
    pub fn number(self) -> u32
        ensures { result ≡ denial_number self }
    {
        match self {
            Denial::UserExists => 1,
            Denial::NoUser => 2,
            Denial::RoleExists => 3,
            Denial::NoRole => 4,
            Denial::Assigned => 5,
            Denial::NotAssigned => 6,
            Denial::NoPermission => 7,
            Denial::NotGranted => 8,
            Denial::SessionExists => 9,
            Denial::NoSession => 10,
            Denial::NotOwner => 11,
            Denial::NotAuthorized => 12,
            Denial::RoleActive => 13,
            Denial::RoleNotActive => 14,
            Denial::Inherits => 15,
            Denial::NoInheritance => 16,
            Denial::Cycle => 17,
            Denial::SsdViolated => 18,
            Denial::DsdViolated => 19,
            Denial::SetExists => 20,
            Denial::NoSet => 21,
            Denial::BadCardinality => 22,
            Denial::InSet => 23,
            Denial::NotInSet => 24,
            Denial::RoleConstrained => 25,
            Denial::Limit => 26,
            Denial::NoOperation => 27,
            Denial::NoObject => 28,
            Denial::Limited => 29,
        }
    }

    /// The word that a text shows.
    pub fn word(self) -> &'static str
        ensures { result.now ≡ denial_word self }
    {
        match self {
            Denial::UserExists => "UserExists",
            Denial::NoUser => "NoUser",
            Denial::RoleExists => "RoleExists",
            Denial::NoRole => "NoRole",
            Denial::Assigned => "Assigned",
            Denial::NotAssigned => "NotAssigned",
            Denial::NoPermission => "NoPermission",
            Denial::NotGranted => "NotGranted",
            Denial::SessionExists => "SessionExists",
            Denial::NoSession => "NoSession",
            Denial::NotOwner => "NotOwner",
            Denial::NotAuthorized => "NotAuthorized",
            Denial::RoleActive => "RoleActive",
            Denial::RoleNotActive => "RoleNotActive",
            Denial::Inherits => "Inherits",
            Denial::NoInheritance => "NoInheritance",
            Denial::Cycle => "Cycle",
            Denial::SsdViolated => "SsdViolated",
            Denial::DsdViolated => "DsdViolated",
            Denial::SetExists => "SetExists",
            Denial::NoSet => "NoSet",
            Denial::BadCardinality => "BadCardinality",
            Denial::InSet => "InSet",
            Denial::NotInSet => "NotInSet",
            Denial::RoleConstrained => "RoleConstrained",
            Denial::Limit => "Limit",
            Denial::NoOperation => "NoOperation",
            Denial::NoObject => "NoObject",
            Denial::Limited => "Limited",
        }
    }
}
