//! Why a line, or a command by itself, is refused.
ghost use Rattle.std.specs.Prelude.{◌≡◌};
ghost use Rattle.rbac_text.specs.Refusals.{line_refusal_word};

use std::alloc::AllocError;
use thiserror::Error;

/// Why a line is no event, or no command for a member: the first reason in the order of the checks, which is that of the
/// definitions of both. The line is checked as a whole, then its object (its word, its fields from left to right, and no other
/// key), and only then its command, in the same way. Memory may run out at any of the checks.
#[derive(Clone, Copy, Debug, PartialEq, Eq, Drop, Error)]
pub enum LineRefusal {
    /// It has more than 65,536 bytes.
    #[error("the line has more than 65536 bytes")]
    TooLong,
    /// It is no JSON text.
    #[error("the line is no JSON text")]
    NotJson,
    /// Its value is no object.
    #[error("the value is no object")]
    NotObject,
    /// Its word, or its command's name, is none of those that are known.
    #[error("the word of the line, or the name of its command, is not known")]
    UnknownWord,
    /// A field is not there.
    #[error("a field is not there")]
    MissingField,
    /// A field is not of its kind: a whole number up to 4,294,967,295, a text, an array of texts, an object or an array of objects.
    #[error("a field is not of its kind: a whole number up to 4294967295, a text, an array of texts, an object or an array of objects")]
    WrongKind,
    /// A text is no name.
    #[error("a text is no name")]
    BadName,
    /// There is a field that does not belong there.
    #[error("there is a field that does not belong there")]
    ExtraField,
    /// Memory ran out.
    #[error("no memory")]
    NoMemory,
}

impl LineRefusal {
    /// The word that a text shows.
    pub fn word(self) -> &'static str
        ensures { result.now ≡ line_refusal_word self }
    {
        match self {
            LineRefusal::TooLong => "TooLong",
            LineRefusal::NotJson => "NotJson",
            LineRefusal::NotObject => "NotObject",
            LineRefusal::UnknownWord => "UnknownWord",
            LineRefusal::MissingField => "MissingField",
            LineRefusal::WrongKind => "WrongKind",
            LineRefusal::BadName => "BadName",
            LineRefusal::ExtraField => "ExtraField",
            LineRefusal::NoMemory => "NoMemory",
        }
    }
}

impl From<AllocError> for LineRefusal {
    ghost use Rattle.rbac_text.specs.declared.refusal.LineRefusal.TheVariants.{NoMemory};

    ghost from_gives = { λ _ refusal. refusal ≡ NoMemory };

    fn from(_refused: AllocError) -> LineRefusal {
        LineRefusal::NoMemory
    }
}
