//! Why a founding file is refused.
ghost use Rattle.std.specs.Prelude.{◌≡◌, ◌≢◌};
ghost use Rattle.rbac_founding.specs.FoundingFile.{founding_refusal_word};

use std::alloc::AllocError;
use std::io;
use std::io::ErrorKind;
use thiserror::Error;

/// Why a file is no founding: the first reason that applies, in this order. Memory may run out at any of the checks.
#[derive(Clone, Copy, Debug, PartialEq, Eq, Drop, Error)]
pub enum FoundingRefusal {
    /// It has more than 1,048,576 bytes.
    #[error("the file has more than 1048576 bytes")]
    TooLong,
    /// It is no TOML text.
    #[error("the file is no TOML text")]
    NotToml,
    /// Its `version` is not there, or is not the whole number 1 or 2.
    #[error("`version` is not there, or is not the whole number 1 or 2")]
    BadVersion,
    /// It has a key that its version does not know.
    #[error("there is a key that is not known")]
    UnknownKey,
    /// A key that its version has to have is not there.
    #[error("`members`, `operations`, `objects`, `permissions` or, in version 2, `hierarchy` is not there")]
    MissingKey,
    /// A value is not of its kind: a whole number, a text, an array of texts, or an array of pairs of texts.
    #[error("a value is not of its kind: a whole number, a text, an array of texts, or an array of pairs of texts")]
    WrongKind,
    /// A number is outside its range, a list is longer than a vocabulary's may be, or `hierarchy` is neither `general` nor
    /// `limited`.
    #[error("a number is outside its range, a list has too many entries, or `hierarchy` is neither `general` nor `limited`")]
    OutOfRange,
    /// A text is no name.
    #[error("a text is no name")]
    BadName,
    /// An operation, an object or a permission stands twice.
    #[error("an operation, an object or a permission stands twice")]
    Repeated,
    /// A permission speaks of an operation or an object that is not listed.
    #[error("a permission speaks of an operation or an object that is not listed")]
    UnknownName,
    /// Memory ran out.
    #[error("no memory")]
    NoMemory,
}

impl FoundingRefusal {
    /// The word that a text shows.
    pub fn word(self) -> &'static str
        ensures { result.now ≡ founding_refusal_word self }
    {
        match self {
            FoundingRefusal::TooLong => "TooLong",
            FoundingRefusal::NotToml => "NotToml",
            FoundingRefusal::BadVersion => "BadVersion",
            FoundingRefusal::UnknownKey => "UnknownKey",
            FoundingRefusal::MissingKey => "MissingKey",
            FoundingRefusal::WrongKind => "WrongKind",
            FoundingRefusal::OutOfRange => "OutOfRange",
            FoundingRefusal::BadName => "BadName",
            FoundingRefusal::Repeated => "Repeated",
            FoundingRefusal::UnknownName => "UnknownName",
            FoundingRefusal::NoMemory => "NoMemory",
        }
    }
}

impl From<AllocError> for FoundingRefusal {
    ghost use Rattle.rbac_founding.specs.declared.refusal.FoundingRefusal.TheVariants.{NoMemory};

    ghost from_gives = { λ _ refusal. refusal ≡ NoMemory };

    fn from(_refused: AllocError) -> FoundingRefusal {
        FoundingRefusal::NoMemory
    }
}

/// Why no founding was read of a stream.
#[derive(Clone, Copy, Debug, PartialEq, Eq, Drop, Error)]
pub enum StreamRefusal {
    /// The stream failed.
    #[error("the file cannot be read")]
    Unread,
    /// What it brought is no founding, or memory ran out.
    #[error(transparent)]
    Founding(FoundingRefusal),
}

impl From<FoundingRefusal> for StreamRefusal {
    ghost use Rattle.rbac_founding.specs.declared.refusal.StreamRefusal.TheVariants.{Founding};

    ghost from_gives = { λ refusal made. made ≡ Founding refusal };

    fn from(refusal: FoundingRefusal) -> StreamRefusal {
        StreamRefusal::Founding(refusal)
    }
}

/// Want of memory is told as such; all else is a stream that failed.
impl From<io::Error> for StreamRefusal {
    ghost use Rattle.std.specs.IoError.{error_kind};
    ghost use Rattle.std.specs.declared.io.ErrorKind.TheVariants.{OutOfMemory};
    ghost use Rattle.rbac_founding.specs.declared.refusal.FoundingRefusal.TheVariants.{NoMemory};
    ghost use Rattle.rbac_founding.specs.declared.refusal.StreamRefusal.TheVariants.{Unread, Founding};

    ghost from_gives = { λ error made. (error_kind error ≡ OutOfMemory → made ≡ Founding NoMemory) × (error_kind error ≢ OutOfMemory → made ≡ Unread) };

    fn from(error: io::Error) -> StreamRefusal {
        match error.kind() {
            ErrorKind::OutOfMemory => StreamRefusal::Founding(FoundingRefusal::NoMemory),
            _ => StreamRefusal::Unread,
        }
    }
}
