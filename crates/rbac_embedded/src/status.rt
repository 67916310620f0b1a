//! What calls are answered with.
ghost use Rattle.std.specs.Prelude.{◌≡◌};
ghost use Rattle.rbac_embedded.specs.Status.{command_number, founding_number, status_number, verdict_number};

use crate::verdict::Verdict;
use rbac_founding::FoundingRefusal;
use rbac_text::LineRefusal;

/// What a call on a holder is answered with.
#[derive(Clone, Copy, Debug, PartialEq, Eq, Drop)]
pub enum Status {
    /// What was asked for is done.
    Done,
    /// There is no policy.
    EmptyPlace,
    /// There is a policy already.
    FullPlace,
    /// The answer's text is longer than the buffer. The command was applied, and the text can be asked for again.
    ShortBuffer,
    /// Memory ran out. Nothing has changed.
    NoMemory,
    /// What a check tells, or why those who may are not told.
    Checked(Verdict),
    /// The founding file is refused, or memory ran out.
    BadFounding(FoundingRefusal),
    /// The command's text is refused, or memory ran out. Nothing has changed.
    BadCommand(LineRefusal),
}

const NO_MEMORY: u32 = 43;

fn founding_number(refusal: FoundingRefusal) -> u32
    ensures { result ≡ founding_number refusal }
{
    match refusal {
        FoundingRefusal::TooLong => 101,
        FoundingRefusal::NotToml => 102,
        FoundingRefusal::BadVersion => 103,
        FoundingRefusal::UnknownKey => 104,
        FoundingRefusal::MissingKey => 105,
        FoundingRefusal::WrongKind => 106,
        FoundingRefusal::OutOfRange => 107,
        FoundingRefusal::BadName => 108,
        FoundingRefusal::Repeated => 109,
        FoundingRefusal::UnknownName => 110,
        FoundingRefusal::NoMemory => NO_MEMORY,
    }
}

fn command_number(refusal: LineRefusal) -> u32
    ensures { result ≡ command_number refusal }
{
    match refusal {
        LineRefusal::TooLong => 201,
        LineRefusal::NotJson => 202,
        LineRefusal::NotObject => 203,
        LineRefusal::UnknownWord => 204,
        LineRefusal::MissingField => 205,
        LineRefusal::WrongKind => 206,
        LineRefusal::BadName => 207,
        LineRefusal::ExtraField => 208,
        LineRefusal::NoMemory => NO_MEMORY,
    }
}

fn verdict_number(verdict: Verdict) -> u32
    ensures { result ≡ verdict_number verdict }
{
    match verdict {
        Verdict::Granted => 50,
        Verdict::Refused => 51,
        Verdict::BadName => 52,
        Verdict::Denied(denial) => denial.number(),
    }
}

impl Status {
    /// The number that a caller in another language sees.
    pub fn number(self) -> u32
        ensures { result ≡ status_number self }
    {
        match self {
            Status::Done => 0,
            Status::EmptyPlace => 40,
            Status::FullPlace => 41,
            Status::ShortBuffer => 42,
            Status::NoMemory => NO_MEMORY,
            Status::Checked(verdict) => verdict_number(verdict),
            Status::BadFounding(refusal) => founding_number(refusal),
            Status::BadCommand(refusal) => command_number(refusal),
        }
    }
}
