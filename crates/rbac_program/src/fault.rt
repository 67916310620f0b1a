//! What ends the program with status 1.
ghost use Rattle.std.specs.Prelude.{◌≡◌};
ghost use Rattle.rbac_program.specs.Faults.{audit_word};

use rbac_founding::FoundingRefusal;
use rbac_lines::{LineRefusal, RunFault, Summary};
use rbac_service::AuditRefusal;
use std::alloc::AllocError;
use std::fmt;
use std::fmt::{Display, Formatter};

/// The first fault that was found.
#[derive(Clone, Copy, Drop)]
pub(crate) enum Fault<'w> {
    /// The file of this path cannot be read.
    File(&'w str),
    /// The founding's file is refused, or there is no memory for the founding world.
    Founding(FoundingRefusal),
    /// The run or the conversation ended early.
    Run(RunFault),
    /// A member's thread cannot be started, or no caller enrolled at a member.
    NoThread,
    /// The audit is refused.
    Audit(AuditRefusal),
    /// A node does not confirm its member's pass.
    NotConfirmed,
    /// Lines that were read for what they leave were refused.
    Lines(Summary),
    /// A text that was asked about is no name.
    BadName(&'w str),
    /// A text that was asked about is no command.
    Command(LineRefusal),
    /// No commands were found that lead from one policy to the other.
    NotMade,
    /// The group has no member of this number, or the word is no number.
    NoMember(&'w str),
}

impl From<AllocError> for Fault<'_> {
    ghost use Rattle.rbac_founding.specs.declared.refusal.FoundingRefusal.TheVariants.{NoMemory};
    ghost use Rattle.rbac_program.specs.declared.fault.Fault.TheVariants.{Founding};

    ghost from_gives = { λ _ fault. fault ≡ Founding NoMemory };

    fn from(_refused: AllocError) -> Self {
        Fault::Founding(FoundingRefusal::NoMemory)
    }
}

impl From<RunFault> for Fault<'_> {
    ghost use Rattle.rbac_program.specs.declared.fault.Fault.TheVariants.{Run};

    ghost from_gives = { λ run fault. fault ≡ Run run };

    fn from(fault: RunFault) -> Self {
        Fault::Run(fault)
    }
}

impl From<AuditRefusal> for Fault<'_> {
    ghost use Rattle.rbac_program.specs.declared.fault.Fault.TheVariants.{Audit};

    ghost from_gives = { λ refusal fault. fault ≡ Audit refusal };

    fn from(refusal: AuditRefusal) -> Self {
        Fault::Audit(refusal)
    }
}

fn audit_word(refusal: AuditRefusal) -> &'static str
    ensures { result.now ≡ audit_word refusal }
{
    match refusal {
        AuditRefusal::NotAGroup => "NotAGroup",
        AuditRefusal::NoMemory => "NoMemory",
    }
}

impl Display for Fault<'_> {
    ghost use Rattle.std.specs.Prelude.{Some};
    ghost use Rattle.rbac_program.specs.Faults.{fault_text};

    ghost output = { λ fault. Some (fault_text fault) };

    fn fmt<W: fmt::Write>(&self, f: &mut Formatter<W>) -> fmt::Result {
        match *self {
            Fault::File(path) => write!(f, "rbac_monitor: file: {path}"),
            Fault::Founding(refusal) => write!(f, "rbac_monitor: founding: {}", refusal.word()),
            Fault::Run(fault) => write!(f, "rbac_monitor: run: {}", fault.word()),
            Fault::NoThread => write!(f, "rbac_monitor: run: NoThread"),
            Fault::Audit(refusal) => write!(f, "rbac_monitor: audit: {}", audit_word(refusal)),
            Fault::NotConfirmed => write!(f, "rbac_monitor: audit: NotConfirmed"),
            Fault::Lines(summary) => {
                let Summary { lines, refused } = summary;
                write!(f, "rbac_monitor: lines: {refused} of {lines} were refused")
            }
            Fault::BadName(text) => write!(f, "rbac_monitor: name: {text}"),
            Fault::Command(refusal) => write!(f, "rbac_monitor: command: {}", refusal.word()),
            Fault::NotMade => write!(f, "rbac_monitor: diff: NotMade"),
            Fault::NoMember(number) => write!(f, "rbac_monitor: member: {number}"),
        }
    }
}
