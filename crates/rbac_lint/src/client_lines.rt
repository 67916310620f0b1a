//! What is wrong with client lines, and the policy that they leave.
ghost use Rattle.std.specs.Prelude.{◌≡◌, [], IfOk, IfSome, IsOk, OnOk};
ghost use Rattle.line_engine.specs.Lines.{lines};
ghost use Rattle.rbac_text.specs.Client.{client};
ghost use Rattle.rbac_lint.specs.Clean.{AreRead};

use crate::finding::{Finding, Place, fault, findings_text};
use crate::line::{LineKind, lint_line};
use line_engine::{RunFault, Summary, Taking, run_lines, watch};
use rbac_decide::Policy;
use rbac_lines::{LineRefusal, Scratch, read_client};
use rbac_terms::Command;
use std::alloc::{AllocError, Global};
use std::io::{Read, Write};

/// How often an input is read at most.
pub(crate) const MOST_READS: u32 = 268_435_456;

/// Client lines for a group of so many members, the path that they are told by, and the policy that they leave.
#[derive(Drop)]
pub struct ClientLines {
    pub path: String,
    pub members: u32,
    pub policy: Policy,
}

impl ClientLines {
    // A command of a member that the group may not have.
    fn ask(
        &mut self,
        alloc: Global,
        number: u64,
        at: u32,
        command: &Command,
        findings: &mut Vec<Finding>,
    ) -> Result<(), AllocError> {
        if 1 <= at && at <= self.members {
            drop(self.policy.apply(alloc, command)?);
            return Ok(());
        }
        let members = self.members;
        let place = Place {
            line: number,
            column: 1,
        };
        let told = format_args!("UnknownMember: there is no member {at}; the group has {members}");
        fault(alloc, findings, place, told)
    }

    // What is wrong with a line.
    fn look_at(
        &mut self,
        alloc: Global,
        scratch: &mut Scratch,
        number: u64,
        line: &[u8],
        findings: &mut Vec<Finding>,
    ) -> Result<(), AllocError>
        ensures { OnOk result (findings.new.items ≡ [] → IsOk (client line.now)) }
    {
        match read_client(alloc, line, scratch) {
            Ok((at, command)) => {
                let asked = self.ask(alloc, number, at, &command, findings);
                drop(command);
                asked?;
                lint_line(alloc, LineKind::Client, number, line, None, findings)
            }
            Err(LineRefusal::NoMemory) => Err(AllocError),
            Err(refusal) => lint_line(
                alloc,
                LineKind::Client,
                number,
                line,
                Some(refusal),
                findings,
            ),
        }
    }
}

/// Client lines are looked at.
struct ClientLinting;

impl Taking for ClientLinting {
    type Over = ClientLines;

    type Scratch = Scratch;

    ghost use Rattle.std.specs.Prelude.{⊤};
    ghost use Rattle.rbac_text.specs.Client.{client};
    ghost use Rattle.rbac_lint.specs.Clean.{LintsBy};

    ghost State = { ⊤ };

    ghost state = { λ lines. tt };

    ghost takes = { LintsBy client };

    fn scratch(alloc: Global) -> Scratch {
        Scratch::new(alloc)
    }

    fn take_line(
        lines: &mut ClientLines,
        alloc: Global,
        scratch: &mut Scratch,
        number: u64,
        line: &[u8],
        text: &mut Vec<u8>,
    ) -> Result<bool, AllocError> {
        let mut findings = Vec::new(alloc);
        lines.look_at(alloc, scratch, number, line, &mut findings)?;
        let own = findings_text(alloc, lines.path.as_str(), &findings)?;
        text.extend_from_slice(&own)?;
        Ok(!findings.is_empty())
    }
}

/// Tells what is wrong with client lines, each fault at its place. Where no line has faults, each is read; how many have is counted as
/// refused.
///
/// # Errors
/// `Read` where the reader fails, `Write` where the writer does, `TooManyReads` where the input has not ended after 268,435,456
/// reads, `NoMemory` where memory ends.
pub fn lint_client_lines<R: Read + Drop, W: Write>(
    alloc: Global,
    reader: R,
    writer: &mut W,
    over: &mut ClientLines,
) -> Result<Summary, RunFault>
    ensures { IfOk result (λ summary. IfSome (R.remaining reader) (λ input. summary.refused ≡ 0 → AreRead client (lines input))) }
{
    run_lines::<ClientLinting, R, &mut W>(
        alloc,
        &mut watch(reader),
        &mut watch(writer),
        over,
        MOST_READS,
    )
}
