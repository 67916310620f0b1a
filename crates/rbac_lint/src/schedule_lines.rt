//! What is wrong with the lines of a schedule.
ghost use Rattle.std.specs.Prelude.{◌≡◌, [], IfOk, IfSome, IsOk, OnOk};
ghost use Rattle.line_engine.specs.Lines.{lines};
ghost use Rattle.rbac_lines.specs.Event.{event};
ghost use Rattle.rbac_lint.specs.Clean.{AreRead};

use crate::client_lines::MOST_READS;
use crate::finding::{Finding, findings_text};
use crate::line::{LineKind, lint_line};
use line_engine::{RunFault, Summary, Taking, run_lines, watch};
use rbac_lines::{LineRefusal, Scratch, read_line};
use std::alloc::{AllocError, Global};
use std::io::{Read, Write};

/// Lines of a schedule, and the path that they are told by.
#[derive(Drop)]
pub struct ScheduleLines {
    pub path: String,
}

// What is wrong with a line.
fn look_at(
    alloc: Global,
    scratch: &mut Scratch,
    number: u64,
    line: &[u8],
    findings: &mut Vec<Finding>,
) -> Result<(), AllocError>
    ensures { OnOk result (findings.new.items ≡ [] → IsOk (event line.now)) }
{
    match read_line(alloc, line, scratch) {
        Ok(event) => {
            drop(event);
            lint_line(alloc, LineKind::Schedule, number, line, None, findings)
        }
        Err(LineRefusal::NoMemory) => Err(AllocError),
        Err(refusal) => lint_line(
            alloc,
            LineKind::Schedule,
            number,
            line,
            Some(refusal),
            findings,
        ),
    }
}

/// Lines of a schedule are looked at.
struct ScheduleLinting;

impl Taking for ScheduleLinting {
    type Over = ScheduleLines;

    type Scratch = Scratch;

    ghost use Rattle.std.specs.Prelude.{⊤};
    ghost use Rattle.rbac_lines.specs.Event.{event};
    ghost use Rattle.rbac_lint.specs.Clean.{LintsBy};

    ghost State = { ⊤ };

    ghost state = { λ lines. tt };

    ghost takes = { LintsBy event };

    fn scratch(alloc: Global) -> Scratch {
        Scratch::new(alloc)
    }

    fn take_line(
        lines: &mut ScheduleLines,
        alloc: Global,
        scratch: &mut Scratch,
        number: u64,
        line: &[u8],
        text: &mut Vec<u8>,
    ) -> Result<bool, AllocError> {
        let mut findings = Vec::new(alloc);
        look_at(alloc, scratch, number, line, &mut findings)?;
        let own = findings_text(alloc, lines.path.as_str(), &findings)?;
        text.extend_from_slice(&own)?;
        Ok(!findings.is_empty())
    }
}

/// Tells what is wrong with the lines of a schedule, each fault at its place. Where no line has faults, each is read as an event; how
/// many have is counted as refused. What an event would be refused for in a world is not looked at: `trace` tells that.
///
/// # Errors
/// `Read` where the reader fails, `Write` where the writer does, `TooManyReads` where the input has not ended after 268,435,456
/// reads, `NoMemory` where memory ends.
pub fn lint_schedule_lines<R: Read + Drop, W: Write>(
    alloc: Global,
    reader: R,
    writer: &mut W,
    over: &mut ScheduleLines,
) -> Result<Summary, RunFault>
    ensures { IfOk result (λ summary. IfSome (R.remaining reader) (λ input. summary.refused ≡ 0 → AreRead event (lines input))) }
{
    run_lines::<ScheduleLinting, R, &mut W>(
        alloc,
        &mut watch(reader),
        &mut watch(writer),
        over,
        MOST_READS,
    )
}
