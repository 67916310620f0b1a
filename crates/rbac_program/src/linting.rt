//! What is wrong with a founding file and with lines.

use crate::fault::Fault;
use crate::words::Lint;
use rbac_decide::Policy;
use rbac_founding::{Founding, FoundingRefusal, read_founding, sample_founding};
use rbac_lines::RunFault;
use rbac_lint::{
    ClientLines, ScheduleLines, findings_text, lint_client_lines, lint_founding, lint_policy,
    lint_schedule_lines,
};
use std::alloc::{AllocError, Global};
use std::io::{Read, Write};
use std::rt::Files;
use std::{fs, io};

/// The most bytes of a founding file, and one more.
const MOST_BYTES: u64 = 1_048_577;

// Writes what was found in a file, and gives whether something was.
fn write_findings<'w, W: Write>(
    text: Result<Vec<u8>, AllocError>,
    writer: &mut W,
) -> Result<bool, Fault<'w>> {
    let Ok(text) = text else {
        return Err(Fault::Run(RunFault::NoMemory));
    };
    if writer.write_all(&text).is_err() || writer.flush().is_err() {
        return Err(Fault::Run(RunFault::Write));
    }
    Ok(!text.is_empty())
}

// What is told of a founding file.
fn founding_text(alloc: Global, path: &str, file: &[u8]) -> Result<Vec<u8>, AllocError> {
    findings_text(alloc, path, &lint_founding(alloc, file)?)
}

// What is told of the policy that lines leave.
fn policy_text(alloc: Global, path: &str, policy: &Policy) -> Result<Vec<u8>, AllocError> {
    findings_text(alloc, path, &lint_policy(alloc, policy)?)
}

/// A founding whose policy lines are applied to.
#[derive(Drop)]
struct Ground {
    members: u32,
    policy: Policy,
    /// It is that of the founding file, which was read.
    is_real: bool,
}

// The ground of a founding file; where that is refused, one on which lines can be looked at all the same.
fn ground_of<'w>(alloc: Global, file: Option<&[u8]>) -> Result<Ground, Fault<'w>> {
    let founding = match file {
        Some(file) => read_founding(alloc, file),
        None => sample_founding(alloc).map_err(|_| FoundingRefusal::NoMemory),
    };
    match founding {
        Ok(Founding { group, vocabulary }) => Ok(Ground {
            members: group.members(),
            policy: Policy::found(alloc, vocabulary),
            is_real: true,
        }),
        Err(FoundingRefusal::NoMemory) => Err(Fault::Run(RunFault::NoMemory)),
        Err(_) => {
            let Founding { vocabulary, .. } = sample_founding(alloc)?;
            Ok(Ground {
                members: 8,
                policy: Policy::found(alloc, vocabulary),
                is_real: false,
            })
        }
    }
}

// Looks at client lines, and at the policy that they leave, and gives whether something was found.
fn lint_clients<'w, R: Read + Drop, W: Write>(
    alloc: Global,
    ground: Ground,
    path: &'w str,
    reader: R,
    writer: &mut W,
) -> Result<bool, Fault<'w>> {
    let Ground {
        members,
        policy,
        is_real,
    } = ground;
    let Ok(told) = String::from_str(alloc, path) else {
        drop(policy);
        return Err(Fault::Run(RunFault::NoMemory));
    };
    let mut lines = ClientLines {
        path: told,
        members,
        policy,
    };
    let looked = lint_client_lines(alloc, reader, writer, &mut lines);
    let found = match looked {
        Ok(summary) if is_real => {
            let warned = write_findings(policy_text(alloc, path, &lines.policy), writer);
            warned.map(|warned| warned || summary.refused != 0)
        }
        Ok(summary) => Ok(summary.refused != 0),
        Err(fault) => Err(Fault::Run(fault)),
    };
    drop(lines);
    found
}

// Looks at the lines of a schedule, and gives whether something was found.
fn lint_schedule<'w, R: Read + Drop, W: Write>(
    alloc: Global,
    path: &'w str,
    reader: R,
    writer: &mut W,
) -> Result<bool, Fault<'w>> {
    let Ok(told) = String::from_str(alloc, path) else {
        return Err(Fault::Run(RunFault::NoMemory));
    };
    let mut lines = ScheduleLines { path: told };
    let summary = lint_schedule_lines(alloc, reader, writer, &mut lines)?;
    Ok(summary.refused != 0)
}

// Looks at lines, and gives whether something was found.
fn lint_lines<'w, R: Read + Drop, W: Write>(
    alloc: Global,
    asked: Lint<'w>,
    ground: Ground,
    path: &'w str,
    reader: R,
    writer: &mut W,
) -> Result<bool, Fault<'w>> {
    if asked.are_client_lines {
        lint_clients(alloc, ground, path, reader, writer)
    } else {
        drop(ground);
        lint_schedule(alloc, path, reader, writer)
    }
}

// Opens the lines, if there are any, and looks at them.
fn lint_path<'w, T: Files + AllocGlobal, R: Read + Drop, W: Write>(
    rt: &T,
    asked: Lint<'w>,
    ground: Ground,
    reader: R,
    writer: &mut W,
) -> Result<bool, Fault<'w>> {
    match asked.lines {
        None => {
            drop(ground);
            Ok(false)
        }
        Some("-") => lint_lines(rt.alloc(), asked, ground, "-", reader, writer),
        Some(path) => match fs::open(rt, path) {
            Ok(file) => lint_lines(rt.alloc(), asked, ground, path, file, writer),
            Err(_) => {
                drop(ground);
                Err(Fault::File(path))
            }
        },
    }
}

// The bytes of a founding file, of one that is too long so many that this is seen.
fn bytes_of<T: Files + AllocGlobal>(rt: &T, path: &str) -> io::Result<Vec<u8>> {
    let mut bytes = Vec::new(rt.alloc());
    fs::open(rt, path)?
        .take(MOST_BYTES)
        .read_to_end(&mut bytes)?;
    Ok(bytes)
}

/// Writes what is wrong with a founding file and with lines, each fault at its place, and gives whether something was found. The sample
/// founding is right.
pub(crate) fn lint<'w, T: Files + AllocGlobal, R: Read + Drop, W: Write>(
    rt: &T,
    asked: Lint<'w>,
    reader: R,
    writer: &mut W,
) -> Result<bool, Fault<'w>> {
    if asked.founding == "-" {
        let ground = ground_of(rt.alloc(), None)?;
        return lint_path(rt, asked, ground, reader, writer);
    }
    let Ok(file) = bytes_of(rt, asked.founding) else {
        return Err(Fault::File(asked.founding));
    };
    let text = founding_text(rt.alloc(), asked.founding, &file);
    let is_faulty = write_findings(text, writer)?;
    let ground = ground_of(rt.alloc(), Some(&file))?;
    let found = lint_path(rt, asked, ground, reader, writer)?;
    Ok(is_faulty || found)
}
