//! What two inputs of client lines leave differently.

ghost use Rattle.std.specs.Prelude.{◌≡◌, true, false, IfOk};
ghost use Rattle.rbac_pages.specs.DifferenceText.{difference_text};
ghost use Rattle.rbac_text.specs.Lines.{lines_text};
ghost use Rattle.rbac_program.specs.Differing.{HasWay};

use crate::fault::Fault;
use crate::founding_file::founding_of;
use crate::telling::lines::{serve, served_of, write_whole};
use crate::words::Difference;
use rbac_decide::Policy;
use rbac_lines::RunFault;
use rbac_pages::difference_lines;
use rbac_telling::{LeadingRefusal, Served, commands_between};
use rbac_terms::Command;
use rbac_text::{COMMAND_ROOM, client_lines};
use std::alloc::Global;
use std::fs;
use std::io::Write;
use std::rt::Files;

// The group of the founding after the client lines of a file.
fn served_by<'w, T: Files + AllocGlobal, E: Write>(
    rt: &T,
    asked: Difference<'w>,
    path: &'w str,
    errors: &mut E,
) -> Result<Served, Fault<'w>> {
    let mut served = served_of(rt.alloc(), founding_of(rt, asked.founding)?);
    let read = match fs::open(rt, path) {
        Ok(file) => serve(rt.alloc(), &mut served, file, asked.is_lenient, errors),
        Err(_) => Err(Fault::File(path)),
    };
    match read {
        Ok(()) => Ok(served),
        Err(fault) => {
            drop(served);
            Err(fault)
        }
    }
}

// The client lines of commands.
fn lines_of<'w>(alloc: Global, commands: &[Command]) -> Result<Vec<u8>, Fault<'w>>
    ensures { IfOk result (λ text. text.items ≡ lines_text commands.now) }
{
    match client_lines(alloc, commands) {
        Ok(text) => Ok(text),
        Err(_) => Err(Fault::Run(RunFault::NoMemory)),
    }
}

// The client lines that lead from one policy to the other.
fn leading_lines<'w>(alloc: Global, from: &Policy, to: &Policy) -> Result<Vec<u8>, Fault<'w>>
    ensures { IfOk result (λ text. HasWay from.now to.now text.items) }
{
    match commands_between(alloc, from, to, COMMAND_ROOM) {
        Ok(commands) => lines_of(alloc, &commands),
        Err(LeadingRefusal::NotMade) => Err(Fault::NotMade),
        Err(LeadingRefusal::NoMemory) => Err(Fault::Run(RunFault::NoMemory)),
    }
}

// What each policy has that the other has not.
fn lists<'w>(alloc: Global, from: &Policy, to: &Policy) -> Result<Vec<u8>, Fault<'w>>
    ensures { IfOk result (λ text. text.items ≡ difference_text from.now to.now) }
{
    match difference_lines(alloc, from, to) {
        Ok(text) => Ok(text),
        Err(_) => Err(Fault::Run(RunFault::NoMemory)),
    }
}

// What is asked of two policies.
fn text_between<'w>(
    alloc: Global,
    are_lists: bool,
    from: &Policy,
    to: &Policy,
) -> Result<Vec<u8>, Fault<'w>>
    ensures lists { are_lists ≡ true → IfOk result (λ text. text.items ≡ difference_text from.now to.now) }
    ensures way { are_lists ≡ false → IfOk result (λ text. HasWay from.now to.now text.items) }
{
    if are_lists {
        lists(alloc, from, to)
    } else {
        leading_lines(alloc, from, to)
    }
}

// Reads the second input, and writes what is asked of both policies.
fn differ_from<'w, T: Files + AllocGlobal, W: Write, E: Write>(
    rt: &T,
    asked: Difference<'w>,
    from: &Policy,
    writer: &mut W,
    errors: &mut E,
) -> Result<(), Fault<'w>> {
    let to = served_by(rt, asked, asked.to, errors)?;
    let text = text_between(rt.alloc(), asked.are_lists, from, to.policy());
    drop(to);
    write_whole(writer, &text?)
}

/// Writes the client lines that lead from the policy of one input of client lines to that of another: from the first each is answered
/// Done, and they leave the second. Or, where lists are asked for, the lines of the dump of each that the dump of the other has not.
pub(crate) fn differ<'w, T: Files + AllocGlobal, W: Write, E: Write>(
    rt: &T,
    asked: Difference<'w>,
    writer: &mut W,
    errors: &mut E,
) -> Result<(), Fault<'w>> {
    let from = served_by(rt, asked, asked.from, errors)?;
    let told = differ_from(rt, asked, from.policy(), writer, errors);
    drop(from);
    told
}
