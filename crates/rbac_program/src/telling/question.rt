//! What is asked of a policy.
ghost use Rattle.std.specs.Prelude.{◌≡◌, false, IfOk, Ok};
ghost use Rattle.rbac_terms.specs.declared.command.Command.TheVariants.{CheckAccess};
ghost use Rattle.rbac_text.specs.ReadCommand.{command};
ghost use Rattle.rbac_pages.specs.GranteeText.{TellsWho};
ghost use Rattle.rbac_pages.specs.declared.explanation.Verdict.TheVariants.{Allowed};
ghost use Rattle.rbac_program.specs.Telling.{Tells, TellsOf, TellsOfText, is_question};

use crate::fault::Fault;
use crate::founding_file::founding_of;
use crate::telling::lines::{play, serve, served_of, write_whole};
use crate::words::{Lines, Question};
use rbac_decide::Policy;
use rbac_dump::dump_lines;
use rbac_founding::Founding;
use rbac_lines::RunFault;
use rbac_pages::{Explanation, Verdict, graph, page, who, why};
use rbac_telling::Served;
use rbac_terms::{Command, Name, NameRefusal};
use rbac_text::{LineRefusal, Scratch, read_command};
use std::alloc::{AllocError, Global};
use std::fs;
use std::io::{Read, Write};
use std::rt::Files;

// A text of a policy, which allows nothing and denies nothing.
fn told<'w>(text: Result<Vec<u8>, AllocError>) -> Result<Explanation, Fault<'w>>
    ensures text { IfOk result (λ told. text ≡ Ok told.text) }
    ensures verdict { IfOk result (λ told. told.verdict ≡ Allowed) }
{
    match text {
        Ok(text) => Ok(Explanation {
            verdict: Verdict::Allowed,
            text,
        }),
        Err(_) => Err(Fault::Run(RunFault::NoMemory)),
    }
}

// The name that a word is.
fn name_of<'w>(alloc: Global, word: &'w str) -> Result<Name, Fault<'w>>
    ensures { IfOk result (λ name. name ≡ word.now) }
{
    match Name::read(alloc, word.as_bytes()) {
        Ok(name) => Ok(name),
        Err(NameRefusal::BadName) => Err(Fault::BadName(word)),
        Err(NameRefusal::NoMemory) => Err(Fault::Run(RunFault::NoMemory)),
    }
}

// The command that a word is.
fn command_of<'w>(alloc: Global, word: &'w str) -> Result<Command, Fault<'w>>
    ensures { IfOk result (λ asked. command word.now ≡ Ok asked) }
{
    match read_command(alloc, word.as_bytes(), &mut Scratch::new(alloc)) {
        Ok(command) => Ok(command),
        Err(LineRefusal::NoMemory) => Err(Fault::Run(RunFault::NoMemory)),
        Err(refusal) => Err(Fault::Command(refusal)),
    }
}

// The check that three words are.
fn check_of<'w>(
    alloc: Global,
    session: &'w str,
    operation: &'w str,
    object: &'w str,
) -> Result<Command, Fault<'w>>
    ensures { IfOk result (λ command. command ≡ CheckAccess session.now operation.now object.now) }
{
    let session = name_of(alloc, session)?;
    let operation = name_of(alloc, operation)?;
    let object = name_of(alloc, object)?;
    Ok(Command::CheckAccess {
        session,
        operation,
        object,
    })
}

// What a command would be answered, and why.
fn explain<'w>(alloc: Global, policy: &Policy, command: &Command) -> Result<Explanation, Fault<'w>>
    ensures { IfOk result (TellsOf command.now policy.now) }
{
    match why(alloc, policy, command) {
        Ok(told) => Ok(told),
        Err(_) => Err(Fault::Run(RunFault::NoMemory)),
    }
}

// The same of the check that three words are.
fn explain_check<'w>(
    alloc: Global,
    policy: &Policy,
    session: &'w str,
    operation: &'w str,
    object: &'w str,
) -> Result<Explanation, Fault<'w>>
    ensures { IfOk result (TellsOf (CheckAccess session.now operation.now object.now) policy.now) }
{
    let command = check_of(alloc, session, operation, object)?;
    let told = explain(alloc, policy, &command);
    drop(command);
    told
}

// The same of the command that a word is.
fn explain_command<'w>(
    alloc: Global,
    policy: &Policy,
    text: &'w str,
) -> Result<Explanation, Fault<'w>>
    ensures { IfOk result (TellsOfText text.now policy.now) }
{
    let command = command_of(alloc, text)?;
    let told = explain(alloc, policy, &command);
    drop(command);
    told
}

// Who may perform an operation on an object.
fn allowed<'w>(
    alloc: Global,
    policy: &Policy,
    operation: &'w str,
    object: &'w str,
) -> Result<Explanation, Fault<'w>>
    ensures { IfOk result (TellsWho policy.now (operation.now, object.now)) }
{
    let operation = name_of(alloc, operation)?;
    let object = name_of(alloc, object)?;
    match who(alloc, policy, &operation, &object) {
        Ok(told) => Ok(told),
        Err(_) => Err(Fault::Run(RunFault::NoMemory)),
    }
}

// What is told of a policy.
fn text_of<'w>(
    alloc: Global,
    question: Question<'w>,
    policy: &Policy,
) -> Result<Explanation, Fault<'w>>
    ensures { IfOk result (Tells question.entry policy.now) }
{
    match question {
        Question::Dump => told(dump_lines(alloc, policy)),
        Question::Page => told(page(alloc, policy)),
        Question::Graph => told(graph(alloc, policy)),
        Question::WhyCheck {
            session,
            operation,
            object,
        } => explain_check(alloc, policy, session, operation, object),
        Question::WhyCommand(text) => explain_command(alloc, policy, text),
        Question::Who { operation, object } => allowed(alloc, policy, operation, object),
    }
}

// Writes what is told of a policy, and gives its verdict.
fn write_told<'w, W: Write>(
    alloc: Global,
    question: Question<'w>,
    policy: &Policy,
    writer: &mut W,
) -> Result<Verdict, Fault<'w>>
    ensures no_verdict { is_question question.entry ≡ false → IfOk result (λ verdict. verdict ≡ Allowed) }
{
    let told = text_of(alloc, question, policy)?;
    write_whole(writer, &told.text)?;
    Ok(told.verdict)
}

// Plays a schedule, and tells of the policy of member 1.
fn tell_played<'w, R: Read + Drop, W: Write>(
    alloc: Global,
    asked: (Question<'w>, bool),
    founding: Founding,
    reader: R,
    writer: &mut W,
) -> Result<Verdict, Fault<'w>>
    ensures no_verdict { is_question asked.entry.0 ≡ false → IfOk result (λ verdict. verdict ≡ Allowed) }
{
    let world = play(alloc, founding, reader, asked.1)?;
    let Some(member) = world.member(1) else {
        unreachable!()
    };
    let told = write_told(alloc, asked.0, member.policy(), writer);
    drop(world);
    told
}

// Applies client lines to the policy of a group, and tells of it.
fn tell_after<'w, R: Read + Drop, W: Write, E: Write>(
    alloc: Global,
    asked: (Question<'w>, bool),
    served: &mut Served,
    reader: R,
    writer: &mut W,
    errors: &mut E,
) -> Result<Verdict, Fault<'w>>
    ensures no_verdict { is_question asked.entry.0 ≡ false → IfOk result (λ verdict. verdict ≡ Allowed) }
{
    serve(alloc, served, reader, asked.1, errors)?;
    write_told(alloc, asked.0, served.policy(), writer)
}

// The same of a group that is founded.
fn tell_served<'w, R: Read + Drop, W: Write, E: Write>(
    alloc: Global,
    asked: (Question<'w>, bool),
    founding: Founding,
    reader: R,
    writer: &mut W,
    errors: &mut E,
) -> Result<Verdict, Fault<'w>>
    ensures no_verdict { is_question asked.entry.0 ≡ false → IfOk result (λ verdict. verdict ≡ Allowed) }
{
    let mut served = served_of(alloc, founding);
    let told = tell_after(alloc, asked, &mut served, reader, writer, errors);
    drop(served);
    told
}

// Reads the lines, and tells what is asked.
fn tell_lines<'w, R: Read + Drop, W: Write, E: Write>(
    alloc: Global,
    lines: Lines<'w>,
    question: Question<'w>,
    founding: Founding,
    reader: R,
    writer: &mut W,
    errors: &mut E,
) -> Result<Verdict, Fault<'w>>
    ensures no_verdict { is_question question.entry ≡ false → IfOk result (λ verdict. verdict ≡ Allowed) }
{
    let asked = (question, lines.is_lenient);
    if lines.are_client_lines {
        tell_served(alloc, asked, founding, reader, writer, errors)
    } else {
        tell_played(alloc, asked, founding, reader, writer)
    }
}

/// Tells what is asked of the policy that lines leave: that of the group, or of member 1 after a schedule. The founding is read first. What
/// is no question is told with no verdict but that nothing is denied.
pub(crate) fn tell<'w, T: Files + AllocGlobal, R: Read + Drop, W: Write, E: Write>(
    rt: &T,
    lines: Lines<'w>,
    question: Question<'w>,
    reader: R,
    writer: &mut W,
    errors: &mut E,
) -> Result<Verdict, Fault<'w>>
    ensures no_verdict { is_question question.entry ≡ false → IfOk result (λ verdict. verdict ≡ Allowed) }
{
    let founding = founding_of(rt, lines.founding)?;
    if lines.path == "-" {
        return tell_lines(
            rt.alloc(),
            lines,
            question,
            founding,
            reader,
            writer,
            errors,
        );
    }
    match fs::open(rt, lines.path) {
        Ok(file) => tell_lines(rt.alloc(), lines, question, founding, file, writer, errors),
        Err(_) => Err(Fault::File(lines.path)),
    }
}
