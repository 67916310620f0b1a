//! The whole program but for the standard streams.
ghost use Rattle.std.specs.Prelude.{◌≡◌, ◌≢◌, ◌≤◌, IfSome, IfOk, IsErr, false, is_ok, if◌then◌else◌, length};
ghost use Rattle.std.specs.IoError.{error_kind};
ghost use Rattle.std.specs.Io.KnownBytes.{Appends};
ghost use Rattle.line_engine.specs.Watched.{failed_of, inner_of};
ghost use Rattle.rbac_lines.specs.Output.{output};
ghost use Rattle.rbac_pages.specs.declared.explanation.Verdict.TheVariants.{Allowed};
ghost use Rattle.rbac_program.specs.Sample.{PlaysSample, sample_world};
ghost use Rattle.rbac_program.specs.Telling.{asks_verdict, status_of};

use crate::fault::Fault;
use crate::linting::lint;
use crate::member::be_member;
use crate::play::play;
use crate::serving::serve;
use crate::telling::{differ, draw, dump_to, tell, trace};
use crate::words::{Asked, read_words};
use clap::Error;
use rbac_lines::{RunFault, Watched, watch};
use rbac_pages::Verdict;
use std::alloc::AllocError;
use std::convert::AsStr;
use std::fmt::Display;
use std::io::{ErrorKind, Read, Write};
use std::rt::{Env, Files};
use std::sync::Wait;
use std::thread::Threads;
use std::time::Clock;
use std::{env, io};

/// The input was read to its end, or help was asked for and written.
const DONE: u8 = 0;

/// A fault of a file, of the founding, of the run or of the audit.
const FAULT: u8 = 1;

/// The command line is refused.
const REFUSED: u8 = 2;

/// The check that was asked about would be refused.
const CHECK_REFUSED: u8 = 3;

/// The command that was asked about would be denied.
const COMMAND_DENIED: u8 = 4;

/// Does what the words say, of which the first is the program's name, and answers the status: 0 where the input was read
/// to its end or help was asked for, 1 after a fault, 2 where the words are refused, and where they ask why or who, 3 and 4
/// where the verdict is a refusal and a denial: by nothing else, as `carry_out` says. Without other words the sample is
/// played, as `watched_command` says.
pub fn command<
    T: Files + AllocGlobal + Threads + Wait + Clock + Copy + Send + Sync,
    S: AsStr,
    R: Read + Drop,
    W: Write + Drop,
    E: Write,
>(rt: &T, words: &[S], reader: R, writer: W, errors: &mut E) -> u8
    ensures status { result ≤ 4 }
    ensures not_refused { length words.now ≤ 1 → result ≤ 1 }
{
    watched_command(rt, words, reader, &mut watch(writer), errors)
}

// Does what was asked for. Only a question, why or who, has a verdict.
fn carry_out<
    T: Files + AllocGlobal + Threads + Wait + Clock + Copy + Send + Sync,
    R: Read + Drop,
    W: Write,
    E: Write,
>(rt: &T, asked: Asked<'_>, reader: R, writer: &mut Watched<W>, errors: &mut E) -> u8
    requires { failed_of writer.old ≡ false }
    ensures status { result ≤ 4 }
    ensures no_verdict { asks_verdict asked.entry ≡ false → result ≤ 1 }
    ensures sample_played { PlaysSample asked.entry → result ≡ 0 →
        IfSome (R.remaining reader) (λ input. Appends (W.contents (inner_of writer.old)) (W.contents (inner_of writer.new)) (output input sample_world)) }
{
    match asked {
        Asked::Play(asked) => status_of(play(rt, asked, reader, writer), errors),
        Asked::Serve(founding) => {
            let served = serve(rt, founding, reader, writer, errors);
            status_of(served, errors)
        }
        Asked::Member(asked) => status_of(be_member(rt, asked, reader, writer), errors),
        Asked::Tell(lines, question) => {
            let told = tell(rt, lines, question, reader, writer, errors);
            status_of_told(told, errors)
        }
        Asked::DumpTo(lines, folder) => {
            let written = dump_to(rt, lines, folder, reader, errors);
            status_of(written, errors)
        }
        Asked::Trace(lines) => status_of(trace(rt, lines, reader, writer), errors),
        Asked::Diagram(lines) => status_of(draw(rt, lines, reader, writer), errors),
        Asked::Lint(asked) => status_of_lint(lint(rt, asked, reader, writer), errors),
        Asked::Differ(asked) => status_of(differ(rt, asked, writer, errors), errors),
    }
}

// The same of the words, over a writer under watch, which tells what was written.
fn watched_command<
    T: Files + AllocGlobal + Threads + Wait + Clock + Copy + Send + Sync,
    S: AsStr,
    R: Read + Drop,
    W: Write,
    E: Write,
>(rt: &T, words: &[S], reader: R, writer: &mut Watched<W>, errors: &mut E) -> u8
    requires { failed_of writer.old ≡ false }
    ensures status { result ≤ 4 }
    ensures not_refused { length words.now ≤ 1 → result ≤ 1 }
    ensures sample_played { length words.now ≤ 1 → result ≡ 0 →
        IfSome (R.remaining reader) (λ input. Appends (W.contents (inner_of writer.old)) (W.contents (inner_of writer.new)) (output input sample_world)) }
{
    match read_words(rt.alloc(), words) {
        Ok(asked) => carry_out(rt, asked, reader, writer, errors),
        Err(error) if error.kind() == clap::error::ErrorKind::OutOfMemory => {
            tell_fault(errors, Fault::from(AllocError))
        }
        Err(error) if error.use_stderr() => {
            put(errors, &error);
            REFUSED
        }
        Err(help) => show(writer, &help, errors),
    }
}

// The status of what was done. A fault of it is told.
fn status_of<E: Write>(done: Result<(), Fault<'_>>, errors: &mut E) -> u8
    ensures { result ≡ (if is_ok done.entry then 0 else 1) }
{
    match done {
        Ok(()) => DONE,
        Err(fault) => tell_fault(errors, fault),
    }
}

// The status of what was looked at: 0 only where nothing was found. A fault is told.
fn status_of_lint<E: Write>(found: Result<bool, Fault<'_>>, errors: &mut E) -> u8
    ensures found { IfOk found.entry (λ is_faulty. result ≡ (if is_faulty then 1 else 0)) }
    ensures bounded { result ≤ 1 }
{
    match found {
        Ok(false) => DONE,
        Ok(true) => FAULT,
        Err(fault) => tell_fault(errors, fault),
    }
}

// The status of what was told. A fault is told too.
fn status_of_told<E: Write>(told: Result<Verdict, Fault<'_>>, errors: &mut E) -> u8
    ensures fault { IsErr told.entry → result ≡ 1 }
    ensures told { IfOk told.entry (λ verdict. result ≡ status_of verdict) }
    ensures no_verdict { IfOk told.entry (λ verdict. verdict ≡ Allowed) → result ≤ 1 }
{
    match told {
        Ok(Verdict::Allowed) => DONE,
        Ok(Verdict::Refused) => CHECK_REFUSED,
        Ok(Verdict::Denied) => COMMAND_DENIED,
        Err(fault) => tell_fault(errors, fault),
    }
}

fn words_of<T: Env + AllocGlobal>(rt: &T) -> io::Result<Vec<String>> {
    let words = env::args(rt)?.collect(rt.alloc())?;
    Ok(words)
}

/// Does what the words of the process say, as `command` does. Words that are not text are refused.
pub fn program<
    T: Files + Env + AllocGlobal + Threads + Wait + Clock + Copy + Send + Sync,
    R: Read + Drop,
    W: Write + Drop,
    E: Write,
>(rt: &T, reader: R, writer: W, errors: &mut E) -> u8
    ensures { result ≤ 4 }
{
    match words_of(rt) {
        Ok(words) => command(rt, &words, reader, writer, errors),
        Err(error) => no_words(&error, errors),
    }
}

/// Tells why the words could not be taken: they are not text, or there is no memory.
pub(crate) fn no_words<E: Write>(error: &io::Error, errors: &mut E) -> u8
    ensures no_memory { error_kind error.now ≡ ErrorKind.OutOfMemory → result ≡ 1 }
    ensures not_text { error_kind error.now ≢ ErrorKind.OutOfMemory → result ≡ 2 }
{
    match error.kind() {
        ErrorKind::OutOfMemory => tell_fault(errors, Fault::from(AllocError)),
        _ => {
            put(errors, &"error: a word of the command line is not text\n");
            REFUSED
        }
    }
}

/// Writes what was asked for, and answers the status: a stream that takes no more is a fault.
fn show<W: Write, D: Display, E: Write>(stream: &mut W, text: &D, errors: &mut E) -> u8
    ensures { result ≤ 1 }
{
    if write!(stream, "{text}").is_err() || stream.flush().is_err() {
        return tell_fault(errors, Fault::Run(RunFault::Write));
    }
    DONE
}

/// Writes a text. Where it cannot be written the status tells what happened.
fn put<W: Write, D: Display>(stream: &mut W, text: &D) {
    let _ = write!(stream, "{text}");
}

/// Tells a fault, and answers its status.
fn tell_fault<E: Write>(errors: &mut E, fault: Fault<'_>) -> u8
    ensures { result ≡ 1 }
{
    let _ = writeln!(errors, "{fault}");
    FAULT
}
