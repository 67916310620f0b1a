//! The command line as clap reads it.

use crate::words::help;
use clap::{Arg, ArgAction, Command};
use std::alloc::{AllocError, Global};

// A word that has to be given.
fn word<'w>(alloc: Global, id: &'w str, about: &'w str) -> Arg<'w> {
    Arg::new(alloc, id)
        .required(true)
        .action(ArgAction::Set)
        .help(about)
}

fn flag<'w>(alloc: Global, id: &'w str, about: &'w str) -> Arg<'w> {
    Arg::new(alloc, id)
        .long(id)
        .action(ArgAction::SetTrue)
        .help(about)
}

// A verb with its sentence and an example.
fn verb<'w>(
    alloc: Global,
    name: &'w str,
    about: &'w str,
    example: &'w str,
) -> Result<Command<'w>, AllocError> {
    let verb = Command::new(alloc, name).about(about).after_help(example);
    verb.arg(word(alloc, "FOUNDING", help::FOUNDING))
}

// A verb that reads lines to know what they leave.
fn reading<'w>(
    alloc: Global,
    name: &'w str,
    about: &'w str,
    example: &'w str,
) -> Result<Command<'w>, AllocError> {
    verb(alloc, name, about, example)?
        .arg(word(alloc, "LINES", help::LINES))?
        .arg(flag(alloc, "lenient", help::LENIENT))
}

// The same of a policy.
fn asking<'w>(
    alloc: Global,
    name: &'w str,
    about: &'w str,
    example: &'w str,
) -> Result<Command<'w>, AllocError> {
    reading(alloc, name, about, example)?.arg(flag(alloc, "serve", help::SERVE_LINES))
}

fn playing<'w>(alloc: Global) -> Result<Command<'w>, AllocError> {
    verb(alloc, "play", help::PLAY, help::PLAY_EXAMPLE)?.arg(word(alloc, "SCHEDULE", help::LINES))
}

fn serving<'w>(alloc: Global) -> Result<Command<'w>, AllocError> {
    verb(alloc, "serve", help::SERVE, help::SERVE_EXAMPLE)
}

fn being<'w>(alloc: Global) -> Result<Command<'w>, AllocError> {
    verb(alloc, "member", help::MEMBER, help::MEMBER_EXAMPLE)?.arg(word(
        alloc,
        "NUMBER",
        help::NUMBER,
    ))
}

fn dumping<'w>(alloc: Global) -> Result<Command<'w>, AllocError> {
    let to = Arg::new(alloc, "to")
        .long("to")
        .value_name("FOLDER")
        .action(ArgAction::Set)
        .help(help::TO);
    asking(alloc, "dump", help::DUMP, help::DUMP_EXAMPLE)?.arg(to)
}

fn showing<'w>(alloc: Global) -> Result<Command<'w>, AllocError> {
    asking(alloc, "show", help::SHOW, help::SHOW_EXAMPLE)?.arg(flag(alloc, "dot", help::DOT))
}

fn explaining<'w>(alloc: Global) -> Result<Command<'w>, AllocError> {
    let operation = Arg::new(alloc, "OPERATION")
        .action(ArgAction::Set)
        .help(help::OPERATION)
        .requires_arg("OBJECT")?;
    let object = Arg::new(alloc, "OBJECT")
        .action(ArgAction::Set)
        .help(help::OBJECT);
    asking(alloc, "why", help::WHY, help::WHY_EXAMPLE)?
        .arg(word(alloc, "QUESTION", help::QUESTION))?
        .arg(operation)?
        .arg(object)
}

fn finding<'w>(alloc: Global) -> Result<Command<'w>, AllocError> {
    asking(alloc, "who", help::WHO, help::WHO_EXAMPLE)?
        .arg(word(alloc, "OPERATION", help::OPERATION))?
        .arg(word(alloc, "OBJECT", help::OBJECT))
}

fn tracing<'w>(alloc: Global) -> Result<Command<'w>, AllocError> {
    reading(alloc, "trace", help::TRACE, help::TRACE_EXAMPLE)?.arg(flag(alloc, "svg", help::SVG))
}

fn comparing<'w>(alloc: Global) -> Result<Command<'w>, AllocError> {
    verb(alloc, "diff", help::DIFF, help::DIFF_EXAMPLE)?
        .arg(word(alloc, "FROM", help::FROM))?
        .arg(word(alloc, "TO", help::TO_LINES))?
        .arg(flag(alloc, "lenient", help::LENIENT))?
        .arg(flag(alloc, "lists", help::LISTS))
}

fn looking<'w>(alloc: Global) -> Result<Command<'w>, AllocError> {
    let lines = Arg::new(alloc, "LINES")
        .action(ArgAction::Set)
        .help(help::LINES);
    verb(alloc, "lint", help::LINT, help::LINT_EXAMPLE)?
        .arg(lines)?
        .arg(flag(alloc, "serve", help::SERVE_LINES))
}

// One verb more.
fn add<'w>(
    line: Command<'w>,
    next: Result<Command<'w>, AllocError>,
) -> Result<Command<'w>, AllocError> {
    line.subcommand(next?)
}

/// All words that the program knows.
pub(crate) fn command_line<'w>(alloc: Global) -> Result<Command<'w>, AllocError> {
    let line = Command::new(alloc, "rbac_monitor")
        .bin_name("rbac_monitor")?
        .version(help::VERSION)
        .about(help::ABOUT)
        .after_help(help::AFTER_HELP);
    let line = add(line, playing(alloc))?;
    let line = add(line, serving(alloc))?;
    let line = add(line, being(alloc))?;
    let line = add(line, dumping(alloc))?;
    let line = add(line, showing(alloc))?;
    let line = add(line, explaining(alloc))?;
    let line = add(line, finding(alloc))?;
    let line = add(line, tracing(alloc))?;
    let line = add(line, comparing(alloc))?;
    add(line, looking(alloc))
}
