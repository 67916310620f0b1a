//! What the words of the command line ask for.
ghost use Rattle.std.specs.Prelude.{◌≤◌, length, IsOkAnd};
ghost use Rattle.rbac_program.specs.Sample.{PlaysSample};

mod help;
mod line;

use clap::{ArgMatches, Error};
use line::command_line;
use std::alloc::Global;
use std::convert::AsStr;

/// A schedule that is played on a founding.
#[derive(Clone, Copy, Drop)]
pub(crate) struct Play<'w> {
    pub(crate) founding: &'w str,
    pub(crate) schedule: &'w str,
}

/// Where the lines come from, and what they are.
#[derive(Clone, Copy, Drop)]
pub(crate) struct Lines<'w> {
    pub(crate) founding: &'w str,
    pub(crate) path: &'w str,
    /// They are client lines, and no schedule.
    pub(crate) are_client_lines: bool,
    /// A line that is refused ends nothing.
    pub(crate) is_lenient: bool,
}

/// What is asked of the policy that lines leave.
#[derive(Clone, Copy, Drop)]
pub(crate) enum Question<'w> {
    /// The policy as client lines that make it again.
    Dump,
    /// The policy as a page.
    Page,
    /// Its roles as a graph.
    Graph,
    /// What a check would be answered, and why.
    WhyCheck {
        session: &'w str,
        operation: &'w str,
        object: &'w str,
    },
    /// What the command of this JSON object would be answered, and why.
    WhyCommand(&'w str),
    /// Who may perform an operation on an object.
    Who {
        operation: &'w str,
        object: &'w str,
    },
}

/// Two inputs of client lines on one founding: what leads from the policy of the first to that of the second is told, or what each has
/// that the other has not.
#[derive(Clone, Copy, Drop)]
pub(crate) struct Difference<'w> {
    pub(crate) founding: &'w str,
    pub(crate) from: &'w str,
    pub(crate) to: &'w str,
    pub(crate) is_lenient: bool,
    /// What each has that the other has not is told.
    pub(crate) are_lists: bool,
}

/// A founding file that is looked at, and lines.
#[derive(Clone, Copy, Drop)]
pub(crate) struct Lint<'w> {
    pub(crate) founding: &'w str,
    pub(crate) lines: Option<&'w str>,
    pub(crate) are_client_lines: bool,
}

/// One member of a founding.
#[derive(Clone, Copy, Drop)]
pub(crate) struct OneMember<'w> {
    pub(crate) founding: &'w str,
    pub(crate) number: &'w str,
}

/// What the words ask for.
#[derive(Clone, Copy, Drop)]
pub(crate) enum Asked<'w> {
    Play(Play<'w>),
    /// Callers are served by the members of this founding.
    Serve(&'w str),
    /// One member takes lines.
    Member(OneMember<'w>),
    /// Something is told of the policy that lines leave.
    Tell(Lines<'w>, Question<'w>),
    /// The policy is written into a new folder of this path, with its founding.
    DumpTo(Lines<'w>, &'w str),
    /// What each line of a schedule does to its member.
    Trace(Lines<'w>),
    /// The schedule as a space-time diagram.
    Diagram(Lines<'w>),
    Differ(Difference<'w>),
    Lint(Lint<'w>),
}

/// The sample founding, and standard input.
const SAMPLE_AND_INPUT: Play<'static> = Play {
    founding: "-",
    schedule: "-",
};

// The value of an argument that is required, or has `-` as its default.
fn word_of<'w>(matches: &ArgMatches<'w>, id: &str) -> &'w str {
    matches.get_str(id).unwrap_or("-")
}

fn lines_of<'w>(matches: &ArgMatches<'w>) -> Lines<'w> {
    Lines {
        founding: word_of(matches, "FOUNDING"),
        path: word_of(matches, "LINES"),
        are_client_lines: matches.get_flag("serve"),
        is_lenient: matches.get_flag("lenient"),
    }
}

// A session, an operation and an object are a check; a word alone is a command.
fn question_of<'w>(matches: &ArgMatches<'w>) -> Question<'w> {
    match (matches.get_str("OPERATION"), matches.get_str("OBJECT")) {
        (Some(operation), Some(object)) => Question::WhyCheck {
            session: word_of(matches, "QUESTION"),
            operation,
            object,
        },
        _ => Question::WhyCommand(word_of(matches, "QUESTION")),
    }
}

fn shown_of<'w>(matches: &ArgMatches<'w>) -> Question<'w> {
    if matches.get_flag("dot") {
        Question::Graph
    } else {
        Question::Page
    }
}

fn dump_of<'w>(matches: &ArgMatches<'w>) -> Asked<'w> {
    match matches.get_str("to") {
        Some(folder) => Asked::DumpTo(lines_of(matches), folder),
        None => Asked::Tell(lines_of(matches), Question::Dump),
    }
}

fn trace_of<'w>(matches: &ArgMatches<'w>) -> Asked<'w> {
    if matches.get_flag("svg") {
        Asked::Diagram(lines_of(matches))
    } else {
        Asked::Trace(lines_of(matches))
    }
}

fn who_of<'w>(matches: &ArgMatches<'w>) -> Asked<'w> {
    let question = Question::Who {
        operation: word_of(matches, "OPERATION"),
        object: word_of(matches, "OBJECT"),
    };
    Asked::Tell(lines_of(matches), question)
}

fn difference_of<'w>(matches: &ArgMatches<'w>) -> Asked<'w> {
    Asked::Differ(Difference {
        founding: word_of(matches, "FOUNDING"),
        from: word_of(matches, "FROM"),
        to: word_of(matches, "TO"),
        is_lenient: matches.get_flag("lenient"),
        are_lists: matches.get_flag("lists"),
    })
}

fn lint_of<'w>(matches: &ArgMatches<'w>) -> Asked<'w> {
    Asked::Lint(Lint {
        founding: word_of(matches, "FOUNDING"),
        lines: matches.get_str("LINES"),
        are_client_lines: matches.get_flag("serve"),
    })
}

fn asked_of<'w>(matches: &ArgMatches<'w>) -> Asked<'w> {
    match matches.subcommand() {
        Some(("serve", words)) => Asked::Serve(word_of(words, "FOUNDING")),
        Some(("member", words)) => Asked::Member(OneMember {
            founding: word_of(words, "FOUNDING"),
            number: word_of(words, "NUMBER"),
        }),
        Some(("dump", words)) => dump_of(words),
        Some(("show", words)) => Asked::Tell(lines_of(words), shown_of(words)),
        Some(("why", words)) => Asked::Tell(lines_of(words), question_of(words)),
        Some(("who", words)) => who_of(words),
        Some(("trace", words)) => trace_of(words),
        Some(("diff", words)) => difference_of(words),
        Some(("lint", words)) => lint_of(words),
        Some((_, words)) => Asked::Play(Play {
            founding: word_of(words, "FOUNDING"),
            schedule: word_of(words, "SCHEDULE"),
        }),
        None => Asked::Play(SAMPLE_AND_INPUT),
    }
}

/// Reads the words, of which the first is the program's name. Without others standard input is played on the sample.
pub(crate) fn read_words<'w, S: AsStr>(alloc: Global, words: &'w [S]) -> Result<Asked<'w>, Error>
    ensures no_words { length words.now ≤ 1 → IsOkAnd result PlaysSample }
{
    if words.len() <= 1 {
        return Ok(Asked::Play(SAMPLE_AND_INPUT));
    }
    let matches = command_line(alloc)?.try_get_matches_from(words)?;
    Ok(asked_of(&matches))
}
