//! What words, files and streams get: status, output and errors.

mod holders;
mod member_lines;

use rbac_program::command::command;
use std::io::{Error, ErrorKind, Read, Write};
use std::process::Abort;
use std::rt::Files;
use std::sync::Wait;
use std::test::Fail;
use std::thread::Threads;
use std::time::Clock;
use std::{fs, io};

const SCHEDULE: &[u8] =
    br#"{"do":"submit","at":1,"caller":0,"serial":0,"command":{"name":"AddUser","user":"ann"}}
{"do":"deliver","at":1}
"#;

const ANSWERS: &[u8] = br#"{"line":1,"stamp":[1,1]}
{"answer":"Done","caller":0,"line":2,"serial":0,"stamp":[1,1]}
"#;

/// A call with these words after the program's name, and with this input, ends with this status and this output, and writes no error.
fn expect_told<T: Files + AllocGlobal + Threads + Wait + Clock + Abort + Copy + Send + Sync>(
    rt: &T,
    words: &[&str],
    input: &[u8],
    status: u8,
    told: &[u8],
) {
    let mut output = Vec::new(rt.alloc());
    let mut errors = Vec::new(rt.alloc());
    let answered = command(rt, words, input, &mut output, &mut errors);
    assert_eq!(rt; answered, status);
    assert!(rt; output.as_slice() == told);
    assert!(rt; errors.is_empty());
}

/// The same with status 0.
fn expect_answers<T: Files + AllocGlobal + Threads + Wait + Clock + Abort + Copy + Send + Sync>(
    rt: &T,
    words: &[&str],
    input: &[u8],
    answers: &[u8],
) {
    expect_told(rt, words, input, 0, answers);
}

/// The same where the input is the schedule.
fn expect<T: Files + AllocGlobal + Threads + Wait + Clock + Abort + Copy + Send + Sync>(
    rt: &T,
    words: &[&str],
    answers: &[u8],
) {
    expect_answers(rt, words, SCHEDULE, answers);
}

#[test]
fn plays_standard_input(rt: HostRuntime) {
    expect(&rt, &["rbac_monitor"], ANSWERS);
    expect(&rt, &["rbac_monitor", "play", "-", "-"], ANSWERS);
}

#[test]
fn plays_an_empty_schedule_with_no_answer(rt: HostRuntime) -> Result<(), Fail> {
    expect_answers(&rt, &["rbac_monitor"], b"", b"");
    expect_answers(&rt, &["rbac_monitor", "play", "-", "-"], b"", b"");
    fs::write(&rt, "empty.jsonl", b"")?;
    expect(&rt, &["rbac_monitor", "play", "-", "empty.jsonl"], b"");
    fs::remove_file(&rt, "empty.jsonl")?;
    Ok(())
}

#[test]
fn plays_on_a_founding_file(rt: HostRuntime) -> Result<(), Fail> {
    let founding =
        b"version = 1\nmembers = 1\nclock = 7\noperations = []\nobjects = []\npermissions = []\n";
    fs::write(&rt, "clock_7.toml", founding)?;
    let answers = br#"{"line":1,"stamp":[8,1]}
{"answer":"Done","caller":0,"line":2,"serial":0,"stamp":[8,1]}
"#;
    expect(
        &rt,
        &["rbac_monitor", "play", "clock_7.toml", "-"],
        answers.as_slice(),
    );
    fs::remove_file(&rt, "clock_7.toml")?;
    Ok(())
}

#[test]
fn plays_a_long_schedule_file(rt: HostRuntime) -> Result<(), Fail> {
    let mut schedule = Vec::new(rt.alloc());
    let mut answers = Vec::new(rt.alloc());
    for line in 1..=50_000 {
        schedule.extend_from_slice(b"{\"do\":\"deliver\",\"at\":1}\n")?;
        write!(answers, "{{\"answer\":null,\"line\":{line}}}\n")?;
    }
    assert!(rt; schedule.len() > 1_048_576);
    fs::write(&rt, "long.jsonl", &schedule)?;
    expect(&rt, &["rbac_monitor", "play", "-", "long.jsonl"], &answers);
    fs::remove_file(&rt, "long.jsonl")?;
    Ok(())
}

const SERVED: &[u8] = br#"{"at":1,"command":{"name":"AddUser","user":"ann"}}
{"at":1,"command":{"name":"AddRole","role":"clerk"}}
{"at":1,"command":{"name":"AssignUser","user":"ann","role":"clerk"}}
{"at":1,"command":{"name":"GrantPermission","operation":"read","object":"ledger","role":"clerk"}}
{"at":1,"command":{"name":"CreateSession","user":"ann","session":"s1","roles":["clerk"]}}
{"at":1,"command":{"name":"CheckAccess","session":"s1","operation":"read","object":"ledger"}}
{"at":2,"command":{"name":"CheckAccess","session":"s1","operation":"read","object":"ledger"}}
{"at":3,"command":{"name":"AddUser","user":"bob"}}
{"at":0,"command":{"name":"AddUser","user":"bob"}}
"#;

const SERVED_ANSWERS: &[u8] = br#"{"answer":"Done","line":1}
{"answer":"Done","line":2}
{"answer":"Done","line":3}
{"answer":"Done","line":4}
{"answer":"Done","line":5}
{"answer":"Granted","line":6}
{"answer":"Granted","line":7}
{"line":8,"refused":"UnknownMember"}
{"line":9,"refused":"UnknownMember"}
"#;

const TWO_MEMBERS: &[u8] = br#"
version = 1
members = 2
operations = ["read"]
objects = ["ledger"]
permissions = [["read", "ledger"]]
"#;

/// Serving callers by the members of this founding, which is written to a file of this name, gives these answers to these lines.
fn expect_served<T: Files + AllocGlobal + Threads + Wait + Clock + Abort + Copy + Send + Sync>(
    rt: &T,
    (path, founding): (&str, &[u8]),
    lines: &[u8],
    answers: &[u8],
) -> Result<(), Fail> {
    fs::write(rt, path, founding)?;
    expect_answers(rt, &["rbac_monitor", "serve", path], lines, answers);
    fs::remove_file(rt, path)?;
    Ok(())
}

#[test]
fn serves_callers_of_two_members(rt: HostRuntime) -> Result<(), Fail> {
    expect_served(
        &rt,
        ("two_members.toml", TWO_MEMBERS),
        SERVED,
        SERVED_ANSWERS,
    )?;
    expect_answers(&rt, &["rbac_monitor", "serve", "-"], b"", b"");
    Ok(())
}

// The sample, with two members.
const SAMPLE_OF_TWO: &[u8] = br#"
version = 1
members = 2
operations = ["approve", "pay", "read"]
objects = ["invoice", "ledger"]
permissions = [["approve", "invoice"], ["pay", "invoice"], ["read", "ledger"]]
"#;

const SEVEN_LINES: &[u8] = br#"{"at":1,"command":{"name":"AddUser","user":"ann"}}
{"at":1,"command":{"name":"AddRole","role":"clerk"}}
{"at":1,"command":{"name":"AssignUser","user":"ann","role":"clerk"}}
{"at":1,"command":{"name":"GrantPermission","operation":"read","object":"ledger","role":"clerk"}}
{"at":1,"command":{"name":"CreateSession","user":"ann","session":"s1","roles":["clerk"]}}
{"at":1,"command":{"name":"CheckAccess","session":"s1","operation":"read","object":"ledger"}}
{"at":3,"command":{"name":"AddUser","user":"bob"}}
"#;

const SEVEN_ANSWERS: &[u8] = br#"{"answer":"Done","line":1}
{"answer":"Done","line":2}
{"answer":"Done","line":3}
{"answer":"Done","line":4}
{"answer":"Done","line":5}
{"answer":"Granted","line":6}
{"line":7,"refused":"UnknownMember"}
"#;

const MADE: &[u8] = br#"{"at":1,"command":{"name":"AddUser","user":"ann"}}
{"at":1,"command":{"name":"AddRole","role":"clerk"}}
{"at":1,"command":{"name":"AssignUser","user":"ann","role":"clerk"}}
{"at":1,"command":{"name":"GrantPermission","operation":"read","object":"ledger","role":"clerk"}}
{"at":1,"command":{"name":"CreateSession","user":"ann","session":"s1","roles":["clerk"]}}
"#;

#[test]
fn tells_the_policy_that_lines_leave(rt: HostRuntime) {
    let dump = ["rbac_monitor", "dump", "--serve", "-", "-"];
    expect_told(&rt, &dump, MADE, 0, MADE);
    let who = ["rbac_monitor", "who", "--serve", "-", "-", "read", "ledger"];
    let may =
        b"users that are authorized for a role with the permission\n  ann by role clerk\nsessions in which such a role is active\n  s1 of ann by role clerk\n";
    expect_told(&rt, &who, MADE, 0, may);
    let graph = ["rbac_monitor", "show", "--dot", "--serve", "-", "-"];
    let roles = b"digraph roles {\n  node [shape=box];\n  \"clerk\";\n}\n";
    expect_told(&rt, &graph, MADE, 0, roles);
}

#[test]
fn the_status_is_the_verdict(rt: HostRuntime) {
    let granted = [
        "rbac_monitor",
        "why",
        "--serve",
        "-",
        "-",
        "s1",
        "read",
        "ledger",
    ];
    let reason = b"Granted: session s1 has the active role clerk\n  which is granted read ledger\n";
    expect_told(&rt, &granted, MADE, 0, reason);
    let refused = [
        "rbac_monitor",
        "why",
        "--serve",
        "-",
        "-",
        "s1",
        "pay",
        "invoice",
    ];
    let none =
        b"Refused: no active role has the permission, itself or by a role that it inherits\n";
    expect_told(&rt, &refused, MADE, 3, none);
    let denied = [
        "rbac_monitor",
        "why",
        "--serve",
        "-",
        "-",
        "s2",
        "read",
        "ledger",
    ];
    let missing = b"Denied: NoSession: there is no session s2\n";
    expect_told(&rt, &denied, MADE, 4, missing);
    let add = r#"{"name":"AddRole","role":"clerk"}"#;
    let command = ["rbac_monitor", "why", "--serve", "-", "-", add];
    let exists = b"Denied: RoleExists: there is already a role clerk\n";
    expect_told(&rt, &command, MADE, 4, exists);
}

#[test]
fn a_refused_line_ends_what_is_told(rt: HostRuntime) {
    let words = ["rbac_monitor", "dump", "-", "-"];
    let errors = b"rbac_monitor: lines: 5 of 5 were refused\n";
    let mut output = Vec::new(rt.alloc());
    let mut told = Vec::new(rt.alloc());
    let answered = command(&rt, &words, MADE, &mut output, &mut told);
    assert_eq!(rt; answered, 1);
    assert!(rt; output.is_empty());
    assert!(rt; told.as_slice() == errors.as_slice());
    let lenient = ["rbac_monitor", "dump", "--lenient", "-", "-"];
    expect_told(&rt, &lenient, MADE, 0, b"");
}

// Ann and bob, of whom bob is the clerk.
const BOB_IS_CLERK: &[u8] = br#"{"at":1,"command":{"name":"AddUser","user":"ann"}}
{"at":1,"command":{"name":"AddUser","user":"bob"}}
{"at":1,"command":{"name":"AddRole","role":"clerk"}}
{"at":1,"command":{"name":"AssignUser","user":"bob","role":"clerk"}}
"#;

#[test]
fn diff_tells_what_leads_from_one_policy_to_the_other_and_what_each_has_alone(
    rt: HostRuntime,
) -> Result<(), Fail> {
    let between = br#"{"at":1,"command":{"name":"DeleteSession","user":"ann","session":"s1"}}
{"at":1,"command":{"name":"RevokePermission","operation":"read","object":"ledger","role":"clerk"}}
{"at":1,"command":{"name":"DeassignUser","user":"ann","role":"clerk"}}
{"at":1,"command":{"name":"AddUser","user":"bob"}}
{"at":1,"command":{"name":"AssignUser","user":"bob","role":"clerk"}}
"#;
    fs::write(&rt, "ann_is_clerk.jsonl", MADE)?;
    fs::write(&rt, "bob_is_clerk.jsonl", BOB_IS_CLERK)?;
    let words = [
        "rbac_monitor",
        "diff",
        "-",
        "ann_is_clerk.jsonl",
        "bob_is_clerk.jsonl",
    ];
    expect_answers(&rt, &words, b"", between);
    let lists = br#"- {"at":1,"command":{"name":"AssignUser","user":"ann","role":"clerk"}}
- {"at":1,"command":{"name":"GrantPermission","operation":"read","object":"ledger","role":"clerk"}}
- {"at":1,"command":{"name":"CreateSession","user":"ann","session":"s1","roles":["clerk"]}}
+ {"at":1,"command":{"name":"AddUser","user":"bob"}}
+ {"at":1,"command":{"name":"AssignUser","user":"bob","role":"clerk"}}
"#;
    let words = [
        "rbac_monitor",
        "diff",
        "--lists",
        "-",
        "ann_is_clerk.jsonl",
        "bob_is_clerk.jsonl",
    ];
    expect_answers(&rt, &words, b"", lists);
    fs::remove_file(&rt, "ann_is_clerk.jsonl")?;
    fs::remove_file(&rt, "bob_is_clerk.jsonl")?;
    Ok(())
}

#[test]
fn trace_tells_what_each_line_does(rt: HostRuntime) {
    let traced = br#"line 1: member 1 sends message 1 at [1,1] {"name":"AddUser","user":"ann"}
  member 1 holds [1,1]; [1,1] may be delivered
line 2: member 1 delivers [1,1]: "Done"
  member 1 holds nothing
at the end:
  member 1: clock 1, messages sent 1, commands delivered 1
  member 1 holds nothing
"#;
    expect(&rt, &["rbac_monitor", "trace", "-", "-"], traced);
}

#[test]
fn finds_what_is_wrong_with_a_line(rt: HostRuntime) {
    let words = ["rbac_monitor", "lint", "--serve", "-", "-"];
    expect_told(&rt, &words, MADE, 0, b"");
    let line = br#"{"at":1,"command":{"name":"AdUser","user":"ann"}}"#;
    let fault = b"-:1:27: fault: UnknownWord: \"AdUser\" is no command; did you mean AddUser?\n";
    expect_told(&rt, &words, line, 1, fault);
}

#[test]
fn a_line_for_a_third_member_of_two_is_refused(rt: HostRuntime) -> Result<(), Fail> {
    let founding = ("sample_of_two.toml", SAMPLE_OF_TWO);
    expect_served(&rt, founding, SEVEN_LINES, SEVEN_ANSWERS)
}

// Each of two members may send one message.
const ONE_MESSAGE_EACH: &[u8] = br#"
version = 1
members = 2
sent_limit = 1
operations = []
objects = []
permissions = []
"#;

// The one message of member 2 is its acknowledgement of the first command.
#[test]
fn members_that_have_sent_all_refuse_commands(rt: HostRuntime) -> Result<(), Fail> {
    let lines = br#"{"at":1,"command":{"name":"AddUser","user":"ann"}}
{"at":1,"command":{"name":"AddRole","role":"r"}}
{"at":2,"command":{"name":"AddRole","role":"r"}}
"#;
    let answers = br#"{"answer":"Done","line":1}
{"line":2,"refused":"SentFull"}
{"line":3,"refused":"SentFull"}
"#;
    expect_served(
        &rt,
        ("one_message_each.toml", ONE_MESSAGE_EACH),
        lines,
        answers,
    )
}

const CLOCK_BEFORE_ITS_END: &[u8] = br#"
version = 1
members = 1
clock = 9007199254740990
operations = []
objects = []
permissions = []
"#;

#[test]
fn a_member_at_the_end_of_its_clock_refuses_commands(rt: HostRuntime) -> Result<(), Fail> {
    let lines = br#"{"at":1,"command":{"name":"AddUser","user":"ann"}}
{"at":1,"command":{"name":"AddUser","user":"bob"}}
"#;
    let answers = br#"{"answer":"Done","line":1}
{"line":2,"refused":"ClockFull"}
"#;
    expect_served(
        &rt,
        ("clock_before_its_end.toml", CLOCK_BEFORE_ITS_END),
        lines,
        answers,
    )
}

/// Gives so many blanks, and fails after them.
#[derive(Drop)]
struct Blanks {
    left: usize,
}

impl Read for Blanks {
    fn read(&mut self, buf: &mut [u8]) -> io::Result<usize> {
        let count = self.left.min(buf.len());
        if count == 0 {
            return Err(Error::from(ErrorKind::ConnectionReset));
        }
        buf[..count].fill(b' ');
        self.left -= count;
        Ok(count)
    }
}

/// Playing this founding and this schedule ends with status 1, no output and this line.
fn expect_fault<T: Files + AllocGlobal + Threads + Wait + Clock + Abort + Copy + Send + Sync>(
    rt: &T,
    founding: &str,
    schedule: &str,
    line: &str,
) {
    let mut output = Vec::new(rt.alloc());
    let mut errors = Vec::new(rt.alloc());
    let words = ["rbac_monitor", "play", founding, schedule];
    let status = command(rt, &words, SCHEDULE, &mut output, &mut errors);
    assert_eq!(rt; status, 1);
    assert!(rt; output.is_empty());
    assert!(rt; errors.as_slice() == line.as_bytes());
}

#[test]
fn tells_a_fault_in_one_line(rt: HostRuntime) {
    let no_schedule = "no/schedule.jsonl";
    let no_founding = "no/founding.toml";
    expect_fault(
        &rt,
        no_founding,
        no_schedule,
        "rbac_monitor: file: no/founding.toml\n",
    );
    expect_fault(&rt, "/", "-", "rbac_monitor: file: /\n");
    expect_fault(
        &rt,
        "-",
        no_schedule,
        "rbac_monitor: file: no/schedule.jsonl\n",
    );
    expect_fault(&rt, "-", "/", "rbac_monitor: run: Read\n");
}

// A file without an end is too long, and is not read for ever.
#[test]
fn a_founding_file_without_an_end_is_too_long(rt: HostRuntime) {
    let too_long = "rbac_monitor: founding: TooLong\n";
    expect_fault(&rt, "/dev/zero", "no/schedule.jsonl", too_long);
}

/// A file of these bytes is no founding, which this line tells before the schedule is looked for.
fn expect_refused_founding<
    T: Files + AllocGlobal + Threads + Wait + Clock + Abort + Copy + Send + Sync,
>(rt: &T, file: &[u8], line: &str) -> Result<(), Fail> {
    fs::write(rt, "refused.toml", file)?;
    expect_fault(rt, "refused.toml", "no/schedule.jsonl", line);
    fs::remove_file(rt, "refused.toml")?;
    Ok(())
}

#[test]
fn tells_each_refusal_of_a_founding(rt: HostRuntime) -> Result<(), Fail> {
    for (file, line) in [
        ("version", "rbac_monitor: founding: NotToml\n"),
        ("version = 3", "rbac_monitor: founding: BadVersion\n"),
        (
            "version = 1\nother = 1",
            "rbac_monitor: founding: UnknownKey\n",
        ),
        ("version = 1", "rbac_monitor: founding: MissingKey\n"),
        (
            "version = 1\nmembers = '1'\noperations = []\nobjects = []\npermissions = []",
            "rbac_monitor: founding: WrongKind\n",
        ),
        (
            "version = 1\nmembers = 9\noperations = []\nobjects = []\npermissions = []",
            "rbac_monitor: founding: OutOfRange\n",
        ),
        (
            "version = 1\nmembers = 1\noperations = ['']\nobjects = []\npermissions = []",
            "rbac_monitor: founding: BadName\n",
        ),
        (
            "version = 1\nmembers = 1\noperations = ['a', 'a']\nobjects = []\npermissions = []",
            "rbac_monitor: founding: Repeated\n",
        ),
        (
            "version = 1\nmembers = 1\noperations = ['a']\nobjects = []\npermissions = [['a', 'b']]",
            "rbac_monitor: founding: UnknownName\n",
        ),
    ] {
        expect_refused_founding(&rt, file.as_bytes(), line)?;
    }
    let mut long = Vec::new(rt.alloc());
    long.resize(1_048_576, b' ')?;
    expect_refused_founding(&rt, &long, "rbac_monitor: founding: BadVersion\n")?;
    long.push(b' ')?;
    expect_refused_founding(&rt, &long, "rbac_monitor: founding: TooLong\n")
}

/// Fails at each call.
#[derive(Drop)]
struct Broken;

impl Write for Broken {
    fn write(&mut self, _buf: &[u8]) -> io::Result<usize> {
        Err(Error::from(ErrorKind::BrokenPipe))
    }

    fn flush(&mut self) -> io::Result<()> {
        Ok(())
    }
}

/// A call with these words after the program's name ends with status 1 and this line.
fn expect_run_fault<
    T: Files + AllocGlobal + Threads + Wait + Clock + Abort + Copy + Send + Sync,
    R: Read + Drop,
    W: Write + Drop,
>(rt: &T, words: &[&str], reader: R, writer: W, line: &str) {
    let mut errors = Vec::new(rt.alloc());
    let status = command(rt, words, reader, writer, &mut errors);
    assert_eq!(rt; status, 1);
    assert!(rt; errors.as_slice() == line.as_bytes());
}

#[test]
fn tells_a_fault_of_a_stream_in_one_line(rt: HostRuntime) {
    let mut output = Vec::new(rt.alloc());
    let serve = ["rbac_monitor", "serve", "-"];
    let read = "rbac_monitor: run: Read\n";
    let fails = Blanks { left: 10 };
    expect_run_fault(&rt, &serve, fails, &mut output, read);
    let fails = Blanks { left: 10 };
    expect_run_fault(&rt, &["rbac_monitor"], fails, &mut output, read);
    let unread = ["rbac_monitor", "serve", "no/founding.toml"];
    let file = "rbac_monitor: file: no/founding.toml\n";
    expect_run_fault(&rt, &unread, SERVED, &mut output, file);
    assert!(rt; output.is_empty());
    let write = "rbac_monitor: run: Write\n";
    expect_run_fault(&rt, &serve, SERVED, Broken, write);
}

#[test]
fn keeps_the_status_where_nothing_can_be_written(rt: HostRuntime) {
    let mut errors = Vec::new(rt.alloc());
    let status = command(&rt, &["rbac_monitor"], SCHEDULE, Broken, &mut errors);
    assert_eq!(rt; status, 1);
    assert!(rt; errors.as_slice() == b"rbac_monitor: run: Write\n".as_slice());
    for (words, status) in [
        (["rbac_monitor"].as_slice(), 1),
        (&["rbac_monitor", "fly"], 2),
        (&["rbac_monitor", "--help"], 1),
    ] {
        let answered = command(&rt, words, SCHEDULE, Broken, &mut Broken);
        assert_eq!(rt; answered, status);
    }
}

#[test]
fn refuses_words_that_it_does_not_know(rt: HostRuntime) {
    for words in [
        ["rbac_monitor", "fly"].as_slice(),
        &["rbac_monitor", "play", "-"],
    ] {
        let mut output = Vec::new(rt.alloc());
        let mut errors = Vec::new(rt.alloc());
        let status = command(&rt, words, SCHEDULE, &mut output, &mut errors);
        assert_eq!(rt; status, 2);
        assert!(rt; output.is_empty());
        assert!(rt; !errors.is_empty());
    }
}

#[test]
fn shows_help_and_version(rt: HostRuntime) {
    for word in ["--help", "--version"] {
        let mut output = Vec::new(rt.alloc());
        let mut errors = Vec::new(rt.alloc());
        let status = command(
            &rt,
            &["rbac_monitor", word],
            SCHEDULE,
            &mut output,
            &mut errors,
        );
        assert_eq!(rt; status, 0);
        assert!(rt; !output.is_empty());
        assert!(rt; errors.is_empty());
    }
}
