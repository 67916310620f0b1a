//! Conversations of `rbac_lines` with a desk in memory, which lists whom it was asked for.
ghost use Rattle.std.specs.Prelude.{◌≡◌, ◌++◌, ◌∷◌, []};

use crate::tests::failing::{
    FailingReader, FailingWriter, FullWriter, STEP, expect_whole_texts, read_before,
};
use rbac_lines::{Desk, DeskRefusal, RunFault, Summary, converse, watch};
use rbac_words::{Answer, Command, Denial};
use std::alloc::{AllocError, Global};
use std::io;
use std::io::{Error, ErrorKind, Read, Write};
use std::process::Abort;

/// Lists the members that it was asked for, as long as it has room. What it replies is each member's own.
#[derive(Drop)]
struct Listing {
    asked: Vec<u32>,
}

impl Listing {
    fn with_room(rt: &impl Abort, alloc: Global, room: usize) -> Listing {
        Listing {
            asked: Vec::with_capacity(alloc, room).expect(rt, "memory"),
        }
    }
}

impl Desk for Listing {
    ghost asks = { λ old at _ _ new. new.asked.items ≡ old.asked.items ++ at ∷ [] };

    fn call(&mut self, _alloc: Global, at: u32, command: Command) -> Result<Answer, DeskRefusal> {
        drop(command);
        if self.asked.len() >= self.asked.capacity() {
            return Err(DeskRefusal::NoMemory);
        }
        let Ok(()) = self.asked.push(at) else {
            unreachable!()
        };
        match at {
            1 => Ok(Answer::Done),
            2 => Ok(Answer::Denied(Denial::NoSession)),
            3 => Err(DeskRefusal::Stopped),
            4 => Err(DeskRefusal::Busy),
            5 => Err(DeskRefusal::ClockFull),
            6 => Err(DeskRefusal::SentFull),
            7 => Err(DeskRefusal::NoMemory),
            _ => Err(DeskRefusal::UnknownMember),
        }
    }
}

/// How a conversation with room for so many questions ends, whom it asks for, and what it writes.
fn expect_conversation<R: Read + Drop, W: Write>(
    rt: &impl Abort,
    alloc: Global,
    reader: R,
    writer: &mut W,
    room: usize,
    ended: Result<Summary, RunFault>,
    asked: &[u32],
) {
    let mut desk = Listing::with_room(rt, alloc, room);
    let answered = converse(alloc, &mut watch(reader), &mut watch(writer), &mut desk);
    assert_eq!(rt; answered, ended);
    assert_eq!(rt; desk.asked.as_slice(), asked);
    drop(desk);
}

const INPUT: &[u8] = br#"{"at":2,"command":{"name":"DeleteSession","user":"ann","session":"s1"}}
nothing
{"at":1,"command":{"name":"AddUser","user":"ann"}}
{"at":1,"command":{"name":"AddUser"}}
{"at":3,"command":{"name":"AddUser","user":"ann"}}
{"at":4,"command":{"name":"AddUser","user":"ann"}}
{"at":5,"command":{"name":"AddUser","user":"ann"}}
{"at":6,"command":{"name":"AddUser","user":"ann"}}
{"at":9,"command":{"name":"AddUser","user":"ann"}}
{"at":1,"command":{"name":"AddUser","user":"ann"}}"#;

const OUTPUT: &[u8] = br#"{"answer":{"denied":"NoSession","number":10},"line":1}
{"line":2,"refused":"NotJson"}
{"answer":"Done","line":3}
{"line":4,"refused":"MissingField"}
{"line":5,"refused":"Stopped"}
{"line":6,"refused":"Busy"}
{"line":7,"refused":"ClockFull"}
{"line":8,"refused":"SentFull"}
{"line":9,"refused":"UnknownMember"}
{"answer":"Done","line":10}
"#;

#[test]
fn answers_each_line(rt: HostRuntime) {
    let mut written = Vec::new(rt.alloc());
    let summary = Summary {
        lines: 10,
        refused: 7,
    };
    let asked = [2, 1, 3, 4, 5, 6, 9, 1];
    expect_conversation(
        &rt,
        rt.alloc(),
        INPUT,
        &mut written,
        8,
        Ok(summary),
        asked.as_slice(),
    );
    assert_eq!(rt; written.as_slice(), OUTPUT);
}

// The outer object is looked at first, then the name of its command, then the fields of that from left to right, and then each for keys
// too many: most lines would fail the next check too.
const REFUSED: &[u8] = br#"{
[1]
{"command":{"name":"Fly"},"now":1}
{"at":1.0}
{"at":1,"now":1}
{"at":1,"command":"Fly","now":1}
{"at":1,"command":{"name":"Fly"},"do":"submit"}
{"at":1,"command":{"user":"a b","now":1}}
{"at":1,"command":{"name":7,"now":1}}
{"at":1,"command":{"name":"Fly","now":1}}
{"at":1,"command":{"name":"AssignUser","role":7}}
{"at":1,"command":{"name":"AssignUser","user":7,"role":"a b"}}
{"at":1,"command":{"name":"AssignUser","user":"a b","now":1}}
{"at":1,"command":{"name":"AssignUser","user":"ann","now":1}}
{"at":1,"command":{"name":"AssignUser","user":"ann","role":[],"now":1}}
{"at":1,"command":{"name":"AssignUser","user":"ann","role":"","now":1}}
{"at":9,"command":{"name":"AssignUser","user":"ann","role":"clerk","now":1}}
{"at":1,"command":{"name":"CreateSession","user":"ann","session":"a b","roles":7}}
{"at":1,"command":{"name":"CreateSession","user":"ann","session":"s","now":1}}
{"at":1,"command":{"name":"CreateSession","user":"ann","session":"s","roles":["a b",7],"now":1}}
{"at":1,"command":{"name":"CreateSession","user":"ann","session":"s","roles":["a b"],"now":1}}
{"at":9,"command":{"name":"CreateSession","user":"ann","session":"s","roles":[],"now":1}}
{"at":1,"command":{"name":"Fly"}}
{"at":1,"command":{"name":"AddUser"}}
{"at":1,"command":{"name":"AddUser","user":"a b"}}
{"at":1,"command":{"name":"AddUser","user":"ann","at":1}}
"#;

const WHY: &[u8] = br#"{"line":1,"refused":"NotJson"}
{"line":2,"refused":"NotObject"}
{"line":3,"refused":"MissingField"}
{"line":4,"refused":"WrongKind"}
{"line":5,"refused":"MissingField"}
{"line":6,"refused":"WrongKind"}
{"line":7,"refused":"ExtraField"}
{"line":8,"refused":"MissingField"}
{"line":9,"refused":"WrongKind"}
{"line":10,"refused":"UnknownWord"}
{"line":11,"refused":"MissingField"}
{"line":12,"refused":"WrongKind"}
{"line":13,"refused":"BadName"}
{"line":14,"refused":"MissingField"}
{"line":15,"refused":"WrongKind"}
{"line":16,"refused":"BadName"}
{"line":17,"refused":"ExtraField"}
{"line":18,"refused":"BadName"}
{"line":19,"refused":"MissingField"}
{"line":20,"refused":"WrongKind"}
{"line":21,"refused":"BadName"}
{"line":22,"refused":"ExtraField"}
{"line":23,"refused":"UnknownWord"}
{"line":24,"refused":"MissingField"}
{"line":25,"refused":"BadName"}
{"line":26,"refused":"ExtraField"}
"#;

#[test]
fn refuses_lines_by_the_first_failing_check(rt: HostRuntime) {
    let mut written = Vec::new(rt.alloc());
    let summary = Summary {
        lines: 26,
        refused: 26,
    };
    expect_conversation(&rt, rt.alloc(), REFUSED, &mut written, 0, Ok(summary), &[]);
    assert_eq!(rt; written.as_slice(), WHY);
    drop(written);
}

const TWO: &[u8] = br#"{"at":1,"command":{"name":"AddUser","user":"ann"}}
{"at":7,"command":{"name":"AddUser","user":"bob"}}
nothing
"#;

#[test]
fn ends_without_memory(rt: HostRuntime) {
    for (room, asked) in [(1, [1].as_slice()), (2, &[1, 7])] {
        let mut written = Vec::new(rt.alloc());
        let ended = Err(RunFault::NoMemory);
        expect_conversation(&rt, rt.alloc(), TWO, &mut written, room, ended, asked);
        assert_eq!(rt;
            written.as_slice(),
            b"{\"answer\":\"Done\",\"line\":1}\n".as_slice()
        );
    }
}

#[test]
fn stops_where_the_writer_does(rt: HostRuntime) {
    let mut full = FullWriter::of(rt.alloc(), 60);
    let ended = Err(RunFault::Write);
    expect_conversation(&rt, rt.alloc(), INPUT, &mut full, 8, ended, &[2]);
    assert_eq!(rt;
        full.taken.as_slice(),
        b"{\"answer\":{\"denied\":\"NoSession\",\"number\":10},\"line\":1}\n{\"lin".as_slice()
    );
}

/// Gives these bytes at once, and fails after them.
#[derive(Drop)]
struct Broken {
    rest: &'static [u8],
}

impl Read for Broken {
    fn read(&mut self, buf: &mut [u8]) -> io::Result<usize> {
        let count = self.rest.len().min(buf.len());
        if count == 0 {
            return Err(Error::from(ErrorKind::ConnectionReset));
        }
        buf[..count].copy_from_slice(&self.rest[..count]);
        self.rest = &self.rest[count..];
        Ok(count)
    }
}

#[test]
fn answers_the_lines_that_ended_where_the_reader_stops(rt: HostRuntime) {
    let mut written = Vec::new(rt.alloc());
    let broken = Broken { rest: INPUT };
    let asked = [2, 1, 3, 4, 5, 6, 9];
    expect_conversation(
        &rt,
        rt.alloc(),
        broken,
        &mut written,
        8,
        Err(RunFault::Read),
        asked.as_slice(),
    );
    assert!(rt; OUTPUT.starts_with(&written));
    assert!(rt; written.ends_with(b"{\"line\":9,\"refused\":\"UnknownMember\"}\n"));
}

/// The members that are asked for in the lines of the input.
const MEMBERS: &[u32] = &[2, 1, 3, 4, 5, 6, 9, 1];

/// The conversation ends at the reader's failing call: each line that had ended then has its whole text, and nothing else was written.
fn expect_read_fault(rt: &impl Abort, alloc: Global, before: usize) {
    let mut reader = watch(FailingReader::of(INPUT, before));
    let mut written = Vec::new(alloc);
    let mut desk = Listing::with_room(rt, alloc, 8);
    let ended = converse(alloc, &mut reader, &mut watch(&mut written), &mut desk);
    assert!(rt; ended == Err(RunFault::Read));
    assert!(rt; MEMBERS.starts_with(&desk.asked));
    drop(desk);
    expect_whole_texts(rt, &written, OUTPUT, read_before(INPUT, before));
    drop(written);
}

#[test]
fn a_reader_that_fails_at_each_of_its_calls(rt: HostRuntime) {
    // The last call is the one that meets the end of the input.
    let calls = INPUT.len().div_ceil(STEP).saturating_add(1);
    assert!(rt; calls > 60);
    for before in 0..calls {
        expect_read_fault(&rt, rt.alloc(), before);
    }
}

/// How the conversation ends whose writer fails at a call, and what it took until then, which is the first part of the texts.
fn written_before(
    rt: &impl Abort,
    alloc: Global,
    before: usize,
) -> (Result<Summary, RunFault>, usize) {
    let mut writer = FailingWriter::of(alloc, before);
    let mut desk = Listing::with_room(rt, alloc, 8);
    let ended = converse(alloc, &mut watch(INPUT), &mut watch(&mut writer), &mut desk);
    assert!(rt; MEMBERS.starts_with(&desk.asked));
    drop(desk);
    assert!(rt; OUTPUT.starts_with(&writer.taken));
    let taken = writer.taken.len();
    drop(writer);
    (ended, taken)
}

#[test]
fn a_writer_that_fails_at_each_of_its_calls(rt: HostRuntime) {
    let mut last = 0;
    for before in 0..200 {
        let (ended, taken) = written_before(&rt, rt.alloc(), before);
        if ended.is_ok() {
            assert!(rt; taken == OUTPUT.len() && before > 20);
            return;
        }
        assert!(rt; ended == Err(RunFault::Write));
        // Each call took something more.
        assert!(rt; before == 0 || last < taken);
        last = taken;
    }
    panic!(rt; "each run fails");
}
