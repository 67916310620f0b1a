//! Runs of `line_engine` with ample memory: what is taken, written and told.
ghost use Rattle.std.specs.Prelude.{⊤};

use line_engine::{RunFault, Summary, Taking, run_lines, watch};
use std::alloc::{AllocError, Global};
use std::io;
use std::io::{Error, ErrorKind, Read, Write};
use std::process::Abort;
use std::test::Fail;

/// How many lines were taken.
#[derive(Drop)]
struct Seen {
    lines: u64,
}

/// Tells each line's number and length, and refuses a line of more than 65,536 bytes.
struct Lengths;

impl Taking for Lengths {
    type Over = Seen;

    type Scratch = ();

    ghost State = { ⊤ };

    ghost state = { λ _. tt };

    ghost takes = { λ _ _ _ _ _ _. ⊤ };

    fn scratch(_alloc: Global) {}

    fn take_line(
        Seen { lines }: &mut Seen,
        _alloc: Global,
        _scratch: &mut (),
        number: u64,
        line: &[u8],
        text: &mut Vec<u8>,
    ) -> Result<bool, AllocError> {
        *lines = number;
        let length = line.len();
        match write!(text, "line {number} has {length} bytes\n") {
            Ok(()) => Ok(length > 65_536),
            Err(_) => Err(AllocError),
        }
    }
}

/// Gives these bytes, `step` at a time, and fails after them.
#[derive(Drop)]
struct Broken {
    rest: &'static [u8],
    step: usize,
}

impl Read for Broken {
    fn read(&mut self, buf: &mut [u8]) -> io::Result<usize> {
        let count = self.rest.len().min(self.step).min(buf.len());
        if count == 0 {
            return Err(Error::from(ErrorKind::Interrupted));
        }
        buf[..count].copy_from_slice(&self.rest[..count]);
        self.rest = &self.rest[count..];
        Ok(count)
    }
}

/// Takes so many bytes, `step` at a time, and then none, or fails.
#[derive(Drop)]
struct Full {
    taken: Vec<u8>,
    room: usize,
    step: usize,
    fails: bool,
}

impl Write for Full {
    fn write(&mut self, buf: &[u8]) -> io::Result<usize> {
        let count = buf.len().min(self.room).min(self.step);
        if count == 0 && self.fails {
            return Err(Error::from(ErrorKind::StorageFull));
        }
        self.taken.extend_from_slice(&buf[..count])?;
        self.room -= count;
        Ok(count)
    }

    fn flush(&mut self) -> io::Result<()> {
        Ok(())
    }
}

/// More reads than a test needs.
const MANY_READS: u32 = 1_000_000;

/// How a run over a reader ended, whether it met the end of the input, and what it read, took and wrote.
#[derive(Drop)]
struct Run {
    ended: Result<Summary, RunFault>,
    met_end: bool,
    reads: u64,
    lines: u64,
    written: Vec<u8>,
}

fn run_over<R: Read + Drop>(alloc: Global, reader: R, most_reads: u32) -> Run {
    let mut written = Vec::new(alloc);
    let mut reader = watch(reader);
    let mut seen = Seen { lines: 0 };
    let ended = run_lines::<Lengths, _, _>(
        alloc,
        &mut reader,
        &mut watch(&mut written),
        &mut seen,
        most_reads,
    );
    Run {
        ended,
        met_end: reader.ended(),
        reads: reader.reads(),
        lines: seen.lines,
        written,
    }
}

/// A run over these bytes takes so many lines, refuses so many, and writes this.
fn expect_output(
    rt: &impl Abort,
    alloc: Global,
    input: &[u8],
    lines: u64,
    refused: u64,
    output: &[u8],
) {
    let run = run_over(alloc, input, MANY_READS);
    assert!(rt; run.ended == Ok(Summary { lines, refused }));
    assert!(rt; run.met_end);
    assert!(rt; run.lines == lines);
    assert!(rt; run.written.as_slice() == output);
}

#[test]
fn takes_each_line(rt: HostRuntime) {
    let alloc = rt.alloc();
    let three = b"line 1 has 2 bytes\nline 2 has 0 bytes\nline 3 has 3 bytes\n".as_slice();
    expect_output(&rt, alloc, b"ab\n\ncde\n".as_slice(), 3, 0, three);
    expect_output(&rt, alloc, b"ab\n\ncde".as_slice(), 3, 0, three);
    expect_output(&rt, alloc, b"".as_slice(), 0, 0, b"".as_slice());
}

#[test]
fn cuts_long_lines(rt: HostRuntime) -> Result<(), Fail> {
    let alloc = rt.alloc();
    let mut input = Vec::new(alloc);
    for length in [65_536, 65_537, 70_000, 3] {
        let kept = input.len();
        assert!(rt; kept <= 1_000_000);
        input.resize(kept + length, b'a')?;
        input.push(b'\n')?;
    }
    let output =
        b"line 1 has 65536 bytes\nline 2 has 65537 bytes\nline 3 has 65537 bytes\nline 4 has 3 bytes\n";
    expect_output(&rt, alloc, &input, 4, 2, output.as_slice());
    Ok(())
}

#[test]
fn stops_where_the_writer_does(rt: HostRuntime) {
    let alloc = rt.alloc();
    for (step, fails) in [(30, true), (30, false), (1, true), (7, false)] {
        let mut full = Full {
            taken: Vec::new(alloc),
            room: 30,
            step,
            fails,
        };
        let mut writer = watch(&mut full);
        let mut seen = Seen { lines: 0 };
        let ended = run_lines::<Lengths, _, _>(
            alloc,
            &mut watch(b"ab\ncd\nef\n".as_slice()),
            &mut writer,
            &mut seen,
            MANY_READS,
        );
        assert!(rt; ended == Err(RunFault::Write));
        assert!(rt; writer.failed());
        assert!(rt; seen.lines == 2);
        assert!(rt; full.taken.as_slice() == b"line 1 has 2 bytes\nline 2 has ".as_slice());
    }
}

/// How a run ends that reads `ab`, a line feed and `cd`, so many bytes at a time and so often at most. It takes one line.
fn fault_after_cd(rt: &impl Abort, alloc: Global, step: usize, most_reads: u32) -> (RunFault, u64) {
    let reader = Broken {
        rest: b"ab\ncd",
        step,
    };
    let run = run_over(alloc, reader, most_reads);
    assert!(rt; !run.met_end);
    assert!(rt; run.written.as_slice() == b"line 1 has 2 bytes\n".as_slice());
    match run.ended {
        Ok(_) => panic!(rt; "the run has no end"),
        Err(fault) => (fault, run.reads),
    }
}

#[test]
fn stops_where_the_reader_does(rt: HostRuntime) {
    let alloc = rt.alloc();
    assert!(rt; fault_after_cd(&rt, alloc, 1, 6) == (RunFault::Read, 6));
    assert!(rt; fault_after_cd(&rt, alloc, 3, MANY_READS) == (RunFault::Read, 3));
}

#[test]
fn reads_so_often_at_most(rt: HostRuntime) {
    let alloc = rt.alloc();
    assert!(rt; fault_after_cd(&rt, alloc, 1, 5) == (RunFault::TooManyReads, 5));
    assert!(rt; fault_after_cd(&rt, alloc, 1, 3) == (RunFault::TooManyReads, 3));
}
