//! A whole run of `rbac_lines` with ample memory, and runs whose reader or writer fails once, at each of its calls in turn.

use crate::tests::failing::{
    FailingReader, FailingWriter, FullWriter, STEP, expect_whole_texts, read_before,
};
use crate::tests::sample::{DAY, DAY_TOLD, sample_world};
use rbac_lines::{RunFault, Summary, run, watch};
use rbac_world::World;
use std::alloc::Global;
use std::process::Abort;

const INPUT: &[u8] =
    br#"{"do":"submit","at":1,"caller":7,"serial":0,"command":{"name":"AddUser","user":"ann"}}
{"do":"deliver","at":1}
nothing
{"do":"deliver","at":1}
{"do":"submit","at":1,"caller":7,"serial":0,"command":{"name":"AddUser","user":"ann"}}
"#;

const OUTPUT: &[u8] = br#"{"line":1,"stamp":[1,1]}
{"answer":"Done","caller":7,"line":2,"serial":0,"stamp":[1,1]}
{"line":3,"refused":"NotJson"}
{"answer":null,"line":4}
{"line":5,"next":1,"refused":"BadSerial"}
"#;

/// How many messages member 1 has sent, and how many commands it has delivered.
fn expect_first(rt: &impl Abort, world: &World, sent: usize, delivered: usize) {
    let member = world.member(1).expect(rt, "a member");
    assert_eq!(rt; member.sent().len(), sent);
    assert_eq!(rt; member.history().len(), delivered);
}

// An input is run to its end: so many lines, of which so many are refused, and these texts.
fn expect_run(
    rt: &impl Abort,
    alloc: Global,
    world: &mut World,
    input: &[u8],
    (lines, refused): (u64, u64),
    texts: &[u8],
) {
    let mut written = Vec::new(alloc);
    let ended = run(alloc, &mut watch(input), &mut watch(&mut written), world);
    assert_eq!(rt; ended, Ok(Summary { lines, refused }));
    assert_eq!(rt; written.as_slice(), texts);
    drop(written);
}

#[test]
fn plays_a_whole_input(rt: HostRuntime) {
    let mut world = sample_world(&rt, rt.alloc(), 1);
    expect_run(&rt, rt.alloc(), &mut world, INPUT, (5, 2), OUTPUT);
    expect_first(&rt, &world, 1, 1);
    drop(world);
}

#[test]
fn an_empty_input_has_no_lines(rt: HostRuntime) {
    let mut world = sample_world(&rt, rt.alloc(), 1);
    expect_run(&rt, rt.alloc(), &mut world, b"", (0, 0), b"");
    expect_first(&rt, &world, 0, 0);
    drop(world);
}

/// The day ends at the reader's failing call: each line that had ended then has its whole text, and nothing else was written.
fn expect_read_fault(rt: &impl Abort, alloc: Global, before: usize) {
    let mut reader = watch(FailingReader::of(DAY.as_bytes(), before));
    let mut written = Vec::new(alloc);
    let mut world = sample_world(rt, alloc, 1);
    let ended = run(alloc, &mut reader, &mut watch(&mut written), &mut world);
    drop(world);
    assert!(rt; ended == Err(RunFault::Read));
    expect_whole_texts(rt, &written, DAY_TOLD, read_before(DAY.as_bytes(), before));
    drop(written);
}

#[test]
fn a_reader_that_fails_at_each_of_its_calls(rt: HostRuntime) {
    // The last call is the one that meets the end of the input.
    let calls = DAY.len().div_ceil(STEP).saturating_add(1);
    assert!(rt; calls > 30);
    for before in 0..calls {
        expect_read_fault(&rt, rt.alloc(), before);
    }
}

/// How the day ends whose writer fails at a call, and what it took until then, which is the first part of the day's texts.
fn written_before(
    rt: &impl Abort,
    alloc: Global,
    before: usize,
) -> (Result<Summary, RunFault>, usize) {
    let mut writer = FailingWriter::of(alloc, before);
    let mut world = sample_world(rt, alloc, 1);
    let ended = run(
        alloc,
        &mut watch(DAY.as_bytes()),
        &mut watch(&mut writer),
        &mut world,
    );
    drop(world);
    assert!(rt; DAY_TOLD.starts_with(&writer.taken));
    let taken = writer.taken.len();
    drop(writer);
    (ended, taken)
}

#[test]
fn a_writer_that_fails_at_each_of_its_calls(rt: HostRuntime) {
    let mut last = 0;
    for before in 0..200 {
        let (ended, taken) = written_before(&rt, rt.alloc(), before);
        if ended.is_ok() {
            assert!(rt; taken == DAY_TOLD.len() && before > 20);
            return;
        }
        assert!(rt; ended == Err(RunFault::Write));
        // Each call took something more.
        assert!(rt; before == 0 || last < taken);
        last = taken;
    }
    panic!(rt; "each run fails");
}

#[test]
fn a_writer_that_takes_30_bytes(rt: HostRuntime) {
    let mut writer = FullWriter::of(rt.alloc(), 30);
    let mut world = sample_world(&rt, rt.alloc(), 1);
    let ended = run(
        rt.alloc(),
        &mut watch(DAY.as_bytes()),
        &mut watch(&mut writer),
        &mut world,
    );
    drop(world);
    assert!(rt; ended == Err(RunFault::Write));
    assert_eq!(rt;
        writer.taken.as_slice(),
        b"{\"line\":1,\"stamp\":[1,1]}\n{\"ans".as_slice()
    );
    drop(writer);
}
