//! What the members are asked to confirm at the end.
ghost use Rattle.std.specs.Prelude.{◌≡◌, length};

use super::{found, serve_by};
use rbac_lines::watch;
use rbac_service::{ChannelCourier, GroupName, NoGate, Pass, Rows, Service};
use rbac_words::{Group, Vocabulary};
use std::alloc::Global;
use std::marker::Brand;
use std::process::Abort;
use std::sync::Wait;
use std::thread::Threads;
use std::time::Clock;

const LINES: &[u8] = br#"{"at":1,"command":{"name":"AddUser","user":"ann"}}
{"at":2,"command":{"name":"AddUser","user":"bob"}}
{"at":1,"command":{"name":"AddUser","user":"bob"}}
{"at":3,"command":{"name":"AddUser","user":"bob"}}
"#;

const ANSWERS: &[u8] = br#"{"answer":"Done","line":1}
{"answer":"Done","line":2}
{"answer":{"denied":"UserExists","number":1},"line":3}
{"line":4,"refused":"UnknownMember"}
"#;

// The passes know so many records of their members' histories.
fn expect_fronts<G: GroupName>(rt: &impl Abort, passes: &[Pass<G>], wanted: &[usize]) {
    assert_eq!(rt; passes.len(), wanted.len());
    for (pass, front) in passes.iter().zip(wanted) {
        assert_eq!(rt; pass.front_len(), *front);
    }
}

// The passes that come back are those that asked for the lines: each knows the history up to the last answer that it was given.
fn run<G: GroupName + Send + Sync, T: Threads + Wait + Clock + Abort + Copy + Send + Sync>(
    rt: &T,
    alloc: Global,
    rows: Rows,
    group: Group,
    words: Vocabulary,
)
    requires names { (group ≡ G.group) × (words ≡ G.vocabulary) × (rows ≡ G.cells) }
    requires members { length rows.sent ≡ group.members }
{
    let founded = found(rt, alloc, rows, group, words);
    let service: Service<G, NoGate, ChannelCourier<T>> = founded.expect(rt, "memory");
    let mut output = Vec::new(alloc);
    let mut errors = Vec::new(alloc);
    let served = serve_by(
        rt,
        alloc,
        &service,
        2,
        LINES,
        &mut watch(&mut output),
        &mut errors,
    );
    let passes = served.ok().expect(rt, "passes");
    expect_fronts(rt, &passes, &[3, 2]);
    drop(passes);
    drop(service);
    assert!(rt; output.as_slice() == ANSWERS && errors.is_empty());
}

#[test]
fn passes_come_back_with_what_they_were_told(rt: HostRuntime) {
    let alloc = rt.alloc();
    let group = Group::build(2, 0, 16).expect(&rt, "a group");
    let rows = Rows::found(alloc, group).expect(&rt, "memory");
    let words = Vocabulary::build(Vec::new(alloc), Vec::new(alloc), Vec::new(alloc));
    let words = words.expect(&rt, "a vocabulary");
    run::<Brand, _>(&rt, alloc, rows, group, words);
}
