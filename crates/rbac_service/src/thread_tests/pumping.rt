//! An answer that nobody but the members' own threads can bring.
ghost use Rattle.std.specs.Prelude.{◌≡◌, length};

use crate::tests::{
    Founding, add_ann, expect_audit, expect_no_record, expect_receipt, founded, founding_of,
    new_pass, submitted,
};
use crate::{ChannelCourier, Courier, GroupName, NoGate, Pass, PumpEnd, Service};
use rbac_words::Answer;
use std::alloc::Global;
use std::marker::Brand;
use std::process::Abort;
use std::sync::Wait;
use std::thread;
use std::thread::Threads;
use std::time::{Clock, Duration};

// Looks for the first record of member 1, a hundred thousand times at most.
fn look_for_record<G: GroupName, C: Courier + Drop, R: Clock>(
    rt: &R,
    service: &Service<G, NoGate, C>,
) {
    for _ in 0..100_000u32 {
        if service.published(1, 0).is_some() {
            return;
        }
        thread::sleep(rt, Duration::from_micros(50));
    }
}

// One command of member 1, which is submitted before the members' threads run, and answered by them: nobody else calls then. True where
// both end by the stop.
fn answer_beside<
    G: GroupName + Send + Sync,
    C: Courier + Drop + Send + Sync,
    R: Threads + Wait + Clock + Abort + Send + Sync,
>(rt: &R, alloc: Global, service: &Service<G, NoGate, C>, pass: &mut Pass<G>) -> bool {
    let ticket = submitted(rt, alloc, service, pass, add_ann(rt, alloc));
    expect_no_record(rt, service, 1, 0);
    let both_stop = thread::scope(thread::scope_env(), rt, move |scope| {
        let first = scope.spawn(move || service.pump(rt, alloc, 1));
        let second = scope.spawn(move || service.pump(rt, alloc, 2));
        look_for_record(rt, service);
        service.stop(rt);
        let (Ok(first), Ok(second)) = (first, second) else {
            return false;
        };
        [first.join(rt), second.join(rt)] == [PumpEnd::Stopped, PumpEnd::Stopped]
    });
    expect_receipt(rt, service, pass, ticket, 0, Answer::Done);
    both_stop
}

fn run<G: GroupName + Send + Sync, R: Threads + Wait + Clock + Abort + Copy + Drop + Send + Sync>(
    rt: &R,
    alloc: Global,
    founding: Founding,
)
    requires names { (founding.group ≡ G.group) × (founding.words ≡ G.vocabulary) × (founding.rows ≡ G.cells) }
    requires members { length founding.rows.sent ≡ founding.group.members }
{
    let courier = ChannelCourier::found(*rt, alloc, 2).expect(rt, "memory");
    let service: Service<G, NoGate, ChannelCourier<R>> = founded(rt, alloc, founding, courier);
    let mut pass = new_pass(rt, &service, 1);
    assert!(rt; answer_beside(rt, alloc, &service, &mut pass));
    let mut nodes = service.take_nodes();
    expect_audit(rt, alloc, &mut nodes, &[1, 1]);
    drop(nodes);
    drop(pass);
}

#[test]
fn the_threads_of_members_bring_what_nobody_else_can(rt: HostRuntime) {
    let founding = founding_of(&rt, rt.alloc(), 2, 16);
    run::<Brand, _>(&rt, rt.alloc(), founding);
}
