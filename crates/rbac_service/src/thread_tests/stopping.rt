//! A stop amid calls of callers of both members, who take turns of each other's members.
ghost use Rattle.std.specs.Prelude.{◌≡◌, length};

use super::are_all_answered;
use crate::tests::{Founding, founded, founding_of, new_pass};
use crate::{ChannelCourier, Courier, GroupName, NoGate, Node, PumpEnd, Service, audit};
use std::alloc::Global;
use std::marker::Brand;
use std::process::Abort;
use std::sync::Wait;
use std::sync::atomic::{AtomicU64, Ordering};
use std::thread;
use std::thread::Threads;
use std::time::{Clock, Duration};

// The service is stopped once member 1 has published more records than these.
const RECORDS: usize = 200;

// Whether a member gives no pass any more.
fn gives_no_pass<G: GroupName, C: Courier + Drop, R: Wait>(
    rt: &R,
    service: &Service<G, NoGate, C>,
    at: u32,
) -> bool {
    let given = service.enroll(rt, at);
    let is_refused = given.is_err();
    drop(given);
    is_refused
}

// Counts a new caller, and tells whether its calls are answered until one is not, after which the member gives no pass any more.
fn calls_until_the_stop<G: GroupName, C: Courier + Drop, R: Wait + Abort>(
    rt: &R,
    alloc: Global,
    service: &Service<G, NoGate, C>,
    enrolled: &AtomicU64,
    at: u32,
) -> bool {
    let mut pass = new_pass(rt, service, at);
    enrolled.fetch_add(1, Ordering::SeqCst);
    let are_answered = are_all_answered(rt, alloc, service, &mut pass, 30_000);
    drop(pass);
    !are_answered && gives_no_pass(rt, service, at)
}

// Stops amid the calls of both callers, after a million looks at the latest.
fn stop_amid<G: GroupName, C: Courier + Drop, R: Wait + Clock>(
    rt: &R,
    service: &Service<G, NoGate, C>,
    enrolled: &AtomicU64,
) {
    for _ in 0..1_000_000u32 {
        if enrolled.load(Ordering::SeqCst) == 2 && service.published(1, RECORDS).is_some() {
            break;
        }
        thread::sleep(rt, Duration::from_micros(50));
    }
    service.stop(rt);
}

// Whether a caller of each member is sent home by the stop, and both members' threads end by it.
fn all_end<
    G: GroupName + Send + Sync,
    C: Courier + Drop + Send + Sync,
    R: Threads + Wait + Clock + Abort + Send + Sync,
>(rt: &R, alloc: Global, service: &Service<G, NoGate, C>, enrolled: &AtomicU64) -> bool {
    thread::scope(thread::scope_env(), rt, move |scope| {
        let first = scope.spawn(move || service.pump(rt, alloc, 1));
        let second = scope.spawn(move || service.pump(rt, alloc, 2));
        let stopper = scope.spawn(move || stop_amid(rt, service, enrolled));
        let (one, other) = thread::join(
            rt,
            move || calls_until_the_stop(rt, alloc, service, enrolled, 1),
            move || calls_until_the_stop(rt, alloc, service, enrolled, 2),
        );
        let (Ok(first), Ok(second), Ok(stopper)) = (first, second, stopper) else {
            return false;
        };
        stopper.join(rt);
        let ends = [first.join(rt), second.join(rt)];
        one && other && ends == [PumpEnd::Stopped, PumpEnd::Stopped]
    })
}

// The nodes are a group, whose first member has delivered more than was waited for.
fn expect_delivered<G: GroupName>(rt: &impl Abort, alloc: Global, nodes: &mut [Node<G>]) {
    let audited = audit(alloc, nodes).expect(rt, "a group");
    assert!(rt; audited.delivered.first().copied().unwrap_or(0) > RECORDS);
    drop(audited);
}

fn run<G: GroupName + Send + Sync, R: Threads + Wait + Clock + Abort + Copy + Drop + Send + Sync>(
    rt: &R,
    alloc: Global,
    founding: Founding,
)
    requires names { (founding.group ≡ G.group) × (founding.words ≡ G.vocabulary) × (founding.rows ≡ G.cells) }
    requires members { length founding.rows.sent ≡ founding.group.members }
{
    let courier = ChannelCourier::found(*rt, alloc, 2).expect(rt, "memory");
    let service: Service<G, NoGate, ChannelCourier<R>> = founded(rt, alloc, founding, courier);
    let enrolled = AtomicU64::new(0);
    assert!(rt; all_end(rt, alloc, &service, &enrolled));
    let mut nodes = service.take_nodes();
    expect_delivered(rt, alloc, &mut nodes);
    drop(nodes);
}

#[test]
fn a_stop_amid_calls_of_both_members(rt: HostRuntime) {
    let founding = founding_of(&rt, rt.alloc(), 2, 65_536);
    run::<Brand, _>(&rt, rt.alloc(), founding);
}
