//! A member whose thread is never started stops the other one, and a stop sends the caller home.
ghost use Rattle.std.specs.Prelude.{◌≡◌, length};

use crate::tests::{
    Founding, add_ann, expect_audit, expect_no_record, expect_stopped, founded, founding_of,
    new_pass, submitted,
};
use crate::{ChannelCourier, Courier, GroupName, NoGate, Pass, PumpEnd, Service};
use std::alloc::Global;
use std::marker::Brand;
use std::process::Abort;
use std::sync::Wait;
use std::thread;
use std::thread::Threads;
use std::time::Clock;

// A command of member 1 is not answered, beside that member's thread and one that stops the service. True where the member's
// thread ends by the stop.
fn wait_beside<
    G: GroupName + Send + Sync,
    C: Courier + Drop + Send + Sync,
    R: Threads + Wait + Abort + Send + Sync,
>(rt: &R, alloc: Global, service: &Service<G, NoGate, C>, pass: &mut Pass<G>) -> bool {
    thread::scope(thread::scope_env(), rt, move |scope| {
        let Ok(pump) = scope.spawn(move || service.pump(rt, alloc, 1)) else {
            return false;
        };
        let ticket = submitted(rt, alloc, service, pass, add_ann(rt, alloc));
        let Ok(stopper) = scope.spawn(move || service.stop(rt)) else {
            drop(ticket);
            return false;
        };
        expect_stopped(rt, service, pass, ticket);
        stopper.join(rt);
        pump.join(rt) == PumpEnd::Stopped
    })
}

fn run<G: GroupName + Send + Sync, R: Threads + Wait + Clock + Abort + Copy + Drop + Send + Sync>(
    rt: &R,
    alloc: Global,
    founding: Founding,
)
    requires names { (founding.group ≡ G.group) × (founding.words ≡ G.vocabulary) × (founding.rows ≡ G.cells) }
    requires members { length founding.rows.sent ≡ founding.group.members }
{
    let courier = ChannelCourier::found(*rt, alloc, 2).expect(rt, "memory");
    let service: Service<G, NoGate, ChannelCourier<R>> = founded(rt, alloc, founding, courier);
    let mut pass = new_pass(rt, &service, 1);
    assert!(rt; wait_beside(rt, alloc, &service, &mut pass));
    assert_eq!(rt; pass.front_len(), 0);
    expect_no_record(rt, &service, 1, 0);
    let mut nodes = service.take_nodes();
    expect_audit(rt, alloc, &mut nodes, &[0, 0]);
    drop(nodes);
    drop(pass);
}

#[test]
fn a_stop_ends_the_wait_for_a_silent_member(rt: HostRuntime) {
    let founding = founding_of(&rt, rt.alloc(), 2, 16);
    run::<Brand, _>(&rt, rt.alloc(), founding);
}
