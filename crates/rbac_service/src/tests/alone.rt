//! A member that is alone in its group and runs in a thread of its own, beside two callers.
ghost use Rattle.std.specs.Prelude.{◌≡◌, length};

use super::{
    Founding, add_ann, check, expect_audit, expect_confirmed, expect_fronts, expect_meeting,
    expect_no_pass, expect_no_record, expect_receipt, expect_record, expect_refusal, founded,
    is_no_group, new_pass, roles_of_ann, sample_founding, submitted,
};
use crate::{
    ChannelCourier, Courier, EnrollRefusal, GroupName, NoGate, Pass, PumpEnd, Service,
    ServiceRefusal,
};
use rbac_words::{Answer, Command, Denial, NameSet};
use std::alloc::Global;
use std::marker::Brand;
use std::process::Abort;
use std::sync::Wait;
use std::thread;
use std::thread::Threads;
use std::time::Clock;

// A command is answered; until then its pass is busy.
fn expect_call<G: GroupName, C: Courier + Drop, R: Wait + Abort>(
    rt: &R,
    alloc: Global,
    service: &Service<G, NoGate, C>,
    pass: &mut Pass<G>,
    command: Command,
    (place, answer): (u32, Answer),
) {
    let ticket = submitted(rt, alloc, service, pass, command);
    expect_refusal(rt, alloc, pass, service, ServiceRefusal::Busy);
    expect_receipt(rt, service, pass, ticket, place, answer);
}

// What the member's thread has published is found in this one.
fn expect_records<G: GroupName, C: Courier + Drop>(
    rt: &impl Abort,
    alloc: Global,
    service: &Service<G, NoGate, C>,
) {
    let none = Answer::Names(NameSet::new(alloc));
    let denied = Answer::Denied(Denial::NoSession);
    expect_record(rt, service, (1, 0), (1, 1), &Answer::Done);
    expect_record(rt, service, (1, 1), (2, 1), &none);
    expect_record(rt, service, (1, 2), (3, 1), &denied);
    expect_no_record(rt, service, 1, 3);
    drop(none);
    drop(denied);
}

// Two callers, by turns.
fn talk<G: GroupName, C: Courier + Drop, R: Wait + Abort>(
    rt: &R,
    alloc: Global,
    service: &Service<G, NoGate, C>,
    one: &mut Pass<G>,
    other: &mut Pass<G>,
) {
    let added = add_ann(rt, alloc);
    expect_call(rt, alloc, service, one, added, (0, Answer::Done));
    let none = Answer::Names(NameSet::new(alloc));
    let asked = roles_of_ann(rt, alloc);
    expect_call(rt, alloc, service, other, asked, (1, none));
    expect_fronts(rt, one, other, (1, 2));
    expect_meeting(rt, service, one, other, Ok(()));
    expect_fronts(rt, one, other, (2, 2));
    let denied = Answer::Denied(Denial::NoSession);
    expect_call(rt, alloc, service, one, check(rt, alloc), (2, denied));
    expect_records(rt, alloc, service);
}

// The same beside the member's thread. True where that thread ends by the stop.
fn talk_beside<
    G: GroupName + Send + Sync,
    C: Courier + Drop + Send + Sync,
    R: Threads + Wait + Abort + Send + Sync,
>(
    rt: &R,
    alloc: Global,
    service: &Service<G, NoGate, C>,
    one: &mut Pass<G>,
    other: &mut Pass<G>,
) -> bool {
    thread::scope(thread::scope_env(), rt, move |scope| {
        let Ok(pump) = scope.spawn(move || service.pump(rt, alloc, 1)) else {
            return false;
        };
        talk(rt, alloc, service, one, other);
        service.stop(rt);
        pump.join(rt) == PumpEnd::Stopped
    })
}

// At the end the node confirms what both callers were told, and there is no group of no nodes.
fn expect_end<G: GroupName>(
    rt: &impl Abort,
    alloc: Global,
    service: Service<G, NoGate, impl Courier + Drop>,
    one: &mut Pass<G>,
    other: &mut Pass<G>,
) {
    let mut nodes = service.take_nodes();
    expect_audit(rt, alloc, &mut nodes, &[3]);
    expect_confirmed(rt, &mut nodes, one);
    expect_confirmed(rt, &mut nodes, other);
    drop(nodes);
    let mut nobody = Vec::new(alloc);
    assert!(rt; is_no_group::<G>(alloc, &mut nobody));
    drop(nobody);
}

fn run<G: GroupName + Send + Sync, R: Threads + Wait + Clock + Abort + Copy + Drop + Send + Sync>(
    rt: &R,
    alloc: Global,
    founding: Founding,
)
    requires names { (founding.group ≡ G.group) × (founding.words ≡ G.vocabulary) × (founding.rows ≡ G.cells) }
    requires members { length founding.rows.sent ≡ founding.group.members }
{
    let courier = ChannelCourier::found(*rt, alloc, 1).expect(rt, "memory");
    let service: Service<G, NoGate, ChannelCourier<R>> = founded(rt, alloc, founding, courier);
    let mut one = new_pass(rt, &service, 1);
    let mut other = new_pass(rt, &service, 1);
    expect_no_pass(rt, &service, 2, EnrollRefusal::UnknownMember);
    assert!(rt; talk_beside(rt, alloc, &service, &mut one, &mut other));
    expect_refusal(rt, alloc, &mut one, &service, ServiceRefusal::Stopped);
    expect_no_pass(rt, &service, 1, EnrollRefusal::Stopped);
    expect_end(rt, alloc, service, &mut one, &mut other);
    drop(one);
    drop(other);
}

#[test]
fn two_callers_beside_the_thread_of_their_member(rt: HostRuntime) {
    let founding = sample_founding(&rt, rt.alloc(), 1);
    run::<Brand, _>(&rt, rt.alloc(), founding);
}
