//! Calls of a service, made again where a growth is refused, and what a refusal leaves. With ample memory each goes well at once;
//! `bench/hostile/refuse_each_growth` runs this test with each growth refused in turn.
ghost use Rattle.std.specs.Prelude.{◌≡◌, length};
ghost use Rattle.rbac_node.specs.Pass.{Owns};

use super::hints::told;
use super::{
    Founding, Lost, add_ann, expect_confirmed, expect_fronts, expect_meeting, expect_published,
    expect_stop, founding_of, new_pass, turn_all,
};
use crate::{
    AuditRefusal, AwaitRefusal, GroupName, MeetRefusal, NoGate, Node, Pass, Service,
    ServiceRefusal, Ticket, audit,
};
use rbac_words::Answer;
use std::alloc::Global;
use std::marker::Brand;
use std::process::Abort;
use std::sync::Wait;

// The clock of member 1, and how many messages it has published.
fn first_member<G: GroupName, R: Wait + Abort>(
    rt: &R,
    service: &Service<G, NoGate, Lost>,
) -> (u64, u64) {
    let slot = service.slot(1).expect(rt, "a member");
    let node = slot.node.lock(rt);
    let found = (node.member().clock(), node.published() as u64);
    drop(node);
    found
}

// Whether member 1 shows what each member does that nothing was submitted to: member 2 is one.
fn is_as_founded<G: GroupName, R: Wait + Abort>(
    rt: &R,
    service: &Service<G, NoGate, Lost>,
) -> bool {
    let slot = service.slot(1).expect(rt, "a member");
    let other = service.slot(2).expect(rt, "a member");
    let node = slot.node.lock(rt);
    let other = other.node.lock(rt);
    let is_as_founded = shows_nothing(&node)
        && node.member().policy().same(other.member().policy());
    drop(other);
    drop(node);
    is_as_founded
}

// Whether a node has sent, received, delivered and published nothing.
fn shows_nothing<G: GroupName>(node: &Node<G>) -> bool {
    let member = node.member();
    (member.clock(), member.read(2)) == (0, 0)
        && (member.sent().len(), member.history().len()) == (0, 0)
        && (node.published(), node.published_records()) == (0, 0)
        && !node.is_stopped()
}

// Submits a command at member 1, again where a growth is refused, which leaves the pass and the member as they were.
fn ask<G: GroupName, R: Wait + Abort>(
    rt: &R,
    alloc: Global,
    service: &Service<G, NoGate, Lost>,
    pass: &mut Pass<G>,
) -> Ticket
    ensures { Owns pass.new result }
{
    assert!(rt; is_as_founded(rt, service));
    let ticket = match service.submit(rt, alloc, pass, add_ann(rt, alloc)) {
        Ok(ticket) => ticket,
        Err(refusal) => {
            assert_eq!(rt; refusal, ServiceRefusal::NoMemory);
            assert!(rt; !pass.is_waiting() && is_as_founded(rt, service));
            let again = service.submit(rt, alloc, pass, add_ann(rt, alloc));
            again.expect(rt, "memory")
        }
    };
    assert!(rt; !is_as_founded(rt, service));
    assert!(rt; pass.owns(&ticket));
    ticket
}

// The command was taken. Where it could not be published, it has its ticket all the same, and nobody was told of it.
fn expect_taken<G: GroupName, R: Wait + Abort>(rt: &R, service: &Service<G, NoGate, Lost>) {
    let (clock, published) = first_member(rt, service);
    assert_eq!(rt; clock, 1);
    assert!(rt; published <= 1);
    assert_eq!(rt; told(service), published);
}

// The answer of a ticket, which comes back where a growth is refused, and is awaited again.
fn expect_answer<G: GroupName, R: Wait + Abort>(
    rt: &R,
    service: &Service<G, NoGate, Lost>,
    pass: &mut Pass<G>,
    ticket: Ticket,
)
    requires { Owns pass.old ticket }
{
    let receipt = match service.await_answer(rt, pass, ticket) {
        Ok(receipt) => receipt,
        Err(AwaitRefusal::NoMemory(ticket)) => {
            assert!(rt; pass.owns(&ticket) && pass.front_len() == 0);
            let again = service.await_answer(rt, pass, ticket);
            again.ok().expect(rt, "memory")
        }
        Err(AwaitRefusal::Stopped(_)) => panic!(rt; "it is not stopped"),
    };
    assert_eq!(rt; receipt.place, 0);
    assert!(rt; receipt.answer.same(&Answer::Done));
    drop(receipt);
}

// The second pass learns what the first one knows, again where a growth is refused, which leaves both as they were.
fn expect_met<G: GroupName, R: Wait + Abort>(
    rt: &R,
    service: &Service<G, NoGate, Lost>,
    one: &mut Pass<G>,
    other: &mut Pass<G>,
) {
    let met = service.meet(one, other);
    if met.is_err() {
        assert!(rt; met == Err(MeetRefusal::NoMemory));
        expect_fronts(rt, one, other, (1, 0));
        expect_meeting(rt, service, one, other, Ok(()));
    }
    expect_fronts(rt, one, other, (1, 1));
}

// Both members have delivered the command; the nodes are asked again where a growth is refused.
fn audits<G: GroupName>(rt: &impl Abort, alloc: Global, nodes: &mut [Node<G>]) {
    let audited = match audit(alloc, nodes) {
        Ok(audited) => audited,
        Err(refusal) => {
            assert!(rt; refusal == AuditRefusal::NoMemory);
            audit(alloc, nodes).expect(rt, "memory")
        }
    };
    assert_eq!(rt; audited.delivered.as_slice(), [1, 1].as_slice());
    drop(audited);
}

// One caller's command, of which a second caller of member 1 learns.
fn talk<G: GroupName, R: Wait + Abort>(
    rt: &R,
    alloc: Global,
    service: &Service<G, NoGate, Lost>,
    one: &mut Pass<G>,
    other: &mut Pass<G>,
) {
    let ticket = ask(rt, alloc, service, one);
    expect_taken(rt, service);
    turn_all(rt, alloc, service);
    // What is not published would be waited for.
    expect_published(rt, service, 1, 1);
    assert_eq!(rt; told(service), 2);
    expect_answer(rt, service, one, ticket);
    expect_met(rt, service, one, other);
    expect_stop(rt, service, 2);
}

// Whether the service was founded; then its calls are made, and each that a refused growth ended is made again.
fn run<G: GroupName, R: Wait + Abort>(rt: &R, alloc: Global, founding: Founding) -> bool
    requires names { (founding.group ≡ G.group) × (founding.words ≡ G.vocabulary) × (founding.rows ≡ G.cells) }
    requires members { length founding.rows.sent ≡ founding.group.members }
{
    let Founding { group, words, rows } = founding;
    let found = Service::found(alloc, rows, group, words, NoGate, Lost::new());
    let service: Service<G, NoGate, Lost> = match found {
        Ok(service) => service,
        Err(_) => return false,
    };
    let mut one = new_pass(rt, &service, 1);
    let mut other = new_pass(rt, &service, 1);
    talk(rt, alloc, &service, &mut one, &mut other);
    let mut nodes = service.take_nodes();
    audits(rt, alloc, &mut nodes);
    expect_confirmed(rt, &mut nodes, &mut one);
    expect_confirmed(rt, &mut nodes, &mut other);
    drop(nodes);
    drop(one);
    drop(other);
    true
}

// A founding, and the calls of its service.
fn run_once<R: Wait + Abort>(rt: &R, alloc: Global) -> bool {
    let founding = founding_of(rt, alloc, 2, 16);
    run::<Brand, _>(rt, alloc, founding)
}

#[test]
fn calls_that_are_asked_again(rt: HostRuntime) {
    let alloc = rt.alloc();
    assert!(rt; run_once(&rt, alloc) || run_once(&rt, alloc));
}
