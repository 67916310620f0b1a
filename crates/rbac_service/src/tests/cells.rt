//! What the cells of members' rows hold, and what comes of a cell that somebody else has set.
ghost use Rattle.std.specs.Prelude.{◌≡◌, ◌≤◌, length};

use super::{
    Founding, Lost, add_ann, expect_confirmed, expect_end, expect_no_record, expect_record,
    expect_refusal, expect_stopped, founded, founding_of, new_pass, roles_of_ann, submitted,
};
use crate::{GroupName, NoGate, Node, Pass, PumpEnd, Rows, Service, ServiceRefusal, Wake};
use rbac_words::{Answer, Command, Message, NameSet, Record, SharedCommand, Stamp};
use std::alloc::Global;
use std::marker::Brand;
use std::process::Abort;
use std::sync::Wait;
use std::sync::atomic::Ordering;
use std::thread;
use std::thread::Threads;

fn is_ann_added(command: &Command) -> bool {
    match command {
        Command::AddUser { user } => user.as_bytes() == b"ann".as_slice(),
        _ => false,
    }
}

// Member 2 delivers the command of member 1 first.
fn publish_first<G: GroupName, R: Wait + Abort>(
    rt: &R,
    alloc: Global,
    service: &Service<G, NoGate, Lost>,
    one: &mut Pass<G>,
) {
    let ticket = submitted(rt, alloc, service, one, add_ann(rt, alloc));
    expect_no_record(rt, service, 2, 0);
    let _second = service.turn(rt, alloc, 2, Wake::Sweep);
    expect_record(rt, service, (2, 0), (1, 1), &Answer::Done);
    expect_no_record(rt, service, 1, 0);
    let _first = service.turn(rt, alloc, 1, Wake::Sweep);
    expect_record(rt, service, (1, 0), (1, 1), &Answer::Done);
    drop(ticket);
}

// Member 2 submits a command, and member 1 delivers it first.
fn publish_second<G: GroupName, R: Wait + Abort>(
    rt: &R,
    alloc: Global,
    service: &Service<G, NoGate, Lost>,
    other: &mut Pass<G>,
) {
    let none = Answer::Names(NameSet::new(alloc));
    let ticket = submitted(rt, alloc, service, other, roles_of_ann(rt, alloc));
    let _first = service.turn(rt, alloc, 1, Wake::Sweep);
    expect_record(rt, service, (1, 1), (4, 2), &none);
    expect_no_record(rt, service, 2, 1);
    let _second = service.turn(rt, alloc, 2, Wake::Sweep);
    expect_record(rt, service, (2, 1), (4, 2), &none);
    drop(ticket);
    drop(none);
}

// The first record of a member has the caller, the serial and the command that was submitted.
fn expect_first<G: GroupName>(rt: &impl Abort, service: &Service<G, NoGate, Lost>, at: u32) {
    let record = service.published(at, 0).expect(rt, "a record");
    assert_eq!(rt; (record.caller, record.serial), (0, 0));
    assert!(rt; is_ann_added(record.command.get()));
}

// Strangers have published nothing, and nothing stands beyond a row.
fn expect_no_more<G: GroupName>(rt: &impl Abort, service: &Service<G, NoGate, Lost>) {
    for at in 0..4u32 {
        expect_no_record(rt, service, at, 2);
        expect_no_record(rt, service, at, usize::MAX);
    }
    expect_no_record(rt, service, 0, 0);
    expect_no_record(rt, service, 3, 0);
}

fn run_published<G: GroupName, R: Wait + Abort>(rt: &R, alloc: Global, founding: Founding)
    requires names { (founding.group ≡ G.group) × (founding.words ≡ G.vocabulary) × (founding.rows ≡ G.cells) }
    requires members { length founding.rows.sent ≡ founding.group.members }
{
    let service: Service<G, NoGate, Lost> = founded(rt, alloc, founding, Lost::new());
    let mut one = new_pass(rt, &service, 1);
    let mut other = new_pass(rt, &service, 2);
    publish_first(rt, alloc, &service, &mut one);
    publish_second(rt, alloc, &service, &mut other);
    expect_first(rt, &service, 1);
    expect_first(rt, &service, 2);
    expect_no_more(rt, &service);
    drop(service);
    drop(one);
    drop(other);
}

#[test]
fn published_records_are_those_of_their_member_and_place(rt: HostRuntime) {
    let founding = founding_of(&rt, rt.alloc(), 2, 16);
    run_published::<Brand, _>(&rt, rt.alloc(), founding);
}

// A record that no member made.
fn forged(rt: &impl Abort, alloc: Global) -> Record {
    Record {
        stamp: Stamp::at(7, 1),
        caller: 0,
        serial: 0,
        command: SharedCommand::new(alloc, add_ann(rt, alloc)).expect(rt, "memory"),
        answer: Answer::Granted,
    }
}

// Sets the first cell of member 1's history row.
fn spoil_history(rt: &impl Abort, alloc: Global, rows: &Rows) {
    assert!(rt; 1 <= rows.members());
    let record = Box::new(alloc, forged(rt, alloc)).expect(rt, "memory");
    let row = rows.history(1);
    let mut mark = row.mark();
    let set = row.set(&mut mark, 0, record);
    assert!(rt; set.is_ok());
    drop(set);
    drop(mark);
}

// Sets the first cell of member 1's sent row.
fn spoil_sent(rt: &impl Abort, alloc: Global, rows: &Rows) {
    assert!(rt; 1 <= rows.members());
    let stamp = Stamp::at(7, 1);
    let message = Box::new(alloc, Message::Ack { stamp }).expect(rt, "memory");
    let row = rows.sent(1);
    let mut mark = row.mark();
    let set = row.set(&mut mark, 0, message);
    assert!(rt; set.is_ok());
    drop(set);
    drop(mark);
}

// Sets the cell in a thread of its own.
fn spoil_beside<G: GroupName + Send + Sync, R: Threads + Wait + Abort + Send + Sync>(
    rt: &R,
    alloc: Global,
    service: &Service<G, NoGate, Lost>,
) -> bool {
    thread::scope(thread::scope_env(), rt, move |scope| {
        let Ok(spoiler) = scope.spawn(move || spoil_history(rt, alloc, &service.rows)) else {
            return false;
        };
        spoiler.join(rt);
        true
    })
}

// What another thread set is got here. The member that delivers then finds its cell taken and gives up, the service is stopped, and
// its caller is told nothing of the record that is no answer.
fn run_taken<G: GroupName + Send + Sync, R: Threads + Wait + Abort + Send + Sync>(
    rt: &R,
    alloc: Global,
    founding: Founding,
)
    requires names { (founding.group ≡ G.group) × (founding.words ≡ G.vocabulary) × (founding.rows ≡ G.cells) }
    requires members { length founding.rows.sent ≡ founding.group.members }
{
    let service: Service<G, NoGate, Lost> = founded(rt, alloc, founding, Lost::new());
    assert_eq!(rt; service.pump(rt, alloc, 2), PumpEnd::UnknownMember);
    let mut pass = new_pass(rt, &service, 1);
    expect_no_record(rt, &service, 1, 0);
    assert!(rt; spoil_beside(rt, alloc, &service));
    expect_record(rt, &service, (1, 0), (7, 1), &Answer::Granted);
    expect_no_record(rt, &service, 1, 1);
    let ticket = submitted(rt, alloc, &service, &mut pass, add_ann(rt, alloc));
    expect_end(rt, alloc, &service, 1);
    expect_stopped(rt, &service, &mut pass, ticket);
    expect_refusal(rt, alloc, &mut pass, &service, ServiceRefusal::Stopped);
    expect_record(rt, &service, (1, 0), (7, 1), &Answer::Granted);
    assert_eq!(rt; pass.front_len(), 0);
    drop(service);
    drop(pass);
}

#[test]
fn a_cell_that_another_thread_set_is_seen(rt: HostRuntime) {
    let founding = founding_of(&rt, rt.alloc(), 1, 16);
    run_taken::<Brand, _>(&rt, rt.alloc(), founding);
}

// A node of member 1 beside that of the service.
fn new_twin<G: GroupName>(rt: &impl Abort, alloc: Global, founding: &Founding) -> Node<G>
    requires names { (founding.now.group ≡ G.group) × (founding.now.words ≡ G.vocabulary) × (founding.now.rows ≡ G.cells) }
    requires members { (founding.now.group.members ≡ 1) × (length founding.now.rows.sent ≡ 1) }
{
    let words = founding.words.copy().expect(rt, "memory");
    let twin = Node::found(alloc, &founding.rows, founding.group, 1, words);
    twin.expect(rt, "memory")
}

// A pass of a new caller of a node.
fn pass_of<G: GroupName>(rt: &impl Abort, rows: &Rows, node: &mut Node<G>) -> Pass<G>
    requires { (rows.now ≡ G.cells) × (G.group.members ≤ length rows.now.sent) }
{
    node.invariants();
    let number = node.member().number();
    node.enroll(rows.history(number)).expect(rt, "a pass")
}

// A node submits, delivers and publishes a command, so that its pass has a front of one record.
fn answer_by<G: GroupName>(
    rt: &impl Abort,
    alloc: Global,
    rows: &Rows,
    node: &mut Node<G>,
    pass: &mut Pass<G>,
)
    requires { (rows.now ≡ G.cells) × (G.group.members ≤ length rows.now.sent) }
{
    let submitted = pass.submit(node, add_ann(rt, alloc));
    let mut ticket = submitted.expect(rt, "a ticket");
    assert!(rt; pass.owns(&ticket));
    node.deliver_all(alloc).expect(rt, "memory");
    node.invariants();
    let number = node.member().number();
    let published = node.publish(alloc, rows.sent(number), rows.history(number));
    published.expect(rt, "room");
    let found = pass.answered(node, &mut ticket).expect(rt, "memory");
    drop(found);
    drop(ticket);
    assert_eq!(rt; pass.front_len(), 1);
}

// A pass whose front is a record that a twin of member 1 has set in the member's history row.
fn twins_pass<G: GroupName>(rt: &impl Abort, alloc: Global, founding: &Founding) -> Pass<G>
    requires names { (founding.now.group ≡ G.group) × (founding.now.words ≡ G.vocabulary) × (founding.now.rows ≡ G.cells) }
    requires members { (founding.now.group.members ≡ 1) × (length founding.now.rows.sent ≡ 1) }
{
    let mut twin = new_twin(rt, alloc, founding);
    let mut pass = pass_of(rt, &founding.rows, &mut twin);
    answer_by(rt, alloc, &founding.rows, &mut twin, &mut pass);
    drop(twin);
    pass
}

// The first node confirms the one pass, and not the other.
fn expect_confirmed_alone<G: GroupName>(
    rt: &impl Abort,
    nodes: &mut [Node<G>],
    pass: &mut Pass<G>,
    other: &mut Pass<G>,
) {
    expect_confirmed(rt, nodes, pass);
    let node = nodes.first_mut().expect(rt, "a node");
    assert!(rt; !node.confirms(other));
}

// Cells of the member's rows are set by its twin. The member gives up, and does not confirm what was answered by them.
fn run_twin<G: GroupName, R: Wait + Abort>(rt: &R, alloc: Global, founding: Founding)
    requires names { (founding.group ≡ G.group) × (founding.words ≡ G.vocabulary) × (founding.rows ≡ G.cells) }
    requires members { (founding.group.members ≡ 1) × (length founding.rows.sent ≡ 1) }
{
    let mut other = twins_pass(rt, alloc, &founding);
    let service: Service<G, NoGate, Lost> = founded(rt, alloc, founding, Lost::new());
    let mut pass = new_pass(rt, &service, 1);
    expect_record(rt, &service, (1, 0), (1, 1), &Answer::Done);
    let ticket = submitted(rt, alloc, &service, &mut pass, roles_of_ann(rt, alloc));
    expect_end(rt, alloc, &service, 1);
    expect_stopped(rt, &service, &mut pass, ticket);
    let mut nodes = service.take_nodes();
    expect_confirmed_alone(rt, &mut nodes, &mut pass, &mut other);
    drop(nodes);
    drop(pass);
    drop(other);
}

#[test]
fn an_answer_by_cells_that_were_taken_is_not_confirmed(rt: HostRuntime) {
    let founding = founding_of(&rt, rt.alloc(), 1, 16);
    run_twin::<Brand, _>(&rt, rt.alloc(), founding);
}

// What can't be published has its ticket, and nobody is told of it. The member gives up at its next turn.
fn run_unpublished<G: GroupName, R: Wait + Abort>(rt: &R, alloc: Global, founding: Founding)
    requires names { (founding.group ≡ G.group) × (founding.words ≡ G.vocabulary) × (founding.rows ≡ G.cells) }
    requires members { length founding.rows.sent ≡ founding.group.members }
{
    let service: Service<G, NoGate, Lost> = founded(rt, alloc, founding, Lost::new());
    let mut pass = new_pass(rt, &service, 1);
    spoil_sent(rt, alloc, &service.rows);
    let ticket = submitted(rt, alloc, &service, &mut pass, add_ann(rt, alloc));
    assert_eq!(rt; service.courier.told.load(Ordering::SeqCst), 0);
    expect_end(rt, alloc, &service, 1);
    expect_stopped(rt, &service, &mut pass, ticket);
    drop(service);
    drop(pass);
}

#[test]
fn nobody_is_told_of_what_is_not_published(rt: HostRuntime) {
    let founding = founding_of(&rt, rt.alloc(), 2, 16);
    run_unpublished::<Brand, _>(&rt, rt.alloc(), founding);
}
