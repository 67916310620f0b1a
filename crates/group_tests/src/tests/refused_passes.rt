//! Calls of a node and of passes, made again where a growth is refused, and what a refusal leaves. With ample memory each goes well at
//! once; `bench/hostile/refuse_each_growth` runs these tests with each growth refused in turn.
ghost use Rattle.std.specs.Prelude.{◌≡◌, ◌≤◌, length};
ghost use Rattle.rbac_node.specs.Pass.{Owns};

use rbac_node::{
    AuditRefusal, GroupName, MeetRefusal, Node, Pass, PublishRefusal, Receipt, Rows,
    ServiceRefusal, Ticket, audit,
};
use rbac_words::{Answer, Command, Group, Name, Vocabulary};
use std::alloc::Global;
use std::marker::Brand;
use std::process::Abort;

fn add_ann(rt: &impl Abort, alloc: Global) -> Command {
    let user = match Name::read(alloc, b"ann") {
        Ok(name) => name,
        Err(_) => Name::read(alloc, b"ann").expect(rt, "a name"),
    };
    Command::AddUser { user }
}

// A pass of a new caller of a node.
fn new_pass<G: GroupName>(rt: &impl Abort, rows: &Rows, node: &mut Node<G>) -> Pass<G>
    requires rows { (rows.now ≡ G.cells) × (G.group.members ≤ length rows.now.sent) }
{
    node.invariants();
    let number = node.member().number();
    node.enroll(rows.history(number)).expect(rt, "a pass")
}

// Submits a command, again where a growth is refused, which leaves the pass and the node as they were.
fn ask<G: GroupName>(
    rt: &impl Abort,
    alloc: Global,
    pass: &mut Pass<G>,
    node: &mut Node<G>,
) -> Ticket
    ensures { Owns pass.new result }
{
    let ticket = match pass.submit(node, add_ann(rt, alloc)) {
        Ok(ticket) => ticket,
        Err(refusal) => {
            assert_eq!(rt; refusal, ServiceRefusal::NoMemory);
            assert_eq!(rt; (pass.is_waiting(), node.member().clock()), (false, 0));
            pass.submit(node, add_ann(rt, alloc)).expect(rt, "memory")
        }
    };
    assert!(rt; pass.owns(&ticket));
    ticket
}

// Delivers, again where a growth is refused.
fn deliver<G: GroupName>(rt: &impl Abort, alloc: Global, node: &mut Node<G>) {
    let delivered = match node.deliver_all(alloc) {
        Ok(delivered) => delivered,
        Err(_) => node.deliver_all(alloc).expect(rt, "memory"),
    };
    assert_eq!(rt; delivered, 1);
}

// Publishes on the rows of a node's member.
fn publish<G: GroupName>(
    alloc: Global,
    rows: &Rows,
    node: &mut Node<G>,
) -> Result<(), PublishRefusal>
    requires rows { (rows.now ≡ G.cells) × (G.group.members ≤ length rows.now.sent) }
{
    node.invariants();
    let number = node.member().number();
    node.publish(alloc, rows.sent(number), rows.history(number))
}

// Publishes, and goes on from there where a growth is refused.
fn expect_published<G: GroupName>(rt: &impl Abort, alloc: Global, rows: &Rows, node: &mut Node<G>)
    requires rows { (rows.now ≡ G.cells) × (G.group.members ≤ length rows.now.sent) }
{
    let published = publish(alloc, rows, node);
    if published.is_err() {
        assert!(rt; published == Err(PublishRefusal::NoMemory));
        assert!(rt; node.published() <= 1 && node.published_records() <= 1);
        publish(alloc, rows, node).expect(rt, "memory");
    }
    assert_eq!(rt; (node.published(), node.published_records()), (1, 1));
}

// The answer of a ticket, taken again where a growth is refused.
fn answered<G: GroupName>(
    rt: &impl Abort,
    pass: &mut Pass<G>,
    node: &mut Node<G>,
    ticket: &mut Ticket,
) -> Receipt
    requires { Owns pass.old ticket.old }
{
    let found = match pass.answered(node, ticket) {
        Ok(found) => found,
        Err(_) => pass.answered(node, ticket).expect(rt, "memory"),
    };
    found.expect(rt, "an answer")
}

// The command was done, at the first place of the history.
fn expect_answer<G: GroupName>(
    rt: &impl Abort,
    pass: &mut Pass<G>,
    node: &mut Node<G>,
    ticket: &mut Ticket,
)
    requires { Owns pass.old ticket.old }
{
    let receipt = answered(rt, pass, node, ticket);
    assert_eq!(rt; receipt.place, 0);
    assert!(rt; receipt.answer.same(&Answer::Done));
    drop(receipt);
}

// Both passes know as much, once they met, again where a growth is refused.
fn expect_meeting<G: GroupName>(rt: &impl Abort, pass: &mut Pass<G>, other: &mut Pass<G>) {
    let met = pass.meet(other);
    if met.is_err() {
        assert!(rt; met == Err(MeetRefusal::NoMemory));
        pass.meet(other).expect(rt, "memory");
    }
    assert_eq!(rt; (pass.front_len(), other.front_len()), (1, 1));
}

// The node alone is the group, which is asked again where a growth is refused.
fn audits<G: GroupName>(rt: &impl Abort, alloc: Global, node: Node<G>) {
    let mut nodes = [node];
    let audited = match audit(alloc, &mut nodes) {
        Ok(audited) => audited,
        Err(refusal) => {
            assert!(rt; refusal == AuditRefusal::NoMemory);
            audit(alloc, &mut nodes).expect(rt, "memory")
        }
    };
    assert_eq!(rt; audited.delivered.as_slice(), [1].as_slice());
    drop(nodes);
}

fn no_words(rt: &impl Abort, alloc: Global) -> Vocabulary {
    let built = Vocabulary::build(Vec::new(alloc), Vec::new(alloc), Vec::new(alloc));
    built.expect(rt, "a vocabulary")
}

// The node of member 1 of the founding that G names.
fn new_node<G: GroupName>(
    rt: &impl Abort,
    alloc: Global,
    rows: &Rows,
    group: Group,
    vocabulary: &Vocabulary,
) -> Node<G>
    requires names { (group ≡ G.group) × (vocabulary.now ≡ G.vocabulary) × (rows.now ≡ G.cells) }
    requires rows { (1 ≤ group.members) × (group.members ≤ length rows.now.sent) }
{
    let words = vocabulary.copy().expect(rt, "memory");
    match Node::found(alloc, rows, group, 1, words) {
        Ok(node) => node,
        Err(_) => {
            let words = vocabulary.copy().expect(rt, "memory");
            let again = Node::found(alloc, rows, group, 1, words);
            again.expect(rt, "memory")
        }
    }
}

// One caller's command, of which a second caller learns, at member 1 of the founding that G names.
fn one_command<G: GroupName, R: Abort>(
    rt: &R,
    alloc: Global,
    rows: &Rows,
    group: Group,
    vocabulary: Vocabulary,
)
    requires names { (group ≡ G.group) × (vocabulary ≡ G.vocabulary) × (rows.now ≡ G.cells) }
    requires rows { (group.members ≡ 1) × (length rows.now.sent ≡ 1) }
{
    let mut node: Node<G> = new_node(rt, alloc, rows, group, &vocabulary);
    let mut writer = new_pass(rt, rows, &mut node);
    let mut reader = new_pass(rt, rows, &mut node);
    let mut ticket = ask(rt, alloc, &mut writer, &mut node);
    deliver(rt, alloc, &mut node);
    expect_published(rt, alloc, rows, &mut node);
    expect_answer(rt, &mut writer, &mut node, &mut ticket);
    drop(ticket);
    expect_meeting(rt, &mut reader, &mut writer);
    drop(writer);
    drop(reader);
    audits(rt, alloc, node);
    drop(vocabulary);
}

#[test]
fn a_command_of_a_node_that_is_asked_again(rt: HostRuntime) {
    let alloc = rt.alloc();
    let group = Group::build(1, 0, 2).expect(&rt, "a group");
    let rows = match Rows::found(alloc, group) {
        Ok(rows) => rows,
        Err(_) => Rows::found(alloc, group).expect(&rt, "memory"),
    };
    one_command::<Brand, _>(&rt, alloc, &rows, group, no_words(&rt, alloc));
    drop(rows);
}
