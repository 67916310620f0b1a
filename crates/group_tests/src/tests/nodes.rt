//! Nodes of `rbac_node` and their rows: what is published, what comes in, and what a full row takes.
ghost use Rattle.std.specs.Prelude.{◌≡◌, ◌≤◌, length};

use crate::tests::stamps::stamp;
use rbac_node::{AuditRefusal, GroupName, Node, NodeRefusal, PublishRefusal, Rows, audit};
use rbac_words::{Answer, Command, Group, Name, Stamp, Vocabulary};
use std::alloc::Global;
use std::marker::Brand;
use std::process::Abort;

// What a group is founded with, and its rows.
#[derive(Drop)]
struct Founding {
    group: Group,
    vocabulary: Vocabulary,
    rows: Rows,
}

// A group of so many, whose members may send so many messages each.
fn group_of(rt: &impl Abort, members: u32, sent_limit: u32) -> Group
    ensures { result.members ≡ members }
{
    Group::build(members, 0, sent_limit).expect(rt, "a group")
}

// The founding of a group with no words, whose sent rows have so many places.
fn founding_of(rt: &impl Abort, alloc: Global, group: Group, places: u32) -> Founding
    ensures group { result.group ≡ group }
    ensures members { length result.rows.sent ≡ group.members }
{
    let vocabulary = Vocabulary::build(Vec::new(alloc), Vec::new(alloc), Vec::new(alloc));
    let shown = group_of(rt, group.members(), places);
    Founding {
        group,
        vocabulary: vocabulary.expect(rt, "a vocabulary"),
        rows: Rows::found(alloc, shown).expect(rt, "memory"),
    }
}

// The node of member `number` of the founding that G names.
fn found<G: GroupName>(rt: &impl Abort, alloc: Global, founding: &Founding, number: u32) -> Node<G>
    requires names { (founding.now.group ≡ G.group) × (founding.now.vocabulary ≡ G.vocabulary) × (founding.now.rows ≡ G.cells) }
    requires members { length founding.now.rows.sent ≡ G.group.members }
    requires number { (1 ≤ number) × (number ≤ G.group.members) }
{
    let vocabulary = founding.vocabulary.copy().expect(rt, "memory");
    let node = Node::found(alloc, &founding.rows, founding.group, number, vocabulary);
    node.expect(rt, "memory")
}

// A new caller, whose number is this one, adds a role.
fn expect_submit<G: GroupName>(
    rt: &impl Abort,
    alloc: Global,
    node: &mut Node<G>,
    number: u32,
    wanted: Stamp,
) {
    let role = Name::read(alloc, b"r").expect(rt, "a name");
    let caller = node.new_caller().expect(rt, "a caller");
    let answer = node.submit(caller, 0, Command::AddRole { role });
    let answer = answer.map(|submission| submission.stamp);
    assert_eq!(rt; (caller, answer), (number, Ok(wanted)));
}

// A node publishes on its member's rows.
fn expect_publish<G: GroupName>(
    rt: &impl Abort,
    alloc: Global,
    rows: &Rows,
    node: &mut Node<G>,
    wanted: Result<(), PublishRefusal>,
)
    requires { (rows.now ≡ G.cells) × (length rows.now.sent ≡ G.group.members) }
{
    node.invariants();
    let number = node.member().number();
    let answer = node.publish(alloc, rows.sent(number), rows.history(number));
    assert_eq!(rt; answer, wanted);
}

// A node receives the next message of another member.
fn expect_receipt<G: GroupName>(
    rt: &impl Abort,
    rows: &Rows,
    node: &mut Node<G>,
    from: u32,
    wanted: Result<Option<Stamp>, NodeRefusal>,
)
    requires rows { (rows.now ≡ G.cells) × (length rows.now.sent ≡ G.group.members) }
    requires from { (1 ≤ from) × (from ≤ G.group.members) }
{
    node.invariants();
    assert!(rt; from != node.member().number());
    let answer = node.receive_next(from, rows.sent(from));
    assert_eq!(rt; answer, wanted);
}

// A node delivers one command.
fn expect_delivery<G: GroupName>(rt: &impl Abort, alloc: Global, node: &mut Node<G>, place: usize) {
    let answer = node.deliver(alloc).expect(rt, "memory");
    assert_eq!(rt; answer, Some(place));
}

// A node delivers all that is due.
fn expect_deliveries<G: GroupName>(
    rt: &impl Abort,
    alloc: Global,
    node: &mut Node<G>,
    wanted: usize,
) {
    let answer = node.deliver_all(alloc).expect(rt, "memory");
    assert_eq!(rt; answer, wanted);
}

// The first command that a node delivered has this stamp, and was done.
fn expect_done<G: GroupName>(rt: &impl Abort, node: &Node<G>, wanted: Stamp) {
    let record = node.member().history().first().expect(rt, "a record");
    assert_eq!(rt; record.stamp, wanted);
    assert!(rt; record.answer.same(&Answer::Done));
}

// Where a node's clock is.
fn expect_clock<G: GroupName>(rt: &impl Abort, node: &Node<G>, wanted: u64) {
    assert_eq!(rt; node.member().clock(), wanted);
}

// How many messages and records a node has published.
fn expect_published<G: GroupName>(rt: &impl Abort, node: &Node<G>, wanted: (usize, usize)) {
    let published = (node.published(), node.published_records());
    assert!(rt; published == wanted);
}

// Member 1 sends a command, member 2 receives it once it is shown and acknowledges it, and both deliver it.
fn exchange<G: GroupName>(
    rt: &impl Abort,
    alloc: Global,
    rows: &Rows,
    one: &mut Node<G>,
    two: &mut Node<G>,
)
    requires rows { (rows.now ≡ G.cells) × (length rows.now.sent ≡ G.group.members) }
    requires two { G.group.members ≡ 2 }
{
    expect_submit(rt, alloc, one, 0, stamp(1, 1));
    expect_receipt(rt, rows, two, 1, Err(NodeRefusal::NotShown));
    expect_publish(rt, alloc, rows, one, Ok(()));
    expect_receipt(rt, rows, two, 1, Ok(Some(stamp(3, 2))));
    expect_delivery(rt, alloc, two, 0);
    expect_done(rt, two, stamp(1, 1));
    expect_publish(rt, alloc, rows, two, Ok(()));
    expect_receipt(rt, rows, one, 2, Ok(None));
    expect_clock(rt, one, 4);
    expect_deliveries(rt, alloc, one, 1);
    expect_done(rt, one, stamp(1, 1));
    expect_deliveries(rt, alloc, one, 0);
}

// Member 1 sends a second command, which member 2 takes as the next message, and both deliver it.
fn exchange_again<G: GroupName>(
    rt: &impl Abort,
    alloc: Global,
    rows: &Rows,
    one: &mut Node<G>,
    two: &mut Node<G>,
)
    requires rows { (rows.now ≡ G.cells) × (length rows.now.sent ≡ G.group.members) }
    requires two { G.group.members ≡ 2 }
{
    expect_submit(rt, alloc, one, 1, stamp(5, 1));
    expect_publish(rt, alloc, rows, one, Ok(()));
    expect_receipt(rt, rows, two, 1, Ok(Some(stamp(7, 2))));
    expect_delivery(rt, alloc, two, 1);
    expect_publish(rt, alloc, rows, two, Ok(()));
    expect_receipt(rt, rows, one, 2, Ok(None));
    expect_clock(rt, one, 8);
    expect_deliveries(rt, alloc, one, 1);
}

// Whether nodes are refused as a group, which are dropped here.
fn is_no_group<G: GroupName>(alloc: Global, mut nodes: [Node<G>; 2]) -> bool {
    let is = matches!(audit(alloc, &mut nodes), Err(AuditRefusal::NotAGroup));
    drop(nodes);
    is
}

// Two nodes in order of number are a group, whose members have each delivered so many commands, and in the other order they are none.
fn audits<G: GroupName>(rt: &impl Abort, alloc: Global, mut nodes: [Node<G>; 2], count: usize) {
    let audited = audit(alloc, &mut nodes).expect(rt, "a group");
    assert_eq!(rt; audited.delivered.as_slice(), [count, count].as_slice());
    drop(audited);
    nodes.reverse();
    assert!(rt; is_no_group(alloc, nodes));
}

// What two nodes say to each other of one command.
fn talk_once<G: GroupName, R: Abort>(rt: &R, alloc: Global, founding: &Founding)
    requires names { (founding.now.group ≡ G.group) × (founding.now.vocabulary ≡ G.vocabulary) × (founding.now.rows ≡ G.cells) }
    requires two { (G.group.members ≡ 2) × (length founding.now.rows.sent ≡ 2) }
{
    let mut one: Node<G> = found(rt, alloc, founding, 1);
    let mut two: Node<G> = found(rt, alloc, founding, 2);
    exchange(rt, alloc, &founding.rows, &mut one, &mut two);
    audits(rt, alloc, [one, two], 1);
}

#[test]
fn two_nodes_deliver_a_command(rt: HostRuntime) {
    let founding = founding_of(&rt, rt.alloc(), group_of(&rt, 2, 4), 4);
    talk_once::<Brand, _>(&rt, rt.alloc(), &founding);
    drop(founding);
}

// What two nodes say to each other of two commands.
fn talk<G: GroupName, R: Abort>(rt: &R, alloc: Global, founding: &Founding)
    requires names { (founding.now.group ≡ G.group) × (founding.now.vocabulary ≡ G.vocabulary) × (founding.now.rows ≡ G.cells) }
    requires two { (G.group.members ≡ 2) × (length founding.now.rows.sent ≡ 2) }
{
    let mut one: Node<G> = found(rt, alloc, founding, 1);
    let mut two: Node<G> = found(rt, alloc, founding, 2);
    exchange(rt, alloc, &founding.rows, &mut one, &mut two);
    expect_published(rt, &one, (1, 0));
    expect_published(rt, &two, (1, 1));
    exchange_again(rt, alloc, &founding.rows, &mut one, &mut two);
    expect_published(rt, &one, (2, 1));
    expect_published(rt, &two, (2, 2));
    audits(rt, alloc, [one, two], 2);
}

#[test]
fn two_nodes_deliver_two_commands(rt: HostRuntime) {
    let founding = founding_of(&rt, rt.alloc(), group_of(&rt, 2, 4), 4);
    talk::<Brand, _>(&rt, rt.alloc(), &founding);
    drop(founding);
}

// A member sends two messages, and its row has one place.
fn fill<G: GroupName, R: Abort>(rt: &R, alloc: Global, founding: &Founding)
    requires names { (founding.now.group ≡ G.group) × (founding.now.vocabulary ≡ G.vocabulary) × (founding.now.rows ≡ G.cells) }
    requires one { (G.group.members ≡ 1) × (length founding.now.rows.sent ≡ 1) }
{
    let mut node: Node<G> = found(rt, alloc, founding, 1);
    expect_submit(rt, alloc, &mut node, 0, stamp(1, 1));
    expect_submit(rt, alloc, &mut node, 1, stamp(2, 1));
    let full = Err(PublishRefusal::RowFull);
    expect_publish(rt, alloc, &founding.rows, &mut node, full);
    expect_published(rt, &node, (1, 0));
    drop(node);
}

#[test]
fn a_full_row_takes_no_more(rt: HostRuntime) {
    let alone = group_of(&rt, 1, 4);
    let founding = founding_of(&rt, rt.alloc(), alone, 1);
    fill::<Brand, _>(&rt, rt.alloc(), &founding);
    drop(founding);
}

// Member 2 reads what another node of member 1 has published. This one has sent it too, and has published nothing.
fn read_too_much<G: GroupName, R: Abort>(rt: &R, alloc: Global, founding: &Founding)
    requires names { (founding.now.group ≡ G.group) × (founding.now.vocabulary ≡ G.vocabulary) × (founding.now.rows ≡ G.cells) }
    requires two { (G.group.members ≡ 2) × (length founding.now.rows.sent ≡ 2) }
{
    let mut one: Node<G> = found(rt, alloc, founding, 1);
    let mut twin: Node<G> = found(rt, alloc, founding, 1);
    let mut two: Node<G> = found(rt, alloc, founding, 2);
    expect_submit(rt, alloc, &mut one, 0, stamp(1, 1));
    expect_submit(rt, alloc, &mut twin, 0, stamp(1, 1));
    expect_publish(rt, alloc, &founding.rows, &mut twin, Ok(()));
    drop(twin);
    expect_receipt(rt, &founding.rows, &mut two, 1, Ok(Some(stamp(3, 2))));
    assert!(rt; is_no_group(alloc, [one, two]));
}

#[test]
fn what_was_not_published_is_of_no_group(rt: HostRuntime) {
    let founding = founding_of(&rt, rt.alloc(), group_of(&rt, 2, 4), 4);
    read_too_much::<Brand, _>(&rt, rt.alloc(), &founding);
    drop(founding);
}
