//! Passes of `rbac_node`: two callers of a member that is alone in its group, and passes of others.
ghost use Rattle.std.specs.Prelude.{◌≡◌, ◌≤◌, length};
ghost use Rattle.rbac_node.specs.Pass.{Owns};

use rbac_node::{
    AuditRefusal, GroupName, MeetRefusal, Node, Pass, Rows, ServiceRefusal, Ticket, audit,
};
use rbac_words::{Answer, Command, Group, Name, NameSet, Review, Vocabulary};
use std::alloc::Global;
use std::marker::Brand;
use std::process::Abort;

fn ann(rt: &impl Abort, alloc: Global) -> Name {
    Name::read(alloc, b"ann").expect(rt, "a name")
}

// The command that adds ann.
fn add_ann(rt: &impl Abort, alloc: Global) -> Command {
    let user = ann(rt, alloc);
    Command::AddUser { user }
}

// The command that asks for the roles of ann.
fn roles_of_ann(rt: &impl Abort, alloc: Global) -> Command {
    let user = ann(rt, alloc);
    Command::Review(Review::AssignedRoles { user })
}

// A pass of a new caller of a node.
fn new_pass<G: GroupName>(rt: &impl Abort, rows: &Rows, node: &mut Node<G>) -> Pass<G>
    requires rows { (rows.now ≡ G.cells) × (G.group.members ≤ length rows.now.sent) }
{
    node.invariants();
    let number = node.member().number();
    let pass = node.enroll(rows.history(number)).expect(rt, "a pass");
    assert_eq!(rt;
        (pass.member(), pass.is_waiting(), pass.front_len()),
        (number, false, 0)
    );
    pass
}

// Submits a command, and the ticket is the pass's own.
fn ask<G: GroupName>(
    rt: &impl Abort,
    pass: &mut Pass<G>,
    node: &mut Node<G>,
    command: Command,
) -> Ticket
    ensures { Owns pass.new result }
{
    let ticket = pass.submit(node, command).expect(rt, "a ticket");
    assert!(rt; pass.owns(&ticket));
    ticket
}

// Submits a command in vain.
fn expect_refusal<G: GroupName>(
    rt: &impl Abort,
    pass: &mut Pass<G>,
    node: &mut Node<G>,
    command: Command,
    wanted: ServiceRefusal,
)
    ensures { pass.new ≡ pass.old }
{
    let refusal = pass.submit(node, command).err().expect(rt, "a refusal");
    assert_eq!(rt; refusal, wanted);
}

// There is no answer yet.
fn expect_none<G: GroupName>(
    rt: &impl Abort,
    pass: &mut Pass<G>,
    node: &mut Node<G>,
    ticket: &mut Ticket,
)
    requires { Owns pass.old ticket.old }
    ensures { Owns pass.new ticket.new }
{
    let found = pass.answered(node, ticket).expect(rt, "memory");
    assert!(rt; found.is_none());
}

// Takes the answer, and compares it and its place.
fn expect_answer<G: GroupName>(
    rt: &impl Abort,
    pass: &mut Pass<G>,
    node: &mut Node<G>,
    ticket: &mut Ticket,
    place: usize,
    answer: Answer,
)
    requires { Owns pass.old ticket.old }
{
    let found = pass.answered(node, ticket).expect(rt, "memory");
    let receipt = found.expect(rt, "an answer");
    assert_eq!(rt; receipt.place, place);
    assert!(rt; receipt.answer.same(&answer));
    drop(receipt);
    drop(answer);
}

// How much both passes know.
fn front_lens<G: GroupName>(writer: &Pass<G>, reader: &Pass<G>) -> (usize, usize) {
    (writer.front_len(), reader.front_len())
}

fn expect_confirmed<G: GroupName>(
    rt: &impl Abort,
    node: &mut Node<G>,
    pass: &mut Pass<G>,
    wanted: bool,
) {
    assert_eq!(rt; node.confirms(pass), wanted);
}

fn expect_meeting<G: GroupName>(
    rt: &impl Abort,
    pass: &mut Pass<G>,
    other: &mut Pass<G>,
    wanted: Result<(), MeetRefusal>,
) {
    assert_eq!(rt; pass.meet(other), wanted);
}

// Delivers and publishes all that it can.
fn settle<G: GroupName>(rt: &impl Abort, alloc: Global, rows: &Rows, node: &mut Node<G>)
    requires rows { (rows.now ≡ G.cells) × (G.group.members ≤ length rows.now.sent) }
{
    node.deliver_all(alloc).expect(rt, "memory");
    node.invariants();
    let number = node.member().number();
    let published = node.publish(alloc, rows.sent(number), rows.history(number));
    published.expect(rt, "room");
}

// A command is submitted, and answered once its record is published. Until then the pass is busy.
fn expect_answered<G: GroupName>(
    rt: &impl Abort,
    alloc: Global,
    rows: &Rows,
    node: &mut Node<G>,
    command: Command,
    pass: &mut Pass<G>,
    place: usize,
    answer: Answer,
)
    requires rows { (rows.now ≡ G.cells) × (G.group.members ≤ length rows.now.sent) }
{
    let mut ticket = ask(rt, pass, node, command);
    let busy = ServiceRefusal::Busy;
    expect_refusal(rt, pass, node, add_ann(rt, alloc), busy);
    expect_none(rt, pass, node, &mut ticket);
    node.deliver_all(alloc).expect(rt, "memory");
    expect_none(rt, pass, node, &mut ticket);
    settle(rt, alloc, rows, node);
    expect_answer(rt, pass, node, &mut ticket, place, answer);
    drop(ticket);
}

// A node of this member of the founding that G names.
fn new_node<G: GroupName>(
    rt: &impl Abort,
    alloc: Global,
    rows: &Rows,
    group: Group,
    number: u32,
    vocabulary: &Vocabulary,
) -> Node<G>
    requires names { (group ≡ G.group) × (vocabulary.now ≡ G.vocabulary) × (rows.now ≡ G.cells) }
    requires number { (1 ≤ number) × (number ≤ group.members) × (group.members ≤ length rows.now.sent) }
{
    let vocabulary = vocabulary.copy().expect(rt, "memory");
    let found = Node::found(alloc, rows, group, number, vocabulary);
    found.expect(rt, "memory")
}

// A pass of another member, and one of a caller whose number the node did not give, are foreign, after Stopped and Busy.
fn strangers<G: GroupName, R: Abort>(
    rt: &R,
    alloc: Global,
    rows: &Rows,
    group: Group,
    vocabulary: Vocabulary,
)
    requires names { (group ≡ G.group) × (vocabulary ≡ G.vocabulary) × (rows.now ≡ G.cells) }
    requires rows { (group.members ≡ 2) × (length rows.now.sent ≡ 2) }
{
    let mut node: Node<G> = new_node(rt, alloc, rows, group, 1, &vocabulary);
    let mut neighbour: Node<G> = new_node(rt, alloc, rows, group, 2, &vocabulary);
    let mut twin: Node<G> = new_node(rt, alloc, rows, group, 1, &vocabulary);
    let mut first = new_pass(rt, rows, &mut node);
    let mut other = new_pass(rt, rows, &mut neighbour);
    let given = new_pass(rt, rows, &mut twin);
    let mut unknown = new_pass(rt, rows, &mut twin);
    expect_confirmed(rt, &mut node, &mut other, false);
    expect_meeting(rt, &mut first, &mut other, Err(MeetRefusal::OtherMember));
    let foreign = ServiceRefusal::Foreign;
    expect_refusal(rt, &mut other, &mut node, add_ann(rt, alloc), foreign);
    expect_refusal(rt, &mut unknown, &mut node, add_ann(rt, alloc), foreign);
    let ticket = ask(rt, &mut other, &mut neighbour, add_ann(rt, alloc));
    expect_refusal(
        rt,
        &mut other,
        &mut node,
        add_ann(rt, alloc),
        ServiceRefusal::Busy,
    );
    node.stop();
    let stopped = ServiceRefusal::Stopped;
    expect_refusal(rt, &mut first, &mut node, add_ann(rt, alloc), stopped);
    expect_refusal(rt, &mut other, &mut node, add_ann(rt, alloc), stopped);
    expect_refusal(rt, &mut unknown, &mut node, add_ann(rt, alloc), stopped);
    drop(ticket);
    drop(given);
    drop(unknown);
    drop(other);
    drop(first);
    drop(twin);
    drop(neighbour);
    drop(node);
    drop(vocabulary);
}

fn is_no_group<G: GroupName>(alloc: Global, nodes: &mut [Node<G>]) -> bool {
    matches!(audit(alloc, nodes), Err(AuditRefusal::NotAGroup))
}

// The node alone is the group, and nothing else is.
fn audits<G: GroupName>(rt: &impl Abort, alloc: Global, node: Node<G>) {
    let mut none: [Node<G>; 0] = [];
    assert!(rt; is_no_group(alloc, &mut none));
    let mut nodes = [node];
    let audited = audit(alloc, &mut nodes).expect(rt, "a group");
    assert_eq!(rt; audited.delivered.as_slice(), [2].as_slice());
    drop(audited);
    drop(nodes);
}

// What the two callers do, at member 1 of the founding that G names, which has rows for a second member.
fn two_callers<G: GroupName, R: Abort>(
    rt: &R,
    alloc: Global,
    rows: &Rows,
    group: Group,
    vocabulary: Vocabulary,
)
    requires names { (group ≡ G.group) × (vocabulary ≡ G.vocabulary) × (rows.now ≡ G.cells) }
    requires rows { (group.members ≡ 1) × (length rows.now.sent ≡ 2) }
{
    let found = Node::found(alloc, rows, group, 1, vocabulary);
    let mut node: Node<G> = found.expect(rt, "memory");
    let mut writer = new_pass(rt, rows, &mut node);
    let mut reader = new_pass(rt, rows, &mut node);
    let (added, none) = (add_ann(rt, alloc), Answer::Names(NameSet::new(alloc)));
    expect_answered(
        rt,
        alloc,
        rows,
        &mut node,
        added,
        &mut writer,
        0,
        Answer::Done,
    );
    let asked = roles_of_ann(rt, alloc);
    expect_answered(rt, alloc, rows, &mut node, asked, &mut reader, 1, none);
    assert_eq!(rt; front_lens(&writer, &reader), (1, 2));
    expect_meeting(rt, &mut writer, &mut reader, Ok(()));
    assert_eq!(rt; front_lens(&writer, &reader), (2, 2));
    expect_confirmed(rt, &mut node, &mut writer, true);
    expect_confirmed(rt, &mut node, &mut reader, true);
    drop(writer);
    drop(reader);
    audits(rt, alloc, node);
}

#[test]
fn two_callers_of_one_member(rt: HostRuntime) {
    let alloc = rt.alloc();
    let wider = Group::build(2, 0, 8).expect(&rt, "a group");
    let rows = Rows::found(alloc, wider).expect(&rt, "memory");
    let alone = Group::build(1, 0, 8).expect(&rt, "a group");
    let words = Vocabulary::build(Vec::new(alloc), Vec::new(alloc), Vec::new(alloc));
    let words = words.expect(&rt, "a vocabulary");
    two_callers::<Brand, _>(&rt, alloc, &rows, alone, words);
    drop(rows);
}

#[test]
fn passes_of_others_are_foreign(rt: HostRuntime) {
    let alloc = rt.alloc();
    let group = Group::build(2, 0, 8).expect(&rt, "a group");
    let rows = Rows::found(alloc, group).expect(&rt, "memory");
    let words = Vocabulary::build(Vec::new(alloc), Vec::new(alloc), Vec::new(alloc));
    let words = words.expect(&rt, "a vocabulary");
    strangers::<Brand, _>(&rt, alloc, &rows, group, words);
    drop(rows);
}
