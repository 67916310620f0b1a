//! A service whose members take turns in place of threads.
ghost use Rattle.std.specs.Prelude.{◌≡◌, length};
ghost use Rattle.rbac_node.specs.Pass.{Owns};

mod alone;
mod cells;
mod helping;
mod hints;
mod refused_calls;

use crate::{
    AuditRefusal, AwaitRefusal, CallRefusal, Courier, EnrollRefusal, Gate, GroupName, Hint,
    MeetRefusal, NoGate, Node, Pass, PumpEnd, Rows, Service, ServiceRefusal, Ticket, Wake, audit,
};
use rbac_words::{Answer, Command, Denial, Group, Name, NameSet, Review, Vocabulary};
use std::alloc::Global;
use std::error::Error;
use std::fmt::InlineText;
use std::marker::Brand;
use std::process::Abort;
use std::sync::Wait;
use std::sync::atomic::{AtomicU64, Ordering};

// Loses every hint, and counts them and the wakes that were asked of it.
#[derive(Drop)]
struct Lost {
    told: AtomicU64,
    asked: AtomicU64,
}

impl Lost {
    fn new() -> Lost {
        Lost {
            told: AtomicU64::new(0),
            asked: AtomicU64::new(0),
        }
    }
}

impl Courier for Lost {
    fn tell(&self, _to: u32, _hint: Hint) {
        self.told.fetch_add(1, Ordering::SeqCst);
    }

    fn next(&self, _at: u32) -> Wake {
        self.asked.fetch_add(1, Ordering::SeqCst);
        Wake::Sweep
    }
}

// A name, which is read again where a growth is refused.
pub(crate) fn name(rt: &impl Abort, alloc: Global, text: &str) -> Name {
    match Name::read(alloc, text.as_bytes()) {
        Ok(name) => name,
        Err(_) => Name::read(alloc, text.as_bytes()).expect(rt, "a name"),
    }
}

// The command that adds ann.
pub(crate) fn add_ann(rt: &impl Abort, alloc: Global) -> Command {
    let user = name(rt, alloc, "ann");
    Command::AddUser { user }
}

// The command that asks for the roles of ann.
fn roles_of_ann(rt: &impl Abort, alloc: Global) -> Command {
    let user = name(rt, alloc, "ann");
    Command::Review(Review::AssignedRoles { user })
}

// What a group is founded with, and its rows.
#[derive(Drop)]
pub(crate) struct Founding {
    pub(crate) group: Group,
    pub(crate) words: Vocabulary,
    pub(crate) rows: Rows,
}

// The founding of so many members with these words, who may send so much. Its rows are made again where a growth is refused.
fn founding_with(
    rt: &impl Abort,
    alloc: Global,
    members: u32,
    sent_limit: u32,
    words: Vocabulary,
) -> Founding
    ensures members { result.group.members ≡ members }
    ensures rows { length result.rows.sent ≡ members }
{
    let group = Group::build(members, 0, sent_limit).expect(rt, "a group");
    let rows = match Rows::found(alloc, group) {
        Ok(rows) => rows,
        Err(_) => Rows::found(alloc, group).expect(rt, "memory"),
    };
    Founding { group, words, rows }
}

// The founding of so many members with no words, who may send so much.
pub(crate) fn founding_of(rt: &impl Abort, alloc: Global, members: u32, sent_limit: u32) -> Founding
    ensures members { result.group.members ≡ members }
    ensures rows { length result.rows.sent ≡ members }
{
    let words = Vocabulary::build(Vec::new(alloc), Vec::new(alloc), Vec::new(alloc));
    let words = words.expect(rt, "a vocabulary");
    founding_with(rt, alloc, members, sent_limit, words)
}

fn names_of(rt: &impl Abort, alloc: Global, texts: &[&str]) -> Vec<Name> {
    let mut names = Vec::new(alloc);
    for text in texts {
        names.push(name(rt, alloc, text)).expect(rt, "memory");
    }
    names
}

// The permissions of these operations, each on the object at its place.
fn permissions_of(
    rt: &impl Abort,
    alloc: Global,
    operations: &[&str],
    objects: &[&str],
) -> Vec<(Name, Name)> {
    let mut permissions = Vec::new(alloc);
    for (operation, object) in operations.iter().zip(objects) {
        let pair = (name(rt, alloc, operation), name(rt, alloc, object));
        permissions.push(pair).expect(rt, "memory");
    }
    permissions
}

// The founding of so many members with the words of the sample: three operations, two objects and three permissions.
pub(crate) fn sample_founding(rt: &impl Abort, alloc: Global, members: u32) -> Founding
    ensures members { result.group.members ≡ members }
    ensures rows { length result.rows.sent ≡ members }
{
    let operations = ["approve", "pay", "read"];
    let words = Vocabulary::build(
        names_of(rt, alloc, &operations),
        names_of(rt, alloc, &["invoice", "ledger"]),
        permissions_of(rt, alloc, &operations, &["invoice", "invoice", "ledger"]),
    );
    let words = words.expect(rt, "a vocabulary");
    founding_with(rt, alloc, members, 64, words)
}

// The command that asks whether a session that is not there may read the ledger.
pub(crate) fn check(rt: &impl Abort, alloc: Global) -> Command {
    Command::CheckAccess {
        session: name(rt, alloc, "s1"),
        operation: name(rt, alloc, "read"),
        object: name(rt, alloc, "ledger"),
    }
}

// The service of the founding that G names, with this courier.
pub(crate) fn founded<G: GroupName, C: Courier + Drop>(
    rt: &impl Abort,
    alloc: Global,
    founding: Founding,
    courier: C,
) -> Service<G, NoGate, C>
    requires names { (founding.group ≡ G.group) × (founding.words ≡ G.vocabulary) × (founding.rows ≡ G.cells) }
    requires members { length founding.rows.sent ≡ founding.group.members }
    ensures { result.rows ≡ founding.rows }
{
    let Founding { group, words, rows } = founding;
    let service = Service::found(alloc, rows, group, words, NoGate, courier);
    service.expect(rt, "memory")
}

pub(crate) fn new_pass<G: GroupName, K: Gate + Drop, C: Courier + Drop, R: Wait + Abort>(
    rt: &R,
    service: &Service<G, K, C>,
    at: u32,
) -> Pass<G> {
    service.enroll(rt, at).expect(rt, "a pass")
}

fn expect_no_pass<G: GroupName, K: Gate + Drop, C: Courier + Drop, R: Wait + Abort>(
    rt: &R,
    service: &Service<G, K, C>,
    at: u32,
    wanted: EnrollRefusal,
) {
    let refusal = service.enroll(rt, at).err().expect(rt, "a refusal");
    assert_eq!(rt; refusal, wanted);
}

// Each of two members takes turns, until both have received and delivered all that was sent.
fn turn_all<G: GroupName, R: Wait>(rt: &R, alloc: Global, service: &Service<G, NoGate, Lost>) {
    for _ in 0..3u32 {
        let _first = service.turn(rt, alloc, 1, Wake::Sweep);
        let _second = service.turn(rt, alloc, 2, Wake::Sweep);
    }
}

// Submits a command, and the ticket is the pass's own.
pub(crate) fn submitted<G: GroupName, K: Gate + Drop, C: Courier + Drop, R: Wait + Abort>(
    rt: &R,
    alloc: Global,
    service: &Service<G, K, C>,
    pass: &mut Pass<G>,
    command: Command,
) -> Ticket
    ensures { Owns pass.new result }
{
    let ticket = service
        .submit(rt, alloc, pass, command)
        .expect(rt, "a ticket");
    assert!(rt; pass.owns(&ticket));
    ticket
}

// Submits a command in vain.
fn expect_refusal<G: GroupName, K: Gate + Drop, C: Courier + Drop, R: Wait + Abort>(
    rt: &R,
    alloc: Global,
    pass: &mut Pass<G>,
    service: &Service<G, K, C>,
    wanted: ServiceRefusal,
)
    ensures { pass.new ≡ pass.old }
{
    let answer = service.submit(rt, alloc, pass, add_ann(rt, alloc));
    let refusal = answer.err().expect(rt, "a refusal");
    assert_eq!(rt; refusal, wanted);
}

// Awaits the answer, and compares it and its place. All commands are member 1's here, so the clock of each is one more.
pub(crate) fn expect_receipt<G: GroupName, K: Gate + Drop, C: Courier + Drop, R: Wait + Abort>(
    rt: &R,
    service: &Service<G, K, C>,
    pass: &mut Pass<G>,
    ticket: Ticket,
    place: u32,
    answer: Answer,
)
    requires { Owns pass.old ticket }
{
    let found = service.await_answer(rt, pass, ticket);
    let receipt = found.ok().expect(rt, "an answer");
    assert_eq!(rt; receipt.place, place as usize);
    assert_eq!(rt;
        (receipt.stamp.clock, receipt.stamp.member),
        (u64::from(place) + 1, 1)
    );
    assert!(rt; receipt.answer.same(&answer));
    drop(receipt);
    drop(answer);
}

fn expect_text<E: Error>(rt: &impl Abort, error: &E, text: &str) {
    let shown: InlineText<128> = InlineText::of(error);
    assert_eq!(rt; shown.as_str(), text);
}

// The text of a refusal, and the ticket that it gives back.
fn told(rt: &impl Abort, refusal: AwaitRefusal, text: &str) -> Ticket {
    expect_text(rt, &refusal, text);
    match refusal {
        AwaitRefusal::Stopped(ticket) | AwaitRefusal::NoMemory(ticket) => ticket,
    }
}

// A command whose answer does not come before the stop: the ticket comes back, also out of a refusal for another reason.
pub(crate) fn expect_stopped<G: GroupName, K: Gate + Drop, C: Courier + Drop, R: Wait + Abort>(
    rt: &R,
    service: &Service<G, K, C>,
    pass: &mut Pass<G>,
    ticket: Ticket,
)
    requires { Owns pass.old ticket }
{
    let stopped = "the service was stopped before the answer was published";
    let found = service.await_answer(rt, pass, ticket);
    let refusal = found.err().expect(rt, "a refusal");
    let ticket = told(rt, refusal, stopped);
    let ticket = told(rt, AwaitRefusal::NoMemory(ticket), "no memory");
    let call = CallRefusal::Await(AwaitRefusal::NoMemory(ticket));
    let unanswered = "the command is submitted and not answered: no memory";
    expect_text(rt, &call, unanswered);
    drop(call);
}

// Stops the service, which gives a hint to each of so many members.
fn expect_stop<G: GroupName, R: Wait + Abort>(
    rt: &R,
    service: &Service<G, NoGate, Lost>,
    members: u64,
) {
    let told = service.courier.told.load(Ordering::SeqCst);
    service.stop(rt);
    let told_now = service.courier.told.load(Ordering::SeqCst);
    assert_eq!(rt; told_now.wrapping_sub(told), members);
}

// A member's thread gives up at its first wake.
fn expect_end<G: GroupName, R: Wait + Abort>(
    rt: &R,
    alloc: Global,
    service: &Service<G, NoGate, Lost>,
    at: u32,
) {
    assert_eq!(rt; service.pump(rt, alloc, at), PumpEnd::GaveUp);
    assert_eq!(rt; service.courier.asked.load(Ordering::SeqCst), 1);
}

// A command is submitted, and answered once the members took their turns. Until then the pass is busy.
fn expect_answer<G: GroupName, R: Wait + Abort>(
    rt: &R,
    alloc: Global,
    service: &Service<G, NoGate, Lost>,
    command: Command,
    pass: &mut Pass<G>,
    place: u32,
    answer: Answer,
) {
    let ticket = submitted(rt, alloc, service, pass, command);
    expect_refusal(rt, alloc, pass, service, ServiceRefusal::Busy);
    turn_all(rt, alloc, service);
    expect_receipt(rt, service, pass, ticket, place, answer);
}

// How much both passes know.
fn expect_fronts<G: GroupName>(
    rt: &impl Abort,
    one: &Pass<G>,
    other: &Pass<G>,
    wanted: (usize, usize),
) {
    assert_eq!(rt; (one.front_len(), other.front_len()), wanted);
}

fn expect_meeting<G: GroupName, K: Gate + Drop, C: Courier + Drop>(
    rt: &impl Abort,
    service: &Service<G, K, C>,
    one: &mut Pass<G>,
    other: &mut Pass<G>,
    wanted: Result<(), MeetRefusal>,
) {
    assert_eq!(rt; service.meet(one, other), wanted);
}

// A member has published so many records.
fn expect_published<G: GroupName>(
    rt: &impl Abort,
    service: &Service<G, NoGate, Lost>,
    at: u32,
    count: usize,
) {
    let last = service.published(at, count.saturating_sub(1));
    assert!(rt; last.is_some());
    assert!(rt; service.published(at, count).is_none());
}

// The nodes are a group, whose members have delivered so many commands.
pub(crate) fn expect_audit<G: GroupName>(
    rt: &impl Abort,
    alloc: Global,
    nodes: &mut [Node<G>],
    wanted: &[usize],
) {
    let audited = audit(alloc, nodes).expect(rt, "a group");
    assert_eq!(rt; audited.delivered.as_slice(), wanted);
    drop(audited);
}

fn is_no_group<G: GroupName>(alloc: Global, nodes: &mut [Node<G>]) -> bool {
    matches!(audit(alloc, nodes), Err(AuditRefusal::NotAGroup))
}

// The first node confirms the pass.
pub(crate) fn expect_confirmed<G: GroupName>(
    rt: &impl Abort,
    nodes: &mut [Node<G>],
    pass: &mut Pass<G>,
) {
    let node = nodes.first_mut().expect(rt, "a node");
    assert!(rt; node.confirms(pass));
}

// Two callers of one member, by turns.
fn talk<G: GroupName, R: Wait + Abort>(
    rt: &R,
    alloc: Global,
    service: &Service<G, NoGate, Lost>,
    one: &mut Pass<G>,
    other: &mut Pass<G>,
) {
    expect_answer(rt, alloc, service, add_ann(rt, alloc), one, 0, Answer::Done);
    let none = Answer::Names(NameSet::new(alloc));
    let asked = roles_of_ann(rt, alloc);
    expect_answer(rt, alloc, service, asked, other, 1, none);
    expect_fronts(rt, one, other, (1, 2));
    expect_meeting(rt, service, one, other, Ok(()));
    expect_fronts(rt, one, other, (2, 2));
    let denied = Answer::Denied(Denial::NoSession);
    expect_answer(rt, alloc, service, check(rt, alloc), one, 2, denied);
    expect_published(rt, service, 1, 3);
}

// A member that is alone in its group, and two callers.
fn run_alone<G: GroupName, R: Wait + Abort>(rt: &R, alloc: Global, founding: Founding)
    requires names { (founding.group ≡ G.group) × (founding.words ≡ G.vocabulary) × (founding.rows ≡ G.cells) }
    requires members { length founding.rows.sent ≡ founding.group.members }
{
    let service: Service<G, NoGate, Lost> = founded(rt, alloc, founding, Lost::new());
    let mut one = new_pass(rt, &service, 1);
    let mut other = new_pass(rt, &service, 1);
    expect_no_pass(rt, &service, 2, EnrollRefusal::UnknownMember);
    talk(rt, alloc, &service, &mut one, &mut other);
    expect_stop(rt, &service, 1);
    expect_refusal(rt, alloc, &mut one, &service, ServiceRefusal::Stopped);
    expect_no_pass(rt, &service, 1, EnrollRefusal::Stopped);
    let mut nodes = service.take_nodes();
    expect_audit(rt, alloc, &mut nodes, &[3]);
    expect_confirmed(rt, &mut nodes, &mut one);
    expect_confirmed(rt, &mut nodes, &mut other);
    drop(nodes);
    drop(one);
    drop(other);
}

#[test]
fn two_callers_take_turns(rt: HostRuntime) {
    let founding = founding_of(&rt, rt.alloc(), 1, 16);
    run_alone::<Brand, _>(&rt, rt.alloc(), founding);
}

// Callers of two members do not meet. What one submitted is answered once the other member has acknowledged it, and what is
// not answered before the stop is not answered after it.
fn run_two<G: GroupName, R: Wait + Abort>(rt: &R, alloc: Global, founding: Founding)
    requires names { (founding.group ≡ G.group) × (founding.words ≡ G.vocabulary) × (founding.rows ≡ G.cells) }
    requires members { length founding.rows.sent ≡ founding.group.members }
{
    let service: Service<G, NoGate, Lost> = founded(rt, alloc, founding, Lost::new());
    let apart = Err(MeetRefusal::OtherMember);
    let mut one = new_pass(rt, &service, 1);
    let mut other = new_pass(rt, &service, 2);
    expect_meeting(rt, &service, &mut one, &mut other, apart);
    let added = add_ann(rt, alloc);
    expect_answer(rt, alloc, &service, added, &mut one, 0, Answer::Done);
    let ticket = submitted(rt, alloc, &service, &mut other, roles_of_ann(rt, alloc));
    expect_stop(rt, &service, 2);
    expect_stopped(rt, &service, &mut other, ticket);
    expect_fronts(rt, &one, &other, (1, 0));
    drop(one);
    drop(other);
    let mut nodes = service.take_nodes();
    expect_audit(rt, alloc, &mut nodes, &[1, 1]);
    nodes.reverse();
    assert!(rt; is_no_group(alloc, &mut nodes));
    drop(nodes);
}

#[test]
fn two_members_answer_and_stop(rt: HostRuntime) {
    let founding = founding_of(&rt, rt.alloc(), 2, 16);
    run_two::<Brand, _>(&rt, rt.alloc(), founding);
}

// What is published at a place of a member's history: a stamp, and an answer.
fn expect_record<G: GroupName, K: Gate + Drop, C: Courier + Drop>(
    rt: &impl Abort,
    service: &Service<G, K, C>,
    (at, place): (u32, usize),
    (clock, member): (u64, u32),
    answer: &Answer,
) {
    let record = service.published(at, place).expect(rt, "a record");
    let found = (record.stamp.clock, record.stamp.member);
    assert_eq!(rt; found, (clock, member));
    assert!(rt; record.answer.same(answer));
}

// Nothing is published at a place of a member's history.
pub(crate) fn expect_no_record<G: GroupName, K: Gate + Drop, C: Courier + Drop>(
    rt: &impl Abort,
    service: &Service<G, K, C>,
    at: u32,
    place: usize,
) {
    assert!(rt; service.published(at, place).is_none());
}

#[test]
fn refusals_of_calls(rt: HostRuntime) {
    for (refusal, text) in [
        (
            EnrollRefusal::UnknownMember,
            "the group has no member of this number",
        ),
        (EnrollRefusal::Stopped, "the service is stopped"),
        (
            EnrollRefusal::CallersFull,
            "the member has given all 4294967295 caller numbers",
        ),
    ] {
        expect_text(&rt, &refusal, text);
    }
    let call = CallRefusal::Submit(ServiceRefusal::Busy);
    let busy = "the command is not submitted: the pass waits for an answer";
    expect_text(&rt, &call, busy);
    drop(call);
}
