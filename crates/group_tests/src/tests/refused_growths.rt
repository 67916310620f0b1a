//! Calls of a member, of a world and of what reads and plays lines, made again where a growth is refused, and what a refusal leaves.
//! With ample memory each goes well at once; `bench/hostile/refuse_each_growth` runs these tests with each growth refused in turn.

use crate::tests::sample::{DAY, DAY_TOLD, sample_world};
use crate::tests::shown::Shown;
use crate::tests::stamps::stamp;
use rbac_founding::{Founding, FoundingRefusal, read_founding};
use rbac_lines::{LineRefusal, RunFault, Scratch, Summary, read_client, read_line, run, watch};
use rbac_member::{Member, ReceiveRefusal, SubmitRefusal};
use rbac_words::{
    Answer, Command, Commands, Group, Message, Name, SharedCommand, Stamp, Vocabulary,
};
use rbac_world::{Event, Outcome, Refusal, Stopped, World, play};
use std::alloc::Global;
use std::process::Abort;

fn add_user(rt: &impl Abort, alloc: Global, user: &str) -> Command {
    let user = match Name::read(alloc, user.as_bytes()) {
        Ok(name) => name,
        Err(_) => Name::read(alloc, user.as_bytes()).expect(rt, "a name"),
    };
    Command::AddUser { user }
}

// No operations, no objects, no permissions.
fn no_words(rt: &impl Abort, alloc: Global) -> Vocabulary {
    let built = Vocabulary::build(Vec::new(alloc), Vec::new(alloc), Vec::new(alloc));
    built.expect(rt, "a vocabulary")
}

// Member 1 of a group of two.
fn first_of_two(rt: &impl Abort, alloc: Global) -> Member {
    let group = Group::build(2, 0, 5).expect(rt, "a group");
    Member::found(alloc, group, 1, no_words(rt, alloc)).expect(rt, "a member")
}

// A refused submit leaves the member as it was, and is made again.
fn submitted(rt: &impl Abort, alloc: Global, member: &mut Member, serial: u32) -> Stamp {
    let before = Shown::of(rt, alloc, member);
    let answer = member.submit(0, serial, add_user(rt, alloc, "ann"));
    before.expect_left(rt, alloc, member, answer.is_err());
    match answer {
        Ok(submission) => submission.stamp,
        Err(refusal) => {
            assert_eq!(rt; refusal, SubmitRefusal::NoMemory);
            let again = member.submit(0, serial, add_user(rt, alloc, "ann"));
            again.expect(rt, "memory").stamp
        }
    }
}

// A command that is shared.
fn shared(rt: &impl Abort, alloc: Global, user: &str) -> SharedCommand {
    match SharedCommand::new(alloc, add_user(rt, alloc, user)) {
        Ok(shared) => shared,
        Err(_) => SharedCommand::new(alloc, add_user(rt, alloc, user)).expect(rt, "memory"),
    }
}

// The same of a submit of a command that is shared.
fn submitted_copy(
    rt: &impl Abort,
    alloc: Global,
    member: &mut Member,
    serial: u32,
    command: &SharedCommand,
) -> Stamp {
    let before = Shown::of(rt, alloc, member);
    let answer = member.submit_copy(0, serial, command);
    before.expect_left(rt, alloc, member, answer.is_err());
    match answer {
        Ok(stamp) => stamp,
        Err(refusal) => {
            assert_eq!(rt; refusal, SubmitRefusal::NoMemory);
            let again = member.submit_copy(0, serial, command);
            again.expect(rt, "memory")
        }
    }
}

// A refused receipt leaves the member as it was, and is made again.
fn received(
    rt: &impl Abort,
    alloc: Global,
    member: &mut Member,
    number: u32,
    message: &Message,
) -> Option<Stamp> {
    let before = Shown::of(rt, alloc, member);
    let answer = member.receive(2, number, message);
    before.expect_left(rt, alloc, member, answer.is_err());
    match answer {
        Ok(acknowledged) => acknowledged,
        Err(refusal) => {
            assert_eq!(rt; refusal, ReceiveRefusal::NoMemory);
            member.receive(2, number, message).expect(rt, "memory")
        }
    }
}

// A refused delivery leaves the member as it was, and is made again.
fn delivered(rt: &impl Abort, alloc: Global, member: &mut Member) -> Option<usize> {
    let before = Shown::of(rt, alloc, member);
    let answer = member.deliver(alloc);
    before.expect_left(rt, alloc, member, !matches!(answer, Ok(Some(_))));
    match answer {
        Ok(place) => place,
        Err(_) => member.deliver(alloc).expect(rt, "memory"),
    }
}

// Member 2's first command is taken, and then its acknowledgement.
fn take_of_second(rt: &impl Abort, alloc: Global, member: &mut Member) {
    let message = Message::Batch {
        stamp: stamp(2, 2),
        caller: 0,
        serial: 0,
        commands: Commands::one(shared(rt, alloc, "bob")),
    };
    let acknowledged = received(rt, alloc, member, 1, &message);
    drop(message);
    assert_eq!(rt; acknowledged, Some(stamp(4, 1)));
    let message = Message::Ack { stamp: stamp(6, 2) };
    let acknowledged = received(rt, alloc, member, 2, &message);
    drop(message);
    assert_eq!(rt; acknowledged, None);
}

#[test]
fn a_member_that_is_asked_again(rt: HostRuntime) {
    let alloc = rt.alloc();
    let mut member = first_of_two(&rt, alloc);
    let command = shared(&rt, alloc, "ann");
    let copied = submitted_copy(&rt, alloc, &mut member, 0, &command);
    drop(command);
    assert_eq!(rt; copied, stamp(1, 1));
    take_of_second(&rt, alloc, &mut member);
    assert_eq!(rt; submitted(&rt, alloc, &mut member, 1), stamp(8, 1));
    assert_eq!(rt; delivered(&rt, alloc, &mut member), Some(0));
    assert_eq!(rt; delivered(&rt, alloc, &mut member), Some(1));
    assert_eq!(rt; delivered(&rt, alloc, &mut member), None);
    drop(member);
}

// Three commands, in a list that is made again where a growth is refused.
fn three(rt: &impl Abort, alloc: Global) -> Vec<Command> {
    let mut commands = match Vec::with_capacity(alloc, 3) {
        Ok(room) => room,
        Err(_) => Vec::with_capacity(alloc, 3).expect(rt, "memory"),
    };
    for user in ["ann", "bob", "ann"] {
        commands.push(add_user(rt, alloc, user)).expect(rt, "room");
    }
    commands
}

// These, to be shared.
fn three_shared(rt: &impl Abort, alloc: Global) -> Commands {
    match Commands::of(three(rt, alloc)) {
        Ok(shared) => shared,
        Err(_) => Commands::of(three(rt, alloc)).expect(rt, "memory"),
    }
}

// A refused submit of three commands leaves the member as it was, and is made again.
fn submitted_batch(rt: &impl Abort, alloc: Global, member: &mut Member) -> Stamp {
    let before = Shown::of(rt, alloc, member);
    let answer = member.submit_batch(0, 0, three(rt, alloc));
    before.expect_left(rt, alloc, member, answer.is_err());
    match answer {
        Ok(stamp) => stamp,
        Err(refusal) => {
            assert_eq!(rt; refusal, SubmitRefusal::NoMemory);
            let again = member.submit_batch(0, 0, three(rt, alloc));
            again.expect(rt, "memory")
        }
    }
}

// The same of a submit of commands that are shared.
fn submitted_batch_copy(rt: &impl Abort, alloc: Global, member: &mut Member) -> Stamp {
    let commands = three_shared(rt, alloc);
    let before = Shown::of(rt, alloc, member);
    let answer = member.submit_batch_copy(1, 0, &commands);
    before.expect_left(rt, alloc, member, answer.is_err());
    let stamp = match answer {
        Ok(stamp) => stamp,
        Err(refusal) => {
            assert_eq!(rt; refusal, SubmitRefusal::NoMemory);
            let again = member.submit_batch_copy(1, 0, &commands);
            again.expect(rt, "memory")
        }
    };
    drop(commands);
    stamp
}

// Member 2's batch of three is taken whole, and then its acknowledgement.
fn take_batch_of_second(rt: &impl Abort, alloc: Global, member: &mut Member) {
    let message = Message::Batch {
        stamp: stamp(3, 2),
        caller: 0,
        serial: 0,
        commands: three_shared(rt, alloc),
    };
    let acknowledged = received(rt, alloc, member, 1, &message);
    drop(message);
    assert_eq!(rt; acknowledged, Some(stamp(5, 1)));
    let message = Message::Ack { stamp: stamp(6, 2) };
    let acknowledged = received(rt, alloc, member, 2, &message);
    drop(message);
    assert_eq!(rt; acknowledged, None);
}

#[test]
fn a_member_that_is_asked_again_for_batches(rt: HostRuntime) {
    let alloc = rt.alloc();
    let mut member = first_of_two(&rt, alloc);
    let first = submitted_batch(&rt, alloc, &mut member);
    assert_eq!(rt; first, stamp(1, 1));
    let second = submitted_batch_copy(&rt, alloc, &mut member);
    assert_eq!(rt; second, stamp(2, 1));
    take_batch_of_second(&rt, alloc, &mut member);
    for place in 0..9 {
        assert_eq!(rt; delivered(&rt, alloc, &mut member), Some(place));
    }
    assert_eq!(rt; delivered(&rt, alloc, &mut member), None);
    drop(member);
}

fn founded(rt: &impl Abort, alloc: Global) -> World {
    let group = Group::build(2, 0, 5).expect(rt, "a group");
    match World::found(alloc, group, no_words(rt, alloc)) {
        Ok(world) => world,
        Err(_) => World::found(alloc, group, no_words(rt, alloc)).expect(rt, "memory"),
    }
}

fn submit(rt: &impl Abort, alloc: Global, at: u32) -> Event {
    Event::Submit {
        at,
        caller: 0,
        serial: 0,
        command: shared(rt, alloc, "ann"),
    }
}

// Both members add ann, read each other, and deliver.
fn a_day(rt: &impl Abort, alloc: Global) -> [Event; 8] {
    [
        submit(rt, alloc, 1),
        submit(rt, alloc, 2),
        Event::Receive {
            at: 1,
            from: 2,
            number: 1,
        },
        Event::Receive {
            at: 2,
            from: 1,
            number: 1,
        },
        Event::Deliver { at: 1 },
        Event::Deliver { at: 1 },
        Event::Receive {
            at: 2,
            from: 1,
            number: 2,
        },
        Event::Deliver { at: 2 },
    ]
}

// What the day's events answer.
const TOLD: &[Result<Outcome, Refusal>] = &[
    Ok(Outcome::Submitted(Stamp {
        clock: 1,
        member: 1,
        place: 0,
    })),
    Ok(Outcome::Submitted(Stamp {
        clock: 1,
        member: 2,
        place: 0,
    })),
    Ok(Outcome::Received(Some(Stamp {
        clock: 3,
        member: 1,
        place: 0,
    }))),
    Ok(Outcome::Received(None)),
    Ok(Outcome::Delivered(Some(0))),
    Ok(Outcome::Delivered(Some(1))),
    Ok(Outcome::Received(None)),
    Ok(Outcome::Delivered(Some(0))),
];

// Plays the day, and goes on after the events that were played where a growth is refused.
fn expect_day(rt: &impl Abort, alloc: Global, world: &mut World, events: &[Event]) {
    match play(world, alloc, events) {
        Ok(outcomes) => assert!(rt; outcomes.as_slice() == TOLD),
        Err(Stopped { done }) => {
            assert!(rt; done <= events.len());
            assert!(rt; done <= TOLD.len());
            let rest = play(world, alloc, &events[done..]).expect(rt, "memory");
            assert!(rt; rest.as_slice() == &TOLD[done..]);
        }
    }
}

// How many commands the members have delivered.
fn histories(rt: &impl Abort, world: &World) -> (usize, usize) {
    let first = world.member(1).expect(rt, "a member");
    let second = world.member(2).expect(rt, "a member");
    (first.history().len(), second.history().len())
}

#[test]
fn a_day_that_is_gone_on_with(rt: HostRuntime) {
    let alloc = rt.alloc();
    let mut world = founded(&rt, alloc);
    let events = a_day(&rt, alloc);
    expect_day(&rt, alloc, &mut world, &events);
    drop(events);
    assert_eq!(rt; histories(&rt, &world), (2, 1));
    drop(world);
}

fn event(rt: &impl Abort, alloc: Global, line: &str) -> Event {
    let event = match read_line(alloc, line.as_bytes(), &mut Scratch::new(alloc)) {
        Ok(event) => Ok(event),
        Err(_) => read_line(alloc, line.as_bytes(), &mut Scratch::new(alloc)),
    };
    event.ok().expect(rt, "an event")
}

// The twelve events of the first day: each command is submitted and delivered.
fn first_day(rt: &impl Abort, alloc: Global) -> Vec<Event> {
    let mut events = match Vec::with_capacity(alloc, 12) {
        Ok(room) => room,
        Err(_) => Vec::with_capacity(alloc, 12).expect(rt, "memory"),
    };
    for line in DAY.lines() {
        events.push(event(rt, alloc, line)).expect(rt, "memory");
    }
    events
}

// Whether it is the outcome of the day's event at this place.
fn is_of_the_day(outcome: &Result<Outcome, Refusal>, place: usize) -> bool {
    let command = place / 2;
    let wanted = if place % 2 == 0 {
        Outcome::Submitted(stamp(command as u64 + 1, 1))
    } else {
        Outcome::Delivered(Some(command))
    };
    *outcome == Ok(wanted)
}

// Whether these are the outcomes of the day from a place on, to its end.
fn are_of_the_day(outcomes: &[Result<Outcome, Refusal>], from: usize) -> bool {
    let places = from..12;
    places.len() == outcomes.len()
        && outcomes
            .iter()
            .zip(places)
            .all(|(outcome, place)| is_of_the_day(outcome, place))
}

// The world of the sample founding after the day, which is gone on with where a growth is refused.
fn after_the_day(rt: &impl Abort, alloc: Global, events: &[Event]) -> World {
    let mut world = sample_world(rt, alloc, 1);
    match play(&mut world, alloc, events) {
        Ok(outcomes) => assert!(rt; are_of_the_day(outcomes.as_slice(), 0)),
        Err(Stopped { done }) => {
            assert!(rt; done <= events.len());
            let rest = play(&mut world, alloc, &events[done..]).expect(rt, "memory");
            assert!(rt; are_of_the_day(rest.as_slice(), done));
        }
    }
    world
}

fn have_the_same_policy(rt: &impl Abort, world: &World, other: &World) -> bool {
    let one = world.member(1).expect(rt, "a member");
    let other = other.member(1).expect(rt, "a member");
    one.policy().same(other.policy())
}

// Whether the check at the end of the day was granted.
fn is_granted(rt: &impl Abort, world: &World) -> bool {
    let member = world.member(1).expect(rt, "a member");
    let last = member.history().last().expect(rt, "a record");
    matches!(last.answer, Answer::Granted)
}

#[test]
fn a_first_day_that_is_gone_on_with(rt: HostRuntime) {
    let alloc = rt.alloc();
    let events = first_day(&rt, alloc);
    let world = after_the_day(&rt, alloc, events.as_slice());
    let other = after_the_day(&rt, alloc, events.as_slice());
    drop(events);
    assert!(rt; have_the_same_policy(&rt, &world, &other) && is_granted(&rt, &world));
    drop(world);
    drop(other);
}

const LINE: &[u8] =
    br#"{"do":"submit","at":1,"caller":7,"serial":0,"command":{"name":"CreateSession","user":"ann","session":"s1","roles":["clerk","guest"]}}"#;

// Why a line is refused, read again where a growth is.
fn line_refusal(alloc: Global, line: &[u8]) -> Option<LineRefusal> {
    match read_line(alloc, line, &mut Scratch::new(alloc)) {
        Ok(event) => {
            drop(event);
            None
        }
        Err(LineRefusal::NoMemory) => read_line(alloc, line, &mut Scratch::new(alloc)).err(),
        Err(refusal) => Some(refusal),
    }
}

// The same of a client's line.
fn client_refusal(alloc: Global, line: &[u8]) -> Option<LineRefusal> {
    match read_client(alloc, line, &mut Scratch::new(alloc)) {
        Ok(asked) => {
            drop(asked);
            None
        }
        Err(LineRefusal::NoMemory) => read_client(alloc, line, &mut Scratch::new(alloc)).err(),
        Err(refusal) => Some(refusal),
    }
}

#[test]
fn lines_that_are_read_again(rt: HostRuntime) {
    let alloc = rt.alloc();
    assert!(rt; line_refusal(alloc, LINE).is_none());
    let roles =
        br#"{"do":"submit","at":1,"caller":7,"serial":0,"command":{"name":"CreateSession","user":"ann","session":"s1","roles":["clerk",""]}}"#;
    assert!(rt; line_refusal(alloc, roles) == Some(LineRefusal::BadName));
    let client =
        br#"{"at":1,"command":{"name":"CreateSession","user":"ann","session":"s1","roles":["clerk","guest"]}}"#;
    assert!(rt; client_refusal(alloc, client).is_none());
    let roles =
        br#"{"at":1,"command":{"name":"CreateSession","user":"ann","session":"s1","roles":["clerk",7]}}"#;
    assert!(rt; client_refusal(alloc, roles) == Some(LineRefusal::WrongKind));
}

const FILE: &[u8] = br#"
version = 1
members = 3
operations = ["approve", "pay", "read"]
objects = ["invoice", "ledger"]
permissions = [["approve", "invoice"], ["pay", "invoice"], ["read", "ledger"]]
"#;

// A founding file, read again where a growth is refused.
fn founding(rt: &impl Abort, alloc: Global) -> Founding {
    match read_founding(alloc, FILE) {
        Ok(founding) => founding,
        Err(refusal) => {
            assert_eq!(rt; refusal, FoundingRefusal::NoMemory);
            read_founding(alloc, FILE).expect(rt, "memory")
        }
    }
}

#[test]
fn a_founding_file_that_is_read_again(rt: HostRuntime) {
    let Founding { group, vocabulary } = founding(&rt, rt.alloc());
    assert_eq!(rt; group.members(), 3);
    drop(vocabulary);
}

const INPUT: &[u8] =
    br#"{"do":"submit","at":1,"caller":7,"serial":0,"command":{"name":"AddUser","user":"ann"}}
nothing
{"do":"deliver","at":1}
{"do":"receive","at":2,"from":1,"number":1}
"#;

const OUTPUT: &[u8] = br#"{"line":1,"stamp":[1,1]}
{"line":2,"refused":"NotJson"}
{"answer":null,"line":3}
{"acknowledged":[3,2],"line":4}
"#;

// How a run of an input on the sample of so many members ended, and how much it wrote: the first of these texts, each of them whole.
fn ran(
    rt: &impl Abort,
    alloc: Global,
    members: u32,
    input: &[u8],
    texts: &[u8],
) -> (Result<Summary, RunFault>, usize) {
    let mut world = sample_world(rt, alloc, members);
    let mut written = match Vec::with_capacity(alloc, texts.len()) {
        Ok(room) => room,
        Err(_) => Vec::with_capacity(alloc, texts.len()).expect(rt, "memory"),
    };
    let ended = run(
        alloc,
        &mut watch(input),
        &mut watch(&mut written),
        &mut world,
    );
    drop(world);
    assert!(rt; texts.starts_with(&written));
    assert!(rt; written.is_empty() || written.ends_with(b"\n"));
    let length = written.len();
    drop(written);
    (ended, length)
}

// The run goes well, or it ends without memory and goes well all over again.
fn expect_run(rt: &impl Abort, alloc: Global, members: u32, input: &[u8], texts: &[u8]) {
    let (ended, length) = ran(rt, alloc, members, input, texts);
    if ended.is_ok() {
        assert_eq!(rt; length, texts.len());
        return;
    }
    assert!(rt; ended == Err(RunFault::NoMemory));
    let (ended, length) = ran(rt, alloc, members, input, texts);
    assert!(rt; ended.is_ok() && length == texts.len());
}

#[test]
fn a_run_that_ends_without_memory(rt: HostRuntime) {
    expect_run(&rt, rt.alloc(), 2, INPUT, OUTPUT);
}

#[test]
fn a_first_day_that_ends_without_memory(rt: HostRuntime) {
    expect_run(&rt, rt.alloc(), 1, DAY.as_bytes(), DAY_TOLD);
}
