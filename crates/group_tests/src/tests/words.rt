//! Each public call of `rbac_words` with ample memory: groups, stamps, and copies of records and messages, and of the commands and
//! reviews of `rbac_terms`. Copies end in `drop`, since the proof of a value that goes out of scope writes its drop out in place, a
//! case for each variant.

use crate::tests::stamps::{placed, stamp};
use rbac_words::{
    Answer, Command, Commands, Denial, Group, GroupRefusal, Message, Name, Record, Review,
    SharedCommand,
};
use sorted_keys::Same;
use std::alloc::Global;
use std::process::Abort;

fn expect_group(rt: &impl Abort, members: u32, clock: u64, sent_limit: u32) {
    let group = Group::build(members, clock, sent_limit).expect(rt, "a group");
    assert_eq!(rt; group.members(), members);
    assert_eq!(rt; group.clock(), clock);
    assert_eq!(rt; group.sent_limit(), sent_limit);
}

#[test]
fn groups_are_within_limits(rt: HostRuntime) {
    let last = 9_007_199_254_740_991;
    expect_group(&rt, 1, 0, 1);
    expect_group(&rt, 8, last, 65_536);
    expect_group(&rt, 3, 17, 100);
    for (members, clock, sent_limit, refusal) in [
        (0, 0, 1, GroupRefusal::BadMembers),
        (9, 0, 1, GroupRefusal::BadMembers),
        (9, last + 1, 0, GroupRefusal::BadMembers),
        (8, last + 1, 0, GroupRefusal::BadClock),
        (1, last + 1, 65_537, GroupRefusal::BadClock),
        (1, last, 0, GroupRefusal::BadSentLimit),
        (8, 0, 65_537, GroupRefusal::BadSentLimit),
    ] {
        let refused = Group::build(members, clock, sent_limit);
        assert!(rt; refused.err() == Some(refusal));
    }
}

#[test]
fn stamps_are_ordered_by_clock_and_member(rt: HostRuntime) {
    let rising = [(1, 2), (1, 3), (2, 1), (2, 2), (10, 1)];
    for (i, (clock, member)) in rising.into_iter().enumerate() {
        for (j, (other_clock, other_member)) in rising.into_iter().enumerate() {
            let other = stamp(other_clock, other_member);
            assert!(rt; stamp(clock, member).is_before(other) == (i < j));
        }
    }
}

fn name(rt: &impl Abort, alloc: Global, text: &str) -> Name {
    Name::read(alloc, text.as_bytes()).expect(rt, "a name")
}

fn grant(rt: &impl Abort, alloc: Global) -> Command {
    Command::GrantPermission {
        operation: name(rt, alloc, "read"),
        object: name(rt, alloc, "ledger"),
        role: name(rt, alloc, "clerk"),
    }
}

fn is_called(name: &Name, text: &str) -> bool {
    name.as_bytes() == text.as_bytes()
}

fn is_grant(command: &Command) -> bool {
    let Command::GrantPermission {
        operation,
        object,
        role,
    } = command
    else {
        return false;
    };
    is_called(operation, "read") && is_called(object, "ledger") && is_called(role, "clerk")
}

fn shared_grant(rt: &impl Abort, alloc: Global) -> SharedCommand {
    SharedCommand::new(alloc, grant(rt, alloc)).expect(rt, "memory")
}

fn expect_grant_copied(rt: &impl Abort, command: SharedCommand) {
    let copy = command.copy().expect(rt, "memory");
    assert!(rt; is_grant(copy.get()));
    drop(copy);
    drop(command);
}

#[test]
fn a_command_is_copied(rt: HostRuntime) {
    expect_grant_copied(&rt, shared_grant(&rt, rt.alloc()));
}

fn expect_record_copied(rt: &impl Abort, record: Record) {
    let copy = record.copy().expect(rt, "memory");
    assert_eq!(rt; (copy.stamp, copy.caller, copy.serial), (stamp(7, 2), 3, 4));
    assert!(rt; copy.answer.same(&Answer::Denied(Denial::NoRole)));
    assert!(rt; is_grant(copy.command.get()));
    drop(copy);
    drop(record);
}

#[test]
fn a_record_is_copied(rt: HostRuntime) {
    let record = Record {
        stamp: stamp(7, 2),
        caller: 3,
        serial: 4,
        command: shared_grant(&rt, rt.alloc()),
        answer: Answer::Denied(Denial::NoRole),
    };
    expect_record_copied(&rt, record);
}

// Whether there are commands, and each is the grant.
fn are_grants(commands: &[Command]) -> bool {
    !commands.is_empty() && commands.iter().all(|command| is_grant(command))
}

// Whether a message has grants alone, with this stamp, caller 3 and serial 4.
fn is_call(message: &Message) -> bool {
    match message {
        Message::Batch {
            stamp: sent,
            caller: 3,
            serial: 4,
            commands,
        } => *sent == stamp(7, 2) && are_grants(commands.as_slice()),
        _ => false,
    }
}

fn expect_message_copied(rt: &impl Abort, message: Message) {
    let copy = message.copy().expect(rt, "memory");
    assert!(rt; is_call(&copy));
    assert_eq!(rt; message.stamp(), stamp(7, 2));
    drop(copy);
    drop(message);
}

#[test]
fn a_message_is_copied(rt: HostRuntime) {
    let message = Message::Batch {
        stamp: stamp(7, 2),
        caller: 3,
        serial: 4,
        commands: Commands::one(shared_grant(&rt, rt.alloc())),
    };
    expect_message_copied(&rt, message);
}

#[test]
fn a_message_of_several_commands_is_copied(rt: HostRuntime) {
    let mut commands = Vec::new(rt.alloc());
    for _ in 0..3 {
        commands.push(grant(&rt, rt.alloc())).expect(&rt, "memory");
    }
    let message = Message::Batch {
        stamp: stamp(7, 2),
        caller: 3,
        serial: 4,
        commands: Commands::of(commands).expect(&rt, "memory"),
    };
    expect_message_copied(&rt, message);
}

#[test]
fn stamps_are_ordered_by_the_place_last(rt: HostRuntime) {
    let second = placed(7, 2, 1);
    for (first, later) in [
        (stamp(7, 2), second),
        (stamp(7, 1), stamp(7, 2)),
        (second, stamp(7, 3)),
        (second, stamp(8, 1)),
    ] {
        assert!(rt; first.is_before(later) && !later.is_before(first));
        assert!(rt; first < later && first != later);
    }
    assert!(rt; !second.is_before(second));
}
