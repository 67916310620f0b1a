//! All that a member of a group of one or two shows: kept before a call, and compared with what it shows after it.

use crate::tests::stamps::stamp;
use rbac_decide::Policy;
use rbac_member::{Member, ReceiveRefusal, SubmitRefusal};
use rbac_words::{Command, Commands, Message, Name, Record, SharedCommand};
use std::alloc::Global;
use std::process::Abort;

/// What a member shows by its calls. Each copy is made again where a growth is refused.
#[derive(Drop)]
pub(crate) struct Shown {
    number: u32,
    clock: u64,
    read: (u32, u32),
    sent: Vec<Message>,
    history: Vec<Record>,
    policy: Policy,
    // The next serials: of the member's own caller 0, and of that of member 2.
    own_next: SubmitRefusal,
    their_next: ReceiveRefusal,
}

// The command that adds ann.
fn add_ann(rt: &impl Abort, alloc: Global) -> Command {
    let user = match Name::read(alloc, b"ann") {
        Ok(name) => name,
        Err(_) => Name::read(alloc, b"ann").expect(rt, "a name"),
    };
    Command::AddUser { user }
}

// That command, to be shared.
fn ann_shared(rt: &impl Abort, alloc: Global) -> SharedCommand {
    match SharedCommand::new(alloc, add_ann(rt, alloc)) {
        Ok(shared) => shared,
        Err(_) => SharedCommand::new(alloc, add_ann(rt, alloc)).expect(rt, "memory"),
    }
}

// What a member answers to its caller 0 at the last serial there is: the next one, where no other refusal comes first.
fn own_next(rt: &impl Abort, alloc: Global, member: &mut Member) -> SubmitRefusal {
    let command = ann_shared(rt, alloc);
    let answer = member.submit_copy(0, u32::MAX, &command);
    drop(command);
    answer.err().expect(rt, "a refusal")
}

// The same of what comes of caller 0 of member 2, as the next message.
fn their_next(rt: &impl Abort, alloc: Global, member: &mut Member) -> ReceiveRefusal {
    let message = Message::Batch {
        stamp: stamp(1_000_000, 2),
        caller: 0,
        serial: u32::MAX,
        commands: Commands::one(ann_shared(rt, alloc)),
    };
    let number = member.read(2).saturating_add(1);
    let answer = member.receive(2, number, &message);
    drop(message);
    answer.err().expect(rt, "a refusal")
}

fn copy_of_message(rt: &impl Abort, message: &Message) -> Message {
    match message.copy() {
        Ok(copy) => copy,
        Err(_) => message.copy().expect(rt, "memory"),
    }
}

fn copies_of_sent(rt: &impl Abort, alloc: Global, sent: &[Message]) -> Vec<Message> {
    let mut copies = match Vec::with_capacity(alloc, sent.len()) {
        Ok(room) => room,
        Err(_) => Vec::with_capacity(alloc, sent.len()).expect(rt, "memory"),
    };
    for message in sent {
        let copy = copy_of_message(rt, message);
        copies.push(copy).expect(rt, "room");
    }
    copies
}

fn copy_of_record(rt: &impl Abort, record: &Record) -> Record {
    match record.copy() {
        Ok(copy) => copy,
        Err(_) => record.copy().expect(rt, "memory"),
    }
}

fn copies_of_history(rt: &impl Abort, alloc: Global, history: &[Record]) -> Vec<Record> {
    let mut copies = match Vec::with_capacity(alloc, history.len()) {
        Ok(room) => room,
        Err(_) => Vec::with_capacity(alloc, history.len()).expect(rt, "memory"),
    };
    for record in history {
        let copy = copy_of_record(rt, record);
        copies.push(copy).expect(rt, "room");
    }
    copies
}

fn copy_of_policy(rt: &impl Abort, policy: &Policy) -> Policy {
    match policy.copy() {
        Ok(copy) => copy,
        Err(_) => policy.copy().expect(rt, "memory"),
    }
}

fn are_same_commands(commands: &[Command], others: &[Command]) -> bool {
    commands.len() == others.len()
        && commands
            .iter()
            .zip(others)
            .all(|(command, other)| command == other)
}

fn is_same_message(message: &Message, other: &Message) -> bool {
    match (message, other) {
        (
            Message::Batch {
                stamp,
                caller,
                serial,
                commands,
            },
            Message::Batch {
                stamp: other_stamp,
                caller: other_caller,
                serial: other_serial,
                commands: others,
            },
        ) => {
            stamp == other_stamp
                && caller == other_caller
                && serial == other_serial
                && are_same_commands(commands.as_slice(), others.as_slice())
        }
        (Message::Ack { stamp }, Message::Ack { stamp: other_stamp }) => stamp == other_stamp,
        _ => false,
    }
}

fn is_same_record(record: &Record, other: &Record) -> bool {
    record.stamp == other.stamp
        && record.caller == other.caller
        && record.serial == other.serial
        && record.command.get() == other.command.get()
        && record.answer.same(&other.answer)
}

fn are_same_messages(sent: &[Message], others: &[Message]) -> bool {
    sent.len() == others.len()
        && sent
            .iter()
            .zip(others)
            .all(|(message, other)| is_same_message(message, other))
}

fn are_same_records(history: &[Record], others: &[Record]) -> bool {
    history.len() == others.len()
        && history
            .iter()
            .zip(others)
            .all(|(record, other)| is_same_record(record, other))
}

impl Shown {
    /// What a member shows now.
    pub(crate) fn of(rt: &impl Abort, alloc: Global, member: &mut Member) -> Shown {
        Shown {
            own_next: own_next(rt, alloc, member),
            their_next: their_next(rt, alloc, member),
            number: member.number(),
            clock: member.clock(),
            read: (member.read(1), member.read(2)),
            sent: copies_of_sent(rt, alloc, member.sent()),
            history: copies_of_history(rt, alloc, member.history()),
            policy: copy_of_policy(rt, member.policy()),
        }
    }

    // Whether a member shows these messages and records, and this policy.
    fn has_same_lists(&self, member: &Member) -> bool {
        are_same_messages(&self.sent, member.sent())
            && are_same_records(&self.history, member.history())
            && self.policy.same(member.policy())
    }

    // Whether a member shows all this.
    fn is_shown_by(&self, rt: &impl Abort, alloc: Global, member: &mut Member) -> bool {
        self.number == member.number()
            && self.clock == member.clock()
            && self.read == (member.read(1), member.read(2))
            && self.has_same_lists(member)
            && self.own_next == own_next(rt, alloc, member)
            && self.their_next == their_next(rt, alloc, member)
    }

    /// A member shows all this after a call exactly where the call has left it as it was.
    pub(crate) fn expect_left(
        self,
        rt: &impl Abort,
        alloc: Global,
        member: &mut Member,
        is_left: bool,
    ) {
        let is_shown = self.is_shown_by(rt, alloc, member);
        drop(self);
        assert_eq!(rt; is_shown, is_left);
    }
}
