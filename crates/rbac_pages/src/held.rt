//! What a member of a world holds back, and what it waits for, read off what was sent, taken and delivered.
ghost use Rattle.std.specs.Prelude.{◌≡◌, ◌<◌, ◌+◌, ◌^◌, ◌∷◌, [], ◌++◌, false, length, filter, IfOk, OnOk};
ghost use Rattle.std.specs.List.{flat_map, AllByRecursion as Each};
ghost use Rattle.rbac_words.specs.Stamp.{is_after, has_passed, last_stamp};
ghost use Rattle.rbac_words.specs.Message.{stamp_of, submitted_at, commands_of, has_bad_batch, has_later};
ghost use Rattle.rbac_words.specs.World.{heard_of};
ghost use Rattle.rbac_words.specs.Keeping.Member.{node_of};
ghost use Rattle.rbac_pages.specs.TraceText.{stamps_from, held_in, held_of_number, held_stamps, is_awaited, awaited_of_number, awaited};

use crate::text::{Teller, put_all};
use rbac_member::Member;
use rbac_words::{Command, Message, Record, Stamp};
use rbac_world::World;
use std::alloc::{AllocError, Global};

/// The numbers that members have: 1 to `MOST_MEMBERS`.
pub(crate) const MEMBER_NUMBERS: [u32; 8] = [1, 2, 3, 4, 5, 6, 7, 8];

/// A member that another one waits for: its number, and the stamp of the last message that was taken of it.
#[derive(Clone, Copy, Drop)]
pub(crate) struct Awaited {
    pub(crate) member: u32,
    pub(crate) last: Option<Stamp>,
}

// What a member knows of another one's messages, or of its own.
fn taken<'w>(member: &Member, sender: &'w Member) -> &'w [Message]
    ensures { result.now ≡ heard_of (node_of member.now) (node_of sender.now) }
{
    sender.invariants();
    let sent = sender.sent();
    if sender.number() == member.number() {
        return sent;
    }
    let read = member.read(sender.number()) as usize;
    &sent[..read.min(sent.len())]
}

// Whether a stamp is above the last one, if there is one.
fn is_above(stamp: Stamp, last: Option<Stamp>) -> bool
    ensures { result ≡ is_after last stamp }
{
    match last {
        None => true,
        Some(last) => last < stamp,
    }
}

// Adds a stamp that is above the last one delivered.
fn add_above(held: &mut Vec<Stamp>, stamp: Stamp, last: Option<Stamp>) -> Result<(), AllocError>
    ensures { OnOk result (held.new.items ≡ held.old.items ++ filter (is_after last) (stamp ∷ [])) }
{
    if !is_above(stamp, last) {
        return Ok(());
    }
    held.push(stamp)?;
    Ok(())
}

// Adds the stamps of commands, of which the first has this one, that are above the last one delivered.
fn add_places(
    held: &mut Vec<Stamp>,
    first: Stamp,
    commands: &[Command],
    last: Option<Stamp>,
) -> Result<(), AllocError>
    requires { first.place + length commands.now < 2 ^ 32 }
    ensures { OnOk result (held.new.items ≡ held.old.items ++ filter (is_after last) (stamps_from first commands.now)) }
{
    let mut own = first;
    for _command in commands {
        add_above(held, own, last)?;
        own.place += 1;
    }
    Ok(())
}

// Adds the stamps of a message's commands that are above the last one delivered.
fn add_held(held: &mut Vec<Stamp>, message: &Message, last: Option<Stamp>) -> Result<(), AllocError>
    requires first { (stamp_of message.now).place ≡ 0 }
    requires few { has_bad_batch message.now ≡ false }
    ensures { OnOk result (held.new.items ≡ held.old.items ++ held_in last message.now) }
{
    match message {
        Message::Batch {
            stamp,
            commands,
            ..
        } => add_places(held, *stamp, commands.as_slice(), last),
        Message::Ack { .. } => Ok(()),
    }
}

// Adds what is held of messages.
fn add_all_held(
    held: &mut Vec<Stamp>,
    messages: &[Message],
    last: Option<Stamp>,
) -> Result<(), AllocError>
    requires first { Each (λ m. (stamp_of m).place ≡ 0) messages.now }
    requires few { Each (λ m. has_bad_batch m ≡ false) messages.now }
    ensures { OnOk result (held.new.items ≡ held.old.items ++ flat_map (held_in last) messages.now) }
{
    for message in messages {
        add_held(held, message, last)?;
    }
    Ok(())
}

// The stamp of the last record.
fn last_delivered(history: &[Record]) -> Option<Stamp>
    ensures { result ≡ last_stamp submitted_at (commands_of history.now) }
{
    match history.last() {
        Some(record) => Some(record.stamp),
        None => None,
    }
}

// The stamp of the last message.
fn last_sent(messages: &[Message]) -> Option<Stamp>
    ensures { result ≡ last_stamp stamp_of messages.now }
{
    match messages.last() {
        Some(message) => Some(message.stamp()),
        None => None,
    }
}

// What a member holds back of the member of a number.
#[derive(Drop)]
struct HeldTeller<'w> {
    world: &'w World,
    member: &'w Member,
}

impl Teller<u32, Stamp> for HeldTeller<'_> {
    ghost told_of = { λ teller k. held_of_number teller.world.now (node_of teller.member.now) k };

    fn put(&self, held: &mut Vec<Stamp>, number: &u32) -> Result<(), AllocError> {
        match self.world.member(*number) {
            Some(sender) => {
                sender.invariants();
                let last = last_delivered(self.member.history());
                add_all_held(held, taken(self.member, sender), last)
            }
            None => Ok(()),
        }
    }
}

/// The stamps of the commands that a member holds back, in order.
#[tactic(auto, unfolding(crate::specs::TraceText::held_stamps))]
pub(crate) fn held_of(
    alloc: Global,
    world: &World,
    member: &Member,
) -> Result<Vec<Stamp>, AllocError>
    ensures { IfOk result (λ held. held.items ≡ held_stamps world.now (node_of member.now)) }
{
    let mut held = Vec::new(alloc);
    put_all(&mut held, &HeldTeller { world, member }, &MEMBER_NUMBERS)?;
    held.sort()?;
    Ok(held)
}

// Whether the last stamp that was taken is greater.
fn is_passed(stamp: Stamp, last: Option<Stamp>) -> bool
    ensures { result ≡ has_passed last stamp }
{
    match last {
        None => false,
        Some(last) => stamp < last,
    }
}

// Whether a member has taken a message with a greater stamp of another one.
fn has_heard_later(member: &Member, sender: &Member, stamp: Stamp) -> bool
    ensures { result ≡ has_later (heard_of (node_of member.now) (node_of sender.now)) stamp }
{
    sender.invariants();
    is_passed(stamp, last_sent(taken(member, sender)))
}

// Whether a member waits for the one of this number before it may deliver the command of this stamp.
fn is_awaited(member: &Member, stamp: Stamp, number: u32, sender: &Member) -> bool
    ensures { result ≡ is_awaited (node_of member.now) stamp number (node_of sender.now) }
{
    !((number == member.number() || number == stamp.member)
        || has_heard_later(member, sender, stamp))
}

// The member of a number, if it is waited for.
#[derive(Drop)]
struct AwaitedTeller<'w> {
    world: &'w World,
    member: &'w Member,
    stamp: Stamp,
}

impl Teller<u32, Awaited> for AwaitedTeller<'_> {
    ghost told_of = { λ teller k. awaited_of_number teller.world.now (node_of teller.member.now) teller.stamp k };

    fn put(&self, awaited: &mut Vec<Awaited>, number: &u32) -> Result<(), AllocError> {
        let Some(sender) = self.world.member(*number) else {
            return Ok(());
        };
        if !is_awaited(self.member, self.stamp, *number, sender) {
            return Ok(());
        }
        awaited.push(Awaited {
            member: *number,
            last: last_sent(taken(self.member, sender)),
        })?;
        Ok(())
    }
}

/// The members that a member waits for before it may deliver the command of this stamp: of each it has to take a message with a greater
/// stamp.
#[tactic(auto, unfolding(crate::specs::TraceText::awaited))]
pub(crate) fn awaited_of(
    alloc: Global,
    world: &World,
    member: &Member,
    stamp: Stamp,
) -> Result<Vec<Awaited>, AllocError>
    ensures { IfOk result (λ those. those.items ≡ awaited world.now (node_of member.now) stamp) }
{
    let mut awaited = Vec::new(alloc);
    let teller = AwaitedTeller {
        world,
        member,
        stamp,
    };
    put_all(&mut awaited, &teller, &MEMBER_NUMBERS)?;
    Ok(awaited)
}
