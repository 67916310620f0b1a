//! What a line of a schedule does to a member, as text: what it sent, what it holds back, and whom it waits for.
ghost use Rattle.std.specs.Prelude.{◌≡◌, ◌++◌, IfOk, OnOk};
ghost use Rattle.std.specs.Option.{option_copied};
ghost use Rattle.rbac_words.specs.Keeping.Member.{node_of};
ghost use Rattle.rbac_pages.specs.TraceText.{asked_text, sent_text, acknowledged_text, taken_text, delivered_text, record_at, member_of, submitted_text, received_text, done_text, named_text, others_text, held_text, last_text, awaited_text, waits_text, waiting_text, holding_text, state_text, event_text, step_text, numbers_text, standing_text, end_text};

use crate::held::{Awaited, MEMBER_NUMBERS, awaited_of, held_of};
use crate::text::{Teller, put, put_all};
use rbac_member::Member;
use rbac_text::{put_answer, put_command};
use rbac_words::{Command, Event, Outcome, Record, Stamp};
use rbac_world::World;
use std::alloc::{AllocError, Global};
use std::fmt::Display;
use std::{fmt, slice};

/// So many held commands are named at most.
const MOST_NAMED: usize = 8;

/// A stamp as texts show it, as `[1,1]`, or `[1,1,2]` where it has a place in a batch.
#[derive(Clone, Copy, Drop)]
pub(crate) struct Shown {
    pub(crate) stamp: Stamp,
}

impl Display for Shown {
    ghost use Rattle.std.specs.Prelude.{Some};
    ghost use Rattle.rbac_message_text.specs.StampText.{stamp_text};

    ghost output = { λ shown. Some (stamp_text shown.stamp) };

    fn fmt<W: fmt::Write>(&self, f: &mut fmt::Formatter<W>) -> fmt::Result {
        let Stamp {
            clock,
            member,
            place,
        } = self.stamp;
        if place == 0 {
            write!(f, "[{clock},{member}]")
        } else {
            write!(f, "[{clock},{member},{place}]")
        }
    }
}

// A stamp behind a blank.
#[derive(Drop)]
struct StampTeller;

impl Teller<Stamp, u8> for StampTeller {
    ghost told_of = { λ teller stamp. named_text stamp };

    fn put(&self, text: &mut Vec<u8>, stamp: &Stamp) -> Result<(), AllocError> {
        let stamp = Shown { stamp: *stamp };
        put(text, format_args!(" {stamp}"))
    }
}

// How many others are held, if any.
fn put_others(text: &mut Vec<u8>, count: usize) -> Result<(), AllocError>
    ensures { OnOk result (text.new.items ≡ text.old.items ++ others_text count) }
{
    if MOST_NAMED < count {
        let others = count - MOST_NAMED;
        put(text, format_args!(" and {others} more"))
    } else {
        Ok(())
    }
}

// The stamps of the first held commands, and how many others there are.
fn put_held(text: &mut Vec<u8>, held: &[Stamp]) -> Result<(), AllocError>
    ensures { OnOk result (text.new.items ≡ text.old.items ++ held_text held.now) }
{
    put_all(text, &StampTeller, &held[..MOST_NAMED.min(held.len())])?;
    put_others(text, held.len())
}

// The last message that was taken.
fn put_last(text: &mut Vec<u8>, last: Option<Stamp>) -> Result<(), AllocError>
    ensures { OnOk result (text.new.items ≡ text.old.items ++ last_text last) }
{
    match last {
        None => text.extend_from_slice(b" (none taken)"),
        Some(stamp) => {
            let stamp = Shown { stamp };
            put(text, format_args!(" (last taken {stamp})"))
        }
    }
}

// A member that is waited for.
#[derive(Drop)]
struct AwaitedText;

impl Teller<Awaited, u8> for AwaitedText {
    ghost told_of = { λ teller one. awaited_text one };

    fn put(&self, text: &mut Vec<u8>, one: &Awaited) -> Result<(), AllocError> {
        let Awaited { member, last } = *one;
        put(text, format_args!(", of member {member}"))?;
        put_last(text, last)
    }
}

// Those that are waited for.
#[tactic(auto, unfolding(crate::specs::TraceText::waits_text))]
fn put_waits(text: &mut Vec<u8>, awaited: &[Awaited]) -> Result<(), AllocError>
    ensures { OnOk result (text.new.items ≡ text.old.items ++ waits_text awaited.now) }
{
    text.extend_from_slice(b" waits for a greater stamp")?;
    put_all(text, &AwaitedText, awaited)?;
    text.extend_from_slice(b"\n")
}

// Whether the least command that is held may be delivered, and else whom it waits for.
fn put_waiting(text: &mut Vec<u8>, awaited: &[Awaited]) -> Result<(), AllocError>
    ensures { OnOk result (text.new.items ≡ text.old.items ++ waiting_text awaited.now) }
{
    match awaited {
        [] => text.extend_from_slice(b" may be delivered\n"),
        _ => put_waits(text, awaited),
    }
}

// What a member holds, if anything, and whether it may deliver the least.
fn put_holding(
    alloc: Global,
    text: &mut Vec<u8>,
    world: &World,
    member: &Member,
    held: &[Stamp],
) -> Result<(), AllocError>
    ensures { OnOk result (text.new.items ≡ text.old.items ++ holding_text world.now (node_of member.now) held.now) }
{
    match held {
        [] => text.extend_from_slice(b" nothing\n"),
        [least, ..] => {
            put_held(text, held)?;
            let stamp = Shown { stamp: *least };
            put(text, format_args!("; {stamp}"))?;
            let awaited = awaited_of(alloc, world, member, *least)?;
            put_waiting(text, &awaited)
        }
    }
}

// What a member holds back, and what for.
#[tactic(auto, unfolding(crate::specs::TraceText::state_text))]
fn put_state(
    alloc: Global,
    text: &mut Vec<u8>,
    world: &World,
    member: &Member,
) -> Result<(), AllocError>
    ensures { OnOk result (text.new.items ≡ text.old.items ++ state_text world.now (node_of member.now)) }
{
    let held = held_of(alloc, world, member)?;
    let number = member.number();
    put(text, format_args!("  member {number} holds"))?;
    put_holding(alloc, text, world, member, &held)
}

// A command behind a blank.
#[derive(Drop)]
struct CommandTeller;

impl Teller<Command, u8> for CommandTeller {
    ghost told_of = { λ teller command. asked_text command };

    fn put(&self, text: &mut Vec<u8>, command: &Command) -> Result<(), AllocError> {
        text.extend_from_slice(b" ")?;
        put_command(text, command)
    }
}

// What a member has sent, with the commands.
fn put_sent(
    text: &mut Vec<u8>,
    member: &Member,
    stamp: Stamp,
    commands: &[Command],
) -> Result<(), AllocError>
    ensures { OnOk result (text.new.items ≡ text.old.items ++ sent_text (node_of member.now) stamp commands.now) }
{
    let (number, sent) = (member.number(), member.sent().len());
    let stamp = Shown { stamp };
    put(
        text,
        format_args!("member {number} sends message {sent} at {stamp}"),
    )?;
    put_all(text, &CommandTeller, commands)?;
    text.extend_from_slice(b"\n")
}

// The acknowledgement of a message.
fn put_acknowledged(text: &mut Vec<u8>, acknowledged: Option<Stamp>) -> Result<(), AllocError>
    ensures { OnOk result (text.new.items ≡ text.old.items ++ acknowledged_text acknowledged) }
{
    match acknowledged {
        None => Ok(()),
        Some(stamp) => {
            let stamp = Shown { stamp };
            put(text, format_args!(", and acknowledges it at {stamp}"))
        }
    }
}

// What a member has taken.
fn put_taken(
    text: &mut Vec<u8>,
    at: u32,
    from: u32,
    number: u32,
    acknowledged: Option<Stamp>,
) -> Result<(), AllocError>
    ensures { OnOk result (text.new.items ≡ text.old.items ++ taken_text at from number acknowledged) }
{
    put(
        text,
        format_args!("member {at} takes message {number} of member {from}"),
    )?;
    put_acknowledged(text, acknowledged)?;
    text.extend_from_slice(b"\n")
}

/// The record at a place of a history.
pub(crate) fn record_of(history: &[Record], place: Option<usize>) -> Option<&Record>
    ensures { option_copied result ≡ record_at history.now place }
{
    match place {
        Some(place) => history.get(place),
        None => None,
    }
}

// What a member has delivered.
fn put_delivered(
    text: &mut Vec<u8>,
    member: &Member,
    delivered: Option<&Record>,
) -> Result<(), AllocError>
    ensures { OnOk result (text.new.items ≡ text.old.items ++ delivered_text (node_of member.now) (option_copied delivered.entry)) }
{
    let number = member.number();
    match delivered {
        None => put(text, format_args!("member {number} delivers nothing\n")),
        Some(record) => {
            let stamp = Shown {
                stamp: record.stamp,
            };
            put(text, format_args!("member {number} delivers {stamp}: "))?;
            put_answer(text, &record.answer)?;
            text.extend_from_slice(b"\n")
        }
    }
}

// What a member has submitted.
fn put_submitted(
    text: &mut Vec<u8>,
    member: &Member,
    event: &Event,
    stamp: Stamp,
) -> Result<(), AllocError>
    ensures { OnOk result (text.new.items ≡ text.old.items ++ submitted_text (node_of member.now) event.now stamp) }
{
    match event {
        Event::Submit { command, .. } => put_sent(
            text,
            member,
            stamp,
            slice::from_ref(command.get()),
        ),
        Event::SubmitBatch { commands, .. } => put_sent(text, member, stamp, commands.as_slice()),
        Event::Receive { .. } | Event::Deliver { .. } => text.extend_from_slice(b"\n"),
    }
}

// What a receipt has done.
fn put_receipt(
    text: &mut Vec<u8>,
    event: &Event,
    acknowledged: Option<Stamp>,
) -> Result<(), AllocError>
    ensures { OnOk result (text.new.items ≡ text.old.items ++ received_text event.now acknowledged) }
{
    match event {
        Event::Receive { at, from, number } => put_taken(text, *at, *from, *number, acknowledged),
        Event::Submit { .. } | Event::SubmitBatch { .. } | Event::Deliver { .. } => {
            text.extend_from_slice(b"\n")
        }
    }
}

// What an event has done at its member.
#[tactic(auto, unfolding(crate::specs::TraceText::done_text))]
fn put_outcome(
    text: &mut Vec<u8>,
    member: &Member,
    event: &Event,
    outcome: Outcome,
) -> Result<(), AllocError>
    ensures { OnOk result (text.new.items ≡ text.old.items ++ done_text (node_of member.now) event.now outcome) }
{
    match outcome {
        Outcome::Submitted(stamp) => put_submitted(text, member, event, stamp),
        Outcome::Received(acknowledged) => put_receipt(text, event, acknowledged),
        Outcome::Delivered(place) => {
            put_delivered(text, member, record_of(member.history(), place))
        }
    }
}

/// The member that an event is for.
pub(crate) fn member_of(event: &Event) -> u32
    ensures { result ≡ member_of event.now }
{
    match event {
        Event::Submit { at, .. }
        | Event::SubmitBatch { at, .. }
        | Event::Receive { at, .. }
        | Event::Deliver { at } => *at,
    }
}

// What the event of a line has done.
fn put_step(
    alloc: Global,
    text: &mut Vec<u8>,
    world: &World,
    event: &Event,
    outcome: Outcome,
) -> Result<(), AllocError>
    ensures { OnOk result (text.new.items ≡ text.old.items ++ event_text world.now event.now outcome) }
{
    let Some(member) = world.member(member_of(event)) else {
        return text.extend_from_slice(b"\n");
    };
    put_outcome(text, member, event, outcome)?;
    put_state(alloc, text, world, member)
}

/// What the event of a line has done in the world, which is that after it: what its member sent, took or delivered, what it holds
/// back then, and whom it waits for.
///
/// # Errors
/// `AllocError` where there is no memory for it.
pub fn step_text(
    alloc: Global,
    line: u64,
    world: &World,
    event: &Event,
    outcome: Outcome,
) -> Result<Vec<u8>, AllocError>
    ensures { IfOk result (λ text. text.items ≡ step_text line world.now event.now outcome) }
{
    let mut text = Vec::new(alloc);
    put(&mut text, format_args!("line {line}: "))?;
    put_step(alloc, &mut text, world, event, outcome)?;
    Ok(text)
}

// The numbers of a member.
#[tactic(auto, unfolding(crate::specs::TraceText::numbers_text))]
fn put_numbers(
    text: &mut Vec<u8>,
    number: u32,
    clock: u64,
    sent: usize,
    delivered: usize,
) -> Result<(), AllocError>
    ensures { OnOk result (text.new.items ≡ text.old.items ++ numbers_text number clock sent delivered) }
{
    put(text, format_args!("  member {number}: clock {clock}"))?;
    put(text, format_args!(", messages sent {sent}"))?;
    put(text, format_args!(", commands delivered {delivered}\n"))
}

// Where the member of a number stands, if there is one.
#[derive(Drop)]
struct StandingTeller<'w> {
    alloc: Global,
    world: &'w World,
}

impl Teller<u32, u8> for StandingTeller<'_> {
    ghost told_of = { λ teller k. standing_text teller.world.now k };

    fn put(&self, text: &mut Vec<u8>, number: &u32) -> Result<(), AllocError> {
        let Some(member) = self.world.member(*number) else {
            return Ok(());
        };
        put_numbers(
            text,
            member.number(),
            member.clock(),
            member.sent().len(),
            member.history().len(),
        )?;
        put_state(self.alloc, text, self.world, member)
    }
}

/// Where each member stands at the end.
///
/// # Errors
/// `AllocError` where there is no memory for it.
pub fn end_text(alloc: Global, world: &World) -> Result<Vec<u8>, AllocError>
    ensures { IfOk result (λ text. text.items ≡ end_text world.now) }
{
    let mut text = Vec::new(alloc);
    text.extend_from_slice(b"at the end:\n")?;
    let teller = StandingTeller { alloc, world };
    put_all(&mut text, &teller, &MEMBER_NUMBERS)?;
    Ok(text)
}
