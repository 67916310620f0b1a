//! The step of a group: what an event is for its members.
ghost use Rattle.std.specs.Prelude.{◌≡◌, ◌<◌, ◌+◌, ◌⊎◌, length, IfOk, IfErr};
ghost use Rattle.rbac_terms.specs.Vocabulary.{Vocabulary as VocabularyValue};
ghost use Rattle.rbac_words.specs.Group.{Group as GroupValue};
ghost use Rattle.rbac_words.specs.Keeping.Members.{AreMembers};
ghost use Rattle.rbac_words.specs.declared.event.Event.TheVariants as event;
ghost use Rattle.rbac_world.specs.Moves.{IsGroupStep};

use crate::moves;
use rbac_member::Member;
use rbac_words::{Commands, Event, Outcome, Refusal, SharedCommand};
use std::alloc::Global;

// The place of the member of this number.
pub(crate) fn place_of(members: &[Member], at: u32) -> Result<usize, Refusal>
    ensures place { IfOk result (λ place. (at ≡ place + 1) × (place < length members.now)) }
    ensures stranger { IfErr result (λ refusal. (refusal ≡ Refusal.UnknownMember) × ((at < 1) ⊎ (length members.now < at))) }
{
    if at < 1 || members.len() < at as usize {
        return Err(Refusal::UnknownMember);
    }
    Ok(at as usize - 1)
}

fn submit(
    members: &mut [Member],
    at: u32,
    caller: u32,
    serial: u32,
    command: &SharedCommand,
) -> Result<Outcome, Refusal>
    ensures { (group : GroupValue) (vocabulary : VocabularyValue) → AreMembers group vocabulary members.old → IsGroupStep group vocabulary members.old (event.Submit at caller serial command.now) result members.new }
{
    let place = match place_of(members, at) {
        Ok(place) => place,
        Err(refusal) => return Err(refusal),
    };
    moves::submit(&mut members[place], caller, serial, command)
}

fn submit_batch(
    members: &mut [Member],
    at: u32,
    caller: u32,
    serial: u32,
    commands: &Commands,
) -> Result<Outcome, Refusal>
    ensures { (group : GroupValue) (vocabulary : VocabularyValue) → AreMembers group vocabulary members.old → IsGroupStep group vocabulary members.old (event.SubmitBatch at caller serial commands.now) result members.new }
{
    let place = match place_of(members, at) {
        Ok(place) => place,
        Err(refusal) => return Err(refusal),
    };
    moves::submit_batch(&mut members[place], caller, serial, commands)
}

fn receive(members: &mut [Member], at: u32, from: u32, number: u32) -> Result<Outcome, Refusal>
    ensures { (group : GroupValue) (vocabulary : VocabularyValue) → AreMembers group vocabulary members.old → IsGroupStep group vocabulary members.old (event.Receive at from number) result members.new }
{
    let place = match place_of(members, at) {
        Ok(place) => place,
        Err(refusal) => return Err(refusal),
    };
    let sender = match place_of(members, from) {
        Ok(sender) => sender,
        Err(refusal) => return Err(refusal),
    };
    if place == sender {
        return Err(Refusal::FromSelf);
    }
    moves::receive_between(members, place, sender, number)
}

fn deliver(members: &mut [Member], alloc: Global, at: u32) -> Result<Outcome, Refusal>
    ensures { (group : GroupValue) (vocabulary : VocabularyValue) → AreMembers group vocabulary members.old → IsGroupStep group vocabulary members.old (event.Deliver at) result members.new }
{
    let place = match place_of(members, at) {
        Ok(place) => place,
        Err(refusal) => return Err(refusal),
    };
    moves::deliver(&mut members[place], alloc)
}

// One event: its outcome, or the first refusal that applies, which leaves the members as they were.
pub(crate) fn step(members: &mut [Member], alloc: Global, event: &Event) -> Result<Outcome, Refusal>
    ensures { (group : GroupValue) (vocabulary : VocabularyValue) → AreMembers group vocabulary members.old → IsGroupStep group vocabulary members.old event.now result members.new }
{
    match event {
        Event::Submit {
            at,
            caller,
            serial,
            command,
        } => submit(members, *at, *caller, *serial, command),
        Event::SubmitBatch {
            at,
            caller,
            serial,
            commands,
        } => submit_batch(members, *at, *caller, *serial, commands),
        Event::Receive { at, from, number } => receive(members, *at, *from, *number),
        Event::Deliver { at } => deliver(members, alloc, *at),
    }
}
