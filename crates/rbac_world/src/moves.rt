//! What one member of a group does upon an event.
ghost use Rattle.std.specs.Prelude.{◌≡◌, ◌≢◌, ◌<◌, ◌∷◌, [], true, false, length, IfSome, IfNone};
ghost use Rattle.rbac_words.specs.World.{message};
ghost use Rattle.rbac_words.specs.Keeping.Member.{node_of};
ghost use Rattle.rbac_words.specs.Keeping.Members.{member_at};
ghost use Rattle.rbac_world.specs.Moves.{IsMoved, IsMovedAt, is_sent, submit_of, receipt_of, delivery_of};

use rbac_member::Member;
use rbac_words::{Commands, Message, Outcome, Refusal, SharedCommand};
use std::alloc::{AllocError, Global};

pub(crate) fn submit(
    member: &mut Member,
    caller: u32,
    serial: u32,
    command: &SharedCommand,
) -> Result<Outcome, Refusal>
    ensures { IsMoved (submit_of member.old caller serial (command.now ∷ [])) member.old result member.new }
{
    match member.submit_copy(caller, serial, command) {
        Ok(stamp) => Ok(Outcome::Submitted(stamp)),
        Err(refusal) => Err(refusal.into()),
    }
}

pub(crate) fn submit_batch(
    member: &mut Member,
    caller: u32,
    serial: u32,
    commands: &Commands,
) -> Result<Outcome, Refusal>
    ensures { IsMoved (submit_of member.old caller serial commands.now) member.old result member.new }
{
    match member.submit_batch_copy(caller, serial, commands) {
        Ok(stamp) => Ok(Outcome::Submitted(stamp)),
        Err(refusal) => Err(refusal.into()),
    }
}

pub(crate) fn deliver(member: &mut Member, alloc: Global) -> Result<Outcome, Refusal>
    ensures { IsMoved (delivery_of member.old) member.old result member.new }
{
    match member.deliver(alloc) {
        Ok(place) => Ok(Outcome::Delivered(place)),
        Err(AllocError) => Err(Refusal::NoMemory),
    }
}

// Message `number` of what a member sent, counted from 1, if it was sent.
fn message_of(sender: &Member, number: u32) -> Option<&Message>
    ensures sent { IfSome result (λ m. m.now ≡ message (node_of sender.now) number) }
    ensures known { IfSome result (λ _. is_sent sender.now number ≡ true) }
    ensures not_sent { IfNone result (is_sent sender.now number ≡ false) }
{
    if number == 0 {
        return None;
    }
    sender.sent().get(number as usize - 1)
}

fn receive(receiver: &mut Member, sender: &Member, number: u32) -> Result<Outcome, Refusal>
    ensures { IsMoved (receipt_of receiver.old sender.now number) receiver.old result receiver.new }
{
    let Some(message) = message_of(sender, number) else {
        return Err(Refusal::NotSent);
    };
    match receiver.receive(sender.number(), number, message) {
        Ok(stamp) => Ok(Outcome::Received(stamp)),
        Err(refusal) => Err(refusal.into()),
    }
}

// Lets the member at one place receive a message of the member at another place.
pub(crate) fn receive_between(
    members: &mut [Member],
    place: usize,
    from: usize,
    number: u32,
) -> Result<Outcome, Refusal>
    requires at { place < length members.old }
    requires from { from < length members.old }
    requires other { place ≢ from }
    ensures { IsMovedAt place (receipt_of (member_at members.old place) (member_at members.old from) number) members.old result members.new }
{
    if place < from {
        let (front, back) = members.split_at_mut(from);
        receive(&mut front[place], &back[0], number)
    } else {
        let (front, back) = members.split_at_mut(place);
        receive(&mut back[0], &front[from], number)
    }
}
