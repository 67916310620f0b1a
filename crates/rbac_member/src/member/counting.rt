//! What a member holds, and the serials that it counts.
ghost use Rattle.std.specs.Prelude.{◌≡◌, ◌≢◌, [], ◌∷◌, false, length, IfOk, OnOk, OnErr};
ghost use Rattle.std.specs.Result.{is_err};
ghost use Rattle.rbac_words.specs.Stamp.{insert_all};
ghost use Rattle.rbac_words.specs.Message.{submitted_at, submissions_of, in_turn, is_bad_batch as is_no_batch, has_bad_batch, stamp_of};
ghost use Rattle.rbac_holdback.specs.Holdback.{CanAllBeHeld};
ghost use Rattle.rbac_member.specs.Serials.{counted, counted_of};

use rbac_holdback::{Held, HeldQueue, Holdback};
use rbac_words::limits::MOST_COMMANDS;
use rbac_words::{Commands, Message, SharedCommand, Stamp};
use sorted_keys::SortedMap;
use std::alloc::{AllocError, Global};

// Whether so many commands, the first of them with this serial, are no batch.
pub(crate) fn is_bad_batch(serial: u32, count: usize) -> bool
    ensures { result ≡ is_no_batch serial count }
{
    count == 0
        || MOST_COMMANDS < count
        || u64::from(u32::MAX) < u64::from(serial) + count as u64 - 1
}

// The next serial of a caller of a member.
pub(crate) fn next_serial(serials: &SortedMap<(u32, u32), u64>, member: u32, caller: u32) -> u64
    ensures { result ≡ counted_of member caller serials.now.content }
{
    serials.get(&(member, caller)).copied().unwrap_or(0)
}

// Whether what was put was handed back for want of memory. It is dropped here, by one call whatever it is.
fn is_handed_back<T: Drop>(answer: Result<(), T>) -> bool
    ensures { result ≡ is_err answer }
{
    answer.is_err()
}

// Commands as they are held.
fn shared(
    alloc: Global,
    stamp: Stamp,
    caller: u32,
    serial: u32,
    commands: &Commands,
) -> Result<Vec<Held>, AllocError>
    requires first { stamp.place ≡ 0 }
    requires batch { is_no_batch serial (length commands.now) ≡ false }
    ensures { IfOk result (λ held. held.items ≡ in_turn stamp caller serial commands.now) }
{
    let mut held = Vec::new(alloc);
    for place in 0..commands.as_slice().len() {
        let command = commands.share(place)?;
        let place = place as u32;
        let item = Held {
            stamp: Stamp { place, ..stamp },
            caller,
            serial: serial + place,
            command,
        };
        held.push(item)?;
    }
    Ok(held)
}

// Holds a single command, which takes no list.
fn hold_one(
    held: &mut Holdback,
    stamp: Stamp,
    caller: u32,
    serial: u32,
    command: SharedCommand,
) -> Result<(), AllocError>
    requires fit { CanAllBeHeld held.old (in_turn stamp caller serial (command ∷ [])) }
    ensures held { OnOk result (held.new.held ≡ insert_all submitted_at (in_turn stamp caller serial (command ∷ [])) held.old.held) }
    ensures members { held.new.members ≡ held.old.members }
    ensures held_unchanged { OnErr result (held.new.held ≡ held.old.held) }
{
    let item = Held {
        stamp,
        caller,
        serial,
        command,
    };
    if is_handed_back(held.put(item)) {
        return Err(AllocError);
    }
    Ok(())
}

// Holds several commands, all or none.
fn hold_all(
    alloc: Global,
    held: &mut Holdback,
    stamp: Stamp,
    caller: u32,
    serial: u32,
    commands: &Commands,
) -> Result<(), AllocError>
    requires first { stamp.place ≡ 0 }
    requires batch { is_no_batch serial (length commands.now) ≡ false }
    requires fit { CanAllBeHeld held.old (in_turn stamp caller serial commands.now) }
    ensures held { OnOk result (held.new.held ≡ insert_all submitted_at (in_turn stamp caller serial commands.now) held.old.held) }
    ensures members { held.new.members ≡ held.old.members }
    ensures held_unchanged { OnErr result (held.new.held ≡ held.old.held) }
{
    if commands.as_slice().len() == 1 {
        return hold_one(held, stamp, caller, serial, commands.share(0)?);
    }
    let all = shared(alloc, stamp, caller, serial, commands)?;
    if is_handed_back(held.put_all(all)) {
        return Err(AllocError);
    }
    Ok(())
}

// Holds the commands of a message, where it has some, and counts them for their caller.
pub(crate) fn hold(
    alloc: Global,
    serials: &mut SortedMap<(u32, u32), u64>,
    held: &mut Holdback,
    message: &Message,
) -> Result<(), AllocError>
    requires first { (stamp_of message.now).place ≡ 0 }
    requires batch { has_bad_batch message.now ≡ false }
    requires fit { CanAllBeHeld held.old (submissions_of message.now) }
    ensures counted { OnOk result (serials.new.content ≡ counted message.now serials.old.content) }
    ensures held { OnOk result (held.new.held ≡ insert_all submitted_at (submissions_of message.now) held.old.held) }
    ensures members { held.new.members ≡ held.old.members }
    ensures serials_unchanged { OnErr result (serials.new.content ≡ serials.old.content) }
    ensures held_unchanged { OnErr result (held.new.held ≡ held.old.held) }
    ensures had_a_command { OnErr result (submissions_of message.now ≢ []) }
{
    match message {
        Message::Batch {
            stamp,
            caller,
            serial,
            commands,
        } => {
            serials.reserve(1)?;
            hold_all(alloc, held, *stamp, *caller, *serial, commands)?;
            serials.put(
                (stamp.member, *caller),
                u64::from(*serial) + commands.as_slice().len() as u64,
            );
            Ok(())
        }
        Message::Ack { .. } => Ok(()),
    }
}
