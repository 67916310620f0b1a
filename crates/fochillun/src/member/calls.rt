//! The calls of other languages on one member of a group: each takes the member out of its place, calls what is proved, and puts it back.
ghost use Rattle.std.specs.Prelude.{◌≡◌, ◌≢◌, false, true, None, length};
ghost use Rattle.rbac_words.specs.Message.{next_serial, submissions};
ghost use Rattle.rbac_member.specs.Calls.{taken_of};
ghost use Rattle.rbac_embedded.specs.Status.{no_memory};
ghost use Rattle.rbac_embedded_member.specs.Holding.{asked, check_status, number_status, number_told, open_status, opened_as, step_kept, step_status, step_told, text_buffer, text_length, text_status, waits_of, ReadsBack};
ghost use Rattle.rbac_embedded_member.specs.Observing.{acting_step, acting_told, answering, receiving};
ghost use Rattle.rbac_embedded_member.specs.Status.{status_number};
ghost use Rattle.rbac_embedded_member.specs.Step.{deliver_step, submit_batch_step, submit_step, take_own_step};
ghost use Rattle.rbac_embedded_member.specs.Texts.{message_at, next_submit, next_submit_batch, policy_dump, record_at, review, subjects};
ghost use Rattle.fochillun.specs.Waits.{told_waiting, told_waits};

use super::place::MemberPlace;
use rbac_embedded::Status;
use rbac_embedded_member::{MemberHolder, MemberStatus, Waiting};
use std::alloc::Global;

/// The least command that is held back, for a caller in another language: the stamp of its message, its place there, and the members that
/// it waits for. All zeros where nothing is held.
#[repr(C)]
#[derive(Clone, Copy, Debug, PartialEq, Eq, Drop)]
pub struct MemberWaiting {
    pub clock: u64,
    pub member: u32,
    pub place: u32,
    pub awaited: u32,
}

const NOTHING: MemberWaiting = MemberWaiting {
    clock: 0,
    member: 0,
    place: 0,
    awaited: 0,
};

fn told(least: Waiting) -> MemberWaiting
    ensures { result ≡ told_waiting least }
{
    MemberWaiting {
        clock: least.stamp.clock,
        member: least.stamp.member,
        place: least.stamp.place,
        awaited: least.awaited,
    }
}

/// Founds the member of this number in an empty place with what a founding file says.
#[unsafe(no_mangle)]
pub extern "C" fn member_open(
    place: &mut MemberPlace,
    alloc: Global,
    founding: &[u8],
    number: u32,
) -> u32
    ensures told { result ≢ no_memory → result ≡ status_number (open_status founding.now number place.old.slot.kept) }
    ensures opened { result ≢ no_memory → place.new.slot.kept ≡ opened_as false founding.now number place.old.slot.kept }
    ensures unchanged { result ≡ no_memory → place.new.slot.kept ≡ place.old.slot.kept }
{
    let mut holder = MemberHolder::of(place.take(alloc));
    let status = holder.open(alloc, founding, number);
    place.put(holder.into_kept());
    status.number()
}

/// Founds the member of this number in an empty place, as one that only observes.
#[unsafe(no_mangle)]
pub extern "C" fn member_observe(
    place: &mut MemberPlace,
    alloc: Global,
    founding: &[u8],
    number: u32,
) -> u32
    ensures told { result ≢ no_memory → result ≡ status_number (open_status founding.now number place.old.slot.kept) }
    ensures opened { result ≢ no_memory → place.new.slot.kept ≡ opened_as true founding.now number place.old.slot.kept }
    ensures unchanged { result ≡ no_memory → place.new.slot.kept ≡ place.old.slot.kept }
{
    let mut holder = MemberHolder::of(place.take(alloc));
    let status = holder.observe(alloc, founding, number);
    place.put(holder.into_kept());
    status.number()
}

/// Submits the command of a JSON object, as a caller's next one, and tells its message's number.
#[unsafe(no_mangle)]
pub extern "C" fn member_submit(
    place: &mut MemberPlace,
    alloc: Global,
    caller: u32,
    serial: u32,
    command: &[u8],
    told: &mut u64,
) -> u32
    ensures status { result ≢ no_memory → result ≡ status_number (step_status (acting_step (submit_step caller serial command.now)) place.old.slot.kept) }
    ensures kept { result ≢ no_memory → place.new.slot.kept ≡ step_kept (acting_step (submit_step caller serial command.now)) place.old.slot.kept }
    ensures number { result ≢ no_memory → told.new ≡ step_told (acting_step (submit_step caller serial command.now)) place.old.slot.kept }
    ensures unchanged { result ≡ no_memory → place.new.slot.kept ≡ place.old.slot.kept }
    ensures no_number { result ≡ no_memory → told.new ≡ 0 }
{
    let mut holder = MemberHolder::of(place.take(alloc));
    let status = holder.submit(alloc, caller, serial, command, told);
    place.put(holder.into_kept());
    status.number()
}

/// Submits the commands of a JSON array of objects together, as a caller's next ones, and tells their message's number.
#[unsafe(no_mangle)]
pub extern "C" fn member_submit_batch(
    place: &mut MemberPlace,
    alloc: Global,
    caller: u32,
    serial: u32,
    commands: &[u8],
    told: &mut u64,
) -> u32
    ensures status { result ≢ no_memory → result ≡ status_number (step_status (acting_step (submit_batch_step caller serial commands.now)) place.old.slot.kept) }
    ensures kept { result ≢ no_memory → place.new.slot.kept ≡ step_kept (acting_step (submit_batch_step caller serial commands.now)) place.old.slot.kept }
    ensures number { result ≢ no_memory → told.new ≡ step_told (acting_step (submit_batch_step caller serial commands.now)) place.old.slot.kept }
    ensures unchanged { result ≡ no_memory → place.new.slot.kept ≡ place.old.slot.kept }
    ensures no_number { result ≡ no_memory → told.new ≡ 0 }
{
    let mut holder = MemberHolder::of(place.take(alloc));
    let status = holder.submit_batch(alloc, caller, serial, commands, told);
    place.put(holder.into_kept());
    status.number()
}

/// Receives message `number` of member `from`, and tells the number of the acknowledgement that was sent.
#[unsafe(no_mangle)]
pub extern "C" fn member_receive(
    place: &mut MemberPlace,
    alloc: Global,
    from: u32,
    number: u32,
    message: &[u8],
    told: &mut u64,
) -> u32
    ensures status { result ≢ no_memory → result ≡ status_number (step_status (receiving from number message.now) place.old.slot.kept) }
    ensures kept { result ≢ no_memory → place.new.slot.kept ≡ step_kept (receiving from number message.now) place.old.slot.kept }
    ensures number { result ≢ no_memory → told.new ≡ step_told (receiving from number message.now) place.old.slot.kept }
    ensures unchanged { result ≡ no_memory → place.new.slot.kept ≡ place.old.slot.kept }
    ensures no_number { result ≡ no_memory → told.new ≡ 0 }
{
    let mut holder = MemberHolder::of(place.take(alloc));
    let status = holder.receive(alloc, from, number, message, told);
    place.put(holder.into_kept());
    status.number()
}

/// Takes message `number` of the member's own row, and tells its number.
#[unsafe(no_mangle)]
pub extern "C" fn member_take_own(
    place: &mut MemberPlace,
    alloc: Global,
    number: u32,
    message: &[u8],
    told: &mut u64,
) -> u32
    ensures status { result ≢ no_memory → result ≡ status_number (step_status (λ k. take_own_step number message.now k.member) place.old.slot.kept) }
    ensures kept { result ≢ no_memory → place.new.slot.kept ≡ step_kept (λ k. take_own_step number message.now k.member) place.old.slot.kept }
    ensures number { result ≢ no_memory → told.new ≡ step_told (λ k. take_own_step number message.now k.member) place.old.slot.kept }
    ensures unchanged { result ≡ no_memory → place.new.slot.kept ≡ place.old.slot.kept }
    ensures no_number { result ≡ no_memory → told.new ≡ 0 }
{
    let mut holder = MemberHolder::of(place.take(alloc));
    let status = holder.take_own(alloc, number, message, told);
    place.put(holder.into_kept());
    status.number()
}

/// Delivers the command that is due, and tells its record's number.
#[unsafe(no_mangle)]
pub extern "C" fn member_deliver(place: &mut MemberPlace, alloc: Global, told: &mut u64) -> u32
    ensures status { result ≢ no_memory → result ≡ status_number (step_status (λ k. deliver_step k.member) place.old.slot.kept) }
    ensures kept { result ≢ no_memory → place.new.slot.kept ≡ step_kept (λ k. deliver_step k.member) place.old.slot.kept }
    ensures number { result ≢ no_memory → told.new ≡ step_told (λ k. deliver_step k.member) place.old.slot.kept }
    ensures unchanged { result ≡ no_memory → place.new.slot.kept ≡ place.old.slot.kept }
    ensures no_number { result ≡ no_memory → told.new ≡ 0 }
{
    let mut holder = MemberHolder::of(place.take(alloc));
    let status = holder.deliver(alloc, told);
    place.put(holder.into_kept());
    status.number()
}

/// Puts the text of a message that the member sent into the buffer.
#[unsafe(no_mangle)]
pub extern "C" fn member_message(
    place: &mut MemberPlace,
    alloc: Global,
    number: usize,
    out: &mut [u8],
    written: &mut usize,
) -> u32
    ensures told { result ≢ no_memory → result ≡ status_number (text_status (asked (λ k. message_at number k.member) place.old.slot.kept) out.old) }
    ensures buffer { result ≢ no_memory → out.new ≡ text_buffer (asked (λ k. message_at number k.member) place.old.slot.kept) out.old }
    ensures length { result ≢ no_memory → written.new ≡ text_length (asked (λ k. message_at number k.member) place.old.slot.kept) }
    ensures reads_back { result ≡ 0 → ReadsBack number place.old.slot.kept }
    ensures unchanged { place.new.slot.kept ≡ place.old.slot.kept }
    ensures buffer_unchanged { result ≡ no_memory → out.new ≡ out.old }
    ensures no_length { result ≡ no_memory → written.new ≡ 0 }
{
    let holder = MemberHolder::of(place.take(alloc));
    let status = holder.message(alloc, number, out, written);
    place.put(holder.into_kept());
    status.number()
}

/// Puts the text of a record of the member's history into the buffer.
#[unsafe(no_mangle)]
pub extern "C" fn member_record(
    place: &mut MemberPlace,
    alloc: Global,
    number: usize,
    out: &mut [u8],
    written: &mut usize,
) -> u32
    ensures told { result ≢ no_memory → result ≡ status_number (text_status (asked (λ k. record_at number k.member) place.old.slot.kept) out.old) }
    ensures buffer { result ≢ no_memory → out.new ≡ text_buffer (asked (λ k. record_at number k.member) place.old.slot.kept) out.old }
    ensures length { result ≢ no_memory → written.new ≡ text_length (asked (λ k. record_at number k.member) place.old.slot.kept) }
    ensures unchanged { place.new.slot.kept ≡ place.old.slot.kept }
    ensures buffer_unchanged { result ≡ no_memory → out.new ≡ out.old }
    ensures no_length { result ≡ no_memory → written.new ≡ 0 }
{
    let holder = MemberHolder::of(place.take(alloc));
    let status = holder.record(alloc, number, out, written);
    place.put(holder.into_kept());
    status.number()
}

/// Puts the text of the message by which a submit of this command would send it into the buffer.
#[unsafe(no_mangle)]
pub extern "C" fn member_next_submit(
    place: &mut MemberPlace,
    alloc: Global,
    caller: u32,
    serial: u32,
    command: &[u8],
    out: &mut [u8],
    written: &mut usize,
) -> u32
    ensures told { result ≢ no_memory → result ≡ status_number (text_status (asked (acting_told (next_submit caller serial command.now)) place.old.slot.kept) out.old) }
    ensures buffer { result ≢ no_memory → out.new ≡ text_buffer (asked (acting_told (next_submit caller serial command.now)) place.old.slot.kept) out.old }
    ensures length { result ≢ no_memory → written.new ≡ text_length (asked (acting_told (next_submit caller serial command.now)) place.old.slot.kept) }
    ensures unchanged { place.new.slot.kept ≡ place.old.slot.kept }
    ensures buffer_unchanged { result ≡ no_memory → out.new ≡ out.old }
    ensures no_length { result ≡ no_memory → written.new ≡ 0 }
{
    let holder = MemberHolder::of(place.take(alloc));
    let status = holder.next_submit(alloc, caller, serial, command, out, written);
    place.put(holder.into_kept());
    status.number()
}

/// Puts the text of the message by which a submit of these commands would send them into the buffer.
#[unsafe(no_mangle)]
pub extern "C" fn member_next_submit_batch(
    place: &mut MemberPlace,
    alloc: Global,
    caller: u32,
    serial: u32,
    commands: &[u8],
    out: &mut [u8],
    written: &mut usize,
) -> u32
    ensures told { result ≢ no_memory → result ≡ status_number (text_status (asked (acting_told (next_submit_batch caller serial commands.now)) place.old.slot.kept) out.old) }
    ensures buffer { result ≢ no_memory → out.new ≡ text_buffer (asked (acting_told (next_submit_batch caller serial commands.now)) place.old.slot.kept) out.old }
    ensures length { result ≢ no_memory → written.new ≡ text_length (asked (acting_told (next_submit_batch caller serial commands.now)) place.old.slot.kept) }
    ensures unchanged { place.new.slot.kept ≡ place.old.slot.kept }
    ensures buffer_unchanged { result ≡ no_memory → out.new ≡ out.old }
    ensures no_length { result ≡ no_memory → written.new ≡ 0 }
{
    let holder = MemberHolder::of(place.take(alloc));
    let status = holder.next_submit_batch(alloc, caller, serial, commands, out, written);
    place.put(holder.into_kept());
    status.number()
}

/// Puts the text of the acknowledgement that message `number` of member `from` wants into the buffer; no bytes where none is wanted.
#[unsafe(no_mangle)]
pub extern "C" fn member_next_answer(
    place: &mut MemberPlace,
    alloc: Global,
    from: u32,
    number: u32,
    message: &[u8],
    out: &mut [u8],
    written: &mut usize,
) -> u32
    ensures told { result ≢ no_memory → result ≡ status_number (text_status (asked (answering from number message.now) place.old.slot.kept) out.old) }
    ensures buffer { result ≢ no_memory → out.new ≡ text_buffer (asked (answering from number message.now) place.old.slot.kept) out.old }
    ensures length { result ≢ no_memory → written.new ≡ text_length (asked (answering from number message.now) place.old.slot.kept) }
    ensures unchanged { place.new.slot.kept ≡ place.old.slot.kept }
    ensures buffer_unchanged { result ≡ no_memory → out.new ≡ out.old }
    ensures no_length { result ≡ no_memory → written.new ≡ 0 }
{
    let holder = MemberHolder::of(place.take(alloc));
    let status = holder.next_answer(alloc, from, number, message, out, written);
    place.put(holder.into_kept());
    status.number()
}

/// Puts the client lines that make the member's policy into the buffer.
#[unsafe(no_mangle)]
pub extern "C" fn member_dump(
    place: &mut MemberPlace,
    alloc: Global,
    out: &mut [u8],
    written: &mut usize,
) -> u32
    ensures told { result ≢ no_memory → result ≡ status_number (text_status (asked (λ k. policy_dump k.member) place.old.slot.kept) out.old) }
    ensures buffer { result ≢ no_memory → out.new ≡ text_buffer (asked (λ k. policy_dump k.member) place.old.slot.kept) out.old }
    ensures length { result ≢ no_memory → written.new ≡ text_length (asked (λ k. policy_dump k.member) place.old.slot.kept) }
    ensures unchanged { place.new.slot.kept ≡ place.old.slot.kept }
    ensures buffer_unchanged { result ≡ no_memory → out.new ≡ out.old }
    ensures no_length { result ≡ no_memory → written.new ≡ 0 }
{
    let holder = MemberHolder::of(place.take(alloc));
    let status = holder.dump(alloc, out, written);
    place.put(holder.into_kept());
    status.number()
}

/// How many messages of member `from` were received.
#[unsafe(no_mangle)]
pub extern "C" fn member_read(
    place: &mut MemberPlace,
    alloc: Global,
    from: u32,
    told: &mut u64,
) -> u32
    ensures status { result ≡ status_number (number_status place.old.slot.kept) }
    ensures number { told.new ≡ number_told (λ v. taken_of v from) place.old.slot.kept }
    ensures unchanged { place.new.slot.kept ≡ place.old.slot.kept }
{
    let holder = MemberHolder::of(place.take(alloc));
    let status = holder.read(from, told);
    place.put(holder.into_kept());
    status.number()
}

/// The serial of a caller's next command at this member.
#[unsafe(no_mangle)]
pub extern "C" fn member_next_serial(
    place: &mut MemberPlace,
    alloc: Global,
    caller: u32,
    told: &mut u64,
) -> u32
    ensures status { result ≡ status_number (number_status place.old.slot.kept) }
    ensures number { told.new ≡ number_told (λ v. next_serial caller (submissions v.sent)) place.old.slot.kept }
    ensures unchanged { place.new.slot.kept ≡ place.old.slot.kept }
{
    let holder = MemberHolder::of(place.take(alloc));
    let status = holder.next_serial(caller, told);
    place.put(holder.into_kept());
    status.number()
}

/// Tells the least command that is held back, and the members that it waits for.
#[unsafe(no_mangle)]
pub extern "C" fn member_waits(
    place: &mut MemberPlace,
    alloc: Global,
    waiting: &mut MemberWaiting,
) -> u32
    ensures status { result ≡ status_number (number_status place.old.slot.kept) }
    ensures waits { waiting.new ≡ told_waits (waits_of place.old.slot.kept) }
    ensures unchanged { place.new.slot.kept ≡ place.old.slot.kept }
{
    let holder = MemberHolder::of(place.take(alloc));
    let waits = holder.waits();
    place.put(holder.into_kept());
    match waits {
        Ok(least) => {
            *waiting = least.map_or(NOTHING, told);
            MemberStatus::Plain(Status::Done).number()
        }
        Err(status) => {
            *waiting = NOTHING;
            status.number()
        }
    }
}

/// Whether the session may perform the operation on the object by the policy that the member's history left. Tells how many records that
/// history has.
#[unsafe(no_mangle)]
pub extern "C" fn member_check(
    place: &mut MemberPlace,
    alloc: Global,
    session: &[u8],
    operation: &[u8],
    object: &[u8],
    told: &mut u64,
) -> u32
    ensures status { result ≡ status_number (check_status session.now operation.now object.now place.old.slot.kept) }
    ensures number { told.new ≡ number_told (λ v. length v.history) place.old.slot.kept }
    ensures unchanged { place.new.slot.kept ≡ place.old.slot.kept }
{
    let holder = MemberHolder::of(place.take(alloc));
    let status = holder.check(session, operation, object, told);
    place.put(holder.into_kept());
    status.number()
}

/// Puts the text of the answer that a review or a check would have by the member's policy into the buffer.
#[unsafe(no_mangle)]
pub extern "C" fn member_review(
    place: &mut MemberPlace,
    alloc: Global,
    command: &[u8],
    out: &mut [u8],
    written: &mut usize,
) -> u32
    ensures told { result ≢ no_memory → result ≡ status_number (text_status (asked (λ k. review command.now k.member) place.old.slot.kept) out.old) }
    ensures buffer { result ≢ no_memory → out.new ≡ text_buffer (asked (λ k. review command.now k.member) place.old.slot.kept) out.old }
    ensures length { result ≢ no_memory → written.new ≡ text_length (asked (λ k. review command.now k.member) place.old.slot.kept) }
    ensures unchanged { place.new.slot.kept ≡ place.old.slot.kept }
    ensures buffer_unchanged { result ≡ no_memory → out.new ≡ out.old }
    ensures no_length { result ≡ no_memory → written.new ≡ 0 }
{
    let holder = MemberHolder::of(place.take(alloc));
    let status = holder.review(alloc, command, out, written);
    place.put(holder.into_kept());
    status.number()
}

/// Puts the text of who may perform the operation on the object by the member's policy into the buffer.
#[unsafe(no_mangle)]
pub extern "C" fn member_subjects(
    place: &mut MemberPlace,
    alloc: Global,
    operation: &[u8],
    object: &[u8],
    out: &mut [u8],
    written: &mut usize,
) -> u32
    ensures told { result ≢ no_memory → result ≡ status_number (text_status (asked (λ k. subjects operation.now object.now k.member) place.old.slot.kept) out.old) }
    ensures buffer { result ≢ no_memory → out.new ≡ text_buffer (asked (λ k. subjects operation.now object.now k.member) place.old.slot.kept) out.old }
    ensures length { result ≢ no_memory → written.new ≡ text_length (asked (λ k. subjects operation.now object.now k.member) place.old.slot.kept) }
    ensures unchanged { place.new.slot.kept ≡ place.old.slot.kept }
    ensures buffer_unchanged { result ≡ no_memory → out.new ≡ out.old }
    ensures no_length { result ≡ no_memory → written.new ≡ 0 }
{
    let holder = MemberHolder::of(place.take(alloc));
    let status = holder.subjects(alloc, operation, object, out, written);
    place.put(holder.into_kept());
    status.number()
}

/// Ends the member of a place, and gives back all its memory.
#[unsafe(no_mangle)]
pub extern "C" fn member_close(place: &mut MemberPlace, alloc: Global) -> u32
    ensures told { result ≡ status_number (number_status place.old.slot.kept) }
    ensures closed { place.new.slot.kept ≡ None }
{
    let mut holder = MemberHolder::of(place.take(alloc));
    let status = holder.close();
    place.put(holder.into_kept());
    status.number()
}
