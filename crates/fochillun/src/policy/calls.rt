//! The calls of other languages on a policy: each takes it out of its place, calls what is proved, and puts it back.
ghost use Rattle.std.specs.Prelude.{◌≡◌, ◌≢◌, None};
ghost use Rattle.rbac_embedded.specs.Holding.{answer_buffer, answer_length, answer_status, apply_buffer, apply_kept, apply_length, apply_status, asked, check_status, close_status, dump_buffer, dump_length, dump_status, open_status, opened, told_buffer, told_length, told_status, IsDumpRead};
ghost use Rattle.rbac_embedded.specs.Status.{no_memory, status_number};
ghost use Rattle.rbac_embedded.specs.Subjects.{subjects, Told};
ghost use Rattle.rbac_embedded.specs.Explaining.{IsExplanation};

use super::place::PolicyPlace;
use rbac_embedded::{Holder, Monitor};
use std::alloc::Global;

/// Founds a policy in an empty place with what a founding file says.
#[unsafe(no_mangle)]
pub extern "C" fn policy_open(place: &mut PolicyPlace, alloc: Global, founding: &[u8]) -> u32
    ensures told { result ≢ no_memory → result ≡ status_number (open_status founding.now place.old.slot.kept) }
    ensures opened { result ≢ no_memory → place.new.slot.kept ≡ opened founding.now place.old.slot.kept }
    ensures unchanged { result ≡ no_memory → place.new.slot.kept ≡ place.old.slot.kept }
{
    let mut holder = Holder::of(place.take(alloc));
    let status = holder.open(alloc, founding);
    place.put(holder.into_monitor());
    status.number()
}

/// Applies the command that a text asks for, a client line or a command by itself, and puts its answer's text into the buffer.
#[unsafe(no_mangle)]
pub extern "C" fn policy_apply(
    place: &mut PolicyPlace,
    alloc: Global,
    command: &[u8],
    out: &mut [u8],
    written: &mut usize,
) -> u32
    ensures told { result ≢ no_memory → result ≡ status_number (apply_status command.now out.old place.old.slot.kept) }
    ensures kept { result ≢ no_memory → place.new.slot.kept ≡ apply_kept command.now place.old.slot.kept }
    ensures buffer { result ≢ no_memory → out.new ≡ apply_buffer command.now out.old place.old.slot.kept }
    ensures length { result ≢ no_memory → written.new ≡ apply_length command.now place.old.slot.kept }
    ensures unchanged { result ≡ no_memory → place.new.slot.kept ≡ place.old.slot.kept }
    ensures buffer_unchanged { result ≡ no_memory → out.new ≡ out.old }
    ensures no_length { result ≡ no_memory → written.new ≡ 0 }
{
    let mut holder = Holder::of(place.take(alloc));
    let status = holder.apply(alloc, command, out, written);
    place.put(holder.into_monitor());
    status.number()
}

/// Puts the text of the last answer into the buffer again.
#[unsafe(no_mangle)]
pub extern "C" fn policy_answer(
    place: &mut PolicyPlace,
    alloc: Global,
    out: &mut [u8],
    written: &mut usize,
) -> u32
    ensures told { result ≡ status_number (answer_status out.old place.old.slot.kept) }
    ensures buffer { out.new ≡ answer_buffer out.old place.old.slot.kept }
    ensures length { written.new ≡ answer_length place.old.slot.kept }
    ensures unchanged { place.new.slot.kept ≡ place.old.slot.kept }
{
    let holder = Holder::of(place.take(alloc));
    let status = holder.answer(out, written);
    place.put(holder.into_monitor());
    status.number()
}

/// Whether the session may perform the operation on the object.
#[unsafe(no_mangle)]
pub extern "C" fn policy_check(
    place: &mut PolicyPlace,
    alloc: Global,
    session: &[u8],
    operation: &[u8],
    object: &[u8],
) -> u32
    ensures told { result ≡ status_number (check_status session.now operation.now object.now place.old.slot.kept) }
    ensures unchanged { place.new.slot.kept ≡ place.old.slot.kept }
{
    let holder = Holder::of(place.take(alloc));
    let status = holder.check(session, operation, object);
    place.put(holder.into_monitor());
    status.number()
}

/// Puts the text of why the command would be denied, or why a check is granted or refused, into the buffer.
#[unsafe(no_mangle)]
pub extern "C" fn policy_explain(
    place: &mut PolicyPlace,
    alloc: Global,
    command: &[u8],
    out: &mut [u8],
    written: &mut usize,
) -> u32
    ensures told { result ≢ no_memory → (told : Told) × IsExplanation command.now place.old.slot.kept told × (result ≡ status_number (told_status told out.old)) × (out.new ≡ told_buffer told out.old) × (written.new ≡ told_length told) }
    ensures unchanged { place.new.slot.kept ≡ place.old.slot.kept }
    ensures buffer_unchanged { result ≡ no_memory → out.new ≡ out.old }
    ensures no_length { result ≡ no_memory → written.new ≡ 0 }
{
    let holder = Holder::of(place.take(alloc));
    let status = holder.explain(alloc, command, out, written);
    place.put(holder.into_monitor());
    status.number()
}

/// Puts the text of who may perform the operation on the object into the buffer.
#[unsafe(no_mangle)]
pub extern "C" fn policy_subjects(
    place: &mut PolicyPlace,
    alloc: Global,
    operation: &[u8],
    object: &[u8],
    out: &mut [u8],
    written: &mut usize,
) -> u32
    ensures told { result ≢ no_memory → result ≡ status_number (told_status (asked (λ kept. subjects operation.now object.now kept.state) place.old.slot.kept) out.old) }
    ensures buffer { result ≢ no_memory → out.new ≡ told_buffer (asked (λ kept. subjects operation.now object.now kept.state) place.old.slot.kept) out.old }
    ensures length { result ≢ no_memory → written.new ≡ told_length (asked (λ kept. subjects operation.now object.now kept.state) place.old.slot.kept) }
    ensures unchanged { place.new.slot.kept ≡ place.old.slot.kept }
    ensures buffer_unchanged { result ≡ no_memory → out.new ≡ out.old }
    ensures no_length { result ≡ no_memory → written.new ≡ 0 }
{
    let holder = Holder::of(place.take(alloc));
    let status = holder.subjects(alloc, operation, object, out, written);
    place.put(holder.into_monitor());
    status.number()
}

/// Puts the client lines that make the policy again into the buffer, which an apply reads as just the dump's commands.
#[unsafe(no_mangle)]
pub extern "C" fn policy_dump(
    place: &mut PolicyPlace,
    alloc: Global,
    out: &mut [u8],
    written: &mut usize,
) -> u32
    ensures told { result ≢ no_memory → result ≡ status_number (dump_status out.old place.old.slot.kept) }
    ensures buffer { result ≢ no_memory → out.new ≡ dump_buffer out.old place.old.slot.kept }
    ensures length { result ≢ no_memory → written.new ≡ dump_length place.old.slot.kept }
    ensures reads { result ≢ no_memory → IsDumpRead place.old.slot.kept }
    ensures unchanged { place.new.slot.kept ≡ place.old.slot.kept }
    ensures buffer_unchanged { result ≡ no_memory → out.new ≡ out.old }
    ensures no_length { result ≡ no_memory → written.new ≡ 0 }
{
    let holder = Holder::of(place.take(alloc));
    let status = holder.dump(alloc, out, written);
    place.put(holder.into_monitor());
    status.number()
}

/// Ends the policy of a place, and gives back all its memory.
#[unsafe(no_mangle)]
pub extern "C" fn policy_close(place: &mut PolicyPlace, alloc: Global) -> u32
    ensures told { result ≡ status_number (close_status place.old.slot.kept) }
    ensures closed { place.new.slot.kept ≡ None }
{
    let mut holder = Holder::of(place.take(alloc));
    let status = holder.close();
    place.put(holder.into_monitor());
    status.number()
}
