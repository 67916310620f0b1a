//! What a member receives in a place where it acts, or only observes.
ghost use Rattle.std.specs.Prelude.{◌≡◌, ◌≢◌, None, IfOk, IfErr, OnOk, Ok, Err};
ghost use Rattle.rbac_words.specs.World.{must_acknowledge};
ghost use Rattle.rbac_words.specs.Keeping.Member.{node_of, message_refusal};
ghost use Rattle.rbac_member.specs.Calls.{receipt_refused, rule_of};
ghost use Rattle.rbac_embedded.specs.Status.{no_memory};
ghost use Rattle.rbac_embedded_member.specs.Status.{status_number};
ghost use Rattle.rbac_embedded_member.specs.Observing.{answer, quiet_step, quiet_told, receipt};

use crate::status::MemberStatus;
use crate::steps;
use crate::steps::refused;
use crate::texts::{Told, first_answer, not_told};
use rbac_member::{Member, ReceiveRefusal};
use rbac_words::{Message, Refusal};
use std::alloc::Global;

// Whether a message would be acknowledged, where it is received.
fn wants_answer(
    member: &Member,
    from: u32,
    number: u32,
    message: &Message,
) -> Result<bool, ReceiveRefusal>
    ensures wanted { IfOk result (λ wanted. wanted ≡ must_acknowledge (node_of member.now) message.now) }
    ensures accepted { OnOk result (message_refusal member.now from number message.now ≡ None) }
    ensures first_refusal { IfErr result (λ refusal. message_refusal member.now from number message.now ≡ rule_of (receipt_refused refusal)) }
{
    let stamp = member.first_answer(from, number, message)?;
    Ok(stamp.is_some())
}

// Receives a message, unless it would be acknowledged.
fn receive_quietly(
    member: &mut Member,
    from: u32,
    number: u32,
    message: &Message,
    told: &mut u64,
) -> MemberStatus
    ensures status { status_number result ≢ no_memory → result ≡ (quiet_step from number message.now member.old).status }
    ensures member { status_number result ≢ no_memory → member.new ≡ (quiet_step from number message.now member.old).member }
    ensures number { status_number result ≢ no_memory → told.new ≡ (quiet_step from number message.now member.old).told }
    ensures unchanged { status_number result ≡ no_memory → member.new ≡ member.old }
    ensures no_number { status_number result ≡ no_memory → told.new ≡ 0 }
{
    *told = 0;
    match wants_answer(member, from, number, message) {
        Ok(true) => MemberStatus::NotYet,
        Ok(false) => steps::receive(member, from, number, message, told),
        Err(refusal) => refused(Refusal::from(refusal), told),
    }
}

/// Receives a message of another member in a place that acts, or only observes.
pub(crate) fn receive(
    member: &mut Member,
    observes: bool,
    from: u32,
    number: u32,
    message: &Message,
    told: &mut u64,
) -> MemberStatus
    ensures status { status_number result ≢ no_memory → result ≡ (receipt observes from number message.now member.old).status }
    ensures member { status_number result ≢ no_memory → member.new ≡ (receipt observes from number message.now member.old).member }
    ensures number { status_number result ≢ no_memory → told.new ≡ (receipt observes from number message.now member.old).told }
    ensures unchanged { status_number result ≡ no_memory → member.new ≡ member.old }
    ensures no_number { status_number result ≡ no_memory → told.new ≡ 0 }
{
    if observes {
        receive_quietly(member, from, number, message, told)
    } else {
        steps::receive(member, from, number, message, told)
    }
}

// No bytes, unless a message would be acknowledged.
fn quiet_answer(alloc: Global, member: &Member, from: u32, number: u32, message: &Message) -> Told
    ensures text { IfOk result (λ text. quiet_told from number message.now member.now ≡ Ok text.items) }
    ensures none { IfErr result (λ status. status_number status ≢ no_memory → quiet_told from number message.now member.now ≡ Err status) }
{
    match wants_answer(member, from, number, message) {
        Ok(true) => Err(MemberStatus::NotYet),
        Ok(false) => Ok(Vec::new(alloc)),
        Err(refusal) => Err(not_told(Refusal::from(refusal))),
    }
}

/// The text of the acknowledgement that a message wants before it is received, in a place that acts, or only observes.
pub(crate) fn next_answer(
    alloc: Global,
    member: &Member,
    observes: bool,
    from: u32,
    number: u32,
    message: &Message,
) -> Told
    ensures text { IfOk result (λ text. answer observes from number message.now member.now ≡ Ok text.items) }
    ensures none { IfErr result (λ status. status_number status ≢ no_memory → answer observes from number message.now member.now ≡ Err status) }
{
    if observes {
        quiet_answer(alloc, member, from, number, message)
    } else {
        first_answer(alloc, member, from, number, message)
    }
}
