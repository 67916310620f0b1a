//! What a member's policy answers to what changes nothing.
ghost use Rattle.std.specs.Prelude.{◌≡◌, ◌≢◌, IfOk, IfErr, Ok, Err};
ghost use Rattle.rbac_terms.specs.Effect.{reply};
ghost use Rattle.rbac_text.specs.AnswerText.{answer_text};
ghost use Rattle.rbac_decide.specs.Asking.{is_question};
ghost use Rattle.rbac_embedded.specs.Status.{no_memory};
ghost use Rattle.rbac_embedded_member.specs.Status.{status_number};
ghost use Rattle.rbac_embedded_member.specs.Texts.{question_told, subjects};

use crate::status::MemberStatus;
use crate::texts::Told;
use rbac_decide::Policy;
use rbac_embedded::Status;
use rbac_embedded::subjects::subjects_text;
use rbac_member::Member;
use rbac_terms::{Answer, Command, Name};
use rbac_text::put_answer;
use std::alloc::{AllocError, Global};

// Whether a command asks, and changes nothing.
fn is_question(command: &Command) -> bool
    ensures { result ≡ is_question command.now }
{
    matches!(command, Command::CheckAccess { .. } | Command::Review(_))
}

// The answer to a check, which takes no memory.
fn check_access(policy: &Policy, session: &Name, operation: &Name, object: &Name) -> Answer
    ensures { result ≡ reply (Command.CheckAccess session.now operation.now object.now) policy.now }
{
    match policy.check(session, operation, object) {
        Ok(true) => Answer::Granted,
        Ok(false) => Answer::Refused,
        Err(denial) => Answer::Denied(denial),
    }
}

// The answer of a copy of the policy.
fn answer_of_copy(alloc: Global, policy: &Policy, command: &Command) -> Result<Answer, AllocError>
    ensures { IfOk result (λ answer. answer ≡ reply command.now policy.now) }
{
    let mut copy = policy.copy()?;
    let answer = copy.apply(alloc, command);
    drop(copy);
    answer
}

// The answer to a command, by a policy that stays as it is.
fn answer_to(alloc: Global, policy: &Policy, command: &Command) -> Result<Answer, AllocError>
    ensures { IfOk result (λ answer. answer ≡ reply command.now policy.now) }
{
    match command {
        Command::CheckAccess {
            session,
            operation,
            object,
        } => Ok(check_access(policy, session, operation, object)),
        _ => answer_of_copy(alloc, policy, command),
    }
}

// The text of the answer to a command.
fn answer_text(alloc: Global, policy: &Policy, command: &Command) -> Result<Vec<u8>, AllocError>
    ensures { IfOk result (λ text. text.items ≡ answer_text (reply command.now policy.now)) }
{
    let answer = answer_to(alloc, policy, command)?;
    let mut text = Vec::new(alloc);
    put_answer(&mut text, &answer)?;
    Ok(text)
}

/// The text of the answer that a review or a check would have by a member's policy.
pub fn question_told(alloc: Global, member: &Member, command: &Command) -> Told
    ensures text { IfOk result (λ text. question_told command.now member.now ≡ Ok text.items) }
    ensures none { IfErr result (λ status. status_number status ≢ no_memory → question_told command.now member.now ≡ Err status) }
{
    if !is_question(command) {
        return Err(MemberStatus::NotAReview);
    }
    match answer_text(alloc, member.policy(), command) {
        Ok(text) => Ok(text),
        Err(AllocError) => Err(MemberStatus::Plain(Status::NoMemory)),
    }
}

/// The text of who may perform the operation on the object by a member's policy.
pub fn subjects_told(alloc: Global, member: &Member, operation: &[u8], object: &[u8]) -> Told
    ensures text { IfOk result (λ text. subjects operation.now object.now member.now ≡ Ok text.items) }
    ensures none { IfErr result (λ status. status_number status ≢ no_memory → subjects operation.now object.now member.now ≡ Err status) }
{
    match subjects_text(alloc, member.policy(), operation, object) {
        Ok(text) => Ok(text),
        Err(status) => Err(MemberStatus::Plain(status)),
    }
}
