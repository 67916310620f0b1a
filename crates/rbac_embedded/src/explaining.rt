//! Why a command would be denied, or a check is granted or refused.
ghost use Rattle.std.specs.Prelude.{◌≡◌, ◌++◌, ◌∷◌, codes, None, IfOk, OnOk};
ghost use Rattle.rbac_terms.specs.Rows.{first_denial};
ghost use Rattle.rbac_terms.specs.Denials.{denial_number, denial_word};
ghost use Rattle.rbac_terms.specs.declared.command.Command.TheVariants.{CheckAccess};
ghost use Rattle.rbac_text.specs.Pieces.{array_text, in_quotes};
ghost use Rattle.rbac_decide.specs.Hindrance.{told_by};
ghost use Rattle.rbac_embedded.specs.Explaining.{numbered, before_text, after_text, denied_text, granted_text, TellsUndenied, TellsWhy};

mod names;
mod roles;

use names::put_names;
use rbac_decide::Policy;
use rbac_reasons::{Explained, Explanation, Reason, hindrance, reason};
use rbac_terms::{Command, Denial, Name};
use rbac_text::pieces::{put_number, put_piece};
use roles::{put_chain, put_roles};
use std::alloc::{AllocError, Global};

// A number behind its key, and a comma.
#[tactic(auto, unfolding(crate::specs::Explaining::numbered))]
fn put_before_others(text: &mut Vec<u8>, key: &str, number: u32) -> Result<(), AllocError>
    ensures { OnOk result (text.new.items ≡ text.old.items ++ numbered key.now number) }
{
    put_number(text, key, u64::from(number))?;
    put_piece(text, ",")
}

// A set's number, or the roles of a cycle.
fn put_before(text: &mut Vec<u8>, explanation: &Explanation) -> Result<(), AllocError>
    ensures { OnOk result (text.new.items ≡ text.old.items ++ before_text explanation.now) }
{
    match explanation {
        Explanation::Nothing => Ok(()),
        Explanation::Breach { number, .. } => put_before_others(text, "\"cardinality\":", *number),
        Explanation::Size { number, .. } => put_before_others(text, "\"cardinality\":", *number),
        Explanation::Cycle { chain } => {
            put_chain(text, "\"chain\":", &chain.first, &chain.rest)?;
            put_piece(text, ",")
        }
    }
}

// The roles of a breach, or how many a set would have.
fn put_after(text: &mut Vec<u8>, explanation: &Explanation) -> Result<(), AllocError>
    ensures { OnOk result (text.new.items ≡ text.old.items ++ after_text explanation.now) }
{
    match explanation {
        Explanation::Nothing | Explanation::Cycle { .. } => Ok(()),
        Explanation::Breach { roles, .. } => put_roles(text, ",\"roles\":", roles.names()),
        Explanation::Size { size, .. } => put_number(text, ",\"size\":", *size as u64),
    }
}

fn put_word(text: &mut Vec<u8>, denial: Denial) -> Result<(), AllocError>
    ensures { OnOk result (text.new.items ≡ text.old.items ++ codes "\"denied\":\"" ++ denial_word denial ++ codes "\",\"names\":{") }
{
    put_piece(text, "\"denied\":\"")?;
    put_piece(text, denial.word())?;
    put_piece(text, "\",\"names\":{")
}

// What is told of a command that is denied.
fn denied_text(alloc: Global, explained: &Explained<'_>) -> Result<Vec<u8>, AllocError>
    ensures { IfOk result (λ text. text.items ≡ denied_text (told_by explained.now.hindrance) explained.now.explanation) }
{
    let denial = explained.hindrance.denial;
    let mut text = Vec::new(alloc);
    put_piece(&mut text, "{")?;
    put_before(&mut text, &explained.explanation)?;
    put_word(&mut text, denial)?;
    put_names(&mut text, explained.hindrance.named)?;
    put_number(&mut text, "},\"number\":", u64::from(denial.number()))?;
    put_after(&mut text, &explained.explanation)?;
    put_piece(&mut text, "}")?;
    Ok(text)
}

// What is told of a check that is granted.
fn granted_text(alloc: Global, reason: &Reason) -> Result<Vec<u8>, AllocError>
    ensures { IfOk result (λ text. text.items ≡ granted_text reason.now) }
{
    let mut text = Vec::new(alloc);
    put_chain(&mut text, "{\"chain\":", &reason.active, &reason.inherited)?;
    put_piece(&mut text, ",\"granted\":true}")?;
    Ok(text)
}

fn text_of(alloc: Global, told: &str) -> Result<Vec<u8>, AllocError>
    ensures { IfOk result (λ text. text.items ≡ told.now) }
{
    let mut text = Vec::new(alloc);
    put_piece(&mut text, told)?;
    Ok(text)
}

// What is told of a check that is not denied.
fn check_text(
    alloc: Global,
    policy: &Policy,
    session: &Name,
    operation: &Name,
    object: &Name,
) -> Result<Vec<u8>, AllocError>
    ensures { first_denial (CheckAccess session.now operation.now object.now) policy.now ≡ None → IfOk result (λ text. TellsUndenied (CheckAccess session.now operation.now object.now) policy.now text.items) }
{
    match reason(alloc, policy, session, operation, object)? {
        Some(found) => granted_text(alloc, &found),
        None => text_of(alloc, "{\"granted\":false}"),
    }
}

// What is told of a command that is not denied.
fn undenied_text(alloc: Global, policy: &Policy, command: &Command) -> Result<Vec<u8>, AllocError>
    ensures { first_denial command.now policy.now ≡ None → IfOk result (λ text. TellsUndenied command.now policy.now text.items) }
{
    match command {
        Command::CheckAccess {
            session,
            operation,
            object,
        } => check_text(alloc, policy, session, operation, object),
        _ => text_of(alloc, "{\"denied\":null}"),
    }
}

/// The text of why the command would be denied by this policy, or of why a check is granted or refused: an object, its keys in the order
/// of their bytes. Of a command that would be denied `denied` is the word of its first failing precondition and `number` its number,
/// `names` are what makes it fail, and beside them stand `roles` and `cardinality` of a breach of separation, the `chain` of a cycle,
/// `size` and `cardinality` of a set of a wrong size. Of a check `granted` says whether it is granted, and the `chain` by which roles. Of
/// any other command `denied` is null.
///
/// # Errors
/// `AllocError` where there is no memory for it.
pub fn explanation_text(
    alloc: Global,
    policy: &Policy,
    command: &Command,
) -> Result<Vec<u8>, AllocError>
    ensures { IfOk result (λ text. TellsWhy command.now policy.now text.items) }
{
    match hindrance(alloc, policy, command)? {
        Some(explained) => denied_text(alloc, &explained),
        None => undenied_text(alloc, policy, command),
    }
}
