//! What a command would be answered, and why.
ghost use Rattle.std.specs.Prelude.{◌≡◌, ◌++◌, codes, IfOk, OnOk};
ghost use Rattle.std.specs.List.{flat_map};
ghost use Rattle.std.specs.FinMap.Entries.{find};
ghost use Rattle.rbac_terms.specs.Name.{name_cmp};
ghost use Rattle.rbac_terms.specs.Effect.{reply};
ghost use Rattle.rbac_terms.specs.Rows.{first_denial};
ghost use Rattle.rbac_terms.specs.declared.command.Command.TheVariants.{AddActiveRole, CheckAccess};
ghost use Rattle.rbac_pages.specs.WhyText.{inherits_text, granted_text, reason_text, activation_text, grantees_text, refused_text, verdict_of, TellsWhy};

use crate::explanation::{Explanation, Verdict};
use crate::grantees::grantees;
use crate::hindering::denied_text;
use crate::text::{Teller, put_all};
use rbac_decide::{Obstacle, Policy};
use rbac_reasons::{Reason, hindrance, reason};
use rbac_terms::{Command, Denial, Name};
use std::alloc::{AllocError, Global};

// The session and its active role.
fn put_active(text: &mut Vec<u8>, session: &Name, active: &Name) -> Result<(), AllocError>
    ensures { OnOk result (text.new.items ≡ text.old.items ++ codes "Granted: session " ++ session.now ++ codes " has the active role " ++ active.now ++ codes "\n") }
{
    text.extend_from_slice(b"Granted: session ")?;
    text.extend_from_slice(session.as_bytes())?;
    text.extend_from_slice(b" has the active role ")?;
    text.extend_from_slice(active.as_bytes())?;
    text.extend_from_slice(b"\n")
}

// A role that the one before it inherits.
fn put_inherited(text: &mut Vec<u8>, role: &Name) -> Result<(), AllocError>
    ensures { OnOk result (text.new.items ≡ text.old.items ++ inherits_text role.now) }
{
    text.extend_from_slice(b"  which inherits ")?;
    text.extend_from_slice(role.as_bytes())?;
    text.extend_from_slice(b"\n")
}

// Each of these roles, which the one before it inherits.
fn put_all_inherited(text: &mut Vec<u8>, roles: &[Name]) -> Result<(), AllocError>
    ensures { OnOk result (text.new.items ≡ text.old.items ++ flat_map inherits_text roles.now) }
{
    for role in roles {
        put_inherited(text, role)?;
    }
    Ok(())
}

// The permission.
fn put_permission(text: &mut Vec<u8>, operation: &Name, object: &Name) -> Result<(), AllocError>
    ensures { OnOk result (text.new.items ≡ text.old.items ++ granted_text (operation.now, object.now)) }
{
    text.extend_from_slice(b"  which is granted ")?;
    text.extend_from_slice(operation.as_bytes())?;
    text.extend_from_slice(b" ")?;
    text.extend_from_slice(object.as_bytes())?;
    text.extend_from_slice(b"\n")
}

// The text of a reason.
fn text_of(
    alloc: Global,
    session: &Name,
    operation: &Name,
    object: &Name,
    reason: &Reason,
) -> Result<Vec<u8>, AllocError>
    ensures { IfOk result (λ text. text.items ≡ reason_text session.now (operation.now, object.now) reason.now) }
{
    let mut text = Vec::new(alloc);
    put_active(&mut text, session, &reason.active)?;
    put_all_inherited(&mut text, &reason.inherited)?;
    put_permission(&mut text, operation, object)?;
    Ok(text)
}

// Whether a role can be activated in the session by its owner.
fn put_activation(
    alloc: Global,
    text: &mut Vec<u8>,
    policy: &Policy,
    command: &Command,
) -> Result<(), AllocError>
    ensures { OnOk result (text.new.items ≡ text.old.items ++ activation_text (first_denial command.now policy.now)) }
{
    match policy.decide(alloc, command) {
        Ok(_) => text.extend_from_slice(b" would grant it, and can be activated\n"),
        Err(Obstacle::Denied(hindrance)) => put_denied(text, hindrance.denial),
        Err(Obstacle::NoMemory) => Err(AllocError),
    }
}

// That a role can't be activated.
fn put_denied(text: &mut Vec<u8>, denial: Denial) -> Result<(), AllocError>
    ensures { OnOk result (text.new.items ≡ text.old.items ++ activation_text (Some denial)) }
{
    text.extend_from_slice(b" would grant it, but activating it is denied: ")?;
    text.extend_from_slice(denial.word().as_bytes())?;
    text.extend_from_slice(b"\n")
}

// The command by which the role is activated.
fn activation(owner: &Name, session: &Name, role: &Name) -> Result<Command, AllocError>
    ensures { IfOk result (λ command. command ≡ AddActiveRole owner.now session.now role.now) }
{
    Ok(Command::AddActiveRole {
        user: owner.copy()?,
        session: session.copy()?,
        role: role.copy()?,
    })
}

// A role that would grant a check, and whether it can be activated.
#[derive(Drop)]
struct GranteeTeller<'p> {
    alloc: Global,
    policy: &'p Policy,
    owner: &'p Name,
    session: &'p Name,
}

impl Teller<Name, u8> for GranteeTeller<'_> {
    ghost use Rattle.rbac_pages.specs.WhyText.{grantee_text};

    ghost told_of = { λ teller role. grantee_text teller.policy.now teller.owner.now teller.session.now role };

    fn put(&self, text: &mut Vec<u8>, role: &Name) -> Result<(), AllocError> {
        text.extend_from_slice(b"  ")?;
        text.extend_from_slice(role.as_bytes())?;
        let command = activation(self.owner, self.session, role)?;
        let done = put_activation(self.alloc, text, self.policy, &command);
        drop(command);
        done
    }
}

// Each role that would grant the check.
fn put_grantees(
    alloc: Global,
    text: &mut Vec<u8>,
    policy: &Policy,
    session: &Name,
    operation: &Name,
    object: &Name,
) -> Result<(), AllocError>
    ensures { OnOk result (text.new.items ≡ text.old.items ++ grantees_text policy.now session.now (operation.now, object.now) (find name_cmp session.now policy.now.sessions)) }
{
    let Some(found) = policy.session(session) else {
        return Ok(());
    };
    let roles = grantees(alloc, policy, operation, object)?;
    let teller = GranteeTeller {
        alloc,
        policy,
        owner: &found.owner,
        session,
    };
    put_all(text, &teller, &roles)
}

// What is told of a check that is refused.
fn refused_text(
    alloc: Global,
    policy: &Policy,
    session: &Name,
    operation: &Name,
    object: &Name,
) -> Result<Vec<u8>, AllocError>
    ensures { IfOk result (λ text. text.items ≡ refused_text policy.now session.now (operation.now, object.now)) }
{
    let mut text = Vec::new(alloc);
    text.extend_from_slice(
        b"Refused: no active role has the permission, itself or by a role that it inherits\n",
    )?;
    put_grantees(alloc, &mut text, policy, session, operation, object)?;
    Ok(text)
}

// What is told of a check that is not denied.
fn explain_check(
    alloc: Global,
    policy: &Policy,
    session: &Name,
    operation: &Name,
    object: &Name,
) -> Result<Explanation, AllocError>
    ensures verdict { first_denial (CheckAccess session.now operation.now object.now) policy.now ≡ None → IfOk result (λ told. told.verdict ≡ verdict_of (reply (CheckAccess session.now operation.now object.now) policy.now)) }
    ensures text { first_denial (CheckAccess session.now operation.now object.now) policy.now ≡ None → IfOk result (λ told. TellsWhy (CheckAccess session.now operation.now object.now) policy.now told.text.items) }
{
    match reason(alloc, policy, session, operation, object)? {
        Some(found) => Ok(Explanation {
            verdict: Verdict::Allowed,
            text: text_of(alloc, session, operation, object, &found)?,
        }),
        None => Ok(Explanation {
            verdict: Verdict::Refused,
            text: refused_text(alloc, policy, session, operation, object)?,
        }),
    }
}

// What is told of a command in whose way nothing stands.
fn explain_allowed(
    alloc: Global,
    policy: &Policy,
    command: &Command,
) -> Result<Explanation, AllocError>
    ensures verdict { first_denial command.now policy.now ≡ None → IfOk result (λ told. told.verdict ≡ verdict_of (reply command.now policy.now)) }
    ensures text { first_denial command.now policy.now ≡ None → IfOk result (λ told. TellsWhy command.now policy.now told.text.items) }
{
    match command {
        Command::CheckAccess {
            session,
            operation,
            object,
        } => explain_check(alloc, policy, session, operation, object),
        _ => {
            let mut text = Vec::new(alloc);
            text.extend_from_slice(b"Not denied: no precondition fails\n")?;
            Ok(Explanation {
                verdict: Verdict::Allowed,
                text,
            })
        }
    }
}

/// What a command would be answered, and why. Where it is denied, the word of its denial, and by names what makes its first failing
/// precondition fail. Where it is a check that is granted, an active role of the session and the roles from it, each inherited by the
/// one before it, down to one that is granted the permission; where that is refused, each role that would grant it, and whether the
/// session's owner can activate it.
///
/// # Errors
/// `AllocError` where there is no memory for it.
pub fn why(alloc: Global, policy: &Policy, command: &Command) -> Result<Explanation, AllocError>
    ensures verdict { IfOk result (λ told. told.verdict ≡ verdict_of (reply command.now policy.now)) }
    ensures text { IfOk result (λ told. TellsWhy command.now policy.now told.text.items) }
{
    match hindrance(alloc, policy, command)? {
        Some(found) => {
            let text = denied_text(alloc, &found);
            drop(found);
            Ok(Explanation {
                verdict: Verdict::Denied,
                text: text?,
            })
        }
        None => explain_allowed(alloc, policy, command),
    }
}
