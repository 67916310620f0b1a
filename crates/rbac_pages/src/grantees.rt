//! The roles that have a permission, and who has it by one of them.
ghost use Rattle.std.specs.Prelude.{◌≡◌, ◌++◌, ◌∷◌, [], codes, filter, IfOk, OnOk};
ghost use Rattle.std.specs.List.{flat_map, list_any, find as first_where};
ghost use Rattle.std.specs.Option.{option_copied};
ghost use Rattle.sorted_keys.specs.Keys.{has};
ghost use Rattle.rbac_terms.specs.Name.{name_cmp, grant_cmp};
ghost use Rattle.rbac_terms.specs.Authorization.{is_authorized};
ghost use Rattle.rbac_pages.specs.GranteeText.{is_grantee, grantees, by_role_text, may_text, session_may_text, who_has_text, no_permission_text, TellsWho};

use crate::explanation::{Explanation, Verdict};
use crate::text::{Teller, put_all};
use rbac_decide::{Policy, Session};
use rbac_reasons::{authorized_roles, juniors};
use rbac_terms::{Name, NameSet};
use std::alloc::{AllocError, Global};

// Whether one of these roles itself is granted the permission.
fn is_granted_one(policy: &Policy, operation: &Name, object: &Name, roles: &[Name]) -> bool
    ensures { result ≡ list_any (λ role. has grant_cmp ((operation.now, object.now), role) policy.now.granted) roles.now }
{
    roles
        .iter()
        .any(|role| policy.is_granted(operation, object, role))
}

// Whether a role, or one that it inherits, is granted the permission.
fn is_grantee(
    alloc: Global,
    policy: &Policy,
    operation: &Name,
    object: &Name,
    role: &Name,
) -> Result<bool, AllocError>
    ensures { IfOk result (λ found. found ≡ is_grantee policy.now (operation.now, object.now) role.now) }
{
    let inherited = juniors(alloc, policy, role)?;
    Ok(is_granted_one(policy, operation, object, inherited.names()))
}

// One role more, if it has the permission.
fn add_grantee(
    alloc: Global,
    roles: &mut Vec<Name>,
    policy: &Policy,
    operation: &Name,
    object: &Name,
    role: &Name,
) -> Result<(), AllocError>
    ensures { OnOk result (roles.new.items ≡ roles.old.items ++ filter (is_grantee policy.now (operation.now, object.now)) (role.now ∷ [])) }
{
    if !is_grantee(alloc, policy, operation, object, role)? {
        return Ok(());
    }
    let copy = role.copy()?;
    roles.push(copy)?;
    Ok(())
}

/// The roles that have a permission, themselves or by a role that they inherit, in the order of the roles.
pub(crate) fn grantees(
    alloc: Global,
    policy: &Policy,
    operation: &Name,
    object: &Name,
) -> Result<Vec<Name>, AllocError>
    ensures { IfOk result (λ roles. roles.items ≡ grantees policy.now (operation.now, object.now)) }
{
    let mut roles = Vec::new(alloc);
    for role in policy.roles() {
        add_grantee(alloc, &mut roles, policy, operation, object, role)?;
    }
    Ok(roles)
}

// The first of the roles that is in the set.
fn first_in<'r>(roles: &'r [Name], set: &NameSet) -> Option<&'r Name>
    ensures { option_copied result ≡ first_where (λ role. has name_cmp role set.now) roles.now }
{
    roles.iter().find(|role| set.contains(role))
}

// The first of the roles that a user is authorized for.
fn first_authorized<'r>(
    alloc: Global,
    policy: &Policy,
    roles: &'r [Name],
    user: &Name,
) -> Result<Option<&'r Name>, AllocError>
    ensures { IfOk result (λ role. option_copied role ≡ first_where (is_authorized policy.now user.now) roles.now) }
{
    let authorized = authorized_roles(alloc, policy, user)?;
    Ok(first_in(roles, &authorized))
}

// By which role, behind who it is.
fn put_role(text: &mut Vec<u8>, role: &Name) -> Result<(), AllocError>
    ensures { OnOk result (text.new.items ≡ text.old.items ++ (codes " by role " ++ role.now ++ codes "\n")) }
{
    text.extend_from_slice(b" by role ")?;
    text.extend_from_slice(role.as_bytes())?;
    text.extend_from_slice(b"\n")
}

// A user by a role, if there is one.
fn put_user(text: &mut Vec<u8>, user: &Name, role: Option<&Name>) -> Result<(), AllocError>
    ensures { OnOk result (text.new.items ≡ text.old.items ++ by_role_text (codes "  " ++ user.now) (option_copied role.entry)) }
{
    let Some(role) = role else {
        return Ok(());
    };
    text.extend_from_slice(b"  ")?;
    text.extend_from_slice(user.as_bytes())?;
    put_role(text, role)
}

// A session and its owner by a role, if there is one.
fn put_session(
    text: &mut Vec<u8>,
    session: &Name,
    owner: &Name,
    role: Option<&Name>,
) -> Result<(), AllocError>
    ensures { OnOk result (text.new.items ≡ text.old.items ++ by_role_text (codes "  " ++ session.now ++ codes " of " ++ owner.now) (option_copied role.entry)) }
{
    let Some(role) = role else {
        return Ok(());
    };
    text.extend_from_slice(b"  ")?;
    text.extend_from_slice(session.as_bytes())?;
    text.extend_from_slice(b" of ")?;
    text.extend_from_slice(owner.as_bytes())?;
    put_role(text, role)
}

// A user that may, by the first of the roles that it is authorized for.
#[derive(Drop)]
struct UserTeller<'p> {
    alloc: Global,
    policy: &'p Policy,
    roles: &'p [Name],
}

impl Teller<Name, u8> for UserTeller<'_> {
    ghost use Rattle.rbac_pages.specs.GranteeText.{may_text};

    ghost told_of = { λ teller user. may_text teller.policy.now teller.roles.now user };

    fn put(&self, text: &mut Vec<u8>, user: &Name) -> Result<(), AllocError> {
        let role = first_authorized(self.alloc, self.policy, self.roles, user)?;
        put_user(text, user, role)
    }
}

// A session that may, by the first of the roles that is active in it.
#[derive(Drop)]
struct SessionTeller<'p> {
    roles: &'p [Name],
}

impl Teller<(Name, Session), u8> for SessionTeller<'_> {
    ghost use Rattle.rbac_pages.specs.GranteeText.{session_may_text};

    ghost told_of = { λ teller entry. session_may_text teller.roles.now entry };

    fn put(&self, text: &mut Vec<u8>, entry: &(Name, Session)) -> Result<(), AllocError> {
        let role = first_in(self.roles, &entry.1.active);
        put_session(text, &entry.0, &entry.1.owner, role)
    }
}

// The users.
fn put_users(
    alloc: Global,
    text: &mut Vec<u8>,
    policy: &Policy,
    roles: &[Name],
) -> Result<(), AllocError>
    ensures { OnOk result (text.new.items ≡ text.old.items ++ (codes "users that are authorized for a role with the permission\n" ++ flat_map (may_text policy.now roles.now) policy.now.users)) }
{
    text.extend_from_slice(b"users that are authorized for a role with the permission\n")?;
    let teller = UserTeller {
        alloc,
        policy,
        roles,
    };
    put_all(text, &teller, policy.users())
}

// The sessions.
fn put_sessions(
    alloc: Global,
    text: &mut Vec<u8>,
    policy: &Policy,
    roles: &[Name],
) -> Result<(), AllocError>
    ensures { OnOk result (text.new.items ≡ text.old.items ++ (codes "sessions in which such a role is active\n" ++ flat_map (session_may_text roles.now) policy.now.sessions)) }
{
    text.extend_from_slice(b"sessions in which such a role is active\n")?;
    let sessions = policy.sessions(alloc)?;
    put_all(text, &SessionTeller { roles }, &sessions)
}

// Who has a permission of the founding.
fn who_has(
    alloc: Global,
    policy: &Policy,
    operation: &Name,
    object: &Name,
) -> Result<Vec<u8>, AllocError>
    ensures { IfOk result (λ text. text.items ≡ who_has_text policy.now (operation.now, object.now)) }
{
    let roles = grantees(alloc, policy, operation, object)?;
    let mut text = Vec::new(alloc);
    put_users(alloc, &mut text, policy, &roles)?;
    put_sessions(alloc, &mut text, policy, &roles)?;
    Ok(text)
}

// That the founding has no such permission.
fn no_permission(alloc: Global, operation: &Name, object: &Name) -> Result<Vec<u8>, AllocError>
    ensures { IfOk result (λ text. text.items ≡ no_permission_text (operation.now, object.now)) }
{
    let mut text = Vec::new(alloc);
    text.extend_from_slice(b"Denied: NoPermission: the founding has no permission ")?;
    text.extend_from_slice(operation.as_bytes())?;
    text.extend_from_slice(b" on ")?;
    text.extend_from_slice(object.as_bytes())?;
    text.extend_from_slice(b"\n")?;
    Ok(text)
}

/// Who may perform an operation on an object: the users that are authorized for a role that has the permission, and the sessions in
/// which such a role is active, each by the first such role. A user of whom no session has such a role active may activate one. Where
/// the founding has no such permission, that is told, and the verdict is Denied.
///
/// # Errors
/// `AllocError` where there is no memory for it.
pub fn who(
    alloc: Global,
    policy: &Policy,
    operation: &Name,
    object: &Name,
) -> Result<Explanation, AllocError>
    ensures { IfOk result (TellsWho policy.now (operation.now, object.now)) }
{
    if policy.vocabulary().has_permission(operation, object) {
        let text = who_has(alloc, policy, operation, object)?;
        Ok(Explanation {
            verdict: Verdict::Allowed,
            text,
        })
    } else {
        let text = no_permission(alloc, operation, object)?;
        Ok(Explanation {
            verdict: Verdict::Denied,
            text,
        })
    }
}
