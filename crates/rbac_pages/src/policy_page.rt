//! What a policy holds, as a page for people.
ghost use Rattle.std.specs.Prelude.{◌≡◌, ◌++◌, IfOk, OnOk};
ghost use Rattle.std.specs.List.{flat_map};
ghost use Rattle.rbac_pages.specs.PageText.{none_text, part_text, user_text, descendants_text, grant_text, role_line, session_text, set_text, page_text};

use crate::text::{NameTeller, SecondTeller, Teller, put, put_all};
use rbac_decide::{Policy, RoleSet, Session};
use rbac_reasons::{assignments_of, declarations_of};
use rbac_terms::{Name, Separation};
use std::alloc::{AllocError, Global};

// Says so where a part of the page has nothing.
fn put_none<T>(text: &mut Vec<u8>, things: &[T]) -> Result<(), AllocError>
    ensures { OnOk result (text.new.items ≡ text.old.items ++ none_text things.now) }
{
    match things {
        [] => text.extend_from_slice(b"  none\n"),
        _ => Ok(()),
    }
}

// A part of the page: what it is about, and a text for each thing of it.
#[tactic(auto, unfolding(crate::specs::PageText::part_text))]
fn put_part<T, L: Teller<T, u8>>(
    text: &mut Vec<u8>,
    head: &str,
    teller: &L,
    things: &[T],
) -> Result<(), AllocError>
    ensures { OnOk result (text.new.items ≡ text.old.items ++ part_text head.now (L.told_of teller.now) things.now) }
{
    text.extend_from_slice(head.as_bytes())?;
    put_none(text, things)?;
    put_all(text, teller, things)
}

// A user with the roles that it is assigned.
#[derive(Drop)]
struct UserTeller<'p> {
    policy: &'p Policy,
}

impl Teller<Name, u8> for UserTeller<'_> {
    ghost told_of = { λ teller user. user_text teller.policy.now user };

    fn put(&self, text: &mut Vec<u8>, user: &Name) -> Result<(), AllocError> {
        text.extend_from_slice(b"  ")?;
        text.extend_from_slice(user.as_bytes())?;
        text.extend_from_slice(b":")?;
        put_all(text, &SecondTeller, assignments_of(self.policy, user))?;
        text.extend_from_slice(b"\n")
    }
}

// A grant of the role.
#[derive(Drop)]
struct GrantTeller<'r> {
    role: &'r Name,
}

impl Teller<((Name, Name), Name), u8> for GrantTeller<'_> {
    ghost told_of = { λ teller grant. grant_text teller.role.now grant };

    fn put(&self, text: &mut Vec<u8>, grant: &((Name, Name), Name)) -> Result<(), AllocError> {
        if !self.role.cmp(&grant.1).is_eq() {
            return Ok(());
        }
        text.extend_from_slice(b"    may ")?;
        text.extend_from_slice(grant.0.0.as_bytes())?;
        text.extend_from_slice(b" ")?;
        text.extend_from_slice(grant.0.1.as_bytes())?;
        text.extend_from_slice(b"\n")
    }
}

// The roles that a role is declared above.
fn put_inherits(text: &mut Vec<u8>, declared: &[(Name, Name)]) -> Result<(), AllocError>
    ensures { OnOk result (text.new.items ≡ text.old.items ++ descendants_text declared.now) }
{
    match declared {
        [] => Ok(()),
        _ => {
            text.extend_from_slice(b" inherits")?;
            put_all(text, &SecondTeller, declared)
        }
    }
}

// A role with the roles that it is declared above.
#[tactic(auto, unfolding(crate::specs::PageText::role_line))]
fn put_role_line(text: &mut Vec<u8>, policy: &Policy, role: &Name) -> Result<(), AllocError>
    ensures { OnOk result (text.new.items ≡ text.old.items ++ role_line policy.now role.now) }
{
    text.extend_from_slice(b"  ")?;
    text.extend_from_slice(role.as_bytes())?;
    put_inherits(text, declarations_of(policy, role))?;
    text.extend_from_slice(b"\n")
}

// A role with the roles that it is declared above and its own grants.
#[derive(Drop)]
struct RoleTeller<'p> {
    policy: &'p Policy,
    grants: &'p [((Name, Name), Name)],
}

impl Teller<Name, u8> for RoleTeller<'_> {
    ghost told_of = { λ teller role. role_line teller.policy.now role ++ flat_map (grant_text role) teller.grants.now };

    fn put(&self, text: &mut Vec<u8>, role: &Name) -> Result<(), AllocError> {
        put_role_line(text, self.policy, role)?;
        put_all(text, &GrantTeller { role }, self.grants)
    }
}

// A session with its owner and its active roles.
#[derive(Drop)]
struct SessionTeller;

impl Teller<(Name, Session), u8> for SessionTeller {
    ghost told_of = { λ teller entry. session_text entry };

    fn put(&self, text: &mut Vec<u8>, entry: &(Name, Session)) -> Result<(), AllocError> {
        let (name, session) = entry;
        text.extend_from_slice(b"  ")?;
        text.extend_from_slice(name.as_bytes())?;
        text.extend_from_slice(b" of ")?;
        text.extend_from_slice(session.owner.as_bytes())?;
        text.extend_from_slice(b":")?;
        put_all(text, &NameTeller, session.active.names())?;
        text.extend_from_slice(b"\n")
    }
}

// A set with its number and its roles.
#[derive(Drop)]
struct SetTeller;

impl Teller<(Name, RoleSet), u8> for SetTeller {
    ghost told_of = { λ teller entry. set_text entry };

    fn put(&self, text: &mut Vec<u8>, entry: &(Name, RoleSet)) -> Result<(), AllocError> {
        let (name, set) = entry;
        text.extend_from_slice(b"  ")?;
        text.extend_from_slice(name.as_bytes())?;
        let most = set.cardinality;
        put(text, format_args!(", n = {most}:"))?;
        put_all(text, &NameTeller, set.roles.names())?;
        text.extend_from_slice(b"\n")
    }
}

/// The page of a policy: users with the roles that they are assigned, roles with their declared pairs and their own grants, sessions
/// with their owners and active roles, and the sets of both kinds with their numbers.
///
/// # Errors
/// `AllocError` where there is no memory for it.
pub fn page(alloc: Global, policy: &Policy) -> Result<Vec<u8>, AllocError>
    ensures { IfOk result (λ text. text.items ≡ page_text policy.now) }
{
    let grants = policy.grants(alloc)?;
    let sessions = policy.sessions(alloc)?;
    let mut text = Vec::new(alloc);
    put_part(
        &mut text,
        "users, and the roles that each is assigned\n",
        &UserTeller { policy },
        policy.users(),
    )?;
    put_part(
        &mut text,
        "roles, the roles that each is declared to inherit, and its own grants\n",
        &RoleTeller {
            policy,
            grants: &grants,
        },
        policy.roles(),
    )?;
    put_part(
        &mut text,
        "sessions, the owner of each, and its active roles\n",
        &SessionTeller,
        &sessions,
    )?;
    put_part(
        &mut text,
        "static sets: no user is authorized for n or more of the roles\n",
        &SetTeller,
        policy.separation_sets(Separation::Static),
    )?;
    put_part(
        &mut text,
        "dynamic sets: no session has n or more of the roles active\n",
        &SetTeller,
        policy.separation_sets(Separation::Dynamic),
    )?;
    Ok(text)
}
