//! The users and the sessions that may perform an operation on an object.
ghost use Rattle.std.specs.Prelude.{◌≡◌, ◌||◌, ◌&&◌, IfOk, OnOk, filter, map, slice_get};
ghost use Rattle.std.specs.List.{list_any};
ghost use Rattle.std.specs.Ordering.{eq_by_cmp};
ghost use Rattle.std.specs.FinMap.Entries.{find};
ghost use Rattle.sorted_keys.specs.Keys.{has};
ghost use Rattle.rbac_terms.specs.Name.{Name as NameValue, name_cmp};
ghost use Rattle.rbac_terms.specs.Authorization.{has_permission};
ghost use Rattle.rbac_terms.specs.Inheritance.{inherits};
ghost use Rattle.rbac_terms.specs.Rows.{found_and};
ghost use Rattle.rbac_terms.specs.Subjects.{permitted_users, permitted_sessions, session_names};
ghost use Rattle.rbac_review.specs.Among.{is_assigned_one, is_at_work};

use crate::hashed::HashedNames;
use crate::parts::Parts;
use rbac_hierarchy::{Hierarchy, RoleOrder};
use rbac_rolesets::RoleSets;
use rbac_sessions::{Session, Sessions};
use rbac_terms::{Name, NameSet};
use sorted_keys::KeyTest;
use std::alloc::{AllocError, Global};

/// Who may perform an operation on an object.
#[derive(Drop)]
pub struct Subjects {
    /// The users that have the permission by a role that they are authorized for.
    pub users: NameSet,
    /// The sessions that have it by a role that is active in them.
    pub sessions: NameSet,
}

// Whether the role inherits one of those that something is granted to.
fn inherits_one_of(hierarchy: &Hierarchy, role: &Name, grants: &[Name]) -> bool
    ensures { let h = hierarchy.now.content in result ≡ list_any (inherits h.roles h.declared role.now) grants.now }
{
    grants.iter().any(|grant| hierarchy.inherits(role, grant))
}

// The roles that inherit one of those that something is granted to.
#[derive(Drop)]
struct HeirsOf<'a> {
    hierarchy: &'a Hierarchy,
    grants: &'a [Name],
}

impl KeyTest<Name> for HeirsOf<'_> {
    ghost passes = { λ heirs role. list_any (inherits heirs.hierarchy.now.content.roles heirs.hierarchy.now.content.declared role) heirs.grants.now };

    fn test(&self, role: &Name) -> bool {
        inherits_one_of(self.hierarchy, role, self.grants)
    }
}

// The roles that inherit one of those that something is granted to, found by their hash.
fn heirs_of(
    alloc: Global,
    hierarchy: &Hierarchy,
    grants: &[Name],
) -> Result<HashedNames, AllocError>
    ensures { let h = hierarchy.now.content in IfOk result (λ heirs. (r : NameValue) → has name_cmp r heirs.names.keys ≡ has name_cmp r (filter (λ role. list_any (inherits h.roles h.declared role) grants.now) h.roles)) }
{
    let heirs = hierarchy.roles_where(alloc, &HeirsOf { hierarchy, grants })?;
    HashedNames::of(alloc, &heirs)
}

// The users that are assigned one of the roles.
fn users_with(alloc: Global, sets: &RoleSets, roles: &HashedNames) -> Result<NameSet, AllocError>
    ensures { let s = sets.now.content in IfOk result (λ users. users ≡ filter (is_assigned_one roles.now.names.keys s.assigned) s.users) }
{
    sets.users_assigned(alloc, roles)
}

// The names, and that of a session where one of the roles is active in it.
fn with_session(
    names: NameSet,
    roles: &HashedNames,
    name: &Name,
    session: &Session,
) -> Result<NameSet, AllocError>
    ensures { IfOk result (λ more. (q : NameValue) → has name_cmp q more ≡ (has name_cmp q names || (eq_by_cmp name_cmp q name.now && is_at_work roles.now.names.keys session.now))) }
{
    let mut more = names;
    if roles.has_one_of(session.active.names()) {
        more.add_copy(name)?;
    }
    Ok(more)
}

// The names, and that of the session at a place where one of the roles is active in it.
fn with_session_at(
    names: NameSet,
    roles: &HashedNames,
    sessions: &Sessions,
    place: usize,
) -> Result<NameSet, AllocError>
    ensures { IfOk result (λ more. (q : NameValue) → has name_cmp q more ≡ (has name_cmp q names || found_and (λ e. eq_by_cmp name_cmp q e.0 && is_at_work roles.now.names.keys e.1) (slice_get sessions.now.content place))) }
{
    match sessions.at(place) {
        Some(entry) => with_session(names, roles, &entry.0, &entry.1),
        None => Ok(names),
    }
}

// The sessions in which one of the roles is active.
fn sessions_with(
    alloc: Global,
    sessions: &Sessions,
    roles: &HashedNames,
) -> Result<NameSet, AllocError>
    ensures { let all = sessions.now.content in IfOk result (λ names. names ≡ filter (λ name. found_and (is_at_work roles.now.names.keys) (find name_cmp name all)) (map (λ e. e.0) all)) }
{
    sessions.invariants();
    let mut listed = NameSet::new(alloc);
    for place in 0..sessions.len() {
        listed = with_session_at(listed, roles, sessions, place)?;
    }
    let _in_order = listed.names();
    Ok(listed)
}

impl Parts<'_> {
    ghost use Rattle.rbac_review.specs.Parts.{state_of};

    // The roles that have the permission, themselves or by one that they inherit.
    fn roles_with(
        &self,
        alloc: Global,
        operation: &Name,
        object: &Name,
    ) -> Result<HashedNames, AllocError>
        ensures { IfOk result (λ roles. (r : NameValue) → has name_cmp r roles.names.keys ≡ has_permission (state_of self.now) (operation.now, object.now) r) }
    {
        let grants = self.sets.grants_of(operation, object);
        heirs_of(alloc, self.hierarchy, grants)
    }

    // Who has one of the roles that have a permission.
    fn subjects_of(&self, alloc: Global, roles: &HashedNames) -> Result<Subjects, AllocError>
        ensures users { let s = state_of self.now in IfOk result (λ subjects. subjects.users ≡ filter (is_assigned_one roles.now.names.keys s.assigned) s.users) }
        ensures sessions { let s = state_of self.now in IfOk result (λ subjects. subjects.sessions ≡ filter (λ name. found_and (is_at_work roles.now.names.keys) (find name_cmp name s.sessions)) (session_names s)) }
    {
        let users = users_with(alloc, self.sets, roles)?;
        let sessions = sessions_with(alloc, self.sessions, roles)?;
        Ok(Subjects { users, sessions })
    }

    /// The users and the sessions that may perform the operation on the object: those of which the reviews of their permissions
    /// (ANSI INCITS 359-2004, 6.1.4 and 6.2: UserPermissions, SessionPermissions) list it. The roles that have the permission are
    /// sought once. Where the two are no permission, nobody may.
    ///
    /// # Errors
    /// `AllocError` where there is no memory for it.
    pub fn subjects(
        &self,
        alloc: Global,
        operation: &Name,
        object: &Name,
    ) -> Result<Subjects, AllocError>
        ensures users { IfOk result (λ subjects. subjects.users ≡ permitted_users (state_of self.now) (operation.now, object.now)) }
        ensures sessions { IfOk result (λ subjects. subjects.sessions ≡ permitted_sessions (state_of self.now) (operation.now, object.now)) }
    {
        if !self.vocabulary.has_permission(operation, object) {
            return Ok(Subjects {
                users: NameSet::new(alloc),
                sessions: NameSet::new(alloc),
            });
        }
        let roles = self.roles_with(alloc, operation, object)?;
        self.subjects_of(alloc, &roles)
    }
}
