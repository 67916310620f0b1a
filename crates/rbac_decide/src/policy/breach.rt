//! Who would break separation of duty by a change, and which set, asked before the change is made; and whether a set would be badly
//! sized. Of a sound policy only what the change touches needs to be tried.
ghost use Rattle.std.specs.Prelude.{◌≡◌, ◌||◌, true, false, IsTrue, IfOk, IfSome, IfNone, Some, slice_get};
ghost use Rattle.rbac_decide.specs.Words.{find, put, first_where, option_copied, has, inherits_in, is_authorized as is_authorized_in, change, sets_of};
ghost use Rattle.rbac_decide.specs.Words.{with_sets, is_violated, is_badly_sized, breaks_dynamic, Name as NameValue, name_cmp, is_set, is_broken_by, is_broken};
ghost use Rattle.rbac_decide.specs.Words.{Session as SessionValue, AssignUser, AddInheritance, CreateSession, AddActiveRole, CreateSet, AddRoleMember};
ghost use Rattle.rbac_decide.specs.Words.{DeleteRoleMember, SetCardinality, Static, Dynamic};
ghost use Rattle.rbac_decide.specs.Breaking.{breaks_with, first_holder};
ghost use Rattle.rbac_decide.specs.Counting.{TellsAfter};
ghost use Rattle.rbac_decide.specs.Gains.{changes_gathered};
ghost use Rattle.rbac_decide.specs.Hindrance.{Tells, first_entry, static_breach, dynamic_breach, breach_of};
ghost use Rattle.rbac_decide.specs.Hindrance.Named.{a_breach};

use crate::breaking::Breaking;
use crate::gains::{Gains, gains_by};
use crate::gathered::Ground;
use crate::named::Named;
use crate::policy::Policy;
use crate::policy::separation::is_well_sized;
use rbac_separation::RoleSet;
use rbac_sessions::{Session, SessionTest};
use rbac_terms::{Name, NameSet, Separation};
use std::alloc::{AllocError, Global};
use std::slice::from_ref;

impl Policy {
    // Whether the user would be authorized for as many roles of the set as its number, with this role and what it inherits besides.
    fn is_broken_with(&self, role: &Name, user: &Name, set: &RoleSet) -> bool
        ensures { result ≡ is_broken_by (λ r. inherits_in self.now role.now r || is_authorized_in self.now user.now r) set.now }
    {
        let held = set
            .roles
            .names()
            .iter()
            .filter(|other| self.inherits(role, other) || self.is_authorized(user, other))
            .count();
        held >= set.cardinality as usize
    }

    // The first static set that the user would break with this role and what it inherits besides. Takes no memory.
    fn set_broken_with<'a>(&'a self, role: &Name, user: &Name) -> Option<&'a (Name, RoleSet)>
        ensures { option_copied result ≡ first_where (λ e. is_broken_by (λ r. inherits_in self.now role.now r || is_authorized_in self.now user.now r) e.1) self.now.static_sets }
    {
        self.tables
            .static_sets
            .entries()
            .iter()
            .find(|entry| self.is_broken_with(role, user, &entry.1))
    }

    // The user, and the first static set that it would break with this role besides.
    fn breach_with<'a>(&'a self, role: &Name, user: &'a Name) -> Option<Named<'a>>
        ensures { let s = self.now in Tells (breaks_with s role.now user.now) (a_breach Static user.now (first_entry (is_broken_by (λ r. inherits_in s role.now r || is_authorized_in s user.now r)) s.static_sets)) result }
    {
        match self.set_broken_with(role, user) {
            Some(entry) => Some(Named::Breach {
                kind: Separation::Static,
                holder: user,
                set: &entry.0,
            }),
            None => None,
        }
    }

    /// What the assignment would break: of a sound policy no other user breaks a set by it. Where it breaks none the counts that it
    /// changes are gathered.
    pub(crate) fn assignment_breach<'a>(
        &'a self,
        alloc: Global,
        user: &'a Name,
        role: &Name,
        gathered: &mut Ground,
    ) -> Result<Option<Named<'a>>, AllocError>
        requires user { IsTrue (has name_cmp user.now self.now.users) }
        ensures breach { let after = change (AssignUser user.now role.now) self.now in IfOk result (Tells (is_violated Static after) (static_breach after)) }
        ensures gathered { IfOk result (λ breach. IfNone breach (TellsAfter (AssignUser user.now role.now) (changes_gathered gathered.new) self.now)) }
    {
        self.invariants();
        let users = from_ref(user);
        match gains_by(alloc, &self.tables, &self.counts, users, None, role)? {
            Gains::Told(told) => {
                *gathered = told;
                Ok(None)
            }
            Gains::Broken(user) => Ok(self.breach_with(role, user)),
        }
    }

    /// What the pair would break. Where it breaks none the counts that it changes are gathered.
    pub(crate) fn inheritance_breach<'a>(
        &'a self,
        alloc: Global,
        ascendant: &Name,
        descendant: &Name,
        gathered: &mut Ground,
    ) -> Result<Option<Named<'a>>, AllocError>
        requires ascendant { IsTrue (has name_cmp ascendant.now self.now.roles) }
        requires descendant { IsTrue (has name_cmp descendant.now self.now.roles) }
        ensures breach { let after = change (AddInheritance ascendant.now descendant.now) self.now in IfOk result (Tells (is_violated Static after) (static_breach after)) }
        ensures gathered { IfOk result (λ breach. IfNone breach (TellsAfter (AddInheritance ascendant.now descendant.now) (changes_gathered gathered.new) self.now)) }
    {
        self.invariants();
        let users = self.tables.sets.users();
        let above = Some(ascendant);
        match gains_by(alloc, &self.tables, &self.counts, users, above, descendant)? {
            Gains::Told(told) => {
                *gathered = told;
                Ok(None)
            }
            Gains::Broken(user) => Ok(self.breach_with(descendant, user)),
        }
    }

    // The session at a place, where as many of the roles are active in it as the number.
    fn breaking_at<'a>(
        &'a self,
        breaking: &Breaking<'_>,
        place: usize,
    ) -> Option<&'a (Name, Session)>
        ensures some { IfSome result (λ entry. (slice_get self.now.sessions place ≡ Some entry.now) × (is_broken entry.now.1.active (record { roles = breaking.now.roles.now; cardinality = breaking.now.n }) ≡ true)) }
        ensures none { IfNone result ((x : NameValue × SessionValue) → slice_get self.now.sessions place ≡ Some x → is_broken x.1.active (record { roles = breaking.now.roles.now; cardinality = breaking.now.n }) ≡ false) }
    {
        let entry = self.tables.sessions.at(place)?;
        if breaking.test(&entry.0, &entry.1.owner, &entry.1.active) {
            Some(entry)
        } else {
            None
        }
    }

    // The first session in which as many of the roles are active as the number. Takes no memory.
    fn session_breaking<'a>(&'a self, roles: &NameSet, n: u32) -> Option<&'a (Name, Session)>
        ensures { option_copied result ≡ first_where (λ x. is_broken x.1.active (record { roles = roles.now; cardinality = n })) self.now.sessions }
    {
        let breaking = Breaking { roles, n };
        if !self.tables.sessions.any(&breaking) {
            return None;
        }
        for place in 0..self.tables.sessions.len() {
            match self.breaking_at(&breaking, place) {
                Some(entry) => return Some(entry),
                None => {}
            }
        }
        None
    }

    // The first user that is authorized for as many of the roles as the number.
    fn user_breaking<'a>(&'a self, roles: &NameSet, n: u32) -> Option<&'a Name>
        ensures { option_copied result ≡ first_where (λ user. is_broken_by (is_authorized_in self.now user) (record { roles = roles.now; cardinality = n })) self.now.users }
    {
        let users = self.tables.sets.users();
        users.iter().find(|user| self.user_breaks(user, roles, n))
    }

    // The first user, or the first session, that would break a set of these roles with this number.
    fn holder_breaking<'a>(&'a self, kind: Separation, roles: &NameSet, n: u32) -> Option<&'a Name>
        ensures { option_copied result ≡ first_holder kind self.now (record { roles = roles.now; cardinality = n }) }
    {
        match kind {
            Separation::Static => self.user_breaking(roles, n),
            Separation::Dynamic => match self.session_breaking(roles, n) {
                Some(entry) => Some(&entry.0),
                None => None,
            },
        }
    }

    /// Who would break a set of this name, if it were of these roles and this number. Of a sound policy no other set is broken.
    pub(crate) fn set_breach<'a>(
        &'a self,
        kind: Separation,
        set: &'a Name,
        roles: &NameSet,
        n: u32,
    ) -> Option<Named<'a>>
        ensures { let after = with_sets kind (put name_cmp set.now (record { roles = roles.now; cardinality = n }) (sets_of kind self.now)) self.now in Tells (is_violated kind after) (breach_of kind after) result }
    {
        self.invariants();
        match self.holder_breaking(kind, roles, n) {
            Some(holder) => Some(Named::Breach { kind, holder, set }),
            None => None,
        }
    }

    /// Who would break the set with the role besides.
    pub(crate) fn addition_breach<'a>(
        &'a self,
        kind: Separation,
        set: &'a Name,
        role: &Name,
    ) -> Result<Option<Named<'a>>, AllocError>
        requires set { IsTrue (is_set kind self.now set.now) }
        ensures { let after = change (AddRoleMember kind set.now role.now) self.now in IfOk result (Tells (is_violated kind after) (breach_of kind after)) }
    {
        match self.set(kind, set) {
            Some(found) => {
                let roles = found.roles.copy_with(role)?;
                Ok(self.set_breach(kind, set, &roles, found.cardinality))
            }
            None => Ok(None),
        }
    }

    /// Who would break the set with this number.
    pub(crate) fn cardinality_breach<'a>(
        &'a self,
        kind: Separation,
        set: &'a Name,
        n: u32,
    ) -> Option<Named<'a>>
        requires set { IsTrue (is_set kind self.now set.now) }
        ensures { let after = change (SetCardinality kind set.now n) self.now in Tells (is_violated kind after) (breach_of kind after) result }
    {
        match self.set(kind, set) {
            Some(found) => self.set_breach(kind, set, &found.roles, n),
            None => None,
        }
    }

    // The first dynamic set that these active roles break.
    fn breach_by<'a>(&'a self, session: &'a Name, active: &NameSet) -> Option<Named<'a>>
        ensures { (owner : NameValue) → Tells (breaks_dynamic self.now (record { owner = owner; active = active.now })) (a_breach Dynamic session.now (first_entry (is_broken active.now) self.now.dynamic_sets)) result }
    {
        match self.tables.dynamic_sets.over(active) {
            Some(set) => Some(Named::Breach {
                kind: Separation::Dynamic,
                holder: session,
                set,
            }),
            None => None,
        }
    }

    /// What the session would break.
    pub(crate) fn session_breach<'a>(
        &'a self,
        user: &Name,
        session: &'a Name,
        roles: &NameSet,
    ) -> Option<Named<'a>>
        ensures { let after = change (CreateSession user.now session.now roles.now) self.now in Tells (is_violated Dynamic after) (dynamic_breach after) result }
    {
        self.invariants();
        self.breach_by(session, roles)
    }

    /// What the session of this name would break with the role active besides. Where there is no dynamic set nothing is gathered.
    pub(crate) fn activation_breach<'a>(
        &'a self,
        user: &Name,
        session: &'a Name,
        found: &Session,
        role: &Name,
    ) -> Result<Option<Named<'a>>, AllocError>
        requires { find name_cmp session.now self.now.sessions ≡ Some found.now }
        ensures { let after = change (AddActiveRole user.now session.now role.now) self.now in IfOk result (Tells (is_violated Dynamic after) (dynamic_breach after)) }
    {
        self.invariants();
        if self.tables.dynamic_sets.len() == 0 {
            return Ok(None);
        }
        let active = found.active.copy_with(role)?;
        Ok(self.breach_by(session, &active))
    }

    /// Whether the set would be badly sized.
    pub(crate) fn creation_sizes_badly(
        &self,
        kind: Separation,
        set: &Name,
        roles: &NameSet,
        n: u32,
    ) -> bool
        ensures { result ≡ is_badly_sized kind (change (CreateSet kind set.now roles.now n) self.now) }
    {
        self.invariants();
        !is_well_sized(n, roles.len())
    }

    /// Whether the set would be badly sized without the role.
    pub(crate) fn removal_sizes_badly(&self, kind: Separation, set: &Name, role: &Name) -> bool
        requires set { IsTrue (is_set kind self.now set.now) }
        ensures { result ≡ is_badly_sized kind (change (DeleteRoleMember kind set.now role.now) self.now) }
    {
        self.invariants();
        !self.is_well_sized_without(kind, set, role)
    }

    /// Whether the set would be badly sized with this number.
    pub(crate) fn cardinality_sizes_badly(&self, kind: Separation, set: &Name, n: u32) -> bool
        requires set { IsTrue (is_set kind self.now set.now) }
        ensures { result ≡ is_badly_sized kind (change (SetCardinality kind set.now n) self.now) }
    {
        self.invariants();
        !self.is_well_sized_with(kind, set, n)
    }
}
