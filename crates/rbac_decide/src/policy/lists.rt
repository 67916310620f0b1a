//! What a policy holds: lists in order, and each session by its name.
ghost use Rattle.std.specs.Prelude.{◌≡◌, length, map, filter, slice_get, IfOk};
ghost use Rattle.rbac_decide.specs.Words.{find, option_copied, eq_by_cmp, has, sets_of, name_cmp, pair_cmp, grant_cmp};

use crate::policy::Policy;
use digests::Digest;
use rbac_hierarchy::RoleOrder;
use rbac_separation::RoleSet;
use rbac_sessions::Session;
use rbac_terms::{Name, Separation, Vocabulary};
use sorted_keys::Probe;
use std::alloc::{AllocError, Global};

impl Policy {
    /// The users, sorted by their bytes.
    pub fn users(&self) -> &[Name]
        ensures { result.now ≡ self.now.users }
    {
        self.tables.sets.users()
    }

    /// The roles, sorted by their bytes.
    pub fn roles(&self) -> &[Name]
        ensures { result.now ≡ self.now.roles }
    {
        self.tables.sets.roles()
    }

    /// The assignments (UA), a user and a role each, sorted by both.
    pub fn assignments(&self) -> &[(Name, Name)]
        ensures { result.now ≡ self.now.assigned }
    {
        self.tables.sets.assignments()
    }

    /// The grants (PA), a permission and a role each, sorted by operation, object and role, copied.
    ///
    /// # Errors
    /// `AllocError` where the copy gets no memory.
    pub fn grants(&self, alloc: Global) -> Result<Vec<((Name, Name), Name)>, AllocError>
        ensures { IfOk result (λ grants. grants.items ≡ self.now.granted) }
    {
        self.tables.sets.grants(alloc)
    }

    /// The roles that an operation on an object is granted to, sorted by their bytes.
    pub fn granted_roles(&self, operation: &Name, object: &Name) -> &[Name]
        ensures { result.now ≡ map (λ grant. grant.1) (filter (λ grant. eq_by_cmp pair_cmp (operation.now, object.now) grant.0) self.now.granted) }
    {
        self.tables.sets.grants_of(operation, object)
    }

    /// Whether an operation on an object is granted to a role.
    pub fn is_granted(&self, operation: &Name, object: &Name, role: &Name) -> bool
        ensures { result ≡ has grant_cmp ((operation.now, object.now), role.now) self.now.granted }
    {
        self.tables.sets.granted(operation, object, role)
    }

    /// The declared pairs of roles (RH), an ascendant and a descendant each, sorted by both.
    pub fn declarations(&self) -> &[(Name, Name)]
        ensures { result.now ≡ self.now.declared }
    {
        self.tables.hierarchy.declarations()
    }

    /// The sets of separation of a kind with their names, sorted by these.
    pub fn separation_sets(&self, kind: Separation) -> &[(Name, RoleSet)]
        ensures { result.now ≡ sets_of kind self.now }
    {
        match kind {
            Separation::Static => self.tables.static_sets.entries(),
            Separation::Dynamic => self.tables.dynamic_sets.entries(),
        }
    }

    /// How many sessions there are.
    pub fn session_count(&self) -> usize
        ensures { result ≡ length self.now.sessions }
    {
        self.tables.sessions.len()
    }

    /// The session of this name.
    pub fn session<P: Probe<Name> + Digest>(&self, session: &P) -> Option<&Session>
        ensures { option_copied result ≡ find name_cmp (P.sought session.now) self.now.sessions }
    {
        self.tables.sessions.get(session)
    }

    /// The session at a place in the order of the names, with its name.
    pub fn session_at(&self, place: usize) -> Option<&(Name, Session)>
        ensures { option_copied result ≡ slice_get self.now.sessions place }
    {
        self.tables.sessions.at(place)
    }

    /// The sessions with their names, sorted by these, copied.
    ///
    /// # Errors
    /// `AllocError` where the copy gets no memory.
    pub fn sessions(&self, alloc: Global) -> Result<Vec<(Name, Session)>, AllocError>
        ensures { IfOk result (λ sessions. sessions.items ≡ self.now.sessions) }
    {
        self.tables.sessions.entries(alloc)
    }

    /// The vocabulary that the policy was founded with.
    pub fn vocabulary(&self) -> &Vocabulary
        ensures { result.now ≡ self.now.vocabulary }
    {
        &self.vocabulary
    }
}
