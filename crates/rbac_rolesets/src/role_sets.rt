//! The users and roles, UA and PA.
ghost use Rattle.std.specs.Prelude.{◌≡◌, ◌↔◌, ◌<◌, ◌≤◌, ◌+◌, length, filter, map, IsTrue, IfOk, OnOk, OnErr};
ghost use Rattle.std.specs.Option.{option_copied};
ghost use Rattle.std.specs.Ordering.{eq_by_cmp};
ghost use Rattle.sorted_keys.specs.Keys.{has, with_key, without};
ghost use Rattle.hashed_keys.specs.Pairs.{found, seconds};
ghost use Rattle.rbac_terms.specs.Name.{name_cmp, pair_cmp, grant_cmp};
ghost use Rattle.rbac_terms.specs.Relations.{begins_with, without_user, without_role};
ghost use Rattle.rbac_rolesets.specs.Changes.{changed, made};
ghost use Rattle.rbac_rolesets.specs.Sets.{Sets, no_sets, AreInOrder};

mod listed;
mod users_with;

use crate::change::{Change, Step};
use crate::granting::grant_step;
use crate::removal::{AnotherRole, OtherRoles, OtherUsers};
use digests::Digest;
use hashed_keys::{HashedPairs, KeySet};
use rbac_terms::{Name, NameSet};
use sorted_keys::{KeyTest, PairProbe, Probe, SortedSet};
use staged::{Plan, Staged};
use std::alloc::{AllocError, Global};
use std::marker::Model;

// The pair of these halves, each lent.
fn pair<'a, P, Q>(first: &'a P, second: &'a Q) -> PairProbe<'a, P, Q>
    ensures first { result.first.now ≡ first.now }
    ensures second { result.second.now ≡ second.now }
{
    PairProbe { first, second }
}

/// Users, roles, the pairs of both (UA) and the granted permissions (PA).
#[derive(Drop)]
pub struct RoleSets {
    users: SortedSet<Name>,
    roles: SortedSet<Name>,
    assigned: SortedSet<(Name, Name)>,
    granted: HashedPairs<(Name, Name), Name>,
}

impl Model for RoleSets {
    ghost use Rattle.std.specs.Prelude.{min};
    ghost use Rattle.rbac_rolesets.specs.Sets.{RoleSets as RoleSetsValue};

    ghost Value = { RoleSetsValue };

    ghost view = { λ s. record { content = record { users = s.users.content; roles = s.roles.content; assigned = s.assigned.content; granted = s.granted.content }; room = min (min s.users.room s.roles.room) (min s.assigned.room s.granted.room) } };
}

impl RoleSets {
    /// No users and no roles.
    pub fn empty(alloc: Global) -> RoleSets
        ensures { result.content ≡ no_sets }
    {
        RoleSets {
            users: SortedSet::new(alloc),
            roles: SortedSet::new(alloc),
            assigned: SortedSet::new(alloc),
            granted: HashedPairs::new(alloc),
        }
    }

    /// How many users there are.
    pub fn user_count(&self) -> usize
        ensures { result ≡ length self.now.content.users }
    {
        self.users.len()
    }

    /// The users, sorted by their bytes.
    pub fn users(&self) -> &[Name]
        ensures { result.now ≡ self.now.content.users }
    {
        self.users.keys()
    }

    /// The roles, sorted by their bytes.
    pub fn roles(&self) -> &[Name]
        ensures { result.now ≡ self.now.content.roles }
    {
        self.roles.keys()
    }

    /// The pairs of UA, a user and a role each, sorted by user and role.
    pub fn assignments(&self) -> &[(Name, Name)]
        ensures { result.now ≡ self.now.content.assigned }
    {
        self.assigned.keys()
    }

    /// The pairs of PA, a permission and a role each, sorted by operation, object and role.
    ///
    /// # Errors
    /// `AllocError` where there is no memory for it.
    pub fn grants(&self, alloc: Global) -> Result<Vec<((Name, Name), Name)>, AllocError>
        ensures { IfOk result (λ grants. grants.items ≡ self.now.content.granted) }
    {
        self.granted.pairs(alloc)
    }

    /// How many roles there are.
    pub fn role_count(&self) -> usize
        ensures { result ≡ length self.now.content.roles }
    {
        self.roles.len()
    }

    /// Whether it is one of the users.
    pub fn has_user(&self, user: &Name) -> bool
        ensures { result ≡ has name_cmp user.now self.now.content.users }
    {
        self.users.contains(user)
    }

    /// Whether it is one of the roles.
    pub fn has_role(&self, role: &Name) -> bool
        ensures { result ≡ has name_cmp role.now self.now.content.roles }
    {
        self.roles.contains(role)
    }

    /// Whether the role is assigned to the user.
    pub fn assigned(&self, user: &Name, role: &Name) -> bool
        ensures { result ≡ has pair_cmp (user.now, role.now) self.now.content.assigned }
    {
        self.assigned.contains(&pair(user, role))
    }

    /// Whether the operation on the object is granted to the role.
    pub fn granted(&self, operation: &Name, object: &Name, role: &Name) -> bool
        ensures { result ≡ has grant_cmp ((operation.now, object.now), role.now) self.now.content.granted }
    {
        self.granted.contains(&pair(operation, object), role)
    }

    /// The pairs of UA that are the user's.
    pub fn assignments_of(&self, user: &Name) -> &[(Name, Name)]
        ensures { result.now ≡ filter (begins_with user.now) self.now.content.assigned }
    {
        self.assigned.beginning_with(user)
    }

    /// The roles that an operation on an object is granted to, sorted by their bytes. They are found by the permission's digest.
    pub fn grants_of<P: Probe<Name> + Digest, Q: Probe<Name> + Digest>(
        &self,
        operation: &P,
        object: &Q,
    ) -> &[Name]
        ensures { result.now ≡ map (λ grant. grant.1) (filter (λ grant. eq_by_cmp pair_cmp (P.sought operation.now, Q.sought object.now) grant.0) self.now.content.granted) }
    {
        self.granted.seconds(&pair(operation, object))
    }

    // The set of roles of a permission, where there are such.
    pub(crate) fn grant_set(&self, permission: &(Name, Name)) -> Option<&KeySet<Name>>
        ensures { found (option_copied result) ≡ seconds pair_cmp permission.now self.now.content.granted }
    {
        self.granted.set(permission)
    }

    // The roles of a permission, which is looked for at a place in PA, and elsewhere only where it does not stand there.
    pub(crate) fn roles_near(&self, place: usize, permission: &(Name, Name)) -> &[Name]
        ensures { result.now ≡ seconds pair_cmp permission.now self.now.content.granted }
    {
        self.granted.seconds_near(place, permission)
    }

    /// The users that pass a test.
    ///
    /// # Errors
    /// `AllocError` where there is no memory for it.
    pub fn users_where<T: KeyTest<Name>>(
        &self,
        alloc: Global,
        test: &T,
    ) -> Result<NameSet, AllocError>
        ensures { IfOk result (λ users. users ≡ filter (T.passes test.now) self.now.content.users) }
    {
        Ok(NameSet::of(self.users.copy_where(alloc, test)?))
    }

    /// Adds a user. Where it is there, nothing changes.
    ///
    /// # Errors
    /// `AllocError` where there is no memory for it. Nothing has changed.
    pub fn add_user(&mut self, user: Name) -> Result<(), AllocError>
        ensures added { let s = self.old.content in OnOk result (self.new.content ≡ record s { users = with_key name_cmp user s.users }) }
        ensures unchanged { OnErr result (self.new.content ≡ self.old.content) }
    {
        self.users.insert(user)
    }

    /// Takes a user out, and its pairs.
    pub fn remove_user(&mut self, user: &Name)
        ensures { let s = self.old.content in self.new.content ≡ record s { users = without name_cmp user.now s.users; assigned = without_user user.now s.assigned } }
    {
        self.users.remove(user);
        self.assigned.retain(&OtherUsers { user });
    }

    /// Adds a role. Where it is there, nothing changes.
    ///
    /// # Errors
    /// `AllocError` where there is no memory for it. Nothing has changed.
    pub fn add_role(&mut self, role: Name) -> Result<(), AllocError>
        ensures added { let s = self.old.content in OnOk result (self.new.content ≡ record s { roles = with_key name_cmp role s.roles }) }
        ensures unchanged { OnErr result (self.new.content ≡ self.old.content) }
    {
        self.roles.insert(role)
    }

    /// Takes a role out, its pairs and its permissions.
    pub fn remove_role(&mut self, role: &Name)
        ensures { let s = self.old.content in self.new.content ≡ record s { roles = without name_cmp role.now s.roles; assigned = without_role role.now s.assigned; granted = without_role role.now s.granted } }
    {
        self.roles.remove(role);
        self.assigned.retain(&OtherRoles { role });
        self.granted.retain(&AnotherRole { role });
    }

    /// Assigns a role to a user. Where it is assigned, nothing changes.
    ///
    /// # Errors
    /// `AllocError` where there is no memory for it. Nothing has changed.
    pub fn assign(&mut self, user: Name, role: Name) -> Result<(), AllocError>
        ensures assigned { let s = self.old.content in OnOk result (self.new.content ≡ record s { assigned = with_key pair_cmp (user, role) s.assigned }) }
        ensures unchanged { OnErr result (self.new.content ≡ self.old.content) }
    {
        self.assigned.insert((user, role))
    }

    /// Takes a role from a user.
    pub fn deassign(&mut self, user: &Name, role: &Name)
        ensures { let s = self.old.content in self.new.content ≡ record s { assigned = without pair_cmp (user.now, role.now) s.assigned } }
    {
        self.assigned.remove(&pair(user, role));
    }

    /// Grants an operation on an object to a role. Where it is granted, nothing changes.
    ///
    /// # Errors
    /// `AllocError` where there is no memory for it. Nothing has changed.
    pub fn grant(
        &mut self,
        alloc: Global,
        operation: Name,
        object: Name,
        role: Name,
    ) -> Result<(), AllocError>
        ensures granted { let s = self.old.content in OnOk result (self.new.content ≡ record s { granted = with_key grant_cmp ((operation, object), role) s.granted }) }
        ensures unchanged { OnErr result (self.new.content ≡ self.old.content) }
    {
        self.granted.insert(alloc, (operation, object), role)
    }

    /// Takes an operation on an object from a role.
    pub fn revoke(&mut self, operation: &Name, object: &Name, role: &Name)
        ensures { let s = self.old.content in self.new.content ≡ record s { granted = without grant_cmp ((operation.now, object.now), role.now) s.granted } }
    {
        self.granted.remove(&pair(operation, object), role);
    }

    /// Users, roles, UA and PA are sets: each list is in order and without repeats.
    pub fn invariants(&self)
        ensures { AreInOrder self.now.content }
    {
        let _users = self.users.keys();
        let _roles = self.roles.keys();
        let _assigned = self.assigned.keys();
        self.granted.invariants();
    }

    /// Equal sets.
    ///
    /// # Errors
    /// `AllocError` where there is no memory for it.
    pub fn copy(&self) -> Result<RoleSets, AllocError>
        ensures { IfOk result (λ copy. copy.content ≡ self.now.content) }
    {
        Ok(RoleSets {
            users: self.users.copy()?,
            roles: self.roles.copy()?,
            assigned: self.assigned.copy()?,
            granted: self.granted.copy()?,
        })
    }

    /// Whether both have the same users and roles, UA and PA.
    pub fn same(&self, other: &RoleSets) -> bool
        ensures { IsTrue result ↔ (self.now.content ≡ other.now.content) }
    {
        self.users.same(&other.users)
            && self.roles.same(&other.roles)
            && self.assigned.same(&other.assigned)
            && self.granted.same(&other.granted)
    }
}

impl Staged<Change<'_>> for RoleSets {
    type Step = Step;

    ghost Content = { Sets };

    ghost content = { λ s. s.content };

    ghost room = { λ s. s.room };

    ghost changed = { changed };

    ghost made = { made };

    #[inline(always)]
    fn prepare(
        &self,
        alloc: Global,
        before: &Plan<Step>,
        change: &Change,
    ) -> Result<Step, AllocError> {
        Ok(match change {
            Change::AddUser { user } => Step::AddUser { user: user.copy()? },
            Change::AddRole { role } => Step::AddRole { role: role.copy()? },
            Change::Assign { user, role } => Step::Assign {
                user: user.copy()?,
                role: role.copy()?,
            },
            Change::Grant {
                operation,
                object,
                role,
            } => grant_step(alloc, self, before, operation, object, role)?,
        })
    }

    #[inline(always)]
    fn make_room(&mut self, _alloc: Global, more: usize) -> Result<(), AllocError>
        ensures content { self.new.content ≡ self.old.content }
        ensures room { OnOk result (more ≤ self.new.room) }
    {
        self.users.reserve(more)?;
        self.roles.reserve(more)?;
        self.assigned.reserve(more)?;
        self.granted.reserve(more)
    }

    #[inline(always)]
    fn make(&mut self, step: Step)
        requires { 0 < self.old.room }
        ensures content { self.new.content ≡ made step self.old.content }
        ensures room { self.old.room ≤ self.new.room + 1 }
    {
        match step {
            Step::AddUser { user } => self.users.put(user),
            Step::AddRole { role } => self.roles.put(role),
            Step::Assign { user, role } => self.assigned.put((user, role)),
            Step::Grant { permission, roles } => self.granted.put(permission, roles),
        }
    }
}
