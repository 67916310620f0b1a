//! The users of roles, by one walk over UA each, the roles of a user, by a look at each role, and what is granted to roles, by a
//! look at each permission.
ghost use Rattle.std.specs.Prelude.{◌≡◌, ◌&&◌, IfOk, filter};
ghost use Rattle.std.specs.List.{list_any};
ghost use Rattle.std.specs.Ordering.{eq_by_cmp};
ghost use Rattle.sorted_keys.specs.Keys.{has};
ghost use Rattle.hashed_keys.specs.Pairs.{seconds};
ghost use Rattle.rbac_terms.specs.Name.{name_cmp, pair_cmp};
ghost use Rattle.rbac_terms.specs.Relations.{users_of, roles_of};

use crate::role_sets::RoleSets;
use crate::role_sets::users_with::users_with;
use rbac_terms::{Name, NameSet, PermissionSet, Vocabulary};
use sorted_keys::{KeyTest, SortedSet};
use std::alloc::{AllocError, Global};
use std::cell::Cell;

// The roles that are assigned to a user.
#[derive(Drop)]
struct RolesOf<'a> {
    sets: &'a RoleSets,
    user: &'a Name,
}

impl KeyTest<Name> for RolesOf<'_> {
    ghost passes = { λ roles role. has pair_cmp (roles.user.now, role) roles.sets.now.content.assigned };

    fn test(&self, role: &Name) -> bool {
        self.sets.assigned(self.user, role)
    }
}

// The permissions that are granted to a role that passes a test. They are asked for in order.
#[derive(Drop)]
struct GrantedTo<'a, T> {
    sets: &'a RoleSets,
    test: &'a T,
    // How many of those that were asked for are granted: the next one that is stands at this place in PA, where PA has no other.
    place: Cell<usize>,
}

impl<T: KeyTest<Name>> KeyTest<(Name, Name)> for GrantedTo<'_, T> {
    ghost passes = { λ granted permission. list_any (T.passes granted.test.now) (seconds pair_cmp permission granted.sets.now.content.granted) };

    fn test(&self, permission: &(Name, Name)) -> bool {
        let place = self.place.get();
        let roles = self.sets.roles_near(place, permission);
        if !roles.is_empty() {
            self.place.set(place.wrapping_add(1));
        }
        roles.iter().any(|role| self.test.test(role))
    }
}

impl RoleSets {
    /// The users that a role that passes the test is assigned to.
    ///
    /// # Errors
    /// `AllocError` where there is no memory for it.
    pub fn users_assigned<T: KeyTest<Name>>(
        &self,
        alloc: Global,
        test: &T,
    ) -> Result<NameSet, AllocError>
        ensures { let s = self.now.content in IfOk result (λ users. users ≡ filter (λ user. list_any (λ pair. eq_by_cmp name_cmp user pair.0 && T.passes test.now pair.1) s.assigned) s.users) }
    {
        let users = self.users.copy_paired(alloc, &self.assigned, test)?;
        Ok(NameSet::of(users))
    }

    /// The users that the role is assigned to.
    ///
    /// # Errors
    /// `AllocError` where there is no memory for it.
    pub fn users_of(&self, alloc: Global, role: &Name) -> Result<NameSet, AllocError>
        ensures { let s = self.now.content in IfOk result (λ users. users ≡ users_of role.now s.users s.assigned) }
    {
        let users = users_with(alloc, self.users.keys(), self.assigned.keys(), role)?;
        let Ok(users) = SortedSet::from_vec(users) else {
            unreachable!()
        };
        Ok(NameSet::of(users))
    }

    /// The roles that are assigned to the user.
    ///
    /// # Errors
    /// `AllocError` where there is no memory for it.
    pub fn roles_of(&self, alloc: Global, user: &Name) -> Result<NameSet, AllocError>
        ensures { let s = self.now.content in IfOk result (λ roles. roles ≡ roles_of user.now s.roles s.assigned) }
    {
        let assigned = RolesOf { sets: self, user };
        Ok(NameSet::of(self.roles.copy_where(alloc, &assigned)?))
    }

    /// The permissions of the vocabulary that are granted to a role that passes the test.
    ///
    /// # Errors
    /// `AllocError` where there is no memory for it.
    pub fn permissions_granted<T: KeyTest<Name>>(
        &self,
        alloc: Global,
        vocabulary: &Vocabulary,
        test: &T,
    ) -> Result<PermissionSet, AllocError>
        ensures { IfOk result (λ permissions. permissions ≡ filter (λ permission. list_any (λ grant. eq_by_cmp pair_cmp permission grant.0 && T.passes test.now grant.1) self.now.content.granted) vocabulary.now.permissions) }
    {
        let granted = GrantedTo {
            sets: self,
            test,
            place: Cell::new(0),
        };
        vocabulary.permissions_where(alloc, &granted)
    }
}
