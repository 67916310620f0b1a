//! The sets of separation of duty of each kind, their roles and their numbers.
ghost use Rattle.std.specs.Prelude.{◌≡◌, ◌&&◌, nat_le, length};
ghost use Rattle.rbac_decide.specs.Words.{find, option_copied, without, without_member, with_cardinality, sets_of, name_cmp, found_and, is_set, is_member};
ghost use Rattle.rbac_decide.specs.Words.{is_well_sized};

use crate::policy::Policy;
use rbac_separation::{RoleSet, SetTable};
use rbac_terms::{Name, Separation};

/// Whether a set of so many roles may have this number.
pub(crate) fn is_well_sized(n: u32, roles: usize) -> bool
    ensures { result ≡ (nat_le 2 n && nat_le n roles) }
{
    2 <= n && n as usize <= roles
}

// How many of the roles are others than this one.
fn count_others(roles: &[Name], role: &Name) -> usize
    ensures { result ≡ length (without name_cmp role.now roles.now) }
{
    roles.iter().filter(|other| role.cmp(other).is_ne()).count()
}

impl Policy {
    // The sets of a kind.
    fn sets(&self, kind: Separation) -> &SetTable
        ensures { result.now.content ≡ sets_of kind self.now }
    {
        match kind {
            Separation::Static => &self.tables.static_sets,
            Separation::Dynamic => &self.tables.dynamic_sets,
        }
    }

    /// How many sets of a kind there are.
    pub(crate) fn set_count(&self, kind: Separation) -> usize
        ensures { result ≡ length (sets_of kind self.now) }
    {
        self.sets(kind).len()
    }

    /// Whether there is a set of this name of the kind.
    pub(crate) fn is_set(&self, kind: Separation, set: &Name) -> bool
        ensures { result ≡ is_set kind self.now set.now }
    {
        self.sets(kind).contains(set)
    }

    /// The set of this name of the kind.
    pub(crate) fn set(&self, kind: Separation, set: &Name) -> Option<&RoleSet>
        ensures { option_copied result ≡ find name_cmp set.now (sets_of kind self.now) }
    {
        self.sets(kind).get(set)
    }

    /// Whether the role is in the set of the kind.
    pub(crate) fn is_member(&self, kind: Separation, set: &Name, role: &Name) -> bool
        ensures { result ≡ is_member kind self.now set.now role.now }
    {
        match self.set(kind, set) {
            Some(set) => set.roles.contains(role),
            None => false,
        }
    }

    /// Whether the set may have its number without the role.
    pub(crate) fn is_well_sized_without(&self, kind: Separation, set: &Name, role: &Name) -> bool
        ensures { result ≡ found_and (λ x. is_well_sized (without_member role.now x)) (find name_cmp set.now (sets_of kind self.now)) }
    {
        match self.set(kind, set) {
            Some(set) => is_well_sized(set.cardinality, count_others(set.roles.names(), role)),
            None => false,
        }
    }

    /// Whether the set may have this number.
    pub(crate) fn is_well_sized_with(&self, kind: Separation, set: &Name, n: u32) -> bool
        ensures { result ≡ found_and (λ x. is_well_sized (with_cardinality n x)) (find name_cmp set.now (sets_of kind self.now)) }
    {
        match self.set(kind, set) {
            Some(set) => is_well_sized(n, set.roles.len()),
            None => false,
        }
    }
}
