//! A set of roles and its number.
ghost use Rattle.std.specs.Prelude.{◌≡◌, ◌↔◌, IsTrue, IfOk};
ghost use Rattle.rbac_terms.specs.Separation.{is_broken};
ghost use Rattle.rbac_separation.specs.Counts.{is_over};

use rbac_terms::NameSet;
use sorted_keys::{Duplicate, Same};
use std::alloc::AllocError;
use std::marker::Model;

/// Roles of which fewer than a number may come together.
#[derive(Drop)]
pub struct RoleSet {
    pub roles: NameSet,
    pub cardinality: u32,
}

impl Model for RoleSet {
    ghost use Rattle.rbac_terms.specs.Separation.{RoleSet as RoleSetValue};

    ghost Value = { RoleSetValue };

    ghost view = { λ s. record { roles = s.roles; cardinality = s.cardinality } };
}

impl RoleSet {
    // Whether its number of its roles, or more, are among these.
    pub(crate) fn is_broken_by(&self, roles: &NameSet) -> bool
        ensures { result ≡ is_broken roles.now self.now }
    {
        self.cardinality as usize <= self.roles.count_in(roles)
    }

    /// Whether this number, and how many of its roles are among these, come to its own number or more. Takes no memory.
    pub fn is_over(&self, number: u32, fresh: &NameSet) -> bool
        ensures { result ≡ is_over number fresh.now self.now }
    {
        self.cardinality.saturating_sub(number) as usize <= self.roles.count_in(fresh)
    }
}

impl Duplicate for RoleSet {
    fn duplicate(&self) -> Result<RoleSet, AllocError> {
        Ok(RoleSet {
            roles: self.roles.copy()?,
            cardinality: self.cardinality,
        })
    }
}

impl Same for RoleSet {
    fn same(&self, other: &RoleSet) -> bool {
        self.cardinality == other.cardinality && self.roles.same(&other.roles)
    }
}
