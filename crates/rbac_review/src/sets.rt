//! The sets of separation of duty.
ghost use Rattle.std.specs.Prelude.{◌≡◌, IfOk};
ghost use Rattle.std.specs.FinMap.Entries.{find};
ghost use Rattle.rbac_terms.specs.Name.{name_cmp};
ghost use Rattle.rbac_terms.specs.Constraints.{sets_of};
ghost use Rattle.rbac_terms.specs.Reviews.{set_names, roles_in, number_of};

use crate::parts::Parts;
use rbac_terms::{Name, NameSet, Separation};
use std::alloc::{AllocError, Global};

impl Parts<'_> {
    ghost use Rattle.rbac_review.specs.Parts.{state_of};

    /// The names of the sets of a kind (ANSI INCITS 359-2004, 6.3 and 6.4: SsdRoleSets, DsdRoleSets).
    ///
    /// # Errors
    /// `AllocError` where there is no memory for it.
    pub fn role_sets(&self, alloc: Global, kind: Separation) -> Result<NameSet, AllocError>
        ensures { IfOk result (λ names. names ≡ set_names (sets_of kind (state_of self.now))) }
    {
        self.sets_of(kind).names(alloc)
    }

    /// The roles of a set of the kind (6.3 and 6.4: SsdRoleSetRoles, DsdRoleSetRoles).
    ///
    /// # Errors
    /// `AllocError` where there is no memory for it.
    pub fn role_set_roles(
        &self,
        alloc: Global,
        kind: Separation,
        set: &Name,
    ) -> Result<NameSet, AllocError>
        ensures { IfOk result (λ roles. roles ≡ roles_in (find name_cmp set.now (sets_of kind (state_of self.now)))) }
    {
        match self.sets_of(kind).roles(set) {
            Some(roles) => roles.copy(),
            None => Ok(NameSet::new(alloc)),
        }
    }

    /// The number of a set of the kind (6.3 and 6.4: SsdRoleSetCardinality, DsdRoleSetCardinality), and 0 where there is none.
    pub fn role_set_cardinality(&self, kind: Separation, set: &Name) -> u32
        ensures { result ≡ number_of (find name_cmp set.now (sets_of kind (state_of self.now))) }
    {
        match self.sets_of(kind).cardinality(set) {
            Some(cardinality) => cardinality,
            None => 0,
        }
    }
}
