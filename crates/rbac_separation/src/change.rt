//! Changes of a set of roles.
ghost use Rattle.std.specs.Prelude.{◌≡◌, OnOk, OnErr};
ghost use Rattle.sorted_keys.specs.Keys.{with_key, without};
ghost use Rattle.rbac_terms.specs.Name.{name_cmp};

use crate::role_set::RoleSet;
use rbac_terms::Name;
use sorted_keys::ValueChange;
use std::alloc::AllocError;
use std::convert::Infallible;

/// One more role in the set.
#[derive(Drop)]
pub(crate) struct MemberAddition {
    pub role: Name,
}

impl ValueChange<RoleSet> for MemberAddition {
    type Fault = AllocError;

    ghost changed = { λ addition s. record s { roles = with_key name_cmp addition.role s.roles } };

    fn change(self, set: &mut RoleSet) -> Result<(), AllocError> {
        set.roles.add(self.role)
    }
}

/// A role that is no more in the set.
#[derive(Drop)]
pub(crate) struct MemberRemoval<'a> {
    pub role: &'a Name,
}

impl ValueChange<RoleSet> for MemberRemoval<'_> {
    type Fault = Infallible;

    ghost changed = { λ removal s. record s { roles = without name_cmp removal.role.now s.roles } };

    fn change(self, set: &mut RoleSet) -> Result<(), Infallible> {
        set.roles.remove(self.role);
        Ok(())
    }
}

/// Another number of the set.
#[derive(Drop)]
pub(crate) struct CardinalityChange {
    pub cardinality: u32,
}

impl ValueChange<RoleSet> for CardinalityChange {
    type Fault = Infallible;

    ghost changed = { λ change s. record s { cardinality = change.cardinality } };

    fn change(self, set: &mut RoleSet) -> Result<(), Infallible> {
        set.cardinality = self.cardinality;
        Ok(())
    }
}
