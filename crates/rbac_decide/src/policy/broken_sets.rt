//! How many roles of a set a user is authorized for.
ghost use Rattle.std.specs.Prelude.{◌≡◌, count_by};
ghost use Rattle.rbac_decide.specs.Words.{is_authorized as is_authorized_in, is_broken_by};

use crate::authorization::count_authorized;
use crate::policy::Policy;
use rbac_terms::{Name, NameSet};

impl Policy {
    // How many of the roles the user is authorized for.
    fn count_authorized(&self, user: &Name, roles: &[Name]) -> usize
        ensures { result ≡ count_by (is_authorized_in self.now user.now) roles.now }
    {
        count_authorized(&self.tables.sets, &self.tables.hierarchy, user, roles)
    }

    /// Whether the user is authorized for as many of the roles as the number.
    pub(crate) fn user_breaks(&self, user: &Name, roles: &NameSet, n: u32) -> bool
        ensures { result ≡ is_broken_by (is_authorized_in self.now user.now) (record { roles = roles.now; cardinality = n }) }
    {
        self.count_authorized(user, roles.names()) >= n as usize
    }
}
