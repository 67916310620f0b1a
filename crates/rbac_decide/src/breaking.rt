//! Which sessions would break a dynamic set.
ghost use Rattle.rbac_decide.specs.Words.{is_broken};

use rbac_sessions::SessionTest;
use rbac_terms::{Name, NameSet};

/// The sessions in which as many of the roles are active as the number.
#[derive(Drop)]
pub(crate) struct Breaking<'a> {
    pub roles: &'a NameSet,
    pub n: u32,
}

impl SessionTest for Breaking<'_> {
    ghost passes = { λ breaking _ _ active. is_broken active (record { roles = breaking.roles.now; cardinality = breaking.n }) };

    fn test(&self, _session: &Name, _owner: &Name, active: &NameSet) -> bool {
        self.roles.count_in(active) >= self.n as usize
    }
}
