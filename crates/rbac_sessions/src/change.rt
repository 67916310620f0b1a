//! Changes of a session's active roles.
ghost use Rattle.std.specs.Prelude.{◌≡◌, OnOk, OnErr};
ghost use Rattle.sorted_keys.specs.Keys.{with_key, without};
ghost use Rattle.rbac_terms.specs.Name.{name_cmp};

use crate::session::Session;
use rbac_terms::Name;
use sorted_keys::ValueChange;
use std::alloc::AllocError;
use std::convert::Infallible;

/// One more role that is active.
#[derive(Drop)]
pub(crate) struct Activation {
    pub role: Name,
}

impl ValueChange<Session> for Activation {
    type Fault = AllocError;

    ghost changed = { λ activation s. record s { active = with_key name_cmp activation.role s.active } };

    fn change(self, session: &mut Session) -> Result<(), AllocError> {
        session.active.add(self.role)
    }
}

/// A role that is no more active.
#[derive(Drop)]
pub(crate) struct Deactivation<'a> {
    pub role: &'a Name,
}

impl ValueChange<Session> for Deactivation<'_> {
    type Fault = Infallible;

    ghost changed = { λ deactivation s. record s { active = without name_cmp deactivation.role.now s.active } };

    fn change(self, session: &mut Session) -> Result<(), Infallible> {
        session.active.remove(self.role);
        Ok(())
    }
}
