//! A session: its owner and its active roles.
ghost use Rattle.std.specs.Prelude.{◌≡◌, ◌↔◌, IsTrue, IfOk};

use rbac_terms::{Name, NameSet};
use sorted_keys::{Duplicate, Same};
use std::alloc::AllocError;
use std::marker::Model;

/// A session's owner and its active roles.
#[derive(Drop)]
pub struct Session {
    pub owner: Name,
    pub active: NameSet,
}

impl Model for Session {
    ghost use Rattle.rbac_terms.specs.State.{Session as SessionValue};

    ghost Value = { SessionValue };

    ghost view = { λ s. record { owner = s.owner; active = s.active } };
}

impl Duplicate for Session {
    fn duplicate(&self) -> Result<Session, AllocError> {
        Ok(Session {
            owner: self.owner.copy()?,
            active: self.active.copy()?,
        })
    }
}

impl Same for Session {
    fn same(&self, other: &Session) -> bool {
        self.owner.same(&other.owner) && self.active.same(&other.active)
    }
}
