//! The roles that are active in a session.
ghost use Rattle.std.specs.Prelude.{◌≡◌, IfOk};
ghost use Rattle.rbac_terms.specs.Reviews.{active_roles};

use crate::parts::Parts;
use rbac_terms::{Name, NameSet};
use std::alloc::{AllocError, Global};

impl Parts<'_> {
    ghost use Rattle.rbac_review.specs.Parts.{state_of};

    /// The roles that are active in the session (ANSI INCITS 359-2004, 6.1.4: SessionRoles).
    ///
    /// # Errors
    /// `AllocError` where there is no memory for it.
    pub fn session_roles(&self, alloc: Global, session: &Name) -> Result<NameSet, AllocError>
        ensures { IfOk result (λ roles. roles ≡ active_roles (state_of self.now) session.now) }
    {
        match self.sessions.roles(session) {
            Some(active) => active.copy(),
            None => Ok(NameSet::new(alloc)),
        }
    }
}
