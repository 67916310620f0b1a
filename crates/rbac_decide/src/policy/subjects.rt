//! Who may perform an operation on an object.
ghost use Rattle.std.specs.Prelude.{◌≡◌, IfOk, filter};
ghost use Rattle.rbac_decide.specs.Words.{find, session_holds, name_cmp};
ghost use Rattle.rbac_terms.specs.Subjects.{permitted_users, permitted_sessions, session_names};

use crate::policy::Policy;
use rbac_review::Subjects;
use rbac_terms::Name;
use std::alloc::{AllocError, Global};

impl Policy {
    /// The users and the sessions that may perform the operation on the object: those of which the reviews of their permissions list
    /// it, so that the sessions are those for which `check` grants it. Nobody may what is no permission. It takes time in proportion
    /// to the policy, not to the users times the roles.
    ///
    /// # Errors
    /// `AllocError` where there is no memory for it.
    pub fn subjects(
        &self,
        alloc: Global,
        operation: &Name,
        object: &Name,
    ) -> Result<Subjects, AllocError>
        ensures users { IfOk result (λ subjects. subjects.users ≡ permitted_users self.now (operation.now, object.now)) }
        ensures sessions { IfOk result (λ subjects. subjects.sessions ≡ permitted_sessions self.now (operation.now, object.now)) }
        ensures checked { IfOk result (λ subjects. subjects.sessions ≡ filter (λ session. session_holds (find name_cmp session self.now.sessions) self.now (operation.now, object.now)) (session_names self.now)) }
    {
        self.invariants();
        self.parts().subjects(alloc, operation, object)
    }
}
