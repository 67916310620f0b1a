//! Changes that are planned, and then made.
ghost use Rattle.std.specs.Prelude.{◌≡◌, ◌≤◌, length, IfOk};
ghost use Rattle.staged.specs.Made.{made_all};
ghost use Rattle.rbac_rolesets.specs.Changes.{changed, made};

use crate::change::{Change, Step};
use crate::role_sets::RoleSets;
use staged::{commit, make_plan};
use std::alloc::{AllocError, Global};

/// Changes of users, roles, UA and PA, with all that they want but room.
pub type Plan = staged::Plan<Step>;

impl RoleSets {
    /// Makes the names of the changes, and room for them. The sets stay as they are, also where memory ends.
    ///
    /// # Errors
    /// `AllocError` where there is no memory for the plan. No set has changed.
    #[inline(always)]
    pub fn plan(&mut self, alloc: Global, changes: &[Change]) -> Result<Plan, AllocError>
        ensures content { self.new.content ≡ self.old.content }
        ensures changes { IfOk result (λ plan. made_all made plan self.old.content ≡ made_all changed changes.now self.old.content) }
        ensures room { IfOk result (λ plan. length plan ≤ self.new.room) }
    {
        make_plan(alloc, self, changes)
    }

    /// Makes the changes that were planned, in order. Takes no memory.
    #[inline(always)]
    pub fn commit(&mut self, plan: Plan)
        requires { length plan ≤ self.old.room }
        ensures { self.new.content ≡ made_all made plan self.old.content }
    {
        commit::<Change, RoleSets>(self, plan);
    }
}
