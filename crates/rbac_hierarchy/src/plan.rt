//! Changes that are planned, and then made.
ghost use Rattle.std.specs.Prelude.{◌≡◌, ◌≤◌, length, IfOk};
ghost use Rattle.staged.specs.Made.{made_all};
ghost use Rattle.rbac_hierarchy.specs.Changes.{after, made};

use crate::bit_order::BitOrder;
use crate::change::{Change, Step};
use staged::{commit, make_plan};
use std::alloc::{AllocError, Global};

/// Changes of a role hierarchy, with all that they want but room.
pub type Plan<'a> = staged::Plan<Step<'a>>;

impl BitOrder {
    /// Makes the names, rows and room of the changes. Roles and declared pairs stay as they are, also where memory ends.
    ///
    /// # Errors
    /// `AllocError` where there is no memory for the plan. No role and no pair has changed.
    #[inline(always)]
    pub fn plan<'a>(
        &mut self,
        alloc: Global,
        changes: &[Change<'a>],
    ) -> Result<Plan<'a>, AllocError>
        ensures content { self.new.content ≡ self.old.content }
        ensures changes { IfOk result (λ plan. made_all made plan self.old.content ≡ after changes.now self.old.content) }
        ensures room { IfOk result (λ plan. length plan ≤ self.new.room) }
    {
        make_plan(alloc, self, changes)
    }

    /// Makes the changes that were planned, in order. Takes no memory.
    #[inline(always)]
    pub fn commit(&mut self, plan: Plan)
        requires { length plan ≤ self.old.room }
        ensures { self.new.content ≡ made_all made plan.entry self.old.content }
    {
        commit::<Change, BitOrder>(self, plan);
    }
}
