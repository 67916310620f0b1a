//! Changes of sets of roles that may want memory: planned, and then made.
ghost use Rattle.std.specs.Prelude.{◌≡◌, ◌≤◌, length, IfOk};
ghost use Rattle.staged.specs.Entries.{after_entries};
ghost use Rattle.staged.specs.Made.{made_all};
ghost use Rattle.rbac_terms.specs.Name.{name_cmp};
ghost use Rattle.rbac_separation.specs.Changes.{becomes, changed, set_of_change};
ghost use Rattle.rbac_terms.specs.Change.{with_member};

use crate::role_set::RoleSet;
use crate::set_table::SetTable;
use rbac_terms::{Name, NameSet};
use sorted_keys::SortedMap;
use staged::{EntryChange, Found, Plan, commit, make_plan};
use std::alloc::{AllocError, Global};

/// A call that may be refused, with its arguments.
#[derive(Clone, Copy)]
pub enum SetChange<'a> {
    Create {
        set: &'a Name,
        roles: &'a NameSet,
        cardinality: u32,
    },
    AddMember {
        set: &'a Name,
        role: &'a Name,
    },
}

// An equal set with one more role.
fn with_member(set: &RoleSet, role: &Name) -> Result<RoleSet, AllocError>
    ensures { IfOk result (λ more. more ≡ with_member role.now set.now) }
{
    Ok(RoleSet {
        roles: set.roles.copy_with(role)?,
        cardinality: set.cardinality,
    })
}

impl EntryChange<Name, RoleSet> for SetChange<'_> {
    ghost key = { set_of_change };

    ghost becomes = { becomes };

    fn key(&self) -> Result<Name, AllocError> {
        match self {
            SetChange::Create { set, .. } => set.copy(),
            SetChange::AddMember { set, .. } => set.copy(),
        }
    }

    fn value<F: Found<RoleSet>>(
        &self,
        _alloc: Global,
        before: &F,
    ) -> Result<Option<RoleSet>, AllocError> {
        match self {
            SetChange::Create {
                roles,
                cardinality,
                ..
            } => Ok(Some(RoleSet {
                roles: roles.copy()?,
                cardinality: *cardinality,
            })),
            SetChange::AddMember { role, .. } => match before.find() {
                Some(set) => Ok(Some(with_member(set, role)?)),
                None => Ok(None),
            },
        }
    }
}

/// Changes of sets of roles, with all that they want but room.
pub type SetPlan = Plan<(Name, Option<RoleSet>)>;

impl SetTable {
    /// Makes the names and sets of the changes, and room for them. The sets stay as they are, also where memory ends.
    ///
    /// # Errors
    /// `AllocError` where there is no memory for the plan. Nothing that it is about has changed.
    #[inline(always)]
    pub fn plan(&mut self, alloc: Global, changes: &[SetChange]) -> Result<SetPlan, AllocError>
        ensures content { self.new.content ≡ self.old.content }
        ensures changes { IfOk result (λ plan. after_entries name_cmp plan self.old.content ≡ made_all changed changes.now self.old.content) }
        ensures room { IfOk result (λ plan. length plan ≤ self.new.room) }
    {
        make_plan(alloc, &mut self.sets, changes)
    }

    /// Makes the changes that were planned, in order. Takes no memory.
    #[inline(always)]
    pub fn commit(&mut self, plan: SetPlan)
        requires { length plan ≤ self.old.room }
        ensures { self.new.content ≡ after_entries name_cmp plan self.old.content }
    {
        commit::<SetChange, SortedMap<Name, RoleSet>>(&mut self.sets, plan);
    }
}
