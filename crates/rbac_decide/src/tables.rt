//! The sets that commands change.
ghost use Rattle.std.specs.Prelude.{◌≡◌, ◌↔◌, IsTrue, IfOk};
ghost use Rattle.rbac_decide.specs.Words.{change, founding_state, Vocabulary as VocabularyValue};

use crate::both::both;
use crate::tables::planning::TablesPlan;
use rbac_hierarchy::{Hierarchy, RoleOrder};
use rbac_rolesets::RoleSets;
use rbac_separation::SetTable;
use rbac_sessions::Sessions;
use rbac_terms::{Command, Separation};
use std::alloc::{AllocError, Global};

mod planning;
mod taking_out;

/// Users and roles with their pairs and grants, the hierarchy of the same roles, the sets of separation, and the sessions.
#[derive(Drop)]
pub(crate) struct Tables {
    pub sets: RoleSets,
    pub hierarchy: Hierarchy,
    pub static_sets: SetTable,
    pub dynamic_sets: SetTable,
    pub sessions: Sessions,
}

impl Tables {
    ghost use Rattle.rbac_decide.specs.Planning.{IsPlanned, IsGrown};
    ghost use Rattle.rbac_decide.specs.Tables.{state_of, HasSameRoles, HaveSameSets, IsUndenied};

    /// No users, no roles and no sessions.
    pub fn new(alloc: Global) -> Tables
        ensures state { (v : VocabularyValue) → state_of result v ≡ founding_state v }
        ensures same_roles { HasSameRoles result }
    {
        Tables {
            sets: RoleSets::empty(alloc),
            hierarchy: Hierarchy::empty(alloc),
            static_sets: SetTable::empty(alloc),
            dynamic_sets: SetTable::empty(alloc),
            sessions: Sessions::empty(alloc),
        }
    }

    /// Equal sets.
    ///
    /// # Errors
    /// `AllocError` where there is no memory for it.
    pub fn copy(&self) -> Result<Tables, AllocError>
        ensures { IfOk result (λ copy. HaveSameSets copy self.now) }
    {
        let roles = both(self.sets.copy(), self.hierarchy.copy());
        let role_sets = both(self.static_sets.copy(), self.dynamic_sets.copy());
        let copies = both(both(roles, role_sets), self.sessions.copy())?;
        let (((sets, hierarchy), (static_sets, dynamic_sets)), sessions) = copies;
        Ok(Tables {
            sets,
            hierarchy,
            static_sets,
            dynamic_sets,
            sessions,
        })
    }

    /// Whether both have the same sets.
    pub fn same(&self, other: &Tables) -> bool
        ensures { IsTrue result ↔ HaveSameSets self.now other.now }
    {
        self.sets.same(&other.sets)
            && self.hierarchy.same(&other.hierarchy)
            && self.static_sets.same(&other.static_sets)
            && self.dynamic_sets.same(&other.dynamic_sets)
            && self.sessions.same(&other.sessions)
    }

    // Makes what was planned for each table.
    #[inline(always)]
    fn grow(&mut self, command: &Command, plan: TablesPlan)
        requires { IsPlanned command.now plan self.old }
        ensures { IsGrown command.now self.old self.new }
    {
        match plan {
            TablesPlan::OfNone => {}
            TablesPlan::OfSets { sets } => self.sets.commit(sets),
            TablesPlan::OfRoles { sets, hierarchy } => {
                self.sets.commit(sets);
                self.hierarchy.commit(hierarchy);
            }
            TablesPlan::OfOrder { hierarchy } => self.hierarchy.commit(hierarchy),
            TablesPlan::OfRoleSets { kind, role_sets } => match kind {
                Separation::Static => self.static_sets.commit(role_sets),
                Separation::Dynamic => self.dynamic_sets.commit(role_sets),
            },
            TablesPlan::OfSessions { sessions } => self.sessions.commit(sessions),
        }
    }

    /// Makes the change of a command that is not denied, by its plan. Takes no memory.
    #[inline(always)]
    pub fn commit(&mut self, command: &Command, plan: TablesPlan)
        requires undenied { IsUndenied command.now self.old }
        requires planned { IsPlanned command.now plan self.old }
        ensures state { (v : VocabularyValue) → state_of self.new v ≡ change command.now (state_of self.old v) }
        ensures same_roles { HasSameRoles self.old → HasSameRoles self.new }
    {
        self.grow(command, plan);
        self.take_out(command);
    }
}
