//! What a command changes of the tables, planned as far as it may want memory.
ghost use Rattle.std.specs.Prelude.{IfOk};
ghost use Rattle.rbac_decide.specs.Words.{with_key, name_cmp, Static, Dynamic, changed as changed_sets, after, after_one};
ghost use Rattle.rbac_sessions.specs.Changes.{changed as changed_sessions};

use crate::tables::Tables;
use rbac_hierarchy::{Change as OrderChange, Plan as OrderPlan};
use rbac_rolesets::{Change as SetsChange, Plan as SetsPlan};
use rbac_separation::{SetChange, SetPlan};
use rbac_sessions::{Change as SessionChange, Plan as SessionPlan};
use rbac_terms::{Command, Name, Separation};
use std::alloc::{AllocError, Global};

/// The changes of a command that may want memory, with all that they want but room: a plan for each table that it changes.
#[derive(Drop)]
pub(crate) enum TablesPlan<'a> {
    /// Of none: what the command changes it takes out, or it changes nothing.
    OfNone,
    /// Of users, UA or PA.
    OfSets {
        sets: SetsPlan,
    },
    /// Of the roles, in the role sets and in the hierarchy, and of the declared pairs.
    OfRoles {
        sets: SetsPlan,
        hierarchy: OrderPlan<'a>,
    },
    /// Of the hierarchy alone.
    OfOrder {
        hierarchy: OrderPlan<'a>,
    },
    /// Of the sets of a kind.
    OfRoleSets {
        kind: Separation,
        role_sets: SetPlan,
    },
    /// Of the sessions.
    OfSessions {
        sessions: SessionPlan,
    },
}

impl Tables {
    ghost use Rattle.rbac_decide.specs.Planning.{changed_of_kind, MakesOf, IsPlanned};
    ghost use Rattle.rbac_decide.specs.Tables.{HaveSameSets};

    #[inline(always)]
    fn plan_sets<'a>(
        &mut self,
        alloc: Global,
        change: SetsChange,
    ) -> Result<TablesPlan<'a>, AllocError>
        ensures unchanged { HaveSameSets self.new self.old }
        ensures planned { let t = self.new in IfOk result (λ plan. MakesOf plan t (changed_sets change.entry t.sets.content) t.hierarchy.content t.static_sets.content t.dynamic_sets.content t.sessions.content) }
    {
        Ok(TablesPlan::OfSets {
            sets: self.sets.plan(alloc, &[change])?,
        })
    }

    // Plans a new role, and other changes of the hierarchy with it.
    #[inline(always)]
    fn plan_role<'a>(
        &mut self,
        alloc: Global,
        role: &'a Name,
        changes: &[OrderChange<'a>],
    ) -> Result<TablesPlan<'a>, AllocError>
        ensures unchanged { HaveSameSets self.new self.old }
        ensures planned { let t = self.new in IfOk result (λ plan. MakesOf plan t (record t.sets.content { roles = with_key name_cmp role.now t.sets.content.roles }) (after changes.now t.hierarchy.content) t.static_sets.content t.dynamic_sets.content t.sessions.content) }
    {
        Ok(TablesPlan::OfRoles {
            sets: self.sets.plan(alloc, &[SetsChange::AddRole { role }])?,
            hierarchy: self.hierarchy.plan(alloc, changes)?,
        })
    }

    #[inline(always)]
    fn plan_order<'a>(
        &mut self,
        alloc: Global,
        change: OrderChange<'a>,
    ) -> Result<TablesPlan<'a>, AllocError>
        ensures unchanged { HaveSameSets self.new self.old }
        ensures planned { let t = self.new in IfOk result (λ plan. MakesOf plan t t.sets.content (after_one change.entry t.hierarchy.content) t.static_sets.content t.dynamic_sets.content t.sessions.content) }
    {
        Ok(TablesPlan::OfOrder {
            hierarchy: self.hierarchy.plan(alloc, &[change])?,
        })
    }

    #[inline(always)]
    fn plan_role_sets<'a>(
        &mut self,
        alloc: Global,
        kind: Separation,
        change: SetChange,
    ) -> Result<TablesPlan<'a>, AllocError>
        ensures unchanged { HaveSameSets self.new self.old }
        ensures planned { let t = self.new in IfOk result (λ plan. MakesOf plan t t.sets.content t.hierarchy.content (changed_of_kind Static kind change.entry t.static_sets.content) (changed_of_kind Dynamic kind change.entry t.dynamic_sets.content) t.sessions.content) }
    {
        let role_sets = match kind {
            Separation::Static => self.static_sets.plan(alloc, &[change])?,
            Separation::Dynamic => self.dynamic_sets.plan(alloc, &[change])?,
        };
        Ok(TablesPlan::OfRoleSets { kind, role_sets })
    }

    #[inline(always)]
    fn plan_sessions<'a>(
        &mut self,
        alloc: Global,
        change: SessionChange,
    ) -> Result<TablesPlan<'a>, AllocError>
        ensures unchanged { HaveSameSets self.new self.old }
        ensures planned { let t = self.new in IfOk result (λ plan. MakesOf plan t t.sets.content t.hierarchy.content t.static_sets.content t.dynamic_sets.content (changed_sessions change.entry t.sessions.content)) }
    {
        Ok(TablesPlan::OfSessions {
            sessions: self.sessions.plan(alloc, &[change])?,
        })
    }

    /// Plans what a command changes of the tables, as far as it may want memory. The sets stay as they are, also where memory ends.
    ///
    /// # Errors
    /// `AllocError` where there is no memory for a plan.
    #[inline(always)]
    pub(crate) fn plan<'a>(
        &mut self,
        alloc: Global,
        command: &'a Command,
    ) -> Result<TablesPlan<'a>, AllocError>
        ensures unchanged { HaveSameSets self.new self.old }
        ensures planned { IfOk result (λ plan. IsPlanned command.now plan self.new) }
    {
        match command {
            Command::AddUser { user } => self.plan_sets(alloc, SetsChange::AddUser { user }),
            Command::AssignUser { user, role } => {
                self.plan_sets(alloc, SetsChange::Assign { user, role })
            }
            Command::GrantPermission {
                operation,
                object,
                role,
            } => self.plan_sets(
                alloc,
                SetsChange::Grant {
                    operation,
                    object,
                    role,
                },
            ),
            Command::AddRole { role } => {
                self.plan_role(alloc, role, &[OrderChange::AddRole { role }])
            }
            Command::AddAscendant {
                ascendant,
                descendant,
            } => self.plan_role(
                alloc,
                ascendant,
                &[
                    OrderChange::AddRole { role: ascendant },
                    OrderChange::Declare {
                        ascendant,
                        descendant,
                    },
                ],
            ),
            Command::AddDescendant {
                ascendant,
                descendant,
            } => self.plan_role(
                alloc,
                descendant,
                &[
                    OrderChange::AddRole { role: descendant },
                    OrderChange::Declare {
                        ascendant,
                        descendant,
                    },
                ],
            ),
            Command::DeleteRole { role } => {
                self.plan_order(alloc, OrderChange::RemoveRole { role })
            }
            Command::AddInheritance {
                ascendant,
                descendant,
            } => self.plan_order(
                alloc,
                OrderChange::Declare {
                    ascendant,
                    descendant,
                },
            ),
            Command::DeleteInheritance {
                ascendant,
                descendant,
            } => self.plan_order(
                alloc,
                OrderChange::Retract {
                    ascendant,
                    descendant,
                },
            ),
            Command::CreateSet {
                kind,
                set,
                roles,
                n,
            } => self.plan_role_sets(
                alloc,
                *kind,
                SetChange::Create {
                    set,
                    roles,
                    cardinality: *n,
                },
            ),
            Command::AddRoleMember { kind, set, role } => {
                self.plan_role_sets(alloc, *kind, SetChange::AddMember { set, role })
            }
            Command::CreateSession {
                user,
                session,
                roles,
            } => self.plan_sessions(
                alloc,
                SessionChange::Create {
                    session,
                    user,
                    roles,
                },
            ),
            Command::AddActiveRole { session, role, .. } => {
                self.plan_sessions(alloc, SessionChange::Activate { session, role })
            }
            Command::DeleteUser { .. }
            | Command::DeassignUser { .. }
            | Command::RevokePermission { .. }
            | Command::DeleteSet { .. }
            | Command::DeleteRoleMember { .. }
            | Command::SetCardinality { .. }
            | Command::DeleteSession { .. }
            | Command::DropActiveRole { .. }
            | Command::CheckAccess { .. }
            | Command::Review(_) => Ok(TablesPlan::OfNone),
        }
    }
}
