//! Changes of sessions that may want memory: planned, and then made.
ghost use Rattle.std.specs.Prelude.{◌≡◌, ◌≤◌, length, IfOk};
ghost use Rattle.staged.specs.Entries.{after_entries};
ghost use Rattle.staged.specs.Made.{made_all};
ghost use Rattle.rbac_terms.specs.Name.{name_cmp};
ghost use Rattle.rbac_sessions.specs.Changes.{becomes, changed, session_of};
ghost use Rattle.rbac_terms.specs.Change.{with_active};

use crate::session::Session;
use crate::sessions::Sessions;
use hashed_keys::HashedMap;
use rbac_terms::{Name, NameSet};
use staged::{EntryChange, Found, commit, make_plan};
use std::alloc::{AllocError, Global};

/// A call that may be refused, with its arguments.
#[derive(Clone, Copy)]
pub enum Change<'a> {
    Create {
        session: &'a Name,
        user: &'a Name,
        roles: &'a NameSet,
    },
    Activate {
        session: &'a Name,
        role: &'a Name,
    },
}

impl EntryChange<Name, Session> for Change<'_> {
    ghost key = { session_of };

    ghost becomes = { becomes };

    fn key(&self) -> Result<Name, AllocError> {
        match self {
            Change::Create { session, .. } => session.copy(),
            Change::Activate { session, .. } => session.copy(),
        }
    }

    fn value<F: Found<Session>>(
        &self,
        _alloc: Global,
        before: &F,
    ) -> Result<Option<Session>, AllocError> {
        match self {
            Change::Create { user, roles, .. } => Ok(Some(Session {
                owner: user.copy()?,
                active: roles.copy()?,
            })),
            Change::Activate { role, .. } => match before.find() {
                Some(session) => Ok(Some(with_active(session, role)?)),
                None => Ok(None),
            },
        }
    }
}

// An equal session in which one more role is active.
fn with_active(session: &Session, role: &Name) -> Result<Session, AllocError>
    ensures { IfOk result (λ more. more ≡ with_active role.now session.now) }
{
    Ok(Session {
        owner: session.owner.copy()?,
        active: session.active.copy_with(role)?,
    })
}

/// Changes of sessions, with all that they want but room.
pub type Plan = staged::Plan<(Name, Option<Session>)>;

impl Sessions {
    /// Makes the names and sets of the changes, and room for them. The sessions stay as they are, also where memory ends.
    ///
    /// # Errors
    /// `AllocError` where there is no memory for the plan. No session has changed.
    #[inline(always)]
    pub fn plan(&mut self, alloc: Global, changes: &[Change]) -> Result<Plan, AllocError>
        ensures content { self.new.content ≡ self.old.content }
        ensures changes { IfOk result (λ plan. after_entries name_cmp plan self.old.content ≡ made_all changed changes.now self.old.content) }
        ensures room { IfOk result (λ plan. length plan ≤ self.new.room) }
    {
        make_plan(alloc, &mut self.sessions, changes)
    }

    /// Makes the changes that were planned, in order. Takes no memory.
    #[inline(always)]
    pub fn commit(&mut self, plan: Plan)
        requires { length plan ≤ self.old.room }
        ensures { self.new.content ≡ after_entries name_cmp plan self.old.content }
    {
        commit::<Change, HashedMap<Name, Session>>(&mut self.sessions, plan);
    }
}
