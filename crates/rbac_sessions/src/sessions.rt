//! The sessions by their names.
ghost use Rattle.std.specs.Prelude.{◌≡◌, ◌↔◌, [], List, Bool, not, length, filter, is_some, slice_get, IsTrue, IfOk, OnOk, OnErr};
ghost use Rattle.std.specs.List.{list_any};
ghost use Rattle.std.specs.List.Sorted.{IsStrictlySortedBy};
ghost use Rattle.std.specs.Option.{option_copied, option_map};
ghost use Rattle.std.specs.FinMap.Entries.{find, put};
ghost use Rattle.sorted_keys.specs.Keys.{by_key, with_key, without, without_key, updated};
ghost use Rattle.rbac_terms.specs.Name.{Name as NameValue, name_cmp};

use crate::change::{Activation, Deactivation};
use crate::session::Session;
use digests::Digest;
use hashed_keys::HashedMap;
use rbac_terms::{Name, NameSet};
use sorted_keys::{EntryTest, Probe};
use std::alloc::{AllocError, Global};
use std::marker::Model;

/// The sessions, each by its name.
#[derive(Drop)]
pub struct Sessions {
    pub(crate) sessions: HashedMap<Name, Session>,
}

impl Model for Sessions {
    ghost use Rattle.rbac_sessions.specs.Sessions.{Sessions as SessionsValue};

    ghost Value = { SessionsValue };

    ghost view = { λ s. record { content = s.sessions.content; room = s.sessions.room } };
}

/// A test of sessions.
pub trait SessionTest {
    /// Whether a session passes, by its name, its owner and its active roles.
    ghost passes: { Self → NameValue → NameValue → List NameValue → Bool };

    /// Whether the session passes.
    fn test(&self, session: &Name, owner: &Name, roles: &NameSet) -> bool
        ensures { result ≡ passes self.now session.now owner.now roles.now };
}

// The sessions that a test passes.
#[derive(Drop)]
struct PassesTest<'a, T> {
    test: &'a T,
}

impl<T: SessionTest> EntryTest<Name, Session> for PassesTest<'_, T> {
    ghost passes = { λ passing name session. T.passes passing.test.now name session.owner session.active };

    fn test(&self, name: &Name, session: &Session) -> bool {
        self.test.test(name, &session.owner, &session.active)
    }
}

// The sessions that a test does not pass.
#[derive(Drop)]
struct FailsTest<'a, T> {
    test: &'a T,
}

impl<T: SessionTest> EntryTest<Name, Session> for FailsTest<'_, T> {
    ghost passes = { λ fails name session. not (T.passes fails.test.now name session.owner session.active) };

    fn test(&self, name: &Name, session: &Session) -> bool {
        !self.test.test(name, &session.owner, &session.active)
    }
}

impl Sessions {
    /// No sessions.
    pub fn empty(alloc: Global) -> Sessions
        ensures { result.content ≡ [] }
    {
        Sessions {
            sessions: HashedMap::new(alloc),
        }
    }

    /// How many sessions there are.
    pub fn len(&self) -> usize
        ensures { result ≡ length self.now.content }
    {
        self.sessions.len()
    }

    /// Whether there is a session of this name.
    pub fn contains(&self, session: &Name) -> bool
        ensures { result ≡ is_some (find name_cmp session.now self.now.content) }
    {
        self.sessions.contains(session)
    }

    /// The session of this name.
    pub fn get<P: Probe<Name> + Digest>(&self, session: &P) -> Option<&Session>
        ensures { option_copied result ≡ find name_cmp (P.sought session.now) self.now.content }
    {
        self.sessions.get(session)
    }

    /// The session at a place in the order of the names, with its name.
    pub fn at(&self, place: usize) -> Option<&(Name, Session)>
        ensures { option_copied result ≡ slice_get self.now.content place }
    {
        self.sessions.at(place)
    }

    /// The sessions with their names, sorted by these, copied.
    ///
    /// # Errors
    /// `AllocError` where the copy gets no memory.
    pub fn entries(&self, alloc: Global) -> Result<Vec<(Name, Session)>, AllocError>
        ensures { IfOk result (λ entries. entries.items ≡ self.now.content) }
    {
        self.sessions.entries(alloc)
    }

    /// The owner of the session.
    pub fn owner(&self, session: &Name) -> Option<&Name>
        ensures { option_copied result ≡ option_map (λ s. s.owner) (find name_cmp session.now self.now.content) }
    {
        match self.get(session) {
            Some(session) => Some(&session.owner),
            None => None,
        }
    }

    /// The active roles of the session.
    pub fn roles(&self, session: &Name) -> Option<&NameSet>
        ensures { option_copied result ≡ option_map (λ s. s.active) (find name_cmp session.now self.now.content) }
    {
        match self.get(session) {
            Some(session) => Some(&session.active),
            None => None,
        }
    }

    /// Whether some session passes a test.
    pub fn any<T: SessionTest>(&self, test: &T) -> bool
        ensures { result ≡ list_any (λ e. T.passes test.now e.0 e.1.owner e.1.active) self.now.content }
    {
        self.sessions.any(&PassesTest { test })
    }

    /// Opens a session of a user, in which these roles are active. One of the same name is replaced.
    ///
    /// # Errors
    /// `AllocError` where there is no memory for it. Nothing has changed.
    pub fn create(&mut self, session: Name, user: Name, roles: NameSet) -> Result<(), AllocError>
        ensures created { OnOk result (self.new.content ≡ put name_cmp session (record { owner = user; active = roles }) self.old.content) }
        ensures unchanged { OnErr result (self.new.content ≡ self.old.content) }
    {
        let opened = Session {
            owner: user,
            active: roles,
        };
        self.sessions.insert(session, opened)
    }

    /// Takes a session out. Where it is not there, nothing changes.
    pub fn delete(&mut self, session: &Name)
        ensures { self.new.content ≡ without_key name_cmp session.now self.old.content }
    {
        self.sessions.remove(session);
    }

    /// Makes a role active in a session. Where the session is not there, nothing changes.
    ///
    /// # Errors
    /// `AllocError` where there is no memory for it. Nothing has changed.
    pub fn activate(&mut self, session: &Name, role: Name) -> Result<(), AllocError>
        ensures activated { OnOk result (self.new.content ≡ updated name_cmp session.now (λ s. record s { active = with_key name_cmp role s.active }) self.old.content) }
        ensures unchanged { OnErr result (self.new.content ≡ self.old.content) }
    {
        self.sessions.update(session, Activation { role })
    }

    /// Makes a role inactive in a session. Where the session is not there, nothing changes.
    pub fn drop_role(&mut self, session: &Name, role: &Name)
        ensures { self.new.content ≡ updated name_cmp session.now (λ s. record s { active = without name_cmp role.now s.active }) self.old.content }
    {
        match self.sessions.update(session, Deactivation { role }) {
            Ok(()) => {}
            Err(never) => match never {},
        }
    }

    /// Takes out the sessions that pass a test.
    pub fn delete_where<T: SessionTest>(&mut self, test: &T)
        ensures { self.new.content ≡ filter (λ e. not (T.passes test.now e.0 e.1.owner e.1.active)) self.old.content }
    {
        self.sessions.retain(&FailsTest { test });
    }

    /// The sessions are a map: in the order of their names, each once.
    pub fn invariants(&self)
        ensures { IsStrictlySortedBy (by_key name_cmp) self.now.content }
    {
        self.sessions.invariants();
    }

    /// Equal sessions.
    ///
    /// # Errors
    /// `AllocError` where there is no memory for it.
    pub fn copy(&self) -> Result<Sessions, AllocError>
        ensures { IfOk result (λ copy. copy.content ≡ self.now.content) }
    {
        Ok(Sessions {
            sessions: self.sessions.copy()?,
        })
    }

    /// Whether both have the same sessions.
    pub fn same(&self, other: &Sessions) -> bool
        ensures { IsTrue result ↔ (self.now.content ≡ other.now.content) }
    {
        self.sessions.same(&other.sessions)
    }
}
