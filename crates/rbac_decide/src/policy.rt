//! A policy: what commands answer, and what they change.
ghost use Rattle.std.specs.Prelude.{◌≡◌, ◌↔◌, false, IsTrue, IfOk, IfErr, OnOk, OnErr, Some, None};
ghost use Rattle.rbac_decide.specs.Words.{find, has, effect, reply, session_holds, name_cmp, pair_cmp, session_permissions, first_denial, IsSound};
ghost use Rattle.rbac_decide.specs.Words.{founding_state};
ghost use Rattle.rbac_decide.specs.Counting.{AreCounts};

mod access;
mod breach;
mod broken_sets;
mod deciding;
mod lists;
mod review;
mod separation;
mod subjects;

use crate::authorization::some_inherits_some;
use crate::both::both;
use crate::counting::{commit_counts, plan_counts};
use crate::hindrance::Obstacle;
use crate::tables::Tables;
use digests::Digest;
use rbac_separation::Counts;
use rbac_terms::{Answer, Command, Denial, Name, Vocabulary};
use sorted_keys::Probe;
use std::alloc::{AllocError, Global};
use std::marker::Model;

/// A policy of ANSI INCITS 359-2004, in this project's profile: its sets, and the vocabulary that it was founded with.
#[derive(Drop)]
pub struct Policy {
    tables: Tables,
    counts: Counts,
    vocabulary: Vocabulary,
}

impl Model for Policy {
    ghost use Rattle.rbac_terms.specs.State.{State};
    ghost use Rattle.rbac_decide.specs.Tables.{state_of};
    ghost use Rattle.rbac_decide.specs.Policy.{IsPolicy};

    ghost Value = { State };

    ghost view = { λ p. state_of p.tables p.vocabulary };

    ghost invariant = { λ p. IsPolicy p.tables p.counts p.vocabulary };
}

impl Policy {
    /// The policy that knows this vocabulary and nothing else.
    pub fn found(alloc: Global, vocabulary: Vocabulary) -> Policy
        ensures { result ≡ founding_state vocabulary }
    {
        vocabulary.invariants();
        Policy {
            tables: Tables::new(alloc),
            counts: Counts::empty(alloc),
            vocabulary,
        }
    }
}

impl Policy {
    ghost use Rattle.rbac_decide.specs.Asking.{is_check, is_question};

    // Makes the change of a command that asks nothing: all plans, and then all that was planned, which wants no memory.
    fn change(&mut self, alloc: Global, command: &Command) -> Result<Answer, AllocError>
        requires { is_question command.now ≡ false }
        ensures reply { IfOk result (λ answer. answer ≡ reply command.now self.old) }
        ensures effect { OnOk result (self.new ≡ effect command.now self.old) }
        ensures unchanged { OnErr result (self.new ≡ self.old) }
    {
        command.invariants();
        let gathered = match self.decide(alloc, command) {
            Ok(gathered) => gathered,
            Err(Obstacle::Denied(hindrance)) => return Ok(Answer::Denied(hindrance.denial)),
            Err(Obstacle::NoMemory) => return Err(AllocError),
        };
        let counts = plan_counts(alloc, &self.tables, command, &gathered, &mut self.counts)?;
        let tables = self.tables.plan(alloc, command)?;
        self.tables.commit(command, tables);
        commit_counts(&self.tables, command, counts, &gathered, &mut self.counts);
        Ok(Answer::Done)
    }

    /// Answers a command, and makes its change. CheckAccess takes no memory.
    ///
    /// # Errors
    /// `AllocError` where there is no memory for it. Nothing has changed.
    pub fn apply(&mut self, alloc: Global, command: &Command) -> Result<Answer, AllocError>
        ensures reply { IfOk result (λ answer. answer ≡ reply command.now self.old) }
        ensures effect { OnOk result (self.new ≡ effect command.now self.old) }
        ensures unchanged { OnErr result (self.new ≡ self.old) }
        ensures check { OnErr result (is_check command.now ≡ false) }
    {
        match command {
            Command::CheckAccess {
                session,
                operation,
                object,
            } => Ok(self.check_access(session, operation, object)),
            Command::Review(review) => self.answer_review(alloc, review),
            _ => self.change(alloc, command),
        }
    }

    /// Whether the session may perform the operation on the object: the answer of CheckAccess, without a command. It may exactly
    /// where the review of the session's permissions lists it. What stands for a name is a name, or one whose bytes are lent.
    ///
    /// # Errors
    /// The first denial that applies: `NoSession`, `NoOperation`, `NoObject`.
    pub fn check<S: Probe<Name> + Digest, O: Probe<Name> + Digest, B: Probe<Name> + Digest>(
        &self,
        session: &S,
        operation: &O,
        object: &B,
    ) -> Result<bool, Denial>
        ensures denied { IfErr result (λ denial. first_denial (Command.CheckAccess (S.sought session.now) (O.sought operation.now) (B.sought object.now)) self.now ≡ Some denial) }
        ensures held { IfOk result (λ granted. granted ≡ session_holds (find name_cmp (S.sought session.now) self.now.sessions) self.now (O.sought operation.now, B.sought object.now)) }
        ensures allowed { OnOk result (first_denial (Command.CheckAccess (S.sought session.now) (O.sought operation.now) (B.sought object.now)) self.now ≡ None) }
        ensures listed { IfOk result (λ granted. granted ≡ has pair_cmp (O.sought operation.now, B.sought object.now) (session_permissions self.now (S.sought session.now))) }
    {
        self.invariants();
        let grants = self.tables.sets.grants_of(operation, object);
        let session = self.checked_session(session, operation, object, grants)?;
        Ok(some_inherits_some(&self.tables.hierarchy, session.active.names(), grants))
    }

    /// Of each policy each set is in order and without repeats, references exist, counts are within their limits, the
    /// hierarchy has no cycle, and where it is limited no role has two declared descendants, static and dynamic separation of duty
    /// hold over sets that are well formed, and each session's owner exists and is authorized for its active roles.
    pub fn invariants(&self)
        ensures { IsSound self.now }
    {
        let _tables = &self.tables;
    }

    /// The counts that are kept of the static sets: of each set and each user, for how many of its roles the user is authorized.
    pub fn static_counts(&self) -> &Counts
        ensures { AreCounts result.now self.now }
    {
        &self.counts
    }

    /// Whether both policies have the same sets and the same vocabulary.
    pub fn same(&self, other: &Policy) -> bool
        ensures { IsTrue result ↔ (self.now ≡ other.now) }
    {
        self.tables.same(&other.tables) && self.vocabulary.same(&other.vocabulary)
    }

    /// An equal policy.
    ///
    /// # Errors
    /// `AllocError` where there is no memory for it.
    pub fn copy(&self) -> Result<Policy, AllocError>
        ensures { IfOk result (λ copy. copy ≡ self.now) }
    {
        let tables = both(self.tables.copy(), self.counts.copy());
        let ((tables, counts), vocabulary) = both(tables, self.vocabulary.copy())?;
        Ok(Policy {
            tables,
            counts,
            vocabulary,
        })
    }
}
