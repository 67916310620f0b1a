//! The numbers of a group.
ghost use Rattle.std.specs.Prelude.{◌≡◌, None, Some, IfOk, IfErr, OnOk};
ghost use Rattle.rbac_words.specs.Group.{IsGroup};
ghost use Rattle.rbac_words.specs.Build.{group_refusal};

use crate::limits::{LAST_CLOCK, MOST_MEMBERS, MOST_SENT};
use std::marker::Model;
use thiserror::Error;

/// How many members a group has (1 to 8, numbered from 1), where their clocks start (0 to 9,007,199,254,740,991), and
/// how many messages each of them may send (1 to 65,536).
#[derive(Clone, Copy, Drop)]
pub struct Group {
    members: u32,
    clock: u64,
    sent_limit: u32,
}

impl Model for Group {
    ghost use Rattle.rbac_words.specs.Group.{Group as GroupValue, IsGroup};

    ghost Value = { GroupValue };

    ghost view = { λ g. record { members = g.members; clock = g.clock; sent_limit = g.sent_limit } };

    ghost invariant = { λ g. IsGroup (record { members = g.members; clock = g.clock; sent_limit = g.sent_limit }) };

    ghost inverse = { λ g. record { members = g.members; clock = g.clock; sent_limit = g.sent_limit } };
}

/// Why numbers make no group, in the order of the checks.
#[derive(Clone, Copy, Debug, PartialEq, Eq, Drop, Error)]
pub enum GroupRefusal {
    #[error("a group has 1 to 8 members")]
    BadMembers,
    #[error("a clock begins at 9007199254740991 at most")]
    BadClock,
    #[error("a member may send 1 to 65536 messages")]
    BadSentLimit,
}

impl Group {
    /// A group of these numbers.
    ///
    /// # Errors
    /// The first that applies: `BadMembers`, `BadClock`, `BadSentLimit`.
    pub fn build(members: u32, clock: u64, sent_limit: u32) -> Result<Group, GroupRefusal>
        ensures built { IfOk result (λ g. g ≡ record { members = members; clock = clock; sent_limit = sent_limit }) }
        ensures fits { OnOk result (group_refusal members clock sent_limit ≡ None) }
        ensures first_refusal { IfErr result (λ refusal. group_refusal members clock sent_limit ≡ Some refusal) }
    {
        if members < 1 || MOST_MEMBERS < members {
            return Err(GroupRefusal::BadMembers);
        }
        if LAST_CLOCK < clock {
            return Err(GroupRefusal::BadClock);
        }
        if sent_limit < 1 || MOST_SENT < sent_limit {
            return Err(GroupRefusal::BadSentLimit);
        }
        Ok(Group {
            members,
            clock,
            sent_limit,
        })
    }

    /// How many members there are.
    pub fn members(&self) -> u32
        ensures { result ≡ self.now.members }
    {
        self.members
    }

    /// Where each member's clock starts.
    pub fn clock(&self) -> u64
        ensures { result ≡ self.now.clock }
    {
        self.clock
    }

    /// How many messages each member may send.
    pub fn sent_limit(&self) -> u32
        ensures { result ≡ self.now.sent_limit }
    {
        self.sent_limit
    }

    /// Each group is within the limits.
    pub fn invariants(&self)
        ensures { IsGroup self.now }
    {
        let _members = self.members;
    }
}
