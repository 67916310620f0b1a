//! A member of a group.
ghost use Rattle.std.specs.Prelude.{◌≡◌, ◌≤◌, ◌<◌, ◌⊎◌, IfOk, IfErr, OnOk};

mod counting;
mod deliver;
mod own;
mod receive;
mod submit;

use crate::refusal::FoundRefusal;
use rbac_decide::Policy;
use rbac_holdback::{HeldQueue, Holdback};
use rbac_links::{Inlinks, Outbox};
use rbac_words::{Group, Message, Record, Stamp, Vocabulary};
use sorted_keys::SortedMap;
use std::alloc::Global;
use std::marker::Model;

/// A member: its clock, what it sent, what it took of each other member, what it holds back, what it delivered, and its policy.
#[derive(Drop)]
pub struct Member {
    group: Group,
    number: u32,
    clock: u64,
    // the next serial of each caller of each member
    serials: SortedMap<(u32, u32), u64>,
    outbox: Outbox,
    links: Inlinks,
    held: Holdback,
    history: Vec<Record>,
    policy: Policy,
}

impl Model for Member {
    ghost use Rattle.rbac_words.specs.Keeping.Member.{Member as MemberValue};

    ghost Value = { MemberValue };

    ghost use Rattle.rbac_member.specs.Inside.{member_of, IsKept};

    ghost view = { member_of };

    ghost invariant = { IsKept };
}

impl Member {
    ghost use Rattle.std.specs.Prelude.{option_map};
    ghost use Rattle.rbac_words.specs.Stamp.{has_passed};
    ghost use Rattle.rbac_words.specs.Message.{next_serial, submissions};
    ghost use Rattle.rbac_words.specs.World.{least};
    ghost use Rattle.rbac_words.specs.Keeping.Member.{IsMember, founded, latest_of};
    ghost use Rattle.rbac_member.specs.Calls.{taken_of};

    /// The member of this number, with nothing sent, received, held or delivered. It takes no memory.
    ///
    /// # Errors
    /// `UnknownMember` where the group has no such member.
    pub fn found(
        alloc: Global,
        group: Group,
        number: u32,
        vocabulary: Vocabulary,
    ) -> Result<Member, FoundRefusal>
        ensures founded { IfOk result (λ member. member ≡ founded group number vocabulary) }
        ensures known { OnOk result ((1 ≤ number) × (number ≤ group.members)) }
        ensures unknown { IfErr result (λ refusal. (refusal ≡ FoundRefusal.UnknownMember) × ((number < 1) ⊎ (group.members < number))) }
    {
        group.invariants();
        if number < 1 || group.members() < number {
            return Err(FoundRefusal::UnknownMember);
        }
        Ok(Member {
            group,
            number,
            clock: group.clock(),
            serials: SortedMap::new(alloc),
            outbox: Outbox::found(alloc, group.sent_limit()),
            links: Inlinks::found(number, group.members()),
            held: Holdback::empty(alloc, group.members()),
            history: Vec::new(alloc),
            policy: Policy::found(alloc, vocabulary),
        })
    }

    /// Its clock.
    pub fn clock(&self) -> u64
        ensures { result ≡ self.now.clock }
    {
        self.clock
    }

    /// Its number.
    pub fn number(&self) -> u32
        ensures { result ≡ self.now.number }
    {
        self.number
    }

    /// How many messages it took of another member; 0 for itself and for a stranger.
    pub fn read(&self, from: u32) -> u32
        ensures { result ≡ taken_of self.now from }
    {
        if from == self.number {
            return 0;
        }
        self.links.read(from)
    }

    /// The serial of the next command of a caller at this member: how many it submitted here before.
    pub fn next_serial(&self, caller: u32) -> u64
        ensures { result ≡ next_serial caller (submissions self.now.sent) }
    {
        counting::next_serial(&self.serials, self.number, caller)
    }

    /// How many members its group has.
    pub fn members(&self) -> u32
        ensures { result ≡ self.now.group.members }
    {
        self.group.members()
    }

    /// The least stamp of a command that it holds back.
    pub fn least_held(&self) -> Option<Stamp>
        ensures { result ≡ option_map (λ x. x.stamp) (least self.now.held) }
    {
        self.held.least().map(|held| held.stamp)
    }

    /// Whether the last message that it took of another member has a greater stamp than this one; false where it took none.
    pub fn has_passed(&self, from: u32, stamp: Stamp) -> bool
        ensures { result ≡ has_passed (latest_of self.now from) stamp }
    {
        let place = (from as usize).saturating_sub(1);
        match self.links.latest().get(place) {
            Some(Some(latest)) => stamp.is_before(*latest),
            _ => false,
        }
    }

    /// What it delivered, in order, with the answers.
    pub fn history(&self) -> &[Record]
        ensures { result.now ≡ self.now.history }
    {
        &self.history
    }

    /// What it sent, in order: message number j is item j, counted from 1.
    pub fn sent(&self) -> &[Message]
        ensures { result.now ≡ self.now.sent }
    {
        self.outbox.all()
    }

    /// Its policy.
    pub fn policy(&self) -> &Policy
        ensures { result.now ≡ self.now.policy }
    {
        &self.policy
    }

    /// What each member keeps.
    pub fn invariants(&self)
        ensures { IsMember self.now }
    {
        let _history = &self.history;
    }
}
