//! The links of a member: of each member of the group, how many messages it took, and the stamp of the last one.
ghost use Rattle.std.specs.Prelude.{◌≡◌, ◌≤◌, ◌-◌, min, None, Some, length, slice_index, if◌then◌else◌, IfErr, OnOk, OnErr};
ghost use Rattle.rbac_words.specs.Stamp.{is_after};
ghost use Rattle.rbac_words.specs.Limits.{most_members};
ghost use Rattle.rbac_words.specs.Keeping.Links.{founded_links, has_link, next_of, link_refusal, taken_from};
ghost use Rattle.rbac_links.specs.Refusals.{link_refused};

use crate::refusal::LinkRefusal;
use rbac_words::Stamp;
use rbac_words::limits::MOST_MEMBERS;
use std::marker::Model;

const PLACES: usize = MOST_MEMBERS as usize;

/// What a member took of each member of its group. Member k is at place k - 1.
#[derive(Drop)]
pub struct Inlinks {
    me: u32,
    members: u32,
    read: [u32; PLACES],
    latest: [Option<Stamp>; PLACES],
}

impl Model for Inlinks {
    ghost use Rattle.rbac_words.specs.Keeping.Links.{Links};

    ghost Value = { Links };

    ghost use Rattle.rbac_links.specs.Inside.{links_of, HasPlaces};

    ghost view = { links_of };

    ghost invariant = { HasPlaces };
}

// Whether a stamp comes after the last one, if there is a last one.
fn comes_after(last: Option<Stamp>, stamp: Stamp) -> bool
    ensures { result ≡ is_after last stamp }
{
    match last {
        None => true,
        Some(last) => last.is_before(stamp),
    }
}

impl Inlinks {
    /// The links of member `me` in a group of so many, of which nothing was taken. A group has at most eight members.
    pub fn found(me: u32, members: u32) -> Inlinks
        ensures { result ≡ founded_links me (min members most_members) }
    {
        Inlinks {
            me,
            members: members.min(MOST_MEMBERS),
            read: [0; PLACES],
            latest: [None; PLACES],
        }
    }

    /// What all links keep.
    pub fn invariants(&self)
        ensures same_length { length self.now.latest ≡ length self.now.read }
        ensures within_limit { length self.now.read ≤ most_members }
    {
        let _members = self.members;
    }

    // Whether there is a link of this member.
    fn has_link(&self, from: u32) -> bool
        ensures { result ≡ has_link self.now from }
    {
        1 <= from && from <= self.members
    }

    /// The number of the message that is taken next of a member; 0 for a stranger.
    pub fn next(&self, from: u32) -> u64
        ensures { result ≡ (if has_link self.now from then next_of self.now from else 0) }
    {
        if !self.has_link(from) {
            return 0;
        }
        u64::from(self.read[from as usize - 1]) + 1
    }

    /// How many messages were taken of a member; 0 for a stranger.
    pub fn read(&self, from: u32) -> u32
        ensures { result ≡ (if has_link self.now from then slice_index self.now.read (from - 1) else 0) }
    {
        if !self.has_link(from) {
            return 0;
        }
        self.read[from as usize - 1]
    }

    /// The stamp of the last message that was taken of each member, in order of number.
    pub fn latest(&self) -> &[Option<Stamp>]
        ensures { result.now ≡ self.now.latest }
    {
        &self.latest[..self.members as usize]
    }

    /// Whether a message of this number and stamp is the next that is taken of a member.
    ///
    /// # Errors
    /// The first that applies: `UnknownMember`, `FromSelf`, `Repeat`, `Gap`, `StampNotRising`.
    pub fn check(&self, from: u32, number: u32, stamp: Stamp) -> Result<(), LinkRefusal>
        ensures taken { OnOk result (link_refusal self.now from number stamp ≡ None) }
        ensures first_refusal { IfErr result (λ refusal. link_refusal self.now from number stamp ≡ Some (link_refused refusal)) }
    {
        if !self.has_link(from) {
            return Err(LinkRefusal::UnknownMember);
        }
        if from == self.me {
            return Err(LinkRefusal::FromSelf);
        }
        let at = from as usize - 1;
        let expected = u64::from(self.read[at]) + 1;
        if u64::from(number) < expected {
            return Err(LinkRefusal::Repeat { expected });
        }
        if expected < u64::from(number) {
            return Err(LinkRefusal::Gap { expected });
        }
        if stamp.member != from || stamp.place != 0 || !comes_after(self.latest[at], stamp) {
            return Err(LinkRefusal::StampNotRising);
        }
        Ok(())
    }

    /// Takes the next message of a member, of this number and stamp. It takes no memory.
    ///
    /// # Errors
    /// The first that applies: `UnknownMember`, `FromSelf`, `Repeat`, `Gap`, `StampNotRising`. Nothing has changed.
    pub fn accept(&mut self, from: u32, number: u32, stamp: Stamp) -> Result<(), LinkRefusal>
        ensures accepted { OnOk result (link_refusal self.old from number stamp ≡ None) }
        ensures taken { OnOk result (self.new ≡ taken_from self.old from stamp) }
        ensures first_refusal { IfErr result (λ refusal. link_refusal self.old from number stamp ≡ Some (link_refused refusal)) }
        ensures unchanged { OnErr result (self.new ≡ self.old) }
    {
        self.check(from, number, stamp)?;
        let at = from as usize - 1;
        self.read[at] = number;
        self.latest[at] = Some(stamp);
        Ok(())
    }
}
