//! A world of members, and its step.
ghost use Rattle.std.specs.Prelude.{ℕ, ◌≡◌, ◌≤◌, ◌<◌, ◌||◌, ◌⊎◌, ◌↔◌, ◌==◌, true, false, None, Ok, IsTrue, length, slice_index_or, IfOk, IfSome, IfNone};
ghost use Rattle.std.specs.List.{list_all};
ghost use Rattle.rbac_words.specs.Message.{commands_of};
ghost use Rattle.rbac_words.specs.World.{is_member, node, nobody, step_outcome};
ghost use Rattle.rbac_words.specs.Right.{all_commands, founding_world, AreHistoriesRight};
ghost use Rattle.rbac_words.specs.Keeping.Member.{node_of, founded};
ghost use Rattle.rbac_words.specs.Play.{IsReadToEnd, IsPrefixOf};
ghost use Rattle.rbac_words.specs.Step.{IsStep};
ghost use Rattle.rbac_words.specs.declared.event.Event.TheVariants as event;
ghost use Rattle.rbac_words.specs.declared.event.Outcome.TheVariants as outcome;
ghost use Rattle.rbac_world.specs.Inside.{has_read, founded_all};

use crate::step::{place_of, step};
use rbac_member::Member;
use rbac_words::{Event, Group, Outcome, Refusal, Vocabulary};
use std::alloc::{AllocError, Global};
use std::marker::Model;

/// The members of a group in order of number, and nothing else.
#[derive(Drop)]
pub struct World {
    members: Vec<Member>,
}

impl Model for World {
    ghost use Rattle.rbac_words.specs.World.{World as WorldValue};

    ghost Value = { WorldValue };

    ghost use Rattle.rbac_world.specs.Inside.{shown, IsKept};

    ghost view = { shown };

    ghost invariant = { IsKept };
}

// A founded member, with a copy of the vocabulary.
fn founded_member(
    alloc: Global,
    group: Group,
    number: u32,
    vocabulary: &Vocabulary,
) -> Result<Member, AllocError>
    requires low { 1 ≤ number }
    requires high { number ≤ group.members }
    ensures { IfOk result (λ member. member ≡ founded group number vocabulary.now) }
{
    match Member::found(alloc, group, number, vocabulary.copy()?) {
        Ok(member) => Ok(member),
        Err(_) => Err(AllocError),
    }
}

// All members of a group, in order of number.
fn found_all(
    alloc: Global,
    group: Group,
    vocabulary: &Vocabulary,
) -> Result<Vec<Member>, AllocError>
    ensures { IfOk result (λ members. members.items ≡ founded_all group vocabulary.now group.members) }
{
    let mut members = Vec::new(alloc);
    for place in 0..group.members() {
        let member = founded_member(alloc, group, place + 1, vocabulary)?;
        members.push(member)?;
    }
    Ok(members)
}

// Whether a member has read all that another one sent.
fn has_read_of(member: &Member, other: &Member) -> bool
    ensures { result ≡ has_read member.now other.now }
{
    member.number() == other.number() || member.read(other.number()) as usize == other.sent().len()
}

// Whether a member has read all that each of the others sent.
fn has_read_all(member: &Member, others: &[Member]) -> bool
    ensures { result ≡ list_all (has_read member.now) others.now }
{
    others.iter().all(|other| has_read_of(member, other))
}

// Whether each member has read all that each other one sent.
fn have_read_all(members: &[Member]) -> bool
    ensures { result ≡ list_all (λ member. list_all (has_read member) members.now) members.now }
{
    members.iter().all(|member| has_read_all(member, members))
}

impl World {
    /// The founding world of a group: each member at the group's clock, with nothing sent, read or delivered.
    ///
    /// # Errors
    /// `AllocError` where there is no memory for it.
    pub fn found(alloc: Global, group: Group, vocabulary: Vocabulary) -> Result<World, AllocError>
        ensures { IfOk result (λ w. w ≡ founding_world group vocabulary) }
    {
        group.invariants();
        let members = found_all(alloc, group, &vocabulary)?;
        Ok(World { members })
    }

    /// The member of this number, if there is one.
    pub fn member(&self, at: u32) -> Option<&Member>
        ensures member { IfSome result (λ member. node_of member.now ≡ node self.now at) }
        ensures group { IfSome result (λ member. member.now.group ≡ self.now.group) }
        ensures vocabulary { IfSome result (λ member. member.now.vocabulary ≡ self.now.vocabulary) }
        ensures known { IfSome result (λ _. is_member self.now at ≡ true) }
        ensures stranger { IfNone result (is_member self.now at ≡ false) }
    {
        match place_of(&self.members, at) {
            Ok(place) => Some(&self.members[place]),
            Err(_) => None,
        }
    }

    /// One event: its outcome and the world after it, or the first refusal that applies, which leaves the world as it
    /// was.
    ///
    /// # Errors
    /// The first refusal that applies, `NoMemory` after all others. The world is as before.
    pub fn step(&mut self, alloc: Global, event: &Event) -> Result<Outcome, Refusal>
        ensures { IsStep self.old event.now result self.new }
    {
        step(&mut self.members, alloc, event)
    }

    /// Whether each member has read all that each other one sent.
    pub fn read_to_end(&self) -> bool
        ensures { IsTrue result ↔ IsReadToEnd self.now }
    {
        have_read_all(&self.members)
    }

    /// Each history is right: it is all commands submitted anywhere up to its last stamp, in stamp order, and each answer
    /// is the one that the commands of smaller stamp give.
    pub fn right_histories(&self)
        ensures { AreHistoriesRight self.now }
    {
        let _members = &self.members;
    }

    /// Of two histories one is a prefix of the other, answers included.
    pub fn histories_are_one(&self)
        ensures { (i j : ℕ) → i < length self.now.nodes → j < length self.now.nodes → IsPrefixOf (slice_index_or self.now.nodes i nobody).history (slice_index_or self.now.nodes j nobody).history ⊎ IsPrefixOf (slice_index_or self.now.nodes j nobody).history (slice_index_or self.now.nodes i nobody).history }
    {
        let _members = &self.members;
    }

    /// Where each member has read all that each other one sent, and a delivery at a member gives nothing, that member's
    /// history is all commands submitted anywhere.
    pub fn all_that_was_read_is_delivered(&self)
        ensures { (at : ℕ) → IsReadToEnd self.now → step_outcome self.now (event.Deliver at) ≡ Ok (outcome.Delivered None) → commands_of (node self.now at).history ≡ all_commands self.now }
    {
        let _members = &self.members;
    }
}
