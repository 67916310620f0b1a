//! The commands that are held, as one queue for each sender.
ghost use Rattle.std.specs.Prelude.{ℕ, ◌≡◌, ◌≤◌, ◌-◌, [], drop, length, max, slice_set, IfErr, OnOk, OnErr, IfSome, IfNone, vec_len};
ghost use Rattle.std.specs.List.{AllByRecursion};
ghost use Rattle.std.specs.Option.{option_copied};
ghost use Rattle.rbac_words.specs.Message.{submitted_at};
ghost use Rattle.rbac_words.specs.Stamp.{insert_by_stamp, insert_all};
ghost use Rattle.rbac_words.specs.declared.message.Submission.{Submission};
ghost use Rattle.rbac_words.specs.World.{least as least_of};
ghost use Rattle.rbac_holdback.specs.Holdback.{IsHoldback, CanBeHeld, CanAllBeHeld};
ghost use Rattle.rbac_holdback.specs.Queues.{AreQueues, IsWidened, HaveRoom, held_in, lists_of, rooms_of, room_at, longer, longer_by, lesser as lesser_of};

use crate::held_queue::HeldQueue;
use rbac_words::Submission as Held;
use std::alloc::{AllocError, Global};
use std::collections::VecDeque;
use std::marker::Model;

/// The commands that a member holds back, as one queue for each sender.
///
/// Each member's stamps rise, so a queue is in the order of its stamps, and the least command is the least of the first ones.
#[derive(Drop)]
pub struct Holdback {
    members: u32,
    // how many commands are held
    count: usize,
    // item k - 1 is the queue of member k, where one is made
    queues: Vec<VecDeque<Held>>,
}

impl Model for Holdback {
    ghost use Rattle.rbac_holdback.specs.Holdback.{Holdback as HoldbackValue};
    ghost use Rattle.rbac_holdback.specs.Queues.{AreKept, held_in, lists_of};

    ghost Value = { HoldbackValue };

    ghost view = { λ h. record { members = h.members; held = held_in (lists_of h.queues.items) } };

    ghost invariant = { λ h. AreKept h.members h.count (lists_of h.queues.items) };
}

// Of two commands the one with the smaller stamp.
fn lesser<'a>(one: Option<&'a Held>, other: Option<&'a Held>) -> Option<&'a Held>
    ensures { option_copied result ≡ lesser_of (option_copied one.entry) (option_copied other.entry) }
{
    let Some(first) = one else {
        return other;
    };
    let Some(second) = other else {
        return one;
    };
    if first.stamp < second.stamp {
        one
    } else {
        other
    }
}

// The least of the first commands of the queues.
fn least_head(queues: &[VecDeque<Held>]) -> Option<&Held>
    requires { AreQueues 0 (lists_of queues.now) }
    ensures { option_copied result ≡ least_of (held_in (lists_of queues.now)) }
{
    let mut least = None;
    for queue in queues {
        least = lesser(least, queue.front());
    }
    least
}

// Makes queues that are empty, up to this count.
fn make_queues(queues: &mut Vec<VecDeque<Held>>, count: usize) -> Result<(), AllocError>
    ensures made { IsWidened (lists_of queues.old.items) (lists_of queues.new.items) }
    ensures long_enough { OnOk result (vec_len queues.new ≡ max (vec_len queues.old) count) }
    ensures same_length { OnErr result (vec_len queues.new ≡ vec_len queues.old) }
    ensures rooms { (member : ℕ) → room_at member (rooms_of queues.old.items) ≤ room_at member (rooms_of queues.new.items) }
{
    if queues.len() < count {
        let alloc = *queues.allocator();
        queues.resize_with(count, || VecDeque::new(alloc))?;
    }
    Ok(())
}

// Makes the queue of a member where it is wanting, and room in it for so many commands.
fn make_room(
    queues: &mut Vec<VecDeque<Held>>,
    member: usize,
    count: usize,
) -> Result<(), AllocError>
    requires { 1 ≤ member }
    ensures made { IsWidened (lists_of queues.old.items) (lists_of queues.new.items) }
    ensures no_more { vec_len queues.new ≤ max (vec_len queues.old) member }
    ensures rooms { (k : ℕ) → room_at k (rooms_of queues.old.items) ≤ room_at k (rooms_of queues.new.items) }
    ensures room { OnOk result (count ≤ room_at member (rooms_of queues.new.items)) }
{
    make_queues(queues, member)?;
    queues[member - 1].reserve(count)
}

// Makes room for each of these commands in the queue of its member. A member's queue gets room for all of them, which is no more
// than it needs where they are of one member, as those of a message are.
fn make_room_for_all(queues: &mut Vec<VecDeque<Held>>, held: &[Held]) -> Result<(), AllocError>
    requires { AllByRecursion (λ (x : Submission). 1 ≤ x.stamp.member) held.now }
    ensures made { IsWidened (lists_of queues.old.items) (lists_of queues.new.items) }
    ensures no_more { (members : ℕ) → AllByRecursion (λ (x : Submission). x.stamp.member ≤ members) held.now → vec_len queues.old ≤ members → vec_len queues.new ≤ members }
    ensures room { OnOk result (HaveRoom (length held.now) (rooms_of queues.new.items) held.now) }
{
    for item in held {
        make_room(queues, item.stamp.member as usize, held.len())?;
    }
    Ok(())
}

// Puts a command last in the queue of its member, which has room for it. It takes no memory.
fn put_ready(queues: &mut Vec<VecDeque<Held>>, held: Held)
    requires member { 1 ≤ held.stamp.member }
    requires room { 1 ≤ room_at held.stamp.member (rooms_of queues.old.items) }
    ensures put { lists_of queues.new.items ≡ longer held (lists_of queues.old.items) }
    ensures room { rooms_of queues.new.items ≡ slice_set (rooms_of queues.old.items) (held.stamp.member - 1) (room_at held.stamp.member (rooms_of queues.old.items) - 1) }
{
    let place = held.stamp.member as usize - 1;
    match queues[place].push_back(held) {
        Ok(()) => {}
        Err(back) => {
            drop(back);
            unreachable!()
        }
    }
}

// The same of several commands, one after the other.
fn put_all_ready(queues: &mut Vec<VecDeque<Held>>, held: Vec<Held>)
    requires members { AllByRecursion (λ (x : Submission). 1 ≤ x.stamp.member) held.items }
    requires room { HaveRoom (length held.items) (rooms_of queues.old.items) held.items }
    ensures { lists_of queues.new.items ≡ longer_by held.items (lists_of queues.old.items) }
{
    for item in held {
        put_ready(queues, item);
    }
}

impl HeldQueue for Holdback {
    ghost content = { λ h. h };

    fn empty(alloc: Global, members: u32) -> Holdback {
        Holdback {
            members,
            count: 0,
            queues: Vec::new(alloc),
        }
    }

    fn len(&self) -> usize {
        self.count
    }

    fn put(&mut self, held: Held) -> Result<(), Held> {
        // no memory holds more commands than can be counted
        let Some(count) = self.count.checked_add(1) else {
            return Err(held);
        };
        if make_room(&mut self.queues, held.stamp.member as usize, 1).is_err() {
            return Err(held);
        }
        put_ready(&mut self.queues, held);
        self.count = count;
        Ok(())
    }

    fn put_all(&mut self, held: Vec<Held>) -> Result<(), Vec<Held>> {
        let Some(count) = self.count.checked_add(held.len()) else {
            return Err(held);
        };
        if make_room_for_all(&mut self.queues, &held).is_err() {
            return Err(held);
        }
        put_all_ready(&mut self.queues, held);
        self.count = count;
        Ok(())
    }

    fn least(&self) -> Option<&Held> {
        least_head(&self.queues)
    }

    fn take_least(&mut self) -> Option<Held> {
        let member = least_head(&self.queues)?.stamp.member as usize;
        self.count -= 1;
        self.queues[member - 1].pop_front()
    }

    fn invariants(&self) {
        let _queues = &self.queues;
    }
}
