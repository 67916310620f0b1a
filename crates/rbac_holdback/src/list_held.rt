//! The commands that are held, as one list.
ghost use Rattle.std.specs.Prelude.{◌≡◌, ◌≤◌, ◌+◌, [], drop, length, IfErr, OnOk, OnErr, IfSome, IfNone};
ghost use Rattle.rbac_words.specs.Message.{submitted_at};
ghost use Rattle.rbac_words.specs.Stamp.{IsRising, insert_by_stamp, insert_all};
ghost use Rattle.rbac_words.specs.World.{least as least_of};
ghost use Rattle.rbac_holdback.specs.Holdback.{IsHoldback, AreAboveOwn, CanBeHeld, CanAllBeHeld};
ghost use Rattle.rbac_holdback.specs.Queues.{room_of};

use crate::held_queue::HeldQueue;
use rbac_words::Submission as Held;
use std::alloc::Global;
use std::collections::VecDeque;
use std::marker::Model;

/// The commands that a member holds back, as one list in the order of their stamps.
#[derive(Drop)]
pub struct ListHeld {
    members: u32,
    held: VecDeque<Held>,
}

impl Model for ListHeld {
    ghost use Rattle.rbac_holdback.specs.Holdback.{Holdback as HoldbackValue, IsHoldback};

    ghost Value = { HoldbackValue };

    ghost view = { λ h. record { members = h.members; held = h.held.items } };

    ghost invariant = { λ h. IsHoldback (record { members = h.members; held = h.held.items }) };
}

// Puts a command where its stamp belongs.
fn insert(list: &mut VecDeque<Held>, held: Held) -> Result<(), Held>
    requires { IsRising submitted_at list.old.items }
    ensures inserted { OnOk result (list.new.items ≡ insert_by_stamp submitted_at held list.old.items) }
    ensures handed_back { IfErr result (λ back. back ≡ held) }
    ensures unchanged { OnErr result (list.new.items ≡ list.old.items) }
    ensures full { OnErr result (room_of list.old ≡ 0) }
    ensures room { room_of list.old ≤ room_of list.new + 1 }
{
    let stamp = held.stamp;
    let place = list.partition_point(|other| other.stamp <= stamp);
    match list.insert(place, held) {
        Ok(()) => Ok(()),
        Err(failed) => Err(failed.value),
    }
}

// Puts each of these commands where its stamp belongs, one after the other. It takes no memory.
fn insert_each(list: &mut VecDeque<Held>, held: Vec<Held>)
    requires rising { IsRising submitted_at list.old.items }
    requires above { AreAboveOwn held.items list.old.items }
    requires room { length held.items ≤ room_of list.old }
    ensures { list.new.items ≡ insert_all submitted_at held.items list.old.items }
{
    for item in held {
        match insert(list, item) {
            Ok(()) => {}
            Err(back) => {
                drop(back);
                unreachable!()
            }
        }
    }
}

impl HeldQueue for ListHeld {
    ghost content = { λ h. h };

    fn empty(alloc: Global, members: u32) -> ListHeld {
        ListHeld {
            members,
            held: VecDeque::new(alloc),
        }
    }

    fn len(&self) -> usize {
        self.held.len()
    }

    fn put(&mut self, held: Held) -> Result<(), Held> {
        insert(&mut self.held, held)
    }

    fn put_all(&mut self, held: Vec<Held>) -> Result<(), Vec<Held>> {
        if self.held.reserve(held.len()).is_err() {
            return Err(held);
        }
        insert_each(&mut self.held, held);
        Ok(())
    }

    fn least(&self) -> Option<&Held> {
        self.held.front()
    }

    fn take_least(&mut self) -> Option<Held> {
        self.held.pop_front()
    }

    fn invariants(&self) {
        let _held = &self.held;
    }
}
