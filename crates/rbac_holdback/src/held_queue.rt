//! What is asked of the commands that are held, however they are kept.
ghost use Rattle.std.specs.Prelude.{◌≡◌, ◌≤◌, ◌↔◌, IsTrue, true, false, Some, [], drop, length, IfErr, OnOk, OnErr, IfSome, IfNone};
ghost use Rattle.rbac_words.specs.Message.{submitted_at};
ghost use Rattle.rbac_words.specs.Stamp.{insert_by_stamp, insert_all};
ghost use Rattle.rbac_words.specs.Keeping.Member.{is_least_passed};
ghost use Rattle.rbac_words.specs.World.{least as least_of};
ghost use Rattle.rbac_holdback.specs.Holdback.{Holdback as HoldbackValue, IsHoldback, CanBeHeld, CanAllBeHeld};

use crate::passing::is_passed_by_all;
use rbac_words::{Stamp, Submission as Held};
use std::alloc::Global;

/// The commands that a member holds back. Members are numbered from 1 to their count.
pub trait HeldQueue: Sized {
    /// How many members the group has, and the commands in the order of their stamps, however they are kept.
    ghost content: { Self → HoldbackValue };

    /// Nothing is held, in a group of so many members. It takes no memory.
    fn empty(alloc: Global, members: u32) -> Self
        ensures members { (content result).members ≡ members }
        ensures held { (content result).held ≡ [] };

    /// How many commands are held.
    fn len(&self) -> usize
        ensures { result ≡ length (content self.now).held };

    /// Holds a command, before the first one with a greater stamp. Each member's stamps rise, so it comes after those of
    /// its own member. Where memory is wanting, the command is handed back.
    fn put(&mut self, held: Held) -> Result<(), Held>
        requires { CanBeHeld (content self.old) held }
        ensures members { (content self.new).members ≡ (content self.old).members }
        ensures held { OnOk result ((content self.new).held ≡ insert_by_stamp submitted_at held (content self.old).held) }
        ensures handed_back { IfErr result (λ back. back ≡ held) }
        ensures unchanged { OnErr result ((content self.new).held ≡ (content self.old).held) };

    /// Holds some commands, each as `put` does once those before it are held, or none of them. Where memory is wanting, they are
    /// handed back.
    fn put_all(&mut self, held: Vec<Held>) -> Result<(), Vec<Held>>
        requires { CanAllBeHeld (content self.old) held.items }
        ensures members { (content self.new).members ≡ (content self.old).members }
        ensures held { OnOk result ((content self.new).held ≡ insert_all submitted_at held.items (content self.old).held) }
        ensures handed_back { IfErr result (λ back. back.items ≡ held.items) }
        ensures unchanged { OnErr result ((content self.new).held ≡ (content self.old).held) };

    /// The command with the least stamp, if one is held. It takes no memory.
    fn least(&self) -> Option<&Held>
        ensures least { IfSome result (λ x. least_of (content self.now).held ≡ Some x.now) }
        ensures none { IfNone result ((content self.now).held ≡ []) };

    /// Takes the command with the least stamp out, if one is held. It takes no memory.
    fn take_least(&mut self) -> Option<Held>
        ensures members { (content self.new).members ≡ (content self.old).members }
        ensures least { result ≡ least_of (content self.old).held }
        ensures rest { (content self.new).held ≡ drop 1 (content self.old).held };

    /// What always holds of it.
    fn invariants(&self)
        ensures { IsHoldback (content self.now) };

    /// Whether no command is held.
    final fn is_empty(&self) -> bool
        ensures { IsTrue result ↔ ((content self.now).held ≡ []) }
    {
        self.len() == 0
    }

    /// The least command, where it is stable: by the latest stamp of each member's messages, item k - 1 for member k, each
    /// member but `me` and the command's own has passed it, so no command that comes later has a smaller stamp (Lamport 1978,
    /// "Ordering the Events Totally").
    final fn stable_least(&self, me: u32, latest: &[Option<Stamp>]) -> Option<&Held>
        requires latest { length latest.now ≡ (content self.now).members }
        requires me { (1 ≤ me) × (me ≤ (content self.now).members) }
        ensures some { IfSome result (λ x. (least_of (content self.now).held ≡ Some x.now) × (is_least_passed (content self.now).members me latest.now (content self.now).held ≡ true)) }
        ensures none { IfNone result (is_least_passed (content self.now).members me latest.now (content self.now).held ≡ false) }
    {
        let least = self.least()?;
        if is_passed_by_all(me, latest, least) {
            Some(least)
        } else {
            None
        }
    }

    /// Whether the least command is stable, as `stable_least` says. False where nothing is held.
    final fn stable(&self, me: u32, latest: &[Option<Stamp>]) -> bool
        requires latest { length latest.now ≡ (content self.now).members }
        requires me { (1 ≤ me) × (me ≤ (content self.now).members) }
        ensures { result ≡ is_least_passed (content self.now).members me latest.now (content self.now).held }
    {
        self.stable_least(me, latest).is_some()
    }
}
