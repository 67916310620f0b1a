//! Commands of a node's callers, and their delivery.
ghost use Rattle.std.specs.Prelude.{ℕ, ◌≡◌, ◌<◌, ◌+◌, ◌∷◌, [], true, false, None, is_some, IfOk, IfErr, OnOk, OnErr};

use crate::group_name::GroupName;
use crate::node::Node;
use rbac_member::SubmitRefusal;
use rbac_words::{Command, Submission};
use std::alloc::{AllocError, Global};

impl<G: GroupName> Node<G> {
    ghost use Rattle.rbac_words.specs.Keeping.Member.{submission, submitted, node_of, due_at, deliver_due};
    ghost use Rattle.rbac_words.specs.World.{submit_refusal, place_of};
    ghost use Rattle.rbac_member.specs.Calls.{submit_refused, rule_of};
    ghost use Rattle.rbac_node.specs.Node.{with_own_member, AreDeliveries};

    /// One submit of its member. The caller's number is one that this node gave.
    ///
    /// # Errors
    /// The first refusal of `Member::submit`. Nothing has changed.
    pub fn submit(
        &mut self,
        caller: u32,
        serial: u32,
        command: Command,
    ) -> Result<Submission, SubmitRefusal>
        requires { caller < self.old.next_caller }
        ensures submission { IfOk result (λ s. s ≡ submission self.old.member caller serial command) }
        ensures submitted { OnOk result (self.new ≡ with_own_member self.old (submitted self.old.member caller serial (command ∷ []))) }
        ensures accepted { OnOk result (submit_refusal self.old.member.group (node_of self.old.member) caller serial 1 ≡ None) }
        ensures first_refusal { IfErr result (λ refusal. submit_refusal self.old.member.group (node_of self.old.member) caller serial 1 ≡ rule_of (submit_refused refusal)) }
        ensures unchanged { OnErr result (self.new ≡ self.old) }
    {
        self.member.submit(caller, serial, command)
    }

    /// One delivery of its member.
    ///
    /// # Errors
    /// `AllocError` where there is no memory for it. Nothing has changed.
    pub fn deliver(&mut self, alloc: Global) -> Result<Option<usize>, AllocError>
        ensures place { IfOk result (λ place. place ≡ place_of (node_of self.old.member) (due_at self.old.member)) }
        ensures delivered { OnOk result (self.new ≡ with_own_member self.old (deliver_due self.old.member (due_at self.old.member))) }
        ensures was_due { OnErr result (is_some (due_at self.old.member) ≡ true) }
        ensures unchanged { OnErr result (self.new ≡ self.old) }
    {
        self.member.deliver(alloc)
    }

    /// Delivers until nothing is due, and answers how many records that gave. After a refusal what was delivered stays.
    ///
    /// # Errors
    /// `AllocError` where a record was due that gets no memory.
    pub fn deliver_all(&mut self, alloc: Global) -> Result<usize, AllocError>
        ensures all { IfOk result (λ n. AreDeliveries n self.old.member self.new.member) }
        ensures to_the_end { OnOk result (is_some (due_at self.new.member) ≡ false) }
        ensures some { OnErr result ((n : ℕ) × AreDeliveries n self.old.member self.new.member) }
        ensures was_due { OnErr result (is_some (due_at self.new.member) ≡ true) }
        ensures nothing_else { self.new ≡ with_own_member self.old self.new.member }
    {
        let before = self.member().history().len();
        while self.deliver(alloc)?.is_some() {}
        Ok(self.member().history().len() - before)
    }
}
