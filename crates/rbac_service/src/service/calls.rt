//! What callers do.
ghost use Rattle.std.specs.Prelude.{◌≡◌, ◌≢◌, ◌↔◌, ◌<◌, ◌+◌, ◌⊎◌, max, true, false, None, [], length, IfOk, IfErr, IfSome, OnOk, OnErr};
ghost use Rattle.rbac_words.specs.Keeping.Member.{IsNumber};
ghost use Rattle.rbac_node.specs.Cells.{history_cells};
ghost use Rattle.rbac_node.specs.Pass.{Owns, IsAnswered};
ghost use Rattle.rbac_words.specs.Play.{IsPrefixOf};
ghost use Rattle.rbac_service.specs.Submit.{IsSubmitted, IsNotSubmitted, TellsSubmit};
ghost use Rattle.rbac_service.specs.Ticket.{ticket_back, called, IsCallRefused};

use crate::courier::Courier;
use crate::gate::{Gate, Moment};
use crate::refusal::{AwaitRefusal, CallRefusal, EnrollRefusal};
use crate::service::turn::answered_since;
use crate::service::{Service, Slot};
use rbac_node::{GroupName, MeetRefusal, Node, Pass, Receipt, ServiceRefusal, Ticket};
use rbac_words::{Command, Record};
use std::alloc::{AllocError, Global};
use std::sync::Wait;

// Why a ticket has no answer.
#[derive(Clone, Copy, Drop)]
enum Unanswered {
    Stopped,
    NoMemory,
}

impl<G: GroupName, K: Gate + Drop, C: Courier + Drop> Service<G, K, C> {
    /// A pass of a new caller of a member, with an empty front. It may wait for the member's lock.
    ///
    /// # Errors
    /// `UnknownMember` exactly where the group has no such member, then `Stopped` (so too where another member's node stood at its place,
    /// which none does), then `CallersFull`.
    pub fn enroll<R: Wait>(&self, rt: &R, at: u32) -> Result<Pass<G>, EnrollRefusal>
        ensures known { OnOk result (IsNumber G.group at) }
        ensures stranger { IfErr result (λ refusal. (refusal ≡ EnrollRefusal.UnknownMember) ↔ (IsNumber G.group at → ⊥)) }
        ensures member { IfOk result (λ pass. pass.member ≡ at) }
        ensures first_serial { IfOk result (λ pass. pass.next ≡ 0) }
        ensures no_ticket { IfOk result (λ pass. pass.is_waiting ≡ false) }
        ensures empty_front { IfOk result (λ pass. pass.front ≡ []) }
    {
        let Some(slot) = self.slot(at) else {
            return Err(EnrollRefusal::UnknownMember);
        };
        let mut node = slot.node.lock(rt);
        if node.is_stopped() || node.member().number() != at {
            return Err(EnrollRefusal::Stopped);
        }
        node.invariants();
        let history_row = self.rows.history(at);
        match node.enroll(history_row) {
            Some(pass) => Ok(pass),
            None => Err(EnrollRefusal::CallersFull),
        }
    }

    /// Submits the pass's next command at its member, and publishes it. Where publishing is refused, the ticket is given all the
    /// same, and a later turn publishes. Then it takes turns of the other members whose threads run and whose locks are free, a
    /// bounded number, and tells the others of what is new; where nothing new was published it does neither. The pass is of this
    /// service. It may wait for the member's lock.
    ///
    /// # Errors
    /// The first that applies to the node that stood under the lock, as `ServiceRefusal` says; the command is dropped.
    pub fn submit<R: Wait>(
        &self,
        rt: &R,
        alloc: Global,
        pass: &mut Pass<G>,
        command: Command,
    ) -> Result<Ticket, ServiceRefusal>
        ensures member { IfOk result (λ ticket. ticket.call.stamp.member ≡ pass.old.member) }
        ensures caller { IfOk result (λ ticket. ticket.call.caller ≡ pass.old.caller) }
        ensures serial { IfOk result (λ ticket. ticket.call.serial ≡ pass.old.next) }
        ensures command { IfOk result (λ ticket. ticket.call.command ≡ command) }
        ensures seen { IfOk result (λ ticket. ticket.seen ≡ length pass.old.front) }
        ensures pass { OnOk result (pass.new ≡ record pass.old { next = pass.old.next + 1; is_waiting = true }) }
        ensures idle { OnOk result (pass.old.is_waiting ≡ false) }
        ensures accepted { IfOk result (λ ticket. IsSubmitted G.group G.vocabulary pass.old ticket.call.stamp) }
        ensures first_refusal { IfErr result (λ refusal. IsNotSubmitted G.group G.vocabulary pass.old refusal) }
        ensures busy { IfErr result (λ refusal. refusal ≡ ServiceRefusal.Busy → pass.old.is_waiting ≡ true) }
        ensures waiting { pass.old.is_waiting ≡ true → IfErr result (λ refusal. (refusal ≡ ServiceRefusal.Stopped) ⊎ (refusal ≡ ServiceRefusal.Busy)) }
        ensures unchanged { OnErr result (pass.new ≡ pass.old) }
    {
        let slot = self.slot_or_first(pass.member());
        let mut node = slot.node.lock(rt);
        node.invariants();
        let ticket = pass.submit(&mut node, command)?;
        let (sent, records) = (node.published(), node.published_records());
        let _published = self.publish(alloc, &mut node);
        let (shown, answered) = (node.published(), answered_since(&node, records));
        drop(node);
        slot.waiting.wake(answered);
        if shown != sent {
            self.spread(alloc, pass.member(), shown, pass.member());
        }
        self.gate.at(Moment::Submitted(ticket.stamp()));
        Ok(ticket)
    }

    // The lock of a member, or the first one's where the group has no such member: the node there refuses a pass of it.
    fn slot_or_first(&self, at: u32) -> &Slot<G> {
        match self.slot(at) {
            Some(slot) => slot,
            None => &self.slots[0],
        }
    }

    /// Waits until the member has published the answer to the pass's ticket, or was stopped. An answer that is published is given
    /// also after the stop.
    ///
    /// # Errors
    /// `Stopped` or `NoMemory`, with the ticket, which stays the pass's outstanding one.
    pub fn await_answer<R: Wait>(
        &self,
        rt: &R,
        pass: &mut Pass<G>,
        ticket: Ticket,
    ) -> Result<Receipt, AwaitRefusal>
        requires { Owns pass.old ticket }
        ensures answered { IfOk result (λ receipt. IsAnswered pass.old ticket receipt.place receipt.answer pass.new) }
        ensures stamp { IfOk result (λ receipt. receipt.stamp ≡ ticket.call.stamp) }
        ensures back { IfErr result (λ refusal. ticket_back refusal ≡ ticket) }
        ensures unchanged { OnErr result (pass.new ≡ pass.old) }
    {
        let Some(slot) = self.slot(pass.member()) else {
            return Err(AwaitRefusal::Stopped(ticket));
        };
        let mut ticket = ticket;
        match self.answer_at(rt, slot, pass, &mut ticket) {
            Ok(receipt) => {
                drop(ticket);
                Ok(receipt)
            }
            Err(Unanswered::Stopped) => Err(AwaitRefusal::Stopped(ticket)),
            Err(Unanswered::NoMemory) => Err(AwaitRefusal::NoMemory(ticket)),
        }
    }

    // Waits at a member's lock until it has published the answer to the pass's ticket, or was stopped.
    fn answer_at<R: Wait>(
        &self,
        rt: &R,
        slot: &Slot<G>,
        pass: &mut Pass<G>,
        ticket: &mut Ticket,
    ) -> Result<Receipt, Unanswered>
        requires { Owns pass.old ticket.old }
        ensures answered { IfOk result (λ receipt. IsAnswered pass.old ticket.old receipt.place receipt.answer pass.new) }
        ensures stamp { IfOk result (λ receipt. receipt.stamp ≡ ticket.old.call.stamp) }
        ensures ticket { ticket.new ≡ ticket.old }
        ensures unchanged { OnErr result (pass.new ≡ pass.old) }
    {
        let mut node = slot.node.lock(rt);
        for _turn in rt.forever() {
            match pass.answered(&mut node, ticket) {
                Ok(Some(receipt)) => {
                    drop(node);
                    self.gate.at(Moment::Answered(receipt.stamp));
                    return Ok(receipt);
                }
                Ok(None) => {}
                Err(AllocError) => return Err(Unanswered::NoMemory),
            }
            if node.is_stopped() {
                return Err(Unanswered::Stopped);
            }
            node = slot.waiting.wait(rt, ticket.stamp(), node);
        }
        unreachable!()
    }

    /// Submits the pass's next command, and waits for the answer.
    ///
    /// # Errors
    /// That of `submit` or of `await_answer`.
    pub fn call<R: Wait>(
        &self,
        rt: &R,
        alloc: Global,
        pass: &mut Pass<G>,
        command: Command,
    ) -> Result<Receipt, CallRefusal>
        ensures answered { IfOk result (λ receipt. IsAnswered (record pass.old { next = pass.old.next + 1; is_waiting = true }) (called pass.old receipt.stamp command) receipt.place receipt.answer pass.new) }
        ensures member { IfOk result (λ receipt. receipt.stamp.member ≡ pass.old.member) }
        ensures accepted { IfOk result (λ receipt. IsSubmitted G.group G.vocabulary pass.old receipt.stamp) }
        ensures first_refusal { IfErr result (λ refusal. TellsSubmit G.group G.vocabulary pass.old refusal) }
        ensures busy { IfErr result (λ refusal. refusal ≡ CallRefusal.Submit ServiceRefusal.Busy → pass.old.is_waiting ≡ true) }
        ensures waiting { pass.old.is_waiting ≡ true → IfErr result (λ refusal. (refusal ≡ CallRefusal.Submit ServiceRefusal.Stopped) ⊎ (refusal ≡ CallRefusal.Submit ServiceRefusal.Busy)) }
        ensures refused { IfErr result (λ refusal. IsCallRefused pass.old command refusal pass.new) }
    {
        let ticket = match self.submit(rt, alloc, pass, command) {
            Ok(ticket) => ticket,
            Err(refusal) => return Err(CallRefusal::Submit(refusal)),
        };
        match self.await_answer(rt, pass, ticket) {
            Ok(receipt) => Ok(receipt),
            Err(refusal) => Err(CallRefusal::Await(refusal)),
        }
    }

    /// Both passes, of one member of this service, have the longer of the two fronts, which begins with what each had seen. It
    /// does not wait.
    ///
    /// # Errors
    /// `OtherMember` exactly where they are not of one member, then `NoMemory`. Both are as before.
    pub fn meet(&self, one: &mut Pass<G>, other: &mut Pass<G>) -> Result<(), MeetRefusal>
        ensures one_member { OnOk result (one.old.member ≡ other.old.member) }
        ensures one_front { OnOk result (one.new.front ≡ other.new.front) }
        ensures longer { OnOk result (length one.new.front ≡ max (length one.old.front) (length other.old.front)) }
        ensures seen { OnOk result (IsPrefixOf one.old.front one.new.front) }
        ensures other_seen { OnOk result (IsPrefixOf other.old.front other.new.front) }
        ensures nothing_else { one.new ≡ record one.old { front = one.new.front } }
        ensures other_nothing_else { other.new ≡ record other.old { front = other.new.front } }
        ensures other_member { IfErr result (λ refusal. (refusal ≡ MeetRefusal.OtherMember) ↔ (one.old.member ≢ other.old.member)) }
        ensures unchanged { OnErr result (one.new ≡ one.old) }
        ensures other_unchanged { OnErr result (other.new ≡ other.old) }
    {
        one.meet(other)
    }

    /// What a member has published at a place of its history. It does not wait.
    pub fn published(&self, at: u32, place: usize) -> Option<&Record>
        ensures known { IfSome result (λ _. IsNumber G.group at) }
        ensures within { IfSome result (λ _. place < length (history_cells G.cells at)) }
    {
        if at < 1 || self.rows.members() < at as usize {
            return None;
        }
        self.rows.history(at).get(place)
    }
}
