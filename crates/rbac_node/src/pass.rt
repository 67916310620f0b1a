//! What a caller holds: its pass, its outstanding ticket, and the answer.
ghost use Rattle.std.specs.Prelude.{List, ◌≡◌, ◌≢◌, ◌≤◌, ◌<◌, ◌+◌, ◌∷◌, ◌↔◌, ◌⊎◌, true, false, None, Some, [], max, length, IsTrue, IfOk, IfErr, OnOk, OnErr, IfSome, MatchOption};
ghost use Rattle.rbac_words.specs.Play.{IsPrefixOf};
ghost use Rattle.rbac_board.specs.Address.{Address};
ghost use Rattle.rbac_board.specs.Known.{AreOfOneRow, IsOf};
ghost use Rattle.rbac_node.specs.Cells.{history_cells};

mod answer;
mod same_command;
mod ticket;

use crate::group_name::GroupName;
use crate::node::Node;
use crate::refusal::{MeetRefusal, ServiceRefusal};
use rbac_board::{Mark, Row};
use rbac_words::{Command, Record, Submission};
use std::alloc::AllocError;
use std::marker::{Model, PhantomData};
pub use ticket::{Receipt, Ticket};

/// A caller of a member, and its front: what it knows of that member's history row. It can't be copied.
#[derive(Drop)]
pub struct Pass<G: GroupName> {
    pub(crate) member: u32,
    pub(crate) caller: u32,
    pub(crate) next: u32,
    pub(crate) is_waiting: bool,
    pub(crate) front: Mark<Record>,
    pub(crate) of: PhantomData<G>,
}

impl<G: GroupName> Model for Pass<G> {
    ghost use Rattle.rbac_board.specs.Known.{IsOf};
    ghost use Rattle.rbac_terms.specs.State.{founding_state};
    ghost use Rattle.rbac_words.specs.Front.{IsLegalFront};
    ghost use Rattle.rbac_node.specs.Cells.{history_cells};
    ghost use Rattle.rbac_node.specs.Pass.{PassState};

    ghost Value = { PassState };

    ghost view = { λ p. record { member = p.member; caller = p.caller; next = p.next; is_waiting = p.is_waiting; front = p.front.values } };

    ghost invariant = { λ p. IsOf (history_cells G.cells p.member) p.front × IsLegalFront (founding_state G.vocabulary) p.front.values };
}

// Both marks know what the longer one knew.
fn catch_up(mark: &mut Mark<Record>, other: &mut Mark<Record>) -> Result<(), AllocError>
    requires { AreOfOneRow mark.old other.old }
    ensures one { OnOk result (mark.new.values ≡ other.new.values) }
    ensures longer { OnOk result (length mark.new.values ≡ max (length mark.old.values) (length other.old.values)) }
    ensures begins { IsPrefixOf mark.old.values mark.new.values }
    ensures other_begins { IsPrefixOf other.old.values other.new.values }
    ensures of { (row : List Address) → IsOf row mark.old → IsOf row other.old → IsOf row mark.new × IsOf row other.new }
    ensures either { (mark.new ≡ mark.old) ⊎ (mark.new.values ≡ other.old.values) }
    ensures other_either { (other.new ≡ other.old) ⊎ (other.new.values ≡ mark.old.values) }
    ensures unchanged { OnErr result (mark.new ≡ mark.old) }
    ensures other_unchanged { OnErr result (other.new ≡ other.old) }
{
    if mark.len() < other.len() {
        mark.learn(other, other.len())
    } else {
        other.learn(mark, mark.len())
    }
}

impl<G: GroupName> Pass<G> {
    ghost use Rattle.rbac_terms.specs.State.{founding_state};
    ghost use Rattle.rbac_words.specs.Front.{IsLegalFront};
    ghost use Rattle.rbac_words.specs.World.{stamp, submit_refusal};
    ghost use Rattle.rbac_words.specs.Keeping.Member.{node_of, submission, submitted};
    ghost use Rattle.rbac_node.specs.Node.{with_own_member};
    ghost use Rattle.rbac_node.specs.Told.{if_told};
    ghost use Rattle.rbac_node.specs.Pass.{PassState, Owns, pass_refusal};

    /// A pass of this caller of a member, with an empty front of the member's history row. A node alone gives caller numbers.
    pub(crate) fn found(member: u32, caller: u32, row: &Row<Record>) -> Pass<G>
        requires { row.now ≡ history_cells G.cells member }
        ensures { result ≡ record { member = member; caller = caller; next = 0; is_waiting = false; front = [] } }
    {
        Pass {
            member,
            caller,
            next: 0,
            is_waiting: false,
            front: row.mark(),
            of: PhantomData,
        }
    }

    /// Whose member's pass it is.
    pub fn member(&self) -> u32
        ensures { result ≡ self.now.member }
    {
        self.member
    }

    /// Whether a ticket of it is outstanding.
    pub fn is_waiting(&self) -> bool
        ensures { result ≡ self.now.is_waiting }
    {
        self.is_waiting
    }

    /// How many records of the member's history it knows. They are a legal front.
    pub fn front_len(&self) -> usize
        ensures count { result ≡ length self.now.front }
        ensures legal { IsLegalFront (founding_state G.vocabulary) self.now.front }
    {
        self.front.len()
    }

    /// Whether this is its outstanding ticket.
    pub fn owns(&self, ticket: &Ticket) -> bool
        ensures { IsTrue result ↔ Owns self.now ticket.now }
    {
        self.is_waiting
            && ticket.call.stamp.member == self.member
            && ticket.call.caller == self.caller
            && u64::from(ticket.call.serial) + 1 == u64::from(self.next)
    }

    /// Submits its next command at a node.
    ///
    /// # Errors
    /// The first that applies, as `ServiceRefusal` says; the command is dropped. `NoMemory` comes last.
    pub fn submit(&mut self, node: &mut Node<G>, command: Command) -> Result<Ticket, ServiceRefusal>
        ensures call { IfOk result (λ ticket. ticket.call ≡ submission node.old.member self.old.caller self.old.next command) }
        ensures seen { IfOk result (λ ticket. ticket.seen ≡ length self.old.front) }
        ensures submitted { OnOk result (node.new ≡ with_own_member node.old (submitted node.old.member self.old.caller self.old.next (command ∷ []))) }
        ensures pass { OnOk result (self.new ≡ record self.old { next = self.old.next + 1; is_waiting = true }) }
        ensures accepted { OnOk result (pass_refusal node.old self.old ≡ None) }
        ensures first_refusal { IfErr result (λ refusal. (refusal ≢ ServiceRefusal.NoMemory → pass_refusal node.old self.old ≡ Some refusal) × (refusal ≡ ServiceRefusal.NoMemory → pass_refusal node.old self.old ≡ None)) }
        ensures busy { IfErr result (λ refusal. refusal ≡ ServiceRefusal.Busy → self.old.is_waiting ≡ true) }
        ensures waiting { self.old.is_waiting ≡ true → IfErr result (λ refusal. (refusal ≡ ServiceRefusal.Stopped) ⊎ (refusal ≡ ServiceRefusal.Busy)) }
        ensures node_unchanged { OnErr result (node.new ≡ node.old) }
        ensures unchanged { OnErr result (self.new ≡ self.old) }
    {
        let call = self.submit_next(node, command)?;
        Ok(Ticket::new(call, self.front.len()))
    }

    // Its next command, submitted at a node.
    fn submit_next(
        &mut self,
        node: &mut Node<G>,
        command: Command,
    ) -> Result<Submission, ServiceRefusal>
        ensures call { IfOk result (λ call. call ≡ submission node.old.member self.old.caller self.old.next command) }
        ensures submitted { OnOk result (node.new ≡ with_own_member node.old (submitted node.old.member self.old.caller self.old.next (command ∷ []))) }
        ensures pass { OnOk result (self.new ≡ record self.old { next = self.old.next + 1; is_waiting = true }) }
        ensures accepted { OnOk result (pass_refusal node.old self.old ≡ None) }
        ensures first_refusal { IfErr result (λ refusal. (refusal ≢ ServiceRefusal.NoMemory → pass_refusal node.old self.old ≡ Some refusal) × (refusal ≡ ServiceRefusal.NoMemory → pass_refusal node.old self.old ≡ None)) }
        ensures busy { IfErr result (λ refusal. refusal ≡ ServiceRefusal.Busy → self.old.is_waiting ≡ true) }
        ensures waiting { self.old.is_waiting ≡ true → IfErr result (λ refusal. (refusal ≡ ServiceRefusal.Stopped) ⊎ (refusal ≡ ServiceRefusal.Busy)) }
        ensures node_unchanged { OnErr result (node.new ≡ node.old) }
        ensures unchanged { OnErr result (self.new ≡ self.old) }
    {
        node.invariants();
        match self.may_submit(node) {
            Ok(()) => {}
            Err(refusal) => return Err(refusal),
        }
        let call = node.submit(self.caller, self.next, command)?;
        self.next += 1;
        self.is_waiting = true;
        Ok(call)
    }

    // Whether the node is not stopped, no ticket is outstanding, and the node gave this caller's number.
    fn may_submit(&self, node: &Node<G>) -> Result<(), ServiceRefusal>
        ensures caller { OnOk result (self.now.caller < node.now.next_caller) }
        ensures refusal { OnOk result (pass_refusal node.now self.now ≡ if_told (submit_refusal node.now.member.group (node_of node.now.member) self.now.caller self.now.next 1)) }
        ensures first_refusal { IfErr result (λ refusal. (pass_refusal node.now self.now ≡ Some refusal) × (refusal ≢ ServiceRefusal.NoMemory)) }
        ensures idle { OnOk result (self.now.is_waiting ≡ false) }
        ensures busy { IfErr result (λ refusal. refusal ≡ ServiceRefusal.Busy → self.now.is_waiting ≡ true) }
        ensures waiting { IfErr result (λ refusal. self.now.is_waiting ≡ true → (refusal ≡ ServiceRefusal.Stopped) ⊎ (refusal ≡ ServiceRefusal.Busy)) }
    {
        if node.is_stopped() {
            return Err(ServiceRefusal::Stopped);
        }
        if self.is_waiting {
            return Err(ServiceRefusal::Busy);
        }
        if node.member().number() != self.member || !node.gave(self.caller) {
            return Err(ServiceRefusal::Foreign);
        }
        Ok(())
    }

    /// Both passes have the longer of the two fronts, which begins with what each had seen.
    ///
    /// # Errors
    /// `OtherMember` where they are not of one member, then `NoMemory`. Both are as before.
    pub fn meet(&mut self, other: &mut Pass<G>) -> Result<(), MeetRefusal>
        ensures one_member { OnOk result (self.old.member ≡ other.old.member) }
        ensures one_front { OnOk result (self.new.front ≡ other.new.front) }
        ensures longer { OnOk result (length self.new.front ≡ max (length self.old.front) (length other.old.front)) }
        ensures seen { OnOk result (IsPrefixOf self.old.front self.new.front) }
        ensures other_seen { OnOk result (IsPrefixOf other.old.front other.new.front) }
        ensures nothing_else { self.new ≡ record self.old { front = self.new.front } }
        ensures other_nothing_else { other.new ≡ record other.old { front = other.new.front } }
        ensures other_member { IfErr result (λ refusal. (refusal ≡ MeetRefusal.OtherMember) ↔ (self.old.member ≢ other.old.member)) }
        ensures unchanged { OnErr result (self.new ≡ self.old) }
        ensures other_unchanged { OnErr result (other.new ≡ other.old) }
    {
        if self.member != other.member {
            return Err(MeetRefusal::OtherMember);
        }
        if catch_up(&mut self.front, &mut other.front).is_err() {
            return Err(MeetRefusal::NoMemory);
        }
        Ok(())
    }
}
