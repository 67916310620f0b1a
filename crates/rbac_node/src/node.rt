//! What lies under a member's lock.
ghost use Rattle.std.specs.Prelude.{◌≡◌, ◌≤◌, ◌<◌, ◌+◌, nat_lt, true, false, [], length, map, replicate, IfOk, OnOk, OnErr, IfSome, IfNone, OnSome};
ghost use Rattle.rbac_words.specs.Keeping.Member.{IsNumber};
ghost use Rattle.rbac_node.specs.Cells.{history_cells};
ghost use Rattle.rbac_node.specs.Inside.{AreReads};

mod confirming;
mod publish;
mod receive;
mod submit;

use crate::group_name::GroupName;
use crate::pass::Pass;
use crate::rows::Rows;
use rbac_board::{Mark, Row};
use rbac_member::Member;
use rbac_words::{Group, Message, Record, Vocabulary};
use std::alloc::{AllocError, Global};
use std::marker::{Model, PhantomData};

/// A member with the marks of the rows on which it shows what it sent and delivered, and of those that it reads.
#[derive(Drop)]
pub struct Node<G: GroupName> {
    member: Member,
    sent: Mark<Message>,
    history: Mark<Record>,
    // of each member's sent row, in order of number
    reads: Vec<Mark<Message>>,
    next_caller: u32,
    is_stopped: bool,
    of: PhantomData<G>,
}

impl<G: GroupName> Model for Node<G> {
    ghost use Rattle.rbac_node.specs.Node.{NodeState};
    ghost use Rattle.rbac_node.specs.Inside.{state_of, IsKept};

    ghost Value = { NodeState };

    ghost view = { λ n. state_of n.member n.sent n.history n.reads.items n.next_caller n.is_stopped };

    ghost invariant = { λ n. IsKept G.group G.vocabulary G.cells (state_of n.member n.sent n.history n.reads.items n.next_caller n.is_stopped) n.sent n.history n.reads.items };
}

// A mark of each member's sent row, which knows nothing.
fn found_marks(alloc: Global, rows: &Rows, members: u32) -> Result<Vec<Mark<Message>>, AllocError>
    requires { members ≤ length rows.now.sent }
    ensures reads { IfOk result (λ v. AreReads rows.now members v.items) }
    ensures nothing { IfOk result (λ v. map (λ m. m.values) v.items ≡ replicate members []) }
{
    let mut marks = Vec::with_capacity(alloc, members as usize)?;
    for place in 0..members {
        marks.push(rows.sent(place + 1).mark())?;
    }
    Ok(marks)
}

impl<G: GroupName> Node<G> {
    ghost use Rattle.rbac_node.specs.Node.{NodeState, IsNode, founded_node};

    /// The node of the member of this number, with nothing sent, received, held, delivered, published or read. The rows, the
    /// group and the vocabulary are those of the founding that G names, and the group has such a member.
    ///
    /// # Errors
    /// `AllocError` where its marks get no memory.
    pub fn found(
        alloc: Global,
        rows: &Rows,
        group: Group,
        number: u32,
        vocabulary: Vocabulary,
    ) -> Result<Node<G>, AllocError>
        requires names { (group ≡ G.group) × (vocabulary ≡ G.vocabulary) × (rows.now ≡ G.cells) }
        requires members { group.members ≤ length rows.now.sent }
        requires number { IsNumber group number }
        ensures founded { IfOk result (λ node. node ≡ founded_node group number vocabulary) }
    {
        let reads = found_marks(alloc, rows, group.members())?;
        let Ok(member) = Member::found(alloc, group, number, vocabulary) else {
            return Err(AllocError);
        };
        Ok(Node {
            member,
            sent: rows.sent(number).mark(),
            history: rows.history(number).mark(),
            reads,
            next_caller: 0,
            is_stopped: false,
            of: PhantomData,
        })
    }

    /// Its member.
    pub fn member(&self) -> &Member
        ensures { result.now ≡ self.now.member }
    {
        &self.member
    }

    /// How many members its group has.
    pub fn members(&self) -> usize
        ensures { result ≡ self.now.member.group.members }
    {
        self.reads.len()
    }

    /// How many messages it has published.
    pub fn published(&self) -> usize
        ensures { result ≡ length self.now.sent }
    {
        self.sent.len()
    }

    /// How many records it has published.
    pub fn published_records(&self) -> usize
        ensures { result ≡ length self.now.history }
    {
        self.history.len()
    }

    // Whether it gave this caller number.
    pub(crate) fn gave(&self, caller: u32) -> bool
        ensures { result ≡ nat_lt caller self.now.next_caller }
    {
        caller < self.next_caller
    }

    /// Whether it is stopped.
    pub fn is_stopped(&self) -> bool
        ensures { result ≡ self.now.is_stopped }
    {
        self.is_stopped
    }

    /// Stops it for good.
    pub fn stop(&mut self)
        ensures { self.new ≡ record self.old { is_stopped = true } }
    {
        self.is_stopped = true;
    }

    /// A pass of a new caller, with an empty front. Its caller's number was not given before: numbers are 0, 1, 2 and so on, as
    /// long as one is left of 4,294,967,295. The row is the member's history row.
    pub fn enroll(&mut self, history_row: &Row<Record>) -> Option<Pass<G>>
        requires { history_row.now ≡ history_cells G.cells self.old.member.number }
        ensures pass { IfSome result (λ pass. pass ≡ record { member = self.old.member.number; caller = self.old.next_caller; next = 0; is_waiting = false; front = [] }) }
        ensures counted { OnSome result (self.new ≡ record self.old { next_caller = self.old.next_caller + 1 }) }
        ensures left { OnSome result (self.old.next_caller < 4294967295) }
        ensures none { IfNone result (self.old.next_caller ≡ 4294967295) }
        ensures unchanged { IfNone result (self.new ≡ self.old) }
    {
        let member = self.member.number();
        let caller = self.new_caller()?;
        Some(Pass::found(member, caller, history_row))
    }

    /// A caller number that it has not given before: 0, 1, 2 and so on, where one is left of 4,294,967,295.
    pub fn new_caller(&mut self) -> Option<u32>
        ensures next { IfSome result (λ caller. caller ≡ self.old.next_caller) }
        ensures counted { OnSome result (self.new ≡ record self.old { next_caller = self.old.next_caller + 1 }) }
        ensures left { OnSome result (self.old.next_caller < 4294967295) }
        ensures none { IfNone result (self.old.next_caller ≡ 4294967295) }
        ensures unchanged { IfNone result (self.new ≡ self.old) }
    {
        let caller = self.next_caller;
        if caller == u32::MAX {
            return None;
        }
        self.next_caller = caller + 1;
        Some(caller)
    }

    /// What each node keeps, and that it is of the founding that G names.
    pub fn invariants(&self)
        ensures kept { IsNode self.now }
        ensures group { self.now.member.group ≡ G.group }
        ensures vocabulary { self.now.member.vocabulary ≡ G.vocabulary }
    {
        self.member.invariants();
    }
}
