//! How a pass finds the answer to its ticket's command, and goes on to it.
ghost use Rattle.std.specs.Prelude.{◌≡◌, ◌≤◌, ◌<◌, ◌+◌, true, Some, max, length, IfOk, IfSome, OnOk, OnErr, MatchOption, slice_get};
ghost use Rattle.rbac_terms.specs.declared.answer.Answer.{Answer};
ghost use Rattle.rbac_node.specs.Pass.{answered_with};

use crate::group_name::GroupName;
use crate::node::Node;
use crate::pass::same_command::is_same;
use crate::pass::{Pass, Receipt, Ticket};
use rbac_words::{Record, Submission};
use std::alloc::AllocError;

// Whether the record is of this command.
fn is_answer_to(delivered: &Record, call: &Submission) -> bool
    ensures { result ≡ true → delivered.now ≡ answered_with call.now delivered.now.answer }
{
    delivered.stamp == call.stamp
        && delivered.caller == call.caller
        && delivered.serial == call.serial
        && is_same(delivered.command.get(), call.command.get())
}

// Where the record of a command stands in a history, from one place on and before another.
fn find(history: &[Record], call: &Submission, from: usize, until: usize) -> Option<usize>
    requires { until ≤ length history.now }
    ensures { IfSome result (λ place. (from ≤ place) × (place < until) × ((answer : Answer) × (slice_get history.now place ≡ Some (answered_with call.now answer)))) }
{
    for place in from..until {
        if is_answer_to(&history[place], call) {
            return Some(place);
        }
    }
    None
}

impl<G: GroupName> Pass<G> {
    ghost use Rattle.rbac_node.specs.Pass.{Owns, IsAnswered};

    /// Takes the answer to its ticket's command, where the node has published it: the front then goes on to the command's
    /// record, and no ticket is outstanding. It looks at what was published since it looked last.
    ///
    /// # Errors
    /// `AllocError` where the front or the answer gets no memory. The pass is as before.
    pub fn answered(
        &mut self,
        node: &mut Node<G>,
        ticket: &mut Ticket,
    ) -> Result<Option<Receipt>, AllocError>
        requires { Owns self.old ticket.old }
        ensures answered { IfOk result (λ found. MatchOption found
            (self.new ≡ self.old)
            (λ receipt. IsAnswered self.old ticket.old receipt.place receipt.answer self.new)) }
        ensures stamp { IfOk result (λ found. IfSome found (λ receipt. receipt.stamp ≡ ticket.old.call.stamp)) }
        ensures unchanged { OnErr result (self.new ≡ self.old) }
        ensures ticket { ticket.new ≡ ticket.old }
        ensures node { node.new ≡ node.old }
    {
        node.invariants();
        if node.member().number() != self.member {
            return Ok(None);
        }
        let published = node.published_records();
        let Some(place) = find(
            node.member().history(),
            &ticket.call,
            ticket.searched,
            published,
        ) else {
            ticket.searched = ticket.searched.max(published);
            return Ok(None);
        };
        let answer = node.member().history()[place].answer.copy()?;
        node.show(&mut self.front, place + 1)?;
        self.is_waiting = false;
        Ok(Some(Receipt {
            stamp: ticket.call.stamp,
            place,
            answer,
        }))
    }
}
