//! How a member delivers what it holds.
ghost use Rattle.std.specs.Prelude.{◌≡◌, ◌≢◌, ◌<◌, [], true, is_some, IfOk, OnOk, OnErr, vec_len, vec_capacity};
ghost use Rattle.rbac_member.specs.Lists.{TakesOver};

use crate::member::Member;
use rbac_holdback::{Held, HeldQueue, Holdback};
use rbac_words::{Answer, Record};
use std::alloc::{AllocError, Global};

// Moves the least held command to the history, with its answer.
fn take_over(held: &mut Holdback, history: &mut Vec<Record>, answer: Answer)
    requires some { held.old.held ≢ [] }
    requires room { vec_len history.old < vec_capacity history.old }
    ensures taken_over { TakesOver answer held.old.held history.old.items held.new.held history.new.items }
    ensures members { held.new.members ≡ held.old.members }
{
    let Some(
        Held {
            stamp,
            caller,
            serial,
            command,
        },
    ) = held.take_least()
    else {
        unreachable!()
    };
    let record = Record {
        stamp,
        caller,
        serial,
        command,
        answer,
    };
    match history.push(record) {
        Ok(()) => {}
        Err(back) => {
            drop(back);
            unreachable!()
        }
    }
}

impl Member {
    ghost use Rattle.rbac_words.specs.Keeping.Member.{deliver_due, due_at, node_of};
    ghost use Rattle.rbac_words.specs.World.{place_of};

    /// Delivers the command that is due, if one is: it leaves what is held, its record joins the history, and the policy
    /// becomes its effect. Answers the record's place in the history.
    ///
    /// # Errors
    /// `AllocError` where a command is due and there is no memory for it. The member is as before.
    pub fn deliver(&mut self, alloc: Global) -> Result<Option<usize>, AllocError>
        ensures place { IfOk result (λ place. place ≡ place_of (node_of self.old) (due_at self.old)) }
        ensures delivered { OnOk result (self.new ≡ deliver_due self.old (due_at self.old)) }
        ensures unchanged { OnErr result (self.new ≡ self.old) }
        ensures was_due { OnErr result (is_some (due_at self.old) ≡ true) }
    {
        // The command of the least stamp is first in the total order, and waits until each other member has sent something of a
        // greater stamp (Lamport 1978, "Ordering the Events Totally", rule 5).
        let latest = self.links.latest();
        let Some(next) = self.held.stable_least(self.number, latest) else {
            return Ok(None);
        };
        // All memory is taken before anything changes.
        self.history.reserve(1)?;
        let answer = self.policy.apply(alloc, next.command.get())?;
        let place = self.history.len();
        take_over(&mut self.held, &mut self.history, answer);
        Ok(Some(place))
    }
}
