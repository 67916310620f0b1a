//! The rows of a founding.
ghost use Rattle.std.specs.Prelude.{◌≡◌, ◌≤◌, ◌*◌, IfOk, length, map, replicate};
ghost use Rattle.rbac_node.specs.Cells.{sent_cells, history_cells};

use rbac_board::Row;
use rbac_words::{Group, Message, Record};
use std::alloc::{AllocError, Global};
use std::marker::Model;

/// Each member's sent row and history row. A contract sees the addresses of their cells.
#[derive(Drop)]
pub struct Rows {
    sent: Vec<Row<Message>>,
    history: Vec<Row<Record>>,
}

impl Model for Rows {
    ghost use Rattle.std.specs.Prelude.{◌≡◌, length};
    ghost use Rattle.rbac_node.specs.Cells.{Cells};

    ghost Value = { Cells };

    ghost view = { λ r. record { sent = r.sent.items; history = r.history.items } };

    ghost invariant = { λ r. length r.history.items ≡ length r.sent.items };
}

// So many rows of so many places.
fn found_rows<T: Drop>(
    alloc: Global,
    members: u32,
    places: usize,
) -> Result<Vec<Row<T>>, AllocError>
    ensures { IfOk result (λ rows. map length rows.items ≡ replicate members places) }
{
    let mut rows = Vec::with_capacity(alloc, members as usize)?;
    for _ in 0..members {
        rows.push(Row::found(alloc, places)?)?;
    }
    Ok(rows)
}

impl Rows {
    /// A sent row of `sent_limit` places and a history row of `members * sent_limit` places for each member.
    ///
    /// # Errors
    /// `AllocError` where the rows get no memory.
    pub fn found(alloc: Global, group: Group) -> Result<Rows, AllocError>
        ensures members { IfOk result (λ rows. length rows.sent ≡ group.members) }
        ensures sent { IfOk result (λ rows. map length rows.sent ≡ replicate group.members group.sent_limit) }
        ensures history { IfOk result (λ rows. map length rows.history ≡ replicate group.members (group.members * group.sent_limit)) }
    {
        group.invariants();
        let members = group.members();
        let places = group.sent_limit() as usize;
        Ok(Rows {
            sent: found_rows(alloc, members, places)?,
            history: found_rows(alloc, members, members as usize * places)?,
        })
    }

    /// How many members there are.
    pub fn members(&self) -> usize
        ensures { result ≡ length self.now.sent }
    {
        self.sent.len()
    }

    /// The row on which a member shows what it sent. The member is one of the founding.
    pub fn sent(&self, number: u32) -> &Row<Message>
        requires { (1 ≤ number) × (number ≤ length self.now.sent) }
        ensures { result.now ≡ sent_cells self.now number }
    {
        &self.sent[number as usize - 1]
    }

    /// The row on which a member shows what it delivered. The member is one of the founding.
    pub fn history(&self, number: u32) -> &Row<Record>
        requires { (1 ≤ number) × (number ≤ length self.now.sent) }
        ensures { result.now ≡ history_cells self.now number }
    {
        &self.history[number as usize - 1]
    }
}
