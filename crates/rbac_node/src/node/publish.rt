//! How a node shows what its member sent and delivered.
ghost use Rattle.std.specs.Prelude.{◌≡◌, ◌<◌, ◌⊎◌, length, IfErr, OnOk};
ghost use Rattle.rbac_words.specs.Play.{IsPrefixOf};
ghost use Rattle.rbac_node.specs.Cells.{sent_cells, history_cells};

use crate::group_name::GroupName;
use crate::node::Node;
use crate::publishing::publish_all;
use crate::refusal::PublishRefusal;
use rbac_board::Row;
use rbac_words::{Message, Record};
use std::alloc::Global;

impl<G: GroupName> Node<G> {
    /// Publishes what was not yet published of what its member sent, and then of its history, on that member's rows. After a
    /// refusal what was published stays, and a later call goes on from there.
    ///
    /// # Errors
    /// `RowFull`, `Taken` or `NoMemory` where not all was published. What was published stays so.
    pub fn publish(
        &mut self,
        alloc: Global,
        sent_row: &Row<Message>,
        history_row: &Row<Record>,
    ) -> Result<(), PublishRefusal>
        requires sent_row { sent_row.now ≡ sent_cells G.cells self.old.member.number }
        requires history_row { history_row.now ≡ history_cells G.cells self.old.member.number }
        ensures sent { IsPrefixOf self.old.sent self.new.sent }
        ensures history { IsPrefixOf self.old.history self.new.history }
        ensures all_sent { OnOk result (self.new.sent ≡ self.old.member.sent) }
        ensures all_delivered { OnOk result (self.new.history ≡ self.old.member.history) }
        ensures full { IfErr result (λ refusal. refusal ≡ PublishRefusal.RowFull → (length sent_row.now < length self.old.member.sent) ⊎ (length history_row.now < length self.old.member.history)) }
        ensures nothing_else { self.new ≡ record self.old { sent = self.new.sent; history = self.new.history } }
    {
        publish_all(alloc, sent_row, &mut self.sent, self.member.sent())?;
        publish_all(alloc, history_row, &mut self.history, self.member.history())
    }
}
