//! The end of a service.
ghost use Rattle.std.specs.Prelude.{◌≡◌, ◌≤◌, vec_len, vec_capacity};

use crate::courier::{Courier, Hint};
use crate::gate::Gate;
use crate::service::{Room, Service, Slot};
use rbac_node::{GroupName, Node};
use std::sync::Wait;

// The nodes out of their locks, in order of number.
fn taken<G: GroupName>(mut slots: Vec<Slot<G>>, mut room: Vec<Node<G>>) -> Vec<Node<G>>
    requires empty { vec_len room ≡ 0 }
    requires fits { vec_len slots ≤ vec_capacity room }
    ensures { vec_len result ≡ vec_len slots }
{
    while let Some(slot) = slots.pop() {
        match room.push(slot.node.into_inner()) {
            Ok(()) => {}
            Err(back) => {
                drop(back);
                unreachable!()
            }
        }
    }
    room.reverse();
    room
}

impl<G: GroupName, K: Gate + Drop, C: Courier + Drop> Service<G, K, C> {
    /// Stops all members: nothing more is submitted, and no caller waits any more. Each member then gets a hint, at which its
    /// thread ends. It may wait for each member's lock.
    pub fn stop<R: Wait>(&self, rt: &R) {
        for slot in &self.slots {
            slot.node.lock(rt).stop();
            slot.waiting.wake_all();
        }
        for place in 0..self.slots.len() as u32 {
            let from = place + 1;
            self.courier.tell(from, Hint { from, number: 0 });
        }
    }

    /// The members' nodes, in order of number. It takes no memory, and does not wait.
    pub fn take_nodes(self) -> Vec<Node<G>>
        ensures { vec_len result ≡ G.group.members }
    {
        let Service { slots, room, .. } = self;
        let Room { nodes } = room.into_inner();
        taken(slots, nodes)
    }
}
