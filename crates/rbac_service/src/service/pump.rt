//! The body of a member's thread.
ghost use Rattle.std.specs.Prelude.{◌≡◌, ◌≢◌, ◌↔◌};
ghost use Rattle.rbac_words.specs.Keeping.Member.{IsNumber};

use crate::courier::Courier;
use crate::gate::Gate;
use crate::service::Service;
use crate::service::turn::Turn;
use rbac_node::GroupName;
use std::alloc::Global;
use std::sync::Wait;

/// How a member's thread ended.
#[derive(Clone, Copy, Debug, PartialEq, Eq, Drop)]
pub enum PumpEnd {
    /// The service was stopped.
    Stopped,
    /// Memory was refused too often, or somebody else had set a cell of the member's rows. The service was stopped then.
    GaveUp,
    /// The group has no member of this number.
    UnknownMember,
}

// In so many turns in a row memory may be refused: at the next such turn, the thousandth, a member's thread gives up.
const MOST_REFUSALS: u32 = 999;

impl<G: GroupName, K: Gate + Drop, C: Courier + Drop> Service<G, K, C> {
    /// Receives, delivers and publishes for a member, a turn at each wake, until the service is stopped. It may wait.
    pub fn pump<R: Wait>(&self, rt: &R, alloc: Global, at: u32) -> PumpEnd
        ensures { (result ≡ PumpEnd.UnknownMember) ↔ (IsNumber G.group at → ⊥) }
    {
        let Some(slot) = self.slot(at) else {
            return PumpEnd::UnknownMember;
        };
        slot.begin_pump();
        let end = self.pump_turns(rt, alloc, at);
        slot.end_pump();
        end
    }

    // A turn at each wake, until the service is stopped.
    fn pump_turns<R: Wait>(&self, rt: &R, alloc: Global, at: u32) -> PumpEnd
        ensures { result ≢ PumpEnd.UnknownMember }
    {
        let mut refusals = 0;
        for _turn in rt.forever() {
            let wake = self.courier.next(at);
            match self.turn(rt, alloc, at, wake) {
                Turn::Done => refusals = 0,
                Turn::Starved if refusals < MOST_REFUSALS => refusals += 1,
                Turn::Stopped => return PumpEnd::Stopped,
                Turn::Starved | Turn::Broken => {
                    self.stop(rt);
                    return PumpEnd::GaveUp;
                }
            }
        }
        unreachable!()
    }
}
