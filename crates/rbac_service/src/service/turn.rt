//! One turn of a member: it receives, delivers and publishes. Who has published takes the turns of the others, or tells them.

use crate::courier::{Courier, Hint, Wake};
use crate::gate::Gate;
use crate::service::news::{Load, Missed, News};
use crate::service::waiting::Answered;
use crate::service::{Service, Slot};
use rbac_node::{GroupName, Node, NodeRefusal, PublishRefusal};
use std::alloc::{AllocError, Global};
use std::sync::{MutexGuard, Wait};

// So often a thread that has published goes round the members before it leaves the rest to hints.
const MOST_ROUNDS: u32 = 8;

// So often it begins anew where others have left news meanwhile.
const MOST_TIMES: u32 = 4;

// How a turn ended.
#[derive(Clone, Copy, Drop)]
pub(crate) enum Turn {
    Done,
    // memory was refused, and a later turn goes on from there
    Starved,
    // the member is stopped
    Stopped,
    // somebody else has set a cell of the member's rows
    Broken,
}

// What became of a turn in place of a member's thread.
#[derive(Clone, Copy, Drop)]
enum Help {
    Done,
    // somebody holds the lock
    Busy,
    // the member's own thread is to be told
    Hint,
}

// How a turn ended, and up to which number it has published messages, where it has published some.
#[derive(Clone, Copy, Drop)]
struct Turned {
    end: Turn,
    news: Option<usize>,
}

/// A node's own commands among those whose records were published from a place on.
pub(crate) fn answered_since<G: GroupName>(node: &Node<G>, from: usize) -> Answered {
    let member = node.member();
    let published = member.history().get(from..node.published_records());
    Answered::of(published.unwrap_or(&[]), member.number())
}

impl<G: GroupName, K: Gate + Drop, C: Courier + Drop> Service<G, K, C> {
    // Publishes what a node has not yet published, on its own rows.
    pub(crate) fn publish(&self, alloc: Global, node: &mut Node<G>) -> Result<(), PublishRefusal> {
        node.invariants();
        let number = node.member().number();
        node.publish(alloc, self.rows.sent(number), self.rows.history(number))
    }

    // Receives what another member has published, up to the message of this number, until its row shows no more or the node's
    // member takes no more.
    fn receive_from(&self, node: &mut Node<G>, from: u32, last: usize) -> Result<(), AllocError> {
        for _ in 0..u32::MAX {
            node.invariants();
            if from < 1 || self.rows.members() < from as usize || from == node.member().number() {
                return Ok(());
            }
            if last <= node.member().read(from) as usize {
                return Ok(());
            }
            match node.receive_next(from, self.rows.sent(from)) {
                Ok(_) => {}
                Err(NodeRefusal::NoMemory) => return Err(AllocError),
                Err(_) => return Ok(()),
            }
        }
        Ok(())
    }

    // Receives what is news, of each member up to its number.
    fn receive(&self, node: &mut Node<G>, news: &News) -> Result<(), AllocError> {
        for place in 0..self.rows.members() {
            let from = place as u32 + 1;
            if let Some(last) = news.up_to(from) {
                self.receive_from(node, from, last)?;
            }
        }
        Ok(())
    }

    // Whether a member is to hear news of another one. A member's own message brings it nothing that is due while there are others.
    fn hears(&self, at: u32, from: u32) -> bool {
        at != from || self.slots.len() == 1
    }

    // Tells a member what others have published.
    fn tell(&self, at: u32, news: &News) {
        for place in 0..self.slots.len() as u32 {
            let from = place + 1;
            if let Some(number) = news.up_to(from)
                && self.hears(at, from)
            {
                self.courier.tell(at, Hint { from, number });
            }
        }
    }

    // Whether there is news for a member.
    fn is_news(&self, at: u32, news: &News) -> bool {
        (0..self.slots.len() as u32).any(|place| news.up_to(place + 1).is_some()
            && self.hears(at, place + 1))
    }

    // A turn of a member whose lock is held. Those who wait are woken where their answers were published.
    fn take_turn(
        &self,
        alloc: Global,
        slot: &Slot<G>,
        node: MutexGuard<'_, Node<G>>,
        news: &News,
    ) -> Turned {
        let mut node = node;
        if node.is_stopped() {
            return Turned {
                end: Turn::Stopped,
                news: None,
            };
        }
        let (sent, records) = (node.published(), node.published_records());
        let received = self.receive(&mut node, news);
        let delivered = node.deliver_all(alloc);
        let published = self.publish(alloc, &mut node);
        let sent_now = node.published();
        let answered = answered_since(&node, records);
        drop(node);
        slot.waiting.wake(answered);
        let end = match published {
            Err(PublishRefusal::Taken) | Err(PublishRefusal::RowFull) => Turn::Broken,
            Err(PublishRefusal::NoMemory) => Turn::Starved,
            Ok(()) if received.is_err() || delivered.is_err() => Turn::Starved,
            Ok(()) => Turn::Done,
        };
        let news = if sent_now != sent {
            Some(sent_now)
        } else {
            None
        };
        Turned { end, news }
    }

    // A turn of a member in place of its thread, where that one runs and the lock is free.
    fn help(&self, alloc: Global, at: u32, news: &News) -> Help {
        let Some(slot) = self.slot(at) else {
            return Help::Hint;
        };
        if !slot.is_pumped() {
            return Help::Hint;
        }
        let Some(node) = slot.node.try_lock() else {
            return Help::Busy;
        };
        let turned = self.take_turn(alloc, slot, node, news);
        if let Some(number) = turned.news {
            self.round.leave(at, number);
        }
        match turned.end {
            Turn::Done | Turn::Stopped => Help::Done,
            // What the turn had no memory for, or found broken, the member's own thread sees to.
            Turn::Starved | Turn::Broken => Help::Hint,
        }
    }

    // Brings the news to each member that is to hear of it or was missed before, by a turn in its place. Who can't be helped is
    // told; whose lock somebody holds is missed.
    fn bring(&self, alloc: Global, load: &Load, first: u32) -> Missed {
        let members = self.slots.len() as u32;
        let mut missed = Missed::none();
        for step in 0..members {
            let place = (first.saturating_sub(1) % members).wrapping_add(step) % members;
            let at = place + 1;
            if !self.is_news(at, load.news()) && !load.has_missed(at) {
                continue;
            }
            match self.help(alloc, at, load.unheard(at)) {
                Help::Done => {}
                Help::Busy => missed.add(at),
                Help::Hint => self.tell(at, load.unheard(at)),
            }
        }
        missed
    }

    // Carries the news that was left round the members, and what they publish upon it, until there is no more or it has gone round
    // often enough. Hints tell the rest, and tell those who were missed to the end all of it.
    fn go_round(&self, alloc: Global, first: u32) {
        let mut load = Load::none();
        for _round in 0..MOST_ROUNDS {
            load.take(self.round.take());
            if load.is_empty() {
                return;
            }
            load.miss(self.bring(alloc, &load, first));
        }
        load.take(self.round.take());
        for place in 0..self.slots.len() as u32 {
            self.tell(place + 1, load.unheard(place + 1));
        }
    }

    // A member has published its messages up to a number: the others hear of it, and of what they publish upon it, by turns that
    // this thread takes in their place, and by hints where it can't. It begins with the first, since that one may wait. Where
    // enough threads go round already, it leaves the news to them.
    pub(crate) fn spread(&self, alloc: Global, from: u32, number: usize, first: u32) {
        self.round.leave(from, number);
        for _time in 0..MOST_TIMES {
            if !self.round.begin() {
                return;
            }
            self.go_round(alloc, first);
            self.round.end();
            if self.round.is_empty() {
                return;
            }
        }
        let news = self.round.take();
        for place in 0..self.slots.len() as u32 {
            self.tell(place + 1, &news);
        }
    }

    // One turn of a member by its own thread.
    pub(crate) fn turn<R: Wait>(&self, rt: &R, alloc: Global, at: u32, wake: Wake) -> Turn {
        let Some(slot) = self.slot(at) else {
            return Turn::Stopped;
        };
        let turned = self.take_turn(alloc, slot, slot.node.lock(rt), &News::of(wake));
        if let Some(number) = turned.news {
            let first = match wake {
                Wake::Hint(hint) => hint.from,
                Wake::Sweep => 1,
            };
            self.spread(alloc, at, number, first);
        }
        turned.end
    }
}
