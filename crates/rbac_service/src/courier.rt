//! Hints between members: that a member has published messages. They may be lost, come twice or come in another order, since a
//! member reads the sender's row and not the hint.
ghost use Rattle.std.specs.Prelude.{◌≡◌, IfOk, vec_len};

use crossbeam_channel::{Receiver, Sender, unbounded};
use std::alloc::{AllocError, Global};
use std::sync::Wait;
use std::time::{Clock, Duration};

/// A member has published its messages up to this number.
#[derive(Clone, Copy, Debug, PartialEq, Eq, Drop)]
pub struct Hint {
    pub from: u32,
    pub number: usize,
}

/// What a member wakes up for.
#[derive(Clone, Copy, Debug, PartialEq, Eq, Drop)]
pub enum Wake {
    /// To receive what this sender has published.
    Hint(Hint),
    /// To receive what each sender has published.
    Sweep,
}

/// Carries hints. It may lose them, and it may wait: one that waits keeps its own handle.
pub trait Courier {
    /// Gives a hint to a member.
    fn tell(&self, to: u32, hint: Hint);

    /// The next wake of a member.
    fn next(&self, at: u32) -> Wake;
}

// The two ends of a member's channel.
#[derive(Drop)]
struct Channel {
    sender: Sender<Hint>,
    receiver: Receiver<Hint>,
}

/// A channel without a bound for each member. Where no hint comes for 20 milliseconds, the wake is a sweep, and where several
/// hints lie there, all of them are one.
#[derive(Drop)]
pub struct ChannelCourier<R: Wait + Clock + Drop> {
    rt: R,
    channels: Vec<Channel>,
}

impl<R: Wait + Clock + Drop> ChannelCourier<R> {
    /// Channels for so many members.
    ///
    /// # Errors
    /// `AllocError` where they get no memory.
    pub fn found(rt: R, alloc: Global, members: u32) -> Result<ChannelCourier<R>, AllocError>
        ensures handle { IfOk result (λ courier. courier.rt ≡ rt) }
        ensures channels { IfOk result (λ courier. vec_len courier.channels ≡ members) }
    {
        let mut channels = Vec::with_capacity(alloc, members as usize)?;
        for _ in 0..members {
            let (sender, receiver) = unbounded(alloc)?;
            channels.push(Channel { sender, receiver })?;
        }
        Ok(ChannelCourier { rt, channels })
    }

    // Takes so many hints, or fewer.
    fn skip(&self, receiver: &Receiver<Hint>, hints: usize) {
        for _ in 0..hints {
            let _skipped = receiver.try_recv(&self.rt);
        }
    }

    fn channel(&self, member: u32) -> Option<&Channel> {
        self.channels.get((member as usize).checked_sub(1)?)
    }
}

impl<R: Wait + Clock + Drop> Courier for ChannelCourier<R> {
    fn tell(&self, to: u32, hint: Hint) {
        if let Some(channel) = self.channel(to) {
            let _lost = channel.sender.send(&self.rt, hint);
        }
    }

    fn next(&self, at: u32) -> Wake {
        let Some(channel) = self.channel(at) else {
            return Wake::Sweep;
        };
        match channel
            .receiver
            .recv_timeout(&self.rt, Duration::from_millis(20))
        {
            Ok(hint) if channel.receiver.is_empty() => Wake::Hint(hint),
            Ok(_) => {
                self.skip(&channel.receiver, channel.receiver.len());
                Wake::Sweep
            }
            Err(_) => Wake::Sweep,
        }
    }
}
