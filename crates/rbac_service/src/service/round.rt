//! Who goes round the members, and the news that waits to be carried.

use crate::service::news::News;
use std::alloc::{AllocError, Global};
use std::sync::atomic::{AtomicU64, Ordering};

// So many threads go round at once; the others leave their news to them. On four cores more of them gain nothing.
const MOST_GOERS: u64 = 4;

/// News that threads have left to be carried, and how many threads go round with news.
#[derive(Drop)]
pub(crate) struct Round {
    goers: AtomicU64,
    // The members of whom there is news, a bit each.
    members: AtomicU64,
    // Of each member the number of messages up to which it has published.
    up_to: Vec<AtomicU64>,
}

fn bit_of(place: usize) -> u64 {
    1 << (place as u64 % 64)
}

impl Round {
    /// Nobody goes round a group of so many members, and there is no news.
    pub(crate) fn found(alloc: Global, members: u32) -> Result<Round, AllocError> {
        let mut up_to = Vec::with_capacity(alloc, members as usize)?;
        for _ in 0..members {
            up_to.push(AtomicU64::new(0))?;
        }
        Ok(Round {
            goers: AtomicU64::new(0),
            members: AtomicU64::new(0),
            up_to,
        })
    }

    /// A member has published its messages up to a number: whoever goes round next carries it.
    pub(crate) fn leave(&self, from: u32, number: usize) {
        let place = (from as usize).wrapping_sub(1);
        if let Some(up_to) = self.up_to.get(place) {
            up_to.fetch_max(number as u64, Ordering::SeqCst);
            self.members.fetch_or(bit_of(place), Ordering::SeqCst);
        }
    }

    /// The news that was left, which the caller carries now.
    pub(crate) fn take(&self) -> News {
        let members = self.members.swap(0, Ordering::SeqCst);
        let mut news = News::none();
        for (place, up_to) in self.up_to.iter().enumerate() {
            if members & bit_of(place) != 0 {
                news.set(place, up_to.load(Ordering::SeqCst) as usize);
            }
        }
        news
    }

    /// Whether no news waits to be carried.
    pub(crate) fn is_empty(&self) -> bool {
        self.members.load(Ordering::SeqCst) == 0
    }

    /// Goes round, unless enough threads do: each of them looks for news once more when it has ended.
    pub(crate) fn begin(&self) -> bool {
        let begun = self.goers.fetch_update(
            Ordering::SeqCst,
            Ordering::SeqCst,
            |goers| if goers < MOST_GOERS {
                Some(goers + 1)
            } else {
                None
            },
        );
        begun.is_ok()
    }

    /// Has gone round.
    pub(crate) fn end(&self) {
        self.goers.fetch_sub(1, Ordering::SeqCst);
    }
}
