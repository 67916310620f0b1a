//! What was published and not yet told, and who could not be reached.

use crate::courier::Wake;

// Of a group.
const MOST_MEMBERS: usize = 8;

/// Of each member the number of messages up to which it has published, where the others are to hear of it, and 0 where they are not.
#[derive(Clone, Copy, Drop)]
pub(crate) struct News {
    up_to: [usize; MOST_MEMBERS],
}

impl News {
    pub(crate) fn none() -> News {
        News {
            up_to: [0; MOST_MEMBERS],
        }
    }

    /// All that any member publishes, or what a hint tells.
    pub(crate) fn of(wake: Wake) -> News {
        match wake {
            Wake::Hint(hint) => {
                let mut news = News::none();
                news.set((hint.from as usize).wrapping_sub(1), hint.number);
                news
            }
            Wake::Sweep => News {
                up_to: [usize::MAX; MOST_MEMBERS],
            },
        }
    }

    /// The member at a place has published its messages up to a number.
    pub(crate) fn set(&mut self, place: usize, number: usize) {
        if let Some(up_to) = self.up_to.get_mut(place) {
            *up_to = number;
        }
    }

    /// All that other news tells, too.
    pub(crate) fn join(&mut self, other: &News) {
        for (up_to, more) in self.up_to.iter_mut().zip(other.up_to) {
            *up_to = (*up_to).max(more);
        }
    }

    pub(crate) fn is_empty(&self) -> bool {
        self.up_to.iter().all(|up_to| *up_to == 0)
    }

    /// Up to which number a member has published, where that is news.
    pub(crate) fn up_to(&self, from: u32) -> Option<usize> {
        let up_to = *self.up_to.get((from as usize).wrapping_sub(1))?;
        if up_to == 0 { None } else { Some(up_to) }
    }
}

/// Members that could not be reached, since somebody held their locks.
#[derive(Clone, Copy, Drop)]
pub(crate) struct Missed {
    is_missed: [bool; MOST_MEMBERS],
}

impl Missed {
    pub(crate) fn none() -> Missed {
        Missed {
            is_missed: [false; MOST_MEMBERS],
        }
    }

    pub(crate) fn add(&mut self, at: u32) {
        let place = (at as usize).wrapping_sub(1);
        if let Some(is_missed) = self.is_missed.get_mut(place) {
            *is_missed = true;
        }
    }

    pub(crate) fn has(&self, at: u32) -> bool {
        let place = (at as usize).wrapping_sub(1);
        self.is_missed.get(place).copied().unwrap_or(false)
    }

    pub(crate) fn is_empty(&self) -> bool {
        !self.is_missed.contains(&true)
    }
}

/// What a thread carries round the members.
#[derive(Clone, Copy, Drop)]
pub(crate) struct Load {
    // of this round
    news: News,
    // of all rounds
    all: News,
    missed: Missed,
}

impl Load {
    pub(crate) fn none() -> Load {
        Load {
            news: News::none(),
            all: News::none(),
            missed: Missed::none(),
        }
    }

    /// The news of the next round.
    pub(crate) fn take(&mut self, news: News) {
        self.news = news;
        self.all.join(&news);
    }

    /// Who was missed in this round.
    pub(crate) fn miss(&mut self, missed: Missed) {
        self.missed = missed;
    }

    pub(crate) fn is_empty(&self) -> bool {
        self.news.is_empty() && self.missed.is_empty()
    }

    /// Whether a member was missed in the round before.
    pub(crate) fn has_missed(&self, at: u32) -> bool {
        self.missed.has(at)
    }

    /// The news of this round.
    pub(crate) fn news(&self) -> &News {
        &self.news
    }

    /// What a member has not heard: this round's news, and all of it where it was missed before.
    pub(crate) fn unheard(&self, at: u32) -> &News {
        if self.missed.has(at) {
            &self.all
        } else {
            &self.news
        }
    }
}
