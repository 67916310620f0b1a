//! Where a key may stand, by its digest.
use std::alloc::{AllocError, Global};

// So many hints, one behind the other, are looked at for one digest.
pub(crate) const NEIGHBOURS: usize = 8;

// The least table has two to the power of this many hints, and the largest.
const LEAST_BITS: u32 = 4;

const MOST_BITS: u32 = 32;

// No map has this place.
const NO_PLACE: u32 = u32::MAX;

// A place at which the key of a digest may stand. The tag is the digest's lesser half.
#[derive(Clone, Copy, Drop)]
struct Hint {
    tag: u32,
    place: u32,
}

const NO_HINT: Hint = Hint {
    tag: 0,
    place: NO_PLACE,
};

/// Places at which keys may stand. They promise nothing: whoever is given a place looks at what stands there. So the keys of strangers
/// can make look-ups no slower than a search in order.
#[derive(Drop)]
pub(crate) struct Hints {
    // None, or a power of two.
    hints: Vec<Hint>,
    // By so much a digest is shifted to be a place in this table.
    shift: u32,
}

impl Hints {
    /// No hints, and no memory.
    pub(crate) fn none(alloc: Global) -> Hints {
        Hints {
            hints: Vec::new(alloc),
            shift: 63,
        }
    }

    /// No hints yet, in a table for so many keys.
    ///
    /// # Errors
    /// `AllocError` where there is no memory for the table.
    pub(crate) fn with_room_for(alloc: Global, keys: usize) -> Result<Hints, AllocError> {
        let bits = (64 - keys.leading_zeros() + 1).clamp(LEAST_BITS, MOST_BITS);
        let mut hints = Vec::with_capacity(alloc, 1 << bits)?;
        hints.resize(1 << bits, NO_HINT)?;
        Ok(Hints {
            hints,
            shift: 64 - bits,
        })
    }

    /// Whether the table is large enough for so many keys.
    pub(crate) fn has_room_for(&self, keys: usize) -> bool {
        keys <= self.hints.len() / 2
    }

    /// A place at which the key of this digest may stand: the first, or a later one of few.
    #[inline(always)]
    pub(crate) fn place(&self, digest: u64, nth: usize) -> Option<usize> {
        let tag = tag_of(digest);
        match self.hints.get(self.first(digest).saturating_add(nth)) {
            Some(hint) if hint.tag == tag => Some(hint.place as usize),
            _ => None,
        }
    }

    // Where the hints of a digest begin: its greatest bits tell.
    #[inline(always)]
    fn first(&self, digest: u64) -> usize {
        digest.checked_shr(self.shift).unwrap_or(0) as usize
    }

    /// Notes that the key of this digest stands at a place. Where all its hints are taken, the first is given up.
    #[inline(always)]
    pub(crate) fn note(&mut self, digest: u64, place: usize) {
        let Ok(place) = u32::try_from(place) else {
            return;
        };
        let first = self.first(digest);
        let nth = self.nth_of(first, NO_PLACE).unwrap_or(0);
        self.set(
            first.saturating_add(nth),
            Hint {
                tag: tag_of(digest),
                place,
            },
        );
    }

    /// Forgets that the key of this digest stands at a place.
    #[inline(always)]
    pub(crate) fn forget(&mut self, digest: u64, place: usize) {
        let Ok(place) = u32::try_from(place) else {
            return;
        };
        let first = self.first(digest);
        if let Some(nth) = self.nth_of(first, place) {
            self.set(first.saturating_add(nth), NO_HINT);
        }
    }

    // Which of the hints that begin here is that of a place.
    #[inline(always)]
    fn nth_of(&self, first: usize, place: u32) -> Option<usize> {
        for nth in 0..NEIGHBOURS {
            match self.hints.get(first.saturating_add(nth)) {
                Some(hint) if hint.place == place => return Some(nth),
                _ => {}
            }
        }
        None
    }

    #[inline(always)]
    fn set(&mut self, at: usize, hint: Hint) {
        if at < self.hints.len() {
            self.hints[at] = hint;
        }
    }
}

// The lesser half of a digest.
#[inline(always)]
fn tag_of(digest: u64) -> u32 {
    (digest % (1 << 32)) as u32
}
