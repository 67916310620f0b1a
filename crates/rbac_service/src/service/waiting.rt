//! Where the callers of a member wait for their answers.
ghost use Rattle.std.specs.Prelude.{◌≡◌, ◌<◌, IfOk, vec_len};

use rbac_words::{Record, Stamp};
use std::alloc::{AllocError, Global};
use std::sync::{Condvar, MutexGuard, Wait};

// Of a member. Callers whose stamps share a place wake one another.
const PLACES: usize = 64;

/// The conditions that an answer was published: a command's stamp says at which of them its caller waits.
#[derive(Drop)]
pub(crate) struct Waiting {
    places: Vec<Condvar>,
    ghost count: { vec_len places ≡ 64 },
}

/// The places of some commands.
#[derive(Clone, Copy, Drop)]
pub(crate) struct Answered {
    places: u64,
}

// Where the caller of a command waits.
fn place_of(stamp: Stamp) -> u64
    ensures { result < 64 }
{
    stamp.clock % 64
}

impl Answered {
    /// Those of a member's own commands among these records.
    pub(crate) fn of(records: &[Record], member: u32) -> Answered {
        let mut places = 0u64;
        for record in records {
            if record.stamp.member == member {
                places |= 1 << place_of(record.stamp);
            }
        }
        Answered { places }
    }

    fn has(self, place: u64) -> bool
        requires { place < 64 }
    {
        self.places >> place & 1 == 1
    }
}

fn found_places(alloc: Global) -> Result<Vec<Condvar>, AllocError>
    ensures { IfOk result (λ places. vec_len places ≡ 64) }
{
    let mut places = Vec::with_capacity(alloc, PLACES)?;
    for _ in 0..PLACES {
        places.push(Condvar::new())?;
    }
    Ok(places)
}

impl Waiting {
    pub(crate) fn found(alloc: Global) -> Result<Waiting, AllocError> {
        Ok(Waiting {
            places: found_places(alloc)?,
        })
    }

    /// Wakes the callers of these commands, and perhaps others.
    pub(crate) fn wake(&self, answered: Answered) {
        if answered.places == 0 {
            return;
        }
        for place in 0..PLACES {
            if answered.has(place as u64) {
                self.places[place].notify_all();
            }
        }
    }

    /// Wakes all callers.
    pub(crate) fn wake_all(&self) {
        for place in &self.places {
            place.notify_all();
        }
    }

    /// Lets the lock go, waits to be woken for a command, and takes it again.
    pub(crate) fn wait<'n, N, R: Wait>(
        &self,
        rt: &R,
        stamp: Stamp,
        node: MutexGuard<'n, N>,
    ) -> MutexGuard<'n, N> {
        self.places[place_of(stamp) as usize].wait(rt, node)
    }
}
