//! A list of events, one after the other.
ghost use Rattle.std.specs.Prelude.{◌≡◌, ◌≢◌, ◌<◌, true, false, length, take, Err, IfOk, IfErr, OnOk};
ghost use Rattle.rbac_words.specs.Play.{world_after, outcomes as outcomes_of};
ghost use Rattle.rbac_words.specs.Right.{AreHistoriesRight};

use crate::world::World;
use rbac_words::{Event, Outcome, Refusal};
use std::alloc::Global;
use thiserror::Error;

/// Memory ran out after so many events.
#[derive(Clone, Copy, Debug, PartialEq, Eq, Drop, Error)]
#[error("no memory after {done} events")]
pub struct Stopped {
    pub done: usize,
}

// Whether memory ran out.
fn is_starved(outcome: Result<Outcome, Refusal>) -> bool
    ensures starved { result ≡ true → outcome ≡ Err Refusal.NoMemory }
    ensures served { result ≡ false → outcome ≢ Err Refusal.NoMemory }
{
    matches!(outcome, Err(Refusal::NoMemory))
}

/// Plays events in a world, and answers the outcome or the refusal of each. Want of memory alone stops it, and then what was
/// done stays: the other events can be played later. Afterwards each history is right.
///
/// # Errors
/// `Stopped` where the answers get no memory: so many events are done.
pub fn play(
    world: &mut World,
    alloc: Global,
    events: &[Event],
) -> Result<Vec<Result<Outcome, Refusal>>, Stopped>
    ensures outcomes { IfOk result (λ outcomes. outcomes.items ≡ outcomes_of world.old events.now) }
    ensures played { OnOk result (world.new ≡ world_after world.old events.now) }
    ensures done { IfErr result (λ stopped. world.new ≡ world_after world.old (take stopped.done events.now)) }
    ensures some_left { IfErr result (λ stopped. stopped.done < length events.now) }
    ensures right { AreHistoriesRight world.new }
{
    let mut outcomes = Vec::new(alloc);
    if outcomes.reserve(events.len()).is_err() {
        world.right_histories();
        return Err(Stopped { done: 0 });
    }
    for (done, event) in events.iter().enumerate() {
        let outcome = world.step(alloc, event);
        if is_starved(outcome) {
            world.right_histories();
            return Err(Stopped { done });
        }
        let Ok(()) = outcomes.push(outcome) else {
            unreachable!()
        };
    }
    world.right_histories();
    Ok(outcomes)
}
