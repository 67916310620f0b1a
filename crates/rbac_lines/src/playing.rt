//! Lines played on a world.
ghost use Rattle.std.specs.Prelude.{◌≡◌, ◌⊎◌, ◌++◌, Ok, IfOk, OnOk, OnErr, is_err};
ghost use Rattle.std.specs.Option.{option_copied};
ghost use Rattle.rbac_words.specs.World.{World as WorldValue, step, step_outcome};
ghost use Rattle.rbac_lines.specs.Text.{outcome_text};
ghost use Rattle.rbac_lines.specs.Output.{delivered_record, event_text, PlaysLine};

use crate::reading::read_line;
use crate::text::{
    put_delivered, put_nothing_delivered, put_received, put_refused, put_submitted, refuse,
};
use line_engine::Taking;
use rbac_text::Scratch;
use rbac_words::{Event, Outcome, Record, Refusal};
use rbac_world::World;
use std::alloc::{AllocError, Global};

/// A world takes lines: each is an event, or refused.
pub(crate) struct Playing;

impl Taking for Playing {
    type Over = World;

    type Scratch = Scratch;

    ghost State = { WorldValue };

    ghost state = { λ w. w };

    ghost takes = { PlaysLine };

    fn scratch(alloc: Global) -> Scratch {
        Scratch::new(alloc)
    }

    fn take_line(
        world: &mut World,
        alloc: Global,
        scratch: &mut Scratch,
        number: u64,
        line: &[u8],
        text: &mut Vec<u8>,
    ) -> Result<bool, AllocError> {
        match read_line(alloc, line, scratch) {
            Ok(event) => {
                let is_refused = play(alloc, world, number, &event, text);
                drop(event);
                is_refused
            }
            Err(refusal) => refuse(text, number, refusal),
        }
    }
}

// One event, and its text behind what the buffer has. Ok says whether it was refused.
fn play(
    alloc: Global,
    world: &mut World,
    number: u64,
    event: &Event,
    text: &mut Vec<u8>,
) -> Result<bool, AllocError>
    ensures text { OnOk result (text.new.items ≡ text.old.items ++ event_text world.old number event.now) }
    ensures refused { IfOk result (λ is_refused. is_refused ≡ is_err (step_outcome world.old event.now)) }
    ensures stepped { OnOk result (world.new ≡ step world.old event.now) }
    ensures starved { OnErr result ((world.new ≡ world.old) ⊎ (world.new ≡ step world.old event.now)) }
{
    match world.step(alloc, event) {
        Ok(outcome) => {
            let delivered = record_of(world, event, outcome);
            put_outcome(text, number, outcome, delivered)?;
            Ok(false)
        }
        Err(Refusal::NoMemory) => Err(AllocError),
        Err(refusal) => {
            put_refused(text, number, &refusal)?;
            Ok(true)
        }
    }
}

// The record that an event has delivered.
fn record_of<'a>(world: &'a World, event: &Event, outcome: Outcome) -> Option<&'a Record>
    ensures { (old : WorldValue) → step_outcome old event.now ≡ Ok outcome → world.now ≡ step old event.now → option_copied result ≡ delivered_record old event.now }
{
    match (event, outcome) {
        (Event::Deliver { at }, Outcome::Delivered(Some(place))) => match world.member(*at) {
            Some(member) => member.history().get(place),
            None => None,
        },
        _ => None,
    }
}

fn put_outcome(
    text: &mut Vec<u8>,
    number: u64,
    outcome: Outcome,
    delivered: Option<&Record>,
) -> Result<(), AllocError>
    ensures { OnOk result (text.new.items ≡ text.old.items ++ outcome_text number outcome (option_copied delivered.entry)) }
{
    match outcome {
        Outcome::Submitted(stamp) => put_submitted(text, number, stamp),
        Outcome::Received(acknowledged) => put_received(text, number, acknowledged),
        Outcome::Delivered(_) => match delivered {
            Some(record) => put_delivered(text, number, record),
            None => put_nothing_delivered(text, number),
        },
    }
}
