//! A schedule played line by line, with what each line does to its member.
ghost use Rattle.std.specs.Prelude.{◌≡◌, ◌≢◌, ◌⊎◌, ◌++◌, true, IfOk, OnOk, OnErr, is_err};
ghost use Rattle.rbac_words.specs.World.{step, step_outcome};
ghost use Rattle.rbac_pages.specs.RefusedText.{refused_text, line_refusal_sentence};
ghost use Rattle.rbac_telling.specs.Tracing.{traced_text, drawn_after};

use line_engine::Taking;
use rbac_lines::{LineRefusal, Scratch, read_line};
use rbac_pages::{Diagram, refused_line_text, refused_text, step_text};
use rbac_words::{Event, Refusal};
use rbac_world::World;
use std::alloc::{AllocError, Global};

/// A world is told of line by line.
pub(crate) struct Tracing;

impl Taking for Tracing {
    type Over = World;

    type Scratch = Scratch;

    ghost use Rattle.rbac_words.specs.World.{World as WorldValue};
    ghost use Rattle.rbac_telling.specs.Tracing.{TracesLine};

    ghost State = { WorldValue };

    ghost state = { λ w. w };

    ghost takes = { TracesLine };

    fn scratch(alloc: Global) -> Scratch {
        Scratch::new(alloc)
    }

    fn take_line(
        world: &mut World,
        alloc: Global,
        scratch: &mut Scratch,
        number: u64,
        line: &[u8],
        text: &mut Vec<u8>,
    ) -> Result<bool, AllocError> {
        match read_line(alloc, line, scratch) {
            Ok(event) => {
                let is_refused = trace(world, alloc, number, &event, text);
                drop(event);
                is_refused
            }
            Err(refusal) => refuse(alloc, number, refusal, text),
        }
    }
}

// One event, and what it did. Ok says whether it was refused.
fn trace(
    world: &mut World,
    alloc: Global,
    number: u64,
    event: &Event,
    text: &mut Vec<u8>,
) -> Result<bool, AllocError>
    ensures text { OnOk result (text.new.items ≡ text.old.items ++ traced_text world.old number event.now) }
    ensures refused { IfOk result (λ is_refused. is_refused ≡ is_err (step_outcome world.old event.now)) }
    ensures stepped { OnOk result (world.new ≡ step world.old event.now) }
    ensures starved { OnErr result ((world.new ≡ world.old) ⊎ (world.new ≡ step world.old event.now)) }
{
    match world.step(alloc, event) {
        Ok(outcome) => {
            let own = step_text(alloc, number, world, event, outcome)?;
            text.extend_from_slice(&own)?;
            Ok(false)
        }
        Err(Refusal::NoMemory) => Err(AllocError),
        Err(refusal) => {
            let own = refused_text(alloc, number, refusal)?;
            text.extend_from_slice(&own)?;
            Ok(true)
        }
    }
}

// A line that is no event, unless memory ran out. Ok says that it is refused.
fn refuse(
    alloc: Global,
    number: u64,
    refusal: LineRefusal,
    text: &mut Vec<u8>,
) -> Result<bool, AllocError>
    ensures text { OnOk result (text.new.items ≡ text.old.items ++ refused_text number (line_refusal_sentence refusal)) }
    ensures refused { IfOk result (λ is_refused. is_refused ≡ true) }
    ensures other { OnOk result (refusal ≢ LineRefusal.NoMemory) }
{
    match refusal {
        LineRefusal::NoMemory => Err(AllocError),
        other => {
            let own = refused_line_text(alloc, number, other)?;
            text.extend_from_slice(&own)?;
            Ok(true)
        }
    }
}

/// A world, and what its diagram has so far.
#[derive(Drop)]
pub struct Drawn {
    pub world: World,
    pub diagram: Diagram,
}

/// A world is drawn row by row. No text is written meanwhile.
pub(crate) struct Drawing;

impl Taking for Drawing {
    type Over = Drawn;

    type Scratch = Scratch;

    ghost use Rattle.rbac_words.specs.World.{World as WorldValue};
    ghost use Rattle.rbac_telling.specs.Tracing.{MovesLine};

    ghost State = { WorldValue };

    ghost state = { λ drawn. drawn.world };

    ghost takes = { MovesLine };

    fn scratch(alloc: Global) -> Scratch {
        Scratch::new(alloc)
    }

    fn take_line(
        drawn: &mut Drawn,
        alloc: Global,
        scratch: &mut Scratch,
        number: u64,
        line: &[u8],
        _text: &mut Vec<u8>,
    ) -> Result<bool, AllocError> {
        match read_line(alloc, line, scratch) {
            Ok(event) => {
                let is_refused = draw(&mut drawn.world, &mut drawn.diagram, alloc, number, &event);
                drop(event);
                is_refused
            }
            Err(refusal) => skip(refusal),
        }
    }
}

// The row of one event. Ok says whether it was refused.
fn draw(
    world: &mut World,
    diagram: &mut Diagram,
    alloc: Global,
    number: u64,
    event: &Event,
) -> Result<bool, AllocError>
    ensures drawn { OnOk result (diagram.new ≡ drawn_after world.old diagram.old number event.now) }
    ensures refused { IfOk result (λ is_refused. is_refused ≡ is_err (step_outcome world.old event.now)) }
    ensures stepped { OnOk result (world.new ≡ step world.old event.now) }
    ensures starved { OnErr result ((world.new ≡ world.old) ⊎ (world.new ≡ step world.old event.now)) }
{
    match world.step(alloc, event) {
        Ok(outcome) => {
            diagram.add(alloc, number, world, event, outcome)?;
            Ok(false)
        }
        Err(Refusal::NoMemory) => Err(AllocError),
        Err(refusal) => {
            diagram.add_refused(number, event, refusal)?;
            Ok(true)
        }
    }
}

// A line that is no event has no row, unless memory ran out. Ok says that it is refused.
fn skip(refusal: LineRefusal) -> Result<bool, AllocError>
    ensures refused { IfOk result (λ is_refused. is_refused ≡ true) }
    ensures other { OnOk result (refusal ≢ LineRefusal.NoMemory) }
{
    match refusal {
        LineRefusal::NoMemory => Err(AllocError),
        _ => Ok(true),
    }
}
