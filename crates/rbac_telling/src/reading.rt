//! Whole inputs: all lines of a reader, in order.
ghost use Rattle.std.specs.Prelude.{◌≡◌, false, IfOk, IfSome, OnOk};
ghost use Rattle.line_engine.specs.Lines.{lines};
ghost use Rattle.line_engine.specs.Output.{Follows, Taker, refused_count, state_after};
ghost use Rattle.line_engine.specs.Watched.{failed_of, inner_of, reads_of};
ghost use Rattle.rbac_lines.specs.Output.{world_after, refused_lines};
ghost use Rattle.rbac_telling.specs.Applying.{applied, unserved_lines};

use crate::applying::{Applying, Served};
use crate::tracing::{Drawing, Drawn, Tracing};
use line_engine::{RunFault, Summary, Taking, Watched, output_of_run, run_lines, watch};
use rbac_world::World;
use std::alloc::Global;
use std::io;
use std::io::{Read, Write};

/// How often the input is read at most.
const MOST_READS: u32 = 268_435_456;

// Takes all lines of a reader under watch.
fn take_watched<K: Taking, R: Read, W: Write>(
    alloc: Global,
    reader: &mut Watched<R>,
    writer: &mut Watched<W>,
    over: &mut K::Over,
) -> Result<Summary, RunFault>
    requires reader_sound { failed_of reader.old ≡ false }
    requires unread { reads_of reader.old ≡ 0 }
    requires writer_sound { failed_of writer.old ≡ false }
    ensures state { (taker : Taker K.State) → Follows K.takes taker → OnOk result (IfSome (R.remaining (inner_of reader.old)) (λ input. K.state over.new ≡ state_after taker 1 (K.state over.old) (lines input))) }
    ensures counted { (taker : Taker K.State) → Follows K.takes taker → IfOk result (λ summary. IfSome (R.remaining (inner_of reader.old)) (λ input. summary.refused ≡ refused_count taker 1 (K.state over.old) (lines input))) }
{
    output_of_run::<K>();
    run_lines::<K, R, W>(alloc, reader, writer, over, MOST_READS)
}

// Takes all lines of a reader.
fn take_all<K: Taking, R: Read + Drop, W: Write>(
    alloc: Global,
    reader: R,
    writer: &mut W,
    over: &mut K::Over,
) -> Result<Summary, RunFault>
    ensures state { (taker : Taker K.State) → Follows K.takes taker → OnOk result (IfSome (R.remaining reader) (λ input. K.state over.new ≡ state_after taker 1 (K.state over.old) (lines input))) }
    ensures counted { (taker : Taker K.State) → Follows K.takes taker → IfOk result (λ summary. IfSome (R.remaining reader) (λ input. summary.refused ≡ refused_count taker 1 (K.state over.old) (lines input))) }
{
    take_watched::<K, R, &mut W>(alloc, &mut watch(reader), &mut watch(writer), over)
}

/// Applies client lines to the policy of a group, in order, and writes why a line is refused, a line for each that is. A check or a
/// review changes nothing, and is not answered.
///
/// # Errors
/// `Read` where the reader fails, `Write` where the writer does, `TooManyReads` where the input has not ended after 268,435,456
/// reads, `NoMemory` where memory ends. Some first lines were applied.
pub fn apply_lines<R: Read + Drop, W: Write>(
    alloc: Global,
    reader: R,
    writer: &mut W,
    served: &mut Served,
) -> Result<Summary, RunFault>
    ensures applied { OnOk result (IfSome (R.remaining reader) (λ input. served.new ≡ applied input served.old)) }
    ensures counted { IfOk result (λ summary. IfSome (R.remaining reader) (λ input. summary.refused ≡ unserved_lines input served.old)) }
{
    take_all::<Applying, R, W>(alloc, reader, writer, served)
}

/// Plays a schedule on a world, and writes what each line does to its member.
///
/// # Errors
/// As of `apply_lines`. Some first lines were played.
pub fn trace_lines<R: Read + Drop, W: Write>(
    alloc: Global,
    reader: R,
    writer: &mut W,
    world: &mut World,
) -> Result<Summary, RunFault>
    ensures played { OnOk result (IfSome (R.remaining reader) (λ input. world.new ≡ world_after input world.old)) }
    ensures counted { IfOk result (λ summary. IfSome (R.remaining reader) (λ input. summary.refused ≡ refused_lines input world.old)) }
{
    take_all::<Tracing, R, W>(alloc, reader, writer, world)
}

/// Plays a schedule on a world, and draws a row for each line that is an event.
///
/// # Errors
/// As of `apply_lines`, but that nothing is written. Some first lines were played.
pub fn draw_lines<R: Read + Drop>(
    alloc: Global,
    reader: R,
    drawn: &mut Drawn,
) -> Result<Summary, RunFault>
    ensures played { OnOk result (IfSome (R.remaining reader) (λ input. drawn.new.world ≡ world_after input drawn.old.world)) }
    ensures counted { IfOk result (λ summary. IfSome (R.remaining reader) (λ input. summary.refused ≡ refused_lines input drawn.old.world)) }
{
    take_all::<Drawing, R, io::Sink>(alloc, reader, &mut io::sink(), drawn)
}
