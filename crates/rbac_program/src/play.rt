//! Playing a schedule on a founding.
ghost use Rattle.std.specs.Prelude.{◌≡◌, false, IfOk, IfSome, OnOk, codes};
ghost use Rattle.std.specs.Io.KnownBytes.{Appends};
ghost use Rattle.line_engine.specs.Watched.{failed_of, inner_of};
ghost use Rattle.rbac_lines.specs.Output.{output};
ghost use Rattle.rbac_program.specs.Sample.{sample_world};

use crate::fault::Fault;
use crate::founding_file::founding_of;
use crate::words::Play;
use rbac_founding::Founding;
use rbac_lines::{Watched, run, watch};
use rbac_world::World;
use std::alloc::Global;
use std::fs;
use std::io::{Read, Write};
use std::rt::Files;

fn world_of<'w, T: Files + AllocGlobal>(rt: &T, path: &'w str) -> Result<World, Fault<'w>>
    ensures { path.now ≡ codes "-" → IfOk result (λ world. world ≡ sample_world) }
{
    let Founding { group, vocabulary } = founding_of(rt, path)?;
    Ok(World::found(rt.alloc(), group, vocabulary)?)
}

fn play_lines<'w, R: Read + Drop, W: Write>(
    alloc: Global,
    mut world: World,
    reader: R,
    writer: &mut Watched<W>,
) -> Result<(), Fault<'w>>
    requires { failed_of writer.old ≡ false }
    ensures { OnOk result (IfSome (R.remaining reader) (λ input. Appends (W.contents (inner_of writer.old)) (W.contents (inner_of writer.new)) (output input world))) }
{
    let ended = run(alloc, &mut watch(reader), writer, &mut world);
    drop(world);
    let _summary = ended?;
    Ok(())
}

/// Founds the world, and then opens the schedule and plays it; `-` is the reader.
pub(crate) fn play<'w, T: Files + AllocGlobal, R: Read + Drop, W: Write>(
    rt: &T,
    asked: Play<'w>,
    reader: R,
    writer: &mut Watched<W>,
) -> Result<(), Fault<'w>>
    requires { failed_of writer.old ≡ false }
    ensures { asked.entry.founding.now ≡ codes "-" → asked.entry.schedule.now ≡ codes "-" →
        OnOk result (IfSome (R.remaining reader) (λ input. Appends (W.contents (inner_of writer.old)) (W.contents (inner_of writer.new)) (output input sample_world))) }
{
    let world = world_of(rt, asked.founding)?;
    if asked.schedule == "-" {
        return play_lines(rt.alloc(), world, reader, writer);
    }
    match fs::open(rt, asked.schedule) {
        Ok(file) => play_lines(rt.alloc(), world, file, writer),
        Err(_) => {
            drop(world);
            Err(Fault::File(asked.schedule))
        }
    }
}
