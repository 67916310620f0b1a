//! Lines that are read for what they leave.
ghost use Rattle.std.specs.Prelude.{◌≡◌, true, IfOk};
ghost use Rattle.rbac_words.specs.World.{is_member};

use crate::fault::Fault;
use crate::founding_file::founding_of;
use crate::words::Lines;
use rbac_decide::Policy;
use rbac_founding::Founding;
use rbac_lines::{RunFault, Summary, run, watch};
use rbac_pages::{Diagram, end_text};
use rbac_telling::{Drawn, Served, apply_lines, draw_lines, trace_lines};
use rbac_world::World;
use std::alloc::Global;
use std::io::{Read, Write};
use std::rt::Files;
use std::{fs, io};

/// Ends what is told where a line was refused, unless the words ask to go on: a line of the wrong kind is refused too, so that an
/// empty answer is none about the lines.
pub(crate) fn accepted<'w>(summary: Summary, is_lenient: bool) -> Result<(), Fault<'w>> {
    if summary.refused != 0 && !is_lenient {
        return Err(Fault::Lines(summary));
    }
    Ok(())
}

/// Writes a text to its end.
pub(crate) fn write_whole<'w, W: Write>(writer: &mut W, text: &[u8]) -> Result<(), Fault<'w>> {
    if writer.write_all(text).is_err() || writer.flush().is_err() {
        return Err(Fault::Run(RunFault::Write));
    }
    Ok(())
}

/// The group of a founding, whose policy is empty.
pub(crate) fn served_of(alloc: Global, founding: Founding) -> Served {
    let Founding { group, vocabulary } = founding;
    Served::found(group.members(), Policy::found(alloc, vocabulary))
}

/// Applies client lines to the policy of a group.
pub(crate) fn serve<'w, R: Read + Drop, E: Write>(
    alloc: Global,
    served: &mut Served,
    reader: R,
    is_lenient: bool,
    errors: &mut E,
) -> Result<(), Fault<'w>> {
    let summary = apply_lines(alloc, reader, errors, served)?;
    accepted(summary, is_lenient)
}

// The world of a founding.
fn world_of<'w>(alloc: Global, founding: Founding) -> Result<World, Fault<'w>> {
    let Founding { group, vocabulary } = founding;
    Ok(World::found(alloc, group, vocabulary)?)
}

/// Plays a schedule on the world of a founding.
pub(crate) fn play<'w, R: Read + Drop>(
    alloc: Global,
    founding: Founding,
    reader: R,
    is_lenient: bool,
) -> Result<World, Fault<'w>>
    ensures { IfOk result (λ world. is_member world 1 ≡ true) }
{
    let Founding { group, vocabulary } = founding;
    group.invariants();
    let mut world = World::found(alloc, group, vocabulary)?;
    let summary = run(
        alloc,
        &mut watch(reader),
        &mut watch(io::sink()),
        &mut world,
    )?;
    accepted(summary, is_lenient)?;
    Ok(world)
}

// Plays a schedule on a world, and writes what each line does to its member, and then where each member stands.
fn trace_on<'w, R: Read + Drop, W: Write>(
    alloc: Global,
    world: &mut World,
    reader: R,
    is_lenient: bool,
    writer: &mut W,
) -> Result<(), Fault<'w>> {
    let summary = trace_lines(alloc, reader, writer, world)?;
    match end_text(alloc, world) {
        Ok(text) => write_whole(writer, &text)?,
        Err(_) => return Err(Fault::Run(RunFault::NoMemory)),
    }
    accepted(summary, is_lenient)
}

// Plays a schedule on a world, and writes its space-time diagram.
fn draw_on<'w, R: Read + Drop, W: Write>(
    alloc: Global,
    drawn: &mut Drawn,
    reader: R,
    is_lenient: bool,
    writer: &mut W,
) -> Result<(), Fault<'w>> {
    let summary = draw_lines(alloc, reader, drawn)?;
    match drawn.diagram.picture(alloc) {
        Ok(text) => write_whole(writer, &text)?,
        Err(_) => return Err(Fault::Run(RunFault::NoMemory)),
    }
    accepted(summary, is_lenient)
}

/// Writes what each line of a schedule does to its member.
pub(crate) fn trace<'w, T: Files + AllocGlobal, R: Read + Drop, W: Write>(
    rt: &T,
    lines: Lines<'w>,
    reader: R,
    writer: &mut W,
) -> Result<(), Fault<'w>> {
    let mut world = world_of(rt.alloc(), founding_of(rt, lines.founding)?)?;
    let told = match lines.path {
        "-" => trace_on(rt.alloc(), &mut world, reader, lines.is_lenient, writer),
        path => match fs::open(rt, path) {
            Ok(file) => trace_on(rt.alloc(), &mut world, file, lines.is_lenient, writer),
            Err(_) => Err(Fault::File(path)),
        },
    };
    drop(world);
    told
}

/// Writes the space-time diagram of a schedule. A line that is no event has no row.
pub(crate) fn draw<'w, T: Files + AllocGlobal, R: Read + Drop, W: Write>(
    rt: &T,
    lines: Lines<'w>,
    reader: R,
    writer: &mut W,
) -> Result<(), Fault<'w>> {
    let world = world_of(rt.alloc(), founding_of(rt, lines.founding)?)?;
    let diagram = Diagram::new(rt.alloc(), &world);
    let mut drawn = Drawn { world, diagram };
    let told = match lines.path {
        "-" => draw_on(rt.alloc(), &mut drawn, reader, lines.is_lenient, writer),
        path => match fs::open(rt, path) {
            Ok(file) => draw_on(rt.alloc(), &mut drawn, file, lines.is_lenient, writer),
            Err(_) => Err(Fault::File(path)),
        },
    };
    drop(drawn);
    told
}
