//! Serving callers: the members of a group in threads of their own, and a conversation with a desk over them.
ghost use Rattle.std.specs.Prelude.{◌≡◌, false, length, OnOk};
ghost use Rattle.line_engine.specs.Watched.{failed_of};
ghost use Rattle.rbac_words.specs.Keeping.Members.{world_of};
ghost use Rattle.rbac_words.specs.Right.{AreHistoriesRight};
ghost use Rattle.rbac_node.specs.Node.{members_of};
ghost use Rattle.rbac_program.specs.Serving.{AreConfirmed};

mod answering;
mod confirming;
mod desk;
#[cfg(test)]
mod tests;

use crate::fault::Fault;
use crate::founding_file::founding_of;
use crate::serving::answering::{Answered, answer};
use crate::serving::confirming::confirm;
use log::sink::Writer;
use log::warn;
use rbac_founding::Founding;
use rbac_lines::Watched;
use rbac_service::{ChannelCourier, Courier, Gate, GroupName, NoGate, Node, Pass, Rows, Service};
use rbac_words::{Group, Vocabulary};
use std::alloc::{AllocError, Global};
use std::io::{Read, Write};
use std::marker::Brand;
use std::rt::Files;
use std::sync::Wait;
use std::thread::Threads;
use std::time::Clock;

// The members of a group, with hints over channels.
fn found<G: GroupName, T: Wait + Clock + Copy>(
    rt: &T,
    alloc: Global,
    rows: Rows,
    group: Group,
    vocabulary: Vocabulary,
) -> Result<Service<G, NoGate, ChannelCourier<T>>, AllocError>
    requires names { (group ≡ G.group) × (vocabulary ≡ G.vocabulary) × (rows ≡ G.cells) }
    requires members { length rows.sent ≡ group.members }
{
    let courier = ChannelCourier::found(*rt, alloc, group.members())?;
    Service::found(alloc, rows, group, vocabulary, NoGate, courier)
}

// A pass for each member, in order of number.
fn enroll<'w, G: GroupName, K: Gate + Drop, C: Courier + Drop, T: Wait>(
    rt: &T,
    alloc: Global,
    service: &Service<G, K, C>,
    members: u32,
) -> Result<Vec<Pass<G>>, Fault<'w>> {
    let mut passes = Vec::with_capacity(alloc, members as usize)?;
    for place in 0..members {
        let Ok(pass) = service.enroll(rt, place + 1) else {
            return Err(Fault::NoThread);
        };
        if passes.push(pass).is_err() {
            return Err(Fault::from(AllocError));
        }
    }
    Ok(passes)
}

// Answers the reader's lines by a service, and gives back the passes that asked. A warning tells where a member's thread gave up.
fn serve_by<
    'w,
    G: GroupName + Send + Sync,
    K: Gate + Drop + Send + Sync,
    C: Courier + Drop + Send + Sync,
    T: Threads + Wait + Send + Sync,
    R: Read + Drop,
    W: Write,
    E: Write,
>(
    rt: &T,
    alloc: Global,
    service: &Service<G, K, C>,
    members: u32,
    reader: R,
    writer: &mut Watched<W>,
    errors: &mut E,
) -> Result<Vec<Pass<G>>, Fault<'w>>
    requires { failed_of writer.old ≡ false }
{
    let passes = enroll(rt, alloc, service, members)?;
    let Answered {
        ended,
        passes,
        all_stopped,
    } = answer(rt, alloc, service, passes, reader, writer);
    if !all_stopped {
        warn!(Writer::new(errors); "a member's thread gave up, and stopped the others");
    }
    match ended {
        Ok(()) => Ok(passes),
        Err(fault) => {
            drop(passes);
            Err(fault)
        }
    }
}

// Audits these nodes, and asks each to confirm its member's pass.
fn confirm_all<'w, G: GroupName>(
    alloc: Global,
    mut nodes: Vec<Node<G>>,
    mut passes: Vec<Pass<G>>,
) -> Result<(), Fault<'w>>
    ensures right { OnOk result (AreHistoriesRight (world_of G.group G.vocabulary (members_of nodes.items))) }
    ensures confirmed { OnOk result (AreConfirmed nodes.items passes.items) }
{
    let confirmed = confirm(alloc, &mut nodes, &mut passes);
    drop(nodes);
    drop(passes);
    confirmed
}

// Serves by the members of the founding that G names, and audits them at the end.
fn serve_group<
    'w,
    G: GroupName + Send + Sync,
    T: Threads + Wait + Clock + Copy + Send + Sync,
    R: Read + Drop,
    W: Write,
    E: Write,
>(
    rt: &T,
    alloc: Global,
    rows: Rows,
    founding: Founding,
    reader: R,
    writer: &mut Watched<W>,
    errors: &mut E,
) -> Result<(), Fault<'w>>
    requires names { (founding.group ≡ G.group) × (founding.vocabulary ≡ G.vocabulary) × (rows ≡ G.cells) }
    requires members { length rows.sent ≡ founding.group.members }
    requires sound { failed_of writer.old ≡ false }
{
    let Founding { group, vocabulary } = founding;
    let service: Service<G, NoGate, ChannelCourier<T>> = found(rt, alloc, rows, group, vocabulary)?;
    match serve_by(rt, alloc, &service, group.members(), reader, writer, errors) {
        Ok(passes) => confirm_all(alloc, service.take_nodes(), passes),
        Err(fault) => {
            drop(service);
            Err(fault)
        }
    }
}

/// Founds the group of a founding file, where `-` is the sample, and answers the reader's client lines in order, each by the pass
/// of its member, while each member runs in a thread of its own. At the end of the input the members are stopped, their threads
/// joined, and their nodes audited. A warning goes to the errors where a member's thread gave up.
pub(crate) fn serve<
    'w,
    T: Files + AllocGlobal + Threads + Wait + Clock + Copy + Send + Sync,
    R: Read + Drop,
    W: Write,
    E: Write,
>(
    rt: &T,
    path: &'w str,
    reader: R,
    writer: &mut Watched<W>,
    errors: &mut E,
) -> Result<(), Fault<'w>>
    requires { failed_of writer.old ≡ false }
{
    let founding = founding_of(rt, path)?;
    let rows = Rows::found(rt.alloc(), founding.group)?;
    serve_group::<Brand, T, R, W, E>(rt, rt.alloc(), rows, founding, reader, writer, errors)
}
