//! A conversation beside the members' threads.
ghost use Rattle.std.specs.Prelude.{◌≡◌, false, OnOk};
ghost use Rattle.line_engine.specs.Watched.{failed_of, inner_of};
ghost use Rattle.rbac_program.specs.Serving.{Serves};

use crate::fault::Fault;
use crate::serving::desk::PassDesk;
use rbac_lines::{RunFault, Watched, converse, watch};
use rbac_service::{Courier, Gate, GroupName, Pass, PumpEnd, Service};
use std::alloc::Global;
use std::io::{Read, Write};
use std::sync::Wait;
use std::thread;
use std::thread::{JoinHandle, Threads};

/// How a conversation ended, the passes that asked, and whether each member's thread ended by the stop.
#[derive(Drop)]
pub(crate) struct Answered<'w, G: GroupName> {
    pub(crate) ended: Result<(), Fault<'w>>,
    pub(crate) passes: Vec<Pass<G>>,
    pub(crate) all_stopped: bool,
}

// Talks with a desk of these passes, and gives them back.
fn talk<'w, G: GroupName, K: Gate + Drop, C: Courier + Drop, T: Wait, R: Read + Drop, W: Write>(
    rt: &T,
    alloc: Global,
    service: &Service<G, K, C>,
    passes: Vec<Pass<G>>,
    reader: R,
    writer: &mut Watched<W>,
) -> (Result<(), Fault<'w>>, Vec<Pass<G>>)
    requires { failed_of writer.old ≡ false }
    ensures served { OnOk result.0 (Serves (R.remaining reader) (W.contents (inner_of writer.old)) (W.contents (inner_of writer.new)) passes.items result.1.items) }
{
    let mut desk = PassDesk {
        rt,
        service,
        passes,
    };
    let ended = converse(alloc, &mut watch(reader), writer, &mut desk);
    let PassDesk { passes, .. } = desk;
    match ended {
        Ok(_) => (Ok(()), passes),
        Err(fault) => (Err(Fault::Run(fault)), passes),
    }
}

// Waits for the threads. True where each ended by the stop.
fn join<T: Threads>(rt: &T, threads: Vec<JoinHandle<PumpEnd>>) -> bool {
    let mut all_stopped = true;
    for thread in threads {
        if thread.join(rt) != PumpEnd::Stopped {
            all_stopped = false;
        }
    }
    all_stopped
}

/// Starts a thread for each member, answers the reader's lines, stops the members and joins their threads. Where a thread can't
/// be started, nothing is read.
pub(crate) fn answer<
    'w,
    G: GroupName + Send + Sync,
    K: Gate + Drop + Send + Sync,
    C: Courier + Drop + Send + Sync,
    T: Threads + Wait + Send + Sync,
    R: Read + Drop,
    W: Write,
>(
    rt: &T,
    alloc: Global,
    service: &Service<G, K, C>,
    passes: Vec<Pass<G>>,
    reader: R,
    writer: &mut Watched<W>,
) -> Answered<'w, G>
    requires { failed_of writer.old ≡ false }
{
    thread::scope(
        thread::scope_env(),
        rt,
        move |scope|
            requires { failed_of writer.now ≡ false }
        {
            let mut threads = Vec::new(alloc);
            let mut is_running = true;
            for pass in &passes {
                let at = pass.member();
                match scope.spawn(move || service.pump(rt, alloc, at)) {
                    Ok(thread) => {
                        if threads.push(thread).is_err() {
                            is_running = false;
                        }
                    }
                    Err(_) => is_running = false,
                }
            }
            let (ended, passes) = if is_running {
                talk(rt, alloc, service, passes, reader, writer)
            } else {
                (Err(Fault::NoThread), passes)
            };
            service.stop(rt);
            Answered {
                ended,
                passes,
                all_stopped: join(rt, threads),
            }
        },
    )
}
