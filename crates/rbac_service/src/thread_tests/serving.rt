//! Six commands at member 1 of two, whose hints are lost, given twice or too late, and made up for by sweeps.
ghost use Rattle.std.specs.Prelude.{◌≡◌, length};
ghost use Rattle.rbac_node.specs.Pass.{Owns};

use super::{Patient, hostile_courier};
use crate::tests::{
    Founding, add_ann, check, expect_audit, expect_confirmed, founded, name, new_pass,
    sample_founding, submitted,
};
use crate::{Courier, GroupName, Hint, NoGate, Pass, PumpEnd, Service, Ticket, Wake};
use rbac_words::{Answer, Command, NameSet};
use std::alloc::Global;
use std::marker::Brand;
use std::process::Abort;
use std::sync::Wait;
use std::sync::atomic::{AtomicU64, Ordering};
use std::thread;
use std::thread::Threads;
use std::time::{Clock, Duration};

fn add_clerk(rt: &impl Abort, alloc: Global) -> Command {
    let role = name(rt, alloc, "clerk");
    Command::AddRole { role }
}

// The command that makes ann a clerk.
fn assign_ann(rt: &impl Abort, alloc: Global) -> Command {
    Command::AssignUser {
        user: name(rt, alloc, "ann"),
        role: name(rt, alloc, "clerk"),
    }
}

// The command that lets clerks read the ledger.
fn grant_ledger(rt: &impl Abort, alloc: Global) -> Command {
    Command::GrantPermission {
        operation: name(rt, alloc, "read"),
        object: name(rt, alloc, "ledger"),
        role: name(rt, alloc, "clerk"),
    }
}

// The command that creates ann's session, in which she is a clerk.
fn create_session(rt: &impl Abort, alloc: Global) -> Command {
    let mut roles = NameSet::new(alloc);
    let added = roles.add(name(rt, alloc, "clerk"));
    assert!(rt; added.is_ok());
    Command::CreateSession {
        user: name(rt, alloc, "ann"),
        session: name(rt, alloc, "s1"),
        roles,
    }
}

// Submits a command while the lock of member 2 is held, so that who submits can't take that member's turn: its own thread has to.
fn submitted_past<G: GroupName, C: Courier + Drop, R: Wait + Abort>(
    rt: &R,
    alloc: Global,
    service: &Service<G, NoGate, C>,
    pass: &mut Pass<G>,
    command: Command,
) -> Ticket
    ensures { Owns pass.new result }
{
    let slot = service.slot(2).expect(rt, "a member");
    let held = slot.node.lock(rt);
    let ticket = submitted(rt, alloc, service, pass, command);
    drop(held);
    ticket
}

// A command is answered, at this place of the history.
fn expect_answer<G: GroupName, C: Courier + Drop, R: Wait + Abort>(
    rt: &R,
    alloc: Global,
    service: &Service<G, NoGate, C>,
    pass: &mut Pass<G>,
    command: Command,
    (place, answer): (usize, Answer),
) {
    let ticket = submitted_past(rt, alloc, service, pass, command);
    let found = service.await_answer(rt, pass, ticket);
    let receipt = found.ok().expect(rt, "an answer");
    assert_eq!(rt; receipt.place, place);
    assert!(rt; receipt.answer.same(&answer));
    drop(receipt);
    drop(answer);
}

// Ann comes to read the ledger.
fn talk<G: GroupName, C: Courier + Drop, R: Wait + Abort>(
    rt: &R,
    alloc: Global,
    service: &Service<G, NoGate, C>,
    pass: &mut Pass<G>,
) {
    let added = add_ann(rt, alloc);
    expect_answer(rt, alloc, service, pass, added, (0, Answer::Done));
    let role = add_clerk(rt, alloc);
    expect_answer(rt, alloc, service, pass, role, (1, Answer::Done));
    let assigned = assign_ann(rt, alloc);
    expect_answer(rt, alloc, service, pass, assigned, (2, Answer::Done));
    let granted = grant_ledger(rt, alloc);
    expect_answer(rt, alloc, service, pass, granted, (3, Answer::Done));
    let created = create_session(rt, alloc);
    expect_answer(rt, alloc, service, pass, created, (4, Answer::Done));
    let checked = check(rt, alloc);
    expect_answer(rt, alloc, service, pass, checked, (5, Answer::Granted));
}

// The same beside the threads of both members. True where both end by the stop.
fn talk_beside<
    G: GroupName + Send + Sync,
    C: Courier + Drop + Send + Sync,
    R: Threads + Wait + Abort + Send + Sync,
>(rt: &R, alloc: Global, service: &Service<G, NoGate, C>, pass: &mut Pass<G>) -> bool {
    thread::scope(thread::scope_env(), rt, move |scope| {
        let first = scope.spawn(move || service.pump(rt, alloc, 1));
        let second = scope.spawn(move || service.pump(rt, alloc, 2));
        let (Ok(first), Ok(second)) = (first, second) else {
            return false;
        };
        talk(rt, alloc, service, pass);
        service.stop(rt);
        [first.join(rt), second.join(rt)] == [PumpEnd::Stopped, PumpEnd::Stopped]
    })
}

fn run<
    G: GroupName + Send + Sync,
    C: Courier + Drop + Send + Sync,
    R: Threads + Wait + Abort + Send + Sync,
>(rt: &R, alloc: Global, founding: Founding, courier: C)
    requires names { (founding.group ≡ G.group) × (founding.words ≡ G.vocabulary) × (founding.rows ≡ G.cells) }
    requires members { length founding.rows.sent ≡ founding.group.members }
{
    let service: Service<G, NoGate, C> = founded(rt, alloc, founding, courier);
    let mut pass = new_pass(rt, &service, 1);
    assert!(rt; talk_beside(rt, alloc, &service, &mut pass));
    let mut nodes = service.take_nodes();
    expect_audit(rt, alloc, &mut nodes, &[6, 6]);
    expect_confirmed(rt, &mut nodes, &mut pass);
    drop(nodes);
    drop(pass);
}

// The courier of a seed.
fn run_seed<R: Threads + Wait + Clock + Abort + Copy + Drop + Send + Sync>(
    rt: &R,
    alloc: Global,
    seed: u64,
) {
    let founding = sample_founding(rt, alloc, 2);
    let courier = hostile_courier(rt, alloc, seed);
    run::<Brand, _, _>(rt, alloc, founding, courier);
}

#[test]
fn six_commands_are_answered_by_hostile_hints(rt: HostRuntime) {
    for seed in 0..20 {
        run_seed(&rt, rt.alloc(), seed);
    }
}

// Loses every second hint, gives every third twice, and sweeps in each tenth turn of a member.
#[derive(Drop)]
struct ByTurns<R: Wait + Clock + Drop> {
    channels: Patient<R>,
    told: AtomicU64,
    first: AtomicU64,
    second: AtomicU64,
}

// The next number of a count from 1 on.
fn count(counted: &AtomicU64) -> u64 {
    counted.fetch_add(1, Ordering::SeqCst).wrapping_add(1)
}

impl<R: Wait + Clock + Drop> ByTurns<R> {
    fn turns(&self, member: u32) -> &AtomicU64 {
        if member == 1 {
            &self.first
        } else {
            &self.second
        }
    }

    // A hint, or one of the member itself where none comes for a millisecond.
    fn wait(&self, at: u32) -> Hint {
        let channel = self.channels.channel(at);
        let told = channel
            .1
            .recv_timeout(&self.channels.rt, Duration::from_millis(1));
        match told {
            Ok(hint) => hint,
            Err(_) => Hint {
                from: at,
                number: 0,
            },
        }
    }
}

impl<R: Wait + Clock + Drop> Courier for ByTurns<R> {
    fn tell(&self, to: u32, hint: Hint) {
        let told = count(&self.told);
        if told % 2 == 0 {
            return;
        }
        self.channels.tell(to, hint);
        if told % 3 == 0 {
            self.channels.tell(to, hint);
        }
    }

    fn next(&self, at: u32) -> Wake {
        if count(self.turns(at)) % 10 == 0 {
            return Wake::Sweep;
        }
        Wake::Hint(self.wait(at))
    }
}

#[test]
fn six_commands_are_answered_by_every_tenth_turn(rt: HostRuntime) {
    let courier = ByTurns {
        channels: Patient::found(rt, rt.alloc()),
        told: AtomicU64::new(0),
        first: AtomicU64::new(0),
        second: AtomicU64::new(0),
    };
    let founding = sample_founding(&rt, rt.alloc(), 2);
    run::<Brand, _, _>(&rt, rt.alloc(), founding, courier);
}
