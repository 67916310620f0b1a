//! A service whose members run in threads, beside callers in threads of their own.
ghost use Rattle.std.specs.Prelude.{◌≡◌, length};

mod pumping;
mod serving;
mod silent;
mod stopping;

use crate::tests::{Founding, founding_of, new_pass};
use crate::{
    ChannelCourier, Courier, Gate, GroupName, Hint, Moment, NoGate, Pass, PumpEnd, Service, Wake,
    audit,
};
use crossbeam_channel::{Receiver, Sender, unbounded};
use rbac_words::{Command, Name, Stamp};
use std::alloc::Global;
use std::marker::Brand;
use std::process::Abort;
use std::sync::Wait;
use std::sync::atomic::{AtomicBool, AtomicU64, Ordering};
use std::thread;
use std::thread::Threads;
use std::time::{Clock, Duration};

// The command that adds a role.
fn add_clerk(rt: &impl Abort, alloc: Global) -> Command {
    let role = Name::read(alloc, b"clerk").expect(rt, "a name");
    Command::AddRole { role }
}

// Whether a command is answered.
fn is_answered<G: GroupName, K: Gate + Drop, C: Courier + Drop, R: Wait + Abort>(
    rt: &R,
    alloc: Global,
    service: &Service<G, K, C>,
    pass: &mut Pass<G>,
) -> bool {
    let called = service.call(rt, alloc, pass, add_clerk(rt, alloc));
    let is_answered = called.is_ok();
    drop(called);
    is_answered
}

// Whether each of so many commands of a caller is answered.
fn are_all_answered<G: GroupName, K: Gate + Drop, C: Courier + Drop, R: Wait + Abort>(
    rt: &R,
    alloc: Global,
    service: &Service<G, K, C>,
    pass: &mut Pass<G>,
    count: u32,
) -> bool {
    for _ in 0..count {
        if !is_answered(rt, alloc, service, pass) {
            return false;
        }
    }
    true
}

// Whether each of so many commands of a new caller of member 1 is answered.
fn are_answered<G: GroupName, K: Gate + Drop, C: Courier + Drop, R: Wait + Abort>(
    rt: &R,
    alloc: Global,
    service: &Service<G, K, C>,
    count: u32,
) -> bool {
    let mut pass = new_pass(rt, service, 1);
    let are_answered = are_all_answered(rt, alloc, service, &mut pass, count);
    drop(pass);
    are_answered
}

// Whether all commands of two callers of member 1 are answered, so many each, beside the threads of two members, and both threads
// end at the stop.
fn run_threads<
    G: GroupName + Send + Sync,
    K: Gate + Drop + Send + Sync,
    C: Courier + Drop + Send + Sync,
    R: Threads + Wait + Abort + Send + Sync,
>(rt: &R, alloc: Global, service: &Service<G, K, C>, count: u32) -> bool {
    thread::scope(thread::scope_env(), rt, move |scope| {
        let first = scope.spawn(move || service.pump(rt, alloc, 1));
        let second = scope.spawn(move || service.pump(rt, alloc, 2));
        let (one, other) = thread::join(
            rt,
            move || are_answered(rt, alloc, service, count),
            move || are_answered(rt, alloc, service, count),
        );
        service.stop(rt);
        let (Ok(first), Ok(second)) = (first, second) else {
            return false;
        };
        let ends = [first.join(rt), second.join(rt)];
        one && other && ends == [PumpEnd::Stopped, PumpEnd::Stopped]
    })
}

// Member 1 has delivered so many commands.
fn expect_audit<G: GroupName, K: Gate + Drop, C: Courier + Drop>(
    rt: &impl Abort,
    alloc: Global,
    service: Service<G, K, C>,
    wanted: usize,
) {
    let mut nodes = service.take_nodes();
    let audited = audit(alloc, &mut nodes).expect(rt, "a group");
    assert_eq!(rt; audited.delivered.first().copied(), Some(wanted));
    drop(audited);
    drop(nodes);
}

// The service of the founding that G names, with these commands done.
fn served<
    G: GroupName + Send + Sync,
    K: Gate + Drop + Send + Sync,
    C: Courier + Drop + Send + Sync,
    R: Threads + Wait + Abort + Send + Sync,
>(rt: &R, alloc: Global, founding: Founding, gate: K, courier: C, count: u32) -> Service<G, K, C>
    requires names { (founding.group ≡ G.group) × (founding.words ≡ G.vocabulary) × (founding.rows ≡ G.cells) }
    requires members { length founding.rows.sent ≡ founding.group.members }
{
    let Founding { group, words, rows } = founding;
    let found = Service::found(alloc, rows, group, words, gate, courier);
    let service: Service<G, K, C> = found.expect(rt, "memory");
    assert!(rt; run_threads(rt, alloc, &service, count));
    service
}

// So many commands of each of two callers, and all of them are delivered.
fn run_with<
    G: GroupName + Send + Sync,
    C: Courier + Drop + Send + Sync,
    R: Threads + Wait + Abort + Send + Sync,
>(rt: &R, alloc: Global, founding: Founding, courier: C, count: u32, delivered: usize)
    requires names { (founding.group ≡ G.group) × (founding.words ≡ G.vocabulary) × (founding.rows ≡ G.cells) }
    requires members { length founding.rows.sent ≡ founding.group.members }
{
    let service: Service<G, NoGate, C> = served(rt, alloc, founding, NoGate, courier, count);
    expect_audit(rt, alloc, service, delivered);
}

// Two members.
fn small_founding(rt: &impl Abort, alloc: Global) -> Founding
    ensures members { result.group.members ≡ 2 }
    ensures rows { length result.rows.sent ≡ 2 }
{
    founding_of(rt, alloc, 2, 1024)
}

#[test]
fn two_callers_are_answered(rt: HostRuntime) {
    let alloc = rt.alloc();
    let courier = ChannelCourier::found(rt, alloc, 2).expect(&rt, "memory");
    let founding = small_founding(&rt, alloc);
    run_with::<Brand, _, _>(&rt, alloc, founding, courier, 100, 200);
}

// Holds the call of the first command until another one is answered, for a million looks at most.
#[derive(Drop)]
struct HoldsFirst<R: Clock + Copy + Drop> {
    rt: R,
    has_answered: AtomicBool,
    gave_up: AtomicBool,
}

fn is_first(stamp: Stamp) -> bool {
    stamp.clock == 1 && stamp.member == 1
}

impl<R: Clock + Copy + Drop> HoldsFirst<R> {
    fn hold(&self) {
        for _ in 0..1_000_000u32 {
            if self.has_answered.load(Ordering::SeqCst) {
                return;
            }
            thread::sleep(&self.rt, Duration::from_micros(50));
        }
        self.gave_up.store(true, Ordering::SeqCst);
    }

    // Whether another command was answered while the first one was held.
    fn has_held(&self) -> bool {
        self.has_answered.load(Ordering::SeqCst) && !self.gave_up.load(Ordering::SeqCst)
    }
}

impl<R: Clock + Copy + Drop> Gate for HoldsFirst<R> {
    fn at(&self, moment: Moment) {
        match moment {
            Moment::Submitted(stamp) if is_first(stamp) => self.hold(),
            Moment::Answered(stamp) if !is_first(stamp) => {
                self.has_answered.store(true, Ordering::SeqCst)
            }
            _ => {}
        }
    }
}

fn run_with_gate<
    G: GroupName + Send + Sync,
    R: Threads + Wait + Clock + Abort + Copy + Drop + Send + Sync,
>(rt: &R, alloc: Global, founding: Founding)
    requires names { (founding.group ≡ G.group) × (founding.words ≡ G.vocabulary) × (founding.rows ≡ G.cells) }
    requires members { length founding.rows.sent ≡ founding.group.members }
{
    let gate = HoldsFirst {
        rt: *rt,
        has_answered: AtomicBool::new(false),
        gave_up: AtomicBool::new(false),
    };
    let courier = ChannelCourier::found(*rt, alloc, 2).expect(rt, "memory");
    let service: Service<G, HoldsFirst<R>, ChannelCourier<R>> = served(
        rt, alloc, founding, gate, courier, 1,
    );
    assert!(rt; service.gate.has_held());
    expect_audit(rt, alloc, service, 2);
}

#[test]
fn a_call_is_held_while_another_is_answered(rt: HostRuntime) {
    let founding = small_founding(&rt, rt.alloc());
    run_with_gate::<Brand, _>(&rt, rt.alloc(), founding);
}

// A channel for each of two members.
#[derive(Drop)]
struct Patient<R: Wait + Drop> {
    rt: R,
    first: (Sender<Hint>, Receiver<Hint>),
    second: (Sender<Hint>, Receiver<Hint>),
}

impl<R: Wait + Drop> Patient<R> {
    fn found(rt: R, alloc: Global) -> Patient<R>
    where
        R: Abort,
    {
        let first = unbounded(alloc).expect(&rt, "memory");
        let second = unbounded(alloc).expect(&rt, "memory");
        Patient { rt, first, second }
    }

    fn channel(&self, member: u32) -> &(Sender<Hint>, Receiver<Hint>) {
        if member == 1 {
            &self.first
        } else {
            &self.second
        }
    }
}

// It waits for a hint, and never sweeps.
impl<R: Wait + Drop> Courier for Patient<R> {
    fn tell(&self, to: u32, hint: Hint) {
        let _lost = self.channel(to).0.send(&self.rt, hint);
    }

    fn next(&self, at: u32) -> Wake {
        match self.channel(at).1.recv(&self.rt) {
            Ok(hint) => Wake::Hint(hint),
            Err(_) => Wake::Sweep,
        }
    }
}

// Where no hint is lost, nobody has to sweep: neither for an answer, nor to see the stop.
#[test]
fn hints_alone_bring_answers_and_the_stop(rt: HostRuntime) {
    let alloc = rt.alloc();
    let courier = Patient::found(rt, alloc);
    run_with::<Brand, _, _>(&rt, alloc, small_founding(&rt, alloc), courier, 6, 12);
}

// Draws by a seed what comes of each hint: it is lost, given twice, kept back until a later one is, or given. A wake may be a sweep,
// or tell of members that the group does not have, of the member itself, or of a number that was read.
#[derive(Drop)]
struct Hostile<R: Wait + Clock + Drop> {
    channels: Patient<R>,
    kept: (Sender<(u32, Hint)>, Receiver<(u32, Hint)>),
    drawn: AtomicU64,
}

impl<R: Wait + Clock + Drop> Hostile<R> {
    // The next one of eight.
    fn draw(&self) -> u64 {
        let drawn = self
            .drawn
            .fetch_add(0x9E37_79B9_7F4A_7C15, Ordering::SeqCst);
        (drawn ^ drawn >> 31).wrapping_mul(0xBF58_476D_1CE4_E5B9) >> 61
    }

    // Keeps a hint back, and gives the one that was kept before it.
    fn keep(&self, to: u32, hint: Hint) {
        let before = self.kept.1.try_recv(&self.channels.rt);
        let _lost = self.kept.0.send(&self.channels.rt, (to, hint));
        if let Ok((to, hint)) = before {
            self.channels.tell(to, hint);
        }
    }

    // A hint, or a sweep where none comes for five milliseconds.
    fn wait(&self, at: u32) -> Wake {
        let channel = self.channels.channel(at);
        match channel
            .1
            .recv_timeout(&self.channels.rt, Duration::from_millis(5))
        {
            Ok(hint) => Wake::Hint(hint),
            Err(_) => Wake::Sweep,
        }
    }
}

impl<R: Wait + Clock + Drop> Courier for Hostile<R> {
    fn tell(&self, to: u32, hint: Hint) {
        match self.draw() {
            0 | 1 => {}
            2 | 3 => {
                self.channels.tell(to, hint);
                self.channels.tell(to, hint);
            }
            4 | 5 => self.keep(to, hint),
            _ => self.channels.tell(to, hint),
        }
    }

    fn next(&self, at: u32) -> Wake {
        let (from, number) = match self.draw() {
            0 => return Wake::Sweep,
            1 => (0, 1),
            2 => (3, usize::MAX),
            3 => (u32::MAX, 1),
            4 => (at, usize::MAX),
            // the other one's first message
            5 => (3 - at.min(3), 1),
            _ => return self.wait(at),
        };
        Wake::Hint(Hint { from, number })
    }
}

fn hostile_courier<R: Wait + Clock + Abort + Copy + Drop>(
    rt: &R,
    alloc: Global,
    seed: u64,
) -> Hostile<R> {
    Hostile {
        channels: Patient::found(*rt, alloc),
        kept: unbounded(alloc).expect(rt, "memory"),
        drawn: AtomicU64::new(seed),
    }
}

// Two callers of six commands each, and the courier of a seed.
fn run_seed<R: Threads + Wait + Clock + Abort + Copy + Drop + Send + Sync>(
    rt: &R,
    alloc: Global,
    seed: u64,
) {
    let courier = hostile_courier(rt, alloc, seed);
    let founding = small_founding(rt, alloc);
    run_with::<Brand, _, _>(rt, alloc, founding, courier, 6, 12);
}

#[test]
fn hostile_hints_lose_no_answer(rt: HostRuntime) {
    for seed in 0..20 {
        run_seed(&rt, rt.alloc(), seed);
    }
}
