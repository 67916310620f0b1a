//! A desk with a pass for each member.
ghost use Rattle.std.specs.Prelude.{◌≡◌, ◌≢◌, true, false};
ghost use Rattle.rbac_program.specs.Serving.{EndsWaiting, PassOf, Told};

use rbac_lines::{Desk, DeskRefusal};
use rbac_service::{
    AwaitRefusal, CallRefusal, Courier, Gate, GroupName, Pass, Service, ServiceRefusal,
};
use rbac_words::{Answer, Command};
use std::alloc::Global;
use std::sync::Wait;

/// Answers each command by the pass of its member, in order of number. It waits for the answer.
#[derive(Drop)]
pub(crate) struct PassDesk<'a, G: GroupName, K: Gate + Drop, C: Courier + Drop, T: Wait> {
    pub(crate) rt: &'a T,
    pub(crate) service: &'a Service<G, K, C>,
    pub(crate) passes: Vec<Pass<G>>,
}

// A pass that its member does not know is no longer answered: it is shown as a stop.
fn submit_refusal(refusal: ServiceRefusal) -> DeskRefusal
    ensures { result ≢ DeskRefusal.UnknownMember }
{
    match refusal {
        ServiceRefusal::Stopped | ServiceRefusal::Foreign => DeskRefusal::Stopped,
        ServiceRefusal::Busy => DeskRefusal::Busy,
        ServiceRefusal::ClockFull => DeskRefusal::ClockFull,
        ServiceRefusal::SentFull => DeskRefusal::SentFull,
        ServiceRefusal::NoMemory => DeskRefusal::NoMemory,
    }
}

fn await_refusal(refusal: AwaitRefusal) -> DeskRefusal
    ensures known { result ≢ DeskRefusal.UnknownMember }
    ensures waiting { EndsWaiting result }
{
    match refusal {
        AwaitRefusal::Stopped(ticket) => {
            drop(ticket);
            DeskRefusal::Stopped
        }
        AwaitRefusal::NoMemory(ticket) => {
            drop(ticket);
            DeskRefusal::NoMemory
        }
    }
}

// Whether the pass of this member stands at its place.
fn has_pass<G: GroupName>(passes: &[Pass<G>], at: u32) -> bool
    ensures pass { result ≡ true → PassOf passes.now at }
    ensures none { result ≡ false → PassOf passes.now at → ⊥ }
{
    0 < at && at as usize <= passes.len() && passes[at as usize - 1].member() == at
}

// Asks for a command by a pass, and waits for the answer.
fn ask<G: GroupName, K: Gate + Drop, C: Courier + Drop, T: Wait>(
    rt: &T,
    alloc: Global,
    service: &Service<G, K, C>,
    pass: &mut Pass<G>,
    command: Command,
) -> Result<Answer, DeskRefusal>
    ensures told { Told pass.old command result pass.new }
{
    match service.call(rt, alloc, pass, command) {
        Ok(receipt) => Ok(receipt.answer),
        Err(CallRefusal::Submit(refusal)) => Err(submit_refusal(refusal)),
        Err(CallRefusal::Await(refusal)) => Err(await_refusal(refusal)),
    }
}

impl<'a, G: GroupName, K: Gate + Drop, C: Courier + Drop, T: Wait> Desk
    for PassDesk<'a, G, K, C, T> {
    ghost use Rattle.rbac_program.specs.Serving.{AsksPasses};

    ghost asks = { λ old at command reply new. AsksPasses old.passes.items at command reply new.passes.items };

    fn call(&mut self, alloc: Global, at: u32, command: Command) -> Result<Answer, DeskRefusal> {
        if !has_pass(&self.passes, at) {
            drop(command);
            return Err(DeskRefusal::UnknownMember);
        }
        let pass = &mut self.passes[at as usize - 1];
        ask(self.rt, alloc, self.service, pass, command)
    }
}
