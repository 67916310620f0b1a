//! Client lines applied to one policy, in order. A line that is refused is told, and of any other line nothing is.
ghost use Rattle.std.specs.Prelude.{◌≡◌, ◌≢◌, ◌++◌, true, Ok, IfOk, IfSome, OnOk, OnErr};
ghost use Rattle.rbac_terms.specs.Effect.{effect};
ghost use Rattle.rbac_lines.specs.Text.{refused_text, line_refusal_text};
ghost use Rattle.rbac_telling.specs.Applying.{is_known, served_after, served_text, is_not_served};

use line_engine::Taking;
use rbac_decide::Policy;
use rbac_lines::{DeskRefusal, LineRefusal, Scratch, read_client};
use rbac_terms::Command;
use std::alloc::{AllocError, Global};
use std::fmt::Display;
use std::io::Write;
use std::marker::Model;

/// The policy that each member of a group of so many has, once it has delivered what was asked.
#[derive(Drop)]
pub struct Served {
    members: u32,
    policy: Policy,
}

impl Model for Served {
    ghost use Rattle.rbac_telling.specs.Applying.{Served as ServedValue};

    ghost Value = { ServedValue };

    ghost view = { λ s. record { members = s.members; policy = s.policy } };
}

impl Served {
    /// A group of so many members, each with this policy.
    pub fn found(members: u32, policy: Policy) -> Served
        ensures { result ≡ record { members = members; policy = policy } }
    {
        Served { members, policy }
    }

    /// The policy.
    pub fn policy(&self) -> &Policy
        ensures { result.now ≡ self.now.policy }
    {
        &self.policy
    }

    fn is_known(&self, at: u32) -> bool
        ensures { result ≡ is_known self.now at }
    {
        1 <= at && at <= self.members
    }

    // Applies a command that a member was asked. A check or a review changes nothing, and is not answered.
    fn apply(&mut self, alloc: Global, command: &Command) -> Result<(), AllocError>
        ensures applied { OnOk result (self.new ≡ record self.old { policy = effect command.now self.old.policy }) }
        ensures unchanged { OnErr result (self.new ≡ self.old) }
    {
        match command {
            Command::CheckAccess { .. } | Command::Review(_) => Ok(()),
            _ => self.change(alloc, command),
        }
    }

    // The same of any command.
    fn change(&mut self, alloc: Global, command: &Command) -> Result<(), AllocError>
        ensures applied { OnOk result (self.new ≡ record self.old { policy = effect command.now self.old.policy }) }
        ensures unchanged { OnErr result (self.new ≡ self.old) }
    {
        let answer = self.policy.apply(alloc, command)?;
        drop(answer);
        Ok(())
    }
}

/// A policy takes client lines.
pub(crate) struct Applying;

// Puts a text behind what the buffer has.
fn put<D: Display + Drop>(text: &mut Vec<u8>, shown: D) -> Result<(), AllocError>
    ensures { OnOk result (IfSome (D.output shown) (λ own. text.new.items ≡ text.old.items ++ own)) }
{
    text.write_fmt(shown).map_err(|_| AllocError)
}

// Why a line is not taken.
fn put_refused(text: &mut Vec<u8>, number: u64, word: &str) -> Result<(), AllocError>
    ensures { OnOk result (text.new.items ≡ text.old.items ++ refused_text number word.now) }
{
    put(
        text,
        format_args!("{{\"line\":{number},\"refused\":\"{word}\"}}\n"),
    )
}

// A line that asks for no command, unless memory ran out. Ok says that it is refused.
fn refuse(text: &mut Vec<u8>, number: u64, refusal: LineRefusal) -> Result<bool, AllocError>
    ensures text { OnOk result (text.new.items ≡ text.old.items ++ line_refusal_text number refusal) }
    ensures refused { IfOk result (λ is_refused. is_refused ≡ true) }
    ensures other { OnOk result (refusal ≢ LineRefusal.NoMemory) }
{
    match refusal {
        LineRefusal::NoMemory => Err(AllocError),
        other => {
            put_refused(text, number, other.word())?;
            Ok(true)
        }
    }
}

// A command of the member of this number. Ok says whether there is none.
fn ask(
    served: &mut Served,
    alloc: Global,
    number: u64,
    at: u32,
    command: &Command,
    text: &mut Vec<u8>,
) -> Result<bool, AllocError>
    ensures text { OnOk result (text.new.items ≡ text.old.items ++ served_text served.old number (Ok (at, command.now))) }
    ensures refused { IfOk result (λ is_refused. is_refused ≡ is_not_served served.old (Ok (at, command.now))) }
    ensures stepped { OnOk result (served.new ≡ served_after served.old (Ok (at, command.now))) }
    ensures unchanged { OnErr result (served.new ≡ served.old) }
{
    if !served.is_known(at) {
        put_refused(text, number, DeskRefusal::UnknownMember.word())?;
        return Ok(true);
    }
    served.apply(alloc, command)?;
    Ok(false)
}

impl Taking for Applying {
    type Over = Served;

    type Scratch = Scratch;

    ghost use Rattle.rbac_telling.specs.Applying.{Served as ServedValue, AppliesLine};

    ghost State = { ServedValue };

    ghost state = { λ s. s };

    ghost takes = { AppliesLine };

    fn scratch(alloc: Global) -> Scratch {
        Scratch::new(alloc)
    }

    fn take_line(
        served: &mut Served,
        alloc: Global,
        scratch: &mut Scratch,
        number: u64,
        line: &[u8],
        text: &mut Vec<u8>,
    ) -> Result<bool, AllocError> {
        match read_client(alloc, line, scratch) {
            Ok((at, command)) => {
                let is_refused = ask(served, alloc, number, at, &command, text);
                drop(command);
                is_refused
            }
            Err(refusal) => refuse(text, number, refusal),
        }
    }
}
