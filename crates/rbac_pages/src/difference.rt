//! What one policy has that another has not, as lines of their dumps.
ghost use Rattle.std.specs.Prelude.{◌≡◌, ◌++◌, List, ℕ, codes, IfOk, OnOk};
ghost use Rattle.sorted_keys.specs.Keys.{has};
ghost use Rattle.rbac_text.specs.Lines.{asking_line};
ghost use Rattle.rbac_pages.specs.DifferenceText.{line_cmp, is_line_of, only_in, marked_text, difference_text};

use crate::text::{Teller, put_all};
use rbac_decide::Policy;
use rbac_dump::commands_of;
use rbac_terms::Command;
use rbac_text::{COMMAND_ROOM, client_lines};
use std::alloc::{AllocError, Global};
use std::collections::BTreeSet;
use std::marker::Model;
use std::slice;

// The line by which member 1 is asked a command.
fn line_of(alloc: Global, command: &Command) -> Result<Vec<u8>, AllocError>
    ensures { IfOk result (λ line. line.items ≡ asking_line command.now) }
{
    let line = client_lines(alloc, slice::from_ref(command))?;
    Ok(line)
}

/// The lines of some commands in order, so that one is soon found among them.
#[derive(Drop)]
struct LineSet {
    lines: BTreeSet<Vec<u8>>,
}

impl Model for LineSet {
    ghost use Rattle.std.specs.Prelude.{List, ℕ, map};

    ghost Value = { List (List ℕ) };

    ghost view = { λ set. map (λ line. line.items) set.lines.keys };
}

impl LineSet {
    // The lines of these commands.
    fn of(alloc: Global, commands: &[Command]) -> Result<LineSet, AllocError>
        ensures { IfOk result (λ set. (line : List ℕ) → has line_cmp line set ≡ is_line_of commands.now line) }
    {
        let mut lines = BTreeSet::new(alloc);
        for command in commands {
            lines.insert(line_of(alloc, command)?)?;
        }
        Ok(LineSet { lines })
    }

    fn contains(&self, line: &Vec<u8>) -> bool
        ensures { result ≡ has line_cmp line.now.items self.now }
    {
        self.lines.contains(line)
    }
}

/// The line of a command behind a mark, unless it is one of others.
#[derive(Drop)]
struct OnlyTeller<'m> {
    alloc: Global,
    mark: &'m str,
    others: LineSet,
}

impl Teller<Command, u8> for OnlyTeller<'_> {
    ghost use Rattle.std.specs.Prelude.{[], ◌++◌, if◌then◌else◌};
    ghost use Rattle.sorted_keys.specs.Keys.{has};
    ghost use Rattle.rbac_text.specs.Lines.{asking_line};
    ghost use Rattle.rbac_pages.specs.DifferenceText.{line_cmp};

    ghost told_of = { λ teller command. if has line_cmp (asking_line command) teller.others then [] else teller.mark.now ++ asking_line command };

    fn put(&self, text: &mut Vec<u8>, command: &Command) -> Result<(), AllocError> {
        let line = line_of(self.alloc, command)?;
        if self.others.contains(&line) {
            return Ok(());
        }
        text.extend_from_slice(self.mark.as_bytes())?;
        text.extend_from_slice(&line)
    }
}

// The lines of those commands that are none of the others', each behind a mark.
fn put_only(
    text: &mut Vec<u8>,
    alloc: Global,
    mark: &str,
    commands: &[Command],
    others: &[Command],
) -> Result<(), AllocError>
    ensures { OnOk result (text.new.items ≡ text.old.items ++ marked_text mark.now (only_in commands.now others.now)) }
{
    let others = LineSet::of(alloc, others)?;
    let teller = OnlyTeller {
        alloc,
        mark,
        others,
    };
    put_all(text, &teller, commands)
}

// What each list of commands has that the other has not.
fn difference(alloc: Global, before: &[Command], after: &[Command]) -> Result<Vec<u8>, AllocError>
    ensures { IfOk result (λ text. text.items ≡ marked_text (codes "- ") (only_in before.now after.now) ++ marked_text (codes "+ ") (only_in after.now before.now)) }
{
    let mut text = Vec::new(alloc);
    put_only(&mut text, alloc, "- ", before, after)?;
    put_only(&mut text, alloc, "+ ", after, before)?;
    Ok(text)
}

/// The lines of the dump of one policy that the dump of another has not, each behind "- ", and then those that only the other has, each
/// behind "+ ".
///
/// # Errors
/// `AllocError` where there is no memory for them.
pub fn difference_lines(alloc: Global, from: &Policy, to: &Policy) -> Result<Vec<u8>, AllocError>
    ensures { IfOk result (λ text. text.items ≡ difference_text from.now to.now) }
{
    let before = commands_of(alloc, from, COMMAND_ROOM)?;
    let after = commands_of(alloc, to, COMMAND_ROOM)?;
    difference(alloc, &before, &after)
}
