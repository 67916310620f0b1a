//! A policy told as client lines: the commands of its dump, each as the line by which a member is asked it. A program that sends
//! them makes the policy again.
ghost use Rattle.std.specs.Prelude.{◌≡◌, map, IfOk, OnOk, Ok};
ghost use Rattle.std.specs.List.{AllByRecursion as Each};
ghost use Rattle.line_engine.specs.Lines.{lines};
ghost use Rattle.rbac_terms.specs.Replay.{state_after, replies};
ghost use Rattle.rbac_terms.specs.State.{founding_state};
ghost use Rattle.rbac_terms.specs.declared.answer.Answer.TheVariants.{Done};
ghost use Rattle.rbac_text.specs.Client.{client};
ghost use Rattle.rbac_text.specs.Lines.{room};
ghost use Rattle.rbac_dump.specs.Dump.{dump_of};
ghost use Rattle.rbac_dump.specs.DumpText.{dump_text, IsReadBack};

use crate::dump::commands_of;
use rbac_decide::Policy;
use rbac_text::{COMMAND_ROOM, client_lines};
use std::alloc::{AllocError, Global};

/// The lines of the dump of a policy, in order: for each thing that it holds a line, by which member 1 is asked the command that makes it,
/// and for a set or a session that would take more than 65,536 bytes some lines. Where a group or a policy that was just founded with this
/// policy's vocabulary is asked them, each is answered Done, and they make this policy again.
///
/// # Errors
/// `AllocError` where there is no memory for them.
pub fn dump_lines(alloc: Global, policy: &Policy) -> Result<Vec<u8>, AllocError>
    ensures text { IfOk result (λ text. text.items ≡ dump_text policy.now) }
    ensures asks { IfOk result (λ text. map client (lines text.items) ≡ map (λ command. Ok (1, command)) (dump_of room policy.now)) }
    ensures reads { OnOk result (IsReadBack policy.now) }
    ensures made { OnOk result (state_after (founding_state policy.now.vocabulary) (dump_of room policy.now) ≡ policy.now) }
    ensures done { OnOk result (Each (λ answer. answer ≡ Done) (replies (founding_state policy.now.vocabulary) (dump_of room policy.now))) }
{
    policy.invariants();
    let commands = commands_of(alloc, policy, COMMAND_ROOM)?;
    client_lines(alloc, &commands)
}
