//! What a dump makes, as a law about definitions alone.
ghost use Rattle.std.specs.Prelude.{ℕ, ◌≡◌, ◌≤◌, length};
ghost use Rattle.std.specs.List.{AllByRecursion as Each};
ghost use Rattle.rbac_terms.specs.Replay.{state_after, replies};
ghost use Rattle.rbac_terms.specs.Sound.{IsSound, BringsASet};
ghost use Rattle.rbac_terms.specs.State.{State, founding_state};
ghost use Rattle.rbac_terms.specs.declared.answer.Answer.TheVariants.{Done};
ghost use Rattle.rbac_text.specs.Command.{command_fields};
ghost use Rattle.rbac_text.specs.CommandText.{AreFields, command_text};
ghost use Rattle.rbac_dump.specs.Dump.{dump_of, least_room};

/// The dump of a sound state, given to a policy just founded with its vocabulary, makes that very state. Each of its commands is
/// answered Done, and the roles that it brings are a set. Each has a text for which there is room, if there is any for names: the
/// fields of a command are names of at most 64 bytes, sets of them, and numbers of 32 bits.
pub fn a_dump_makes_its_state()
    ensures made { (room : ℕ) (s : State) → IsSound s → state_after (founding_state s.vocabulary) (dump_of room s) ≡ s }
    ensures done { (room : ℕ) (s : State) → IsSound s → Each (λ answer. answer ≡ Done) (replies (founding_state s.vocabulary) (dump_of room s)) }
    ensures sets { (room : ℕ) (s : State) → IsSound s → Each BringsASet (dump_of room s) }
    ensures fits { (room : ℕ) (s : State) → least_room ≤ room → Each (λ command. AreFields (command_fields command) → length (command_text command) ≤ room) (dump_of room s) }
{}
