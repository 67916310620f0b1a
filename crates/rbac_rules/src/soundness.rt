//! What each command keeps.
ghost use Rattle.rbac_terms.specs.Effect.{effect};
ghost use Rattle.rbac_terms.specs.Vocabulary.{Vocabulary, IsVocabulary};
ghost use Rattle.rbac_terms.specs.Sound.{IsSound, BringsASet};
ghost use Rattle.rbac_terms.specs.State.{State, founding_state};
ghost use Rattle.rbac_terms.specs.declared.command.Command.{Command};

/// A policy is sound as it is founded, and each command leaves it so, if the roles that the command brings are a set.
pub fn each_command_keeps_a_policy_sound()
    ensures founding { (vocabulary : Vocabulary) → IsVocabulary vocabulary → IsSound (founding_state vocabulary) }
    ensures command { (c : Command) (s : State) → BringsASet c → IsSound s → IsSound (effect c s) }
{}
