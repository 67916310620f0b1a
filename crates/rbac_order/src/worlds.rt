//! Worlds, their steps, and what holds after any list of events.
ghost use Rattle.std.specs.Prelude.{ℕ, ◌≡◌, ◌⊎◌, ◌<◌, ◌++◌, List, length, slice_index_or, Ok, None, IfErr};
ghost use Rattle.rbac_words.specs.declared.event.Event.{Event};
ghost use Rattle.rbac_words.specs.declared.event.Event.TheVariants.{Deliver};
ghost use Rattle.rbac_words.specs.declared.event.Outcome.TheVariants.{Delivered};
ghost use Rattle.rbac_terms.specs.Vocabulary.{Vocabulary};
ghost use Rattle.rbac_words.specs.Group.{Group, IsGroup};
ghost use Rattle.rbac_words.specs.Message.{commands_of};
ghost use Rattle.rbac_words.specs.Right.{all_commands, AreHistoriesRight, founding_world};
ghost use Rattle.rbac_words.specs.Play.{world_after, outcomes, IsReadToEnd, IsPrefixOf};
ghost use Rattle.rbac_words.specs.Keeping.Members.{HasMembers};
ghost use Rattle.rbac_words.specs.World.{World, node, nobody, step, step_outcome};

/// A refused event changes nothing.
pub fn a_refusal_changes_nothing()
    ensures { (w : World) (e : Event) → IfErr (step_outcome w e) (λ _. step w e ≡ w) }
{}

/// In the founding world each history is right.
pub fn a_founding_is_right()
    ensures { (group : Group) (vocabulary : Vocabulary) → AreHistoriesRight (founding_world group vocabulary) }
{}

/// Events are played one after the other, and each has one answer.
pub fn events_are_played_in_turn()
    ensures world { (w : World) (es fs : List Event) → world_after w (es ++ fs) ≡ world_after (world_after w es) fs }
    ensures outcomes { (w : World) (es fs : List Event) → outcomes w (es ++ fs) ≡ outcomes w es ++ outcomes (world_after w es) fs }
    ensures count { (w : World) (es : List Event) → length (outcomes w es) ≡ length es }
{}

/// The founding world is that of members of a group, and each step leaves such a world.
pub fn each_step_keeps_a_group()
    ensures founding { (group : Group) (vocabulary : Vocabulary) → IsGroup group → HasMembers group vocabulary (founding_world group vocabulary) }
    ensures step { (group : Group) (vocabulary : Vocabulary) (w : World) (e : Event) → HasMembers group vocabulary w → HasMembers group vocabulary (step w e) }
{}

/// After any list of events each history is all commands submitted anywhere up to its last stamp, in stamp order, each with
/// the answer that the commands of smaller stamp give.
pub fn histories_are_always_right()
    ensures { (group : Group) (vocabulary : Vocabulary) (es : List Event) → IsGroup group → AreHistoriesRight (world_after (founding_world group vocabulary) es) }
{}

/// After any list of events one of two histories is a prefix of the other, answers included.
pub fn histories_are_one()
    ensures { (group : Group) (vocabulary : Vocabulary) (es : List Event) (i j : ℕ) → IsGroup group → i < length (world_after (founding_world group vocabulary) es).nodes → j < length (world_after (founding_world group vocabulary) es).nodes → IsPrefixOf (slice_index_or (world_after (founding_world group vocabulary) es).nodes i nobody).history (slice_index_or (world_after (founding_world group vocabulary) es).nodes j nobody).history ⊎ IsPrefixOf (slice_index_or (world_after (founding_world group vocabulary) es).nodes j nobody).history (slice_index_or (world_after (founding_world group vocabulary) es).nodes i nobody).history }
{}

/// Where each member has read all that each other one sent, and a delivery gives nothing, a history is all commands.
pub fn all_that_was_read_is_delivered()
    ensures { (group : Group) (vocabulary : Vocabulary) (es : List Event) (at : ℕ) → IsGroup group → IsReadToEnd (world_after (founding_world group vocabulary) es) → step_outcome (world_after (founding_world group vocabulary) es) (Deliver at) ≡ Ok (Delivered None) → commands_of (node (world_after (founding_world group vocabulary) es) at).history ≡ all_commands (world_after (founding_world group vocabulary) es) }
{}
