//! What processes told that were ahead of their rows.
ghost use Rattle.std.specs.Prelude.{ℕ, ◌⊎◌, List};
ghost use Rattle.rbac_terms.specs.Vocabulary.{Vocabulary};
ghost use Rattle.rbac_words.specs.Group.{Group, IsGroup};
ghost use Rattle.rbac_words.specs.Right.{IsRight, founding_world};
ghost use Rattle.rbac_words.specs.Play.{IsPrefixOf};
ghost use Rattle.rbac_words.specs.Keeping.Member.{Member, node_of};
ghost use Rattle.rbac_words.specs.declared.message.Message.{Message};
ghost use Rattle.rbac_moves.specs.Rows.{rows_after};
ghost use Rattle.rbac_moves.specs.Seal.{HasPartOfRows};
ghost use Rattle.rbac_embedded_member.specs.Calls.{Call, IsCalledInRow, IsObserved, WereSet};
ghost use Rattle.rbac_gated.specs.Gate.{IsCalledBehindAGate};

/// Where each message is set by a process of its member which has taken all of that row, and nothing else, and does not refuse the message,
/// what a process told that had taken more is right among the rows of any later time, where it delivered nothing of a greater clock than
/// what of its own was set; and its history goes on, or ends, as that of each other such process does, of each that is in its row, and of each
/// that only observes, before or after, of the same member or of another: whatever was lost, made anew, or run twice.
pub fn what_was_told_behind_a_gate_stays_right()
    ensures part { (group : Group) (vocabulary : Vocabulary) (sets later : List (ℕ × Message)) (i : ℕ) (u : Member) (calls : List Call) → IsGroup group → WereSet (founding_world group vocabulary) sets → WereSet (rows_after (founding_world group vocabulary) sets) later → IsCalledBehindAGate (rows_after (founding_world group vocabulary) sets) i u calls → HasPartOfRows (rows_after (rows_after (founding_world group vocabulary) sets) later) u }
    ensures right { (group : Group) (vocabulary : Vocabulary) (sets later : List (ℕ × Message)) (i : ℕ) (u : Member) (calls : List Call) → IsGroup group → WereSet (founding_world group vocabulary) sets → WereSet (rows_after (founding_world group vocabulary) sets) later → IsCalledBehindAGate (rows_after (founding_world group vocabulary) sets) i u calls → IsRight (rows_after (rows_after (founding_world group vocabulary) sets) later) (node_of u) }
    ensures one { (group : Group) (vocabulary : Vocabulary) (sets later : List (ℕ × Message)) (i j : ℕ) (u v : Member) (calls others : List Call) → IsGroup group → WereSet (founding_world group vocabulary) sets → WereSet (rows_after (founding_world group vocabulary) sets) later → IsCalledBehindAGate (rows_after (founding_world group vocabulary) sets) i u calls → IsCalledBehindAGate (rows_after (rows_after (founding_world group vocabulary) sets) later) j v others → IsPrefixOf u.history v.history ⊎ IsPrefixOf v.history u.history }
    ensures before_member { (group : Group) (vocabulary : Vocabulary) (sets later : List (ℕ × Message)) (i j : ℕ) (u v : Member) (calls others : List Call) → IsGroup group → WereSet (founding_world group vocabulary) sets → WereSet (rows_after (founding_world group vocabulary) sets) later → IsCalledBehindAGate (rows_after (founding_world group vocabulary) sets) i u calls → IsCalledInRow (rows_after (rows_after (founding_world group vocabulary) sets) later) j v others → IsPrefixOf u.history v.history ⊎ IsPrefixOf v.history u.history }
    ensures after_member { (group : Group) (vocabulary : Vocabulary) (sets later : List (ℕ × Message)) (i j : ℕ) (u v : Member) (calls others : List Call) → IsGroup group → WereSet (founding_world group vocabulary) sets → WereSet (rows_after (founding_world group vocabulary) sets) later → IsCalledInRow (rows_after (founding_world group vocabulary) sets) i u calls → IsCalledBehindAGate (rows_after (rows_after (founding_world group vocabulary) sets) later) j v others → IsPrefixOf u.history v.history ⊎ IsPrefixOf v.history u.history }
    ensures before_observer { (group : Group) (vocabulary : Vocabulary) (sets later : List (ℕ × Message)) (i j : ℕ) (u v : Member) (calls others : List Call) → IsGroup group → WereSet (founding_world group vocabulary) sets → WereSet (rows_after (founding_world group vocabulary) sets) later → IsCalledBehindAGate (rows_after (founding_world group vocabulary) sets) i u calls → IsObserved (rows_after (rows_after (founding_world group vocabulary) sets) later) j v others → IsPrefixOf u.history v.history ⊎ IsPrefixOf v.history u.history }
    ensures after_observer { (group : Group) (vocabulary : Vocabulary) (sets later : List (ℕ × Message)) (i j : ℕ) (u v : Member) (calls others : List Call) → IsGroup group → WereSet (founding_world group vocabulary) sets → WereSet (rows_after (founding_world group vocabulary) sets) later → IsObserved (rows_after (founding_world group vocabulary) sets) i u calls → IsCalledBehindAGate (rows_after (rows_after (founding_world group vocabulary) sets) later) j v others → IsPrefixOf u.history v.history ⊎ IsPrefixOf v.history u.history }
{}
