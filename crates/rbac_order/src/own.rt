//! What follows for a member of what it takes of its own row.
ghost use Rattle.std.specs.Prelude.{ℕ, ◌≡◌, ◌≢◌, ◌+◌, [], ◌∷◌, ◌++◌, List, length, None};
ghost use Rattle.std.specs.List.{AllByRecursion};
ghost use Rattle.rbac_terms.specs.declared.command.Command.{Command};
ghost use Rattle.rbac_words.specs.Stamp.{IsBefore};
ghost use Rattle.rbac_words.specs.Message.{stamp_of, IsLawful};
ghost use Rattle.rbac_words.specs.World.{submit_refusal};
ghost use Rattle.rbac_words.specs.Keeping.Member.{Member, IsMember, node_of, known, batch, submitted};
ghost use Rattle.rbac_words.specs.Keeping.Members.{HasReadOf};
ghost use Rattle.rbac_words.specs.declared.message.Message.{Message};
ghost use Rattle.rbac_words.specs.declared.message.Submission.{Submission};
ghost use Rattle.rbac_words.specs.Keeping.Own.{own_refusal, took_own};

/// A member that takes a message of its own row, which is not refused, keeps what members keep and what it has taken of the others;
/// the message lies above all that the member knows, so above all that it delivered, and its row stays lawful. What stands in a
/// lawful row is never refused in its turn; and a submit is nothing but taking the message that the member sends next.
pub fn a_member_takes_its_own_messages()
    ensures kept { (v : Member) (number : ℕ) (m : Message) → IsMember v → own_refusal v number m ≡ None → IsMember (took_own v m) }
    ensures read { (v : Member) (number k : ℕ) (m : Message) (messages : List Message) → IsMember v → own_refusal v number m ≡ None → k ≢ v.number → HasReadOf v k messages → HasReadOf (took_own v m) k messages }
    ensures above_all { (v : Member) (number : ℕ) (m : Message) → IsMember v → own_refusal v number m ≡ None → AllByRecursion (λ (x : Submission). IsBefore x.stamp (stamp_of m)) (known v) }
    ensures in_turn { (v : Member) (number : ℕ) (m : Message) → own_refusal v number m ≡ None → number ≡ length v.sent + 1 }
    ensures lawful { (v : Member) (number : ℕ) (m : Message) → IsMember v → own_refusal v number m ≡ None → IsLawful v.number v.group (v.sent ++ m ∷ []) }
    ensures never_refused { (v : Member) (m : Message) (more : List Message) → IsMember v → IsLawful v.number v.group (v.sent ++ m ∷ more) → own_refusal v (length v.sent + 1) m ≡ None }
    ensures as_submitted { (v : Member) (caller serial : ℕ) (commands : List Command) → submitted v caller serial commands ≡ took_own v (batch v caller serial commands) }
    ensures may_submit { (v : Member) (caller serial : ℕ) (commands : List Command) → IsMember v → submit_refusal v.group (node_of v) caller serial (length commands) ≡ None → own_refusal v (length v.sent + 1) (batch v caller serial commands) ≡ None }
{}
