//! What members keep, and what of a world a member knows.
ghost use Rattle.std.specs.Prelude.{ℕ, ◌≡◌, ◌≢◌, ◌<◌, ◌+◌, true, None, Some, List, length, slice_set};
ghost use Rattle.std.specs.List.{AllByRecursion};
ghost use Rattle.rbac_terms.specs.declared.command.Command.{Command};
ghost use Rattle.rbac_words.specs.declared.message.Message.{Message};
ghost use Rattle.rbac_words.specs.declared.message.Submission.{Submission};
ghost use Rattle.rbac_words.specs.declared.stamp.Stamp.{Stamp};
ghost use Rattle.rbac_terms.specs.Vocabulary.{Vocabulary};
ghost use Rattle.rbac_words.specs.Group.{Group, IsGroup};
ghost use Rattle.rbac_words.specs.Stamp.{IsBefore, has_passed, last_stamp};
ghost use Rattle.rbac_words.specs.Message.{submitted_at, commands_of};
ghost use Rattle.rbac_words.specs.World.{submit_refusal, receive_refusal, room_refusal, message, heard_commands, is_stable, due};
ghost use Rattle.rbac_words.specs.Keeping.Member.{Member, IsMember, IsNumber, IsNext, node_of, latest_of, founded, known, submitted, received, deliver_due, due_at, is_passed_by_all};
ghost use Rattle.rbac_words.specs.Keeping.Members.{AreMembers, member_at, world_of};

/// A member is founded with what members keep, and keeps it by a submit, by the receipt of a sender's next message and by a
/// delivery.
pub fn each_move_keeps_a_member()
    ensures founded { (group : Group) (number : ℕ) (vocabulary : Vocabulary) → IsGroup group → IsNumber group number → IsMember (founded group number vocabulary) }
    ensures submitted { (v : Member) (caller serial : ℕ) (commands : List Command) → IsMember v → submit_refusal v.group (node_of v) caller serial (length commands) ≡ None → IsMember (submitted v caller serial commands) }
    ensures received { (v : Member) (k : ℕ) (m : Message) → IsMember v → IsNext v k m → room_refusal v.group (node_of v) m ≡ None → IsMember (received v k m) }
    ensures delivered { (v : Member) → IsMember v → IsMember (deliver_due v (due_at v)) }
{}

/// Each other member than that of the last delivered command has passed that command, and what is held lies above it.
pub fn what_members_keep_of_the_last_delivery()
    ensures passed { (v : Member) (t : Stamp) (k : ℕ) → IsMember v → last_stamp submitted_at (commands_of v.history) ≡ Some t → IsNumber v.group k → k ≢ v.number → k ≢ t.member → has_passed (latest_of v k) t ≡ true }
    ensures held { (v : Member) (t : Stamp) → IsMember v → last_stamp submitted_at (commands_of v.history) ≡ Some t → AllByRecursion (λ (x : Submission). IsBefore t x.stamp) v.held }
{}

/// The members of a group stay members of a group by a submit, a receipt and a delivery of one of them.
pub fn each_move_keeps_a_group()
    ensures submitted { (group : Group) (vocabulary : Vocabulary) (members : List Member) (i caller serial : ℕ) (commands : List Command) → AreMembers group vocabulary members → i < length members → submit_refusal group (node_of (member_at members i)) caller serial (length commands) ≡ None → AreMembers group vocabulary (slice_set members i (submitted (member_at members i) caller serial commands)) }
    ensures received { (group : Group) (vocabulary : Vocabulary) (members : List Member) (i j n : ℕ) → AreMembers group vocabulary members → i < length members → j < length members → j ≢ i → receive_refusal group (node_of (member_at members i)) (node_of (member_at members j)) n ≡ None → AreMembers group vocabulary (slice_set members i (received (member_at members i) (j + 1) (message (node_of (member_at members j)) n))) }
    ensures delivered { (group : Group) (vocabulary : Vocabulary) (members : List Member) (i : ℕ) → AreMembers group vocabulary members → i < length members → AreMembers group vocabulary (slice_set members i (deliver_due (member_at members i) (due_at (member_at members i)))) }
{}

/// What a member has heard is what it delivered and holds, a command is stable where the latest stamps of all others have
/// passed it, and the least held command is due where it is stable.
pub fn what_was_heard_is_known()
    ensures heard { (group : Group) (vocabulary : Vocabulary) (members : List Member) (i : ℕ) → AreMembers group vocabulary members → i < length members → heard_commands (world_of group vocabulary members) (node_of (member_at members i)) ≡ known (member_at members i) }
    ensures stable { (group : Group) (vocabulary : Vocabulary) (members : List Member) (i : ℕ) (x : Submission) → AreMembers group vocabulary members → i < length members → is_stable (world_of group vocabulary members) (node_of (member_at members i)) x ≡ is_passed_by_all (member_at members i) x }
    ensures due { (group : Group) (vocabulary : Vocabulary) (members : List Member) (i : ℕ) → AreMembers group vocabulary members → i < length members → due (world_of group vocabulary members) (node_of (member_at members i)) ≡ due_at (member_at members i) }
{}
