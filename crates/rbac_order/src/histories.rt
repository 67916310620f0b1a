//! Why histories are right: what a history has of each sender, and the lists that have that of each.
ghost use Rattle.std.specs.Prelude.{ℕ, ◌≡◌, ◌≢◌, ◌<◌, ◌+◌, List, length, slice_index_or};
ghost use Rattle.std.specs.List.{AllByRecursion, filter};
ghost use Rattle.rbac_words.specs.declared.message.Submission.{Submission};
ghost use Rattle.rbac_terms.specs.Vocabulary.{Vocabulary};
ghost use Rattle.rbac_words.specs.Group.{Group};
ghost use Rattle.rbac_terms.specs.State.{founding_state};
ghost use Rattle.rbac_words.specs.Stamp.{IsRising, last_stamp, up_to};
ghost use Rattle.rbac_words.specs.Message.{submitted_at, submissions, commands_of, IsLawful};
ghost use Rattle.rbac_words.specs.Front.{IsLegalFront, is_of};
ghost use Rattle.rbac_words.specs.World.{World, Node, nobody};
ghost use Rattle.rbac_words.specs.Right.{all_commands, IsRight, AreHistoriesRight};
ghost use Rattle.rbac_words.specs.Keeping.Member.{Member, IsMember, IsNumber};
ghost use Rattle.rbac_words.specs.Keeping.Members.{HasRead, AreMembers, IsLawfulWorld, world_of};

/// The first step: a member's history has of each sender exactly the sender's commands up to the history's last stamp, also
/// those that were sent and never read.
pub fn the_senders_commands_are_in_a_history()
    ensures own { (v : Member) → IsMember v → filter (is_of v.number) (commands_of v.history) ≡ up_to submitted_at (last_stamp submitted_at (commands_of v.history)) (submissions v.sent) }
    ensures of_another { (receiver sender : Member) → IsMember receiver → IsLawful sender.number sender.group sender.sent → IsNumber receiver.group sender.number → sender.number ≢ receiver.number → HasRead receiver sender → filter (is_of sender.number) (commands_of receiver.history) ≡ up_to submitted_at (last_stamp submitted_at (commands_of receiver.history)) (submissions sender.sent) }
{}

/// The second step: a rising list that has of each member exactly its commands up to the list's last stamp is all commands up
/// to that stamp, so a legal front that has these is right.
pub fn a_list_of_each_members_commands_is_right()
    ensures order { (w : World) (xs : List Submission) → IsLawfulWorld w → IsRising submitted_at xs → AllByRecursion (λ (x : Submission). IsNumber w.group x.stamp.member) xs → ((i : ℕ) → i < length w.nodes → filter (is_of (i + 1)) xs ≡ up_to submitted_at (last_stamp submitted_at xs) (submissions (slice_index_or w.nodes i nobody).sent)) → xs ≡ up_to submitted_at (last_stamp submitted_at xs) (all_commands w) }
    ensures right { (w : World) (v : Node) → IsLawfulWorld w → IsLegalFront (founding_state w.vocabulary) v.history → AllByRecursion (λ (x : Submission). IsNumber w.group x.stamp.member) (commands_of v.history) → ((i : ℕ) → i < length w.nodes → filter (is_of (i + 1)) (commands_of v.history) ≡ up_to submitted_at (last_stamp submitted_at (commands_of v.history)) (submissions (slice_index_or w.nodes i nobody).sent)) → IsRight w v }
{}

/// All commands rise strictly by stamp where sent lists are lawful.
pub fn all_commands_rise()
    ensures { (w : World) → IsLawfulWorld w → IsRising submitted_at (all_commands w) }
{}

/// The members of a group, each of which has read each other one, are a world whose histories are right.
pub fn histories_of_a_group_are_right()
    ensures lawful { (group : Group) (vocabulary : Vocabulary) (members : List Member) → AreMembers group vocabulary members → IsLawfulWorld (world_of group vocabulary members) }
    ensures right { (group : Group) (vocabulary : Vocabulary) (members : List Member) → AreMembers group vocabulary members → AreHistoriesRight (world_of group vocabulary members) }
{}
