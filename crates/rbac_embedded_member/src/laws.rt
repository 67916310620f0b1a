//! What follows for members of how each of them was called.
ghost use Rattle.std.specs.Prelude.{ℕ, false, ◌≡◌, ◌<◌, ◌≤◌, ◌⊎◌, ◌++◌, List, length};
ghost use Rattle.std.specs.List.{AllByRecursion as Each};
ghost use Rattle.rbac_terms.specs.Vocabulary.{Vocabulary};
ghost use Rattle.rbac_words.specs.Group.{Group, IsGroup};
ghost use Rattle.rbac_words.specs.Right.{AreHistoriesRight, IsRight, founding_world};
ghost use Rattle.rbac_words.specs.Play.{IsPrefixOf};
ghost use Rattle.rbac_words.specs.Keeping.Member.{Member, IsNumber, founded, node_of};
ghost use Rattle.rbac_words.specs.Keeping.Members.{IsLawfulWorld, member_at, world_of};
ghost use Rattle.rbac_words.specs.declared.message.Message.{Message};
ghost use Rattle.rbac_words.specs.World.{World};
ghost use Rattle.rbac_moves.specs.Seal.{row};
ghost use Rattle.rbac_moves.specs.Rows.{rows_after};
ghost use Rattle.rbac_embedded_member.specs.Calls.{Call, AreCalled, IsCalledInRow, IsObserved, WereSet, call_step, called, is_of_own, observing};
ghost use Rattle.rbac_message_text.specs.MessageText.{longest_message, message_text};

/// Members that are called one by one, each in a place of its own, over transports that bring only texts of sent messages, have right
/// histories, and of two of them one goes on where the other ends.
pub fn members_that_are_called_are_right()
    ensures right { (group : Group) (vocabulary : Vocabulary) (members : List Member) (calls : ℕ → List Call) → IsGroup group → AreCalled group vocabulary members calls → AreHistoriesRight (world_of group vocabulary members) }
    ensures one { (group : Group) (vocabulary : Vocabulary) (members : List Member) (calls : ℕ → List Call) (i j : ℕ) → IsGroup group → AreCalled group vocabulary members calls → i < length members → j < length members → IsPrefixOf (member_at members i).history (member_at members j).history ⊎ IsPrefixOf (member_at members j).history (member_at members i).history }
{}

/// No member sends a message whose text would be too long to be read, whatever it is called with.
pub fn each_sent_message_can_be_read()
    ensures { (group : Group) (vocabulary : Vocabulary) (number : ℕ) (calls : List Call) → IsGroup group → IsNumber group number → Each (λ message. length (message_text message) ≤ longest_message) (called (founded group number vocabulary) calls).sent }
{}

/// Where each message is set in its member's row before it is in any memory, each by a process of that member which has taken all of that
/// row and does not refuse the message, what any process told at any time, as any member, is right among the rows of any later time, and
/// of two such histories one goes on where the other ends: whatever was lost, made anew, or run twice.
pub fn what_was_told_by_rows_stays_right()
    ensures lawful { (group : Group) (vocabulary : Vocabulary) (sets : List (ℕ × Message)) → IsGroup group → WereSet (founding_world group vocabulary) sets → IsLawfulWorld (rows_after (founding_world group vocabulary) sets) }
    ensures right { (group : Group) (vocabulary : Vocabulary) (sets later : List (ℕ × Message)) (i : ℕ) (u : Member) (calls : List Call) → IsGroup group → WereSet (founding_world group vocabulary) (sets ++ later) → IsCalledInRow (rows_after (founding_world group vocabulary) sets) i u calls → IsRight (rows_after (founding_world group vocabulary) (sets ++ later)) (node_of u) }
    ensures one { (group : Group) (vocabulary : Vocabulary) (sets later : List (ℕ × Message)) (i j : ℕ) (u v : Member) (calls others : List Call) → IsGroup group → WereSet (founding_world group vocabulary) (sets ++ later) → IsCalledInRow (rows_after (founding_world group vocabulary) sets) i u calls → IsCalledInRow (rows_after (founding_world group vocabulary) (sets ++ later)) j v others → IsPrefixOf u.history v.history ⊎ IsPrefixOf v.history u.history }
{}

/// A place that only observes sends nothing: a call changes what its member has sent only by taking a message of its own row. So where each
/// text that it is given as one of its row is one, all that its member has sent stands in the row, in its place.
pub fn an_observing_place_sends_nothing()
    ensures same { (v : Member) (call : Call) → is_of_own call ≡ false → (call_step call (observing v)).member.sent ≡ v.sent }
    ensures in_row { (w : World) (number : ℕ) (v : Member) (calls : List Call) → IsObserved w number v calls → IsPrefixOf v.sent (row w number) }
{}

/// What a place that only observes shows at any time is right among the rows of any later time, where each message is set as
/// `what_was_told_by_rows_stays_right` says; and its history goes on, or ends, as that of each process that acts as a member, before or
/// after, and of each other that only observes, of the same member or of another.
pub fn what_an_observer_shows_is_right()
    ensures right { (group : Group) (vocabulary : Vocabulary) (sets later : List (ℕ × Message)) (i : ℕ) (u : Member) (calls : List Call) → IsGroup group → WereSet (founding_world group vocabulary) (sets ++ later) → IsObserved (rows_after (founding_world group vocabulary) sets) i u calls → IsRight (rows_after (founding_world group vocabulary) (sets ++ later)) (node_of u) }
    ensures before_member { (group : Group) (vocabulary : Vocabulary) (sets later : List (ℕ × Message)) (i j : ℕ) (u v : Member) (calls others : List Call) → IsGroup group → WereSet (founding_world group vocabulary) (sets ++ later) → IsObserved (rows_after (founding_world group vocabulary) sets) i u calls → IsCalledInRow (rows_after (founding_world group vocabulary) (sets ++ later)) j v others → IsPrefixOf u.history v.history ⊎ IsPrefixOf v.history u.history }
    ensures after_member { (group : Group) (vocabulary : Vocabulary) (sets later : List (ℕ × Message)) (i j : ℕ) (u v : Member) (calls others : List Call) → IsGroup group → WereSet (founding_world group vocabulary) (sets ++ later) → IsCalledInRow (rows_after (founding_world group vocabulary) sets) i u calls → IsObserved (rows_after (founding_world group vocabulary) (sets ++ later)) j v others → IsPrefixOf u.history v.history ⊎ IsPrefixOf v.history u.history }
    ensures of_observers { (group : Group) (vocabulary : Vocabulary) (sets later : List (ℕ × Message)) (i j : ℕ) (u v : Member) (calls others : List Call) → IsGroup group → WereSet (founding_world group vocabulary) (sets ++ later) → IsObserved (rows_after (founding_world group vocabulary) sets) i u calls → IsObserved (rows_after (founding_world group vocabulary) (sets ++ later)) j v others → IsPrefixOf u.history v.history ⊎ IsPrefixOf v.history u.history }
{}
