//! What follows for members of how each of them was run by lines.
ghost use Rattle.std.specs.Prelude.{ℕ, ◌≡◌, ◌<◌, ◌≤◌, ◌⊎◌, ◌+◌, List, length, slice_get, Some, Ok};
ghost use Rattle.line_engine.specs.Lines.{longest_line};
ghost use Rattle.rbac_terms.specs.Vocabulary.{Vocabulary};
ghost use Rattle.rbac_words.specs.Group.{Group, IsGroup};
ghost use Rattle.rbac_words.specs.Right.{AreHistoriesRight};
ghost use Rattle.rbac_words.specs.Play.{IsPrefixOf};
ghost use Rattle.rbac_words.specs.Keeping.Member.{Member, IsNumber, founded};
ghost use Rattle.rbac_words.specs.Keeping.Members.{member_at, world_of};
ghost use Rattle.rbac_words.specs.declared.message.Message.{Message};
ghost use Rattle.rbac_member_lines.specs.declared.asked.Asked.TheVariants.{Receive};
ghost use Rattle.rbac_member_lines.specs.Asked.{asked};
ghost use Rattle.rbac_member_lines.specs.Carried.{receive_line, AreRunByLines};
ghost use Rattle.rbac_member_lines.specs.Output.{member_after};

/// Members that are run by lines, each by itself, over transports that bring only sent messages, have right histories, and of two of them
/// one goes on where the other ends.
pub fn members_by_lines_are_right()
    ensures right { (group : Group) (vocabulary : Vocabulary) (members : List Member) (inputs : ℕ → List ℕ) → IsGroup group → AreRunByLines group vocabulary members inputs → AreHistoriesRight (world_of group vocabulary members) }
    ensures one { (group : Group) (vocabulary : Vocabulary) (members : List Member) (inputs : ℕ → List ℕ) (i j : ℕ) → IsGroup group → AreRunByLines group vocabulary members inputs → i < length members → j < length members → IsPrefixOf (member_at members i).history (member_at members j).history ⊎ IsPrefixOf (member_at members j).history (member_at members i).history }
{}

/// Each message that a member sends, whatever lines it is given, can be brought to another member by a line: that is not too long, and
/// what is read of it is that this message is to be received.
pub fn each_sent_message_can_be_received()
    ensures short { (group : Group) (vocabulary : Vocabulary) (number place : ℕ) (input : List ℕ) (message : Message) → IsGroup group → IsNumber group number → slice_get (member_after input (founded group number vocabulary)).sent place ≡ Some message → length (receive_line number (place + 1) message) ≤ longest_line }
    ensures reads { (group : Group) (vocabulary : Vocabulary) (number place : ℕ) (input : List ℕ) (message : Message) → IsGroup group → IsNumber group number → slice_get (member_after input (founded group number vocabulary)).sent place ≡ Some message → asked (receive_line number (place + 1) message) ≡ Ok (Receive (record { from = number; number = place + 1; message = message })) }
{}
