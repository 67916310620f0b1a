//! Members by their rows alone: what each sends stands in its row before anything follows from it, and any process takes it from
//! there.
ghost use Rattle.std.specs.Prelude.{ℕ, ◌≡◌, ◌≢◌, ◌≤◌, ◌<◌, ◌+◌, false, true, [], ◌∷◌, ◌++◌, ◌⊎◌, List, None, length};
ghost use Rattle.std.specs.List.{AllByRecursion};
ghost use Rattle.rbac_terms.specs.Vocabulary.{Vocabulary};
ghost use Rattle.rbac_terms.specs.declared.command.Command.{Command};
ghost use Rattle.rbac_words.specs.Group.{Group, IsGroup};
ghost use Rattle.rbac_words.specs.Limits.{last_clock};
ghost use Rattle.rbac_words.specs.Stamp.{IsBefore};
ghost use Rattle.rbac_words.specs.Message.{stamp_of, submissions, has_later, IsLawful};
ghost use Rattle.rbac_words.specs.World.{World, read_of, acknowledgement, must_acknowledge, submit_refusal};
ghost use Rattle.rbac_words.specs.Right.{IsRight, founding_world};
ghost use Rattle.rbac_words.specs.Play.{IsPrefixOf};
ghost use Rattle.rbac_words.specs.Keeping.Member.{Member, IsMember, IsNumber, founded, node_of, batch, submitted, received, message_refusal};
ghost use Rattle.rbac_words.specs.Keeping.Members.{AreMembers, HasTaken, IsLawfulWorld, member_at, world_of};
ghost use Rattle.rbac_words.specs.declared.message.Message.{Message};
ghost use Rattle.rbac_words.specs.declared.message.Message.TheVariants.{Ack};
ghost use Rattle.rbac_words.specs.declared.stamp.Stamp.{Stamp};
ghost use Rattle.rbac_words.specs.Keeping.Own.{own_refusal, took_own, answer_stamp};
ghost use Rattle.rbac_moves.specs.Moves.{Move, run, AreMoves};
ghost use Rattle.rbac_moves.specs.Seal.{row, HasPartOfRows, HasReadRows, wants_answer, sealed, MaySeal, restored};
ghost use Rattle.rbac_moves.specs.Rows.{own_messages, AreWatching, HasRunInRow, HasWatched, taking, clock_over, with_message, HasGrown, rows_after, AreSet};

/// Where its own row shows a stamp above that of a message, the receipt of that message is not acknowledged. So a member that takes its own
/// row, receives what lies below it, and delivers, has sent nothing but what it took of its row, and stays a first part of it.
pub fn an_observer_sends_nothing()
    ensures acknowledges_nothing { (v : Member) (m : Message) → has_later v.sent (stamp_of m) ≡ true → acknowledgement (node_of v) m ≡ None }
    ensures received { (v : Member) (k : ℕ) (m : Message) → wants_answer v.sent m ≡ false → (received v k m).sent ≡ v.sent }
    ensures covered { (v : Member) (m other : Message) → IsBefore (stamp_of other) (stamp_of m) → wants_answer (took_own v m).sent other ≡ false }
    ensures sent { (row : List Message) (v : Member) (moves : List Move) → AreWatching row v.sent moves → (run v moves).sent ≡ v.sent ++ own_messages moves }
    ensures in_row { (row : List Message) (v : Member) (moves : List Move) → IsPrefixOf v.sent row → AreMoves v moves → AreWatching row v.sent moves → IsPrefixOf (run v moves).sent row }
    ensures watched { (w : World) (number : ℕ) (v : Member) (moves : List Move) → HasWatched w number v moves → HasRunInRow w number v moves }
{}

/// An observer can follow: what a member has taken of another needs no answer of it, nor of any process that has the same sent list; and the
/// next message of another row that needs no answer is never refused, below the clock's limit, as none of its own row is.
pub fn an_observer_can_follow()
    ensures needs_no_answer { (u : Member) (k : ℕ) (taken : List Message) → IsMember u → k ≢ u.number → HasTaken u k taken → AllByRecursion (λ m. wants_answer u.sent m ≡ false) taken }
    ensures own_never_refused { (v : Member) (m : Message) (more : List Message) → IsMember v → IsLawful v.number v.group (v.sent ++ m ∷ more) → own_refusal v (length v.sent + 1) m ≡ None }
    ensures never_refused { (v : Member) (k : ℕ) (m : Message) (taken more : List Message) → IsMember v → IsNumber v.group k → k ≢ v.number → HasTaken v k taken → IsLawful k v.group (taken ++ m ∷ more) → wants_answer v.sent m ≡ false → v.clock < last_clock → (stamp_of m).clock < last_clock → message_refusal v k (length taken + 1) m ≡ None }
{}

/// A process that was run as a member, and all of whose messages stand in that member's row, has a right history, which goes on, or ends,
/// as that of each other such process does: of the same member or of another, and as that of each member of a group, where the rows are
/// what the members sent.
pub fn processes_in_rows_are_right()
    ensures part { (w : World) (number : ℕ) (v : Member) (moves : List Move) → IsGroup w.group → IsLawfulWorld w → HasRunInRow w number v moves → HasPartOfRows w v }
    ensures right { (w : World) (number : ℕ) (v : Member) (moves : List Move) → IsGroup w.group → IsLawfulWorld w → HasRunInRow w number v moves → IsRight w (node_of v) }
    ensures one { (w : World) (i j : ℕ) (u v : Member) (moves others : List Move) → IsGroup w.group → IsLawfulWorld w → HasRunInRow w i u moves → HasRunInRow w j v others → IsPrefixOf u.history v.history ⊎ IsPrefixOf v.history u.history }
    ensures to_end { (w : World) (number : ℕ) (v : Member) (moves : List Move) → IsGroup w.group → IsLawfulWorld w → HasRunInRow w number v moves → submissions v.sent ≡ submissions (row w v.number) → ((k : ℕ) → IsNumber w.group k → k ≢ v.number → read_of (node_of v) k ≡ length (row w k)) → HasReadRows w v }
    ensures of_parts { (w : World) (u v : Member) → IsLawfulWorld w → HasPartOfRows w u → HasPartOfRows w v → IsPrefixOf u.history v.history ⊎ IsPrefixOf v.history u.history }
    ensures of_members { (group : Group) (vocabulary : Vocabulary) (members : List Member) (i : ℕ) → AreMembers group vocabulary members → i < length members → HasPartOfRows (world_of group vocabulary members) (member_at members i) }
    ensures of_observers { (group : Group) (vocabulary : Vocabulary) (members : List Member) (i number : ℕ) (v : Member) (moves : List Move) → IsGroup group → AreMembers group vocabulary members → i < length members → HasWatched (world_of group vocabulary members) number v moves → IsPrefixOf v.history (member_at members i).history ⊎ IsPrefixOf (member_at members i).history v.history }
{}

/// A member that sets what it sends in its row first, and takes it from there, does what it does by itself: a submit is that; and to take its
/// acknowledgement first, and then to receive the message, which it need not acknowledge any more, leaves what the receipt leaves, but for
/// the acknowledgement's stamp, whose clock is smaller by one. Neither is refused where the receipt is not.
pub fn a_member_acts_by_its_row()
    ensures submits { (v : Member) (caller serial : ℕ) (commands : List Command) → submitted v caller serial commands ≡ took_own v (batch v caller serial commands) }
    ensures may_submit { (v : Member) (caller serial : ℕ) (commands : List Command) → IsMember v → submit_refusal v.group (node_of v) caller serial (length commands) ≡ None → own_refusal v (length v.sent + 1) (batch v caller serial commands) ≡ None }
    ensures may_answer { (v : Member) (from number : ℕ) (m : Message) → IsMember v → message_refusal v from number m ≡ None → must_acknowledge (node_of v) m ≡ true → own_refusal v (length v.sent + 1) (Ack (answer_stamp v m)) ≡ None }
    ensures receives_then { (v : Member) (from number : ℕ) (m : Message) → message_refusal v from number m ≡ None → must_acknowledge (node_of v) m ≡ true → message_refusal (took_own v (Ack (answer_stamp v m))) from number m ≡ None }
    ensures silently { (v : Member) (m : Message) → must_acknowledge (node_of (took_own v (Ack (answer_stamp v m)))) m ≡ false }
    ensures is_receipt { (v : Member) (from : ℕ) (m : Message) → must_acknowledge (node_of v) m ≡ true → received (took_own v (Ack (answer_stamp v m))) from m ≡ (let u : Member = record (received v from m) { sent = v.sent ++ Ack (answer_stamp v m) ∷ [] } in u) }
{}

/// Rows may grow: what a process was stays so over the longer rows, and the rows stay lawful where a message is set behind one that a
/// process does not refuse which has taken all of that row. So a message may be set in the row first, and taken from there.
pub fn rows_grow_lawfully()
    ensures stays { (w later : World) (number : ℕ) (v : Member) (moves : List Move) → HasGrown w later → HasRunInRow w number v moves → HasRunInRow later number v moves }
    ensures lawful { (w : World) (number n : ℕ) (v : Member) (m : Message) (moves : List Move) → IsGroup w.group → IsLawfulWorld w → HasRunInRow w number v moves → v.sent ≡ row w number → own_refusal v n m ≡ None → IsLawfulWorld (with_message w number m) }
{}

/// Rows that are set message by message, each by a process of its member that has taken all of that row and does not refuse the message, are
/// lawful from the founding on, and only grow. What any process told at any time, as any member, is right among the rows of any later time,
/// and of two such histories one goes on where the other ends: whatever was lost, restored, or run twice.
pub fn whatever_was_told_in_rows_stays_right()
    ensures lawful { (w : World) (sets : List (ℕ × Message)) → IsGroup w.group → IsLawfulWorld w → AreSet w sets → IsLawfulWorld (rows_after w sets) }
    ensures grown { (w : World) (sets : List (ℕ × Message)) → IsGroup w.group → IsLawfulWorld w → AreSet w sets → HasGrown w (rows_after w sets) }
    ensures founded { (group : Group) (vocabulary : Vocabulary) (sets : List (ℕ × Message)) → IsGroup group → AreSet (founding_world group vocabulary) sets → IsLawfulWorld (rows_after (founding_world group vocabulary) sets) }
    ensures right { (group : Group) (vocabulary : Vocabulary) (sets later : List (ℕ × Message)) (i : ℕ) (u : Member) (moves : List Move) → IsGroup group → AreSet (founding_world group vocabulary) (sets ++ later) → HasRunInRow (rows_after (founding_world group vocabulary) sets) i u moves → IsRight (rows_after (founding_world group vocabulary) (sets ++ later)) (node_of u) }
    ensures one { (group : Group) (vocabulary : Vocabulary) (sets later : List (ℕ × Message)) (i j : ℕ) (u v : Member) (moves others : List Move) → IsGroup group → AreSet (founding_world group vocabulary) (sets ++ later) → HasRunInRow (rows_after (founding_world group vocabulary) sets) i u moves → HasRunInRow (rows_after (founding_world group vocabulary) (sets ++ later)) j v others → IsPrefixOf u.history v.history ⊎ IsPrefixOf v.history u.history }
{}

/// A founded member that takes a lawful row is the member that is restored of it, and no message of the row is refused; so is a member that
/// goes on with the rest of its row. A seal that a member sets itself is a message of its own that it takes.
pub fn a_member_is_restored_by_taking_its_row()
    ensures allowed { (group : Group) (number : ℕ) (vocabulary : Vocabulary) (messages : List Message) → IsGroup group → IsNumber group number → IsLawful number group messages → AreMoves (founded group number vocabulary) (taking 0 messages) }
    ensures restored { (group : Group) (number : ℕ) (vocabulary : Vocabulary) (messages : List Message) → run (founded group number vocabulary) (taking 0 messages) ≡ restored group number vocabulary (clock_over group.clock messages) messages }
    ensures goes_on { (v : Member) (rest : List Message) → IsMember v → IsLawful v.number v.group (v.sent ++ rest) → AreMoves v (taking (length v.sent) rest) }
    ensures went_on { (v : Member) (rest : List Message) (n : ℕ) → run v (taking n rest) ≡ (let u : Member = record v { clock = clock_over v.clock rest; sent = v.sent ++ rest; held = v.held ++ submissions rest } in u) }
    ensures seal { (v : Member) (s : Stamp) → v.clock ≤ s.clock → sealed v s ≡ took_own v (Ack s) }
    ensures may_seal { (v : Member) (s : Stamp) → IsMember v → MaySeal v s → own_refusal v (length v.sent + 1) (Ack s) ≡ None }
{}
