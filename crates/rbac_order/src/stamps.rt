//! Stamps and their order.
ghost use Rattle.std.specs.Prelude.{List, IsTrue, ◌↔◌, ◌≡◌, ◌<◌, ◌⊎◌};
ghost use Rattle.std.specs.declared.cmp.Ordering.TheVariants.{Less};
ghost use Rattle.std.specs.List.Sorted.{IsPermutation};
ghost use Rattle.rbac_words.specs.declared.message.Submission.{Submission};
ghost use Rattle.rbac_words.specs.declared.stamp.Stamp.{Stamp};
ghost use Rattle.rbac_words.specs.Message.{submitted_at};
ghost use Rattle.rbac_words.specs.Stamp.{IsBefore, is_before, stamp_cmp, IsInStampOrder, sort_by_stamp};

/// Stamps are in a total order, which the test and the comparison of stamps tell (Lamport 1978, "Ordering the Events
/// Totally"): the smaller clock comes first, of equal clocks the smaller member number, and of one message's commands the
/// smaller place.
pub fn stamps_are_totally_ordered()
    ensures in_numbers { (s t : Stamp) → IsBefore s t ↔ ((s.clock < t.clock) ⊎ ((s.clock ≡ t.clock) × ((s.member < t.member) ⊎ ((s.member ≡ t.member) × (s.place < t.place))))) }
    ensures test { (s t : Stamp) → IsTrue (is_before s t) ↔ IsBefore s t }
    ensures comparison { (s t : Stamp) → (stamp_cmp s t ≡ Less) ↔ IsBefore s t }
    ensures transitive { (s t u : Stamp) → IsBefore s t → IsBefore t u → IsBefore s u }
    ensures irreflexive { (s : Stamp) → ¬ (IsBefore s s) }
    ensures total { (s t : Stamp) → (s ≡ t) ⊎ (IsBefore s t ⊎ IsBefore t s) }
{}

/// To sort by stamp keeps the elements, and puts them in the order of their stamps.
pub fn sorting_by_stamp()
    ensures elements { (xs : List Submission) → IsPermutation xs (sort_by_stamp submitted_at xs) }
    ensures in_order { (xs : List Submission) → IsInStampOrder submitted_at (sort_by_stamp submitted_at xs) }
{}
