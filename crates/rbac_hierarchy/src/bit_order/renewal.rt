//! Rows that are made anew.
ghost use Rattle.std.specs.Prelude.{◌≡◌, ◌≤◌, ◌+◌, IsTrue, filter, length, vec_capacity};
ghost use Rattle.sorted_keys.specs.Keys.{has};
ghost use Rattle.bit_rows.specs.Bits.{AreBelow, count};
ghost use Rattle.rbac_terms.specs.Name.{Name as NameValue, name_cmp, pair_cmp};
ghost use Rattle.rbac_hierarchy.specs.Numbers.{ArePairsAbove, IsExact};
ghost use Rattle.rbac_hierarchy.specs.Renewal.{HasPairsOf, IsRenewed};

use crate::bit_order::numbers::number;
use bit_rows::Relation;
use indexmap::IndexSet;
use rbac_terms::Name;
use sorted_keys::{KeyTest, SortedSet};

// The pairs by their numbers, and then those of one ascendant that pass a test. Takes no memory.
fn add_pairs<T: KeyTest<(Name, Name)>>(
    pairs: &mut Vec<(usize, usize)>,
    numbers: &IndexSet<Name>,
    ascendant: usize,
    declared: &[(Name, Name)],
    kept: &T,
)
    requires descendants { (a d : NameValue) → IsTrue (has pair_cmp (a, d) declared.now) → IsTrue (has name_cmp d numbers.now.keys) }
    requires room { length pairs.old.items + length declared.now ≤ vec_capacity pairs.old }
    ensures pairs { HasPairsOf numbers.now.keys ascendant (filter (T.passes kept.now) declared.now) pairs.old.items pairs.new.items }
    ensures not_more { length pairs.new.items ≤ length pairs.old.items + length declared.now }
    ensures capacity { vec_capacity pairs.new ≡ vec_capacity pairs.old }
{
    for pair in declared {
        if kept.test(pair) {
            pairs.push_reserved((ascendant, number(numbers, &pair.1)));
        }
    }
}

/// Gathers the declared pairs that pass a test, by their numbers, of the ascendants that inherit a role. Takes no memory.
pub(crate) fn gather_pairs_above<T: KeyTest<(Name, Name)>>(
    pairs: &mut Vec<(usize, usize)>,
    numbers: &IndexSet<Name>,
    declared: &SortedSet<(Name, Name)>,
    inherited: &Relation,
    above: usize,
    kept: &T,
)
    requires exact { IsExact numbers.now.keys declared.now.content inherited.now }
    requires room { length declared.now.content ≤ vec_capacity pairs.old }
    ensures pairs { ArePairsAbove numbers.now.keys (filter (T.passes kept.now) declared.now.content) inherited.now above pairs.new.items }
    ensures capacity { vec_capacity pairs.new ≡ vec_capacity pairs.old }
{
    pairs.clear();
    for ascendant in 0..numbers.len() {
        if inherited.has(ascendant, above) {
            let of_ascendant = declared.beginning_with(&numbers[ascendant]);
            add_pairs(pairs, numbers, ascendant, of_ascendant, kept);
        }
    }
}

/// Makes the rows of what inherits a role anew, over these pairs. There is room for as many numbers as before.
pub(crate) fn renew(inherited: &mut Relation, above: usize, pairs: &[(usize, usize)])
    requires { AreBelow pairs.now (count inherited.old) }
    ensures renewed { IsRenewed inherited.old above pairs.now inherited.new }
    ensures room { inherited.old.room ≤ inherited.new.room }
{
    inherited.reset_above(above);
    inherited.join_pairs(pairs);
}
