//! Pairs in order, those that stand together by their first halves.
ghost use Rattle.std.specs.Prelude.{◌≡◌, filter, IfOk};
ghost use Rattle.std.specs.List.Sorted.{IsStrictlySortedBy};
ghost use Rattle.std.specs.Ordering.{eq_by_cmp, ordering_then};
ghost use Rattle.sorted_keys.specs.Keys.{has};
ghost use Rattle.rbac_terms.specs.Name.{Name as NameValue, name_cmp};

use rbac_terms::{Name, NameSet};
use sorted_keys::Probe;
use std::alloc::{AllocError, Global};

/// The pairs with this first half, which stand together.
pub(crate) fn beginning_with<'a, A: Ord, B: Ord, P: Probe<A>>(
    pairs: &'a [(A, B)],
    first: &P,
) -> &'a [(A, B)]
    requires { IsStrictlySortedBy (λ x y. ordering_then (A.cmp x.0 y.0) (B.cmp x.1 y.1)) pairs.now }
    ensures { result.now ≡ filter (λ pair. eq_by_cmp A.cmp (P.sought first.now) pair.0) pairs.now }
{
    let start = pairs.partition_point(|pair| first.compare(&pair.0).is_lt());
    let rest = &pairs[start..];
    let end = rest.partition_point(|pair| first.compare(&pair.0).is_le());
    &rest[..end]
}

/// The second halves of the pairs with this first half.
pub(crate) fn seconds<A: Ord, P: Probe<A>>(
    alloc: Global,
    pairs: &[(A, Name)],
    first: &P,
) -> Result<NameSet, AllocError>
    requires { IsStrictlySortedBy (λ x y. ordering_then (A.cmp x.0 y.0) (name_cmp x.1 y.1)) pairs.now }
    ensures { IfOk result (λ names. (name : NameValue) → has name_cmp name names ≡ has (λ x y. ordering_then (A.cmp x.0 y.0) (name_cmp x.1 y.1)) (P.sought first.now, name) pairs.now) }
{
    let mut names = NameSet::new(alloc);
    for pair in beginning_with(pairs, first) {
        names.add_copy(&pair.1)?;
    }
    Ok(names)
}
