//! The keys of which a pair passes: one walk over sorted keys and sorted pairs, side by side.
ghost use Rattle.std.specs.Prelude.{◌≡◌, ◌&&◌, IfOk, filter, take};
ghost use Rattle.std.specs.List.{list_any, prefix_len};
ghost use Rattle.std.specs.List.Sorted.{IsStrictlySortedBy};
ghost use Rattle.std.specs.Ordering.{eq_by_cmp, is_ge, ordering_then};

use crate::duplicate::Duplicate;
use crate::set::{KeyTest, SortedSet};
use std::alloc::{AllocError, Global};
use std::cmp::Ordering;

// What a walk over the pairs of a key came to.
#[derive(Drop)]
struct Walked {
    // how many pairs it went over
    len: usize,
    // whether a pair of the key passes
    passes: bool,
}

// Goes over the pairs at the front that begin with the key, or with what is less.
fn walk<K: Ord, V, T: KeyTest<V>>(pairs: &[(K, V)], key: &K, test: &T) -> Walked
    ensures len { result.len ≡ prefix_len (λ pair. is_ge (K.cmp key.now pair.0)) pairs.now }
    ensures passes { result.passes ≡ list_any (λ pair. eq_by_cmp K.cmp key.now pair.0 && T.passes test.now pair.1) (take result.len pairs.now) }
{
    let mut passes = false;
    for (at, pair) in pairs.iter().enumerate() {
        match key.cmp(&pair.0) {
            Ordering::Less => return Walked { len: at, passes },
            Ordering::Equal => passes = passes || test.test(&pair.1),
            Ordering::Greater => {}
        }
    }
    Walked {
        len: pairs.len(),
        passes,
    }
}

// Keys equal to those of which a pair has a second half that passes, in the same order.
fn duplicate_paired<K: Ord + Drop + Duplicate, V: Ord, T: KeyTest<V>>(
    alloc: Global,
    keys: &[K],
    pairs: &[(K, V)],
    test: &T,
) -> Result<Vec<K>, AllocError>
    requires keys { IsStrictlySortedBy K.cmp keys.now }
    requires pairs { IsStrictlySortedBy (λ x y. ordering_then (K.cmp x.0 y.0) (V.cmp x.1 y.1)) pairs.now }
    ensures copied { IfOk result (λ copy. copy.items ≡ filter (λ key. list_any (λ pair. eq_by_cmp K.cmp key pair.0 && T.passes test.now pair.1) pairs.now) keys.now) }
    ensures in_order { IfOk result (λ copy. IsStrictlySortedBy K.cmp copy.items) }
{
    let mut copy = Vec::with_capacity(alloc, keys.len().min(pairs.len()))?;
    let mut ahead = pairs;
    for key in keys {
        let walked = walk(ahead, key, test);
        ahead = &ahead[walked.len..];
        if walked.passes {
            copy.push(key.duplicate()?)?;
        }
    }
    copy.shrink_to_fit();
    Ok(copy)
}

impl<K: Ord + Drop + Duplicate> SortedSet<K> {
    /// A set of keys equal to those that begin a pair whose second half passes the test. Keys and pairs are gone over once,
    /// side by side.
    ///
    /// # Errors
    /// `AllocError` where the copy gets no memory.
    pub fn copy_paired<V: Ord + Drop, T: KeyTest<V>>(
        &self,
        alloc: Global,
        pairs: &SortedSet<(K, V)>,
        test: &T,
    ) -> Result<Self, AllocError>
        ensures { IfOk result (λ copy. copy.content ≡ filter (λ key. list_any (λ pair. eq_by_cmp K.cmp key pair.0 && T.passes test.now pair.1) pairs.now.content) self.now.content) }
    {
        let kept = duplicate_paired(alloc, self.keys(), pairs.keys(), test)?;
        Ok(SortedSet::in_order(kept))
    }
}
