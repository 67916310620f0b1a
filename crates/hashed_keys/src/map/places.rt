//! Where a key stands.
ghost use Rattle.std.specs.Prelude.{◌≡◌, ◌<◌, length, IfOk, IfErr, IfSome, slice_index_or};
ghost use Rattle.std.specs.declared.cmp.Ordering.TheVariants.{Equal};
ghost use Rattle.sorted_keys.specs.Place.{IsEntryAt, IsEntryGap};
ghost use Rattle.hashed_keys.specs.Listed.{listed, order_at, IsListed};

use crate::hints::{Hints, NEIGHBOURS};
use digests::Digest;
use slab::Slab;
use sorted_keys::Probe;
use std::cmp::Ordering;

// How the key at a place stands to the one that is sought.
#[inline(always)]
fn compare_at<K: Ord, V, P: Probe<K>>(entries: &Slab<(K, V)>, place: usize, probe: &P) -> Ordering
    ensures { result ≡ order_at K.cmp (P.sought probe.now) entries.now place }
{
    match entries.get(place) {
        Some(entry) => probe.compare(&entry.0),
        None => Ordering::Less,
    }
}

/// The place of the key in the order, or to which it would go.
#[inline(always)]
pub(super) fn searched<K: Ord, V, P: Probe<K>>(
    entries: &Slab<(K, V)>,
    order: &[usize],
    probe: &P,
) -> Result<usize, usize>
    requires { IsListed K.cmp entries.now order.now }
    ensures found { IfOk result (IsEntryAt K.cmp (P.sought probe.now) (listed entries.now order.now)) }
    ensures within { IfOk result (λ at. at < length order.now) }
    ensures tied { IfOk result (λ at. order_at K.cmp (P.sought probe.now) entries.now (slice_index_or order.now at 0) ≡ Equal) }
    ensures gap { IfErr result (IsEntryGap K.cmp (P.sought probe.now) (listed entries.now order.now)) }
{
    match order.last() {
        // what comes after all others is often put, and needs no search
        Some(last) if compare_at(entries, *last, probe).is_lt() => Err(order.len()),
        _ => order.binary_search_by(|place| compare_at(entries, *place, probe)),
    }
}

/// A place at which the key stands, where a hint leads there.
#[inline(always)]
pub(super) fn hinted<K: Ord, V, P: Probe<K> + Digest>(
    entries: &Slab<(K, V)>,
    hints: &Hints,
    probe: &P,
) -> Option<usize>
    ensures { IfSome result (λ place. order_at K.cmp (P.sought probe.now) entries.now place ≡ Equal) }
{
    let digest = probe.digest();
    for nth in 0..NEIGHBOURS {
        if let Some(place) = hints.place(digest, nth) {
            if compare_at(entries, place, probe).is_eq() {
                return Some(place);
            }
        }
    }
    None
}

/// The place at which the key stands, or that of the order to which it would go.
#[inline(always)]
pub(super) fn located<K: Ord, V, P: Probe<K> + Digest>(
    entries: &Slab<(K, V)>,
    order: &[usize],
    hints: &Hints,
    probe: &P,
) -> Result<usize, usize>
    requires { IsListed K.cmp entries.now order.now }
    ensures found { IfOk result (λ place. order_at K.cmp (P.sought probe.now) entries.now place ≡ Equal) }
    ensures gap { IfErr result (IsEntryGap K.cmp (P.sought probe.now) (listed entries.now order.now)) }
{
    if let Some(place) = hinted(entries, hints, probe) {
        return Ok(place);
    }
    match searched(entries, order, probe) {
        Ok(at) => Ok(order[at]),
        Err(at) => Err(at),
    }
}
