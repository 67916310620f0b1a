//! What has a digest.
ghost use Rattle.std.specs.Prelude.{◌≡◌, ℕ};
ghost use Rattle.digests.specs.Digest.{mixed as the_mixed};

use sorted_keys::PairProbe;

// Two odd numbers of 64 bits without a pattern: the golden ratio's, and a large prime.
const FIRST_FACTOR: u64 = 0x9E37_79B9_7F4A_7C15;

const SECOND_FACTOR: u64 = 0xD6E8_FEB8_6659_FD93;

/// A number for each value. What stands for the same key has the same one. What differs may have the same one too, so whoever looks
/// for a key by it compares what is found.
pub trait Digest {
    /// The number of a value.
    ghost digest_of: { Self → ℕ };

    /// The number of the value. Its greatest bits tell most.
    fn digest(&self) -> u64
        ensures { result ≡ digest_of self.now };
}

/// One number of two: a change of either changes the greatest bits of most.
#[inline(always)]
pub fn mixed(first: u64, second: u64) -> u64
    ensures { result ≡ the_mixed first second }
{
    first
        .wrapping_add(second.wrapping_mul(FIRST_FACTOR))
        .wrapping_mul(SECOND_FACTOR)
}

impl<A: Digest, B: Digest> Digest for (A, B) {
    ghost digest_of = { λ pair. the_mixed (A.digest_of pair.0) (B.digest_of pair.1) };

    #[inline(always)]
    fn digest(&self) -> u64 {
        mixed(self.0.digest(), self.1.digest())
    }
}

impl<P: Digest, Q: Digest> Digest for PairProbe<'_, P, Q> {
    ghost digest_of = { λ probe. the_mixed (P.digest_of probe.first.now) (Q.digest_of probe.second.now) };

    #[inline(always)]
    fn digest(&self) -> u64 {
        mixed(self.first.digest(), self.second.digest())
    }
}
