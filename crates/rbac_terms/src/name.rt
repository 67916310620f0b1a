//! Names: 1 to 64 bytes of a fixed alphabet.
ghost use Rattle.std.specs.Prelude.{◌≡◌, ◌↔◌, IsTrue, IfOk, false, get_or};
ghost use Rattle.std.specs.List.{list_all};
ghost use Rattle.rbac_terms.specs.Name.{is_name_byte as is_byte_of_a_name, is_name as is_a_name, name_cmp};
ghost use Rattle.rbac_terms.specs.Keeping.Prefix.{first_bytes, last_bytes, digest_of};

mod lent;

use crate::limits::LONGEST_NAME;
use digests::{Digest, mixed};
pub use lent::LentName;
use smallvec::SmallVec;
use sorted_keys::{Duplicate, Exact, Same};
use std::alloc::{AllocError, Global};
use std::cmp::Ordering;
use std::hash::{Hash, Hasher};
use std::marker::Model;
use std::sync::Arc;
use thiserror::Error;

// So many bytes lie beside the count of a name's copies, and those of a longer name in a place of their own.
type Bytes = SmallVec<u8, 16>;

/// A name of 1 to 64 bytes, each of `A-Z a-z 0-9 _ - .`, ordered by its bytes. Copies share the bytes: a copy is a count and no
/// allocation.
#[derive(Drop)]
pub struct Name {
    // The first eight bytes as one number, the first byte its greatest part, 0 where there is none: most names differ there or end
    // there, and are compared without a look at their bytes.
    prefix: u64,
    bytes: Arc<Bytes>,
}

impl Model for Name {
    ghost use Rattle.std.specs.Prelude.{◌≡◌, List, ℕ, IsTrue};
    ghost use Rattle.rbac_terms.specs.Name.{is_name};
    ghost use Rattle.rbac_terms.specs.Keeping.Prefix.{first_bytes};

    ghost Value = { List ℕ };

    ghost view = { λ name. name.bytes.value.items };

    ghost invariant = { λ name. IsTrue (is_name name.bytes.value.items) × (name.prefix ≡ first_bytes 8 name.bytes.value.items) };
}

impl PartialEq for Name {
    ghost use Rattle.std.specs.Prelude.{◌==◌};
    ghost use Rattle.std.specs.Cmp.Lexicographic.{pointwise};
    ghost use Rattle.std.specs.Cmp.{partial_equiv_from_equiv};
    ghost use Rattle.std.proofs.lemmas.Cmp.{nat_list_eq_equiv};

    ghost eq = { pointwise ◌==◌ };

    ghost laws = { partial_equiv_from_equiv nat_list_eq_equiv };

    #[inline(always)]
    fn eq(&self, other: &Name) -> bool {
        self.cmp(other).is_eq()
    }
}

impl Eq for Name {
    ghost use Rattle.std.proofs.lemmas.Cmp.{nat_list_eq_equiv};

    ghost laws = { nat_list_eq_equiv };
}

impl Hash for Name {
    ghost use Rattle.std.proofs.Common.{rules};
    ghost use Rattle.std.specs.Cmp.Rules.{hashing};
    ghost use Rattle.rbac_terms.specs.Keeping.Prefix.{hashed};

    ghost hash_input = { hashed };

    ghost respects_eq = { Prim.search (hashing, rules) };

    #[inline(always)]
    fn hash<H: Hasher>(&self, state: &mut H) {
        state.write_u64(self.prefix);
        // Names of fewer than eight bytes are all in their number.
        if self.prefix % 256 != 0 {
            state.write(self.bytes.as_slice());
        }
    }
}

// How the bytes of two names stand whose first eight are alike: a call of its own, so that a search stays small.
#[inline(never)]
fn bytes_order(bytes: &Arc<Bytes>, others: &Arc<Bytes>) -> Ordering
    ensures { result ≡ name_cmp bytes.now.value.items others.now.value.items }
{
    bytes.as_slice().cmp(others.as_slice())
}

impl Ord for Name {
    ghost use Rattle.std.proofs.Common.{rules};
    ghost use Rattle.std.specs.Cmp.Rules.{comparing};
    ghost use Rattle.std.proofs.lemmas.Cmp.{nat_list_cmp_total};
    ghost use Rattle.rbac_terms.specs.Name.{name_cmp};

    ghost cmp = { name_cmp };

    ghost total = { nat_list_cmp_total };

    ghost matches_partial_cmp = { Prim.search (comparing, rules) };

    ghost matches_eq = { Prim.search (comparing, rules) };

    #[inline(always)]
    fn cmp(&self, other: &Name) -> Ordering {
        match self.prefix.cmp(&other.prefix) {
            // Names of fewer than eight bytes are all in their number.
            Ordering::Equal if self.prefix % 256 == 0 => Ordering::Equal,
            Ordering::Equal => bytes_order(&self.bytes, &other.bytes),
            unequal => unequal,
        }
    }
}

impl PartialOrd for Name {
    ghost use Rattle.std.proofs.Common.{rules};
    ghost use Rattle.std.specs.Cmp.{partial_order_from_own_ties};
    ghost use Rattle.std.specs.Cmp.Rules.{comparing};
    ghost use Rattle.std.specs.Ordering.{as_partial_cmp};
    ghost use Rattle.rbac_terms.specs.Name.{name_cmp};

    ghost partial_cmp = { as_partial_cmp name_cmp };

    ghost laws = { partial_order_from_own_ties (Prim.search (comparing, rules)) (Prim.search (comparing, rules)) };

    #[inline(always)]
    fn partial_cmp(&self, other: &Name) -> Option<Ordering> {
        Some(self.cmp(other))
    }
}

/// Why bytes were not taken as a name, in the order of the checks.
#[derive(Clone, Copy, Debug, PartialEq, Eq, Drop, Error)]
pub enum NameRefusal {
    #[error("a name has 1 to 64 bytes of A-Z a-z 0-9 _ - .")]
    BadName,
    #[error("no memory")]
    NoMemory,
}

fn is_name_byte(byte: u8) -> bool
    ensures { result ≡ is_byte_of_a_name byte }
{
    matches!(byte, b'A'..=b'Z' | b'a'..=b'z' | b'0'..=b'9' | b'_' | b'-' | b'.')
}

fn are_name_bytes(bytes: &[u8]) -> bool
    ensures { result ≡ list_all is_byte_of_a_name bytes.now }
{
    bytes.iter().all(|byte| is_name_byte(*byte))
}

fn is_name(bytes: &[u8]) -> bool
    ensures { result ≡ is_a_name bytes.now }
{
    1 <= bytes.len() && bytes.len() <= LONGEST_NAME && are_name_bytes(bytes)
}

// The byte at a place, or 0 past the end.
fn byte_at(bytes: &[u8], at: usize) -> u8
    ensures { result ≡ get_or bytes.now at 0 }
{
    if at < bytes.len() { bytes[at] } else { 0 }
}

// Fewer than eight bytes as one number.
fn short_prefix(bytes: &[u8]) -> u64
    ensures { result ≡ first_bytes 8 bytes.now }
{
    u64::from_be_bytes([
        byte_at(bytes, 0),
        byte_at(bytes, 1),
        byte_at(bytes, 2),
        byte_at(bytes, 3),
        byte_at(bytes, 4),
        byte_at(bytes, 5),
        byte_at(bytes, 6),
        byte_at(bytes, 7),
    ])
}

// The first eight bytes as one number: they are read at once where there are as many.
#[inline(always)]
fn prefix(bytes: &[u8]) -> u64
    ensures { result ≡ first_bytes 8 bytes.now }
{
    match bytes {
        [a, b, c, d, e, f, g, h, ..] => u64::from_be_bytes([*a, *b, *c, *d, *e, *f, *g, *h]),
        _ => short_prefix(bytes),
    }
}

// The last eight bytes as one number, of at least eight.
#[inline(always)]
fn ending(bytes: &[u8]) -> u64
    ensures { result ≡ last_bytes 8 bytes.now }
{
    prefix(&bytes[bytes.len().saturating_sub(8)..])
}

// The digest of a name, by its first eight bytes as one number and all its bytes.
#[inline(always)]
fn digest(prefix: u64, bytes: &[u8]) -> u64
    requires { prefix ≡ first_bytes 8 bytes.now }
    ensures { result ≡ digest_of bytes.now }
{
    // Names of fewer than eight bytes are all in their number.
    if prefix % 256 == 0 {
        mixed(prefix, 0)
    } else {
        mixed(prefix, ending(bytes))
    }
}

// The bytes, to be shared.
fn shared(alloc: Global, bytes: &[u8]) -> Result<Arc<Bytes>, AllocError>
    ensures { IfOk result (λ shared. shared.value.items ≡ bytes.now) }
{
    let bytes = Bytes::from_slice(alloc, bytes)?;
    Ok(Arc::new(alloc, bytes)?)
}

impl Name {
    /// Reads a name: each byte string is a name or refused.
    ///
    /// # Errors
    /// `BadName` where the bytes are no name; else `NoMemory` where there is no memory for them.
    pub fn read(alloc: Global, bytes: &[u8]) -> Result<Name, NameRefusal>
        ensures named { IfOk result (λ name. name ≡ bytes.now) }
        ensures well_formed { IfOk result (λ name. IsTrue (is_a_name name)) }
        ensures bad { (result ≡ Err NameRefusal.BadName) ↔ (is_a_name bytes.now ≡ false) }
    {
        if !is_name(bytes) {
            return Err(NameRefusal::BadName);
        }
        match shared(alloc, bytes) {
            Ok(shared) => Ok(Name {
                prefix: prefix(bytes),
                bytes: shared,
            }),
            Err(AllocError) => Err(NameRefusal::NoMemory),
        }
    }

    /// The bytes that were read.
    #[inline(always)]
    pub fn as_bytes(&self) -> &[u8]
        ensures bytes { result.now ≡ self.now }
        ensures well_formed { IsTrue (is_a_name self.now) }
    {
        self.bytes.as_slice()
    }

    /// An equal name.
    ///
    /// # Errors
    /// `AllocError` where there is no memory for it.
    #[inline(always)]
    pub fn copy(&self) -> Result<Name, AllocError>
        ensures { IfOk result (λ copy. copy ≡ self.now) }
    {
        Ok(Name {
            prefix: self.prefix,
            bytes: self.bytes.clone()?,
        })
    }
}

/// A clone is equal.
impl Clone for Name {
    ghost use Rattle.std.specs.Prelude.{◌≡◌};

    ghost is_clone = { λ name clone. clone ≡ name };

    #[inline(always)]
    fn clone(&self) -> Result<Name, AllocError> {
        self.copy()
    }
}

/// By its first and its last eight bytes: names of up to sixteen bytes that differ have other digests but by chance.
impl Digest for Name {
    ghost digest_of = { digest_of };

    #[inline(always)]
    fn digest(&self) -> u64 {
        digest(self.prefix, self.bytes.as_slice())
    }
}

/// Only equal names tie.
impl Exact for Name {
    ghost use Rattle.std.specs.FinMap.{slice_cmp-IsAntisymmetric, nat_cmp-IsAntisymmetric};

    ghost exact = { slice_cmp-IsAntisymmetric nat_cmp-IsAntisymmetric };
}

impl Duplicate for Name {
    #[inline(always)]
    fn duplicate(&self) -> Result<Name, AllocError> {
        self.clone()
    }
}

impl Same for Name {
    #[inline(always)]
    fn same(&self, other: &Name) -> bool {
        self == other
    }
}
