//! Names whose bytes are lent.
ghost use Rattle.std.specs.Prelude.{◌≡◌, ◌↔◌, IsTrue, IfSome, false, None};
ghost use Rattle.rbac_terms.specs.Name.{is_name as is_a_name};
ghost use Rattle.rbac_terms.specs.Keeping.Prefix.{digest_of};

use super::{Name, digest, is_name, prefix};
use digests::Digest;
use sorted_keys::Probe;
use std::cmp::Ordering;
use std::marker::Model;

/// A name whose bytes are lent: it stands for the name of these bytes in a look-up, and takes no memory.
#[derive(Drop)]
pub struct LentName<'a> {
    // as of a name
    prefix: u64,
    bytes: &'a [u8],
}

impl<'a> Model for LentName<'a> {
    ghost use Rattle.std.specs.Prelude.{◌≡◌, List, ℕ, IsTrue};
    ghost use Rattle.rbac_terms.specs.Name.{is_name};
    ghost use Rattle.rbac_terms.specs.Keeping.Prefix.{first_bytes};

    ghost Value = { List ℕ };

    ghost view = { λ name. name.bytes.now };

    ghost invariant = { λ name. IsTrue (is_name name.bytes.now) × (name.prefix ≡ first_bytes 8 name.bytes.now) };
}

impl<'a> LentName<'a> {
    /// The name of these bytes, or none where they are no name.
    pub fn read(bytes: &'a [u8]) -> Option<LentName<'a>>
        ensures named { IfSome result (λ name. name ≡ bytes.now) }
        ensures well_formed { IfSome result (λ name. IsTrue (is_a_name name)) }
        ensures bad { (result ≡ None) ↔ (is_a_name bytes.now ≡ false) }
    {
        if !is_name(bytes) {
            return None;
        }
        Some(LentName {
            prefix: prefix(bytes),
            bytes,
        })
    }
}

/// It stands for the name of its bytes.
impl Probe<Name> for LentName<'_> {
    ghost sought = { λ name. name };

    #[inline(always)]
    fn compare(&self, key: &Name) -> Ordering {
        match key.prefix.cmp(&self.prefix) {
            // Names of fewer than eight bytes are all in their number.
            Ordering::Equal if key.prefix % 256 == 0 => Ordering::Equal,
            Ordering::Equal => key.bytes.as_slice().cmp(self.bytes),
            unequal => unequal,
        }
    }
}

/// That of the name.
impl Digest for LentName<'_> {
    ghost digest_of = { digest_of };

    #[inline(always)]
    fn digest(&self) -> u64 {
        digest(self.prefix, self.bytes)
    }
}
