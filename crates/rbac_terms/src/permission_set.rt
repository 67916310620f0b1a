//! Sets of permissions.
ghost use Rattle.std.specs.Prelude.{◌≡◌, ◌↔◌, IsTrue, IfOk};
ghost use Rattle.std.specs.List.Sorted.{IsStrictlySortedBy};
ghost use Rattle.rbac_terms.specs.Name.{pair_cmp};

use crate::name::Name;
use sorted_keys::{Same, SortedSet};
use std::alloc::AllocError;
use std::marker::Model;

/// A set of permissions, each an operation and an object. A contract sees the list of them, sorted by operation and then by
/// object, and without repeats.
#[derive(Drop)]
pub struct PermissionSet {
    permissions: SortedSet<(Name, Name)>,
}

impl Model for PermissionSet {
    ghost use Rattle.std.specs.Prelude.{List};
    ghost use Rattle.rbac_terms.specs.Name.{Permission};

    ghost Value = { List Permission };

    ghost view = { λ set. set.permissions.content };
}

impl PermissionSet {
    /// The set of these pairs. It takes no memory.
    pub fn of(permissions: SortedSet<(Name, Name)>) -> PermissionSet
        ensures { result ≡ permissions.content }
    {
        PermissionSet { permissions }
    }

    /// The permissions, sorted by operation and then by object.
    pub fn permissions(&self) -> &[(Name, Name)]
        ensures permissions { result.now ≡ self.now }
        ensures in_order { IsStrictlySortedBy pair_cmp self.now }
    {
        self.permissions.keys()
    }

    /// An equal set.
    ///
    /// # Errors
    /// `AllocError` where there is no memory for it.
    pub fn copy(&self) -> Result<PermissionSet, AllocError>
        ensures { IfOk result (λ copy. copy ≡ self.now) }
    {
        Ok(PermissionSet {
            permissions: self.permissions.copy()?,
        })
    }
}

/// A clone is equal.
impl Clone for PermissionSet {
    ghost use Rattle.std.specs.Prelude.{◌≡◌};

    ghost is_clone = { λ set clone. clone ≡ set };

    fn clone(&self) -> Result<PermissionSet, AllocError> {
        self.copy()
    }
}

impl Same for PermissionSet {
    fn same(&self, other: &PermissionSet) -> bool {
        self.permissions.same(&other.permissions)
    }
}
