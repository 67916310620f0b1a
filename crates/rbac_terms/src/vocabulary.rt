//! The vocabulary of a policy: its operations, its objects and its permissions, and the kind of its role hierarchy.
ghost use Rattle.std.specs.Prelude.{◌≡◌, ◌↔◌, ◌&&◌, IsTrue, None, Some, IfOk, IfErr, OnOk, OnErr, false, true, filter};
ghost use Rattle.std.specs.List.{list_all, list_any};
ghost use Rattle.std.specs.Ordering.{eq_by_cmp};
ghost use Rattle.sorted_keys.specs.Keys.{has, set_of, repeats};
ghost use Rattle.rbac_terms.specs.Build.{vocabulary_refusal};
ghost use Rattle.rbac_terms.specs.Vocabulary.{IsVocabulary, is_listed};
ghost use Rattle.rbac_terms.specs.Name.{name_cmp, pair_cmp};
ghost use Rattle.rbac_terms.specs.declared.hierarchy_kind.HierarchyKind.TheVariants.{General};

use crate::hierarchy_kind::HierarchyKind;
use crate::limits::{MOST_OBJECTS, MOST_OPERATIONS, MOST_PERMISSIONS};
use crate::name::Name;
use crate::name_set::NameSet;
use crate::permission_set::PermissionSet;
use sorted_keys::{Exact, KeyTest, PairProbe, Probe, SortedSet};
use std::alloc::{AllocError, Global};
use std::marker::Model;
use thiserror::Error;

/// At most 256 operations, 4,096 objects, and 16,384 pairs of these, the permissions; and the kind of the role hierarchy. No
/// command changes them.
#[derive(Drop)]
pub struct Vocabulary {
    operations: SortedSet<Name>,
    objects: SortedSet<Name>,
    permissions: SortedSet<(Name, Name)>,
    hierarchy: HierarchyKind,
}

impl Model for Vocabulary {
    ghost use Rattle.rbac_terms.specs.Vocabulary.{Vocabulary as VocabularyValue, IsVocabulary};

    ghost Value = { VocabularyValue };

    ghost view = { λ v. record { operations = v.operations.content; objects = v.objects.content; permissions = v.permissions.content; hierarchy = v.hierarchy } };

    ghost invariant = { λ v. IsVocabulary (record { operations = v.operations.content; objects = v.objects.content; permissions = v.permissions.content; hierarchy = v.hierarchy }) };
}

/// Why lists make no vocabulary, in the order of the checks.
#[derive(Clone, Copy, Debug, PartialEq, Eq, Drop, Error)]
pub enum VocabularyRefusal {
    #[error("a vocabulary has at most 256 operations, 4096 objects and 16384 permissions")]
    TooMany,
    #[error("an operation, an object or a permission stands twice")]
    Repeated,
    #[error("a permission speaks of an operation or an object that is not listed")]
    UnknownName,
    #[error("no memory")]
    NoMemory,
}

// The set of a list in which nothing stands twice.
fn gather<K: Exact + Drop>(keys: Vec<K>) -> Result<SortedSet<K>, VocabularyRefusal>
    ensures content { IfOk result (λ set. set.content ≡ set_of K.cmp keys.items) }
    ensures distinct { OnOk result (repeats K.cmp keys.items ≡ false) }
    ensures repeated { OnErr result (repeats K.cmp keys.items ≡ true) }
    ensures refusal { IfErr result (λ refusal. refusal ≡ VocabularyRefusal.Repeated) }
{
    match SortedSet::from_vec(keys) {
        Ok(set) => Ok(set),
        Err(_) => Err(VocabularyRefusal::Repeated),
    }
}

// Whether each permission speaks of these operations and objects.
fn are_listed(
    operations: &SortedSet<Name>,
    objects: &SortedSet<Name>,
    permissions: &SortedSet<(Name, Name)>,
) -> bool
    ensures { result ≡ list_all (is_listed operations.now.content objects.now.content) permissions.now.content }
{
    permissions.keys().iter().all(|permission| operations.contains(&permission.0)
        && objects.contains(&permission.1))
}

impl Vocabulary {
    /// A vocabulary of these lists, with a general hierarchy. It takes no memory.
    ///
    /// # Errors
    /// The first that applies: `TooMany`, `Repeated`, `UnknownName`.
    pub fn build(
        operations: Vec<Name>,
        objects: Vec<Name>,
        permissions: Vec<(Name, Name)>,
    ) -> Result<Vocabulary, VocabularyRefusal>
        ensures operations { IfOk result (λ v. v.operations ≡ set_of name_cmp operations.items) }
        ensures objects { IfOk result (λ v. v.objects ≡ set_of name_cmp objects.items) }
        ensures permissions { IfOk result (λ v. v.permissions ≡ set_of pair_cmp permissions.items) }
        ensures hierarchy { IfOk result (λ v. v.hierarchy ≡ General) }
        ensures fits { OnOk result (vocabulary_refusal operations.items objects.items permissions.items ≡ None) }
        ensures first_refusal { IfErr result (λ refusal. vocabulary_refusal operations.items objects.items permissions.items ≡ Some refusal) }
    {
        if MOST_OPERATIONS < operations.len()
            || MOST_OBJECTS < objects.len()
            || MOST_PERMISSIONS < permissions.len()
        {
            return Err(VocabularyRefusal::TooMany);
        }
        let operations = gather(operations)?;
        let objects = gather(objects)?;
        let permissions = gather(permissions)?;
        if !are_listed(&operations, &objects, &permissions) {
            return Err(VocabularyRefusal::UnknownName);
        }
        Ok(Vocabulary {
            operations,
            objects,
            permissions,
            hierarchy: HierarchyKind::General,
        })
    }

    /// The same operations, objects and permissions, with this kind of role hierarchy. It takes no memory.
    pub fn with_hierarchy(self, kind: HierarchyKind) -> Vocabulary
        ensures { result ≡ record self { hierarchy = kind } }
    {
        Vocabulary {
            operations: self.operations,
            objects: self.objects,
            permissions: self.permissions,
            hierarchy: kind,
        }
    }

    /// The kind of the role hierarchy.
    pub fn hierarchy(&self) -> HierarchyKind
        ensures { result ≡ self.now.hierarchy }
    {
        self.hierarchy
    }

    /// Whether it is one of the operations.
    pub fn has_operation<P: Probe<Name>>(&self, operation: &P) -> bool
        ensures { result ≡ has name_cmp (P.sought operation.now) self.now.operations }
    {
        self.operations.contains(operation)
    }

    /// Whether it is one of the objects.
    pub fn has_object<P: Probe<Name>>(&self, object: &P) -> bool
        ensures { result ≡ has name_cmp (P.sought object.now) self.now.objects }
    {
        self.objects.contains(object)
    }

    /// Whether the operation on the object is one of the permissions.
    pub fn has_permission(&self, operation: &Name, object: &Name) -> bool
        ensures { result ≡ has pair_cmp (operation.now, object.now) self.now.permissions }
    {
        self.permissions.contains(&PairProbe {
            first: operation,
            second: object,
        })
    }

    /// The operations that pass a test.
    ///
    /// # Errors
    /// `AllocError` where there is no memory for it.
    pub fn operations_where<T: KeyTest<Name>>(
        &self,
        alloc: Global,
        test: &T,
    ) -> Result<NameSet, AllocError>
        ensures { IfOk result (λ operations. operations ≡ filter (T.passes test.now) self.now.operations) }
    {
        Ok(NameSet::of(self.operations.copy_where(alloc, test)?))
    }

    /// The permissions that pass a test.
    ///
    /// # Errors
    /// `AllocError` where there is no memory for it.
    pub fn permissions_where<T: KeyTest<(Name, Name)>>(
        &self,
        alloc: Global,
        test: &T,
    ) -> Result<PermissionSet, AllocError>
        ensures { IfOk result (λ permissions. permissions ≡ filter (T.passes test.now) self.now.permissions) }
    {
        Ok(PermissionSet::of(self.permissions.copy_where(alloc, test)?))
    }

    /// Each vocabulary is within the limits, and its permissions speak of its own operations and objects.
    pub fn invariants(&self)
        ensures { IsVocabulary self.now }
    {
        let _operations = &self.operations;
    }

    /// An equal vocabulary.
    ///
    /// # Errors
    /// `AllocError` where there is no memory for it.
    pub fn copy(&self) -> Result<Vocabulary, AllocError>
        ensures { IfOk result (λ copy. copy ≡ self.now) }
    {
        Ok(Vocabulary {
            operations: self.operations.copy()?,
            objects: self.objects.copy()?,
            permissions: self.permissions.copy()?,
            hierarchy: self.hierarchy,
        })
    }

    /// Whether both speak of the same operations, objects and permissions, and have the same kind of hierarchy.
    pub fn same(&self, other: &Vocabulary) -> bool
        ensures { IsTrue result ↔ (self.now ≡ other.now) }
    {
        self.operations.same(&other.operations)
            && self.objects.same(&other.objects)
            && self.permissions.same(&other.permissions)
            && self.hierarchy == other.hierarchy
    }
}
