//! Sets of names.
ghost use Rattle.std.specs.Prelude.{◌≡◌, ◌↔◌, [], length, count_by, IsTrue, IfOk, OnOk, OnErr, false};
ghost use Rattle.std.specs.List.Sorted.{IsStrictlySortedBy};
ghost use Rattle.sorted_keys.specs.Keys.{has, with_key, without};
ghost use Rattle.rbac_terms.specs.Name.{name_cmp};

use crate::name::Name;
use sorted_keys::{Duplicate, KeyTest, Same, SortedSet};
use std::alloc::{AllocError, Global};
use std::marker::Model;

/// A set of names. A contract sees the list of its names, sorted by bytes and without repeats.
#[derive(Drop)]
pub struct NameSet {
    names: SortedSet<Name>,
}

impl Model for NameSet {
    ghost use Rattle.std.specs.Prelude.{List, ℕ};

    ghost Value = { List (List ℕ) };

    ghost view = { λ set. set.names.content };
}

impl NameSet {
    /// The empty set.
    pub fn new(alloc: Global) -> NameSet
        ensures { result ≡ [] }
    {
        NameSet {
            names: SortedSet::new(alloc),
        }
    }

    /// The set of these names. It takes no memory.
    pub fn of(names: SortedSet<Name>) -> NameSet
        ensures { result ≡ names.content }
    {
        NameSet { names }
    }

    /// How many names there are.
    pub fn len(&self) -> usize
        ensures { result ≡ length self.now }
    {
        self.names.len()
    }

    /// Whether there are none.
    pub fn is_empty(&self) -> bool
        ensures { IsTrue result ↔ (self.now ≡ []) }
    {
        self.names.is_empty()
    }

    /// Whether the name is in the set.
    pub fn contains(&self, name: &Name) -> bool
        ensures { result ≡ has name_cmp name.now self.now }
    {
        self.names.contains(name)
    }

    /// How many of its names are in another set.
    pub fn count_in(&self, other: &NameSet) -> usize
        ensures { result ≡ count_by (λ name. has name_cmp name other.now) self.now }
    {
        self.names()
            .iter()
            .filter(|name| other.contains(name))
            .count()
    }

    /// Adds a name. Where it is there, nothing changes.
    ///
    /// # Errors
    /// `AllocError` where there is no memory for it. Nothing has changed.
    pub fn add(&mut self, name: Name) -> Result<(), AllocError>
        ensures added { OnOk result (self.new ≡ with_key name_cmp name self.old) }
        ensures unchanged { OnErr result (self.new ≡ self.old) }
        ensures absent { OnErr result (has name_cmp name self.old ≡ false) }
    {
        self.names.insert(name)
    }

    /// Adds a copy of a name. Where it is there, nothing changes.
    ///
    /// # Errors
    /// `AllocError` where there is no memory for it. Nothing has changed.
    pub fn add_copy(&mut self, name: &Name) -> Result<(), AllocError>
        ensures added { OnOk result (self.new ≡ with_key name_cmp name.now self.old) }
        ensures unchanged { OnErr result (self.new ≡ self.old) }
        ensures absent { OnErr result (has name_cmp name.now self.old ≡ false) }
    {
        self.names.insert_copy(name)
    }

    /// Takes a name out. Where it is not there, nothing changes.
    pub fn remove(&mut self, name: &Name)
        ensures { self.new ≡ without name_cmp name.now self.old }
    {
        self.names.remove(name);
    }

    /// The names, sorted by their bytes.
    pub fn names(&self) -> &[Name]
        ensures names { result.now ≡ self.now }
        ensures in_order { IsStrictlySortedBy name_cmp self.now }
    {
        self.names.keys()
    }

    /// An equal set.
    ///
    /// # Errors
    /// `AllocError` where there is no memory for it.
    pub fn copy(&self) -> Result<NameSet, AllocError>
        ensures { IfOk result (λ copy. copy ≡ self.now) }
    {
        Ok(NameSet {
            names: self.names.copy()?,
        })
    }

    /// A set of these names and one more.
    ///
    /// # Errors
    /// `AllocError` where there is no memory for it.
    pub fn copy_with(&self, name: &Name) -> Result<NameSet, AllocError>
        ensures { IfOk result (λ copy. copy ≡ with_key name_cmp name.now self.now) }
    {
        Ok(NameSet {
            names: self.names.copy_with(name)?,
        })
    }
}

/// The names of the set pass.
impl KeyTest<Name> for NameSet {
    ghost passes = { λ set name. has name_cmp name set };

    fn test(&self, name: &Name) -> bool {
        self.contains(name)
    }
}

impl PartialEq for NameSet {
    ghost use Rattle.std.specs.Prelude.{◌==◌};
    ghost use Rattle.std.specs.Cmp.Lexicographic.{pointwise};
    ghost use Rattle.std.specs.Cmp.{partial_equiv_from_equiv};
    ghost use Rattle.std.proofs.lemmas.Cmp.{nat_list_eq_equiv, lists_equiv};

    ghost eq = { pointwise (pointwise ◌==◌) };

    ghost laws = { partial_equiv_from_equiv (lists_equiv nat_list_eq_equiv) };

    fn eq(&self, other: &NameSet) -> bool {
        self.names() == other.names()
    }
}

impl Eq for NameSet {
    ghost use Rattle.std.proofs.lemmas.Cmp.{nat_list_eq_equiv, lists_equiv};

    ghost laws = { lists_equiv nat_list_eq_equiv };
}

/// A clone is equal.
impl Clone for NameSet {
    ghost use Rattle.std.specs.Prelude.{◌≡◌};

    ghost is_clone = { λ set clone. clone ≡ set };

    fn clone(&self) -> Result<NameSet, AllocError> {
        self.copy()
    }
}

impl Duplicate for NameSet {
    fn duplicate(&self) -> Result<NameSet, AllocError> {
        self.copy()
    }
}

impl Same for NameSet {
    fn same(&self, other: &NameSet) -> bool {
        self.names.same(&other.names)
    }
}
