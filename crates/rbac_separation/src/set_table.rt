//! The sets of roles by their names.
ghost use Rattle.std.specs.Prelude.{◌≡◌, ◌↔◌, [], length, map, is_some, IsTrue, IfOk, OnOk, OnErr};
ghost use Rattle.std.specs.List.Sorted.{IsStrictlySortedBy};
ghost use Rattle.std.specs.Option.{option_copied, option_map};
ghost use Rattle.std.specs.FinMap.Entries.{find, put};
ghost use Rattle.sorted_keys.specs.Keys.{by_key, with_key, without, without_key, updated};
ghost use Rattle.rbac_terms.specs.Name.{name_cmp};
ghost use Rattle.rbac_terms.specs.Separation.{first_broken, is_constrained};

use crate::change::{CardinalityChange, MemberAddition, MemberRemoval};
use crate::role_set::RoleSet;
use rbac_terms::{Name, NameSet};
use sorted_keys::SortedMap;
use std::alloc::{AllocError, Global};
use std::marker::Model;

/// Sets of roles, each by its name and with its number. Static separation has one table, whose sets
/// are held against the roles that a user is authorized for, and dynamic separation another, held
/// against the roles that are active in a session.
#[derive(Drop)]
pub struct SetTable {
    pub(crate) sets: SortedMap<Name, RoleSet>,
}

impl Model for SetTable {
    ghost use Rattle.rbac_separation.specs.SetTable.{SetTable as SetTableValue};

    ghost Value = { SetTableValue };

    ghost view = { λ t. record { content = t.sets.content; room = t.sets.room } };
}

// The name of the first of the sets that these roles break.
fn find_broken<'a>(sets: &'a [(Name, RoleSet)], roles: &NameSet) -> Option<&'a Name>
    ensures { option_copied result ≡ first_broken roles.now sets.now }
{
    for entry in sets {
        if entry.1.is_broken_by(roles) {
            return Some(&entry.0);
        }
    }
    None
}

// Whether the role is in some of the sets.
fn is_in_some(role: &Name, sets: &[(Name, RoleSet)]) -> bool
    ensures { result ≡ is_constrained role.now sets.now }
{
    sets.iter().any(|entry| entry.1.roles.contains(role))
}

impl SetTable {
    /// No sets. Takes no memory.
    pub fn empty(alloc: Global) -> SetTable
        ensures { result.content ≡ [] }
    {
        SetTable {
            sets: SortedMap::new(alloc),
        }
    }

    /// How many sets there are.
    pub fn len(&self) -> usize
        ensures { result ≡ length self.now.content }
    {
        self.sets.len()
    }

    /// Whether there is a set of this name.
    pub fn contains(&self, set: &Name) -> bool
        ensures { result ≡ is_some (find name_cmp set.now self.now.content) }
    {
        self.sets.contains(set)
    }

    /// The set of this name.
    pub fn get(&self, set: &Name) -> Option<&RoleSet>
        ensures { option_copied result ≡ find name_cmp set.now self.now.content }
    {
        self.sets.get(set)
    }

    /// The roles of the set.
    pub fn roles(&self, set: &Name) -> Option<&NameSet>
        ensures { option_copied result ≡ option_map (λ s. s.roles) (find name_cmp set.now self.now.content) }
    {
        self.sets.get(set).map(|found| &found.roles)
    }

    /// The number of the set.
    pub fn cardinality(&self, set: &Name) -> Option<u32>
        ensures { result ≡ option_map (λ s. s.cardinality) (find name_cmp set.now self.now.content) }
    {
        self.sets.get(set).map(|found| found.cardinality)
    }

    /// The sets with their names, in order of these.
    pub fn entries(&self) -> &[(Name, RoleSet)]
        ensures entries { result.now ≡ self.now.content }
    {
        self.sets.entries()
    }

    /// The names of the sets.
    ///
    /// # Errors
    /// `AllocError` where there is no memory for it.
    pub fn names(&self, alloc: Global) -> Result<NameSet, AllocError>
        ensures { IfOk result (λ names. names ≡ map (λ e. e.0) self.now.content) }
    {
        let sets = self.sets.entries();
        let mut names = NameSet::new(alloc);
        for entry in sets {
            names.add(entry.0.copy()?)?;
        }
        Ok(names)
    }

    /// The first set by name of which as many roles as its number, or more, are among these. Takes no memory.
    pub fn over(&self, roles: &NameSet) -> Option<&Name>
        ensures { option_copied result ≡ first_broken roles.now self.now.content }
    {
        find_broken(self.sets.entries(), roles)
    }

    /// Whether the role is in some set.
    pub fn holds_role(&self, role: &Name) -> bool
        ensures { result ≡ is_constrained role.now self.now.content }
    {
        is_in_some(role, self.sets.entries())
    }

    /// Makes a set of these roles with this number, which it takes as it is: whether the roles are
    /// enough for the number is for the caller to see. A set of the same name is replaced.
    ///
    /// # Errors
    /// `AllocError` where there is no memory for it. Nothing has changed.
    pub fn create(&mut self, set: Name, roles: NameSet, cardinality: u32) -> Result<(), AllocError>
        ensures created { OnOk result (self.new.content ≡ put name_cmp set (record { roles = roles; cardinality = cardinality }) self.old.content) }
        ensures unchanged { OnErr result (self.new.content ≡ self.old.content) }
    {
        self.sets.insert(set, RoleSet { roles, cardinality })
    }

    /// Takes a set out. Where it is not there, nothing changes.
    pub fn delete(&mut self, set: &Name)
        ensures { self.new.content ≡ without_key name_cmp set.now self.old.content }
    {
        self.sets.remove(set);
    }

    /// Puts a role into a set. Where the set is not there, nothing changes.
    ///
    /// # Errors
    /// `AllocError` where there is no memory for it. Nothing has changed.
    pub fn add_member(&mut self, set: &Name, role: Name) -> Result<(), AllocError>
        ensures added { OnOk result (self.new.content ≡ updated name_cmp set.now (λ s. record s { roles = with_key name_cmp role s.roles }) self.old.content) }
        ensures unchanged { OnErr result (self.new.content ≡ self.old.content) }
    {
        self.sets.update(set, MemberAddition { role })
    }

    /// Takes a role out of a set. Where the set is not there, nothing changes.
    pub fn remove_member(&mut self, set: &Name, role: &Name)
        ensures { self.new.content ≡ updated name_cmp set.now (λ s. record s { roles = without name_cmp role.now s.roles }) self.old.content }
    {
        match self.sets.update(set, MemberRemoval { role }) {
            Ok(()) => {}
            Err(never) => match never {},
        }
    }

    /// Gives a set another number. Where the set is not there, nothing changes.
    pub fn set_cardinality(&mut self, set: &Name, cardinality: u32)
        ensures { self.new.content ≡ updated name_cmp set.now (λ s. record s { cardinality = cardinality }) self.old.content }
    {
        match self.sets.update(set, CardinalityChange { cardinality }) {
            Ok(()) => {}
            Err(never) => match never {},
        }
    }

    /// The sets are a map: in the order of their names, each once.
    pub fn invariants(&self)
        ensures { IsStrictlySortedBy (by_key name_cmp) self.now.content }
    {
        let _sets = self.sets.entries();
    }

    /// Equal sets.
    ///
    /// # Errors
    /// `AllocError` where there is no memory for it.
    pub fn copy(&self) -> Result<SetTable, AllocError>
        ensures { IfOk result (λ copy. copy.content ≡ self.now.content) }
    {
        Ok(SetTable {
            sets: self.sets.copy()?,
        })
    }

    /// Whether both have the same sets.
    pub fn same(&self, other: &SetTable) -> bool
        ensures { IsTrue result ↔ (self.now.content ≡ other.now.content) }
    {
        self.sets.same(&other.sets)
    }
}
