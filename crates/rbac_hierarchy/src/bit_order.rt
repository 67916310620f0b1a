//! A hierarchy as a row of bits for each role.
mod numbers;
mod renewal;
mod steps;

use crate::descendant::has_descendant;
use crate::order::RoleOrder;
use bit_rows::Relation;
use indexmap::IndexSet;
use numbers::{ByName, JuniorsOf, number_of, same_roles, with_roles_where};
use rbac_terms::{Name, NameSet};
use sorted_keys::{KeyTest, PairProbe, SortedSet};
use std::alloc::{AllocError, Global};
use std::marker::Model;

/// The roles and the declared pairs of roles (RH).
///
/// Roles are numbered, and for each the bits of its juniors are kept, its own among them. So a question is two look-ups
/// and a bit. A declared pair joins one row into others; a pair that is taken back makes some rows anew.
#[derive(Drop)]
pub struct BitOrder {
    declared: SortedSet<(Name, Name)>,
    numbers: IndexSet<Name>,
    inherited: Relation,
    // Where a change gathers pairs.
    pairs: Vec<(usize, usize)>,
}

impl Model for BitOrder {
    ghost use Rattle.std.specs.Prelude.{◌-◌, length, min, vec_capacity};
    ghost use Rattle.indexmap.specs.IndexSet.{spare};
    ghost use Rattle.rbac_hierarchy.specs.Order.{Hierarchy as HierarchyValue};
    ghost use Rattle.rbac_hierarchy.specs.Numbers.{IsExact, roles_of};

    ghost Value = { HierarchyValue };

    ghost view = { λ h. record { content = record { roles = roles_of h.numbers.keys; declared = h.declared.content }; room = min (min h.declared.room (spare h.numbers)) (min h.inherited.room (vec_capacity h.pairs - length h.declared.content)) } };

    ghost invariant = { λ h. IsExact h.numbers.keys h.declared.content h.inherited };
}

impl RoleOrder for BitOrder {
    ghost content = { λ h. h.content };

    fn empty(alloc: Global) -> BitOrder {
        BitOrder {
            declared: SortedSet::new(alloc),
            numbers: IndexSet::new(alloc),
            inherited: Relation::new(alloc),
            pairs: Vec::new(alloc),
        }
    }

    fn inherits(&self, senior: &Name, junior: &Name) -> bool {
        let Some(above) = number_of(&self.numbers, senior) else {
            return false;
        };
        let Some(below) = number_of(&self.numbers, junior) else {
            return false;
        };
        self.inherited.has(above, below)
    }

    fn declared(&self, ascendant: &Name, descendant: &Name) -> bool {
        self.declared.contains(&PairProbe {
            first: ascendant,
            second: descendant,
        })
    }

    fn has_descendant(&self, role: &Name) -> bool {
        has_descendant(&self.declared, role)
    }

    fn declarations(&self) -> &[(Name, Name)] {
        self.declared.keys()
    }

    fn add_role(&mut self, alloc: Global, role: &Name) -> Result<(), AllocError> {
        let role = role.copy()?;
        self.reserve(alloc, 1)?;
        self.put_role(role);
        Ok(())
    }

    fn remove_role(&mut self, alloc: Global, role: &Name) -> Result<(), AllocError> {
        self.reserve(alloc, 1)?;
        self.take_role(role);
        Ok(())
    }

    fn declare(
        &mut self,
        alloc: Global,
        ascendant: &Name,
        descendant: &Name,
    ) -> Result<(), AllocError> {
        let pair = (ascendant.copy()?, descendant.copy()?);
        self.reserve(alloc, 1)?;
        self.put_pair(pair);
        Ok(())
    }

    fn add_role_with_pair(
        &mut self,
        alloc: Global,
        role: &Name,
        ascendant: &Name,
        descendant: &Name,
    ) -> Result<(), AllocError> {
        let pair = (ascendant.copy()?, descendant.copy()?);
        let role = role.copy()?;
        self.reserve(alloc, 2)?;
        self.put_role(role);
        self.put_pair(pair);
        Ok(())
    }

    fn retract(
        &mut self,
        alloc: Global,
        ascendant: &Name,
        descendant: &Name,
    ) -> Result<(), AllocError> {
        self.reserve(alloc, 1)?;
        self.take_pair(ascendant, descendant);
        Ok(())
    }

    fn with_juniors(&self, names: NameSet, role: &Name) -> Result<NameSet, AllocError> {
        let Some(above) = number_of(&self.numbers, role) else {
            return Ok(names);
        };
        let juniors = JuniorsOf {
            inherited: &self.inherited,
            above,
        };
        with_roles_where(names, self.numbers.as_slice(), &juniors)
    }

    fn roles_where<T: KeyTest<Name>>(
        &self,
        alloc: Global,
        test: &T,
    ) -> Result<NameSet, AllocError> {
        let none = NameSet::new(alloc);
        let roles = with_roles_where(none, self.numbers.as_slice(), &ByName { test })?;
        let _in_order = roles.names();
        Ok(roles)
    }

    fn invariants(&self) {
        let _numbers = &self.numbers;
    }

    fn copy(&self) -> Result<BitOrder, AllocError> {
        Ok(BitOrder {
            declared: self.declared.copy()?,
            numbers: self.numbers.clone()?,
            inherited: self.inherited.copy()?,
            pairs: Vec::new(*self.pairs.allocator()),
        })
    }

    fn same(&self, other: &BitOrder) -> bool {
        self.declared.same(&other.declared) && same_roles(&self.numbers, &other.numbers)
    }
}
