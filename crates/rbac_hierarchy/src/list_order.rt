//! A hierarchy as a list of rows.
ghost use Rattle.std.specs.Prelude.{◌≡◌, ◌↔◌, ◌||◌, IsTrue, IfOk, OnOk, OnErr, filter};
ghost use Rattle.std.specs.List.Sorted.{IsStrictlySortedBy};
ghost use Rattle.sorted_keys.specs.Keys.{has, with_key, without};
ghost use Rattle.rbac_terms.specs.Inheritance.{inherits};
ghost use Rattle.rbac_terms.specs.Name.{Name as NameValue, name_cmp, pair_cmp};
ghost use Rattle.rbac_terms.specs.Relations.{without_pairs_of};
ghost use Rattle.rbac_hierarchy.specs.Order.{no_order};
ghost use Rattle.rbac_hierarchy.specs.Rows.{RangesOver};

use crate::descendant::has_descendant;
use crate::order::RoleOrder;
use crate::removal::OtherPairs;
use crate::rows::{lone_row, renewed_rows, roles_where};
use rbac_terms::{Name, NameSet};
use sorted_keys::{KeyTest, PairProbe, SortedMap, SortedSet};
use std::alloc::{AllocError, Global};
use std::marker::Model;

// The names, and copies of these.
fn with_all(names: NameSet, added: &[Name]) -> Result<NameSet, AllocError>
    ensures { IfOk result (λ more. (r : NameValue) → has name_cmp r more ≡ (has name_cmp r names || has name_cmp r added.now)) }
{
    let mut more = names;
    for name in added {
        more.add_copy(name)?;
    }
    Ok(more)
}

/// The roles and the declared pairs of roles (RH).
///
/// For each role the set of its juniors, itself among them, is kept, so that a question is a look-up. A change of the
/// declared pairs computes these sets anew.
#[derive(Drop)]
pub struct ListOrder {
    declared: SortedSet<(Name, Name)>,
    juniors: SortedMap<Name, NameSet>,
}

impl Model for ListOrder {
    ghost use Rattle.rbac_hierarchy.specs.Order.{Hierarchy as HierarchyValue};
    ghost use Rattle.rbac_hierarchy.specs.Rows.{AreRows, roles_in};

    ghost Value = { HierarchyValue };

    ghost view = { λ h. record { content = record { roles = roles_in h.juniors.content; declared = h.declared.content }; room = h.declared.room } };

    ghost invariant = { λ h. AreRows h.declared.content h.juniors.content };
}

impl ListOrder {
    // Puts these pairs in place of the declared ones, with the juniors that they give.
    fn replace_pairs(
        &mut self,
        alloc: Global,
        declared: SortedSet<(Name, Name)>,
    ) -> Result<(), AllocError>
        requires { RangesOver self.old.content.roles declared.content }
        ensures replaced { let h = self.old.content in OnOk result (self.new.content ≡ record h { declared = declared.content }) }
        ensures unchanged { OnErr result (self.new.content ≡ self.old.content) }
    {
        let juniors = renewed_rows(alloc, &self.juniors, &declared)?;
        self.declared = declared;
        self.juniors = juniors;
        Ok(())
    }
}

impl RoleOrder for ListOrder {
    ghost content = { λ h. h.content };

    fn empty(alloc: Global) -> ListOrder {
        ListOrder {
            declared: SortedSet::new(alloc),
            juniors: SortedMap::new(alloc),
        }
    }

    fn inherits(&self, senior: &Name, junior: &Name) -> bool {
        match self.juniors.get(senior) {
            Some(names) => names.contains(junior),
            None => false,
        }
    }

    fn declared(&self, ascendant: &Name, descendant: &Name) -> bool {
        self.declared.contains(&PairProbe {
            first: ascendant,
            second: descendant,
        })
    }

    fn has_descendant(&self, role: &Name) -> bool {
        has_descendant(&self.declared, role)
    }

    fn declarations(&self) -> &[(Name, Name)] {
        self.declared.keys()
    }

    fn add_role(&mut self, alloc: Global, role: &Name) -> Result<(), AllocError> {
        if self.juniors.contains(role) {
            return Ok(());
        }
        let names = lone_row(alloc, role)?;
        let role = role.copy()?;
        self.juniors.insert(role, names)
    }

    fn remove_role(&mut self, alloc: Global, role: &Name) -> Result<(), AllocError> {
        let mut declared = self.declared.copy()?;
        declared.retain(&OtherPairs { role });
        self.replace_pairs(alloc, declared)?;
        self.juniors.remove(role);
        Ok(())
    }

    fn declare(
        &mut self,
        alloc: Global,
        ascendant: &Name,
        descendant: &Name,
    ) -> Result<(), AllocError> {
        let mut declared = self.declared.copy()?;
        let first = ascendant.copy()?;
        let second = descendant.copy()?;
        declared.insert((first, second))?;
        self.replace_pairs(alloc, declared)
    }

    fn add_role_with_pair(
        &mut self,
        alloc: Global,
        role: &Name,
        ascendant: &Name,
        descendant: &Name,
    ) -> Result<(), AllocError> {
        let mut changed = self.copy()?;
        changed.add_role(alloc, role)?;
        changed.declare(alloc, ascendant, descendant)?;
        *self = changed;
        Ok(())
    }

    fn retract(
        &mut self,
        alloc: Global,
        ascendant: &Name,
        descendant: &Name,
    ) -> Result<(), AllocError> {
        let mut declared = self.declared.copy()?;
        declared.remove(&PairProbe {
            first: ascendant,
            second: descendant,
        });
        self.replace_pairs(alloc, declared)
    }

    fn with_juniors(&self, names: NameSet, role: &Name) -> Result<NameSet, AllocError> {
        match self.juniors.get(role) {
            Some(juniors) => with_all(names, juniors.names()),
            None => Ok(names),
        }
    }

    fn roles_where<T: KeyTest<Name>>(
        &self,
        alloc: Global,
        test: &T,
    ) -> Result<NameSet, AllocError> {
        roles_where(alloc, self.juniors.entries(), test)
    }

    fn invariants(&self) {
        let _juniors = &self.juniors;
    }

    fn copy(&self) -> Result<ListOrder, AllocError> {
        Ok(ListOrder {
            declared: self.declared.copy()?,
            juniors: self.juniors.copy()?,
        })
    }

    fn same(&self, other: &ListOrder) -> bool {
        self.declared.same(&other.declared) && self.juniors.same(&other.juniors)
    }
}
