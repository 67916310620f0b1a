//! What is asked of a role hierarchy, however it is kept.
ghost use Rattle.std.specs.Prelude.{◌≡◌, ◌↔◌, ◌||◌, IsTrue, IfOk, OnOk, OnErr, filter};
ghost use Rattle.std.specs.List.{list_any};
ghost use Rattle.std.specs.List.Sorted.{IsStrictlySortedBy};
ghost use Rattle.sorted_keys.specs.Keys.{has, with_key, without};
ghost use Rattle.rbac_terms.specs.Inheritance.{Inherits, inherits, has_descendant, juniors, seniors};
ghost use Rattle.rbac_terms.specs.Name.{Name as NameValue, name_cmp, pair_cmp};
ghost use Rattle.rbac_terms.specs.Relations.{without_pairs_of};
ghost use Rattle.rbac_hierarchy.specs.Order.{Order, no_order};

use crate::seniors::SeniorsOf;
use rbac_terms::{Name, NameSet};
use sorted_keys::KeyTest;
use std::alloc::{AllocError, Global};

/// The roles and the declared pairs of roles (RH).
pub trait RoleOrder: Sized {
    /// The roles and the declared pairs, however they are kept.
    ghost content: { Self → Order };

    /// No roles.
    fn empty(alloc: Global) -> Self
        ensures { content result ≡ no_order };

    /// Whether the senior inherits the junior. A role inherits itself, and what is no role inherits nothing.
    fn inherits(&self, senior: &Name, junior: &Name) -> bool
        ensures definition { let h = content self.now in IsTrue result ↔ Inherits h.roles h.declared senior.now junior.now }
        ensures test { let h = content self.now in result ≡ inherits h.roles h.declared senior.now junior.now };

    /// Whether the pair is declared.
    fn declared(&self, ascendant: &Name, descendant: &Name) -> bool
        ensures { result ≡ has pair_cmp (ascendant.now, descendant.now) (content self.now).declared };

    /// Whether the role is the ascendant of a declared pair. Takes no memory.
    fn has_descendant(&self, role: &Name) -> bool
        ensures { result ≡ has_descendant role.now (content self.now).declared };

    /// The declared pairs (RH), an ascendant and a descendant each, sorted by both.
    fn declarations(&self) -> &[(Name, Name)]
        ensures { result.now ≡ (content self.now).declared };

    /// Adds a role. Where it is there, nothing changes. What the other roles inherit is not computed anew.
    fn add_role(&mut self, alloc: Global, role: &Name) -> Result<(), AllocError>
        ensures added { let h = content self.old in OnOk result (content self.new ≡ record h { roles = with_key name_cmp role.now h.roles }) }
        ensures unchanged { OnErr result (content self.new ≡ content self.old) };

    /// Takes a role out, and its pairs.
    fn remove_role(&mut self, alloc: Global, role: &Name) -> Result<(), AllocError>
        ensures removed { let h = content self.old in OnOk result (content self.new ≡ record h { roles = without name_cmp role.now h.roles; declared = without_pairs_of role.now h.declared }) }
        ensures unchanged { OnErr result (content self.new ≡ content self.old) };

    /// Declares a pair of roles. Where it is declared, nothing changes.
    fn declare(
        &mut self,
        alloc: Global,
        ascendant: &Name,
        descendant: &Name,
    ) -> Result<(), AllocError>
        requires ascendant { IsTrue (has name_cmp ascendant.now (content self.old).roles) }
        requires descendant { IsTrue (has name_cmp descendant.now (content self.old).roles) }
        ensures declared { let h = content self.old in OnOk result (content self.new ≡ record h { declared = with_key pair_cmp (ascendant.now, descendant.now) h.declared }) }
        ensures unchanged { OnErr result (content self.new ≡ content self.old) };

    /// Adds a role, and declares a pair of roles of which it is one.
    fn add_role_with_pair(
        &mut self,
        alloc: Global,
        role: &Name,
        ascendant: &Name,
        descendant: &Name,
    ) -> Result<(), AllocError>
        requires ascendant { IsTrue (has name_cmp ascendant.now (with_key name_cmp role.now (content self.old).roles)) }
        requires descendant { IsTrue (has name_cmp descendant.now (with_key name_cmp role.now (content self.old).roles)) }
        ensures added_and_declared { let h = content self.old in OnOk result (content self.new ≡ record { roles = with_key name_cmp role.now h.roles; declared = with_key pair_cmp (ascendant.now, descendant.now) h.declared }) }
        ensures unchanged { OnErr result (content self.new ≡ content self.old) };

    /// Takes a declared pair back. Where it is not declared, nothing changes.
    fn retract(
        &mut self,
        alloc: Global,
        ascendant: &Name,
        descendant: &Name,
    ) -> Result<(), AllocError>
        ensures retracted { let h = content self.old in OnOk result (content self.new ≡ record h { declared = without pair_cmp (ascendant.now, descendant.now) h.declared }) }
        ensures unchanged { OnErr result (content self.new ≡ content self.old) };

    /// The names, and the roles that the role inherits, itself among them.
    fn with_juniors(&self, names: NameSet, role: &Name) -> Result<NameSet, AllocError>
        ensures { let h = content self.now in IfOk result (λ more. (r : NameValue) → has name_cmp r more ≡ (has name_cmp r names || inherits h.roles h.declared role.now r)) };

    /// The roles that pass a test.
    fn roles_where<T: KeyTest<Name>>(&self, alloc: Global, test: &T) -> Result<NameSet, AllocError>
        ensures { IfOk result (λ roles. roles ≡ filter (T.passes test.now) (content self.now).roles) };

    /// The roles of each hierarchy are in order and without repeats.
    fn invariants(&self)
        ensures in_order { IsStrictlySortedBy name_cmp (content self.now).roles };

    /// An equal hierarchy.
    fn copy(&self) -> Result<Self, AllocError>
        ensures { IfOk result (λ copy. content copy ≡ content self.now) };

    /// Whether both have the same roles and declared pairs.
    fn same(&self, other: &Self) -> bool
        ensures { IsTrue result ↔ (content self.now ≡ content other.now) };

    /// The roles that the role inherits, itself among them.
    final fn juniors(&self, alloc: Global, role: &Name) -> Result<NameSet, AllocError>
        ensures { let h = content self.now in IfOk result (λ names. names ≡ juniors h.roles h.declared role.now) }
    {
        self.invariants();
        let juniors = self.with_juniors(NameSet::new(alloc), role)?;
        let _in_order = juniors.names();
        Ok(juniors)
    }

    /// The roles that inherit the role, itself among them.
    final fn seniors(&self, alloc: Global, role: &Name) -> Result<NameSet, AllocError>
        ensures { let h = content self.now in IfOk result (λ names. names ≡ seniors h.roles h.declared role.now) }
    {
        self.roles_where(alloc, &SeniorsOf { order: self, role })
    }

    /// The names, and the roles that the role of one of the assignments inherits. An assignment is a user and a role.
    final fn with_juniors_of_assigned(
        &self,
        names: NameSet,
        assignments: &[(Name, Name)],
    ) -> Result<NameSet, AllocError>
        ensures { let h = content self.now in IfOk result (λ more. (r : NameValue) →
            has name_cmp r more ≡ (has name_cmp r names || list_any (λ pair. inherits h.roles h.declared pair.1 r) assignments.now)) }
    {
        let from_none = names.is_empty();
        let mut more = names;
        for pair in assignments {
            more = with_missing_juniors(self, more, &pair.1, from_none)?;
        }
        Ok(more)
    }

    /// The roles that one of the roles inherits.
    final fn juniors_of_all(&self, alloc: Global, roles: &[Name]) -> Result<NameSet, AllocError>
        ensures { let h = content self.now in IfOk result (λ juniors. (r : NameValue) →
            has name_cmp r juniors ≡ list_any (λ role. inherits h.roles h.declared role r) roles.now) }
    {
        let mut juniors = NameSet::new(alloc);
        for role in roles {
            juniors = with_missing_juniors(self, juniors, role, true)?;
        }
        Ok(juniors)
    }
}

// The names, and the roles that the role inherits. Where all that a name inherits is known to be there, a role that is there is
// passed over.
fn with_missing_juniors<O: RoleOrder>(
    order: &O,
    names: NameSet,
    role: &Name,
    closed: bool,
) -> Result<NameSet, AllocError>
    ensures { let h = O.content order.now in
        (IsTrue closed → (r : NameValue) → IsTrue (has name_cmp role.now names) → IsTrue (inherits h.roles h.declared role.now r) → IsTrue (has name_cmp r names))
        → IfOk result (λ more. (r : NameValue) → has name_cmp r more ≡ (has name_cmp r names || inherits h.roles h.declared role.now r)) }
{
    if closed && names.contains(role) {
        return Ok(names);
    }
    order.with_juniors(names, role)
}
