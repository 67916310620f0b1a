//! The first failing precondition of each command about the role hierarchy (ANSI INCITS 359-2004, 6.2).
ghost use Rattle.std.specs.Prelude.{◌≡◌, OnOk};
ghost use Rattle.rbac_decide.specs.Words.{first_where, option_copied, eq_by_cmp, change, is_violated, name_cmp, is_limited_at, AddInheritance};
ghost use Rattle.rbac_decide.specs.Words.{DeleteInheritance, AddAscendant, AddDescendant, Static};
ghost use Rattle.rbac_decide.specs.Counting.{TellsAfter};
ghost use Rattle.rbac_decide.specs.Gains.{changes_gathered};
ghost use Rattle.rbac_decide.specs.Hindrance.{Decides, DecidesUnless, Denies, Tells, first_descendant, static_breach};
ghost use Rattle.rbac_decide.specs.Hindrance.Named.{a_pair};

use crate::gathered::Ground;
use crate::hindrance::{Hindrance, Obstacle, deny_for, deny_if};
use crate::named::Named;
use crate::policy::Policy;
use rbac_hierarchy::RoleOrder;
use rbac_terms::{Denial, Name};
use std::alloc::Global;

// The first pair with this ascendant.
fn pair_below<'a>(pairs: &'a [(Name, Name)], ascendant: &Name) -> Option<&'a (Name, Name)>
    ensures { option_copied result ≡ first_where (λ pair. eq_by_cmp name_cmp ascendant.now pair.0) pairs.now }
{
    pairs.iter().find(|pair| ascendant.cmp(&pair.0).is_eq())
}

impl Policy {
    // The declared descendant that the role has already, where the hierarchy is limited (ANSI INCITS 359-2004, 5.2: Limited Role
    // Hierarchies).
    fn limiting_pair<'a>(&'a self, ascendant: &'a Name) -> Option<Named<'a>>
        ensures { Tells (is_limited_at self.now ascendant.now) (a_pair ascendant.now (first_descendant self.now ascendant.now)) result }
    {
        if !self.vocabulary.hierarchy().is_limited() {
            return None;
        }
        if !self.tables.hierarchy.has_descendant(ascendant) {
            return None;
        }
        match pair_below(self.tables.hierarchy.declarations(), ascendant) {
            Some(pair) => Some(Named::Pair {
                ascendant,
                descendant: &pair.1,
            }),
            None => None,
        }
    }

    // Denies where the role may have no declared descendant more.
    fn deny_limited<'a>(&'a self, ascendant: &'a Name) -> Result<(), Hindrance<'a>>
        ensures { Denies (is_limited_at self.now ascendant.now) (record { denial = Denial.Limited; named = a_pair ascendant.now (first_descendant self.now ascendant.now) }) result }
    {
        deny_for(self.limiting_pair(ascendant), Denial::Limited)
    }

    // Denies where the pair breaks a static set.
    fn deny_pair<'a>(
        &'a self,
        ascendant: &Name,
        descendant: &Name,
        breach: Option<Named<'a>>,
    ) -> Result<(), Hindrance<'a>>
        requires { let after = change (AddInheritance ascendant.now descendant.now) self.now in Tells (is_violated Static after) (static_breach after) breach }
        ensures { let after = change (AddInheritance ascendant.now descendant.now) self.now in Denies (is_violated Static after) (record { denial = Denial.SsdViolated; named = static_breach after }) result }
    {
        deny_for(breach, Denial::SsdViolated)
    }

    pub(crate) fn may_add_inheritance<'a>(
        &'a self,
        alloc: Global,
        ascendant: &'a Name,
        descendant: &'a Name,
        gathered: &mut Ground,
    ) -> Result<(), Obstacle<'a>>
        ensures hindrance { DecidesUnless (AddInheritance ascendant.now descendant.now) self.now result }
        ensures gathered { OnOk result (TellsAfter (AddInheritance ascendant.now descendant.now) (changes_gathered gathered.new) self.now) }
    {
        let pair = Named::Pair {
            ascendant,
            descendant,
        };
        self.deny_no_role(ascendant)?;
        self.deny_no_role(descendant)?;
        let declared = self.tables.hierarchy.declared(ascendant, descendant);
        deny_if(declared, Denial::Inherits, pair)?;
        deny_if(self.inherits(descendant, ascendant), Denial::Cycle, pair)?;
        self.deny_limited(ascendant)?;
        let breach = self.inheritance_breach(alloc, ascendant, descendant, gathered)?;
        self.deny_pair(ascendant, descendant, breach)?;
        Ok(())
    }

    pub(crate) fn may_delete_inheritance<'a>(
        &'a self,
        ascendant: &'a Name,
        descendant: &'a Name,
    ) -> Result<(), Hindrance<'a>>
        ensures { Decides (DeleteInheritance ascendant.now descendant.now) self.now result }
    {
        let pair = Named::Pair {
            ascendant,
            descendant,
        };
        self.deny_no_role(ascendant)?;
        self.deny_no_role(descendant)?;
        let declared = self.tables.hierarchy.declared(ascendant, descendant);
        deny_if(!declared, Denial::NoInheritance, pair)
    }

    pub(crate) fn may_add_ascendant<'a>(
        &'a self,
        ascendant: &'a Name,
        descendant: &'a Name,
    ) -> Result<(), Hindrance<'a>>
        ensures { Decides (AddAscendant ascendant.now descendant.now) self.now result }
    {
        self.deny_role(ascendant)?;
        self.deny_no_role(descendant)?;
        self.deny_full_roles()
    }

    pub(crate) fn may_add_descendant<'a>(
        &'a self,
        ascendant: &'a Name,
        descendant: &'a Name,
    ) -> Result<(), Hindrance<'a>>
        ensures { Decides (AddDescendant ascendant.now descendant.now) self.now result }
    {
        self.deny_role(descendant)?;
        self.deny_no_role(ascendant)?;
        self.deny_limited(ascendant)?;
        self.deny_full_roles()
    }
}
