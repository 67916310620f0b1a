//! The first failing precondition of each command about sets of separation (ANSI INCITS 359-2004, 6.3 and 6.4), for both kinds.
ghost use Rattle.std.specs.Prelude.{◌≡◌, not, IsTrue};
ghost use Rattle.rbac_decide.specs.Words.{list_all, first_where, option_copied, has, change, violation, is_violated, name_cmp, is_set, CreateSet, DeleteSet};
ghost use Rattle.rbac_decide.specs.Words.{AddRoleMember, DeleteRoleMember, SetCardinality};
ghost use Rattle.rbac_decide.specs.Hindrance.{Decides, DecidesUnless, Denies, Tells, breach_of, missing_role};
ghost use Rattle.rbac_decide.specs.Hindrance.Named.{a_role};

use crate::hindrance::{Hindrance, Obstacle, deny_for, deny_if};
use crate::named::{Counted, Named};
use crate::policy::Policy;
use rbac_terms::limits::MOST_SETS;
use rbac_terms::{Denial, Name, NameSet, Separation};

// The denial that names what a kind asks.
fn violation(kind: Separation) -> Denial
    ensures { result ≡ violation kind }
{
    match kind {
        Separation::Static => Denial::SsdViolated,
        Separation::Dynamic => Denial::DsdViolated,
    }
}

impl Policy {
    // The first of the names that is no role.
    fn missing_role<'a>(&self, names: &'a [Name]) -> Option<&'a Name>
        ensures { option_copied result ≡ first_where (λ name. not (has name_cmp name self.now.roles)) names.now }
    {
        names.iter().find(|name| !self.has_role(name))
    }

    // Denies where some name is no role.
    fn deny_missing<'a>(&'a self, names: &'a NameSet) -> Result<(), Hindrance<'a>>
        ensures { Denies (not (list_all (λ role. has name_cmp role self.now.roles) names.now)) (record { denial = Denial.NoRole; named = a_role (missing_role self.now names.now) }) result }
    {
        match self.missing_role(names.names()) {
            Some(role) => Err(Hindrance {
                denial: Denial::NoRole,
                named: Named::Role { role },
            }),
            None => Ok(()),
        }
    }

    // Denies where someone breaks the set.
    fn deny_breach<'a>(
        &'a self,
        kind: Separation,
        set: &'a Name,
        roles: &NameSet,
        n: u32,
    ) -> Result<(), Hindrance<'a>>
        ensures { let after = change (CreateSet kind set.now roles.now n) self.now in Denies (is_violated kind after) (record { denial = violation kind; named = breach_of kind after }) result }
    {
        deny_for(self.set_breach(kind, set, roles, n), violation(kind))
    }

    // Denies where someone breaks the set with the role besides.
    fn deny_addition<'a>(
        &'a self,
        kind: Separation,
        set: &Name,
        role: &Name,
        breach: Option<Named<'a>>,
    ) -> Result<(), Hindrance<'a>>
        requires { let after = change (AddRoleMember kind set.now role.now) self.now in Tells (is_violated kind after) (breach_of kind after) breach }
        ensures { let after = change (AddRoleMember kind set.now role.now) self.now in Denies (is_violated kind after) (record { denial = violation kind; named = breach_of kind after }) result }
    {
        deny_for(breach, violation(kind))
    }

    // Denies where someone breaks the set with this number.
    fn deny_cardinality<'a>(
        &'a self,
        kind: Separation,
        set: &'a Name,
        n: u32,
    ) -> Result<(), Hindrance<'a>>
        requires { IsTrue (is_set kind self.now set.now) }
        ensures { let after = change (SetCardinality kind set.now n) self.now in Denies (is_violated kind after) (record { denial = violation kind; named = breach_of kind after }) result }
    {
        deny_for(self.cardinality_breach(kind, set, n), violation(kind))
    }

    #[tactic(auto, using(crate::proofs::HindranceLemmas::creation_names))]
    pub(crate) fn may_create_set<'a>(
        &'a self,
        kind: Separation,
        set: &'a Name,
        roles: &'a NameSet,
        n: u32,
    ) -> Result<(), Hindrance<'a>>
        ensures { Decides (CreateSet kind set.now roles.now n) self.now result }
    {
        let there = self.is_set(kind, set);
        deny_if(there, Denial::SetExists, Named::Set { kind, set })?;
        self.deny_missing(roles)?;
        let misfits = self.creation_sizes_badly(kind, set, roles, n);
        deny_if(misfits, Denial::BadCardinality, Named::Set { kind, set })?;
        self.deny_breach(kind, set, roles, n)?;
        let counted = Counted::Sets(kind);
        let full = self.set_count(kind) >= MOST_SETS;
        deny_if(full, Denial::Limit, Named::Count { counted })
    }

    pub(crate) fn may_delete_set<'a>(
        &'a self,
        kind: Separation,
        set: &'a Name,
    ) -> Result<(), Hindrance<'a>>
        ensures { Decides (DeleteSet kind set.now) self.now result }
    {
        self.deny_no_set(kind, set)
    }

    #[tactic(auto, using(crate::proofs::HindranceLemmas::addition_names))]
    pub(crate) fn may_add_role_member<'a>(
        &'a self,
        kind: Separation,
        set: &'a Name,
        role: &'a Name,
    ) -> Result<(), Obstacle<'a>>
        ensures { DecidesUnless (AddRoleMember kind set.now role.now) self.now result }
    {
        self.deny_no_set(kind, set)?;
        self.deny_no_role(role)?;
        let inside = self.is_member(kind, set, role);
        deny_if(inside, Denial::InSet, Named::Member { kind, set, role })?;
        let breach = self.addition_breach(kind, set, role)?;
        self.deny_addition(kind, set, role, breach)?;
        Ok(())
    }

    pub(crate) fn may_delete_role_member<'a>(
        &'a self,
        kind: Separation,
        set: &'a Name,
        role: &'a Name,
    ) -> Result<(), Hindrance<'a>>
        ensures { Decides (DeleteRoleMember kind set.now role.now) self.now result }
    {
        self.deny_no_set(kind, set)?;
        let inside = self.is_member(kind, set, role);
        deny_if(!inside, Denial::NotInSet, Named::Member { kind, set, role })?;
        let misfits = self.removal_sizes_badly(kind, set, role);
        deny_if(misfits, Denial::BadCardinality, Named::Set { kind, set })
    }

    #[tactic(auto, using(crate::proofs::HindranceLemmas::cardinality_names))]
    pub(crate) fn may_set_cardinality<'a>(
        &'a self,
        kind: Separation,
        set: &'a Name,
        n: u32,
    ) -> Result<(), Hindrance<'a>>
        ensures { Decides (SetCardinality kind set.now n) self.now result }
    {
        self.deny_no_set(kind, set)?;
        let misfits = self.cardinality_sizes_badly(kind, set, n);
        deny_if(misfits, Denial::BadCardinality, Named::Set { kind, set })?;
        self.deny_cardinality(kind, set, n)
    }
}
