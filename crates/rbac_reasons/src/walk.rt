//! A walk down the declared pairs of roles, breadth first.
ghost use Rattle.std.specs.Prelude.{◌≡◌, IfOk, OnOk, IfSome, IsNone, List, reverse, IsTrue};
ghost use Rattle.std.specs.List.Sorted.{IsStrictlySortedBy};
ghost use Rattle.sorted_keys.specs.Keys.{has};
ghost use Rattle.rbac_terms.specs.Name.{Name as NameValue, name_cmp, pair_cmp};
ghost use Rattle.rbac_reasons.specs.Path.{LeadsFrom, LeadsTo, NoneLeads, AreReached};
ghost use Rattle.rbac_reasons.specs.Walk.{IsTrail, found_by};

use crate::chain::Chain;
use crate::pairs::beginning_with;
use rbac_terms::{Name, NameSet};
use std::alloc::{AllocError, Global};
use std::collections::VecDeque;
use std::marker::Model;
use std::mem;

// The roles that were found, the pairs by which, and the roles whose pairs were not looked at yet, first found first.
#[derive(Drop)]
struct Walk {
    found: NameSet,
    pairs: Vec<(Name, Name)>,
    pending: VecDeque<Name>,
}

impl Model for Walk {
    ghost use Rattle.std.specs.Prelude.{reverse};
    ghost use Rattle.rbac_reasons.specs.Walk.{Walk as WalkValue};

    ghost Value = { WalkValue };

    ghost view = { λ w. record { found = w.found; trail = reverse w.pairs.items; pending = w.pending.items } };
}

impl Walk {
    ghost use Rattle.rbac_reasons.specs.Walk.{begun_at, visited, all_visited, next_of, after_next};

    // A walk that begins with these roles.
    fn begin(alloc: Global, starts: &NameSet) -> Result<Walk, AllocError>
        ensures { IfOk result (λ walk. walk ≡ begun_at starts.now) }
    {
        let mut pending = VecDeque::new(alloc);
        for start in starts.names() {
            pending.push_back(start.copy()?)?;
        }
        Ok(Walk {
            found: starts.copy()?,
            pairs: Vec::new(alloc),
            pending,
        })
    }

    // The role whose pairs are looked at next.
    fn next(&mut self) -> Option<Name>
        ensures next { result ≡ next_of self.old }
        ensures rest { self.new ≡ after_next self.old }
    {
        self.pending.pop_front()
    }

    // Finds the descendant of a pair, unless it was found before.
    fn visit(&mut self, pair: &(Name, Name)) -> Result<(), AllocError>
        ensures { OnOk result (self.new ≡ visited pair.now self.old) }
    {
        if !self.found.contains(&pair.1) {
            self.found.add_copy(&pair.1)?;
            self.pairs.push((pair.0.copy()?, pair.1.copy()?))?;
            self.pending.push_back(pair.1.copy()?)?;
        }
        Ok(())
    }

    fn visit_all(&mut self, pairs: &[(Name, Name)]) -> Result<(), AllocError>
        ensures { OnOk result (self.new ≡ all_visited pairs.now self.old) }
    {
        for pair in pairs {
            self.visit(pair)?;
        }
        Ok(())
    }
}

// The chain by which a role was found: the pairs by which roles were found lead back to a role that the walk began with.
fn chain_to(alloc: Global, pairs: Vec<(Name, Name)>, last: Name) -> Result<Chain, AllocError>
    ensures { (starts : List NameValue) (declared : List (NameValue × NameValue)) → IsTrail starts declared (reverse pairs.items) → IsTrue (has name_cmp last (found_by starts (reverse pairs.items))) → IfOk result (LeadsFrom declared starts last) }
{
    let mut pairs = pairs;
    let mut first = last.copy()?;
    let mut rest = Vec::new(alloc);
    while let Some((ascendant, descendant)) = pairs.pop() {
        if descendant.cmp(&first).is_eq() {
            rest.push(mem::replace(&mut first, ascendant))?;
        }
    }
    rest.reverse();
    Ok(Chain { first, rest, last })
}

/// A chain from one of the roles to one of the goals; or none where there is no chain.
pub(crate) fn find_chain(
    alloc: Global,
    declared: &[(Name, Name)],
    starts: &NameSet,
    goals: &NameSet,
) -> Result<Option<Chain>, AllocError>
    requires { IsStrictlySortedBy pair_cmp declared.now }
    ensures found { IfOk result (λ found. IfSome found (LeadsTo declared.now starts.now goals.now)) }
    ensures none { IfOk result (λ found. IsNone found → NoneLeads declared.now starts.now goals.now) }
{
    let mut walk = Walk::begin(alloc, starts)?;
    while let Some(role) = walk.next() {
        if goals.contains(&role) {
            return Ok(Some(chain_to(alloc, walk.pairs, role)?));
        }
        walk.visit_all(beginning_with(declared, &role))?;
    }
    Ok(None)
}

/// The roles to which a chain leads from one of these.
pub(crate) fn reached(
    alloc: Global,
    declared: &[(Name, Name)],
    starts: &NameSet,
) -> Result<NameSet, AllocError>
    requires { IsStrictlySortedBy pair_cmp declared.now }
    ensures { IfOk result (AreReached declared.now starts.now) }
{
    let mut walk = Walk::begin(alloc, starts)?;
    while let Some(role) = walk.next() {
        walk.visit_all(beginning_with(declared, &role))?;
    }
    Ok(walk.found)
}
