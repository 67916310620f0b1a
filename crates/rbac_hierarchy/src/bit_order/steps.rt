//! Changes that take no memory where there is room for them.
ghost use Rattle.std.specs.Prelude.{◌≡◌, ◌<◌, ◌≤◌, ◌+◌, ◌&&◌, IsTrue, OnOk, not};
ghost use Rattle.sorted_keys.specs.Keys.{has, with_key, without};
ghost use Rattle.rbac_terms.specs.Inheritance.{inherits};
ghost use Rattle.rbac_terms.specs.Name.{name_cmp, pair_cmp};
ghost use Rattle.rbac_terms.specs.Relations.{without_pairs_of};
ghost use Rattle.rbac_hierarchy.specs.Changes.{after_one, made, with_pair};
ghost use Rattle.rbac_hierarchy.specs.Order.{Order};

use crate::bit_order::BitOrder;
use crate::bit_order::numbers::{number, number_of};
use crate::bit_order::renewal::{gather_pairs_above, renew};
use crate::change::{Change, Step};
use crate::removal::{OtherPair, OtherPairs};
use rbac_terms::Name;
use sorted_keys::PairProbe;
use staged::{Plan, Staged};
use std::alloc::{AllocError, Global};

impl BitOrder {
    // Makes room for so many more changes. Roles and declared pairs stay as they are, also where memory ends.
    pub(super) fn reserve(&mut self, alloc: Global, more: usize) -> Result<(), AllocError>
        ensures content { self.new.content ≡ self.old.content }
        ensures room { OnOk result (more ≤ self.new.room) }
    {
        let Some(pairs) = self.declared.len().checked_add(more) else {
            return Err(AllocError);
        };
        self.pairs.clear();
        self.pairs.reserve(pairs)?;
        self.declared.reserve(more)?;
        self.numbers.reserve(more)?;
        self.inherited.reserve(alloc, more)
    }

    // Adds a role. Where it is there, nothing changes.
    pub(super) fn put_role(&mut self, role: Name)
        requires { 0 < self.old.room }
        ensures content { let h = self.old.content in self.new.content ≡ record h { roles = with_key name_cmp role h.roles } }
        ensures room { self.old.room ≤ self.new.room + 1 }
    {
        if number_of(&self.numbers, &role).is_some() {
            return;
        }
        self.inherited.invariants();
        self.inherited.add_ready();
        self.numbers.insert_full(role).unwrap();
    }

    // Declares a pair of roles. Where it is declared, nothing changes.
    pub(super) fn put_pair(&mut self, pair: (Name, Name))
        requires room { 0 < self.old.room }
        requires ascendant { IsTrue (has name_cmp pair.0 self.old.content.roles) }
        requires descendant { IsTrue (has name_cmp pair.1 self.old.content.roles) }
        ensures content { let h = self.old.content in self.new.content ≡ record h { declared = with_key pair_cmp pair h.declared } }
        ensures room { self.old.room ≤ self.new.room + 1 }
    {
        let above = number(&self.numbers, &pair.0);
        let below = number(&self.numbers, &pair.1);
        self.declared.put(pair);
        self.inherited.join_above(above, below);
    }

    // Declares a pair, unless one of the two is no role, or the descendant inherits the ascendant.
    fn put_acyclic_pair(&mut self, pair: (Name, Name))
        requires { 0 < self.old.room }
        ensures content { self.new.content ≡ with_pair pair.0 pair.1 self.old.content }
        ensures room { self.old.room ≤ self.new.room + 1 }
    {
        let Some(above) = number_of(&self.numbers, &pair.0) else {
            return;
        };
        let Some(below) = number_of(&self.numbers, &pair.1) else {
            return;
        };
        if self.inherited.has(below, above) {
            return;
        }
        self.declared.put(pair);
        self.inherited.join_above(above, below);
    }

    // Takes a role out, and its pairs.
    pub(super) fn take_role(&mut self, role: &Name)
        requires { 0 < self.old.room }
        ensures content { let h = self.old.content in self.new.content ≡ record h { roles = without name_cmp role.now h.roles; declared = without_pairs_of role.now h.declared } }
        ensures room { self.old.room ≤ self.new.room }
    {
        let Some(gap) = number_of(&self.numbers, role) else {
            return;
        };
        let others = OtherPairs { role };
        gather_pairs_above(
            &mut self.pairs,
            &self.numbers,
            &self.declared,
            &self.inherited,
            gap,
            &others,
        );
        self.declared.retain(&others);
        renew(&mut self.inherited, gap, &self.pairs);
        self.inherited.remove(gap);
        self.numbers.swap_remove_index(gap);
    }

    // Takes a declared pair back. Where it is not declared, nothing changes.
    pub(super) fn take_pair(&mut self, ascendant: &Name, descendant: &Name)
        requires { 0 < self.old.room }
        ensures content { let h = self.old.content in self.new.content ≡ record h { declared = without pair_cmp (ascendant.now, descendant.now) h.declared } }
        ensures room { self.old.room ≤ self.new.room }
    {
        let Some(above) = number_of(&self.numbers, ascendant) else {
            return;
        };
        gather_pairs_above(
            &mut self.pairs,
            &self.numbers,
            &self.declared,
            &self.inherited,
            above,
            &OtherPair {
                ascendant,
                descendant,
            },
        );
        self.declared.remove(&PairProbe {
            first: ascendant,
            second: descendant,
        });
        renew(&mut self.inherited, above, &self.pairs);
    }
}

impl<'a> Staged<Change<'a>> for BitOrder {
    type Step = Step<'a>;

    ghost Content = { Order };

    ghost content = { λ h. h.content };

    ghost room = { λ h. h.room };

    ghost changed = { after_one };

    ghost made = { made };

    #[inline(always)]
    fn prepare(
        &self,
        _alloc: Global,
        _before: &Plan<Step<'a>>,
        change: &Change<'a>,
    ) -> Result<Step<'a>, AllocError> {
        Ok(match *change {
            Change::AddRole { role } => Step::AddRole { role: role.copy()? },
            Change::RemoveRole { role } => Step::RemoveRole { role },
            Change::Declare {
                ascendant,
                descendant,
            } => Step::Declare {
                ascendant: ascendant.copy()?,
                descendant: descendant.copy()?,
            },
            Change::Retract {
                ascendant,
                descendant,
            } => Step::Retract {
                ascendant,
                descendant,
            },
        })
    }

    #[inline(always)]
    fn make_room(&mut self, alloc: Global, more: usize) -> Result<(), AllocError>
        ensures content { self.new.content ≡ self.old.content }
        ensures room { OnOk result (more ≤ self.new.room) }
    {
        self.reserve(alloc, more)
    }

    #[inline(always)]
    fn make(&mut self, step: Step<'a>)
        requires { 0 < self.old.room }
        ensures content { self.new.content ≡ made step.entry self.old.content }
        ensures room { self.old.room ≤ self.new.room + 1 }
    {
        match step {
            Step::AddRole { role } => self.put_role(role),
            Step::RemoveRole { role } => self.take_role(role),
            Step::Declare {
                ascendant,
                descendant,
            } => self.put_acyclic_pair((ascendant, descendant)),
            Step::Retract {
                ascendant,
                descendant,
            } => self.take_pair(ascendant, descendant),
        }
    }
}
