//! Numbers kept of sets and users.
ghost use Rattle.std.specs.Prelude.{◌≡◌, ◌<◌, true, IfOk, IfSome, IfNone, OnOk, OnErr};
ghost use Rattle.std.specs.Option.{option_copied};
ghost use Rattle.std.specs.FinMap.Entries.{find};
ghost use Rattle.rbac_terms.specs.Name.{Name as NameValue, name_cmp};
ghost use Rattle.rbac_separation.specs.Counts.{numbers_of, at_place, no_numbers, with_number, without_set, without_user, first_over, IsPlaced, HaveSamePlaces};

use crate::count_plan::Numbering;
use crate::numbered::Numbered;
use crate::row::{Row, forget_place, forget_row, number_at};
use crate::set_table::SetTable;
use rbac_terms::{Name, NameSet};
use std::alloc::{AllocError, Global};
use std::marker::Model;
use std::slice::from_ref;

/// For each set, by its name, and each user a number, 0 where none was given. Static separation keeps so how many roles of a
/// set a user is authorized for.
#[derive(Drop)]
pub struct Counts {
    // Names are numbered when a plan is made: those that no number is kept of stand here too.
    pub(crate) sets: Numbered,
    pub(crate) users: Numbered,
    // By the number of a user its row, and in it by the number of a set theirs. So a change that is planned wants no names.
    pub(crate) rows: Vec<Row>,
}

impl Model for Counts {
    ghost use Rattle.rbac_separation.specs.Counts.{Counts as CountsValue, IsKept};

    ghost Value = { CountsValue };

    ghost view = { λ c. record { sets = c.sets.content; users = c.users.content; rows = c.rows.items } };

    ghost invariant = { λ c. IsKept c.sets.content c.users.content c.rows.items };
}

// One number for all sets and users.
#[derive(Drop)]
struct OneNumber {
    number: u32,
}

impl Numbering for OneNumber {
    ghost number = { λ one _ _. one.number };

    ghost is_numbered = { λ _ _ _. true };

    fn number(&self, _set: &Name, _user: &Name) -> u32 {
        self.number
    }
}

impl Counts {
    /// 0 for all. Takes no memory.
    pub fn empty(alloc: Global) -> Counts
        ensures { numbers_of result ≡ no_numbers }
    {
        Counts {
            sets: Numbered::empty(alloc),
            users: Numbered::empty(alloc),
            rows: Vec::new(alloc),
        }
    }

    /// Where the number of a set stands in each row, if its name is numbered.
    pub fn place(&self, set: &Name) -> Option<usize>
        ensures { result ≡ find name_cmp set.now self.now.sets }
    {
        self.sets.number(set)
    }

    /// The row of a user: at the place of each set their number. Takes no memory.
    pub fn row(&self, user: &Name) -> &[u32]
        ensures { (set : NameValue) → numbers_of self.now set user.now ≡ at_place result.now (find name_cmp set self.now.sets) }
    {
        match self.users.number(user) {
            Some(row) if row < self.rows.len() => self.rows[row].numbers(),
            _ => &[],
        }
    }

    /// The number of a set and a user. Takes no memory.
    pub fn get(&self, set: &Name, user: &Name) -> u32
        ensures { result ≡ numbers_of self.now set.now user.now }
    {
        number_at(self.row(user), self.place(set))
    }

    // Where the number of a set and a user is kept, where there is such a place.
    fn kept_at(&self, set: &Name, user: &Name) -> Option<(usize, usize)>
        ensures some { IfSome result (λ at. IsPlaced (set.now, at.0) (user.now, at.1) self.now) }
        ensures none { IfNone result (numbers_of self.now set.now user.now ≡ 0) }
    {
        let place = self.sets.number(set)?;
        let row = self.users.number(user)?;
        if row < self.rows.len() && place < self.rows[row].numbers().len() {
            Some((place, row))
        } else {
            None
        }
    }

    // Gives a set and a user a number at their place.
    #[inline(always)]
    pub(crate) fn put_at(&mut self, set: &Name, place: usize, user: &Name, row: usize, number: u32)
        requires { IsPlaced (set.now, place) (user.now, row) self.old }
        ensures numbers { numbers_of self.new ≡ with_number set.now user.now number (numbers_of self.old) }
        ensures places { HaveSamePlaces self.old self.new }
    {
        self.sets.invariants();
        self.users.invariants();
        self.rows[row].put(place, number);
    }

    /// Gives a set and a user a number. 0 takes the number out: that needs no memory, nor does another number for the same pair.
    ///
    /// # Errors
    /// `AllocError` where there is no memory for it. No number has changed.
    pub fn put(
        &mut self,
        alloc: Global,
        set: &Name,
        user: &Name,
        number: u32,
    ) -> Result<(), AllocError>
        ensures put { OnOk result (numbers_of self.new ≡ with_number set.now user.now number (numbers_of self.old)) }
        ensures unchanged { OnErr result (numbers_of self.new ≡ numbers_of self.old) }
        ensures absent { OnErr result (numbers_of self.old set.now user.now ≡ 0) }
        ensures above { OnErr result (0 < number) }
    {
        match self.kept_at(set, user) {
            Some((place, row)) => self.put_at(set, place, user, row, number),
            None => {
                if number > 0 {
                    let plan = self.plan(alloc, from_ref(set), from_ref(user))?;
                    self.renumber(plan, &OneNumber { number });
                }
            }
        }
        Ok(())
    }

    /// Takes the numbers of a set out. Takes no memory.
    pub fn forget_set(&mut self, set: &Name)
        ensures { numbers_of self.new ≡ without_set set.now (numbers_of self.old) }
    {
        let Some(gone) = self.sets.number(set) else {
            return;
        };
        self.sets.invariants();
        forget_place(&mut self.rows, gone);
        self.sets.remove(set);
    }

    /// Takes the numbers of a user out. Takes no memory.
    pub fn forget_user(&mut self, user: &Name)
        ensures { numbers_of self.new ≡ without_user user.now (numbers_of self.old) }
    {
        let Some(gone) = self.users.number(user) else {
            return;
        };
        self.users.invariants();
        forget_row(&mut self.rows, gone);
        self.users.remove(user);
    }

    /// The first set by name of which the user's number, and how many of its roles are among the fresh ones, come to its own
    /// number or more. The name is the table's. Takes no memory.
    pub fn over_with<'a>(
        &self,
        sets: &'a SetTable,
        user: &Name,
        fresh: &NameSet,
    ) -> Option<&'a Name>
        ensures { option_copied result ≡ first_over (λ set. numbers_of self.now set user.now) fresh.now sets.now.content }
    {
        let entries = sets.entries();
        for entry in entries {
            if entry.1.is_over(self.get(&entry.0, user), fresh) {
                return Some(&entry.0);
            }
        }
        None
    }

    /// Equal numbers.
    ///
    /// # Errors
    /// `AllocError` where there is no memory for it.
    pub fn copy(&self) -> Result<Counts, AllocError>
        ensures { IfOk result (λ copy. copy ≡ self.now) }
    {
        Ok(Counts {
            sets: self.sets.copy()?,
            users: self.users.copy()?,
            rows: self.rows.clone()?,
        })
    }
}
