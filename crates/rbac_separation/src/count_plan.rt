//! Numbers of sets and users that are planned before a change, and then given: names are numbered and rows made wide enough first.
ghost use Rattle.std.specs.Prelude.{◌≡◌, ◌<◌, ◌≤◌, ◌&&◌, ℕ, Bool, [], true, length, get_or, All, IsTrue, IfOk, OnOk, if◌then◌else◌};
ghost use Rattle.std.specs.Ordering.{eq_by_cmp};
ghost use Rattle.std.specs.FinMap.Entries.{find};
ghost use Rattle.sorted_keys.specs.Keys.{has};
ghost use Rattle.rbac_terms.specs.Name.{Name as NameValue, name_cmp};
ghost use Rattle.rbac_separation.specs.Numbered.{names_of};
ghost use Rattle.rbac_separation.specs.Counts.{number_in, numbers_of, with_numbers, row_changes, changes_of, IsPlaced, ArePlaced, HaveSamePlaces};

use crate::counts::Counts;
use crate::row::{Row, widen_row};
use rbac_terms::Name;
use std::alloc::{AllocError, Global};

/// Sets and users of which each set is to have another number with each user: their names, and where the numbers stand.
#[derive(Drop)]
pub struct CountPlan {
    pub sets: Vec<(Name, usize)>,
    pub users: Vec<(Name, usize)>,
}

/// The number that each set and user is to have.
pub trait Numbering {
    /// The number of a set and a user.
    ghost number: { Self → NameValue → NameValue → ℕ };

    /// Whether a set and a user have a number.
    ghost is_numbered: { Self → NameValue → NameValue → Bool };

    /// The number of a set and a user.
    fn number(&self, set: &Name, user: &Name) -> u32
        requires { IsTrue (is_numbered self.now set.now user.now) }
        ensures { result ≡ number self.now set.now user.now };
}

// A place that none of these is past.
fn last_place(places: &[(Name, usize)]) -> usize
    ensures { All (λ e. e.1 ≤ result) places.now }
{
    let mut last = 0;
    for entry in places {
        last = entry.1.max(last);
    }
    last
}

// Makes the rows of the users so wide that a place lies in each.
fn widen_rows(
    alloc: Global,
    rows: &mut Vec<Row>,
    users: &[(Name, usize)],
    place: usize,
) -> Result<(), AllocError>
    ensures wide { OnOk result (All (λ user. place < length (get_or rows.new.items user.1 [])) users.now) }
    ensures numbers { (i j : ℕ) → number_in rows.new.items i j ≡ number_in rows.old.items i j }
{
    for user in users {
        widen_row(alloc, rows, user.1, place)?;
    }
    Ok(())
}

impl Counts {
    // Numbers the names of sets and users.
    fn number_names(
        &mut self,
        alloc: Global,
        sets: &[Name],
        users: &[Name],
    ) -> Result<CountPlan, AllocError>
        ensures numbers { numbers_of self.new ≡ numbers_of self.old }
        ensures sets { IfOk result (λ plan. names_of plan.sets.items ≡ sets.now) }
        ensures users { IfOk result (λ plan. names_of plan.users.items ≡ users.now) }
        ensures found_sets { IfOk result (λ plan. All (λ e. find name_cmp e.0 self.new.sets ≡ Some e.1) plan.sets.items) }
        ensures found_users { IfOk result (λ plan. All (λ e. find name_cmp e.0 self.new.users ≡ Some e.1) plan.users.items) }
    {
        let sets = self.sets.numbered(alloc, sets)?;
        let users = self.users.numbered(alloc, users)?;
        Ok(CountPlan { sets, users })
    }

    // Makes the rows of a plan's users wide enough for its sets.
    fn widen(&mut self, alloc: Global, plan: &CountPlan) -> Result<(), AllocError>
        ensures numbers { numbers_of self.new ≡ numbers_of self.old }
        ensures sets { self.new.sets ≡ self.old.sets }
        ensures users { self.new.users ≡ self.old.users }
        ensures wide { OnOk result (All (λ user. All (λ set. set.1 < length (get_or self.new.rows user.1 [])) plan.now.sets.items) plan.now.users.items) }
    {
        let last = last_place(&plan.sets);
        widen_rows(alloc, &mut self.rows, &plan.users, last)
    }

    /// Numbers the names of these sets and users, and makes room for other numbers of each set with each user. Their numbers stay as
    /// they are, also where memory ends. Where there are no sets and no users nothing is done.
    ///
    /// # Errors
    /// `AllocError` where there is no memory for it. No number has changed.
    pub fn plan(
        &mut self,
        alloc: Global,
        sets: &[Name],
        users: &[Name],
    ) -> Result<CountPlan, AllocError>
        ensures numbers { numbers_of self.new ≡ numbers_of self.old }
        ensures sets { IfOk result (λ plan. names_of plan.sets.items ≡ sets.now) }
        ensures users { IfOk result (λ plan. names_of plan.users.items ≡ users.now) }
        ensures placed { IfOk result (λ plan. ArePlaced plan.sets.items plan.users.items self.new) }
    {
        let plan = self.number_names(alloc, sets, users)?;
        self.widen(alloc, &plan)?;
        Ok(plan)
    }

    // Gives a user its numbers of the sets.
    fn put_row(&mut self, sets: &[(Name, usize)], user: &(Name, usize), row: &Row)
        requires { All (λ set. IsPlaced set user.now self.old) sets.now }
        ensures numbers { numbers_of self.new ≡ with_numbers (row_changes (names_of sets.now) user.now.0 row.now) (numbers_of self.old) }
        ensures places { HaveSamePlaces self.old self.new }
    {
        let numbers = row.numbers();
        for k in 0..sets.len().min(numbers.len()) {
            self.put_at(&sets[k].0, sets[k].1, &user.0, user.1, numbers[k]);
        }
    }

    /// Gives each user of a plan its numbers of the plan's sets. Takes no memory.
    pub fn commit(&mut self, plan: CountPlan, rows: &[Row])
        requires { ArePlaced plan.sets.items plan.users.items self.old }
        ensures { numbers_of self.new ≡ with_numbers (changes_of (names_of plan.sets.items) (names_of plan.users.items) rows.now) (numbers_of self.old) }
    {
        for k in 0..plan.users.len().min(rows.len()) {
            self.put_row(&plan.sets, &plan.users[k], &rows[k]);
        }
    }

    // Gives each of the sets the number that it is to have with the user.
    fn renumber_user<N: Numbering>(
        &mut self,
        sets: &[(Name, usize)],
        user: &(Name, usize),
        numbering: &N,
    )
        requires placed { All (λ set. IsPlaced set user.now self.old) sets.now }
        requires numbered { (set : NameValue) → IsTrue (has name_cmp set (names_of sets.now)) → IsTrue (N.is_numbered numbering.now set user.now.0) }
        ensures numbers { (set other : NameValue) → numbers_of self.new set other
            ≡ (if has name_cmp set (names_of sets.now) && eq_by_cmp name_cmp other user.now.0 then N.number numbering.now set other else numbers_of self.old set other) }
        ensures places { HaveSamePlaces self.old self.new }
    {
        for set in sets {
            let number = numbering.number(&set.0, &user.0);
            self.put_at(&set.0, set.1, &user.0, user.1, number);
        }
    }

    /// Gives each set of a plan and each user the number that they are to have. Takes no memory.
    pub fn renumber<N: Numbering>(&mut self, plan: CountPlan, numbering: &N)
        requires placed { ArePlaced plan.sets.items plan.users.items self.old }
        requires numbered { (set user : NameValue) → IsTrue (has name_cmp set (names_of plan.sets.items)) → IsTrue (has name_cmp user (names_of plan.users.items)) → IsTrue (N.is_numbered numbering.now set user) }
        ensures { (set user : NameValue) → numbers_of self.new set user
            ≡ (if has name_cmp set (names_of plan.sets.items) && has name_cmp user (names_of plan.users.items) then N.number numbering.now set user else numbers_of self.old set user) }
    {
        for k in 0..plan.users.len() {
            self.renumber_user(&plan.sets, &plan.users[k], numbering);
        }
    }
}
