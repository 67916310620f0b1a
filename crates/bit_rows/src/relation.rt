//! A relation on numbers.
ghost use Rattle.std.specs.Prelude.{◌≡◌, ◌<◌, ◌≤◌, ◌+◌, ◌-◌, ◌/◌, ◌||◌, ◌&&◌, ℕ, Bool, IsTrue, true, false, nat_eq, [], get_or, IfOk, OnOk, OnErr, if◌then◌else◌};
ghost use Rattle.bit_rows.specs.Bits.{AreBelow, AreJoined, count, is_clear, moved, related};

use crate::row::BitRow;
use crate::rows::{add_spare, join_above, join_until_closed, move_bits, reset_above, widen_both};
use std::alloc::{AllocError, Global};
use std::marker::Model;

/// A relation on the numbers below a count, as a row of bits for each number.
///
/// Each row, and each that is spare, has `width` words at least.
#[derive(Drop)]
pub struct Relation {
    rows: Vec<BitRow>,
    spare: Vec<BitRow>,
    width: usize,
}

impl Model for Relation {
    ghost use Rattle.std.specs.Prelude.{◌*◌, ◌-◌, length, min, vec_len, vec_capacity};
    ghost use Rattle.bit_rows.specs.Bits.{AreReady, Rows};

    ghost Value = { Rows };

    ghost view = { λ r. record { rows = r.rows.items; room = min (vec_capacity r.rows - vec_len r.rows) (min (length r.spare.items) (64 * r.width - length r.rows.items)) } };

    ghost invariant = { λ r. AreReady r.rows.items r.spare.items r.width };
}

impl Relation {
    /// The relation on no numbers, which takes no memory.
    pub fn new(alloc: Global) -> Relation
        ensures { count result ≡ 0 }
    {
        Relation {
            rows: Vec::new(alloc),
            spare: Vec::new(alloc),
            width: 0,
        }
    }

    /// How many numbers there are.
    pub fn len(&self) -> usize
        ensures { result ≡ count self.now }
    {
        self.rows.len()
    }

    /// Only numbers below the count are related.
    pub fn invariants(&self)
        ensures { (i j : ℕ) → IsTrue (related self.now i j) → (i < count self.now) × (j < count self.now) }
    {
        let _rows = &self.rows;
    }

    /// Whether a number is related to another. What is not below the count is related to nothing.
    pub fn has(&self, first: usize, second: usize) -> bool
        ensures { result ≡ related self.now first second }
    {
        first < self.rows.len() && self.rows[first].has(second)
    }

    /// Whether a number is related to none of the 64 numbers of a word: those that are this word when divided by 64.
    pub fn is_clear(&self, first: usize, word: usize) -> bool
        ensures definition { result ≡ is_clear (get_or self.now.rows first []) word }
        ensures unrelated { result ≡ true → (j : ℕ) → j / 64 ≡ word → related self.now first j ≡ false }
    {
        first >= self.rows.len() || self.rows[first].is_clear(word)
    }

    /// Makes room for so many more numbers.
    ///
    /// # Errors
    /// `AllocError` where there is less room and no memory. The relation is as before.
    pub fn reserve(&mut self, alloc: Global, more: usize) -> Result<(), AllocError>
        ensures count { count self.new ≡ count self.old }
        ensures relation { (i j : ℕ) → related self.new i j ≡ related self.old i j }
        ensures room { OnOk result (more ≤ self.new.room) }
        ensures not_smaller { self.old.room ≤ self.new.room }
    {
        self.rows.reserve(more)?;
        let words = (self.rows.len() + more).div_ceil(64);
        self.width = widen_both(&mut self.rows, &mut self.spare, self.width, words)?;
        add_spare(alloc, &mut self.spare, more, self.width)
    }

    /// One more number, related to itself alone, where there is room for it. Takes no memory.
    pub fn add_ready(&mut self)
        requires { 0 < self.old.room }
        ensures longer { count self.new ≡ count self.old + 1 }
        ensures related_to_itself { (i j : ℕ) → related self.new i j ≡ (related self.old i j || (nat_eq i (count self.old) && nat_eq j (count self.old))) }
        ensures room { self.old.room ≤ self.new.room + 1 }
    {
        let number = self.rows.len();
        let mut row = self.spare.take_last();
        row.leave(number);
        self.rows.push_reserved(row);
    }

    /// One more number, related to itself alone.
    ///
    /// # Errors
    /// `AllocError` where a row gets no memory. The relation is as before.
    pub fn add(&mut self, alloc: Global) -> Result<(), AllocError>
        ensures longer { OnOk result (count self.new ≡ count self.old + 1) }
        ensures related_to_itself { OnOk result ((i j : ℕ) → related self.new i j ≡ (related self.old i j || (nat_eq i (count self.old) && nat_eq j (count self.old)))) }
        ensures same_count { OnErr result (count self.new ≡ count self.old) }
        ensures same_relation { OnErr result ((i j : ℕ) → related self.new i j ≡ related self.old i j) }
    {
        self.reserve(alloc, 1)?;
        self.add_ready();
        Ok(())
    }

    /// Relates what is related to one number to all that another is related to.
    pub fn join_above(&mut self, above: usize, below: usize)
        requires { below < count self.old }
        ensures count { count self.new ≡ count self.old }
        ensures related { (i j : ℕ) → related self.new i j ≡ (related self.old i j || (related self.old i above && related self.old below j)) }
        ensures room { self.old.room ≤ self.new.room }
    {
        join_above(&mut self.rows, above, below);
    }

    /// Relates each number that is related to a number to itself alone.
    pub fn reset_above(&mut self, above: usize)
        ensures count { count self.new ≡ count self.old }
        ensures related { (i j : ℕ) → related self.new i j ≡ (if related self.old i above then nat_eq j i else related self.old i j) }
        ensures room { self.old.room ≤ self.new.room }
    {
        reset_above(&mut self.rows, above);
    }

    /// Relates as little more as need be, so that the first number of each pair is related to all that its second is
    /// related to. Where each pair comes after those whose first number is its second, the pairs are gone through twice;
    /// else as often as it takes.
    pub fn join_pairs(&mut self, pairs: &[(usize, usize)])
        requires { AreBelow pairs.now (count self.old) }
        ensures count { count self.new ≡ count self.old }
        ensures still { (i j : ℕ) → IsTrue (related self.old i j) → IsTrue (related self.new i j) }
        ensures joined { AreJoined (related self.new) pairs.now }
        ensures least { (R : ℕ → ℕ → Bool) → ((i j : ℕ) → IsTrue (related self.old i j) → IsTrue (R i j)) → AreJoined R pairs.now → (i j : ℕ) → IsTrue (related self.new i j) → IsTrue (R i j) }
        ensures room { self.old.room ≤ self.new.room }
    {
        join_until_closed(&mut self.rows, pairs);
    }

    /// Takes a number out. The last number goes into its gap.
    pub fn remove(&mut self, gap: usize)
        requires { gap < count self.old }
        ensures count { count self.new + 1 ≡ count self.old }
        ensures related { let last = count self.old - 1 in (i j : ℕ) → i < last → j < last → related self.new i j ≡ related self.old (moved gap last i) (moved gap last j) }
        ensures room { self.old.room ≤ self.new.room }
    {
        let last = self.rows.len() - 1;
        self.rows.swap_remove(gap);
        move_bits(&mut self.rows, last, gap);
    }

    /// An equal relation.
    ///
    /// # Errors
    /// `AllocError` where the copy gets no memory.
    pub fn copy(&self) -> Result<Relation, AllocError>
        ensures { IfOk result (λ copy. copy.rows ≡ self.now.rows) }
    {
        Ok(Relation {
            rows: self.rows.clone()?,
            spare: Vec::new(*self.rows.allocator()),
            width: self.width,
        })
    }
}
