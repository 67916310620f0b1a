//! A row of bits.
ghost use Rattle.std.specs.Prelude.{◌≡◌, ◌<◌, ◌≤◌, ◌+◌, ◌*◌, ◌||◌, ℕ, [], true, false, nat_eq, length, IfOk, OnOk, OnErr, if◌then◌else◌};
ghost use Rattle.bit_rows.specs.Bits.{has_bit, is_clear};
ghost use Rattle.bit_rows.specs.Room.{unset};

use std::alloc::{AllocError, Global};
use std::marker::Model;

/// A row of bits: as many as its words have. A bit past its last word isn't set.
#[derive(Drop)]
pub(crate) struct BitRow {
    words: Vec<u64>,
}

impl Model for BitRow {
    ghost use Rattle.std.specs.Prelude.{List, ℕ};

    ghost Value = { List ℕ };

    ghost view = { λ row. row.words.items };
}

impl BitRow {
    /// The row without words, which takes no memory.
    pub(crate) fn new(alloc: Global) -> BitRow
        ensures { result ≡ [] }
    {
        BitRow {
            words: Vec::new(alloc),
        }
    }

    /// A row with so many words.
    pub(crate) fn wide(alloc: Global, words: usize) -> Result<BitRow, AllocError>
        ensures { IfOk result (λ row. words ≤ length row) }
    {
        let mut row = BitRow::new(alloc);
        row.widen(words)?;
        Ok(row)
    }

    /// A row without words, which takes no memory.
    pub(crate) fn without_words(&self) -> BitRow
        ensures { result ≡ [] }
    {
        BitRow::new(*self.words.allocator())
    }

    /// Whether the bit is set.
    pub(crate) fn has(&self, bit: usize) -> bool
        ensures { result ≡ has_bit self.now bit }
    {
        bit / 64 < self.words.len() && (self.words[bit / 64] >> (bit % 64)) & 1 == 1
    }

    /// Whether no bit of a word is set. A word past the last has none.
    pub(crate) fn is_clear(&self, word: usize) -> bool
        ensures { result ≡ is_clear self.now word }
    {
        word >= self.words.len() || self.words[word] == 0
    }

    // Sets a bit.
    fn set(&mut self, bit: usize)
        requires { bit < 64 * length self.old }
        ensures length { length self.new ≡ length self.old }
        ensures bits { (j : ℕ) → has_bit self.new j ≡ (if nat_eq j bit then true else has_bit self.old j) }
    {
        let word = self.words[bit / 64];
        self.words[bit / 64] = word | (1 << (bit % 64));
    }

    // Clears a bit.
    fn clear(&mut self, bit: usize)
        requires { bit < 64 * length self.old }
        ensures length { length self.new ≡ length self.old }
        ensures bits { (j : ℕ) → has_bit self.new j ≡ (if nat_eq j bit then false else has_bit self.old j) }
    {
        let word = self.words[bit / 64];
        self.words[bit / 64] = word & !(1 << (bit % 64));
    }

    /// Sets or clears a bit.
    pub(crate) fn put(&mut self, bit: usize, value: bool)
        requires { bit < 64 * length self.old }
        ensures length { length self.new ≡ length self.old }
        ensures bits { (j : ℕ) → has_bit self.new j ≡ (if nat_eq j bit then value else has_bit self.old j) }
    {
        if value {
            self.set(bit);
        } else {
            self.clear(bit);
        }
    }

    /// Clears all bits but one, which it sets.
    pub(crate) fn leave(&mut self, bit: usize)
        requires { bit < 64 * length self.old }
        ensures length { length self.new ≡ length self.old }
        ensures bits { (j : ℕ) → has_bit self.new j ≡ nat_eq j bit }
    {
        for k in 0..self.words.len() {
            self.words[k] = 0;
        }
        self.set(bit);
    }

    /// Clears a bit, and writes what it was at another place.
    pub(crate) fn move_bit(&mut self, from: usize, to: usize)
        requires from { from < 64 * length self.old }
        requires to { to < 64 * length self.old }
        ensures length { length self.new ≡ length self.old }
        ensures bits { (j : ℕ) → has_bit self.new j ≡ (if nat_eq j from then false else if nat_eq j to then has_bit self.old from else has_bit self.old j) }
    {
        let value = self.has(from);
        self.put(to, value);
        self.clear(from);
    }

    /// Makes it as wide as so many words, unless it is.
    pub(crate) fn widen(&mut self, words: usize) -> Result<(), AllocError>
        ensures wide { OnOk result (words ≤ length self.new) }
        ensures not_narrower { length self.old ≤ length self.new }
        ensures bits { (j : ℕ) → has_bit self.new j ≡ has_bit self.old j }
    {
        if self.words.len() < words {
            self.words.resize(words, 0)?;
        }
        Ok(())
    }

    /// Sets the bits that are set in another row, as far as this one has room. Whether one of them was not.
    pub(crate) fn join(&mut self, other: &BitRow) -> bool
        ensures length { length self.new ≡ length self.old }
        ensures bits { (j : ℕ) → j < 64 * length self.old → has_bit self.new j ≡ (has_bit self.old j || has_bit other.now j) }
        ensures same { result ≡ false → self.new ≡ self.old }
        ensures fewer { result ≡ true → unset self.new < unset self.old }
        ensures not_more { unset self.new ≤ unset self.old }
    {
        let mut grown = false;
        let words = self.words.len().min(other.words.len());
        for k in 0..words {
            let joined = self.words[k] | other.words[k];
            if joined != self.words[k] {
                self.words[k] = joined;
                grown = true;
            }
        }
        grown
    }
}

impl Clone for BitRow {
    ghost is_clone = { λ row clone. clone ≡ row };

    fn clone(&self) -> Result<BitRow, AllocError> {
        Ok(BitRow {
            words: self.words.clone()?,
        })
    }
}
