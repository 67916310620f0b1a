//! What is known of a row.
ghost use Rattle.std.specs.Prelude.{List, ◌≡◌, ◌≤◌, ◌<◌, ◌+◌, ◌-◌, ◌∷◌, ◌++◌, [], length, map, IfOk, IfErr, OnOk, OnErr, Some, IsSomeAnd, slice_get, take, drop, vec_len, vec_capacity};
ghost use Rattle.once_cell.specs.Once.{cell_name};
ghost use Rattle.rbac_board.specs.Address.{Address};
ghost use Rattle.rbac_board.specs.Known.{Agree, AreOfOneRow, IsOf};

use crate::block::Block;
use crate::refusal::SetRefusal;
use crate::sight::Sight;
use once_cell::race::OnceBox;
use std::alloc::{AllocError, Global};
use std::marker::Model;

/// What is known of the first cells of one row: the values that they hold for good.
///
/// It takes one byte a cell, and holds no value: `Row::known` finds it in the row. What is known is reached by `&mut` only, so
/// calls that change nothing take the mark by `&mut` too.
#[derive(Drop)]
pub struct Mark<T> {
    sights: Vec<Sight<T>>,
}

impl<T> Model for Mark<T> {
    ghost use Rattle.rbac_board.specs.Known.{Known, known_of};

    ghost Value = { Known T };

    ghost view = { λ m. known_of m.sights.items };
}

// The same sights, once more.
fn again_all<T>(alloc: Global, sights: &mut [Sight<T>]) -> Result<Vec<Sight<T>>, AllocError>
    ensures again { IfOk result (λ copies. copies.items ≡ sights.old) }
    ensures unchanged { sights.new ≡ sights.old }
{
    let mut copies = Vec::with_capacity(alloc, sights.len())?;
    for sight in sights.iter_mut() {
        copies.push(sight.again())?;
    }
    Ok(copies)
}

// Holds the sights of the same cells against each other.
fn compare_all<T>(mine: &mut [Sight<T>], theirs: &mut [Sight<T>])
    requires { Agree (map (λ s. s.cell) mine.old) (map (λ s. s.cell) theirs.old) }
    ensures agree { Agree (map (λ s. s.value) mine.old) (map (λ s. s.value) theirs.old) }
    ensures mine { mine.new ≡ mine.old }
    ensures theirs { theirs.new ≡ theirs.old }
{
    for at in 0..mine.len().min(theirs.len()) {
        mine[at].compare(&mut theirs[at]);
    }
}

// Adds the same sights, for which there is room.
fn add_all<T>(sights: &mut Vec<Sight<T>>, others: &mut [Sight<T>])
    requires { length others.old + vec_len sights.old ≤ vec_capacity sights.old }
    ensures added { sights.new.items ≡ sights.old.items ++ others.old }
    ensures unchanged { others.new ≡ others.old }
{
    for sight in others.iter_mut() {
        let Ok(()) = sights.push(sight.again()) else {
            unreachable!()
        };
    }
}

impl<T> Mark<T> {
    pub(crate) fn empty(alloc: Global) -> Mark<T>
        ensures cells { result.cells ≡ [] }
        ensures values { result.values ≡ [] }
    {
        Mark {
            sights: Vec::new(alloc),
        }
    }

    /// How many cells are known.
    pub fn len(&self) -> usize
        ensures { result ≡ length self.now.values }
    {
        self.sights.len()
    }

    // Adds a cell that was seen.
    pub(crate) fn add(&mut self, sight: Sight<T>) -> Result<(), AllocError>
        ensures cells { OnOk result (self.new.cells ≡ self.old.cells ++ sight.cell ∷ []) }
        ensures values { OnOk result (self.new.values ≡ self.old.values ++ sight.value ∷ []) }
        ensures unchanged { OnErr result (self.new ≡ self.old) }
    {
        self.sights.push(sight)?;
        Ok(())
    }

    // The value of a cell that is known. Its block is in the cell that is passed.
    pub(crate) fn value<'a>(&mut self, place: usize, holder: &'a OnceBox<Block<T>>) -> &'a T
        requires known { place < length self.old.values }
        requires holder { IsSomeAnd (slice_get self.old.cells place) (λ address. address.block ≡ cell_name holder.now) }
        ensures value { slice_get self.old.values place ≡ Some result.now }
        ensures unchanged { self.new ≡ self.old }
    {
        self.sights[place].value(holder)
    }

    /// A second mark that knows the same.
    ///
    /// # Errors
    /// `AllocError` where the second mark gets no memory.
    pub fn again(&mut self, alloc: Global) -> Result<Mark<T>, AllocError>
        ensures again { IfOk result (λ mark. mark ≡ self.old) }
        ensures unchanged { self.new ≡ self.old }
    {
        Ok(Mark {
            sights: again_all(alloc, &mut self.sights)?,
        })
    }

    /// Marks of one row know the same values, up to where the shorter one ends. Nothing changes: the contract is the law.
    /// Where this mark is the shorter one, what it knows is the beginning of what the other knows.
    pub fn agree(&mut self, other: &mut Mark<T>)
        requires { AreOfOneRow self.old other.old }
        ensures agree { Agree self.old.values other.old.values }
        ensures beginning { length self.old.values ≤ length other.old.values →
            self.old.values ≡ take (length self.old.values) other.old.values }
        ensures unchanged { self.new ≡ self.old }
        ensures other_unchanged { other.new ≡ other.old }
    {
        compare_all(&mut self.sights, &mut other.sights);
    }

    /// Knows, besides what it knew, so many of the first values that another mark of the same row knows. That costs what is
    /// new. Where it knows as many already, nothing changes.
    ///
    /// # Errors
    /// `AllocError` where it can't grow. It is as before.
    pub fn learn(&mut self, other: &mut Mark<T>, count: usize) -> Result<(), AllocError>
        requires one_row { AreOfOneRow self.old other.old }
        requires known { count ≤ length other.old.values }
        ensures of { (row : List Address) → IsOf row self.old → IsOf row other.old → IsOf row self.new }
        ensures learned { OnOk result (self.new.values ≡ self.old.values ++ drop (length self.old.values) (take count other.old.values)) }
        ensures agree { Agree self.old.values other.old.values }
        ensures unchanged { OnErr result (self.new ≡ self.old) }
        ensures other_unchanged { other.new ≡ other.old }
    {
        self.agree(other);
        let known = self.sights.len();
        if known < count {
            self.sights.reserve(count - known)?;
            add_all(&mut self.sights, &mut other.sights[known..count]);
        }
        Ok(())
    }
}

impl<T: Drop> Mark<T> {
    ghost use Rattle.rbac_board.specs.Refused.{value_back, IsRowFull};

    // Sets the cell at a place of the block that another cell holds, or will, and knows the value that was passed.
    pub(crate) fn set(
        &mut self,
        holder: &OnceBox<Block<T>>,
        place: u8,
        alloc: Global,
        value: Box<T>,
    ) -> Result<(), SetRefusal<T>>
        ensures cells { OnOk result (self.new.cells ≡ self.old.cells ++ record { block = cell_name holder.now; place = place } ∷ []) }
        ensures values { OnOk result (self.new.values ≡ self.old.values ++ value.value ∷ []) }
        ensures back { IfErr result (λ refusal. value_back refusal ≡ value.value) }
        ensures not_full { IfErr result (λ refusal. IsRowFull refusal → ⊥) }
        ensures unchanged { OnErr result (self.new ≡ self.old) }
    {
        if self.sights.reserve(1).is_err() {
            return Err(SetRefusal::NoMemory(value));
        }
        match Sight::set(holder, place, alloc, value) {
            Ok(sight) => {
                let Ok(()) = self.sights.push(sight) else {
                    unreachable!()
                };
                Ok(())
            }
            Err(refusal) => Err(refusal),
        }
    }
}
