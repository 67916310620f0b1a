//! Rows of numbers.
ghost use Rattle.std.specs.Prelude.{◌≡◌, ◌<◌, ◌≤◌, ◌==◌, ◌++◌, ◌∷◌, ℕ, [], length, get_or, slice_set, IfOk, OnOk, if◌then◌else◌};
ghost use Rattle.rbac_separation.specs.Counts.{number_in, at_place};

use std::alloc::{AllocError, Global};
use std::marker::Model;

/// Numbers by their places, 0 past the last.
#[derive(Drop)]
pub struct Row {
    numbers: Vec<u32>,
}

impl Model for Row {
    ghost use Rattle.std.specs.Prelude.{List, ℕ};

    ghost Value = { List ℕ };

    ghost view = { λ row. row.numbers.items };
}

impl Clone for Row {
    ghost use Rattle.std.specs.Prelude.{◌≡◌};

    ghost is_clone = { λ row clone. clone ≡ row };

    fn clone(&self) -> Result<Row, AllocError> {
        Ok(Row {
            numbers: self.numbers.clone()?,
        })
    }
}

impl Row {
    /// No numbers. Takes no memory.
    pub(crate) fn empty(alloc: Global) -> Row
        ensures { result ≡ [] }
    {
        Row {
            numbers: Vec::new(alloc),
        }
    }

    /// No numbers, with room for so many.
    ///
    /// # Errors
    /// `AllocError` where there is no memory for it.
    pub fn with_room(alloc: Global, room: usize) -> Result<Row, AllocError>
        ensures { IfOk result (λ row. row ≡ []) }
    {
        Ok(Row {
            numbers: Vec::with_capacity(alloc, room)?,
        })
    }

    /// One number more, at the end.
    ///
    /// # Errors
    /// `AllocError` where there is no memory for it.
    #[inline(always)]
    pub fn push(&mut self, number: u32) -> Result<(), AllocError>
        ensures { OnOk result (self.new ≡ self.old ++ number ∷ []) }
    {
        self.numbers.push(number)?;
        Ok(())
    }

    /// The numbers in order.
    #[inline(always)]
    pub fn numbers(&self) -> &[u32]
        ensures numbers { result.now ≡ self.now }
    {
        self.numbers.as_slice()
    }

    /// Makes it so wide that a place lies in it, unless it does.
    ///
    /// # Errors
    /// `AllocError` where there is no memory for it. The number at each place is as before.
    pub(crate) fn widen(&mut self, place: usize) -> Result<(), AllocError>
        ensures wide { OnOk result (place < length self.new) }
        ensures not_narrower { length self.old ≤ length self.new }
        ensures numbers { (i : ℕ) → get_or self.new i 0 ≡ get_or self.old i 0 }
    {
        while self.numbers.len() <= place {
            self.numbers.push(0)?;
        }
        Ok(())
    }

    /// Puts a number at a place that lies in it.
    #[inline(always)]
    pub(crate) fn put(&mut self, place: usize, number: u32)
        requires { place < length self.old }
        ensures { self.new ≡ slice_set self.old place number }
    {
        self.numbers[place] = number;
    }

    /// Puts 0 at a place.
    pub(crate) fn forget(&mut self, place: usize)
        ensures width { length self.new ≡ length self.old }
        ensures numbers { (i : ℕ) → get_or self.new i 0 ≡ (if place == i then 0 else get_or self.old i 0) }
    {
        if place < self.numbers.len() {
            self.numbers[place] = 0;
        }
    }

    /// Puts 0 at all places.
    pub(crate) fn clear(&mut self)
        ensures { self.new ≡ [] }
    {
        self.numbers.clear();
    }
}

/// The number at a place that may be none, and 0 where there is none.
#[inline(always)]
pub fn number_at(row: &[u32], place: Option<usize>) -> u32
    ensures { result ≡ at_place row.now place }
{
    match place {
        Some(place) if place < row.len() => row[place],
        _ => 0,
    }
}

/// Makes a row so wide that a place lies in it, and rows before it where there are fewer.
///
/// # Errors
/// `AllocError` where there is no memory for it. The number at each place is as before.
pub(crate) fn widen_row(
    alloc: Global,
    rows: &mut Vec<Row>,
    row: usize,
    place: usize,
) -> Result<(), AllocError>
    ensures wide { OnOk result (place < length (get_or rows.new.items row [])) }
    ensures not_narrower { (j : ℕ) → length (get_or rows.old.items j []) ≤ length (get_or rows.new.items j []) }
    ensures numbers { (i j : ℕ) → number_in rows.new.items i j ≡ number_in rows.old.items i j }
{
    while rows.len() <= row {
        rows.push(Row::empty(alloc))?;
    }
    rows[row].widen(place)
}

/// Puts 0 at a place of each row.
pub(crate) fn forget_place(rows: &mut Vec<Row>, place: usize)
    ensures { (i j : ℕ) → number_in rows.new.items i j ≡ (if place == i then 0 else number_in rows.old.items i j) }
{
    for at in 0..rows.len() {
        rows[at].forget(place);
    }
}

/// Puts 0 at all places of a row.
pub(crate) fn forget_row(rows: &mut Vec<Row>, row: usize)
    ensures { (i j : ℕ) → number_in rows.new.items i j ≡ (if row == j then 0 else number_in rows.old.items i j) }
{
    if row < rows.len() {
        rows[row].clear();
    }
}
