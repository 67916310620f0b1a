//! Rows of cells that are set once.
ghost use Rattle.std.specs.Prelude.{◌≡◌, ◌≤◌, ◌<◌, ◌↔◌, ◌⊎◌, ◌∷◌, ◌++◌, [], length, Some, ◌%◌, IfOk, IfErr, IfSome, OnOk, OnErr, slice_get};
ghost use Rattle.std.specs.Option.{MatchOption};
ghost use Rattle.once_cell.specs.Once.{cell_name};
ghost use Rattle.rbac_board.specs.Known.{IsOf};

use crate::block::{BLOCK_LEN, Block, empty_cells};
use crate::mark::Mark;
use crate::refusal::SetRefusal;
use crate::sight::Sight;
use once_cell::race::OnceBox;
use std::alloc::{AllocError, Global};
use std::marker::Model;

/// Cells that are set once each, and that any thread may read. They lie in blocks, each of which is made when the first of its
/// cells is set. A contract sees a row as the list of its cells' addresses.
#[derive(Drop)]
pub struct Row<T> {
    blocks: Vec<OnceBox<Block<T>>>,
    places: usize,
    alloc: Global,
}

impl<T> Model for Row<T> {
    ghost use Rattle.std.specs.Prelude.{List, map, length, ◌≤◌, ◌*◌};
    ghost use Rattle.once_cell.specs.Once.{cell_name};
    ghost use Rattle.rbac_board.specs.Address.{Address, addresses};

    ghost Value = { List Address };

    ghost view = { λ r. addresses (map cell_name r.blocks.items) r.places };

    ghost invariant = { λ r. r.places ≤ length r.blocks.items * 256 };
}

// The place that a place of a row has in its block.
fn place_in_block(place: usize) -> u8
    ensures { result ≡ place % 256 }
{
    (place % BLOCK_LEN) as u8
}

impl<T: Drop> Row<T> {
    ghost use Rattle.rbac_board.specs.Refused.{value_back, IsRowFull};

    /// A row of this many empty cells.
    ///
    /// # Errors
    /// `AllocError` where the cells get no memory.
    pub fn found(alloc: Global, places: usize) -> Result<Row<T>, AllocError>
        ensures { IfOk result (λ row. length row ≡ places) }
    {
        let blocks = empty_cells(alloc, places.div_ceil(BLOCK_LEN))?;
        Ok(Row {
            blocks,
            places,
            alloc,
        })
    }

    // The cell that holds the block of a place, or will, where the row has that place.
    fn holder(&self, place: usize) -> Option<&OnceBox<Block<T>>>
        ensures { MatchOption result
            (length self.now ≤ place)
            (λ holder. (place < length self.now)
            × (slice_get self.now place ≡ Some (record { block = cell_name holder.now; place = place % 256 }))) }
    {
        if self.places <= place {
            return None;
        }
        Some(&self.blocks[place / BLOCK_LEN])
    }

    /// A mark that knows nothing of this row. It takes no memory.
    pub fn mark(&self) -> Mark<T>
        ensures of { IsOf self.now result }
        ensures nothing { result.values ≡ [] }
    {
        Mark::empty(self.alloc)
    }

    /// Sets a cell. The mark then knows one value more, the one that was passed.
    ///
    /// The mark is of this row, and the place is the next that it does not know, or beyond the row.
    ///
    /// # Errors
    /// `RowFull` exactly where the row has no such place, then `NoMemory` where the mark can't grow or the cell's block
    /// gets no memory, then `Taken`. The mark is as before, and the value comes back.
    pub fn set(&self, mark: &mut Mark<T>, place: usize, value: Box<T>) -> Result<(), SetRefusal<T>>
        requires of { IsOf self.now mark.old }
        requires next { (place ≡ length mark.old.values) ⊎ (length self.now ≤ place) }
        ensures of { IsOf self.now mark.new }
        ensures known { OnOk result (mark.new.values ≡ mark.old.values ++ value.value ∷ []) }
        ensures within { OnOk result (place < length self.now) }
        ensures full { IfErr result (λ refusal. IsRowFull refusal ↔ (length self.now ≤ place)) }
        ensures back { IfErr result (λ refusal. value_back refusal ≡ value.value) }
        ensures unchanged { OnErr result (mark.new ≡ mark.old) }
    {
        match self.holder(place) {
            Some(holder) => mark.set(holder, place_in_block(place), self.alloc, value),
            None => Err(SetRefusal::RowFull(value)),
        }
    }

    /// The value of a cell, where the row has it and it was set.
    pub fn get(&self, place: usize) -> Option<&T>
        ensures within { IfSome result (λ _. place < length self.now) }
    {
        let (_, value) = Sight::read(self.holder(place)?, place_in_block(place))?;
        Some(value)
    }

    /// The value of the next cell that the mark does not know, where the row has it and it was set. The mark then knows it.
    ///
    /// The mark is of this row.
    ///
    /// # Errors
    /// `AllocError` where a value was found and the mark can't grow. The mark is as before.
    pub fn read<'a>(&'a self, mark: &mut Mark<T>) -> Result<Option<&'a T>, AllocError>
        requires { IsOf self.now mark.old }
        ensures of { IsOf self.now mark.new }
        ensures known { IfOk result (λ found. MatchOption found
            (mark.new ≡ mark.old)
            (λ value. mark.new.values ≡ mark.old.values ++ value.now ∷ [])) }
        ensures unread { OnErr result (length mark.old.values < length self.now) }
        ensures unchanged { OnErr result (mark.new ≡ mark.old) }
    {
        let place = mark.len();
        let Some(holder) = self.holder(place) else {
            return Ok(None);
        };
        match Sight::read(holder, place_in_block(place)) {
            None => Ok(None),
            Some((sight, value)) => {
                mark.add(sight)?;
                Ok(Some(value))
            }
        }
    }

    /// The value of a cell that the mark knows. The mark is of this row.
    pub fn known<'a>(&'a self, mark: &mut Mark<T>, place: usize) -> &'a T
        requires of { IsOf self.now mark.old }
        requires known { place < length mark.old.values }
        ensures value { slice_get mark.old.values place ≡ Some result.now }
        ensures unchanged { mark.new ≡ mark.old }
    {
        match self.holder(place) {
            Some(holder) => mark.value(place, holder),
            None => unreachable!(),
        }
    }
}
