//! Blocks of cells.
ghost use Rattle.std.specs.Prelude.{◌≡◌, Some, None, length, slice_get, IfOk, MatchResult};
ghost use Rattle.once_cell.specs.Once.{cell_name, Agrees};

use once_cell::race::{Note, OnceBox};
use std::alloc::{AllocError, Global};
use std::marker::Model;

// How many cells a block has: as many as a byte tells apart.
pub(crate) const BLOCK_LEN: usize = 256;

// Cells that are set once each. A contract sees a block as the list of their names.
#[derive(Drop)]
pub(crate) struct Block<T> {
    cells: Vec<OnceBox<T>>,
}

impl<T> Model for Block<T> {
    ghost use Rattle.std.specs.Prelude.{List, ℕ, ◌≡◌, length, map};
    ghost use Rattle.once_cell.specs.Once.{cell_name};

    ghost Value = { List ℕ };

    ghost view = { λ b. map cell_name b.cells.items };

    ghost invariant = { λ b. length b.cells.items ≡ 256 };
}

// So many empty cells.
pub(crate) fn empty_cells<V: Drop>(
    alloc: Global,
    count: usize,
) -> Result<Vec<OnceBox<V>>, AllocError>
    ensures { IfOk result (λ cells. length cells.items ≡ count) }
{
    let mut cells = Vec::with_capacity(alloc, count)?;
    for _ in 0..count {
        cells.push(OnceBox::new(alloc))?;
    }
    Ok(cells)
}

impl<T: Drop> Block<T> {
    fn boxed(alloc: Global) -> Result<Box<Block<T>>, AllocError> {
        let cells = empty_cells(alloc, BLOCK_LEN)?;
        Ok(Box::new(alloc, Block { cells })?)
    }

    // The block that a cell holds, which is made where there is none. The note then knows it.
    pub(crate) fn made<'a>(
        holder: &'a OnceBox<Block<T>>,
        alloc: Global,
        note: &mut Note<Block<T>>,
    ) -> Result<&'a Block<T>, AllocError>
        requires { note.old.cell ≡ cell_name holder.now }
        ensures cell { note.new.cell ≡ note.old.cell }
        ensures known { IfOk result (λ block. note.new.known ≡ Some block.now) }
    {
        holder.get_or_try_init_as(move || Block::boxed(alloc), note)
    }
}

impl<T> Block<T> {
    // The cell at a place.
    pub(crate) fn cell(&self, place: u8) -> &OnceBox<T>
        ensures { slice_get self.now place ≡ Some (cell_name result.now) }
    {
        &self.cells[place as usize]
    }
}
