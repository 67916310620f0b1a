//! What is known of one cell.
ghost use Rattle.std.specs.Prelude.{◌≡◌, Some, IsTrue, is_some, IsSomeAnd, slice_get};
ghost use Rattle.std.proofs.Props.{props};

use crate::block::Block;
use crate::refusal::SetRefusal;
use once_cell::race::{Note, OnceBox};
use std::alloc::Global;
use std::marker::Model;

// A cell whose value was seen, by its place in its block. The notes of the two take no bytes.
#[derive(Drop)]
pub(crate) struct Sight<T> {
    place: u8,
    block: Note<Block<T>>,
    cell: Note<T>,
    ghost placed: { IsSomeAnd block.known (λ names. slice_get names place ≡ Some cell.cell) } by { Prim.hlevel props },
    ghost seen: { IsTrue (is_some cell.known) },
}

impl<T> Model for Sight<T> {
    ghost use Rattle.rbac_board.specs.Seen.{Seen, seen_of};

    ghost Value = { Seen T };

    ghost view = { λ s. seen_of (record { block = s.block.cell; place = s.place }) s.cell.known s.seen };
}

impl<T: Drop> Sight<T> {
    ghost use Rattle.std.specs.Prelude.{IfOk, IfErr};
    ghost use Rattle.once_cell.specs.Once.{cell_name};
    ghost use Rattle.rbac_board.specs.Refused.{value_back, IsRowFull};

    // Sets the cell at a place of the block that another cell holds, or will.
    pub(crate) fn set(
        holder: &OnceBox<Block<T>>,
        place: u8,
        alloc: Global,
        value: Box<T>,
    ) -> Result<Sight<T>, SetRefusal<T>>
        ensures cell { IfOk result (λ sight. sight.cell ≡ record { block = cell_name holder.now; place = place }) }
        ensures value { IfOk result (λ sight. sight.value ≡ value.value) }
        ensures back { IfErr result (λ refusal. value_back refusal ≡ value.value) }
        ensures not_full { IfErr result (λ refusal. IsRowFull refusal → ⊥) }
    {
        let mut block = holder.note();
        let Ok(made) = Block::made(holder, alloc, &mut block) else {
            return Err(SetRefusal::NoMemory(value));
        };
        let found = made.cell(place);
        let mut cell = found.note();
        match found.set_as(value, &mut cell) {
            Ok(()) => Ok(Sight { place, block, cell }),
            Err(value) => Err(SetRefusal::Taken(value)),
        }
    }
}

impl<T> Sight<T> {
    ghost use Rattle.std.specs.Prelude.{IfSome};
    ghost use Rattle.once_cell.specs.Once.{cell_name};

    // The value in the cell at a place of the block that another cell holds, where it was set.
    pub(crate) fn read(holder: &OnceBox<Block<T>>, place: u8) -> Option<(Sight<T>, &T)>
        ensures cell { IfSome result (λ read. read.0.cell ≡ record { block = cell_name holder.now; place = place }) }
        ensures value { IfSome result (λ read. read.0.value ≡ read.1.now) }
    {
        let mut block = holder.note();
        let held = holder.get_as(&mut block)?;
        let found = held.cell(place);
        let mut cell = found.note();
        let value = found.get_as(&mut cell)?;
        Some((Sight { place, block, cell }, value))
    }

    // The value. The block is in the cell that is passed.
    pub(crate) fn value<'a>(&mut self, holder: &'a OnceBox<Block<T>>) -> &'a T
        requires { self.old.cell.block ≡ cell_name holder.now }
        ensures value { result.now ≡ self.old.value }
        ensures unchanged { self.new ≡ self.old }
    {
        let mut block = self.block.again();
        let mut cell = self.cell.again();
        match holder.get_as(&mut block) {
            Some(held) => match held.cell(self.place).get_as(&mut cell) {
                Some(value) => value,
                None => unreachable!(),
            },
            None => unreachable!(),
        }
    }

    // The same sight, once more.
    pub(crate) fn again(&mut self) -> Sight<T>
        ensures again { result ≡ self.old }
        ensures unchanged { self.new ≡ self.old }
    {
        Sight {
            place: self.place,
            block: self.block.again(),
            cell: self.cell.again(),
        }
    }

    // One cell holds one value.
    pub(crate) fn compare(&mut self, other: &mut Sight<T>)
        requires { other.old.cell ≡ self.old.cell }
        ensures value { other.old.value ≡ self.old.value }
        ensures unchanged { self.new ≡ self.old }
        ensures other_unchanged { other.new ≡ other.old }
    {
        self.block.compare(other.block.again());
        self.cell.compare(other.cell.again());
    }
}
