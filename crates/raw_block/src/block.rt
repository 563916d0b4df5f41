//! The block and its calls.

ghost use Rattle.std.specs.Prelude.{◌≡◌, ◌^◌, ◌<◌, ◌≤◌, ◌↔◌, Some, None, IsTrue, IsSome, IsOk, IsErr, IfOk, IfErr, OnErr, replicate};
ghost use Rattle.std.specs.Borrow.{sem};
ghost use Rattle.std.specs.FinMap as map;
ghost use Rattle.raw_block.specs.Regions.{IsRegion};
ghost use Rattle.raw_block.specs.Cells.{IsSound, values_of};

use crate::cell::Cell;
use crate::region::Region;
use std::alloc::{AllocError, Global};
use std::marker::Model;

/// The number of a cell.
#[derive(Clone, Copy, PartialEq, Eq, Debug)]
pub struct CellNo(pub u32);

/// At most `N` values, each in a cell of its own.
///
/// A value stays in its cell until it is taken. Only then may `put` give that cell out again.
pub struct RawBlock<T, const N: usize> {
    region: Region<Cell<T>>,
    // The number of the first free cell, `N` where none is free.
    first: u32,
}

impl<T, const N: usize> Model for RawBlock<T, N> {
    ghost use Rattle.std.specs.Ordering.{nat_cmp};
    ghost use Rattle.std.specs.FinMap as map;
    ghost use Rattle.std.specs.Coded.{coded_ℕ};

    ghost Value = { map.FinMap nat_cmp T };

    ghost coded = { map.code coded_ℕ T.code };

    ghost use Rattle.raw_block.specs.Regions.{IsRegion};
    ghost use Rattle.raw_block.specs.Cells.{IsSound, values_of};

    ghost view = { λ b. values_of b.region.places.held };

    ghost invariant = { λ b. IsRegion b.region × IsSound N b.region.places.held b.first };
}

/// Chains all places of an empty region, the first of them first.
fn chain_all<T>(region: &mut Region<Cell<T>>, most: u32)
    requires region { IsRegion region.old × (region.old.len ≡ most) }
    requires empty { region.old.places.held ≡ replicate most None }
    ensures region { IsRegion region.new }
    ensures sound { IsSound most region.new.places.held 0 }
    ensures empty { values_of region.new.places.held ≡ map.empty }
{
    for done in 0..most {
        let cell = most - 1 - done;
        region.put(cell as usize, Cell::Free(most - done));
    }
}

impl<T, const N: usize> RawBlock<T, N> {
    ghost use Rattle.raw_block.specs.Lending.{lends_value};

    /// An empty block, with the memory for `N` values.
    ///
    /// # Errors
    ///
    /// Out of memory.
    pub fn make(alloc: Global) -> Result<Self, AllocError>
        requires some { 1 ≤ N }
        requires numbered { N < 2 ^ 32 }
        ensures { IfOk result (λ block. block ≡ map.empty) }
    {
        let mut region = Region::make(alloc, N)?;
        chain_all(&mut region, N as u32);
        Ok(RawBlock { region, first: 0 })
    }

    /// Puts a value into a free cell, and returns the number of that cell.
    ///
    /// # Errors
    ///
    /// The value itself, exactly where the block holds `N` values.
    pub fn put(&mut self, value: T) -> Result<CellNo, T>
        ensures full { IsErr result ↔ (map.len self.old ≡ N) }
        ensures room { IsOk result ↔ (map.len self.old < N) }
        ensures was_free { IfOk result (λ cell. map.get self.old cell.0 ≡ None) }
        ensures held { IfOk result (λ cell. self.new ≡ map.insert self.old cell.0 value) }
        ensures returned { IfErr result (λ back. back ≡ value) }
        ensures unchanged { OnErr result (self.new ≡ self.old) }
    {
        let cell = self.first;
        if cell as usize >= N {
            return Err(value);
        }
        match self.region.swap(cell as usize, Cell::Held(value)) {
            Cell::Free(next) => {
                self.first = next;
                Ok(CellNo(cell))
            }
            Cell::Held(_) => unreachable!(),
        }
    }

    /// Takes the value out of its cell, which is free from then on.
    pub fn take(&mut self, cell: CellNo) -> T
        requires { IsSome (map.get self.old cell.0) }
        ensures value { map.get self.old cell.0 ≡ Some result }
        ensures rest { self.new ≡ map.remove self.old cell.0 }
    {
        match self.region.swap(cell.0 as usize, Cell::Free(self.first)) {
            Cell::Held(value) => {
                self.first = cell.0;
                value
            }
            Cell::Free(_) => unreachable!(),
        }
    }

    /// The value in a cell.
    pub fn get(&self, cell: CellNo) -> &T
        requires { IsSome (map.get self.now cell.0) }
        ensures { map.get self.now cell.0 ≡ Some result.now }
    {
        let place = cell.0 as usize;
        self.region.places.get(self.region.start, place).value()
    }

    /// The value in a cell, for writing.
    pub fn get_mut(&mut self, cell: CellNo) -> &mut T
        requires { IsSome (map.get self.old cell.0) }
        ensures* lends { sem 𝓛 (lends_value T.row N.row self.entry cell.0 result) }
        ensures value { map.get self.old cell.0 ≡ Some result.now }
    {
        let (start, place) = (self.region.start, cell.0 as usize);
        self.region.places.get_mut(start, place).value_mut()
    }

    /// Whether a cell holds a value.
    pub fn holds(&self, cell: CellNo) -> bool
        ensures { IsTrue result ↔ IsSome (map.get self.now cell.0) }
    {
        let place = cell.0 as usize;
        if place < N {
            self.region.places.get(self.region.start, place).is_held()
        } else {
            false
        }
    }
}

/// Drops what the block holds, and gives its memory back.
impl<T: Drop, const N: usize> Drop for RawBlock<T, N> {
    fn drop(self) {
        let RawBlock { region, first: _ } = self;
        region.end();
    }
}
