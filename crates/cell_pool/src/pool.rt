//! The pool and its calls.

ghost use Rattle.std.specs.Prelude.{◌≡◌, ◌+◌, ◌^◌, ◌<◌, ◌≤◌, ◌↔◌, Some, None, IsTrue, IsSome, IsOk, IsErr, IfOk, IfErr, OnErr};
ghost use Rattle.std.specs.Borrow.{sem};
ghost use Rattle.std.specs.FinMap as map;

use crate::cell::Cell;
use std::alloc::{AllocError, Global};
use std::marker::Model;

/// The number of a cell.
#[derive(Clone, Copy, PartialEq, Eq, Debug)]
pub struct CellNo(pub u32);

/// At most `N` values, each in a cell of its own.
///
/// A value stays in its cell until it is taken. Only then may `put` give that cell out again.
#[derive(Drop)]
pub struct CellPool<T, const N: usize> {
    cells: Vec<Cell<T>>,
    // The numbers of the cells that are free, among those that exist so far.
    free: Vec<u32>,
}

impl<T, const N: usize> Model for CellPool<T, N> {
    ghost use Rattle.std.specs.Prelude.{vec_capacity};
    ghost use Rattle.std.specs.Ordering.{nat_cmp};
    ghost use Rattle.std.specs.FinMap as map;
    ghost use Rattle.std.specs.Coded.{coded_ℕ};

    ghost Value = { map.FinMap nat_cmp T };

    ghost coded = { map.code coded_ℕ T.code };

    ghost use Rattle.cell_pool.specs.Cells.{values_of, IsSound};

    ghost view = { λ p. values_of p.cells.items };

    ghost invariant = { λ p.
        IsSound N p.cells.items p.free.items (vec_capacity p.cells) (vec_capacity p.free) };
}

impl<T, const N: usize> CellPool<T, N> {
    ghost use Rattle.cell_pool.specs.Lending.{lends_value};

    /// An empty pool, with the memory for `N` values.
    ///
    /// # Errors
    ///
    /// Out of memory.
    pub fn make(alloc: Global) -> Result<Self, AllocError>
        requires some { 1 ≤ N }
        requires numbered { N < 2 ^ 32 }
        ensures { IfOk result (λ pool. pool ≡ map.empty) }
    {
        let free = Vec::with_capacity(alloc, N)?;
        let cells = Vec::with_capacity(alloc, N)?;
        Ok(CellPool { cells, free })
    }

    /// Puts a value into a free cell, and returns the number of that cell.
    ///
    /// # Errors
    ///
    /// The value itself, exactly where the pool holds `N` values.
    pub fn put(&mut self, value: T) -> Result<CellNo, T>
        ensures full { IsErr result ↔ (map.len self.old ≡ N) }
        ensures room { IsOk result ↔ (map.len self.old < N) }
        ensures was_free { IfOk result (λ cell. map.get self.old cell.0 ≡ None) }
        ensures held { IfOk result (λ cell. self.new ≡ map.insert self.old cell.0 value) }
        ensures returned { IfErr result (λ back. back ≡ value) }
        ensures unchanged { OnErr result (self.new ≡ self.old) }
    {
        if let Some(cell) = self.free.pop() {
            self.cells[cell as usize].fill(value);
            Ok(CellNo(cell))
        } else if self.cells.len() < N {
            let cell = CellNo(self.cells.len() as u32);
            self.cells.push_reserved(Cell::Held(value));
            Ok(cell)
        } else {
            Err(value)
        }
    }

    /// Takes the value out of its cell, which is free from then on.
    pub fn take(&mut self, cell: CellNo) -> T
        requires { IsSome (map.get self.old cell.0) }
        ensures value { map.get self.old cell.0 ≡ Some result }
        ensures rest { self.new ≡ map.remove self.old cell.0 }
    {
        let value = self.cells[cell.0 as usize].empty();
        self.free.push_reserved(cell.0);
        value
    }

    /// The value in a cell.
    pub fn get(&self, cell: CellNo) -> &T
        requires { IsSome (map.get self.now cell.0) }
        ensures { map.get self.now cell.0 ≡ Some result.now }
    {
        self.cells[cell.0 as usize].value()
    }

    /// The value in a cell, for writing.
    pub fn get_mut(&mut self, cell: CellNo) -> &mut T
        requires { IsSome (map.get self.old cell.0) }
        ensures* lends { sem 𝓛 (lends_value T.row N.row self.entry cell.0 result) }
        ensures value { map.get self.old cell.0 ≡ Some result.now }
    {
        self.cells[cell.0 as usize].value_mut()
    }

    /// Whether a cell holds a value.
    pub fn holds(&self, cell: CellNo) -> bool
        ensures { IsTrue result ↔ IsSome (map.get self.now cell.0) }
    {
        let place = cell.0 as usize;
        if place < self.cells.len() {
            self.cells[place].is_held()
        } else {
            false
        }
    }

    /// How many values the pool holds, at most `N`.
    pub fn held(&self) -> usize
        ensures count { result ≡ map.len self.now }
        ensures fits { result ≤ N }
    {
        self.cells.len() - self.free.len()
    }
}
