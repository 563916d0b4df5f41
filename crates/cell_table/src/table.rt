//! The table and its calls.

ghost use Rattle.std.specs.Prelude.{◌≡◌, ◌<◌, ◌≤◌, ◌^◌, Some, None, IsSome, IfOk, is_some};
ghost use Rattle.std.specs.Prelude.{replicate, slice_index_or, slice_set};
ghost use Rattle.std.specs.Borrow.{sem};

use cell_pool::{CellNo, CellPool};
use std::alloc::{AllocError, Global};
use std::marker::Model;

/// The places 0 to `N` - 1, each with at most one value, which stays in its cell until it is taken.
#[derive(Drop)]
pub struct CellTable<T, const N: usize> {
    cells: CellPool<T, N>,
    // The cell of the value in each place, if there is one.
    places: [Option<CellNo>; N],
}

impl<T, const N: usize> Model for CellTable<T, N> {
    ghost use Rattle.std.specs.Prelude.{List, Option};
    ghost use Rattle.cell_table.specs.Cells.{values_at, IsSound};

    ghost Value = { List (Option T) };

    ghost view = { λ t. values_at t.cells t.places };

    ghost invariant = { λ t. IsSound N t.cells t.places };
}

impl<T, const N: usize> CellTable<T, N> {
    ghost use Rattle.std.specs.Prelude.{length};
    ghost use Rattle.cell_table.specs.Lending.{lends_value};

    /// A table with no value, with the memory for `N` of them.
    ///
    /// # Errors
    ///
    /// Out of memory.
    pub fn make(alloc: Global) -> Result<Self, AllocError>
        requires some { 1 ≤ N }
        requires numbered { N < 2 ^ 32 }
        ensures { IfOk result (λ table. table ≡ replicate N None) }
    {
        let cells = CellPool::make(alloc)?;
        Ok(CellTable {
            cells,
            places: [None; N],
        })
    }

    /// How many places there are, with a value or none.
    pub fn places(&self) -> usize
        ensures all { result ≡ N }
        ensures count { result ≡ length self.now }
    {
        let places: &[Option<CellNo>] = &self.places;
        places.len()
    }

    /// Whether a value is in a place. In a place that is not there is none.
    pub fn holds(&self, place: usize) -> bool
        ensures { result ≡ is_some (slice_index_or self.now place None) }
    {
        place < N && self.places[place].is_some()
    }

    /// The value in a place.
    pub fn get(&self, place: usize) -> &T
        requires { IsSome (slice_index_or self.now place None) }
        ensures { slice_index_or self.now place None ≡ Some result.now }
    {
        self.cells.get(cell_in(&self.places, place))
    }

    /// The value in a place, for writing.
    pub fn get_mut(&mut self, place: usize) -> &mut T
        requires { IsSome (slice_index_or self.old place None) }
        ensures* lends { sem 𝓛 (lends_value T.row N.row self.entry place result) }
        ensures value { slice_index_or self.old place None ≡ Some result.now }
    {
        let cell = cell_in(&self.places, place);
        self.cells.get_mut(cell)
    }

    /// Puts a value into a place that has none.
    pub fn put(&mut self, place: usize, value: T)
        requires within { place < N }
        requires free { slice_index_or self.old place None ≡ None }
        ensures { self.new ≡ slice_set self.old place (Some value) }
    {
        match self.cells.put(value) {
            Ok(cell) => self.places[place] = Some(cell),
            Err(_) => unreachable!(),
        }
    }

    /// Takes the value out of a place, which has none from then on.
    pub fn take(&mut self, place: usize) -> T
        requires { IsSome (slice_index_or self.old place None) }
        ensures value { slice_index_or self.old place None ≡ Some result }
        ensures rest { self.new ≡ slice_set self.old place None }
    {
        let cell = cell_in(&self.places, place);
        self.places[place] = None;
        self.cells.take(cell)
    }
}

/// The cell of the value in a place that has one.
fn cell_in(places: &[Option<CellNo>], place: usize) -> CellNo
    requires { IsSome (slice_index_or places.now place None) }
    ensures { slice_index_or places.now place None ≡ Some result }
{
    match places[place] {
        Some(cell) => cell,
        None => unreachable!(),
    }
}
