//! A list of at most `N` values, each of them of one link. A value stays in its cell until it is
//! removed.

ghost use Rattle.std.specs.Prelude.{◌≡◌, ℕ, ◌<◌, ◌≤◌, ◌^◌, ◌==◌, ◌++◌, ◌∷◌, [], IfOk, length, not, slice_index_or, slice_set, if◌then◌else◌};
ghost use Rattle.std.specs.List.{remove, filter};
ghost use Rattle.std.specs.Borrow.{sem};

use cell_pool::{CellNo, CellPool};
use std::alloc::{AllocError, Global};
use std::marker::Model;

pub(crate) trait HasHandle {
    ghost handle_of: { Self → ℕ };

    fn handle(&self) -> u16
        ensures { result ≡ handle_of self.now };
}

#[derive(Drop)]
pub(crate) struct Queue<V, const N: usize> {
    cells: CellPool<V, N>,
    // The cells of the values, in order.
    order: Vec<CellNo>,
}

impl<V, const N: usize> Model for Queue<V, N> {
    ghost use Rattle.std.specs.Prelude.{List, vec_capacity};
    ghost use Rattle.acl_banks.specs.Cells.{values_in, IsSound};

    ghost Value = { List V };

    ghost view = { λ q. values_in q.cells q.order.items };

    ghost invariant = { λ q. IsSound N q.cells q.order.items (vec_capacity q.order) };
}

impl<V, const N: usize> Queue<V, N> {
    ghost use Rattle.acl_banks.specs.Lending.{lends_value};

    pub(crate) fn make(alloc: Global) -> Result<Self, AllocError>
        requires some { 1 ≤ N }
        requires numbered { N < 2 ^ 32 }
        ensures { IfOk result (λ queue. queue ≡ []) }
    {
        let order = Vec::with_capacity(alloc, N)?;
        let cells = CellPool::make(alloc)?;
        Ok(Queue { cells, order })
    }

    pub(crate) fn len(&self) -> usize
        ensures count { result ≡ length self.now }
        ensures fits { result ≤ N }
    {
        self.order.len()
    }

    pub(crate) fn push(&mut self, value: V)
        requires { length self.old < N }
        ensures { self.new ≡ self.old ++ value ∷ [] }
    {
        match self.cells.put(value) {
            Ok(cell) => self.order.push_reserved(cell),
            Err(_) => unreachable!(),
        }
    }

    pub(crate) fn get(&self, place: usize) -> &V
        requires { place < length self.now }
        ensures { result.now ≡ slice_index_or self.now place result.now }
    {
        self.cells.get(self.order[place])
    }

    pub(crate) fn get_mut(&mut self, place: usize) -> &mut V
        requires { place < length self.old }
        ensures* lends { sem 𝓛 (lends_value V.row N.row self.entry place result) }
        ensures value { result.now ≡ slice_index_or self.old place result.now }
    {
        let cell = self.order[place];
        self.cells.get_mut(cell)
    }

    pub(crate) fn remove(&mut self, place: usize) -> V
        requires { place < length self.old }
        ensures value { result ≡ slice_index_or self.old place result }
        ensures rest { self.new ≡ remove self.old place }
    {
        let cell = self.order.remove(place);
        self.cells.take(cell)
    }
}

impl<V: HasHandle + Drop, const N: usize> Queue<V, N> {
    fn remove_if_of(&mut self, place: usize, handle: u16)
        requires { place < length self.old }
        ensures { (d : V) → self.new ≡ (if V.handle_of (slice_index_or self.old place d) == handle
            then remove self.old place else self.old) }
    {
        if self.get(place).handle() == handle {
            self.remove(place);
        }
    }

    /// Removes all values of a link.
    pub(crate) fn drop_link(&mut self, handle: u16)
        ensures { self.new ≡ filter (λ value. not (V.handle_of value == handle)) self.old }
    {
        for place in (0..self.len()).rev() {
            self.remove_if_of(place, handle);
        }
    }
}
