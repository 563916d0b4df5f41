//! One cell of a pool, which is free or holds a value.

ghost use Rattle.std.specs.Prelude.{◌≡◌, Some, None, IsSome, is_some};
ghost use Rattle.std.specs.Borrow.{Lends, sem};
ghost use Rattle.cell_pool.specs.Cells.{value_of};
ghost use Rattle.cell_pool.specs.contracts.cell.Cell.{the_row};

use std::mem;

#[derive(Drop)]
pub(crate) enum Cell<T> {
    Free,
    Held(T),
}

impl<T> Cell<T> {
    pub(crate) fn is_held(&self) -> bool
        ensures { result ≡ is_some (value_of self.now) }
    {
        match self {
            Cell::Free => false,
            Cell::Held(_) => true,
        }
    }

    pub(crate) fn fill(&mut self, value: T)
        requires { self.old ≡ Cell.Free }
        ensures { self.new ≡ Cell.Held value }
    {
        match mem::replace(self, Cell::Held(value)) {
            Cell::Free => {}
            Cell::Held(_) => unreachable!(),
        }
    }

    pub(crate) fn empty(&mut self) -> T
        requires { IsSome (value_of self.old) }
        ensures value { self.old ≡ Cell.Held result }
        ensures after { self.new ≡ Cell.Free }
    {
        match mem::replace(self, Cell::Free) {
            Cell::Held(value) => value,
            Cell::Free => unreachable!(),
        }
    }

    pub(crate) fn value(&self) -> &T
        requires { IsSome (value_of self.now) }
        ensures { self.now ≡ Cell.Held result.now }
    {
        match self {
            Cell::Held(value) => value,
            Cell::Free => unreachable!(),
        }
    }

    pub(crate) fn value_mut(&mut self) -> &mut T
        requires { IsSome (value_of self.old) }
        ensures* lends { sem 𝓛 (Lends (the_row T.row) T.row self.entry result Cell.Held) }
        ensures value { self.old ≡ Cell.Held result.now }
    {
        match self {
            Cell::Held(value) => value,
            Cell::Free => unreachable!(),
        }
    }
}
