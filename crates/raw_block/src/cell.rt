//! One cell of a block, which is free or holds a value.

ghost use Rattle.std.specs.Prelude.{◌≡◌, Some, None, IsSome, is_some};
ghost use Rattle.std.specs.Borrow.{Lends, sem};
ghost use Rattle.raw_block.specs.Cells.{value_of};
ghost use Rattle.raw_block.specs.contracts.cell.Cell.{the_row};

#[derive(Drop)]
pub(crate) enum Cell<T> {
    // With the number of the next free cell.
    Free(u32),
    Held(T),
}

impl<T> Cell<T> {
    pub(crate) fn is_held(&self) -> bool
        ensures { result ≡ is_some (value_of self.now) }
    {
        match self {
            Cell::Free(_) => false,
            Cell::Held(_) => true,
        }
    }

    pub(crate) fn value(&self) -> &T
        requires { IsSome (value_of self.now) }
        ensures { self.now ≡ Cell.Held result.now }
    {
        match self {
            Cell::Held(value) => value,
            Cell::Free(_) => unreachable!(),
        }
    }

    pub(crate) fn value_mut(&mut self) -> &mut T
        requires { IsSome (value_of self.old) }
        ensures* lends { sem 𝓛 (Lends (the_row T.row) T.row self.entry result Cell.Held) }
        ensures value { self.old ≡ Cell.Held result.now }
    {
        match self {
            Cell::Held(value) => value,
            Cell::Free(_) => unreachable!(),
        }
    }
}
