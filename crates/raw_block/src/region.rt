//! One region of memory for a number of values, and plain calls on its places.

ghost use Rattle.std.specs.Prelude.{◌≡◌, None, Some, length, replicate, get_or, slice_set, IfOk};
ghost use Rattle.raw_block.specs.Places.{IsTaken, IsVacant, AreTaken};
ghost use Rattle.raw_block.specs.Regions.{IsRegion, Keeps};

use crate::places::{Places, Right, Start};
use crate::pointers::{give_region, take_region};
use std::alloc::{AllocError, Global};
use std_alloc::room::may_hold;

/// A region, taken once and given back at its end.
pub(crate) struct Region<X> {
    pub(crate) start: Start<X>,
    pub(crate) places: Places<X>,
    pub(crate) right: Right<X, Global>,
    pub(crate) len: usize,
    pub(crate) alloc: Global,
}

impl<X> Region<X> {
    /// A region of `len` empty places.
    pub(crate) fn make(alloc: Global, len: usize) -> Result<Self, AllocError>
        ensures region { IfOk result (λ region. IsRegion region × (region.len ≡ len)) }
        ensures empty { IfOk result (λ region. region.places.held ≡ replicate len None) }
    {
        if !may_hold::<X>(len) {
            return Err(AllocError);
        }
        let (start, places, right) = take_region(&alloc, len)?;
        Ok(Region {
            start,
            places,
            right,
            len,
            alloc,
        })
    }

    /// Puts a value into an empty place.
    pub(crate) fn put(&mut self, place: usize, value: X)
        requires { IsRegion self.old × IsVacant self.old.places.held place }
        ensures { Keeps self.old self.new (slice_set self.old.places.held place (Some value)) }
    {
        self.places.write(self.start, place, value);
    }

    /// Puts a value into a place in exchange for the one that is there.
    pub(crate) fn swap(&mut self, place: usize, value: X) -> X
        requires { IsRegion self.old × IsTaken self.old.places.held place }
        ensures there { get_or self.old.places.held place None ≡ Some result }
        ensures after { Keeps self.old self.new (slice_set self.old.places.held place (Some value)) }
    {
        let there = self.places.read(self.start, place);
        self.places.write(self.start, place, value);
        there
    }

    /// Drops all values, and gives the region back.
    pub(crate) fn end(self)
    where
        X: Drop,
        requires { IsRegion self × AreTaken self.places.held }
    {
        let Region {
            start,
            mut places,
            right,
            len,
            alloc,
        } = self;
        for place in 0..len {
            let _value = places.read(start, place);
        }
        give_region(&alloc, start, len, places, right);
    }
}
