//! The calls that take a region, give it back, and reach its places by a pointer. No other file has a raw pointer.

ghost use Rattle.std.specs.Prelude.{◌≡◌, Some, None, get_or, slice_set, IfOk};
ghost use Rattle.std.specs.Borrow.{sem};
ghost use Rattle.std.specs.Vec.Ownership.{FitsInBlock};
ghost use Rattle.raw_block.specs.Places.{IsTaken, IsVacant};
ghost use Rattle.raw_block.specs.Regions.{IsFresh};

use crate::places::{Places, Right, Start};
use std::alloc::{AllocError, Allocator};
use std::marker::PhantomData;
use std::mem::{align_of, size_of};

/// Takes a region of `len` empty places.
pub(crate) fn take_region<X, A: Allocator>(
    alloc: &A,
    len: usize,
) -> Result<(Start<X>, Places<X>, Right<X, A>), AllocError>
    requires { FitsInBlock X.row len }
    ensures { IfOk result (λ r. IsFresh alloc.now len r.0 r.1 r.2) }
{
    match alloc.allocate(len * size_of::<X>(), align_of::<X>()) {
        Ok(block) => {
            let start = Start {
                at: block as *mut X,
            };
            Ok((
                start,
                Places { mark: PhantomData },
                Right { mark: PhantomData },
            ))
        }
        Err(refused) => Err(refused),
    }
}

/// Gives a region of empty places back.
pub(crate) fn give_region<X, A: Allocator>(
    alloc: &A,
    start: Start<X>,
    len: usize,
    places: Places<X>,
    right: Right<X, A>,
)
    requires { IsFresh alloc.now len start places right }
{
    let Places { mark: _ } = places;
    let Right { mark: _ } = right;
    unsafe {
        alloc.deallocate(start.at as *mut u8, len * size_of::<X>(), align_of::<X>());
    }
}

impl<X> Places<X> {
    ghost use Rattle.raw_block.specs.Lends.{lends_place};

    /// Moves a value into an empty place.
    pub(crate) fn write(&mut self, start: Start<X>, place: usize, value: X)
        requires { (start.at ≡ self.old.at) × IsVacant self.old.held place }
        ensures { (self.new.at ≡ self.old.at) × (self.new.held ≡ slice_set self.old.held place (Some value)) }
    {
        unsafe { start.at.add(place).write(value) }
    }

    /// Moves a value out, and leaves the place empty.
    pub(crate) fn read(&mut self, start: Start<X>, place: usize) -> X
        requires { (start.at ≡ self.old.at) × IsTaken self.old.held place }
        ensures value { get_or self.old.held place None ≡ Some result }
        ensures after { (self.new.at ≡ self.old.at) × (self.new.held ≡ slice_set self.old.held place None) }
    {
        unsafe { start.at.add(place).read() }
    }

    pub(crate) fn get(&self, start: Start<X>, place: usize) -> &X
        requires { (start.at ≡ self.now.at) × IsTaken self.now.held place }
        ensures { get_or self.now.held place None ≡ Some result.now }
    {
        unsafe { &*start.at.add(place) }
    }

    pub(crate) fn get_mut(&mut self, start: Start<X>, place: usize) -> &mut X
        requires { (start.at ≡ self.old.at) × IsTaken self.old.held place }
        ensures* lends { sem 𝓛 (lends_place X.row self.entry place result) }
        ensures value { get_or self.old.held place None ≡ Some result.now }
    {
        unsafe { &mut *start.at.add(place) }
    }
}
