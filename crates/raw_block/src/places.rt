//! The places of one region, each of which is empty or holds a value.

ghost use Rattle.std.specs.Prelude.{◌≡◌, ℕ, List, Option, ⊤};
ghost use base.Fml.{ftrue};
ghost use denote.RawPtr.{Ptr};
ghost use Rattle.raw_block.specs.Ownership.{places_owned, places_lent, right_owned};

use std::alloc::{AllocError, Allocator};
use std::marker::{Model, PhantomData};

/// Where the region begins. It owns nothing.
pub(crate) struct Start<X> {
    pub(crate) at: *mut X,
}

impl<X> Clone for Start<X> {
    ghost is_clone = { λ x y. y ≡ x };

    ghost is_infallible = { λ _. ⊤ };

    fn clone(&self) -> Result<Start<X>, AllocError> {
        Ok(*self)
    }
}

impl<X> Copy for Start<X> {}

/// The owner of the places. It takes no memory itself.
pub(crate) struct Places<X> {
    pub(crate) mark: PhantomData<*const X>,
    ghost at: { Ptr },
    ghost held: { List (Option X) },
}

impl<X> Model for Places<X> {
    ghost also_owns = { λ p. places_owned X.row p.at p.held };

    ghost also_shares = { λ p _ κ. places_lent X.row p.at p.held κ };
}

/// The right to give the region back to the allocator that it is from. It takes no memory itself.
pub(crate) struct Right<X, A: Allocator> {
    pub(crate) mark: PhantomData<*const (X, A)>,
    ghost at: { Ptr },
    ghost len: { ℕ },
    ghost alloc: { A },
}

impl<X, A: Allocator> Model for Right<X, A> {
    ghost also_owns = { λ r. right_owned X.row (A.dealloc_token r.alloc) r.at r.len };

    ghost also_shares = { λ _ _ _. ftrue };
}
