//! What a host wants of a link: each kind at most once, in order.
ghost use Rattle.std.specs.Prelude.{◌≡◌, ◌<◌, [], length, Some, slice_get, remove, slice_set};
ghost use Rattle.procedure_values.specs.Wants.{place_of, is_wanted, IsAsk, wanted_with};
ghost use Rattle.procedure_values.specs.Wants.{without_place};

use crate::asks::{Ask, is_same_kind};
use arrayvec::ArrayVec;
use ble_base::Kind;
use std::marker::Model;

/// What the host wants and was not begun, in order. Each kind is there at most once.
#[derive(Drop)]
pub struct Wants {
    asks: ArrayVec<Ask, 8>,
}

impl Model for Wants {
    ghost use Rattle.std.specs.Prelude.{List};
    ghost use Rattle.procedure_values.specs.declared.asks.Ask.{Ask};
    ghost use Rattle.procedure_values.specs.Wants.{IsWants};

    ghost Value = { List Ask };

    ghost view = { λ w. w.asks.items };

    ghost invariant = { λ w. IsWants w.asks.items };

    ghost inverse = { λ asks. record { asks = record { items = asks } } };
}

impl Wants {
    /// Nothing is wanted.
    pub fn new() -> Self
        ensures { result ≡ [] }
    {
        Wants {
            asks: ArrayVec::new(),
        }
    }

    /// What is wanted, in order.
    pub fn as_slice(&self) -> &[Ask]
        ensures { result.now ≡ self.now }
    {
        self.asks.as_slice()
    }

    /// The place of a kind, if it is wanted.
    pub fn place_of(&self, kind: Kind) -> Option<usize>
        ensures { result ≡ place_of kind self.now }
    {
        self.asks
            .as_slice()
            .iter()
            .position(|ask| is_same_kind(ask.kind(), kind))
    }

    /// Whether a kind is wanted.
    pub fn has(&self, kind: Kind) -> bool
        ensures { result ≡ is_wanted kind self.now }
    {
        self.place_of(kind).is_some()
    }

    /// Adds an ask in the place of one of its kind, or after all others.
    pub fn add(&mut self, ask: Ask)
        requires { IsAsk ask }
        ensures { self.new ≡ wanted_with ask self.old }
    {
        match self.place_of(ask.kind()) {
            Some(place) => replace(&mut self.asks, place, ask),
            None => self.asks.push(ask),
        }
    }

    /// The ask in a place.
    pub fn get(&self, place: usize) -> Ask
        requires { place < length self.now }
        ensures value { slice_get self.now place ≡ Some result }
        ensures in_range { IsAsk result }
    {
        self.asks.as_slice()[place]
    }

    /// Removes the ask of a kind, if there is one.
    pub fn remove_kind(&mut self, kind: Kind)
        ensures { self.new ≡ without_place (place_of kind self.old) self.old }
    {
        if let Some(place) = self.place_of(kind) {
            self.remove(place);
        }
    }

    /// Removes the ask in a place.
    pub fn remove(&mut self, place: usize)
        requires { place < length self.old }
        ensures { self.new ≡ remove self.old place }
    {
        self.asks.remove(place);
    }
}

/// Writes an ask into a place.
fn replace(asks: &mut ArrayVec<Ask, 8>, place: usize, ask: Ask)
    requires { place < length asks.old.items }
    ensures { asks.new.items ≡ slice_set asks.old.items place ask }
{
    asks.as_mut_slice()[place] = ask;
}
