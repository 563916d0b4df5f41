//! Octets with memory of their own.
ghost use Rattle.std.specs.Prelude.{◌≡◌, ℕ, List, IfOk};

use std::alloc::{AllocError, Global};
use std::marker::Model;

/// The octets of a packet, of a host's stream or of a text, in order.
#[derive(Drop)]
pub struct Octets {
    octets: Vec<u8>,
}

impl Model for Octets {
    ghost use Rattle.std.specs.Prelude.{ℕ, List};

    ghost Value = { List ℕ };

    ghost view = { λ o. o.octets.items };
}

impl Octets {
    /// A copy of these octets. The error is out of memory.
    pub fn copy(alloc: Global, octets: &[u8]) -> Result<Self, AllocError>
        ensures { IfOk result (λ copied. copied ≡ octets.now) }
    {
        Ok(Octets {
            octets: Vec::from_slice(alloc, octets)?,
        })
    }

    /// The octets as a slice.
    pub fn as_slice(&self) -> &[u8]
        ensures { result.now ≡ self.now }
    {
        self.octets.as_slice()
    }
}

/// The octets of a vector, in its order. It takes no memory.
impl From<Vec<u8>> for Octets {
    ghost from_gives = { λ octets made. made ≡ octets.items };

    fn from(octets: Vec<u8>) -> Self {
        Octets { octets }
    }
}
