//! A piece of a packet, as one data PDU carries it.

ghost use Rattle.std.specs.Prelude.{◌≡◌, ◌≤◌, length};

use arrayvec::ArrayVec;
use wire_fields::put_octets;

/// What one data PDU carries (Core 5.2, volume 6 part B, section 2.4.1).
#[derive(Debug, PartialEq, Eq, Drop)]
pub struct Piece {
    /// Whether it begins a message of the host: LLID 2, else LLID 1.
    pub start: bool,
    pub body: ArrayVec<u8, 251>,
}

impl Piece {
    pub(crate) fn new(start: bool, octets: &[u8]) -> Piece
        requires { length octets.now ≤ 251 }
        ensures { result ≡ record { start = start; body = record { items = octets.now } } }
    {
        let mut body = ArrayVec::new();
        put_octets(&mut body, octets);
        Piece { start, body }
    }

    pub(crate) fn copy(&self) -> Piece
        ensures { result ≡ self.now }
    {
        Piece::new(self.start, self.body.as_slice())
    }
}
