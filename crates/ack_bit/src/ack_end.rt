//! The acknowledgement state of one end of a link.

ghost use Rattle.std.specs.Prelude.{◌≡◌, ◌↔◌, ℕ, Bool, ◌&&◌, not, IsTrue};
ghost use Rattle.ack_bit.specs.AckBits.{first_bits, header_of, is_new, seen_of, receive_of};

use data_pdu::DataHeader;
use std::marker::Model;

/// What a received packet says of the PDU that it carries, and of the PDU that was sent last (Core
/// 5.2, volume 6 part B, section 4.5.9).
#[derive(Clone, Copy, Debug, PartialEq, Eq, Default)]
pub struct AckSeen {
    /// The packet carries a new PDU, not the one before it again.
    pub fresh: bool,
    /// The packet acknowledges the PDU that was sent last.
    pub acked: bool,
}

/// The acknowledgement state of one end of a link: transmitSeqNum and nextExpectedSeqNum (Core 5.2,
/// volume 6 part B, section 4.5.9). Until it sends its first PDU, an empty PDU counts as sent, and
/// the first acknowledgement is of that PDU (our choice).
#[derive(Clone, Copy, Debug, PartialEq, Eq)]
pub struct AckEnd {
    sn: bool,
    nesn: bool,
}

impl Model for AckEnd {
    ghost use Rattle.ack_bit.specs.AckBits.{AckBits};

    ghost Value = { AckBits };

    ghost view = { λ e. record { sn = e.sn; nesn = e.nesn } };

    ghost inverse = { λ bits. record { sn = bits.sn; nesn = bits.nesn } };
}

impl AckEnd {
    /// An end when the link begins: both numbers are 0.
    pub fn new() -> Self
        ensures { result ≡ first_bits }
    {
        AckEnd {
            sn: false,
            nesn: false,
        }
    }

    /// Whether a packet with this header carries a new PDU.
    pub fn is_new(&self, header: DataHeader) -> bool
        ensures test { result ≡ is_new self.now header }
        ensures expected { IsTrue result ↔ (header.sn ≡ self.now.nesn) }
    {
        header.sn == self.nesn
    }

    /// Receives a packet with this header. `room` says whether its PDU can be kept; a control PDU
    /// always can. Without room the PDU is not accepted, and the peer sends it again.
    pub fn receive(&mut self, header: DataHeader, room: bool) -> AckSeen
        ensures bits { self.new ≡ receive_of self.old header room }
        ensures seen { result ≡ seen_of self.old header }
    {
        let seen = AckSeen {
            fresh: self.is_new(header),
            acked: header.nesn != self.sn,
        };
        if seen.acked {
            self.sn = !self.sn;
        }
        if seen.fresh && room {
            self.nesn = !self.nesn;
        }
        seen
    }

    /// The header of the next packet of this end: of the PDU that was sent last until it is
    /// acknowledged, and of the next PDU after that. The caller gives LLID, MD and the length in
    /// octets.
    pub fn header(&self, llid: u8, md: bool, length: u8) -> DataHeader
        ensures { result ≡ header_of self.now llid md length }
    {
        DataHeader {
            llid,
            nesn: self.nesn,
            sn: self.sn,
            md,
            length,
        }
    }
}

/// An end when the link begins.
impl Default for AckEnd {
    ghost is_default = { λ end. end ≡ first_bits };

    fn default() -> Self {
        Self::new()
    }
}
