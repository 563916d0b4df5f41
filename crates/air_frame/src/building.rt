//! From a PDU to its packet.

ghost use Rattle.std.specs.Prelude.{◌≡◌, ◌^◌, ◌<◌};
ghost use Rattle.air_frame.specs.Packet.{on_air, with_crc, IsPdu};
ghost use Rattle.frame_bits.specs.Whitening.{whitening_of};

use arrayvec::ArrayVec;
use frame_bits::{crc_octets, crc24, whiten};
use wire_fields::put_octets;

/// The most octets after an access address: a PDU of 257 octets, and three of its CRC.
pub(crate) const LONGEST_BODY: usize = 260;

/// The packet of a PDU on the air: the four octets of the access address, the least significant
/// first; then the PDU and the three octets of its CRC, both whitened for the channel index. The
/// CRC starts from `init` (Core 5.2, volume 6 part B, sections 2.1, 3.1.1 and 3.2). The PDU is 2 to
/// 257 octets long: a header of two octets, and the number of octets that the second of them
/// counts. The packet is seven octets longer than the PDU.
pub fn build(channel: u8, access: u32, init: u32, pdu: &[u8]) -> ArrayVec<u8, 264>
    requires channel { channel < 40 }
    requires init { init < 2 ^ 24 }
    requires pdu { IsPdu pdu.now }
    ensures { result.items ≡ on_air channel access init pdu.now }
{
    let body = whitened_body(channel, init, pdu);
    let mut packet = ArrayVec::new();
    put_octets(&mut packet, &access.to_le_bytes());
    put_octets(&mut packet, body.as_slice());
    packet
}

/// A PDU and its CRC, whitened.
fn whitened_body(channel: u8, init: u32, pdu: &[u8]) -> ArrayVec<u8, LONGEST_BODY>
    requires channel { channel < 40 }
    requires init { init < 2 ^ 24 }
    requires pdu { IsPdu pdu.now }
    ensures { result.items ≡ whitening_of channel (with_crc init pdu.now) }
{
    let mut body = ArrayVec::new();
    put_octets(&mut body, pdu);
    put_octets(&mut body, &crc_octets(crc24(init, pdu)));
    whiten(channel, body.as_mut_slice());
    body
}
