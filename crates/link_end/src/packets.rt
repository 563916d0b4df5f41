//! What an end of a link makes of octets on its channel, and the packet that it sends.
ghost use Rattle.std.specs.Prelude.{◌≡◌, ◌<◌, ◌≤◌, ◌^◌, ◌&&◌, ◌++◌, not, length, if◌then◌else◌};
ghost use Rattle.air_frame.specs.Packet.{on_air};
ghost use Rattle.data_pdu.specs.Header.{octets_of};
ghost use Rattle.link_model.specs.Verdicts.{has_room_for};

use crate::pdus::is_empty;
use air_frame::build;
use arrayvec::ArrayVec;
use ble_base::AIR_PACKET_OCTETS;
use data_pdu::{DataHeader, read_header, write_header};
use wire_fields::put_octets;

/// Where an end sends and listens: the channel, the access address of the link, and where its CRC
/// begins.
#[derive(Clone, Copy, Debug)]
pub(crate) struct Place {
    pub(crate) channel: u8,
    pub(crate) access: u32,
    pub(crate) crc_init: u32,
}

/// The octets of a header before its payload.
const HEADER_OCTETS: usize = 2;

/// The octets of an integrity code (Core 5.2, volume 6 part E, section 2).
const CODE_OCTETS: usize = 4;

/// The most octets of a PDU that is sent.
const PDU_OCTETS: usize = 257;

/// The packet of the PDU with this header and this payload.
pub(crate) fn packet(
    place: Place,
    header: DataHeader,
    payload: &[u8],
) -> ArrayVec<u8, AIR_PACKET_OCTETS>
    requires channel { place.channel < 40 }
    requires init { place.crc_init < 2 ^ 24 }
    requires llid { header.llid < 4 }
    requires count { header.length ≡ length payload.now }
    requires fits { length payload.now ≤ 255 }
    ensures { result.items
        ≡ on_air place.channel place.access place.crc_init (octets_of header ++ payload.now) }
{
    let mut pdu: ArrayVec<u8, PDU_OCTETS> = ArrayVec::new();
    put_octets(&mut pdu, &write_header(header));
    put_octets(&mut pdu, payload);
    build(place.channel, place.access, place.crc_init, pdu.as_slice())
}

/// The octets of an integrity code that a PDU may have in addition.
fn code_octets(opens: bool, empty: bool) -> usize
    ensures { result ≡ (if opens && not empty then 4 else 0) }
{
    if opens && !empty { CODE_OCTETS } else { 0 }
}

/// Whether the payload of a PDU is not longer than what an end receives: at most `max_rx` octets,
/// and those of an integrity code in addition where it opens a PDU that is not empty.
pub(crate) fn has_room_for(max_rx: u16, opens: bool, pdu: &[u8]) -> bool
    requires header { 2 ≤ length pdu.now }
    requires octets { length pdu.now ≤ 257 }
    ensures { result ≡ has_room_for max_rx opens pdu.now }
{
    let (_, payload) = pdu.split_at(HEADER_OCTETS);
    let header = read_header([pdu[0], pdu[1]]);
    let code = code_octets(opens, is_empty(header.llid, payload.len()));
    pdu.len() <= HEADER_OCTETS + (usize::from(max_rx) + code)
}
