//! Random packets to one end of a link, framed as the other end frames its own.
ghost use Rattle.std.specs.Prelude.{◌<◌, ◌^◌};

use crate::ends::{ACCESS, CRC_INIT};
use air_frame::{Heard, build, unframe};
use arrayvec::ArrayVec;
use ble_base::{AIR_PACKET_OCTETS, PAYLOAD_OCTETS};
use data_pdu::{DataHeader, read_header, write_header};
use wire_fields::put_octets;

/// The number of octets after each opcode from 00 to 1F (Core 5.2, volume 6 part B, section 2.4.2).
const LENGTHS: [u8; 32] = [
    11, 7, 1, 22, 12, 0, 0, 1, 8, 8, 0, 0, 5, 1, 8, 23, 23, 2, 0, 0, 8, 8, 2, 2, 4, 2, 1, 0, 34, 1,
    1, 35,
];

/// LL_CONNECTION_UPDATE_IND with the Instant 12.
const UPDATE: [u8; 12] = [0x00, 1, 0, 0, 24, 0, 0, 0, 100, 0, 12, 0];

/// LL_CONNECTION_PARAM_REQ for 40 ms.
const REQUEST: [u8; 24] = [
    0x0F, 32, 0, 32, 0, 0, 0, 72, 0, 0, 1, 0, 255, 255, 255, 255, 255, 255, 255, 255, 255, 255,
    255, 255,
];

/// LL_PHY_UPDATE_IND that changes nothing.
const PHY_UPDATE: [u8; 5] = [0x18, 0, 0, 0, 0];

/// The next octet of a fixed generator.
pub fn octet(state: &mut u32) -> u8 {
    *state = state.wrapping_mul(1_664_525).wrapping_add(1_013_904_223);
    (*state >> 24) as u8
}

/// Appends this number of random octets, or fewer where there is no room for all.
fn fill(body: &mut ArrayVec<u8, PAYLOAD_OCTETS>, count: u8, state: &mut u32) {
    for _ in 0..count {
        let _ = body.try_push(octet(state));
    }
}

/// The payload of a control PDU with any opcode. Its length is right, or is not.
fn control(state: &mut u32) -> ArrayVec<u8, PAYLOAD_OCTETS> {
    let mut body = ArrayVec::new();
    let (opcode, kind) = (octet(state) % 32, octet(state) % 4);
    match (opcode, kind) {
        (0x00, 0..=2) => put_octets(&mut body, &UPDATE),
        (0x0F, 0..=2) => put_octets(&mut body, &REQUEST),
        (0x18, 0..=2) => put_octets(&mut body, &PHY_UPDATE),
        _ => {
            body.push(opcode);
            let wrong = octet(state) % 40;
            let right = LENGTHS[usize::from(opcode)];
            fill(&mut body, if kind == 3 { wrong } else { right }, state);
        }
    }
    body
}

/// The payload of a PDU with this LLID.
fn payload(llid: u8, state: &mut u32) -> ArrayVec<u8, PAYLOAD_OCTETS> {
    if llid == 3 {
        return control(state);
    }
    let mut body = ArrayVec::new();
    fill(&mut body, octet(state), state);
    body
}

/// The packet of a PDU on this channel.
pub fn packet(
    channel: u8,
    header: DataHeader,
    body: &ArrayVec<u8, PAYLOAD_OCTETS>,
) -> ArrayVec<u8, AIR_PACKET_OCTETS>
    requires channel { channel < 37 }
    requires llid { header.llid < 4 }
{
    let header = DataHeader {
        length: body.len() as u8,
        ..header
    };
    let mut pdu: ArrayVec<u8, 253> = ArrayVec::new();
    put_octets(&mut pdu, &write_header(header));
    put_octets(&mut pdu, body.as_slice());
    build(channel, ACCESS, CRC_INIT, pdu.as_slice())
}

/// The header of an end's packet on this channel.
pub fn header_in(channel: u8, packet: &[u8]) -> DataHeader
    requires { channel < 37 }
{
    match unframe(channel, ACCESS, CRC_INIT, packet) {
        Heard::Whole(pdu) => first_two(pdu.as_slice()),
        _ => DataHeader::default(),
    }
}

/// The header that a PDU begins with.
fn first_two(pdu: &[u8]) -> DataHeader {
    match pdu {
        [first, second, ..] => read_header([*first, *second]),
        _ => DataHeader::default(),
    }
}

/// A random packet on this channel, to an end that sent this header last: mostly one that
/// acknowledges it and is new.
pub fn random_packet(
    channel: u8,
    last: DataHeader,
    state: &mut u32,
) -> ArrayVec<u8, AIR_PACKET_OCTETS>
    requires { channel < 37 }
{
    let flips = octet(state);
    let llid = match octet(state) % 8 {
        0 => 0,
        1 => 1,
        2 => 2,
        _ => 3,
    };
    let header = DataHeader {
        llid,
        nesn: !last.sn ^ (flips % 8 == 0),
        sn: last.nesn ^ (flips % 8 == 1),
        md: flips % 8 == 2,
        length: 0,
    };
    packet(channel, header, &payload(llid, state))
}
