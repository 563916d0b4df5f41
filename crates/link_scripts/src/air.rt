//! The payloads of packets on the air.
ghost use Rattle.std.specs.Prelude.{◌<◌};

use crate::ends::{ACCESS, CRC_INIT, End};
use crate::random_packets::{header_in, packet};
use air_frame::{Heard, unframe};
use arrayvec::ArrayVec;
use ble_base::{AIR_PACKET_OCTETS, PAYLOAD_OCTETS};
use data_pdu::DataHeader;
use std::alloc::AllocError;
use test_words::{octets_of, put_octets};

/// Writes the payload of an end's packet, or "-" where it is empty.
pub fn put_payload(told: &mut String, end: &End, packet: &[u8]) -> Result<(), AllocError> {
    match unframe(end.channel(), ACCESS, CRC_INIT, packet) {
        Heard::Whole(pdu) => put_body(told, pdu.as_slice().get(2..).unwrap_or(&[])),
        _ => told.push_str(" none"),
    }
}

/// Writes octets, or "-" where there is none.
fn put_body(told: &mut String, body: &[u8]) -> Result<(), AllocError> {
    if body.is_empty() {
        told.push_str(" -")
    } else {
        put_octets(told, body)
    }
}

/// An end hears a packet in this slot, or another one in its place, if a word has octets: the LLID
/// and the payload of that. With a "~" before them the other one acknowledges nothing new.
pub fn hear(end: &mut End, packet: &[u8], word: &str, slot: u32, told: &String) {
    if word.len() < 2 {
        end.hear(packet, slot);
    } else {
        let channel = end.channel();
        let spelled = word.strip_prefix('~');
        let octets = octets_of(*told.allocator(), spelled.unwrap_or(word));
        let like = header_in(channel, packet);
        let nesn = like.nesn ^ spelled.is_some();
        let other = other_packet(channel, DataHeader { nesn, ..like }, octets.as_slice());
        end.hear(other.as_slice(), slot);
    }
}

/// A packet on this channel with the sequence numbers and MD of a header, and with an LLID and a
/// payload.
pub fn other_packet(channel: u8, like: DataHeader, octets: &[u8]) -> ArrayVec<u8, AIR_PACKET_OCTETS>
    requires { channel < 37 }
{
    let header = DataHeader {
        llid: octets.first().copied().unwrap_or(0) % 4,
        ..like
    };
    packet(channel, header, &body_of(octets))
}

/// The octets after the first one.
fn body_of(octets: &[u8]) -> ArrayVec<u8, PAYLOAD_OCTETS> {
    let mut body = ArrayVec::new();
    for octet in octets.get(1..).unwrap_or(&[]) {
        let _ = body.try_push(*octet);
    }
    body
}
