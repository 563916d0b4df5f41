//! Which packets begin a link.
ghost use Rattle.std.specs.Prelude.{◌≡◌, ◌<◌};
ghost use Rattle.controller_model.specs.Packets.{pdu_heard};
ghost use Rattle.run_model.specs.Links.{begins_link, is_advertising, is_connect_ind};

use adv_pdu::AdvPdu;
use air_frame::{ADVERTISING_ACCESS, ADVERTISING_CRC_INIT, Heard, unframe};

/// How many octets a CONNECT_IND has on the air: the access address, the PDU of 36 octets and the
/// CRC (Core 5.2, volume 6 part B, section 2.3.3.1).
const CONNECT_IND_OCTETS: usize = 43;

/// Whether the PDU is a CONNECT_IND.
fn is_connect_ind(pdu: &Option<AdvPdu>) -> bool
    ensures { result ≡ is_connect_ind pdu.now }
{
    match pdu {
        Some(AdvPdu::Connect { .. }) => true,
        None
        | Some(
            AdvPdu::Ind { .. }
            | AdvPdu::Direct { .. }
            | AdvPdu::Nonconn { .. }
            | AdvPdu::ScanReq { .. }
            | AdvPdu::ScanRsp { .. }
            | AdvPdu::ScanInd { .. },
        ) => false,
    }
}

/// Whether the channel is an advertising channel.
fn is_advertising(channel: u8) -> bool
    ensures { result ≡ is_advertising channel }
{
    37 <= channel && channel < 40
}

/// Whether the octets are the packet of a CONNECT_IND on this channel.
fn has_connect_ind(channel: u8, octets: &[u8]) -> bool
    requires { channel < 40 }
    ensures { result ≡ is_connect_ind (pdu_heard channel octets.now) }
{
    match unframe(channel, ADVERTISING_ACCESS, ADVERTISING_CRC_INIT, octets) {
        Heard::Whole(pdu) => is_connect_ind(&AdvPdu::read(pdu.as_slice())),
        Heard::NotOurs | Heard::Broken => false,
    }
}

/// Whether a packet begins a link. Only packets on an advertising channel with the length of a
/// CONNECT_IND are looked into.
pub(crate) fn begins_link(channel: u8, octets: &[u8]) -> bool
    ensures { result ≡ begins_link channel octets.now }
{
    air_frame::laws::packet_tells_its_pdu();
    if !is_advertising(channel) {
        return false;
    }
    if octets.len() != CONNECT_IND_OCTETS {
        return false;
    }
    has_connect_ind(channel, octets)
}
