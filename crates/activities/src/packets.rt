//! Packets of the advertising channels: what is sent, and what is heard.
ghost use Rattle.std.specs.Prelude.{◌≡◌, ◌<◌, Some, IfSome};
ghost use Rattle.adv_pdu.specs.Pdu.{FitsBits};
ghost use Rattle.controller_model.specs.Packets.{advertising_packet, connect_sent, heard_on_channel};
ghost use Rattle.controller_model.specs.Packets.{pdu_heard, verdict_advertising};
ghost use Rattle.activities.specs.Fitting.{IsTakeable};

use adv_pdu::AdvPdu;
use air_frame::{ADVERTISING_ACCESS, ADVERTISING_CRC_INIT, Heard, build, unframe};
use arrayvec::ArrayVec;
use ble_base::{AIR_PACKET_OCTETS, Verdict};
use link_model::LinkSetup;

/// The packet of a PDU on an advertising channel.
pub fn advertising_packet(channel: u8, pdu: &AdvPdu) -> ArrayVec<u8, AIR_PACKET_OCTETS>
    requires channel { channel < 40 }
    requires fits { FitsBits pdu.now }
    ensures { result.items ≡ advertising_packet channel pdu.now }
{
    build(
        channel,
        ADVERTISING_ACCESS,
        ADVERTISING_CRC_INIT,
        pdu.write().as_slice(),
    )
}

/// The CONNECT_IND of a link.
pub fn connect_ind(link: &LinkSetup) -> Option<AdvPdu>
    requires { IsTakeable link.now.fields }
    ensures value { result ≡ connect_sent link.now }
    ensures fits { IfSome result FitsBits }
{
    Some(AdvPdu::Connect {
        from: link.own,
        to: link.peer,
        ch_sel: true,
        fields: link.fields,
    })
}

/// The verdict of a listener on this advertising channel.
pub fn judge(channel: u8, octets: &[u8]) -> Verdict
    requires { channel < 40 }
    ensures { result ≡ verdict_advertising channel octets.now }
{
    match unframe(channel, ADVERTISING_ACCESS, ADVERTISING_CRC_INIT, octets) {
        Heard::NotOurs => Verdict::Missed,
        Heard::Broken => Verdict::Broken,
        Heard::Whole(_) => Verdict::Good,
    }
}

/// The PDU of a packet that is heard whole on this advertising channel.
#[tactic(auto, unfolding(controller_model::specs::Packets::pdu_heard))]
pub fn read_pdu(channel: u8, octets: &[u8]) -> Option<AdvPdu>
    requires { channel < 40 }
    ensures value { result ≡ pdu_heard channel octets.now }
    ensures fits { IfSome result FitsBits }
{
    match unframe(channel, ADVERTISING_ACCESS, ADVERTISING_CRC_INIT, octets) {
        Heard::Whole(pdu) => AdvPdu::read(pdu.as_slice()),
        Heard::NotOurs | Heard::Broken => None,
    }
}
