//! Packets that are sent.
ghost use Rattle.std.specs.Prelude.{◌≡◌, ◌<◌, IfSome};
ghost use Rattle.std.specs.Option.{option_map};
ghost use Rattle.adv_pdu.specs.Pdu.{FitsBits};
ghost use Rattle.controller_model.specs.Packets.{sends_pdu};
ghost use Rattle.controller.specs.Knowing.{sends_octets, use_wanted};

use crate::intents::Intent;
use activities::advertising_packet;
use adv_pdu::AdvPdu;
use arrayvec::ArrayVec;
use ble_base::AIR_PACKET_OCTETS;

/// Sends a PDU on an advertising channel, if there is one.
pub(crate) fn send_pdu(channel: u8, pdu: Option<AdvPdu>) -> Intent
    requires channel { channel < 40 }
    requires fits { IfSome pdu FitsBits }
    ensures { use_wanted result ≡ sends_pdu channel pdu }
{
    match pdu {
        None => Intent::Idle,
        Some(pdu) => Intent::Send {
            channel,
            octets: advertising_packet(channel, &pdu),
        },
    }
}

/// Sends a packet on a channel, if there are both.
pub(crate) fn send_packet(
    channel: Option<u8>,
    packet: Option<ArrayVec<u8, AIR_PACKET_OCTETS>>,
) -> Intent
    ensures { use_wanted result
        ≡ sends_octets channel (option_map (λ packet. packet.items) packet) }
{
    match (channel, packet) {
        (Some(channel), Some(octets)) => Intent::Send { channel, octets },
        _ => Intent::Idle,
    }
}
