//! PDUs, each read from its octets.
ghost use Rattle.std.specs.Prelude.{◌≡◌, ℕ, ◌≤◌, ◌↔◌, ◌+◌, ◌%◌, ◌++◌, Some, List, length};
ghost use Rattle.std.specs.Prelude.{IfSome, IfNone, IsSome, IsTrue};
ghost use Rattle.wire_fields.specs.Field.{spelled, AllFit};
ghost use Rattle.adv_pdu.specs.declared.pdu.AdvPdu.{AdvPdu};
ghost use Rattle.adv_pdu.specs.Header.{number_of_type, without_ignored_bits};
ghost use Rattle.adv_pdu.specs.Pdu.{link_fields_of, written, IsPdu, IsWithinBits};
ghost use Rattle.adv_pdu.specs.Reading.{is_payload_length, read_of, IsPacket, HasPacket};
ghost use Rattle.adv_pdu.specs.Reading.{IsReading, Spells};

use crate::header::{Header, PduType};
use crate::pdu::{AdvPdu, ConnectFields};
use arrayvec::ArrayVec;
use ble_base::Address;
use wire_fields::{Fields, put_octets};

/// The LLData of a CONNECT_IND, of 22 octets.
fn link_fields(mut fields: Fields) -> ConnectFields
    requires { length fields ≡ 22 }
    ensures octets { spelled (link_fields_of result) ≡ fields.entry }
    ensures fits { AllFit (link_fields_of result) }
    ensures bits { IsWithinBits result }
{
    let access = fields.u32();
    let crc_init = fields.u24();
    let win_size = fields.u8();
    let win_offset = fields.u16();
    let interval = fields.u16();
    let latency = fields.u16();
    let timeout = fields.u16();
    let map = fields.u40();
    let hop_and_sca = fields.u8();
    ConnectFields {
        access,
        crc_init,
        win_size,
        win_offset,
        interval,
        latency,
        timeout,
        map,
        hop: hop_and_sca % 32,
        sca: hop_and_sca / 32,
    }
}

/// Advertising or scan response data: all octets that are left.
fn body(mut fields: Fields) -> ArrayVec<u8, 31>
    requires { length fields ≤ 31 }
    ensures { result.items ≡ fields.entry }
{
    let mut body = ArrayVec::new();
    put_octets(&mut body, fields.slice(fields.len()));
    body
}

/// The next address.
fn address(random: bool, fields: &mut Fields) -> Address
    requires { 6 ≤ length fields.old }
    ensures random { result.random ≡ random }
    ensures taken { fields.old ≡ result.octets ++ fields.new }
    ensures rest { length fields.new + 6 ≡ length fields.old }
{
    Address {
        random,
        octets: fields.octets(),
    }
}

/// The PDU with this header and this payload.
fn pdu(header: Header, mut fields: Fields) -> AdvPdu
    requires { IsTrue (is_payload_length (number_of_type header.kind) (length fields)) }
    ensures { Spells result (number_of_type header.kind) header.ch_sel header.tx_add header.rx_add
        fields.entry }
{
    let from = address(header.tx_add, &mut fields);
    match header.kind {
        PduType::AdvInd => AdvPdu::Ind {
            from,
            ch_sel: header.ch_sel,
            body: body(fields),
        },
        PduType::AdvDirectInd => AdvPdu::Direct {
            from,
            to: address(header.rx_add, &mut fields),
            ch_sel: header.ch_sel,
        },
        PduType::AdvNonconnInd => AdvPdu::Nonconn {
            from,
            body: body(fields),
        },
        PduType::ScanReq => AdvPdu::ScanReq {
            from,
            to: address(header.rx_add, &mut fields),
        },
        PduType::ScanRsp => AdvPdu::ScanRsp {
            from,
            body: body(fields),
        },
        PduType::ConnectInd => AdvPdu::Connect {
            from,
            to: address(header.rx_add, &mut fields),
            ch_sel: header.ch_sel,
            fields: link_fields(fields),
        },
        PduType::AdvScanInd => AdvPdu::ScanInd {
            from,
            body: body(fields),
        },
    }
}

/// Whether a PDU of this type may have a payload of this number of octets.
fn is_payload_length(kind: PduType, count: usize) -> bool
    ensures { result ≡ is_payload_length (number_of_type kind) count }
{
    match kind {
        PduType::AdvInd | PduType::AdvNonconnInd | PduType::ScanRsp | PduType::AdvScanInd => {
            (6..=37).contains(&count)
        }
        PduType::AdvDirectInd | PduType::ScanReq => count == 12,
        PduType::ConnectInd => count == 34,
    }
}

/// The type, the first octet and the payload of a PDU.
fn packet_parts(octets: &[u8]) -> Option<(PduType, u8, &[u8])>
    ensures kind { IfSome result (λ p. number_of_type p.0 ≡ p.1 % 16) }
    ensures found { IfSome result (λ p. IsPacket octets.now p.1 p.2.now) }
    ensures none { IfNone result
        ((first : ℕ) (payload : List ℕ) → ¬ IsPacket octets.now first payload) }
{
    let [first, length, payload @ ..] = octets else {
        return None;
    };
    if payload.len() != *length as usize {
        return None;
    }
    let Some(kind) = PduType::with_number(*first % 16) else {
        return None;
    };
    if !is_payload_length(kind, payload.len()) {
        return None;
    }
    Some((kind, *first, payload))
}

impl AdvPdu {
    /// The PDU that these octets are, all of them: what `write` gives for it, but for bits that are
    /// ignored (Core 5.2, volume 6 part B, section 2.3). Those are bit 4 of the first octet, and
    /// ChSel or RxAdd of a type that has none. None where no PDU is so written.
    pub fn read(octets: &[u8]) -> Option<AdvPdu>
        // There is a PDU where the type is 0 to 6, the second octet is the number of octets after
        // it, and a payload of the type may have this length.
        ensures some { IsSome result ↔ HasPacket octets.now }
        ensures found { IfSome result (λ pdu.
            IsPdu pdu × (without_ignored_bits octets.now ≡ written pdu)) }
        // Each part is read from its place.
        ensures parts { IfSome result (λ pdu. IsReading octets.now pdu) }
        // Nothing else is read from the octets of a PDU.
        ensures only { (pdu : AdvPdu) → IsPdu pdu → without_ignored_bits octets.now ≡ written pdu
            → result ≡ Some pdu }
        // It is what the octets say, place by place.
        ensures value { result ≡ read_of octets.now }
    {
        let (kind, first, payload) = packet_parts(octets)?;
        Some(pdu(Header::read(kind, first), Fields::new(payload)))
    }
}
