//! PDUs, each written into its octets.
ghost use Rattle.std.specs.Prelude.{◌≡◌, ◌≤◌, ◌+◌, ◌++◌, [], length, Some};
ghost use Rattle.arrayvec.specs.ArrayVec.{array_vec_len};
ghost use Rattle.wire_fields.specs.Field.{appended, AllFit};
ghost use Rattle.adv_pdu.specs.Header.{without_ignored_bits};
ghost use Rattle.adv_pdu.specs.Pdu.{link_fields_of, payload_of, written};
ghost use Rattle.adv_pdu.specs.Pdu.{FitsBits, HasRoom, IsPdu, IsWithinBits};
ghost use Rattle.adv_pdu.specs.Reading.{read_of};

use crate::header::Header;
use crate::pdu::{AdvPdu, ConnectFields};
use arrayvec::ArrayVec;
use wire_fields::{put_octets, put_u8, put_u16, put_u24, put_u32, put_u40};

/// Appends the LLData of a CONNECT_IND.
fn put_link_fields(payload: &mut ArrayVec<u8, 37>, fields: &ConnectFields)
    requires bits { IsWithinBits fields.now }
    requires room { array_vec_len payload.old ≤ 12 }
    ensures items { payload.new.items ≡ appended payload.old.items (link_fields_of fields.now) }
    ensures fits { AllFit (link_fields_of fields.now) }
{
    put_u32(payload, fields.access);
    put_u24(payload, fields.crc_init);
    put_u8(payload, fields.win_size);
    put_u16(payload, fields.win_offset);
    put_u16(payload, fields.interval);
    put_u16(payload, fields.latency);
    put_u16(payload, fields.timeout);
    put_u40(payload, fields.map);
    put_u8(payload, fields.hop + 32 * fields.sca);
}

/// The payload: the sender's address first.
fn payload(pdu: &AdvPdu) -> ArrayVec<u8, 37>
    requires { FitsBits pdu.now }
    ensures items { result.items ≡ appended [] (payload_of pdu.now) }
    ensures fits { AllFit (payload_of pdu.now) }
    ensures room { HasRoom pdu.now }
{
    let mut payload = ArrayVec::new();
    match pdu {
        AdvPdu::Ind { from, body, .. }
        | AdvPdu::Nonconn { from, body }
        | AdvPdu::ScanRsp { from, body }
        | AdvPdu::ScanInd { from, body } => {
            put_octets(&mut payload, &from.octets);
            put_octets(&mut payload, body.as_slice());
        }
        AdvPdu::Direct { from, to, .. } | AdvPdu::ScanReq { from, to } => {
            put_octets(&mut payload, &from.octets);
            put_octets(&mut payload, &to.octets);
        }
        AdvPdu::Connect {
            from,
            to,
            fields,
            ..
        } => {
            put_octets(&mut payload, &from.octets);
            put_octets(&mut payload, &to.octets);
            put_link_fields(&mut payload, fields);
        }
    }
    payload
}

/// The second octet of the header: the number of octets of the payload.
fn length_octet(payload: &ArrayVec<u8, 37>) -> u8
    ensures { result ≡ array_vec_len payload.now }
{
    payload.len() as u8
}

impl AdvPdu {
    /// The octets of the PDU, 8 to 39, in the order of the air: the octet of type and flags, the
    /// number of octets of the payload, and the payload (Core 5.2, volume 6 part B, section 2.3).
    /// The reserved bit is 0, and so are ChSel and RxAdd of a type that has none.
    ///
    /// `read` gives the PDU back from these octets.
    pub fn write(&self) -> ArrayVec<u8, 39>
        requires { FitsBits self.now }
        ensures octets { result.items ≡ written self.now }
        ensures pdu { IsPdu self.now }
        // No ignored bit is 1.
        ensures no_ignored_bits { without_ignored_bits result.items ≡ result.items }
        // They say this PDU.
        ensures read { read_of result.items ≡ Some self.now }
    {
        let payload = payload(self);
        let mut packet = ArrayVec::new();
        put_u8(&mut packet, Header::of(self).octet());
        put_u8(&mut packet, length_octet(&payload));
        put_octets(&mut packet, payload.as_slice());
        packet
    }
}
