//! The PDUs that an end keeps, and those that it receives.
ghost use Rattle.std.specs.Prelude.{◌≡◌, ◌+◌, ◌<◌, ◌≤◌, ◌==◌, ◌&&◌, ◌||◌, not, length};
ghost use Rattle.std.specs.Prelude.{Some, None, Option, IfSome};
ghost use Rattle.data_pdu.specs.Ranges.{IsInRange};
ghost use Rattle.data_pdu.specs.Reading.{IfKnown};
ghost use Rattle.link_model.specs.Acknowledgement.{empty_pdu};
ghost use Rattle.link_model.specs.Data.{is_control, is_data, is_empty, llid_of, pdu_with};
ghost use Rattle.link_model.specs.Controls.{begins_with, is_procedure_pdu, is_terminate};
ghost use Rattle.link_model.specs.Controls.{pdu_of_control, read_of};
ghost use Rattle.link_end.specs.Pdus.{pdu_in, pdu_value};

use acl_banks::Piece;
use arrayvec::ArrayVec;
use ble_base::PAYLOAD_OCTETS;
use data_pdu::{Ctrl, CtrlRead, DataHeader, read_ctrl, write_ctrl};
use wire_fields::put_octets;

/// LLID of a PDU that continues a message of the host, and of an empty PDU.
const CONTINUATION: u8 = 1;

/// LLID of a PDU that starts a message of the host.
pub(crate) const START: u8 = 2;

/// LLID of a control PDU.
const CONTROL: u8 = 3;

/// The opcode of LL_TERMINATE_IND (Core 5.2, volume 6 part B, section 2.4.2.3).
const TERMINATE_IND: u8 = 0x02;

/// A PDU that an end sends.
#[derive(Debug, Drop)]
pub(crate) struct Pdu {
    pub(crate) llid: u8,
    pub(crate) body: ArrayVec<u8, PAYLOAD_OCTETS>,
}

/// What an end takes of a good packet.
#[derive(Debug, Drop)]
pub(crate) struct Got {
    pub(crate) header: DataHeader,
    /// Its PDU is new and accepted.
    pub(crate) accepted: bool,
    /// The body of a PDU that is accepted and not empty, opened; else it has no octet.
    pub(crate) body: ArrayVec<u8, PAYLOAD_OCTETS>,
}

impl Pdu {
    /// The empty PDU.
    pub(crate) fn empty() -> Pdu
        ensures { pdu_value result ≡ empty_pdu }
    {
        Pdu {
            llid: CONTINUATION,
            body: ArrayVec::new(),
        }
    }

    /// The PDU of a piece, and an empty one where there is none.
    pub(crate) fn with(piece: Option<Piece>) -> Pdu
        ensures value { pdu_value result ≡ pdu_with piece }
        ensures two_bits { result.llid < 4 }
    {
        match piece {
            None => Pdu::empty(),
            Some(piece) => Pdu {
                llid: llid(piece.start),
                body: piece.body,
            },
        }
    }

    /// The PDU of a control PDU, and an empty one where there is none.
    pub(crate) fn of_control(ctrl: Option<Ctrl>) -> Pdu
        requires { IfSome ctrl IsInRange }
        ensures value { pdu_value result ≡ pdu_of_control ctrl }
        ensures two_bits { result.llid < 4 }
    {
        match ctrl {
            None => Pdu::empty(),
            Some(ctrl) => {
                let mut body = ArrayVec::new();
                put_octets(&mut body, write_ctrl(&ctrl).as_slice());
                Pdu {
                    llid: CONTROL,
                    body,
                }
            }
        }
    }

    pub(crate) fn is_data(&self) -> bool
        ensures { result ≡ is_data (pdu_value self.now) }
    {
        is_data(self.llid, self.body.len())
    }

    pub(crate) fn is_empty(&self) -> bool
        ensures { result ≡ is_empty (pdu_value self.now) }
    {
        is_empty(self.llid, self.body.len())
    }

    pub(crate) fn is_control(&self) -> bool
        ensures { result ≡ is_control (pdu_value self.now) }
    {
        self.llid == CONTROL
    }

    /// Whether it is LL_TERMINATE_IND.
    pub(crate) fn is_terminate(&self) -> bool
        ensures { result ≡ is_terminate (pdu_value self.now) }
    {
        self.is_control() && begins_with(TERMINATE_IND, self.body.as_slice())
    }
}

impl Got {
    pub(crate) fn is_data(&self) -> bool
        ensures { result ≡ is_data (pdu_in self.now) }
    {
        is_data(self.header.llid, self.body.len())
    }

    pub(crate) fn is_empty(&self) -> bool
        ensures { result ≡ is_empty (pdu_in self.now) }
    {
        is_empty(self.header.llid, self.body.len())
    }

    /// Whether it is a control PDU with an octet at least.
    pub(crate) fn is_procedure_pdu(&self) -> bool
        ensures { result ≡ is_procedure_pdu (pdu_in self.now) }
    {
        self.header.llid == CONTROL && !self.is_empty()
    }

    /// The control PDU that its body is.
    pub(crate) fn read(&self) -> CtrlRead
        ensures value { result ≡ read_of (pdu_in self.now) }
        ensures in_range { IfKnown result IsInRange }
    {
        read_ctrl(self.body.as_slice())
    }
}

/// LLID of a piece of a message.
fn llid(start: bool) -> u8
    ensures { result ≡ llid_of start }
{
    if start { START } else { CONTINUATION }
}

/// Whether a PDU with this LLID and this number of octets is data.
pub(crate) fn is_data(llid: u8, octets: usize) -> bool
    ensures { result ≡ ((llid == 1 || llid == 2) && not (octets == 0)) }
{
    (llid == CONTINUATION || llid == START) && octets != 0
}

/// Whether such a PDU counts as empty.
pub(crate) fn is_empty(llid: u8, octets: usize) -> bool
    ensures { result ≡ (llid == 0 || octets == 0) }
{
    llid == 0 || octets == 0
}

/// Whether octets begin with this opcode.
fn begins_with(opcode: u8, octets: &[u8]) -> bool
    ensures { result ≡ begins_with opcode octets.now }
{
    match octets {
        [] => false,
        [octet, ..] => *octet == opcode,
    }
}
