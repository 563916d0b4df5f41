//! The first octet of a PDU.
ghost use Rattle.std.specs.Prelude.{◌≡◌, ◌≤◌, false, IfSome, IfNone};
ghost use Rattle.ble_base.specs.Bits.{has_bit};
ghost use Rattle.adv_pdu.specs.Header.{header_octet, number_of_type};
ghost use Rattle.adv_pdu.specs.Pdu.{type_of, ch_sel_of, tx_add_of, rx_add_of};

use crate::pdu::AdvPdu;
use ble_base::{Address, has_bit};

/// The type of a PDU (Core 5.2, volume 6 part B, section 2.3).
#[derive(Clone, Copy)]
pub(crate) enum PduType {
    AdvInd,
    AdvDirectInd,
    AdvNonconnInd,
    ScanReq,
    ScanRsp,
    ConnectInd,
    AdvScanInd,
}

impl PduType {
    /// The type with this number.
    pub fn with_number(number: u8) -> Option<PduType>
        ensures some { IfSome result (λ kind. number_of_type kind ≡ number) }
        ensures none { IfNone result (7 ≤ number) }
    {
        match number {
            0 => Some(PduType::AdvInd),
            1 => Some(PduType::AdvDirectInd),
            2 => Some(PduType::AdvNonconnInd),
            3 => Some(PduType::ScanReq),
            4 => Some(PduType::ScanRsp),
            5 => Some(PduType::ConnectInd),
            6 => Some(PduType::AdvScanInd),
            _ => None,
        }
    }

    /// The number of the type, in bits 0 to 3 of the first octet.
    pub fn number(self) -> u8
        ensures { result ≡ number_of_type self }
    {
        match self {
            PduType::AdvInd => 0,
            PduType::AdvDirectInd => 1,
            PduType::AdvNonconnInd => 2,
            PduType::ScanReq => 3,
            PduType::ScanRsp => 4,
            PduType::ConnectInd => 5,
            PduType::AdvScanInd => 6,
        }
    }
}

/// The first octet of a PDU: the type in bits 0 to 3, and three flags in bits 5 to 7.
#[derive(Clone, Copy)]
pub(crate) struct Header {
    pub kind: PduType,
    pub ch_sel: bool,
    pub tx_add: bool,
    pub rx_add: bool,
}

impl Header {
    /// The header of a PDU of this sender that is for no device in particular.
    fn undirected(kind: PduType, ch_sel: bool, from: &Address) -> Header
        ensures kind { result.kind ≡ kind }
        ensures ch_sel { result.ch_sel ≡ ch_sel }
        ensures tx_add { result.tx_add ≡ from.now.random }
        ensures rx_add { result.rx_add ≡ false }
    {
        Header {
            kind,
            ch_sel,
            tx_add: from.random,
            rx_add: false,
        }
    }

    /// The header of a PDU of this sender for this device.
    fn directed(kind: PduType, ch_sel: bool, from: &Address, to: &Address) -> Header
        ensures kind { result.kind ≡ kind }
        ensures ch_sel { result.ch_sel ≡ ch_sel }
        ensures tx_add { result.tx_add ≡ from.now.random }
        ensures rx_add { result.rx_add ≡ to.now.random }
    {
        Header {
            kind,
            ch_sel,
            tx_add: from.random,
            rx_add: to.random,
        }
    }

    /// A header of this type with the flags of this octet, whether or not the type has each flag.
    pub fn read(kind: PduType, octet: u8) -> Header
        ensures kind { result.kind ≡ kind }
        ensures ch_sel { result.ch_sel ≡ has_bit octet 5 }
        ensures tx_add { result.tx_add ≡ has_bit octet 6 }
        ensures rx_add { result.rx_add ≡ has_bit octet 7 }
    {
        Header {
            kind,
            ch_sel: has_bit(u64::from(octet), 5),
            tx_add: has_bit(u64::from(octet), 6),
            rx_add: has_bit(u64::from(octet), 7),
        }
    }

    /// The header of this PDU. A flag that its type does not have is not set.
    pub fn of(pdu: &AdvPdu) -> Header
        ensures kind { number_of_type result.kind ≡ type_of pdu.now }
        ensures ch_sel { result.ch_sel ≡ ch_sel_of pdu.now }
        ensures tx_add { result.tx_add ≡ tx_add_of pdu.now }
        ensures rx_add { result.rx_add ≡ rx_add_of pdu.now }
    {
        match pdu {
            AdvPdu::Ind { from, ch_sel, .. } => Header::undirected(PduType::AdvInd, *ch_sel, from),
            AdvPdu::Direct { from, to, ch_sel } => {
                Header::directed(PduType::AdvDirectInd, *ch_sel, from, to)
            }
            AdvPdu::Nonconn { from, .. } => Header::undirected(PduType::AdvNonconnInd, false, from),
            AdvPdu::ScanReq { from, to } => Header::directed(PduType::ScanReq, false, from, to),
            AdvPdu::ScanRsp { from, .. } => Header::undirected(PduType::ScanRsp, false, from),
            AdvPdu::Connect {
                from,
                to,
                ch_sel,
                ..
            } => Header::directed(PduType::ConnectInd, *ch_sel, from, to),
            AdvPdu::ScanInd { from, .. } => Header::undirected(PduType::AdvScanInd, false, from),
        }
    }

    /// The octet of this header. Bit 4 is 0.
    pub fn octet(self) -> u8
        ensures { result
            ≡ header_octet (number_of_type self.kind) self.ch_sel self.tx_add self.rx_add }
    {
        let addresses = 64 * u8::from(self.tx_add) + 128 * u8::from(self.rx_add);
        self.kind.number() + 32 * u8::from(self.ch_sel) + addresses
    }
}
