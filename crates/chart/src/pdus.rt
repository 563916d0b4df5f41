//! What a PDU is called.
ghost use Rattle.std.specs.Prelude.{◌≡◌, IfOk, string_bytes};
ghost use Rattle.chart.specs.Pdus.{bit_words, body_words, control_words, ctrl_name, data_words};
ghost use Rattle.chart.specs.Pdus.{header_at, kind_words, llid_name, pdu_words, type_name};

use data_pdu::{Ctrl, CtrlRead, DataHeader, read_ctrl, read_header};
use frame_bits::whiten;
use std::alloc::{AllocError, Global};

/// The number of channels, and the first of the advertising channels.
const CHANNELS: u8 = 40;

const ADVERTISING: u8 = 37;

/// The header of the PDU of a packet, no longer whitened.
fn header_at(channel: u8, octets: &[u8]) -> Option<[u8; 2]>
    ensures { result ≡ header_at channel octets.now }
{
    match octets {
        [_, _, _, _, first, second, ..] if channel < CHANNELS => {
            let mut header = [*first, *second];
            whiten(channel, &mut header);
            Some(header)
        }
        _ => None,
    }
}

/// The name of a PDU of the advertising channels.
fn type_name(number: u8) -> &'static str
    ensures { result.now ≡ type_name number }
{
    match number {
        0 => "ADV_IND",
        1 => "ADV_DIRECT_IND",
        2 => "ADV_NONCONN_IND",
        3 => "SCAN_REQ",
        4 => "SCAN_RSP",
        5 => "CONNECT_IND",
        6 => "ADV_SCAN_IND",
        _ => "reserved",
    }
}

/// The kind of a data channel PDU of this length.
fn llid_name(llid: u8, length: usize) -> &'static str
    ensures { result.now ≡ llid_name llid length }
{
    match llid {
        3 => "control",
        2 => "start",
        0 => "reserved",
        _ if length == 0 => "empty",
        _ => "continuation",
    }
}

/// The name of a control PDU.
fn ctrl_name(ctrl: Ctrl) -> &'static str
    ensures { result.now ≡ ctrl_name ctrl }
{
    match ctrl {
        Ctrl::ConnectionUpdateInd { .. } => "LL_CONNECTION_UPDATE_IND",
        Ctrl::ChannelMapInd { .. } => "LL_CHANNEL_MAP_IND",
        Ctrl::TerminateInd { .. } => "LL_TERMINATE_IND",
        Ctrl::EncReq { .. } => "LL_ENC_REQ",
        Ctrl::EncRsp { .. } => "LL_ENC_RSP",
        Ctrl::StartEncReq => "LL_START_ENC_REQ",
        Ctrl::StartEncRsp => "LL_START_ENC_RSP",
        Ctrl::UnknownRsp { .. } => "LL_UNKNOWN_RSP",
        Ctrl::FeatureReq { .. } => "LL_FEATURE_REQ",
        Ctrl::FeatureRsp { .. } => "LL_FEATURE_RSP",
        Ctrl::PauseEncReq => "LL_PAUSE_ENC_REQ",
        Ctrl::PauseEncRsp => "LL_PAUSE_ENC_RSP",
        Ctrl::VersionInd { .. } => "LL_VERSION_IND",
        Ctrl::RejectInd { .. } => "LL_REJECT_IND",
        Ctrl::PeripheralFeatureReq { .. } => "LL_PERIPHERAL_FEATURE_REQ",
        Ctrl::ConnectionParamReq { .. } => "LL_CONNECTION_PARAM_REQ",
        Ctrl::ConnectionParamRsp { .. } => "LL_CONNECTION_PARAM_RSP",
        Ctrl::RejectExtInd { .. } => "LL_REJECT_EXT_IND",
        Ctrl::LengthReq { .. } => "LL_LENGTH_REQ",
        Ctrl::LengthRsp { .. } => "LL_LENGTH_RSP",
        Ctrl::PhyReq { .. } => "LL_PHY_REQ",
        Ctrl::PhyRsp { .. } => "LL_PHY_RSP",
        Ctrl::PhyUpdateInd { .. } => "LL_PHY_UPDATE_IND",
    }
}

/// A payload by its kind and its length.
fn kind_words(alloc: Global, llid: u8, length: usize) -> Result<String, AllocError>
    ensures { IfOk result (λ words. string_bytes words ≡ kind_words llid length) }
{
    let kind = llid_name(llid, length);
    format!(in alloc; "{kind}, {length} octets")
}

/// A control PDU by its name, or what is read as none by its kind and its length.
fn control_words(alloc: Global, read: CtrlRead, length: usize) -> Result<String, AllocError>
    ensures { IfOk result (λ words. string_bytes words ≡ control_words read length) }
{
    match read {
        CtrlRead::Known(ctrl) => String::from_str(alloc, ctrl_name(ctrl)),
        CtrlRead::Unknown(_) | CtrlRead::Bare => kind_words(alloc, 3, length),
    }
}

/// The words of the payload of a data channel PDU.
pub fn body_words(alloc: Global, llid: u8, body: &[u8]) -> Result<String, AllocError>
    ensures { IfOk result (λ words. string_bytes words ≡ body_words llid body.now) }
{
    if llid == 3 {
        control_words(alloc, read_ctrl(body), body.len())
    } else {
        kind_words(alloc, llid, body.len())
    }
}

/// The three bits of acknowledgement and more data.
fn bit_words(alloc: Global, header: DataHeader) -> Result<String, AllocError>
    ensures { IfOk result (λ words. string_bytes words ≡ bit_words header) }
{
    let (sn, nesn, md) = (
        u8::from(header.sn),
        u8::from(header.nesn),
        u8::from(header.md),
    );
    format!(in alloc; "SN {sn} NESN {nesn} MD {md}, ")
}

/// The words of a data channel PDU.
fn data_words(alloc: Global, header: DataHeader) -> Result<String, AllocError>
    ensures { IfOk result (λ words. string_bytes words ≡ data_words header) }
{
    let name = llid_name(header.llid, usize::from(header.length));
    let bits = bit_words(alloc, header)?;
    let length = header.length;
    format!(in alloc; "{name} {bits}{length} octets")
}

/// The words of the PDU of a packet.
pub fn pdu_words(alloc: Global, channel: u8, octets: &[u8]) -> Result<String, AllocError>
    ensures { IfOk result (λ words. string_bytes words ≡ pdu_words channel octets.now) }
{
    match header_at(channel, octets) {
        None => String::from_str(alloc, "no PDU"),
        Some(header) if channel < ADVERTISING => data_words(alloc, read_header(header)),
        Some(header) => String::from_str(alloc, type_name(header[0] % 16)),
    }
}
