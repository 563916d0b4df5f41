//! What the table of phases distinguishes of a PDU.
ghost use Rattle.std.specs.Prelude.{◌≡◌, option_copied};
ghost use Rattle.enc_phase.specs.Taking.{class_of, ctrl_class};

use data_pdu::Ctrl;

/// The opcode of LL_ENC_REQ (Core 5.2, volume 6 part B, section 2.4.2).
const ENC_REQ_OPCODE: u8 = 0x03;

/// The LLID of control PDUs (Core 5.2, volume 6 part B, section 2.4).
const CONTROL_LLID: u8 = 3;

/// The LLID that is reserved; a PDU with it counts as empty (our choice).
const RESERVED_LLID: u8 = 0;

/// What the table of phases distinguishes of a PDU.
#[derive(Clone, Copy, Debug, PartialEq, Eq)]
pub enum PduClass {
    /// It counts as empty.
    Empty,
    /// Data of the host.
    Data,
    /// LL_TERMINATE_IND.
    Terminate,
    /// LL_ENC_REQ.
    EncReq,
    /// LL_ENC_RSP.
    EncRsp,
    /// LL_START_ENC_REQ.
    StartEncReq,
    /// LL_START_ENC_RSP.
    StartEncRsp,
    /// LL_PAUSE_ENC_REQ.
    PauseEncReq,
    /// LL_PAUSE_ENC_RSP.
    PauseEncRsp,
    /// LL_REJECT_IND, or LL_REJECT_EXT_IND with the opcode of LL_ENC_REQ.
    Refusal,
    /// The first PDU of a procedure that a peripheral may begin: LL_VERSION_IND,
    /// LL_PERIPHERAL_FEATURE_REQ, LL_CONNECTION_PARAM_REQ, LL_LENGTH_REQ or LL_PHY_REQ.
    Request,
    /// Any other control PDU, also one that is not supported.
    Other,
}

impl PduClass {
    /// The class of a PDU. `ctrl` is what a control PDU, with LLID 3, was read as; none where it is
    /// not supported. A PDU without octets counts as empty, whatever its LLID, and has no class.
    pub fn of(llid: u8, ctrl: Option<&Ctrl>) -> PduClass
        ensures { result ≡ class_of llid (option_copied ctrl.entry) }
    {
        match (llid, ctrl) {
            (RESERVED_LLID, _) => PduClass::Empty,
            (CONTROL_LLID, Some(ctrl)) => PduClass::of_ctrl(ctrl),
            (CONTROL_LLID, None) => PduClass::Other,
            _ => PduClass::Data,
        }
    }

    /// The class of a control PDU.
    pub(crate) fn of_ctrl(ctrl: &Ctrl) -> PduClass
        ensures { result ≡ ctrl_class ctrl.now }
    {
        match *ctrl {
            Ctrl::TerminateInd { .. } => PduClass::Terminate,
            Ctrl::EncReq { .. } => PduClass::EncReq,
            Ctrl::EncRsp { .. } => PduClass::EncRsp,
            Ctrl::StartEncReq => PduClass::StartEncReq,
            Ctrl::StartEncRsp => PduClass::StartEncRsp,
            Ctrl::PauseEncReq => PduClass::PauseEncReq,
            Ctrl::PauseEncRsp => PduClass::PauseEncRsp,
            Ctrl::RejectInd { .. } => PduClass::Refusal,
            Ctrl::RejectExtInd { opcode, .. } if opcode == ENC_REQ_OPCODE => PduClass::Refusal,
            Ctrl::VersionInd { .. }
            | Ctrl::PeripheralFeatureReq { .. }
            | Ctrl::ConnectionParamReq { .. }
            | Ctrl::LengthReq { .. }
            | Ctrl::PhyReq { .. } => PduClass::Request,
            _ => PduClass::Other,
        }
    }
}
