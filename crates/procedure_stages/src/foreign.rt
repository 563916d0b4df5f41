//! The control PDUs that have no meaning at an end, by its role.
ghost use Rattle.std.specs.Prelude.{◌≡◌};
ghost use Rattle.procedure_stages.specs.Foreign.{foreign_opcode};

use crate::opcodes::{
    CHANNEL_MAP_IND, CONNECTION_PARAM_REQ, CONNECTION_PARAM_RSP, CONNECTION_UPDATE_IND, ENC_REQ,
    ENC_RSP, FEATURE_REQ, PAUSE_ENC_REQ, PERIPHERAL_FEATURE_REQ, PHY_UPDATE_IND, START_ENC_REQ,
};
use ble_base::Role;
use data_pdu::Ctrl;

/// The opcode of a control PDU that has no meaning at a central, if it is one.
fn foreign_at_central(ctrl: &Ctrl) -> Option<u8>
    ensures { result ≡ foreign_opcode Role.Central ctrl.now }
{
    match *ctrl {
        Ctrl::ConnectionUpdateInd { .. } => Some(CONNECTION_UPDATE_IND),
        Ctrl::ChannelMapInd { .. } => Some(CHANNEL_MAP_IND),
        Ctrl::EncReq { .. } => Some(ENC_REQ),
        Ctrl::FeatureReq { .. } => Some(FEATURE_REQ),
        Ctrl::PauseEncReq => Some(PAUSE_ENC_REQ),
        Ctrl::PhyUpdateInd { .. } => Some(PHY_UPDATE_IND),
        Ctrl::ConnectionParamRsp { .. } => Some(CONNECTION_PARAM_RSP),
        _ => None,
    }
}

/// The opcode of a control PDU that has no meaning at a peripheral, if it is one.
fn foreign_at_peripheral(ctrl: &Ctrl) -> Option<u8>
    ensures { result ≡ foreign_opcode Role.Peripheral ctrl.now }
{
    match *ctrl {
        Ctrl::EncRsp { .. } => Some(ENC_RSP),
        Ctrl::StartEncReq => Some(START_ENC_REQ),
        Ctrl::PeripheralFeatureReq { .. } => Some(PERIPHERAL_FEATURE_REQ),
        Ctrl::ConnectionParamReq { .. } => Some(CONNECTION_PARAM_REQ),
        Ctrl::ConnectionParamRsp { .. } => Some(CONNECTION_PARAM_RSP),
        _ => None,
    }
}

/// The opcode of a control PDU that has no meaning at an end of this role, if it is one.
pub fn foreign_opcode(role: Role, ctrl: &Ctrl) -> Option<u8>
    ensures { result ≡ foreign_opcode role ctrl.now }
{
    match role {
        Role::Central => foreign_at_central(ctrl),
        Role::Peripheral => foreign_at_peripheral(ctrl),
    }
}
