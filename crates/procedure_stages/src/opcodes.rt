//! The opcodes of control PDUs that are named in an answer, and those of the PDUs that were sent of
//! a procedure (Core 5.2, volume 6 part B, section 2.4.2).
ghost use Rattle.std.specs.Prelude.{◌≡◌, option_map};
ghost use Rattle.procedure_stages.specs.Opcodes.{feature_opcode, opcode_of_exchange};
ghost use Rattle.procedure_stages.specs.Opcodes.{opcode_at_central, opcode_at_peripheral};
ghost use Rattle.procedure_stages.specs.Opcodes.{opcode_of_kind};
ghost use Rattle.procedure_stages.specs.Opcodes.{first_opcode, later_opcode, is_opcode};

use crate::stages::{Exchange, OwnCentral, OwnPeripheral, Progress};
use ble_base::Role;
use exclusive_stages::{CentralStage, Exclusive};

/// LL_CONNECTION_UPDATE_IND.
pub const CONNECTION_UPDATE_IND: u8 = 0x00;

/// LL_CHANNEL_MAP_IND.
pub const CHANNEL_MAP_IND: u8 = 0x01;

/// LL_ENC_REQ.
pub const ENC_REQ: u8 = 0x03;

/// LL_ENC_RSP.
pub const ENC_RSP: u8 = 0x04;

/// LL_START_ENC_REQ.
pub const START_ENC_REQ: u8 = 0x05;

/// LL_FEATURE_REQ.
pub const FEATURE_REQ: u8 = 0x08;

/// LL_PAUSE_ENC_REQ.
pub const PAUSE_ENC_REQ: u8 = 0x0A;

/// LL_VERSION_IND.
pub const VERSION_IND: u8 = 0x0C;

/// LL_PERIPHERAL_FEATURE_REQ.
pub const PERIPHERAL_FEATURE_REQ: u8 = 0x0E;

/// LL_CONNECTION_PARAM_REQ.
pub const CONNECTION_PARAM_REQ: u8 = 0x0F;

/// LL_CONNECTION_PARAM_RSP.
pub const CONNECTION_PARAM_RSP: u8 = 0x10;

/// LL_LENGTH_REQ.
pub const LENGTH_REQ: u8 = 0x14;

/// LL_PHY_REQ.
pub const PHY_REQ: u8 = 0x16;

/// LL_PHY_UPDATE_IND.
pub const PHY_UPDATE_IND: u8 = 0x18;

/// The opcode of the PDU that begins an exchange of features.
fn feature_opcode(role: Role) -> u8
    ensures { result ≡ feature_opcode role }
{
    match role {
        Role::Central => FEATURE_REQ,
        Role::Peripheral => PERIPHERAL_FEATURE_REQ,
    }
}

/// The opcode of the PDU that begins an exchange, once it was sent.
fn opcode_of_exchange(role: Role, stage: Exchange) -> Option<u8>
    ensures { result ≡ opcode_of_exchange role stage }
{
    match stage {
        Exchange::FeaturesSent => Some(feature_opcode(role)),
        Exchange::VersionSent => Some(VERSION_IND),
        Exchange::LengthSent => Some(LENGTH_REQ),
        _ => None,
    }
}

/// The opcode of the first PDU of a procedure that excludes others.
fn opcode_of_kind(kind: Exclusive) -> u8
    ensures { result ≡ opcode_of_kind kind }
{
    match kind {
        Exclusive::Update => CONNECTION_UPDATE_IND,
        Exclusive::Request => CONNECTION_PARAM_REQ,
        Exclusive::Map => CHANNEL_MAP_IND,
        Exclusive::Phy => PHY_REQ,
    }
}

/// The same, if there is such a procedure.
fn opcode_of(kind: Option<Exclusive>) -> Option<u8>
    ensures { result ≡ option_map opcode_of_kind kind }
{
    match kind {
        Some(kind) => Some(opcode_of_kind(kind)),
        None => None,
    }
}

/// The opcode of the first PDU of a central's own procedure, once it was sent.
fn opcode_at_central(own: OwnCentral) -> Option<u8>
    ensures { result ≡ opcode_at_central own }
{
    match own {
        OwnCentral::Exclusive(stage) => opcode_of(stage.sent_kind()),
        OwnCentral::Exchange(stage) => opcode_of_exchange(Role::Central, stage),
        OwnCentral::EncryptUnsent => None,
        OwnCentral::EncryptSent => Some(ENC_REQ),
    }
}

/// The opcode of the first PDU of a peripheral's own procedure, once it was sent.
fn opcode_at_peripheral(own: OwnPeripheral) -> Option<u8>
    ensures { result ≡ opcode_at_peripheral own }
{
    match own {
        OwnPeripheral::Exclusive(stage) => opcode_of(stage.sent_kind()),
        OwnPeripheral::Exchange(stage) => opcode_of_exchange(Role::Peripheral, stage),
    }
}

/// The opcode of the first PDU of the own procedure, once it was sent.
pub fn first_opcode(progress: Progress) -> Option<u8>
    ensures { result ≡ first_opcode progress }
{
    match progress {
        Progress::Central(c) => opcode_at_central(c.own),
        Progress::Peripheral(p) => opcode_at_peripheral(p.own),
    }
}

/// The opcode of a later PDU of the own procedure that was sent.
pub fn later_opcode(progress: Progress) -> Option<u8>
    ensures { result ≡ later_opcode progress }
{
    match progress {
        Progress::Central(c)
            if matches!(c.own, OwnCentral::Exclusive(CentralStage::PhyIndicated)) => {
            Some(PHY_UPDATE_IND)
        }
        _ => None,
    }
}

/// Whether this is the opcode, if there is one.
pub fn is_opcode(own: Option<u8>, opcode: u8) -> bool
    ensures { result ≡ is_opcode own opcode }
{
    match own {
        Some(own) => own == opcode,
        None => false,
    }
}
