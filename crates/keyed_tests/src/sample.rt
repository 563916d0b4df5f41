//! The sample data of Core 5.2, volume 6 part C, section 1, and parameters of a link.
ghost use Rattle.std.specs.Prelude.{◌≡◌};

use ble_base::ChannelMap;
use data_pdu::Ctrl;
use instants::Params;
use keyed_control::Response;

/// The long term key of the sample data.
pub(crate) const LTK: [u8; 16] = [
    0x4C, 0x68, 0x38, 0x41, 0x39, 0xF5, 0x74, 0xD8, 0x36, 0xBC, 0xF3, 0x4E, 0x9D, 0xFB, 0x01, 0xBF,
];

/// LL_ENC_REQ of the sample data.
pub(crate) const REQUEST: Ctrl = Ctrl::EncReq {
    rand: 0xABCDEF1234567890,
    ediv: 0x2474,
    skd_m: 0xACBDCEDFE0F10213,
    iv_m: 0xBADCAB24,
};

/// LL_ENC_RSP of the sample data.
pub(crate) const RESPONSE: Ctrl = Ctrl::EncRsp {
    skd_s: 0x0213243546576879,
    iv_s: 0xDEAFBABE,
};

/// LL_START_ENC_RSP.
pub(crate) const OPCODE: [u8; 1] = [0x06];

/// What is sent for that by the central, and by the peripheral.
pub(crate) const FROM_CENTRAL: [u8; 5] = [0x9F, 0xCD, 0xA7, 0xF4, 0x48];

pub(crate) const FROM_PERIPHERAL: [u8; 5] = [0xA3, 0x4C, 0x13, 0xA4, 0x15];

/// Parameters with an interval of 24 slots.
pub(crate) fn params() -> Params
    ensures interval { result.interval ≡ 24 }
    ensures latency { result.latency ≡ 0 }
{
    Params {
        interval: 24,
        latency: 0,
        timeout: 72,
        map: ChannelMap::default(),
    }
}

/// What the peripheral draws for the sample data.
pub(crate) const DRAWN: Response = Response {
    skd_s: 0x0213243546576879,
    iv_s: 0xDEAFBABE,
};
