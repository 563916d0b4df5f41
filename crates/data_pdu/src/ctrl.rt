//! The control PDUs of a link.

/// A control PDU of the Link Layer: the payload of a data channel PDU with LLID 3 (Core 5.2, volume
/// 6 part B, section 2.4.2).
///
/// The fields of a variant are those of the PDU, in the order in which they are transmitted. A
/// number has its least significant octet first. Intervals and offsets are in 1.25 ms, timeouts in
/// 10 ms, times in microseconds, latencies in connection events. An `instant` is the 16-bit event
/// counter of the event in which a change takes effect.
#[derive(Clone, Copy, PartialEq, Eq, Debug)]
pub enum Ctrl {
    /// LL_CONNECTION_UPDATE_IND, opcode 00 (section 2.4.2.1): the transmit window and the
    /// parameters of the connection from the instant on.
    ConnectionUpdateInd {
        win_size: u8,
        win_offset: u16,
        interval: u16,
        latency: u16,
        timeout: u16,
        instant: u16,
    },
    /// LL_CHANNEL_MAP_IND, opcode 01 (section 2.4.2.2): bit k of `map`, which has five octets, is 1
    /// where data channel k is used from the instant on.
    ChannelMapInd {
        map: u64,
        instant: u16,
    },
    /// LL_TERMINATE_IND, opcode 02 (section 2.4.2.3): the error code that says why the link ends.
    TerminateInd {
        code: u8,
    },
    /// LL_ENC_REQ, opcode 03 (section 2.4.2.4): random number and encrypted diversifier of the key,
    /// and the central's part of the session key diversifier and of the initialization vector.
    EncReq {
        rand: u64,
        ediv: u16,
        skd_m: u64,
        iv_m: u32,
    },
    /// LL_ENC_RSP, opcode 04 (section 2.4.2.5): the peripheral's part of the session key
    /// diversifier and of the initialization vector.
    EncRsp {
        skd_s: u64,
        iv_s: u32,
    },
    /// LL_START_ENC_REQ, opcode 05 (section 2.4.2.6).
    StartEncReq,
    /// LL_START_ENC_RSP, opcode 06 (section 2.4.2.7).
    StartEncRsp,
    /// LL_UNKNOWN_RSP, opcode 07 (section 2.4.2.8): the opcode of the PDU that is not supported.
    UnknownRsp {
        opcode: u8,
    },
    /// LL_FEATURE_REQ, opcode 08 (section 2.4.2.9): bit k is 1 where the central supports feature
    /// k.
    FeatureReq {
        features: u64,
    },
    /// LL_FEATURE_RSP, opcode 09 (section 2.4.2.10): the features in use.
    FeatureRsp {
        features: u64,
    },
    /// LL_PAUSE_ENC_REQ, opcode 0A (section 2.4.2.11).
    PauseEncReq,
    /// LL_PAUSE_ENC_RSP, opcode 0B (section 2.4.2.12).
    PauseEncRsp,
    /// LL_VERSION_IND, opcode 0C (section 2.4.2.13): the version of the Link Layer, the company and
    /// its number of the implementation.
    VersionInd {
        version: u8,
        company: u16,
        sub: u16,
    },
    /// LL_REJECT_IND, opcode 0D (section 2.4.2.14): the error code that says why a request is
    /// refused.
    RejectInd {
        code: u8,
    },
    /// LL_PERIPHERAL_FEATURE_REQ, opcode 0E (section 2.4.2.15, LL_SLAVE_FEATURE_REQ there): bit k
    /// is 1 where the peripheral supports feature k.
    PeripheralFeatureReq {
        features: u64,
    },
    /// LL_CONNECTION_PARAM_REQ, opcode 0F (section 2.4.2.16): the parameters that are asked for,
    /// the preferred periodicity of the interval, and offsets of anchor points from the event with
    /// the counter `reference`.
    ConnectionParamReq {
        interval_min: u16,
        interval_max: u16,
        latency: u16,
        timeout: u16,
        periodicity: u8,
        reference: u16,
        offsets: [u16; 6],
    },
    /// LL_CONNECTION_PARAM_RSP, opcode 10 (section 2.4.2.17): as the request.
    ConnectionParamRsp {
        interval_min: u16,
        interval_max: u16,
        latency: u16,
        timeout: u16,
        periodicity: u8,
        reference: u16,
        offsets: [u16; 6],
    },
    /// LL_REJECT_EXT_IND, opcode 11 (section 2.4.2.18): the opcode of the PDU that is refused, and
    /// the error code that says why.
    RejectExtInd {
        opcode: u8,
        code: u8,
    },
    /// LL_LENGTH_REQ, opcode 14 (section 2.4.2.21): the longest payload that the sender can receive
    /// and that it will transmit, each in octets and as a time.
    LengthReq {
        max_rx_octets: u16,
        max_rx_time: u16,
        max_tx_octets: u16,
        max_tx_time: u16,
    },
    /// LL_LENGTH_RSP, opcode 15 (section 2.4.2.21): as the request.
    LengthRsp {
        max_rx_octets: u16,
        max_rx_time: u16,
        max_tx_octets: u16,
        max_tx_time: u16,
    },
    /// LL_PHY_REQ, opcode 16 (section 2.4.2.22): the PHYs that the sender prefers to transmit on
    /// and to receive on, a bit for each.
    PhyReq {
        tx: u8,
        rx: u8,
    },
    /// LL_PHY_RSP, opcode 17 (section 2.4.2.22): as the request.
    PhyRsp {
        tx: u8,
        rx: u8,
    },
    /// LL_PHY_UPDATE_IND, opcode 18 (section 2.4.2.23): the PHYs to the peripheral and to the
    /// central from the instant on, a bit for each; 0 where nothing changes.
    PhyUpdateInd {
        to_peripheral: u8,
        to_central: u8,
        instant: u16,
    },
}

/// What the octets of a control PDU are read as (our choice).
#[derive(Clone, Copy, PartialEq, Eq, Debug)]
pub enum CtrlRead {
    /// This control PDU.
    Known(Ctrl),
    /// No control PDU has this opcode, or it has another length, or a field is out of its range.
    Unknown(u8),
    /// There is no octet, so there is no opcode.
    Bare,
}
