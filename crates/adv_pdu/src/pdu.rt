//! The PDUs of the advertising channels.
use arrayvec::ArrayVec;
use ble_base::Address;

/// A PDU of an advertising channel (Core 5.2, volume 6 part B, section 2.3).
///
/// `from` is the address of its sender, which is first in the payload, and `to` the address of the
/// device that it is for, which is next: six octets each, the least significant first. The header
/// says whether an address is random: TxAdd for `from`, RxAdd for `to`. `ch_sel` is ChSel: the
/// sender supports channel selection algorithm #2. `body` is 0 to 31 octets of advertising or scan
/// response data, after `from`.
#[derive(Debug, PartialEq, Eq, Drop)]
pub enum AdvPdu {
    /// ADV_IND, type 0 (section 2.3.1.1): connectable and scannable undirected advertising.
    /// Payload of 6 to 37 octets: AdvA and AdvData.
    Ind {
        from: Address,
        ch_sel: bool,
        body: ArrayVec<u8, 31>,
    },
    /// ADV_DIRECT_IND, type 1 (section 2.3.1.2): connectable directed advertising. `to` is TargetA.
    /// Payload of 12 octets: AdvA and TargetA.
    Direct {
        from: Address,
        to: Address,
        ch_sel: bool,
    },
    /// ADV_NONCONN_IND, type 2 (section 2.3.1.3): undirected advertising, not connectable, not
    /// scannable. Payload of 6 to 37 octets: AdvA and AdvData.
    Nonconn {
        from: Address,
        body: ArrayVec<u8, 31>,
    },
    /// SCAN_REQ, type 3 (section 2.3.2.1). `from` is ScanA, `to` is AdvA. Payload of 12 octets.
    ScanReq {
        from: Address,
        to: Address,
    },
    /// SCAN_RSP, type 4 (section 2.3.2.2). Payload of 6 to 37 octets: AdvA and ScanRspData.
    ScanRsp {
        from: Address,
        body: ArrayVec<u8, 31>,
    },
    /// CONNECT_IND, type 5 (section 2.3.3.1). `from` is InitA, `to` is AdvA. Payload of 34 octets:
    /// both, and the 22 of the LLData.
    Connect {
        from: Address,
        to: Address,
        ch_sel: bool,
        fields: ConnectFields,
    },
    /// ADV_SCAN_IND, type 6 (section 2.3.1.4): scannable undirected advertising.
    /// Payload of 6 to 37 octets: AdvA and AdvData.
    ScanInd {
        from: Address,
        body: ArrayVec<u8, 31>,
    },
}

/// The LLData of a CONNECT_IND (Core 5.2, volume 6 part B, section 2.3.3.1), in the order of the
/// PDU: 22 octets, each number with its least significant octet first.
#[derive(Clone, Copy, Debug, PartialEq, Eq, Default)]
pub struct ConnectFields {
    /// AA, the access address of the link: 4 octets.
    pub access: u32,
    /// CRCInit, where the CRC of the link begins: 3 octets, below 2^24.
    pub crc_init: u32,
    /// WinSize, the length of the transmit window in units of 1.25 ms.
    pub win_size: u8,
    /// WinOffset, the start of the transmit window in units of 1.25 ms.
    pub win_offset: u16,
    /// Interval, the connection interval in units of 1.25 ms.
    pub interval: u16,
    /// Latency, the number of connection events that the peripheral may skip.
    pub latency: u16,
    /// Timeout, the supervision timeout in units of 10 ms.
    pub timeout: u16,
    /// ChM, the channel map: 5 octets, below 2^40. Bit k is 1 where data channel k is used.
    pub map: u64,
    /// Hop, the hop increment of channel selection algorithm #1: 5 bits, below 32.
    pub hop: u8,
    /// SCA, the range of the sleep clock accuracy of the central: 3 bits, below 8.
    pub sca: u8,
}
