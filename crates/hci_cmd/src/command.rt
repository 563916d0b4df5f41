//! The commands of the host, and what their octets are read as.
use arrayvec::ArrayVec;

/// The number of ACL data packets of a link that the host has processed (Core 5.2, volume 4 part E,
/// section 7.3.40).
#[derive(Clone, Copy, PartialEq, Eq, Debug, Default)]
pub struct HandleCount {
    /// The connection handle of the link.
    pub handle: u16,
    /// The packets that were processed since the last such command.
    pub count: u16,
}

/// A command of the host with its parameters (Core 5.2, volume 4 part E, section 7).
///
/// The fields of a variant are the parameters in the order of the packet. Numbers, addresses and
/// keys have the least significant octet first: octet 0 of an array is the least significant one.
/// Only the length is checked here: a field may have any value that its octets can hold, also a
/// `handle`, of which 12 bits count, and a code that has no meaning. A `latency` is in connection
/// events.
#[derive(Debug, Drop)]
pub enum Command {
    /// Disconnect (section 7.1.6).
    Disconnect {
        handle: u16,
        reason: u8,
    },
    /// Read Remote Version Information (section 7.1.23).
    ReadRemoteVersion {
        handle: u16,
    },
    /// Set Event Mask (section 7.3.1): bit n of `mask` lets events through.
    SetEventMask {
        mask: u64,
    },
    /// Reset (section 7.3.2).
    Reset,
    /// Set Controller To Host Flow Control (section 7.3.38): bit 0 of `value` for ACL data, bit 1
    /// for synchronous data.
    SetHostFlow {
        value: u8,
    },
    /// Host Buffer Size (section 7.3.39): lengths in octets, counts in packets.
    HostBufferSize {
        acl_length: u16,
        sco_length: u8,
        acl_count: u16,
        sco_count: u16,
    },
    /// Host Number Of Completed Packets (section 7.3.40): a handle and a count for each link.
    HostCompleted {
        counts: ArrayVec<HandleCount, 63>,
    },
    /// Read Local Version Information (section 7.4.1).
    ReadLocalVersion,
    /// Read Local Supported Features (section 7.4.3).
    ReadLocalFeatures,
    /// Read BD_ADDR (section 7.4.6).
    ReadBdAddr,
    /// LE Set Event Mask (section 7.8.1): bit n of `mask` lets LE events through.
    LeSetEventMask {
        mask: u64,
    },
    /// LE Read Buffer Size (section 7.8.2).
    LeReadBufferSize,
    /// LE Read Local Supported Features (section 7.8.3).
    LeReadFeatures,
    /// LE Set Random Address (section 7.8.4).
    LeSetRandomAddress {
        address: [u8; 6],
    },
    /// LE Set Advertising Parameters (section 7.8.5): the least and the greatest interval in 0.625
    /// ms, the kind of advertising, the kinds of the controller's address and of the peer's, bit k
    /// of `channels` for channel 37 + k, and the filter policy.
    LeSetAdvParams {
        min: u16,
        max: u16,
        kind: u8,
        own: u8,
        peer_kind: u8,
        peer: [u8; 6],
        channels: u8,
        policy: u8,
    },
    /// LE Set Advertising Data (section 7.8.7): `length` of the 31 octets count.
    LeSetAdvData {
        length: u8,
        octets: [u8; 31],
    },
    /// LE Set Scan Response Data (section 7.8.8): `length` of the 31 octets count.
    LeSetScanResponse {
        length: u8,
        octets: [u8; 31],
    },
    /// LE Set Advertising Enable (section 7.8.9): 1 for on, 0 for off.
    LeSetAdvEnable {
        value: u8,
    },
    /// LE Set Scan Parameters (section 7.8.10): passive or active, interval and window in
    /// 0.625 ms, the kind of the controller's address, and the filter policy.
    LeSetScanParams {
        kind: u8,
        interval: u16,
        window: u16,
        own: u8,
        policy: u8,
    },
    /// LE Set Scan Enable (section 7.8.11): 1 for on, 0 for off, and the same for the filter of
    /// duplicates.
    LeSetScanEnable {
        value: u8,
        duplicates: u8,
    },
    /// LE Create Connection (section 7.8.12): scan interval and window in 0.625 ms, the filter
    /// policy, the kinds of addresses as for advertising, `min` and `max` in 1.25 ms, timeout in 10
    /// ms, `lengths` the least and the greatest event length in 0.625 ms.
    LeCreateConnection {
        scan_interval: u16,
        window: u16,
        policy: u8,
        peer_kind: u8,
        peer: [u8; 6],
        own: u8,
        min: u16,
        max: u16,
        latency: u16,
        timeout: u16,
        lengths: [u16; 2],
    },
    /// LE Create Connection Cancel (section 7.8.13).
    LeCreateCancel,
    /// LE Read White List Size (section 7.8.14).
    LeReadListSize,
    /// LE Clear White List (section 7.8.15).
    LeClearList,
    /// LE Add Device To White List (section 7.8.16).
    LeAddToList {
        kind: u8,
        address: [u8; 6],
    },
    /// LE Remove Device From White List (section 7.8.17).
    LeRemoveFromList {
        kind: u8,
        address: [u8; 6],
    },
    /// LE Connection Update (section 7.8.18): `min` and `max` in 1.25 ms, timeout in 10 ms,
    /// `lengths` the least and the greatest event length in 0.625 ms.
    LeConnectionUpdate {
        handle: u16,
        min: u16,
        max: u16,
        latency: u16,
        timeout: u16,
        lengths: [u16; 2],
    },
    /// LE Set Host Channel Classification (section 7.8.19): bit k of `map`, which takes five
    /// octets, is for data channel k.
    LeSetChannels {
        map: u64,
    },
    /// LE Read Channel Map (section 7.8.20).
    LeReadChannelMap {
        handle: u16,
    },
    /// LE Read Remote Features (section 7.8.21).
    LeReadRemoteFeatures {
        handle: u16,
    },
    /// LE Encrypt (section 7.8.22): the key and the plain text, least significant octet first.
    LeEncrypt {
        key: [u8; 16],
        text: [u8; 16],
    },
    /// LE Rand (section 7.8.23).
    LeRand,
    /// LE Enable Encryption (section 7.8.24): random number, encrypted diversifier and long term
    /// key.
    LeEnableEncryption {
        handle: u16,
        rand: u64,
        ediv: u16,
        key: [u8; 16],
    },
    /// LE Long Term Key Request Reply (section 7.8.25).
    LeKeyReply {
        handle: u16,
        key: [u8; 16],
    },
    /// LE Long Term Key Request Negative Reply (section 7.8.26).
    LeKeyNegative {
        handle: u16,
    },
    /// LE Remote Connection Parameter Request Reply (section 7.8.31): `min` and `max` in 1.25 ms,
    /// timeout in 10 ms, `lengths` the least and the greatest event length in 0.625 ms.
    LeParamReply {
        handle: u16,
        min: u16,
        max: u16,
        latency: u16,
        timeout: u16,
        lengths: [u16; 2],
    },
    /// LE Remote Connection Parameter Request Negative Reply (section 7.8.32).
    LeParamNegative {
        handle: u16,
        reason: u8,
    },
    /// LE Set Data Length (section 7.8.33): the most octets of a payload, and its time in
    /// microseconds.
    LeSetDataLength {
        handle: u16,
        octets: u16,
        time: u16,
    },
    /// LE Read Maximum Data Length (section 7.8.46).
    LeReadMaxLength,
    /// LE Read PHY (section 7.8.47).
    LeReadPhy {
        handle: u16,
    },
    /// LE Set Default PHY (section 7.8.48): `all` says where there is no preference, and `tx` and
    /// `rx` have a bit for each PHY.
    LeSetDefaultPhy {
        all: u8,
        tx: u8,
        rx: u8,
    },
    /// LE Set PHY (section 7.8.49): as the default, and the coding that is preferred on the coded
    /// PHY.
    LeSetPhy {
        handle: u16,
        all: u8,
        tx: u8,
        rx: u8,
        options: u16,
    },
}

/// What an opcode and the octets of its parameters are read as.
#[derive(Debug, Drop)]
pub enum CmdRead {
    /// This command.
    Known(Command),
    /// No command has the opcode.
    UnknownOpcode,
    /// The parameters of that command have another length.
    BadLength,
}
