//! What one end of a link holds of the peer, of its lengths and of how the link is to end.
use ble_base::ErrCode;

/// The version of a Link Layer (Core 5.2, volume 6 part B, section 2.4.2.13).
#[derive(Clone, Copy, Debug, PartialEq, Eq)]
pub struct PeerVersion {
    /// The version of the specification (Assigned Numbers).
    pub version: u8,
    /// The company.
    pub company: u16,
    /// The company's own number of the implementation.
    pub sub: u16,
}

/// What an end knows of the peer.
#[derive(Clone, Copy, Debug, PartialEq, Eq, Default)]
pub struct PeerFacts {
    /// Its features: bit k is 1 where it has feature k (Core 5.2, volume 6 part B, section 4.6).
    pub features: Option<u64>,
    /// Its version.
    pub version: Option<PeerVersion>,
}

/// What an end keeps of the longest payloads, in octets (Core 5.2, volume 6 part B, section 4.5.10).
#[derive(Clone, Copy, Debug, PartialEq, Eq)]
pub struct KnownLengths {
    /// An effective length was over 27 octets as the last event was entered.
    pub long: bool,
    /// An effective length was changed since.
    pub changed: bool,
    /// The effective lengths, received and transmitted, after the last LL_LENGTH_REQ or
    /// LL_LENGTH_RSP that was taken; 27 before the first.
    pub reported_rx: u16,
    pub reported_tx: u16,
}

/// How a link is to end (Core 5.2, volume 6 part B, section 5.1.6).
#[derive(Clone, Copy, Debug, PartialEq, Eq, Default)]
pub struct Leaving {
    /// The first slot in which this end was to end the link: the Disconnect of its host was
    /// accepted in it, or its host had no key after a pause.
    pub disconnected: Option<u64>,
    /// LL_TERMINATE_IND of this end is acknowledged.
    pub acknowledged: bool,
    /// The error code of the LL_TERMINATE_IND that was taken.
    pub ended_by_peer: Option<ErrCode>,
    /// A packet was sent since that was taken.
    pub answered: bool,
}
