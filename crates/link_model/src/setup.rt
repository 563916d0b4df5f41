//! What one end of a link is set up with.
use adv_pdu::ConnectFields;
use ble_base::{Address, Role};

/// What one end of a link is set up with: its role and its handle, the addresses of both ends as
/// they were on the air, and what the CONNECT_IND says (Core 5.2, volume 6 part B, section 2.3.3).
#[derive(Clone, Copy, Debug, PartialEq, Eq)]
pub struct LinkSetup {
    pub role: Role,
    /// The connection handle.
    pub handle: u16,
    /// The address of this end.
    pub own: Address,
    /// The address of the other end.
    pub peer: Address,
    /// The LLData of the CONNECT_IND.
    pub fields: ConnectFields,
    /// Channels are selected by algorithm #2: ChSel is 1 in both the advertisement and the
    /// CONNECT_IND (section 4.5.8).
    pub two: bool,
    /// The most octets of a payload that this end receives, 27 to 251 (section 4.5.10).
    pub max_rx: u16,
}
