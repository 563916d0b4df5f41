//! What a controller does in a phase of a turn.
use ble_base::Address;
use link_commands::LinkSetup;

/// What a controller does in a phase of a turn (Core 5.2, volume 6 part B, sections 4.4 and 4.5;
/// that a turn has phases is our choice). Channels are those of the air: 37 to 39 here.
#[derive(Clone, Copy, Debug, PartialEq, Eq)]
pub enum Doing {
    /// An advertiser sends its advertisement.
    Advertises { channel: u8 },
    /// It listens for requests after that.
    AwaitsRequest { channel: u8 },
    /// It answers a SCAN_REQ by a SCAN_RSP.
    Responds { channel: u8 },
    /// A scanner listens for advertisements.
    Scans { channel: u8 },
    /// It sends a SCAN_REQ to an advertiser.
    Requests { channel: u8, advertiser: Address },
    /// It listens for the SCAN_RSP after that.
    AwaitsResponse { channel: u8 },
    /// An initiator listens for advertisements.
    Initiates { channel: u8 },
    /// It sends the CONNECT_IND of a link, and opens the link.
    Connects { channel: u8, link: LinkSetup },
    /// A central sends on the link under this handle.
    CentralSends { handle: u16 },
    /// A central listens for the answer of the peripheral.
    CentralListens { handle: u16 },
    /// A peripheral listens on the link under this handle.
    PeripheralListens { handle: u16 },
    /// A peripheral answers what it received.
    PeripheralSends { handle: u16 },
    /// It does nothing.
    Rests,
}

/// The turn of a controller.
#[derive(Clone, Copy, Debug, PartialEq, Eq)]
pub struct Turn {
    /// How many turns began, which is the slot of the next one.
    pub begun: u64,
    /// The slot of the turn that began last.
    pub slot: u64,
    /// What it does in the phase that comes next.
    pub doing: Doing,
}
