//! How far the procedures of a link are at one end, by the role of the end.

use ble_base::EventNo;
use exclusive_stages::{CentralStage, PeerAtCentral, PeerAtPeripheral, PeripheralStage};

/// The stage of a procedure that either end may begin and that excludes no other: features,
/// version, length (Core 5.2, volume 6 part B, sections 5.1.4, 5.1.5 and 5.1.9). Its first PDU is
/// unsent, or sent and not answered.
#[derive(Clone, Copy)]
pub enum Exchange {
    FeaturesUnsent,
    FeaturesSent,
    VersionUnsent,
    VersionSent,
    LengthUnsent,
    LengthSent,
}

/// The stage of the procedure that a central began.
#[derive(Clone, Copy)]
pub enum OwnCentral {
    /// It began none, or one that excludes others: a connection update, a channel map update or a
    /// PHY update.
    Exclusive(CentralStage),
    /// An exchange of features, versions or lengths.
    Exchange(Exchange),
    /// An encryption start or a pause before one (Core 5.2, volume 6 part B, section 5.1.3): none of
    /// its PDUs is sent.
    EncryptUnsent,
    /// Its first PDU is sent, and the link is not encrypted by it yet.
    EncryptSent,
}

/// The stage of the procedure that a peripheral began.
#[derive(Clone, Copy)]
pub enum OwnPeripheral {
    /// It began none, or one that excludes others: a connection parameters request or a PHY update.
    Exclusive(PeripheralStage),
    /// An exchange of features, versions or lengths.
    Exchange(Exchange),
}

/// The indication that a peripheral took and that does not hold yet.
#[derive(Clone, Copy)]
pub enum Ahead {
    /// There is none.
    Nothing,
    /// LL_CONNECTION_UPDATE_IND.
    Update,
    /// LL_CHANNEL_MAP_IND.
    Map,
}

/// What a central has of the procedures of its link.
#[derive(Clone, Copy)]
pub struct Central {
    /// The procedure that it began.
    pub own: OwnCentral,
    /// The procedure of the peripheral.
    pub peer: PeerAtCentral,
    /// The event that the Instant of the last indication sent names, if one was sent.
    pub last_instant: Option<EventNo>,
}

/// What a peripheral has of the procedures of its link.
#[derive(Clone, Copy)]
pub struct Peripheral {
    /// The procedure that it began.
    pub own: OwnPeripheral,
    /// The procedure of the central.
    pub peer: PeerAtPeripheral,
    /// The indication that waits for its event.
    pub ahead: Ahead,
    /// Whether an encryption of the central is in progress.
    pub encrypting: bool,
}

/// What an end has of the procedures of its link, by its role.
#[derive(Clone, Copy)]
pub enum Progress {
    Central(Central),
    Peripheral(Peripheral),
}
