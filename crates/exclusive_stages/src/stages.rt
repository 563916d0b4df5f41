//! The stages of the procedures that exclude each other, at each end.

/// The stage of the procedure of these that a central began.
#[derive(Clone, Copy)]
pub enum CentralStage {
    /// It began none of them.
    Idle,
    /// A connection update (Core 5.2, volume 6 part B, section 5.1.1): LL_CONNECTION_UPDATE_IND is
    /// unsent.
    UpdateUnsent,
    /// It is sent, and its Instant is to come.
    UpdateSent,
    /// A channel map update (section 5.1.2): LL_CHANNEL_MAP_IND is unsent.
    MapUnsent,
    /// It is sent, and its Instant is to come.
    MapSent,
    /// A PHY update (section 5.1.10): LL_PHY_REQ is unsent.
    PhyUnsent,
    /// It is sent, and not answered.
    PhySent,
    /// LL_PHY_RSP was taken, and LL_PHY_UPDATE_IND is unsent.
    PhyAnswered,
    /// LL_PHY_UPDATE_IND is sent, and not acknowledged.
    PhyIndicated,
}

/// The stage of a procedure of the peripheral that excludes others, at the central.
#[derive(Clone, Copy)]
pub enum PeerAtCentral {
    /// There is none.
    Absent,
    /// A connection parameters request (Core 5.2, volume 6 part B, section 5.1.7): the host is to
    /// answer it.
    HostAsked,
    /// The host granted it, and LL_CONNECTION_UPDATE_IND is unsent.
    GrantUnsent,
    /// LL_CONNECTION_UPDATE_IND is sent, and its Instant is to come.
    GrantSent,
    /// A PHY update (section 5.1.10): LL_PHY_UPDATE_IND is unsent.
    PhyIndUnsent,
    /// LL_PHY_UPDATE_IND is sent, and not acknowledged.
    PhyIndSent,
}

/// The stage of the procedure of these that a peripheral began.
#[derive(Clone, Copy)]
pub enum PeripheralStage {
    /// It began none of them.
    Idle,
    /// A connection parameters request (Core 5.2, volume 6 part B, section 5.1.7):
    /// LL_CONNECTION_PARAM_REQ is unsent.
    RequestUnsent,
    /// It is sent, and not acknowledged.
    RequestSent,
    /// It is acknowledged, and not answered.
    RequestAcknowledged,
    /// The central answered by LL_CONNECTION_UPDATE_IND, and its Instant is to come.
    RequestGranted,
    /// A PHY update (section 5.1.10): LL_PHY_REQ is unsent.
    PhyUnsent,
    /// It is sent, and not answered.
    PhySent,
}

/// The stage of a procedure of the central that excludes others, at the peripheral.
#[derive(Clone, Copy)]
pub enum PeerAtPeripheral {
    /// There is none.
    Absent,
    /// A connection update (Core 5.2, volume 6 part B, section 5.1.1), whose Instant is to come.
    UpdateTaken,
    /// A channel map update (section 5.1.2), whose Instant is to come.
    MapTaken,
    /// A PHY update (section 5.1.10): LL_PHY_RSP is unsent.
    PhyRspUnsent,
    /// LL_PHY_RSP is sent, and LL_PHY_UPDATE_IND is to come.
    PhyRspSent,
}
