//! The procedures that exclude each other, and their PDUs.
ghost use Rattle.std.specs.Prelude.{◌≡◌};
ghost use Rattle.exclusive_stages.specs.Pdus.{reason_of, rejection_of, first_pdu_of, first_kind};
ghost use Rattle.exclusive_stages.specs.Pdus.{is_timed, is_held_back, is_request, is_kind};

/// The procedures of which at most one may be in progress at a time: each is incompatible with each
/// of them (Core 5.2, volume 6 part B, section 5.3).
#[derive(Clone, Copy)]
pub enum Exclusive {
    /// Connection Update, by the central (section 5.1.1).
    Update,
    /// Connection Parameters Request, by the peripheral (section 5.1.7).
    Request,
    /// Channel Map Update, by the central (section 5.1.2).
    Map,
    /// PHY Update, by either end (section 5.1.10).
    Phy,
}

/// Why a procedure is rejected.
#[derive(Clone, Copy)]
pub enum Reason {
    /// Error 0x23, LL Procedure Collision: the central runs a procedure of the same kind.
    SameKind,
    /// Error 0x2A, Different Transaction Collision: it runs one of another kind.
    OtherKind,
    /// Any other error.
    Other,
}

/// A PDU of these procedures.
#[derive(Clone, Copy, Default)]
pub enum Pdu {
    /// LL_CONNECTION_UPDATE_IND of a procedure of the central.
    #[default]
    UpdateInd,
    /// LL_CONNECTION_UPDATE_IND that grants a request. A peripheral cannot tell it from the other.
    GrantInd,
    /// LL_CHANNEL_MAP_IND.
    MapInd,
    /// LL_PHY_REQ.
    PhyReq,
    /// LL_PHY_RSP.
    PhyRsp,
    /// LL_PHY_UPDATE_IND that changes no PHY.
    PhyInd,
    /// LL_CONNECTION_PARAM_REQ.
    ParamReq,
    /// LL_REJECT_EXT_IND for an LL_CONNECTION_PARAM_REQ.
    RejectParam(Reason),
    /// LL_REJECT_EXT_IND for an LL_PHY_REQ.
    RejectPhy(Reason),
    /// Another PDU that refuses the procedure of its receiver: LL_UNKNOWN_RSP, LL_REJECT_IND or
    /// LL_REJECT_EXT_IND. No table queues it.
    Refusal,
}

impl Exclusive {
    /// Whether there is such a procedure and it is of this kind.
    pub fn is_of(self, kind: Option<Exclusive>) -> bool
        ensures { result ≡ is_kind kind self }
    {
        matches!(
            (kind, self),
            (Some(Exclusive::Update), Exclusive::Update)
                | (Some(Exclusive::Request), Exclusive::Request)
                | (Some(Exclusive::Map), Exclusive::Map)
                | (Some(Exclusive::Phy), Exclusive::Phy)
        )
    }

    /// The error of a collision of a procedure of this kind with another.
    pub fn collision(self, other: Exclusive) -> Reason
        ensures { result ≡ reason_of self other }
    {
        match (self, other) {
            (Exclusive::Update, Exclusive::Update)
            | (Exclusive::Request, Exclusive::Request)
            | (Exclusive::Map, Exclusive::Map)
            | (Exclusive::Phy, Exclusive::Phy) => Reason::SameKind,
            _ => Reason::OtherKind,
        }
    }
}

impl Pdu {
    /// The rejection of a procedure of the peripheral.
    pub fn rejection(kind: Exclusive, reason: Reason) -> Pdu
        ensures { result ≡ rejection_of kind reason }
    {
        match kind {
            Exclusive::Phy => Pdu::RejectPhy(reason),
            _ => Pdu::RejectParam(reason),
        }
    }

    /// The first PDU of a procedure.
    pub fn first(kind: Exclusive) -> Pdu
        ensures { result ≡ first_pdu_of kind }
    {
        match kind {
            Exclusive::Update => Pdu::UpdateInd,
            Exclusive::Request => Pdu::ParamReq,
            Exclusive::Map => Pdu::MapInd,
            Exclusive::Phy => Pdu::PhyReq,
        }
    }

    /// The procedure of the peripheral that this PDU begins.
    pub fn begins(self) -> Option<Exclusive>
        ensures { result ≡ first_kind self }
    {
        match self {
            Pdu::ParamReq => Some(Exclusive::Request),
            Pdu::PhyReq => Some(Exclusive::Phy),
            _ => None,
        }
    }

    /// Whether it has an instant.
    pub fn is_timed(self) -> bool
        ensures { result ≡ is_timed self }
    {
        matches!(self, Pdu::UpdateInd | Pdu::GrantInd | Pdu::MapInd)
    }

    /// Whether a central sends it only after the instant of its last indication.
    pub fn is_held_back(self) -> bool
        ensures { result ≡ is_held_back self }
    {
        self.is_timed() || matches!(self, Pdu::PhyReq)
    }

    /// Whether it is LL_CONNECTION_PARAM_REQ.
    pub fn is_request(self) -> bool
        ensures { result ≡ is_request self }
    {
        matches!(self, Pdu::ParamReq)
    }
}
