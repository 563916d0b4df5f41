//! A second, plain writing of the rules of one end: one list for the queue, and the kind and the
//! stage of the procedure of each end. What it sends, begins and completes; what it takes is in
//! `plain_taking`.
use arrayvec::ArrayVec;
use ble_base::{ErrCode, Kind};
use data_pdu::Ctrl;
use procedures::Ask;

/// How a PDU came into the queue.
#[derive(Clone, Copy, PartialEq, Eq)]
pub(crate) enum Source {
    Rejection,
    Disconnect,
    Own,
    Grant,
    Given,
}

/// How far the own procedure is after its first PDU.
#[derive(Clone, Copy, PartialEq, Eq)]
pub(crate) enum OwnStage {
    /// No further than that.
    First,
    /// A request was acknowledged.
    Acknowledged,
    /// A request was granted.
    Granted,
    /// The LL_PHY_REQ of a central was answered.
    Answered,
    /// LL_PHY_UPDATE_IND was sent after it.
    Indicated,
}

/// How far the procedure of the peer that excludes others is.
#[derive(Clone, Copy, PartialEq, Eq)]
pub(crate) enum PeerStage {
    /// The host of a central was asked.
    Asked,
    /// What this end sends for it waits.
    Unsent,
    /// It was sent.
    Sent,
}

/// A PDU that waits, without its Instant or reference.
#[derive(Clone, Copy)]
pub(crate) struct Item {
    pub(crate) source: Source,
    pub(crate) ctrl: Ctrl,
}

impl Default for Item {
    ghost use Rattle.std.specs.Prelude.{⊤};

    ghost is_default = { λ item. ⊤ };

    fn default() -> Self {
        Item {
            source: Source::Own,
            ctrl: Ctrl::StartEncReq,
        }
    }
}

/// One end, plainly.
#[derive(Drop)]
pub(crate) struct Plain {
    pub(crate) central: bool,
    pub(crate) wanted: ArrayVec<Ask, 16>,
    pub(crate) own: Option<Kind>,
    /// Its first PDU was sent.
    pub(crate) sent: bool,
    pub(crate) stage: OwnStage,
    /// The peer's procedure that excludes others.
    pub(crate) peer: Option<Kind>,
    pub(crate) peer_stage: PeerStage,
    pub(crate) encrypting: bool,
    /// The kind of the indication that waits.
    pub(crate) ahead: Option<Kind>,
    pub(crate) queue: ArrayVec<Item, 32>,
    pub(crate) out: Option<Item>,
    pub(crate) last: Option<u64>,
    pub(crate) disconnecting: bool,
    pub(crate) closed: bool,
    pub(crate) own_rx: u16,
    pub(crate) own_tx: u16,
    pub(crate) peer_rx: u16,
    pub(crate) peer_tx: u16,
    pub(crate) version: bool,
    pub(crate) since: Option<u64>,
}

impl Plain {
    pub(crate) fn new(central: bool) -> Self {
        Plain {
            central,
            wanted: ArrayVec::new(),
            own: None,
            sent: false,
            stage: OwnStage::First,
            peer: None,
            peer_stage: PeerStage::Asked,
            encrypting: false,
            ahead: None,
            queue: ArrayVec::new(),
            out: None,
            last: None,
            disconnecting: false,
            closed: false,
            own_rx: 251,
            own_tx: 27,
            peer_rx: 27,
            peer_tx: 27,
            version: false,
            since: None,
        }
    }

    /// Rejections first, then the TERMINATE_IND of a Disconnect, then the others.
    pub(crate) fn push(&mut self, source: Source, ctrl: Ctrl) {
        if self.closed {
            return;
        }
        let item = Item { source, ctrl };
        if matches!(source, Source::Rejection | Source::Disconnect) {
            let mut place = 0;
            for other in self.queue.as_slice() {
                if other.source == Source::Rejection && place < 1000 {
                    place += 1;
                }
            }
            if place <= self.queue.len() {
                let _ = self.queue.try_insert(place, item);
            }
        } else {
            let _ = self.queue.try_push(item);
        }
    }

    pub(crate) fn idle(&mut self) {
        self.own = None;
        self.sent = false;
        self.stage = OwnStage::First;
    }

    pub(crate) fn finishes(&mut self, kind: Kind) -> Option<Kind> {
        self.idle();
        Some(kind)
    }

    /// Whether the own procedure is of this kind and its first PDU was sent.
    pub(crate) fn runs(&self, kind: Kind) -> bool {
        self.own == Some(kind) && self.sent
    }

    pub(crate) fn ctrl_at(item: &Item, event: u32, latency: u16) -> Ctrl {
        let instant = ((u64::from(event) + 6 + u64::from(latency)) % 65536) as u16;
        let mut ctrl = item.ctrl;
        if item.source == Source::Given {
            return ctrl;
        }
        match &mut ctrl {
            Ctrl::ConnectionUpdateInd { instant: at, .. }
            | Ctrl::ChannelMapInd { instant: at, .. } => *at = instant,
            Ctrl::ConnectionParamReq { reference, .. } => *reference = (event % 65536) as u16,
            _ => {}
        }
        ctrl
    }

    /// Whether an item waits for the event after the last Instant.
    pub(crate) fn is_held(&self, item: &Item, event: u32) -> bool {
        let Some(last) = self.last else {
            return false;
        };
        let timed = matches!(
            item.ctrl,
            Ctrl::ConnectionUpdateInd { .. } | Ctrl::ChannelMapInd { .. } | Ctrl::PhyReq { .. }
        );
        self.central && timed && u64::from(event) <= last
    }

    pub(crate) fn next(&self, event: u32, quiet: bool) -> Option<usize> {
        for (place, item) in self.queue.as_slice().iter().enumerate() {
            match item.source {
                Source::Rejection => return Some(place),
                Source::Disconnect if quiet => return Some(place),
                Source::Disconnect => {}
                _ if self.disconnecting && quiet => return None,
                _ if self.is_held(item, event) => return None,
                _ => return Some(place),
            }
        }
        None
    }

    pub(crate) fn next_ctrl(&self, event: u32, latency: u16, quiet: bool) -> Option<Ctrl> {
        let place = self.next(event, quiet)?;
        let item = self.queue.as_slice().get(place)?;
        Some(Self::ctrl_at(item, event, latency))
    }

    pub(crate) fn went(&mut self, event: u32, latency: u16, quiet: bool, slot: u64) {
        let Some(place) = self.next(event, quiet) else {
            return;
        };
        let Some(item) = self.queue.pop_at(place) else {
            return;
        };
        self.out = Some(item);
        match item.source {
            Source::Rejection | Source::Disconnect => {}
            Source::Given => {
                if self.own == Some(Kind::Encrypt) {
                    self.first_sent(Kind::Encrypt, slot);
                    self.since = Some(slot);
                }
            }
            Source::Grant => {
                self.last = Some(u64::from(event) + 6 + u64::from(latency));
                if self.peer == Some(Kind::Request) && self.peer_stage == PeerStage::Unsent {
                    self.peer_stage = PeerStage::Sent;
                }
            }
            Source::Own => self.own_went(
                &item.ctrl,
                u64::from(event) + 6 + u64::from(latency),
                slot,
            ),
        }
    }

    pub(crate) fn first_sent(&mut self, kind: Kind, slot: u64) {
        if self.own == Some(kind) && !self.sent {
            self.sent = true;
            self.since = Some(slot);
        }
    }

    pub(crate) fn own_went(&mut self, ctrl: &Ctrl, at: u64, slot: u64) {
        match ctrl {
            Ctrl::ConnectionUpdateInd { .. } => {
                self.last = Some(at);
                self.first_sent(Kind::Update, slot);
            }
            Ctrl::ChannelMapInd { .. } => {
                self.last = Some(at);
                self.first_sent(Kind::Map, slot);
            }
            Ctrl::ConnectionParamReq { .. } => self.first_sent(Kind::Request, slot),
            Ctrl::PhyReq { .. } => self.first_sent(Kind::Phy, slot),
            Ctrl::FeatureReq { .. } | Ctrl::PeripheralFeatureReq { .. } => {
                self.first_sent(Kind::Features, slot)
            }
            Ctrl::VersionInd { .. } => self.first_sent(Kind::Version, slot),
            Ctrl::LengthReq { .. } => self.first_sent(Kind::Length, slot),
            Ctrl::PhyUpdateInd { .. } => {
                if self.own == Some(Kind::Phy) && self.stage == OwnStage::Answered {
                    self.stage = OwnStage::Indicated;
                    self.since = Some(slot);
                }
                if self.peer == Some(Kind::Phy) && self.peer_stage == PeerStage::Unsent {
                    self.peer_stage = PeerStage::Sent;
                }
            }
            Ctrl::PhyRsp { .. }
                if self.peer == Some(Kind::Phy) && self.peer_stage == PeerStage::Unsent => {
                self.peer_stage = PeerStage::Sent
            }
            _ => {}
        }
    }

    pub(crate) fn acked(&mut self) -> Option<Kind> {
        let item = self.out?;
        self.out = None;
        if item.source != Source::Own {
            return None;
        }
        match item.ctrl {
            Ctrl::PhyUpdateInd { .. } => {
                if self.peer == Some(Kind::Phy) && self.peer_stage == PeerStage::Sent {
                    self.peer = None;
                }
                if self.own == Some(Kind::Phy) && self.stage == OwnStage::Indicated {
                    return self.finishes(Kind::Phy);
                }
                None
            }
            Ctrl::ConnectionParamReq { .. } => {
                if self.runs(Kind::Request) && self.stage == OwnStage::First {
                    self.stage = OwnStage::Acknowledged;
                }
                None
            }
            _ => None,
        }
    }

    pub(crate) fn entered(&mut self, applied: bool) -> Option<Kind> {
        if !applied {
            return None;
        }
        self.ahead = None;
        if self.central {
            if self.peer == Some(Kind::Request) && self.peer_stage == PeerStage::Sent {
                self.peer = None;
            }
            if self.runs(Kind::Update) {
                return self.finishes(Kind::Update);
            }
            if self.runs(Kind::Map) {
                return self.finishes(Kind::Map);
            }
            return None;
        }
        if matches!(self.peer, Some(Kind::Update | Kind::Map)) {
            self.peer = None;
        }
        if self.own == Some(Kind::Request) && self.stage == OwnStage::Granted {
            return self.finishes(Kind::Request);
        }
        None
    }

    /// The place of an ask of this kind among those that wait.
    pub(crate) fn place_of(&self, kind: Kind) -> Option<usize> {
        for (place, ask) in self.wanted.as_slice().iter().enumerate() {
            if ask.kind() == kind {
                return Some(place);
            }
        }
        None
    }

    pub(crate) fn may_ask(&self, kind: Kind) -> bool {
        self.own != Some(kind) && self.place_of(kind).is_none()
    }

    pub(crate) fn ask(&mut self, ask: Ask) {
        if let Ask::Length { tx } = ask {
            self.own_tx = tx;
        }
        if let Some(place) = self.place_of(ask.kind()) {
            if let Some(other) = self.wanted.as_mut_slice().get_mut(place) {
                *other = ask;
            }
        } else {
            let _ = self.wanted.try_push(ask);
        }
    }

    pub(crate) fn may_begin(&self, kind: Kind) -> bool {
        match kind {
            Kind::Encrypt => self.peer.is_none() && !self.encrypting,
            Kind::Update | Kind::Request | Kind::Map | Kind::Phy => self.peer.is_none(),
            _ => true,
        }
    }

    /// The place of the first ask that may begin.
    fn first_to_begin(&self) -> Option<usize> {
        for (place, ask) in self.wanted.as_slice().iter().enumerate() {
            if self.may_begin(ask.kind()) {
                return Some(place);
            }
        }
        None
    }

    pub(crate) fn begin(&mut self, slot: u64, quiet: bool) -> Option<Kind> {
        if self.own.is_some() || !quiet || self.closed || self.disconnecting {
            return None;
        }
        let place = self.first_to_begin()?;
        let ask = self.wanted.pop_at(place)?;
        self.own = Some(ask.kind());
        self.since = None;
        if matches!(ask, Ask::Version) && self.version {
            self.sent = true;
            self.since = Some(slot);
            return Some(Kind::Version);
        }
        if matches!(ask, Ask::Version) {
            self.version = true;
        }
        if let Some(ctrl) = self.first_pdu(&ask) {
            self.push(Source::Own, ctrl);
        }
        Some(ask.kind())
    }

    pub(crate) fn first_pdu(&self, ask: &Ask) -> Option<Ctrl> {
        Some(match *ask {
            Ask::Update {
                interval,
                latency,
                timeout,
            } => update_ind(interval, latency, timeout, 0),
            Ask::Request {
                min,
                max,
                latency,
                timeout,
            } => param_req(min, max, latency, timeout),
            Ask::Map(map) => Ctrl::ChannelMapInd {
                map: map.bits(),
                instant: 0,
            },
            Ask::Phy => Ctrl::PhyReq { tx: 1, rx: 1 },
            Ask::Features if self.central => Ctrl::FeatureReq { features: 0x402F },
            Ask::Features => Ctrl::PeripheralFeatureReq { features: 0x402F },
            Ask::Version => Ctrl::VersionInd {
                version: 0x0B,
                company: 0xFFFF,
                sub: 1,
            },
            Ask::Length { .. } => Ctrl::LengthReq {
                max_rx_octets: self.own_rx,
                max_rx_time: Self::time(self.own_rx),
                max_tx_octets: self.own_tx,
                max_tx_time: Self::time(self.own_tx),
            },
            Ask::Encrypt { .. } => return None,
        })
    }

    pub(crate) fn busy(&self) -> bool {
        self.own.is_some() || self.peer.is_some() || self.encrypting
    }

    pub(crate) fn tick(&self, slot: u64) -> Option<ErrCode> {
        if matches!(self.own, None | Some(Kind::Update | Kind::Map)) {
            return None;
        }
        match self.since {
            Some(since) if slot >= since && slot - since >= 32000 => Some(ErrCode(0x22)),
            _ => None,
        }
    }
}

pub(crate) fn update_ind(interval: u16, latency: u16, timeout: u16, instant: u16) -> Ctrl {
    Ctrl::ConnectionUpdateInd {
        win_size: 1,
        win_offset: 0,
        interval,
        latency,
        timeout,
        instant,
    }
}

pub(crate) fn param_req(min: u16, max: u16, latency: u16, timeout: u16) -> Ctrl {
    Ctrl::ConnectionParamReq {
        interval_min: min,
        interval_max: max,
        latency,
        timeout,
        periodicity: 0,
        reference: 0,
        offsets: [0xFFFF; 6],
    }
}
