//! One end of a link: the procedure that it began, the one that the other end began, and the PDUs
//! that wait.
use crate::journals::{put_line, put_sent};
use crate::pdus::{Kind, Pdu, Step, name_of};
use std::alloc::AllocError;

/// The events from the one in which an indication is first sent to its Instant (our choice).
const TO_INSTANT: u32 = 6;

/// One end.
#[derive(Clone, Copy)]
pub(crate) struct End {
    pub(crate) side: &'static str,
    pub(crate) is_central: bool,
    /// Whether the host masks the event of a request.
    pub(crate) is_masked: bool,
    /// What the host asked for and did not begin, in order.
    pub(crate) asked: Option<Pdu>,
    pub(crate) asked_later: Option<Pdu>,
    /// The procedures in progress that this end and the other one began.
    pub(crate) own: Option<Kind>,
    pub(crate) peer: Option<Kind>,
    /// Whether the first PDU of the own one is acknowledged.
    own_is_acked: bool,
    /// Whether the host was asked about a request and did not answer.
    pub(crate) host_is_asked: bool,
    /// The PDUs that wait, and the one that this turn may send.
    front: Option<Pdu>,
    later: Option<Pdu>,
    fixed: Option<Pdu>,
    has_more: bool,
    /// The Instant that is to come, or 0, and whether it is of the own procedure.
    instant: u32,
    instant_is_own: bool,
    /// The event from which the next indication may be sent.
    free_from: u32,
    /// The PDU that was sent last, whether it is taken and acknowledged, and how many had octets.
    last: Option<Pdu>,
    is_taken: bool,
    is_acked: bool,
    sent: u32,
}

impl End {
    /// An end of a new link.
    pub(crate) fn new(side: &'static str, is_central: bool, is_masked: bool) -> End {
        End {
            side,
            is_central,
            is_masked,
            asked: None,
            asked_later: None,
            own: None,
            peer: None,
            own_is_acked: false,
            host_is_asked: false,
            front: None,
            later: None,
            fixed: None,
            has_more: false,
            instant: 0,
            instant_is_own: false,
            free_from: 0,
            last: None,
            is_taken: false,
            is_acked: false,
            sent: 0,
        }
    }

    /// The host asks for a procedure.
    pub(crate) fn ask(&mut self, first: Pdu) {
        match self.asked {
            None => self.asked = Some(first),
            Some(_) => self.asked_later = Some(first),
        }
    }

    /// Whether its host may ask for a procedure: it is not asked for and not in progress, and there is
    /// room. A map may be asked for while another one is in progress.
    pub(crate) fn may_ask(&self, kind: Kind) -> bool {
        self.asked_later.is_none()
            && !is_of(self.asked, kind)
            && (matches!(kind, Kind::Map) || !self.has_own(kind))
    }

    /// Whether the own procedure is of a kind.
    fn has_own(&self, kind: Kind) -> bool {
        match self.own {
            None => false,
            Some(own) => name_of(own) == name_of(kind),
        }
    }

    /// The host grants a request.
    pub(crate) fn grant(&mut self, values: &'static str) {
        self.host_is_asked = false;
        self.push(Pdu::new(Kind::Request, Step::Answer, values));
    }

    /// Refuses a procedure of the other end. The rejection goes before all that waits (our choice).
    pub(crate) fn refuse(&mut self, kind: Kind, code: &'static str) {
        self.host_is_asked = false;
        self.peer = None;
        self.later = self.front;
        self.front = Some(Pdu::new(kind, Step::Rejection, code));
    }

    /// A PDU waits after the others.
    fn push(&mut self, pdu: Pdu) {
        match self.front {
            None => self.front = Some(pdu),
            Some(_) => self.later = Some(pdu),
        }
    }

    /// Enters an event.
    pub(crate) fn enter(&mut self, event: u32, told: &mut String) -> Result<(), AllocError> {
        if self.instant != 0 && self.instant == event {
            self.instant = 0;
            self.apply(told)?;
        }
        self.begin(told)
    }

    /// The Instant has come.
    fn apply(&mut self, told: &mut String) -> Result<(), AllocError> {
        if self.instant_is_own {
            self.finish(told)
        } else {
            self.peer = None;
            Ok(())
        }
    }

    /// The own procedure is done.
    fn finish(&mut self, told: &mut String) -> Result<(), AllocError> {
        match self.own {
            None => Ok(()),
            Some(kind) => {
                self.own = None;
                put_line(told, "done", self.side, name_of(kind), "")
            }
        }
    }

    /// Begins the next procedure that is asked for, where none is in progress.
    fn begin(&mut self, told: &mut String) -> Result<(), AllocError> {
        match (self.own, self.peer, self.asked) {
            (None, None, Some(first)) => self.begin_with(first, told),
            _ => Ok(()),
        }
    }

    /// Begins the procedure of this first PDU.
    fn begin_with(&mut self, first: Pdu, told: &mut String) -> Result<(), AllocError> {
        self.asked = self.asked_later;
        self.asked_later = None;
        self.own = Some(first.kind);
        self.own_is_acked = false;
        self.push(first);
        put_line(told, "began", self.side, name_of(first.kind), "")
    }

    /// Fixes, at the start of a turn, which PDU it may send.
    pub(crate) fn fix(&mut self, event: u32) {
        self.fixed = self.front;
        if let Some(pdu) = self.front {
            if self.is_held_back(pdu, event) {
                self.fixed = None;
            }
        }
        self.has_more = self.fixed.is_some() && self.later.is_some();
    }

    /// Whether a PDU of the central waits until the last Instant has passed (our choice).
    fn is_held_back(&self, pdu: Pdu, event: u32) -> bool {
        let waits = match (pdu.step, pdu.kind) {
            (Step::First, Kind::Phy) => true,
            _ => pdu.is_indication(),
        };
        self.is_central && waits && event < self.free_from
    }

    /// Sends a packet: whether it says that there is more.
    pub(crate) fn send(&mut self, event: u32, told: &mut String) -> Result<bool, AllocError> {
        if !self.is_acked {
            return Ok(self.fixed.is_some());
        }
        self.is_acked = false;
        self.is_taken = false;
        self.last = None;
        match self.fixed {
            None => Ok(false),
            Some(pdu) => self.send_new(pdu, event, told),
        }
    }

    /// Sends a new PDU with octets.
    fn send_new(&mut self, pdu: Pdu, event: u32, told: &mut String) -> Result<bool, AllocError> {
        self.front = self.later;
        self.later = None;
        self.sent = self.sent.saturating_add(1);
        let pdu = self.dated(pdu, event);
        self.last = Some(pdu);
        put_sent(told, self.side, self.sent, pdu)?;
        Ok(self.has_more)
    }

    /// The PDU with its event.
    fn dated(&mut self, pdu: Pdu, event: u32) -> Pdu {
        let mut dated = pdu;
        dated.event = event;
        if pdu.is_indication() {
            dated.event = event.saturating_add(TO_INSTANT);
            self.instant = dated.event;
            self.instant_is_own = !matches!(pdu.step, Step::Answer);
            self.free_from = dated.event.saturating_add(1);
        }
        dated
    }

    /// Hears a packet of the other end.
    pub(crate) fn hear(&mut self, from: &mut End, told: &mut String) -> Result<(), AllocError> {
        if self.is_taken && !self.is_acked {
            self.is_acked = true;
            self.acknowledged(told)?;
        }
        if from.is_taken {
            return Ok(());
        }
        from.is_taken = true;
        match from.last {
            None => Ok(()),
            Some(pdu) => self.take(pdu, told),
        }
    }

    /// The PDU that was sent last is acknowledged.
    fn acknowledged(&mut self, told: &mut String) -> Result<(), AllocError> {
        match self.last {
            None => Ok(()),
            Some(pdu) => self.step_is_over(pdu.step, told),
        }
    }

    /// The PDU of this step is acknowledged.
    fn step_is_over(&mut self, step: Step, told: &mut String) -> Result<(), AllocError> {
        match step {
            Step::First => {
                self.own_is_acked = true;
                Ok(())
            }
            Step::Last => self.phy_is_over(told),
            _ => Ok(()),
        }
    }

    /// LL_PHY_UPDATE_IND ends the procedure of the other end, or else the own one.
    fn phy_is_over(&mut self, told: &mut String) -> Result<(), AllocError> {
        match self.peer {
            Some(Kind::Phy) => {
                self.peer = None;
                Ok(())
            }
            _ => self.finish(told),
        }
    }

    /// Takes a PDU.
    fn take(&mut self, pdu: Pdu, told: &mut String) -> Result<(), AllocError> {
        match pdu.step {
            Step::Rejection => self.take_rejection(pdu, told),
            Step::Last => self.phy_is_over(told),
            _ => {
                self.take_other(pdu);
                Ok(())
            }
        }
    }

    /// Takes the first PDU of a procedure, or an answer.
    fn take_other(&mut self, pdu: Pdu) {
        if pdu.is_indication() {
            self.take_indication(pdu);
        } else if matches!(pdu.step, Step::Answer) {
            self.push(Pdu::new(Kind::Phy, Step::Last, ""));
        } else if self.is_central {
            self.judge(pdu.kind);
        } else {
            self.peer = Some(pdu.kind);
            self.push(Pdu::new(Kind::Phy, Step::Answer, ""));
        }
    }

    /// A peripheral takes an indication. LL_CONNECTION_UPDATE_IND answers its request where that is
    /// acknowledged.
    fn take_indication(&mut self, pdu: Pdu) {
        self.instant = pdu.event;
        self.instant_is_own = match (self.own, pdu.kind) {
            (Some(Kind::Request), Kind::Update | Kind::Request) => self.own_is_acked,
            _ => false,
        };
        if !self.instant_is_own {
            self.peer = Some(pdu.kind);
        }
    }

    /// A central takes the first PDU of the peripheral: it goes on with its own procedure and refuses
    /// the other, or takes it up.
    fn judge(&mut self, kind: Kind) {
        match (self.own, kind) {
            (Some(Kind::Phy), Kind::Phy) => self.refuse(kind, "23"),
            (Some(_), _) => self.refuse(kind, "2a"),
            (None, Kind::Phy) => {
                self.peer = Some(kind);
                self.push(Pdu::new(Kind::Phy, Step::Last, ""));
            }
            (None, _) => self.judge_request(),
        }
    }

    /// A central takes a request that nothing collides with.
    fn judge_request(&mut self) {
        if self.is_masked {
            self.refuse(Kind::Request, "1a");
        } else {
            self.peer = Some(Kind::Request);
            self.host_is_asked = true;
        }
    }

    /// A peripheral takes a rejection of its procedure.
    fn take_rejection(&mut self, pdu: Pdu, told: &mut String) -> Result<(), AllocError> {
        self.own = None;
        put_line(told, "refused", self.side, name_of(pdu.kind), pdu.values)
    }
}

/// Whether there is a PDU of a kind.
fn is_of(pdu: Option<Pdu>, kind: Kind) -> bool {
    match pdu {
        None => false,
        Some(pdu) => name_of(pdu.kind) == name_of(kind),
    }
}
