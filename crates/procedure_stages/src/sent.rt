//! The stages of procedures after a PDU was first sent.
ghost use Rattle.std.specs.Prelude.{◌≡◌, ◌<◌, ◌^◌};
ghost use Rattle.procedure_stages.specs.Sent.{features_sent, version_sent, length_sent};
ghost use Rattle.procedure_stages.specs.Sent.{exchange_sent, encryption_sent};
ghost use Rattle.procedure_stages.specs.Sent.{exclusive_sent_by_central, own_draft_sent_by_central};
ghost use Rattle.procedure_stages.specs.Sent.{exclusive_sent_by_peripheral};
ghost use Rattle.procedure_stages.specs.Sent.{own_draft_sent_by_peripheral};
ghost use Rattle.procedure_stages.specs.Sent.{peer_draft_sent_by_central};
ghost use Rattle.procedure_stages.specs.Sent.{peer_draft_sent_by_peripheral};
ghost use Rattle.procedure_stages.specs.Sent.{last_instant_after, central_after, peripheral_after};
ghost use Rattle.procedure_stages.specs.Sent.{progress_after_draft, progress_after_sending};
ghost use Rattle.procedure_stages.specs.Sent.{is_own_draft, is_own};

use crate::exclusive::pdu_of_draft;
use crate::stages::{Central, Exchange, OwnCentral, OwnPeripheral, Peripheral, Progress};
use ble_base::EventNo;
use exclusive_stages::{CentralStage, Pdu, PeerAtCentral, PeerAtPeripheral, PeripheralStage};
use procedure_values::drafts::instant_event;
use procedure_values::{Draft, Outgoing};

/// The request of this end is sent: the stage after it, if an exchange of features is under way.
fn features_sent(stage: Exchange) -> Option<Exchange>
    ensures { result ≡ features_sent stage }
{
    match stage {
        Exchange::FeaturesUnsent => Some(Exchange::FeaturesSent),
        _ => None,
    }
}

/// The own LL_VERSION_IND is sent: the stage after it, if an exchange of versions is under way.
fn version_sent(stage: Exchange) -> Option<Exchange>
    ensures { result ≡ version_sent stage }
{
    match stage {
        Exchange::VersionUnsent => Some(Exchange::VersionSent),
        _ => None,
    }
}

/// LL_LENGTH_REQ is sent: the stage after it, if an exchange of lengths is under way.
fn length_sent(stage: Exchange) -> Option<Exchange>
    ensures { result ≡ length_sent stage }
{
    match stage {
        Exchange::LengthUnsent => Some(Exchange::LengthSent),
        _ => None,
    }
}

/// The stage of an exchange after a PDU was sent, if it is of that exchange.
fn exchange_sent(draft: &Draft, stage: Exchange) -> Option<Exchange>
    ensures { result ≡ exchange_sent draft.now stage }
{
    match draft {
        Draft::FeatureReq | Draft::PeripheralFeatureReq => features_sent(stage),
        Draft::VersionInd => version_sent(stage),
        Draft::LengthReq { .. } => length_sent(stage),
        _ => None,
    }
}

/// The stage of the central's own encryption after a PDU was sent, if it is of that.
fn encryption_sent(draft: &Draft) -> Option<OwnCentral>
    ensures { result ≡ encryption_sent draft.now }
{
    match draft {
        Draft::Cipher(_) => Some(OwnCentral::EncryptSent),
        _ => None,
    }
}

/// The stage of a procedure that excludes others after a central sent a PDU, if it is of that.
fn exclusive_sent_by_central(pdu: Option<Pdu>, stage: CentralStage) -> Option<CentralStage>
    ensures { result ≡ exclusive_sent_by_central pdu stage }
{
    match pdu {
        Some(pdu) => stage.sent(pdu),
        None => None,
    }
}

/// The same of one that a peripheral sent.
fn exclusive_sent_by_peripheral(pdu: Option<Pdu>, stage: PeripheralStage) -> Option<PeripheralStage>
    ensures { result ≡ exclusive_sent_by_peripheral pdu stage }
{
    match pdu {
        Some(pdu) => stage.sent(pdu),
        None => None,
    }
}

/// The stage of the central's own procedure after a PDU was sent, if it is of that procedure.
fn own_sent_by_central(draft: &Draft, own: OwnCentral) -> Option<OwnCentral>
    ensures { result ≡ own_draft_sent_by_central draft.now own }
{
    match own {
        OwnCentral::Exclusive(stage) => {
            match exclusive_sent_by_central(pdu_of_draft(draft), stage) {
                Some(next) => Some(OwnCentral::Exclusive(next)),
                None => None,
            }
        }
        OwnCentral::Exchange(stage) => match exchange_sent(draft, stage) {
            Some(next) => Some(OwnCentral::Exchange(next)),
            None => None,
        },
        OwnCentral::EncryptUnsent | OwnCentral::EncryptSent => encryption_sent(draft),
    }
}

/// The stage of the peripheral's own procedure after a PDU was sent, if it is of that procedure.
fn own_sent_by_peripheral(draft: &Draft, own: OwnPeripheral) -> Option<OwnPeripheral>
    ensures { result ≡ own_draft_sent_by_peripheral draft.now own }
{
    match own {
        OwnPeripheral::Exclusive(stage) => {
            match exclusive_sent_by_peripheral(pdu_of_draft(draft), stage) {
                Some(next) => Some(OwnPeripheral::Exclusive(next)),
                None => None,
            }
        }
        OwnPeripheral::Exchange(stage) => match exchange_sent(draft, stage) {
            Some(next) => Some(OwnPeripheral::Exchange(next)),
            None => None,
        },
    }
}

/// The stage of the peripheral's procedure after the central sent a PDU.
fn peer_sent_by_central(pdu: Option<Pdu>, peer: PeerAtCentral) -> PeerAtCentral
    ensures { result ≡ peer_draft_sent_by_central pdu peer }
{
    match pdu {
        Some(pdu) => peer.sent(pdu),
        None => peer,
    }
}

/// The stage of the central's procedure after the peripheral sent a PDU.
fn peer_sent_by_peripheral(pdu: Option<Pdu>, peer: PeerAtPeripheral) -> PeerAtPeripheral
    ensures { result ≡ peer_draft_sent_by_peripheral pdu peer }
{
    match pdu {
        Some(pdu) => peer.sent(pdu),
        None => peer,
    }
}

/// The event that the Instant of the last indication names, after a PDU was sent.
fn last_instant_after(
    draft: &Draft,
    event: EventNo,
    latency: u16,
    last: Option<EventNo>,
) -> Option<EventNo>
    requires { event.0 < 2 ^ 32 }
    ensures { result ≡ last_instant_after draft.now event.0 latency last }
{
    match draft {
        Draft::Update(_) | Draft::Grant(_) | Draft::Map(_) => Some(instant_event(event, latency)),
        _ => last,
    }
}

/// A central after it sent a PDU.
fn central_after(draft: &Draft, event: EventNo, latency: u16, c: Central) -> Central
    requires { event.0 < 2 ^ 32 }
    ensures { result ≡ central_after draft.now event.0 latency c }
{
    Central {
        own: own_sent_by_central(draft, c.own).unwrap_or(c.own),
        peer: peer_sent_by_central(pdu_of_draft(draft), c.peer),
        last_instant: last_instant_after(draft, event, latency, c.last_instant),
    }
}

/// A peripheral after it sent a PDU.
fn peripheral_after(draft: &Draft, p: Peripheral) -> Peripheral
    ensures { result ≡ peripheral_after draft.now p }
{
    Peripheral {
        own: own_sent_by_peripheral(draft, p.own).unwrap_or(p.own),
        peer: peer_sent_by_peripheral(pdu_of_draft(draft), p.peer),
        ..p
    }
}

impl Progress {
    /// The procedures after a PDU was sent.
    fn after_draft(self, draft: &Draft, event: EventNo, latency: u16) -> Self
        requires { event.0 < 2 ^ 32 }
        ensures { result ≡ progress_after_draft draft.now event.0 latency self }
    {
        match self {
            Progress::Central(c) => Progress::Central(central_after(draft, event, latency, c)),
            Progress::Peripheral(p) => Progress::Peripheral(peripheral_after(draft, p)),
        }
    }

    /// The same, whatever kind of PDU it is.
    pub fn after_sending(self, outgoing: &Outgoing, event: EventNo, latency: u16) -> Self
        requires { event.0 < 2 ^ 32 }
        ensures { result ≡ progress_after_sending outgoing.now event.0 latency self }
    {
        match outgoing {
            Outgoing::Other(draft) => self.after_draft(draft, event, latency),
            _ => self,
        }
    }

    /// Whether a PDU is of the procedure that this end began.
    fn owns_draft(self, draft: &Draft) -> bool
        ensures { result ≡ is_own_draft draft.now self }
    {
        match self {
            Progress::Central(c) => own_sent_by_central(draft, c.own).is_some(),
            Progress::Peripheral(p) => own_sent_by_peripheral(draft, p.own).is_some(),
        }
    }

    /// The same, whatever kind of PDU it is.
    pub fn owns(self, outgoing: &Outgoing) -> bool
        ensures { result ≡ is_own outgoing.now self }
    {
        match outgoing {
            Outgoing::Other(draft) => self.owns_draft(draft),
            _ => false,
        }
    }
}
