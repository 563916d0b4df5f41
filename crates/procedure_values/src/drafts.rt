//! Control PDUs that wait to be sent. What is fixed as the PDU is first sent is left out: an
//! Instant, or the reference of a request.
ghost use Rattle.std.specs.Prelude.{◌≡◌, ◌<◌, ◌^◌, ◌≤◌, IfSome};
ghost use Rattle.data_pdu.specs.Ranges.{IsInRange};
ghost use Rattle.instants.specs.Track.{HasInterval};
ghost use Rattle.procedure_values.specs.Drafts.{instant_event, instant_at, time_of, no_offsets};
ghost use Rattle.procedure_values.specs.Drafts.{own_version, own_company, own_sub, ctrl_of_draft};
ghost use Rattle.procedure_values.specs.Drafts.{indication_of_draft, waits_for_instant};
ghost use Rattle.procedure_values.specs.Drafts.{fixed_ctrl_of, ctrl_of_outgoing, indication_of};
ghost use Rattle.procedure_values.specs.Drafts.{is_out};
ghost use Rattle.procedure_values.specs.Drafts.{is_phy_ind, is_request};

use crate::values::{CipherPdu, NewParams, PayloadMax};
use ble_base::{ChannelMap, ErrCode, EventNo};
use data_pdu::Ctrl;
use instants::Indication;

/// The features of this product (Core 5.2, volume 6 part B, section 4.6): encryption, connection
/// parameters request, extended reject indication, peripheral feature exchange, data length
/// extension, channel selection algorithm 2.
const OWN_FEATURES: u64 = 0x402F;

/// Version 5.2 of the Link Layer (Assigned Numbers).
const OWN_VERSION: u8 = 0x0B;

/// No company (Assigned Numbers).
const OWN_COMPANY: u16 = 0xFFFF;

/// Our own number of this implementation.
const OWN_SUB: u16 = 1;

/// The one PHY that this product has, LE 1M (section 2.4.2.22).
const LE_1M: u8 = 1;

/// How many events the Instant of an indication is ahead of the event in which it is first sent,
/// besides those that the peripheral may skip.
const INSTANT_AHEAD: u64 = 6;

/// An offset that a request does not name (section 2.4.2.16).
const NO_OFFSET: u16 = 0xFFFF;

/// The rejection of a procedure of the peer: LL_REJECT_EXT_IND with the opcode that is refused and
/// the reason (Core 5.2, volume 6 part B, section 2.4.2.18).
#[derive(Clone, Copy, Default)]
pub struct Rejection {
    pub opcode: u8,
    pub code: ErrCode,
}

/// A control PDU that waits to be sent and is not a rejection of a procedure of the peer (Core 5.2,
/// volume 6 part B, section 2.4.2).
#[derive(Clone, Copy)]
pub enum Draft {
    /// LL_CONNECTION_UPDATE_IND of a central's own procedure.
    Update(NewParams),
    /// LL_CONNECTION_UPDATE_IND that answers a request of the peripheral.
    Grant(NewParams),
    /// LL_CHANNEL_MAP_IND.
    Map(ChannelMap),
    /// LL_CONNECTION_PARAM_REQ.
    Request {
        min: u16,
        max: u16,
        latency: u16,
        timeout: u16,
    },
    /// LL_PHY_REQ.
    PhyReq,
    /// LL_PHY_RSP.
    PhyRsp,
    /// LL_PHY_UPDATE_IND, which changes nothing.
    PhyInd,
    /// LL_FEATURE_REQ.
    FeatureReq,
    /// LL_PERIPHERAL_FEATURE_REQ.
    PeripheralFeatureReq,
    /// LL_FEATURE_RSP.
    FeatureRsp,
    /// LL_VERSION_IND.
    VersionInd,
    /// LL_LENGTH_REQ, with the most octets that this end receives and transmits.
    LengthReq {
        rx: PayloadMax,
        tx: PayloadMax,
    },
    /// LL_LENGTH_RSP, likewise.
    LengthRsp {
        rx: PayloadMax,
        tx: PayloadMax,
    },
    /// LL_UNKNOWN_RSP, with the opcode that is not supported.
    UnknownRsp(u8),
    /// A PDU of the encryption procedures, or LL_TERMINATE_IND where a key is missing.
    Cipher(CipherPdu),
}

/// What is in the unused places of a queue, which no reader sees.
impl Default for Draft {
    ghost use Rattle.procedure_values.specs.declared.drafts.Draft.TheVariants.{FeatureRsp};

    ghost is_default = { λ draft. draft ≡ FeatureRsp };

    fn default() -> Self {
        Draft::FeatureRsp
    }
}

/// A control PDU by its place in the order of sending.
#[derive(Clone, Copy)]
pub enum Outgoing {
    /// There is none.
    Nothing,
    /// The rejection of a procedure of the peer.
    Rejection(Rejection),
    /// LL_TERMINATE_IND of a Disconnect that was accepted, with its reason.
    Disconnect(ErrCode),
    /// Another control PDU.
    Other(Draft),
}

/// The event that the Instant of an indication names which is first sent in this event, of a link
/// whose peripheral may skip `latency` events.
pub fn instant_event(event: EventNo, latency: u16) -> EventNo
    requires { event.0 < 2 ^ 32 }
    ensures { result.0 ≡ instant_event event.0 latency }
{
    EventNo(event.0 + INSTANT_AHEAD + u64::from(latency))
}

/// The Instant of it.
fn instant_at(event: EventNo, latency: u16) -> u16
    requires { event.0 < 2 ^ 32 }
    ensures { result ≡ instant_at event.0 latency }
{
    instant_event(event, latency).counter()
}

/// The time of a payload of this number of octets, in microseconds.
fn time_of(octets: u16) -> u16
    requires { octets ≤ 251 }
    ensures { result ≡ time_of octets }
{
    8 * (octets + 14)
}

/// LL_CONNECTION_UPDATE_IND with an Instant.
fn update_ind(params: &NewParams, instant: u16) -> Ctrl
    ensures value { result ≡ Ctrl.ConnectionUpdateInd 1 0 params.now.interval params.now.latency
        params.now.timeout instant }
    ensures in_range { IsInRange result }
{
    Ctrl::ConnectionUpdateInd {
        win_size: 1,
        win_offset: 0,
        interval: params.interval(),
        latency: params.latency(),
        timeout: params.timeout(),
        instant,
    }
}

/// LL_CONNECTION_PARAM_REQ with its reference.
fn param_req(min: u16, max: u16, latency: u16, timeout: u16, reference: u16) -> Ctrl
    ensures { result
        ≡ Ctrl.ConnectionParamReq min max latency timeout 0 reference no_offsets }
{
    Ctrl::ConnectionParamReq {
        interval_min: min,
        interval_max: max,
        latency,
        timeout,
        periodicity: 0,
        reference,
        offsets: [NO_OFFSET; 6],
    }
}

/// LL_LENGTH_REQ with the times of its lengths.
fn length_req(rx: &PayloadMax, tx: &PayloadMax) -> Ctrl
    ensures value { result ≡ Ctrl.LengthReq rx.now (time_of rx.now) tx.now (time_of tx.now) }
    ensures in_range { IsInRange result }
{
    let (rx, tx) = (rx.octets(), tx.octets());
    Ctrl::LengthReq {
        max_rx_octets: rx,
        max_rx_time: time_of(rx),
        max_tx_octets: tx,
        max_tx_time: time_of(tx),
    }
}

/// LL_LENGTH_RSP with the times of its lengths.
fn length_rsp(rx: &PayloadMax, tx: &PayloadMax) -> Ctrl
    ensures value { result ≡ Ctrl.LengthRsp rx.now (time_of rx.now) tx.now (time_of tx.now) }
    ensures in_range { IsInRange result }
{
    let (rx, tx) = (rx.octets(), tx.octets());
    Ctrl::LengthRsp {
        max_rx_octets: rx,
        max_rx_time: time_of(rx),
        max_tx_octets: tx,
        max_tx_time: time_of(tx),
    }
}

/// LL_VERSION_IND of this product.
fn version_ind() -> Ctrl
    ensures { result ≡ Ctrl.VersionInd own_version own_company own_sub }
{
    Ctrl::VersionInd {
        version: OWN_VERSION,
        company: OWN_COMPANY,
        sub: OWN_SUB,
    }
}

impl Draft {
    /// The PDU, if all of it is fixed whatever the values of the link are.
    fn fixed_ctrl(&self) -> Ctrl
        ensures value { result ≡ fixed_ctrl_of self.now }
        ensures in_range { IsInRange result }
    {
        match *self {
            Draft::PhyReq => Ctrl::PhyReq {
                tx: LE_1M,
                rx: LE_1M,
            },
            Draft::PhyRsp => Ctrl::PhyRsp {
                tx: LE_1M,
                rx: LE_1M,
            },
            Draft::PhyInd => Ctrl::PhyUpdateInd {
                to_peripheral: 0,
                to_central: 0,
                instant: 0,
            },
            Draft::FeatureReq => Ctrl::FeatureReq {
                features: OWN_FEATURES,
            },
            Draft::PeripheralFeatureReq => Ctrl::PeripheralFeatureReq {
                features: OWN_FEATURES,
            },
            Draft::FeatureRsp => Ctrl::FeatureRsp {
                features: OWN_FEATURES,
            },
            Draft::UnknownRsp(opcode) => Ctrl::UnknownRsp { opcode },
            _ => version_ind(),
        }
    }

    /// The PDU, as it is first sent in this event.
    fn ctrl(&self, event: EventNo, latency: u16) -> Ctrl
        requires { event.0 < 2 ^ 32 }
        ensures value { result ≡ ctrl_of_draft self.now event.0 latency }
        ensures in_range { IsInRange result }
    {
        let instant = instant_at(event, latency);
        match self {
            Draft::Update(params) | Draft::Grant(params) => update_ind(params, instant),
            Draft::Map(map) => Ctrl::ChannelMapInd {
                map: map.bits(),
                instant,
            },
            Draft::Request {
                min,
                max,
                latency: skips,
                timeout,
            } => param_req(*min, *max, *skips, *timeout, event.counter()),
            Draft::LengthReq { rx, tx } => length_req(rx, tx),
            Draft::LengthRsp { rx, tx } => length_rsp(rx, tx),
            Draft::Cipher(pdu) => pdu.ctrl(),
            _ => self.fixed_ctrl(),
        }
    }

    /// The indication that the central follows, if the PDU is one, as it is first sent in this
    /// event.
    fn indication(&self, event: EventNo, latency: u16) -> Option<Indication>
        requires { event.0 < 2 ^ 32 }
        ensures value { result ≡ indication_of_draft self.now event.0 latency }
        ensures interval { IfSome result HasInterval }
    {
        let instant = instant_at(event, latency);
        match self {
            Draft::Update(params) | Draft::Grant(params) => Some(Indication::Update {
                win_offset: 0,
                interval: params.interval(),
                latency: params.latency(),
                timeout: params.timeout(),
                instant,
            }),
            Draft::Map(map) => Some(Indication::Map { map: *map, instant }),
            _ => None,
        }
    }

    /// Whether it waits until the event after the Instant of the indication before.
    pub fn waits_for_instant(&self) -> bool
        ensures { result ≡ waits_for_instant self.now }
    {
        matches!(
            self,
            Draft::Update(_) | Draft::Grant(_) | Draft::Map(_) | Draft::PhyReq
        )
    }
}

impl Outgoing {
    /// Whether it is LL_PHY_UPDATE_IND.
    pub fn is_phy_ind(&self) -> bool
        ensures { result ≡ is_phy_ind self.now }
    {
        matches!(self, Outgoing::Other(Draft::PhyInd))
    }

    /// Whether it is LL_CONNECTION_PARAM_REQ.
    pub fn is_request(&self) -> bool
        ensures { result ≡ is_request self.now }
    {
        matches!(self, Outgoing::Other(Draft::Request { .. }))
    }

    /// Whether there is one.
    pub fn is_some(&self) -> bool
        ensures { result ≡ is_out self.now }
    {
        !matches!(self, Outgoing::Nothing)
    }

    /// The PDU, as it is first sent in this event, if there is one.
    pub fn ctrl(&self, event: EventNo, latency: u16) -> Option<Ctrl>
        requires { event.0 < 2 ^ 32 }
        ensures value { result ≡ ctrl_of_outgoing self.now event.0 latency }
        ensures in_range { IfSome result IsInRange }
    {
        match self {
            Outgoing::Nothing => None,
            Outgoing::Rejection(rejection) => Some(Ctrl::RejectExtInd {
                opcode: rejection.opcode,
                code: rejection.code.0,
            }),
            Outgoing::Disconnect(code) => Some(Ctrl::TerminateInd { code: code.0 }),
            Outgoing::Other(draft) => Some(draft.ctrl(event, latency)),
        }
    }

    /// The indication that the central follows, if it is one, as it is first sent in this event.
    pub fn indication(&self, event: EventNo, latency: u16) -> Option<Indication>
        requires { event.0 < 2 ^ 32 }
        ensures value { result ≡ indication_of self.now event.0 latency }
        ensures interval { IfSome result HasInterval }
    {
        match self {
            Outgoing::Other(draft) => draft.indication(event, latency),
            _ => None,
        }
    }
}
