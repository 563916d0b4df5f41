//! What a control PDU of the peer does, as the layer above sees it.
ghost use Rattle.std.specs.Prelude.{◌≡◌};
ghost use Rattle.procedure_stages.specs.Steps.{asks_host, closing_after, is_version_effect};

use crate::closing::Closing;
use ble_base::{ErrCode, Kind};
use data_pdu::Ctrl;
use instants::Indication;

/// What the layer above does with a control PDU that was taken.
#[derive(Clone, Copy, Debug, PartialEq, Eq)]
pub enum Effect {
    /// Nothing.
    Nothing,
    /// The indication of the central is to be followed from its Instant on.
    Indicated(Indication),
    /// The effective maximum payloads are now these, in octets: what is received and what is
    /// transmitted.
    Lengths {
        rx: u16,
        tx: u16,
    },
    /// The features of the peer: bit k is 1 where it has feature k.
    PeerFeatures(u64),
    /// The version of the peer's Link Layer, its company and the number of the implementation.
    PeerVersion {
        version: u8,
        company: u16,
        sub: u16,
    },
    /// The host answers a connection parameters request: intervals in 1.25 ms, latency in
    /// connection events, timeout in 10 ms. `ProcTable::host_answer` of `procedures` takes its
    /// answer.
    AskHost {
        min: u16,
        max: u16,
        latency: u16,
        timeout: u16,
    },
    /// The peer ends the link, for this reason.
    PeerEnds(ErrCode),
    /// A PDU of the encryption procedures, which the encryption phase goes on with.
    Cipher(Ctrl),
}

impl Effect {
    /// Whether the host is to answer.
    pub fn asks_host(&self) -> bool
        ensures { result ≡ asks_host self.now }
    {
        matches!(self, Effect::AskHost { .. })
    }

    /// Whether the link is to end, after a link with this state takes a PDU with this effect.
    pub fn closing_after(&self, closing: Closing) -> Closing
        ensures { result ≡ closing_after self.now closing }
    {
        match self {
            Effect::PeerEnds(_) => closing.closed(),
            _ => closing,
        }
    }

    /// Whether it is that the peer's version is known.
    pub fn is_version(&self) -> bool
        ensures { result ≡ is_version_effect self.now }
    {
        matches!(self, Effect::PeerVersion { .. })
    }
}

/// What a control PDU of the peer does.
#[derive(Clone, Copy, Debug, PartialEq, Eq)]
pub struct Step {
    /// What the layer above does.
    pub effect: Effect,
    /// The link ends at once, for this reason, and nothing is sent. The rest of the step is empty.
    pub ends: Option<ErrCode>,
    /// The procedure of this end that the PDU refuses, and why.
    pub refused: Option<(Kind, ErrCode)>,
    /// The procedure of this end that the PDU completes.
    pub done: Option<Kind>,
}
