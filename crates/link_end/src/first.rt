//! What a new end of a link holds.
ghost use Rattle.std.specs.Prelude.{◌≡◌, ◌+◌, ◌<◌, ◌≤◌, ◌^◌};
ghost use Rattle.adv_pdu.specs.Ranges.{IsInRange};
ghost use Rattle.link_model.specs.Events.{no_event};
ghost use Rattle.link_model.specs.Setup.{algorithm_of, first_params};
ghost use Rattle.link_model.specs.Facts.{no_lengths, no_peer, no_response, stays};

use ble_base::{ChannelMap, SlotNo};
use chan_select::Selector;
use instants::Params;
use keyed_control::Response;
use link_model::{ConnectionEvent, KnownLengths, Leaving, LinkSetup, PeerFacts};

/// The slots from a CONNECT_IND to the earliest anchor of event 0 (our choice).
const FIRST_ANCHOR: u64 = 2;

/// The most octets of a payload before the ends agree on more (Core 5.2, volume 6 part B, section
/// 4.5.10).
const FIRST_OCTETS: u16 = 27;

/// The first parameters of a link.
pub(crate) fn first_params(setup: &LinkSetup) -> Params
    requires { IsInRange setup.now.fields }
    ensures value { result ≡ first_params setup.now.fields }
    ensures latency { result.latency ≤ 499 }
{
    let Some(map) = ChannelMap::new(setup.fields.map) else {
        unreachable!()
    };
    Params {
        interval: setup.fields.interval,
        latency: setup.fields.latency,
        timeout: setup.fields.timeout,
        map,
    }
}

/// The slot of the anchor of event 0, of a link that was opened in this slot.
pub(crate) fn first_anchor(win_offset: u16, slot: u64) -> SlotNo
    requires { slot < 2 ^ 32 }
    ensures value { result.0 ≡ slot + 2 + win_offset }
    ensures bound { result.0 < 2 ^ 33 }
{
    SlotNo(slot + FIRST_ANCHOR + u64::from(win_offset))
}

/// How the channels of the link are selected.
pub(crate) fn selector(setup: &LinkSetup) -> Selector
    requires { IsInRange setup.now.fields }
    ensures { result ≡ algorithm_of setup.now }
{
    if setup.two {
        Selector::two(setup.fields.access)
    } else {
        Selector::one(setup.fields.hop)
    }
}

/// No event was entered.
pub(crate) fn no_event() -> ConnectionEvent
    ensures { result ≡ no_event }
{
    ConnectionEvent {
        number: 0,
        slot: 0,
        channel: 0,
        latency: 0,
        heard: false,
        more: false,
    }
}

/// Nothing is known of the peer.
pub(crate) fn no_peer() -> PeerFacts
    ensures { result ≡ no_peer }
{
    PeerFacts {
        features: None,
        version: None,
    }
}

/// No length is over 27 octets.
pub(crate) fn no_lengths() -> KnownLengths
    ensures { result ≡ no_lengths }
{
    KnownLengths {
        long: false,
        changed: false,
        reported_rx: FIRST_OCTETS,
        reported_tx: FIRST_OCTETS,
    }
}

/// The link is not to end.
pub(crate) fn stays() -> Leaving
    ensures { result ≡ stays }
{
    Leaving {
        disconnected: None,
        acknowledged: false,
        ended_by_peer: None,
        answered: false,
    }
}

/// Nothing is drawn yet.
pub(crate) fn no_response() -> Response
    ensures { result ≡ no_response }
{
    Response { skd_s: 0, iv_s: 0 }
}
