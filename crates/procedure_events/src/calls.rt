//! The events for what the control procedures of a link did in one call.
ghost use Rattle.std.specs.Prelude.{◌≡◌};
ghost use Rattle.std.specs.Option.{option_to_list};
ghost use Rattle.link_model.specs.Receiving.{HasPayloadLengths};
ghost use Rattle.procedure_events.specs.Calls.{event_if_done, event_if_refused, events_in};
ghost use Rattle.procedure_events.specs.Calls.{events_in_kept, events_known, events_of_entry};
ghost use Rattle.procedure_events.specs.Calls.{events_of_kept, events_of_reception};

use crate::kinds::{
    event_of_done, event_of_effect, event_of_refusal, features_event, update_event, version_event,
};
use ble_base::{ErrCode, Kind};
use hci_evt::Event;
use instants::Params;
use link_model::PeerFacts;
use procedure_stages::Effect;

/// The events for a packet that is received, in this order.
#[derive(Debug, Drop)]
pub struct ReceptionEvents {
    /// For the procedure that its acknowledgement completes.
    pub acked: Option<Event>,
    /// For the effect of its PDU.
    pub effect: Option<Event>,
    /// For the procedure that the PDU refuses.
    pub refused: Option<Event>,
    /// For the procedure that the PDU completes.
    pub done: Option<Event>,
}

/// The events for a PDU that was kept until another was taken, in this order.
#[derive(Debug, Drop)]
pub struct KeptEvents {
    /// For its effect.
    pub effect: Option<Event>,
    /// For the procedure that it completes.
    pub done: Option<Event>,
}

/// The event for a connection event that is entered: LE Connection Update Complete where `updated`,
/// that is, where an update holds from this connection event on. `params` has the parameters in it.
pub fn event_of_entry(handle: u16, updated: bool, params: &Params) -> Option<Event>
    ensures { option_to_list result ≡ events_of_entry handle updated params.now }
{
    if updated {
        Some(update_event(handle, ErrCode::SUCCESS, params))
    } else {
        None
    }
}

/// The event for a procedure of this end that is done, if one is.
fn event_if_done(handle: u16, peer: &PeerFacts, done: Option<Kind>) -> Option<Event>
    ensures { result ≡ event_if_done handle peer.now done }
{
    event_of_done(handle, peer, done?)
}

/// The event for a procedure of this end that is refused, if one is.
fn event_if_refused(handle: u16, params: &Params, refused: Option<(Kind, ErrCode)>) -> Option<Event>
    ensures { result ≡ event_if_refused handle params.now refused }
{
    let (kind, code) = refused?;
    event_of_refusal(handle, params, kind, code)
}

/// The events for a packet that is received: for the procedure `acked` that its acknowledgement
/// completes, and for what its PDU does. `was_encrypted` says whether this end was in phase Secure
/// before on this link, `params` has the parameters of now, and `peer` what is known of the peer
/// after the PDU. Lengths in the effect are at most 251 octets.
pub fn events_of_reception(
    handle: u16,
    was_encrypted: bool,
    params: &Params,
    peer: &PeerFacts,
    acked: Option<Kind>,
    effect: &Effect,
    refused: Option<(Kind, ErrCode)>,
    done: Option<Kind>,
) -> ReceptionEvents
    requires { HasPayloadLengths effect.now }
    ensures { events_in result
        ≡ events_of_reception handle was_encrypted params.now peer.now acked effect.now refused
        done }
{
    ReceptionEvents {
        acked: event_if_done(handle, peer, acked),
        effect: event_of_effect(handle, was_encrypted, effect),
        refused: event_if_refused(handle, params, refused),
        done: event_if_done(handle, peer, done),
    }
}

/// The events for what a PDU did that was kept until then, as for a packet that is received.
pub fn events_of_kept(
    handle: u16,
    was_encrypted: bool,
    peer: &PeerFacts,
    effect: &Effect,
    done: Option<Kind>,
) -> KeptEvents
    requires { HasPayloadLengths effect.now }
    ensures { events_in_kept result
        ≡ events_of_kept handle was_encrypted peer.now effect.now done }
{
    KeptEvents {
        effect: event_of_effect(handle, was_encrypted, effect),
        done: event_if_done(handle, peer, done),
    }
}

/// The event that answers at once a host that asks for the features or the version of the peer, if
/// these are known.
pub fn event_known(handle: u16, peer: &PeerFacts, kind: Kind) -> Option<Event>
    ensures { option_to_list result ≡ events_known handle peer.now kind }
{
    match kind {
        Kind::Features => features_event(handle, peer.features),
        Kind::Version => version_event(handle, peer.version),
        _ => None,
    }
}
