//! The event for one thing that a control procedure of a link did.
ghost use Rattle.std.specs.Prelude.{◌≡◌, ◌≤◌};
ghost use Rattle.procedure_stages.specs.procedure_values.Drafts.{time_of};
ghost use Rattle.link_model.specs.Receiving.{HasPayloadLengths};
ghost use Rattle.procedure_events.specs.Events.{encryption_event, event_of_cipher};
ghost use Rattle.procedure_events.specs.Events.{event_of_done, event_of_effect};
ghost use Rattle.procedure_events.specs.Events.{event_of_refusal, features_event, length_event};
ghost use Rattle.procedure_events.specs.Events.{phy_event, update_event, version_event};

use ble_base::{ErrCode, Kind};
use data_pdu::Ctrl;
use hci_evt::Event;
use instants::Params;
use link_model::{PeerFacts, PeerVersion};
use procedure_stages::Effect;

/// The one PHY of each link, LE 1M (section 7.7.65.12).
const LE_1M: u8 = 1;

/// The time of a payload of this number of octets, in microseconds.
fn time_of(octets: u16) -> u16
    requires { octets ≤ 251 }
    ensures { result ≡ time_of octets }
{
    8 * (octets + 14)
}

/// LE Connection Update Complete with this status, and the parameters of now.
pub(crate) fn update_event(handle: u16, status: ErrCode, params: &Params) -> Event
    ensures { result ≡ update_event handle status.0 params.now }
{
    Event::UpdateComplete {
        status: status.0,
        handle,
        interval: params.interval,
        latency: params.latency,
        timeout: params.timeout,
    }
}

/// LE Data Length Change, with the octets that are received and transmitted.
fn length_event(handle: u16, rx: u16, tx: u16) -> Event
    requires rx { rx ≤ 251 }
    requires tx { tx ≤ 251 }
    ensures { result ≡ length_event handle rx tx }
{
    Event::LengthChange {
        handle,
        tx_octets: tx,
        tx_time: time_of(tx),
        rx_octets: rx,
        rx_time: time_of(rx),
    }
}

/// Read Remote Version Information Complete, if the version of the peer is known.
pub(crate) fn version_event(handle: u16, peer: Option<PeerVersion>) -> Option<Event>
    ensures { result ≡ version_event handle peer }
{
    let PeerVersion {
        version,
        company,
        sub,
    } = peer?;
    Some(Event::RemoteVersion {
        status: 0,
        handle,
        version,
        company,
        sub,
    })
}

/// LE Read Remote Features Complete, if the features of the peer are known.
pub(crate) fn features_event(handle: u16, features: Option<u64>) -> Option<Event>
    ensures { result ≡ features_event handle features }
{
    Some(Event::RemoteFeatures {
        status: 0,
        handle,
        features: features?,
    })
}

/// LE PHY Update Complete with this status.
fn phy_event(handle: u16, status: ErrCode) -> Event
    ensures { result ≡ phy_event handle status.0 }
{
    Event::PhyComplete {
        status: status.0,
        handle,
        tx: LE_1M,
        rx: LE_1M,
    }
}

/// The event for a procedure of this end that is done, with what is known of the peer.
pub fn event_of_done(handle: u16, peer: &PeerFacts, kind: Kind) -> Option<Event>
    ensures { result ≡ event_of_done handle peer.now kind }
{
    match kind {
        Kind::Phy => Some(phy_event(handle, ErrCode::SUCCESS)),
        Kind::Features => features_event(handle, peer.features),
        Kind::Version => version_event(handle, peer.version),
        _ => None,
    }
}

/// The event for a procedure of this end that is refused with this code. `params` has the
/// parameters of now.
pub fn event_of_refusal(handle: u16, params: &Params, kind: Kind, code: ErrCode) -> Option<Event>
    ensures { result ≡ event_of_refusal handle params.now kind code }
{
    let status = code.0;
    match kind {
        Kind::Request => Some(update_event(handle, code, params)),
        Kind::Phy => Some(phy_event(handle, code)),
        Kind::Features => Some(Event::RemoteFeatures {
            status,
            handle,
            features: 0,
        }),
        Kind::Version => Some(Event::RemoteVersion {
            status,
            handle,
            version: 0,
            company: 0,
            sub: 0,
        }),
        Kind::Encrypt => Some(Event::EncryptionChange {
            status,
            handle,
            enabled: 0,
        }),
        _ => None,
    }
}

/// Encryption Change, or Encryption Key Refresh Complete where this end was in phase Secure before.
fn encryption_event(handle: u16, was_encrypted: bool) -> Event
    ensures { result ≡ encryption_event handle was_encrypted }
{
    if was_encrypted {
        Event::KeyRefresh { status: 0, handle }
    } else {
        Event::EncryptionChange {
            status: 0,
            handle,
            enabled: 1,
        }
    }
}

/// The event for a PDU with which the encryption of the link goes on.
fn event_of_cipher(handle: u16, was_encrypted: bool, ctrl: &Ctrl) -> Option<Event>
    ensures { result ≡ event_of_cipher handle was_encrypted ctrl.now }
{
    match *ctrl {
        Ctrl::EncReq { rand, ediv, .. } => Some(Event::KeyRequest { handle, rand, ediv }),
        Ctrl::StartEncRsp => Some(encryption_event(handle, was_encrypted)),
        _ => None,
    }
}

/// The event for the effect of a control PDU of the peer, whose lengths are at most 251 octets, on a
/// link where this end was in phase Secure before, or was not.
pub fn event_of_effect(handle: u16, was_encrypted: bool, effect: &Effect) -> Option<Event>
    requires { HasPayloadLengths effect.now }
    ensures { result ≡ event_of_effect handle was_encrypted effect.now }
{
    match *effect {
        Effect::Lengths { rx, tx } => Some(length_event(handle, rx, tx)),
        Effect::AskHost {
            min,
            max,
            latency,
            timeout,
        } => Some(Event::ParamRequest {
            handle,
            min,
            max,
            latency,
            timeout,
        }),
        Effect::Cipher(ctrl) => event_of_cipher(handle, was_encrypted, &ctrl),
        _ => None,
    }
}
