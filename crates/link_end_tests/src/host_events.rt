//! The events that a host gets for what control procedures did, as the octets of their packets.
ghost use Rattle.link_model.specs.Receiving.{HasPayloadLengths};

use ble_base::{ChannelMap, ErrCode, Kind};
use data_pdu::Ctrl;
use hci_evt::{Event, write};
use instants::Params;
use link_model::{PeerFacts, PeerVersion};
use link_scripts::code_of;
use procedure_events::{
    KeptEvents, ReceptionEvents, event_known, event_of_done, event_of_effect, event_of_entry,
    event_of_refusal, events_of_kept, events_of_reception,
};
use procedures::Effect;
use std::alloc::AllocError;
use test_words::{Call, TakesCalls, first_wrong, put_octets};

/// The link has handle 0. The peer has features 402F and version 0B FFFF 0001.
const EVENTS: &str = "\
# A procedure is done.
event done phy = 043e060c0000000101
event done version = 040c080000000bffff0100
event done features = 043e0c040000002f40000000000000
event done map = none
# A procedure is refused. A request leaves the parameters as they are: 30 ms, no latency, 720 ms.
event refused request 2a = 043e0a032a0000180000004800
event refused phy 23 = 043e060c2300000101
event refused encrypt 06 = 04080406000000
event refused version 1a = 040c081a00000000000000
event refused features 1a = 043e0c041a00000000000000000000
event refused map 2a = none
# An update to a timeout of 1 s holds.
event entry updated = 043e0a03000000180000006400
event entry same = none
# 27 octets are received and 251 transmitted, and the other way round.
event effect long_tx = 043e0b070000fb0048081b004801
event effect long_rx = 043e0b0700001b004801fb004808
# The peer requests 40 ms, no latency and 720 ms.
event effect request = 043e0b0600002000200000004800
event effect nothing = none
# A peripheral takes the LL_ENC_REQ of the sample data of Core 5.2, volume 6 part C, section 1.
# Encryption starts, for the first time and then anew; a pause makes no event.
event effect key = 043e0d0500009078563412efcdab7424
event effect start = 04080400000001
event effect start again = 043003000000
event effect pause = none
# The host asks for what is known already.
event known version = 040c080000000bffff0100
event known features = 043e0c040000002f40000000000000
event known phy = none
# Each part of a reception makes an event, or none does.
event reception full = 043e060c0000000101 043e0b070000fb0048081b004801 04080406000000 \
    040c080000000bffff0100
event reception empty = none none none none
# A PDU was kept until encryption started: a request of the peer, or its version.
event kept request = 043e0b0600002000200000004800 none
event kept version = none 040c080000000bffff0100
";

/// The events, with no link.
#[derive(Clone, Copy)]
struct Events;

impl TakesCalls for Events {
    fn take(&mut self, side: &str, call: Call<'_>, told: &mut String) -> Result<(), AllocError> {
        match side {
            "#" => Ok(()),
            _ => put_events_of(call, told),
        }
    }
}

/// Writes the octets of the events for what a procedure did.
fn put_events_of(call: Call<'_>, told: &mut String) -> Result<(), AllocError> {
    let (first, second) = (call.words[0], call.words[1]);
    match call.name {
        "done" => put_event(told, &event_of_done(0, &peer(), kind_named(first))),
        "refused" => put_refusal(told, call.words),
        "entry" => put_event(told, &event_of_entry(0, first == "updated", &params(100))),
        "effect" => put_event(
            told,
            &event_of_effect(0, second == "again", &effect_named(first)),
        ),
        "kept" => put_kept(told, &kept(first)),
        "known" => put_event(told, &event_known(0, &peer(), kind_named(first))),
        "reception" => put_events(told, &reception(first == "full")),
        _ => told.push_str(" which call?"),
    }
}

/// Parameters with an interval of 30 ms and this timeout, in 10 ms.
fn params(timeout: u16) -> Params {
    Params {
        interval: 24,
        latency: 0,
        timeout,
        map: ChannelMap::default(),
    }
}

/// What is known of the peer.
fn peer() -> PeerFacts {
    PeerFacts {
        features: Some(0x402F),
        version: Some(PeerVersion {
            version: 0x0B,
            company: 0xFFFF,
            sub: 1,
        }),
    }
}

fn kind_named(name: &str) -> Kind {
    match name {
        "phy" => Kind::Phy,
        "version" => Kind::Version,
        "features" => Kind::Features,
        "request" => Kind::Request,
        "encrypt" => Kind::Encrypt,
        _ => Kind::Map,
    }
}

fn effect_named(name: &str) -> Effect
    ensures { HasPayloadLengths result }
{
    match name {
        "long_tx" => Effect::Lengths { rx: 27, tx: 251 },
        "long_rx" => Effect::Lengths { rx: 251, tx: 27 },
        "request" => Effect::AskHost {
            min: 32,
            max: 32,
            latency: 0,
            timeout: 72,
        },
        "key" => Effect::Cipher(Ctrl::EncReq {
            rand: 0xABCD_EF12_3456_7890,
            ediv: 0x2474,
            skd_m: 0xACBD_CEDF_E0F1_0213,
            iv_m: 0xBADC_AB24,
        }),
        "start" => Effect::Cipher(Ctrl::StartEncRsp),
        "pause" => Effect::Cipher(Ctrl::PauseEncReq),
        _ => Effect::Nothing,
    }
}

/// A reception that completes two procedures, has new lengths and refuses an encryption, or one
/// that does nothing.
fn reception(is_full: bool) -> ReceptionEvents {
    let (params, peer) = (params(72), peer());
    if !is_full {
        return events_of_reception(0, false, &params, &peer, None, &Effect::Nothing, None, None);
    }
    let effect = effect_named("long_tx");
    let refused = Some((Kind::Encrypt, ErrCode::PIN_OR_KEY_MISSING));
    let (acked, done) = (Some(Kind::Phy), Some(Kind::Version));
    events_of_reception(0, false, &params, &peer, acked, &effect, refused, done)
}

/// What a kept PDU does: it has this effect, or completes a procedure of this kind.
fn kept(name: &str) -> KeptEvents {
    match name {
        "request" => events_of_kept(0, true, &peer(), &effect_named(name), None),
        _ => events_of_kept(0, true, &peer(), &Effect::Nothing, Some(kind_named(name))),
    }
}

/// Writes the event for a procedure that is refused with a code.
fn put_refusal(told: &mut String, [kind, code, ..]: [&str; 8]) -> Result<(), AllocError> {
    let code = code_of(told, code);
    let event = event_of_refusal(0, &params(72), kind_named(kind), code);
    put_event(told, &event)
}

/// Writes the octets of an event, if there is one.
fn put_event(told: &mut String, event: &Option<Event>) -> Result<(), AllocError> {
    match event {
        None => told.push_str(" none"),
        Some(event) => put_octets(told, write(event).as_slice()),
    }
}

/// Writes the octets of the events for a reception, in order.
fn put_events(told: &mut String, events: &ReceptionEvents) -> Result<(), AllocError> {
    put_event(told, &events.acked)?;
    put_event(told, &events.effect)?;
    put_event(told, &events.refused)?;
    put_event(told, &events.done)
}

/// Writes the octets of the events for a kept PDU, in order.
fn put_kept(told: &mut String, events: &KeptEvents) -> Result<(), AllocError> {
    put_event(told, &events.effect)?;
    put_event(told, &events.done)
}

#[test]
fn events_for_a_host(rt: HostRuntime) -> Result<(), AllocError> {
    let wrong = first_wrong(&mut Events, rt.alloc(), EVENTS)?;
    assert_eq!(rt; wrong.as_str(), "");
    Ok(())
}
