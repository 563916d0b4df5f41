//! Packets that links receive, and what the host receives of what their procedures did (Core 5.2,
//! volume 6 part B, section 5.1, and volume 4 part E, section 7.7).
ghost use Rattle.std.specs.Prelude.{◌≡◌, ◌≤◌, ◌<◌, ◌+◌, ◌^◌, ◌++◌, ℕ, Bool, IfSome, List, [], length};
ghost use Rattle.std.specs.Prelude.{None, Some, nat_lt, true, if◌then◌else◌};
ghost use Rattle.std.specs.Option.{option_map};
ghost use Rattle.arrayvec.specs.ArrayVec.{array_vec_len};
ghost use Rattle.acl_banks.specs.declared.pieces.Piece.{Piece};
ghost use Rattle.hci_evt.specs.Event.{mask_bit_of};
ghost use Rattle.host_view.specs.Links.{was_encrypted};
ghost use Rattle.instants.specs.declared.indications.Params.{Params};
ghost use Rattle.link_model.specs.declared.state.PeerFacts.{PeerFacts};
ghost use Rattle.link_model.specs.Receiving.{HasPayloadLengths};
ghost use Rattle.link_model.specs.Step.{PacketReceived};
ghost use Rattle.open_links.specs.Knowing.{Knows as KnowsLinks};
ghost use Rattle.open_links.specs.OpenLinks.{Links, link_after, link_at, with_change};
ghost use Rattle.procedure_events.specs.Calls.{events_in, events_in_kept};
ghost use Rattle.controller_model.specs.Entering.{HasEntered};
ghost use Rattle.controller_model.specs.Events.{notes_of_events, passes};
ghost use Rattle.controller_model.specs.Heard.{draws_in, events_received, refusal_in, refusal_of};
ghost use Rattle.controller_model.specs.Heard.{links_refusing, notes_taken, piece_taken, replies_in};
ghost use Rattle.host_notes.specs.Hearing.{events_told, refusal_step, refusal_told};

use crate::masks::{passes, tell_if};
use ble_base::{ErrCode, Outbox, SlotNo};
use data_pdu::Ctrl;
use hci_evt::Event;
use host_view::HostView;
use instants::Params;
use open_links::{LinkStep, OpenLinks, PeerFacts};
use procedure_events::{KeptEvents, ReceptionEvents, events_of_kept, events_of_reception};
use procedures::Effect;

/// Whether a packet brought nothing that the host hears of, as most do.
fn is_quiet(step: &LinkStep) -> bool
    ensures { result ≡ true → (before : Bool) (handle : ℕ) (params : Params) (peer : PeerFacts)
        → events_told before handle (Some params) (Some peer) (Some step.now) ≡ [] }
{
    matches!(
        step,
        LinkStep {
            acked: None,
            effect: Effect::Nothing,
            refused: None,
            done: None,
            kept_effect: Effect::Nothing,
            kept_done: None,
            ..
        }
    )
}

/// Sends the host the events for a packet that brought something. Few packets do, so this is kept
/// out of the code of all.
#[inline(never)]
fn tell_step(
    view: &HostView,
    handle: u16,
    params: &Params,
    peer: &PeerFacts,
    step: &LinkStep,
    out: &mut Outbox,
)
    requires payloads { HasPayloadLengths step.now.effect }
    requires kept_payloads { HasPayloadLengths step.now.kept_effect }
    requires room { array_vec_len out.old ≤ 58 }
    ensures notes { out.new.items ≡ out.old.items ++ notes_of_events view.now
        (events_told (was_encrypted handle view.now.links) handle (Some params.now)
        (Some peer.now) (Some step.now)) }
    ensures few { array_vec_len out.new ≤ array_vec_len out.old + 6 }
{
    let before = view.was_encrypted(handle);
    let (effect, refused, done) = (&step.effect, step.refused, step.done);
    let acked = step.acked;
    let events = events_of_reception(handle, before, params, peer, acked, effect, refused, done);
    tell_events(view, &events, out);
    let kept = events_of_kept(handle, before, peer, &step.kept_effect, step.kept_done);
    tell_kept(view, &kept, out);
}

/// Sends the host the events for a packet that the link under a handle received, with the
/// parameters of the link before it, and what is known of the peer after it.
fn tell_received(
    view: &HostView,
    handle: u16,
    params: &Option<Params>,
    peer: &Option<PeerFacts>,
    step: &Option<LinkStep>,
    out: &mut Outbox,
)
    requires payloads { IfSome step.now (λ step. HasPayloadLengths step.effect) }
    requires kept_payloads { IfSome step.now (λ step. HasPayloadLengths step.kept_effect) }
    requires room { array_vec_len out.old ≤ 58 }
    ensures notes { out.new.items ≡ out.old.items ++ notes_of_events view.now
        (events_told (was_encrypted handle view.now.links) handle params.now peer.now step.now) }
    ensures few { array_vec_len out.new ≤ array_vec_len out.old + 6 }
{
    let (Some(params), Some(peer), Some(step)) = (params, peer, step) else {
        return;
    };
    if !is_quiet(step) {
        tell_step(view, handle, params, peer, step, out);
    }
}

/// Sends the host the events for a packet that was received.
fn tell_events(view: &HostView, events: &ReceptionEvents, out: &mut Outbox)
    requires room { array_vec_len out.old ≤ 60 }
    ensures notes { out.new.items
        ≡ out.old.items ++ notes_of_events view.now (events_in events.now) }
    ensures few { array_vec_len out.new ≤ array_vec_len out.old + 4 }
{
    tell_if(view, &events.acked, out);
    tell_if(view, &events.effect, out);
    tell_if(view, &events.refused, out);
    tell_if(view, &events.done, out);
}

/// Sends the host the events for a PDU that was kept.
fn tell_kept(view: &HostView, events: &KeptEvents, out: &mut Outbox)
    requires room { array_vec_len out.old ≤ 62 }
    ensures notes { out.new.items
        ≡ out.old.items ++ notes_of_events view.now (events_in_kept events.now) }
    ensures few { array_vec_len out.new ≤ array_vec_len out.old + 2 }
{
    tell_if(view, &events.effect, out);
    tell_if(view, &events.done, out);
}

/// How a request of the peer is answered that the masks withhold from the host.
#[derive(Clone, Copy, Debug, PartialEq, Eq)]
pub(crate) enum Refusal {
    /// One for connection parameters is refused.
    Request,
    /// One for a key is answered as by a host that has none.
    Key,
}

/// This answer, unless the masks let the event through.
fn answer_unless(view: &HostView, event: &Event, refusal: Refusal) -> Option<Refusal>
    ensures { result ≡ (if passes view.now (mask_bit_of event.now) then None else Some refusal) }
{
    if passes(view, event) {
        None
    } else {
        Some(refusal)
    }
}

/// How a request is answered that an effect is, if the masks withhold it from the host.
fn refusal_of(view: &HostView, handle: u16, effect: &Effect) -> Option<Refusal>
    ensures { (slot : ℕ) → option_map (refusal_step slot) result
        ≡ refusal_of view.now handle slot effect.now }
{
    match *effect {
        Effect::AskHost {
            min,
            max,
            latency,
            timeout,
        } => {
            let request = Event::ParamRequest {
                handle,
                min,
                max,
                latency,
                timeout,
            };
            answer_unless(view, &request, Refusal::Request)
        }
        Effect::Cipher(Ctrl::EncReq { rand, ediv, .. }) => {
            let request = Event::KeyRequest { handle, rand, ediv };
            answer_unless(view, &request, Refusal::Key)
        }
        _ => None,
    }
}

/// The same for what a packet did: for its PDU, or else for one that was kept until then.
fn refusal_told(view: &HostView, handle: u16, step: &LinkStep) -> Option<Refusal>
    ensures { (slot : ℕ) → option_map (refusal_step slot) result
        ≡ refusal_told view.now handle slot (Some step.now) }
{
    match refusal_of(view, handle, &step.effect) {
        Some(refusal) => Some(refusal),
        None => refusal_of(view, handle, &step.kept_effect),
    }
}

/// A request of the peer on the link under a handle is answered at once, or is not (sections 5.1.3.1
/// and 5.1.7).
fn refuse_if<const L: usize, const T: usize, const R: usize>(
    refusal: Option<Refusal>,
    links: &mut OpenLinks<L, T, R>,
    handle: u16,
    slot: SlotNo,
)
    requires { slot.0 ≤ 2 ^ 32 }
    ensures knows { (known : Links) (received : List (ℕ × Piece))
        → KnowsLinks links.old known received
        → KnowsLinks links.new
        (links_refusing (option_map (refusal_step slot.0) refusal) handle known) received }
    ensures counts { (links.new.heard_to ≡ links.old.heard_to)
        × (links.new.unreported ≡ links.old.unreported) }
{
    match refusal {
        None => {}
        Some(Refusal::Request) => {
            links.answer(handle, Err(ErrCode::UNSUPPORTED_REMOTE_FEATURE));
        }
        Some(Refusal::Key) => links.key(handle, None, slot),
    }
}

/// What comes of octets that a link took.
#[derive(Clone, Copy, Debug, PartialEq, Eq)]
pub struct Heard {
    /// It answers them in the next phase.
    pub replies: bool,
    /// A peripheral answers LL_ENC_REQ: the words that it was given are drawn.
    pub draws: bool,
}

/// The link under a handle takes octets in this slot, and the host hears of what its procedures
/// did. A request that the masks withhold from the host is answered at once. It says whether the
/// link answers the octets, and whether it draws words.
pub fn hear_on_link<const L: usize, const T: usize, const R: usize>(
    view: &HostView,
    links: &mut OpenLinks<L, T, R>,
    handle: u16,
    octets: &[u8],
    slot: SlotNo,
    out: &mut Outbox,
) -> Heard
    requires slot { slot.0 < 2 ^ 32 }
    requires once { links.old.heard_to ≤ slot.0 }
    requires counts { links.old.unreported < 65535 }
    requires room { array_vec_len out.old ≤ 53 }
    ensures knows { (known : Links) (received : List (ℕ × Piece))
        → KnowsLinks links.old known received → HasEntered (link_at handle known)
        → KnowsLinks links.new
        (links_refusing (refusal_in view.now handle slot.0 (nat_lt (length received) R)
        (link_at handle known) octets.now) handle
        (with_change handle
        (link_after (PacketReceived slot.0 octets.now (nat_lt (length received) R))) known))
        (received
        ++ piece_taken slot.0 (nat_lt (length received) R) (link_at handle known) octets.now) }
    ensures notes { (known : Links) (received : List (ℕ × Piece))
        → KnowsLinks links.old known received → HasEntered (link_at handle known)
        → out.new.items ≡ out.old.items
        ++ notes_taken slot.0 (nat_lt (length received) R) (link_at handle known) octets.now
        ++ notes_of_events view.now
        (events_received (was_encrypted handle view.now.links) handle slot.0
        (nat_lt (length received) R) (link_at handle known) octets.now) }
    ensures reply { (known : Links) (received : List (ℕ × Piece))
        → KnowsLinks links.old known received → HasEntered (link_at handle known)
        → result.replies
        ≡ replies_in slot.0 (nat_lt (length received) R) (link_at handle known) octets.now }
    ensures draws { (known : Links) (received : List (ℕ × Piece))
        → KnowsLinks links.old known received → HasEntered (link_at handle known)
        → result.draws
        ≡ draws_in slot.0 (nat_lt (length received) R) (link_at handle known) octets.now }
    ensures few { array_vec_len out.new ≤ array_vec_len out.old + 11 }
    ensures counts { (links.new.heard_to ≡ slot.0 + 1)
        × (links.new.unreported ≡ links.old.unreported + 1) }
{
    let params = links.params(handle);
    let step = links.heard(handle, octets, slot, out);
    tell_received(view, handle, &params, &links.peer(handle), &step, out);
    let Some(step) = &step else {
        return Heard {
            replies: false,
            draws: false,
        };
    };
    refuse_if(refusal_told(view, handle, step), links, handle, slot);
    Heard {
        replies: step.reply,
        draws: step.draws,
    }
}
