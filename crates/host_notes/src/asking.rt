//! What an accepted command asks of the links, and what is answered at once (Core 5.2, volume 4
//! part E, sections 7.1 and 7.8).
ghost use Rattle.std.specs.Prelude.{◌≡◌, ◌<◌, ◌≤◌, ◌^◌, ◌++◌, ◌%◌, ℕ, List, false, Ok, Err};
ghost use Rattle.std.specs.Prelude.{if◌then◌else◌};
ghost use Rattle.arrayvec.specs.ArrayVec.{array_vec_len};
ghost use Rattle.acl_banks.specs.declared.pieces.Piece.{Piece};
ghost use Rattle.ble_base.specs.ChannelMap.{IsMap};
ghost use Rattle.ble_base.specs.declared.roles.Role.{Role};
ghost use Rattle.hci_cmd.specs.declared.command.Command.TheVariants.{LeConnectionUpdate};
ghost use Rattle.controller_model.specs.link_commands.Commands.{AsksInRange, transmit_maximum};
ghost use Rattle.controller_model.specs.link_commands.Commands.{update_by};
ghost use Rattle.controller_model.specs.link_commands.declared.moments.Moment.{Moment};
ghost use Rattle.controller_model.specs.link_commands.LinksCommanded.{events_commanded_on, links_commanded};
ghost use Rattle.controller_model.specs.link_commands.LinksCommanded.{view_known_on};
ghost use Rattle.controller_model.specs.link_commands.Views.{kind_if, view_answered};
ghost use Rattle.open_links.specs.Hosts.{links_answered, links_asked, links_asked_map};
ghost use Rattle.open_links.specs.Knowing.{Knows as KnowsLinks};
ghost use Rattle.open_links.specs.OpenLinks.{Links};
ghost use Rattle.procedures.specs.procedure_values.Wants.{IsAsk};
ghost use Rattle.procedures.specs.procedure_values.declared.asks.Ask.TheVariants.{Update};
ghost use Rattle.controller_model.specs.Events.{notes_of_events};
ghost use Rattle.host_notes.specs.Asking.{events_known_if, is_known, is_known_if, is_of_keys, peer_at};

use crate::keys::{ask_encryption, give_key};
use crate::masks::tell_if;
use ble_base::{ChannelMap, ErrCode, Kind, Note, Outbox, Role, SlotNo};
use controller_model::Moment;
use hci_cmd::Command;
use host_view::HostView;
use open_links::{OpenLinks, PeerFacts};
use procedure_events::event_known;
use procedures::Ask;

/// Whether the features of a peer, or its version, are known.
fn is_known(peer: &PeerFacts, kind: Kind) -> bool
    ensures { result ≡ is_known kind peer.now }
{
    match kind {
        Kind::Features => peer.features.is_some(),
        Kind::Version => peer.version.is_some(),
        _ => false,
    }
}

/// Whether the end of the link that may be under a handle knows them.
fn knows<const L: usize, const T: usize, const R: usize>(
    links: &OpenLinks<L, T, R>,
    handle: u16,
    kind: Kind,
) -> bool
    ensures { (known : Links) (received : List (ℕ × Piece))
        → KnowsLinks links.now known received
        → result ≡ is_known_if kind (peer_at handle known) }
{
    match links.peer(handle) {
        None => false,
        Some(peer) => is_known(&peer, kind),
    }
}

/// Sends the host what the end of a link knows of its peer, if it does.
fn tell_known<const L: usize, const T: usize, const R: usize>(
    view: &HostView,
    links: &OpenLinks<L, T, R>,
    handle: u16,
    kind: Kind,
    out: &mut Outbox,
)
    requires room { array_vec_len out.old < 64 }
    ensures { (known : Links) (received : List (ℕ × Piece))
        → KnowsLinks links.now known received
        → out.new.items ≡ out.old.items
        ++ notes_of_events view.now (events_known_if handle kind (peer_at handle known)) }
{
    if let Some(peer) = links.peer(handle) {
        tell_if(view, &event_known(handle, &peer, kind), out);
    }
}

/// Sends the host the events that answer an accepted command at once: its end knows the features or
/// the version of the peer already (sections 7.1.23 and 7.8.21).
pub fn tell_at_once<const L: usize, const T: usize, const R: usize>(
    view: &HostView,
    links: &OpenLinks<L, T, R>,
    command: &Command,
    out: &mut Outbox,
)
    requires room { array_vec_len out.old < 64 }
    ensures { (known : Links) (received : List (ℕ × Piece))
        → KnowsLinks links.now known received
        → out.new.items ≡ out.old.items
        ++ notes_of_events view.now (events_commanded_on command.now known) }
{
    match command {
        Command::ReadRemoteVersion { handle } => {
            tell_known(view, links, *handle, Kind::Version, out);
        }
        Command::LeReadRemoteFeatures { handle } => {
            tell_known(view, links, *handle, Kind::Features, out);
        }
        _ => {}
    }
}

/// In the view of the host, what the end of a link knows already is done.
fn note_known<const L: usize, const T: usize, const R: usize>(
    view: &mut HostView,
    links: &OpenLinks<L, T, R>,
    handle: u16,
    kind: Kind,
)
    ensures { (known : Links) (received : List (ℕ × Piece))
        → KnowsLinks links.now known received → view.new
        ≡ view_answered handle (kind_if (is_known_if kind (peer_at handle known)) kind) view.old }
{
    if knows(links, handle, kind) {
        view.note(&Note::Done { handle, kind });
    }
}

/// In the view of the host, what is answered at once is done.
pub fn note_at_once<const L: usize, const T: usize, const R: usize>(
    view: &mut HostView,
    links: &OpenLinks<L, T, R>,
    command: &Command,
)
    ensures { (known : Links) (received : List (ℕ × Piece))
        → KnowsLinks links.now known received
        → view.new ≡ view_known_on view.old command.now known }
{
    match command {
        Command::ReadRemoteVersion { handle } => note_known(view, links, *handle, Kind::Version),
        Command::LeReadRemoteFeatures { handle } => {
            note_known(view, links, *handle, Kind::Features);
        }
        _ => {}
    }
}

/// The host asks for what the end of a link does not know of its peer.
fn ask_peer<const L: usize, const T: usize, const R: usize>(
    links: &mut OpenLinks<L, T, R>,
    handle: u16,
    kind: Kind,
    ask: Ask,
)
    requires { IsAsk ask }
    ensures knows { (known : Links) (received : List (ℕ × Piece))
        → KnowsLinks links.old known received → KnowsLinks links.new
        (if is_known_if kind (peer_at handle known) then known
        else links_asked handle ask known) received }
    ensures counts { (links.new.heard_to ≡ links.old.heard_to)
        × (links.new.unreported ≡ links.old.unreported) }
{
    if !knows(links, handle, kind) {
        links.ask(handle, ask);
    }
}

/// The transmit maximum that a host sets: its octets, or those for which its time is enough where
/// they are fewer. A packet of n octets takes 8 (n + 14) us (volume 6 part B, section 4.5.10).
fn transmit_maximum(octets: u16, time: u16) -> u16
    ensures { result ≡ transmit_maximum octets time }
{
    octets.min((time / 8).saturating_sub(14))
}

/// What the host of an end with this role asks for as it changes the parameters.
fn update_by(role: Role, min: u16, max: u16, latency: u16, timeout: u16) -> Ask
    ensures { result ≡ update_by role min max latency timeout }
{
    match role {
        Role::Central => Ask::Update {
            interval: max,
            latency,
            timeout,
        },
        Role::Peripheral => Ask::Request {
            min,
            max,
            latency,
            timeout,
        },
    }
}

/// The host changes the parameters of a link, if it is open.
fn ask_update<const L: usize, const T: usize, const R: usize>(
    links: &mut OpenLinks<L, T, R>,
    handle: u16,
    min: u16,
    max: u16,
    latency: u16,
    timeout: u16,
)
    requires { (role : Role) → IsAsk (update_by role min max latency timeout) }
    ensures knows { (known : Links) (received : List (ℕ × Piece)) (lengths : List ℕ)
        (moment : Moment) → KnowsLinks links.old known received → KnowsLinks links.new
        (links_commanded (LeConnectionUpdate handle min max latency timeout lengths) moment known)
        received }
    ensures counts { (links.new.heard_to ≡ links.old.heard_to)
        × (links.new.unreported ≡ links.old.unreported) }
{
    if let Some(setup) = links.setup(handle) {
        links.ask(handle, update_by(setup.role, min, max, latency, timeout));
    }
}

/// The host sets a channel map for all links of a central.
fn ask_map<const L: usize, const T: usize, const R: usize>(links: &mut OpenLinks<L, T, R>, map: u64)
    requires { IsMap map }
    ensures knows { (known : Links) (received : List (ℕ × Piece))
        → KnowsLinks links.old known received
        → KnowsLinks links.new (links_asked_map map known) received }
    ensures counts { (links.new.heard_to ≡ links.old.heard_to)
        × (links.new.unreported ≡ links.old.unreported) }
{
    if let Some(map) = ChannelMap::new(map) {
        links.ask_map(map);
    }
}

/// The host grants a request of the peer, with these parameters.
fn grant<const L: usize, const T: usize, const R: usize>(
    links: &mut OpenLinks<L, T, R>,
    handle: u16,
    interval: u16,
    latency: u16,
    timeout: u16,
)
    requires { IsAsk (Update interval latency timeout) }
    ensures knows { (known : Links) (received : List (ℕ × Piece))
        → KnowsLinks links.old known received → KnowsLinks links.new
        (links_answered handle (Ok (Update interval latency timeout)) known) received }
    ensures counts { (links.new.heard_to ≡ links.old.heard_to)
        × (links.new.unreported ≡ links.old.unreported) }
{
    let update = Ask::Update {
        interval,
        latency,
        timeout,
    };
    links.answer(handle, Ok(update));
}

/// The host refuses a request of the peer, for this reason: one octet.
#[tactic(auto, using(crate::proofs::AskedLinks::one_octet))]
fn refuse<const L: usize, const T: usize, const R: usize>(
    links: &mut OpenLinks<L, T, R>,
    handle: u16,
    reason: u8,
)
    ensures knows { (known : Links) (received : List (ℕ × Piece))
        → KnowsLinks links.old known received → KnowsLinks links.new
        (links_answered handle (Err (record { 0 = reason % 256 })) known) received }
    ensures counts { (links.new.heard_to ≡ links.old.heard_to)
        × (links.new.unreported ≡ links.old.unreported) }
{
    links.answer(handle, Err(ErrCode(reason)));
}

/// Asks of the links what an accepted command asks that is about no key.
fn ask_procedures<const L: usize, const T: usize, const R: usize>(
    links: &mut OpenLinks<L, T, R>,
    command: &Command,
    moment: Moment,
)
    requires slot { moment.slot ≤ 2 ^ 32 }
    requires in_range { AsksInRange command.now }
    requires of_none { is_of_keys command.now ≡ false }
    ensures knows { (known : Links) (received : List (ℕ × Piece))
        → KnowsLinks links.old known received
        → KnowsLinks links.new (links_commanded command.now moment known) received }
    ensures counts { (links.new.heard_to ≡ links.old.heard_to)
        × (links.new.unreported ≡ links.old.unreported) }
{
    let slot = SlotNo(moment.slot);
    match command {
        Command::Disconnect { handle, reason } => links.end(*handle, ErrCode(*reason), slot),
        Command::ReadRemoteVersion { handle } => {
            ask_peer(links, *handle, Kind::Version, Ask::Version);
        }
        Command::LeReadRemoteFeatures { handle } => {
            ask_peer(links, *handle, Kind::Features, Ask::Features);
        }
        Command::LeSetDataLength {
            handle,
            octets,
            time,
        } => {
            let tx = transmit_maximum(*octets, *time);
            links.ask(*handle, Ask::Length { tx });
        }
        Command::LeConnectionUpdate {
            handle,
            min,
            max,
            latency,
            timeout,
            ..
        } => ask_update(links, *handle, *min, *max, *latency, *timeout),
        Command::LeSetChannels { map } => ask_map(links, *map),
        Command::LeSetPhy { handle, .. } => links.ask(*handle, Ask::Phy),
        Command::LeParamReply {
            handle,
            max,
            latency,
            timeout,
            ..
        } => grant(links, *handle, *max, *latency, *timeout),
        Command::LeParamNegative { handle, reason } => refuse(links, *handle, *reason),
        _ => {}
    }
}

/// Asks of the links what a command asks that is accepted at this moment (sections 7.1 and 7.8).
pub fn ask_links<const L: usize, const T: usize, const R: usize>(
    links: &mut OpenLinks<L, T, R>,
    command: &Command,
    moment: Moment,
)
    requires slot { moment.slot ≤ 2 ^ 32 }
    requires in_range { AsksInRange command.now }
    ensures knows { (known : Links) (received : List (ℕ × Piece))
        → KnowsLinks links.old known received
        → KnowsLinks links.new (links_commanded command.now moment known) received }
    ensures counts { (links.new.heard_to ≡ links.old.heard_to)
        × (links.new.unreported ≡ links.old.unreported) }
{
    match command {
        Command::LeEnableEncryption {
            handle,
            rand,
            ediv,
            key,
        } => ask_encryption(links, *handle, *rand, *ediv, key, moment),
        Command::LeKeyReply { handle, key } => {
            give_key(links, *handle, key, SlotNo(moment.slot));
        }
        Command::LeKeyNegative { handle } => links.key(*handle, None, SlotNo(moment.slot)),
        _ => ask_procedures(links, command, moment),
    }
}
