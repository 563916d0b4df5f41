//! Links that are opened and shut, and connections that are not made: what is noted, and what the
//! host receives.
ghost use Rattle.std.specs.Prelude.{◌≡◌, ◌≤◌, ◌<◌, ◌+◌, ◌*◌, ◌++◌, length, map, flat_map};
ghost use Rattle.arrayvec.specs.ArrayVec.{array_vec_len};
ghost use Rattle.hci_cmd.specs.declared.command.Command.TheVariants.{LeCreateCancel};
ghost use Rattle.controller_model.specs.Commands.{events_caused};
ghost use Rattle.controller_model.specs.Events.{notes_of_events};
ghost use Rattle.controller_model.specs.Facts.{Facts};
ghost use Rattle.controller_model.specs.Links.{address_kind, connection_complete, connection_failed};
ghost use Rattle.controller_model.specs.Links.{note_opened, note_shut, notes_ended, notes_opened};
ghost use Rattle.controller_model.specs.Links.{role_code};

use crate::masks::{tell, wants_enhanced};
use ble_base::{Address, ErrCode, Note, Outbox, Role};
use hci_cmd::Command;
use hci_evt::Event;
use host_view::HostView;
use link_model::LinkSetup;
use open_links::LinkEnded;

/// The type of an address in an event: 1 for a random one.
pub(crate) fn address_kind(address: &Address) -> u8
    ensures { result ≡ address_kind address.now }
{
    u8::from(address.random)
}

/// Role in an event: 0 for the central.
fn role_code(role: Role) -> u8
    ensures { result ≡ role_code role }
{
    match role {
        Role::Central => 0,
        Role::Peripheral => 1,
    }
}

/// LE Connection Complete of a link that is opened, or LE Enhanced Connection Complete (Core 5.2,
/// volume 4 part E, sections 7.7.65.1 and 7.7.65.10).
fn connection_complete(enhanced: bool, link: &LinkSetup) -> Event
    ensures { result ≡ connection_complete enhanced link.now }
{
    let (handle, role) = (link.handle, role_code(link.role));
    let (peer_kind, peer) = (address_kind(&link.peer), link.peer.octets);
    let fields = link.fields;
    if enhanced {
        Event::EnhancedConnection {
            status: 0,
            handle,
            role,
            peer_kind,
            peer,
            local_private: [0; 6],
            peer_private: [0; 6],
            interval: fields.interval,
            latency: fields.latency,
            timeout: fields.timeout,
            accuracy: 0,
        }
    } else {
        Event::ConnectionComplete {
            status: 0,
            handle,
            role,
            peer_kind,
            peer,
            interval: fields.interval,
            latency: fields.latency,
            timeout: fields.timeout,
            accuracy: 0,
        }
    }
}

/// The same of a connection that was not made, with this status: all other fields are 0 (our
/// choice).
fn connection_failed(enhanced: bool, status: ErrCode) -> Event
    ensures { result ≡ connection_failed enhanced status.0 }
{
    if enhanced {
        Event::EnhancedConnection {
            status: status.0,
            handle: 0,
            role: 0,
            peer_kind: 0,
            peer: [0; 6],
            local_private: [0; 6],
            peer_private: [0; 6],
            interval: 0,
            latency: 0,
            timeout: 0,
            accuracy: 0,
        }
    } else {
        Event::ConnectionComplete {
            status: status.0,
            handle: 0,
            role: 0,
            peer_kind: 0,
            peer: [0; 6],
            interval: 0,
            latency: 0,
            timeout: 0,
            accuracy: 0,
        }
    }
}

/// The note of a link that is opened.
pub fn note_opened(link: &LinkSetup) -> Note
    ensures { result ≡ note_opened link.now }
{
    Note::Opened {
        handle: link.handle,
        role: link.role,
        own: link.own,
        peer: link.peer,
    }
}

/// Notes a link that is opened, and sends the host its events.
pub fn tell_opened(view: &HostView, link: &LinkSetup, out: &mut Outbox)
    requires { array_vec_len out.old ≤ 50 }
    ensures notes { out.new.items ≡ out.old.items ++ notes_opened view.now link.now }
    ensures few { array_vec_len out.new ≤ array_vec_len out.old + 3 }
{
    let selection = Event::ChannelSelection {
        handle: link.handle,
        algorithm: u8::from(link.two),
    };
    out.push(note_opened(link));
    let complete = connection_complete(wants_enhanced(view), link);
    tell(view, &complete, out);
    tell(view, &selection, out);
}

/// Notes that links are shut by a Reset.
pub fn note_shuts(handles: &[u16], out: &mut Outbox)
    requires { array_vec_len out.old + length handles.now ≤ 64 }
    ensures notes { out.new.items
        ≡ out.old.items ++ map (λ handle. note_shut handle 0) handles.now }
    ensures few { array_vec_len out.new ≤ array_vec_len out.old + length handles.now }
{
    let Some((handle, rest)) = handles.split_first() else {
        return;
    };
    out.push(Note::Shut {
        handle: *handle,
        reason: ErrCode::SUCCESS,
    });
    note_shuts(rest, out);
}

/// Notes that a link ended, and sends the host Disconnection Complete.
fn tell_ended(view: &HostView, ended: &LinkEnded, out: &mut Outbox)
    requires { array_vec_len out.old + 2 ≤ 64 }
    ensures notes { out.new.items ≡ out.old.items ++ notes_ended view.now ended.now }
    ensures few { array_vec_len out.new ≤ array_vec_len out.old + 2 }
{
    out.push(Note::Shut {
        handle: ended.handle,
        reason: ended.reason,
    });
    let event = Event::DisconnectionComplete {
        status: 0,
        handle: ended.handle,
        reason: ended.reason.0,
    };
    tell(view, &event, out);
}

/// Notes that these links ended, and sends the host Disconnection Complete of each.
pub fn tell_ends(view: &HostView, ended: &[LinkEnded], out: &mut Outbox)
    requires { array_vec_len out.old + 2 * length ended.now ≤ 64 }
    ensures notes { out.new.items ≡ out.old.items ++ flat_map (notes_ended view.now) ended.now }
    ensures few { array_vec_len out.new ≤ array_vec_len out.old + 2 * length ended.now }
{
    let Some((first, rest)) = ended.split_first() else {
        return;
    };
    tell_ended(view, first, out);
    tell_ends(view, rest, out);
}

/// Sends the host the event of a connection that was not made because the host cancelled it.
#[inline(never)]
fn tell_cancelled(view: &HostView, out: &mut Outbox)
    requires { array_vec_len out.old < 64 }
    ensures notes { (facts : Facts) → view.now ≡ facts.view → out.new.items
        ≡ out.old.items ++ notes_of_events facts.view (events_caused facts LeCreateCancel) }
    ensures few { array_vec_len out.new ≤ array_vec_len out.old + 1 }
{
    let status = ErrCode::UNKNOWN_CONNECTION_IDENTIFIER;
    tell(view, &connection_failed(wants_enhanced(view), status), out);
}

/// Sends the host the event that an accepted command causes after its answer: LE Create Connection
/// Cancel that of a connection that was not made.
pub fn tell_caused(view: &HostView, command: &Command, out: &mut Outbox)
    requires { array_vec_len out.old < 64 }
    ensures notes { (facts : Facts) → view.now ≡ facts.view → out.new.items
        ≡ out.old.items ++ notes_of_events facts.view (events_caused facts command.now) }
    ensures few { array_vec_len out.new ≤ array_vec_len out.old + 1 }
{
    match command {
        Command::LeCreateCancel => tell_cancelled(view, out),
        _ => {}
    }
}
