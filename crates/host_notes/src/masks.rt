//! The masks of events: what is sent to the host, and what is withheld.
ghost use Rattle.std.specs.Prelude.{◌≡◌, ◌<◌, ◌≤◌, ◌+◌, ◌++◌, ◌∷◌, []};
ghost use Rattle.std.specs.Option.{option_to_list};
ghost use Rattle.arrayvec.specs.ArrayVec.{array_vec_len};
ghost use Rattle.ble_base.specs.declared.notes.Note.TheVariants.{Up};
ghost use Rattle.hci_evt.specs.Event.{mask_bit_of, written};
ghost use Rattle.controller_model.specs.Links.{wants_enhanced};
ghost use Rattle.controller_model.specs.Events.{notes_of_events, passes};

use arrayvec::ArrayVec;
use ble_base::{Note, Outbox, has_bit};
use hci_evt::{Event, MaskBit, mask_bit, put_event};
use host_view::HostView;

/// The bit of the mask of events that lets LE events through (Core 5.2, volume 4 part E, section
/// 7.3.1).
const LE_META: u8 = 61;

/// Whether the masks of the host let an event through.
pub(crate) fn passes(view: &HostView, event: &Event) -> bool
    ensures { result ≡ passes view.now (mask_bit_of event.now) }
{
    match mask_bit(event) {
        MaskBit::Always => true,
        MaskBit::Main(bit) => has_bit(view.mask(), bit),
        MaskBit::Meta(bit) => has_bit(view.mask(), LE_META) && has_bit(view.le_mask(), bit),
    }
}

/// The bit of the mask of LE events that asks for LE Enhanced Connection Complete (section 7.8.1).
const ENHANCED: u8 = 9;

/// Whether the host is to receive LE Enhanced Connection Complete in place of LE Connection
/// Complete.
pub(crate) fn wants_enhanced(view: &HostView) -> bool
    ensures { result ≡ wants_enhanced view.now }
{
    has_bit(view.le_mask(), ENHANCED)
}

/// A note with an empty packet for the host.
fn empty_packet() -> Note
    ensures { result ≡ Up (record { items = [] }) }
{
    Note::Up(ArrayVec::new())
}

/// Writes the packet of an event into a note with an empty one, so that it is not copied.
fn put_note(note: &mut Note, event: &Event)
    requires { note.old ≡ Up (record { items = [] }) }
    ensures { note.new ≡ Up (record { items = written event.now }) }
{
    match note {
        Note::Up(packet) => put_event(packet, event),
        _ => unreachable!(),
    }
}

/// Sends the host an event, if its masks let it through.
pub fn tell(view: &HostView, event: &Event, out: &mut Outbox)
    requires room { array_vec_len out.old < 64 }
    ensures notes { out.new.items
        ≡ out.old.items ++ notes_of_events view.now (event.now ∷ []) }
    ensures few { array_vec_len out.new ≤ array_vec_len out.old + 1 }
{
    if passes(view, event) {
        let mut note = empty_packet();
        put_note(&mut note, event);
        out.push(note);
    }
}

/// Sends the host an event, if there is one and its masks let it through.
pub fn tell_if(view: &HostView, event: &Option<Event>, out: &mut Outbox)
    requires room { array_vec_len out.old < 64 }
    ensures notes { out.new.items
        ≡ out.old.items ++ notes_of_events view.now (option_to_list event.now) }
    ensures few { array_vec_len out.new ≤ array_vec_len out.old + 1 }
{
    match event {
        None => {}
        Some(event) => tell(view, event, out),
    }
}
