//! The view of a host, which follows what its controller notes.
ghost use Rattle.std.specs.Prelude.{◌≡◌, drop, fold};
ghost use Rattle.host_view.specs.Noted.{view_noted};

use ble_base::{Note, Outbox};
use host_view::HostView;

/// The view takes these notes, one after another.
fn follow(view: &mut HostView, notes: &[Note])
    ensures { view.new ≡ fold view_noted view.old notes.now }
{
    for note in notes {
        view.note(note);
    }
}

/// The view takes the notes of an outbox from this place on.
pub fn follow_from(view: &mut HostView, out: &Outbox, place: usize)
    ensures { view.new ≡ fold view_noted view.old (drop place out.now.items) }
{
    let notes = out.as_slice();
    follow(view, &notes[place.min(notes.len())..]);
}
