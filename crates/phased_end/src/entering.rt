//! What an end does as an event is entered: an encryption that its host wants may begin.
ghost use Rattle.std.specs.Prelude.{◌≡◌, ◌<◌, ◌≤◌, ◌^◌, IsTrue, position};
ghost use Rattle.instants.specs.Track.{next_anchor_of};
ghost use Rattle.procedures.specs.Beginning.{ask_at};
ghost use Rattle.procedures.specs.procedure_stages.Queue.{waiting_in};
ghost use Rattle.control_part.specs.control_end.Answers.{entry_of};
ghost use Rattle.keyed_control.specs.KeyedSteps.{KeyedStep};
ghost use Rattle.keyed_control.specs.phased_control.Phased.{is_encrypt};
ghost use Rattle.phased_end.specs.Answers.{quiet_now};
ghost use Rattle.phased_end.specs.Held.{held_after};
ghost use Rattle.data_pdu.specs.declared.ctrl.Ctrl.{Ctrl};
ghost use Rattle.enc_phase.specs.declared.facts.Transition.{Transition};
ghost use Rattle.phased_end.specs.Moves.{is_encryption, lasts, moving, owing, with_encryption};
ghost use Rattle.phased_end.specs.Moves.{with_request_again};
ghost use Rattle.phased_end.specs.Reached.{IsReached};

use crate::changes::{ask, pause};
use crate::end::PhasedEnd;
use crate::material::{add_asked, request_of};
use ble_base::{Kind, SlotNo};
use control_part::Entry;
use data_pdu::Ctrl;
use enc_phase::PhaseFacts;
use procedures::Ask;

/// Whether an encryption began.
fn is_encrypt(began: Option<Kind>) -> bool
    ensures { result ≡ is_encrypt began }
{
    matches!(began, Some(Kind::Encrypt))
}

/// Whether an encryption is asked for.
fn is_encryption(ask: &Ask) -> bool
    ensures { result ≡ is_encryption ask.now }
{
    matches!(ask, Ask::Encrypt { .. })
}

/// The place of the first encryption that a host wants.
fn place_wanted(wanted: &[Ask]) -> Option<usize>
    ensures { result ≡ position is_encryption wanted.now }
{
    wanted.iter().position(|ask| is_encryption(ask))
}

/// The first encryption that a host wants.
fn encryption_wanted(wanted: &[Ask]) -> Option<Ask>
    ensures { result ≡ ask_at (position is_encryption wanted.now) wanted.now }
{
    match place_wanted(wanted) {
        Some(place) => wanted.get(place).copied(),
        None => None,
    }
}

impl PhasedEnd {
    /// Enters the next event, in the slot of its anchor. The indication whose Instant is this event
    /// holds from it on (Core 5.2, volume 6 part B, section 5.5), and then one procedure that the
    /// host wants may begin: with an encryption LL_ENC_REQ is queued, or in phase Secure
    /// LL_PAUSE_ENC_REQ (sections 5.1.3.1 and 5.1.3.2).
    #[tactic(auto, using(crate::proofs::Reached::reached_room))]
    pub fn enter(&mut self, slot: SlotNo) -> Entry
        requires reached { IsReached self.old }
        requires slot { next_anchor_of self.old.control.track < 2 ^ 32 }
        ensures step { self.new ≡ held_after (KeyedStep.Enters slot.0) self.old }
        ensures entry { result ≡ entry_of slot.0 (quiet_now self.old) self.old.control }
        ensures reached { IsReached self.new }
        ensures enters { IsTrue (lasts self.old) → 1 ≤ self.new.control.track.entered }
        ensures entered { 1 ≤ self.old.control.track.entered
            → 1 ≤ self.new.control.track.entered }
    {
        let asked = encryption_wanted(self.control.wanted());
        let quiet = self.is_quiet();
        let entry = self.control.enter(slot, quiet);
        if is_encrypt(entry.began) {
            self.encrypt(asked);
        }
        entry
    }

    /// An encryption begins, as the host asked for it.
    fn encrypt(&mut self, asked: Option<Ask>)
        requires room { waiting_in self.old.control.table.queue < 24 }
        ensures { self.new ≡ with_encryption asked self.old }
    {
        self.request = request_of(&asked);
        add_asked(&mut self.material, &asked);
        match self.phase.facts() {
            PhaseFacts::Clear => self.send_request(),
            _ => self.send_pause(),
        }
    }

    /// LL_ENC_REQ is queued.
    pub(crate) fn send_request(&mut self)
        requires room { waiting_in self.old.control.table.queue < 24 }
        ensures { self.new ≡ with_request_again self.old }
    {
        ask(&mut self.phase);
        if let Some(request) = self.request {
            self.control.owe(request.ctrl());
        }
    }

    /// LL_PAUSE_ENC_REQ is queued.
    fn send_pause(&mut self)
        requires room { waiting_in self.old.control.table.queue < 24 }
        ensures { self.new ≡ owing Ctrl.PauseEncReq (moving Transition.Pause self.old) }
    {
        pause(&mut self.phase);
        self.control.owe(Ctrl::PauseEncReq);
    }
}
