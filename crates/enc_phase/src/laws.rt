//! Laws of the phases. The bodies do nothing: the contracts are the laws.
ghost use Rattle.std.specs.Prelude.{◌≡◌, ℕ, ◌≤◌, true, false, Bool, List, length, slice_get, Some};
ghost use Rattle.std.specs.List.{range_with_len};
ghost use Rattle.ble_base.specs.declared.roles.Role.{Role};
ghost use Rattle.ccm_link.specs.Payload.{additional_data};
ghost use Rattle.enc_phase.specs.declared.classes.PduClass.{PduClass};
ghost use Rattle.enc_phase.specs.declared.session.Session.{Session};
ghost use Rattle.enc_phase.specs.Lives.{Act, ArePossible, StaysInSession, after_acts};
ghost use Rattle.enc_phase.specs.Lives.{opened_counters, receiving_after, sealed_counters};
ghost use Rattle.enc_phase.specs.Lives.{sending_after};
ghost use Rattle.enc_phase.specs.Phases.{opens, seals};
ghost use Rattle.enc_phase.specs.Sealing.{AreMatched, EncEnd, after_opening, after_sending, after_start};
ghost use Rattle.enc_phase.specs.Sealing.{after_taking, after_transition, clear_end, is_right, opened_body};
ghost use Rattle.enc_phase.specs.Sealing.{sent_payload};
ghost use Rattle.enc_phase.specs.Taking.{phase_taking};

use crate::{PhaseFacts, Transition};

/// In a session the counters of the PDUs that an end sends sealed are 0, 1, 2, .. in the order of
/// sending, and so are those of the sealed PDUs that it opens, over starting, pausing and whatever
/// else it does. So no counter is used for two PDUs.
pub fn counters_rise_by_one()
    ensures sealed { (e : EncEnd) (session : Session) (acts : List Act) → StaysInSession acts
        → ArePossible acts (after_start session e)
        → let counters = sealed_counters acts (after_start session e) in
        counters ≡ range_with_len 0 (length counters) }
    ensures opened { (e : EncEnd) (session : Session) (acts : List Act) → StaysInSession acts
        → ArePossible acts (after_start session e)
        → let counters = opened_counters acts (after_start session e) in
        counters ≡ range_with_len 0 (length counters) }
    ensures once { (e : EncEnd) (session : Session) (acts : List Act) → StaysInSession acts
        → ArePossible acts (after_start session e)
        → let counters = sealed_counters acts (after_start session e) in
        (i j counter : ℕ) → slice_get counters i ≡ Some counter → slice_get counters j ≡ Some counter
        → i ≡ j }
{}

/// What one end sends and the other receives with the same key, initialization vector and counter
/// opens to the body that was sent, whatever NESN, SN and MD the packet has; then the counters of
/// that direction are equal again.
pub fn sent_is_opened()
    ensures right { (a b : EncEnd) (header received : ℕ) (body : List ℕ) → AreMatched a b
        → additional_data header ≡ additional_data received → 1 ≤ length body
        → is_right b received (sent_payload a header body) ≡ true }
    ensures body { (a b : EncEnd) (header : ℕ) (body : List ℕ) → AreMatched a b
        → opened_body b (sent_payload a header body) ≡ body }
    ensures matched { (a b : EncEnd) → AreMatched a b
        → AreMatched (after_sending a) (after_opening b) }
{
    ccm_link::laws::sealed_payloads();
}

/// An end sends and receives sealed exactly as follows from the encryption PDUs that it took.
pub fn sealing_follows_what_was_taken()
    ensures sending { (role : Role) (acts : List Act) → ArePossible acts (clear_end role PhaseFacts.Clear)
        → seals role (after_acts acts (clear_end role PhaseFacts.Clear)).phase
        ≡ sending_after role acts false }
    ensures receiving { (role : Role) (acts : List Act) → ArePossible acts (clear_end role PhaseFacts.Clear)
        → opens role (after_acts acts (clear_end role PhaseFacts.Clear)).phase
        ≡ receiving_after role acts false }
{}

/// What an end sends as it leaves Clear or Secure is sealed as before it left, with the same
/// counter; and what is taken changes nothing of that in any phase.
pub fn leaving_changes_no_sealing()
    ensures asks { (e : EncEnd) (header : ℕ) (body : List ℕ) → e.phase ≡ PhaseFacts.Clear
        → sent_payload (after_transition Transition.Ask e) header body ≡ sent_payload e header body }
    ensures pauses { (e : EncEnd) (header : ℕ) (body : List ℕ) → e.phase ≡ PhaseFacts.Secure
        → sent_payload (after_transition Transition.Pause e) header body ≡ sent_payload e header body }
    ensures takes { (pdu : PduClass) (e : EncEnd) (header : ℕ) (body : List ℕ)
        → sent_payload (after_taking pdu e) header body ≡ sent_payload e header body }
{}

/// A clear direction has the counter 0, whatever an end did before.
pub fn clear_directions_have_counter_0()
    ensures sent { (role : Role) (acts : List Act) → ArePossible acts (clear_end role PhaseFacts.Clear)
        → let e = after_acts acts (clear_end role PhaseFacts.Clear) in
        seals e.role e.phase ≡ false → e.sent ≡ 0 }
    ensures opened { (role : Role) (acts : List Act) → ArePossible acts (clear_end role PhaseFacts.Clear)
        → let e = after_acts acts (clear_end role PhaseFacts.Clear) in
        opens e.role e.phase ≡ false → e.opened ≡ 0 }
{}
