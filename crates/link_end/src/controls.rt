//! The control part of an end: its procedures and its parameters, with its phase of encryption and
//! its keys.
ghost use Rattle.std.specs.Prelude.{◌≡◌, ◌<◌, ◌≤◌, ◌^◌, IsTrue, is_some};
ghost use Rattle.std.specs.Result.{ForOk};
ghost use Rattle.data_pdu.specs.Ranges.{IsInRange};
ghost use Rattle.data_pdu.specs.Reading.{IfKnown};
ghost use Rattle.instants.specs.Track.{next_anchor_of};
ghost use Rattle.procedures.specs.procedure_values.Limits.{tx_of};
ghost use Rattle.procedures.specs.procedure_values.Wants.{IsAsk};
ghost use Rattle.control_end.specs.Answers.{done_by_acknowledgement, entry_of, next_ctrl};
ghost use Rattle.link_model.specs.phased_end.Answers.{quiet_now};
ghost use Rattle.link_model.specs.phased_end.Held.{held_after};
ghost use Rattle.link_model.specs.Receiving.{HasPayloadLengths};
ghost use Rattle.link_model.specs.phased_end.Moves.{lasts};
ghost use Rattle.link_model.specs.phased_end.Reached.{IsReached};
ghost use Rattle.link_model.specs.phased_end.Taking.{drawn, taken_keyed};
ghost use Rattle.link_model.specs.phased_end.keyed_control.KeyedSteps.{KeyedStep};
ghost use Rattle.link_model.specs.Controls.{pdu_of_control};
ghost use Rattle.link_model.specs.Hosts.{key_step};
ghost use Rattle.link_end.specs.Pdus.{pdu_value};
ghost use Rattle.link_end.specs.Receiving.{IsSingle};

use crate::pdus::Pdu;
use ble_base::{ErrCode, Kind, SlotNo};
use control_end::Entry;
use data_pdu::CtrlRead;
use keyed_control::Response;
use link_model::{PhasedEnd, TakenKeyed};
use procedures::Ask;

/// The next event is entered, in the slot of its anchor.
pub(crate) fn enter(control: &mut PhasedEnd, slot: u64) -> Entry
    requires reached { IsReached control.old }
    requires slot { next_anchor_of control.old.control.track < 2 ^ 32 }
    ensures step { control.new ≡ held_after (KeyedStep.Enters slot) control.old }
    ensures entry { result ≡ entry_of slot (quiet_now control.old) control.old.control }
    ensures reached { IsReached control.new }
    ensures enters { IsTrue (lasts control.old) → 1 ≤ control.new.control.track.entered }
    ensures entered { 1 ≤ control.old.control.track.entered
        → 1 ≤ control.new.control.track.entered }
    ensures sent { control.new.end.sent ≤ control.old.end.sent }
    ensures opened { control.new.end.opened ≤ control.old.end.opened }
{
    control.enter(SlotNo(slot))
}

/// The control PDU that goes next, and an empty PDU where there is none.
pub(crate) fn next_pdu(control: &PhasedEnd) -> Pdu
    requires entered { 1 ≤ control.now.control.track.entered }
    ensures value { pdu_value result
        ≡ pdu_of_control (next_ctrl (quiet_now control.now) control.now.control) }
    ensures two_bits { result.llid < 4 }
{
    Pdu::of_control(control.next())
}

/// The control PDU that goes next leaves the queue, and counts as first sent in this slot.
pub(crate) fn send(control: &mut PhasedEnd, slot: u64)
    requires reached { IsReached control.old }
    requires entered { 1 ≤ control.old.control.track.entered }
    ensures step { control.new ≡ held_after (KeyedStep.Sends slot) control.old }
    ensures reached { IsReached control.new }
    ensures entered { 1 ≤ control.new.control.track.entered }
    ensures sent { control.new.end.sent ≤ control.old.end.sent }
    ensures opened { control.new.end.opened ≤ control.old.end.opened }
{
    control.send(SlotNo(slot));
}

/// The control PDU that was sent last is acknowledged. The answer is the procedure that it
/// completes.
pub(crate) fn see_acked(control: &mut PhasedEnd) -> Option<Kind>
    requires reached { IsReached control.old }
    ensures step { control.new ≡ held_after KeyedStep.SeesAcknowledged control.old }
    ensures done { result ≡ done_by_acknowledgement control.old.control }
    ensures reached { IsReached control.new }
    ensures entered { 1 ≤ control.old.control.track.entered
        → 1 ≤ control.new.control.track.entered }
    ensures sent { control.new.end.sent ≤ control.old.end.sent }
    ensures opened { control.new.end.opened ≤ control.old.end.opened }
{
    control.acked()
}

/// A control PDU of the peer is taken in this slot, with what a peripheral would draw to answer it.
pub(crate) fn take(
    control: &mut PhasedEnd,
    read: &CtrlRead,
    slot: u64,
    response: Response,
) -> TakenKeyed
    requires reached { IsReached control.old }
    requires entered { 1 ≤ control.old.control.track.entered }
    requires in_range { IfKnown read.now IsInRange }
    ensures step { control.new
        ≡ held_after (KeyedStep.Takes read.now slot (drawn response)) control.old }
    ensures taken { result ≡ taken_keyed slot response read.now control.old }
    ensures payloads { HasPayloadLengths result.taken.effect }
    ensures kept_payloads { HasPayloadLengths result.kept.effect }
    ensures single { IsSingle result.taken }
    ensures reached { IsReached control.new }
    ensures entered { 1 ≤ control.new.control.track.entered }
    ensures sent { control.new.end.sent ≤ control.old.end.sent }
    ensures opened { control.new.end.opened ≤ control.old.end.opened }
{
    control.take(read, SlotNo(slot), response)
}

/// Data of the peer is taken.
pub(crate) fn take_data(control: &mut PhasedEnd)
    requires reached { IsReached control.old }
    ensures step { control.new ≡ held_after KeyedStep.TakesData control.old }
    ensures reached { IsReached control.new }
    ensures entered { 1 ≤ control.old.control.track.entered
        → 1 ≤ control.new.control.track.entered }
    ensures sent { control.new.end.sent ≤ control.old.end.sent }
    ensures opened { control.new.end.opened ≤ control.old.end.opened }
{
    control.take_data();
}

/// The host asks for a procedure.
pub(crate) fn ask(control: &mut PhasedEnd, ask: Ask)
    requires reached { IsReached control.old }
    requires in_range { IsAsk ask }
    ensures step { control.new ≡ held_after (KeyedStep.Asks ask) control.old }
    ensures reached { IsReached control.new }
    ensures entered { 1 ≤ control.old.control.track.entered
        → 1 ≤ control.new.control.track.entered }
    ensures sent { control.new.end.sent ≤ control.old.end.sent }
    ensures opened { control.new.end.opened ≤ control.old.end.opened }
{
    control.ask(ask);
}

/// The host answers a request of the peer.
pub(crate) fn answer(control: &mut PhasedEnd, answer: Result<Ask, ErrCode>)
    requires reached { IsReached control.old }
    requires in_range { ForOk answer IsAsk }
    ensures step { control.new ≡ held_after (KeyedStep.Answers answer) control.old }
    ensures reached { IsReached control.new }
    ensures entered { 1 ≤ control.old.control.track.entered
        → 1 ≤ control.new.control.track.entered }
    ensures sent { control.new.end.sent ≤ control.old.end.sent }
    ensures opened { control.new.end.opened ≤ control.old.end.opened }
{
    control.answer(answer);
}

/// The host of a peripheral has this long term key, or none.
pub(crate) fn answer_key(control: &mut PhasedEnd, key: Option<[u8; 16]>)
    requires reached { IsReached control.old }
    ensures step { control.new ≡ held_after (key_step key) control.old }
    ensures reached { IsReached control.new }
    ensures entered { 1 ≤ control.old.control.track.entered
        → 1 ≤ control.new.control.track.entered }
    ensures sent { control.new.end.sent ≤ control.old.end.sent }
    ensures opened { control.new.end.opened ≤ control.old.end.opened }
{
    match key {
        Some(ltk) => control.give_key(ltk),
        None => control.lack_key(),
    }
}

/// The host ends the link, for this reason.
pub(crate) fn disconnect(control: &mut PhasedEnd, reason: ErrCode)
    requires reached { IsReached control.old }
    ensures step { control.new ≡ held_after (KeyedStep.Disconnects reason) control.old }
    ensures reached { IsReached control.new }
    ensures entered { 1 ≤ control.old.control.track.entered
        → 1 ≤ control.new.control.track.entered }
    ensures sent { control.new.end.sent ≤ control.old.end.sent }
    ensures opened { control.new.end.opened ≤ control.old.end.opened }
{
    control.disconnect(reason);
}

/// The most octets of a payload that it transmits.
#[tactic(auto, using(crate::proofs::Reaching::transmits))]
pub(crate) fn limit(control: &PhasedEnd) -> u16
    requires reached { IsReached control.now }
    ensures value { result ≡ tx_of control.now.control.table.lengths }
    ensures some { 1 ≤ result }
{
    control.lengths().1
}

/// Whether a control PDU goes next. None is made where none waits, which is so in most events.
#[tactic(auto, using(crate::proofs::NoneNext::none_next))]
pub(crate) fn has_next(control: &PhasedEnd) -> bool
    requires entered { 1 ≤ control.now.control.track.entered }
    ensures { result ≡ is_some (next_ctrl (quiet_now control.now) control.now.control) }
{
    if control.waiting() == 0 {
        return false;
    }
    control.next().is_some()
}
