//! The laws of the control part of one end, over all lists of steps from the beginning of its link.
//! The bodies do nothing: the contracts are the laws.
ghost use Rattle.std.specs.Prelude.{◌≡◌, ◌≤◌, ◌<◌, ℕ, Bool, true, List, Option, Some, None, is_none, is_some};
ghost use Rattle.std.specs.Prelude.{if◌then◌else◌};
ghost use Rattle.std.specs.List.{All};
ghost use Rattle.ble_base.specs.ErrorCodes.{instant_passed};
ghost use Rattle.ble_base.specs.declared.channel_map.ChannelMap.{ChannelMap};
ghost use Rattle.ble_base.specs.declared.procedure_kinds.Kind.{Kind};
ghost use Rattle.ble_base.specs.declared.roles.Role.{Role};
ghost use Rattle.data_pdu.specs.declared.ctrl.Ctrl.{Ctrl};
ghost use Rattle.data_pdu.specs.declared.ctrl.CtrlRead.{CtrlRead};
ghost use Rattle.instants.specs.declared.indications.Indication.{Indication};
ghost use Rattle.instants.specs.declared.indications.Params.{Params};
ghost use Rattle.instants.specs.declared.track.Change.{Change};
ghost use Rattle.instants.specs.Parameters.{win_offset_of};
ghost use Rattle.instants.specs.Track.{event_of, next_number, track_after_enter};
ghost use Rattle.procedures.specs.procedure_values.declared.drafts.Draft.{Draft};
ghost use Rattle.procedures.specs.procedure_values.declared.drafts.Outgoing.{Outgoing};
ghost use Rattle.procedures.specs.procedure_values.Drafts.{waits_for_instant};
ghost use Rattle.procedures.specs.procedure_stages.Collisions.{collision_code};
ghost use Rattle.procedures.specs.procedure_stages.Kinds.{role_of};
ghost use Rattle.procedures.specs.Queue.{next_of};
ghost use Rattle.procedures.specs.Taking.{took_step};
ghost use Rattle.two_tracks.specs.TwoEnds.{MayIndicateIf, TwoEnds, after_indication};
ghost use Rattle.two_tracks.specs.TwoEnds.{after_sending, has_passed};
ghost use Rattle.control_model.specs.Control.{Control, Step, after, after_all, ended};
ghost use Rattle.control_model.specs.Control.{first_control, indicated_by, went};
ghost use Rattle.control_model.specs.Waits.{AreInRange, EndsByCollision, is_of_table_alone};
ghost use Rattle.control_model.specs.Waits.{kind_awaited, kind_of_indication, kind_waiting};
ghost use Rattle.control_model.specs.Waits.{last_event_of, last_instant_of};

/// A peripheral awaits an indication by its table exactly while its track has one waiting, and both
/// say of which kind it is; it is over in both as one event is entered. So an indication that the table hands on finds a track in which none
/// waits; and one that comes while another waits ends the link before the track is asked, by the
/// code of two procedures that collide (Core 5.2, volume 6 part B, section 5.3), and leaves the
/// track.
pub fn an_indication_waits_in_both_parts()
    ensures same { (max_rx : ℕ) (first : Params) (slot : ℕ) (steps : List Step)
        → let c = after_all steps (first_control Role.Peripheral max_rx first slot) in
        kind_awaited c.table.progress ≡ kind_waiting c.track.waits }
    ensures free { (max_rx : ℕ) (first : Params) (slot : ℕ) (steps : List Step) (read : CtrlRead)
        (now : ℕ) (quiet : Bool) (indication : Indication)
        → let c = after_all steps (first_control Role.Peripheral max_rx first slot) in
        indicated_by (took_step c.table read now quiet).1.effect ≡ Some indication
        → is_none c.track.waits ≡ true }
    ensures over { (max_rx : ℕ) (first : Params) (slot : ℕ) (steps : List Step) (now : ℕ)
        (quiet : Bool)
        → let c = after_all steps (first_control Role.Peripheral max_rx first slot) in
        c.ends ≡ None → is_some (next_number c.track) ≡ true
        → kind_awaited (after (Step.Enters now quiet) c).table.progress ≡ None }
    ensures second_update { (max_rx : ℕ) (first : Params) (slot : ℕ) (steps : List Step)
        (change : Change) (win_size win_offset interval latency timeout instant now : ℕ)
        (quiet : Bool)
        → let c = after_all steps (first_control Role.Peripheral max_rx first slot) in
        c.ends ≡ None → c.track.waits ≡ Some change
        → after (Step.Takes (CtrlRead.Known (Ctrl.ConnectionUpdateInd win_size win_offset interval
        latency timeout instant)) now quiet) c
        ≡ ended (collision_code (kind_of_indication change.indication) Kind.Update) c }
    ensures second_map { (max_rx : ℕ) (first : Params) (slot : ℕ) (steps : List Step)
        (change : Change) (map : ChannelMap) (instant now : ℕ) (quiet : Bool)
        → let c = after_all steps (first_control Role.Peripheral max_rx first slot) in
        c.ends ≡ None → c.track.waits ≡ Some change
        → EndsByCollision (after (Step.Takes (CtrlRead.Known (Ctrl.ChannelMapInd map instant)) now
        quiet) c).ends }
    ensures second_map_leaves { (max_rx : ℕ) (first : Params) (slot : ℕ) (steps : List Step)
        (change : Change) (map : ChannelMap) (instant now : ℕ) (quiet : Bool)
        → let c = after_all steps (first_control Role.Peripheral max_rx first slot) in
        c.ends ≡ None → c.track.waits ≡ Some change
        → (after (Step.Takes (CtrlRead.Known (Ctrl.ChannelMapInd map instant)) now quiet) c).track
        ≡ c.track }
{}

/// A central sends an indication only where the Instants of all before it are over, with an Instant
/// ahead and near and an interval of at least 6 slots, as a run of two ends asks, and with no
/// offset; none waits at its own track then. The first PDU of its PHY update too waits for those
/// Instants. The last Instant that its table knows is that of the last indication that it sent. The
/// link begins with a latency of at most 499 events, and what the host asks is in its range
/// (sections 4.5.1 and 5.5).
pub fn a_central_indicates_as_it_may()
    ensures may { (max_rx : ℕ) (first : Params) (slot : ℕ) (steps : List Step) (now : ℕ)
        (quiet : Bool) (s : TwoEnds) → first.latency ≤ 499 → AreInRange steps
        → let c = after_all steps (first_control Role.Central max_rx first slot) in
        s.central ≡ c.track → s.sent ≡ c.sent → MayIndicateIf s (went now quiet c).1 }
    ensures offset { (max_rx : ℕ) (first : Params) (slot : ℕ) (steps : List Step) (now : ℕ)
        (quiet : Bool) (indication : Indication) → first.latency ≤ 499 → AreInRange steps
        → let c = after_all steps (first_control Role.Central max_rx first slot) in
        (went now quiet c).1 ≡ Some indication → win_offset_of indication ≡ 0 }
    ensures free { (max_rx : ℕ) (first : Params) (slot : ℕ) (steps : List Step) (now : ℕ)
        (quiet : Bool) (indication : Indication) → first.latency ≤ 499 → AreInRange steps
        → let c = after_all steps (first_control Role.Central max_rx first slot) in
        (went now quiet c).1 ≡ Some indication → is_none c.track.waits ≡ true }
    ensures over { (max_rx : ℕ) (first : Params) (slot : ℕ) (steps : List Step) (quiet : Bool)
        (draft : Draft) → first.latency ≤ 499 → AreInRange steps
        → let c = after_all steps (first_control Role.Central max_rx first slot) in
        next_of c.table (event_of c.track) quiet ≡ Outgoing.Other draft
        → waits_for_instant draft ≡ true
        → All (λ (change : Change). change.at.0 < event_of c.track) c.sent }
    ensures last { (max_rx : ℕ) (first : Params) (slot : ℕ) (steps : List Step)
        → first.latency ≤ 499 → AreInRange steps
        → let c = after_all steps (first_control Role.Central max_rx first slot) in
        last_instant_of c.table.progress ≡ last_event_of c.sent }
{}

/// No step changes the role of an end.
pub fn ends_keep_their_role()
    ensures { (role : Role) (max_rx : ℕ) (first : Params) (slot : ℕ) (steps : List Step)
        → role_of (after_all steps (first_control role max_rx first slot)).table.progress ≡ role }
{}

/// The track of an end moves as a run of two ends says. A central follows each indication from the
/// event in which it first sends it; nothing that it takes moves its track. A peripheral follows an
/// indication that its table hands on unless the Instant has passed, which ends the link; nothing
/// that it sends moves its track. Otherwise a track moves only as an event is entered.
pub fn what_is_sent_is_followed()
    ensures enters { (c : Control) (now : ℕ) (quiet : Bool) → c.ends ≡ None
        → (after (Step.Enters now quiet) c).track ≡ track_after_enter c.track }
    ensures central_sends { (c : Control) (now : ℕ) (quiet : Bool) (s : TwoEnds)
        → role_of c.table.progress ≡ Role.Central → c.ends ≡ None → s.central ≡ c.track
        → s.sent ≡ c.sent
        → (after (Step.Sends now quiet) c).track
        ≡ (after_sending (went now quiet c).1 s).central }
    ensures all_sent { (c : Control) (now : ℕ) (quiet : Bool) (s : TwoEnds)
        → role_of c.table.progress ≡ Role.Central → c.ends ≡ None → s.central ≡ c.track
        → s.sent ≡ c.sent
        → (after (Step.Sends now quiet) c).sent ≡ (after_sending (went now quiet c).1 s).sent }
    ensures central_takes { (c : Control) (read : CtrlRead) (now : ℕ) (quiet : Bool)
        → role_of c.table.progress ≡ Role.Central
        → (after (Step.Takes read now quiet) c).track ≡ c.track }
    ensures peripheral_takes { (c : Control) (read : CtrlRead) (now : ℕ) (quiet : Bool)
        (change : Change) (s : TwoEnds) → c.ends ≡ None
        → (took_step c.table read now quiet).1.ends ≡ None
        → indicated_by (took_step c.table read now quiet).1.effect ≡ Some change.indication
        → s.peripheral ≡ c.track
        → (after (Step.Takes read now quiet) c).track
        ≡ (after_indication (has_passed s.peripheral change) change s).peripheral }
    ensures passed_ends { (c : Control) (read : CtrlRead) (now : ℕ) (quiet : Bool)
        (change : Change) (s : TwoEnds) → c.ends ≡ None
        → (took_step c.table read now quiet).1.ends ≡ None
        → indicated_by (took_step c.table read now quiet).1.effect ≡ Some change.indication
        → s.peripheral ≡ c.track
        → (after (Step.Takes read now quiet) c).ends
        ≡ (if has_passed s.peripheral change then Some (record { 0 = instant_passed }) else None) }
    ensures none_handed { (c : Control) (read : CtrlRead) (now : ℕ) (quiet : Bool)
        → indicated_by (took_step c.table read now quiet).1.effect ≡ None
        → (after (Step.Takes read now quiet) c).track ≡ c.track }
    ensures peripheral_sends { (c : Control) (now : ℕ) (quiet : Bool)
        → role_of c.table.progress ≡ Role.Peripheral
        → (after (Step.Sends now quiet) c).track ≡ c.track }
    ensures others { (c : Control) (step : Step) → is_of_table_alone step ≡ true
        → (after step c).track ≡ c.track }
{}
