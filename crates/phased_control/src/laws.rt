//! The laws of one end with its phase of encryption, over all lists of steps from the beginning of
//! its link. The bodies do nothing: the contracts are the laws.
ghost use Rattle.std.specs.Prelude.{◌≡◌, ◌≢◌, ◌≤◌, ◌∷◌, ℕ, Bool, true, false, not, List, []};
ghost use Rattle.std.specs.Prelude.{◌<◌, None, Some, is_none, is_some, length, map};
ghost use Rattle.std.specs.List.{All};
ghost use Rattle.ble_base.specs.declared.procedure_kinds.Kind.{Kind};
ghost use Rattle.ble_base.specs.declared.roles.Role.{Role};
ghost use Rattle.enc_phase.specs.Phases.{is_asked};
ghost use Rattle.data_pdu.specs.declared.ctrl.Ctrl.{Ctrl};
ghost use Rattle.data_pdu.specs.declared.ctrl.CtrlRead.{CtrlRead};
ghost use Rattle.enc_phase.specs.Taking.{ctrl_class};
ghost use Rattle.instants.specs.declared.indications.Indication.{Indication};
ghost use Rattle.instants.specs.declared.indications.Params.{Params};
ghost use Rattle.instants.specs.declared.track.Change.{Change};
ghost use Rattle.instants.specs.Parameters.{win_offset_of};
ghost use Rattle.instants.specs.Track.{event_of};
ghost use Rattle.table_laws.specs.procedure_values.declared.drafts.Draft.{Draft};
ghost use Rattle.table_laws.specs.procedure_values.declared.drafts.Outgoing.{Outgoing};
ghost use Rattle.table_laws.specs.procedure_values.Drafts.{waits_for_instant};
ghost use Rattle.table_laws.specs.procedure_stages.InProgress.{has_peer};
ghost use Rattle.table_laws.specs.procedure_stages.Kinds.{own_kind};
ghost use Rattle.table_laws.specs.procedure_stages.Queue.{waiting_in};
ghost use Rattle.table_laws.specs.procedures.Beginning.{begin_step};
ghost use Rattle.table_laws.specs.procedures.Calls.{after_calls};
ghost use Rattle.table_laws.specs.procedures.Queue.{next_of};
ghost use Rattle.table_laws.specs.procedures.Table.{first_facts};
ghost use Rattle.table_laws.specs.procedures.Taking.{took_step};
ghost use Rattle.table_laws.specs.Encrypting.{has_encryption};
ghost use Rattle.table_laws.specs.Exclusive.{AllKeepRules};
ghost use Rattle.table_laws.specs.Pasts.{MayAll, is_key_asked};
ghost use Rattle.table_laws.specs.Quiet.{first_pdus_waiting};
ghost use Rattle.two_tracks.specs.TwoEnds.{MayIndicateIf, TwoEnds};
ghost use Rattle.control_model.specs.Control.{after_all, first_control, indicated_by, went};
ghost use Rattle.control_model.specs.Waits.{kind_awaited, kind_waiting};
ghost use Rattle.control_model.specs.Waits.{last_event_of, last_instant_of};
ghost use Rattle.phased_control.specs.Calls.{AllPassPhase, all_phased_calls};
ghost use Rattle.phased_control.specs.Ciphers.{AreInTurn, AreLastOf, ciphers_waiting};
ghost use Rattle.phased_control.specs.Ciphers.{phase_ciphers};
ghost use Rattle.phased_control.specs.Ends.{AllAskInRange, IsFirst, IsRequest};
ghost use Rattle.phased_control.specs.Ends.{is_half_keyed, says_kept};
ghost use Rattle.phased_control.specs.PhaseChanges.{change_of, changed, may_change};
ghost use Rattle.phased_control.specs.PhaseChanges.{all_step_pdus, change_pdus};
ghost use Rattle.phased_control.specs.Phased.{Phased, first_phased, is_open_now};
ghost use Rattle.phased_control.specs.Phased.{is_quiet_now};
ghost use Rattle.phased_control.specs.Taken.{PhasedStep, phased_after, phased_after_all, role_now};
ghost use Rattle.phased_control.specs.Steps.{all_control_steps, control_steps, end_by_phase};
ghost use Rattle.phased_control.specs.Steps.{ended_if};

/// The control part of an end moves by steps of procedures and parameters, but where the phase ends
/// the link: then it stays as it was. So what those steps keep holds of it: it keeps its role, and
/// an indication waits in both parts of a peripheral.
pub fn an_end_moves_by_control_steps()
    ensures step { (step : PhasedStep) (s : Phased) → s.control.ends ≡ None
        → (phased_after step s).control
        ≡ ended_if (end_by_phase step s) (after_all (control_steps step s) s.control) }
    ensures all { (role : Role) (max_rx : ℕ) (first : Params) (slot : ℕ) (steps : List PhasedStep)
        → let s = phased_after_all steps (first_phased role max_rx first slot) in
        s.control ≡ record (after_all (all_control_steps steps
        (first_phased role max_rx first slot)) (first_control role max_rx first slot)) {
          ends = s.control.ends;
        } }
    ensures whole { (role : Role) (max_rx : ℕ) (first : Params) (slot : ℕ)
        (steps : List PhasedStep)
        → let s = phased_after_all steps (first_phased role max_rx first slot) in
        s.control.ends ≡ None → s.control
        ≡ after_all (all_control_steps steps (first_phased role max_rx first slot))
        (first_control role max_rx first slot) }
    ensures role { (role : Role) (max_rx : ℕ) (first : Params) (slot : ℕ) (steps : List PhasedStep)
        → role_now (phased_after_all steps (first_phased role max_rx first slot)) ≡ role }
    ensures waits { (max_rx : ℕ) (first : Params) (slot : ℕ) (steps : List PhasedStep)
        → let s = phased_after_all steps (first_phased Role.Peripheral max_rx first slot) in
        kind_awaited s.control.table.progress ≡ kind_waiting s.control.track.waits }
    ensures free { (max_rx : ℕ) (first : Params) (slot : ℕ) (steps : List PhasedStep)
        (read : CtrlRead) (now : ℕ) (quiet : Bool) (indication : Indication)
        → let s = phased_after_all steps (first_phased Role.Peripheral max_rx first slot) in
        indicated_by (took_step s.control.table read now quiet).1.effect ≡ Some indication
        → is_none s.control.track.waits ≡ true }
{}

/// A central with its phase sends an indication only where the Instants of all before it are over,
/// with an Instant ahead and near and with no offset; none waits at its own track then. The first
/// PDU of its PHY update too waits for those Instants. The last Instant that its table knows is
/// that of the last indication that it sent. The link begins with a latency of at most 499 events, and
/// what the host asks is in its range.
pub fn a_central_with_its_phase_indicates_as_it_may()
    ensures may { (max_rx : ℕ) (first : Params) (slot : ℕ) (steps : List PhasedStep) (now : ℕ)
        (quiet : Bool) (ends : TwoEnds) → first.latency ≤ 499 → AllAskInRange steps
        → let s = phased_after_all steps (first_phased Role.Central max_rx first slot) in
        ends.central ≡ s.control.track → ends.sent ≡ s.control.sent
        → MayIndicateIf ends (went now quiet s.control).1 }
    ensures offset { (max_rx : ℕ) (first : Params) (slot : ℕ) (steps : List PhasedStep) (now : ℕ)
        (quiet : Bool) (indication : Indication) → first.latency ≤ 499 → AllAskInRange steps
        → let s = phased_after_all steps (first_phased Role.Central max_rx first slot) in
        (went now quiet s.control).1 ≡ Some indication → win_offset_of indication ≡ 0 }
    ensures free { (max_rx : ℕ) (first : Params) (slot : ℕ) (steps : List PhasedStep) (now : ℕ)
        (quiet : Bool) (indication : Indication) → first.latency ≤ 499 → AllAskInRange steps
        → let s = phased_after_all steps (first_phased Role.Central max_rx first slot) in
        (went now quiet s.control).1 ≡ Some indication → is_none s.control.track.waits ≡ true }
    ensures over { (max_rx : ℕ) (first : Params) (slot : ℕ) (steps : List PhasedStep)
        (quiet : Bool) (draft : Draft) → first.latency ≤ 499 → AllAskInRange steps
        → let s = phased_after_all steps (first_phased Role.Central max_rx first slot) in
        next_of s.control.table (event_of s.control.track) quiet ≡ Outgoing.Other draft
        → waits_for_instant draft ≡ true
        → All (λ (change : Change). change.at.0 < event_of s.control.track) s.control.sent }
    ensures last { (max_rx : ℕ) (first : Params) (slot : ℕ) (steps : List PhasedStep)
        → first.latency ≤ 499 → AllAskInRange steps
        → let s = phased_after_all steps (first_phased Role.Central max_rx first slot) in
        last_instant_of s.control.table.progress ≡ last_event_of s.control.sent }
{}

/// A central keeps a PDU exactly where its phase says so; of HalfKeyed nothing is said. In Clear
/// and Secure nothing is kept, and at a peripheral never. What is kept is the first PDU of a
/// procedure of the peripheral. A host is asked for a key in phase Asked alone, and that of a
/// central never.
pub fn a_phase_says_whether_a_pdu_is_kept()
    ensures said { (role : Role) (max_rx : ℕ) (first : Params) (slot : ℕ) (steps : List PhasedStep)
        → let s = phased_after_all steps (first_phased role max_rx first slot) in
        is_half_keyed s.phase ≡ false → is_some s.kept ≡ says_kept s.phase }
    ensures quiet { (role : Role) (max_rx : ℕ) (first : Params) (slot : ℕ)
        (steps : List PhasedStep)
        → let s = phased_after_all steps (first_phased role max_rx first slot) in
        is_quiet_now s ≡ true → s.kept ≡ None }
    ensures peripheral { (max_rx : ℕ) (first : Params) (slot : ℕ) (steps : List PhasedStep)
        → (phased_after_all steps (first_phased Role.Peripheral max_rx first slot)).kept ≡ None }
    ensures first { (role : Role) (max_rx : ℕ) (first : Params) (slot : ℕ)
        (steps : List PhasedStep)
        → IsFirst (phased_after_all steps (first_phased role max_rx first slot)).kept }
    ensures key { (role : Role) (max_rx : ℕ) (first : Params) (slot : ℕ) (steps : List PhasedStep)
        → let s = phased_after_all steps (first_phased role max_rx first slot) in
        s.asks_key ≡ true → is_asked s.phase ≡ true }
    ensures central { (max_rx : ℕ) (first : Params) (slot : ℕ) (steps : List PhasedStep)
        → (phased_after_all steps (first_phased Role.Central max_rx first slot)).asks_key ≡ false }
{}

/// An encryption is in progress in the table of an end exactly outside Clear and Secure.
pub fn encryption_runs_outside_clear_and_secure()
    ensures { (role : Role) (max_rx : ℕ) (first : Params) (slot : ℕ) (steps : List PhasedStep)
        → let s = phased_after_all steps (first_phased role max_rx first slot) in
        is_quiet_now s ≡ not (has_encryption s.control.table.progress) }
{}

/// While a central runs an encryption it has the LL_ENC_REQ of it; a peripheral has none.
pub fn a_central_has_the_request_of_its_encryption()
    ensures central { (max_rx : ℕ) (first : Params) (slot : ℕ) (steps : List PhasedStep)
        → let s = phased_after_all steps (first_phased Role.Central max_rx first slot) in
        has_encryption s.control.table.progress ≡ true → IsRequest s.request }
    ensures peripheral { (max_rx : ℕ) (first : Params) (slot : ℕ) (steps : List PhasedStep)
        → (phased_after_all steps (first_phased Role.Peripheral max_rx first slot)).request
        ≡ None }
{}

/// Where the peer sends each PDU of the encryption once it has those that this end had to send, the
/// phase of an end says which of these wait there: the last of a list, or all, or none. So at most
/// two wait, and no two of one kind.
pub fn few_pdus_of_the_encryption_wait()
    ensures order { (role : Role) (max_rx : ℕ) (first : Params) (slot : ℕ)
        (steps : List PhasedStep)
        → AreInTurn steps (first_phased role max_rx first slot)
        → let s = phased_after_all steps (first_phased role max_rx first slot) in
        AreLastOf (phase_ciphers role s.phase)
        (map (λ ctrl. ctrl_class ctrl) (ciphers_waiting s.control.table)) }
    ensures few { (role : Role) (max_rx : ℕ) (first : Params) (slot : ℕ) (steps : List PhasedStep)
        → AreInTurn steps (first_phased role max_rx first slot)
        → length (ciphers_waiting
        (phased_after_all steps (first_phased role max_rx first slot)).control.table) ≤ 2 }
    ensures kinds { (role : Role) (max_rx : ℕ) (first : Params) (slot : ℕ)
        (steps : List PhasedStep) (one other : Ctrl)
        → AreInTurn steps (first_phased role max_rx first slot)
        → ciphers_waiting
        (phased_after_all steps (first_phased role max_rx first slot)).control.table
        ≡ one ∷ other ∷ []
        → ctrl_class one ≢ ctrl_class other }
{}

/// The table of an end is a new table after the calls that its steps make. These may come, and each
/// passes the phase as the table has it, at a peripheral whatever its peer sends, and at a central
/// whose peer sends in turn. A key is asked for as the table has it, while the link is not to end.
/// So at most twenty control PDUs wait.
pub fn calls_of_an_end_may_come()
    ensures table { (role : Role) (max_rx : ℕ) (first : Params) (slot : ℕ)
        (steps : List PhasedStep)
        → (phased_after_all steps (first_phased role max_rx first slot)).control.table
        ≡ after_calls (first_facts role max_rx)
        (all_phased_calls steps (first_phased role max_rx first slot)) }
    ensures may { (role : Role) (max_rx : ℕ) (first : Params) (slot : ℕ) (steps : List PhasedStep)
        → (role ≡ Role.Central → AreInTurn steps (first_phased role max_rx first slot))
        → MayAll (first_facts role max_rx) false
        (all_phased_calls steps (first_phased role max_rx first slot)) }
    ensures phase { (role : Role) (max_rx : ℕ) (first : Params) (slot : ℕ)
        (steps : List PhasedStep)
        → (role ≡ Role.Central → AreInTurn steps (first_phased role max_rx first slot))
        → AllPassPhase (first_facts role max_rx)
        (all_phased_calls steps (first_phased role max_rx first slot)) }
    ensures key { (role : Role) (max_rx : ℕ) (first : Params) (slot : ℕ) (steps : List PhasedStep)
        → (role ≡ Role.Central → AreInTurn steps (first_phased role max_rx first slot))
        → let s = phased_after_all steps (first_phased role max_rx first slot) in
        is_open_now s ≡ true
        → is_key_asked (all_phased_calls steps (first_phased role max_rx first slot))
        ≡ s.asks_key }
    ensures few { (role : Role) (max_rx : ℕ) (first : Params) (slot : ℕ) (steps : List PhasedStep)
        → (role ≡ Role.Central → AreInTurn steps (first_phased role max_rx first slot))
        → waiting_in
        (phased_after_all steps (first_phased role max_rx first slot)).control.table.queue ≤ 20 }
{}

/// Outside Clear and Secure a central runs an encryption, no first PDU of another own procedure
/// waits, and nothing begins. Where the peripheral keeps the rules, no procedure of it that
/// excludes others is in progress there.
pub fn a_central_only_encrypts_outside_clear_and_secure()
    ensures own { (max_rx : ℕ) (first : Params) (slot : ℕ) (steps : List PhasedStep)
        → AreInTurn steps (first_phased Role.Central max_rx first slot)
        → let s = phased_after_all steps (first_phased Role.Central max_rx first slot) in
        is_quiet_now s ≡ false → own_kind s.control.table.progress ≡ Some Kind.Encrypt }
    ensures first { (max_rx : ℕ) (first : Params) (slot : ℕ) (steps : List PhasedStep)
        → AreInTurn steps (first_phased Role.Central max_rx first slot)
        → let s = phased_after_all steps (first_phased Role.Central max_rx first slot) in
        is_quiet_now s ≡ false → first_pdus_waiting s.control.table ≡ 0 }
    ensures begins { (max_rx : ℕ) (first : Params) (slot : ℕ) (steps : List PhasedStep)
        → AreInTurn steps (first_phased Role.Central max_rx first slot)
        → (now : ℕ) (quiet : Bool)
        → let s = phased_after_all steps (first_phased Role.Central max_rx first slot) in
        is_quiet_now s ≡ false
        → begin_step s.control.table now quiet ≡ (s.control.table, None) }
    ensures peer { (max_rx : ℕ) (first : Params) (slot : ℕ) (steps : List PhasedStep)
        → AreInTurn steps (first_phased Role.Central max_rx first slot)
        → AllKeepRules (first_facts Role.Central max_rx)
        (all_phased_calls steps (first_phased Role.Central max_rx first slot))
        → let s = phased_after_all steps (first_phased Role.Central max_rx first slot) in
        is_quiet_now s ≡ false → has_peer s.control.table.progress ≡ false }
{}

/// Each step changes the phase of an end as a PDU that is taken, the beginning of a session or a
/// transition changes it, where that can be made, or leaves it. Of the PDUs of the encryption it
/// queues the one that is owed with this change, by the role of the end, or none.
pub fn each_change_of_a_phase_owes_its_pdu()
    ensures may { (role : Role) (max_rx : ℕ) (first : Params) (slot : ℕ) (steps : List PhasedStep)
        (step : PhasedStep)
        → let s = phased_after_all steps (first_phased role max_rx first slot) in
        s.control.ends ≡ None → may_change (change_of step s) s.phase ≡ true }
    ensures phase { (role : Role) (max_rx : ℕ) (first : Params) (slot : ℕ)
        (steps : List PhasedStep) (step : PhasedStep)
        → let s = phased_after_all steps (first_phased role max_rx first slot) in
        s.control.ends ≡ None
        → (phased_after step s).phase ≡ changed (change_of step s) s.phase }
    ensures owed { (role : Role) (max_rx : ℕ) (first : Params) (slot : ℕ) (steps : List PhasedStep)
        (step : PhasedStep)
        → let s = phased_after_all steps (first_phased role max_rx first slot) in
        s.control.ends ≡ None
        → all_step_pdus (control_steps step s) ≡ change_pdus role (change_of step s) }
{}
