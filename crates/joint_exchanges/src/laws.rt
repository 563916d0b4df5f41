//! The laws of exchanges over joint runs. The bodies do nothing: the contracts are the laws.
ghost use Rattle.std.specs.Prelude.{◌≡◌, ◌≤◌, ◌<◌, ◌⊎◌, ℕ, ◌+◌, true, false, List};
ghost use Rattle.ble_base.specs.Limits.{first_payload_octets};
ghost use Rattle.ble_base.specs.declared.procedure_kinds.Kind.{Kind};
ghost use Rattle.ble_base.specs.declared.roles.Role.{Role};
ghost use Rattle.instants.specs.declared.indications.Params.{Params};
ghost use Rattle.machines.specs.Machine.{run};
ghost use Rattle.exchange_steps.specs.procedure_values.Limits.{tx_of};
ghost use Rattle.exchange_steps.specs.procedure_values.Wants.{count_of};
ghost use Rattle.exchange_steps.specs.procedure_stages.Queue.{waiting_in};
ghost use Rattle.joint_controls.specs.table_laws.Waiting.{count_if};
ghost use Rattle.exchange_steps.specs.exchange_pairs.Exchange.{Idle, Sent, Unsent, is_idle};
ghost use Rattle.exchange_steps.specs.exchange_pairs.ExchangeRun.{exchanges, other_role};
ghost use Rattle.exchange_steps.specs.exchange_pairs.LengthLaws.{none_accepts};
ghost use Rattle.exchange_steps.specs.exchange_pairs.LengthRun.{length_exchanges};
ghost use Rattle.exchange_steps.specs.exchange_pairs.VersionRun.{versions};
ghost use Rattle.joint_controls.specs.phased_control.Phased.{Phased, is_open_now};
ghost use Rattle.joint_controls.specs.Joint.{Joint, JointStep, after_all, beginning};
ghost use Rattle.joint_exchanges.specs.Agreement.{Asked, coming_to, end_at, first_rx_at};
ghost use Rattle.joint_exchanges.specs.Agreement.{is_answer_of, is_first_of, is_question_of};
ghost use Rattle.joint_exchanges.specs.Agreement.{is_version_ctrl, is_version_ind, kept_of};
ghost use Rattle.joint_exchanges.specs.Agreement.{places_of, questions_waiting, sent_from};
ghost use Rattle.joint_exchanges.specs.Agreement.{stage_at, untaken, version_coming};
ghost use Rattle.joint_exchanges.specs.Agreement.{version_places, version_stage_at, waiting};
ghost use Rattle.joint_exchanges.specs.Machines.{events_of, features_event, features_link};
ghost use Rattle.joint_exchanges.specs.Machines.{lengths_event, lengths_link, maxima_after_all};
ghost use Rattle.joint_exchanges.specs.Machines.{none_sent, versions_event, versions_link};
ghost use Rattle.joint_exchanges.specs.Moves.{MayMoveAll, after_moves};
ghost use Rattle.joint_exchanges.specs.Parts.{parts_of};
ghost use Rattle.joint_exchanges.specs.Runs.{AllBefore, GoesOn, moves_in};
ghost use Rattle.joint_exchanges.specs.SentByRole.{AreOfRoles, HaveMeaning};
ghost use Rattle.joint_exchanges.specs.Waiting.{exchange_waiting, is_cipher, is_exclusive};
ghost use Rattle.joint_exchanges.specs.Waiting.{kinds_waiting, rejections_waiting};

/// Up to each state in which a joint run goes on, its steps are moves of the exchanges, each of
/// which may come, and these are runs of the three machines of exchanges: so the laws of those hold
/// of each such state. What an end receives at most never changes.
pub fn joint_runs_are_runs_of_exchanges()
    ensures moves { (central_rx peripheral_rx : ℕ) (first : Params) (slot : ℕ)
        (steps : List JointStep) → let start = beginning central_rx peripheral_rx first slot in
        GoesOn steps start → parts_of (after_all steps start)
        ≡ after_moves (moves_in steps start) (parts_of start) }
    ensures may { (central_rx peripheral_rx : ℕ) (first : Params) (slot : ℕ)
        (steps : List JointStep) → let start = beginning central_rx peripheral_rx first slot in
        GoesOn steps start → MayMoveAll (moves_in steps start) (parts_of start) }
    ensures features { (central_rx peripheral_rx : ℕ) (first : Params) (slot : ℕ)
        (steps : List JointStep) → let start = beginning central_rx peripheral_rx first slot in
        GoesOn steps start → features_link (parts_of (after_all steps start))
        ≡ run exchanges (events_of features_event (moves_in steps start)) }
    ensures lengths { (central_rx peripheral_rx : ℕ) (first : Params) (slot : ℕ)
        (steps : List JointStep) → let start = beginning central_rx peripheral_rx first slot in
        GoesOn steps start
        → lengths_link (maxima_after_all (moves_in steps start) none_sent)
        (parts_of (after_all steps start))
        ≡ run (length_exchanges central_rx peripheral_rx)
        (events_of lengths_event (moves_in steps start)) }
    ensures accepts { (steps : List JointStep) (s : Joint)
        → none_accepts (events_of lengths_event (moves_in steps s)) ≡ true }
    ensures versions { (central_rx peripheral_rx : ℕ) (first : Params) (slot : ℕ)
        (steps : List JointStep) → let start = beginning central_rx peripheral_rx first slot in
        GoesOn steps start → versions_link (parts_of (after_all steps start))
        ≡ run versions (events_of versions_event (moves_in steps start)) }
{}

/// Of features and of lengths: an end with no exchange of its own has no PDU of one anywhere. While
/// the question is unsent it waits, and nothing else is anywhere. After it was sent it is on its
/// way, or kept, or its answer waits or is on its way: exactly one of these, or none where the
/// other end is to end the link.
pub fn exchanges_are_in_one_place()
    ensures idle { (central_rx peripheral_rx : ℕ) (first : Params) (slot : ℕ)
        (steps : List JointStep) (asked : Asked) (role : Role)
        → let s = after_all steps (beginning central_rx peripheral_rx first slot) in
        GoesOn steps (beginning central_rx peripheral_rx first slot)
        → stage_at asked (end_at role s) ≡ Idle
        → (questions_waiting asked role s ≡ 0) × (places_of asked role s ≡ 0) }
    ensures unsent { (central_rx peripheral_rx : ℕ) (first : Params) (slot : ℕ)
        (steps : List JointStep) (asked : Asked) (role : Role)
        → let s = after_all steps (beginning central_rx peripheral_rx first slot) in
        GoesOn steps (beginning central_rx peripheral_rx first slot)
        → stage_at asked (end_at role s) ≡ Unsent
        → (questions_waiting asked role s ≡ 1) × (places_of asked role s ≡ 0) }
    ensures sent { (central_rx peripheral_rx : ℕ) (first : Params) (slot : ℕ)
        (steps : List JointStep) (asked : Asked) (role : Role)
        → let s = after_all steps (beginning central_rx peripheral_rx first slot) in
        GoesOn steps (beginning central_rx peripheral_rx first slot)
        → stage_at asked (end_at role s) ≡ Sent → (questions_waiting asked role s ≡ 0)
        × ((places_of asked role s ≡ 1) ⊎ ((places_of asked role s ≡ 0)
        × (is_open_now (end_at (other_role role) s) ≡ false))) }
{}

/// An answer that comes to an end finds its question: that was sent, and the exchange is in
/// progress. A question that comes to an end or is kept there finds no answer to an earlier one.
pub fn answers_meet_their_questions()
    ensures answers { (central_rx peripheral_rx : ℕ) (first : Params) (slot : ℕ)
        (steps : List JointStep) (asked : Asked) (role : Role)
        → let s = after_all steps (beginning central_rx peripheral_rx first slot) in
        GoesOn steps (beginning central_rx peripheral_rx first slot)
        → untaken (is_answer_of asked) (coming_to role s) ≡ 1
        → stage_at asked (end_at role s) ≡ Sent }
    ensures questions { (central_rx peripheral_rx : ℕ) (first : Params) (slot : ℕ)
        (steps : List JointStep) (asked : Asked) (role : Role)
        → let s = after_all steps (beginning central_rx peripheral_rx first slot) in
        GoesOn steps (beginning central_rx peripheral_rx first slot)
        → untaken (is_question_of asked) (coming_to role s)
        + kept_of (is_first_of asked) (other_role role) s ≡ 1
        → (waiting (is_answer_of asked) (end_at role s) ≡ 0)
        × (untaken (is_answer_of asked) (sent_from role s) ≡ 0) }
{}

/// Each end sends LL_VERSION_IND once, and takes one: once it was queued it is in one place, in the
/// queue, on its way, kept or taken. An own exchange runs or is wanted only until the other's
/// version is known; while it is unsent the PDU waits, and afterwards that or the other's is to
/// come, or the other end is to end the link. An end that knows the other's version and whose own
/// PDU is still to come answers an exchange of the other, or that is to end the link. One whose PDU
/// was queued and that does not know the other's version runs an exchange. The PDU was queued at
/// each end that runs an exchange, and at each that knows the other's version and is not to end the
/// link. What the central keeps began an exchange of the peripheral.
pub fn a_version_goes_once()
    ensures once { (central_rx peripheral_rx : ℕ) (first : Params) (slot : ℕ)
        (steps : List JointStep) (role : Role)
        → let s = after_all steps (beginning central_rx peripheral_rx first slot) in
        GoesOn steps (beginning central_rx peripheral_rx first slot)
        → version_places role s ≡ count_if (end_at role s).control.table.version_used }
    ensures taken { (central_rx peripheral_rx : ℕ) (first : Params) (slot : ℕ)
        (steps : List JointStep) (role : Role)
        → let s = after_all steps (beginning central_rx peripheral_rx first slot) in
        GoesOn steps (beginning central_rx peripheral_rx first slot)
        → untaken is_version_ind (coming_to role s)
        + kept_of is_version_ctrl (other_role role) s ≡ 1
        → (end_at role s).knows_version ≡ false }
    ensures known { (central_rx peripheral_rx : ℕ) (first : Params) (slot : ℕ)
        (steps : List JointStep) (role : Role)
        → let s = after_all steps (beginning central_rx peripheral_rx first slot) in
        GoesOn steps (beginning central_rx peripheral_rx first slot)
        → (end_at role s).knows_version ≡ true → (version_stage_at (end_at role s) ≡ Idle)
        × (count_of Kind.Version (end_at role s).control.table.wanted ≡ 0) }
    ensures unsent { (central_rx peripheral_rx : ℕ) (first : Params) (slot : ℕ)
        (steps : List JointStep) (role : Role)
        → let s = after_all steps (beginning central_rx peripheral_rx first slot) in
        GoesOn steps (beginning central_rx peripheral_rx first slot)
        → version_stage_at (end_at role s) ≡ Unsent
        → waiting is_version_ind (end_at role s) ≡ 1 }
    ensures sent { (central_rx peripheral_rx : ℕ) (first : Params) (slot : ℕ)
        (steps : List JointStep) (role : Role)
        → let s = after_all steps (beginning central_rx peripheral_rx first slot) in
        GoesOn steps (beginning central_rx peripheral_rx first slot)
        → version_stage_at (end_at role s) ≡ Sent
        → (waiting is_version_ind (end_at role s) ≡ 0) × ((1 ≤ version_coming role s)
        ⊎ (is_open_now (end_at (other_role role) s) ≡ false)) }
    ensures answering { (central_rx peripheral_rx : ℕ) (first : Params) (slot : ℕ)
        (steps : List JointStep) (role : Role)
        → let s = after_all steps (beginning central_rx peripheral_rx first slot) in
        GoesOn steps (beginning central_rx peripheral_rx first slot)
        → (end_at role s).knows_version ≡ true
        → 1 ≤ waiting is_version_ind (end_at role s) + untaken is_version_ind (sent_from role s)
        → (version_stage_at (end_at (other_role role) s) ≡ Sent)
        ⊎ (is_open_now (end_at (other_role role) s) ≡ false) }
    ensures used { (central_rx peripheral_rx : ℕ) (first : Params) (slot : ℕ)
        (steps : List JointStep) (role : Role)
        → let s = after_all steps (beginning central_rx peripheral_rx first slot) in
        GoesOn steps (beginning central_rx peripheral_rx first slot)
        → (end_at role s).control.table.version_used ≡ true
        → (end_at role s).knows_version ≡ false
        → is_idle (version_stage_at (end_at role s)) ≡ false }
    ensures running { (central_rx peripheral_rx : ℕ) (first : Params) (slot : ℕ)
        (steps : List JointStep) (role : Role)
        → let s = after_all steps (beginning central_rx peripheral_rx first slot) in
        GoesOn steps (beginning central_rx peripheral_rx first slot)
        → is_idle (version_stage_at (end_at role s)) ≡ false
        → (end_at role s).control.table.version_used ≡ true }
    ensures known_used { (central_rx peripheral_rx : ℕ) (first : Params) (slot : ℕ)
        (steps : List JointStep) (role : Role)
        → let s = after_all steps (beginning central_rx peripheral_rx first slot) in
        GoesOn steps (beginning central_rx peripheral_rx first slot)
        → (end_at role s).knows_version ≡ true → is_open_now (end_at role s) ≡ true
        → (end_at role s).control.table.version_used ≡ true }
    ensures kept { (central_rx peripheral_rx : ℕ) (first : Params) (slot : ℕ)
        (steps : List JointStep)
        → let s = after_all steps (beginning central_rx peripheral_rx first slot) in
        GoesOn steps (beginning central_rx peripheral_rx first slot)
        → kept_of is_version_ctrl Role.Peripheral s ≡ 1
        → s.central.control.table.version_used ≡ false }
    ensures kept_runs { (central_rx peripheral_rx : ℕ) (first : Params) (slot : ℕ)
        (steps : List JointStep)
        → let s = after_all steps (beginning central_rx peripheral_rx first slot) in
        GoesOn steps (beginning central_rx peripheral_rx first slot)
        → kept_of is_version_ctrl Role.Peripheral s ≡ 1
        → is_idle (version_stage_at s.peripheral) ≡ false }
{}

/// What an end receives at most is what it received as the link began. The other end knows 27
/// octets or exactly that, so what it transmits at most never exceeds it: data that it fixes, of
/// any number of octets that its lengths let it send, fits.
pub fn lengths_fit_their_receiver()
    ensures stays { (central_rx peripheral_rx : ℕ) (first : Params) (slot : ℕ)
        (steps : List JointStep) (role : Role)
        → let s = after_all steps (beginning central_rx peripheral_rx first slot) in
        GoesOn steps (beginning central_rx peripheral_rx first slot)
        → (end_at role s).control.table.lengths.own_rx
        ≡ first_rx_at role central_rx peripheral_rx }
    ensures known { (central_rx peripheral_rx : ℕ) (first : Params) (slot : ℕ)
        (steps : List JointStep) (role : Role)
        → let s = after_all steps (beginning central_rx peripheral_rx first slot) in
        GoesOn steps (beginning central_rx peripheral_rx first slot)
        → first_payload_octets ≤ central_rx → first_payload_octets ≤ peripheral_rx
        → ((end_at (other_role role) s).control.table.lengths.peer_rx ≡ first_payload_octets)
        ⊎ ((end_at (other_role role) s).control.table.lengths.peer_rx
        ≡ first_rx_at role central_rx peripheral_rx) }
    ensures fits { (central_rx peripheral_rx octets : ℕ) (first : Params) (slot : ℕ)
        (steps : List JointStep) (role : Role)
        → let s = after_all steps (beginning central_rx peripheral_rx first slot) in
        GoesOn steps (beginning central_rx peripheral_rx first slot)
        → first_payload_octets ≤ central_rx → first_payload_octets ≤ peripheral_rx
        → octets ≤ tx_of (end_at (other_role role) s).control.table.lengths
        → octets ≤ first_rx_at role central_rx peripheral_rx }
{}

/// At most two PDUs of an exchange of features wait at an end, two of one of lengths, and one
/// LL_VERSION_IND.
pub fn few_pdus_of_exchanges_wait()
    ensures asked { (central_rx peripheral_rx : ℕ) (first : Params) (slot : ℕ)
        (steps : List JointStep) (asked : Asked) (role : Role)
        → let s = after_all steps (beginning central_rx peripheral_rx first slot) in
        GoesOn steps (beginning central_rx peripheral_rx first slot)
        → exchange_waiting asked (end_at role s) ≤ 2 }
    ensures version { (central_rx peripheral_rx : ℕ) (first : Params) (slot : ℕ)
        (steps : List JointStep) (role : Role)
        → let s = after_all steps (beginning central_rx peripheral_rx first slot) in
        GoesOn steps (beginning central_rx peripheral_rx first slot)
        → waiting is_version_ind (end_at role s) ≤ 1 }
{}

/// An end of a joint run queues and sends PDUs of its role alone, so the other end knows each of
/// them; and what is read is what was sent. LL_UNKNOWN_RSP waits only for a PDU of the encryption
/// without a meaning in the phase of its receiver; where no such PDU comes, none waits anywhere. A
/// peripheral rejects no procedure that excludes others.
pub fn ends_send_pdus_of_their_role()
    ensures known { (central_rx peripheral_rx : ℕ) (first : Params) (slot : ℕ)
        (steps : List JointStep) → let start = beginning central_rx peripheral_rx first slot in
        GoesOn steps start → AreOfRoles true (after_all steps start) }
    ensures meant { (central_rx peripheral_rx : ℕ) (first : Params) (slot : ℕ)
        (steps : List JointStep) → let start = beginning central_rx peripheral_rx first slot in
        GoesOn steps start → AllBefore HaveMeaning steps start
        → AreOfRoles false (after_all steps start) }
    ensures rejections { (central_rx peripheral_rx : ℕ) (first : Params) (slot : ℕ)
        (steps : List JointStep) → let start = beginning central_rx peripheral_rx first slot in
        GoesOn steps start → rejections_waiting (after_all steps start).peripheral ≡ 0 }
{}

/// The control PDUs that wait at an end are those of the kinds of procedures, each of one kind. So
/// fewer than sixteen wait in a joint run where all that comes has a meaning, and where of the
/// procedures that exclude each other at most one rejection and two PDUs wait, and of the
/// encryption at most three, with LL_TERMINATE_IND for want of a key.
pub fn few_control_pdus_wait_by_kind()
    ensures sum { (s : Phased) → waiting_in s.control.table.queue ≡ kinds_waiting s }
    ensures few { (central_rx peripheral_rx : ℕ) (first : Params) (slot : ℕ)
        (steps : List JointStep) (role : Role)
        → let s = after_all steps (beginning central_rx peripheral_rx first slot) in
        GoesOn steps (beginning central_rx peripheral_rx first slot)
        → AllBefore HaveMeaning steps (beginning central_rx peripheral_rx first slot)
        → rejections_waiting (end_at role s) ≤ 1
        → waiting is_exclusive (end_at role s) ≤ 2 → waiting is_cipher (end_at role s) ≤ 3
        → waiting_in (end_at role s).control.table.queue < 16 }
{}
