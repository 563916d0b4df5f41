//! Each call on a table of procedures is a step of the table of a joint run, exactly. The bodies do
//! nothing: the contracts are the laws.
ghost use Rattle.std.specs.Prelude.{◌≡◌, ◌&&◌, ℕ, Bool, true, false, not, List, Option, Some, None};
ghost use Rattle.std.specs.Prelude.{Result, nat_le, length, ◌+◌, ◌≤◌};
ghost use Rattle.ble_base.specs.declared.error_codes.ErrCode.{ErrCode};
ghost use Rattle.data_pdu.specs.declared.ctrl.Ctrl.{Ctrl};
ghost use Rattle.data_pdu.specs.declared.ctrl.CtrlRead.{CtrlRead};
ghost use Rattle.procedure_values.specs.declared.asks.Ask.{Ask};
ghost use Rattle.exclusive_stages.specs.declared.pdus.Pdu.{Pdu};
ghost use Rattle.exclusive_stages.specs.Kinds.{central_kind, peripheral_kind};
ghost use Rattle.procedure_stages.specs.declared.stages.Central.{Central};
ghost use Rattle.procedure_stages.specs.declared.stages.Peripheral.{Peripheral};
ghost use Rattle.procedure_stages.specs.declared.stages.Progress.TheVariants.{Central as central};
ghost use Rattle.procedure_stages.specs.declared.Progress.TheVariants.{Peripheral as peripheral};
ghost use Rattle.procedure_stages.specs.Closing.{is_open, is_disconnecting};
ghost use Rattle.procedure_stages.specs.Exclusive.{pdu_of_outgoing};
ghost use Rattle.procedure_stages.specs.Steps.{asks_host};
ghost use Rattle.procedure_stages.specs.declared.steps.Effect.{Effect};
ghost use Rattle.procedures.specs.Outcomes.{empty_step};
ghost use Rattle.procedures.specs.Table.{TableFacts};
ghost use Rattle.procedures.specs.Queue.{next_of};
ghost use Rattle.procedures.specs.Taking.{took_step, outcome_of, lacks_room, no_room};
ghost use Rattle.procedures.specs.Beginning.{begin_step, ask_step};
ghost use Rattle.procedures.specs.Sending.{went_step, acked_step};
ghost use Rattle.procedures.specs.Going.{entered_step, host_answer_step, terminate_step, owe_step};
ghost use Rattle.collisions.specs.CentralTable;
ghost use Rattle.collisions.specs.PeripheralTable;
ghost use Rattle.collisions.specs.declared.events.Event.{Event};
ghost use Rattle.collisions.specs.JointRun.{collisions};
ghost use Rattle.machines.specs.Machine.{run, run_from};
ghost use Rattle.collision_steps.specs.Parts.{outgoing_part, rejections_part, drafts_part};
ghost use Rattle.collision_steps.specs.Answers.{stops_run, code_of_end, exclusive_refusal};
ghost use Rattle.collision_steps.specs.Answers.{exclusive_done, refusal_with, code_of_refusal};
ghost use Rattle.collision_steps.specs.Answers.{kind_over, first_waiting, if_it_may};
ghost use Rattle.collision_steps.specs.SubLists.{Directions, Move, is_move_kept, may_move};
ghost use Rattle.collision_steps.specs.SubLists.{moves_kept, part_of, reliable};
ghost use Rattle.collision_steps.specs.CentralPart;
ghost use Rattle.collision_steps.specs.PeripheralPart;

/// Where there is no room for an answer, a PDU that is taken changes nothing, and the link ends for
/// want of it. This holds at either end.
pub fn a_table_without_room_is_unchanged()
    ensures { (f : TableFacts) (read : CtrlRead) (slot : ℕ) (quiet : Bool)
        → lacks_room f (outcome_of f quiet read) ≡ true
        → took_step f read slot quiet ≡ (f, no_room) }
{}

/// A PDU that a central takes, where there is room and a joint run goes on, does to the procedures
/// that exclude each other what it does in a joint run, for every table. The link ends just where
/// and for the error for which it does there. What the PDU refuses is the procedure of these that
/// is refused there, with the error that the PDU gives; it completes none of them. The host is
/// asked exactly where it is asked there.
pub fn a_central_takes_as_in_a_joint_run()
    ensures part { (f : TableFacts) (c : Central) (read : CtrlRead) (slot : ℕ) (quiet : Bool)
        → f.progress ≡ central c → lacks_room f (outcome_of f quiet read) ≡ false
        → stops_run read ≡ false
        → CentralPart.central_of (took_step f read slot quiet).0
        ≡ (CentralPart.answer_to (CentralPart.step_of_read f.progress read)
        (CentralPart.central_of f)).0 }
    ensures ends { (f : TableFacts) (c : Central) (read : CtrlRead) (slot : ℕ) (quiet : Bool)
        → f.progress ≡ central c → lacks_room f (outcome_of f quiet read) ≡ false
        → stops_run read ≡ false
        → (took_step f read slot quiet).1.ends
        ≡ code_of_end (CentralPart.answer_to (CentralPart.step_of_read f.progress read)
        (CentralPart.central_of f)).1 }
    ensures refused { (f : TableFacts) (c : Central) (read : CtrlRead) (slot : ℕ) (quiet : Bool)
        → f.progress ≡ central c → lacks_room f (outcome_of f quiet read) ≡ false
        → stops_run read ≡ false
        → exclusive_refusal (took_step f read slot quiet).1.refused
        ≡ refusal_with (CentralPart.refused_kind (CentralPart.step_of_read f.progress read)
        (CentralPart.central_of f).own) (code_of_refusal read) }
    ensures done { (f : TableFacts) (c : Central) (read : CtrlRead) (slot : ℕ) (quiet : Bool)
        → f.progress ≡ central c → lacks_room f (outcome_of f quiet read) ≡ false
        → stops_run read ≡ false
        → exclusive_done (took_step f read slot quiet).1.done ≡ None }
    ensures asks { (f : TableFacts) (c : Central) (read : CtrlRead) (slot : ℕ) (quiet : Bool)
        → f.progress ≡ central c → lacks_room f (outcome_of f quiet read) ≡ false
        → stops_run read ≡ false
        → asks_host (took_step f read slot quiet).1.effect
        ≡ CentralPart.asks_host_by (CentralPart.step_of_read f.progress read)
        (CentralPart.central_of f).own }
{}

/// The same at a peripheral, which completes its own PHY update by LL_PHY_UPDATE_IND exactly where
/// its stage ends by that, and never asks its host. Whether an Instant has passed its table does
/// not know: the layer above does.
pub fn a_peripheral_takes_as_in_a_joint_run()
    ensures part { (f : TableFacts) (p : Peripheral) (read : CtrlRead) (slot : ℕ) (quiet : Bool)
        → f.progress ≡ peripheral p → lacks_room f (outcome_of f quiet read) ≡ false
        → stops_run read ≡ false
        → PeripheralPart.peripheral_of (took_step f read slot quiet).0
        ≡ (PeripheralPart.answer_to (PeripheralPart.step_of_read f.progress read)
        (PeripheralPart.peripheral_of f)).0 }
    ensures ends { (f : TableFacts) (p : Peripheral) (read : CtrlRead) (slot : ℕ) (quiet : Bool)
        → f.progress ≡ peripheral p → lacks_room f (outcome_of f quiet read) ≡ false
        → stops_run read ≡ false
        → (took_step f read slot quiet).1.ends
        ≡ code_of_end (PeripheralPart.answer_to (PeripheralPart.step_of_read f.progress read)
        (PeripheralPart.peripheral_of f)).1 }
    ensures refused { (f : TableFacts) (p : Peripheral) (read : CtrlRead) (slot : ℕ) (quiet : Bool)
        → f.progress ≡ peripheral p → lacks_room f (outcome_of f quiet read) ≡ false
        → stops_run read ≡ false
        → exclusive_refusal (took_step f read slot quiet).1.refused
        ≡ refusal_with (PeripheralPart.refused_kind (PeripheralPart.step_of_read f.progress read)
        (PeripheralPart.peripheral_of f).own) (code_of_refusal read) }
    ensures done { (f : TableFacts) (p : Peripheral) (read : CtrlRead) (slot : ℕ) (quiet : Bool)
        → f.progress ≡ peripheral p → lacks_room f (outcome_of f quiet read) ≡ false
        → stops_run read ≡ false
        → exclusive_done (took_step f read slot quiet).1.done
        ≡ PeripheralPart.done_by (PeripheralPart.step_of_read f.progress read)
        (PeripheralPart.peripheral_of f) }
    ensures asks { (f : TableFacts) (p : Peripheral) (read : CtrlRead) (slot : ℕ) (quiet : Bool)
        → f.progress ≡ peripheral p → lacks_room f (outcome_of f quiet read) ≡ false
        → stops_run read ≡ false
        → asks_host (took_step f read slot quiet).1.effect ≡ false }
{}

/// A joint run stops where an end takes LL_TERMINATE_IND. The layer above is told that the peer ends
/// the link, and why; nothing else happens at once, and nothing more is queued at that end.
pub fn a_taken_termination_stops_a_joint_run()
    ensures told { (f : TableFacts) (slot code : ℕ) (quiet : Bool)
        → (took_step f (CtrlRead.Known (Ctrl.TerminateInd code)) slot quiet).1
        ≡ record empty_step { effect = Effect.PeerEnds (record { 0 = code }) } }
    ensures closed { (f : TableFacts) (slot code : ℕ) (quiet : Bool)
        → is_open (took_step f (CtrlRead.Known (Ctrl.TerminateInd code)) slot quiet).0.closing
        ≡ false }
{}

/// What a central sends next is what goes next in a joint run, where it is a PDU of these
/// procedures: the first of those that wait, and then it leaves its queue. It waits where a
/// Disconnect goes first and no rejection waits, or where the Instant of the last indication is not
/// past and the PDU is one that waits for that; and nowhere else. An Instant is counted as in a
/// joint run with numbers.
pub fn a_central_sends_as_in_a_joint_run()
    ensures next { (f : TableFacts) (c : Central) (event : ℕ) (quiet : Bool)
        → f.progress ≡ central c
        → outgoing_part (next_of f event quiet)
        ≡ if_it_may (CentralPart.may_go (is_disconnecting f.closing && quiet)
        (nat_le (CentralPart.passed_from f.progress) event) (CentralPart.central_of f))
        (outgoing_part (first_waiting f.queue)) }
    ensures first { (f : TableFacts) (c : Central) (pdu : Pdu) → f.progress ≡ central c
        → outgoing_part (first_waiting f.queue) ≡ Some pdu
        → CentralTable.next_pdu (CentralPart.central_of f) ≡ Some pdu }
    ensures went { (f : TableFacts) (c : Central) (event skips slot : ℕ) (quiet : Bool)
        → f.progress ≡ central c
        → CentralPart.central_of (went_step f event skips quiet slot).0
        ≡ CentralPart.after_steps
        (CentralPart.sending_of (outgoing_part (next_of f event quiet)))
        (CentralPart.central_of f) }
    ensures instant { (f : TableFacts) (c : Central) (event skips slot : ℕ) (quiet : Bool)
        → f.progress ≡ central c
        → CentralPart.passed_from (went_step f event skips quiet slot).0.progress
        ≡ CentralPart.passed_from_after (outgoing_part (next_of f event quiet)) event skips
        (CentralPart.passed_from f.progress) }
{}

/// The same at a peripheral, which waits for no Instant.
pub fn a_peripheral_sends_as_in_a_joint_run()
    ensures next { (f : TableFacts) (p : Peripheral) (event : ℕ) (quiet : Bool)
        → f.progress ≡ peripheral p
        → pdu_of_outgoing (next_of f event quiet)
        ≡ if_it_may (λ pdu. not (is_disconnecting f.closing && quiet))
        (pdu_of_outgoing (first_waiting f.queue)) }
    ensures first { (f : TableFacts) (p : Peripheral) (pdu : Pdu) → f.progress ≡ peripheral p
        → pdu_of_outgoing (first_waiting f.queue) ≡ Some pdu
        → PeripheralTable.next_pdu (PeripheralPart.peripheral_of f) ≡ Some pdu }
    ensures went { (f : TableFacts) (p : Peripheral) (event skips slot : ℕ) (quiet : Bool)
        → f.progress ≡ peripheral p
        → PeripheralPart.peripheral_of (went_step f event skips quiet slot).0
        ≡ PeripheralPart.after_steps
        (PeripheralPart.sending_of (pdu_of_outgoing (next_of f event quiet)))
        (PeripheralPart.peripheral_of f) }
{}

/// What each other call on a central's table does to the procedures that exclude each other. A
/// procedure of these begins only where the rule of joint runs lets it. One is done exactly where
/// its stage ends. A Disconnect at an end that is closing already is no step.
pub fn calls_on_a_central_are_steps()
    ensures began { (f : TableFacts) (c : Central) (slot : ℕ) (quiet : Bool)
        → f.progress ≡ central c
        → CentralPart.central_of (begin_step f slot quiet).0
        ≡ CentralPart.after_steps (CentralPart.step_of_begun (begin_step f slot quiet).1)
        (CentralPart.central_of f) }
    ensures may_begin { (f : TableFacts) (c : Central) (slot : ℕ) (quiet : Bool)
        → f.progress ≡ central c
        → CentralPart.may_begin_by (CentralPart.step_of_begun (begin_step f slot quiet).1)
        (CentralPart.central_of f) ≡ true }
    ensures acked { (f : TableFacts) (c : Central) → f.progress ≡ central c
        → CentralPart.central_of (acked_step f).0
        ≡ CentralPart.after_steps (CentralPart.ack_of (outgoing_part f.out))
        (CentralPart.central_of f) }
    ensures done_by_ack { (f : TableFacts) (c : Central) → f.progress ≡ central c
        → (acked_step f).1 ≡ kind_over (central_kind (CentralPart.central_of f).own)
        (central_kind (CentralPart.central_of (acked_step f).0).own) }
    ensures entered { (f : TableFacts) (c : Central) (applied : Bool) → f.progress ≡ central c
        → CentralPart.central_of (entered_step f applied).0
        ≡ CentralTable.entered applied (CentralPart.central_of f) }
    ensures done_by_entering { (f : TableFacts) (c : Central) (applied : Bool)
        → f.progress ≡ central c
        → (entered_step f applied).1 ≡ kind_over (central_kind (CentralPart.central_of f).own)
        (central_kind (CentralPart.central_of (entered_step f applied).0).own) }
    ensures host_answer { (f : TableFacts) (c : Central) (answer : Result Ask ErrCode)
        → f.progress ≡ central c
        → CentralPart.central_of (host_answer_step f answer)
        ≡ CentralPart.after_steps (CentralPart.step_of_answer answer)
        (CentralPart.central_of f) }
    ensures terminate { (f : TableFacts) (c : Central) (reason : ErrCode)
        → f.progress ≡ central c → is_open f.closing ≡ true
        → CentralPart.central_of (terminate_step f reason)
        ≡ CentralTable.terminated (CentralPart.central_of f) }
    ensures terminate_again { (f : TableFacts) (c : Central) (reason : ErrCode)
        → f.progress ≡ central c → is_open f.closing ≡ false
        → CentralPart.central_of (terminate_step f reason) ≡ CentralPart.central_of f }
    ensures owe { (f : TableFacts) (c : Central) (ctrl : Ctrl) → f.progress ≡ central c
        → CentralPart.central_of (owe_step f ctrl)
        ≡ CentralPart.after_steps (CentralPart.step_of_given ctrl) (CentralPart.central_of f) }
    ensures ask { (f : TableFacts) (ask : Ask)
        → CentralPart.central_of (ask_step f ask) ≡ CentralPart.central_of f }
{}

/// The same at a peripheral. That no request waits for its host there leaves `host_answer` out.
pub fn calls_on_a_peripheral_are_steps()
    ensures began { (f : TableFacts) (p : Peripheral) (slot : ℕ) (quiet : Bool)
        → f.progress ≡ peripheral p
        → PeripheralPart.peripheral_of (begin_step f slot quiet).0
        ≡ PeripheralPart.after_steps (PeripheralPart.step_of_begun (begin_step f slot quiet).1)
        (PeripheralPart.peripheral_of f) }
    ensures may_begin { (f : TableFacts) (p : Peripheral) (slot : ℕ) (quiet : Bool)
        → f.progress ≡ peripheral p
        → PeripheralPart.may_begin_by (PeripheralPart.step_of_begun (begin_step f slot quiet).1)
        (PeripheralPart.peripheral_of f) ≡ true }
    ensures acked { (f : TableFacts) (p : Peripheral) → f.progress ≡ peripheral p
        → PeripheralPart.peripheral_of (acked_step f).0
        ≡ PeripheralPart.after_steps (PeripheralPart.ack_of (pdu_of_outgoing f.out))
        (PeripheralPart.peripheral_of f) }
    ensures done_by_ack { (f : TableFacts) (p : Peripheral) → f.progress ≡ peripheral p
        → (acked_step f).1 ≡ kind_over (peripheral_kind (PeripheralPart.peripheral_of f).own)
        (peripheral_kind (PeripheralPart.peripheral_of (acked_step f).0).own) }
    ensures entered { (f : TableFacts) (p : Peripheral) (applied : Bool)
        → f.progress ≡ peripheral p
        → PeripheralPart.peripheral_of (entered_step f applied).0
        ≡ PeripheralTable.entered applied (PeripheralPart.peripheral_of f) }
    ensures done_by_entering { (f : TableFacts) (p : Peripheral) (applied : Bool)
        → f.progress ≡ peripheral p
        → (entered_step f applied).1
        ≡ kind_over (peripheral_kind (PeripheralPart.peripheral_of f).own)
        (peripheral_kind (PeripheralPart.peripheral_of (entered_step f applied).0).own) }
    ensures terminate { (f : TableFacts) (p : Peripheral) (reason : ErrCode)
        → f.progress ≡ peripheral p → is_open f.closing ≡ true
        → PeripheralPart.peripheral_of (terminate_step f reason)
        ≡ PeripheralTable.terminated (PeripheralPart.peripheral_of f) }
    ensures terminate_again { (f : TableFacts) (p : Peripheral) (reason : ErrCode)
        → f.progress ≡ peripheral p → is_open f.closing ≡ false
        → PeripheralPart.peripheral_of (terminate_step f reason)
        ≡ PeripheralPart.peripheral_of f }
    ensures owe { (f : TableFacts) (p : Peripheral) (ctrl : Ctrl) → f.progress ≡ peripheral p
        → PeripheralPart.peripheral_of (owe_step f ctrl)
        ≡ PeripheralPart.after_steps (PeripheralPart.step_of_given ctrl)
        (PeripheralPart.peripheral_of f) }
    ensures ask { (f : TableFacts) (ask : Ask)
        → PeripheralPart.peripheral_of (ask_step f ask) ≡ PeripheralPart.peripheral_of f }
{}

/// In a joint run at most two PDUs of the procedures that exclude each other wait at a table, so
/// that these are never why an end lacks room for an answer.
pub fn few_pdus_wait_at_a_table()
    ensures central { (f : TableFacts) (c : Central) (events : List Event) → f.progress ≡ central c
        → CentralPart.central_of f ≡ (run collisions events).central
        → length (rejections_part f.queue.rejections) + length (drafts_part f.queue.drafts) ≤ 2 }
    ensures peripheral { (f : TableFacts) (p : Peripheral) (events : List Event)
        → f.progress ≡ peripheral p
        → PeripheralPart.peripheral_of f ≡ (run collisions events).peripheral
        → length (drafts_part f.queue.drafts) ≤ 2 }
{}

/// The rules of a joint run hold of the PDUs of some kinds alone where they hold of all: a run with
/// the other PDUs left out is a run, in which each PDU that is kept is where it was. `A` is the
/// type of a PDU.
pub fn other_pdus_may_be_left_out<A>()
    ensures comes { (keeps : A → Bool) (move : Move A) (s : Directions A)
        → may_move move s ≡ true → is_move_kept keeps move s ≡ true
        → may_move move (part_of keeps s) ≡ true }
    ensures run { (keeps : A → Bool) (s : Directions A) (moves : List (Move A))
        → run_from reliable (part_of keeps s) (moves_kept keeps s moves)
        ≡ part_of keeps (run_from reliable s moves) }
{}
