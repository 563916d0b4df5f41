//! Laws of the table of one end, over all its states and all lists of calls (Core 5.2, volume 6
//! part B, section 5). The bodies do nothing: the contracts are the laws.
ghost use Rattle.std.specs.Prelude.{◌≡◌, ◌≢◌, ℕ, ◌+◌, ◌≤◌, ◌∷◌, ◌↔◌, Bool, true, false, List, Some, None};
ghost use Rattle.std.specs.Prelude.{find, option_map, ⊤, Option};
ghost use Rattle.ble_base.specs.ErrorCodes.{unsupported_remote_feature, ll_response_timeout};
ghost use Rattle.ble_base.specs.declared.counters.SlotNo.{SlotNo};
ghost use Rattle.ble_base.specs.declared.error_codes.ErrCode.{ErrCode};
ghost use Rattle.ble_base.specs.declared.procedure_kinds.Kind.{Kind};
ghost use Rattle.ble_base.specs.declared.roles.Role.{Role};
ghost use Rattle.data_pdu.specs.declared.ctrl.Ctrl.{Ctrl};
ghost use Rattle.data_pdu.specs.declared.ctrl.CtrlRead.{CtrlRead};
ghost use Rattle.procedure_stages.specs.procedure_values.declared.drafts.Rejection.{Rejection};
ghost use Rattle.procedure_stages.specs.procedure_values.declared.drafts.Outgoing.{Outgoing};
ghost use Rattle.procedure_stages.specs.declared.stages.Central.{Central};
ghost use Rattle.procedure_stages.specs.declared.stages.Peripheral.{Peripheral};
ghost use Rattle.procedure_stages.specs.procedure_values.Asks.{kind_of_ask};
ghost use Rattle.procedure_stages.specs.Exclusive.{central_stage, peripheral_stage};
ghost use Rattle.procedure_stages.specs.Kinds.{own_kind};
ghost use Rattle.procedure_stages.specs.Kinds.{kind_at_central, kind_at_peripheral};
ghost use Rattle.procedure_stages.specs.Collisions.{collision};
ghost use Rattle.procedures.specs.Table.{TableFacts, first_facts};
ghost use Rattle.procedure_stages.specs.Closing.{is_open, is_disconnecting};
ghost use Rattle.procedure_stages.specs.InProgress.{has_peer, is_encrypting};
ghost use Rattle.procedures.specs.Queue.{next_of};
ghost use Rattle.procedure_stages.specs.Queue.{without_next};
ghost use Rattle.procedures.specs.Outcomes.{empty_step, rejected};
ghost use Rattle.procedures.specs.Request.{against_central, after_grant};
ghost use Rattle.exclusive_stages.specs.Awaited.{peer_answered};
ghost use Rattle.exclusive_stages.specs.Awaited.{central_answered};
ghost use Rattle.procedure_stages.specs.Opcodes.{first_opcode};
ghost use Rattle.procedures.specs.Taking.{took_step};
ghost use Rattle.procedures.specs.Beginning.{may_begin, begin_step, is_ready};
ghost use Rattle.procedure_stages.specs.Collisions.{peer_lets};
ghost use Rattle.procedures.specs.Going.{tick_of, response_slots};
ghost use Rattle.procedure_stages.specs.Kinds.{is_timed};
ghost use Rattle.procedures.specs.Calls.{Call, after_call, sent_by, versions_sent};
ghost use Rattle.procedures.specs.Laws.{GoesBeforeTheEnd, is_unawaited, refusal_step};
ghost use Rattle.procedures.specs.declared.outcome.Outcome.{Outcome};

/// The first procedure that the host wants and that may begin is the one that begins. One may begin
/// only where this end runs none, in phase Clear or Secure, and where the link is not to end; an
/// encryption only where no procedure of the peer is in progress.
pub fn first_that_may_begins()
    ensures first { (f : TableFacts) (slot : ℕ) (quiet : Bool)
        → (begin_step f slot quiet).1
        ≡ option_map kind_of_ask (find (λ ask. may_begin f quiet (kind_of_ask ask)) f.wanted) }
    ensures alone { (f : TableFacts) (quiet : Bool) (kind : Kind)
        → may_begin f quiet kind ≡ true → own_kind f.progress ≡ None }
    ensures quiet { (f : TableFacts) (quiet : Bool) (kind : Kind)
        → may_begin f quiet kind ≡ true → quiet ≡ true }
    ensures open_link { (f : TableFacts) (quiet : Bool) (kind : Kind)
        → may_begin f quiet kind ≡ true → is_open f.closing ≡ true }
    ensures encryption { (f : TableFacts) (quiet : Bool)
        → may_begin f quiet Kind.Encrypt ≡ true
        → (has_peer f.progress ≡ false) × (is_encrypting f.progress ≡ false) }
{}

/// A rejection that waits goes first.
pub fn rejections_go_first()
    ensures { (f : TableFacts) (event : ℕ) (quiet : Bool) (first : Rejection)
        (others : List Rejection)
        → f.queue.rejections ≡ first ∷ others → next_of f event quiet ≡ Outgoing.Rejection first }
{}

/// From an accepted Disconnect on an end in phase Clear or Secure sends nothing but rejections and
/// its LL_TERMINATE_IND.
pub fn nothing_goes_before_the_end()
    ensures { (f : TableFacts) (event : ℕ) → is_disconnecting f.closing ≡ true
        → GoesBeforeTheEnd (next_of f event true) }
{}

/// After LL_TERMINATE_IND was queued or taken no call queues anything, nothing begins, and the link
/// stays so.
pub fn nothing_is_queued_at_the_end()
    ensures queue { (f : TableFacts) (call : Call) → is_open f.closing ≡ false
        → (after_call f call).queue ≡ without_next (sent_by f call) f.queue }
    ensures stays { (f : TableFacts) (call : Call) → is_open f.closing ≡ false
        → is_open (after_call f call).closing ≡ false }
    ensures begins { (f : TableFacts) (slot : ℕ) (quiet : Bool) → is_open f.closing ≡ false
        → (begin_step f slot quiet).1 ≡ None }
{}

/// An end sends its LL_VERSION_IND at most once, whatever is called.
pub fn version_is_sent_once()
    ensures { (role : Role) (max_rx : ℕ) (calls : List Call)
        → versions_sent (first_facts role max_rx) calls ≤ 1 }
{}

/// A PDU that answers what no procedure of this end awaits changes nothing, in phase Clear or
/// Secure.
pub fn unawaited_answers_are_ignored()
    ensures { (f : TableFacts) (ctrl : Ctrl) (slot : ℕ) → is_unawaited f.progress ctrl ≡ true
        → took_step f (CtrlRead.Known ctrl) slot true ≡ (f, empty_step) }
{}

/// LL_UNKNOWN_RSP to the first PDU of the own procedure refuses that with Unsupported Remote
/// Feature, and this end runs none after it.
pub fn unknown_rsp_refuses()
    ensures step { (f : TableFacts) (opcode slot : ℕ) (quiet : Bool) (kind : Kind)
        → first_opcode f.progress ≡ Some opcode → own_kind f.progress ≡ Some kind
        → (took_step f (CtrlRead.Known (Ctrl.UnknownRsp opcode)) slot quiet).1
        ≡ refusal_step kind (record { 0 = unsupported_remote_feature }) }
    ensures over { (f : TableFacts) (opcode slot : ℕ) (quiet : Bool)
        → first_opcode f.progress ≡ Some opcode
        → own_kind (took_step f (CtrlRead.Known (Ctrl.UnknownRsp opcode)) slot quiet).0.progress
        ≡ None }
{}

/// Of two procedures that collide the central goes on with its own and rejects the peripheral's
/// with the code of the two, unless the peer has sent a PDU of the central's. The peripheral takes
/// up the central's, unless the central has sent a PDU of its own.
pub fn central_goes_on()
    ensures central { (f : TableFacts) (c : Central) (kind : Kind) (opcode : ℕ) (code : ErrCode)
        (other : Outcome)
        → collision (kind_at_central c.own) kind ≡ Some code → peer_answered (central_stage c.own) ≡ false
        → against_central f c kind opcode other ≡ rejected f opcode code }
    ensures peripheral { (f : TableFacts) (p : Peripheral) (kind : Kind) (other : Outcome)
        → central_answered (peripheral_stage p.own) ≡ false → after_grant f p kind other ≡ other }
{}

/// The time of an own procedure is over exactly 32,000 slots after its last PDU was first sent or
/// taken; an update and a map have no such time.
pub fn response_time()
    ensures over { (f : TableFacts) (slot : ℕ) (since : SlotNo)
        → is_timed (own_kind f.progress) ≡ true → f.since ≡ Some since
        → (tick_of f slot ≡ Some (record { 0 = ll_response_timeout }))
        ↔ (since.0 + response_slots ≤ slot) }
    ensures untimed { (f : TableFacts) (slot : ℕ) → is_timed (own_kind f.progress) ≡ false
        → tick_of f slot ≡ None }
    ensures unsent { (f : TableFacts) (slot : ℕ) → f.since ≡ None → tick_of f slot ≡ None }
{}
