//! The laws of one table of procedures, over all lists of calls that may come. The bodies do
//! nothing: the contracts are the laws.
ghost use Rattle.std.specs.Prelude.{◌≡◌, ℕ, ◌+◌, ◌≤◌, Bool, true, false, List, [], ◌∷◌, ◌++◌, map};
ghost use Rattle.std.specs.Prelude.{◌||◌, Some, None};
ghost use Rattle.ble_base.specs.declared.error_codes.ErrCode.{ErrCode};
ghost use Rattle.ble_base.specs.declared.roles.Role.{Role};
ghost use Rattle.data_pdu.specs.declared.ctrl.Ctrl.{Ctrl};
ghost use Rattle.data_pdu.specs.declared.ctrl.CtrlRead.{CtrlRead};
ghost use Rattle.procedures.specs.procedure_values.declared.drafts.Outgoing.{Outgoing};
ghost use Rattle.ble_base.specs.declared.procedure_kinds.Kind.{Kind};
ghost use Rattle.procedures.specs.procedure_stages.Kinds.{own_kind};
ghost use Rattle.procedures.specs.procedure_stages.Collisions.{is_exclusive};
ghost use Rattle.procedures.specs.Table.{TableFacts, first_facts};
ghost use Rattle.procedures.specs.procedure_stages.Closing.{is_open};
ghost use Rattle.procedures.specs.procedure_stages.InProgress.{has_peer, is_encrypting};
ghost use Rattle.procedures.specs.Beginning.{begin_step};
ghost use Rattle.procedures.specs.procedure_stages.Collisions.{is_encrypt};
ghost use Rattle.procedures.specs.Queue.{next_of};
ghost use Rattle.procedures.specs.procedure_stages.Queue.{waiting_in};
ghost use Rattle.procedures.specs.Sending.{next_ctrl_of};
ghost use Rattle.procedures.specs.Going.{terminate_step};
ghost use Rattle.procedures.specs.Laws.{GoesBeforeTheEnd};
ghost use Rattle.procedures.specs.Calls.{Call, after_call, after_calls};
ghost use Rattle.table_laws.specs.Waiting.{asked, own_waiting, version_waiting, end_waiting};
ghost use Rattle.table_laws.specs.Pasts.{MayAll, is_key_asked};
ghost use Rattle.table_laws.specs.Sent.{is_sent_by};
ghost use Rattle.table_laws.specs.Ending.{last_sent, last_waiting};
ghost use Rattle.table_laws.specs.Exclusive.{AllKeepRules, exclusive_waiting};
ghost use Rattle.table_laws.specs.Exclusive.{is_indication_ahead};
ghost use Rattle.table_laws.specs.Quiet.{AllMeanwhile, MayKeep, PassesPhase};
ghost use Rattle.table_laws.specs.Quiet.{first_pdus_waiting, is_unquiet, others_waiting};
ghost use Rattle.table_laws.specs.Encrypting.{MayBeginBy, MayEndBy, has_encryption};

/// Whatever the peer sends and the host asks, at most twenty control PDUs wait, so that there is
/// room for each that the table queues. At most one is the request of the own procedure, one
/// LL_VERSION_IND and one LL_TERMINATE_IND; of the others at most seventeen wait, and sixteen while
/// the host is asked. No request waits where this end runs no procedure of its own.
pub fn few_control_pdus_wait()
    ensures bound { (role : Role) (max_rx : ℕ) (calls : List Call)
        → MayAll (first_facts role max_rx) false calls
        → let f = after_calls (first_facts role max_rx) calls in
        waiting_in f.queue + asked f (is_key_asked calls)
        ≤ 17 + own_waiting f + version_waiting f + end_waiting f }
    ensures own { (role : Role) (max_rx : ℕ) (calls : List Call)
        → MayAll (first_facts role max_rx) false calls
        → own_waiting (after_calls (first_facts role max_rx) calls) ≤ 1 }
    ensures none { (role : Role) (max_rx : ℕ) (calls : List Call)
        → MayAll (first_facts role max_rx) false calls
        → own_kind (after_calls (first_facts role max_rx) calls).progress ≡ None
        → own_waiting (after_calls (first_facts role max_rx) calls) ≡ 0 }
    ensures version { (role : Role) (max_rx : ℕ) (calls : List Call)
        → MayAll (first_facts role max_rx) false calls
        → version_waiting (after_calls (first_facts role max_rx) calls) ≤ 1 }
    ensures end { (role : Role) (max_rx : ℕ) (calls : List Call)
        → MayAll (first_facts role max_rx) false calls
        → end_waiting (after_calls (first_facts role max_rx) calls) ≤ 1 }
    ensures all { (role : Role) (max_rx : ℕ) (calls : List Call)
        → MayAll (first_facts role max_rx) false calls
        → waiting_in (after_calls (first_facts role max_rx) calls).queue ≤ 20 }
{}

/// A central sends the PDUs of a central alone, and a peripheral those of a peripheral. A central
/// rejects the two procedures of the peripheral that exclude others, and a peripheral the start of
/// an encryption; neither rejects anything else.
pub fn ends_send_by_role()
    ensures { (role : Role) (max_rx : ℕ) (calls : List Call) (event skips : ℕ) (quiet : Bool)
        (ctrl : Ctrl)
        → MayAll (first_facts role max_rx) false calls
        → next_ctrl_of (after_calls (first_facts role max_rx) calls) event skips quiet ≡ Some ctrl
        → is_sent_by role ctrl ≡ true }
{}

/// From an accepted Disconnect on, if the link was not to end before, an end sends the rejections
/// that waited, in their order, and then LL_TERMINATE_IND: what it sent of these and what waits of
/// them make up this list. In phase Clear or Secure it sends nothing else, and nothing after it.
pub fn a_disconnect_is_sent_after_rejections()
    ensures order { (f : TableFacts) (reason : ErrCode) (calls : List Call)
        → is_open f.closing ≡ true
        → last_sent (terminate_step f reason) calls
        ++ last_waiting (after_calls (terminate_step f reason) calls).queue
        ≡ map (λ rejection. Outgoing.Rejection rejection) f.queue.rejections
        ++ Outgoing.Disconnect reason ∷ [] }
    ensures alone { (f : TableFacts) (reason : ErrCode) (calls : List Call) (event : ℕ)
        → GoesBeforeTheEnd (next_of (after_calls (terminate_step f reason) calls) event true) }
    ensures nothing_after { (f : TableFacts) (reason : ErrCode) (calls : List Call) (event : ℕ)
        → is_open f.closing ≡ true
        → last_sent (terminate_step f reason) calls
        ≡ map (λ rejection. Outgoing.Rejection rejection) f.queue.rejections
        ++ Outgoing.Disconnect reason ∷ []
        → next_of (after_calls (terminate_step f reason) calls) event true ≡ Outgoing.Nothing }
{}

/// At a central whose peer keeps the rules at most one PDU of the procedures that exclude each
/// other waits, and none where neither end has a procedure in progress. While the central runs such
/// a procedure or an encryption, none of the peripheral that excludes others is in progress there.
/// At a peripheral one of the central may be in progress during an encryption only where an
/// indication waits for its event.
pub fn one_exclusive_procedure_at_a_time()
    ensures queued { (max_rx : ℕ) (calls : List Call)
        → MayAll (first_facts Role.Central max_rx) false calls
        → AllKeepRules (first_facts Role.Central max_rx) calls
        → exclusive_waiting (after_calls (first_facts Role.Central max_rx) calls) ≤ 1 }
    ensures none { (max_rx : ℕ) (calls : List Call)
        → MayAll (first_facts Role.Central max_rx) false calls
        → AllKeepRules (first_facts Role.Central max_rx) calls
        → own_kind (after_calls (first_facts Role.Central max_rx) calls).progress ≡ None
        → has_peer (after_calls (first_facts Role.Central max_rx) calls).progress ≡ false
        → exclusive_waiting (after_calls (first_facts Role.Central max_rx) calls) ≡ 0 }
    ensures alone { (max_rx : ℕ) (calls : List Call) (kind : Kind)
        → MayAll (first_facts Role.Central max_rx) false calls
        → AllKeepRules (first_facts Role.Central max_rx) calls
        → own_kind (after_calls (first_facts Role.Central max_rx) calls).progress ≡ Some kind
        → (is_exclusive kind || is_encrypt kind) ≡ true
        → has_peer (after_calls (first_facts Role.Central max_rx) calls).progress ≡ false }
    ensures peripheral { (max_rx : ℕ) (calls : List Call)
        → MayAll (first_facts Role.Peripheral max_rx) false calls
        → AllKeepRules (first_facts Role.Peripheral max_rx) calls
        → is_encrypting (after_calls (first_facts Role.Peripheral max_rx) calls).progress ≡ true
        → has_peer (after_calls (first_facts Role.Peripheral max_rx) calls).progress ≡ true
        → is_indication_ahead (after_calls (first_facts Role.Peripheral max_rx) calls).progress
        ≡ true }
{}

/// An encryption is in progress at a central from its beginning in phase Clear or Secure until the
/// central takes LL_START_ENC_RSP outside these phases, or a refusal of LL_ENC_REQ. It is in
/// progress at a peripheral from LL_ENC_REQ or LL_PAUSE_ENC_REQ until the peripheral takes
/// LL_START_ENC_RSP outside these phases, or refuses the start. No other call changes this.
pub fn an_encryption_ends_by_its_last_pdu()
    ensures begins { (f : TableFacts) (call : Call) → has_encryption f.progress ≡ false
        → has_encryption (after_call f call).progress ≡ true → MayBeginBy f.progress call }
    ensures ends { (f : TableFacts) (call : Call) → has_encryption f.progress ≡ true
        → has_encryption (after_call f call).progress ≡ false → MayEndBy f.progress call }
    ensures begun { (f : TableFacts) (slot : ℕ) (quiet : Bool)
        → (begin_step f slot quiet).1 ≡ Some Kind.Encrypt
        → has_encryption (begin_step f slot quiet).0.progress ≡ true }
    ensures ended { (f : TableFacts) (slot : ℕ)
        → has_encryption
        (after_call f (Call.takes (CtrlRead.Known Ctrl.StartEncRsp) slot false)).progress
        ≡ false }
{}

/// Outside Clear and Secure, as the layer above passes the phase, a central runs an encryption of
/// its own and nothing else: no procedure of the peripheral that excludes others is in progress
/// there, no first PDU of another own procedure waits, and nothing begins. For an encryption begins
/// only where neither end has a procedure in progress, and what the peripheral begins meanwhile is
/// kept.
pub fn outside_clear_and_secure_only_encryption_runs()
    ensures own { (max_rx : ℕ) (calls : List Call) (call : Call)
        → MayAll (first_facts Role.Central max_rx) false calls
        → PassesPhase (after_calls (first_facts Role.Central max_rx) calls) call
        → is_unquiet call ≡ true
        → own_kind (after_calls (first_facts Role.Central max_rx) calls).progress
        ≡ Some Kind.Encrypt }
    ensures peer { (max_rx : ℕ) (calls : List Call) (call : Call)
        → MayAll (first_facts Role.Central max_rx) false calls
        → AllKeepRules (first_facts Role.Central max_rx) calls
        → PassesPhase (after_calls (first_facts Role.Central max_rx) calls) call
        → is_unquiet call ≡ true
        → has_peer (after_calls (first_facts Role.Central max_rx) calls).progress ≡ false }
    ensures first { (max_rx : ℕ) (calls : List Call) (call : Call)
        → MayAll (first_facts Role.Central max_rx) false calls
        → PassesPhase (after_calls (first_facts Role.Central max_rx) calls) call
        → is_unquiet call ≡ true
        → first_pdus_waiting (after_calls (first_facts Role.Central max_rx) calls) ≡ 0 }
    ensures begins { (max_rx : ℕ) (calls : List Call) (call : Call) (slot : ℕ) (quiet : Bool)
        → MayAll (first_facts Role.Central max_rx) false calls
        → PassesPhase (after_calls (first_facts Role.Central max_rx) calls) call
        → is_unquiet call ≡ true
        → begin_step (after_calls (first_facts Role.Central max_rx) calls) slot quiet
        ≡ (after_calls (first_facts Role.Central max_rx) calls, None) }
{}

/// While a central keeps a PDU of the peripheral, it has no rejection, and of control PDUs only
/// those of its encryption and LL_TERMINATE_IND wait. The peripheral begins a procedure only where
/// it awaits no answer to what it began before; until the phase is Clear or Secure again, the
/// central takes PDUs of the encryption, refusals and LL_TERMINATE_IND alone.
pub fn beside_a_kept_pdu_only_encryption_waits()
    ensures { (max_rx : ℕ) (calls later : List Call)
        → MayAll (first_facts Role.Central max_rx) false calls
        → AllKeepRules (first_facts Role.Central max_rx) calls
        → MayKeep (after_calls (first_facts Role.Central max_rx) calls)
        → MayAll (after_calls (first_facts Role.Central max_rx) calls) (is_key_asked calls) later
        → AllMeanwhile (after_calls (first_facts Role.Central max_rx) calls) later
        → others_waiting (after_calls (after_calls (first_facts Role.Central max_rx) calls) later)
        ≡ 0 }
{}
