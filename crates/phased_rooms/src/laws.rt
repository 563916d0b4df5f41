//! The laws of one end with its phase, over all lists of steps from the beginning of its link.
//! The bodies do nothing: the contracts are the laws.
ghost use Rattle.std.specs.Prelude.{◌≤◌, ℕ, Bool, IfSome, List};
ghost use Rattle.ble_base.specs.declared.roles.Role.{Role};
ghost use Rattle.instants.specs.declared.indications.Params.{Params};
ghost use Rattle.phased_control.specs.procedure_stages.Queue.{waiting_in};
ghost use Rattle.phased_control.specs.Ends.{AllAskInRange};
ghost use Rattle.phased_control.specs.Phased.{first_phased};
ghost use Rattle.phased_control.specs.Taken.{PhasedStep, phased_after_all};
ghost use Rattle.control_end.specs.Answers.{indication_next};
ghost use Rattle.control_end.specs.Following.{CanFollow};
ghost use Rattle.control_end.specs.Held.{held_of};

/// Whatever its peer sends, and in whatever order, at most twenty control PDUs wait at an end.
///
/// An answer is queued only while fewer than sixteen wait, or else the link ends (our choice).
/// Beyond these there are at most the answer of the host to a request, the first PDU of one own
/// procedure, LL_VERSION_IND once and LL_TERMINATE_IND once. An encryption that is over before its
/// LL_ENC_REQ is sent leaves that queued; but then LL_START_ENC_RSP was queued last, while fewer
/// than sixteen waited, so a further procedure begins where at most seventeen wait.
pub fn few_control_pdus_wait_at_any_end()
    ensures few { (role : Role) (max_rx : ℕ) (first : Params) (slot : ℕ) (steps : List PhasedStep)
        → waiting_in
        (phased_after_all steps (first_phased role max_rx first slot)).control.table.queue ≤ 20 }
{}

/// An indication that a central with its phase sends can be followed by it, whatever its peer
/// sends: none waits, and its Instant is to come. The link begins with a latency of at most 499
/// events, and what the host asks is in its range (Core 5.2, volume 6 part B, sections 4.5.1 and
/// 5.5).
pub fn phased_ends_can_follow_what_they_send()
    ensures follows { (role : Role) (max_rx : ℕ) (first : Params) (slot : ℕ)
        (steps : List PhasedStep) (now : ℕ) (quiet : Bool)
        → first.latency ≤ 499 → AllAskInRange steps
        → let s = phased_after_all steps (first_phased role max_rx first slot) in
        IfSome (indication_next now quiet (held_of s.control)) (CanFollow s.control.track) }
{}
