//! Each call on a table of procedures is at most one step of the exchanges of features, lengths and
//! versions. The bodies do nothing: the contracts are the laws.
ghost use Rattle.std.specs.Prelude.{◌≡◌, ◌≤◌, ℕ, Bool, Some, None, true};
ghost use Rattle.data_pdu.specs.declared.ctrl.CtrlRead.{CtrlRead};
ghost use Rattle.procedure_stages.specs.Kinds.{own_kind};
ghost use Rattle.procedure_stages.specs.declared.stages.Progress.{Progress};
ghost use Rattle.procedure_values.specs.Drafts.{ctrl_of_draft};
ghost use Rattle.procedure_values.specs.declared.drafts.Draft.{Draft};
ghost use Rattle.procedures.specs.Calls.{Call, after_call};
ghost use Rattle.procedures.specs.Going.{entered_step};
ghost use Rattle.procedures.specs.Sending.{acked_step};
ghost use Rattle.procedures.specs.Table.{TableFacts};
ghost use Rattle.procedures.specs.Taking.{took_step};
ghost use Rattle.exchange_steps.specs.Answers.{completed, exchange_effect, exchange_kind};
ghost use Rattle.exchange_steps.specs.Answers.{exchange_refusal, known_by, refused_by};
ghost use Rattle.exchange_steps.specs.Ends.{ends_of, exchanges_running};
ghost use Rattle.exchange_steps.specs.Steps.{EndStep, MayCome, after_steps, comes_to};
ghost use Rattle.exchange_steps.specs.Steps.{step_of_call, step_of_ctrl, step_of_draft, taking_of};

/// What each call does to the exchanges of features, lengths and versions, at either role, for
/// every table and every argument: the step that the call is, or nothing. A PDU that ends the link
/// at once is none; a call that begins a procedure is the step of the kind that it returns. An
/// exchange begins only where the machine lets it, and the PDU that is sent is the first of its
/// exchange that waits.
pub fn calls_are_steps_of_exchanges()
    ensures steps { (f : TableFacts) (call : Call)
        → ends_of (after_call f call) ≡ after_steps (step_of_call f call) (ends_of f) }
    ensures comes { (f : TableFacts) (call : Call) → MayCome (step_of_call f call) (ends_of f) }
{}

/// What a control PDU of the peer answers: it completes an exchange, refuses one, or tells what the
/// peer has, exactly as the step does. An acknowledgement completes no exchange, and neither does
/// an event that is entered.
pub fn answers_are_of_exchanges()
    ensures done { (f : TableFacts) (read : CtrlRead) (slot : ℕ) (quiet : Bool)
        → exchange_kind (took_step f read slot quiet).1.done
        ≡ completed (step_of_call f (Call.takes read slot quiet)) (ends_of f) }
    ensures refused { (f : TableFacts) (read : CtrlRead) (slot : ℕ) (quiet : Bool)
        → exchange_refusal (took_step f read slot quiet).1.refused
        ≡ refused_by (step_of_call f (Call.takes read slot quiet)) read (ends_of f) }
    ensures effect { (f : TableFacts) (read : CtrlRead) (slot : ℕ) (quiet : Bool)
        → exchange_effect (took_step f read slot quiet).1.effect
        ≡ known_by (step_of_call f (Call.takes read slot quiet)) read (ends_of f) }
    ensures acked { (f : TableFacts) → exchange_kind (acked_step f).1 ≡ None }
    ensures entered { (f : TableFacts) (applied : Bool)
        → exchange_kind (entered_step f applied).1 ≡ None }
{}

/// No call changes what an end receives.
pub fn the_receive_maximum_stays()
    ensures { (f : TableFacts) (call : Call)
        → (after_call f call).lengths.own_rx ≡ f.lengths.own_rx }
{}

/// A PDU of an exchange that an end sends is, where the other end takes it, the step of the machine
/// that takes it, with the same values.
pub fn what_is_sent_is_taken()
    ensures { (p : Progress) (draft : Draft) (event skips : ℕ) (step : EndStep)
        → comes_to p draft ≡ true → step_of_draft draft ≡ Some step
        → step_of_ctrl p (ctrl_of_draft draft event skips) ≡ Some (taking_of step) }
{}

/// An end runs at most one exchange of its own, and none beside an own procedure of another kind.
pub fn an_end_runs_one_exchange()
    ensures one { (f : TableFacts) → exchanges_running (ends_of f) ≤ 1 }
    ensures none { (f : TableFacts) → exchange_kind (own_kind f.progress) ≡ None
        → exchanges_running (ends_of f) ≡ 0 }
{}
