//! The laws of the values that control PDUs carry, over any of the steps of an end.
//! The bodies do nothing: the contracts are the laws.
ghost use Rattle.std.specs.Prelude.{◌≡◌, ◌≤◌, ℕ, Bool, Some, List, length};
ghost use Rattle.ble_base.specs.declared.roles.Role.{Role};
ghost use Rattle.data_pdu.specs.declared.ctrl.Ctrl.{Ctrl};
ghost use Rattle.data_pdu.specs.declared.ctrl.CtrlRead.{CtrlRead};
ghost use Rattle.data_pdu.specs.Layouts.{IsCtrl, written};
ghost use Rattle.data_pdu.specs.Reading.{ctrl_of};
ghost use Rattle.instants.specs.declared.indications.Params.{Params};
ghost use Rattle.instants.specs.Track.{event_of};
ghost use Rattle.control_model.specs.procedure_values.Values.{IsPayloadMax};
ghost use Rattle.control_model.specs.procedure_values.declared.asks.Ask.{Ask};
ghost use Rattle.control_model.specs.procedures.Sending.{next_ctrl_of};
ghost use Rattle.control_model.specs.Control.{Control, Step, after, first_control};
ghost use Rattle.control_octets.specs.Fitting.{AskFits, FitsOctets, ParamsFit, StepFits};

/// The values that an end holds for its control PDUs are in their ranges as its link begins, and
/// each step keeps them there. So the interval and the timeout of its parameters are at most 3,200,
/// and the latency is at most 499 events (Core 5.2, volume 6 part B, sections 4.5.1 and 4.5.2).
///
/// The link begins with parameters in their ranges, and its end receives payloads of at most 27 to
/// 251 octets. What the host asks and answers fits, and so do the PDUs of the encryption that the
/// layer above queues, and the PDUs of the peer that are taken.
pub fn values_stay_in_their_ranges()
    ensures begins { (role : Role) (max_rx : ℕ) (first : Params) (slot : ℕ) → IsPayloadMax max_rx
        → ParamsFit first → FitsOctets (first_control role max_rx first slot) }
    ensures stays { (c : Control) (step : Step) → FitsOctets c → StepFits step
        → FitsOctets (after step c) }
    ensures parameters { (c : Control) → FitsOctets c
        → (c.track.params.interval ≤ 3200) × (c.track.params.timeout ≤ 3200)
        × (c.track.params.latency ≤ 499) }
{}

/// The control PDU that an end sends next fits its octets, each field in its range, and these
/// octets are read as that PDU: in the event entered last, with the latency of now, and in any
/// other event with any latency (Core 5.2, volume 6 part B, section 2.4.2).
pub fn what_is_sent_is_read()
    ensures sends { (c : Control) (quiet : Bool) (ctrl : Ctrl) → FitsOctets c
        → next_ctrl_of c.table (event_of c.track) c.track.params.latency quiet ≡ Some ctrl
        → IsCtrl ctrl × (ctrl_of (written ctrl) ≡ CtrlRead.Known ctrl) }
    ensures at_any_time { (c : Control) (event skips : ℕ) (quiet : Bool) (ctrl : Ctrl)
        → FitsOctets c → next_ctrl_of c.table event skips quiet ≡ Some ctrl
        → IsCtrl ctrl × (ctrl_of (written ctrl) ≡ CtrlRead.Known ctrl) }
{}

/// The values with which a host asks for encryption are in their ranges exactly where LL_ENC_REQ
/// has room for them; the long term key is in no PDU (Core 5.2, volume 6 part B, section 2.4.2.4).
pub fn an_encryption_that_is_asked_for_fits()
    ensures fits { (rand ediv : ℕ) (ltk : List ℕ) (skd_m iv_m : ℕ)
        → AskFits (Ask.Encrypt rand ediv ltk skd_m iv_m) → IsCtrl (Ctrl.EncReq rand ediv skd_m iv_m) }
    ensures exactly { (rand ediv : ℕ) (ltk : List ℕ) (skd_m iv_m : ℕ)
        → IsCtrl (Ctrl.EncReq rand ediv skd_m iv_m) → AskFits (Ask.Encrypt rand ediv ltk skd_m iv_m) }
{}

/// A control PDU has at most 24 octets: LL_CONNECTION_PARAM_REQ and LL_CONNECTION_PARAM_RSP are the
/// longest (Core 5.2, volume 6 part B, section 2.4.2).
pub fn control_pdus_are_short()
    ensures { (ctrl : Ctrl) → length (written ctrl) ≤ 24 }
{}
