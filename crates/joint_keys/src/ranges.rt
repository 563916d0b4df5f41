//! The law of the values that the control PDUs of an end with its phase carry. The body does
//! nothing: the contract is the law.
ghost use Rattle.std.specs.Prelude.{ℕ, IfSome};
ghost use Rattle.ble_base.specs.declared.roles.Role.{Role};
ghost use Rattle.control_octets.specs.Fitting.{ParamsFit};
ghost use Rattle.data_pdu.specs.Layouts.{IsCtrl};
ghost use Rattle.instants.specs.declared.indications.Params.{Params};
ghost use Rattle.joint_keys.specs.PhasedRanges.{PhasedFits, PhasedStepFits};
ghost use Rattle.phased_control.specs.Phased.{Phased, ask_begun, first_phased, is_quiet_now};
ghost use Rattle.phased_control.specs.Phased.{request_of, table_entered};
ghost use Rattle.phased_control.specs.Taken.{PhasedStep, phased_after};
ghost use Rattle.phased_control.specs.procedure_values.Values.{IsPayloadMax};

/// The values that an end holds for its control PDUs, those of its encryption too, are in their
/// ranges as its link begins, and each step keeps them there, in every phase: where what the hosts
/// ask and answer fits, and so do the PDUs of the peer that are taken and LL_ENC_RSP as it would be
/// drawn. LL_ENC_REQ of an encryption that begins fits then (Core 5.2, volume 6 part B, section
/// 2.4.2).
pub fn values_stay_in_their_ranges_in_each_phase()
    ensures begins { (role : Role) (max_rx : ℕ) (first : Params) (slot : ℕ) → IsPayloadMax max_rx
        → ParamsFit first → PhasedFits (first_phased role max_rx first slot) }
    ensures stays { (s : Phased) (step : PhasedStep) → PhasedFits s → PhasedStepFits step
        → PhasedFits (phased_after step s) }
    ensures request { (s : Phased) → PhasedFits s
        → IfSome (request_of (ask_begun (table_entered s) (is_quiet_now s))) IsCtrl }
{}
