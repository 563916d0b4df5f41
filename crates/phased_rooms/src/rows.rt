//! Worked steps of a central, and ends to which no steps lead.
ghost use Rattle.std.specs.Prelude.{◌≡◌, ℕ, List};
ghost use Rattle.ble_base.specs.declared.channel_map.ChannelMap.{ChannelMap};
ghost use Rattle.ble_base.specs.declared.roles.Role.{Role};
ghost use Rattle.instants.specs.declared.indications.Params.{Params};
ghost use Rattle.phased_control.specs.procedure_stages.Queue.{waiting_in};
ghost use Rattle.phased_control.specs.table_laws.Waiting.{own_waiting};
ghost use Rattle.phased_control.specs.Phased.{first_phased};
ghost use Rattle.phased_control.specs.Taken.{PhasedStep, phased_after_all};
ghost use Rattle.phased_control.specs.Worked.{central_after};
ghost use Rattle.phased_rooms.specs.Worked.{begins_again, crowding};

/// The bound is met: after these steps twenty control PDUs wait.
pub fn twenty_may_wait_at_a_central()
    ensures { (map : ChannelMap)
        → waiting_in (central_after map crowding).control.table.queue ≡ 20 }
{}

/// Where the peer answers LL_ENC_REQ before it is sent, the first PDUs of two procedures of the
/// central may wait, but then fewer other PDUs do.
pub fn two_requests_may_wait()
    ensures requests { (map : ChannelMap)
        → own_waiting (central_after map begins_again).control.table ≡ 2 }
    ensures all { (map : ChannelMap)
        → waiting_in (central_after map begins_again).control.table.queue ≡ 18 }
{}

/// No steps lead to an end at which 21 control PDUs wait.
pub fn no_steps_lead_to_twenty_one()
    ensures { (role : Role) (max_rx : ℕ) (first : Params) (slot : ℕ) (steps : List PhasedStep)
        → waiting_in
        (phased_after_all steps (first_phased role max_rx first slot)).control.table.queue ≡ 21
        → ⊥ }
{}
