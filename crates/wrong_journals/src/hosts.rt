//! Data and credits that a host must not receive, or does not receive.
ghost use Rattle.journal_pdus.specs.journal_controls.journal_ends.Asked.{Words};
ghost use Rattle.journal_pdus.specs.journal_data.Delivered.{AllDataArrives};
ghost use Rattle.journal_pdus.specs.journal_hosts.HostFlow.{AllCanBeTaken, AllFitHostBuffers};
ghost use Rattle.journal_pdus.specs.journal_hosts.HostOrder.{AllComeInOrder};
ghost use Rattle.journal_pdus.specs.journal_sealing.Mixed.{is_mixed};
ghost use Rattle.journal_pdus.specs.AtOnce.{AllAreCreditedAtOnce};
ghost use Rattle.journal_pdus.specs.Exchanged.{AllAreSettled, AllAreSettledAsShut};
ghost use Rattle.ble_base.specs.declared.roles.Side.TheVariants.{B};
ghost use Rattle.journal_pdus.specs.journal_hosts.FlowRows.{one_waits};
ghost use Rattle.journal_pdus.specs.Settled.{IsHandedUp};
ghost use Rattle.wrong_journals.specs.Flowing as flowing;
ghost use Rattle.wrong_journals.specs.Hosts as wrong;

/// A host receives what its side took, once and with the starts of messages, before the next turn,
/// and before the link is shut after the packets of a turn.
pub fn wrong_data_is_refused()
    ensures from_nothing { (words : Words) → AllDataArrives
        (is_mixed words) wrong.up_from_nothing → ⊥ }
    ensures twice { (words : Words) → AllDataArrives (is_mixed words) wrong.up_twice → ⊥ }
    ensures continuation { (words : Words) → AllDataArrives
        (is_mixed words) wrong.up_as_continuation → ⊥ }
    ensures never { AllAreSettled wrong.never_up → ⊥ }
    ensures shut { AllAreSettledAsShut wrong.shut_before_up → ⊥ }
{}

/// A packet is credited once, after its acknowledgement and before the next turn; one without octets
/// before the packets of its turn.
pub fn wrong_credits_are_refused()
    ensures from_nothing { (words : Words) → AllDataArrives
        (is_mixed words) wrong.credit_from_nothing → ⊥ }
    ensures twice { (words : Words) → AllDataArrives (is_mixed words) wrong.credit_twice → ⊥ }
    ensures too_early { AllAreSettled wrong.credit_too_early → ⊥ }
    ensures never { AllAreSettled wrong.never_credited → ⊥ }
    ensures after_packet { AllAreCreditedAtOnce wrong.credit_after_packet → ⊥ }
{}

/// A host with one buffer receives no second packet before it has returned the first; what it
/// returns makes room once, and only for the link of that handle. It receives no packet that is
/// longer than its buffer. What waits is handed up before the next turn where it can take one, also
/// since it returned one in that turn, or since a link was shut in a turn without a packet; while it
/// is full, the next packet waits.
pub fn wrong_flow_to_a_host_is_refused()
    ensures beyond { AllCanBeTaken flowing.up_beyond → ⊥ }
    ensures returned_twice { AllCanBeTaken flowing.returned_twice → ⊥ }
    ensures returned_elsewhere { AllCanBeTaken flowing.returned_elsewhere → ⊥ }
    ensures too_long { AllFitHostBuffers flowing.up_too_long → ⊥ }
    ensures kept_back { AllAreSettled flowing.kept_back → ⊥ }
    ensures after_return { AllAreSettled flowing.kept_after_return → ⊥ }
    ensures after_shut { AllAreSettled flowing.kept_after_shut → ⊥ }
    ensures full { IsHandedUp 1 B one_waits × IsHandedUp 1 B flowing.full_again }
{}

/// A host does not receive a piece of one link before one of another link that its side took
/// earlier, and no piece of a link that is shut.
pub fn wrong_orders_of_data_are_refused()
    ensures second { AllComeInOrder flowing.second_before_first → ⊥ }
    ensures shut { AllComeInOrder flowing.up_of_shut_link → ⊥ }
{}
