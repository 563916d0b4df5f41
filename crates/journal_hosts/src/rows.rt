//! Worked examples: journals that the definitions of credits, flow and order refuse, and right ones.
ghost use Rattle.std.specs.Prelude.{◌≡◌, ◌++◌, [], ◌∷◌, false, true, None, Some};
ghost use Rattle.ble_base.specs.declared.roles.Side.TheVariants.{A, B};
ghost use Rattle.host_answers.specs.Flows.{most_received_on};
ghost use Rattle.journal.specs.declared.entries.Entry.TheVariants.{Fed, Up};
ghost use Rattle.run_model.specs.Rows.{reset_answer, turn_entry};
ghost use Rattle.journal_hosts.specs.CreditRows.{data_up};
ghost use Rattle.journal_hosts.specs.FlowRows.{flow_turned_on, long_up, one_returned, one_taken};
ghost use Rattle.journal_hosts.specs.FlowRows.{one_waits, other_returned};
ghost use Rattle.journal_hosts.specs.HostFlow.{AllCanBeTaken, AllFitHostBuffers};
ghost use Rattle.journal_hosts.specs.HostOrder.{AllComeInOrder, AllDataComesLast};
ghost use Rattle.journal_hosts.specs.HostOrder.{IsOfFirst, last_handed, waiting_for};
ghost use Rattle.journal_hosts.specs.OrderRows.{a_after_b, a_ends, both_end, both_up};
ghost use Rattle.journal_hosts.specs.OrderRows.{first_shut, next_begins, packet_after_data};
ghost use Rattle.journal_hosts.specs.OrderRows.{second_as_start, second_up, taken_after_data};
ghost use Rattle.journal_hosts.specs.OrderRows.{two_take};
ghost use Rattle.journal_data.specs.Held.{links_open};
ghost use Rattle.journal_hosts.specs.HostFlow.{is_host_full, outstanding_on, waiting_on};
ghost use Rattle.journal_hosts.specs.CreditRows.{after_the_other, before_data, before_packet};
ghost use Rattle.journal_hosts.specs.CreditRows.{credit_after_shut, credit_of, data_after_shut};
ghost use Rattle.journal_hosts.specs.CreditRows.{descending, other_reason, reported_again};
ghost use Rattle.journal_hosts.specs.CreditRows.{of_nothing, one_by_one, two_together};
ghost use Rattle.journal_hosts.specs.CreditRows.{unreported};
ghost use Rattle.journal_hosts.specs.Credits.{AllCreditsAreOfOne, AllCreditsAreOfSome};
ghost use Rattle.journal_hosts.specs.Credits.{AllCreditsAscend, AllEarlyCreditsComeAtOnce};
ghost use Rattle.journal_hosts.specs.Credits.{AllLateCreditsComeLast};
ghost use Rattle.journal_hosts.specs.Credits.{credit_count, credit_handle, is_credit};
ghost use Rattle.journal_hosts.specs.Ends.{AllLateEndsAreReported};

/// Of a credit the handle is at the places 4 and 5 and the number of packets after that; an answer
/// to a command is no credit.
#[tactic(auto)]
pub fn worked_credit()
    ensures credit { (is_credit (credit_of 3 2) ≡ true) × (credit_handle (credit_of 3 2) ≡ 3)
        × (credit_count (credit_of 3 2) ≡ 2) }
    ensures answer { is_credit reset_answer ≡ false }
{}

/// After the first packet of a turn a side has no credit of a handle after one of a greater handle,
/// also where the other host receives data between them, no two credits of one handle, and none
/// before another packet on the air or before data for its host. Before that packet no credit is of
/// two packets, and none comes after the other side is fed. None is ever of no packet.
pub fn wrong_credits_are_refused()
    ensures descending { AllCreditsAscend descending → ⊥ }
    ensures one_by_one { AllCreditsAscend one_by_one → ⊥ }
    ensures packet { AllLateCreditsComeLast before_packet → ⊥ }
    ensures data { AllLateCreditsComeLast before_data → ⊥ }
    ensures together { AllCreditsAreOfOne two_together → ⊥ }
    ensures late { AllEarlyCreditsComeAtOnce after_the_other → ⊥ }
    ensures nothing { AllCreditsAreOfSome of_nothing → ⊥ }
{}

/// Once a side has shut a link after such a credit, its host gets no data and no credit any more in
/// that turn, no event of that link with another reason than that of the `shut` line, and none a
/// second time. No turn begins before that event, where nothing withholds it.
pub fn wrong_packets_after_ends_are_refused()
    ensures data { AllLateCreditsComeLast data_after_shut → ⊥ }
    ensures credit { AllLateCreditsComeLast credit_after_shut → ⊥ }
    ensures reason { AllLateCreditsComeLast other_reason → ⊥ }
    ensures again { AllLateCreditsComeLast reported_again → ⊥ }
    ensures unreported { AllLateEndsAreReported unreported → ⊥ }
{}

/// A host that has one buffer holds the packet that it received, so that the next PDU waits. It
/// holds none once it has returned that packet; a return of a handle without a link is not accepted
/// (Core 5.2, volume 4 part E, sections 7.3.38 to 7.3.40).
pub fn worked_host_flow()
    ensures most { most_received_on B flow_turned_on ≡ 27 }
    ensures none { (outstanding_on B one_taken ≡ 0) × (waiting_on B one_taken ≡ 1) }
    ensures one { (outstanding_on B one_waits ≡ 1) × (waiting_on B one_waits ≡ 1)
        × (is_host_full B one_waits ≡ true) }
    ensures returned { outstanding_on B (one_waits ++ Fed B one_returned ∷ []) ≡ 0 }
    ensures other { outstanding_on B (one_waits ++ Fed B other_returned ∷ []) ≡ 1 }
{}

/// A host that has one buffer does not receive a second packet before it has returned the first,
/// and none that is longer than its buffer. While it can take a packet it is not full.
pub fn wrong_data_for_a_host_is_refused()
    ensures second { AllCanBeTaken (one_waits ++ Up B data_up ∷ []) → ⊥ }
    ensures longer { AllFitHostBuffers (one_taken ++ Up B long_up ∷ []) → ⊥ }
    ensures room { is_host_full B one_taken ≡ true → ⊥ }
{}

/// What two links took waits in one order. Each packet of data is of the first piece, as a start or
/// a continuation, under the handle of its link; what a link had that is shut waits no more.
pub fn worked_order()
    ensures two { waiting_for B two_take ≡ record { link = 1; start = true; body = 0xAA ∷ [] }
        ∷ record { link = 2; start = false; body = 0xBB ∷ [] } ∷ [] }
    ensures first { IsOfFirst (waiting_for B two_take) (links_open B two_take) data_up }
    ensures second { IsOfFirst (waiting_for B (two_take ++ Up B data_up ∷ []))
        (links_open B (two_take ++ Up B data_up ∷ [])) second_up }
    ensures none { waiting_for B both_up ≡ [] }
    ensures shut { IsOfFirst (waiting_for B first_shut) (links_open B first_shut) second_up }
{}

/// The second piece does not come before the first, though it is of another link; nor does it come
/// with the bits of a start, nor any packet where nothing waits.
pub fn wrong_orders_of_data_are_refused()
    ensures second { AllComeInOrder (two_take ++ Up B second_up ∷ []) → ⊥ }
    ensures start { AllComeInOrder (first_shut ++ Up B second_as_start ∷ []) → ⊥ }
    ensures shut { AllComeInOrder (first_shut ++ Up B data_up ∷ []) → ⊥ }
    ensures nothing { AllComeInOrder (both_up ++ Up B data_up ∷ []) → ⊥ }
{}

/// Where both hosts receive data in a turn, A ends it first, here with a credit, and then B, which
/// shuts a link here. After the next `turn` line no host has received any yet.
pub fn worked_ends_of_turns()
    ensures a { last_handed a_ends ≡ Some A }
    ensures b { last_handed both_end ≡ Some B }
    ensures turn { last_handed (both_end ++ turn_entry 4 ∷ []) ≡ None }
    ensures right { AllDataComesLast next_begins }
{}

/// After data for a host no packet is on the air in that turn and no PDU is taken, and A does not
/// end its turn after B.
pub fn lines_after_data_are_refused()
    ensures packet { AllDataComesLast packet_after_data → ⊥ }
    ensures taken { AllDataComesLast taken_after_data → ⊥ }
    ensures earlier { AllDataComesLast a_after_b → ⊥ }
{}
