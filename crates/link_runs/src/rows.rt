//! Worked examples, which the definitions compute.
ghost use Rattle.std.specs.Prelude.{◌≡◌, ◌++◌, true, false, [], Some, None, is_some};
ghost use Rattle.link_pairs.specs.link_model.Rows.{central_with, peripheral_with};
ghost use Rattle.link_pairs.specs.Ends.{AreEnds};
ghost use Rattle.link_runs.specs.Rows.{applied, calm, central_leaves, ended_by_peer, ended_with};
ghost use Rattle.link_runs.specs.Rows.{ends_before, ends_by, last_heard, none_open};
ghost use Rattle.link_runs.specs.Rows.{peripheral_leaves, turn_with, update_asked};
ghost use Rattle.link_runs.specs.Runs.{MayAllHost};

/// Nothing is lost, and no host does anything. In slot 194, the anchor of event 8, each end hears
/// the other.
pub fn a_link_goes_on()
    ensures central { last_heard (ends_by (calm 194)).central ≡ Some (Some 194) }
    ensures peripheral { last_heard (ends_by (calm 194)).peripheral ≡ Some (Some 194) }
{}

/// The host of the peripheral ends the link in slot 10. In slot 26 the central takes
/// LL_TERMINATE_IND, and both ends are open after it. In slot 50 the central sends again and is
/// shut, and so is the peripheral, which sees its PDU acknowledged.
pub fn a_peripheral_ends_a_link()
    ensures took { ended_by_peer (ends_by (peripheral_leaves 26)).central
        ≡ Some (Some (record { 0 = 0x13 })) }
    ensures waits { is_some (ends_by (peripheral_leaves 49)).peripheral ≡ true }
    ensures shut { ends_by (peripheral_leaves 50) ≡ none_open }
{}

/// The host of the central ends the link in slot 10. In slot 26 the peripheral takes
/// LL_TERMINATE_IND and answers, and both ends are shut. Where the answer is lost, the central
/// hears nothing more, and is shut when the supervision timeout of 720 ms has passed since slot 2.
pub fn a_central_ends_a_link()
    ensures shut { ends_by (central_leaves true 26) ≡ none_open }
    ensures peripheral { (ends_by (central_leaves false 26)).peripheral ≡ None }
    ensures central { is_some (ends_by (central_leaves false 577)).central ≡ true }
    ensures timeout { ends_by (central_leaves false 578) ≡ none_open }
{}

/// The host of the central asks for other parameters in slot 10. All packets are lost up to slot
/// 169, and the peripheral takes LL_CONNECTION_UPDATE_IND in slot 170, the anchor of its Instant;
/// so the parameters hold there from slot 194 on. Where all packets are lost up to slot 193, the
/// peripheral takes it in slot 194, and is shut with 0x28.
pub fn an_update_comes_too_late()
    ensures in_time { applied (ends_by (update_asked 169 ++ calm 25)).peripheral ≡ Some 1 }
    ensures late { ended_with
        (ends_before (update_asked 193) (turn_with [] [] true true)).peripheral
        ≡ Some (Some (record { 0 = 0x28 })) }
    ensures shut { (ends_by (update_asked 193 ++ calm 1)).peripheral ≡ None }
    ensures goes_on { is_some (ends_by (update_asked 193 ++ calm 1)).central ≡ true }
{}

/// These runs meet the premises of the laws.
pub fn runs_meet_the_premises()
    ensures ends { AreEnds (central_with 0) (peripheral_with 0) }
    ensures peripheral_ends { MayAllHost (central_with 0) (peripheral_with 0)
        (peripheral_leaves 50) }
    ensures update { MayAllHost (central_with 0) (peripheral_with 0)
        (update_asked 193 ++ calm 1) }
{}
