//! The laws of exchanges, over all lists of steps of a central and a peripheral. The bodies do
//! nothing: the contracts are the laws.
ghost use Rattle.std.specs.Prelude.{◌≡◌, ◌≤◌, ◌⊎◌, ◌==◌, ◌||◌, ℕ, List, length, Some, not};
ghost use Rattle.std.specs.Prelude.{true, false};
ghost use Rattle.std.specs.List.{All, Contains};
ghost use Rattle.ble_base.specs.Limits.{first_payload_octets};
ghost use Rattle.ble_base.specs.declared.roles.Role.{Role};
ghost use Rattle.machines.specs.Machine.{run};
ghost use Rattle.procedure_values.specs.Limits.{tx_of};
ghost use Rattle.exchange_pairs.specs.Exchange;
ghost use Rattle.exchange_pairs.specs.Exchange.{Answer, Idle, Question, Sent, Unsent, count_if};
ghost use Rattle.exchange_pairs.specs.Exchange.{is_answer, is_idle, number_of};
ghost use Rattle.exchange_pairs.specs.ExchangeRun;
ghost use Rattle.exchange_pairs.specs.ExchangeRun.{ExchangeEvent, exchanges, other_role};
ghost use Rattle.exchange_pairs.specs.ExchangeLaws;
ghost use Rattle.exchange_pairs.specs.LengthLaws.{first_rx, none_accepts};
ghost use Rattle.exchange_pairs.specs.LengthPart.{exchange_end, exchange_link};
ghost use Rattle.exchange_pairs.specs.LengthRun;
ghost use Rattle.exchange_pairs.specs.LengthRun.{LengthEvent, length_exchanges};
ghost use Rattle.exchange_pairs.specs.Lengths;
ghost use Rattle.exchange_pairs.specs.Lengths.{LengthEnd, LengthPdu};
ghost use Rattle.exchange_pairs.specs.VersionLaws;
ghost use Rattle.exchange_pairs.specs.VersionRun;
ghost use Rattle.exchange_pairs.specs.VersionRun.{VersionEvent, versions};

/// An end with no exchange of its own has nothing of one: its question does not wait, is not on its
/// way or kept, and no answer to it waits or is on its way. While the question is unsent it waits,
/// and there is nothing else. After it was sent there is exactly one of these: the question on its
/// way, or kept; the answer, which waits at the peer or is on its way. Or there is none, and the
/// peer is to end the link. So where an end begins an exchange nothing is left of an earlier one.
pub fn each_exchange_is_in_one_place()
    ensures idle { (events : List ExchangeEvent) (role : Role) → let s = run exchanges events in
        (ExchangeRun.end_of role s).own ≡ Idle
        → (ExchangeLaws.questions_waiting role s ≡ 0) × (ExchangeLaws.places role s ≡ 0) }
    ensures unsent { (events : List ExchangeEvent) (role : Role) → let s = run exchanges events in
        (ExchangeRun.end_of role s).own ≡ Unsent
        → (ExchangeLaws.questions_waiting role s ≡ 1) × (ExchangeLaws.places role s ≡ 0) }
    ensures sent { (events : List ExchangeEvent) (role : Role) → let s = run exchanges events in
        (ExchangeRun.end_of role s).own ≡ Sent → (ExchangeLaws.questions_waiting role s ≡ 0)
        × ((ExchangeLaws.places role s ≡ 1) ⊎ ((ExchangeLaws.places role s ≡ 0)
        × ((ExchangeRun.end_of (other_role role) s).closed ≡ true))) }
    ensures begins { (events : List ExchangeEvent) (role : Role) → let s = run exchanges events in
        ExchangeRun.may (ExchangeRun.Begins role) s ≡ true
        → (ExchangeLaws.questions_waiting role s ≡ 0) × (ExchangeLaws.places role s ≡ 0) }
{}

/// No answer comes without its question: where an answer comes to an end, that has sent its
/// question and awaits the answer. Where a question comes to an end, or is kept, that owes no
/// answer to an earlier one, and nothing is kept where another is.
pub fn answers_find_their_questions()
    ensures answers { (events : List ExchangeEvent) (role : Role) → let s = run exchanges events in
        ExchangeRun.way_to role s ≡ Some Answer → (ExchangeRun.end_of role s).own ≡ Sent }
    ensures questions { (events : List ExchangeEvent) (role : Role)
        → let s = run exchanges events in ExchangeRun.way_to role s ≡ Some Question
        → (number_of is_answer (ExchangeRun.end_of role s).queue ≡ 0)
        × (ExchangeRun.is_pdu is_answer (ExchangeRun.way_from role s) ≡ false) }
    ensures kept { (events : List ExchangeEvent) → let s = run exchanges events in
        s.kept ≡ true → (number_of is_answer s.central.queue ≡ 0)
        × (ExchangeRun.is_pdu is_answer s.down ≡ false) }
    ensures one_kept { (events : List ExchangeEvent)
        → ExchangeRun.may ExchangeRun.Keeps (run exchanges events) ≡ true
        → (run exchanges events).kept ≡ false }
{}

/// At most two PDUs of an exchange of features, or of one of lengths, wait at an end, and one of an
/// exchange of versions.
pub fn few_exchange_pdus_wait()
    ensures exchange { (events : List ExchangeEvent) (role : Role)
        → length (ExchangeRun.end_of role (run exchanges events)).queue ≤ 2 }
    ensures version { (events : List VersionEvent) (role : Role)
        → (VersionRun.end_of role (run versions events)).waiting ≤ 1 }
{}

/// An end sends LL_VERSION_IND once: once it was queued it is in one place, in the queue, on its
/// way, kept, or taken. So no exchange of versions begins without it, and it is taken once.
pub fn versions_are_sent_once()
    ensures once { (events : List VersionEvent) (role : Role) → let s = run versions events in
        VersionLaws.places role s ≡ count_if (VersionRun.end_of role s).used }
    ensures begins { (events : List VersionEvent) (role : Role) → let s = run versions events in
        VersionRun.may (VersionRun.Begins role) s ≡ true
        → (VersionRun.end_of role s).used ≡ false }
    ensures taken { (events : List VersionEvent) (role : Role) → let s = run versions events in
        VersionRun.comes_to role s ≡ true → VersionRun.knows role s ≡ false }
    ensures kept { (events : List VersionEvent) → let s = run versions events in
        s.kept ≡ true → s.central_knows ≡ false }
    ensures one_kept { (events : List VersionEvent)
        → VersionRun.may VersionRun.Keeps (run versions events) ≡ true
        → (run versions events).kept ≡ false }
{}

/// An exchange of versions runs, or is wanted, only until the peer's version is known. While it is
/// unsent the own LL_VERSION_IND waits. After that was sent it is to come to the peer, or the
/// peer's is to come, or the peer is to end the link. Where an end knows the peer's version and its
/// own PDU is still to come, the peer awaits it or is to end the link. An end whose PDU was queued
/// and that does not know the peer's version runs an exchange, or keeps the peer's PDU.
pub fn version_exchanges_end()
    ensures known { (events : List VersionEvent) (role : Role) → let s = run versions events in
        VersionRun.knows role s ≡ true
        → ((VersionRun.end_of role s).own ≡ Idle) × ((VersionRun.end_of role s).wanted ≡ 0) }
    ensures unsent { (events : List VersionEvent) (role : Role) → let s = run versions events in
        (VersionRun.end_of role s).own ≡ Unsent → (VersionRun.end_of role s).waiting ≡ 1 }
    ensures sent { (events : List VersionEvent) (role : Role) → let s = run versions events in
        (VersionRun.end_of role s).own ≡ Sent → ((VersionRun.end_of role s).waiting ≡ 0)
        × (VersionLaws.is_coming role s ≡ true) }
    ensures answering { (events : List VersionEvent) (role : Role) → let s = run versions events in
        VersionRun.knows role s ≡ true
        → (not ((VersionRun.end_of role s).waiting == 0) || VersionRun.is_sent_by role s) ≡ true
        → ((VersionRun.end_of (other_role role) s).own ≡ Sent)
        ⊎ ((VersionRun.end_of (other_role role) s).closed ≡ true) }
    ensures used { (events : List VersionEvent) (role : Role) → let s = run versions events in
        (VersionRun.end_of role s).used ≡ true → VersionRun.knows role s ≡ false
        → (not (is_idle (VersionRun.end_of role s).own) ≡ true)
        ⊎ (VersionRun.keeps role s ≡ true) }
{}

/// What an end knows of the receive maximum of the other is 27 or what that has sent, and it has
/// sent only what it receives at least. So what an end transmits is at most what the other
/// receives.
pub fn an_end_knows_what_the_other_receives()
    ensures known { (central_rx peripheral_rx : ℕ) (events : List LengthEvent) (role : Role)
        → first_payload_octets ≤ central_rx → first_payload_octets ≤ peripheral_rx
        → let s = run (length_exchanges central_rx peripheral_rx) events in
        ((LengthRun.end_of (other_role role) s).lengths.peer_rx ≡ first_payload_octets)
        ⊎ Contains (LengthRun.sent_by role s)
        (LengthRun.end_of (other_role role) s).lengths.peer_rx }
    ensures sent { (central_rx peripheral_rx : ℕ) (events : List LengthEvent) (role : Role)
        → first_payload_octets ≤ central_rx → first_payload_octets ≤ peripheral_rx
        → let s = run (length_exchanges central_rx peripheral_rx) events in
        All (λ rx. rx ≤ (LengthRun.end_of role s).lengths.own_rx) (LengthRun.sent_by role s) }
    ensures transmits { (central_rx peripheral_rx : ℕ) (events : List LengthEvent) (role : Role)
        → first_payload_octets ≤ central_rx → first_payload_octets ≤ peripheral_rx
        → let s = run (length_exchanges central_rx peripheral_rx) events in
        tx_of (LengthRun.end_of (other_role role) s).lengths
        ≤ (LengthRun.end_of role s).lengths.own_rx }
{}

/// In runs in which no end receives more than as the link began, as in this product, what an end
/// knows of the receive maximum of the other is 27 or exactly that.
pub fn a_receive_maximum_that_stays_is_known()
    ensures stays { (central_rx peripheral_rx : ℕ) (events : List LengthEvent) (role : Role)
        → none_accepts events ≡ true
        → let s = run (length_exchanges central_rx peripheral_rx) events in
        (LengthRun.end_of role s).lengths.own_rx ≡ first_rx role central_rx peripheral_rx }
    ensures known { (central_rx peripheral_rx : ℕ) (events : List LengthEvent) (role : Role)
        → none_accepts events ≡ true
        → first_payload_octets ≤ central_rx → first_payload_octets ≤ peripheral_rx
        → let s = run (length_exchanges central_rx peripheral_rx) events in
        ((LengthRun.end_of (other_role role) s).lengths.peer_rx ≡ first_payload_octets)
        ⊎ ((LengthRun.end_of (other_role role) s).lengths.peer_rx
        ≡ first_rx role central_rx peripheral_rx) }
{}

/// Data that an end fixes, and data that was fixed or sent and not taken, has at most as many
/// octets as the other end receives.
pub fn data_fits_its_receiver()
    ensures fixed { (central_rx peripheral_rx octets : ℕ) (events : List LengthEvent) (role : Role)
        → first_payload_octets ≤ central_rx → first_payload_octets ≤ peripheral_rx
        → let s = run (length_exchanges central_rx peripheral_rx) events in
        LengthRun.may (LengthRun.SendsData (other_role role) octets) s ≡ true
        → octets ≤ (LengthRun.end_of role s).lengths.own_rx }
    ensures coming { (central_rx peripheral_rx octets : ℕ) (events : List LengthEvent) (role : Role)
        → first_payload_octets ≤ central_rx → first_payload_octets ≤ peripheral_rx
        → let s = run (length_exchanges central_rx peripheral_rx) events in
        LengthRun.way_to role s ≡ Some (LengthRun.Data octets)
        → octets ≤ (LengthRun.end_of role s).lengths.own_rx }
{}

/// Without the values and the data a run of exchanges of lengths is a run of an exchange of a
/// question and an answer, so the laws of those hold of it. What an end does is the same without
/// the values.
pub fn lengths_are_an_exchange()
    ensures run { (central_rx peripheral_rx : ℕ) (events : List LengthEvent)
        → (part : List ExchangeEvent)
        × (exchange_link (run (length_exchanges central_rx peripheral_rx) events)
        ≡ run exchanges part) }
    ensures begun { (e : LengthEnd) → exchange_end (Lengths.begun e)
        ≡ Exchange.begun (exchange_end e) }
    ensures sent { (e : LengthEnd) (pdu : LengthPdu) → exchange_end (Lengths.sent pdu e)
        ≡ Exchange.sent pdu.pdu (exchange_end e) }
    ensures taken { (e : LengthEnd) (pdu : LengthPdu) → exchange_end (Lengths.taken pdu e)
        ≡ Exchange.taken pdu.pdu (exchange_end e) }
    ensures refused { (e : LengthEnd) → exchange_end (Lengths.refused e)
        ≡ Exchange.answered (exchange_end e) }
    ensures terminated { (e : LengthEnd) → exchange_end (Lengths.terminated e)
        ≡ Exchange.terminated (exchange_end e) }
    ensures limited { (e : LengthEnd) (tx : ℕ) → exchange_end (Lengths.limited tx e)
        ≡ exchange_end e }
{}
