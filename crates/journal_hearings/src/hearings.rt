//! Packets of a journal that are heard, and links that are opened. The bodies only call the laws
//! that they rest on: the contracts are the laws.
ghost use Rattle.std.specs.Prelude.{◌≡◌, ◌≤◌, ◌∷◌, [], ℕ, List};
ghost use Rattle.host_view.specs.declared.view.TheConstants.{MOST_LINKS};
ghost use Rattle.journal_hearings.specs.Openings.{AllHeardLinksAreOpened, HeardLinksAreOpened};
ghost use Rattle.journal_hearings.specs.Openings.{OpenedLinksWereToOpen};
ghost use Rattle.journal_hearings.specs.Requests.{AllRequestsAreHeard};
ghost use Rattle.journal_hearings.specs.Taken.{AllTakenLinksAreHeard};
ghost use Rattle.journal_data.specs.run_model.History.{Event};
ghost use Rattle.journal_data.specs.run_model.Journal.{journal_of};
ghost use Rattle.journal_data.specs.run_model.LinkEnds.{HaveAddresses};
ghost use Rattle.journal_data.specs.run_model.Run.{Given, GoesOn, history_of, run_of, setup_at};

/// In the journal of a run of two stations, with any number of links each, each SCAN_REQ, SCAN_RSP
/// and CONNECT_IND that passes is judged good: the other side listens for it, on its channel (Core
/// 5.2, volume 6 part B, sections 2.3, 4.4.2 and 4.4.3).
pub fn each_request_is_heard()
    ensures { (given : Given) → given.stations ≡ 0 ∷ 1 ∷ [] → HaveAddresses given
        → AllRequestsAreHeard (journal_of (history_of (run_of given))) }
{
    journal_data::a_pdu_is_understood();
}

/// In the journal of a run of two stations, with any number of links each, a side holds a link as
/// its peripheral only where it heard the CONNECT_IND of that link, in the same turn: the other
/// side sent it, and this side judged it good (Core 5.2, volume 6 part B, sections 4.4.2.3, 4.4.2.4
/// and 4.5).
pub fn each_taken_link_is_heard()
    ensures { (given : Given) → given.stations ≡ 0 ∷ 1 ∷ [] → HaveAddresses given
        → AllTakenLinksAreHeard (journal_of (history_of (run_of given))) }
{}

/// In the journal of a run of two stations, each of which can hold no more links than the view of
/// its host has places for, a side that heard a CONNECT_IND opens its link as the peripheral,
/// before the next turn and at the end of a whole run. It does so where the CONNECT_IND answers its
/// last connectable advertisement of the turn and comes from the target of that or passes the
/// filter policy, the fields are in their ranges, and no link is open at it between the two
/// addresses. The policy and the accept list are those of the accepted commands of its host (Core
/// 5.2, volume 6 part B, sections 2.3.1, 2.3.3.1, 4.3.2, 4.4.2.3, 4.4.2.4 and 4.5, and volume 4
/// part E, sections 7.8.5 and 7.8.15 to 7.8.17).
pub fn each_heard_link_is_opened()
    ensures before_a_turn { (given : Given) → given.stations ≡ 0 ∷ 1 ∷ [] → HaveAddresses given
        → ((station : ℕ) → (setup_at given station).links ≤ MOST_LINKS)
        → ((station : ℕ) → (setup_at given station).host_buffers ≡ 8)
        → AllHeardLinksAreOpened (journal_of (history_of (run_of given))) }
    ensures at_the_end { (given : Given) (history : List Event) → given.stations ≡ 0 ∷ 1 ∷ []
        → HaveAddresses given → ((station : ℕ) → (setup_at given station).links ≤ MOST_LINKS)
        → ((station : ℕ) → (setup_at given station).host_buffers ≡ 8)
        → run_of given ≡ GoesOn history → HeardLinksAreOpened (journal_of history) }
{
    journal_data::a_pdu_is_understood();
    advertise::laws::connections_are_taken();
    scan_init::laws::searches_give_each_valid_address();
    air_frame::laws::packet_tells_its_pdu();
}

/// In the journal of a run of two stations, with any number of links each that handles of 12 bits
/// can name, where each has eight buffers for packets of its host, a side opens a link as its
/// peripheral only where it heard the CONNECT_IND of that link in the same turn, and was to open
/// the link by the lines before that: under the conditions of `each_heard_link_is_opened`, and
/// under no others (Core 5.2, volume 6 part B, sections 2.3.1, 2.3.3.1, 4.3.2, 4.4.2.3, 4.4.2.4 and
/// 4.5, and volume 4 part E, sections 7.8.5 and 7.8.15 to 7.8.17).
pub fn each_opened_link_was_to_open()
    ensures { (given : Given) → given.stations ≡ 0 ∷ 1 ∷ [] → HaveAddresses given
        → ((station : ℕ) → (setup_at given station).links ≤ 4096)
        → ((station : ℕ) → (setup_at given station).host_buffers ≡ 8)
        → OpenedLinksWereToOpen (journal_of (history_of (run_of given))) }
{
    journal_data::a_pdu_is_understood();
    advertise::laws::connections_are_taken();
    scan_init::laws::searches_give_each_valid_address();
    air_frame::laws::packet_tells_its_pdu();
}
