//! Both ends of each link enter each event alike, in every run. The bodies only call the laws that
//! they rest on: the contracts are the laws.
ghost use Rattle.std.specs.Prelude.{◌≡◌, ◌≤◌, ◌∷◌, [], ℕ, List, length};
ghost use Rattle.radio_replay.specs.Script.{Script};
ghost use Rattle.journal_agreement.specs.Indications.{AllAreEnteredAlike, AllFollowCentral};
ghost use Rattle.journal_agreement.specs.journal_data.Followed.{Follows, Mixed};
ghost use Rattle.journal_agreement.specs.journal_data.run_model.Journal.{journal_of};
ghost use Rattle.journal_agreement.specs.journal_data.run_model.LinkEnds.{HaveAddresses};
ghost use Rattle.journal_agreement.specs.journal_data.run_model.Pair.{given_of};
ghost use Rattle.journal_agreement.specs.journal_data.run_model.Run.{Given, history_of, run_of, setup_at};

/// In the journal of a run, whole or ended by damage, whatever is lost: where an end of a link
/// enters an event, the indications in force at it are the first that the central sent, each from
/// the same event on at both ends. So it is up to the first packet of the link that is mixed, with
/// any number of links between two stations that handles of 12 bits can name, where each station
/// has eight buffers for packets of its host (Core 5.2, volume 6 part B, sections 4.5.9, 5.1.1,
/// 5.1.2 and 5.5).
pub fn ends_follow_their_central_in_every_journal()
    ensures two_stations { (given : Given) (mixed : Mixed) → given.stations ≡ 0 ∷ 1 ∷ []
        → HaveAddresses given → Follows given mixed
        → ((station : ℕ) → (setup_at given station).links ≤ 4096)
        → ((station : ℕ) → (setup_at given station).host_buffers ≡ 8)
        → AllFollowCentral mixed (journal_of (history_of (run_of given))) }
    ensures pair { (a b : List ℕ) (script : Script) (mixed : Mixed)
        → length script.a.public ≡ 6 → length script.b.public ≡ 6
        → Follows (given_of a b script) mixed
        → AllFollowCentral mixed (journal_of (history_of (run_of (given_of a b script)))) }
{
    journal_agreement::data_of_two_stations_arrives_in_order();
    journal_agreement::data_arrives_in_order_in_every_journal();
    journal_agreement::ends_that_take_in_order_follow_the_central();
    crate::read::peripherals_read_what_the_central_sent_last();
    crate::in_time::indications_that_are_followed_came_in_time();
}

/// In the journal of a run of a pair, where both ends of a link enter an event with one number, and
/// the same number of indications is in force at both, they enter it in one turn, on one channel,
/// and with the same parameters (Core 5.2, volume 6 part B, sections 4.5.1, 4.5.8, 5.1.1, 5.1.2 and
/// 5.5). So it is up to the first packet of the link that is mixed.
pub fn ends_enter_each_event_alike_in_every_journal()
    ensures { (a b : List ℕ) (script : Script) (mixed : Mixed)
        → length script.a.public ≡ 6 → length script.b.public ≡ 6
        → Follows (given_of a b script) mixed
        → AllAreEnteredAlike mixed (journal_of (history_of (run_of (given_of a b script)))) }
{
    controller_model::a_pdu_is_understood();
    advertise::laws::connections_are_taken();
    journal_agreement::ends_that_follow_the_central_enter_alike();
    ends_follow_their_central_in_every_journal();
}
