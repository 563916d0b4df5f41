//! Why links are shut, by the lines of a journal alone. The body only calls the laws that it rests
//! on: the contract is the law.
ghost use Rattle.std.specs.Prelude.{◌≡◌, ◌∷◌, []};
ghost use Rattle.journal_controls.specs.run_model.Journal.{journal_of};
ghost use Rattle.journal_controls.specs.run_model.LinkEnds.{HaveAddresses};
ghost use Rattle.journal_controls.specs.run_model.Run.{Given, history_of, run_of};
ghost use Rattle.journal_leaving.specs.Reasons.{AllAreShutAs};
ghost use Rattle.journal_controls.specs.journal_ends.Asked.{Words};
ghost use Rattle.journal_controls.specs.journal_ends.GivenWords.{GivesWords};

/// In the journal of a run of two stations, with any number of links each and whatever procedures
/// they carry, also of one that damage stops, each line of a link that is shut has its reason by the
/// lines before it. With 00, its host completed a Reset (Core 5.2, volume 4 part E, section 7.3.2).
/// Else no packet was on the air yet in this turn, and the link was due to end with that code: it
/// was lost, or a procedure or LL_TERMINATE_IND was not answered in time (volume 6 part B, sections
/// 4.5.2, 5.2 and 5.1.6); or the end was to leave with it as the turn ended (sections 5.1.6 and
/// 5.5.1).
pub fn each_shut_line_has_its_reason_by_the_lines()
    ensures { (words : Words) (given : Given) → given.stations ≡ 0 ∷ 1 ∷ [] → HaveAddresses given → GivesWords given words
        → AllAreShutAs words (journal_of (history_of (run_of given))) }
{
    journal_controls::a_pdu_is_understood();
    advertise::laws::connections_are_taken();
    scan_init::laws::searches_give_each_valid_address();
    air_frame::laws::packet_tells_its_pdu();
}
