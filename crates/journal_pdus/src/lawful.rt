//! What is promised of turns, links and data in every run of a pair, from the lines of its journal.
//! The body only calls the laws that it rests on: the contract is the law.
ghost use Rattle.std.specs.Prelude.{◌≡◌, ℕ, List, length};
ghost use Rattle.radio_replay.specs.Script.{Script};
ghost use Rattle.journal_moves.specs.journal_wants.journal_sending.run_model.History.{Event};
ghost use Rattle.journal_moves.specs.journal_wants.journal_sending.run_model.Journal.{journal_of};
ghost use Rattle.journal_moves.specs.journal_wants.journal_sending.run_model.Pair.{given_of};
ghost use Rattle.journal_moves.specs.journal_wants.journal_sending.run_model.Run as run;
ghost use Rattle.journal_pdus.specs.Lawful.{IsLawful, IsWhole};
ghost use Rattle.journal_pdus.specs.Undelivered.{IsUndelivered};

use crate::credits::each_complete_packet_is_reported_at_once;
use crate::links::{
    a_reset_leaves_no_link, each_answer_on_a_link_is_heard, each_link_is_opened_at_its_central,
    each_packet_is_in_its_event,
};

/// The journal of a run of a pair, whole or ended by damage, follows its schedule
/// (`journal_turns::each_journal_follows_its_schedule`). Links and their events are those of their
/// CONNECT_INDs, each of which has the next access address of its side and opens its link there
/// before the next turn; each side enters the events of a link one after another, both sides let the
/// indications of the central hold and enter an event alike (`journal_indications`), and a side sends
/// only in the turn of the event that it entered last, or in the next turn where MD says that more
/// waits; each packet is what its side is to send next in the turn, by what wins the slot among all
/// that the side wants, before the next turn nothing more is to be sent, what is heard was listened
/// for, and what passes and is listened for is not missed (`journal_moves`); no open end leaves out an
/// event of its link (`journal_anchors`); lines name links that are open at their side; each link that is
/// shut has its reason, none that is to end stays open after that turn (`journal_leaving`), and a
/// Reset leaves none; a line of a control procedure comes where it is due by the lines before and
/// nowhere else (`journal_due`); where two procedures collide, the next PDU of the central is the
/// rejection of the peripheral's or LL_TERMINATE_IND, the peripheral's procedure is refused where
/// that rejection is taken, no indication comes of it, and it is never done (`journal_collisions`,
/// `journal_outcomes`); no link ends with 0x07, 0x23 or 0x2A (`journal_endings`), and one ends with
/// 0x3D only where its side judged a packet of it forged (`journal_failures`); an answer on a link
/// that passes is heard: it is judged good or forged, or broken where its payload has more octets
/// than that side receives; requests on the advertising channels that pass are heard too; a side
/// opens a link as its peripheral exactly where it heard the CONNECT_IND and is to open it
/// (`journal_hearings`); each command is answered once, complete packets are reported in their order,
/// a host whose flow control is on never holds more packets of data than it can take, none of them
/// longer than its buffers, each packet of data to a host is of the first piece that waits for it, of
/// whichever link, and goes up as its turn ends (`journal_hosts`); and data arrives in order
/// (`journal_sending::data_arrives_in_order_in_every_journal`). The packet at which damage ends a run
/// is due as those before it are.
///
/// Links encrypt. What is said of one end holds in all phases, by the keys and the counters that the
/// lines give it, with the words of the script as what its side draws. What is said of both ends of a
/// link (that they follow the central and enter events alike, what becomes of procedures that
/// collide, the reasons 0x07, 0x23, 0x2A and 0x3D, and that data arrives) holds up to the first packet
/// of that link that mixes two session keys: one that is new and not empty, that reaches unchanged an
/// end which opens what it hears with another key than its peer has, and that is judged good, so that
/// its integrity code is right by chance (`journal_sealing`). Where both ends have one key there is
/// none (`with_one_key_nothing_is_mixed`). Line by line (Core 5.2, volume 6 part B, sections 2.4, 4.5.6,
/// 4.5.9, 4.5.10, 5.1.3 and 5.1.6, and part E, section 2, and volume 4 part E, section 7.7.19):
///
/// - each packet of a link has the channel, the access address, the CRCInit, SN and NESN that the
///   lines before it give, and carries the PDU that its side sent last, until that is acknowledged;
/// - its payload is what its end made of that PDU with the keys and the counter that it had before
///   the line of the PDU: its body, or its body sealed. So it has the same octets each time, however
///   often it is sent. Where it reaches the other side as it was sent, is heard whole there and brings
///   a new PDU that is not empty, it is sealed exactly if the end of that side opens what it hears, up
///   to the first packet of the link that mixes two session keys;
/// - a packet of a link that the other side hears whole is judged forged exactly where its integrity
///   code is wrong for the session and the counter of the end that hears it, and good where it is not;
///   one that the radio left as it was is judged forged only where its two ends have two session keys,
///   up to the first packet of the link that mixes them;
/// - each line of a new PDU comes after all PDUs before it on its side are acknowledged;
/// - each new PDU has the next number: it is the next control PDU where one that may go waited as
///   the PDU was fixed, else the next piece of one packet that the host of the side submitted on the
///   link, of at most the effective length of that time; no data is sent after a Disconnect is
///   accepted, nor while the link is in a phase that is not Clear or Secure;
/// - MD of each packet of a link says whether a control PDU or data of the host waits there, by its
///   end as the PDU was fixed, so MD of an answer does not count what the packet before it queued;
///   and a new empty PDU goes out only where neither may go;
/// - so MD is 1 exactly where something waited, as the turn began, after the PDU that the packet
///   carries, a side skips an event exactly where it is an idle peripheral that heard a good packet
///   last in an event before, not more than the latency in force before, and it seals from the start
///   of an encryption that it took last, with the number of PDUs that it sent since as its counter
///   (`journal_rules`);
/// - the line of a new PDU is the last of its side before the packet that the PDU first goes out
///   in;
/// - the next line of a side after the first good packet that brings a PDU is that it takes it, with
///   the body that its end reads in the packet by its own key and counter, but
///   for the lines that a procedure is done on that link; it takes nothing more on a link once its
///   LL_TERMINATE_IND is acknowledged there;
/// - before each turn, and at the end of a whole run, the packet of each line of a new PDU was on
///   the air, and what reached a side was taken; and the host of each side has received all data
///   that its side took, or could take no more as the turn ended, and each of its packets that the
///   other side acknowledged whole is reported to it. So it is of a link that is shut after a packet
///   of its turn, before that line.
pub fn each_journal_is_lawful()
    ensures lawful { (a b : List ℕ) (script : Script) → length script.a.public ≡ 6
        → length script.b.public ≡ 6
        → IsLawful a b script (journal_of (run.history_of (run.run_of (given_of a b script)))) }
    ensures whole { (a b : List ℕ) (script : Script) (history : List Event)
        → length script.a.public ≡ 6 → length script.b.public ≡ 6
        → run.run_of (given_of a b script) ≡ run.GoesOn history
        → IsWhole script (journal_of history) }
    ensures stopped { (a b : List ℕ) (script : Script) (history : List Event) (stop : run.Stop)
        → length script.a.public ≡ 6 → length script.b.public ≡ 6
        → run.run_of (given_of a b script) ≡ run.Stops history stop
        → IsUndelivered script stop.slot stop.place stop.sent stop.heard (journal_of history) }
{
    journal_moves::a_pdu_is_understood();
    advertise::laws::connections_are_taken();
    scan_init::laws::searches_give_each_valid_address();
    air_frame::laws::packet_tells_its_pdu();
    journal_turns::each_journal_follows_its_schedule();
    journal_turns::a_run_stops_in_its_turn();
    journal_moves::each_opened_line_names_its_link();
    journal_moves::each_enter_line_is_at_its_anchor();
    journal_moves::each_link_has_the_next_address();
    journal_moves::each_sent_line_is_of_a_new_pdu();
    journal_moves::each_side_enters_its_events_in_order();
    journal_moves::lines_are_of_open_links_in_every_journal();
    journal_moves::data_arrives_in_order_in_every_journal();
    journal_failures::ends_follow_their_central_in_every_journal();
    journal_failures::ends_enter_each_event_alike_in_every_journal();
    journal_failures::colliding_procedures_are_rejected_next();
    journal_failures::rejected_procedures_are_refused();
    journal_failures::rejected_procedures_are_not_indicated();
    journal_failures::rejected_procedures_are_not_done();
    journal_failures::no_link_ends_by_a_protocol_error();
    journal_failures::a_link_fails_only_after_a_forged_packet();
    journal_moves::each_line_of_a_procedure_is_where_it_is_due();
    journal_moves::each_shut_line_has_its_reason_by_the_lines();
    journal_moves::links_end_in_time_by_the_lines();
    journal_words::the_words_of_a_run_are_given();
    journal_seals::a_mixed_journal_stays_mixed();
    journal_seals::ends_hear_no_mixed_packet_while_their_journal_is_not_mixed();
    journal_seals::each_packet_has_the_payload_of_the_lines();
    journal_seals::a_pdu_is_sent_again_with_its_payload();
    journal_seals::each_verdict_is_that_of_the_lines();
    journal_seals::a_packet_is_forged_only_between_two_keys();
    journal_seals::both_ends_agree_on_what_is_sealed();
    journal_moves::each_new_pdu_is_next_by_the_lines();
    journal_moves::each_packet_of_a_link_tells_what_waits();
    journal_moves::the_line_of_each_new_pdu_is_just_before_its_packet();
    journal_moves::each_pdu_is_taken_at_once();
    journal_moves::nothing_is_under_way_between_turns();
    journal_moves::no_end_misses_an_event();
    journal_moves::the_moves_of_each_turn_are_owed();
    journal_moves::each_packet_that_is_listened_for_is_judged();
    journal_slots::each_second_slot_has_its_reason();
    journal_rules::each_journal_keeps_the_rules_in_words();
    journal_moves::each_command_is_answered();
    journal_moves::each_credit_is_of_some_packets();
    journal_moves::each_early_credit_is_of_one_packet();
    journal_moves::credits_of_a_turn_are_in_the_order_of_handles();
    journal_moves::each_late_credit_comes_as_its_turn_ends();
    journal_moves::each_late_end_is_reported_at_once();
    journal_moves::data_fits_the_buffers_of_its_host();
    journal_moves::data_of_all_links_comes_in_one_order();
    journal_moves::data_goes_up_as_its_turn_ends();
    journal_hearings::each_request_is_heard();
    journal_hearings::each_heard_link_is_opened();
    journal_hearings::each_opened_link_was_to_open();
    each_answer_on_a_link_is_heard();
    each_link_is_opened_at_its_central();
    each_packet_is_in_its_event();
    a_reset_leaves_no_link();
    each_complete_packet_is_reported_at_once();
}
