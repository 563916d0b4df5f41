//! Small journals that are right.
ghost use Rattle.std.specs.Prelude.{◌≡◌, [], ◌∷◌};
ghost use Rattle.ble_base.specs.declared.roles.Side.TheVariants.{A, B};
ghost use Rattle.ble_base.specs.declared.verdicts.Verdict.TheVariants.{Good, Missed};
ghost use Rattle.journal_pdus.specs.controller_model.Rows as packets;
ghost use Rattle.journal.specs.declared.entries.Entry.TheVariants.{Air, Up};
ghost use Rattle.journal.specs.declared.entries.Mark.TheVariants.{Lost as WasLost, Pass as Passed};
ghost use Rattle.journal_pdus.specs.Lawful.{IsLawful};
ghost use Rattle.radio_replay.specs.declared.fates.Fate.TheVariants.{Lost};
ghost use Rattle.run_model.specs.Journal.{journal_of};
ghost use Rattle.run_model.specs.Pair.{given_of};
ghost use Rattle.run_model.specs.Run.{history_of, run_of};
ghost use Rattle.run_model.specs.Rows as rows;
ghost use Rattle.wrong_journals.specs.Hosts.{data_settled};
ghost use Rattle.wrong_journals.specs.Latency.{connecting_with_latency, connection_with_latency};
ghost use Rattle.wrong_journals.specs.Resetting.{shut_by_reset};
ghost use Rattle.wrong_journals.specs.Right as right;

/// The journals of six runs before hosts use a link: a first HCI_Reset; an advertisement that is
/// reported, and one that the radio loses; a link that opens, and one that opens with a latency; and
/// the first event of a link, with an empty PDU each way.
pub fn worked_first_runs()
    ensures reset { journal_of (history_of (run_of (given_of rows.reset [] right.first_script)))
        ≡ rows.first_reset_journal }
    ensures advertisement { journal_of (history_of (run_of
        (given_of packets.advertising_octets packets.scanning_octets
        (right.advertising_script []))))
        ≡ rows.advertisement_opening (Air A 37 (packets.advertisement_ending 0xDA) Passed Good
        ∷ Up B rows.report ∷ []) }
    ensures lost { journal_of (history_of (run_of
        (given_of packets.advertising_octets packets.scanning_octets (right.advertising_script
        (Lost ∷ [])))))
        ≡ rows.advertisement_opening (Air A 37
        (packets.advertisement_ending 0xDA) WasLost Missed ∷ []) }
    ensures opens { journal_of (history_of (run_of
        (given_of rows.enabling_octets rows.connecting_octets right.opening_script)))
        ≡ rows.one_connection_journal }
    ensures latency { journal_of (history_of (run_of
        (given_of rows.enabling_octets connecting_with_latency right.opening_script)))
        ≡ connection_with_latency }
    ensures event { journal_of (history_of (run_of
        (given_of rows.enabling_octets rows.connecting_octets right.event_script)))
        ≡ rows.one_event_journal }
{}

/// The journals of seven runs. In three of them the central has a packet of its host to send. It
/// says so in its first packet, and the event goes on in the next turn: there the packet is taken,
/// acknowledged, handed up and credited. In one of these its host gives another packet in that
/// turn, and in one the peripheral has a packet as well. In three runs the host of the central gives
/// a command on the link: it asks for the version of the peripheral or for other parameters, or ends
/// the link. In the last run the peripheral is reset.
pub fn worked_link_runs()
    ensures one { journal_of (history_of (run_of
        (given_of rows.enabling_octets right.sending_octets right.data_script))) ≡ data_settled }
    ensures more { journal_of (history_of (run_of
        (given_of rows.enabling_octets right.more_octets right.more_script))) ≡ right.more_settled }
    ensures both { journal_of (history_of (run_of
        (given_of right.answering_octets right.sending_octets right.both_script)))
        ≡ right.both_settled }
    ensures version { journal_of (history_of (run_of
        (given_of rows.enabling_octets right.asking_octets right.asking_script)))
        ≡ right.version_replied }
    ensures update { journal_of (history_of (run_of
        (given_of rows.enabling_octets right.updating_octets right.updating_script)))
        ≡ right.update_taken }
    ensures ended { journal_of (history_of (run_of
        (given_of right.giving_octets right.ending_octets right.ending_script))) ≡ right.both_shut }
    ensures reset { journal_of (history_of (run_of
        (given_of right.resetting_octets rows.connecting_octets right.reset_script)))
        ≡ shut_by_reset A }
{}

/// Twelve journals are lawful, which were written by hand: a first HCI_Reset; an advertisement that
/// is reported, and one that the radio loses; a link that opens; its first event, with an empty PDU
/// each way; three with data; an exchange of versions, an update of the connection, and a link that
/// a host ends; and one with a Reset of a side with a link. Many of the wrong journals begin with
/// lines of the last seven. So the definition of a lawful journal does not refuse what is right.
pub fn right_journals_are_lawful()
    ensures reset { IsLawful rows.reset [] right.first_script rows.first_reset_journal }
    ensures advertisement { IsLawful packets.advertising_octets packets.scanning_octets
        (right.advertising_script [])
        (rows.advertisement_opening (Air A 37 (packets.advertisement_ending 0xDA) Passed Good
        ∷ Up B rows.report ∷ [])) }
    ensures lost { IsLawful packets.advertising_octets packets.scanning_octets
        (right.advertising_script (Lost ∷ []))
        (rows.advertisement_opening (Air A 37
        (packets.advertisement_ending 0xDA) WasLost Missed ∷ [])) }
    ensures opens { IsLawful rows.enabling_octets rows.connecting_octets right.opening_script
        rows.one_connection_journal }
    ensures event { IsLawful rows.enabling_octets rows.connecting_octets right.event_script rows.one_event_journal }
    ensures one_packet { IsLawful rows.enabling_octets right.sending_octets right.data_script data_settled }
    ensures more_packets { IsLawful rows.enabling_octets right.more_octets right.more_script right.more_settled }
    ensures both_sides { IsLawful right.answering_octets right.sending_octets right.both_script right.both_settled }
    ensures versions { IsLawful rows.enabling_octets right.asking_octets right.asking_script right.version_replied }
    ensures updates { IsLawful rows.enabling_octets right.updating_octets right.updating_script right.update_taken }
    ensures ends { IsLawful right.giving_octets right.ending_octets right.ending_script right.both_shut }
    ensures link_reset { IsLawful right.resetting_octets rows.connecting_octets right.reset_script
        (shut_by_reset A) }
{
    worked_first_runs();
    worked_link_runs();
    journal_pdus::each_journal_is_lawful();
}
