//! What the packets of links carry, from the lines of a journal before them. The body only calls
//! the laws that it rests on: the contract is the law.
ghost use Rattle.std.specs.Prelude.{◌≡◌, ◌++◌, ◌∷◌, ℕ, List, false, length};
ghost use Rattle.ble_base.specs.declared.roles.Side.{Side};
ghost use Rattle.ble_base.specs.declared.verdicts.Verdict.{Verdict};
ghost use Rattle.journal.specs.declared.entries.Entry.{Entry};
ghost use Rattle.journal.specs.declared.entries.Entry.TheVariants.{Air, Sent};
ghost use Rattle.journal.specs.declared.entries.Mark.{Mark};
ghost use Rattle.radio_replay.specs.Script.{Script};
ghost use Rattle.link_calls.specs.run_model.Journal.{journal_of};
ghost use Rattle.link_calls.specs.run_model.Links.{is_advertising};
ghost use Rattle.link_calls.specs.run_model.Pair.{given_of};
ghost use Rattle.link_calls.specs.run_model.Run.{history_of, run_of};
ghost use Rattle.journal_acks.specs.Carried.{IsLinkPacket, IsNewPdu};

use crate::stations::links_of_two_stations_keep_to_the_journal;

/// In the journal of a run of a pair, each packet off the advertising channels is one of a link
/// whose CONNECT_IND comes before it, on the channel that its side entered last on that link, with
/// the access address and CRCInit of that CONNECT_IND. It carries the PDU of the last `Sent` line
/// of its side on that link until a PDU of that side is acknowledged, and else an empty one. Its
/// payload on the air is the body of that PDU, or is sealed and four octets longer. SN is the
/// number of PDUs of its side that are acknowledged, and NESN that of the PDUs that its side
/// accepted, both modulo 2, as the lines before it say (Core 5.2, volume 6 part B, sections 2.1,
/// 2.4 and 4.5.9, and part E, section 2).
pub fn each_link_packet_carries_what_the_journal_says()
    ensures { (a b : List ℕ) (script : Script) (front rest : List Entry) (side : Side)
        (channel : ℕ) (octets : List ℕ) (fate : Mark) (verdict : Verdict)
        → length script.a.public ≡ 6 → length script.b.public ≡ 6
        → journal_of (history_of (run_of (given_of a b script)))
        ≡ front ++ Air side channel octets fate verdict ∷ rest
        → is_advertising channel ≡ false → IsLinkPacket front side channel octets }
{
    links_of_two_stations_keep_to_the_journal();
}

/// In the journal of a run of a pair, each `Sent` line comes where all PDUs that its side sent on
/// that link before are acknowledged, as the lines before it say; and its PDU is not empty. So a
/// PDU is sent again until it is acknowledged (Core 5.2, volume 6 part B, section 4.5.9).
pub fn each_sent_line_is_of_a_new_pdu()
    ensures { (a b : List ℕ) (script : Script) (front rest : List Entry) (side : Side)
        (number count llid : ℕ) (body : List ℕ)
        → length script.a.public ≡ 6 → length script.b.public ≡ 6
        → journal_of (history_of (run_of (given_of a b script)))
        ≡ front ++ Sent side number count llid body ∷ rest
        → IsNewPdu number front side (record { llid = llid; body = body }) }
{
    links_of_two_stations_keep_to_the_journal();
}
