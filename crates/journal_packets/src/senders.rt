//! The links of the packets of a journal. The body only calls the laws that it rests on: the
//! contract is the law.
ghost use Rattle.std.specs.Prelude.{◌≡◌, ◌++◌, ◌∷◌, ℕ, List, false, length};
ghost use Rattle.radio_replay.specs.Script.{Script};
ghost use Rattle.journal_links.specs.run_model.History.{Event, Hearing, Transmitted};
ghost use Rattle.journal_links.specs.run_model.Links.{is_advertising};
ghost use Rattle.journal_links.specs.run_model.Pair.{given_of};
ghost use Rattle.journal_links.specs.run_model.Run.{history_of, run_of};
ghost use Rattle.journal_packets.specs.Senders.{IsOfSendersLink};

/// In a run of a pair, each packet on a data channel is that of a link that is open at its sender,
/// and the journal before it names that link: by its access address, and by whether it answers a
/// packet that its sender heard in the same turn (Core 5.2, volume 6 part B, sections 2.1.2 and
/// 4.5).
pub fn each_packet_is_of_its_senders_link()
    ensures { (a b : List ℕ) (script : Script) (before rest : List Event) (station channel : ℕ)
        (octets : List ℕ) (hearings : List Hearing)
        → length script.a.public ≡ 6 → length script.b.public ≡ 6
        → history_of (run_of (given_of a b script))
        ≡ before ++ Transmitted station channel octets hearings ∷ rest
        → is_advertising channel ≡ false
        → IsOfSendersLink (given_of a b script) before station channel octets }
{
    journal_links::a_pdu_is_understood();
    advertise::laws::connections_are_taken();
    scan_init::laws::searches_give_each_valid_address();
}
