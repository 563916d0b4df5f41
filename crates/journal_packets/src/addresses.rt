//! The access addresses of links, in the journal of each run of a pair. The body only calls the
//! laws that it rests on: the contract is the law.
ghost use Rattle.std.specs.Prelude.{◌≡◌, ℕ, List, length};
ghost use Rattle.journal_packets.specs.Addresses.{AllAddressesAreNext};
ghost use Rattle.radio_replay.specs.Script.{Script};
ghost use Rattle.journal_links.specs.run_model.Journal.{journal_of};
ghost use Rattle.journal_links.specs.run_model.Pair.{given_of};
ghost use Rattle.journal_links.specs.run_model.Run.{history_of, run_of};

/// In the journal of a run of a pair, the CONNECT_INDs that a side sent have the valid access
/// addresses from its cursor on, each the next one, whatever comes between, an HCI_Reset too (Core
/// 5.2, volume 6 part B, section 2.1.2; the order is our choice).
pub fn each_link_has_the_next_address()
    ensures { (a b : List ℕ) (script : Script) → length script.a.public ≡ 6
        → length script.b.public ≡ 6
        → AllAddressesAreNext script (journal_of (history_of (run_of (given_of a b script)))) }
{
    journal_links::a_pdu_is_understood();
    advertise::laws::connections_are_taken();
}
