//! Laws of runs of two controllers. The body only calls laws that it uses: the contract is the law.
ghost use Rattle.std.specs.Prelude.{◌≡◌, ◌∷◌, [], ℕ, List, length};
ghost use Rattle.journal.specs.declared.entries.Entry.{Entry};
ghost use Rattle.radio_replay.specs.Script.{Script};
ghost use Rattle.link_calls.specs.run_model.Feeding.{AreDistinct};
ghost use Rattle.link_calls.specs.run_model.History.{Event};
ghost use Rattle.link_calls.specs.run_model.LinkEnds.{HaveAddresses};
ghost use Rattle.link_calls.specs.run_model.Pair.{EndsUnseen, given_of};
ghost use Rattle.link_calls.specs.run_model.Run.{Given, Stop, Stops, run_of};
ghost use Rattle.short_damage.specs.Short.{AllAreShort, AreShortIn};

/// A run of two controllers whose damages are all short never stops: no packet that such a damage
/// changed is judged good, on an advertising channel or on a link, in any phase of encryption, with
/// any number of links. On a link the listener judges with its own access address and CRCInit. Where
/// the packet has that address, both are of one CONNECT_IND: no two links of one central have one
/// address, and a central sends in the first phase of a turn, where no central listens (Core 5.2,
/// volume 6 part B, sections 2.1.2, 3.1.1 and 4.5.1).
pub fn short_damage_never_ends_a_run()
    ensures two { (given : Given) (one other : ℕ) (history : List Event) (stop : Stop)
        → given.stations ≡ one ∷ other ∷ [] → AreDistinct given.stations → HaveAddresses given
        → AreShortIn given → run_of given ≡ Stops history stop → ⊥ }
    ensures pair { (a b : List ℕ) (script : Script) (turn packet : ℕ) (sent heard : List ℕ)
        (journal : List Entry) → length script.a.public ≡ 6 → length script.b.public ≡ 6
        → AllAreShort script
        → EndsUnseen (given_of a b script) turn packet sent heard journal → ⊥ }
{
    link_calls::a_pdu_is_understood();
    advertise::laws::connections_are_taken();
    scan_init::laws::searches_give_each_valid_address();
    air_frame::laws::packet_tells_its_pdu();
    air_frame::laws::short_damage_is_never_whole();
    frame_bits::laws::whitening_goes_bit_by_bit();
}
