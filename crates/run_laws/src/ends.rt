//! Both ends of one link in each run. The bodies only call the laws that they rest on: the
//! contracts are the laws.
ghost use Rattle.std.specs.Prelude.{◌≡◌, ◌≢◌, ◌++◌, ◌∷◌, ℕ, Bool, List, length};
ghost use Rattle.std.specs.List.{Contains};
ghost use Rattle.run_model.specs.link_model.OneLink.{AreOneLink};
ghost use Rattle.radio_replay.specs.Script.{Script};
ghost use Rattle.run_model.specs.Feeding.{AreDistinct};
ghost use Rattle.run_model.specs.History.{Event, TurnBegan, turns_begun};
ghost use Rattle.run_model.specs.LinkEnds.{HaveAddresses};
ghost use Rattle.run_model.specs.Pair.{given_of};
ghost use Rattle.run_model.specs.Run.{Given, GoesOn, facts_at, history_of, run_of};
ghost use Rattle.run_laws.specs.Ends.{AreEnds, HaveOneConnectInd, IsOpen, OpenEnd};

/// The two ends of a link are at two stations, and have the fields of one CONNECT_IND and its slot.
pub fn ends_of_one_link_have_one_connect_ind()
    ensures agree { (history : List Event) (central peripheral : OpenEnd)
        → AreEnds history central peripheral
        → HaveOneConnectInd central.link.setup peripheral.link.setup }
    ensures apart { (history : List Event) (central peripheral : OpenEnd)
        → AreEnds history central peripheral → central.station ≢ peripheral.station }
{}

/// Before each turn of a run each controller has begun the turns before that, one after another
/// from slot 0 on, and at the end of a run all of them: none is left out, and none begins twice.
pub fn each_station_begins_the_turns()
    ensures before_a_turn { (given : Given) (before rest : List Event) (slot : ℕ)
        (radios : List Bool) (station : ℕ) → AreDistinct given.stations
        → Contains given.stations station
        → history_of (run_of given) ≡ before ++ TurnBegan slot radios ∷ rest
        → (facts_at given station before).turn.begun ≡ slot }
    ensures at_the_end { (given : Given) (history : List Event) (station : ℕ)
        → AreDistinct given.stations → Contains given.stations station
        → run_of given ≡ GoesOn history
        → (facts_at given station history).turn.begun ≡ turns_begun history }
{}

/// At any time of a run, both open ends of one link have one CONNECT_IND, its slot, and one
/// algorithm for the channels (Core 5.2, volume 6 part B, section 4.5.8).
pub fn ends_of_one_link_agree()
    ensures one_link { (given : Given) (before rest : List Event) (central peripheral : OpenEnd)
        → AreDistinct given.stations → HaveAddresses given
        → Contains given.stations central.station → Contains given.stations peripheral.station
        → history_of (run_of given) ≡ before ++ rest → AreEnds before central peripheral
        → IsOpen given before central → IsOpen given before peripheral
        → AreOneLink central.link.setup peripheral.link.setup }
    ensures pair { (a b : List ℕ) (script : Script) (before rest : List Event)
        (central peripheral : OpenEnd)
        → length script.a.public ≡ 6 → length script.b.public ≡ 6
        → Contains (given_of a b script).stations central.station
        → Contains (given_of a b script).stations peripheral.station
        → history_of (run_of (given_of a b script)) ≡ before ++ rest
        → AreEnds before central peripheral → IsOpen (given_of a b script) before central
        → IsOpen (given_of a b script) before peripheral
        → AreOneLink central.link.setup peripheral.link.setup }
{
    run_model::a_pdu_is_understood();
}
