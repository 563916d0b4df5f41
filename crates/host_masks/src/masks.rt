//! The event masks of a host. The bodies are empty: the contracts are the laws.
ghost use Rattle.std.specs.Prelude.{◌≡◌, ◌++◌, ◌∷◌, [], ℕ, false, List, map, Some, None, Err};
ghost use Rattle.std.specs.Prelude.{if◌then◌else◌};
ghost use Rattle.ble_base.specs.declared.notes.Note.{Note};
ghost use Rattle.ble_base.specs.declared.roles.Side.{Side};
ghost use Rattle.hci_cmd.specs.declared.command.Command.TheVariants.{LeSetEventMask, Reset};
ghost use Rattle.hci_cmd.specs.declared.command.Command.TheVariants.{SetEventMask};
ghost use Rattle.hci_evt.specs.declared.event.MaskBit.{MaskBit};
ghost use Rattle.ble_base.specs.ErrorCodes.{unsupported_remote_feature};
ghost use Rattle.ble_base.specs.declared.error_codes.ErrCode.{ErrCode};
ghost use Rattle.data_pdu.specs.declared.ctrl.Ctrl.TheVariants.{EncReq};
ghost use Rattle.run_model.specs.link_model.Step.{KeyAnswered, RequestAnswered};
ghost use Rattle.run_model.specs.controller_model.host_view.Status.{status_of};
ghost use Rattle.run_model.specs.controller_model.host_view.View.{View};
ghost use Rattle.run_model.specs.controller_model.procedure_stages.declared.steps.Effect.TheVariants.{AskHost, Cipher};
ghost use Rattle.run_model.specs.controller_model.Events.{passes};
ghost use Rattle.run_model.specs.controller_model.Facts.{Setup};
ghost use Rattle.run_model.specs.controller_model.Heard.{refusal_of};
ghost use Rattle.run_model.specs.controller_model.Side.{facts_of};
ghost use Rattle.run_model.specs.controller_model.Step.{Step};
ghost use Rattle.run_model.specs.Due.{octets_called};
ghost use Rattle.run_model.specs.Feeding.{is_octet, is_of_feeding};
ghost use Rattle.run_model.specs.History.{Called, Event, Noted, fed_to};
ghost use Rattle.run_model.specs.Journal.{journal_of};
ghost use Rattle.run_model.specs.Readers.{fed_to_side, station_of};
ghost use Rattle.run_model.specs.Run.{Given, facts_at, history_of, run_of};
ghost use Rattle.host_masks.specs.Masks.{lets_through, masks_of, view_masks, withholds_keys};
ghost use Rattle.host_masks.specs.Masks.{withholds_requests};

/// The commands that set the masks, and a Reset, are accepted whatever the host has set and whatever
/// links are open (Core 5.2, volume 4 part E, sections 7.3.1, 7.3.2 and 7.8.1).
pub fn masks_are_set_at_any_time()
    ensures events { (view : View) (mask : ℕ) → status_of view (SetEventMask mask) ≡ 0 }
    ensures le_events { (view : View) (mask : ℕ) → status_of view (LeSetEventMask mask) ≡ 0 }
    ensures reset { (view : View) → status_of view Reset ≡ 0 }
{}

/// A controller sends an event where the masks that it holds let it through. It refuses a request of
/// the peer for connection parameters at once where they withhold the event of it, and answers one
/// for a key as a host does that has none (Core 5.2, volume 4 part E, sections 7.3.1 and 7.8.1, and
/// volume 6 part B, sections 5.1.3.1 and 5.1.7).
pub fn masks_decide_what_passes()
    ensures events { (view : View) (bit : MaskBit)
        → passes view bit ≡ lets_through (view_masks view) bit }
    ensures requests { (view : View) (handle slot min max latency timeout : ℕ)
        → refusal_of view handle slot (AskHost min max latency timeout)
        ≡ (if withholds_requests (view_masks view)
        then Some (RequestAnswered (Err (record { 0 = unsupported_remote_feature }))) else None) }
    ensures keys { (view : View) (handle slot rand ediv skd_m iv_m : ℕ)
        → refusal_of view handle slot (Cipher (EncReq rand ediv skd_m iv_m))
        ≡ (if withholds_keys (view_masks view) then Some (KeyAnswered None slot) else None) }
{}

/// At any time, a controller holds the masks of the octets that it was fed, whatever else happened
/// to it (Core 5.2, volume 4 part E, sections 7.3.1, 7.3.2 and 7.8.1).
pub fn a_controller_holds_the_masks_of_its_octets()
    ensures { (setup : Setup) (past : List Step)
        → view_masks (facts_of setup past).view ≡ masks_of (facts_of setup past).octets }
{}

/// In a run, with any number of stations, the controller of each station holds the masks of the
/// octets that it was called with. These are the octets that its host sent, at the end of a run, at
/// the stop of one that stops, and before each event that is not itself of feeding.
pub fn each_station_holds_the_masks_of_its_host()
    ensures called { (given : Given) (station : ℕ) (history : List Event)
        → view_masks (facts_at given station history).view
        ≡ masks_of (octets_called station history) }
    ensures before_an_event { (given : Given) (before rest : List Event) (event : Event)
        (station : ℕ) → history_of (run_of given) ≡ before ++ event ∷ rest
        → is_of_feeding event ≡ false
        → view_masks (facts_at given station before).view ≡ masks_of (fed_to station before) }
    ensures at_the_end { (given : Given) (station : ℕ)
        → view_masks (facts_at given station (history_of (run_of given))).view
        ≡ masks_of (fed_to station (history_of (run_of given))) }
{}

/// In a run of two stations, with any number of links each, the controller of each side holds the
/// masks of the octets that the side was fed, by the lines of the journal up to there: before each
/// turn, each packet on the air and each call but one with an octet of a host; in the middle of such
/// a call; at the end; and wherever the controller has taken all that its side was fed. While a side
/// is fed, its line has all octets of the turn, and its controller was called with the first of them
/// only.
pub fn each_side_holds_the_masks_of_its_lines()
    ensures before_an_event { (given : Given) (side : Side) (before rest : List Event)
        (event : Event) → given.stations ≡ 0 ∷ 1 ∷ []
        → history_of (run_of given) ≡ before ++ event ∷ rest → is_of_feeding event ≡ false
        → view_masks (facts_at given (station_of side) before).view
        ≡ masks_of (fed_to_side side (journal_of before)) }
    ensures in_a_call { (given : Given) (side : Side) (station : ℕ) (step : Step)
        (notes : List Note) (before rest : List Event) → given.stations ≡ 0 ∷ 1 ∷ []
        → history_of (run_of given)
        ≡ before ++ Called station step ∷ map (Noted station) notes ++ rest
        → is_octet step ≡ false
        → view_masks (facts_at given (station_of side) before).view
        ≡ masks_of (fed_to_side side
        (journal_of (before ++ Called station step ∷ map (Noted station) notes))) }
    ensures where_all_is_taken { (given : Given) (side : Side) (before rest : List Event)
        → given.stations ≡ 0 ∷ 1 ∷ [] → history_of (run_of given) ≡ before ++ rest
        → octets_called (station_of side) before ≡ fed_to (station_of side) before
        → view_masks (facts_at given (station_of side) before).view
        ≡ masks_of (fed_to_side side (journal_of before)) }
    ensures at_the_end { (given : Given) (side : Side) → given.stations ≡ 0 ∷ 1 ∷ []
        → view_masks (facts_at given (station_of side) (history_of (run_of given))).view
        ≡ masks_of (fed_to_side side (journal_of (history_of (run_of given)))) }
{}
