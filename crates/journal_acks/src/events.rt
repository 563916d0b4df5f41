//! The order in which the events of a link are entered, from the lines of a journal. The body only
//! calls the law that it rests on: the contract is the law.
ghost use Rattle.std.specs.Prelude.{◌≡◌, ◌++◌, ◌∷◌, ℕ, List, length};
ghost use Rattle.ble_base.specs.declared.roles.Side.{Side};
ghost use Rattle.journal.specs.declared.entries.Entry.{Entry};
ghost use Rattle.journal.specs.declared.entries.Entry.TheVariants.{Enter};
ghost use Rattle.journal_acks.specs.EventOrder.{entered_on};
ghost use Rattle.radio_replay.specs.Script.{Script};
ghost use Rattle.link_calls.specs.run_model.Journal.{journal_of};
ghost use Rattle.link_calls.specs.run_model.Pair.{given_of};
ghost use Rattle.link_calls.specs.run_model.Run.{history_of, run_of};

use crate::stations::links_of_two_stations_keep_to_the_journal;

/// In the journal of a run of a pair, each line of a side that enters an event of a link has as the
/// number of that event how many such lines of that side and that link come before it. So each side
/// enters the events 0, 1, 2, .. of a link one after another, each once (Core 5.2, volume 6 part B,
/// section 4.5.1).
pub fn each_side_enters_its_events_in_order()
    ensures { (a b : List ℕ) (script : Script) (front rest : List Entry) (side : Side)
        (number event channel : ℕ)
        → length script.a.public ≡ 6 → length script.b.public ≡ 6
        → journal_of (history_of (run_of (given_of a b script)))
        ≡ front ++ Enter side number event channel ∷ rest
        → event ≡ entered_on side number front }
{
    links_of_two_stations_keep_to_the_journal();
}
