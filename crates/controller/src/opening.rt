//! Links that are opened, and links that end.
ghost use Rattle.std.specs.Prelude.{◌≡◌, ◌≤◌, ◌+◌, ◌*◌, ◌++◌, ℕ, List, flat_map, fold, length};
ghost use Rattle.arrayvec.specs.ArrayVec.{array_vec_len};
ghost use Rattle.acl_banks.specs.declared.pieces.Piece.{Piece};
ghost use Rattle.open_links.specs.Ended.{received_ended};
ghost use Rattle.open_links.specs.Knowing.{Knows as KnowsLinks};
ghost use Rattle.open_links.specs.OpenLinks.{Links};
ghost use Rattle.open_links.specs.Turns.{due_in, ending_in, ends_by, links_without};
ghost use Rattle.controller_model.specs.Facts.{Setup, Facts};
ghost use Rattle.controller_model.specs.Links.{facts_ending, facts_leaving, facts_opened};
ghost use Rattle.controller_model.specs.Links.{notes_ended, notes_ending, notes_leaving, notes_opened};
ghost use Rattle.controller.specs.Fitting.{IsOpenable};
ghost use Rattle.controller.specs.Knowing.{IsAt};
ghost use Rattle.controller.specs.Order.{Stays};
ghost use Rattle.controller.specs.Steps.{held_shut};

use crate::controllers::Controller;
use arrayvec::ArrayVec;
use ble_base::{Note, Outbox, Role, SlotNo};
use host_notes::{note_opened, tell_ends, tell_opened};
use link_model::LinkSetup;
use open_links::{LinkEnded, MOST_LINKS};

impl<const L: usize, const T: usize, const R: usize> Controller<L, T, R> {
    /// Opens a link, and notes it.
    pub(crate) fn open(&mut self, link: LinkSetup, out: &mut Outbox)
        requires link { IsOpenable L link }
        requires room { array_vec_len out.old ≤ 50 }
        ensures at { (has : Setup) (facts : Facts) → IsAt has self.old facts
            → IsAt has self.new (facts_opened link facts) }
        ensures notes { (has : Setup) (facts : Facts) → IsAt has self.old facts
            → out.new.items ≡ out.old.items ++ notes_opened facts.view link }
        ensures few { array_vec_len out.new ≤ array_vec_len out.old + 3 }
        ensures stays { Stays self.old self.new }
    {
        tell_opened(&self.view, &link, out);
        self.view.note(&note_opened(&link));
        self.links.open(link, SlotNo(self.turn.slot));
        match link.role {
            Role::Central => self.activities.stop_initiating(),
            Role::Peripheral => self.activities.stop_advertising(),
        }
    }

    /// A link is shut: it leaves the radio.
    fn shut(&mut self, ended: &LinkEnded)
        ensures { self.new ≡ held_shut self.old ended.now }
    {
        self.view.note(&Note::Shut {
            handle: ended.handle,
            reason: ended.reason,
        });
        self.activities.release_link(ended.handle);
    }

    /// These links are shut.
    fn shut_all(&mut self, ended: &[LinkEnded])
        ensures { self.new ≡ fold held_shut self.old ended.now }
    {
        let Some((first, rest)) = ended.split_first() else {
            return;
        };
        self.shut(first);
        self.shut_all(rest);
    }

    /// These links, which were taken out, are shut, and the host hears of each.
    fn end_all(&mut self, ended: &[LinkEnded], out: &mut Outbox)
        requires room { array_vec_len out.old + 2 * length ended.now ≤ 64 }
        ensures held { self.new ≡ fold held_shut self.old ended.now }
        ensures notes { out.new.items
            ≡ out.old.items ++ flat_map (notes_ended self.old.view) ended.now }
        ensures few { array_vec_len out.new ≤ array_vec_len out.old + 2 * length ended.now }
    {
        if !ended.is_empty() {
            self.end_some(ended, out);
        }
    }

    /// The same where some links were taken out. Links end seldom, so this is kept out of the code
    /// of all turns.
    #[inline(never)]
    fn end_some(&mut self, ended: &[LinkEnded], out: &mut Outbox)
        requires room { array_vec_len out.old + 2 * length ended.now ≤ 64 }
        ensures held { self.new ≡ fold held_shut self.old ended.now }
        ensures notes { out.new.items
            ≡ out.old.items ++ flat_map (notes_ended self.old.view) ended.now }
        ensures few { array_vec_len out.new ≤ array_vec_len out.old + 2 * length ended.now }
    {
        tell_ends(&self.view, ended, out);
        self.shut_all(ended);
    }

    /// Takes out the links that are due at the start of a turn in this slot, and gives them.
    fn take_due(&mut self, slot: SlotNo) -> ArrayVec<LinkEnded, MOST_LINKS>
        ensures rest { self.new ≡ record self.old { links = self.new.links } }
        ensures links { (links : Links) (received : List (ℕ × Piece))
            → KnowsLinks self.old.links links received
            → KnowsLinks self.new.links (links_without (due_in slot.0) links)
            (received_ended (ends_by (due_in slot.0) 0 links) received) }
        ensures ends { (links : Links) (received : List (ℕ × Piece))
            → KnowsLinks self.old.links links received
            → result.items ≡ ends_by (due_in slot.0) 0 links }
        ensures stays { Stays self.old self.new }
    {
        self.links.shut_due(slot)
    }

    /// The links end that are due at the start of a turn in this slot.
    pub(crate) fn end_links(&mut self, slot: SlotNo, out: &mut Outbox)
        requires room { array_vec_len out.old ≤ 4 }
        ensures at { (has : Setup) (facts : Facts) → IsAt has self.old facts
            → IsAt has self.new (facts_ending slot.0 facts) }
        ensures notes { (has : Setup) (facts : Facts) → IsAt has self.old facts
            → out.new.items ≡ out.old.items ++ notes_ending slot.0 facts }
        ensures few { array_vec_len out.new ≤ array_vec_len out.old + 12 }
        ensures stays { Stays self.old self.new }
    {
        let ended = self.take_due(slot);
        self.end_all(ended.as_slice(), out);
    }

    /// Takes out the links that end at the end of a turn, and gives them.
    fn take_ended(&mut self) -> ArrayVec<LinkEnded, MOST_LINKS>
        ensures rest { self.new ≡ record self.old { links = self.new.links } }
        ensures links { (links : Links) (received : List (ℕ × Piece))
            → KnowsLinks self.old.links links received
            → KnowsLinks self.new.links (links_without ending_in links)
            (received_ended (ends_by ending_in 0 links) received) }
        ensures ends { (links : Links) (received : List (ℕ × Piece))
            → KnowsLinks self.old.links links received → result.items ≡ ends_by ending_in 0 links }
        ensures few { length result.items ≤ L }
        ensures stays { Stays self.old self.new }
    {
        self.links.shut_ended()
    }

    /// The links end that are to end at the end of a turn.
    pub(crate) fn leave_links(&mut self, out: &mut Outbox)
        requires room { array_vec_len out.old + 2 * L ≤ 64 }
        ensures at { (has : Setup) (facts : Facts) → IsAt has self.old facts
            → IsAt has self.new (facts_leaving facts) }
        ensures notes { (has : Setup) (facts : Facts) → IsAt has self.old facts
            → out.new.items ≡ out.old.items ++ notes_leaving facts }
        ensures stays { Stays self.old self.new }
    {
        if self.links.has_ending() {
            self.leave_some(out);
        }
    }

    /// The same where some link is to end. Links end seldom, so this is kept out of the code of all
    /// turns.
    #[inline(never)]
    fn leave_some(&mut self, out: &mut Outbox)
        requires room { array_vec_len out.old + 2 * L ≤ 64 }
        ensures at { (has : Setup) (facts : Facts) → IsAt has self.old facts
            → IsAt has self.new (facts_leaving facts) }
        ensures notes { (has : Setup) (facts : Facts) → IsAt has self.old facts
            → out.new.items ≡ out.old.items ++ notes_leaving facts }
        ensures stays { Stays self.old self.new }
    {
        let ended = self.take_ended();
        self.end_all(ended.as_slice(), out);
    }
}
