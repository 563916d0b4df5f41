//! Data of the host and for it: the packets that it gives, the pieces that it receives, and which of
//! its packets are complete (Core 5.2, volume 4 part E, sections 4.1, 5.4.2, 7.7.19 and 7.7.26).
ghost use Rattle.std.specs.Prelude.{◌≡◌, ◌≤◌, ◌<◌, ◌+◌, ◌*◌, ◌++◌, [], length};
ghost use Rattle.arrayvec.specs.ArrayVec.{array_vec_len};
ghost use Rattle.controller_model.specs.Data.{facts_handed, facts_offered, facts_pieces, notes_handed};
ghost use Rattle.controller_model.specs.Data.{notes_offered, notes_pieces, offer_of};
ghost use Rattle.controller_model.specs.Facts.{Setup, Facts};
ghost use Rattle.controller.specs.Framed.{HasOctets};
ghost use Rattle.controller.specs.Knowing.{IsAt};
ghost use Rattle.controller.specs.Order.{Stays};

use crate::controllers::Controller;
use ble_base::{Outbox, PAYLOAD_OCTETS};
use host_notes::{follow_from, hand_up, tell_completed, tell_offer};
use open_links::Offer;

impl<const L: usize, const T: usize, const R: usize> Controller<L, T, R> {
    /// The host gives a packet of this number of octets, of which these were kept, to the link under
    /// a handle. It gives what becomes of it.
    fn offer(&mut self, handle: u16, start: bool, count: u16, body: &[u8]) -> Offer
        ensures offer { (has : Setup) (facts : Facts) → IsAt has self.old facts
            → HasOctets count body.now → result ≡ offer_of has facts handle count }
        ensures at { (has : Setup) (facts : Facts) → IsAt has self.old facts
            → HasOctets count body.now → IsAt has self.new
            (facts_offered (offer_of has facts handle count) handle start body.now facts) }
        ensures stays { Stays self.old self.new }
    {
        if usize::from(count) <= PAYLOAD_OCTETS {
            return self.links.give(handle, start, body);
        }
        match self.links.setup(handle) {
            None => Offer::NoLink,
            Some(_) => Offer::Overflow,
        }
    }

    /// Takes a packet of data of the host.
    pub(crate) fn take_data(
        &mut self,
        handle: u16,
        start: bool,
        count: u16,
        body: &[u8],
        out: &mut Outbox,
    )
        requires room { array_vec_len out.old < 64 }
        ensures at { (has : Setup) (facts : Facts) → IsAt has self.old facts
            → HasOctets count body.now → IsAt has self.new
            (facts_offered (offer_of has facts handle count) handle start body.now facts) }
        ensures notes { (has : Setup) (facts : Facts) → IsAt has self.old facts
            → HasOctets count body.now → out.new.items ≡ out.old.items
            ++ notes_offered facts.view (offer_of has facts handle count) handle }
        ensures stays { Stays self.old self.new }
    {
        let offer = self.offer(handle, start, count, body);
        tell_offer(&self.view, offer, handle, out);
    }

    /// The host receives the data that was taken, up to what it can take, and its view counts that.
    fn hand_pieces(&mut self, out: &mut Outbox)
        requires room { out.old.items ≡ [] }
        ensures at { (has : Setup) (facts : Facts) → IsAt has self.old facts
            → length facts.received ≤ has.air_buffers → IsAt has self.new (facts_pieces facts) }
        ensures notes { (has : Setup) (facts : Facts) → IsAt has self.old facts
            → length facts.received ≤ has.air_buffers → out.new.items ≡ notes_pieces facts }
        ensures few { array_vec_len out.new ≤ R }
        ensures framer { self.new.framer ≡ self.old.framer }
        ensures turn { self.new.turn ≡ self.old.turn }
        ensures between { self.new.between ≡ self.old.between }
    {
        let most = self.view.most_handed(R);
        hand_up(&mut self.links, most, out);
        follow_from(&mut self.view, out, 0);
    }

    /// The host receives the data that was taken, and which of its packets are complete.
    pub(crate) fn hand_over(&mut self, out: &mut Outbox)
        requires room { out.old.items ≡ [] }
        ensures at { (has : Setup) (facts : Facts) → IsAt has self.old facts
            → length facts.received ≤ has.air_buffers → IsAt has self.new (facts_handed facts) }
        ensures notes { (has : Setup) (facts : Facts) → IsAt has self.old facts
            → length facts.received ≤ has.air_buffers → out.new.items ≡ notes_handed facts }
        ensures few { array_vec_len out.new + 2 * L ≤ 64 }
        ensures framer { self.new.framer ≡ self.old.framer }
        ensures turn { self.new.turn ≡ self.old.turn }
        ensures between { self.new.between ≡ self.old.between }
        ensures reported { self.new.links.unreported ≡ 0 }
    {
        self.hand_pieces(out);
        let completed = self.links.report();
        tell_completed(&self.view, completed.as_slice(), out);
    }
}
