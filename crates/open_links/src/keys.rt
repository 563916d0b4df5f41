//! The keys that the hosts of peripherals have, and the words that a peripheral draws to answer
//! LL_ENC_REQ.
#![tactic(auto, unfolding(crate::specs::Knowing::Knows))]

ghost use Rattle.std.specs.Prelude.{◌≡◌, ◌≤◌, ◌^◌, List, ℕ};
ghost use Rattle.acl_banks.specs.declared.pieces.Piece.{Piece};
ghost use Rattle.link_end.specs.link_model.Step.{KeyAnswered, WordsGiven};
ghost use Rattle.open_links.specs.Keys.{links_keyed, links_with_words};
ghost use Rattle.open_links.specs.OpenLinks.{Links, OpenLink, link_after, with_change};
ghost use Rattle.open_links.specs.Knowing.{KnowsLink, KnowsPlaces, Knows};

use crate::links::OpenLinks;
use crate::places::OpenEnd;
use ble_base::SlotNo;
use cell_table::CellTable;

/// The host answers on the link under a handle that it has this key, or none.
fn key_at<const L: usize>(
    places: &mut CellTable<OpenEnd, L>,
    handle: u16,
    ltk: Option<[u8; 16]>,
    slot: SlotNo,
)
    requires { slot.0 ≤ 2 ^ 32 }
    ensures { (links : Links) → KnowsPlaces places.old links → KnowsPlaces places.new
        (with_change handle (link_after (KeyAnswered ltk slot.0)) links) }
{
    let place = handle as usize;
    if places.holds(place) {
        places.get_mut(place).key(ltk, slot);
    }
}

/// The end of the link under a handle gets words that it would draw.
fn words_at<const L: usize>(places: &mut CellTable<OpenEnd, L>, handle: u16, skd_s: u64, iv_s: u32)
    ensures { (links : Links) → KnowsPlaces places.old links
        → KnowsPlaces places.new (with_change handle (link_after (WordsGiven skd_s iv_s)) links) }
{
    let place = handle as usize;
    if places.holds(place) {
        places.get_mut(place).words(skd_s, iv_s);
    }
}

impl OpenEnd {
    /// The host answers that it has this key, or none.
    fn key(&mut self, ltk: Option<[u8; 16]>, slot: SlotNo)
        requires { slot.0 ≤ 2 ^ 32 }
        ensures { (link : OpenLink) → KnowsLink self.old link
            → KnowsLink self.new (link_after (KeyAnswered ltk slot.0) link) }
    {
        self.end.key(ltk, slot);
    }

    /// It gets words that it would draw.
    fn words(&mut self, skd_s: u64, iv_s: u32)
        ensures { (link : OpenLink) → KnowsLink self.old link
            → KnowsLink self.new (link_after (WordsGiven skd_s iv_s) link) }
    {
        self.end.enc_words(skd_s, iv_s);
    }
}

impl<const L: usize, const T: usize, const R: usize> OpenLinks<L, T, R> {
    /// The host of the peripheral on the link under a handle, if it is open, answers in this slot
    /// that it has this long term key, most significant octet first, or none (Core 5.2, volume 6
    /// part B, section 5.1.3.1). Nothing happens where no key is asked for.
    pub fn key(&mut self, handle: u16, ltk: Option<[u8; 16]>, slot: SlotNo)
        requires { slot.0 ≤ 2 ^ 32 }
        ensures knows { (links : Links) (received : List (ℕ × Piece))
            → Knows self.old links received
            → Knows self.new (links_keyed handle ltk slot.0 links) received }
        ensures counts { (self.new.heard_to ≡ self.old.heard_to)
            × (self.new.unreported ≡ self.old.unreported) }
    {
        key_at(&mut self.places, handle, ltk, slot);
    }

    /// The words with which a peripheral would answer LL_ENC_REQ in the next packet on the link
    /// under a handle, if it is open (Core 5.2, volume 6 part B, section 5.1.3.1).
    pub fn enc_words(&mut self, handle: u16, skd_s: u64, iv_s: u32)
        ensures knows { (links : Links) (received : List (ℕ × Piece))
            → Knows self.old links received
            → Knows self.new (links_with_words handle skd_s iv_s links) received }
        ensures counts { (self.new.heard_to ≡ self.old.heard_to)
            × (self.new.unreported ≡ self.old.unreported) }
    {
        words_at(&mut self.places, handle, skd_s, iv_s);
    }
}
