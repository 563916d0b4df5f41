//! A controller between its host and the radio.
ghost use Rattle.std.specs.Prelude.{◌≡◌, ◌*◌, ◌+◌, ◌<◌, ◌≤◌, ◌^◌, ◌↔◌, IsTrue};
ghost use Rattle.std.specs.Prelude.{ℕ, List, [], ◌∷◌, ◌++◌, length, IfOk};
ghost use Rattle.ble_base.specs.declared.Config.{Config};
ghost use Rattle.controller_model.specs.Facts.{Setup, setup_of};
ghost use Rattle.controller_model.specs.Packets.{use_of, verdict_of};
ghost use Rattle.controller_model.specs.Side.{facts_of};
ghost use Rattle.controller_model.specs.Step.{Step, HostOctet, TurnBegins};
ghost use Rattle.controller_model.specs.Step.{PacketHeard, NothingHeard, TurnEnds};
ghost use Rattle.controller.specs.Knowing.{Goes, Knows, use_wanted};
ghost use Rattle.controller.specs.Order.{MayBegin};

use crate::intents::Intent;
use activities::Activities;
use arrayvec::ArrayVec;
use ble_base::{Config, Outbox, RANDOM_WORDS, SlotNo, Verdict};
use controller_model::{Doing, Turn};
use h4_frames::Framer;
use host_view::HostView;
use open_links::OpenLinks;
use scan_init::next_access;
use std::alloc::{AllocError, Global};
use std::marker::Model;

/// A controller that can hold `L` links, `T` ACL packets of its host and `R` pieces of data from
/// the air.
///
/// The calls of a turn come in this order: `host_octet` for each octet of the host; `begin_turn`;
/// `heard` or `unheard` for each of three phases; `end_turn`. The outbox of a call is empty before
/// it, and has what the call notes after it.
#[derive(Drop)]
pub struct Controller<const L: usize, const T: usize, const R: usize> {
    pub(crate) public: [u8; 6],
    pub(crate) cursor: u32,
    pub(crate) words: ArrayVec<u64, RANDOM_WORDS>,
    /// The place among the random words of the one that is drawn next.
    pub(crate) next_word: usize,
    /// The access address of the next new link, and where to search for the one after it.
    pub(crate) next_access: Option<(u32, u64)>,
    pub(crate) framer: Framer,
    pub(crate) view: HostView,
    pub(crate) turn: Turn,
    /// No turn began that has not ended.
    pub(crate) between: bool,
    pub(crate) activities: Activities,
    pub(crate) links: OpenLinks<L, T, R>,
}

impl<const L: usize, const T: usize, const R: usize> Model for Controller<L, T, R> {
    ghost use Rattle.std.specs.Prelude.{◌*◌, ◌+◌, ◌<◌, ◌≤◌, ◌^◌, length};
    ghost use Rattle.controller.specs.Fitting.{CanDo};
    ghost use Rattle.controller.specs.Held.{Held};
    ghost use Rattle.controller.specs.Order.{IsOrdered};

    ghost Value = { Held };

    ghost invariant = { λ c. (c.next_word < length c.words.items) × (T ≤ 255) × (L ≤ 6)
        × (8 * L + R ≤ 56) × (c.turn.begun ≤ 2 ^ 32) × (c.turn.slot < 2 ^ 32)
        × CanDo L c.turn.doing × IsOrdered c.between c.turn c.links };

    ghost view = { λ c. record {
      setup = record {
        public = c.public;
        cursor = c.cursor;
        words = c.words.items;
        links = L;
        host_buffers = T;
        air_buffers = R;
      };
      framer = c.framer;
      view = c.view;
      place = c.next_word;
      access = c.next_access;
      turn = c.turn;
      between = c.between;
      activities = c.activities;
      links = c.links;
    } };
}

impl<const L: usize, const T: usize, const R: usize> Controller<L, T, R> {
    /// A controller that starts with these settings. It draws the random words in order, and then
    /// again from the first. With these sizes an outbox has room for all notes of a call.
    ///
    /// # Errors
    ///
    /// Out of memory.
    #[tactic(auto, unfolding(crate::specs::Knowing::Knows, controller_model::specs::Side::facts_of))]
    pub fn start(alloc: Global, config: Config) -> Result<Self, AllocError>
        requires words { 1 ≤ length config.words.items }
        requires sizes { (1 ≤ L) × (1 ≤ T) × (T ≤ 255) × (1 ≤ R) × (8 * L + R + 8 ≤ 64) }
        ensures knows { IfOk result (λ controller. Knows (setup_of config L T R) controller []) }
        ensures first { IfOk result (MayBegin 0) }
    {
        let links = OpenLinks::new(alloc)?;
        let public = config.public;
        Ok(Controller {
            public,
            cursor: config.cursor,
            words: config.words,
            next_word: 0,
            next_access: next_access(config.cursor, 0),
            framer: Framer::new(),
            view: HostView::new(L as u16),
            turn: Turn {
                begun: 0,
                slot: 0,
                doing: Doing::Rests,
            },
            between: true,
            activities: Activities::new(),
            links,
        })
    }

    /// Takes the next octet of the host (Core 5.2, volume 4 part A, section 2).
    pub fn host_octet(&mut self, octet: u8, out: &mut Outbox)
        requires empty { out.old.items ≡ [] }
        ensures goes { (setup : Setup) (past : List Step) → Knows setup self.old past
            → Goes setup self.new past (HostOctet octet) out.new.items }
        ensures order { (slot : ℕ) → MayBegin slot self.old → MayBegin slot self.new }
    {
        if !self.framer.goes_on(octet) {
            self.end_octets(octet, out);
        }
    }

    /// Takes an octet of the host that ends a packet, or the search for one. Most octets end
    /// nothing, so this is kept out of their code.
    #[inline(never)]
    fn end_octets(&mut self, octet: u8, out: &mut Outbox)
        requires empty { out.old.items ≡ [] }
        ensures goes { (setup : Setup) (past : List Step) → Knows setup self.old past
            → Goes setup self.new past (HostOctet octet) out.new.items }
        ensures order { (slot : ℕ) → MayBegin slot self.old → MayBegin slot self.new }
    {
        let fed = self.framer.feed(octet);
        self.take(&fed, out);
    }

    /// Whether a turn may begin in this slot: the last one has ended, and began in an earlier slot.
    pub fn may_begin(&self, slot: SlotNo) -> bool
        ensures { IsTrue result ↔ MayBegin slot.0 self.now }
    {
        self.between && self.turn.begun <= slot.0
    }

    /// Begins a turn in this slot, with the radio on or off, and gives what is wanted in its first
    /// phase. A slot is 1.25 ms long, and slots come in order from 0. The turn before has ended.
    pub fn begin_turn(&mut self, slot: SlotNo, radio_on: bool, out: &mut Outbox) -> Intent
        requires slot { slot.0 < 2 ^ 32 }
        requires order { MayBegin slot.0 self.old }
        requires empty { out.old.items ≡ [] }
        ensures goes { (setup : Setup) (past : List Step) → Knows setup self.old past
            → Goes setup self.new past (TurnBegins slot.0 radio_on) out.new.items }
        ensures wants { (setup : Setup) (past : List Step) → Knows setup self.old past
            → use_wanted result
            ≡ use_of (facts_of setup (past ++ TurnBegins slot.0 radio_on ∷ [])) }
        ensures begun { self.new.turn.begun ≡ slot.0 + 1 }
    {
        let doing = self.begin(slot, radio_on, out);
        self.prepare(doing, out)
    }

    /// What this controller makes of octets that are on the air in the phase that comes next:
    /// missed where it does not listen. The octets are those of a packet in the order of the air,
    /// without preamble (Core 5.2, volume 6 part B, section 2.1).
    pub fn judge(&self, octets: &[u8]) -> Verdict
        ensures { (setup : Setup) (past : List Step) → Knows setup self.now past
            → result ≡ verdict_of (facts_of setup past) octets.now }
    {
        self.verdict(octets)
    }

    /// Takes a packet that was heard in this phase, and gives what is wanted in the next one. The
    /// octets are in the order of the air, without preamble (Core 5.2, volume 6 part B, section
    /// 2.1).
    #[inline(never)]
    pub fn heard(&mut self, octets: &[u8], out: &mut Outbox) -> Intent
        requires empty { out.old.items ≡ [] }
        ensures goes { (setup : Setup) (past : List Step) → Knows setup self.old past
            → Goes setup self.new past (PacketHeard octets.now) out.new.items }
        ensures wants { (setup : Setup) (past : List Step) → Knows setup self.old past
            → use_wanted result ≡ use_of (facts_of setup (past ++ PacketHeard octets.now ∷ [])) }
        ensures begun { self.new.turn.begun ≡ self.old.turn.begun }
    {
        let doing = self.hear(octets, out);
        self.prepare(doing, out)
    }

    /// Takes that nothing was heard in this phase, and gives what is wanted in the next one.
    pub fn unheard(&mut self, out: &mut Outbox) -> Intent
        requires empty { out.old.items ≡ [] }
        ensures goes { (setup : Setup) (past : List Step) → Knows setup self.old past
            → Goes setup self.new past NothingHeard out.new.items }
        ensures wants { (setup : Setup) (past : List Step) → Knows setup self.old past
            → use_wanted result ≡ use_of (facts_of setup (past ++ NothingHeard ∷ [])) }
        ensures begun { self.new.turn.begun ≡ self.old.turn.begun }
    {
        if let Doing::Rests = self.turn.doing {
            return Intent::Idle;
        }
        self.unheard_in_use(out)
    }

    /// The same where it used the radio. Most phases are idle, so this is kept out of their code.
    #[inline(never)]
    fn unheard_in_use(&mut self, out: &mut Outbox) -> Intent
        requires empty { out.old.items ≡ [] }
        ensures goes { (setup : Setup) (past : List Step) → Knows setup self.old past
            → Goes setup self.new past NothingHeard out.new.items }
        ensures wants { (setup : Setup) (past : List Step) → Knows setup self.old past
            → use_wanted result ≡ use_of (facts_of setup (past ++ NothingHeard ∷ [])) }
        ensures begun { self.new.turn.begun ≡ self.old.turn.begun }
    {
        let doing = self.hear_nothing(out);
        self.prepare(doing, out)
    }

    /// Ends the turn: the host receives the data that was taken in it, and which of its packets are
    /// complete, and the links end that are to end.
    pub fn end_turn(&mut self, out: &mut Outbox)
        requires empty { out.old.items ≡ [] }
        ensures goes { (setup : Setup) (past : List Step) → Knows setup self.old past
            → Goes setup self.new past TurnEnds out.new.items }
        ensures order { MayBegin self.old.turn.begun self.new }
    {
        controller_model::no_more_than_its_buffers();
        self.hand_over(out);
        self.leave_links(out);
        self.end();
    }
}
