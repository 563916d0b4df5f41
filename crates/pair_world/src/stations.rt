//! One station of a run: its controller, the links that it knows, and the stream of its host.
ghost use Rattle.std.specs.Prelude.{◌≡◌, ℕ, ◌+◌, ◌<◌, ◌≤◌, ◌^◌, List, [], ◌∷◌, ◌++◌, length, take};
ghost use Rattle.std.specs.Prelude.{drop, IfOk, OnOk};
ghost use Rattle.std.specs.Option.{option_copied};
ghost use Rattle.controller_model.specs.Step.{Step, HostOctet, TurnBegins, PacketHeard, NothingHeard};
ghost use Rattle.controller_model.specs.Step.{TurnEnds};
ghost use Rattle.controller_model.specs.Facts.{Setup, setup_of};
ghost use Rattle.controller_model.specs.Packets.{verdict_of, use_of};
ghost use Rattle.controller_model.specs.Side.{facts_of};
ghost use Rattle.controller.specs.Knowing.{Knows};
ghost use Rattle.controller.specs.Order.{MayBegin};
ghost use Rattle.run_model.specs.History.{Event};
ghost use Rattle.run_model.specs.Run.{Given, after_call, after_octets, after_feed, step_of};
ghost use Rattle.pair_world.specs.Logs.{entries_noted, known_after, with_entries};
ghost use Rattle.pair_world.specs.Stations.{number_of, Keeps, Writes, StationIsUpTo, HasStepped};
ghost use Rattle.pair_world.specs.Stations.{IsFirst};

use crate::links::{LINKS, LinkNumbers};
use crate::logs::Log;
use crate::notes::write_notes;
use crate::wishes::Wish;
use ble_base::{Config, Outbox, Side, SlotNo, Verdict};
use controller::Controller;
use journal::Entry;
use std::alloc::{AllocError, Global};
use std::marker::Model;

/// How many packets of its host, and how many pieces of data from the air, a controller of a run
/// can hold.
const BUFFERS: usize = 8;

/// A station of a run.
#[derive(Drop)]
pub(crate) struct Station<'s> {
    controller: Controller<LINKS, BUFFERS, BUFFERS>,
    links: LinkNumbers,
    /// The octets of its host that are not fed yet.
    unfed: &'s [u8],
}

impl<'s> Model for Station<'s> {
    ghost use Rattle.pair_world.specs.Stations.{StationState};

    ghost Value = { StationState };

    ghost view = { λ s. record { held = s.controller; links = s.links; unfed = s.unfed.now } };
}

impl<'s> Station<'s> {
    /// A station whose controller starts with these settings, with the whole stream of its host.
    /// The error is out of memory.
    pub(crate) fn start(alloc: Global, config: Config, stream: &'s [u8]) -> Result<Self, AllocError>
        requires { 1 ≤ length config.words.items }
        ensures first { IfOk result (IsFirst (setup_of config LINKS BUFFERS BUFFERS) stream.now) }
        ensures order { IfOk result (λ station. MayBegin 0 station.held) }
    {
        Ok(Station {
            controller: Controller::start(alloc, config)?,
            links: LinkNumbers::new(),
            unfed: stream,
        })
    }

    /// What becomes of octets on the air that reach it.
    pub(crate) fn judge(&self, octets: &[u8]) -> Verdict
        ensures { (setup : Setup) (past : List Step) → Knows setup self.now.held past
            → result ≡ verdict_of (facts_of setup past) octets.now }
    {
        self.controller.judge(octets)
    }

    /// Writes what the controller noted, and empties the outbox.
    #[inline]
    pub(crate) fn write_notes(
        &mut self,
        side: Side,
        out: &mut Outbox,
        log: &mut Log,
    ) -> Result<(), AllocError>
        ensures log { OnOk result (log.new
            ≡ with_entries (entries_noted side self.old.links out.old.items) log.old) }
        ensures links { OnOk result (self.new
            ≡ record self.old { links = known_after self.old.links out.old.items }) }
        ensures empty { OnOk result (out.new.items ≡ []) }
    {
        if out.is_empty() {
            return Ok(());
        }
        write_notes(side, out, &mut self.links, log)
    }

    /// The number of a link: the station began it, or received its CONNECT_IND.
    pub(crate) fn learn_link(&mut self, link: u64)
        ensures { self.new ≡ record self.old { links = record self.old.links { last = link } } }
    {
        self.links.learn(link);
    }

    /// The controller takes an octet of its host.
    fn host_octet(&mut self, octet: u8, out: &mut Outbox)
        requires empty { out.old.items ≡ [] }
        ensures took { (setup : Setup) (past : List Step) → Knows setup self.old.held past
            → HasStepped setup past (HostOctet octet) self.old self.new out.new.items }
        ensures order { (slot : ℕ) → MayBegin slot self.old.held → MayBegin slot self.new.held }
    {
        self.controller.host_octet(octet, out);
    }

    /// Takes an octet of the host, and writes what the controller notes.
    fn take_octet(
        &mut self,
        side: Side,
        octet: u8,
        out: &mut Outbox,
        log: &mut Log,
    ) -> Result<(), AllocError>
        requires empty { out.old.items ≡ [] }
        ensures at { OnOk result ((given : Given) (history : List Event)
            → StationIsUpTo given (number_of side) history self.old log.old
            → StationIsUpTo given (number_of side)
            (after_call given (number_of side) (HostOctet octet) history) self.new log.new) }
        ensures order { OnOk result ((slot : ℕ) → MayBegin slot self.old.held
            → MayBegin slot self.new.held) }
        ensures links { OnOk result (log.new.links ≡ log.old.links) }
        ensures empty { OnOk result (out.new.items ≡ []) }
    {
        controller_model::notes_name_links_of_the_controller();
        self.host_octet(octet, out);
        self.write_notes(side, out, log)
    }

    /// Takes octets of the host, one by one.
    fn take_octets(
        &mut self,
        side: Side,
        octets: &[u8],
        out: &mut Outbox,
        log: &mut Log,
    ) -> Result<(), AllocError>
        requires empty { out.old.items ≡ [] }
        ensures at { OnOk result ((given : Given) (history : List Event)
            → StationIsUpTo given (number_of side) history self.old log.old
            → StationIsUpTo given (number_of side)
            (after_octets given (number_of side) octets.now history) self.new log.new) }
        ensures order { OnOk result ((slot : ℕ) → MayBegin slot self.old.held
            → MayBegin slot self.new.held) }
        ensures links { OnOk result (log.new.links ≡ log.old.links) }
        ensures empty { OnOk result (out.new.items ≡ []) }
    {
        for octet in octets {
            self.take_octet(side, *octet, out, log)?;
        }
        Ok(())
    }

    /// Takes this many octets off the stream, or as many as are left.
    fn next_octets(&mut self, count: u32) -> &'s [u8]
        ensures octets { result.now ≡ take count self.old.unfed }
        ensures unfed { self.new ≡ record self.old { unfed = drop count self.old.unfed } }
    {
        let (octets, unfed) = self.unfed.split_at(self.unfed.len().min(count as usize));
        self.unfed = unfed;
        octets
    }

    /// Feeds this many octets of the host, or as many as are left, and writes what they were and
    /// what the controller notes.
    pub(crate) fn feed(
        &mut self,
        side: Side,
        count: u32,
        out: &mut Outbox,
        log: &mut Log,
    ) -> Result<(), AllocError>
        requires empty { out.old.items ≡ [] }
        ensures at { OnOk result ((given : Given) (history : List Event)
            → StationIsUpTo given (number_of side) history self.old log.old
            → StationIsUpTo given (number_of side)
            (after_feed given (number_of side) (take count self.old.unfed) history)
            self.new log.new) }
        ensures order { OnOk result ((slot : ℕ) → MayBegin slot self.old.held
            → MayBegin slot self.new.held) }
        ensures links { OnOk result (log.new.links ≡ log.old.links) }
        ensures empty { OnOk result (out.new.items ≡ []) }
    {
        let octets = self.next_octets(count);
        if octets.is_empty() {
            return Ok(());
        }
        log.write(Entry::Fed {
            side,
            octets: log.copy(octets)?,
        })?;
        self.take_octets(side, octets, out, log)
    }

    /// The controller begins a turn, and wants something in its first phase.
    pub(crate) fn begin(
        &mut self,
        slot: SlotNo,
        radio_on: bool,
        wanted: &mut Wish,
        out: &mut Outbox,
    )
        requires slot { slot.0 < 2 ^ 32 }
        requires order { MayBegin slot.0 self.old.held }
        requires empty { out.old.items ≡ [] }
        ensures took { (setup : Setup) (past : List Step) → Knows setup self.old.held past
            → HasStepped setup past (TurnBegins slot.0 radio_on) self.old self.new out.new.items }
        ensures wants { (setup : Setup) (past : List Step) → Knows setup self.old.held past
            → wanted.new
            ≡ use_of (facts_of setup (past ++ TurnBegins slot.0 radio_on ∷ [])) }
        ensures begun { self.new.held.turn.begun ≡ slot.0 + 1 }
    {
        wanted.set(self.controller.begin_turn(slot, radio_on, out));
    }

    /// The controller takes that nothing was heard in a phase, and wants something in the next one.
    fn hear_nothing(&mut self, wanted: &mut Wish, out: &mut Outbox)
        requires empty { out.old.items ≡ [] }
        ensures took { (setup : Setup) (past : List Step) → Knows setup self.old.held past
            → HasStepped setup past NothingHeard self.old self.new out.new.items }
        ensures wants { (setup : Setup) (past : List Step) → Knows setup self.old.held past
            → wanted.new ≡ use_of (facts_of setup (past ++ NothingHeard ∷ [])) }
        ensures begun { self.new.held.turn.begun ≡ self.old.held.turn.begun }
    {
        wanted.set(self.controller.unheard(out));
    }

    /// The controller takes a packet that was heard in a phase, and wants something in the next
    /// one. Most phases have no packet, so this is kept out of their code.
    #[inline(never)]
    fn hear_packet(&mut self, octets: &[u8], wanted: &mut Wish, out: &mut Outbox)
        requires empty { out.old.items ≡ [] }
        ensures took { (setup : Setup) (past : List Step) → Knows setup self.old.held past
            → HasStepped setup past (PacketHeard octets.now) self.old self.new out.new.items }
        ensures wants { (setup : Setup) (past : List Step) → Knows setup self.old.held past
            → wanted.new
            ≡ use_of (facts_of setup (past ++ PacketHeard octets.now ∷ [])) }
        ensures begun { self.new.held.turn.begun ≡ self.old.held.turn.begun }
    {
        wanted.set(self.controller.heard(octets, out));
    }

    /// The controller takes what was heard in a phase, if anything was, and wants something in the
    /// next one.
    pub(crate) fn listen(&mut self, heard: Option<&[u8]>, wanted: &mut Wish, out: &mut Outbox)
        requires empty { out.old.items ≡ [] }
        ensures took { (setup : Setup) (past : List Step) → Knows setup self.old.held past
            → HasStepped setup past (step_of (option_copied heard.entry)) self.old self.new
            out.new.items }
        ensures wants { (setup : Setup) (past : List Step) → Knows setup self.old.held past
            → wanted.new
            ≡ use_of (facts_of setup (past ++ step_of (option_copied heard.entry) ∷ [])) }
        ensures begun { self.new.held.turn.begun ≡ self.old.held.turn.begun }
    {
        match heard {
            None => self.hear_nothing(wanted, out),
            Some(octets) => self.hear_packet(octets, wanted, out),
        }
    }

    /// The controller ends the turn.
    pub(crate) fn end(&mut self, out: &mut Outbox)
        requires empty { out.old.items ≡ [] }
        ensures took { (setup : Setup) (past : List Step) → Knows setup self.old.held past
            → HasStepped setup past TurnEnds self.old self.new out.new.items }
        ensures order { MayBegin self.old.held.turn.begun self.new.held }
    {
        self.controller.end_turn(out);
    }
}
