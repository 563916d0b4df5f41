//! What a controller wants of the radio for what it does, and its verdict on what reaches it.
ghost use Rattle.std.specs.Prelude.{◌≡◌, ◌<◌, ◌≤◌, ◌^◌, ◌++◌, ℕ, List};
ghost use Rattle.arrayvec.specs.ArrayVec.{array_vec_len};
ghost use Rattle.acl_banks.specs.declared.pieces.Piece.{Piece};
ghost use Rattle.open_links.specs.Knowing.{Knows as KnowsLinks};
ghost use Rattle.open_links.specs.OpenLinks.{Links, link_after, link_at, with_change};
ghost use Rattle.link_model.specs.Step.{PacketSent};
ghost use Rattle.controller_model.specs.declared.doing.Doing.TheVariants.{Rests};
ghost use Rattle.controller_model.specs.Entering.{HasEntered, IsInEvent};
ghost use Rattle.controller_model.specs.Facts.{Setup, Facts};
ghost use Rattle.controller_model.specs.Packets.{facts_doing, links_sending, listens_on};
ghost use Rattle.controller_model.specs.Packets.{notes_doing, notes_sent, sends_on, use_for};
ghost use Rattle.controller_model.specs.Packets.{verdict_of, verdict_of_link};
ghost use Rattle.controller.specs.Fitting.{CanDo};
ghost use Rattle.controller.specs.Knowing.{IsAt, use_wanted};
ghost use Rattle.controller.specs.Order.{MayBegin, ReceivesOnce, Stays};

use crate::controllers::Controller;
use crate::exchanges::send;
use crate::intents::Intent;
use crate::packets::{send_packet, send_pdu};
use activities::{connect_ind, judge};
use ble_base::{Outbox, SlotNo, Verdict};
use controller_model::Doing;
use open_links::OpenLinks;

/// Listens on the link under a handle.
fn listen_on<const L: usize, const T: usize, const R: usize>(
    links: &OpenLinks<L, T, R>,
    handle: u16,
) -> Intent
    ensures { (known : Links) (received : List (ℕ × Piece))
        → KnowsLinks links.now known received
        → use_wanted result ≡ listens_on (link_at handle known) }
{
    match links.channel(handle) {
        None => Intent::Idle,
        Some(channel) => Intent::Listen { channel },
    }
}

/// What the link under a handle makes of octets.
fn judge_on_link<const L: usize, const T: usize, const R: usize>(
    links: &OpenLinks<L, T, R>,
    handle: u16,
    octets: &[u8],
) -> Verdict
    ensures { (known : Links) (received : List (ℕ × Piece))
        → KnowsLinks links.now known received
        → result ≡ verdict_of_link (link_at handle known) octets.now }
{
    match links.judge(handle, octets) {
        None => Verdict::Missed,
        Some(verdict) => verdict,
    }
}

impl<const L: usize, const T: usize, const R: usize> Controller<L, T, R> {
    /// Sends on the link under a handle, and notes a new PDU in that.
    fn send_on(&mut self, handle: u16, out: &mut Outbox) -> Intent
        requires { array_vec_len out.old ≤ 59 }
        ensures at { (has : Setup) (facts : Facts) → IsAt has self.old facts
            → HasEntered (link_at handle facts.links) → IsAt has self.new (record facts {
              links = with_change handle (link_after (PacketSent facts.turn.slot)) facts.links;
            }) }
        ensures notes { (has : Setup) (facts : Facts) → IsAt has self.old facts
            → HasEntered (link_at handle facts.links) → out.new.items
            ≡ out.old.items ++ notes_sent facts.turn.slot (link_at handle facts.links) }
        ensures wanted { (links : Links) (received : List (ℕ × Piece))
            → KnowsLinks self.old.links links received → HasEntered (link_at handle links)
            → use_wanted result ≡ sends_on (link_at handle links) }
        ensures stays { Stays self.old self.new }
    {
        let channel = self.links.channel(handle);
        let packet = send(&mut self.links, handle, SlotNo(self.turn.slot), out);
        send_packet(channel, packet)
    }

    /// What it wants of the radio, for what it does. A new PDU that it is to send is noted.
    fn intent(&mut self, doing: Doing, out: &mut Outbox) -> Intent
        requires can { CanDo L doing }
        requires room { array_vec_len out.old ≤ 59 }
        ensures at { (has : Setup) (facts : Facts) → IsAt has self.old facts
            → IsInEvent doing facts.links → IsAt has self.new (record facts {
              links = links_sending facts.turn.slot doing facts.links;
            }) }
        ensures notes { (has : Setup) (facts : Facts) → IsAt has self.old facts
            → IsInEvent doing facts.links
            → out.new.items ≡ out.old.items ++ notes_doing doing facts }
        ensures wanted { (has : Setup) (facts : Facts) → IsAt has self.old facts
            → IsInEvent doing facts.links → use_wanted result ≡ use_for facts doing }
        ensures stays { Stays self.old self.new }
    {
        match doing {
            Doing::AwaitsRequest { channel }
            | Doing::Scans { channel }
            | Doing::AwaitsResponse { channel }
            | Doing::Initiates { channel } => Intent::Listen { channel },
            Doing::CentralSends { handle } | Doing::PeripheralSends { handle } => {
                self.send_on(handle, out)
            }
            Doing::CentralListens { handle } | Doing::PeripheralListens { handle } => {
                listen_on(&self.links, handle)
            }
            Doing::Advertises { channel } => send_pdu(channel, self.activities.advertisement()),
            Doing::Responds { channel } => send_pdu(channel, self.activities.response()),
            Doing::Requests {
                channel,
                advertiser,
            } => send_pdu(channel, self.activities.request(advertiser)),
            Doing::Connects { channel, link } => send_pdu(channel, connect_ind(&link)),
            Doing::Rests => Intent::Idle,
        }
    }

    /// It does this in the phase that comes next.
    fn set_doing(&mut self, doing: Doing)
        requires can { CanDo L doing }
        requires once { ReceivesOnce self.old.between self.old.turn self.old.links doing }
        ensures { self.new
            ≡ record self.old { turn = record self.old.turn { doing = doing } } }
    {
        self.turn.doing = doing;
    }

    /// It does nothing in the phase that comes next.
    pub(crate) fn rest(&mut self)
        ensures at { (has : Setup) (facts : Facts) → IsAt has self.old facts
            → IsAt has self.new (facts_doing Rests facts) }
        ensures stays { Stays self.old self.new }
    {
        self.set_doing(Doing::Rests);
    }

    /// The turn has ended: it does nothing until the next one begins.
    pub(crate) fn end(&mut self)
        requires { self.old.links.unreported ≡ 0 }
        ensures at { (has : Setup) (facts : Facts) → IsAt has self.old facts
            → IsAt has self.new (facts_doing Rests facts) }
        ensures framer { self.new.framer ≡ self.old.framer }
        ensures order { MayBegin self.old.turn.begun self.new }
    {
        self.turn.doing = Doing::Rests;
        self.between = true;
    }

    /// It does this in the phase that comes next. It gives what it wants of the radio for that, and
    /// notes a new PDU that it is to send.
    pub(crate) fn prepare(&mut self, doing: Doing, out: &mut Outbox) -> Intent
        requires can { CanDo L doing }
        requires once { ReceivesOnce self.old.between self.old.turn self.old.links doing }
        requires room { array_vec_len out.old ≤ 59 }
        ensures at { (has : Setup) (facts : Facts) → IsAt has self.old facts
            → IsInEvent doing facts.links → IsAt has self.new (facts_doing doing facts) }
        ensures notes { (has : Setup) (facts : Facts) → IsAt has self.old facts
            → IsInEvent doing facts.links
            → out.new.items ≡ out.old.items ++ notes_doing doing facts }
        ensures wanted { (has : Setup) (facts : Facts) → IsAt has self.old facts
            → IsInEvent doing facts.links → use_wanted result ≡ use_for facts doing }
        ensures stays { Stays self.old self.new }
    {
        if let Doing::Rests = doing {
            self.rest();
            return Intent::Idle;
        }
        self.prepare_radio(doing, out)
    }

    /// The same where it uses the radio. Most phases are idle, so this is kept out of their code.
    #[inline(never)]
    fn prepare_radio(&mut self, doing: Doing, out: &mut Outbox) -> Intent
        requires can { CanDo L doing }
        requires once { ReceivesOnce self.old.between self.old.turn self.old.links doing }
        requires room { array_vec_len out.old ≤ 59 }
        ensures at { (has : Setup) (facts : Facts) → IsAt has self.old facts
            → IsInEvent doing facts.links → IsAt has self.new (facts_doing doing facts) }
        ensures notes { (has : Setup) (facts : Facts) → IsAt has self.old facts
            → IsInEvent doing facts.links
            → out.new.items ≡ out.old.items ++ notes_doing doing facts }
        ensures wanted { (has : Setup) (facts : Facts) → IsAt has self.old facts
            → IsInEvent doing facts.links → use_wanted result ≡ use_for facts doing }
        ensures stays { Stays self.old self.new }
    {
        let intent = self.intent(doing, out);
        self.set_doing(doing);
        intent
    }

    /// What it makes of octets that reach it in the phase that comes next.
    #[tactic(auto, unfolding(controller_model::specs::Packets::verdict_of))]
    pub(crate) fn verdict(&self, octets: &[u8]) -> Verdict
        ensures { (has : Setup) (facts : Facts) → IsAt has self.now facts
            → result ≡ verdict_of facts octets.now }
    {
        match self.turn.doing {
            Doing::AwaitsRequest { channel }
            | Doing::Scans { channel }
            | Doing::AwaitsResponse { channel }
            | Doing::Initiates { channel } => judge(channel, octets),
            Doing::CentralListens { handle } | Doing::PeripheralListens { handle } => {
                judge_on_link(&self.links, handle, octets)
            }
            Doing::Advertises { .. }
            | Doing::Responds { .. }
            | Doing::Requests { .. }
            | Doing::Connects { .. }
            | Doing::CentralSends { .. }
            | Doing::PeripheralSends { .. }
            | Doing::Rests => Verdict::Missed,
        }
    }
}
