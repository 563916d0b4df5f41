//! One end of a link, with its buffers and what it notes.
ghost use Rattle.std.specs.Prelude.{◌≡◌, ◌<◌, ◌≤◌, ◌^◌, IsTrue, None};
ghost use Rattle.std.specs.Result.{ForOk};
ghost use Rattle.arrayvec.specs.ArrayVec.{array_vec_len};
ghost use Rattle.acl_banks.specs.Banks.{Bank, packet_out};
ghost use Rattle.adv_pdu.specs.Ranges.{IsInRange};
ghost use Rattle.instants.specs.Track.{next_anchor_of};
ghost use Rattle.procedure_values.specs.Wants.{IsAsk};
ghost use Rattle.control_end.specs.Answers.{goes_on};
ghost use Rattle.link_end.specs.Tied.{IsTied};

use acl_banks::{RxBank, TxBank};
use adv_pdu::ConnectFields;
use arrayvec::ArrayVec;
use ble_base::{
    AIR_PACKET_OCTETS, Address, ChannelMap, ErrCode, Note, Outbox, Role, SlotNo, Verdict,
};
use link_end::{LinkEnd, LinkSetup, LinkStep};
use procedures::{Ask, Effect};
use std::alloc::{AllocError, Global};
use std::marker::Model;

/// The access address of the link.
pub const ACCESS: u32 = 0x7176_4129;

/// Where the CRC of the link begins.
pub const CRC_INIT: u32 = 1;

/// The handle of the link at each end.
const HANDLE: u16 = 0;

/// The slot of the anchor of event 0.
const FIRST_ANCHOR: u64 = 2;

/// The halves of the session key diversifier and of the initialization vector with which a
/// peripheral answers LL_ENC_REQ (the sample data of Core 5.2, volume 6 part C, section 1).
const SKD_S: u64 = 0x0213_2435_4657_6879;

const IV_S: u32 = 0xDEAF_BABE;

/// One end of a link, its buffers, and the first slot in which it may take octets.
#[derive(Drop)]
pub struct End {
    pub(crate) link: LinkEnd,
    tx: TxBank<2>,
    rx: RxBank<4>,
    next: u64,
    /// The slot of the anchor of the event entered last.
    anchor: u64,
    /// What it noted, and what came of the packet that it took last.
    pub(crate) out: Outbox,
    step: Option<LinkStep>,
}

impl Model for End {
    ghost use Rattle.std.specs.Prelude.{◌≤◌, ℕ};
    ghost use Rattle.link_end.specs.Tied.{IsBefore, IsTied};

    ghost Value = { ℕ };

    ghost view = { λ e. e.next };

    ghost invariant = { λ e. (1 ≤ e.link.control.control.track.entered) × IsTied e.link e.tx
        × IsBefore e.link e.next };
}

/// A link with 30 ms from one event to the next and a supervision timeout of 720 ms.
fn fields() -> ConnectFields
    ensures in_range { IsInRange result }
    ensures crc_init { result.crc_init < 2 ^ 24 }
    ensures win_offset { result.win_offset ≡ 0 }
{
    ConnectFields {
        access: ACCESS,
        crc_init: CRC_INIT,
        win_size: 1,
        win_offset: 0,
        interval: 24,
        latency: 0,
        timeout: 72,
        map: ChannelMap::default().bits(),
        hop: 5,
        sca: 0,
    }
}

/// A new end of the link that a CONNECT_IND in slot 0 opens.
#[tactic(auto, using(crate::proofs::Beginning::new_goes_on, crate::proofs::Beginning::new_anchor))]
fn new_link(role: Role) -> LinkEnd
    ensures goes_on { IsTrue (goes_on result.control.control) }
    ensures anchor { next_anchor_of result.control.control.track ≡ 2 }
    ensures last_good { result.last_good ≡ None }
    ensures tied { (bank : Bank) → packet_out bank 0 ≡ None → IsTied result bank }
{
    let setup = LinkSetup {
        role,
        handle: HANDLE,
        own: Address::default(),
        peer: Address::default(),
        fields: fields(),
        two: true,
        max_rx: 251,
    };
    LinkEnd::new(setup, SlotNo(0))
}

/// An end that has entered event 0.
fn link_in_event_0(role: Role) -> LinkEnd
    ensures entered { 1 ≤ result.control.control.track.entered }
    ensures last_good { result.last_good ≡ None }
    ensures tied { (bank : Bank) → packet_out bank 0 ≡ None → IsTied result bank }
{
    let mut link = new_link(role);
    let mut out = Outbox::new();
    link.enter(SlotNo(FIRST_ANCHOR), &mut out);
    link
}

/// Makes room for what a call notes.
fn make_room(out: &mut Outbox)
    ensures { array_vec_len out.new ≤ 59 }
{
    if out.len() > 59 {
        out.clear();
    }
}

impl End {
    /// An end that has entered event 0, and empty buffers.
    pub fn new(alloc: Global, role: Role) -> Result<Self, AllocError> {
        let tx = TxBank::make(alloc)?;
        let rx = RxBank::make(alloc)?;
        Ok(End {
            link: link_in_event_0(role),
            tx,
            rx,
            next: 0,
            anchor: FIRST_ANCHOR,
            out: Outbox::new(),
            step: None,
        })
    }

    /// A new end of the same role takes the place of this one.
    pub fn begin_again(&mut self) {
        self.tx.drop_link(HANDLE);
        self.rx.drop_link(HANDLE);
        self.link = link_in_event_0(self.link.setup().role);
        self.next = 0;
        self.anchor = FIRST_ANCHOR;
        self.clear();
    }

    /// Forgets what it noted, and what came of the packet that it took last.
    pub fn clear(&mut self) {
        self.out.clear();
        self.step = None;
    }

    /// A turn in this slot begins: it enters its next event, if the anchor of that is in this slot,
    /// and fixes what it sends next.
    pub fn begin_turn(&mut self, slot: u32) {
        self.clear();
        if self.link.next_anchor().0 == u64::from(slot) {
            self.enter();
        }
        self.link.ready(&self.tx);
    }

    /// Enters the next event.
    pub fn enter(&mut self) {
        let slot = self.link.next_anchor();
        if slot.0 < 1 << 32 {
            self.anchor = slot.0;
            make_room(&mut self.out);
            self.link.enter(slot, &mut self.out);
        }
    }

    /// Whether it has an exchange in this slot: that of the anchor, or the next one where the event
    /// goes on.
    pub fn is_in(&self, slot: u32) -> bool {
        let slot = u64::from(slot);
        slot == self.anchor || slot == self.anchor.saturating_add(1) && self.link.again()
    }

    /// Whether it wants the radio for the event entered last.
    pub fn wants(&self) -> bool {
        self.link.wants(&self.tx)
    }

    /// The packet that it sends in this slot.
    pub fn send(&mut self, slot: u32) -> ArrayVec<u8, AIR_PACKET_OCTETS> {
        make_room(&mut self.out);
        self.link
            .to_send(SlotNo(u64::from(slot)), &mut self.tx, &mut self.out)
    }

    /// Takes octets in this slot, if it took none since.
    #[tactic(auto, using(link_end::proofs::Tying::credited_tied, link_end::proofs::Tying::before_later))]
    pub fn hear(&mut self, octets: &[u8], slot: u32) {
        let slot = u64::from(slot);
        if slot < self.next {
            return;
        }
        make_room(&mut self.out);
        self.tx.credited(self.link.setup().handle);
        self.link.enc_words(SKD_S, IV_S);
        let (tx, rx) = (&mut self.tx, &mut self.rx);
        let step = self.link.heard(octets, SlotNo(slot), tx, rx, &mut self.out);
        self.next = slot + 1;
        self.step = Some(step);
    }

    /// The data channel of its event.
    pub fn channel(&self) -> u8
        ensures { result < 37 }
    {
        self.link.channel()
    }

    /// Its role.
    pub fn role(&self) -> Role {
        self.link.setup().role
    }

    /// The slot of the anchor of its next event.
    pub fn next_anchor(&self) -> u64 {
        self.link.next_anchor().0
    }

    /// Its verdict on octets.
    pub fn judge(&self, octets: &[u8]) -> Verdict {
        self.link.judge(octets)
    }

    /// Why it ends as this turn ends, if it does.
    pub fn end_turn(&mut self) -> Option<ErrCode> {
        self.link.end_turn()
    }

    /// Why it ends at the start of a turn in this slot, if it does.
    pub fn due(&self, slot: u32) -> Option<ErrCode> {
        self.link.due(SlotNo(u64::from(slot)))
    }

    /// How much it noted in this turn.
    pub fn note_count(&self) -> usize {
        self.out.len()
    }

    /// Whether it took a PDU in this turn.
    pub fn has_taken(&self) -> bool {
        for note in self.out.as_slice() {
            if let Note::Took { .. } = note {
                return true;
            }
        }
        false
    }

    /// What the layer above does with what it took.
    pub fn effect(&self) -> Effect {
        match self.step {
            None => Effect::Nothing,
            Some(step) => step.effect,
        }
    }

    /// What it does with a PDU that it kept, and which it looks at now.
    pub fn kept_effect(&self) -> Effect {
        match self.step {
            None => Effect::Nothing,
            Some(step) => step.kept_effect,
        }
    }

    /// Whether it answers what it took.
    pub fn replies(&self) -> bool {
        match self.step {
            None => false,
            Some(step) => step.reply,
        }
    }

    /// The host asks for a procedure.
    pub fn ask(&mut self, ask: Ask)
        requires { IsAsk ask }
    {
        self.link.ask(ask);
    }

    /// The host answers a request of the peer.
    pub fn answer(&mut self, answer: Result<Ask, ErrCode>)
        requires { ForOk answer IsAsk }
    {
        self.link.host_answer(answer);
    }

    /// The host answers for a key in this slot.
    pub fn key(&mut self, ltk: Option<[u8; 16]>, slot: u32) {
        self.link.key(ltk, SlotNo(u64::from(slot)));
    }

    /// The host ends the link in this slot.
    pub fn finish(&mut self, reason: ErrCode, slot: u32) {
        self.link.end(reason, SlotNo(u64::from(slot)));
    }

    /// The host takes a piece of data.
    pub fn hand_up(&mut self) {
        self.rx.hand_up();
    }

    /// The host gives the start of a message. False where it has no octet, or the bank is full.
    #[tactic(auto, using(link_end::proofs::Tying::offer_tied))]
    pub fn give(&mut self, body: &[u8]) -> bool {
        let handle = self.link.setup().handle;
        !body.is_empty() && self.tx.offer(handle, true, body).is_ok()
    }
}
