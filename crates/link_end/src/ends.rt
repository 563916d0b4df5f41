//! One end of a link.
ghost use Rattle.std.specs.Prelude.{◌≡◌, ◌+◌, ◌<◌, ◌≤◌, ◌^◌, List, [], ◌∷◌, ◌++◌};
ghost use Rattle.std.specs.Prelude.{None, is_some, length, nat_lt, IsTrue};
ghost use Rattle.std.specs.Option.{option_map};
ghost use Rattle.std.specs.Result.{ForOk};
ghost use Rattle.arrayvec.specs.ArrayVec.{array_vec_len};
ghost use Rattle.acl_banks.specs.Banks.{Bank, credits_of, packet_out};
ghost use Rattle.adv_pdu.specs.Ranges.{IsInRange};
ghost use Rattle.instants.specs.Track.{next_anchor_of};
ghost use Rattle.procedures.specs.procedure_values.Limits.{rx_of, tx_of};
ghost use Rattle.procedures.specs.procedure_values.Wants.{IsAsk};
ghost use Rattle.control_end.specs.Answers.{awaits_host, entry_of, may_ask};
ghost use Rattle.control_end.specs.Held.{held_of};
ghost use Rattle.link_model.specs.Receiving.{HasPayloadLengths};
ghost use Rattle.link_model.specs.phased_end.Moves.{lasts};
ghost use Rattle.link_model.specs.Setup.{Setup};
ghost use Rattle.link_model.specs.Step.{Step, Disconnected, EventEntered};
ghost use Rattle.link_model.specs.Step.{PacketReceived, PacketSent, PduFixed};
ghost use Rattle.link_model.specs.Step.{KeyAnswered, ProcedureAsked, RequestAnswered};
ghost use Rattle.link_model.specs.Step.{WordsGiven};
ghost use Rattle.link_model.specs.Controls.{is_quiet_now};
ghost use Rattle.link_model.specs.Drawing.{draws_of};
ghost use Rattle.link_model.specs.Hosts.{is_key_awaited};
ghost use Rattle.link_model.specs.Facts.{params_of};
ghost use Rattle.link_model.specs.Kept.{kept_of};
ghost use Rattle.link_model.specs.Packets.{packet_sent, verdict_of};
ghost use Rattle.link_model.specs.Receiving.{effect_of, effect_unless_known};
ghost use Rattle.link_model.specs.Receiving.{kept_effect_of, replies_of};
ghost use Rattle.link_model.specs.Times.{due_of, ending_of, has_second_exchange, span_of};
ghost use Rattle.link_model.specs.Times.{wants_of};
ghost use Rattle.link_model.specs.End.{facts_of};
ghost use Rattle.link_end.specs.Answers.{acked_of, given_of, kept_given_of};
ghost use Rattle.link_end.specs.Knowing.{Goes, Knows};
ghost use Rattle.link_end.specs.Tied.{HoldsData, IsBefore, IsTied, LeavesOthers};

use crate::first::{
    first_anchor, first_params, no_event, no_lengths, no_peer, no_response, selector, stays,
};
use crate::hearing::Hearing;
use crate::pdus::Pdu;
use crate::sending::SEALED_OCTETS;
use crate::steps::{continues, span};
use ack_bit::AckEnd;
use acl_banks::{RxBank, TxBank};
use arrayvec::ArrayVec;
use ble_base::{AIR_PACKET_OCTETS, ErrCode, Kind, Outbox, SlotNo, Verdict};
use chan_select::Selector;
use control_end::Entry;
use instants::Params;
use keyed_control::Response;
use link_model::{
    ConnectionEvent, KnownLengths, Leaving, LinkSetup, PeerFacts, PhasedEnd, Reception,
};
use procedures::{Ask, Effect};
use std::marker::Model;

/// What comes of a packet that an end received.
#[derive(Clone, Copy, Debug, PartialEq, Eq)]
pub struct LinkStep {
    /// It answers the packet in the next phase of the turn.
    pub reply: bool,
    /// What the layer above does with a control PDU that was taken.
    pub effect: Effect,
    /// The procedure of this end that the PDU refuses, and why.
    pub refused: Option<(Kind, ErrCode)>,
    /// The procedure of this end that the PDU completes.
    pub done: Option<Kind>,
    /// The procedure of this end that the acknowledgement completes.
    pub acked: Option<Kind>,
    /// What the layer above does with a control PDU that was kept until this one was taken.
    pub kept_effect: Effect,
    /// The procedure of this end that the PDU completes that was kept.
    pub kept_done: Option<Kind>,
    /// A peripheral answers LL_ENC_REQ: the words that were given last are drawn.
    pub draws: bool,
}

/// One end of a link, from its CONNECT_IND on.
#[derive(Drop)]
pub struct LinkEnd {
    pub(crate) setup: LinkSetup,
    /// The slot of the CONNECT_IND.
    pub(crate) opened: u64,
    pub(crate) control: PhasedEnd,
    /// What a peripheral would draw to answer LL_ENC_REQ.
    pub(crate) response: Response,
    pub(crate) peer: PeerFacts,
    pub(crate) selector: Selector,
    pub(crate) event: ConnectionEvent,
    pub(crate) lengths: KnownLengths,
    pub(crate) acknowledgement: AckEnd,
    /// The PDU that was sent last is acknowledged.
    pub(crate) is_acked: bool,
    /// The PDU that was sent last, with its payload as it was on the air, and the one that is sent
    /// next: the next control PDU, or this one.
    pub(crate) last: Pdu,
    pub(crate) payload: ArrayVec<u8, SEALED_OCTETS>,
    pub(crate) fixed: Pdu,
    pub(crate) fixes_control: bool,
    /// As that was fixed a further PDU waited after it, and one after the last PDU, where that is
    /// sent again.
    pub(crate) more: bool,
    pub(crate) more_again: bool,
    /// How many PDUs that are not empty were sent and taken.
    pub(crate) sent: u64,
    pub(crate) taken: u64,
    pub(crate) last_good: Option<Reception>,
    pub(crate) leaving: Leaving,
}

impl Model for LinkEnd {
    ghost use Rattle.std.specs.Prelude.{◌≡◌, ◌+◌, ◌<◌, ◌≤◌, ◌^◌, IfSome, if◌then◌else◌};
    ghost use Rattle.link_model.specs.Setup.{algorithm_of};
    ghost use Rattle.link_end.specs.Held.{Held, heard_slots};
    ghost use Rattle.link_model.specs.phased_end.Reached.{IsReached};

    ghost Value = { Held };

    ghost view = { λ e. record {
      setup = record { link = e.setup; opened = e.opened };
      control = e.control;
      response = e.response;
      peer = e.peer;
      event = e.event;
      lengths = e.lengths;
      bits = e.acknowledgement;
      is_acked = e.is_acked;
      last = record { llid = e.last.llid; body = e.last.body.items };
      payload = e.payload.items;
      fixed = record { llid = e.fixed.llid; body = e.fixed.body.items };
      fixes_control = e.fixes_control;
      more = e.more;
      more_again = e.more_again;
      sent = e.sent;
      taken = e.taken;
      last_good = e.last_good;
      leaving = e.leaving;
    } };

    // A PDU is taken, and the next one can be sent, only with a good packet in a later slot; a PDU
    // that is sealed or opened takes a counter of its session.
    ghost invariant = { λ e. (e.opened < 2 ^ 32) × (e.setup.fields.crc_init < 2 ^ 24)
        × (e.setup.max_rx ≤ 251) × (e.event.channel < 37) × (e.event.number < 2 ^ 32)
        × (e.selector ≡ algorithm_of e.setup)
        × IfSome e.last_good (λ good. (good.slot < 2 ^ 32) × (good.event < 2 ^ 32))
        × (e.last.llid < 4) × (e.fixed.llid < 4) × (e.taken ≤ heard_slots e.last_good)
        × ((if e.is_acked then 1 else 0) + e.sent ≤ heard_slots e.last_good)
        × IfSome e.leaving.disconnected (λ since. since ≤ 2 ^ 32) × IsReached e.control
        × (e.control.end.sent ≤ e.sent) × (e.control.end.opened ≤ heard_slots e.last_good) };
}

impl LinkEnd {
    /// An end of the link that a CONNECT_IND in this slot opens, before event 0.
    pub fn new(setup: LinkSetup, slot: SlotNo) -> Self
        requires fields { IsInRange setup.fields }
        requires crc_init { setup.fields.crc_init < 2 ^ 24 }
        requires max_rx { (27 ≤ setup.max_rx) × (setup.max_rx ≤ 251) }
        requires slot { slot.0 < 2 ^ 32 }
        ensures knows { Knows (record { link = setup; opened = slot.0 }) result [] }
        ensures handle { result.setup ≡ record { link = setup; opened = slot.0 } }
        ensures last_good { result.last_good ≡ None }
        ensures tied { (bank : Bank) → packet_out bank setup.handle ≡ None
            → IsTied result bank }
    {
        LinkEnd {
            setup,
            opened: slot.0,
            control: PhasedEnd::new(
                setup.role,
                setup.max_rx,
                first_params(&setup),
                first_anchor(setup.fields.win_offset, slot.0),
            ),
            response: no_response(),
            peer: no_peer(),
            selector: selector(&setup),
            event: no_event(),
            lengths: no_lengths(),
            acknowledgement: AckEnd::new(),
            is_acked: false,
            last: Pdu::empty(),
            payload: ArrayVec::new(),
            fixed: Pdu::empty(),
            fixes_control: false,
            more: false,
            more_again: false,
            sent: 0,
            taken: 0,
            last_good: None,
            leaving: stays(),
        }
    }

    /// What this end was set up with.
    pub fn setup(&self) -> LinkSetup
        ensures value { result ≡ self.now.setup.link }
        ensures known { (setup : Setup) (past : List Step) → Knows setup self.now past
            → result ≡ setup.link }
    {
        self.setup
    }

    /// The slot of the anchor of the next event.
    pub fn next_anchor(&self) -> SlotNo
        ensures value { result.0 ≡ next_anchor_of self.now.control.control.track }
        ensures known { (setup : Setup) (past : List Step) → Knows setup self.now past
            → result.0 ≡ next_anchor_of (facts_of setup past).control.track }
    {
        self.control.next_anchor()
    }

    /// The parameters in the event entered last, and the first ones before any was.
    pub fn params(&self) -> Params
        ensures { (setup : Setup) (past : List Step) → Knows setup self.now past
            → result ≡ params_of (facts_of setup past) }
    {
        self.control.params()
    }

    /// The data channel of the event entered last, 0 to 36.
    pub fn channel(&self) -> u8
        ensures data { result < 37 }
        ensures known { (setup : Setup) (past : List Step) → Knows setup self.now past
            → result ≡ (facts_of setup past).event.channel }
    {
        self.event.channel
    }

    /// What it knows of the peer: its features and its version, each once a PDU with it was taken.
    pub fn peer(&self) -> PeerFacts
        ensures { (setup : Setup) (past : List Step) → Knows setup self.now past
            → result ≡ (facts_of setup past).peer }
    {
        self.peer
    }

    /// The most octets of a payload that it receives, and the most that it transmits (Core 5.2,
    /// volume 6 part B, section 4.5.10).
    pub fn lengths(&self) -> (u16, u16)
        ensures { (setup : Setup) (past : List Step) → Knows setup self.now past
            → result ≡ (
              rx_of (facts_of setup past).control.table.lengths,
              tx_of (facts_of setup past).control.table.lengths,
            ) }
    {
        self.control.lengths()
    }

    /// The slots for which an event holds the radio: two while no payload is longer than 27 octets,
    /// else four.
    pub fn span(&self) -> u8
        ensures { (setup : Setup) (past : List Step) → Knows setup self.now past
            → result ≡ span_of (facts_of setup past) }
    {
        span(self.lengths.long)
    }

    /// Whether the event entered last has a second exchange, in the slot after its anchor: a good
    /// packet was received in the first one, and a packet of that has an MD bit of 1 (Core 5.2,
    /// volume 6 part B, section 4.5.6). It has none where a payload may be longer than 27 octets,
    /// or a length was changed since the event was entered.
    pub fn again(&self) -> bool
        ensures { (setup : Setup) (past : List Step) → Knows setup self.now past
            → result ≡ has_second_exchange (facts_of setup past) }
    {
        continues(self.event, self.lengths)
    }

    /// The reason for which the link ends at the start of a turn in this slot: nothing good was
    /// received in six intervals since the CONNECT_IND, or in the supervision timeout since the
    /// last good packet (Core 5.2, volume 6 part B, section 4.5.2); the peer has not answered a
    /// procedure in 40 s (section 5.2); or the supervision timeout has passed since this end was
    /// first to end the link (section 5.1.6).
    pub fn due(&self, slot: SlotNo) -> Option<ErrCode>
        ensures { (setup : Setup) (past : List Step) → Knows setup self.now past
            → option_map (λ code. code.0) result ≡ due_of setup (facts_of setup past) slot.0 }
    {
        self.reason(slot.0)
    }

    /// The reason for which the link ends at the end of a turn: its own LL_TERMINATE_IND is
    /// acknowledged, one of its procedures ended the link, or a packet was sent after
    /// LL_TERMINATE_IND of the peer was taken (Core 5.2, volume 6 part B, section 5.1.6). It
    /// changes nothing.
    pub fn end_turn(&mut self) -> Option<ErrCode>
        ensures reason { (setup : Setup) (past : List Step) → Knows setup self.old past
            → result ≡ ending_of (facts_of setup past) }
        ensures same { self.new ≡ self.old }
    {
        self.ending()
    }

    /// Whether there is such a reason.
    pub fn is_ending(&self) -> bool
        ensures { (setup : Setup) (past : List Step) → Knows setup self.now past
            → result ≡ is_some (ending_of (facts_of setup past)) }
    {
        self.ending().is_some()
    }

    /// Whether it wants the radio for the event entered last. A central wants it for each event, a
    /// peripheral for each that its latency does not let it skip: it skips none while it has a PDU
    /// to send, a procedure is in progress or an indication waits (Core 5.2, volume 6 part B,
    /// section 4.5.1).
    pub fn wants<const T: usize>(&self, tx: &TxBank<T>) -> bool
        ensures { (setup : Setup) (past : List Step) → Knows setup self.now past
            → HoldsData setup.link.handle tx.now (facts_of setup past).outgoing
            → result ≡ wants_of setup (facts_of setup past) }
    {
        !self.skips(tx)
    }

    /// Enters the next event, whose anchor is in this slot, and notes it: the indication that is in
    /// force from then on, the event, and the procedures of this end that are done and that begin.
    /// An end whose procedures ended the link does nothing.
    pub fn enter(&mut self, slot: SlotNo, out: &mut Outbox) -> Entry
        requires anchor { IsTrue (lasts self.old.control)
            → slot.0 ≡ next_anchor_of self.old.control.control.track }
        requires slot { slot.0 < 2 ^ 32 }
        requires room { array_vec_len out.old ≤ 59 }
        ensures goes { (setup : Setup) (past : List Step) → Knows setup self.old past
            → Goes setup self.new past (EventEntered slot.0) out.old.items out.new.items }
        ensures entry { (setup : Setup) (past : List Step) → Knows setup self.old past
            → result ≡ entry_of slot.0 (is_quiet_now (facts_of setup past))
            (held_of (facts_of setup past).control) }
        ensures few { array_vec_len out.new ≤ array_vec_len out.old + 5 }
        ensures handle { self.new.setup ≡ self.old.setup }
        ensures last_good { self.new.last_good ≡ self.old.last_good }
        ensures tied { (bank : Bank) → IsTied self.old bank → IsTied self.new bank }
        ensures holds { (setup : Setup) (past : List Step) (bank : Bank)
            → HoldsData setup.link.handle bank (facts_of setup past).outgoing
            → HoldsData setup.link.handle bank
            (facts_of setup (past ++ EventEntered slot.0 ∷ [])).outgoing }
        ensures enters { IsTrue (lasts self.old.control) → 1 ≤ self.new.control.control.track.entered }
        ensures entered { 1 ≤ self.old.control.control.track.entered
            → 1 ≤ self.new.control.control.track.entered }
    {
        self.enter_event(slot.0, out)
    }

    /// Fixes the PDU that is sent next where the last one is acknowledged, and whether a further
    /// one waits after it, or after the last one, where that is sent again. A control PDU that may
    /// be sent goes before data, and is made as it is sent; else it is the next piece of at most the
    /// effective length, or an empty PDU. Data goes in phase Clear or Secure alone, and none once the
    /// host has ended the link (Core 5.2, volume 6 part B, section 5.1.3).
    pub fn ready<const T: usize>(&mut self, tx: &TxBank<T>)
        requires entered { 1 ≤ self.old.control.control.track.entered }
        requires tied { IsTied self.old tx.now }
        ensures knows { (setup : Setup) (past : List Step) → Knows setup self.old past
            → HoldsData setup.link.handle tx.now (facts_of setup past).outgoing
            → Knows setup self.new (past ++ PduFixed ∷ []) }
        ensures holds { (setup : Setup) (past : List Step)
            → HoldsData setup.link.handle tx.now (facts_of setup past).outgoing
            → HoldsData setup.link.handle tx.now (facts_of setup (past ++ PduFixed ∷ [])).outgoing }
        ensures tied { IsTied self.new tx.now }
        ensures handle { self.new.setup ≡ self.old.setup }
        ensures last_good { self.new.last_good ≡ self.old.last_good }
        ensures entered { 1 ≤ self.new.control.control.track.entered }
    {
        self.fix(tx);
    }

    /// The packet that it sends in this slot: octets in the order of the air, without preamble. It
    /// carries the last PDU again until that is acknowledged, and then the fixed one, which is
    /// noted where it is not empty. A piece in that is out in the bank; a control PDU in that is
    /// made here and leaves the queue. The payload is sealed as a PDU is first sent, where the phase
    /// says so, and is sent again as it is (Core 5.2, volume 6 part B, section 4.5.9, and part E,
    /// section 2).
    #[tactic(auto, using(crate::proofs::Tying::gone_tied))]
    pub fn to_send<const T: usize>(
        &mut self,
        slot: SlotNo,
        tx: &mut TxBank<T>,
        out: &mut Outbox,
    ) -> ArrayVec<u8, AIR_PACKET_OCTETS>
        requires entered { 1 ≤ self.old.control.control.track.entered }
        requires tied { IsTied self.old tx.old }
        requires slot { slot.0 < 2 ^ 32 }
        requires room { array_vec_len out.old ≤ 59 }
        ensures goes { (setup : Setup) (past : List Step) → Knows setup self.old past
            → Goes setup self.new past (PacketSent slot.0) out.old.items out.new.items }
        ensures few { array_vec_len out.new ≤ array_vec_len out.old + 5 }
        ensures packet { (setup : Setup) (past : List Step) → Knows setup self.old past
            → result.items ≡ packet_sent setup (facts_of setup past) }
        ensures holds { (setup : Setup) (past : List Step) → Knows setup self.old past
            → HoldsData setup.link.handle tx.old (facts_of setup past).outgoing
            → HoldsData setup.link.handle tx.new
            (facts_of setup (past ++ PacketSent slot.0 ∷ [])).outgoing }
        ensures tied { IsTied self.new tx.new }
        ensures others { LeavesOthers self.old.setup.link.handle tx.old tx.new }
        ensures handle { self.new.setup ≡ self.old.setup }
        ensures last_good { self.new.last_good ≡ self.old.last_good }
        ensures entered { 1 ≤ self.new.control.control.track.entered }
    {
        self.go(slot.0);
        let more = self.more_out();
        self.send(slot.0, more, tx, out);
        self.packet_out(more)
    }

    /// Whether the host may ask for a procedure of this kind: it is neither wanted nor running
    /// here, and no procedure of this end ended the link.
    pub fn may_ask(&self, kind: Kind) -> bool
        ensures { (setup : Setup) (past : List Step) → Knows setup self.now past
            → result ≡ may_ask kind (held_of (facts_of setup past).control) }
    {
        self.control.may_ask(kind)
    }

    /// The host asks for a procedure, with values in their ranges (Core 5.2, volume 6 part B,
    /// section 5.1). It begins as an event is entered. A channel map that the link is to have
    /// already changes nothing.
    pub fn ask(&mut self, ask: Ask)
        requires in_range { IsAsk ask }
        ensures knows { (setup : Setup) (past : List Step) → Knows setup self.old past
            → Knows setup self.new (past ++ ProcedureAsked ask ∷ []) }
        ensures holds { (setup : Setup) (past : List Step) (bank : Bank)
            → HoldsData setup.link.handle bank (facts_of setup past).outgoing
            → HoldsData setup.link.handle bank
            (facts_of setup (past ++ ProcedureAsked ask ∷ [])).outgoing }
        ensures tied { (bank : Bank) → IsTied self.old bank → IsTied self.new bank }
        ensures handle { self.new.setup ≡ self.old.setup }
        ensures last_good { self.new.last_good ≡ self.old.last_good }
        ensures entered { 1 ≤ self.old.control.control.track.entered
            → 1 ≤ self.new.control.control.track.entered }
    {
        self.ask_unless_to_come(ask);
    }

    /// Whether a request of the peripheral waits for the host's answer (Core 5.2, volume 6 part B,
    /// section 5.1.7).
    pub fn awaits_host(&self) -> bool
        ensures { (setup : Setup) (past : List Step) → Knows setup self.now past
            → result ≡ awaits_host (held_of (facts_of setup past).control) }
    {
        self.control.awaits_host()
    }

    /// The host answers a request of the peripheral: it grants it with the values of an update, or
    /// refuses it with an error (Core 5.2, volume 6 part B, section 5.1.7). Nothing happens where
    /// no request waits, or the answer grants it by something else.
    pub fn host_answer(&mut self, answer: Result<Ask, ErrCode>)
        requires in_range { ForOk answer IsAsk }
        ensures knows { (setup : Setup) (past : List Step) → Knows setup self.old past
            → Knows setup self.new (past ++ RequestAnswered answer ∷ []) }
        ensures holds { (setup : Setup) (past : List Step) (bank : Bank)
            → HoldsData setup.link.handle bank (facts_of setup past).outgoing
            → HoldsData setup.link.handle bank
            (facts_of setup (past ++ RequestAnswered answer ∷ [])).outgoing }
        ensures tied { (bank : Bank) → IsTied self.old bank → IsTied self.new bank }
        ensures handle { self.new.setup ≡ self.old.setup }
        ensures last_good { self.new.last_good ≡ self.old.last_good }
        ensures entered { 1 ≤ self.old.control.control.track.entered
            → 1 ≤ self.new.control.control.track.entered }
    {
        self.answer_request(answer);
    }

    /// Whether the host of a peripheral was asked for a key and has not answered, and the link is
    /// not to end (Core 5.2, volume 6 part B, section 5.1.3.1).
    pub fn awaits_key(&self) -> bool
        ensures { (setup : Setup) (past : List Step) → Knows setup self.now past
            → result ≡ is_key_awaited (facts_of setup past) }
    {
        self.control.awaits_key()
    }

    /// The host of a peripheral answers in this slot that it has this long term key, most
    /// significant octet first, or none (Core 5.2, volume 6 part B, section 5.1.3.1). Without a key
    /// the start is refused; after a pause the link ends, at the latest as the supervision timeout
    /// from this slot on is over (section 5.1.3.2). Nothing happens where no key is asked for.
    pub fn key(&mut self, ltk: Option<[u8; 16]>, slot: SlotNo)
        requires slot { slot.0 ≤ 2 ^ 32 }
        ensures knows { (setup : Setup) (past : List Step) → Knows setup self.old past
            → Knows setup self.new (past ++ KeyAnswered ltk slot.0 ∷ []) }
        ensures holds { (setup : Setup) (past : List Step) (bank : Bank)
            → HoldsData setup.link.handle bank (facts_of setup past).outgoing
            → HoldsData setup.link.handle bank
            (facts_of setup (past ++ KeyAnswered ltk slot.0 ∷ [])).outgoing }
        ensures tied { (bank : Bank) → IsTied self.old bank → IsTied self.new bank }
        ensures handle { self.new.setup ≡ self.old.setup }
        ensures last_good { self.new.last_good ≡ self.old.last_good }
        ensures entered { 1 ≤ self.old.control.control.track.entered
            → 1 ≤ self.new.control.control.track.entered }
    {
        self.answer_key(ltk, slot.0);
    }

    /// The words with which a peripheral would answer LL_ENC_REQ in the next packet that it hears:
    /// its halves of the session key diversifier and of the initialization vector (Core 5.2, volume
    /// 6 part B, section 5.1.3.1).
    pub fn enc_words(&mut self, skd_s: u64, iv_s: u32)
        ensures knows { (setup : Setup) (past : List Step) → Knows setup self.old past
            → Knows setup self.new (past ++ WordsGiven skd_s iv_s ∷ []) }
        ensures holds { (setup : Setup) (past : List Step) (bank : Bank)
            → HoldsData setup.link.handle bank (facts_of setup past).outgoing
            → HoldsData setup.link.handle bank
            (facts_of setup (past ++ WordsGiven skd_s iv_s ∷ [])).outgoing }
        ensures tied { (bank : Bank) → IsTied self.old bank → IsTied self.new bank }
        ensures handle { self.new.setup ≡ self.old.setup }
        ensures last_good { self.new.last_good ≡ self.old.last_good }
        ensures entered { 1 ≤ self.old.control.control.track.entered
            → 1 ≤ self.new.control.control.track.entered }
    {
        self.take_words(skd_s, iv_s);
    }

    /// The host ends the link in this slot, for this reason: LL_TERMINATE_IND is queued, unless the
    /// link is to end already, and no data goes any more (Core 5.2, volume 6 part B, section
    /// 5.1.6).
    pub fn end(&mut self, reason: ErrCode, slot: SlotNo)
        requires slot { slot.0 ≤ 2 ^ 32 }
        ensures knows { (setup : Setup) (past : List Step) → Knows setup self.old past
            → Knows setup self.new (past ++ Disconnected reason slot.0 ∷ []) }
        ensures holds { (setup : Setup) (past : List Step) (bank : Bank)
            → HoldsData setup.link.handle bank (facts_of setup past).outgoing
            → HoldsData setup.link.handle bank
            (facts_of setup (past ++ Disconnected reason slot.0 ∷ [])).outgoing }
        ensures tied { (bank : Bank) → IsTied self.old bank → IsTied self.new bank }
        ensures handle { self.new.setup ≡ self.old.setup }
        ensures last_good { self.new.last_good ≡ self.old.last_good }
        ensures entered { 1 ≤ self.old.control.control.track.entered
            → 1 ≤ self.new.control.control.track.entered }
    {
        self.disconnect(reason, slot.0);
    }

    /// What it makes of octets on its channel. They are in the order of the air, without preamble.
    pub fn judge(&self, octets: &[u8]) -> Verdict
        ensures { (setup : Setup) (past : List Step) → Knows setup self.now past
            → result ≡ verdict_of setup (facts_of setup past) octets.now }
    {
        self.verdict(octets)
    }

    /// Takes octets on its channel in this slot. A good packet changes first what it acknowledges,
    /// then the control PDU with which a peripheral answers counts as sent, and then its PDU is
    /// looked at. New data is kept for the host where there is room; without room it is not
    /// accepted. A new PDU that is not empty is opened, and noted as it is accepted, and the
    /// procedures of this end take it where it is a control PDU. After its LL_TERMINATE_IND is
    /// acknowledged an end takes nothing more. A packet whose integrity code is wrong ends the link
    /// and does nothing else (Core 5.2, volume 6 part B, section 5.1.3.1); any other octets change
    /// nothing.
    pub fn heard<const T: usize, const R: usize>(
        &mut self,
        octets: &[u8],
        slot: SlotNo,
        tx: &mut TxBank<T>,
        rx: &mut RxBank<R>,
        out: &mut Outbox,
    ) -> LinkStep
        requires entered { 1 ≤ self.old.control.control.track.entered }
        requires tied { IsTied self.old tx.old }
        requires counts { credits_of tx.old self.old.setup.link.handle < 65535 }
        requires before { IsBefore self.old slot.0 }
        requires slot { slot.0 < 2 ^ 32 }
        requires room { array_vec_len out.old ≤ 59 }
        ensures goes { (setup : Setup) (past : List Step) → Knows setup self.old past
            → Goes setup self.new past
            (PacketReceived slot.0 octets.now (nat_lt (length rx.old) R))
            out.old.items out.new.items }
        ensures few { array_vec_len out.new ≤ array_vec_len out.old + 5 }
        ensures reply { (setup : Setup) (past : List Step) → Knows setup self.old past
            → result.reply ≡ replies_of setup (facts_of setup past) slot.0 octets.now
            (nat_lt (length rx.old) R) }
        ensures effect { (setup : Setup) (past : List Step) → Knows setup self.old past
            → result.effect ≡ effect_of setup (facts_of setup past) slot.0 octets.now
            (nat_lt (length rx.old) R) }
        ensures payloads { HasPayloadLengths result.effect }
        ensures refused { (setup : Setup) (past : List Step) → Knows setup self.old past
            → result.refused ≡ (given_of setup (facts_of setup past) slot.0 octets.now
            (nat_lt (length rx.old) R)).refused }
        ensures done { (setup : Setup) (past : List Step) → Knows setup self.old past
            → result.done ≡ (given_of setup (facts_of setup past) slot.0 octets.now
            (nat_lt (length rx.old) R)).done }
        ensures acked { (setup : Setup) (past : List Step) → Knows setup self.old past
            → result.acked ≡ acked_of setup (facts_of setup past) octets.now }
        ensures kept_effect { (setup : Setup) (past : List Step) → Knows setup self.old past
            → result.kept_effect ≡ kept_effect_of setup (facts_of setup past) slot.0 octets.now
            (nat_lt (length rx.old) R) }
        ensures kept_payloads { HasPayloadLengths result.kept_effect }
        ensures kept_done { (setup : Setup) (past : List Step) → Knows setup self.old past
            → result.kept_done ≡ (kept_given_of setup (facts_of setup past) slot.0 octets.now
            (nat_lt (length rx.old) R)).done }
        ensures draws { (setup : Setup) (past : List Step) → Knows setup self.old past
            → result.draws ≡ draws_of setup (facts_of setup past) slot.0 octets.now
            (nat_lt (length rx.old) R) }
        ensures kept { (setup : Setup) (past : List Step) → Knows setup self.old past
            → rx.new ≡ rx.old ++ kept_of setup (facts_of setup past) slot.0 octets.now
            (nat_lt (length rx.old) R) }
        ensures holds { (setup : Setup) (past : List Step) → Knows setup self.old past
            → HoldsData setup.link.handle tx.old (facts_of setup past).outgoing
            → HoldsData setup.link.handle tx.new (facts_of setup
            (past ++ PacketReceived slot.0 octets.now (nat_lt (length rx.old) R) ∷ [])).outgoing }
        ensures tied { IsTied self.new tx.new }
        ensures others { LeavesOthers self.old.setup.link.handle tx.old tx.new }
        ensures handle { self.new.setup ≡ self.old.setup }
        ensures last_good { IsBefore self.new (slot.0 + 1) }
        ensures entered { 1 ≤ self.new.control.control.track.entered }
    {
        let lengths = self.lengths;
        let got = self.read(octets, slot.0, rx);
        let is_good = got.is_some();
        let heard = self.hear(got, slot.0, tx, rx, out);
        link_step(self.replies(is_good), lengths, &heard)
    }
}

/// What comes of a packet, where the host knows these lengths.
fn link_step(reply: bool, lengths: KnownLengths, heard: &Hearing) -> LinkStep
    requires payloads { HasPayloadLengths heard.now.given.given.taken.effect }
    requires kept_payloads { HasPayloadLengths heard.now.given.given.kept.effect }
    ensures reply { result.reply ≡ reply }
    ensures effect { result.effect
        ≡ effect_unless_known lengths heard.now.given.given.taken.effect }
    ensures payloads { HasPayloadLengths result.effect }
    ensures refused { result.refused ≡ heard.now.given.given.taken.refused }
    ensures done { result.done ≡ heard.now.given.given.taken.done }
    ensures acked { result.acked ≡ heard.now.acked }
    ensures kept_effect { result.kept_effect
        ≡ effect_unless_known lengths heard.now.given.given.kept.effect }
    ensures kept_payloads { HasPayloadLengths result.kept_effect }
    ensures kept_done { result.kept_done ≡ heard.now.given.given.kept.done }
    ensures draws { result.draws ≡ heard.now.given.draws }
{
    LinkStep {
        reply,
        effect: effect_unless_known(lengths, heard.given.given.taken.effect),
        refused: heard.given.given.taken.refused,
        done: heard.given.given.taken.done,
        acked: heard.acked,
        kept_effect: effect_unless_known(lengths, heard.given.given.kept.effect),
        kept_done: heard.given.given.kept.done,
        draws: heard.given.draws,
    }
}

/// What the layer above does with a control PDU that was taken: lengths that the host knows already
/// are nothing new.
fn effect_unless_known(lengths: KnownLengths, effect: Effect) -> Effect
    requires { HasPayloadLengths effect }
    ensures value { result ≡ effect_unless_known lengths effect }
    ensures payloads { HasPayloadLengths result }
{
    match effect {
        Effect::Lengths { rx, tx } if rx == lengths.reported_rx && tx == lengths.reported_tx => {
            Effect::Nothing
        }
        _ => effect,
    }
}
