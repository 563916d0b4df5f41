//! A phase of a turn: what is made of a packet that was heard, or of none.
ghost use Rattle.std.specs.Prelude.{◌≡◌, ◌≤◌, ◌<◌, ◌+◌, ◌^◌, ℕ, false, List, IfSome};
ghost use Rattle.std.specs.Option.{option_and_then};
ghost use Rattle.arrayvec.specs.ArrayVec.{array_vec_len};
ghost use Rattle.acl_banks.specs.declared.pieces.Piece.{Piece};
ghost use Rattle.ble_base.specs.declared.notes.Note.{Note};
ghost use Rattle.adv_pdu.specs.Pdu.{sender_of};
ghost use Rattle.adv_pdu.specs.Ranges.{IsInRange};
ghost use Rattle.scan_init.specs.Reports.{does_ask};
ghost use Rattle.open_links.specs.Knowing.{Knows as KnowsLinks};
ghost use Rattle.open_links.specs.OpenLinks.{Links, free_from, link_at};
ghost use Rattle.controller_model.specs.Entering.{HasEntered, IsInEvent};
ghost use Rattle.controller_model.specs.Facts.{Setup, Facts};
ghost use Rattle.scan_init.specs.Access.{next_access_of as next_access_from};
ghost use Rattle.controller_model.specs.Packets.{pdu_heard};
ghost use Rattle.controller_model.specs.Heard.{advertiser_answers, advertiser_heard};
ghost use Rattle.controller_model.specs.Heard.{answers_by_connecting, asks_if, connects, if_pdu, taken_if};
ghost use Rattle.controller_model.specs.Heard.{access_found, fields_sent, heard, initiator_heard};
ghost use Rattle.controller_model.specs.Heard.{facts_with_words, is_new_between, link_heard, link_to, reply_if};
ghost use Rattle.controller_model.specs.Heard.{scanner_heard, taken_under, unheard};
ghost use Rattle.activities.specs.Fitting.{IsAnswerable};
ghost use Rattle.controller.specs.Fitting.{CanDo, CanFollow, IsOpenable};
ghost use Rattle.controller.specs.Knowing.{IsAt, Passes, PassesOn};
ghost use Rattle.controller.specs.Order.{HasNotReceived, ReceivesOnce, Stays, listens_on_link};
ghost use Rattle.controller.specs.Steps.{held_connecting};

use crate::commands::{next_place, place_drawn};
use crate::controllers::Controller;
use activities::{advertiser_answer, read_pdu};
use adv_pdu::{AdvPdu, ConnectFields};
use advertise::AdvAnswer;
use ble_base::{Address, Outbox, Role, SlotNo};
use controller_model::Doing;
use host_notes::{event_reported, follow_from, hear_on_link, tell_if};
use link_model::LinkSetup;
use scan_init::{Initiator, ScanAnswer, next_access};

/// Whether the answer of a scanner has it send a SCAN_REQ.
fn does_ask(answer: ScanAnswer) -> bool
    ensures { result ≡ does_ask answer }
{
    matches!(answer, ScanAnswer::Ask | ScanAnswer::ReportAndAsk)
}

/// What an active scanner does after an advertisement: it asks, or not.
fn asks_if(asks: bool, channel: u8, pdu: &AdvPdu) -> Doing
    requires { channel < 40 }
    ensures value { result ≡ asks_if asks channel pdu.now }
    ensures can { (links : ℕ) → CanFollow links result }
{
    if asks {
        Doing::Requests {
            channel,
            advertiser: pdu.sender(),
        }
    } else {
        Doing::Rests
    }
}

/// What follows octets that reached the link under a handle: it answers them, or does not.
fn reply_if(replies: bool, handle: u16) -> Doing
    ensures value { result ≡ reply_if replies handle }
    ensures can { (links : ℕ) → CanFollow links result }
{
    if replies {
        Doing::PeripheralSends { handle }
    } else {
        Doing::Rests
    }
}

/// The access address of the link after the next one, and where to search for the one after that.
fn access_after(cursor: u32, next: Option<(u32, u64)>) -> Option<(u32, u64)>
    ensures { result ≡ option_and_then (λ found. next_access_from cursor found.1) next }
{
    let (_, travelled) = next?;
    next_access(cursor, travelled)
}

/// The access address of the next new link, if there is one.
fn access_found(next: Option<(u32, u64)>) -> Option<u32>
    ensures { result ≡ access_found next }
{
    let (access, _) = next?;
    Some(access)
}

impl<const L: usize, const T: usize, const R: usize> Controller<L, T, R> {
    /// Whether it has no link between these two addresses.
    fn is_new_between(&self, own: &Address, peer: &Address) -> bool
        ensures { (links : Links) (received : List (ℕ × Piece))
            → KnowsLinks self.now.links links received
            → result ≡ is_new_between own.now peer.now links }
    {
        !self.links.has_link_between(own, peer)
    }

    /// Opens a link that a CONNECT_IND asks for, where there is room for it.
    fn take_link(
        &mut self,
        own: Address,
        pdu: &AdvPdu,
        fields: ConnectFields,
        out: &mut Outbox,
    ) -> Doing
        requires range { IsInRange fields }
        requires crc_init { fields.crc_init < 2 ^ 24 }
        requires sca { fields.sca < 8 }
        requires room { array_vec_len out.old ≤ 50 }
        ensures passes { (has : Setup) (facts : Facts) → IsAt has self.old facts
            → Passes has self.new out.old.items out.new.items result
            (taken_under (free_from 0 facts.links) own pdu.now fields facts) }
        ensures few { array_vec_len out.new ≤ array_vec_len out.old + 5 }
        ensures can { CanFollow L result }
        ensures stays { Stays self.old self.new }
    {
        if let Some(handle) = self.links.free_handle() {
            let link = LinkSetup {
                role: Role::Peripheral,
                handle,
                own,
                peer: pdu.sender(),
                fields,
                two: pdu.ch_sel(),
                max_rx: self.view.most_received(),
            };
            self.open(link, out);
        }
        Doing::Rests
    }

    /// Opens a link that a CONNECT_IND asks for, if it is a new one.
    fn take_if(
        &mut self,
        is_new: bool,
        own: Address,
        pdu: &AdvPdu,
        fields: ConnectFields,
        out: &mut Outbox,
    ) -> Doing
        requires range { IsInRange fields }
        requires crc_init { fields.crc_init < 2 ^ 24 }
        requires sca { fields.sca < 8 }
        requires room { array_vec_len out.old ≤ 50 }
        ensures passes { (has : Setup) (facts : Facts) → IsAt has self.old facts
            → Passes has self.new out.old.items out.new.items result
            (taken_if is_new own pdu.now fields facts) }
        ensures few { array_vec_len out.new ≤ array_vec_len out.old + 5 }
        ensures can { CanFollow L result }
        ensures stays { Stays self.old self.new }
    {
        if is_new {
            self.take_link(own, pdu, fields, out)
        } else {
            Doing::Rests
        }
    }

    /// Opens a link that a CONNECT_IND asks for, unless it has one between these two addresses.
    fn take_new_link(
        &mut self,
        own: Address,
        pdu: &AdvPdu,
        fields: ConnectFields,
        out: &mut Outbox,
    ) -> Doing
        requires range { IsInRange fields }
        requires crc_init { fields.crc_init < 2 ^ 24 }
        requires sca { fields.sca < 8 }
        requires room { array_vec_len out.old ≤ 50 }
        ensures passes { (has : Setup) (facts : Facts) → IsAt has self.old facts
            → Passes has self.new out.old.items out.new.items result
            (taken_if (is_new_between own (sender_of pdu.now) facts.links) own pdu.now fields
            facts) }
        ensures few { array_vec_len out.new ≤ array_vec_len out.old + 5 }
        ensures can { CanFollow L result }
        ensures stays { Stays self.old self.new }
    {
        let is_new = self.is_new_between(&own, &pdu.sender());
        self.take_if(is_new, own, pdu, fields, out)
    }

    /// What an advertiser with this own address does about a request, by its answer to it.
    fn answer_request(
        &mut self,
        answer: AdvAnswer,
        channel: u8,
        own: Address,
        pdu: &AdvPdu,
        out: &mut Outbox,
    ) -> Doing
        requires channel { channel < 40 }
        requires fits { IsAnswerable answer }
        requires room { array_vec_len out.old ≤ 50 }
        ensures passes { (has : Setup) (facts : Facts) → IsAt has self.old facts
            → Passes has self.new out.old.items out.new.items result
            (advertiser_answers answer channel own pdu.now facts) }
        ensures few { array_vec_len out.new ≤ array_vec_len out.old + 5 }
        ensures can { CanFollow L result }
        ensures stays { Stays self.old self.new }
    {
        match answer {
            AdvAnswer::Ignore => Doing::Rests,
            AdvAnswer::Respond => Doing::Responds { channel },
            AdvAnswer::Connect(fields) => self.take_new_link(own, pdu, fields, out),
        }
    }

    /// Takes a packet that follows an advertisement on this channel.
    fn hear_request(&mut self, channel: u8, octets: &[u8], out: &mut Outbox) -> Doing
        requires channel { channel < 40 }
        requires room { array_vec_len out.old ≤ 50 }
        ensures passes { (has : Setup) (facts : Facts) → IsAt has self.old facts
            → Passes has self.new out.old.items out.new.items result
            (if_pdu (pdu_heard channel octets.now) facts
            (λ pdu. advertiser_heard facts.advertising.on channel pdu facts)) }
        ensures few { array_vec_len out.new ≤ array_vec_len out.old + 5 }
        ensures can { CanFollow L result }
        ensures stays { Stays self.old self.new }
    {
        let Some(pdu) = read_pdu(channel, octets) else {
            return Doing::Rests;
        };
        let Some(on) = self.activities.advertiser() else {
            return Doing::Rests;
        };
        let own = on.params().own;
        let answer = advertiser_answer(on, &pdu, self.view.accept_list());
        self.answer_request(answer, channel, own, &pdu, out)
    }

    /// Takes a packet that a scanner hears on this channel: it reports, and asks where it may.
    fn hear_advertisement(
        &mut self,
        may_ask: bool,
        channel: u8,
        octets: &[u8],
        out: &mut Outbox,
    ) -> Doing
        requires channel { channel < 40 }
        requires room { array_vec_len out.old ≤ 50 }
        ensures passes { (has : Setup) (facts : Facts) → IsAt has self.old facts
            → Passes has self.new out.old.items out.new.items result
            (if_pdu (pdu_heard channel octets.now) facts
            (λ pdu. scanner_heard facts.scanning.on may_ask channel pdu facts)) }
        ensures few { array_vec_len out.new ≤ array_vec_len out.old + 5 }
        ensures can { CanFollow L result }
        ensures stays { Stays self.old self.new }
    {
        let Some(pdu) = read_pdu(channel, octets) else {
            return Doing::Rests;
        };
        let answer = self
            .activities
            .hear_advertisement(&pdu, self.view.accept_list());
        tell_if(&self.view, &event_reported(answer, &pdu), out);
        asks_if(may_ask && does_ask(answer), channel, &pdu)
    }

    /// Whether an initiator answers a PDU: it is to connect to the sender, and has no link to it.
    fn answers_by_connecting(&self, on: &Initiator, pdu: &AdvPdu) -> bool
        ensures { (has : Setup) (facts : Facts) → IsAt has self.now facts
            → result ≡ answers_by_connecting on.now pdu.now facts }
    {
        on.accepts(pdu, self.view.accept_list())
            && self.is_new_between(&on.params().own, &pdu.sender())
    }

    /// The fields of the CONNECT_IND of an initiator with this access address.
    fn fields_sent(&self, on: &Initiator, access: u32) -> ConnectFields
        ensures value { (has : Setup) (facts : Facts) → IsAt has self.now facts
            → result ≡ fields_sent has on.now access facts }
        ensures crc_init { result.crc_init < 2 ^ 24 }
        ensures sca { result.sca ≡ 0 }
    {
        scan_init::laws::initiators_connect_in_range();
        ConnectFields {
            sca: 0,
            ..on.connect_fields(access, self.random_word(), self.view.map())
        }
    }

    /// The link that an initiator makes with the sender of a PDU. None where it does not answer.
    fn link_to(&self, on: &Initiator, pdu: &AdvPdu) -> Option<LinkSetup>
        ensures value { (has : Setup) (facts : Facts) → IsAt has self.now facts
            → result ≡ link_to has on.now pdu.now facts }
        ensures can { IfSome result (IsOpenable L) }
    {
        if !self.answers_by_connecting(on, pdu) {
            return None;
        }
        let access = access_found(self.next_access)?;
        let handle = self.links.free_handle()?;
        let fields = self.fields_sent(on, access);
        if !fields.is_in_range() {
            return None;
        }
        Some(LinkSetup {
            role: Role::Central,
            handle,
            own: on.params().own,
            peer: pdu.sender(),
            fields,
            two: pdu.ch_sel(),
            max_rx: self.view.most_received(),
        })
    }

    /// Draws a random word, and takes an access address.
    fn take_access(&mut self)
        ensures { self.new ≡ held_connecting self.old }
    {
        self.next_word = next_place(self.words.len(), self.next_word);
        self.next_access = access_after(self.cursor, self.next_access);
        self.view.address_left(self.next_access.is_some());
    }

    /// An initiator makes this link on this channel, if there is one to be made.
    #[tactic(auto, using(crate::proofs::Connecting::connecting_is))]
    fn connect(&mut self, link: Option<LinkSetup>, channel: u8) -> Doing
        requires channel { channel < 40 }
        requires link { IfSome link (IsOpenable L) }
        ensures passes { (has : Setup) (facts : Facts) (noted : List Note) → IsAt has self.old facts
            → Passes has self.new noted noted result (connects link has channel facts) }
        ensures can { CanFollow L result }
        ensures stays { Stays self.old self.new }
    {
        match link {
            None => Doing::Rests,
            Some(link) => {
                self.take_access();
                Doing::Connects { channel, link }
            }
        }
    }

    /// Takes a packet that an initiator hears on this channel.
    fn hear_connectable(&mut self, channel: u8, octets: &[u8]) -> Doing
        requires channel { channel < 40 }
        ensures passes { (has : Setup) (facts : Facts) (noted : List Note) → IsAt has self.old facts
            → Passes has self.new noted noted result (if_pdu (pdu_heard channel octets.now) facts
            (λ pdu. initiator_heard facts.initiator has channel pdu facts)) }
        ensures can { CanFollow L result }
        ensures stays { Stays self.old self.new }
    {
        let Some(pdu) = read_pdu(channel, octets) else {
            return Doing::Rests;
        };
        let Some(on) = self.activities.initiator() else {
            return Doing::Rests;
        };
        let link = self.link_to(on, &pdu);
        self.connect(link, channel)
    }

    /// The link under a handle takes octets, after which the phase is over. The view of the host
    /// follows what is noted. A peripheral may answer the octets.
    fn hear_on_link(&mut self, handle: u16, octets: &[u8], out: &mut Outbox) -> Doing
        requires none { HasNotReceived self.old.between self.old.turn self.old.links }
        requires room { array_vec_len out.old ≤ 50 }
        ensures passes { (has : Setup) (facts : Facts) → IsAt has self.old facts
            → HasEntered (link_at handle facts.links)
            → PassesOn has self.new out.old.items out.new.items result
            (link_heard has handle octets.now facts) }
        ensures can { CanFollow L result }
        ensures few { array_vec_len out.new ≤ array_vec_len out.old + 11 }
        ensures framer { self.new.framer ≡ self.old.framer }
        ensures begun { self.new.turn.begun ≡ self.old.turn.begun }
        ensures between { self.new.between ≡ self.old.between }
    {
        let slot = SlotNo(self.turn.slot);
        let before = out.len();
        let heard = hear_on_link(&self.view, &mut self.links, handle, octets, slot, out);
        follow_from(&mut self.view, out, before);
        self.next_word = place_drawn(heard.draws, self.words.len(), self.next_word);
        self.turn.doing = Doing::Rests;
        reply_if(heard.replies, handle)
    }

    /// The same for a peripheral. Before it hears octets it is given the next two random words, with
    /// which it would answer LL_ENC_REQ.
    fn hear_with_words(&mut self, handle: u16, octets: &[u8], out: &mut Outbox) -> Doing
        requires none { HasNotReceived self.old.between self.old.turn self.old.links }
        requires room { array_vec_len out.old ≤ 50 }
        ensures passes { (has : Setup) (facts : Facts) → IsAt has self.old facts
            → HasEntered (link_at handle facts.links)
            → PassesOn has self.new out.old.items out.new.items result
            (link_heard has handle octets.now (facts_with_words has handle facts)) }
        ensures can { CanFollow L result }
        ensures few { array_vec_len out.new ≤ array_vec_len out.old + 11 }
        ensures framer { self.new.framer ≡ self.old.framer }
        ensures begun { self.new.turn.begun ≡ self.old.turn.begun }
        ensures between { self.new.between ≡ self.old.between }
    {
        let moment = self.moment();
        self.links.enc_words(handle, moment.skd_m, moment.iv_m);
        self.hear_on_link(handle, octets, out)
    }

    /// What follows what was done in a phase in which nothing was heard.
    pub(crate) fn hear_nothing(&mut self, out: &mut Outbox) -> Doing
        requires room { array_vec_len out.old ≤ 50 }
        ensures passes { (has : Setup) (facts : Facts) → IsAt has self.old facts
            → Passes has self.new out.old.items out.new.items result
            (unheard facts.turn.doing facts) }
        ensures few { array_vec_len out.new ≤ array_vec_len out.old + 5 }
        ensures can { CanDo L result }
        ensures once { ReceivesOnce self.new.between self.new.turn self.new.links result }
        ensures stays { Stays self.old self.new }
    {
        match self.turn.doing {
            Doing::Advertises { channel } => Doing::AwaitsRequest { channel },
            Doing::Requests { channel, .. } => Doing::AwaitsResponse { channel },
            Doing::CentralSends { handle } => Doing::CentralListens { handle },
            Doing::Connects { link, .. } => {
                self.open(link, out);
                Doing::Rests
            }
            _ => Doing::Rests,
        }
    }

    /// Takes a packet that was heard in a phase, but on a link. Where it does not listen nothing is
    /// heard.
    fn hear_elsewhere(&mut self, octets: &[u8], out: &mut Outbox) -> Doing
        requires elsewhere { listens_on_link self.old.turn.doing ≡ false }
        requires room { array_vec_len out.old ≤ 50 }
        ensures passes { (has : Setup) (facts : Facts) → IsAt has self.old facts
            → Passes has self.new out.old.items out.new.items result
            (heard has facts.turn.doing octets.now facts) }
        ensures few { array_vec_len out.new ≤ array_vec_len out.old + 5 }
        ensures can { CanDo L result }
        ensures once { ReceivesOnce self.new.between self.new.turn self.new.links result }
        ensures stays { Stays self.old self.new }
    {
        match self.turn.doing {
            Doing::AwaitsRequest { channel } => self.hear_request(channel, octets, out),
            Doing::Scans { channel } => self.hear_advertisement(true, channel, octets, out),
            Doing::AwaitsResponse { channel } => {
                self.hear_advertisement(false, channel, octets, out)
            }
            Doing::Initiates { channel } => self.hear_connectable(channel, octets),
            Doing::CentralListens { .. } | Doing::PeripheralListens { .. } => unreachable!(),
            Doing::Advertises { .. }
            | Doing::Responds { .. }
            | Doing::Requests { .. }
            | Doing::Connects { .. }
            | Doing::CentralSends { .. }
            | Doing::PeripheralSends { .. }
            | Doing::Rests => self.hear_nothing(out),
        }
    }

    /// Takes a packet that was heard in a phase, which is over then.
    pub(crate) fn hear(&mut self, octets: &[u8], out: &mut Outbox) -> Doing
        requires room { array_vec_len out.old ≤ 50 }
        ensures passes { (has : Setup) (facts : Facts) → IsAt has self.old facts
            → IsInEvent facts.turn.doing facts.links
            → PassesOn has self.new out.old.items out.new.items result
            (heard has facts.turn.doing octets.now facts) }
        ensures few { array_vec_len out.new ≤ array_vec_len out.old + 11 }
        ensures can { CanDo L result }
        ensures once { ReceivesOnce self.new.between self.new.turn self.new.links result }
        ensures framer { self.new.framer ≡ self.old.framer }
        ensures begun { self.new.turn.begun ≡ self.old.turn.begun }
        ensures between { self.new.between ≡ self.old.between }
    {
        match self.turn.doing {
            Doing::CentralListens { handle } => self.hear_on_link(handle, octets, out),
            Doing::PeripheralListens { handle } => self.hear_with_words(handle, octets, out),
            _ => {
                let doing = self.hear_elsewhere(octets, out);
                self.rest();
                doing
            }
        }
    }
}
