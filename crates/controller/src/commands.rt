//! Commands of the host: their answers, and what they change.
ghost use Rattle.std.specs.Prelude.{◌≡◌, ◌≤◌, ◌<◌, ◌+◌, ◌%◌, ◌^◌, ◌++◌, ℕ, true, List, [], ◌∷◌};
ghost use Rattle.arrayvec.specs.ArrayVec.{array_vec_len};
ghost use Rattle.acl_banks.specs.declared.pieces.Piece.{Piece};
ghost use Rattle.hci_cmd.specs.Command.{command_of};
ghost use Rattle.hci_cmd.specs.declared.command.CmdRead.TheVariants.{Known};
ghost use Rattle.host_view.specs.OnLinks.{asks_links};
ghost use Rattle.host_view.specs.Status.{status_of};
ghost use Rattle.controller_model.specs.link_commands.LinksCommanded.{events_commanded_on};
ghost use Rattle.open_links.specs.Knowing.{Knows as KnowsLinks};
ghost use Rattle.open_links.specs.OpenLinks.{Links};
ghost use Rattle.controller_model.specs.Answers.{answer_with};
ghost use Rattle.controller_model.specs.Commands.{events_caused, facts_accepted, facts_asking};
ghost use Rattle.controller_model.specs.Commands.{facts_commanded, moment_of};
ghost use Rattle.controller_model.specs.Commands.{links_after, notes_before, notes_commanded};
ghost use Rattle.controller_model.specs.Commands.{received_after};
ghost use Rattle.controller_model.specs.Events.{notes_of_events};
ghost use Rattle.controller_model.specs.Facts.{Setup, Facts};
ghost use Rattle.controller_model.specs.Side.{facts_fed, notes_fed};
ghost use Rattle.controller.specs.Framed.{IsFramed};
ghost use Rattle.controller.specs.Knowing.{IsAt};
ghost use Rattle.controller.specs.Order.{Stays};
ghost use Rattle.controller.specs.Steps.{held_accepted, links_notes, place_after, place_drawn};

use crate::controllers::Controller;
use ble_base::{ErrCode, Outbox, SlotNo};
use controller_model::{Moment, accepted_commands_ask_in_range};
use h4_frames::{Fed, HostPacket};
use hci_cmd::{CmdRead, Command, read};
use hci_evt::Event;
use host_notes::{
    ask_links, fields_with, note_at_once, note_shuts, refused_answer, short_answer, status_answer,
    tell, tell_accepted, tell_at_once, tell_caused,
};
use host_view::status;

/// The code of the Hardware Error that reports a loss of synchronisation (our choice).
const LOST_SYNC: u8 = 0x01;

/// The place of the random word after this one: the words are used in order, and then again from the
/// first.
pub(crate) fn next_place(count: usize, place: usize) -> usize
    requires { place < count }
    ensures value { result ≡ (place + 1) % count }
    ensures within { result < count }
{
    (place + 1) % count
}

/// The place of the random word that is drawn next where two are drawn, or none.
pub(crate) fn place_drawn(draws: bool, count: usize, place: usize) -> usize
    requires { place < count }
    ensures value { result ≡ place_drawn draws count place }
    ensures within { result < count }
{
    if draws {
        next_place(count, next_place(count, place))
    } else {
        place
    }
}

/// The place of the random word that is drawn next after an accepted command, which may draw one or
/// two.
fn place_after(count: usize, command: &Command, place: usize) -> usize
    requires { place < count }
    ensures value { result ≡ place_after count command.now place }
    ensures within { result < count }
{
    match command {
        Command::LeRand => next_place(count, place),
        Command::LeEnableEncryption { .. } => place_drawn(true, count, place),
        _ => place,
    }
}

impl<const L: usize, const T: usize, const R: usize> Controller<L, T, R> {
    /// Carries out an accepted command, but for its links.
    fn accept(&mut self, command: &Command)
        requires { status_of self.old.view command.now ≡ 0 }
        ensures { self.new ≡ held_accepted self.old command.now }
    {
        let slot = SlotNo(self.turn.begun);
        self.activities
            .accept(command, &self.public, &self.view, slot);
        self.next_word = place_after(self.words.len(), command, self.next_word);
        self.view.command(command);
    }

    /// Shuts the links that an accepted command shuts: a Reset shuts all.
    fn accept_links(&mut self, command: &Command, out: &mut Outbox)
        requires { array_vec_len out.old ≤ 50 }
        ensures rest { self.new ≡ record self.old { links = self.new.links } }
        ensures links { (links : Links) (received : List (ℕ × Piece))
            → KnowsLinks self.old.links links received → KnowsLinks self.new.links
            (links_after command.now links) (received_after command.now received) }
        ensures notes { (links : Links) (received : List (ℕ × Piece))
            → KnowsLinks self.old.links links received
            → out.new.items ≡ out.old.items ++ links_notes command.now links }
        ensures stays { Stays self.old self.new }
        ensures few { array_vec_len out.new ≤ array_vec_len out.old + 6 }
    {
        match command {
            Command::Reset => {
                let handles = self.links.shut_all();
                note_shuts(handles.as_slice(), out);
            }
            _ => {}
        }
    }

    /// Carries out an accepted command, and notes its answer and what it causes.
    fn take_accepted(&mut self, opcode: u16, command: &Command, out: &mut Outbox)
        requires status { status_of self.old.view command.now ≡ 0 }
        requires room { array_vec_len out.old ≤ 50 }
        ensures at { (has : Setup) (facts : Facts) → IsAt has self.old facts
            → IsAt has self.new (facts_accepted has facts command.now) }
        ensures notes { (has : Setup) (facts : Facts) → IsAt has self.old facts
            → out.new.items ≡ out.old.items ++ notes_before facts command.now
            ++ notes_of_events facts.view (answer_with has facts opcode command.now 0)
            ++ notes_of_events facts.view (events_caused facts command.now) }
        ensures stays { Stays self.old self.new }
        ensures few { array_vec_len out.new ≤ array_vec_len out.old + 8 }
    {
        let mut fields = fields_with(ErrCode::SUCCESS);
        self.put_returned(command, &mut fields);
        self.accept_links(command, out);
        tell_accepted(&self.view, opcode, command, fields, out);
        tell_caused(&self.view, command, out);
        self.accept(command);
    }

    /// The moment at which a command is accepted now.
    pub(crate) fn moment(&self) -> Moment
        ensures value { (has : Setup) (facts : Facts) → IsAt has self.now facts
            → result ≡ moment_of has facts }
        ensures slot { result.slot ≤ 2 ^ 32 }
    {
        let second = next_place(self.words.len(), self.next_word);
        Moment {
            slot: self.turn.begun,
            skd_m: self.random_word(),
            iv_m: (self.words[second] % (1 << 32)) as u32,
        }
    }

    /// Carries out an accepted command that asks something of links, and notes its answer and what
    /// is answered at once.
    fn take_asking(&mut self, opcode: u16, command: &Command, out: &mut Outbox)
        requires status { status_of self.old.view command.now ≡ 0 }
        requires asks { asks_links self.old.view command.now ≡ true }
        requires room { array_vec_len out.old ≤ 50 }
        ensures at { (has : Setup) (facts : Facts) → IsAt has self.old facts → IsAt has self.new
            (facts_asking true has facts command.now (facts_accepted has facts command.now)) }
        ensures notes { (has : Setup) (facts : Facts) → IsAt has self.old facts
            → out.new.items ≡ out.old.items ++ notes_before facts command.now
            ++ notes_of_events facts.view (answer_with has facts opcode command.now 0)
            ++ notes_of_events facts.view (events_caused facts command.now)
            ++ notes_of_events facts.view (events_commanded_on command.now facts.links) }
        ensures stays { Stays self.old self.new }
    {
        accepted_commands_ask_in_range();
        let moment = self.moment();
        self.take_accepted(opcode, command, out);
        tell_at_once(&self.view, &self.links, command, out);
        note_at_once(&mut self.view, &self.links, command);
        ask_links(&mut self.links, command, moment);
    }

    /// Takes an accepted command, which may ask something of links.
    fn take_answered(&mut self, opcode: u16, command: &Command, out: &mut Outbox)
        requires status { status_of self.old.view command.now ≡ 0 }
        requires room { array_vec_len out.old ≤ 50 }
        ensures at { (has : Setup) (facts : Facts) → IsAt has self.old facts
            → IsAt has self.new (facts_commanded has facts (Known command.now)) }
        ensures notes { (has : Setup) (facts : Facts) → IsAt has self.old facts
            → out.new.items
            ≡ out.old.items ++ notes_commanded has facts opcode (Known command.now) }
        ensures stays { Stays self.old self.new }
    {
        if self.view.asks_links(command) {
            self.take_asking(opcode, command, out);
        } else {
            self.take_accepted(opcode, command, out);
        }
    }

    /// Takes a command: answers it, and carries it out where it is accepted.
    fn take_known(&mut self, opcode: u16, command: &Command, out: &mut Outbox)
        requires room { array_vec_len out.old ≤ 50 }
        ensures at { (has : Setup) (facts : Facts) → IsAt has self.old facts
            → IsAt has self.new (facts_commanded has facts (Known command.now)) }
        ensures notes { (has : Setup) (facts : Facts) → IsAt has self.old facts
            → out.new.items
            ≡ out.old.items ++ notes_commanded has facts opcode (Known command.now) }
        ensures stays { Stays self.old self.new }
    {
        let status = status(&self.view, command);
        if status == ErrCode::SUCCESS {
            self.take_answered(opcode, command, out);
        } else {
            tell(&self.view, &refused_answer(opcode, command, status), out);
        }
    }

    /// Takes an opcode and the octets of its parameters.
    fn take_command(&mut self, opcode: u16, parameters: &[u8], out: &mut Outbox)
        requires room { array_vec_len out.old ≤ 50 }
        ensures at { (has : Setup) (facts : Facts) → IsAt has self.old facts
            → IsAt has self.new (facts_commanded has facts (command_of opcode parameters.now)) }
        ensures notes { (has : Setup) (facts : Facts) → IsAt has self.old facts
            → out.new.items
            ≡ out.old.items ++ notes_commanded has facts opcode (command_of opcode parameters.now) }
        ensures stays { Stays self.old self.new }
    {
        let command = read(opcode, parameters);
        match &command {
            CmdRead::Known(command) => self.take_known(opcode, command, out),
            CmdRead::UnknownOpcode => {
                let answer = status_answer(ErrCode::UNKNOWN_HCI_COMMAND, opcode);
                tell(&self.view, &answer, out);
            }
            CmdRead::BadLength => tell(&self.view, &short_answer(opcode), out),
        }
    }

    /// Takes what an octet of the host completed.
    pub(crate) fn take(&mut self, fed: &Fed, out: &mut Outbox)
        requires room { array_vec_len out.old ≤ 50 }
        ensures at { (has : Setup) (facts : Facts) → IsAt has self.old facts → IsFramed fed.now
            → IsAt has self.new (facts_fed has facts fed.now) }
        ensures notes { (has : Setup) (facts : Facts) → IsAt has self.old facts
            → IsFramed fed.now → out.new.items ≡ out.old.items ++ notes_fed has facts fed.now }
        ensures stays { Stays self.old self.new }
    {
        match fed {
            Fed::More => {}
            Fed::LostSync => {
                let event = Event::HardwareError { code: LOST_SYNC };
                tell(&self.view, &event, out);
            }
            Fed::Packet(HostPacket::Command { opcode, body }) => {
                self.take_command(*opcode, body.as_slice(), out);
            }
            Fed::Packet(
                HostPacket::Acl {
                    handle,
                    start,
                    length,
                    body,
                },
            ) => self.take_data(*handle, *start, *length, body.as_slice(), out),
        }
    }
}
