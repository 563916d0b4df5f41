//! The stages of a framer, and how an octet changes them.

ghost use Rattle.std.specs.Prelude.{◌≡◌, true, false, ℕ, ◌+◌, ◌-◌, ◌<◌, ◌≤◌, List, [], ◌∷◌, ◌++◌, length};
ghost use Rattle.h4_frames.specs.Fits.{FitsStage};
ghost use Rattle.h4_frames.specs.Packets.{word_of, handle_of, is_start};
ghost use Rattle.h4_frames.specs.declared.packet.HostPacket.TheVariants.{Acl};
ghost use Rattle.h4_frames.specs.declared.stage.Stage.TheVariants.{AclHead, CommandHead};
ghost use Rattle.h4_frames.specs.Machine.{step, IsEnd, indicator_step, command_start, acl_start, packet_end, seen_with};

use crate::packet::{Fed, HostPacket};
use crate::part::{AclPart, CommandPart};
use arrayvec::ArrayVec;
use wire_fields::put_octets;

/// The packet indicator of a command (Core 5.2, volume 4 part A, section 2).
const COMMAND_INDICATOR: u8 = 1;

/// The packet indicator of ACL data (volume 4 part A, section 2).
const ACL_INDICATOR: u8 = 2;

/// The octets of an HCI_Reset with its indicator (volume 4 part A, section 2, and part E, section
/// 7.3.2).
static RESET: [u8; 4] = [0x01, 0x03, 0x0C, 0x00];

/// The opcode of HCI_Reset (volume 4 part E, section 7.3.2).
const RESET_OPCODE: u16 = 0x0C03;

/// The number of handles: the flags are above the 12 bits of the handle (volume 4 part E, section
/// 5.4.2).
const HANDLES: u16 = 4096;

/// The packet boundary flag that continues a message (volume 4 part E, section 5.4.2).
const CONTINUATION: u16 = 1;

/// The part of a packet that the next octet belongs to.
#[derive(Drop)]
pub enum Stage {
    /// Between packets.
    Indicator,
    /// In the head of a command, after the indicator.
    CommandHead(ArrayVec<u8, 3>),
    /// In the head of ACL data, after the indicator.
    AclHead(ArrayVec<u8, 4>),
    /// In a command's parameters.
    CommandBody(CommandPart),
    /// In the data of an ACL packet.
    AclBody(AclPart),
    /// In the search for an HCI_Reset, of which this number of octets came last.
    Search(u8),
}

impl Stage {
    /// Takes the next octet.
    pub fn step(&mut self, octet: u8) -> Fed
        requires { FitsStage self.old }
        ensures step { (self.new, result) ≡ step self.old octet }
        ensures fits { FitsStage self.new }
    {
        if self.goes_on(octet) {
            return Fed::More;
        }
        self.ends(octet)
    }

    /// Takes the next octet where more are needed after it. Else nothing changes.
    #[inline]
    pub fn goes_on(&mut self, octet: u8) -> bool
        requires { FitsStage self.old }
        ensures on { result ≡ true → (self.new, Fed.More) ≡ step self.old octet }
        ensures ends { result ≡ false → IsEnd (step self.old octet).1 }
        ensures same { result ≡ false → self.new ≡ self.old }
        ensures fits { FitsStage self.new }
    {
        match self {
            Stage::Indicator => self.begins_packet(octet),
            Stage::CommandHead(head) => {
                if head.len() < 2 {
                    put_octets(head, &[octet]);
                    return true;
                }
                let opcode = word_of(head[0], head[1]);
                self.begins_command(opcode, octet)
            }
            Stage::AclHead(head) => {
                if head.len() < 3 {
                    put_octets(head, &[octet]);
                    return true;
                }
                let word = word_of(head[0], head[1]);
                let length = word_of(head[2], octet);
                self.begins_acl(word, length)
            }
            Stage::CommandBody(part) => part.goes_on(octet),
            Stage::AclBody(part) => part.goes_on(octet),
            Stage::Search(seen) => {
                let more = seen_with(*seen, octet);
                if more == 4 {
                    return false;
                }
                *seen = more;
                true
            }
        }
    }

    /// Begins the head of a command.
    #[inline(never)]
    fn begins_command_head(&mut self)
        ensures { self.new ≡ CommandHead (record { items = [] }) }
    {
        *self = Stage::CommandHead(ArrayVec::new());
    }

    /// Begins the head of ACL data.
    #[inline(never)]
    fn begins_acl_head(&mut self)
        ensures { self.new ≡ AclHead (record { items = [] }) }
    {
        *self = Stage::AclHead(ArrayVec::new());
    }

    /// Takes the first octet of a packet, if it is an indicator.
    fn begins_packet(&mut self, octet: u8) -> bool
        ensures on { result ≡ true → (self.new, Fed.More) ≡ indicator_step octet }
        ensures ends { result ≡ false → IsEnd (indicator_step octet).1 }
        ensures same { result ≡ false → self.new ≡ self.old }
        ensures fits { FitsStage self.old → FitsStage self.new }
    {
        match octet {
            COMMAND_INDICATOR => self.begins_command_head(),
            ACL_INDICATOR => self.begins_acl_head(),
            _ => return false,
        }
        true
    }

    /// Ends the head of a command that has parameters.
    #[inline(never)]
    fn begins_command(&mut self, opcode: u16, count: u8) -> bool
        ensures on { result ≡ true → (self.new, Fed.More) ≡ command_start opcode count }
        ensures ends { result ≡ false → IsEnd (command_start opcode count).1 }
        ensures same { result ≡ false → self.new ≡ self.old }
        ensures fits { FitsStage self.old → FitsStage self.new }
    {
        if count == 0 {
            return false;
        }
        *self = Stage::CommandBody(CommandPart {
            opcode,
            left: count,
            body: ArrayVec::new(),
        });
        true
    }

    /// Ends the head of ACL data that has octets: the word of handle and flags, and the length.
    #[inline(never)]
    fn begins_acl(&mut self, word: u16, length: u16) -> bool
        ensures on { result ≡ true → (self.new, Fed.More) ≡ acl_start word length }
        ensures ends { result ≡ false → IsEnd (acl_start word length).1 }
        ensures same { result ≡ false → self.new ≡ self.old }
        ensures fits { FitsStage self.old → FitsStage self.new }
    {
        if length == 0 {
            return false;
        }
        *self = Stage::AclBody(AclPart {
            handle: handle_of(word),
            start: is_start(word),
            length,
            left: length,
            body: ArrayVec::new(),
        });
        true
    }

    /// Takes the next octet, which ends something.
    fn ends(&mut self, octet: u8) -> Fed
        requires fits { FitsStage self.old }
        requires end { IsEnd (step self.old octet).1 }
        ensures step { (self.new, result) ≡ step self.old octet }
        ensures fits { FitsStage self.new }
    {
        let packet = match self {
            Stage::Indicator => {
                *self = Stage::Search(0);
                return Fed::LostSync;
            }
            Stage::CommandHead(head) => HostPacket::Command {
                opcode: word_of(head[0], head[1]),
                body: ArrayVec::new(),
            },
            Stage::AclHead(head) => acl_without_octets(word_of(head[0], head[1])),
            Stage::CommandBody(part) => part.end(octet),
            Stage::AclBody(part) => part.end(octet),
            Stage::Search(_) => HostPacket::Command {
                opcode: RESET_OPCODE,
                body: ArrayVec::new(),
            },
        };
        self.end_packet(packet)
    }

    /// Ends a packet.
    fn end_packet(&mut self, packet: HostPacket) -> Fed
        ensures { (self.new, result) ≡ packet_end packet }
    {
        *self = Stage::Indicator;
        Fed::Packet(packet)
    }
}

/// The handle of a word of handle and flags.
fn handle_of(word: u16) -> u16
    ensures { result ≡ handle_of word }
{
    word % HANDLES
}

/// Whether a word of handle and flags starts a message.
fn is_start(word: u16) -> bool
    ensures { result ≡ is_start word }
{
    word / HANDLES % 4 != CONTINUATION
}

/// ACL data of no octets, with this word of handle and flags.
fn acl_without_octets(word: u16) -> HostPacket
    ensures { result ≡ Acl (handle_of word) (is_start word) 0 (record { items = [] }) }
{
    HostPacket::Acl {
        handle: handle_of(word),
        start: is_start(word),
        length: 0,
        body: ArrayVec::new(),
    }
}

/// The number of two octets, the low one first.
fn word_of(low: u8, high: u8) -> u16
    ensures { result ≡ word_of low high }
{
    u16::from_le_bytes([low, high])
}

/// The number of octets of an HCI_Reset that came last, after this octet.
fn seen_with(seen: u8, octet: u8) -> u8
    requires { seen < 4 }
    ensures seen { result ≡ seen_with seen octet }
    ensures most { result ≤ 4 }
{
    if octet == RESET[seen as usize] {
        return seen + 1;
    }
    if octet == RESET[0] { 1 } else { 0 }
}
