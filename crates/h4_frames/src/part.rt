//! Packets whose head is complete and whose octets are still coming.

ghost use Rattle.std.specs.Prelude.{◌≡◌, IsSome, Some, None, true, false};
ghost use Rattle.h4_frames.specs.Parts.{HasRoom, command_with, whole_command, IsOpen, acl_with, whole_acl};

use crate::packet::HostPacket;
use arrayvec::ArrayVec;
use ble_base::PAYLOAD_OCTETS;
use wire_fields::put_octets;

/// A command, and the number of its parameter octets that are left.
#[derive(Drop)]
pub struct CommandPart {
    pub opcode: u16,
    /// 1 to 255.
    pub left: u8,
    /// The parameters so far, in the order sent.
    pub body: ArrayVec<u8, 255>,
}

/// ACL data, and the number of its octets that are left.
#[derive(Drop)]
pub struct AclPart {
    pub handle: u16,
    pub start: bool,
    /// The number of data octets of the packet.
    pub length: u16,
    /// 1 to `length`.
    pub left: u16,
    /// The data so far, in the order sent, or the first [`PAYLOAD_OCTETS`] of it.
    pub body: ArrayVec<u8, PAYLOAD_OCTETS>,
}

impl CommandPart {
    /// Takes the next parameter octet, if more are needed after it.
    #[inline]
    pub fn goes_on(&mut self, octet: u8) -> bool
        requires { HasRoom self.old }
        ensures on { result ≡ true → (self.new ≡ command_with self.old octet)
            × (whole_command (command_with self.old octet) ≡ None) }
        ensures ends { result ≡ false → IsSome (whole_command (command_with self.old octet)) }
        ensures same { result ≡ false → self.new ≡ self.old }
        ensures room { HasRoom self.new }
    {
        if self.left == 1 {
            return false;
        }
        put_octets(&mut self.body, &[octet]);
        self.left -= 1;
        true
    }

    /// Takes the last parameter octet, and gives the command.
    pub fn end(&mut self, octet: u8) -> HostPacket
        requires room { HasRoom self.old }
        requires last { IsSome (whole_command (command_with self.old octet)) }
        ensures { Some result ≡ whole_command (command_with self.old octet) }
    {
        put_octets(&mut self.body, &[octet]);
        HostPacket::Command {
            opcode: self.opcode,
            body: self.body.take(),
        }
    }
}

impl AclPart {
    /// Takes the next octet of data, if more are needed after it.
    #[inline]
    pub fn goes_on(&mut self, octet: u8) -> bool
        requires { IsOpen self.old }
        ensures on { result ≡ true → (self.new ≡ acl_with self.old octet)
            × (whole_acl (acl_with self.old octet) ≡ None) }
        ensures ends { result ≡ false → IsSome (whole_acl (acl_with self.old octet)) }
        ensures same { result ≡ false → self.new ≡ self.old }
        ensures open { IsOpen self.new }
    {
        if self.left == 1 {
            return false;
        }
        if !self.body.is_full() {
            put_octets(&mut self.body, &[octet]);
        }
        self.left -= 1;
        true
    }

    /// Takes the last octet of data, and gives the packet.
    pub fn end(&mut self, octet: u8) -> HostPacket
        requires open { IsOpen self.old }
        requires last { IsSome (whole_acl (acl_with self.old octet)) }
        ensures { Some result ≡ whole_acl (acl_with self.old octet) }
    {
        if !self.body.is_full() {
            put_octets(&mut self.body, &[octet]);
        }
        HostPacket::Acl {
            handle: self.handle,
            start: self.start,
            length: self.length,
            body: self.body.take(),
        }
    }
}
