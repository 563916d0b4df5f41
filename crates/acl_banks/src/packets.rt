//! A packet of the host, and how much of it was sent.

ghost use Rattle.std.specs.Prelude.{◌≡◌, ◌<◌, ◌≤◌, ◌-◌, if◌then◌else◌, length};
ghost use Rattle.acl_banks.specs.Packets.{new_packet, is_of, has_unsent, has_piece_out, piece_of, packet_after_went, packet_after_acked, is_all_sent, unsent_octets, sent_length};

use crate::pieces::Piece;
use crate::queue::HasHandle;
use arrayvec::ArrayVec;
use std::marker::Model;
use wire_fields::put_octets;

#[derive(Drop)]
pub(crate) struct Buffer {
    handle: u16,
    start: bool,
    body: ArrayVec<u8, 251>,
    acknowledged: u8,
    out: u8,
}

impl Model for Buffer {
    ghost use Rattle.std.specs.Prelude.{◌+◌, ◌≤◌, length};
    ghost use Rattle.acl_banks.specs.Packets.{DataPacket};

    ghost Value = { DataPacket };

    ghost view = { λ b. record {
      handle = b.handle;
      start = b.start;
      body = b.body.items;
      acknowledged = b.acknowledged;
      out = b.out;
    } };

    ghost invariant = { λ b.
        (length b.body.items ≤ 251) × (b.acknowledged + b.out ≤ length b.body.items) };
}

impl HasHandle for Buffer {
    ghost handle_of = { λ packet. packet.handle };

    fn handle(&self) -> u16 {
        self.handle
    }
}

impl Buffer {
    pub(crate) fn new(handle: u16, start: bool, octets: &[u8]) -> Buffer
        requires { length octets.now ≤ 251 }
        ensures { result ≡ new_packet handle start octets.now }
    {
        let mut body = ArrayVec::new();
        put_octets(&mut body, octets);
        Buffer {
            handle,
            start,
            body,
            acknowledged: 0,
            out: 0,
        }
    }

    fn sent(&self) -> u8
        ensures value { result ≡ sent_length self.now }
        ensures fits { result ≤ length self.now.body }
        ensures small { length self.now.body ≤ 251 }
    {
        self.acknowledged + self.out
    }

    pub(crate) fn has_unsent(&self, handle: u16) -> bool
        ensures { result ≡ has_unsent handle self.now }
    {
        self.handle == handle && usize::from(self.sent()) < self.body.len()
    }

    pub(crate) fn has_piece_out(&self, handle: u16) -> bool
        ensures { result ≡ has_piece_out handle self.now }
    {
        self.handle == handle && self.out > 0
    }

    pub(crate) fn is_all_sent(&self) -> bool
        ensures { result ≡ is_all_sent self.now }
    {
        usize::from(self.sent()) == self.body.len()
    }

    /// How many octets were not sent.
    pub(crate) fn unsent(&self) -> usize
        ensures value { result ≡ length (unsent_octets self.now) }
        ensures fits { result ≤ 251 }
    {
        self.body.len() - usize::from(self.sent())
    }

    /// How many octets were not sent, if it is a packet of this link.
    pub(crate) fn unsent_for(&self, handle: u16) -> usize
        ensures value { result
            ≡ (if is_of handle self.now then length (unsent_octets self.now) else 0) }
        ensures fits { result ≤ 251 }
    {
        if self.handle == handle {
            self.unsent()
        } else {
            0
        }
    }

    pub(crate) fn piece(&self, limit: u16) -> Piece
        ensures { result ≡ piece_of limit self.now }
    {
        let sent = usize::from(self.sent());
        let (_, rest) = self.body.as_slice().split_at(sent);
        let (octets, _) = rest.split_at(rest.len().min(usize::from(limit)));
        Piece::new(self.start && sent == 0, octets)
    }

    pub(crate) fn send(&mut self, count: u16)
        ensures { self.new ≡ packet_after_went count self.old }
    {
        let rest = self.body.len() - usize::from(self.sent());
        self.out = rest.min(usize::from(count)) as u8;
    }

    pub(crate) fn acknowledge(&mut self)
        ensures { self.new ≡ packet_after_acked self.old }
    {
        self.acknowledged = self.sent();
        self.out = 0;
    }
}
