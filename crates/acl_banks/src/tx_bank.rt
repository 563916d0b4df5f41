//! The packets of the host that wait to be sent.

ghost use Rattle.std.specs.Prelude.{◌≡◌, ℕ, ◌<◌, ◌≤◌, ◌↔◌, ◌⊎◌, ◌+◌, [], IfOk, IsTrue, IsErr, IsSome, IsNone, OnOk, OnErr, IfSome, None, Some, if◌then◌else◌, length, take, slice_index_or};
ghost use Rattle.std.specs.List.{position};
ghost use Rattle.acl_banks.specs.Packets.{DataPacket, new_packet, has_unsent, has_piece_out, piece_of, marked_octets};
ghost use Rattle.acl_banks.specs.Banks.{Bank, taken_buffers, credits_of, unsent_of, next_piece, next_length, packet_out, is_completed, bank_after_offer, bank_after_went, bank_after_acked, bank_after_credited, bank_after_drop};

use crate::packets::Buffer;
use crate::pieces::Piece;
use crate::queue::Queue;
use std::alloc::{AllocError, Global};
use std::marker::Model;

/// The packet is too long, or no buffer is free.
#[derive(Clone, Copy, PartialEq, Eq, Debug)]
pub struct Overflow;

const HANDLES: usize = 65536;

/// At most `T` packets of the host, which go out in pieces, at most one of each link at a time.
#[derive(Drop)]
pub struct TxBank<const T: usize> {
    packets: Queue<Buffer, T>,
    // How many packets of each handle are complete and not reported.
    counts: Vec<u16>,
}

impl<const T: usize> Model for TxBank<T> {
    ghost use Rattle.std.specs.Prelude.{◌≡◌, ◌≤◌, length};
    ghost use Rattle.acl_banks.specs.Packets.{IsInOrder};
    ghost use Rattle.acl_banks.specs.Banks.{Bank};

    ghost Value = { Bank };

    ghost view = { λ bank. record { packets = bank.packets; counts = bank.counts.items } };

    ghost invariant = { λ bank.
        (length bank.counts.items ≡ 65536) × (T ≤ 255) × IsInOrder bank.packets };
}

impl<const T: usize> TxBank<T> {
    /// An empty bank, with the memory for `T` packets and the counts of all handles.
    ///
    /// # Errors
    ///
    /// Out of memory.
    pub fn make(alloc: Global) -> Result<Self, AllocError>
        requires some { 1 ≤ T }
        requires numbered { T ≤ 255 }
        ensures empty { IfOk result (λ bank. bank.packets ≡ []) }
        ensures handles { IfOk result (λ bank. length bank.counts ≡ 65536) }
        ensures no_credit { IfOk result (λ bank. (handle : ℕ) → credits_of bank handle ≡ 0) }
    {
        let packets = Queue::make(alloc)?;
        let mut counts = Vec::new(alloc);
        counts.resize(HANDLES, 0)?;
        Ok(TxBank { packets, counts })
    }

    /// Takes a packet of the host, after those that wait.
    ///
    /// # Errors
    ///
    /// [`Overflow`] exactly where the packet has over 251 octets or `T` buffers are taken, and then
    /// nothing changes.
    pub fn offer(&mut self, handle: u16, start: bool, body: &[u8]) -> Result<(), Overflow>
        requires { 1 ≤ length body.now }
        ensures overflow { IsErr result ↔ ((251 < length body.now) ⊎ (taken_buffers self.old ≡ T)) }
        ensures taken { OnOk result
            (self.new ≡ bank_after_offer self.old (new_packet handle start body.now)) }
        ensures unchanged { OnErr result (self.new ≡ self.old) }
        ensures out { (link : ℕ) → packet_out self.new link ≡ packet_out self.old link }
    {
        if body.len() > 251 || self.packets.len() >= T {
            return Err(Overflow);
        }
        self.packets.push(Buffer::new(handle, start, body));
        Ok(())
    }

    fn first_unsent(&self, handle: u16) -> Option<usize>
        ensures { result ≡ position (has_unsent handle) self.now.packets }
    {
        for place in 0..self.packets.len() {
            if self.packets.get(place).has_unsent(handle) {
                return Some(place);
            }
        }
        None
    }

    fn place_of_piece_out(&self, handle: u16) -> Option<usize>
        ensures { result ≡ position (has_piece_out handle) self.now.packets }
    {
        for place in 0..self.packets.len() {
            if self.packets.get(place).has_piece_out(handle) {
                return Some(place);
            }
        }
        None
    }

    /// The next piece of the packet at a place.
    fn piece_at(&self, place: usize, limit: u16) -> Piece
        requires { place < length self.now.packets }
        ensures { (d : DataPacket) → result
            ≡ piece_of limit (slice_index_or self.now.packets place d) }
    {
        self.packets.get(place).piece(limit)
    }

    /// The next piece of a link, of at most `limit` octets: from its first packet that is not sent
    /// whole. The first piece of a start is a start; all others continue. `None` exactly where all
    /// octets of the link were sent.
    pub fn peek(&self, handle: u16, limit: u16) -> Option<Piece>
        requires { 1 ≤ limit }
        ensures next { result ≡ next_piece self.now handle limit }
        ensures none { IsNone result ↔ (unsent_of self.now handle ≡ []) }
        ensures first { IfSome result (λ piece. marked_octets piece.start piece.body.items
            ≡ take (length piece.body.items) (unsent_of self.now handle)) }
    {
        let Some(place) = self.first_unsent(handle) else {
            return None;
        };
        Some(self.piece_at(place, limit))
    }

    /// The next piece of a link is out, with this number of octets: the piece that `peek` gave, under
    /// whatever limit.
    pub fn went(&mut self, handle: u16, count: u16)
        requires some { 1 ≤ count }
        requires next { IsSome (next_piece self.old handle count) }
        requires none_out { packet_out self.old handle ≡ None }
        ensures bank { self.new ≡ bank_after_went self.old handle count }
        ensures out { IsSome (packet_out self.new handle) }
    {
        match self.first_unsent(handle) {
            Some(place) => self.packets.get_mut(place).send(count),
            None => unreachable!(),
        }
    }

    /// Whether the link has another piece after the one that `peek` gives; false where it gives
    /// none.
    pub fn waits(&self, handle: u16, limit: u16) -> bool
        requires { 1 ≤ limit }
        ensures { IsTrue result ↔
            (next_length self.now handle limit < length (unsent_of self.now handle)) }
    {
        let Some(place) = self.first_unsent(handle) else {
            return false;
        };
        let next = self.packets.get(place).unsent().min(usize::from(limit));
        next < self.unsent(handle)
    }

    fn unsent(&self, handle: u16) -> usize
        ensures { result ≡ length (unsent_of self.now handle) }
    {
        let mut count = 0;
        for place in 0..self.packets.len() {
            count += self.packets.get(place).unsent_for(handle);
        }
        count
    }

    /// The piece that is out was acknowledged. A packet that is complete with it frees its buffer
    /// and is counted.
    pub fn acked(&mut self, handle: u16)
        requires out { IsSome (packet_out self.old handle) }
        requires counts { credits_of self.old handle < 65535 }
        ensures bank { self.new ≡ bank_after_acked self.old handle }
        ensures counted { credits_of self.new handle
            ≡ (if is_completed (packet_out self.old handle) then credits_of self.old handle + 1
            else credits_of self.old handle) }
        ensures none_out { packet_out self.new handle ≡ None }
    {
        let Some(place) = self.place_of_piece_out(handle) else {
            unreachable!();
        };
        if self.packets.get(place).is_all_sent() {
            self.packets.remove(place);
            self.counts[usize::from(handle)] += 1;
        } else {
            self.packets.get_mut(place).acknowledge();
        }
    }

    /// How many packets of a link are complete and not reported.
    pub fn credits(&self, handle: u16) -> u16
        ensures { result ≡ credits_of self.now handle }
    {
        self.counts[usize::from(handle)]
    }

    /// The count of a link was reported to the host, and begins from 0 again.
    pub fn credited(&mut self, handle: u16)
        ensures bank { self.new ≡ bank_after_credited self.old handle }
        ensures no_credit { credits_of self.new handle ≡ 0 }
    {
        self.counts[usize::from(handle)] = 0;
    }

    /// The packets and the count of a link that ended are dropped (Core 5.2, volume 4 part E,
    /// section 4.3).
    pub fn drop_link(&mut self, handle: u16)
        ensures bank { self.new ≡ bank_after_drop self.old handle }
        ensures none_out { packet_out self.new handle ≡ None }
        ensures no_credit { credits_of self.new handle ≡ 0 }
    {
        self.packets.drop_link(handle);
        self.counts[usize::from(handle)] = 0;
    }
}
