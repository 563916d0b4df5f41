//! The pieces that were received and wait for the host.

ghost use Rattle.std.specs.Prelude.{◌≡◌, ◌<◌, ◌≤◌, ◌^◌, ◌==◌, ◌↔◌, ◌++◌, ◌∷◌, [], IfOk, IsTrue, IsErr, OnOk, OnErr, not, length, drop, slice_get};
ghost use Rattle.std.specs.List.{filter};

use crate::pieces::Piece;
use crate::queue::{HasHandle, Queue};
use std::alloc::{AllocError, Global};
use std::marker::Model;

/// No buffer is free.
#[derive(Clone, Copy, PartialEq, Eq, Debug)]
pub struct Full;

impl HasHandle for (u16, Piece) {
    ghost handle_of = { λ kept. kept.0 };

    fn handle(&self) -> u16 {
        self.0
    }
}

/// At most `R` pieces that were received, in order, each with the handle of its link.
#[derive(Drop)]
pub struct RxBank<const R: usize> {
    pieces: Queue<(u16, Piece), R>,
}

impl<const R: usize> Model for RxBank<R> {
    ghost use Rattle.std.specs.Prelude.{List, ℕ};
    ghost use Rattle.acl_banks.specs.declared.pieces.Piece.{Piece};

    ghost Value = { List (ℕ × Piece) };

    ghost view = { λ bank. bank.pieces };
}

impl<const R: usize> RxBank<R> {
    /// An empty bank, with the memory for `R` pieces.
    ///
    /// # Errors
    ///
    /// Out of memory.
    pub fn make(alloc: Global) -> Result<Self, AllocError>
        requires some { 1 ≤ R }
        requires numbered { R < 2 ^ 32 }
        ensures { IfOk result (λ bank. bank ≡ []) }
    {
        Ok(RxBank {
            pieces: Queue::make(alloc)?,
        })
    }

    /// Keeps a piece for the host, after those that are kept.
    ///
    /// # Errors
    ///
    /// [`Full`] exactly where `R` pieces are kept, and then nothing changes.
    pub fn keep(&mut self, handle: u16, piece: &Piece) -> Result<(), Full>
        ensures full { IsErr result ↔ (length self.old ≡ R) }
        ensures kept { OnOk result (self.new ≡ self.old ++ (handle, piece.now) ∷ []) }
        ensures unchanged { OnErr result (self.new ≡ self.old) }
    {
        if !self.room() {
            return Err(Full);
        }
        self.pieces.push((handle, piece.copy()));
        Ok(())
    }

    /// Hands up the piece that was kept first, with the handle of its link; `None` exactly where
    /// none is kept.
    pub fn hand_up(&mut self) -> Option<(u16, Piece)>
        ensures first { result ≡ slice_get self.old 0 }
        ensures rest { self.new ≡ drop 1 self.old }
    {
        if self.pieces.len() == 0 {
            return None;
        }
        Some(self.pieces.remove(0))
    }

    /// Whether one more piece can be kept.
    pub fn room(&self) -> bool
        ensures room { IsTrue result ↔ (length self.now < R) }
        ensures fits { length self.now ≤ R }
    {
        self.pieces.len() < R
    }

    /// Drops the pieces of a link that ended (Core 5.2, volume 4 part E, section 4.3).
    pub fn drop_link(&mut self, handle: u16)
        ensures { self.new ≡ filter (λ kept. not (kept.0 == handle)) self.old }
    {
        self.pieces.drop_link(handle);
    }
}
