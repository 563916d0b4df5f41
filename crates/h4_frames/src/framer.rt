//! The framer: its stage, and the packets of all octets that it was fed.

ghost use Rattle.std.specs.Prelude.{◌≡◌, ◌≢◌, true, false, ℕ, ◌+◌, ◌↔◌, List, [], ◌∷◌, ◌++◌, length};

use crate::packet::Fed;
use crate::stage::Stage;
use std::marker::Model;

/// Takes a host's octets one by one and gives its packets (Core 5.2, volume 4 part A, section 2).
/// After an octet that cannot begin a packet of a host it searches for the octets of an HCI_Reset,
/// which is then the next packet (section 4; that they may begin anywhere is our choice).
#[derive(Drop)]
pub struct Framer {
    stage: Stage,
}

impl Model for Framer {
    ghost use Rattle.h4_frames.specs.declared.stage.Stage.{Stage};

    ghost Value = { Stage };

    ghost use Rattle.h4_frames.specs.Fits.{FitsStage};

    ghost view = { λ f. f.stage };

    ghost invariant = { λ f. FitsStage f.stage };
}

impl Framer {
    ghost use Rattle.h4_frames.specs.Frames.{frames, frame_entry, IsBetweenPackets};
    ghost use Rattle.h4_frames.specs.Machine.{framer_after};

    /// A framer that was fed nothing. It waits for an indicator.
    pub fn new() -> Framer
        ensures { result ≡ framer_after [] }
    {
        Framer {
            stage: Stage::Indicator,
        }
    }

    /// Takes the next octet where more are needed after it, as most are. Else nothing changes, and
    /// `feed` takes it.
    #[inline]
    pub fn goes_on(&mut self, octet: u8) -> bool
        ensures on { (past : List ℕ) → self.old ≡ framer_after past → result ≡ true
            → frames (past ++ octet ∷ []) ≡ frames past ++ frame_entry (length past + 1) Fed.More }
        ensures framer_after { (past : List ℕ) → self.old ≡ framer_after past → result ≡ true
            → self.new ≡ framer_after (past ++ octet ∷ []) }
        ensures ends { (past : List ℕ) → self.old ≡ framer_after past → result ≡ false
            → frames (past ++ octet ∷ []) ≢ frames past }
        ensures same { result ≡ false → self.new ≡ self.old }
    {
        self.stage.goes_on(octet)
    }

    /// Takes the next octet and gives its result. An octet that is not part of a packet is taken
    /// too.
    pub fn feed(&mut self, octet: u8) -> Fed
        // The packets and losses of all octets so far are the results that were given.
        ensures frames { (past : List ℕ) → self.old ≡ framer_after past
            → frames (past ++ octet ∷ []) ≡ frames past ++ frame_entry (length past + 1) result }
        ensures framer_after { (past : List ℕ) → self.old ≡ framer_after past
            → self.new ≡ framer_after (past ++ octet ∷ []) }
        ensures lost { (past : List ℕ) → self.old ≡ framer_after past
            → ((result ≡ Fed.LostSync) ↔ (IsBetweenPackets past × (octet ≢ 1) × (octet ≢ 2))) }
    {
        self.stage.step(octet)
    }
}
