//! What a station wants of its radio in a phase.
ghost use Rattle.std.specs.Prelude.{◌≡◌, ◌≤◌, length, None, IfSome, IfNone};
ghost use Rattle.std.specs.Option.{option_copied};
ghost use Rattle.controller_model.specs.Facts.{Sends, Idle};
ghost use Rattle.controller_model.specs.Packets.{channel_listened};
ghost use Rattle.controller.specs.Knowing.{use_wanted};
ghost use Rattle.run_model.specs.History.{is_handed};
ghost use Rattle.pair_world.specs.Wishes.{heard_of, packet_wanted, use_damaged};

use arrayvec::ArrayVec;
use ble_base::{AIR_PACKET_OCTETS, Verdict};
use controller::{Action, Intent};
use radio_replay::Fate;
use std::marker::Model;

/// Whether a packet with this verdict is handed on to the controller: one that is forged ends its
/// link.
fn is_handed(verdict: Verdict) -> bool
    ensures { result ≡ is_handed verdict }
{
    matches!(verdict, Verdict::Good | Verdict::Forged)
}

/// What a station wants of its radio in a phase. The octets have their own place, so that nothing
/// is copied for a station that has none to transmit.
#[derive(Drop)]
pub(crate) struct Wish {
    action: Action,
    /// The packet to transmit, where there is one.
    octets: ArrayVec<u8, AIR_PACKET_OCTETS>,
}

impl Model for Wish {
    ghost use Rattle.controller_model.specs.Facts.{Use};
    ghost use Rattle.controller.specs.Actions.{use_with};

    ghost Value = { Use };

    ghost view = { λ wish. use_with wish.action (λ _. wish.octets.items) };
}

impl Wish {
    /// A station that wants nothing.
    pub(crate) fn new() -> Self
        ensures { result ≡ Idle }
    {
        Wish {
            action: Action::Rest,
            octets: ArrayVec::new(),
        }
    }

    /// The station wants this now.
    pub(crate) fn set(&mut self, intent: Intent)
        ensures { self.new ≡ use_wanted intent }
    {
        match intent {
            Intent::Send { channel, octets } => {
                self.octets = octets;
                self.action = Action::Transmit { channel };
            }
            Intent::Listen { channel } => self.action = Action::Listen { channel },
            Intent::Idle => self.action = Action::Rest,
        }
    }

    /// The channel and the octets of the packet that it wants to transmit, if it wants to.
    pub(crate) fn packet(&self) -> Option<(u8, &[u8])>
        ensures some { IfSome result (λ packet. self.now ≡ Sends packet.0 packet.1.now) }
        ensures none { IfNone result (packet_wanted self.now ≡ None) }
        ensures fits { IfSome result (λ packet. length packet.1.now ≤ AIR_PACKET_OCTETS) }
    {
        match self.action {
            Action::Transmit { channel } => Some((channel, self.octets.as_slice())),
            Action::Listen { .. } | Action::Rest => None,
        }
    }

    /// The channel on which it wants to listen, if it wants to.
    pub(crate) fn listens_on(&self) -> Option<u8>
        ensures { result ≡ channel_listened self.now }
    {
        match self.action {
            Action::Listen { channel } => Some(channel),
            Action::Transmit { .. } | Action::Rest => None,
        }
    }

    /// The radio damages the packet that it wanted to transmit.
    pub(crate) fn damage(&mut self, fate: &Fate)
        ensures { self.new ≡ use_damaged fate.now self.old }
    {
        match self.action {
            Action::Transmit { .. } => fate.damage_packet(self.octets.as_mut_slice()),
            Action::Listen { .. } | Action::Rest => {}
        }
    }

    /// The octets of the packet that it wanted to transmit, where they are handed on to the
    /// controller of a station with this verdict.
    pub(crate) fn heard(&self, verdict: Verdict) -> Option<&[u8]>
        ensures { option_copied result ≡ heard_of (is_handed verdict) self.now }
    {
        match self.action {
            Action::Transmit { .. } if is_handed(verdict) => Some(self.octets.as_slice()),
            _ => None,
        }
    }
}
