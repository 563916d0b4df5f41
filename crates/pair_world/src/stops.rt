//! What stops a turn.
use arrayvec::ArrayVec;
use ble_base::AIR_PACKET_OCTETS;
use std::alloc::AllocError;

/// A changed packet that would be judged good. Its octets are held in place, so that a run stops
/// here without an allocation.
#[derive(Drop)]
pub(crate) struct UnseenPacket {
    /// Its place among the packets of the turn, counted from 1.
    pub packet: u32,
    /// Its octets as sent, in the order of the air.
    pub sent: ArrayVec<u8, AIR_PACKET_OCTETS>,
    /// Its octets as they would be heard.
    pub heard: ArrayVec<u8, AIR_PACKET_OCTETS>,
}

/// Why a run stops before the end of its schedule.
#[derive(Drop)]
pub(crate) enum Stop {
    /// A changed packet would be judged good.
    Unseen(UnseenPacket),
    /// There is no memory for a line of the journal.
    Memory,
}

impl From<AllocError> for Stop {
    ghost use Rattle.std.specs.Prelude.{◌≡◌};
    ghost use Rattle.pair_world.specs.declared.stops.Stop.TheVariants.{Memory};

    ghost from_gives = { λ _ stop. stop ≡ Memory };

    fn from(_: AllocError) -> Self {
        Stop::Memory
    }
}
