//! Limits of a schedule (our choice).

use ble_base::AIR_PACKET_OCTETS;

/// The most turns.
pub const MOST_TURNS: usize = 100_000;

/// The most turns in a run: the largest number of six digits.
pub const MOST_REPEATED: u32 = 999_999;

/// The most octets that a turn feeds to one side.
pub const MOST_FED: u32 = 1_048_576;

/// The last place at which a damage may begin.
pub const LAST_PLACE: usize = AIR_PACKET_OCTETS - 1;
