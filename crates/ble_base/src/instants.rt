//! The gap between an instant and an event, both as 16-bit counters.

ghost use Rattle.std.specs.Prelude.{◌≡◌, ◌+◌, ◌%◌, ◌^◌};
ghost use Rattle.ble_base.specs.Instant.{gap_of};

/// The number of events from the event with counter `now` to the event with counter `instant`,
/// modulo 65536 (Core 5.2, volume 6 part B, section 5.5.1).
pub fn instant_gap(instant: u16, now: u16) -> u16
    ensures gap { result ≡ gap_of instant now }
    ensures reaches { (now + result) % 2 ^ 16 ≡ instant }
{
    instant.wrapping_sub(now)
}
