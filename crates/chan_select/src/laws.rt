//! Laws of channel selection. The bodies do nothing: the contracts are the laws.

ghost use Rattle.std.specs.Prelude.{◌≡◌, ℕ, ◌+◌, ◌%◌, ◌<◌};
ghost use Rattle.chan_select.specs.Hopping.{unmapped_channel};
ghost use Rattle.chan_select.specs.PseudoRandom.{channel_identifier, prn};

/// The closed form of algorithm #1 is the sum that the specification forms event by event: the
/// unmapped channel is 0 before event 0, and each event adds the hop increment modulo 37 (Core 5.2,
/// volume 6 part B, section 4.5.8.2). This holds for every event number.
pub fn hop_is_added_each_event()
    ensures first { (hop : ℕ) → unmapped_channel hop 0 ≡ hop % 37 }
    ensures each { (hop event : ℕ)
        → unmapped_channel hop (event + 1) ≡ (unmapped_channel hop event + hop) % 37 }
{}

/// channelIdentifier and prn_e of events 0 to 3 in the sample data of Core 5.2, volume 6 part C,
/// section 3, whose access address is 0x8E89BED6.
pub fn numbers_of_the_sample_data()
    ensures identifier { channel_identifier 0x8E89BED6 ≡ 0x305F }
    ensures numbers { (prn 0x305F 0 ≡ 56857) × (prn 0x305F 1 ≡ 1685) × (prn 0x305F 2 ≡ 38301)
        × (prn 0x305F 3 ≡ 27475) }
{}
