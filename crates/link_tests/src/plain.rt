//! The channels of events by programs that go by single steps and single bits, with no call of the
//! proved code.

/// Adds the hop once for each event, 37 of which change nothing, and remaps.
pub fn plain_by_hop(hop: u8, event: u64, bits: u64) -> u8 {
    let mut sum = 0u64;
    for _ in 0..event % 37 + 1 {
        sum = sum.wrapping_add(u64::from(hop));
    }
    let unmapped = sum % 37;
    if bits >> unmapped & 1 == 1 {
        unmapped as u8
    } else {
        entry(bits, unmapped % u64::from(bits.count_ones()).max(1))
    }
}

/// Moves single bits, and remaps.
pub fn plain_by_number(access: u32, event: u64, bits: u64) -> u8 {
    let identifier = (access >> 16) ^ (access & 0xFFFF);
    let mut number = (event % 65536) as u32 ^ identifier;
    for _ in 0..3 {
        let mut turned = 0;
        for place in 0..16u32 {
            let turned_place = if place < 8 { 7 - place } else { 23 - place };
            turned |= (number >> place & 1) << turned_place;
        }
        number = turned.wrapping_mul(17).wrapping_add(identifier) % 65536;
    }
    let number = u64::from((number ^ identifier) % 65536);
    if bits >> (number % 37) & 1 == 1 {
        (number % 37) as u8
    } else {
        entry(bits, u64::from(bits.count_ones()) * number / 65536)
    }
}

/// The place of the bit with this index among those that are 1, or 255.
fn entry(bits: u64, index: u64) -> u8 {
    let mut left = index;
    for place in 0..37 {
        if bits >> place & 1 == 1 {
            if left == 0 {
                return place;
            }
            left -= 1;
        }
    }
    255
}
