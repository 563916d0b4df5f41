//! Packets by a second program: the rules of the standard, bit by bit, with no call of the proved
//! code. A bit is 0 or 1, and lists of bits are in the order of the air.

/// x^24 + x^10 + x^9 + x^6 + x^4 + x^3 + x + 1, highest power first (Core 5.2, volume 6 part B,
/// section 3.1.1).
const GENERATOR: [u8; 25] = [
    1, 0, 0, 0, 0, 0, 0, 0, 0, 0, 0, 0, 0, 0, 1, 1, 0, 0, 1, 0, 1, 1, 0, 1, 1,
];

/// The bit at a place of octets, the least significant of each octet first (section 1.2), and 0
/// after their end.
fn bit_of(octets: &[u8], place: usize) -> u8 {
    let octet = octets.get(place / 8).copied().unwrap_or(0);
    (octet >> (place % 8)) & 1
}

/// The n bits of a PDU, and after them the 24 bits of its CRC, highest power first: the remainder
/// of P*x^24 + init*x^n in long division, where the first bit of the PDU is the highest power in P
/// (section 3.1.1).
fn pdu_and_crc(init: u32, pdu: &[u8]) -> [u8; 120] {
    let mut bits = [0; 120];
    for place in 0..120usize {
        let start = if place < 24 { init >> (23 - place) } else { 0 };
        bits[place] = bit_of(pdu, place) ^ (start & 1) as u8;
    }
    for place in 0..8 * pdu.len().min(12) {
        let quotient = bits[place];
        for term in 0..25usize {
            bits[place + term] ^= quotient & GENERATOR[term];
        }
        bits[place] = bit_of(pdu, place);
    }
    bits
}

/// The whitening sequence of x^7 + x^4 + 1: each bit is the sum of the bits seven and three places
/// before. The first seven of the former are positions 6 to 0 of the register: the channel index,
/// least significant bit first, and 1 (section 3.2).
fn whitening(channel: u8) -> [u8; 120] {
    let register = 0x40 + channel % 0x40;
    let mut white = [0; 120];
    for place in 0..120usize {
        let first = register >> place.min(7);
        let entering = if place < 7 { first } else { white[place - 7] };
        let fed_back = if place < 3 { 0 } else { white[place - 3] };
        white[place] = (entering ^ fed_back) & 1;
    }
    white
}

/// The packet of a PDU of at most 12 octets, and after it octets with no meaning.
pub(crate) fn plain_packet((channel, access, init): (u8, u32, u32), pdu: &[u8]) -> [u8; 19] {
    let (bits, white) = (pdu_and_crc(init, pdu), whitening(channel));
    let mut octets = [0; 19];
    octets[..4].copy_from_slice(&access.to_le_bytes());
    for place in 0..120usize {
        octets[4 + place / 8] |= (bits[place] ^ white[place]) << (place % 8);
    }
    octets
}

/// The packet with one bit changed.
pub(crate) fn changed(octets: [u8; 19], place: usize, bit: u8) -> [u8; 19] {
    let mut damaged = octets;
    if let Some(octet) = damaged.get_mut(place) {
        *octet ^= 1 << (bit % 8);
    }
    damaged
}
