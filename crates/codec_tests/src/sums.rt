//! Worked values, and a register that is shifted bit by bit as the standard draws it.
use crate::scripts::check;
use frame_bits::laws::*;
use frame_bits::{crc24, whiten};
use std::alloc::AllocError;
use test_words::put_value;

/// The register of the CRC after one more bit: the sum of that bit and of position 23 is fed back.
fn crc_one_bit_on(register: u32, bit: u32) -> u32 {
    let feedback = (register >> 23) & 1 ^ bit & 1;
    let moved = (register << 1) & 0xff_ffff;
    if feedback == 1 { moved ^ 0x65b } else { moved }
}

/// The register of the whitening, position k in bit k, after one step.
fn whitening_one_step_on(register: u8) -> u8 {
    let moved = (register << 1) & 0x7f;
    if register & 0x40 != 0 {
        moved ^ 0x11
    } else {
        moved
    }
}

/// Position 0 is 1, and positions 1 to 6 are the channel index, most significant bit in position 1.
fn whitening_start(channel: u8) -> u8 {
    let mut register = 1;
    for place in 0..6u8 {
        register |= ((channel >> (5 - place)) & 1) << (place + 1);
    }
    register
}

/// Octets with no pattern.
fn scattered() -> [u8; 260] {
    let mut octets = [0u8; 260];
    let mut next = 1u8;
    for octet in octets.iter_mut() {
        next = next.wrapping_mul(77).wrapping_add(41);
        *octet = next;
    }
    octets
}

/// The least number of first octets whose CRC is not what the register has after them.
fn first_other_sum(init: u32, octets: &[u8; 260]) -> Option<usize> {
    let mut register = init;
    for (done, octet) in octets.iter().enumerate() {
        if !is_sum(init, &octets[..done], register) {
            return Some(done);
        }
        for bit in 0..8u8 {
            register = crc_one_bit_on(register, u32::from(*octet >> bit));
        }
    }
    if is_sum(init, octets, register) {
        None
    } else {
        Some(260)
    }
}

/// Whether this is the CRC of octets.
fn is_sum(init: u32, octets: &[u8], sum: u32) -> bool {
    init < 0x100_0000 && crc24(init, octets) == sum
}

/// The number of first octets whose CRC is not what the register has, if it has another.
pub(crate) fn put_other_sum(told: &mut String, init: u32) -> Result<(), AllocError> {
    put_value(told, &first_other_sum(init, &scattered()))
}

/// Octets that are whitened as the register does.
fn whitened(channel: u8) -> [u8; 260] {
    let mut octets = [0x5au8; 260];
    let mut register = whitening_start(channel);
    for octet in octets.iter_mut() {
        for bit in 0..8u8 {
            *octet ^= ((register >> 6) & 1) << bit;
            register = whitening_one_step_on(register);
        }
    }
    octets
}

/// Whether octets are whitened on a channel as the register does.
pub(crate) fn is_whitened_so(channel: u8) -> bool {
    let mut octets = [0x5au8; 260];
    if channel < 40 {
        whiten(channel, &mut octets);
    }
    octets == whitened(channel)
}

/// The first lines have the start of a CRC and octets; the CRC, after an octet of 0, and the octets
/// in which it is sent.
const SUMS: &str = "\
crc 000000 01 = 00032d80 c0b401
crc 000000 0100 = 002d8aed b451b7
crc 555555 = 00555555 aaaaaa
crc fedcba = 00fedcba 7f3b5d
crc 000000 000000 = 00000000 000000
# Octets that are whitened on channel 37.
whiten 37 0000000000 = 8dd257a13d
# Sums of octets, from these starts, as the register does.
register 000000 = None
register 555555 = None
register abcdef = None
# Whitening on these channels, as the register does.
whitens 0 = yes
whitens 1 = yes
whitens 8 = yes
whitens 23 = yes
whitens 36 = yes
whitens 37 = yes
whitens 38 = yes
whitens 39 = yes
";

#[test]
fn sums_and_whitening(rt: HostRuntime) -> Result<(), AllocError> {
    check(&rt, rt.alloc(), SUMS)?;
    remainder_is_modulo();
    crc_goes_on();
    crc_is_linear();
    crc_goes_highest_first();
    short_change_is_seen();
    whitening_goes_bit_by_bit();
    whitening_is_linear();
    Ok(())
}
